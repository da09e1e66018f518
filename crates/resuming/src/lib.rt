// A resume with an exit, of a machine that waits; the answers of runs and resumes; the host's state as the words that a step is lent, and back
// [S Numbers the host sees]. Any table, memory and state may be lent. A refusal leaves the state as it is. Refusals are judged in the order of
// their numbers: 30, 31, 33.
#![tactic(auto)]

ghost use Rattle.resuming.specs.Answers.{Resumes};

use admission::{Refusal, check_state};
use answers::Answer;
use states::State;
use waiting::{Resumed, declined, resume_passed};

pub mod answers;
pub mod packing;
pub mod waiting;

// The exit under the JSR of an EXP that the state waits at: 0 for none, else its number. Answers: 0 the state goes on from there, 26 the
// exit's PPM has no label, and the state still waits. Refused: 30 the table, 31 the state, 33 a state that does not wait, or an exit
// above the count that the EXP declares.
pub fn resume(table: &[u32], memory: &[u32], state: State, exit: u32) -> Resumed
    ensures { Resumes table.now state memory.now exit result }
{
    match check_state(table, memory.len(), state) {
        Ok(()) => resume_passed(table, memory, state, exit),
        Err(Refusal::BadTable) => declined(Answer::BadTable, state),
        Err(Refusal::BadState) => declined(Answer::BadState, state),
    }
}
