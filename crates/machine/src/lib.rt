// A run with a budget, of a machine that has begun [S Numbers the host sees].
// Any table, memory and state may be lent. A refusal changes no lent word and leaves the state as it is. Refusals are judged in the order
// of their numbers: 30, 31, 32.
#![tactic(auto)]

ghost use Rattle.resuming.specs.Answers.{Runs};

use admission::{Refusal, check_state};
use resuming::answers::{Answer, Ran, refused};
use running::run_passed;
use states::State;

pub mod running;
pub mod steps;

// At most budget steps. Endings: 20 the state waits at the JSR of an EXP, 21 the budget is used, 22 to 29 a step is stopped, and state
// and memory are as before it. Refused: 30 the table, 31 the state, 32 a budget over 1,000,000.
pub fn run(table: &[u32], memory: &mut [u32], state: State, budget: u32) -> Ran
    ensures { Runs table.now state memory.old budget result memory.new }
{
    match check_state(table, memory.len(), state) {
        Ok(()) => run_passed(table, memory, state, budget),
        Err(Refusal::BadTable) => refused(Answer::BadTable, state),
        Err(Refusal::BadState) => refused(Answer::BadState, state),
    }
}
