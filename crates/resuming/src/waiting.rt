// A resume, where the table and the state have passed their checks: 33, or the exit under the JSR that the state waits at.
ghost use Rattle.std.specs.Prelude.{◌≡◌, true};
ghost use Rattle.resuming.specs.Answers.{Resumes, declining};
ghost use Rattle.resuming.specs.Packing.{Passed};

use super::answers::Answer;
use super::packing::{pack, settle, unpack_links, unpack_words};
use bodies::entry::index;
use exec_calls::{declared_at, take_exit};
use exec_core::Answer as Code;
use states::State;

// The answer of a resume, and the state that it leaves; it takes no step and changes no memory. A refusal's state is the one that was lent.
#[derive(Clone, Copy)]
pub struct Resumed {
    pub answer: Answer,
    pub state: State,
}

// A refusal.
pub fn declined(answer: Answer, state: State) -> Resumed
    ensures { result ≡ declining answer state }
{
    Resumed { answer, state }
}

// The resume of a state that waits.
pub fn resume_waiting(table: &[u32], memory: &[u32], state: State, exit: u32) -> Resumed
    requires { Passed table.now state memory.now × (state.waiting ≡ true) }
    ensures { Resumes table.now state memory.now exit result }
{
    let p = index(state.pc);
    if declared_at(table, p) < exit {
        return declined(Answer::NotResumable, state);
    }
    let mut z = unpack_words(state);
    let r = take_exit(table, p, exit, &mut z);
    if r == Code::IMPOSSIBLE_EXIT {
        return Resumed {
            answer: Answer::ImpossibleExit,
            state: settle(state),
        };
    }
    let links = unpack_links(state);
    Resumed {
        answer: Answer::Resumed,
        state: pack(&z, &links, (r - Code::ON) / Code::ENTRY, false),
    }
}

// The resume of a state that passed its check.
pub fn resume_passed(table: &[u32], memory: &[u32], state: State, exit: u32) -> Resumed
    requires { Passed table.now state memory.now }
    ensures { Resumes table.now state memory.now exit result }
{
    if state.waiting {
        return resume_waiting(table, memory, state, exit);
    }
    declined(Answer::NotResumable, state)
}
