// A run, where the table and the state have passed their checks: 32, then 20 of a state that waits, then the steps.
ghost use Rattle.std.specs.Prelude.{◌≡◌, false, ◌≤◌};
ghost use Rattle.ops.specs.Machine.{max_budget};
ghost use Rattle.resuming.specs.Answers.{Runs};
ghost use Rattle.resuming.specs.Packing.{Passed};

use super::steps::{steps_taken, take_steps};
use bodies::entry::{CONSTANTS, ENTRY, HEADER, index};
use exec_core::Answer as Code;
use ops::constants::Machine;
use resuming::answers::{Answer, Ran, ending, refused};
use resuming::packing::{pack, settle, unpack_links, unpack_words};
use states::State;

// The run of a state that does not wait.
pub fn run_awake(table: &[u32], memory: &mut [u32], state: State, budget: u32) -> Ran
    requires { Passed table.now state memory.old × (budget ≤ max_budget) × (state.waiting ≡ false) }
    ensures { Runs table.now state memory.old budget result memory.new }
{
    let mut z = unpack_words(state);
    let mut links = unpack_links(state);
    let from = HEADER + ENTRY * index(state.pc);
    let h = take_steps(
        table,
        from,
        memory,
        &mut z,
        &mut links,
        index(table[CONSTANTS]),
        budget,
    );
    let last = pack(&z, &links, h.b / ENTRY - 1, h.how == Code::WAITS);
    Ran {
        answer: ending(h.how),
        steps: steps_taken(h.how, budget, h.left),
        state: last,
    }
}

// The run of a state that passed its check.
pub fn run_passed(table: &[u32], memory: &mut [u32], state: State, budget: u32) -> Ran
    requires { Passed table.now state memory.old }
    ensures { Runs table.now state memory.old budget result memory.new }
{
    if Machine::MAX_BUDGET < budget {
        return refused(Answer::OverBudget, state);
    }
    if state.waiting {
        return Ran {
            answer: Answer::Waits,
            steps: 0,
            state: settle(state),
        };
    }
    run_awake(table, memory, state, budget)
}
