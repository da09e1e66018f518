// The run itself: a step after the other, until the budget is used or a step waits or is stopped.
ghost use Rattle.std.specs.Prelude.{◌≡◌, ◌-◌, ◌≤◌};
ghost use Rattle.ops.specs.Machine.{max_budget};
ghost use Rattle.exec_core.specs.Seen.{Running};
ghost use Rattle.machine.specs.Halting.{Halts, steps_taken_of};

use dispatch::dispatch;
use exec_core::Answer;
use resuming::answers::USED;

// Where a run halts: the number of its ending, the offset of the entry that it stands at, and what is left of its budget.
#[derive(Clone, Copy)]
pub struct Halted {
    pub how: usize,
    pub b: usize,
    pub left: u32,
}

// The steps that a run took: a JSR to an EXP is one, a step that a trap stops is none [S What 003 leaves open].
pub fn steps_taken(how: usize, budget: u32, left: u32) -> u32
    requires { (left ≤ budget) × (budget ≤ max_budget) }
    ensures { result ≡ steps_taken_of how (budget - left) }
{
    if how == Answer::WAITS {
        return budget - left + 1;
    }
    budget - left
}

// At most budget steps from the entry at offset `from`; a used budget is judged before the next step is tried.
pub fn take_steps(
    t: &[u32],
    from: usize,
    m: &mut [u32],
    z: &mut [u32; 16],
    links: &mut [u32; 257],
    c: usize,
    budget: u32,
) -> Halted
    requires { Running t.now from z.old m.old links.old c }
    ensures { Halts t.now from budget z.old m.old links.old result z.new m.new links.new }
{
    let mut b = from;
    let mut left = budget;
    let how = loop {
        if left == 0 {
            break USED;
        }
        let how = dispatch(t, b, m, z, links, c);
        if how < Answer::BASE {
            break how;
        }
        b = how - Answer::BASE;
        left -= 1;
    };
    Halted { how, b, left }
}
