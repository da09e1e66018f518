// The checks that every call of the host begins with: of the table, then of the state [S Numbers the host sees].
#![tactic(auto)]

ghost use Rattle.std.specs.Prelude.{◌≡◌, List, ℕ, length};
ghost use Rattle.admission.specs.Admit.{verdict_of};
ghost use Rattle.rules.specs.Run.{admitted};
ghost use Rattle.states.specs.Views.{state_of};

use state_check::passing::state_ok;
use states::State;
use tables::check_table;

// The first of the checks that fails.
#[derive(Clone, Copy)]
pub enum Refusal {
    BadTable,
    BadState,
}

// Whether a state with len words of memory may be run on a table: refused by 30, then by 31. Any table and any state may be asked.
pub fn check_state(table: &[u32], len: usize, s: State) -> Result<(), Refusal>
    ensures { (mem : List ℕ) → length mem ≡ len → verdict_of result ≡ admitted table.now (state_of s mem) }
{
    if !check_table(table) {
        return Err(Refusal::BadTable);
    }
    if state_ok(table, len, s) {
        return Ok(());
    }
    Err(Refusal::BadState)
}
