// The state check: a state passes, or it does not, for any state at all [S Numbers the host sees].
ghost use Rattle.std.specs.Prelude.{◌≡◌, List, ℕ, ◌≤◌, length, take};
ghost use Rattle.base.specs.Test.{Ok};
ghost use Rattle.rules.specs.Check.{table_ok};
ghost use Rattle.rules.specs.State.{memory_fits, state_ok};
ghost use Rattle.rules.specs.Table.{executable, size};
ghost use Rattle.bodies.specs.Bodies.{Entries, Filled};
ghost use Rattle.states.specs.Views.{state_of};
ghost use Rattle.state_check.specs.Checked.{placed_ok};

use super::calls::awaits;
use super::chain::{chained, covered};
use bodies::body::{ROOM, bodies};
use bodies::entry::{
    CONSTANTS, ENP, ENTRY, ERR, ESW, HEADER, IFF, PPM, PRC, SIZE, WORKINGS, index,
};
use ops::constants::Machine;
use reals::reals_ok;
use states::State;

// Memory of len words fits the table.
pub fn memory_fits(t: &[u32], len: usize) -> bool
    requires { 8 ≤ length t.now }
    ensures { result ≡ memory_fits t.now len }
{
    if len < Machine::MIN_MEMORY {
        return false;
    }
    if Machine::MAX_MEMORY < len {
        return false;
    }
    index(t[CONSTANTS]) + index(t[WORKINGS]) + Machine::STACK_WORDS <= len
}

// Place p of a lawful table of n entries can be arrived at; p may lie past the table.
pub fn arrives(t: &[u32], n: usize, p: usize) -> bool
    requires { Ok (table_ok t.now) × Entries t.now n }
    ensures { result ≡ executable t.now p }
{
    if n <= p {
        return false;
    }
    match t[HEADER + ENTRY * p] {
        IFF => false,
        ESW => false,
        PPM => false,
        PRC => false,
        ENP => false,
        ERR => false,
        _ => true,
    }
}

// Place p can be arrived at, is covered by the k oldest links and, where the state waits, is the JSR of an EXP.
pub fn placed(
    t: &[u32],
    n: usize,
    body: &[u32],
    links: &[u32],
    k: usize,
    p: usize,
    waiting: bool,
) -> bool
    requires { Ok (table_ok t.now) × Entries t.now n × Filled t.now n body.now × (k ≤ length links.now) }
    ensures { result ≡ placed_ok t.now p (take k links.now) waiting }
{
    if !arrives(t, n, p) {
        return false;
    }
    if !covered(t, n, body, links, k, p) {
        return false;
    }
    if waiting {
        return awaits(t, n, p);
    }
    true
}

// The state passes its check, over the bodies of a lawful table; memory is any of len words.
pub fn state_ok_with(t: &[u32], body: &[u32], len: usize, s: State) -> bool
    requires { Ok (table_ok t.now) × Filled t.now (size t.now) body.now }
    ensures { (mem : List ℕ) → length mem ≡ len → result ≡ state_ok t.now (state_of s mem) }
{
    let n = index(t[SIZE]);
    let k = index(s.count);
    let p = index(s.pc);
    let links = s.links;
    if !reals_ok(s.ra_high, s.real_flag) {
        return false;
    }
    if !memory_fits(t, len) {
        return false;
    }
    if Machine::MAX_LINKS < k {
        return false;
    }
    if !chained(t, n, body, &links, k) {
        return false;
    }
    placed(t, n, body, &links, k, p, s.waiting)
}

// The same, with a pass over the table for the bodies.
pub fn state_ok(t: &[u32], len: usize, s: State) -> bool
    requires { Ok (table_ok t.now) }
    ensures { (mem : List ℕ) → length mem ≡ len → result ≡ state_ok t.now (state_of s mem) }
{
    let mut body = [0u32; ROOM];
    bodies(t, index(t[SIZE]), &mut body);
    state_ok_with(t, &body, len, s)
}
