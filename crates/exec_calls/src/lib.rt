// Calls and their exits [M section 1]: JSR, EXI, SSS, and the exit that a JSR's callee takes.
// Each answers 64 + the offset of the next entry, 20 at the JSR of an EXP, or the number of a trap, which leaves all as it was.
// The lent links are the places of the open calls, oldest first, and behind the room for 256 of them their count.
#![tactic(auto)]

ghost use Rattle.std.specs.Prelude.{◌≡◌, ◌≤◌, length};
ghost use Rattle.base.specs.Lists.{◌at◌};
ghost use Rattle.ops.specs.Class as Class;
ghost use Rattle.ops.specs.Ops as Op;
ghost use Rattle.rules.specs.Table.{callee, declared, section6};
ghost use Rattle.exec_core.specs.Views.{toward};
ghost use Rattle.exec_calls.specs.Stands.{Stands, Calls, Few, Open};
ghost use Rattle.exec_calls.specs.Shows.{AnyCore, Leaves, Cuts, TakesExit};

use bodies::entry::{ENTRY, HEADER, KIND, PPM, SIZE, VALUE};
use exec_core::Answer;
use exec_core::operands::{act, fetch, index, operand};
use ops::constants::Machine;
use ops::format::{EXTERNAL_KIND, PLACE_KIND};

// Words of the header: fresh words, the start place of section 6.
const FRESH: usize = 3;

const SECTION6: usize = 7;

// The answer that goes to the place q.
pub fn to_place(q: u32) -> usize
    ensures { result ≡ toward q }
{
    Answer::ENTRY * index(q) + Answer::ON
}

// The answer that goes to section 6, which takes errors.
pub fn to_errors(t: &[u32]) -> usize
    requires { 8 ≤ length t.now }
    ensures { result ≡ toward (section6 t.now) }
{
    to_place(t[SECTION6])
}

// [M 1.9] JSR: to the place after the PRC with a link more, or 27; at an EXP it waits
pub fn jsr(t: &[u32], b: usize, links: &mut [u32; 257]) -> usize
    requires { Stands t.now b 109 × Few links.old }
    ensures { AnyCore result links.new t.now b links.old Class.JSR }
{
    if t[b + KIND] == EXTERNAL_KIND {
        return Answer::WAITS;
    }
    let count = links[Machine::MAX_LINKS];
    let k = index(count);
    if Machine::MAX_LINKS <= k {
        return Answer::LINKS_FULL;
    }
    links[k] = (b / ENTRY - 1) as u32;
    links[Machine::MAX_LINKS] = count + 1;
    Answer::ENTRY * (index(t[b + VALUE]) + 1) + Answer::ON
}

// How many exits the callee of the JSR at place j declares.
pub fn declared_at(t: &[u32], j: usize) -> u32
    requires { Calls t.now j }
    ensures { result ≡ declared t.now (callee t.now j) }
{
    let i = HEADER + ENTRY * j;
    let v = index(t[i + VALUE]);
    if t[i + KIND] == EXTERNAL_KIND {
        return t[HEADER + ENTRY * index(t[SIZE]) + index(t[FRESH]) + v];
    }
    t[HEADER + ENTRY * v + VALUE]
}

// Exit k under the JSR at place j (0: past the last exit): to a place, to section 6 with the code in WA, or 26 [M 1.10] [M 1.14].
pub fn take_exit(t: &[u32], j: usize, k: u32, z: &mut [u32; 16]) -> usize
    requires { Calls t.now j × (k ≤ declared t.now (callee t.now j)) }
    ensures { TakesExit result z.new t.now j k z.old }
{
    if k == 0 {
        return Answer::ENTRY * (j + index(declared_at(t, j)) + 1) + Answer::ON;
    }
    let i = HEADER + ENTRY * (j + index(k));
    if t[i] == PPM {
        if t[i + KIND] == PLACE_KIND {
            return to_place(t[i + VALUE]);
        }
        return Answer::IMPOSSIBLE_EXIT;
    }
    z[Machine::WA] = t[i + VALUE];
    to_errors(t)
}

// [M 1.12] EXI: the youngest link is dropped, and its exit is taken; 26 keeps the link
pub fn exi(t: &[u32], b: usize, z: &mut [u32; 16], links: &mut [u32; 257]) -> usize
    requires { Stands t.now b 112 × Few links.old × Open t.now b links.old }
    ensures { Leaves result z.new links.new t.now b z.old links.old Class.EXI }
{
    let left = links[Machine::MAX_LINKS] - 1;
    let j = index(links[index(left)]);
    let r = take_exit(t, j, t[b + VALUE], z);
    if r != Answer::IMPOSSIBLE_EXIT {
        links[Machine::MAX_LINKS] = left;
    }
    r
}

// [M 1.21] SSS: the oldest links stay, as many as operand one says, or 28
pub fn sss(t: &[u32], b: usize, m: &[u32], z: &mut [u32; 16], links: &mut [u32; 257]) -> usize
    requires { Stands t.now b 121 × (z.old at 0 ≡ 0) × Few links.old }
    ensures { Cuts result z.new links.new t.now b z.old m.now links.old Class.SSS Op.reads }
{
    let one = operand(t, b + 1);
    let Some(v) = fetch(m, z, one) else {
        return Answer::BAD_ADDRESS;
    };
    if links[Machine::MAX_LINKS] < v {
        return Answer::ABOVE_COUNT;
    }
    act(z, one);
    links[Machine::MAX_LINKS] = v;
    b + Answer::ON
}
