// Moves and arithmetic on words: MOV, ICV, DCV, ZER, MNZ, SSL, ADD, SUB, ICA, DCA, LCT, AOV.
// Each answers 64 + the offset of the next entry, or 22 or 23, which leave registers and memory as they were.
// ADD and SUB, ICV and ICA and their like are a function each: `dispatch` calls it from one arm, and so it is folded into the loop.
#![tactic(auto)]

ghost use Rattle.std.specs.Prelude.{◌≡◌, ◌<◌, ◌≤◌, ◌+◌, length, ltb};
ghost use Rattle.base.specs.Lists.{◌at◌};
ghost use Rattle.ops.specs.Machine.{cfp_m, max_instrs};
ghost use Rattle.ops.specs.Ops as Op;
ghost use Rattle.rules.specs.Table.{entry_at};
ghost use Rattle.rules.specs.Effect.{shown};
ghost use Rattle.rules.specs.Exec.{fork};
ghost use Rattle.exec_core.specs.Views.{does, branches, way_of};
ghost use Rattle.exec_core.specs.Entry.{Entry, readable, writable, in_register, going, branching};

use exec_core::Answer;
use exec_core::operands::{act, fetch, index, operand, store, sum, to_third};
use ops::constants::Machine;

// The largest value of a sum that does not overflow.
const CFP_M: u64 = Machine::CFP_M as u64;

// [M 1.1] MOV: operand two := operand one
pub fn mov(t: &[u32], b: usize, m: &mut [u32], z: &mut [u32; 16], c: usize) -> usize
    requires { Entry readable writable going t.now b z.old }
    ensures { shown result z.new m.new ≡ does t.now b 0 c z.old m.old Op.MOV }
{
    let one = operand(t, b + 1);
    let two = operand(t, b + 4);
    let Some(v) = fetch(m, z, one) else {
        return Answer::BAD_ADDRESS;
    };
    let x = index(one.reg);
    let old = z[x];
    act(z, one);
    store(m, z, c, two, v, x, old, b + Answer::ON)
}

// [M 1.16] ICV: operand one := operand one + 1, wrapped
pub fn icv(t: &[u32], b: usize, m: &mut [u32], z: &mut [u32; 16], c: usize) -> usize
    requires { Entry writable readable going t.now b z.old }
    ensures { shown result z.new m.new ≡ does t.now b 0 c z.old m.old Op.ICV }
{
    let one = operand(t, b + 1);
    let Some(w) = fetch(m, z, one) else {
        return Answer::BAD_ADDRESS;
    };
    store(m, z, c, one, words::add(w, 1), 0, 0, b + Answer::ON)
}

// [M 1.17] DCV: operand one := operand one - 1, wrapped
pub fn dcv(t: &[u32], b: usize, m: &mut [u32], z: &mut [u32; 16], c: usize) -> usize
    requires { Entry writable readable going t.now b z.old }
    ensures { shown result z.new m.new ≡ does t.now b 0 c z.old m.old Op.DCV }
{
    let one = operand(t, b + 1);
    let Some(w) = fetch(m, z, one) else {
        return Answer::BAD_ADDRESS;
    };
    store(m, z, c, one, words::sub(w, 1), 0, 0, b + Answer::ON)
}

// [M 1.18] ZER: operand one := 0
pub fn zer(t: &[u32], b: usize, m: &mut [u32], z: &mut [u32; 16], c: usize) -> usize
    requires { Entry writable readable going t.now b z.old }
    ensures { shown result z.new m.new ≡ does t.now b 0 c z.old m.old Op.ZER }
{
    let one = operand(t, b + 1);
    store(m, z, c, one, 0, 0, 0, b + Answer::ON)
}

// [M 1.19] MNZ: operand one := 1
pub fn mnz(t: &[u32], b: usize, m: &mut [u32], z: &mut [u32; 16], c: usize) -> usize
    requires { Entry writable readable going t.now b z.old }
    ensures { shown result z.new m.new ≡ does t.now b 0 c z.old m.old Op.MNZ }
{
    let one = operand(t, b + 1);
    store(m, z, c, one, 1, 0, 0, b + Answer::ON)
}

// [M 1.20] SSL: operand one := the number k of open calls
pub fn ssl(t: &[u32], b: usize, m: &mut [u32], z: &mut [u32; 16], c: usize, k: u32) -> usize
    requires { Entry writable readable going t.now b z.old }
    ensures { shown result z.new m.new ≡ does t.now b k c z.old m.old Op.SSL }
{
    let one = operand(t, b + 1);
    store(m, z, c, one, k, 0, 0, b + Answer::ON)
}

// [M 2.1] ADD: operand two := operand two + operand one, wrapped
pub fn add(t: &[u32], b: usize, m: &mut [u32], z: &mut [u32; 16], c: usize) -> usize
    requires { Entry readable writable going t.now b z.old }
    ensures { shown result z.new m.new ≡ does t.now b 0 c z.old m.old Op.ADD }
{
    let one = operand(t, b + 1);
    let two = operand(t, b + 4);
    let Some(v) = fetch(m, z, one) else {
        return Answer::BAD_ADDRESS;
    };
    let x = index(one.reg);
    let old = z[x];
    act(z, one);
    let Some(w) = fetch(m, z, two) else {
        z[x] = old;
        return Answer::BAD_ADDRESS;
    };
    store(m, z, c, two, words::add(w, v), x, old, b + Answer::ON)
}

// [M 2.2] SUB: operand two := operand two - operand one, wrapped
pub fn sub(t: &[u32], b: usize, m: &mut [u32], z: &mut [u32; 16], c: usize) -> usize
    requires { Entry readable writable going t.now b z.old }
    ensures { shown result z.new m.new ≡ does t.now b 0 c z.old m.old Op.SUB }
{
    let one = operand(t, b + 1);
    let two = operand(t, b + 4);
    let Some(v) = fetch(m, z, one) else {
        return Answer::BAD_ADDRESS;
    };
    let x = index(one.reg);
    let old = z[x];
    act(z, one);
    let Some(w) = fetch(m, z, two) else {
        z[x] = old;
        return Answer::BAD_ADDRESS;
    };
    store(m, z, c, two, words::sub(w, v), x, old, b + Answer::ON)
}

// [M 2.3] ICA: operand one := operand one + the bytes of a word, wrapped
pub fn ica(t: &[u32], b: usize, m: &mut [u32], z: &mut [u32; 16], c: usize) -> usize
    requires { Entry writable readable going t.now b z.old }
    ensures { shown result z.new m.new ≡ does t.now b 0 c z.old m.old Op.ICA }
{
    let one = operand(t, b + 1);
    let Some(w) = fetch(m, z, one) else {
        return Answer::BAD_ADDRESS;
    };
    store(
        m,
        z,
        c,
        one,
        words::add(w, Machine::CFP_B),
        0,
        0,
        b + Answer::ON,
    )
}

// [M 2.4] DCA: operand one := operand one - the bytes of a word, wrapped
pub fn dca(t: &[u32], b: usize, m: &mut [u32], z: &mut [u32; 16], c: usize) -> usize
    requires { Entry writable readable going t.now b z.old }
    ensures { shown result z.new m.new ≡ does t.now b 0 c z.old m.old Op.DCA }
{
    let one = operand(t, b + 1);
    let Some(w) = fetch(m, z, one) else {
        return Answer::BAD_ADDRESS;
    };
    store(
        m,
        z,
        c,
        one,
        words::sub(w, Machine::CFP_B),
        0,
        0,
        b + Answer::ON,
    )
}

// [M 2.15] LCT: register one := operand two
pub fn lct(t: &[u32], b: usize, m: &mut [u32], z: &mut [u32; 16], c: usize) -> usize
    requires { Entry in_register readable going t.now b z.old }
    ensures { shown result z.new m.new ≡ does t.now b 0 c z.old m.old Op.LCT }
{
    let one = operand(t, b + 1);
    let two = operand(t, b + 4);
    let Some(v) = fetch(m, z, two) else {
        return Answer::BAD_ADDRESS;
    };
    act(z, two);
    let x = index(one.reg);
    z[x] = v;
    b + Answer::ON
}

// [M 2.17] AOV: operand two := operand two + operand one, wrapped; branches where the true sum is above the largest value
pub fn aov(t: &[u32], b: usize, m: &mut [u32], z: &mut [u32; 16], c: usize) -> usize
    requires { Entry readable writable branching t.now b z.old }
    ensures { shown result z.new m.new ≡ branches t.now b 0 c z.old m.old Op.AOV }
{
    let one = operand(t, b + 1);
    let two = operand(t, b + 4);
    let Some(v) = fetch(m, z, one) else {
        return Answer::BAD_ADDRESS;
    };
    let x = index(one.reg);
    let old = z[x];
    act(z, one);
    let Some(w) = fetch(m, z, two) else {
        z[x] = old;
        return Answer::BAD_ADDRESS;
    };
    let on = overflow(t, b, w, v);
    store(m, z, c, two, words::add(w, v), x, old, on)
}

// AOV's answer: the third operand's place where the sum is above the largest value, else the next entry.
fn overflow(t: &[u32], b: usize, w: u32, v: u32) -> usize
    requires { (b + 8 ≤ length t.now) × (b ≤ entry_at max_instrs) × (0 < t.now at (b + 7)) }
    ensures { result ≡ way_of t.now b (fork 3 (ltb cfp_m (w + v))) }
{
    if CFP_M < sum(w, v) {
        return to_third(t, b);
    }
    b + Answer::ON
}
