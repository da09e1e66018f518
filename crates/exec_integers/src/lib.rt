// Integers: LDI, ADI, MLI, SBI, DVI, RMI, STI, NGI, MTI, MFI, CVM, CVD. The accumulator IA and the overflow flag are words of z.
// Each answers 64 + the offset of the next entry, or 22, 23 or 29, which leave registers and memory as they were.
// Sum, product and the rest are a function each, with no parameter for which: `dispatch` calls it from one arm, and so it is folded into the loop.
#![tactic(auto)]

ghost use Rattle.std.specs.Prelude.{◌≡◌, ◌+◌, ◌≤◌, leb, length};
ghost use Rattle.base.specs.Test.{if};
ghost use Rattle.ops.specs.Machine.{cfp_m, max_instrs};
ghost use Rattle.ops.specs.Ops as Op;
ghost use Rattle.rules.specs.Table.{entry_at};
ghost use Rattle.rules.specs.Operand.{fetch_of};
ghost use Rattle.rules.specs.Effect.{shown};
ghost use Rattle.exec_core.specs.Views.{does, branches, way_of, fetched_of, operand_at, AnyMem};
ghost use Rattle.exec_core.specs.Entry.{Entry, readable, writable, is_place, steady, going};

use accumulator::{accumulate, divide, in_range_or, last_digit, no_digit, shifted};
use exec_core::Answer;
use exec_core::operands::{act, fetch, operand, store, to_first, to_second};
use ops::constants::Machine;
use ops::format::PLACE_KIND;

// What operand one holds, of a kind that moves no register.
fn load(t: &[u32], b: usize, m: &[u32], z: &[u32; 16]) -> Option<u32>
    requires { Entry steady readable going t.now b z.now }
    ensures { fetched_of result ≡ fetch_of z.now m.now (operand_at t.now (b + 1)) }
{
    fetch(m, z, operand(t, b + 1))
}

// [M 4.1] LDI: IA := operand one
pub fn ldi(t: &[u32], b: usize, m: &[u32], z: &mut [u32; 16]) -> usize
    requires { Entry steady readable going t.now b z.old }
    ensures { shown result z.new m.now ≡ does t.now b 0 0 z.old m.now Op.LDI }
{
    let Some(v) = load(t, b, m, z) else {
        return Answer::BAD_ADDRESS;
    };
    z[Machine::IA] = v;
    b + Answer::ON
}

// [M 4.2] ADI: IA := IA + operand one; the flag says whether the sum is out of range
pub fn adi(t: &[u32], b: usize, m: &[u32], z: &mut [u32; 16]) -> usize
    requires { Entry steady readable going t.now b z.old }
    ensures { shown result z.new m.now ≡ does t.now b 0 0 z.old m.now Op.ADI }
{
    let Some(v) = load(t, b, m, z) else {
        return Answer::BAD_ADDRESS;
    };
    let n = integers::sum(z[Machine::IA], v);
    accumulate(z, n);
    b + Answer::ON
}

// [M 4.3] MLI: IA := IA × operand one; the flag says whether the product is out of range
pub fn mli(t: &[u32], b: usize, m: &[u32], z: &mut [u32; 16]) -> usize
    requires { Entry steady readable going t.now b z.old }
    ensures { shown result z.new m.now ≡ does t.now b 0 0 z.old m.now Op.MLI }
{
    let Some(v) = load(t, b, m, z) else {
        return Answer::BAD_ADDRESS;
    };
    let n = integers::product(z[Machine::IA], v);
    accumulate(z, n);
    b + Answer::ON
}

// [M 4.4] SBI: IA := IA - operand one; the flag says whether the difference is out of range
pub fn sbi(t: &[u32], b: usize, m: &[u32], z: &mut [u32; 16]) -> usize
    requires { Entry steady readable going t.now b z.old }
    ensures { shown result z.new m.now ≡ does t.now b 0 0 z.old m.now Op.SBI }
{
    let Some(v) = load(t, b, m, z) else {
        return Answer::BAD_ADDRESS;
    };
    let n = integers::difference(z[Machine::IA], v);
    accumulate(z, n);
    b + Answer::ON
}

// [M 4.5] [02 Wish 1] DVI: IA := IA / operand one, cut toward zero; the flag says whether it is out of range, as only -2147483648 by -1 is; by 0 IA stays and the flag is on
pub fn dvi(t: &[u32], b: usize, m: &[u32], z: &mut [u32; 16]) -> usize
    requires { Entry steady readable going t.now b z.old }
    ensures { shown result z.new m.now ≡ does t.now b 0 0 z.old m.now Op.DVI }
{
    let Some(v) = load(t, b, m, z) else {
        return Answer::BAD_ADDRESS;
    };
    let n = integers::quotient(z[Machine::IA], v);
    divide(z, v, n);
    b + Answer::ON
}

// [M 4.6] RMI: IA := the remainder of IA / operand one, with IA's sign, the flag off; by 0 IA stays and the flag is on
pub fn rmi(t: &[u32], b: usize, m: &[u32], z: &mut [u32; 16]) -> usize
    requires { Entry steady readable going t.now b z.old }
    ensures { shown result z.new m.now ≡ does t.now b 0 0 z.old m.now Op.RMI }
{
    let Some(v) = load(t, b, m, z) else {
        return Answer::BAD_ADDRESS;
    };
    let n = integers::remainder(z[Machine::IA], v);
    divide(z, v, n);
    b + Answer::ON
}

// [M 4.7] STI: operand one := IA
pub fn sti(t: &[u32], b: usize, m: &mut [u32], z: &mut [u32; 16], c: usize) -> usize
    requires { Entry writable readable going t.now b z.old }
    ensures { shown result z.new m.new ≡ does t.now b 0 c z.old m.old Op.STI }
{
    let one = operand(t, b + 1);
    let v = z[Machine::IA];
    store(m, z, c, one, v, 0, 0, b + Answer::ON)
}

// [M 4.8] NGI: IA := -IA; the flag says whether it is out of range
pub fn ngi(t: &[u32], b: usize, z: &mut [u32; 16]) -> usize
    requires { Entry readable readable going t.now b z.old }
    ensures { AnyMem (shown result z.new) (λ m. does t.now b 0 0 z.old m Op.NGI) }
{
    let n = integers::negation(z[Machine::IA]);
    accumulate(z, n);
    b + Answer::ON
}

// [M 8.3] MTI: IA := operand one
pub fn mti(t: &[u32], b: usize, m: &[u32], z: &mut [u32; 16]) -> usize
    requires { Entry readable readable going t.now b z.old }
    ensures { shown result z.new m.now ≡ does t.now b 0 0 z.old m.now Op.MTI }
{
    let one = operand(t, b + 1);
    let Some(v) = fetch(m, z, one) else {
        return Answer::BAD_ADDRESS;
    };
    act(z, one);
    z[Machine::IA] = v;
    b + Answer::ON
}

// [M 8.4] MFI: operand one := IA, IA := 0; where IA is out of range operand one keeps its word and operand two is branched to
pub fn mfi(t: &[u32], b: usize, m: &mut [u32], z: &mut [u32; 16], c: usize) -> usize
    requires { Entry writable readable going t.now b z.old }
    ensures { shown result z.new m.new ≡ branches t.now b 0 c z.old m.old Op.MFI }
{
    let one = operand(t, b + 1);
    let i = z[Machine::IA];
    z[Machine::IA] = 0;
    let Some(w) = fetch(m, z, one) else {
        z[Machine::IA] = i;
        return Answer::BAD_ADDRESS;
    };
    let v = in_range_or(i, w);
    let on = after_range(t, b, i);
    store(m, z, c, one, v, Machine::IA, i, on)
}

// MFI's answer: the next entry for i in range, else operand two's place where there is one.
fn after_range(t: &[u32], b: usize, i: u32) -> usize
    requires { (b + 8 ≤ length t.now) × (b ≤ entry_at max_instrs) }
    ensures { result ≡ way_of t.now b (if (leb i cfp_m) 0 2) }
{
    if i <= Machine::CFP_M {
        return b + Answer::ON;
    }
    if t[b + 4] == PLACE_KIND {
        return to_second(t, b);
    }
    b + Answer::ON
}

// [M 8.11] CVM: IA := IA × 10 - the digit in WB, WB := 0; out of range IA stays and operand one is branched to
pub fn cvm(t: &[u32], b: usize, z: &mut [u32; 16]) -> usize
    requires { Entry is_place readable going t.now b z.old }
    ensures { AnyMem (shown result z.new) (λ m. branches t.now b 0 0 z.old m Op.CVM) }
{
    let a = z[Machine::IA];
    let d = z[Machine::WB];
    if no_digit(a, d) {
        return Answer::BAD_DIGIT;
    }
    let n = shifted(a, d);
    if integers::fits(n) {
        z[Machine::IA] = integers::low(n);
        z[Machine::WB] = 0;
        return b + Answer::ON;
    }
    z[Machine::WB] = 0;
    to_first(t, b)
}

// [M 8.12] CVD: WA := the digit of IA's remainder by ten, IA := IA / 10, cut toward zero
pub fn cvd(t: &[u32], b: usize, z: &mut [u32; 16]) -> usize
    requires { Entry readable readable going t.now b z.old }
    ensures { AnyMem (shown result z.new) (λ m. does t.now b 0 0 z.old m Op.CVD) }
{
    let a = z[Machine::IA];
    if integers::positive(a) {
        return Answer::BAD_DIGIT;
    }
    z[Machine::IA] = integers::low(integers::quotient(a, 10));
    z[Machine::WA] = last_digit(a);
    b + Answer::ON
}
