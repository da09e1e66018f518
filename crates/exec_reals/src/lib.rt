// Real operations: LDR, STR, ADR, SBR, MLR, DVR, ROV, RNO, NGR, REQ, RGE, RGT, RLE, RLT, RNE, ITR, RTI [02 Wish 5]. RA's two words and its flag are words of z.
// Each answers 64 + the offset of the next entry or of the place that it branches to, or 22 or 23, which leave registers and memory as they were.
#![tactic(auto)]

ghost use Rattle.std.specs.Prelude.{◌≡◌, ◌+◌};
ghost use Rattle.ops.specs.Ops as Op;
ghost use Rattle.rules.specs.Effect.{shown};
ghost use Rattle.rules.specs.Pair.{pair_of};
ghost use Rattle.exec_core.specs.Views.{does, branches, operand_at, AnyMem};
ghost use Rattle.exec_core.specs.Entry.{Entry, readable, is_place, steady, going};
ghost use Rattle.exec_reals.specs.Views.{pair_view, computing, comparing};

use exec_branches::first_if;
use exec_core::Answer;
use exec_core::operands::{address, operand, to_first, word_at};
use ops::constants::Machine;
use ops::format::PLACE_KIND;
use reals::{Arithmetic, Comparison, ra, settle};

// The pair that operand one names.
fn load(t: &[u32], b: usize, m: &[u32], z: &[u32; 16]) -> Option<(u32, u32)>
    requires { Entry steady readable going t.now b z.now }
    ensures { pair_view result ≡ pair_of z.now m.now (operand_at t.now (b + 1)) }
{
    let i = word_at(m.len(), address(z, operand(t, b + 1)))?;
    let j = i + 1;
    if j < m.len() {
        return Some((m[i], m[j]));
    }
    None
}

// [M 5.1] LDR: RA := operand one; not finite, RA stays and the flag is on
pub fn ldr(t: &[u32], b: usize, m: &[u32], z: &mut [u32; 16]) -> usize
    requires { Entry steady readable going t.now b z.old }
    ensures { shown result z.new m.now ≡ does t.now b 0 0 z.old m.now Op.LDR }
{
    let Some((v, w)) = load(t, b, m, z) else {
        return Answer::BAD_ADDRESS;
    };
    let x = reals::real_of(v, w);
    settle(z, x);
    b + Answer::ON
}

// [M 5.2] STR: operand one := RA; 22 where a word of the pair is not in memory, then 23 where the first is a constant
pub fn str(t: &[u32], b: usize, m: &mut [u32], z: &[u32; 16], c: usize) -> usize
    requires { Entry steady readable going t.now b z.now }
    ensures { shown result z.now m.new ≡ does t.now b 0 c z.now m.old Op.STR }
{
    let Some(i) = word_at(m.len(), address(z, operand(t, b + 1))) else {
        return Answer::BAD_ADDRESS;
    };
    let j = i + 1;
    if m.len() <= j {
        return Answer::BAD_ADDRESS;
    }
    if i < c {
        return Answer::CONSTANT_WRITE;
    }
    m[i] = z[Machine::RA];
    m[j] = z[Machine::RA_HIGH];
    b + Answer::ON
}

// [M 5.3] ADR, [M 5.4] SBR, [M 5.5] MLR, [M 5.6] DVR: RA := RA with operand one; on overflow, as by a zero divisor, RA stays and the flag is on
pub fn arithmetic(t: &[u32], b: usize, m: &[u32], z: &mut [u32; 16], o: Arithmetic) -> usize
    requires { Entry steady readable going t.now b z.old }
    ensures { shown result z.new m.now ≡ does t.now b 0 0 z.old m.now (computing o) }
{
    let Some((v, w)) = load(t, b, m, z) else {
        return Answer::BAD_ADDRESS;
    };
    let x = reals::compute(o, ra(z), reals::real_of(v, w));
    settle(z, x);
    b + Answer::ON
}

// [M 5.7] ROV: to operand one if the flag is on
pub fn rov(t: &[u32], b: usize, z: &[u32; 16]) -> usize
    requires { Entry is_place readable going t.now b z.now }
    ensures { AnyMem (shown result z.now) (λ m. branches t.now b 0 0 z.now m Op.ROV) }
{
    first_if(t, b, z[Machine::REAL_FLAG] == 1)
}

// [M 5.8] RNO: to operand one if the flag is off
pub fn rno(t: &[u32], b: usize, z: &[u32; 16]) -> usize
    requires { Entry is_place readable going t.now b z.now }
    ensures { AnyMem (shown result z.now) (λ m. branches t.now b 0 0 z.now m Op.RNO) }
{
    first_if(t, b, z[Machine::REAL_FLAG] == 0)
}

// [M 5.9] NGR: RA := -RA, a zero's sign too
pub fn ngr(t: &[u32], b: usize, z: &mut [u32; 16]) -> usize
    requires { Entry readable readable going t.now b z.old }
    ensures { AnyMem (shown result z.new) (λ m. does t.now b 0 0 z.old m Op.NGR) }
{
    let x = reals::negate(ra(z));
    settle(z, x);
    b + Answer::ON
}

// [M 5.10] REQ, [M 5.11] RGE, [M 5.12] RGT, [M 5.13] RLE, [M 5.14] RLT, [M 5.15] RNE: to operand one if RA compares with 0 so
pub fn compare(t: &[u32], b: usize, z: &[u32; 16], o: Comparison) -> usize
    requires { Entry is_place readable going t.now b z.now }
    ensures { AnyMem (shown result z.now) (λ m. branches t.now b 0 0 z.now m (comparing o)) }
{
    first_if(t, b, reals::compares(o, ra(z)))
}

// [M 8.5] ITR: RA := IA
pub fn itr(t: &[u32], b: usize, z: &mut [u32; 16]) -> usize
    requires { Entry readable readable going t.now b z.old }
    ensures { AnyMem (shown result z.new) (λ m. does t.now b 0 0 z.old m Op.ITR) }
{
    let x = reals::of_word(z[Machine::IA]);
    settle(z, x);
    b + Answer::ON
}

// [M 8.6] RTI: IA := the whole part of RA; out of range IA stays and operand one is branched to, where there is one
pub fn rti(t: &[u32], b: usize, z: &mut [u32; 16]) -> usize
    requires { Entry readable readable going t.now b z.old }
    ensures { AnyMem (shown result z.new) (λ m. branches t.now b 0 0 z.old m Op.RTI) }
{
    if let Some(w) = reals::whole_of(z[Machine::RA], z[Machine::RA_HIGH]) {
        z[Machine::IA] = w;
        return b + Answer::ON;
    }
    if t[b + 1] == PLACE_KIND {
        return to_first(t, b);
    }
    b + Answer::ON
}
