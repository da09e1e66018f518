// The accumulator IA: what it and the overflow flag take as a result, the word that MFI stores, and the decimal digits that CVM and CVD convert.
// z are the words of the registers, IA and the flag among them; operands and memory are read elsewhere.
#![tactic(auto)]

ghost use Rattle.std.specs.Prelude.{◌≡◌, false, ◌+◌, ◌-◌, ◌≤◌, ltb, leb, pos, neg_ℤ, ◌-ℤ◌, ◌*ℤ◌};
ghost use Rattle.std.specs.Int.Signed.{rem_z};
ghost use Rattle.base.specs.Test.{if, ◌or◌};
ghost use Rattle.ops.specs.Machine.{cfp_m, ch_d0, ch_d9};
ghost use Rattle.words.specs.Words.{signed, low, fits, positive};
ghost use Rattle.rules.specs.Exec.{accumulated};
ghost use Rattle.accumulator.specs.Accumulator.{Divides};

use ops::constants::Machine;

// 0 for a number that is the value of a word, else 1.
fn beyond(n: i64) -> u32
    ensures { result ≡ if (fits n) 0 1 }
{
    if integers::fits(n) { 0 } else { 1 }
}

// IA takes the low 32 bits of n; the flag says whether n is out of range.
pub fn accumulate(z: &mut [u32; 16], n: i64)
    ensures { z.new ≡ accumulated n z.old }
{
    z[Machine::IA] = integers::low(n);
    z[Machine::FLAG] = beyond(n);
}

// IA takes n, a result of its division by v, as it takes a sum; where v is 0 the flag is on and IA stays.
pub fn divide(z: &mut [u32; 16], v: u32, n: i64)
    ensures { Divides n z.old v z.new }
{
    if v == 0 {
        z[Machine::FLAG] = 1;
    } else {
        accumulate(z, n);
    }
}

// MFI's word: i in range, else w.
pub fn in_range_or(i: u32, w: u32) -> u32
    ensures { result ≡ if (leb i cfp_m) i w }
{
    if i <= Machine::CFP_M { i } else { w }
}

// Whether CVM ends by 29: the word a is above 0, or d is no digit.
pub fn no_digit(a: u32, d: u32) -> bool
    ensures { result ≡ (positive a or ltb d ch_d0 or ltb ch_d9 d) }
{
    if integers::positive(a) {
        return true;
    }
    if d < Machine::CH_D0 {
        return true;
    }
    Machine::CH_D9 < d
}

// Ten times the word's signed value, less the digit d.
pub fn shifted(a: u32, d: u32) -> i64
    requires { ch_d0 ≤ d }
    ensures { result ≡ signed a *ℤ pos 10 -ℤ pos (d - ch_d0) }
{
    integers::product(a, 10) - (d - Machine::CH_D0) as i64
}

// The last decimal digit of a word whose signed value is not above 0, as a character.
pub fn last_digit(a: u32) -> u32
    requires { positive a ≡ false }
    ensures { result ≡ ch_d0 + low (neg_ℤ (rem_z (signed a) (pos 10))) }
{
    let x = integers::low(integers::remainder(a, 10));
    Machine::CH_D0 + integers::low(integers::negation(x))
}
