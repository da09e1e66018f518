// Words of 32 bits read as signed, and sums, products and quotients of them, which do not wrap.
#![tactic(auto)]

ghost use Rattle.std.specs.Prelude.{◌≡◌, neg_ℤ, ◌+ℤ◌, ◌-ℤ◌, ◌*ℤ◌};
ghost use Rattle.std.specs.Int.Signed.{quot_z, rem_z};
ghost use Rattle.words.specs.Words as W;

use ops::constants::Machine;
use words::SPAN;

// The first word that is negative.
const HALF: u32 = 1 << Machine::CFP_N - 1;

// The word read as signed: its wrapped sum with 2^31, less 2^31.
pub fn signed(w: u32) -> i64
    ensures { result ≡ W.signed w }
{
    words::add(w, HALF) as i64 - HALF as i64
}

// The low 32 bits of a signed number.
pub fn low(n: i64) -> u32
    ensures { result ≡ W.low n }
{
    (n & (SPAN - 1) as i64) as u32
}

// Whether a signed number is the value of a word.
pub fn fits(n: i64) -> bool
    ensures { result ≡ W.fits n }
{
    if n < -(HALF as i64) {
        false
    } else {
        n < HALF as i64
    }
}

// Whether the word, read as signed, is above 0.
pub fn positive(w: u32) -> bool
    ensures { result ≡ W.positive w }
{
    if w == 0 { false } else { w < HALF }
}

// The signed sum of two words, which does not wrap.
pub fn sum(a: u32, b: u32) -> i64
    ensures { result ≡ W.signed a +ℤ W.signed b }
{
    signed(a) + signed(b)
}

// Their signed difference.
pub fn difference(a: u32, b: u32) -> i64
    ensures { result ≡ W.signed a -ℤ W.signed b }
{
    signed(a) - signed(b)
}

// Their signed product.
pub fn product(a: u32, b: u32) -> i64
    ensures { result ≡ W.signed a *ℤ W.signed b }
{
    signed(a) * signed(b)
}

// The word's signed value, negated.
pub fn negation(a: u32) -> i64
    ensures { result ≡ neg_ℤ (W.signed a) }
{
    difference(0, a)
}

// The signed quotient, cut toward zero; by 0 it is 0.
pub fn quotient(a: u32, b: u32) -> i64
    ensures { result ≡ quot_z (W.signed a) (W.signed b) }
{
    if b == 0 { 0 } else { signed(a) / signed(b) }
}

// The signed remainder, with the dividend's sign; by 0 it is the dividend.
pub fn remainder(a: u32, b: u32) -> i64
    ensures { result ≡ rem_z (W.signed a) (W.signed b) }
{
    if b == 0 {
        signed(a)
    } else {
        signed(a) % signed(b)
    }
}
