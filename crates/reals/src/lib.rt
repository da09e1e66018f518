// Real arithmetic on RA, a 64-bit float that is kept as two words of z, the low one first, beside its overflow flag [02 Wish 5].
#![tactic(auto)]

ghost use Rattle.std.specs.Prelude.{◌≡◌, not, ◌+◌, ◌*◌, ◌/◌, ◌%◌, ◌^◌, T, leb};
ghost use Rattle.base.specs.Test.{◌and◌};
ghost use Rattle.std.specs.Float.Ieee.{is_nan};
ghost use Rattle.real_rules.specs.Real as R;
ghost use Rattle.reals.specs.Views.{real_view, whole_view, on_values, with_zero};

use ops::constants::Machine;
use words::SPAN;

// In a high word: the sign's weight, that of the exponent's field, and the first that is infinite, the sign aside.
const SIGN: u32 = 1 << 31;

const EXPONENT: u32 = 1 << 20;

const INFINITE: u32 = 2047 << 20;

// The weight of the leading digit, which a pair leaves out; the exponent's fields of 1, of 2^32, and of digits that are all whole.
const LEADING: u64 = 1 << 52;

const OF_ONE: u32 = 1023;

const OF_SPAN: u32 = 1055;

const OF_WHOLE: u32 = 1075;

// The answer of a real operation.
#[derive(Clone, Copy)]
pub enum Real {
    Finite(f64),
    Overflow,
}

// The operations on two values [M 5.3] to [M 5.6].
#[derive(Clone, Copy)]
pub enum Arithmetic {
    Sum,
    Difference,
    Product,
    Quotient,
}

// The comparisons of a value with zero [M 5.10] to [M 5.15].
#[derive(Clone, Copy)]
pub enum Comparison {
    Equal,
    NotLess,
    Greater,
    NotGreater,
    Less,
    NotEqual,
}

// The 64 bits of two words.
fn bits_of(lo: u32, hi: u32) -> u64
    ensures { result ≡ R.pair lo hi }
{
    lo as u64 + hi as u64 * SPAN
}

// Whether the pair with this high word is finite.
pub fn finite_high(hi: u32) -> bool
    ensures { result ≡ R.finite_high hi }
{
    hi % SIGN < INFINITE
}

// What the state check and restore ask of RA's high word and its flag.
pub fn reals_ok(hi: u32, flag: u32) -> bool
    ensures { result ≡ (R.finite_high hi and leb flag 1) }
{
    if !finite_high(hi) {
        return false;
    }
    flag <= 1
}

// What a word pair holds.
pub fn real_of(lo: u32, hi: u32) -> Real
    ensures { real_view result ≡ R.real_of lo hi }
{
    if finite_high(hi) {
        return Real::Finite(f64::from_bits(bits_of(lo, hi)));
    }
    Real::Overflow
}

// The answer that a float gives.
fn answer(x: f64) -> Real
    ensures { real_view result ≡ R.answer x }
{
    let infinity = 1.0 / 0.0;
    if -infinity < x {
        if x < infinity {
            return Real::Finite(x);
        }
    }
    Real::Overflow
}

// What an operation gives for two values.
fn computed(o: Arithmetic, x: f64, y: f64) -> f64
    ensures { result ≡ on_values o x y }
{
    match o {
        Arithmetic::Sum => x + y,
        Arithmetic::Difference => x - y,
        Arithmetic::Product => x * y,
        Arithmetic::Quotient => x / y,
    }
}

// An operation on two reals; a zero divisor gives overflow.
pub fn compute(o: Arithmetic, a: Real, b: Real) -> Real
    ensures { real_view result ≡ R.both (on_values o) (real_view a) (real_view b) }
{
    let Real::Finite(x) = a else {
        return Real::Overflow;
    };
    let Real::Finite(y) = b else {
        return Real::Overflow;
    };
    answer(computed(o, x, y))
}

// The negation, which flips zero's sign too.
pub fn negate(a: Real) -> Real
    ensures { real_view result ≡ R.negated (real_view a) }
{
    match a {
        Real::Finite(x) => Real::Finite(-x),
        Real::Overflow => Real::Overflow,
    }
}

// Whether a value compares with zero so; a zero of either sign is zero, and overflow passes no test.
pub fn compares(o: Comparison, a: Real) -> bool
    ensures { result ≡ R.tests (with_zero o) (real_view a) }
{
    let Real::Finite(x) = a else {
        return false;
    };
    match o {
        Comparison::Equal => x == 0.0,
        Comparison::NotLess => x >= 0.0,
        Comparison::Greater => x > 0.0,
        Comparison::NotGreater => x <= 0.0,
        Comparison::Less => x < 0.0,
        Comparison::NotEqual => x != 0.0,
    }
}

// ITR: the float of a word, exact.
pub fn of_word(w: u32) -> Real
    ensures { real_view result ≡ R.of_word w }
{
    Real::Finite(integers::signed(w) as f64)
}

// The exponent's field of a pair with this high word.
fn exponent_of(hi: u32) -> u32
    ensures { result ≡ hi / 2 ^ 20 % 2048 }
{
    hi / EXPONENT % 2048
}

// The digits of a pair, with the leading one.
fn digits_of(lo: u32, hi: u32) -> u64
    ensures { result ≡ 2 ^ 52 + (lo + hi % 2 ^ 20 * 2 ^ 32) }
{
    LEADING + (lo as u64 + hi as u64 % EXPONENT as u64 * SPAN)
}

// The word of n with a sign, where it is in range.
fn ranged(negative: bool, n: u64) -> Option<u32>
    ensures { whole_view result ≡ R.ranged (R.with_sign negative n) }
{
    if negative {
        if n <= SIGN as u64 {
            return Some(((SPAN - n) % SPAN) as u32);
        }
        return None;
    }
    if n < SIGN as u64 {
        return Some(n as u32);
    }
    None
}

// RTI: the whole part of a word pair, cut toward zero, exact from its bits: the digits shifted by what the exponent says.
pub fn whole_of(lo: u32, hi: u32) -> Option<u32>
    ensures { whole_view result ≡ R.whole_of (R.real_of lo hi) }
{
    let exponent = exponent_of(hi);
    if exponent < OF_ONE {
        return Some(0);
    }
    if OF_SPAN <= exponent {
        return None;
    }
    ranged(SIGN <= hi, digits_of(lo, hi) >> (OF_WHOLE - exponent))
}

// The value x in RA's words, and the flag off.
fn put(z: &mut [u32; 16], x: f64)
    requires { T (not (is_nan x)) }
    ensures { z.new ≡ R.settled (R.value x) z.old }
{
    let bits = f64::to_bits(x);
    z[Machine::RA] = (bits % SPAN) as u32;
    z[Machine::RA_HIGH] = (bits / SPAN) as u32;
    z[Machine::REAL_FLAG] = 0;
}

// RA of the words.
pub fn ra(z: &[u32; 16]) -> Real
    ensures { real_view result ≡ R.ra_of z.now }
{
    real_of(z[Machine::RA], z[Machine::RA_HIGH])
}

// The words after an answer: a value goes to RA and lowers the flag; overflow raises it, and RA stays.
pub fn settle(z: &mut [u32; 16], r: Real)
    requires { T (R.proper (real_view r)) }
    ensures { z.new ≡ R.settled (real_view r) z.old }
{
    match r {
        Real::Finite(x) => put(z, x),
        Real::Overflow => z[Machine::REAL_FLAG] = 1,
    }
}
