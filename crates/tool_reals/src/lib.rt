// RA in decimal, as a run's report tells it: at most 15 digits, the last rounded half up on the exact value, without zeros behind.
#![tactic(auto)]

ghost use Rattle.std.specs.Prelude.{◌<◌, ◌≤◌};

use io::decimal;
use std::io::Write;
use tool_forms::put_form;

// A pair's high word: the sign's weight, the exponent's weight, the number of exponents, that of what is not finite and that of a real with whole digits.
const SIGN: u32 = 1 << 31;

const EXPONENT: u32 = 1 << 20;

const EXPONENTS: u32 = 2048;

const INFINITE: u32 = 2047;

const OF_WHOLE: u32 = 1075;

// The number of words, and the weight of the leading digit, which a pair leaves out.
const SPAN: u64 = 1 << 32;

const LEADING: u64 = 1 << 52;

// Digits of the longest exact value, 2^53 by 5^1074, and of any number of 64 bits.
const DIGITS: usize = 768;

const WORD_DIGITS: usize = 20;

// Digits that are shown, the least number with as many, and the first with more.
const SHOWN: usize = 15;

const LEAST: u64 = 100000000000000;

const MORE: u64 = 1000000000000000;

// The order of 1, so that no order of a real is below 0; the orders that a plain form goes down and up to.
const UNIT: usize = 1100;

const SMALL: usize = UNIT - 5;

const LARGE: usize = UNIT + SHOWN;

// The digits that are shown, as a number, and the order of the first.
#[derive(Clone, Copy)]
struct Short {
    digits: u64,
    order: usize,
}

// What digits are multiplied by.
#[derive(Clone, Copy)]
enum Factor {
    Two,
    Five,
}

// The decimal digits of a number, the last first.
fn set_digits(digits: &mut [u8; DIGITS], number: u64) {
    let mut n = number;
    for digit in digits.iter_mut() {
        *digit = (n % 10) as u8;
        n /= 10;
    }
}

// A digit by 5 or by 2, and what is carried to it.
fn carried(digit: u8, factor: Factor, carry: u32) -> u32
    requires { carry < 1000 }
    ensures { result < 10000 }
{
    match factor {
        Factor::Two => digit as u32 * 2 + carry,
        Factor::Five => digit as u32 * 5 + carry,
    }
}

// The digits of a number by 5 or by 2.
fn multiply(digits: &mut [u8; DIGITS], factor: Factor) {
    let mut carry: u32 = 0;
    for digit in digits.iter_mut() {
        let n = carried(*digit, factor, carry);
        *digit = (n % 10) as u8;
        carry = n / 10;
    }
}

// The same n times.
fn multiply_often(digits: &mut [u8; DIGITS], factor: Factor, n: u32) {
    for _ in 0..n {
        multiply(digits, factor);
    }
}

// The index of the first digit that is not 0; 0 where there is none.
fn first_at(digits: &[u8; DIGITS]) -> usize
    ensures { result < 768 }
{
    digits.iter().rposition(|digit| *digit != 0).unwrap_or(0)
}

// Digit j behind the one at top; 0 past the last.
fn digit_behind(digits: &[u8; DIGITS], top: usize, j: usize) -> u8 {
    match top.checked_sub(j) {
        Some(i) => digits.get(i).copied().unwrap_or(0),
        None => 0,
    }
}

// The digits that are shown, cut.
fn cut(digits: &[u8; DIGITS], top: usize) -> u64
    ensures { result < 1000000000000000 }
{
    let mut n: u64 = 0;
    for j in 0..SHOWN {
        n = n % LEAST * 10 + (digit_behind(digits, top, j) % 10) as u64;
    }
    n
}

// The same, rounded: half a digit is one more, which may be a digit more.
fn rounded(digits: &[u8; DIGITS], top: usize, order: usize) -> Short
    requires { order ≤ 2000 }
{
    let n = cut(digits, top);
    if digit_behind(digits, top, SHOWN) < 5 {
        return Short { digits: n, order };
    }
    if n + 1 == MORE {
        return Short {
            digits: LEAST,
            order: order + 1,
        };
    }
    Short {
        digits: n + 1,
        order,
    }
}

// The decimal digits of m by 2 to the power that the exponent's field says: a half is 5 by a tenth, so that all of them are found.
fn round_real(m: u64, field: u32) -> Short {
    let mut digits = [0u8; DIGITS];
    set_digits(&mut digits, m);
    if OF_WHOLE <= field {
        multiply_often(&mut digits, Factor::Two, field - OF_WHOLE);
        let top = first_at(&digits);
        return rounded(&digits, top, UNIT + top);
    }
    let halves = OF_WHOLE - field;
    multiply_often(&mut digits, Factor::Five, halves);
    let top = first_at(&digits);
    rounded(&digits, top, UNIT + top - halves as usize)
}

// Digits without the zeros behind.
fn told(digits: &[u8]) -> &[u8] {
    match digits.iter().rposition(|digit| *digit != b'0') {
        Some(last) => &digits[..last + 1],
        None => b"",
    }
}

// As many zeros, up to 15.
fn put_zeros<W: Write>(page: &mut W, n: usize) {
    let zeros = [b'0'; SHOWN];
    let _ = page.write_all(&zeros[..n.min(SHOWN)]);
}

// The first k digits, with zeros where there are fewer; then the rest behind a point, if there is one.
fn put_pointed<W: Write>(page: &mut W, digits: &[u8], k: usize) {
    if digits.len() <= k {
        let _ = page.write_all(digits);
        put_zeros(page, k - digits.len());
        return;
    }
    let _ = page.write_all(&digits[..k]);
    let _ = page.write_all(b".");
    let _ = page.write_all(&digits[k..]);
}

// Digits, the first of this order: in a plain form where that is short, else with a power of ten.
fn put_digits<W: Write>(page: &mut W, digits: &[u8], order: usize) {
    if order < SMALL {
        put_pointed(page, digits, 1);
        put_form(page, b"E-#", b"", b"", &[(UNIT - order) as u64]);
    } else if order < UNIT {
        let _ = page.write_all(b"0.");
        put_zeros(page, UNIT - order - 1);
        let _ = page.write_all(digits);
    } else if order < LARGE {
        put_pointed(page, digits, order - UNIT + 1);
    } else {
        put_pointed(page, digits, 1);
        put_form(page, b"E+#", b"", b"", &[(order - UNIT) as u64]);
    }
}

// A real above 0.
fn put_rounded<W: Write>(page: &mut W, r: Short) {
    let mut text = [0u8; WORD_DIGITS];
    let n = decimal(r.digits, &mut text);
    put_digits(page, told(&text[..n]), r.order);
}

// A real without its sign, by its low word and its high one.
fn put_size<W: Write>(page: &mut W, low: u32, high: u32) {
    let field = high / EXPONENT % EXPONENTS;
    let m = low as u64 + (high % EXPONENT) as u64 * SPAN;
    if field == INFINITE {
        let _ = page.write_all(b"not finite");
    } else if 0 < field {
        put_rounded(page, round_real(LEADING + m, field));
    } else if m == 0 {
        let _ = page.write_all(b"0");
    } else {
        put_rounded(page, round_real(m, 1));
    }
}

// A real, by its two words, behind what was written: as `19.99`, or as `1.5E+20` from 10^15 on and below 10^-5. As much of it as the writer takes.
pub fn put_real<W: Write>(page: &mut W, low: u32, high: u32) {
    if SIGN <= high {
        let _ = page.write_all(b"-");
    }
    put_size(page, low, high);
}

// RA and its flag, as a line.
pub fn put_ra<W: Write>(page: &mut W, low: u32, high: u32, flag: u32) {
    let _ = page.write_all(b"RA ");
    put_real(page, low, high);
    put_form(page, b", overflow #\n", b"", b"", &[flag as u64]);
}
