// The operand of a DRC card: a text as a real number, and its two words [M 11.3] [02 Wish 5].
#![tactic(auto)]

ghost use Rattle.std.specs.Prelude.{◌≡◌, ◌^◌, ◌≤◌};
ghost use Rattle.asm_types.specs.Views.{cut_parsed, parsed_view};
ghost use Rattle.real_rules.specs.Real as Real;
ghost use Rattle.language.specs.Decimal as Decimals;
ghost use Rattle.asm_reals.specs.Views.{decimal_view};

use asm_names::number_of;
use asm_text::find_byte;

// Digits before the point, and after it.
const MAX_BEFORE: usize = 9;

const MAX_AFTER: usize = 6;

// The powers of ten.
const POWERS: [u64; 7] = [1, 10, 100, 1000, 10000, 100000, 1000000];

// A word's values.
const SPAN: u64 = 1 << 32;

// What a text of the form says: negative or not, the whole number of all digits, and how many of them stand after the point.
#[derive(Clone, Copy)]
pub struct Decimal {
    pub negative: bool,
    pub number: u64,
    pub after: usize,
}

// Ten to the power k.
fn power(k: usize) -> u64
    requires { k ≤ 6 }
    ensures { result ≡ 10 ^ k }
{
    POWERS[k]
}

// Digits, maybe none, cut off at the largest word.
fn digits(s: &[u8]) -> Option<u64>
    ensures { parsed_view result ≡ cut_parsed (Decimals.digits s.now) }
{
    if s.len() == 0 {
        return Some(0);
    }
    number_of(s)
}

// A text without its sign.
fn pointed(negative: bool, t: &[u8]) -> Option<Decimal>
    ensures { decimal_view result ≡ Decimals.pointed negative t.now }
{
    let i = find_byte(t, 0, b'.');
    if i == t.len() {
        return None;
    }
    if MAX_BEFORE < i {
        return None;
    }
    let k = t.len() - (i + 1);
    if MAX_AFTER < k {
        return None;
    }
    let a = number_of(&t[..i])?;
    let b = digits(&t[i + 1..])?;
    Some(Decimal {
        negative,
        number: a * power(k) + b,
        after: k,
    })
}

// The real number that a text writes.
pub fn decimal_of(s: &[u8]) -> Option<Decimal>
    ensures { decimal_view result ≡ Decimals.decimal_of s.now }
{
    if s.len() == 0 {
        return None;
    }
    if s[0] == b'-' {
        return pointed(true, &s[1..]);
    }
    if s[0] == b'+' {
        return pointed(false, &s[1..]);
    }
    pointed(false, s)
}

// The whole number n divided once by ten to the power k; zero is +0.
fn value(negative: bool, n: u64, k: usize) -> f64
    requires { (n ≤ 2 ^ 53) × (k ≤ 6) }
    ensures { result ≡ Real.constant negative n k }
{
    let q = n as f64 / power(k) as f64;
    if negative {
        if n != 0 {
            return -q;
        }
    }
    q
}

// The two words of a text's real number, the low one first; 0 where it has another form.
pub fn words_of(s: &[u8]) -> [u32; 2]
    ensures { result ≡ Decimals.real_words (Decimals.decimal_of s.now) }
{
    let Some(d) = decimal_of(s) else {
        return [0, 0];
    };
    let bits = f64::to_bits(value(d.negative, d.number, d.after));
    let low = (bits % SPAN) as u32;
    let high = (bits / SPAN) as u32;
    [low, high]
}
