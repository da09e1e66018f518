// Characters in memory, which lie four to a word, the lowest address in the word's lowest byte.
#![tactic(auto)]

ghost use Rattle.std.specs.Prelude.{◌≡◌, ◌<◌, ◌≤◌, ◌+◌, ◌%◌, length};
ghost use Rattle.base.specs.Test.{◌and◌};
ghost use Rattle.ops.specs.Machine.{cfp_a, cfp_b, max_memory};
ghost use Rattle.rules.specs.Operand.{char_in, with_char};
ghost use Rattle.rules.specs.Exec.{chars_fit};
ghost use Rattle.block_chars.specs.Chars.{Within, merged_word};

use exec_core::operands::{index, sum};
use ops::constants::Machine;

// The bits of a character.
const CHAR_BITS: u32 = Machine::CFP_N / Machine::CFP_C;

// Bytes of a word, as a wide number.
const CFP_B: u64 = Machine::CFP_B as u64;

// Whether n characters from the address a on lie in memory.
fn chars_fit(m: &[u32], a: u32, n: u32) -> bool
    requires { length m.now ≤ max_memory }
    ensures { result ≡ chars_fit m.now a n }
{
    sum(a, n) <= CFP_B * m.len() as u64
}

// The same of two ranges.
pub fn both_fit(m: &[u32], a: u32, n: u32, e: u32, k: u32) -> bool
    requires { length m.now ≤ max_memory }
    ensures { result ≡ (chars_fit m.now a n and chars_fit m.now e k) }
{
    if chars_fit(m, a, n) {
        return chars_fit(m, e, k);
    }
    false
}

// The character at the address a.
pub fn char_in(m: &[u32], a: u32) -> u32
    requires { Within m.now a 1 }
    ensures { (result ≡ char_in m.now a) × (result < cfp_a) }
{
    words::byte_of(m[index(a / Machine::CFP_B)], a)
}

// The character at the address a := v.
pub fn put_char(m: &mut [u32], a: u32, v: u32)
    requires { Within m.old a 1 × (v < cfp_a) }
    ensures { m.new ≡ with_char m.old a v }
{
    let i = index(a / Machine::CFP_B);
    m[i] = words::with_byte(m[i], a, v);
}

// The bytes from the address a up to the next word's.
pub fn to_word(a: u32) -> u32
    ensures { ((a + result) % cfp_b ≡ 0) × (result < cfp_b) }
{
    (Machine::CFP_B - a % Machine::CFP_B) % Machine::CFP_B
}

// The word of the four characters from character r of u on; those after u are v's.
pub fn merged(u: u32, v: u32, r: u32) -> u32
    requires { (0 < r) × (r < cfp_b) }
    ensures { result ≡ merged_word u v r }
{
    (u >> CHAR_BITS * r) + (v << Machine::CFP_N - CHAR_BITS * r)
}
