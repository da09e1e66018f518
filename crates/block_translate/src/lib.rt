// Characters translated in memory, the lowest first, by a table of 256 characters that lies in memory too.
// Where the string and the table are apart, whole words are translated.
// Where they meet, the characters in the table go one by one, since each may change what is looked up next; those before and after it go by words.
#![tactic(auto)]

ghost use Rattle.std.specs.Prelude.{◌≡◌, true, ◌<◌, ◌≤◌, ◌+◌, ◌^◌, length};
ghost use Rattle.ops.specs.Machine.{cfp_a, max_memory};
ghost use Rattle.rules.specs.Exec.{translated};
ghost use Rattle.block_chars.specs.Chars.{Within};
ghost use Rattle.block_table.specs.Table.{Clear};

use block_chars::{char_in, put_char, to_word};
use block_table::translate_words;
use exec_core::operands::index;
use ops::constants::Machine;

// Each of n characters becomes the one that the table from the address `to` on has for it.
fn translate_chars(m: &mut [u32], from: u32, to: u32, n: u32)
    requires { Within m.old from n × Within m.old to cfp_a × (length m.old ≤ max_memory) }
    ensures { m.new ≡ translated n from to m.old }
{
    for f in from..from + n {
        let ch = char_in(m, f);
        put_char(m, f, char_in(m, to + ch));
    }
}

// The same as translate_chars, where the table is elsewhere: up to the next word by characters, then by words, what is left by characters.
fn translate_apart(m: &mut [u32], from: u32, to: u32, n: u32)
    requires { Within m.old from n × Within m.old to cfp_a × (length m.old ≤ max_memory) × Clear from n to }
    ensures { m.new ≡ translated n from to m.old }
{
    if n < Machine::CFP_B {
        translate_chars(m, from, to, n);
        return;
    }
    let head = to_word(from);
    translate_chars(m, from, to, head);
    let words = (n - head) / Machine::CFP_B;
    translate_words(m, index((from + head) / Machine::CFP_B), to, index(words));
    let done = head + Machine::CFP_B * words;
    translate_chars(m, from + done, to, n - done);
}

// Whether a table from the address t on has no character among the n from the address f on.
fn clear(f: u32, n: u32, t: u32) -> bool
    requires { (f + n < 2 ^ 32) × (t + cfp_a < 2 ^ 32) }
    ensures { result ≡ true → Clear f n t }
{
    f + n <= t || t + Machine::CFP_A <= f
}

// The same as translate_chars: by words before the table and after it, by characters in it.
pub fn translate(m: &mut [u32], from: u32, to: u32, n: u32)
    requires { Within m.old from n × Within m.old to cfp_a × (length m.old ≤ max_memory) }
    ensures { m.new ≡ translated n from to m.old }
{
    if clear(from, n, to) {
        translate_apart(m, from, to, n);
        return;
    }
    let below = n.min(to.saturating_sub(from));
    translate_apart(m, from, to, below);
    let met = (n - below).min((to + Machine::CFP_A).saturating_sub(from + below));
    translate_chars(m, from + below, to, met);
    let done = below + met;
    translate_apart(m, from + done, to, n - done);
}
