// Characters and words copied in memory, the lowest first, so that a copy sees what it has changed so far. Words, characters and merged words have
// a loop each: over a trait of the unit each would have its contract and proof all the same, and a merged word is read from two.
#![tactic(auto)]

ghost use Rattle.std.specs.Prelude.{◌≡◌, ◌<◌, ◌≤◌, ◌+◌, ◌*◌, ◌%◌, length};
ghost use Rattle.ops.specs.Machine.{cfp_b, max_memory};
ghost use Rattle.rules.specs.Exec.{copied_chars, copied_words};
ghost use Rattle.block_chars.specs.Chars.{Within};
ghost use Rattle.block_copy.specs.Apart.{Apart, Untouched};

use block_chars::{char_in, merged, put_char, to_word};
use exec_core::operands::index;
use ops::constants::Machine;

// n words copied, the lowest first; `from` and `to` are indexes.
fn copy_words(m: &mut [u32], from: usize, to: usize, n: usize)
    requires { (from + n ≤ length m.old) × (to + n ≤ length m.old) }
    ensures { m.new ≡ copied_words n from to m.old }
{
    // The library's copy_within moves words as if it read them all first, so a repeat of what was copied would be lost.
    for i in 0..n {
        m[to + i] = m[from + i];
    }
}

// n characters copied, the lowest first.
fn copy_chars(m: &mut [u32], from: u32, to: u32, n: u32)
    requires { Within m.old from n × Within m.old to n × (length m.old ≤ max_memory) }
    ensures { m.new ≡ copied_chars n from to m.old }
{
    for i in 0..n {
        put_char(m, to + i, char_in(m, from + i));
    }
}

// n words from the index `to` on := the characters from character r of the word at the index `from` on, the lowest first.
fn merge_words(m: &mut [u32], from: usize, to: usize, n: usize, r: u32)
    requires { (from + n < length m.old) × (to + n ≤ length m.old) × (0 < r) × (r < cfp_b) × (to ≡ from + 1 → ⊥) }
    ensures { m.new ≡ copied_chars (cfp_b * n) (cfp_b * from + r) (cfp_b * to) m.old }
{
    for i in 0..n {
        m[to + i] = merged(m[from + i], m[from + i + 1], r);
    }
}

// n words copied, the lowest first, from the address `from` on to a word's address.
fn copy_body(m: &mut [u32], from: u32, to: u32, n: u32)
    requires { Within m.old from (cfp_b * n) × Within m.old to (cfp_b * n) × (to % cfp_b ≡ 0) × Apart from to }
    ensures { m.new ≡ copied_chars (cfp_b * n) from to m.old }
{
    let f = index(from / Machine::CFP_B);
    let g = index(to / Machine::CFP_B);
    let r = from % Machine::CFP_B;
    if r == 0 {
        copy_words(m, f, g, index(n));
        return;
    }
    merge_words(m, f, g, index(n), r);
}

// n characters copied whose source is not changed before it is read: by words but for those before the target's first word and after its last.
fn copy_apart(m: &mut [u32], from: u32, to: u32, n: u32)
    requires { Within m.old from n × Within m.old to n × (length m.old ≤ max_memory) × Untouched n from to }
    ensures { m.new ≡ copied_chars n from to m.old }
{
    if n < Machine::CFP_B {
        copy_chars(m, from, to, n);
        return;
    }
    let head = to_word(to);
    copy_chars(m, from, to, head);
    let words = (n - head) / Machine::CFP_B;
    copy_body(m, from + head, to + head, words);
    let done = head + Machine::CFP_B * words;
    copy_chars(m, from + done, to + done, n - done);
}

// n characters copied, the lowest first, to a place above their own. Once as many are copied as lie between, they repeat, and the rest may be
// copied from the start to twice the distance.
fn copy_above(m: &mut [u32], from: u32, to: u32, n: u32)
    requires { Within m.old from n × Within m.old to n × (length m.old ≤ max_memory) × (from < to) }
    ensures { m.new ≡ copied_chars n from to m.old }
{
    let mut distance = to - from;
    let mut left = n;
    while distance < left {
        copy_apart(m, from, from + distance, distance);
        left -= distance;
        distance += distance;
    }
    copy_apart(m, from, from + distance, left);
}

// n characters copied, the lowest first.
pub fn move_chars(m: &mut [u32], from: u32, to: u32, n: u32)
    requires { Within m.old from n × Within m.old to n × (length m.old ≤ max_memory) }
    ensures { m.new ≡ copied_chars n from to m.old }
{
    if from < to {
        copy_above(m, from, to, n);
        return;
    }
    copy_apart(m, from, to, n);
}

// n words copied, the lowest first, to a place above their own, as copy_above does it.
fn copy_words_above(m: &mut [u32], from: usize, to: usize, n: usize)
    requires { (to + n ≤ length m.old) × (length m.old ≤ max_memory) × (from < to) }
    ensures { m.new ≡ copied_words n from to m.old }
{
    let mut distance = to - from;
    let mut left = n;
    while distance < left {
        copy_words(m, from, from + distance, distance);
        left -= distance;
        distance += distance;
    }
    copy_words(m, from, from + distance, left);
}

// n words copied, the lowest first; `from` and `to` are indexes.
pub fn move_words(m: &mut [u32], from: usize, to: usize, n: usize)
    requires { (from + n ≤ length m.old) × (to + n ≤ length m.old) × (length m.old ≤ max_memory) }
    ensures { m.new ≡ copied_words n from to m.old }
{
    if from < to {
        copy_words_above(m, from, to, n);
        return;
    }
    copy_words(m, from, to, n);
}
