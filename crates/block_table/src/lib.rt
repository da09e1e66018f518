// Words of memory translated by a table of 256 characters that lies elsewhere in memory.
// Few words are looked up in memory. For many, four lists of the table's characters are made first, each with the characters at their place in a
// word, so that a look takes no division and no shift and a word is the sum of four.
#![tactic(auto)]

ghost use Rattle.std.specs.Prelude.{◌≡◌, ◌<◌, ◌≤◌, ◌+◌, ◌*◌, ◌^◌, length};
ghost use Rattle.base.specs.Lists.{◌at◌};
ghost use Rattle.ops.specs.Machine.{cfp_a, cfp_b, cfp_c, max_memory};
ghost use Rattle.words.specs.Words.{byte_of};
ghost use Rattle.rules.specs.Operand.{char_in};
ghost use Rattle.rules.specs.Exec.{translated};
ghost use Rattle.block_chars.specs.Chars.{Within};
ghost use Rattle.block_table.specs.Table.{Clear, Listed, Below, Raised, Lists, mapped_word, listed_word};

use block_chars::char_in;
use exec_core::operands::index;
use ops::constants::Machine;

// The characters of a table.
const CHARACTERS: usize = Machine::CFP_A as usize;

// The words from which on lists of the table pay.
const LONG: usize = 150;

// The list of a table's characters, and those that have each of them one, two and three places up in its word.
#[derive(Drop)]
struct FourLists {
    ones: [u32; CHARACTERS],
    twos: [u32; CHARACTERS],
    threes: [u32; CHARACTERS],
    fours: [u32; CHARACTERS],
}

// The character that the table from the address `to` on has for character k of the word w.
fn mapped(m: &[u32], to: u32, w: u32, k: u32) -> u32
    requires { Within m.now to cfp_a × (length m.now ≤ max_memory) × (k < cfp_c) }
    ensures { (result ≡ char_in m.now (to + byte_of w k)) × (result < cfp_a) }
{
    char_in(m, to + words::byte_of(w, k))
}

// The word of the characters that the table has for those of w.
fn mapped_word(m: &[u32], to: u32, w: u32) -> u32
    requires { Within m.now to cfp_a × (length m.now ≤ max_memory) }
    ensures { result ≡ mapped_word m.now to w }
{
    mapped(m, to, w, 0)
        + mapped(m, to, w, 1) * Machine::CFP_A
        + mapped(m, to, w, 2) * (Machine::CFP_A * Machine::CFP_A)
        + mapped(m, to, w, 3) * (Machine::CFP_A * Machine::CFP_A * Machine::CFP_A)
}

// Each of n words from the index `from` on becomes the one of the characters that the table has for its own.
fn translate_short(m: &mut [u32], from: usize, to: u32, n: usize)
    requires { (from + n ≤ length m.old) × Within m.old to cfp_a × (length m.old ≤ max_memory) × Clear (cfp_b * from) (cfp_b * n) to }
    ensures { m.new ≡ translated (cfp_b * n) (cfp_b * from) to m.old }
{
    for f in from..from + n {
        let w = m[f];
        m[f] = mapped_word(m, to, w);
    }
}

// The list := the characters of the table from the address `to` on.
fn fill(m: &[u32], to: u32, list: &mut [u32])
    requires { Within m.now to cfp_a × (length m.now ≤ max_memory) × (cfp_a ≤ length list.old) }
    ensures { Listed cfp_a list.new m.now to }
{
    for i in 0..Machine::CFP_A {
        list[index(i)] = char_in(m, to + i);
    }
}

// The second list := the first one's characters, each one place up in its word.
fn raise(list: &[u32], raised: &mut [u32])
    requires { (cfp_a ≤ length list.now) × (cfp_a ≤ length raised.old) × Below (2 ^ 24) list.now }
    ensures { Raised cfp_a raised.new list.now }
{
    for i in 0..CHARACTERS {
        raised[i] = list[i] * Machine::CFP_A;
    }
}

// What the list has for character k of the word w.
fn listed(list: &[u32], w: u32, k: u32) -> u32
    requires { (cfp_a ≤ length list.now) × (k < cfp_c) }
    ensures { result ≡ list.now at byte_of w k }
{
    list[index(words::byte_of(w, k))]
}

// The sum of what four lists have for the four characters of the word w.
fn listed_word(lists: &FourLists, w: u32) -> u32
    requires { Lists lists.now.ones lists.now.twos lists.now.threes lists.now.fours }
    ensures { result ≡ listed_word lists.now.ones w }
{
    listed(&lists.ones, w, 0)
        + listed(&lists.twos, w, 1)
        + listed(&lists.threes, w, 2)
        + listed(&lists.fours, w, 3)
}

// The same as translate_short, by lists of the table. A closure that looks up in the memory which the loop changes cannot stand for both.
fn translate_by(m: &mut [u32], from: usize, to: u32, n: usize, lists: &FourLists)
    requires { (from + n ≤ length m.old) × Within m.old to cfp_a × (length m.old ≤ max_memory) × Clear (cfp_b * from) (cfp_b * n) to × Lists lists.now.ones lists.now.twos lists.now.threes lists.now.fours × Listed cfp_a lists.now.ones m.old to }
    ensures { m.new ≡ translated (cfp_b * n) (cfp_b * from) to m.old }
{
    for f in from..from + n {
        m[f] = listed_word(lists, m[f]);
    }
}

// The same, with lists made for it.
fn translate_long(m: &mut [u32], from: usize, to: u32, n: usize)
    requires { (from + n ≤ length m.old) × Within m.old to cfp_a × (length m.old ≤ max_memory) × Clear (cfp_b * from) (cfp_b * n) to }
    ensures { m.new ≡ translated (cfp_b * n) (cfp_b * from) to m.old }
{
    let mut lists = FourLists {
        ones: [0; CHARACTERS],
        twos: [0; CHARACTERS],
        threes: [0; CHARACTERS],
        fours: [0; CHARACTERS],
    };
    fill(m, to, &mut lists.ones);
    raise(&lists.ones, &mut lists.twos);
    raise(&lists.twos, &mut lists.threes);
    raise(&lists.threes, &mut lists.fours);
    translate_by(m, from, to, n, &lists);
}

// The same, by lists where they pay.
pub fn translate_words(m: &mut [u32], from: usize, to: u32, n: usize)
    requires { (from + n ≤ length m.old) × Within m.old to cfp_a × (length m.old ≤ max_memory) × Clear (cfp_b * from) (cfp_b * n) to }
    ensures { m.new ≡ translated (cfp_b * n) (cfp_b * from) to m.old }
{
    if n < LONG {
        translate_short(m, from, to, n);
    } else {
        translate_long(m, from, to, n);
    }
}
