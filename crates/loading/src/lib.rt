// Memory as a program begins with it: the table's words, the host's fresh ones [S The house machine], and zeros behind them [02 Wish 6].
// Memory is filled whole, and its few fresh words are set after.
#![tactic(auto)]

ghost use Rattle.std.specs.Prelude.{◌++◌, ◌≡◌, ◌+◌, ◌-◌, ◌<◌, ◌≤◌, length, replicate, take};
ghost use Rattle.base.specs.Test.{Ok};
ghost use Rattle.rules.specs.Check.{table_ok};
ghost use Rattle.rules.specs.Start.{filled, loaded, refreshed};
ghost use Rattle.rules.specs.Table.{constants, entry_at, externals, fresh_count, fresh_index, size, workings};

use bodies::entry::{CONSTANTS, ENTRY, EXTERNALS, HEADER, SIZE, WORKINGS, index};
use ops::constants::Machine;

// Bytes of a word.
pub const WORD: usize = Machine::CFP_B as usize;

// The word of the header with the count of fresh words.
pub const FRESH: usize = 3;

// Where the fresh addresses of a lawful table begin.
pub fn fresh_base(table: &[u32]) -> usize
    requires { Ok (table_ok table.now) }
    ensures { result ≡ entry_at (size table.now) }
{
    HEADER + ENTRY * index(table[SIZE])
}

// How many fresh words a lawful table has.
pub fn fresh_count(table: &[u32]) -> usize
    requires { Ok (table_ok table.now) }
    ensures { result ≡ fresh_count table.now }
{
    index(table[FRESH])
}

// The index in memory of fresh word i.
pub fn fresh_index(table: &[u32], i: usize) -> usize
    requires { Ok (table_ok table.now) × (i < fresh_count table.now) }
    ensures { result ≡ fresh_index table.now i }
{
    let at = fresh_base(table) + i;
    index(table[at]) / WORD
}

// Where the starting words of a lawful table begin, behind the exit counts of its EXPs.
pub fn start_base(table: &[u32]) -> usize
    requires { Ok (table_ok table.now) }
    ensures { result ≡ entry_at (size table.now) + fresh_count table.now + externals table.now }
{
    fresh_base(table) + fresh_count(table) + index(table[EXTERNALS])
}

// How many constant and working words a lawful table has.
pub fn own_count(table: &[u32]) -> usize
    requires { Ok (table_ok table.now) }
    ensures { result ≡ constants table.now + workings table.now }
{
    index(table[CONSTANTS]) + index(table[WORKINGS])
}

// The host's fresh words in memory; all other words stay.
pub fn supply(memory: &mut [u32], table: &[u32], fresh: &[u32])
    requires { Ok (table_ok table.now) × (constants table.now + workings table.now ≤ length memory.old) × (length fresh.now ≡ fresh_count table.now) }
    ensures { memory.new ≡ refreshed table.now fresh.now memory.old }
{
    for (i, word) in fresh.iter().enumerate() {
        let at = fresh_index(table, i);
        memory[at] = *word;
    }
}

// The table's constant and working words in memory; all words behind them stay.
pub fn fill(memory: &mut [u32], table: &[u32])
    requires { Ok (table_ok table.now) × (constants table.now + workings table.now ≤ length memory.old) }
    ensures { memory.new ≡ filled table.now (constants table.now + workings table.now) memory.old }
{
    let from = start_base(table);
    let n = own_count(table);
    // A copy by the library is one of memory that may overlap, for which a host would have to link memmove.
    for i in 0..n {
        memory[i] = table[from + i];
    }
}

// Both.
pub fn load(memory: &mut [u32], table: &[u32], fresh: &[u32])
    requires { Ok (table_ok table.now) × (constants table.now + workings table.now ≤ length memory.old) × (length fresh.now ≡ fresh_count table.now) }
    ensures { memory.new ≡ loaded table.now fresh.now memory.old }
{
    fill(memory, table);
    supply(memory, table, fresh);
}

// Zeros from word from on; all words in front stay.
pub fn clear(memory: &mut [u32], from: usize)
    ensures { memory.new ≡ take from memory.old ++ replicate (length memory.old - from) 0 }
{
    let end = memory.len();
    for i in from..end {
        memory[i] = 0;
    }
}
