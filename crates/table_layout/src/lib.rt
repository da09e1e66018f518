// The layout of a table: limits, exact length, sections, fresh addresses and exit counts [S The table].
#![tactic(auto)]

ghost use Rattle.std.specs.Prelude.{◌≡◌, true, ◌+◌, ◌*◌, ◌≤◌, ◌<◌, eqb, length, get_or};
ghost use Rattle.ops.specs.Machine.{cfp_b};
ghost use Rattle.rules.specs.Check.{limits_ok, sections_ok, fresh_ok, counts_ok, layout_ok};
ghost use Rattle.rules.specs.Table.{table_length, constants, fresh_count, externals};
ghost use Rattle.table_layout.specs.Laid.{Limited, Laid};

use ops::constants::Machine;

// Words of the header and of an entry; words of an entry after its operation: the kind and the value of operand one; a word as an index.
pub use bodies::entry::{ENTRY, HEADER, KIND, VALUE, index};

// More words of an entry: the kind and the value of operand two, the third operand.
pub const KIND_TWO: usize = 4;

pub const VALUE_TWO: usize = 6;

pub const THIRD: usize = 7;

// Bytes of a word, as an index.
const BYTES: usize = Machine::CFP_B as usize;

// The sum of two words.
pub fn sum(x: u32, y: u32) -> usize
    ensures { result ≡ x + y }
{
    x as usize + y as usize
}

// Word k of the entry at place p [S The table].
pub fn word(table: &[u32], p: usize, k: usize) -> u32
    requires { 8 + 8 * p + k < length table.now }
    ensures { result ≡ get_or table.now (8 + 8 * p + k) 0 }
{
    table[HEADER + ENTRY * p + k]
}

// The header's counts are within their limits [S Numbers the host sees].
fn limits_ok(table: &[u32]) -> bool
    requires { 8 ≤ length table.now }
    ensures { result ≡ limits_ok table.now }
{
    if Machine::MAX_INSTRS < index(table[0]) {
        return false;
    }
    if Machine::MAX_FRESH < index(table[3]) {
        return false;
    }
    if Machine::MAX_EXTERNALS < index(table[4]) {
        return false;
    }
    sum(table[1], table[2]) <= Machine::MAX_WORDS
}

// The length that the header asks for.
fn table_length(table: &[u32]) -> usize
    requires { Limited table.now }
    ensures { result ≡ table_length table.now }
{
    let n = index(table[0]);
    let f = index(table[3]);
    let e = index(table[4]);
    let c = index(table[1]);
    let w = index(table[2]);
    HEADER + ENTRY * n + f + e + c + w
}

// Sections 4, 5 and 6 start at rising places from 0 [S Shape rules].
pub fn sections_ok(table: &[u32]) -> bool
    requires { 8 ≤ length table.now }
    ensures { result ≡ sections_ok table.now }
{
    if table[5] != 0 {
        return false;
    }
    if table[6] == 0 {
        return false;
    }
    if table[7] <= table[6] {
        return false;
    }
    table[7] < table[0]
}

// The fresh addresses rise, name working words, and their starting words are 0 [S The table].
fn fresh_ok(table: &[u32]) -> bool
    requires { Laid table.now }
    ensures { result ≡ fresh_ok table.now (cfp_b * get_or table.now 1 0) 0 (get_or table.now 3 0) }
{
    let c = index(table[1]);
    let limit = BYTES * (c + index(table[2]));
    let f = index(table[3]);
    let at = HEADER + ENTRY * index(table[0]);
    let words = at + f + index(table[4]);
    let mut low = BYTES * c;
    for i in 0..f {
        let a = index(table[at + i]);
        if a < low {
            return false;
        }
        if limit <= a {
            return false;
        }
        if a % BYTES != 0 {
            return false;
        }
        if table[words + a / BYTES] != 0 {
            return false;
        }
        low = a + 1;
    }
    true
}

// The exit counts of the EXPs have their limit [S The table].
fn counts_ok(table: &[u32]) -> bool
    requires { Laid table.now }
    ensures { result ≡ counts_ok table.now (get_or table.now 4 0) }
{
    let at = HEADER + ENTRY * index(table[0]) + index(table[3]);
    let e = index(table[4]);
    for i in 0..e {
        if Machine::CFP_M < table[at + i] {
            return false;
        }
    }
    true
}

// Limits, length and what stands behind the entries.
pub fn layout_ok(table: &[u32]) -> bool
    ensures { result ≡ layout_ok table.now }
{
    if table.len() < HEADER {
        return false;
    }
    if !limits_ok(table) {
        return false;
    }
    if table.len() != table_length(table) {
        return false;
    }
    if !sections_ok(table) {
        return false;
    }
    if !fresh_ok(table) {
        return false;
    }
    counts_ok(table)
}
