// The fields of an entry: kinds, registers and values of its operands [S The table] [S Shape rules].
ghost use Rattle.std.specs.Prelude.{◌≡◌, Bool, true, map, ℕ, ◌+◌, ◌*◌, ◌≤◌, ◌<◌, ◌%◌, eqb, ltb, leb, length, get_or};
ghost use Rattle.base.specs.Test.{◌and◌, ◌or◌};
ghost use Rattle.ops.specs.Format.{code_word};
ghost use Rattle.ops.specs.Lookup.{row_of_number};
ghost use Rattle.ops.specs.Machine.{cfp_b, cfp_m};
ghost use Rattle.ops.specs.Ops.{rows, cells_of};
ghost use Rattle.op_lookup.specs.Answers.{IndexOf};
ghost use Rattle.rules.specs.Check.{among, register_ok, value_ok, apart};
ghost use Rattle.rules.specs.Table.{constants, workings};
ghost use Rattle.table_layout.specs.Laid.{Limited, Laid};
ghost use Rattle.entries.specs.Classes.{Judged};
ghost use Rattle.entries.specs.Coded.{takes_kind, last_of, largest_of, format_of, operand_by, third_by, fields_by, apart_at, entry_by};

use op_lookup::cells::{class_of, code_word};
use op_lookup::numbers::{NumberIndex, find_number, number_index};
use ops::class::NO_CLASS;
use ops::constants::Machine;
use ops::format::*;
use ops::table::{CELLS, ONE, Operations, THREE, TWO};
use table_layout::{ENTRY, HEADER, index, sum};

// The tags of the formats with limits of their own: OPC takes XL and XR alone, SHIFT counts to 32 [S Shape rules].
const OPC_TAG: u32 = OPC / TAG;

const SHIFT_TAG: u32 = SHIFT / TAG;

// The registers as words of the table: the first and the last X, the last that points to characters, the first and the last W.
const XL: u32 = Machine::XL as u32;

const XR: u32 = Machine::XR as u32;

const XS: u32 = Machine::XS as u32;

const WA: u32 = Machine::WA as u32;

const WC: u32 = Machine::WC as u32;

// Bytes of a word, as an index; kinds are below this.
const BYTES: usize = Machine::CFP_B as usize;

const KINDS: u32 = 24;

// x lies from lo to hi.
fn within(lo: u32, hi: u32, x: u32) -> bool
    ensures { result ≡ among lo hi x }
{
    if x < lo {
        return false;
    }
    x <= hi
}

// A format's word takes a kind.
fn takes(word: u32, kind: u32) -> bool
    ensures { result ≡ takes_kind word kind }
{
    if KINDS <= kind {
        return false;
    }
    (word >> kind) % 2 == 1
}

// The last index register that a format takes.
fn last_x(word: u32) -> u32
    ensures { result ≡ last_of word }
{
    if word / TAG == OPC_TAG {
        return XR;
    }
    XS
}

// The largest value that a format takes.
fn largest(word: u32) -> u32
    ensures { result ≡ largest_of word }
{
    if word / TAG == SHIFT_TAG {
        return Machine::CFP_N;
    }
    Machine::CFP_M
}

// A kind whose register is an X.
fn names_x(kind: u32) -> bool
    ensures { result ≡ (eqb kind 7 or among 9 12 kind) }
{
    if kind == X_KIND {
        return true;
    }
    within(INDIRECT_KIND, INDEXED_KIND, kind)
}

// An operand's register is one that its kind and its format take, or 0.
fn register_ok(word: u32, kind: u32, reg: u32) -> bool
    ensures { result ≡ register_ok (format_of word) kind reg }
{
    if names_x(kind) {
        return within(XL, last_x(word), reg);
    }
    if kind == W_KIND {
        return within(WA, WC, reg);
    }
    reg == 0
}

// A value is the address of a constant or working word.
fn address_ok(table: &[u32], v: u32) -> bool
    requires { Limited table.now }
    ensures { result ≡ (ltb v (cfp_b * (constants table.now + workings table.now)) and eqb (v % cfp_b) 0) }
{
    if BYTES * sum(table[1], table[2]) <= index(v) {
        return false;
    }
    v % Machine::CFP_B == 0
}

// A value is a displacement in bytes.
fn displacement_ok(v: u32) -> bool
    ensures { result ≡ (leb v cfp_m and eqb (v % cfp_b) 0) }
{
    if Machine::CFP_M < v {
        return false;
    }
    v % Machine::CFP_B == 0
}

// An operand's value is in the range of its kind and its format, or 0.
fn value_ok(table: &[u32], word: u32, kind: u32, v: u32) -> bool
    requires { Limited table.now }
    ensures { result ≡ value_ok table.now (format_of word) kind v }
{
    if kind == VALUE_KIND {
        return v <= largest(word);
    }
    if kind == ADDRESS_KIND {
        return address_ok(table, v);
    }
    if kind == PLACE_KIND {
        return v < table[0];
    }
    if kind == INDEXED_KIND {
        return displacement_ok(v);
    }
    if kind == EXTERNAL_KIND {
        return v < table[4];
    }
    v == 0
}

// An operand is of a kind that its format takes, and its fields are in range.
fn operand_ok(table: &[u32], word: u32, kind: u32, reg: u32, v: u32) -> bool
    requires { Limited table.now }
    ensures { result ≡ operand_by table.now word kind reg v }
{
    if !takes(word, kind) {
        return false;
    }
    if !register_ok(word, kind, reg) {
        return false;
    }
    value_ok(table, word, kind, v)
}

// The third operand is 0 where it may be left out, else 1 + a place.
fn third_ok(table: &[u32], word: u32, x: u32) -> bool
    requires { Limited table.now }
    ensures { result ≡ third_by table.now word x }
{
    if x == 0 {
        return takes(word, NO_KIND);
    }
    if !takes(word, PLACE_KIND) {
        return false;
    }
    x <= table[0]
}

// (X)+ or -(X) forbids X elsewhere in the card [S Shape rules].
fn is_apart(k: u32, reg: u32, kind: u32, other: u32) -> bool
    ensures { result ≡ apart k reg kind other }
{
    if reg != other {
        return true;
    }
    if within(RISING_KIND, FALLING_KIND, k) {
        return false;
    }
    !within(RISING_KIND, FALLING_KIND, kind)
}

// The operands of the entry at place p keep the rules of their three formats.
pub fn operands_ok(table: &[u32], p: usize, one: u32, two: u32, three: u32) -> bool
    requires { Laid table.now × (p < get_or table.now 0 0) }
    ensures { result ≡ fields_by table.now p one two three }
{
    let b = HEADER + ENTRY * p;
    if !operand_ok(table, one, table[b + 1], table[b + 2], table[b + 3]) {
        return false;
    }
    if !operand_ok(table, two, table[b + 4], table[b + 5], table[b + 6]) {
        return false;
    }
    third_ok(table, three, table[b + 7])
}

// The first two operands of the entry at place p keep their registers apart.
pub fn apart_at(table: &[u32], p: usize) -> bool
    requires { Laid table.now × (p < get_or table.now 0 0) }
    ensures { result ≡ apart_at table.now p }
{
    let b = HEADER + ENTRY * p;
    is_apart(table[b + 1], table[b + 2], table[b + 4], table[b + 5])
}

// The operands of the entry at place p keep the rules of a row of the constant table.
pub fn row_ok(table: &[u32], p: usize, row: &[u8; CELLS]) -> bool
    requires { Laid table.now × (p < get_or table.now 0 0) }
    ensures { result ≡ fields_by table.now p (code_word (get_or row.now 5 0)) (code_word (get_or row.now 6 0)) (code_word (get_or row.now 7 0)) }
{
    operands_ok(
        table,
        p,
        code_word(row[ONE]),
        code_word(row[TWO]),
        code_word(row[THREE]),
    )
}

// The fields of the entry at place p keep the rules of the formats of its three operands.
fn entry_ok(table: &[u32], p: usize, one: u32, two: u32, three: u32) -> bool
    requires { Laid table.now × (p < get_or table.now 0 0) }
    ensures { result ≡ entry_by table.now p one two three }
{
    if !operands_ok(table, p, one, two, three) {
        return false;
    }
    apart_at(table, p)
}

// The fields of the entry at place p keep the rules of a row, and its registers are apart. It does not call `row_ok`, which the compiler then leaves as a
// call: a check of a table takes a third longer.
fn entry_by(table: &[u32], p: usize, row: &[u8; CELLS]) -> bool
    requires { Laid table.now × (p < get_or table.now 0 0) }
    ensures { result ≡ entry_by table.now p (code_word (get_or row.now 5 0)) (code_word (get_or row.now 6 0)) (code_word (get_or row.now 7 0)) }
{
    entry_ok(
        table,
        p,
        code_word(row[ONE]),
        code_word(row[TWO]),
        code_word(row[THREE]),
    )
}

// The row of the operation at place p.
pub fn row_at(table: &[u32], numbers: &NumberIndex, p: usize) -> Option<usize>
    requires { Laid table.now × (p < get_or table.now 0 0) × IndexOf numbers.now }
    ensures { result ≡ row_of_number (get_or table.now (8 + 8 * p) 0) }
{
    find_number(numbers, table[HEADER + ENTRY * p])
}

// The fields of every entry keep the rules of its row in a lent copy of the constant table; the classes of all places are written down.
pub fn fields_ok(table: &[u32], list: &Operations, classes: &mut [u32]) -> bool
    requires { Laid table.now × (list.now ≡ map cells_of rows) × (get_or table.now 0 0 < length classes.old) }
    ensures { Judged table.now classes.new result }
{
    let n = index(table[0]);
    let numbers = number_index(list);
    for p in 0..n {
        let Some(i) = row_at(table, &numbers, p) else {
            return false;
        };
        if !entry_by(table, p, &list[i]) {
            return false;
        }
        classes[p] = class_of(&list[i]);
    }
    classes[n] = NO_CLASS;
    true
}
