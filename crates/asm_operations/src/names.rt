// The operation of a line, by its three letters [S Cards].
ghost use Rattle.std.specs.Prelude.{◌≡◌, map, ◌≤◌, ◌-◌, drop, length, take};
ghost use Rattle.base.specs.Test.{◌and◌};
ghost use Rattle.ops.specs.Ops.{rows, cells_of, packed};
ghost use Rattle.op_lookup.specs.Answers.{AnswersIn};
ghost use Rattle.language.specs.Text.{is_letter};
ghost use Rattle.language.specs.Operation.{assemblies, assembly_in, operation_in, operation_named, operation_of};
ghost use Rattle.asm_types.specs.Views.{operation_view};
ghost use Rattle.asm_operations.specs.Codes.{begin, end};

use asm_text::{fields_of, is_empty, is_letter};
use asm_types::Operation;
use op_lookup::find_letters_in;
use op_table::assembly::assemblies;
use ops::table::{CELLS, COUNT, Operations};

// The assembly operation of three letters.
fn assembly_named(a: u8, b: u8, c: u8) -> Operation
    ensures { operation_view result ≡ assembly_in (packed a b c) assemblies }
{
    let list = assemblies();
    let found = find_letters_in(&list, a, b, c);
    let Some(i) = found else {
        return Operation::Unknown;
    };
    Operation::Assembles(i as u32)
}

// The rows of the operation table with a first letter stand from `begins` on and before `ends` of that: the table is in the order of the alphabet, has more
// than eleven rows before C, four a letter on the average from there on, and 24 at most from such a row to the last of its letter.
const WINDOW: usize = 24;

fn begins(a: u8) -> usize
    ensures { (result ≡ begin a) × (result ≤ 103) }
{
    if a < b'C' {
        return 0;
    }
    if b'Z' < a {
        return 0;
    }
    ((a - b'C') as usize) * 4 + 11
}

fn ends(from: usize) -> usize
    requires { from ≤ 103 }
    ensures { (result ≡ end from) × (from ≤ result) × (result ≤ 106) }
{
    if COUNT - WINDOW < from {
        return COUNT;
    }
    from + WINDOW
}

// The look-up by letters in the rows from one on and before another.
fn find_within(rows: &[[u8; CELLS]], from: usize, to: usize, a: u8, b: u8, c: u8) -> Option<usize>
    requires { (from ≤ to) × (to ≤ length rows.now) }
    ensures { AnswersIn (take (to - from) (drop from rows.now)) a b c result }
{
    find_letters_in(&rows[from..to], a, b, c)
}

// The operation of three letters: a row of the operation table, an assembly operation, or unknown.
pub fn named(list: &Operations, a: u8, b: u8, c: u8) -> Operation
    requires { list.now ≡ map cells_of rows }
    ensures { operation_view result ≡ operation_named a b c }
{
    let from = begins(a);
    let to = ends(from);
    let found = find_within(list, from, to, a, b, c);
    let Some(i) = found else {
        return assembly_named(a, b, c);
    };
    let row = from + i;
    Operation::Operates(row)
}

// Three bytes are letters.
fn are_letters(a: u8, b: u8, c: u8) -> bool
    ensures { result ≡ (is_letter a and is_letter b and is_letter c) }
{
    if !is_letter(a) {
        return false;
    }
    if !is_letter(b) {
        return false;
    }
    is_letter(c)
}

// The operation that stands from i to j: a word of another length, or of other bytes, is malformed.
fn operation_in(list: &Operations, s: &[u8], i: usize, j: usize) -> Operation
    requires { (list.now ≡ map cells_of rows) × (i ≤ j) × (j ≤ length s.now) }
    ensures { operation_view result ≡ operation_in s.now i j }
{
    if j != i + 3 {
        return Operation::Malformed;
    }
    if !are_letters(s[i], s[i + 1], s[i + 2]) {
        return Operation::Malformed;
    }
    named(list, s[i], s[i + 1], s[i + 2])
}

// The operation of a line.
pub fn operation_of(list: &Operations, s: &[u8]) -> Operation
    requires { list.now ≡ map cells_of rows }
    ensures { operation_view result ≡ operation_of s.now }
{
    if is_empty(s) {
        return Operation::Empty;
    }
    let f = fields_of(s);
    operation_in(list, s, f.operation_start, f.operation_end)
}
