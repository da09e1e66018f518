// The formats of the operands that a card writes, as words, and whether a text follows them [M section 7].
ghost use Rattle.std.specs.Prelude.{◌≡◌, map, get_or, length};
ghost use Rattle.ops.specs.Format as Format;
ghost use Rattle.ops.specs.Ops.{rows, cells_of};
ghost use Rattle.language.specs.Operation.{formats_of, has_text};
ghost use Rattle.asm_types.specs.Views.{operation_view};
ghost use Rattle.asm_operations.specs.Codes.{card_count, card_format, operand_format};

use crate::codes::{class_of, row_index};
use asm_sections::codes;
use asm_sections::codes::code_of;
use asm_types::Operation;
use op_lookup::cells::code_word;
use op_table::assembly::assemblies;
use ops::format::{NONE, PTYP};
use ops::table::{CELLS, CLASS, COUNT, ONE, Operations, THREE, TWO};
use ops::{cells, class};

// The card has a text after its operand: ERR and ERB.
pub fn has_text(list: &Operations, o: Operation) -> bool
    requires { list.now ≡ map cells_of rows }
    ensures { result ≡ has_text (operation_view o) }
{
    let k = class_of(list, o);
    if k == class::ERR {
        return true;
    }
    k == class::ERB
}

// The word of the format of operand i in a row.
fn operand_format(row: &[u8; CELLS], i: usize) -> u32
    ensures { result ≡ operand_format row.now i }
{
    if 3 <= i {
        return NONE;
    }
    code_word(row[ONE + i])
}

// The word of format i of a row's card: a procedure type stands before PRC's operand.
fn format_in(row: &[u8; CELLS], i: usize) -> u32
    ensures { result ≡ card_format row.now i }
{
    if row[CLASS] != cells::PRC {
        return operand_format(row, i);
    }
    if i == 0 {
        return PTYP;
    }
    operand_format(row, i - 1)
}

// How many formats a row's card has.
fn count_in(row: &[u8; CELLS]) -> usize
    ensures { result ≡ card_count row.now }
{
    if row[ONE] == cells::NONE {
        return 0;
    }
    if row[CLASS] == cells::PRC {
        return 2;
    }
    if row[TWO] == cells::NONE {
        return 1;
    }
    if row[THREE] == cells::NONE {
        return 2;
    }
    3
}

// The word of format i, NONE past the last.
pub fn format_at(list: &Operations, o: Operation, i: usize) -> u32
    requires { list.now ≡ map cells_of rows }
    ensures { result ≡ Format.format_word (get_or (formats_of (operation_view o)) i Format.NONE) }
{
    let n = code_of(o);
    if n < codes::EMPTY {
        let own = assemblies();
        return format_in(&own[n as usize], i);
    }
    let k = row_index(o);
    if k < COUNT {
        return format_in(&list[k], i);
    }
    NONE
}

// How many formats there are.
pub fn format_count(list: &Operations, o: Operation) -> usize
    requires { list.now ≡ map cells_of rows }
    ensures { result ≡ length (formats_of (operation_view o)) }
{
    let n = code_of(o);
    if n < codes::EMPTY {
        let own = assemblies();
        return count_in(&own[n as usize]);
    }
    let k = row_index(o);
    if k < COUNT {
        return count_in(&list[k]);
    }
    0
}
