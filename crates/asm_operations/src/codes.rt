// The cells of an operation's row in the operation table, its number, and that of its class.
ghost use Rattle.std.specs.Prelude.{◌≡◌, map, ◌<◌, get_or};
ghost use Rattle.ops.specs.Class.{class_code};
ghost use Rattle.ops.specs.Lookup.{no_row, row_at};
ghost use Rattle.ops.specs.Ops.{rows, cells_of};
ghost use Rattle.asm_types.specs.Views.{operation_view};
ghost use Rattle.asm_operations.specs.Codes.{row_of};

use asm_types::Operation;
use op_lookup::numbers;
use ops::cells::NO_CLASS;
use ops::table;
use ops::table::Operations;

// A number is this times the section, and the item.
const SECTION: u32 = numbers::SECTION as u32;

// The index of an operation's row, past the last where it has none.
pub fn row_index(o: Operation) -> usize
    ensures { row_at result ≡ row_of (operation_view o) }
{
    match o {
        Operation::Empty => table::COUNT,
        Operation::Malformed => table::COUNT,
        Operation::Unknown => table::COUNT,
        Operation::Assembles(_) => table::COUNT,
        Operation::Operates(i) => i,
    }
}

// Cell j of an operation's row; `past` is what an operation without a row has there.
pub fn cell(list: &Operations, o: Operation, j: usize, past: u8) -> u8
    requires { (list.now ≡ map cells_of rows) × (j < 9) × (past ≡ get_or (cells_of no_row) j 0) }
    ensures { result ≡ get_or (cells_of (row_of (operation_view o))) j 0 }
{
    let i = row_index(o);
    if i < table::COUNT {
        return list[i][j];
    }
    past
}

// A byte as a word.
fn wide(x: u8) -> u32
    ensures { (result ≡ x) × (result < 256) }
{
    x as u32
}

// An operation's number, 0 where it has no row.
pub fn number_of(list: &Operations, o: Operation) -> u32
    requires { list.now ≡ map cells_of rows }
    ensures { result ≡ (row_of (operation_view o)).number }
{
    wide(cell(list, o, table::SECTION, 0)) * SECTION + wide(cell(list, o, table::ITEM, 0))
}

// The number of an operation's class, or NO_CLASS.
pub fn class_of(list: &Operations, o: Operation) -> u32
    requires { list.now ≡ map cells_of rows }
    ensures { result ≡ class_code (row_of (operation_view o)).class }
{
    wide(cell(list, o, table::CLASS, NO_CLASS))
}
