// The look-up by number, through an index of the rows that is made once.
ghost use Rattle.std.specs.Prelude.{◌≡◌, map, ◌+◌, ◌*◌, ◌<◌, get_or};
ghost use Rattle.ops.specs.Lookup.{row_of_number};
ghost use Rattle.ops.specs.Ops.{cells_of, rows};
ghost use Rattle.op_lookup.specs.Answers.{IndexOf};

use crate::cells::wide;
use ops::table;
use ops::table::Operations;

// A number is this times the section, and the item [S The house machine].
pub const SECTION: usize = 100;

// The index of the rows by number: how many cells it has, and what the cell of a number holds that no row has.
pub const NUMBERS: usize = 1002;

pub const NO_ROW: u8 = 255;

pub type NumberIndex = [u8; NUMBERS];

// The number of a row.
pub fn number_of(row: &[u8; table::CELLS]) -> usize
    ensures { (result ≡ get_or row.now 0 0 * 100 + get_or row.now 1 0) × (result < 25756) }
{
    wide(row[table::SECTION]) * SECTION + wide(row[table::ITEM])
}

// The index of a lent copy of the table.
pub fn number_index(table: &Operations) -> NumberIndex
    requires { table.now ≡ map cells_of rows }
    ensures { IndexOf result }
{
    let mut index = [NO_ROW; NUMBERS];
    for (k, row) in table.iter().enumerate() {
        let n = number_of(row);
        index[n] = k as u8;
    }
    index
}

// The row that holds a number, by an index.
pub fn find_number(index: &NumberIndex, n: u32) -> Option<usize>
    requires { IndexOf index.now }
    ensures { result ≡ row_of_number n }
{
    let k = n as usize;
    if NUMBERS <= k {
        return None;
    }
    let row = index[k];
    if row == NO_ROW {
        return None;
    }
    Some(wide(row))
}
