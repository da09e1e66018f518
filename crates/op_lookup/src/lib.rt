// Look-ups in a list of rows, by the three letters of a mnemonic and by number, and what a row's cells say [S The house machine] [02 Wish 4].
#![tactic(auto)]

ghost use Rattle.std.specs.Prelude.{◌≡◌};
ghost use Rattle.op_lookup.specs.Answers.{AnswersIn, lettered};

use ops::table;

pub mod cells;
pub mod numbers;

// A row has three letters.
fn has_letters(row: &[u8; table::CELLS], a: u8, b: u8, c: u8) -> bool
    ensures { result ≡ lettered row.now a b c }
{
    if row[table::LETTERS] != a {
        return false;
    }
    if row[table::LETTERS + 1] != b {
        return false;
    }
    row[table::LETTERS + 2] == c
}

// The look-up by letters in a list of rows, whatever stands there: row i exactly where row i is the first that has these letters, unknown
// exactly where no row has.
pub fn find_letters_in(rows: &[[u8; table::CELLS]], a: u8, b: u8, c: u8) -> Option<usize>
    ensures { AnswersIn rows.now a b c result }
{
    for i in 0..rows.len() {
        if has_letters(&rows[i], a, b, c) {
            return Some(i);
        }
    }
    None
}
