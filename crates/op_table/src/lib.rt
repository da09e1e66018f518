// The one constant table of operations [S The house machine], to be laid beside the paper's list [M section 8]: a row for each operation that
// the house machine has, in the order of that list. As there, a row has the number as section and item, the mnemonic, and its operands.
// OPT_ stands before an operand that may be left out (the list's star); STILL_ before one that takes no (X)+, and SHIFT for a VAL to 32, as [S Shape
// rules] has it. PRC's card has a procedure type before its operand, ERR's and ERB's a text after it. The last cell is the control class.
#![tactic(auto)]

ghost use Rattle.std.specs.Prelude.{◌≡◌, map};
ghost use Rattle.ops.specs.Ops.{rows, cells_of};
ghost use Rattle.op_lookup.specs.Answers.{Answers};

use op_lookup::find_letters_in;
use ops::cells::*;
use ops::table::Operations;

pub mod assembly;

// SECTION, ITEM, LETTERS, ONE, TWO, THREE, CLASS
const TABLE: Operations = [
    [2, 1, b'A', b'D', b'D', OPV, OPN, NONE, GOES],
    [4, 2, b'A', b'D', b'I', OPS, NONE, NONE, GOES],
    [5, 3, b'A', b'D', b'R', OPS, NONE, NONE, GOES],
    [7, 1, b'A', b'N', b'B', OPW, W, NONE, GOES],
    [2, 17, b'A', b'O', b'V', OPV, OPN, PLBL, FORKS],
    [2, 16, b'B', b'C', b'T', W, PLBL, NONE, FORKS],
    [2, 5, b'B', b'E', b'Q', STILL_OPN, STILL_OPV, PLBL, FORKS],
    [2, 8, b'B', b'G', b'E', STILL_OPN, STILL_OPV, PLBL, FORKS],
    [2, 7, b'B', b'G', b'T', STILL_OPN, STILL_OPV, PLBL, FORKS],
    [2, 12, b'B', b'H', b'I', STILL_OPN, STILL_OPV, PLBL, FORKS],
    [2, 10, b'B', b'L', b'E', STILL_OPN, STILL_OPV, PLBL, FORKS],
    [2, 11, b'B', b'L', b'O', STILL_OPN, STILL_OPV, PLBL, FORKS],
    [2, 9, b'B', b'L', b'T', STILL_OPN, STILL_OPV, PLBL, FORKS],
    [2, 6, b'B', b'N', b'E', STILL_OPN, STILL_OPV, PLBL, FORKS],
    [2, 13, b'B', b'N', b'Z', STILL_OPN, PLBL, NONE, FORKS],
    [1, 2, b'B', b'R', b'N', PLBL, NONE, NONE, BRN],
    [1, 7, b'B', b'R', b'I', OPN, NONE, NONE, BRI],
    [1, 3, b'B', b'S', b'W', X, VAL, OPT_PLBL, BSW],
    [8, 9, b'B', b'T', b'C', W, NONE, NONE, GOES],
    [8, 2, b'B', b'T', b'W', REG, NONE, NONE, GOES],
    [2, 14, b'B', b'Z', b'E', STILL_OPN, PLBL, NONE, FORKS],
    [6, 6, b'C', b'E', b'Q', STILL_OPW, STILL_OPW, PLBL, FORKS],
    [10, 1, b'C', b'H', b'K', NONE, NONE, NONE, CHK],
    [7, 4, b'C', b'M', b'B', W, NONE, NONE, GOES],
    [6, 8, b'C', b'M', b'C', PLBL, PLBL, NONE, FORKS],
    [6, 7, b'C', b'N', b'E', STILL_OPW, STILL_OPW, PLBL, FORKS],
    [6, 5, b'C', b'S', b'C', X, NONE, NONE, GOES],
    [8, 8, b'C', b'T', b'B', W, VAL, NONE, GOES],
    [8, 7, b'C', b'T', b'W', W, VAL, NONE, GOES],
    [8, 12, b'C', b'V', b'D', NONE, NONE, NONE, GOES],
    [8, 11, b'C', b'V', b'M', PLBL, NONE, NONE, FORKS],
    [2, 4, b'D', b'C', b'A', OPN, NONE, NONE, GOES],
    [1, 17, b'D', b'C', b'V', OPN, NONE, NONE, GOES],
    [4, 5, b'D', b'V', b'I', OPS, NONE, NONE, GOES],
    [5, 6, b'D', b'V', b'R', OPS, NONE, NONE, GOES],
    [1, 13, b'E', b'N', b'P', NONE, NONE, NONE, ENP],
    [1, 6, b'E', b'N', b'T', OPT_VAL, NONE, NONE, ENT],
    [1, 15, b'E', b'R', b'B', INT, NONE, NONE, ERB],
    [1, 14, b'E', b'R', b'R', INT, NONE, NONE, ERR],
    [1, 5, b'E', b'S', b'W', NONE, NONE, NONE, ESW],
    [1, 12, b'E', b'X', b'I', OPT_INT, NONE, NONE, EXI],
    [2, 3, b'I', b'C', b'A', OPN, NONE, NONE, GOES],
    [1, 16, b'I', b'C', b'V', OPN, NONE, NONE, GOES],
    [4, 11, b'I', b'E', b'Q', PLBL, NONE, NONE, FORKS],
    [1, 4, b'I', b'F', b'F', VAL, PLBL, NONE, IFF],
    [4, 12, b'I', b'G', b'E', PLBL, NONE, NONE, FORKS],
    [4, 13, b'I', b'G', b'T', PLBL, NONE, NONE, FORKS],
    [4, 14, b'I', b'L', b'E', PLBL, NONE, NONE, FORKS],
    [4, 15, b'I', b'L', b'T', PLBL, NONE, NONE, FORKS],
    [4, 16, b'I', b'N', b'E', PLBL, NONE, NONE, FORKS],
    [4, 9, b'I', b'N', b'O', PLBL, NONE, NONE, FORKS],
    [4, 10, b'I', b'O', b'V', PLBL, NONE, NONE, FORKS],
    [8, 5, b'I', b'T', b'R', NONE, NONE, NONE, GOES],
    [1, 23, b'J', b'M', b'G', GLBL, NONE, NONE, JMG],
    [1, 9, b'J', b'S', b'R', PNAM, NONE, NONE, JSR],
    [6, 3, b'L', b'C', b'H', REG, OPC, NONE, GOES],
    [2, 15, b'L', b'C', b'T', W, OPV, NONE, GOES],
    [4, 1, b'L', b'D', b'I', OPS, NONE, NONE, GOES],
    [5, 1, b'L', b'D', b'R', OPS, NONE, NONE, GOES],
    [1, 8, b'L', b'E', b'I', X, NONE, NONE, GOES],
    [7, 6, b'L', b'S', b'H', W, SHIFT, NONE, GOES],
    [7, 8, b'L', b'S', b'X', W, X, NONE, GOES],
    [8, 4, b'M', b'F', b'I', OPN, OPT_PLBL, NONE, FORKS],
    [4, 3, b'M', b'L', b'I', OPS, NONE, NONE, GOES],
    [5, 5, b'M', b'L', b'R', OPS, NONE, NONE, GOES],
    [1, 19, b'M', b'N', b'Z', OPN, NONE, NONE, GOES],
    [1, 1, b'M', b'O', b'V', OPV, OPN, NONE, GOES],
    [8, 3, b'M', b'T', b'I', OPN, NONE, NONE, GOES],
    [9, 1, b'M', b'V', b'C', NONE, NONE, NONE, GOES],
    [9, 3, b'M', b'V', b'W', NONE, NONE, NONE, GOES],
    [4, 8, b'N', b'G', b'I', NONE, NONE, NONE, GOES],
    [5, 9, b'N', b'G', b'R', NONE, NONE, NONE, GOES],
    [7, 9, b'N', b'Z', b'B', W, PLBL, NONE, FORKS],
    [7, 2, b'O', b'R', b'B', OPW, W, NONE, GOES],
    [6, 1, b'P', b'L', b'C', X, OPT_OPV, NONE, GOES],
    [1, 10, b'P', b'P', b'M', OPT_PLBL, NONE, NONE, PPM],
    [1, 11, b'P', b'R', b'C', VAL, NONE, NONE, PRC],
    [6, 2, b'P', b'S', b'C', X, OPT_OPV, NONE, GOES],
    [5, 10, b'R', b'E', b'Q', PLBL, NONE, NONE, FORKS],
    [5, 11, b'R', b'G', b'E', PLBL, NONE, NONE, FORKS],
    [5, 12, b'R', b'G', b'T', PLBL, NONE, NONE, FORKS],
    [5, 13, b'R', b'L', b'E', PLBL, NONE, NONE, FORKS],
    [5, 14, b'R', b'L', b'T', PLBL, NONE, NONE, FORKS],
    [4, 6, b'R', b'M', b'I', OPS, NONE, NONE, GOES],
    [5, 15, b'R', b'N', b'E', PLBL, NONE, NONE, FORKS],
    [5, 8, b'R', b'N', b'O', PLBL, NONE, NONE, FORKS],
    [5, 7, b'R', b'O', b'V', PLBL, NONE, NONE, FORKS],
    [7, 5, b'R', b'S', b'H', W, SHIFT, NONE, GOES],
    [7, 7, b'R', b'S', b'X', W, X, NONE, GOES],
    [8, 6, b'R', b'T', b'I', OPT_PLBL, NONE, NONE, FORKS],
    [1, 22, b'R', b'T', b'N', NONE, NONE, NONE, RTN],
    [4, 4, b'S', b'B', b'I', OPS, NONE, NONE, GOES],
    [5, 4, b'S', b'B', b'R', OPS, NONE, NONE, GOES],
    [6, 4, b'S', b'C', b'H', REG, OPC, NONE, GOES],
    [1, 20, b'S', b'S', b'L', OPW, NONE, NONE, GOES],
    [1, 21, b'S', b'S', b'S', OPW, NONE, NONE, SSS],
    [4, 7, b'S', b'T', b'I', OPS, NONE, NONE, GOES],
    [5, 2, b'S', b'T', b'R', OPS, NONE, NONE, GOES],
    [2, 2, b'S', b'U', b'B', OPV, OPN, NONE, GOES],
    [6, 9, b'T', b'R', b'C', NONE, NONE, NONE, GOES],
    [8, 1, b'W', b'T', b'B', REG, NONE, NONE, GOES],
    [8, 10, b'W', b'T', b'C', W, NONE, NONE, GOES],
    [7, 3, b'X', b'O', b'B', OPW, W, NONE, GOES],
    [1, 18, b'Z', b'E', b'R', OPN, NONE, NONE, GOES],
    [7, 11, b'Z', b'G', b'B', OPN, NONE, NONE, GOES],
    [7, 10, b'Z', b'R', b'B', W, PLBL, NONE, FORKS],
];

// The table, to be taken into a local once and lent: each call of this is a copy.
pub fn rows() -> Operations
    ensures { result ≡ map cells_of rows }
{
    TABLE
}

// The look-up by three letters: row i exactly where row i has these letters, unknown exactly where no row has [02 Wish 4].
// It copies the table: a loop over cards lends its own to `find_letters_in`.
pub fn find_letters(a: u8, b: u8, c: u8) -> Option<usize>
    ensures { Answers a b c result }
{
    let rows = rows();
    find_letters_in(&rows, a, b, c)
}
