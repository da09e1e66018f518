// The list of the assembly operations [S Cards], of the same form as the table and read the same way: number, mnemonic, operands as [M section 8]
// has them, and no class. The row of each is its number as the assembler knows it. TTL's and DTC's texts are no operands of a format.
ghost use Rattle.std.specs.Prelude.{◌≡◌, map};
ghost use Rattle.ops.specs.Assembly.{assemblies, assembly_cells};

use ops::cells::*;
use ops::table;

// How many there are, and the type of the list.
pub const COUNT: usize = 14;

pub type Assemblies = [[u8; table::CELLS]; COUNT];

const LIST: Assemblies = [
    [14, 1, b'S', b'E', b'C', NONE, NONE, NONE, NO_CLASS],
    [14, 2, b'E', b'N', b'D', NONE, NONE, NONE, NO_CLASS],
    [13, 2, b'T', b'T', b'L', NONE, NONE, NONE, NO_CLASS],
    [13, 1, b'E', b'J', b'C', NONE, NONE, NONE, NO_CLASS],
    [12, 2, b'E', b'X', b'P', PTYP, INT, NONE, NO_CLASS],
    [12, 3, b'I', b'N', b'P', PTYP, INT, NONE, NO_CLASS],
    [12, 4, b'I', b'N', b'R', NONE, NONE, NONE, NO_CLASS],
    [12, 5, b'G', b'L', b'B', NONE, NONE, NONE, NO_CLASS],
    [12, 1, b'E', b'Q', b'U', EQOP, NONE, NONE, NO_CLASS],
    [11, 1, b'D', b'A', b'C', ADDR, NONE, NONE, NO_CLASS],
    [11, 2, b'D', b'I', b'C', INTEGER, NONE, NONE, NO_CLASS],
    [11, 3, b'D', b'R', b'C', REAL, NONE, NONE, NO_CLASS],
    [11, 5, b'D', b'B', b'C', VAL, NONE, NONE, NO_CLASS],
    [11, 4, b'D', b'T', b'C', NONE, NONE, NONE, NO_CLASS],
];

// The list, to be taken into a local and lent: each call of this is a copy.
pub fn assemblies() -> Assemblies
    ensures { result ≡ map assembly_cells assemblies }
{
    LIST
}
