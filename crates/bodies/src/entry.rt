// Numbers of a table's entries: its layout, and the operations that the state check asks for [S The table].
ghost use Rattle.std.specs.Prelude.{◌≡◌};

// Words of the header and of an entry.
pub const HEADER: usize = 8;

pub const ENTRY: usize = 8;

// Words of the header: entries, constant words, working words, EXPs.
pub const SIZE: usize = 0;

pub const CONSTANTS: usize = 1;

pub const WORKINGS: usize = 2;

pub const EXTERNALS: usize = 4;

// Words of an entry after its operation: the kind and the value of operand one.
pub const KIND: usize = 1;

pub const VALUE: usize = 3;

// The operations that are never arrived at, and JSR.
pub const IFF: u32 = 104;

pub const ESW: u32 = 105;

pub const JSR: u32 = 109;

pub const PPM: u32 = 110;

pub const PRC: u32 = 111;

pub const ENP: u32 = 113;

pub const ERR: u32 = 114;

// A word as an index.
pub fn index(x: u32) -> usize
    ensures { result ≡ x }
{
    x as usize
}
