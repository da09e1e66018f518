// What the cells of a row say: the class, and the word of a format.
ghost use Rattle.std.specs.Prelude.{◌≡◌, ◌<◌, get_or};
ghost use Rattle.ops.specs.Format.{code_word};

use ops::cells::*;
use ops::{format, table};

// A byte as an index.
pub fn wide(x: u8) -> usize
    ensures { (result ≡ x) × (result < 256) }
{
    x as usize
}

// The class of a row.
pub fn class_of(row: &[u8; table::CELLS]) -> u32
    ensures { result ≡ get_or row.now 8 0 }
{
    wide(row[table::CLASS]) as u32
}

// The word of a format's code.
pub fn code_word(code: u8) -> u32
    ensures { result ≡ code_word code }
{
    match code {
        NONE => format::NONE,
        OPV => format::OPV,
        OPN => format::OPN,
        OPW => format::OPW,
        OPS => format::OPS,
        OPC => format::OPC,
        REG => format::REG,
        X => format::X,
        W => format::W,
        VAL => format::VAL,
        INT => format::INT,
        SHIFT => format::SHIFT,
        PLBL => format::PLBL,
        PNAM => format::PNAM,
        GLBL => format::GLBL,
        PTYP => format::PTYP,
        EQOP => format::EQOP,
        ADDR => format::ADDR,
        INTEGER => format::INTEGER,
        REAL => format::REAL,
        OPT_OPV => format::OPT_OPV,
        OPT_VAL => format::OPT_VAL,
        OPT_INT => format::OPT_INT,
        OPT_PLBL => format::OPT_PLBL,
        STILL_OPV => format::STILL_OPV,
        STILL_OPN => format::STILL_OPN,
        STILL_OPW => format::STILL_OPW,
        _ => format::NONE,
    }
}
