// Formats by their words: the kinds, terms and registers that each takes [M section 7].
ghost use Rattle.std.specs.Prelude.{◌≡◌, ◌<◌, ◌≤◌, ◌/◌, ◌^◌, leb};
ghost use Rattle.base.specs.Test.{◌and◌};
ghost use Rattle.base.specs.Lists.{member};
ghost use Rattle.ops.specs.Machine.{cfp_m};
ghost use Rattle.language.specs.Operand.{register_kind, takes_number, takes_symbol, takes_term, missing};
ghost use Rattle.asm_types.specs.Views.{outcome_view, term_view};
ghost use Rattle.asm_values.specs.Read.{format_of, last_of, largest_of};

use asm_types::{Given, Outcome, Term};
use ops::constants::Machine;
use ops::format::*;

// The tags, read from the words of the operation table: numbers, since an enum would name each of them once more in its match.
pub const OPV_TAG: u32 = OPV / TAG;

pub const OPN_TAG: u32 = OPN / TAG;

pub const OPW_TAG: u32 = OPW / TAG;

pub const OPS_TAG: u32 = OPS / TAG;

pub const OPC_TAG: u32 = OPC / TAG;

pub const VAL_TAG: u32 = VAL / TAG;

pub const INT_TAG: u32 = INT / TAG;

pub const SHIFT_TAG: u32 = SHIFT / TAG;

pub const PLBL_TAG: u32 = PLBL / TAG;

pub const PNAM_TAG: u32 = PNAM / TAG;

pub const GLBL_TAG: u32 = GLBL / TAG;

pub const PTYP_TAG: u32 = PTYP / TAG;

pub const EQOP_TAG: u32 = EQOP / TAG;

pub const ADDR_TAG: u32 = ADDR / TAG;

pub const INTEGER_TAG: u32 = INTEGER / TAG;

pub const REAL_TAG: u32 = REAL / TAG;

// The registers as words: the last that points to characters, the last X.
const XR: u32 = Machine::XR as u32;

const XS: u32 = Machine::XS as u32;

// The last index register of a format.
pub fn last_x(format: u32) -> u32
    ensures { result ≡ last_of (format / 2 ^ 24) }
{
    let tag = format / TAG;
    if tag == OPC_TAG {
        return XR;
    }
    if PTYP_TAG <= tag {
        return 0;
    }
    XS
}

// The largest value of a format.
pub fn largest(format: u32) -> u32
    ensures { (result ≡ largest_of (format / 2 ^ 24)) × (result ≤ cfp_m) }
{
    if format / TAG == SHIFT_TAG {
        return Machine::CFP_N;
    }
    Machine::CFP_M
}

// A format takes a kind.
pub fn takes_kind(format: u32, kind: u32) -> bool
    requires { kind < 24 }
    ensures { result ≡ member kind (format_of format).kinds }
{
    (format >> kind) % 2 == 1
}

// A format takes a kind with an index register.
pub fn takes_x(format: u32, kind: u32, reg: u32) -> bool
    requires { kind < 24 }
    ensures { result ≡ (member kind (format_of format).kinds and leb reg (format_of format).last_x) }
{
    if !takes_kind(format, kind) {
        return false;
    }
    reg <= last_x(format)
}

// The kind of a register: an X or a W.
pub fn register_kind(reg: u32) -> u32
    ensures { (result ≡ register_kind reg) × (result < 24) }
{
    if reg <= XS {
        return X_KIND;
    }
    W_KIND
}

// A format takes a number.
pub fn takes_number(format: u32) -> bool
    ensures { result ≡ takes_number (format_of format) }
{
    match format / TAG {
        VAL_TAG => true,
        INT_TAG => true,
        SHIFT_TAG => true,
        ADDR_TAG => true,
        EQOP_TAG => true,
        _ => false,
    }
}

// A format takes a symbol.
pub fn takes_symbol(format: u32) -> bool
    ensures { result ≡ takes_symbol (format_of format) }
{
    match format / TAG {
        OPV_TAG => true,
        OPN_TAG => true,
        OPW_TAG => true,
        OPS_TAG => true,
        VAL_TAG => true,
        SHIFT_TAG => true,
        PLBL_TAG => true,
        PNAM_TAG => true,
        GLBL_TAG => true,
        ADDR_TAG => true,
        EQOP_TAG => true,
        _ => false,
    }
}

// A format takes a number or a symbol.
pub fn takes_term(format: u32, t: Term) -> bool
    ensures { result ≡ takes_term (format_of format) (term_view t) }
{
    match t {
        Term::Constant(_) => takes_number(format),
        Term::Named(_) => takes_symbol(format),
    }
}

// An operand that is not written [S Cards].
pub fn missing(format: u32) -> Outcome
    ensures { outcome_view result ≡ missing (format_of format) }
{
    if takes_kind(format, NO_KIND) {
        return Outcome::Gives(Given {
            kind: NO_KIND,
            reg: 0,
            val: 0,
        });
    }
    Outcome::Misfits
}
