// An operation's code.
ghost use Rattle.std.specs.Prelude.{◌≡◌, ◌<◌};
ghost use Rattle.language.specs.Operation.{is_assembly};
ghost use Rattle.asm_types.specs.Views.{assembly_at, operation_view};
ghost use Rattle.asm_sections.specs.Codes.{assembly_code, code_of};

use asm_types::{Assembly, Operation};

// The codes past those of the assembly operations. Numbers, as asm_types has those: an enum was tried, and the proofs of the tests did not close.
pub const EMPTY: u32 = 14;

pub const MALFORMED: u32 = 15;

pub const UNKNOWN: u32 = 16;

pub const OPERATES: u32 = 17;

// The number of an assembly operation.
fn assembly_code(a: u32) -> u32
    ensures { result ≡ assembly_code (assembly_at a) }
{
    if a < Assembly::DTC {
        return a;
    }
    Assembly::DTC
}

// An operation's code.
pub fn code_of(o: Operation) -> u32
    ensures { result ≡ code_of (operation_view o) }
{
    match o {
        Operation::Empty => EMPTY,
        Operation::Malformed => MALFORMED,
        Operation::Unknown => UNKNOWN,
        Operation::Assembles(a) => assembly_code(a),
        Operation::Operates(_) => OPERATES,
    }
}

// The operation is the assembly operation of this number.
pub fn is_assembly(o: Operation, code: u32) -> bool
    requires { code < 14 }
    ensures { result ≡ is_assembly (assembly_at code) (operation_view o) }
{
    code_of(o) == code
}
