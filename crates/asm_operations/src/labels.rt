// Which cards want a label, and which carry none [S 3].
ghost use Rattle.std.specs.Prelude.{◌≡◌, map};
ghost use Rattle.ops.specs.Ops.{rows, cells_of};
ghost use Rattle.language.specs.Operation.{bars_label, is_labelless, wants_label};
ghost use Rattle.asm_types.specs.Views.{operation_view};

use crate::codes::class_of;
use asm_sections::codes::code_of;
use asm_sections::is_divider;
use asm_types::{Assembly, Operation};
use ops::class;
use ops::table::Operations;

// The cards of sections 0 and 1, PRC, RTN and ENT want a label.
pub fn wants_label(list: &Operations, o: Operation) -> bool
    requires { list.now ≡ map cells_of rows }
    ensures { result ≡ wants_label (operation_view o) }
{
    let n = code_of(o);
    if n == Assembly::EXP {
        return true;
    }
    if n == Assembly::INP {
        return true;
    }
    if n == Assembly::INR {
        return true;
    }
    if n == Assembly::GLB {
        return true;
    }
    if n == Assembly::EQU {
        return true;
    }
    let k = class_of(list, o);
    if k == class::PRC {
        return true;
    }
    if k == class::RTN {
        return true;
    }
    k == class::ENT
}

// ENP and the cards of lists carry no label.
pub fn is_labelless(list: &Operations, o: Operation) -> bool
    requires { list.now ≡ map cells_of rows }
    ensures { result ≡ is_labelless (operation_view o) }
{
    let k = class_of(list, o);
    if k == class::ENP {
        return true;
    }
    if k == class::PPM {
        return true;
    }
    if k == class::ERR {
        return true;
    }
    if k == class::IFF {
        return true;
    }
    k == class::ESW
}

// Neither do SEC and END.
pub fn bars_label(list: &Operations, o: Operation) -> bool
    requires { list.now ≡ map cells_of rows }
    ensures { result ≡ bars_label (operation_view o) }
{
    if is_divider(o) {
        return true;
    }
    is_labelless(list, o)
}
