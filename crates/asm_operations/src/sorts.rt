// What a label field makes of its name, by operation and section [S Cards].
ghost use Rattle.std.specs.Prelude.{◌≡◌, map, ◌≤◌};
ghost use Rattle.ops.specs.Ops.{rows, cells_of};
ghost use Rattle.language.specs.Symbol as Symbol;
ghost use Rattle.asm_types.specs.Views.{operation_view, sort_at};

use crate::codes::class_of;
use crate::labels::is_labelless;
use asm_sections::codes::code_of;
use asm_sections::is_divider;
use asm_types::{Assembly, Operation, Sort};
use ops::class;
use ops::table::Operations;

// In section 0.
fn declared_sort(o: Operation) -> u64
    ensures { (sort_at result ≡ Symbol.declared_sort (operation_view o)) × (result ≤ 11) }
{
    let n = code_of(o);
    if n == Assembly::EXP {
        return Sort::EXTERNAL;
    }
    if n == Assembly::INP {
        return Sort::INTERNAL;
    }
    if n == Assembly::INR {
        return Sort::ROUTINE;
    }
    if n == Assembly::GLB {
        return Sort::GLOBAL;
    }
    Sort::BARE
}

// In sections 4 to 6.
fn placed_sort(list: &Operations, o: Operation) -> u64
    requires { list.now ≡ map cells_of rows }
    ensures { (sort_at result ≡ Symbol.placed_sort (operation_view o)) × (result ≤ 11) }
{
    let k = class_of(list, o);
    if k == class::ENT {
        return Sort::ENTRY;
    }
    if k == class::PRC {
        return Sort::PROCEDURE;
    }
    if k == class::RTN {
        return Sort::RETURNS;
    }
    if is_labelless(list, o) {
        return Sort::LABELLESS;
    }
    Sort::PLAIN
}

// The sort of a card's label; `opened` counts the SEC cards above.
pub fn sort_of(list: &Operations, opened: u32, o: Operation) -> u64
    requires { list.now ≡ map cells_of rows }
    ensures { (sort_at result ≡ Symbol.sort_at opened (operation_view o)) × (result ≤ 11) }
{
    if is_divider(o) {
        return Sort::BARE;
    }
    if opened == 0 {
        return Sort::BARE;
    }
    if opened == 1 {
        return declared_sort(o);
    }
    if opened == 2 {
        return Sort::EQUAL;
    }
    if opened <= 4 {
        return Sort::WORD;
    }
    placed_sort(list, o)
}
