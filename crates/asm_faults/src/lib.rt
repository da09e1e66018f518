// The faults of a line, 1 to 7: the smallest number of a condition that its card breaks [S Numbers the host sees].
#![tactic(auto)]

ghost use Rattle.std.specs.Prelude.{◌≡◌, map};
ghost use Rattle.ops.specs.Ops.{rows, cells_of};
ghost use Rattle.asm_types.specs.Views.{card_view, symbols_in};
ghost use Rattle.asm_faults.specs.Groups.{FaultOf};

pub mod labels;
pub mod lines;
pub mod numbers;
pub mod operands;

use crate::labels::label_right;
use crate::lines::line_formed;
use crate::numbers::*;
use crate::operands::{lists_right, operands_right};
use asm_outcomes::all_defined;
use asm_sections::of_section;
use asm_symbols::list::SymbolList;
use asm_types::Card;
use ops::table::Operations;

// The smallest number of a card's faults, or 0; `shape` is the fault of its place.
pub fn fault_of(list: &Operations, c: Card, s: &[u8], symbols: &SymbolList<'_>, shape: u32) -> u32
    requires { list.now ≡ map cells_of rows }
    ensures { FaultOf (symbols_in symbols.now.words.now symbols.now.n) (card_view c s.now) shape result }
{
    if !line_formed(list, c, s) {
        return MALFORMED;
    }
    let o = c.operation;
    if !of_section(c.spot.opened, o) {
        return MISPLACED;
    }
    if !label_right(list, c, symbols) {
        return MISLABELLED;
    }
    if !operands_right(list, c, s, symbols, shape) {
        return MISFIT;
    }
    if !all_defined(list, c, s, symbols) {
        return UNDEFINED;
    }
    if !lists_right(list, c, s, symbols, shape) {
        return BAD_LIST;
    }
    if shape != 0 {
        return BAD_SHAPE;
    }
    0
}
