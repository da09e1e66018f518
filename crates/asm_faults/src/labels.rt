// Fault 3: a label is missing, unwanted, or used a second time [S 3].
ghost use Rattle.std.specs.Prelude.{◌≡◌, map};
ghost use Rattle.ops.specs.Ops.{rows, cells_of};
ghost use Rattle.language.specs.Fault as Fault;
ghost use Rattle.asm_types.specs.Views.{symbols_in};
ghost use Rattle.asm_cards.specs.Reading.{OfCard};
ghost use Rattle.asm_faults.specs.Groups.{label_right, symbol_deck};

use asm_operations::labels::{bars_label, wants_label};
use asm_operations::sorts::sort_of;
use asm_symbols::list::SymbolList;
use asm_types::Card;
use ops::table::Operations;

// A card that wants a label has one.
fn label_there(list: &Operations, c: Card) -> bool
    requires { list.now ≡ map cells_of rows }
    ensures { OfCard Fault.label_there c result }
{
    if c.label != 0 {
        return true;
    }
    let o = c.operation;
    !wants_label(list, o)
}

// A card that carries no label has none.
fn label_wanted(list: &Operations, c: Card) -> bool
    requires { list.now ≡ map cells_of rows }
    ensures { OfCard Fault.label_wanted c result }
{
    if c.label == 0 {
        return true;
    }
    let o = c.operation;
    !bars_label(list, o)
}

// A label is one use with the fields of its name above it.
fn label_once(list: &Operations, c: Card, symbols: &SymbolList<'_>) -> bool
    requires { list.now ≡ map cells_of rows }
    ensures { OfCard (Fault.label_once (symbol_deck (symbols_in symbols.now.words.now symbols.now.n))) c result }
{
    if c.label == 0 {
        return true;
    }
    let o = c.operation;
    let sort = sort_of(list, c.spot.opened, o);
    symbols.is_one_use(c.spot.line as u64, c.label, sort)
}

// The label is there where it is wanted, and there alone, and once.
pub fn label_right(list: &Operations, c: Card, symbols: &SymbolList<'_>) -> bool
    requires { list.now ≡ map cells_of rows }
    ensures { OfCard (label_right (symbol_deck (symbols_in symbols.now.words.now symbols.now.n))) c result }
{
    if !label_there(list, c) {
        return false;
    }
    if !label_wanted(list, c) {
        return false;
    }
    label_once(list, c, symbols)
}
