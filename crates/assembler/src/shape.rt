// The shape fault of a card: the rules of its place in the table [S Shape rules].
ghost use Rattle.std.specs.Prelude.{◌≡◌, map, ◌<◌};
ghost use Rattle.op_lookup.specs.Answers.{IndexOf};
ghost use Rattle.ops.specs.Ops.{rows, cells_of};
ghost use Rattle.shape_core.specs.Known.{Known};
ghost use Rattle.language.specs.Fault.{is_judged, place_fault, shape_fault};
ghost use Rattle.asm_types.specs.Views.{card_view, symbols_in};
ghost use Rattle.assembler.specs.Judges.{OfDeck, PlaceBelow};

use asm_cards::holds_place;
use asm_outcomes::{all_given, first_name};
use asm_shapes::faults::fault_at;
use asm_shapes::loose::{count_known, loose_fault};
use asm_symbols::list::SymbolList;
use asm_types::Card;
use op_lookup::numbers::NumberIndex;
use ops::table::Operations;
use shape_core::reach::Places;
use table_layout::index;

// All rules of the card's place can be asked.
fn is_judged(
    list: &Operations,
    c: Card,
    s: &[u8],
    symbols: &SymbolList<'_>,
    places: &Places<'_>,
) -> bool
    requires { (list.now ≡ map cells_of rows) × (c.spot.place < places.now.n) }
    ensures { OfDeck (λ d. is_judged d (card_view c s.now)) (symbols_in symbols.now.words.now symbols.now.n) places.now.table.now result }
{
    if !all_given(list, c, s, symbols) {
        return false;
    }
    let p = index(c.spot.place);
    count_known(places, p)
}

// The fault of the card's place.
fn place_fault(
    list: &Operations,
    numbers: &NumberIndex,
    c: Card,
    s: &[u8],
    symbols: &SymbolList<'_>,
    table: &[u32],
    classes: &[u32],
    body: &[u32],
    size: usize,
) -> u32
    requires { (list.now ≡ map cells_of rows) × Known table.now classes.now body.now size × (c.spot.place < size) × IndexOf numbers.now }
    ensures { OfDeck (λ d. place_fault d (card_view c s.now)) (symbols_in symbols.now.words.now symbols.now.n) table.now result }
{
    let p = index(c.spot.place);
    let places = Places {
        table,
        classes,
        body,
        n: size,
    };
    if is_judged(list, c, s, symbols, &places) {
        return fault_at(&places, list, numbers, p);
    }
    let name = first_name(list, c, s);
    let count = symbols.declared_count(name);
    loose_fault(&places, p, count)
}

// The shape fault of a card, 0 where it has none or holds no place.
pub fn shape_fault(
    list: &Operations,
    numbers: &NumberIndex,
    c: Card,
    s: &[u8],
    symbols: &SymbolList<'_>,
    table: &[u32],
    classes: &[u32],
    body: &[u32],
    size: usize,
) -> u32
    requires { (list.now ≡ map cells_of rows) × Known table.now classes.now body.now size × PlaceBelow size (card_view c s.now) × IndexOf numbers.now }
    ensures { OfDeck (λ d. shape_fault d (card_view c s.now)) (symbols_in symbols.now.words.now symbols.now.n) table.now result }
{
    if !holds_place(c) {
        return 0;
    }
    place_fault(list, numbers, c, s, symbols, table, classes, body, size)
}
