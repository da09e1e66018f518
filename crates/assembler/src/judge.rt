// The first line with a fault, and on it the smallest number [S Numbers the host sees].
ghost use Rattle.std.specs.Prelude.{◌≡◌, map};
ghost use Rattle.op_lookup.specs.Answers.{IndexOf};
ghost use Rattle.ops.specs.Ops.{rows, cells_of};
ghost use Rattle.shape_core.specs.Known.{Known};
ghost use Rattle.language.specs.Card.{cards_of};
ghost use Rattle.language.specs.Fault.{fault_of};
ghost use Rattle.asm_types.specs.Views.{card_view, symbols_in};
ghost use Rattle.assembler.specs.Judges.{FirstFault, Judged, OfDeck, PlaceBelow, deck_from};

use crate::shape::shape_fault;
use asm_answers::verdict::{Fault, verdict_of};
use asm_cards::{card_of, is_closing, past};
use asm_faults::fault_of;
use asm_reader::line_end;
use asm_symbols::list::SymbolList;
use asm_types::{Card, Reader};
use op_lookup::numbers::NumberIndex;
use ops::table::Operations;

// The smallest number of a line's faults, or 0.
fn line_fault(
    list: &Operations,
    numbers: &NumberIndex,
    c: Card,
    s: &[u8],
    symbols: &SymbolList<'_>,
    table: &[u32],
    classes: &[u32],
    body: &[u32],
    size: usize,
) -> u32
    requires { (list.now ≡ map cells_of rows) × Known table.now classes.now body.now size × PlaceBelow size (card_view c s.now) × IndexOf numbers.now }
    ensures { OfDeck (λ d. fault_of d (card_view c s.now)) (symbols_in symbols.now.words.now symbols.now.n) table.now result }
{
    let shape = shape_fault(list, numbers, c, s, symbols, table, classes, body, size);
    fault_of(list, c, s, symbols, shape)
}

// The first fault of a text.
pub fn judge(
    list: &Operations,
    numbers: &NumberIndex,
    text: &[u8],
    symbols: &SymbolList<'_>,
    table: &[u32],
    classes: &[u32],
    body: &[u32],
    size: usize,
) -> Result<(), Fault>
    requires { (list.now ≡ map cells_of rows) × Judged text.now table.now classes.now body.now size × IndexOf numbers.now }
    ensures { FirstFault (deck_from (cards_of text.now) (symbols_in symbols.now.words.now symbols.now.n) table.now) (cards_of text.now) result }
{
    let mut r = Reader {
        line: 1,
        opened: 0,
        place: 0,
        word: 0,
        external: 0,
    };
    let mut from: usize = 0;
    while from < text.len() {
        let to = line_end(text, from);
        let c = card_of(list, r, &text[from..to]);
        let f = line_fault(
            list,
            numbers,
            c,
            &text[from..to],
            symbols,
            table,
            classes,
            body,
            size,
        );
        let v = verdict_of(f, c.spot.line);
        // Not `?`: the refusal returned at once by `let .. else` is a form that D48 names.
        let Ok(()) = v else {
            return v;
        };
        if is_closing(c) {
            return Ok(());
        }
        r = past(c, &text[from..to]);
        from = to + 1;
    }
    Ok(())
}
