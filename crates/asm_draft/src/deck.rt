// The words of a deck: its header, then a pass over the lines for each other part of the table [S The table].
ghost use Rattle.std.specs.Prelude.{◌≡◌, map, ◌+◌, ◌≤◌, length, take};
ghost use Rattle.ops.specs.Ops.{rows, cells_of};
ghost use Rattle.language.specs.Text.{max_bytes};
ghost use Rattle.language.specs.Card as Cards;
ghost use Rattle.language.specs.Image as Image;
ghost use Rattle.asm_types.specs.Views.{card_view, symbols_in};
ghost use Rattle.asm_draft.specs.Written.{Written};
ghost use Rattle.asm_draft.specs.Parts.{Drafted, is_over, most_words, part_in};

use crate::cards::{put_count, put_entry, put_fresh, put_starts};
use crate::store::put_eight;
use asm_cards::{SECTION_4, card_of, is_closing, past};
use asm_reader::line_end;
use asm_symbols::list::SymbolList;
use asm_types::{Card, Reader};
use ops::table::Operations;

// The parts of a table behind its header.
#[derive(Clone, Copy)]
pub enum Part {
    Entries,
    Fresh,
    Counts,
    Starts,
}

// The words of a card in a part.
fn put_part(
    list: &Operations,
    c: Card,
    s: &[u8],
    symbols: &SymbolList<'_>,
    part: Part,
    draft: &mut [u32],
    end: usize,
) -> usize
    requires { (list.now ≡ map cells_of rows) × (c.spot.word ≤ max_bytes) × (length s.now ≤ max_bytes) × (end + length (part_in part (symbols_in symbols.now.words.now symbols.now.n) (card_view c s.now)) ≤ length draft.old) }
    ensures { Written draft.old end (part_in part (symbols_in symbols.now.words.now symbols.now.n) (card_view c s.now)) draft.new result }
{
    match part {
        Part::Entries => put_entry(list, c, s, symbols, draft, end),
        Part::Fresh => put_fresh(c, s, draft, end),
        Part::Counts => put_count(list, c, s, symbols, draft, end),
        Part::Starts => put_starts(list, c, s, symbols, draft, end),
    }
}

// From section 4 on cards have words in the entries alone.
fn is_over(part: Part, opened: u32) -> bool
    ensures { result ≡ is_over part opened }
{
    match part {
        Part::Entries => false,
        Part::Fresh => SECTION_4 <= opened,
        Part::Counts => SECTION_4 <= opened,
        Part::Starts => SECTION_4 <= opened,
    }
}

// The words of all cards in a part.
fn pass(
    list: &Operations,
    text: &[u8],
    symbols: &SymbolList<'_>,
    part: Part,
    draft: &mut [u32],
    end: usize,
) -> usize
    requires { (list.now ≡ map cells_of rows) × (length text.now ≤ max_bytes) × (end + length (Image.flat (part_in part (symbols_in symbols.now.words.now symbols.now.n)) (Cards.cards_of text.now)) ≤ length draft.old) }
    ensures { Written draft.old end (Image.flat (part_in part (symbols_in symbols.now.words.now symbols.now.n)) (Cards.cards_of text.now)) draft.new result }
{
    let mut w = end;
    let mut from: usize = 0;
    let mut r = Reader {
        line: 1,
        opened: 0,
        place: 0,
        word: 0,
        external: 0,
    };
    while from < text.len() {
        if is_over(part, r.opened) {
            return w;
        }
        let to = line_end(text, from);
        let c = card_of(list, r, &text[from..to]);
        w = put_part(list, c, &text[from..to], symbols, part, draft, w);
        if is_closing(c) {
            return w;
        }
        r = past(c, &text[from..to]);
        from = to + 1;
    }
    w
}

// The words of a deck with this header.
pub fn fill(
    list: &Operations,
    text: &[u8],
    symbols: &SymbolList<'_>,
    header: [u32; 8],
    draft: &mut [u32],
) -> usize
    requires { (list.now ≡ map cells_of rows) × (length text.now ≤ max_bytes) × (most_words ≤ length draft.old) × (header ≡ Image.header (Cards.cards_of text.now)) }
    ensures { Drafted (Image.image (symbols_in symbols.now.words.now symbols.now.n) (Cards.cards_of text.now)) draft.old draft.new result }
{
    let entries = put_eight(draft, 0, header);
    let fresh = pass(list, text, symbols, Part::Entries, draft, entries);
    let counts = pass(list, text, symbols, Part::Fresh, draft, fresh);
    let starts = pass(list, text, symbols, Part::Counts, draft, counts);
    pass(list, text, symbols, Part::Starts, draft, starts)
}
