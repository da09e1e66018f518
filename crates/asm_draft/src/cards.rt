// The words of one card: its entry, its starting words, its fresh address, its exit count [S The table].
ghost use Rattle.std.specs.Prelude.{◌≡◌, map, ◌+◌, ◌≤◌, length};
ghost use Rattle.ops.specs.Class.{beside_of};
ghost use Rattle.ops.specs.Ops.{rows, cells_of};
ghost use Rattle.language.specs.Text.{max_bytes};
ghost use Rattle.language.specs.Operand.{outcomes};
ghost use Rattle.language.specs.Image.{counts_in, entry_by, entry_in, fresh_in, row_entry, starts_in, without_type, words_in};
ghost use Rattle.asm_types.specs.Views.{card_view, operation_view, symbols_in};
ghost use Rattle.asm_operations.specs.Codes.{row_of};
ghost use Rattle.asm_draft.specs.Written.{Written};

use crate::operands::{first_operand, given_of, third_of, type_count};
use crate::store::{put, put_eight};
use crate::texts::{put_real, put_text};
use asm_cards::{holds_place, is_external, is_fresh, of_words};
use asm_operations::codes::number_of;
use asm_outcomes::{outcome_at, value_at};
use asm_sections::codes::{code_of, is_assembly};
use asm_sections::{codes, is_one_word};
use asm_symbols::list::SymbolList;
use asm_types::{Assembly, Card};
use ops::constants::Machine;
use ops::table::Operations;

// NGI stands for an operation that is not known: it goes on.
const NGI: u32 = 408;

// The entry of a card whose operation has a row.
fn row_entry(list: &Operations, c: Card, s: &[u8], symbols: &SymbolList<'_>) -> [u32; 8]
    requires { list.now ≡ map cells_of rows }
    ensures { result ≡ row_entry (symbols_in symbols.now.words.now symbols.now.n) (card_view c s.now) (row_of (operation_view c.operation)) (without_type (beside_of (row_of (operation_view c.operation)).class) (outcomes (symbols_in symbols.now.words.now symbols.now.n) (card_view c s.now))) }
{
    let o = c.operation;
    let number = number_of(list, o);
    let i = type_count(list, o);
    let one = first_operand(list, c, s, symbols, i);
    let two = given_of(outcome_at(list, c, s, symbols, i + 1));
    let three = third_of(outcome_at(list, c, s, symbols, i + 2));
    [
        number, one.kind, one.reg, one.val, two.kind, two.reg, two.val, three,
    ]
}

// The entry of a card that holds a place.
fn entry_by(list: &Operations, c: Card, s: &[u8], symbols: &SymbolList<'_>) -> [u32; 8]
    requires { list.now ≡ map cells_of rows }
    ensures { result ≡ entry_by (operation_view c.operation) (symbols_in symbols.now.words.now symbols.now.n) (card_view c s.now) }
{
    let o = c.operation;
    if code_of(o) != codes::OPERATES {
        return [NGI, 0, 0, 0, 0, 0, 0, 0];
    }
    row_entry(list, c, s, symbols)
}

// The entry of a card, if it holds a place.
pub fn put_entry(
    list: &Operations,
    c: Card,
    s: &[u8],
    symbols: &SymbolList<'_>,
    draft: &mut [u32],
    end: usize,
) -> usize
    requires { (list.now ≡ map cells_of rows) × (end + length (entry_in (symbols_in symbols.now.words.now symbols.now.n) (card_view c s.now)) ≤ length draft.old) }
    ensures { Written draft.old end (entry_in (symbols_in symbols.now.words.now symbols.now.n) (card_view c s.now)) draft.new result }
{
    if !holds_place(c) {
        return end;
    }
    let ws = entry_by(list, c, s, symbols);
    put_eight(draft, end, ws)
}

// The words that a card defines.
fn put_words(
    list: &Operations,
    c: Card,
    s: &[u8],
    symbols: &SymbolList<'_>,
    draft: &mut [u32],
    end: usize,
) -> usize
    requires { (list.now ≡ map cells_of rows) × (end + length (words_in (symbols_in symbols.now.words.now symbols.now.n) (card_view c s.now)) ≤ length draft.old) }
    ensures { Written draft.old end (words_in (symbols_in symbols.now.words.now symbols.now.n) (card_view c s.now)) draft.new result }
{
    if !of_words(c) {
        return end;
    }
    let o = c.operation;
    if is_one_word(o) {
        return put(draft, end, value_at(list, c, s, symbols, 0));
    }
    if is_assembly(o, Assembly::DRC) {
        return put_real(s, draft, end);
    }
    if !is_assembly(o, Assembly::DTC) {
        return end;
    }
    put_text(s, draft, end)
}

// The starting words of a card: a fresh one is 0.
pub fn put_starts(
    list: &Operations,
    c: Card,
    s: &[u8],
    symbols: &SymbolList<'_>,
    draft: &mut [u32],
    end: usize,
) -> usize
    requires { (list.now ≡ map cells_of rows) × (length s.now ≤ max_bytes) × (end + length (starts_in (symbols_in symbols.now.words.now symbols.now.n) (card_view c s.now)) ≤ length draft.old) }
    ensures { Written draft.old end (starts_in (symbols_in symbols.now.words.now symbols.now.n) (card_view c s.now)) draft.new result }
{
    let past = put_words(list, c, s, symbols, draft, end);
    if is_fresh(c, s) {
        draft[end] = 0;
    }
    past
}

// The address of a card's fresh word, if it has one.
pub fn put_fresh(c: Card, s: &[u8], draft: &mut [u32], end: usize) -> usize
    requires { (c.spot.word ≤ max_bytes) × (length s.now ≤ max_bytes) × (end + length (fresh_in (card_view c s.now)) ≤ length draft.old) }
    ensures { Written draft.old end (fresh_in (card_view c s.now)) draft.new result }
{
    if !is_fresh(c, s) {
        return end;
    }
    put(draft, end, Machine::CFP_B * c.spot.word)
}

// The exit count of an EXP.
pub fn put_count(
    list: &Operations,
    c: Card,
    s: &[u8],
    symbols: &SymbolList<'_>,
    draft: &mut [u32],
    end: usize,
) -> usize
    requires { (list.now ≡ map cells_of rows) × (end + length (counts_in (symbols_in symbols.now.words.now symbols.now.n) (card_view c s.now)) ≤ length draft.old) }
    ensures { Written draft.old end (counts_in (symbols_in symbols.now.words.now symbols.now.n) (card_view c s.now)) draft.new result }
{
    if !is_external(c) {
        return end;
    }
    put(draft, end, value_at(list, c, s, symbols, 1))
}
