// Fault 4: operand count, kind or range; fault 6: a PRC unlike or without its INP, an RTN without its INR, a list [S 4] [S 6].
ghost use Rattle.std.specs.Prelude.{◌≡◌, map};
ghost use Rattle.ops.specs.Ops.{rows, cells_of};
ghost use Rattle.language.specs.Fault as Fault;
ghost use Rattle.asm_types.specs.Views.{card_view, symbols_in};
ghost use Rattle.asm_cards.specs.Reading.{OfCard};
ghost use Rattle.asm_faults.specs.Groups.{lists_right, operands_right, symbol_deck};

use crate::lines::{comma_there, text_there};
use crate::numbers::{BAD_LIST, MISFIT};
use asm_operations::codes::class_of;
use asm_operations::formats::format_count;
use asm_outcomes::{all_fit, form_count, value_at};
use asm_symbols::list::SymbolList;
use asm_types::{Card, Sort};
use ops::class;
use ops::table::Operations;

// A card writes no more operands than it has formats.
fn no_surplus(list: &Operations, c: Card, s: &[u8]) -> bool
    requires { list.now ≡ map cells_of rows }
    ensures { result ≡ Fault.no_surplus (card_view c s.now) }
{
    let o = c.operation;
    form_count(list, c, s) <= format_count(list, o)
}

// The operands are as many as there may be, and fit; `shape` is the fault of the card's place.
pub fn operands_right(
    list: &Operations,
    c: Card,
    s: &[u8],
    symbols: &SymbolList<'_>,
    shape: u32,
) -> bool
    requires { list.now ≡ map cells_of rows }
    ensures { result ≡ operands_right (symbol_deck (symbols_in symbols.now.words.now symbols.now.n)) (card_view c s.now) shape }
{
    if !no_surplus(list, c, s) {
        return false;
    }
    if !all_fit(list, c, s, symbols) {
        return false;
    }
    if !comma_there(list, c, s) {
        return false;
    }
    if !text_there(c, s) {
        return false;
    }
    shape != MISFIT
}

// A PRC has the type and the count that its INP declares.
fn procedure_declared(list: &Operations, c: Card, s: &[u8], symbols: &SymbolList<'_>) -> bool
    requires { list.now ≡ map cells_of rows }
    ensures { result ≡ Fault.procedure_declared (symbol_deck (symbols_in symbols.now.words.now symbols.now.n)) (card_view c s.now) }
{
    let o = c.operation;
    if class_of(list, o) != class::PRC {
        return true;
    }
    let letter = value_at(list, c, s, symbols, 0);
    let count = value_at(list, c, s, symbols, 1);
    symbols.declared_so(c.label, letter as u64, count as u64)
}

// An RTN has its INR.
fn routine_declared(list: &Operations, c: Card, symbols: &SymbolList<'_>) -> bool
    requires { list.now ≡ map cells_of rows }
    ensures { OfCard (Fault.routine_declared (symbol_deck (symbols_in symbols.now.words.now symbols.now.n))) c result }
{
    let o = c.operation;
    if class_of(list, o) != class::RTN {
        return true;
    }
    symbols.has_sort(c.label, Sort::ROUTINE)
}

// A PRC and an RTN are declared, and the lists are right; `shape` is the fault of the card's place.
pub fn lists_right(
    list: &Operations,
    c: Card,
    s: &[u8],
    symbols: &SymbolList<'_>,
    shape: u32,
) -> bool
    requires { list.now ≡ map cells_of rows }
    ensures { result ≡ lists_right (symbol_deck (symbols_in symbols.now.words.now symbols.now.n)) (card_view c s.now) shape }
{
    if !procedure_declared(list, c, s, symbols) {
        return false;
    }
    if !routine_declared(list, c, symbols) {
        return false;
    }
    shape != BAD_LIST
}
