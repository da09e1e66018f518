// The symbol of a card's label field, stored behind the symbols above [S Cards].
ghost use Rattle.std.specs.Prelude.{◌≡◌, map, ◌+◌, ◌*◌, ◌≤◌, length};
ghost use Rattle.base.specs.Test.{if};
ghost use Rattle.ops.specs.Ops.{rows, cells_of};
ghost use Rattle.language.specs.Text.{max_bytes};
ghost use Rattle.language.specs.Symbol.{internal, is_sort};
ghost use Rattle.language.specs.Operand.{operand_at, outcomes, value_in};
ghost use Rattle.language.specs.Image.{symbol_value};
ghost use Rattle.asm_types.specs.Views.{card_view, most_word, reader_view, sort_at, symbols_in};
ghost use Rattle.asm_cards.specs.Reading.{Counted};
ghost use Rattle.asm_symbols.specs.Symbolic.{Symbolic, first_placed, last_sort, most_places};
ghost use Rattle.asm_collect.specs.Stored.{SortOf, Stored};

use asm_operations::sorts::sort_of;
use asm_outcomes::value_at;
use asm_symbols::fields::add;
use asm_symbols::list::SymbolList;
use asm_types::{Card, Sort};
use ops::constants::Machine;
use ops::table::Operations;

// A word among the numbers of a symbol.
fn wide(w: u32) -> u64
    ensures { (result ≡ w) × (result ≤ most_word) }
{
    w as u64
}

// The sort of a card's label.
fn sort_in(list: &Operations, c: Card) -> u64
    requires { list.now ≡ map cells_of rows }
    ensures { SortOf c result }
{
    let o = c.operation;
    sort_of(list, c.spot.opened, o)
}

// The value of a label of a sort, given the symbols above.
fn value_of(list: &Operations, c: Card, s: &[u8], symbols: &SymbolList<'_>, sort: u64) -> u32
    requires { (list.now ≡ map cells_of rows) × Counted max_bytes (reader_view c.spot) }
    ensures { (result ≡ symbol_value (sort_at sort) (symbols_in symbols.now.words.now symbols.now.n) (card_view c s.now)) × (first_placed ≤ sort → result ≤ most_places) }
{
    if Sort::ENTRY <= sort {
        return c.spot.place;
    }
    if sort == Sort::WORD {
        return Machine::CFP_B * c.spot.word;
    }
    if sort == Sort::EQUAL {
        return value_at(list, c, s, symbols, 0);
    }
    if sort == Sort::INTERNAL {
        return value_at(list, c, s, symbols, 1);
    }
    if sort == Sort::EXTERNAL {
        return c.spot.external;
    }
    0
}

// The letter of an INP.
fn letter_of(list: &Operations, c: Card, s: &[u8], symbols: &SymbolList<'_>, sort: u64) -> u32
    requires { (list.now ≡ map cells_of rows) × (sort ≤ last_sort) }
    ensures { result ≡ if (is_sort internal (sort_at sort)) (value_in (operand_at (outcomes (symbols_in symbols.now.words.now symbols.now.n) (card_view c s.now)) 0)) 0 }
{
    if sort != Sort::INTERNAL {
        return 0;
    }
    value_at(list, c, s, symbols, 0)
}

// The card's symbol, if it has a label, becomes symbol n; how many there are then.
pub fn store_symbol(list: &Operations, c: Card, s: &[u8], syms: &mut [u64], n: usize) -> usize
    requires { (list.now ≡ map cells_of rows) × Symbolic syms.old n × (5 * n + 5 ≤ length syms.old) × Counted max_bytes (reader_view c.spot) }
    ensures { Stored syms.old n (card_view c s.now) syms.new result }
{
    let name = c.label;
    if name == 0 {
        return n;
    }
    let sort = sort_in(list, c);
    let above = SymbolList { words: syms, n };
    let value = wide(value_of(list, c, s, &above, sort));
    let letter = wide(letter_of(list, c, s, &above, sort));
    let line = wide(c.spot.line);
    add(syms, n, name, line, sort, value, letter);
    n + 1
}
