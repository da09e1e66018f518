// The operands of an entry [S The table].
ghost use Rattle.std.specs.Prelude.{◌≡◌, map, ◌<◌};
ghost use Rattle.base.specs.Test.{if};
ghost use Rattle.ops.specs.Class.{beside_of, marks, PRC};
ghost use Rattle.ops.specs.Ops.{rows, cells_of};
ghost use Rattle.language.specs.Text.{unparsed};
ghost use Rattle.language.specs.Operation.{has_class};
ghost use Rattle.language.specs.Symbol.{declared_count, fields_named};
ghost use Rattle.language.specs.Operand.{operand_at, outcomes};
ghost use Rattle.language.specs.Image.{first_operand, third_of};
ghost use Rattle.asm_types.specs.Views.{card_view, operation_view, outcome_view, parsed_view, symbols_in};
ghost use Rattle.asm_symbols.specs.Symbolic.{FitsCount};
ghost use Rattle.asm_operations.specs.Codes.{row_of};
ghost use Rattle.asm_draft.specs.Operands.{FieldsOf, PlaceFits, type_count};

use asm_operations::codes::class_of;
use asm_outcomes::outcome_at;
use asm_symbols::list::SymbolList;
use asm_types::{Card, Given, Operation, Outcome};
use asm_values::values::narrow;
use ops::class;
use ops::format::{NO_KIND, PLACE_KIND, VALUE_KIND};
use ops::table::Operations;

// No operand.
fn none() -> Given
    ensures { (result.kind ≡ 0) × (result.reg ≡ 0) × (result.val ≡ 0) }
{
    Given {
        kind: NO_KIND,
        reg: 0,
        val: 0,
    }
}

// What an operand gives, all 0 where it gives nothing.
pub fn given_of(o: Outcome) -> Given
    ensures { FieldsOf (outcome_view o) result }
{
    match o {
        Outcome::Gives(g) => g,
        Outcome::Awaits => none(),
        Outcome::Misfits => none(),
        Outcome::Unnamed => none(),
    }
}

// The third operand: 1 + its place.
pub fn third_of(o: Outcome) -> u32
    requires { PlaceFits (outcome_view o) }
    ensures { result ≡ third_of (outcome_view o) }
{
    let g = given_of(o);
    if g.kind != PLACE_KIND {
        return 0;
    }
    g.val + 1
}

// How many of a card's operands are a procedure type.
pub fn type_count(list: &Operations, o: Operation) -> usize
    requires { list.now ≡ map cells_of rows }
    ensures { (result ≡ type_count (beside_of (row_of (operation_view o)).class)) × (result < 2) }
{
    if class_of(list, o) == class::PRC {
        return 1;
    }
    0
}

// The count that an INP declares for a PRC.
fn declared(list: &Operations, c: Card, symbols: &SymbolList<'_>) -> Option<u64>
    requires { list.now ≡ map cells_of rows }
    ensures { (parsed_view result ≡ if (has_class (marks PRC) (operation_view c.operation)) (declared_count (fields_named c.label (symbols_in symbols.now.words.now symbols.now.n))) unparsed) × FitsCount result }
{
    let o = c.operation;
    if class_of(list, o) != class::PRC {
        return None;
    }
    symbols.declared_count(c.label)
}

// Operand i as the first of an entry: that of a PRC is the declared count.
pub fn first_operand(
    list: &Operations,
    c: Card,
    s: &[u8],
    symbols: &SymbolList<'_>,
    i: usize,
) -> Given
    requires { (list.now ≡ map cells_of rows) × (i < 2) }
    ensures { FieldsOf (first_operand (symbols_in symbols.now.words.now symbols.now.n) (card_view c s.now) (operand_at (outcomes (symbols_in symbols.now.words.now symbols.now.n) (card_view c s.now)) i)) result }
{
    let count = declared(list, c, symbols);
    let Some(v) = count else {
        return given_of(outcome_at(list, c, s, symbols, i));
    };
    Given {
        kind: VALUE_KIND,
        reg: 0,
        val: narrow(v),
    }
}
