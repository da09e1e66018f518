// The operands of a card: the forms that it writes, and what each gives in its format [M section 7] [S Cards].
#![tactic(auto)]

ghost use Rattle.std.specs.Prelude.{◌≡◌, map, ◌<◌, get_or, length};
ghost use Rattle.ops.specs.Ops.{rows, cells_of};
ghost use Rattle.language.specs.Text.{field_of};
ghost use Rattle.language.specs.Operation.{DRC, is_assembly};
ghost use Rattle.language.specs.Form.{all_formed, form_by, formless, texts_in};
ghost use Rattle.language.specs.Operand.{operand_at, outcomes, value_in};
ghost use Rattle.language.specs.Fault.{all_defined, all_fit, all_given, first_name, form_name, forms_of, operands_formed, term_name};
ghost use Rattle.asm_types.specs.Views.{card_view, cut_form, form_view, operation_view, outcome_view, symbols_in, term_view};
ghost use Rattle.asm_outcomes.specs.Tests.{all_by, test_by};

use asm_forms::texts::{all_formed, form_at, is_formless, text_count};
use asm_operands::operands::outcome;
use asm_operations::formats::{format_at, format_count, has_text};
use asm_sections::codes::is_assembly;
use asm_symbols::list::SymbolList;
use asm_text::fields_of;
use asm_types::{Assembly, Card, Form, Given, Operation, Outcome, Term};
use asm_values::formats::missing;
use ops::format::{NO_KIND, NONE};
use ops::table::Operations;

// How many texts a line's operand field has.
fn field_count(s: &[u8]) -> usize
    ensures { result ≡ length (texts_in (field_of s.now)) }
{
    let f = fields_of(s);
    let from = f.operand_start;
    let to = f.field_end;
    text_count(&s[from..to])
}

// The form of text i of an operation's field.
fn field_form(o: Operation, s: &[u8], i: usize) -> Form
    ensures { form_view result ≡ cut_form (get_or (map (form_by (is_assembly DRC (operation_view o))) (texts_in (field_of s.now))) i formless) }
{
    let f = fields_of(s);
    let from = f.operand_start;
    let to = f.field_end;
    form_at(is_assembly(o, Assembly::DRC), &s[from..to], i)
}

// Every text of an operation's field has a form.
fn field_formed(o: Operation, s: &[u8]) -> bool
    ensures { result ≡ all_formed (map (form_by (is_assembly DRC (operation_view o))) (texts_in (field_of s.now))) }
{
    let f = fields_of(s);
    let from = f.operand_start;
    let to = f.field_end;
    all_formed(is_assembly(o, Assembly::DRC), &s[from..to])
}

// How many operands a card writes.
pub fn form_count(list: &Operations, c: Card, s: &[u8]) -> usize
    requires { list.now ≡ map cells_of rows }
    ensures { result ≡ length (forms_of (card_view c s.now)) }
{
    let o = c.operation;
    if format_count(list, o) == 0 {
        return 0;
    }
    let k = field_count(s);
    if !has_text(list, o) {
        return k;
    }
    if k == 0 {
        return 0;
    }
    1
}

// Each operand that a card writes has a form.
pub fn forms_formed(list: &Operations, c: Card, s: &[u8]) -> bool
    requires { list.now ≡ map cells_of rows }
    ensures { result ≡ operands_formed (card_view c s.now) }
{
    let o = c.operation;
    if format_count(list, o) == 0 {
        return true;
    }
    if !has_text(list, o) {
        return field_formed(o, s);
    }
    if field_count(s) == 0 {
        return true;
    }
    !is_formless(field_form(o, s, 0))
}

// The name that a term, a form and a card's first operand write, 0 where it is none.
fn term_name(t: Term) -> u64
    ensures { result ≡ term_name (term_view t) }
{
    match t {
        Term::Constant(_) => 0,
        Term::Named(k) => k,
    }
}

fn form_name(o: Form) -> u64
    ensures { result ≡ form_name (form_view o) }
{
    match o {
        Form::Formless => 0,
        Form::Omitted => 0,
        Form::Star => 0,
        Form::Plain(t) => term_name(t),
        Form::Register(_) => 0,
        Form::Literal(_) => 0,
        Form::Multiple(_) => 0,
        Form::Indirect(_) => 0,
        Form::Rising(_) => 0,
        Form::Falling(_) => 0,
        Form::ProcedureType(_) => 0,
        Form::Indexed(_) => 0,
        Form::Sum(_) => 0,
        Form::Difference(_) => 0,
        Form::Positive(_) => 0,
        Form::Negative(_) => 0,
        Form::Real => 0,
    }
}

pub fn first_name(list: &Operations, c: Card, s: &[u8]) -> u64
    requires { list.now ≡ map cells_of rows }
    ensures { result ≡ first_name (forms_of (card_view c s.now)) }
{
    if form_count(list, c, s) == 0 {
        return 0;
    }
    let o = c.operation;
    form_name(field_form(o, s, 0))
}

// What operand i of a card gives: nothing past its last format.
pub fn outcome_at(
    list: &Operations,
    c: Card,
    s: &[u8],
    symbols: &SymbolList<'_>,
    i: usize,
) -> Outcome
    requires { list.now ≡ map cells_of rows }
    ensures { outcome_view result ≡ operand_at (outcomes (symbols_in symbols.now.words.now symbols.now.n) (card_view c s.now)) i }
{
    let o = c.operation;
    let format = format_at(list, o, i);
    if format == NONE {
        return Outcome::Gives(Given {
            kind: NO_KIND,
            reg: 0,
            val: 0,
        });
    }
    if form_count(list, c, s) <= i {
        return missing(format);
    }
    let line = c.spot.line;
    outcome(field_form(o, s, i), format, line, s, symbols)
}

// The value that an outcome gives, 0 where it gives none.
pub fn value_in(o: Outcome) -> u32
    ensures { result ≡ value_in (outcome_view o) }
{
    match o {
        Outcome::Gives(g) => g.val,
        Outcome::Awaits => 0,
        Outcome::Misfits => 0,
        Outcome::Unnamed => 0,
    }
}

// The value of operand i.
pub fn value_at(list: &Operations, c: Card, s: &[u8], symbols: &SymbolList<'_>, i: usize) -> u32
    requires { list.now ≡ map cells_of rows }
    ensures { result ≡ value_in (operand_at (outcomes (symbols_in symbols.now.words.now symbols.now.n) (card_view c s.now)) i) }
{
    value_in(outcome_at(list, c, s, symbols, i))
}

// The tests of an outcome: no misfit, no undefined symbol, all given.
#[derive(Clone, Copy)]
enum Test {
    Fits,
    Defined,
    Given,
}

fn passes(test: Test, o: Outcome) -> bool
    ensures { result ≡ test_by test (outcome_view o) }
{
    match test {
        Test::Fits => !matches!(o, Outcome::Misfits),
        Test::Defined => !matches!(o, Outcome::Unnamed),
        Test::Given => matches!(o, Outcome::Gives(_)),
    }
}

// Every operand of a card passes a test.
fn all_pass(list: &Operations, c: Card, s: &[u8], symbols: &SymbolList<'_>, test: Test) -> bool
    requires { list.now ≡ map cells_of rows }
    ensures { result ≡ all_by test (outcomes (symbols_in symbols.now.words.now symbols.now.n) (card_view c s.now)) }
{
    let o = c.operation;
    let count = format_count(list, o);
    for i in 0..count {
        if !passes(test, outcome_at(list, c, s, symbols, i)) {
            return false;
        }
    }
    true
}

// No operand is a misfit [S 4].
pub fn all_fit(list: &Operations, c: Card, s: &[u8], symbols: &SymbolList<'_>) -> bool
    requires { list.now ≡ map cells_of rows }
    ensures { result ≡ all_fit (outcomes (symbols_in symbols.now.words.now symbols.now.n) (card_view c s.now)) }
{
    all_pass(list, c, s, symbols, Test::Fits)
}

// Every symbol of the operands is defined [S 5].
pub fn all_defined(list: &Operations, c: Card, s: &[u8], symbols: &SymbolList<'_>) -> bool
    requires { list.now ≡ map cells_of rows }
    ensures { result ≡ all_defined (outcomes (symbols_in symbols.now.words.now symbols.now.n) (card_view c s.now)) }
{
    all_pass(list, c, s, symbols, Test::Defined)
}

// Every operand gives its fields.
pub fn all_given(list: &Operations, c: Card, s: &[u8], symbols: &SymbolList<'_>) -> bool
    requires { list.now ≡ map cells_of rows }
    ensures { result ≡ all_given (outcomes (symbols_in symbols.now.words.now symbols.now.n) (card_view c s.now)) }
{
    all_pass(list, c, s, symbols, Test::Given)
}
