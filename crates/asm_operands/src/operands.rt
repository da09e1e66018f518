// What an operand's form gives in its format [M section 7] [M 12.1].
ghost use Rattle.std.specs.Prelude.{◌≡◌, Bool, true, false, ◌≤◌, ◌/◌, ◌^◌, eqb};
ghost use Rattle.base.specs.Lists.{◌at◌};
ghost use Rattle.language.specs.Operand.{gives, indexed_by, operand_of, plain_by, resolved, signed_within, takes, term_by, then_both, then_value, unnamed};
ghost use Rattle.ops.specs.Format.{value_kind};
ghost use Rattle.asm_types.specs.Views.{form_view, outcome_view, symbols_in, term_view};
ghost use Rattle.asm_values.specs.Read.{format_of};
ghost use Rattle.asm_operands.specs.LineCard.{combined_by, line_card, star_of};

use asm_symbols::list::SymbolList;
use asm_types::{Displaced, Form, Given, Outcome, Term, Terms};
use asm_values::formats::*;
use asm_values::values::{
    displaced_by, displaced_words, equal_by, literal_by, multiple_by, narrow, symbol_by,
    value_within,
};
use ops::constants::Machine;
use ops::format::*;
use supplied::supplied_value;

// A kind and a register.
fn gives_register(kind: u32, reg: u32) -> Outcome
    ensures { outcome_view result ≡ gives kind reg 0 }
{
    Outcome::Gives(Given { kind, reg, val: 0 })
}

// A value.
fn value_of(v: u32) -> Outcome
    ensures { outcome_view result ≡ gives value_kind 0 v }
{
    Outcome::Gives(Given {
        kind: VALUE_KIND,
        reg: 0,
        val: v,
    })
}

// Two values of an EQU: their difference, not below 0, or their sum.
fn combined(minus: bool, v: u32, w: u32) -> Outcome
    ensures { outcome_view result ≡ combined_by minus v w }
{
    if !minus {
        return value_within(Machine::CFP_M, v as u64 + w as u64);
    }
    if v < w {
        return Outcome::Misfits;
    }
    value_of(v - w)
}

// A value and a second outcome; a first that is unnamed and a second; both values, or the smaller fault of the two.
fn with_value(minus: bool, v: u32, o: Outcome) -> Outcome
    ensures { outcome_view result ≡ then_value (outcome_view o) (combined_by minus v) }
{
    match o {
        Outcome::Gives(g) => combined(minus, v, g.val),
        Outcome::Awaits => Outcome::Awaits,
        Outcome::Misfits => Outcome::Misfits,
        Outcome::Unnamed => Outcome::Unnamed,
    }
}

fn with_unnamed(o: Outcome) -> Outcome
    ensures { outcome_view result ≡ then_value (outcome_view o) (λ w. unnamed) }
{
    match o {
        Outcome::Gives(_) => Outcome::Unnamed,
        Outcome::Awaits => Outcome::Awaits,
        Outcome::Misfits => Outcome::Misfits,
        Outcome::Unnamed => Outcome::Unnamed,
    }
}

fn both(minus: bool, first: Outcome, second: Outcome) -> Outcome
    ensures { outcome_view result ≡ then_both (outcome_view first) (outcome_view second) (combined_by minus) }
{
    match first {
        Outcome::Gives(g) => with_value(minus, g.val, second),
        Outcome::Awaits => Outcome::Awaits,
        Outcome::Misfits => Outcome::Misfits,
        Outcome::Unnamed => with_unnamed(second),
    }
}

// A term of an EQU's sum or difference.
fn term_by(symbols: &SymbolList<'_>, line: u32, t: Term) -> Outcome
    ensures { outcome_view result ≡ term_by (symbols_in symbols.now.words.now symbols.now.n) line (term_view t) }
{
    match t {
        Term::Constant(v) => value_within(Machine::CFP_M, v),
        Term::Named(k) => equal_by(line, symbols.meaning(k)),
    }
}

// A sum or a difference in an EQU.
fn terms_by(symbols: &SymbolList<'_>, line: u32, minus: bool, p: Terms) -> Outcome
    ensures { outcome_view result ≡ then_both (term_by (symbols_in symbols.now.words.now symbols.now.n) line (term_view p.first)) (term_by (symbols_in symbols.now.words.now symbols.now.n) line (term_view p.second)) (combined_by minus) }
{
    let first = p.first;
    let second = p.second;
    both(
        minus,
        term_by(symbols, line, first),
        term_by(symbols, line, second),
    )
}

// Byte i of a line, or 0 past its end.
fn byte_at(s: &[u8], i: usize) -> u8
    ensures { result ≡ s.now at i }
{
    if i < s.len() {
        return s[i];
    }
    0
}

// `*` in an EQU: the value that the machine supplies for the card's own label.
fn star_by(s: &[u8]) -> Outcome
    ensures { outcome_view result ≡ star_of s.now }
{
    let found = supplied_value(
        byte_at(s, 0),
        byte_at(s, 1),
        byte_at(s, 2),
        byte_at(s, 3),
        byte_at(s, 4),
    );
    let Some(v) = found else {
        return Outcome::Unnamed;
    };
    value_of(v)
}

// A negative number of DIC, as 32 bits [M 11.2].
fn negative(v: u64) -> Outcome
    ensures { outcome_view result ≡ signed_within true v }
{
    if (Machine::CFP_M as u64) + 1 < v {
        return Outcome::Misfits;
    }
    value_of(words::sub(0, narrow(v)))
}

// A number or a symbol that stands alone.
fn plain_by(symbols: &SymbolList<'_>, format: u32, line: u32, s: &[u8], t: Term) -> Outcome
    ensures { outcome_view result ≡ plain_by (symbols_in symbols.now.words.now symbols.now.n) (line_card line s.now) (format_of format) (term_view t) }
{
    match t {
        Term::Constant(v) => value_within(largest(format), v),
        Term::Named(k) => symbol_by(format, line, symbols.meaning(k)),
    }
}

// A number or a symbol before an index register.
fn indexed_by(symbols: &SymbolList<'_>, d: Displaced) -> Outcome
    ensures { outcome_view result ≡ indexed_by (symbols_in symbols.now.words.now symbols.now.n) (term_view d.term) d.reg }
{
    let reg = d.reg;
    let t = d.term;
    match t {
        Term::Constant(v) => displaced_words(reg, v),
        Term::Named(k) => displaced_by(reg, symbols.meaning(k)),
    }
}

// The format has the tag.
fn is_tag(format: u32, tag: u32) -> bool
    ensures { result ≡ eqb (format / 2 ^ 24) tag }
{
    format / TAG == tag
}

// The format takes the form.
fn takes(format: u32, form: Form) -> bool
    ensures { result ≡ takes (format_of format) (form_view form) }
{
    match form {
        Form::Formless => false,
        Form::Omitted => takes_kind(format, NO_KIND),
        Form::Star => is_tag(format, EQOP_TAG),
        Form::Plain(t) => takes_term(format, t),
        Form::Register(r) => takes_kind(format, register_kind(r)),
        Form::Literal(_) => is_tag(format, OPV_TAG),
        Form::Multiple(_) => is_tag(format, OPV_TAG),
        Form::Indirect(r) => takes_x(format, INDIRECT_KIND, r),
        Form::Rising(r) => takes_x(format, RISING_KIND, r),
        Form::Falling(r) => takes_x(format, FALLING_KIND, r),
        Form::ProcedureType(_) => is_tag(format, PTYP_TAG),
        Form::Indexed(_) => takes_kind(format, INDEXED_KIND),
        Form::Sum(_) => is_tag(format, EQOP_TAG),
        Form::Difference(_) => is_tag(format, EQOP_TAG),
        Form::Positive(_) => is_tag(format, INTEGER_TAG),
        Form::Negative(_) => is_tag(format, INTEGER_TAG),
        Form::Real => is_tag(format, REAL_TAG),
    }
}

// What a form gives in a format that takes it.
fn resolved(form: Form, format: u32, line: u32, s: &[u8], symbols: &SymbolList<'_>) -> Outcome
    ensures { outcome_view result ≡ resolved (symbols_in symbols.now.words.now symbols.now.n) (line_card line s.now) (format_of format) (form_view form) }
{
    match form {
        Form::Formless => Outcome::Misfits,
        Form::Omitted => gives_register(NO_KIND, 0),
        Form::Star => star_by(s),
        Form::Plain(t) => plain_by(symbols, format, line, s, t),
        Form::Register(r) => gives_register(register_kind(r), r),
        Form::Literal(k) => literal_by(symbols.meaning(k)),
        Form::Multiple(k) => multiple_by(symbols.meaning(k)),
        Form::Indirect(r) => gives_register(INDIRECT_KIND, r),
        Form::Rising(r) => gives_register(RISING_KIND, r),
        Form::Falling(r) => gives_register(FALLING_KIND, r),
        Form::ProcedureType(b) => value_of(b),
        Form::Indexed(d) => indexed_by(symbols, d),
        Form::Sum(p) => terms_by(symbols, line, false, p),
        Form::Difference(p) => terms_by(symbols, line, true, p),
        Form::Positive(v) => value_within(Machine::CFP_M, v),
        Form::Negative(v) => negative(v),
        Form::Real => value_of(0),
    }
}

// What an operand's form gives in its format, on a line with its bytes, given the symbols.
pub fn outcome(form: Form, format: u32, line: u32, s: &[u8], symbols: &SymbolList<'_>) -> Outcome
    ensures { outcome_view result ≡ operand_of (symbols_in symbols.now.words.now symbols.now.n) (line_card line s.now) (format_of format) (form_view form) }
{
    if !takes(format, form) {
        return Outcome::Misfits;
    }
    resolved(form, format, line, s, symbols)
}
