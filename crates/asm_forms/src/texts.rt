// The texts of a line's operand field, and the texts of ERR, ERB and DTC [S Cards] [M 1.14] [M 1.15] [M 11.4].
ghost use Rattle.std.specs.Prelude.{◌≡◌, map, ◌≤◌, eqb, ltb, get_or, length};
ghost use Rattle.base.specs.Test.{if};
ghost use Rattle.language.specs.Text.{byte, in_part, span};
ghost use Rattle.language.specs.Form.{all_formed, form_by, formless, has_comma, has_remark, is_formless, texts_in};
ghost use Rattle.asm_types.specs.Views.{cut_form, form_view};
ghost use Rattle.asm_forms.specs.Quotes.{Quotes};

use crate::operand::form_of;
use asm_reals::decimal_of;
use asm_text::{BLANK, COMMA, fields_of, find_byte};
use asm_types::Form;

// What a byte adds to the number of texts.
fn ends_text(b: u8) -> usize
    ensures { (result ≡ if (eqb b (byte ",")) 1 0) × (result ≤ 1) }
{
    if b == COMMA {
        return 1;
    }
    0
}

// How many texts an operand field has.
pub fn text_count(f: &[u8]) -> usize
    ensures { result ≡ length (texts_in f.now) }
{
    if f.len() == 0 {
        return 0;
    }
    let mut n: usize = 1;
    for i in 0..f.len() {
        n += ends_text(f[i]);
    }
    n
}

// The form of an operand's text, on a DRC card (`real`) or on another.
fn form_by(real: bool, s: &[u8]) -> Form
    ensures { form_view result ≡ cut_form (form_by real s.now) }
{
    if !real {
        return form_of(s);
    }
    match decimal_of(s) {
        Some(_) => Form::Real,
        None => Form::Formless,
    }
}

// The form of text i of an operand field, formless where there is none.
pub fn form_at(real: bool, f: &[u8], i: usize) -> Form
    ensures { form_view result ≡ cut_form (get_or (map (form_by real) (texts_in f.now)) i formless) }
{
    if f.len() == 0 {
        return Form::Formless;
    }
    let mut from: usize = 0;
    for _k in 0..i {
        let e = find_byte(f, from, COMMA);
        if e == f.len() {
            return Form::Formless;
        }
        from = e + 1;
    }
    let e = find_byte(f, from, COMMA);
    form_by(real, &f[from..e])
}

// A form is none of the forms.
pub fn is_formless(o: Form) -> bool
    ensures { result ≡ is_formless (form_view o) }
{
    match o {
        Form::Formless => true,
        Form::Omitted => false,
        Form::Star => false,
        Form::Plain(_) => false,
        Form::Register(_) => false,
        Form::Literal(_) => false,
        Form::Multiple(_) => false,
        Form::Indirect(_) => false,
        Form::Rising(_) => false,
        Form::Falling(_) => false,
        Form::ProcedureType(_) => false,
        Form::Indexed(_) => false,
        Form::Sum(_) => false,
        Form::Difference(_) => false,
        Form::Positive(_) => false,
        Form::Negative(_) => false,
        Form::Real => false,
    }
}

// Every text of an operand field has a form.
pub fn all_formed(real: bool, f: &[u8]) -> bool
    ensures { result ≡ all_formed (map (form_by real) (texts_in f.now)) }
{
    if f.len() == 0 {
        return true;
    }
    let mut from: usize = 0;
    loop {
        let e = find_byte(f, from, COMMA);
        if is_formless(form_by(real, &f[from..e])) {
            return false;
        }
        if e == f.len() {
            return true;
        }
        from = e + 1;
    }
}

// A comma stands in an operand field.
fn comma_in(f: &[u8]) -> bool
    ensures { result ≡ ltb (span in_part f.now) (length f.now) }
{
    find_byte(f, 0, COMMA) < f.len()
}

// The comma of an ERR or ERB line is there.
pub fn has_comma(s: &[u8]) -> bool
    ensures { result ≡ has_comma s.now }
{
    let f = fields_of(s);
    let from = f.operand_start;
    let to = f.field_end;
    comma_in(&s[from..to])
}

// Something stands after the comma.
pub fn has_remark(s: &[u8]) -> bool
    ensures { result ≡ has_remark s.now }
{
    let f = fields_of(s);
    let from = f.operand_start;
    let to = f.field_end;
    let comma = find_byte(&s[from..to], 0, COMMA);
    comma + 1 < s.len() - from
}

// A part of a line.
#[derive(Clone, Copy)]
pub struct Span {
    pub from: usize,
    pub to: usize,
}

// The text of a DTC line without its delimiters, empty where it is malformed or missing.
pub fn quoted(s: &[u8]) -> Span
    ensures { Quotes s.now result }
{
    let f = fields_of(s);
    let start = f.operand_start;
    if start == s.len() {
        return Span { from: 0, to: 0 };
    }
    let from = start + 1;
    let to = find_byte(s, from, s[start]);
    if to == s.len() {
        return Span { from: 0, to: 0 };
    }
    if to + 1 == s.len() {
        return Span { from, to };
    }
    if s[to + 1] == BLANK {
        return Span { from, to };
    }
    Span { from: 0, to: 0 }
}
