// The form of an operand's text [M section 7].
ghost use Rattle.std.specs.Prelude.{◌≡◌, ◌<◌, ◌≤◌, length};
ghost use Rattle.base.specs.Lists.{◌at◌};
ghost use Rattle.language.specs.Text.{byte, span};
ghost use Rattle.language.specs.Form.{before_sign, combined_form, form_of, index_in, indexed_form, marked_form, signed_form, single_form};
ghost use Rattle.asm_types.specs.Views.{cut_form, form_view, parsed_view};
ghost use Rattle.asm_forms.specs.Terms.{cut_read, term_in, value_view};

use asm_names::{index_register, number_of, register_of, symbol_of};
use asm_text::find_byte;
use asm_types::{Displaced, Form, Term, Terms};

// The number or the symbol that a text is.
pub fn term_of(s: &[u8]) -> Option<Term>
    ensures { value_view result ≡ cut_read (term_in s.now) }
{
    let k = symbol_of(s);
    if let Some(k) = k {
        return Some(Term::Named(k));
    }
    let n = number_of(s)?;
    Some(Term::Constant(n))
}

// Byte i, or 0 past the end.
fn byte_at(s: &[u8], i: usize) -> u8
    ensures { result ≡ s.now at i }
{
    if i < s.len() {
        return s[i];
    }
    0
}

// A register's number as a word.
fn narrow(n: u64) -> u32
    requires { n ≤ 6 }
    ensures { result ≡ n }
{
    n as u32
}

// The index register between parentheses, of a text of n bytes that begins with one.
fn index_in(s: &[u8], n: usize) -> Option<u64>
    requires { 4 ≤ n }
    ensures { parsed_view result ≡ index_in s.now n }
{
    if s.len() != n {
        return None;
    }
    if s[0] != b'(' {
        return None;
    }
    if s[3] != b')' {
        return None;
    }
    index_register(&s[1..3])
}

// One byte: `.`, `*` or a procedure type.
fn single_form(b: u8) -> Form
    ensures { form_view result ≡ cut_form (single_form b) }
{
    match b {
        b'.' => Form::Omitted,
        b'*' => Form::Star,
        b'R' => Form::ProcedureType(b'R' as u32),
        b'N' => Form::ProcedureType(b'N' as u32),
        b'E' => Form::ProcedureType(b'E' as u32),
        _ => Form::Formless,
    }
}

// =symbol.
fn literal_form(s: &[u8]) -> Form
    requires { (0 < length s.now) × (s.now at 0 ≡ byte "=") }
    ensures { form_view result ≡ cut_form (marked_form s.now) }
{
    let k = symbol_of(&s[1..s.len()]);
    let Some(k) = k else {
        return Form::Formless;
    };
    Form::Literal(k)
}

// *symbol.
fn multiple_form(s: &[u8]) -> Form
    requires { (0 < length s.now) × (s.now at 0 ≡ byte "*") }
    ensures { form_view result ≡ cut_form (marked_form s.now) }
{
    let k = symbol_of(&s[1..s.len()]);
    let Some(k) = k else {
        return Form::Formless;
    };
    Form::Multiple(k)
}

// (X) or (X)+.
fn bracket_form(s: &[u8]) -> Form
    requires { s.now at 0 ≡ byte "(" }
    ensures { form_view result ≡ cut_form (marked_form s.now) }
{
    let r = index_in(s, 4);
    if let Some(r) = r {
        return Form::Indirect(narrow(r));
    }
    if byte_at(s, 4) != b'+' {
        return Form::Formless;
    }
    let q = index_in(s, 5);
    let Some(q) = q else {
        return Form::Formless;
    };
    Form::Rising(narrow(q))
}

// +number.
fn positive_form(s: &[u8]) -> Form
    requires { (0 < length s.now) × (s.now at 0 ≡ byte "+") }
    ensures { form_view result ≡ cut_form (signed_form s.now) }
{
    let n = number_of(&s[1..s.len()]);
    let Some(n) = n else {
        return Form::Formless;
    };
    Form::Positive(n)
}

// -number or -(X).
fn negative_form(s: &[u8]) -> Form
    requires { (0 < length s.now) × (s.now at 0 ≡ byte "-") }
    ensures { form_view result ≡ cut_form (signed_form s.now) }
{
    let n = number_of(&s[1..s.len()]);
    if let Some(n) = n {
        return Form::Negative(n);
    }
    let r = index_in(&s[1..s.len()], 4);
    let Some(r) = r else {
        return Form::Formless;
    };
    Form::Falling(narrow(r))
}

// number(X) or symbol(X): the bracket is at i.
fn indexed_form(s: &[u8], i: usize) -> Form
    requires { i ≤ length s.now }
    ensures { form_view result ≡ cut_form (indexed_form s.now i) }
{
    let r = index_in(&s[i..s.len()], 4);
    let Some(r) = r else {
        return Form::Formless;
    };
    let v = term_of(&s[0..i]);
    let Some(v) = v else {
        return Form::Formless;
    };
    let reg = narrow(r);
    Form::Indexed(Displaced { term: v, reg })
}

// value+value or value-value: the sign is at i.
fn combined_form(s: &[u8], i: usize) -> Form
    requires { i < length s.now }
    ensures { form_view result ≡ cut_form (combined_form s.now i) }
{
    let v = term_of(&s[0..i]);
    let Some(v) = v else {
        return Form::Formless;
    };
    let w = term_of(&s[i + 1..s.len()]);
    let Some(w) = w else {
        return Form::Formless;
    };
    if s[i] == b'+' {
        return Form::Sum(Terms {
            first: v,
            second: w,
        });
    }
    Form::Difference(Terms {
        first: v,
        second: w,
    })
}

// The first place of a sign, or the end.
fn find_sign(s: &[u8]) -> usize
    ensures { result ≡ span before_sign s.now }
{
    for i in 0..s.len() {
        if s[i] == b'+' {
            return i;
        }
        if s[i] == b'-' {
            return i;
        }
    }
    s.len()
}

// A text of several bytes that is no number, symbol or register.
fn marked_form(s: &[u8]) -> Form
    ensures { form_view result ≡ cut_form (marked_form s.now) }
{
    if s.len() == 0 {
        return Form::Formless;
    }
    if s[0] == b'=' {
        return literal_form(s);
    }
    if s[0] == b'*' {
        return multiple_form(s);
    }
    if s[0] == b'(' {
        return bracket_form(s);
    }
    if s[0] == b'+' {
        return positive_form(s);
    }
    if s[0] == b'-' {
        return negative_form(s);
    }
    let p = find_byte(s, 0, b'(');
    if p < s.len() {
        return indexed_form(s, p);
    }
    let q = find_sign(s);
    if q < s.len() {
        return combined_form(s, q);
    }
    Form::Formless
}

// The form of an operand's text.
pub fn form_of(s: &[u8]) -> Form
    ensures { form_view result ≡ cut_form (form_of s.now) }
{
    let v = term_of(s);
    if let Some(v) = v {
        return Form::Plain(v);
    }
    let r = register_of(s);
    if let Some(r) = r {
        return Form::Register(narrow(r));
    }
    if s.len() == 1 {
        return single_form(s[0]);
    }
    marked_form(s)
}
