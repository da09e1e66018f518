// Fault 1: a byte, a line's length or a field is malformed; and whether ERR, ERB and DTC have what their texts need [S 1] [S 4].
ghost use Rattle.std.specs.Prelude.{◌≡◌, map, eqb, length};
ghost use Rattle.ops.specs.Ops.{rows, cells_of};
ghost use Rattle.language.specs.Text.{tail_of};
ghost use Rattle.language.specs.Form.{quoted};
ghost use Rattle.language.specs.Fault as Fault;
ghost use Rattle.asm_types.specs.Views.{card_view, operation_view};
ghost use Rattle.asm_faults.specs.Groups.{OfLine, line_formed};

use asm_forms::texts::{has_comma, has_remark, quoted};
use asm_names::label_formed;
use asm_operations::formats::has_text;
use asm_outcomes::forms_formed;
use asm_sections::codes::is_assembly;
use asm_text::{all_printed, fields_of, is_empty};
use asm_types::{Assembly, Card, Operation};
use ops::table::Operations;

// The columns of a line.
const MAX_COLUMNS: usize = 72;

// The label field is well formed, or there is none.
fn label_readable(s: &[u8]) -> bool
    ensures { OfLine Fault.label_readable s.now result }
{
    if is_empty(s) {
        return true;
    }
    label_formed(s)
}

// The operation field is well formed.
fn is_readable(o: Operation) -> bool
    ensures { result ≡ Fault.is_readable (operation_view o) }
{
    match o {
        Operation::Empty => true,
        Operation::Malformed => false,
        Operation::Unknown => true,
        Operation::Assembles(_) => true,
        Operation::Operates(_) => true,
    }
}

// A text stands after the comma of ERR and ERB.
fn remark_there(list: &Operations, c: Card, s: &[u8]) -> bool
    requires { list.now ≡ map cells_of rows }
    ensures { result ≡ Fault.remark_there (card_view c s.now) }
{
    let o = c.operation;
    if !has_text(list, o) {
        return true;
    }
    if !has_comma(s) {
        return true;
    }
    has_remark(s)
}

// Nothing stands after the operation.
fn is_tail_empty(s: &[u8]) -> bool
    ensures { result ≡ eqb (length (tail_of s.now)) 0 }
{
    let f = fields_of(s);
    f.operand_start == s.len()
}

// The text of a DTC line is malformed or missing.
fn is_text_empty(s: &[u8]) -> bool
    ensures { result ≡ eqb (length (quoted s.now)) 0 }
{
    let q = quoted(s);
    q.from == q.to
}

// A DTC text is delimited and not empty.
fn text_delimited(c: Card, s: &[u8]) -> bool
    ensures { result ≡ Fault.text_delimited (card_view c s.now) }
{
    let o = c.operation;
    if !is_assembly(o, Assembly::DTC) {
        return true;
    }
    if is_tail_empty(s) {
        return true;
    }
    !is_text_empty(s)
}

// DTC has its operand.
pub fn text_there(c: Card, s: &[u8]) -> bool
    ensures { result ≡ Fault.text_there (card_view c s.now) }
{
    let o = c.operation;
    if !is_assembly(o, Assembly::DTC) {
        return true;
    }
    !is_tail_empty(s)
}

// ERR and ERB have their comma.
pub fn comma_there(list: &Operations, c: Card, s: &[u8]) -> bool
    requires { list.now ≡ map cells_of rows }
    ensures { result ≡ Fault.comma_there (card_view c s.now) }
{
    let o = c.operation;
    if !has_text(list, o) {
        return true;
    }
    has_comma(s)
}

// The bytes, the length and the fields of a line are well formed.
pub fn line_formed(list: &Operations, c: Card, s: &[u8]) -> bool
    requires { list.now ≡ map cells_of rows }
    ensures { result ≡ line_formed (card_view c s.now) }
{
    if !all_printed(s) {
        return false;
    }
    if MAX_COLUMNS < s.len() {
        return false;
    }
    if !label_readable(s) {
        return false;
    }
    let o = c.operation;
    if !is_readable(o) {
        return false;
    }
    if !forms_formed(list, c, s) {
        return false;
    }
    if !remark_there(list, c, s) {
        return false;
    }
    text_delimited(c, s)
}
