// Messages by their forms, so that a message is one call: the bytes of the form, but the text where it has `%`, the other text where it has `$`, and the
// next of the numbers where it has `#`.
#![tactic(auto)]

use console::page::Page;
use std::io::Write;

// A number in decimal digits behind what was written.
fn put_number<W: Write>(page: &mut W, n: u64) {
    let _ = write!(page, "{n}");
}

// Bytes behind what was written.
fn put_bytes<W: Write>(page: &mut W, text: &[u8]) {
    let _ = page.write_all(text);
}

// The message behind what was written, on a page or on bytes of any length (a `Cursor` over them), as much of it as fits. Where the form has more `#`
// than there are numbers, it tells 0.
pub fn put_form<W: Write>(page: &mut W, form: &[u8], text: &[u8], other: &[u8], numbers: &[u64]) {
    let mut left = numbers.iter();
    for b in form {
        match *b {
            b'%' => put_bytes(page, text),
            b'$' => put_bytes(page, other),
            b'#' => put_number(page, left.next().copied().unwrap_or(0)),
            _ => put_bytes(page, &[*b]),
        }
    }
}

// The message on standard output.
pub fn say<P: Print>(rt: &P, form: &[u8], text: &[u8], other: &[u8], numbers: &[u64]) {
    let mut page = Page::new();
    put_form(&mut page, form, text, other, numbers);
    page.show(rt);
}

// The message on standard error.
pub fn warn(form: &[u8], text: &[u8], other: &[u8], numbers: &[u64]) {
    let mut page = Page::new();
    put_form(&mut page, form, text, other, numbers);
    page.complain();
}
