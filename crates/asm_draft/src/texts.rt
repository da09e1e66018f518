// The words of a DTC's text: four characters a word, the last zero-filled; and those of a DRC's number [S Cards] [M 11.3].
ghost use Rattle.std.specs.Prelude.{◌≡◌, ◌+◌, ◌≤◌, length};
ghost use Rattle.words.specs.Words.{text_words};
ghost use Rattle.language.specs.Text.{field_of};
ghost use Rattle.language.specs.Decimal.{decimal_of, real_words};
ghost use Rattle.language.specs.Form.{quoted};
ghost use Rattle.asm_draft.specs.Written.{Written};

use crate::store::put;
use asm_forms::texts::quoted;
use asm_reals::words_of;
use asm_text::fields_of;
use asm_text_words::text_word;

// The words of some characters.
fn put_chars(t: &[u8], draft: &mut [u32], end: usize) -> usize
    requires { end + length (text_words t.now) ≤ length draft.old }
    ensures { Written draft.old end (text_words t.now) draft.new result }
{
    let mut w = end;
    let mut i: usize = 0;
    while i < t.len() {
        w = put(draft, w, text_word(t, i));
        i += 4;
    }
    w
}

// The words of a line's text.
pub fn put_text(s: &[u8], draft: &mut [u32], end: usize) -> usize
    requires { end + length (text_words (quoted s.now)) ≤ length draft.old }
    ensures { Written draft.old end (text_words (quoted s.now)) draft.new result }
{
    let q = quoted(s);
    let from = q.from;
    let to = q.to;
    put_chars(&s[from..to], draft, end)
}

// The two words of a line's real number.
pub fn put_real(s: &[u8], draft: &mut [u32], end: usize) -> usize
    requires { end + 2 ≤ length draft.old }
    ensures { Written draft.old end (real_words (decimal_of (field_of s.now))) draft.new result }
{
    let f = fields_of(s);
    let from = f.operand_start;
    let to = f.field_end;
    let ws = words_of(&s[from..to]);
    let second = put(draft, end, ws[0]);
    put(draft, second, ws[1])
}
