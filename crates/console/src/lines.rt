// A text whose lines are taken by their numbers: one byte string instead of an arm for each of many messages.
ghost use Rattle.std.specs.Prelude.{◌≡◌, ◌≤◌, length, drop};
ghost use Rattle.language.specs.Text.{lines};
ghost use Rattle.console.specs.Line.{line_at, line_of};

use asm_reader::{line_behind, line_end};

// Where line k begins; the end of the text where there are fewer.
fn line_from(text: &[u8], k: usize) -> usize
    ensures { (result ≤ length text.now) × (line_at (lines (drop result text.now)) 0 ≡ line_of text.now k) }
{
    let mut at: usize = 0;
    for _i in 0..k {
        at = line_behind(text, at);
    }
    at
}

// Line k of a text, without the byte that ends it; the first is line 0, and an empty one stands for those that are not there.
pub fn line_of(text: &[u8], k: usize) -> &[u8]
    ensures { result.now ≡ line_of text.now k }
{
    let at = line_from(text, k);
    let end = line_end(text, at);
    &text[at..end]
}
