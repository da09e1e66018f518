// A word of a DTC's text: four characters, 0 past the end [S Cards].
#![tactic(auto)]

ghost use Rattle.std.specs.Prelude.{◌≡◌, ◌+◌, ◌<◌, length};
ghost use Rattle.base.specs.Lists.{◌at◌};
ghost use Rattle.words.specs.Words.{word_of};

use words::word_of;

// Character i, or 0 past the end.
fn char_at(t: &[u8], i: usize) -> u8
    ensures { result ≡ t.now at i }
{
    if i < t.len() {
        return t[i];
    }
    0
}

// The word of the characters from i on.
pub fn text_word(t: &[u8], i: usize) -> u32
    requires { i < length t.now }
    ensures { result ≡ word_of (t.now at i) (t.now at (i + 1)) (t.now at (i + 2)) (t.now at (i + 3)) }
{
    word_of(
        t[i],
        char_at(t, i + 1),
        char_at(t, i + 2),
        char_at(t, i + 3),
    )
}
