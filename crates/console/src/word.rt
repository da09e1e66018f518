// A word as it is written: in decimal digits.
ghost use Rattle.std.specs.Prelude.{◌≡◌, true, ◌+◌, ◌*◌, ◌-◌, ◌≤◌};
ghost use Rattle.language.specs.Text.{byte, is_digit};
ghost use Rattle.asm_types.specs.Views.{most_word};
ghost use Rattle.console.specs.Word.{word_of, word_view};

use asm_text::is_digit;

// The largest word.
const MOST_WORD: u64 = 4294967295;

// A word with one more digit.
fn with_digit(n: u64, b: u8) -> u64
    requires { (n ≤ most_word) × (is_digit b ≡ true) }
    ensures { result ≡ 10 * n + (b - byte "0") }
{
    10 * n + (b - b'0') as u64
}

// The word that a text's digits make, digit by digit: `str::parse` would take a plus sign in front of them.
pub fn word_in(text: &[u8]) -> Option<u32>
    ensures { word_view result ≡ word_of text.now }
{
    if text.is_empty() {
        return None;
    }
    let mut n: u64 = 0;
    for b in text {
        if !is_digit(*b) {
            return None;
        }
        let m = with_digit(n, *b);
        if MOST_WORD < m {
            return None;
        }
        n = m;
    }
    Some(n as u32)
}
