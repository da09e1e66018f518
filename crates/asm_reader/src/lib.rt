// A reader of cards: it holds the text and its place, and gives the lines one after the other [S Cards]. A line ends at byte 10, and the last may lack it.
// The work is done by functions on a slice and a number; those over the reader take it apart and call them. `line_at`, `line_behind` and `line_end` have plain
// parameters and go through the reader, so whoever calls them has a reader's answer without one.
#![tactic(auto)]

ghost use Rattle.std.specs.Prelude.{◌≡◌, ◌≤◌, length};
ghost use Rattle.asm_reader.specs.Line.{line_behind, line_end, step_at};

use asm_text::{NEWLINE, find_byte};

// The text, and the place where the next line begins.
#[derive(Clone, Copy)]
pub struct CardReader<'a> {
    pub text: &'a [u8],
    pub at: usize,
}

// A line's bounds: from `start` up to `end`.
#[derive(Clone, Copy)]
pub struct Line {
    pub start: usize,
    pub end: usize,
}

// The line that begins at a place of a text; none at its end.
fn step_at(text: &[u8], at: usize) -> Option<Line>
    ensures { result ≡ step_at text.now at }
{
    if at < text.len() {
        let end = find_byte(text, at, NEWLINE);
        Some(Line { start: at, end })
    } else {
        None
    }
}

// Where the line behind it begins.
fn behind_at(text: &[u8], at: usize) -> usize
    ensures { result ≡ line_behind text.now at }
{
    if text.len() <= at {
        return at;
    }
    let end = find_byte(text, at, NEWLINE);
    if end < text.len() { end + 1 } else { end }
}

impl<'a> CardReader<'a> {
    // A reader of a text, at a place.
    pub fn new(text: &'a [u8], at: usize) -> CardReader<'a>
        ensures { (result.text ≡ text.entry) × (result.at ≡ at) }
    {
        CardReader { text, at }
    }

    // The line that begins at the reader's place.
    pub fn next(self) -> Option<Line>
        ensures { result ≡ step_at self.entry.text.now self.entry.at }
    {
        step_at(self.text, self.at)
    }

    // The reader past that line.
    pub fn moved(self) -> CardReader<'a>
        ensures { (result.text ≡ self.entry.text) × (result.at ≡ line_behind self.entry.text.now self.entry.at) }
    {
        let at = behind_at(self.text, self.at);
        CardReader {
            text: self.text,
            at,
        }
    }

    // The reader's place.
    pub fn place(self) -> usize
        ensures { result ≡ self.entry.at }
    {
        self.at
    }
}

// The line that begins at a place of a text, as a reader there gives it.
pub fn line_at(text: &[u8], at: usize) -> Option<Line>
    ensures { result ≡ step_at text.now at }
{
    CardReader::new(text, at).next()
}

// Where a reader stands once it is past that line.
pub fn line_behind(text: &[u8], at: usize) -> usize
    ensures { result ≡ line_behind text.now at }
{
    CardReader::new(text, at).moved().place()
}

// Where that line ends; the assembler's passes go by it.
pub fn line_end(text: &[u8], at: usize) -> usize
    requires { at ≤ length text.now }
    ensures { (result ≡ line_end text.now at) × (result ≤ length text.now) }
{
    match line_at(text, at) {
        Some(line) => line.end,
        None => at,
    }
}
