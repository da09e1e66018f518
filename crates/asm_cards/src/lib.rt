// The card of a line, and where the reader stands past it [S Cards].
#![tactic(auto)]

ghost use Rattle.std.specs.Prelude.{◌≡◌, Bool, map, ◌+◌, ◌≤◌, eqb, length};
ghost use Rattle.base.specs.Test.{◌and◌};
ghost use Rattle.base.specs.Lists.{◌at◌};
ghost use Rattle.ops.specs.Ops.{rows, cells_of};
ghost use Rattle.words.specs.Words.{text_words};
ghost use Rattle.language.specs.Text.{byte, max_bytes};
ghost use Rattle.language.specs.Form.{quoted};
ghost use Rattle.language.specs.Operation as Operations;
ghost use Rattle.language.specs.Card as Cards;
ghost use Rattle.language.specs.Image.{is_fresh};
ghost use Rattle.asm_types.specs.Views.{card_view, operation_view, reader_view};
ghost use Rattle.asm_cards.specs.Reading.{Counted, OfCard};

use asm_forms::texts::quoted;
use asm_names::label_of;
use asm_operations::names::operation_of;
use asm_sections::codes::is_assembly;
use asm_sections::{is_divider, is_one_word, is_skipped};
use asm_types::{Assembly, Card, Operation, Reader};
use ops::table::Operations;
use words::words_for;

// The values of `opened` in sections 0 and 2 to 5; SEC opens a section up to the last.
const SECTION_0: u32 = 1;

pub const SECTION_2: u32 = 3;

pub const SECTION_3: u32 = 4;

pub const SECTION_4: u32 = 5;

pub const SECTION_5: u32 = 6;

pub const LAST: u32 = 7;

// A label counts by its field alone, but for skipped lines.
fn label_by(o: Operation, s: &[u8]) -> u64
    ensures { result ≡ Cards.label_by (operation_view o) s.now }
{
    if is_skipped(o) {
        return 0;
    }
    label_of(s)
}

// The card of a line.
pub fn card_of(list: &Operations, r: Reader, s: &[u8]) -> Card
    requires { list.now ≡ map cells_of rows }
    ensures { card_view result s.now ≡ Cards.card_of (reader_view r) s.now }
{
    let operation = operation_of(list, s);
    let label = label_by(operation, s);
    Card {
        spot: r,
        label,
        operation,
    }
}

// The card is an operation of sections 4 to 6, or stands for one.
pub fn holds_place(c: Card) -> bool
    ensures { OfCard Cards.holds_place c result }
{
    if c.spot.opened < SECTION_4 {
        return false;
    }
    let o = c.operation;
    if is_skipped(o) {
        return false;
    }
    !is_divider(o)
}

// The card is of section 2 or 3.
pub fn of_words(c: Card) -> bool
    ensures { OfCard Cards.of_words c result }
{
    if c.spot.opened == SECTION_2 {
        return true;
    }
    c.spot.opened == SECTION_3
}

// The card is an EXP of section 0.
pub fn is_external(c: Card) -> bool
    ensures { OfCard Cards.is_external c result }
{
    if c.spot.opened != SECTION_0 {
        return false;
    }
    let o = c.operation;
    is_assembly(o, Assembly::EXP)
}

// The card is an END: what follows is not read.
pub fn is_closing(c: Card) -> bool
    ensures { result ≡ Operations.is_assembly Operations.END (operation_view c.operation) }
{
    let o = c.operation;
    is_assembly(o, Assembly::END)
}

// The words of a DTC line's text.
fn text_words(s: &[u8]) -> u32
    requires { length s.now ≤ max_bytes }
    ensures { (result ≡ length (text_words (quoted s.now))) × (result ≤ length s.now) }
{
    let q = quoted(s);
    let n = q.to - q.from;
    words_for(n as u32)
}

// How many words a card of sections 2 and 3 defines.
pub fn word_count(c: Card, s: &[u8]) -> u32
    requires { length s.now ≤ max_bytes }
    ensures { (result ≡ Cards.word_count (card_view c s.now)) × (result ≤ length s.now + 2) }
{
    if !of_words(c) {
        return 0;
    }
    let o = c.operation;
    if is_one_word(o) {
        return 1;
    }
    if is_assembly(o, Assembly::DRC) {
        return 2;
    }
    if !is_assembly(o, Assembly::DTC) {
        return 0;
    }
    text_words(s)
}

// A test as a count.
pub fn one(b: bool) -> u32
    ensures { (result ≡ Cards.one b) × (result ≤ 1) }
{
    if b {
        return 1;
    }
    0
}

// The SEC cards past a card.
fn opened_past(c: Card) -> u32
    ensures { OfCard Cards.opened_past c result }
{
    let o = c.operation;
    if !is_assembly(o, Assembly::SEC) {
        return c.spot.opened;
    }
    if LAST <= c.spot.opened {
        return c.spot.opened;
    }
    c.spot.opened + 1
}

// Where the reader stands past a card.
pub fn past(c: Card, s: &[u8]) -> Reader
    requires { Counted max_bytes (reader_view c.spot) × (length s.now ≤ max_bytes) }
    ensures { reader_view result ≡ Cards.past (card_view c s.now) }
{
    let places = one(holds_place(c));
    let words = word_count(c, s);
    let externals = one(is_external(c));
    Reader {
        line: c.spot.line + 1,
        opened: opened_past(c),
        place: c.spot.place + places,
        word: c.spot.word + words,
        external: c.spot.external + externals,
    }
}

// A label begins `F$`.
fn begins_fresh(s: &[u8]) -> bool
    ensures { result ≡ (eqb (s.now at 0) (byte "F") and eqb (s.now at 1) (byte "$")) }
{
    if s.len() < 2 {
        return false;
    }
    if s[0] != b'F' {
        return false;
    }
    s[1] == b'$'
}

// A working label that begins `F$` marks its card's first word.
pub fn is_fresh(c: Card, s: &[u8]) -> bool
    requires { length s.now ≤ max_bytes }
    ensures { result ≡ is_fresh (card_view c s.now) }
{
    if c.spot.opened != SECTION_3 {
        return false;
    }
    if c.label == 0 {
        return false;
    }
    if !begins_fresh(s) {
        return false;
    }
    0 < word_count(c, s)
}
