// The numbers of a table's header, card by card [S The table].
ghost use Rattle.std.specs.Prelude.{◌≡◌, ◌+◌, ◌≤◌, eqb, length};
ghost use Rattle.base.specs.Test.{◌or◌, if};
ghost use Rattle.language.specs.Text.{max_bytes};
ghost use Rattle.language.specs.Card as Cards;
ghost use Rattle.language.specs.Image.{is_below};
ghost use Rattle.language.specs.Answer.{is_closing};
ghost use Rattle.asm_types.specs.Views.{card_view};
ghost use Rattle.asm_cards.specs.Reading.{OfCard};
ghost use Rattle.asm_collect.specs.Tally.{Within, tallied};

use asm_cards::{
    LAST, SECTION_2, SECTION_3, SECTION_4, SECTION_5, holds_place, is_closing, is_external,
    is_fresh, one, word_count,
};
use asm_types::Card;

// The counts of some cards, and whether an END of section 6 is one of them.
#[derive(Clone, Copy)]
pub struct Counts {
    pub size: u32,
    pub constants: u32,
    pub workings: u32,
    pub fresh: u32,
    pub externals: u32,
    pub section5: u32,
    pub section6: u32,
    pub closed: bool,
}

// The words of a card of the section that `opened` counts.
fn words_in(c: Card, s: &[u8], opened: u32) -> u32
    requires { length s.now ≤ max_bytes }
    ensures { (result ≡ if (eqb c.spot.opened opened) (Cards.word_count (card_view c s.now)) 0) × (result ≤ length s.now + 2) }
{
    if c.spot.opened != opened {
        return 0;
    }
    word_count(c, s)
}

// The card holds a place, and at most `opened` SEC cards stand above it.
fn is_below(c: Card, opened: u32) -> bool
    ensures { OfCard (is_below opened) c result }
{
    if !holds_place(c) {
        return false;
    }
    c.spot.opened <= opened
}

// An END closed section 6, or this card does.
fn closed_by(closed: bool, c: Card) -> bool
    ensures { OfCard (λ (x : Cards.Card). closed or is_closing x) c result }
{
    if closed {
        return true;
    }
    if !is_closing(c) {
        return false;
    }
    c.spot.opened == LAST
}

// The counts with one card more.
pub fn counted(k: Counts, c: Card, s: &[u8]) -> Counts
    requires { Within (max_bytes + 1) k × (length s.now ≤ max_bytes) }
    ensures { result ≡ tallied k (card_view c s.now) }
{
    let places = one(holds_place(c));
    let constants = words_in(c, s, SECTION_2);
    let workings = words_in(c, s, SECTION_3);
    let fresh = one(is_fresh(c, s));
    let externals = one(is_external(c));
    let below5 = one(is_below(c, SECTION_4));
    let below6 = one(is_below(c, SECTION_5));
    Counts {
        size: k.size + places,
        constants: k.constants + constants,
        workings: k.workings + workings,
        fresh: k.fresh + fresh,
        externals: k.externals + externals,
        section5: k.section5 + below5,
        section6: k.section6 + below6,
        closed: closed_by(k.closed, c),
    }
}
