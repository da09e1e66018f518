// The operations of cards by their codes: which are skipped, divide the deck or define one word, and the sections in which each stands [S Cards].
#![tactic(auto)]

ghost use Rattle.std.specs.Prelude.{◌≡◌};
ghost use Rattle.language.specs.Text.{between};
ghost use Rattle.language.specs.Operation.{is_divider, is_skipped, of_section};
ghost use Rattle.language.specs.Card.{is_one_word};
ghost use Rattle.asm_types.specs.Views.{operation_view};

pub mod codes;

use crate::codes::code_of;
use asm_types::{Assembly, Operation};

// Blank and comment lines, TTL and EJC are skipped.
pub fn is_skipped(o: Operation) -> bool
    ensures { result ≡ is_skipped (operation_view o) }
{
    let n = code_of(o);
    if n == Assembly::TTL {
        return true;
    }
    if n == Assembly::EJC {
        return true;
    }
    n == codes::EMPTY
}

// SEC and END divide the deck.
pub fn is_divider(o: Operation) -> bool
    ensures { result ≡ is_divider (operation_view o) }
{
    let n = code_of(o);
    if n == Assembly::SEC {
        return true;
    }
    n == Assembly::END
}

// DAC, DIC and DBC define one word.
pub fn is_one_word(o: Operation) -> bool
    ensures { result ≡ is_one_word (operation_view o) }
{
    let n = code_of(o);
    if n == Assembly::DAC {
        return true;
    }
    if n == Assembly::DIC {
        return true;
    }
    n == Assembly::DBC
}

// x lies from lo to hi.
fn within(lo: u32, hi: u32, x: u32) -> bool
    ensures { result ≡ between lo hi x }
{
    if x < lo {
        return false;
    }
    x <= hi
}

// The operation stands in the section; `opened` counts the SEC cards above.
pub fn of_section(opened: u32, o: Operation) -> bool
    ensures { result ≡ of_section opened (operation_view o) }
{
    let n = code_of(o);
    if n == Assembly::SEC {
        return opened <= 6;
    }
    if n <= Assembly::EJC {
        return opened <= 7;
    }
    if n <= Assembly::GLB {
        return within(1, 1, opened);
    }
    if n == Assembly::EQU {
        return within(2, 2, opened);
    }
    if n <= Assembly::DTC {
        return within(3, 4, opened);
    }
    if n == codes::UNKNOWN {
        return false;
    }
    if n == codes::OPERATES {
        return 5 <= opened;
    }
    true
}
