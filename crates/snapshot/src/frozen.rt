// The machine that a file holds, and whether it is fit to be woken [S The snapshot].
ghost use Rattle.std.specs.Prelude.{◌≡◌, ◌++◌, ◌-◌, ◌≤◌, replicate};
ghost use Rattle.base.specs.Test.{Ok};
ghost use Rattle.rules.specs.Check.{table_ok};
ghost use Rattle.rules.specs.Snapshot.{frozen_in, frozen_ok, links_from, links_in, trailer_ok, words_in};
ghost use Rattle.states.specs.Views.{code_of};

use ops::constants::Machine;
use snap_core::copy::read_words;
use snap_core::fresh::fresh_hidden;
use snap_core::layout::index;
use snap_core::trailer::{
    FLAG, IA, LINKS, MEMORY, PLACE, RA_HIGH, RA_LOW, REAL_FLAG, WA, WAITING, WB, WC, XL, XR, XS,
    links_from, memory_from, real_word, trailer_word,
};
use state_check::passing::state_ok;
use states::{State, no_links};

// The links of a file, oldest first, and 0 behind them.
pub fn frozen_links(file: &[u8]) -> [u32; 256]
    requires { Ok (trailer_ok file.now) × (links_in file.now ≤ 256) }
    ensures { result ≡ words_in file.now (links_from file.now) (links_in file.now) ++ replicate (256 - links_in file.now) 0 }
{
    let mut links = no_links();
    let k = index(trailer_word(file, LINKS));
    read_words(file, links_from(file), &mut links[..k]);
    links
}

// The state of a file beside its memory.
pub fn frozen_state(file: &[u8]) -> State
    requires { Ok (trailer_ok file.now) × (links_in file.now ≤ 256) }
    ensures { result ≡ code_of (frozen_in file.now) }
{
    let links = frozen_links(file);
    State {
        xl: trailer_word(file, XL),
        xr: trailer_word(file, XR),
        xs: trailer_word(file, XS),
        wa: trailer_word(file, WA),
        wb: trailer_word(file, WB),
        wc: trailer_word(file, WC),
        ia: trailer_word(file, IA),
        flag: trailer_word(file, FLAG) == 1,
        pc: trailer_word(file, PLACE),
        waiting: trailer_word(file, WAITING) == 1,
        count: trailer_word(file, LINKS),
        links,
        ra_low: real_word(file, RA_LOW),
        ra_high: real_word(file, RA_HIGH),
        real_flag: real_word(file, REAL_FLAG),
    }
}

// 42: the state passes its check, and its fresh words are 0.
pub fn frozen_ok(table: &[u32], file: &[u8]) -> bool
    requires { Ok (table_ok table.now) × Ok (trailer_ok file.now) }
    ensures { result ≡ frozen_ok table.now (frozen_in file.now) }
{
    if Machine::MAX_LINKS < index(trailer_word(file, LINKS)) {
        return false;
    }
    let m = index(trailer_word(file, MEMORY));
    let s = frozen_state(file);
    if !state_ok(table, m, s) {
        return false;
    }
    fresh_hidden(file, memory_from(file), m, table)
}
