// The host's state as the words and links that the code of a step is lent, and back.
ghost use Rattle.std.specs.Prelude.{◌≡◌, ◌≤◌, []};
ghost use Rattle.states.specs.Views.{code_of, state_of, words_of};
ghost use Rattle.exec_core.specs.Seen.{open_links};
ghost use Rattle.resuming.specs.Packing.{Linked, Packable, bare};

use bodies::entry::index;
use ops::constants::Machine;
use states::{State, bit, no_links};

// The machine's own words.
pub fn unpack_words(s: State) -> [u32; 16]
    ensures { result ≡ words_of s }
{
    [
        0,
        s.xl,
        s.xr,
        s.xs,
        s.wa,
        s.wb,
        s.wc,
        0,
        s.ia,
        bit(s.flag),
        s.ra_low,
        s.ra_high,
        s.real_flag,
        0,
        0,
        0,
    ]
}

// The open links, oldest first, and their count behind the room for all of them.
pub fn unpack_links(s: State) -> [u32; 257]
    requires { s.count ≤ 256 }
    ensures { Linked s.count s.links result }
{
    let k = index(s.count);
    let from = s.links;
    let mut links = [0u32; 257];
    links[..k].copy_from_slice(&from[..k]);
    links[Machine::MAX_LINKS] = s.count;
    links
}

// The state of these words and links at place p; links from the count on are 0.
pub fn pack(z: &[u32; 16], links: &[u32], p: usize, waiting: bool) -> State
    requires { Packable links.now p }
    ensures { result ≡ code_of (bare z.now p waiting (open_links links.now)) }
{
    let count = links[Machine::MAX_LINKS];
    let k = index(count);
    let mut room = no_links();
    room[..k].copy_from_slice(&links[..k]);
    State {
        xl: z[Machine::XL],
        xr: z[Machine::XR],
        xs: z[Machine::XS],
        wa: z[Machine::WA],
        wb: z[Machine::WB],
        wc: z[Machine::WC],
        ia: z[Machine::IA],
        flag: z[Machine::FLAG] == 1,
        pc: p as u32,
        waiting,
        count,
        links: room,
        ra_low: z[Machine::RA],
        ra_high: z[Machine::RA_HIGH],
        real_flag: z[Machine::REAL_FLAG],
    }
}

// The same state with 0 behind its links.
pub fn settle(s: State) -> State
    requires { s.count ≤ 256 }
    ensures { result ≡ code_of (state_of s []) }
{
    let z = unpack_words(s);
    let links = unpack_links(s);
    pack(&z, &links, index(s.pc), s.waiting)
}
