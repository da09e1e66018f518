// A state that a host lends as words: XL XR XS WA WB WC IA, the flag, the place, whether the state waits, the count of its links,
// then 256 links, oldest first, then RA's low word, its high word and its flag. Words behind these are not looked at, nor are links from the
// count on.
#![tactic(auto)]

ghost use Rattle.std.specs.Prelude.{◌≡◌, ◌≤◌, length, ◌+◌, ◌++◌, drop};
ghost use Rattle.snap_core.specs.Buffers.{put};
ghost use Rattle.lent.specs.Lent.{code_from, head_of, lawful, links_lent, tail_of, words_from};

use ops::constants::Machine;
use states::{State, bit};

// Where each word of a host's state stands, as the header has it.
pub const XL: usize = 0;

pub const XR: usize = 1;

pub const XS: usize = 2;

pub const WA: usize = 3;

pub const WB: usize = 4;

pub const WC: usize = 5;

pub const IA: usize = 6;

pub const FLAG: usize = 7;

pub const PLACE: usize = 8;

pub const WAITING: usize = 9;

pub const COUNT: usize = 10;

pub const LINKS: usize = 11;

pub const RA_LOW: usize = LINKS + Machine::MAX_LINKS;

pub const RA_HIGH: usize = RA_LOW + 1;

pub const REAL_FLAG: usize = RA_LOW + 2;

// How many words a state has.
pub const WORDS: usize = RA_LOW + 3;

// The words are enough for a state, and the flag and the waiting word are 0 or 1.
pub fn words_ok(words: &[u32]) -> bool
    ensures { result ≡ lawful words.now }
{
    if words.len() < WORDS {
        return false;
    }
    if 1 < words[FLAG] {
        return false;
    }
    words[WAITING] <= 1
}

// The 256 links.
pub fn links_of(words: &[u32]) -> [u32; Machine::MAX_LINKS]
    requires { 270 ≤ length words.now }
    ensures { result ≡ links_lent words.now }
{
    let mut links = [0u32; Machine::MAX_LINKS];
    links.copy_from_slice(&words[LINKS..RA_LOW]);
    links
}

// The state beside its memory.
pub fn state_of(words: &[u32]) -> State
    requires { 270 ≤ length words.now }
    ensures { result ≡ code_from words.now }
{
    let links = links_of(words);
    State {
        xl: words[XL],
        xr: words[XR],
        xs: words[XS],
        wa: words[WA],
        wb: words[WB],
        wc: words[WC],
        ia: words[IA],
        flag: words[FLAG] == 1,
        pc: words[PLACE],
        waiting: words[WAITING] == 1,
        count: words[COUNT],
        links,
        ra_low: words[RA_LOW],
        ra_high: words[RA_HIGH],
        real_flag: words[REAL_FLAG],
    }
}

// The words in front of the links.
pub fn head_of(s: State) -> [u32; LINKS]
    ensures { result ≡ head_of s }
{
    [
        s.xl,
        s.xr,
        s.xs,
        s.wa,
        s.wb,
        s.wc,
        s.ia,
        bit(s.flag),
        s.pc,
        bit(s.waiting),
        s.count,
    ]
}

// The words behind the links.
pub fn tail_of(s: State) -> [u32; 3]
    ensures { result ≡ tail_of s }
{
    [s.ra_low, s.ra_high, s.real_flag]
}

// The words from at word at on; all other words stay.
pub fn put_words(words: &mut [u32], at: usize, from: &[u32])
    requires { at + length from.now ≤ length words.old }
    ensures { words.new ≡ put words.old at from.now }
{
    words[at..at + from.len()].copy_from_slice(from);
}

// The words of a state; words behind them stay.
pub fn put_state(words: &mut [u32], s: State)
    requires { 270 ≤ length words.old }
    ensures { words.new ≡ words_from s ++ drop 270 words.old }
{
    let head = head_of(s);
    put_words(words, 0, &head);
    let links = s.links;
    put_words(words, LINKS, &links);
    let tail = tail_of(s);
    put_words(words, RA_LOW, &tail);
}
