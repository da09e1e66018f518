// The state of the machine as the host holds it, and the fresh state [S Numbers the host sees].
#![tactic(auto)]

ghost use Rattle.std.specs.Prelude.{◌≡◌, replicate};
ghost use Rattle.base.specs.Test.{Ok};
ghost use Rattle.rules.specs.Check.{table_ok};
ghost use Rattle.rules.specs.Snapshot as Snapshot;
ghost use Rattle.rules.specs.State.{memory_fits};
ghost use Rattle.states.specs.Views.{fresh_of};

use bodies::entry::{CONSTANTS, WORKINGS};
use ops::constants::Machine;

// The state beside its memory: the registers, IA's 32 bits, the overflow flag, the place, whether it waits at the JSR of an EXP,
// how many links are open, the links' places, oldest first, RA's two words and its flag. Links from count on are not looked at. RA is words and no
// float, which could be a NaN; a state that passes its check has a finite RA and a real flag of 0 or 1 [02 Wish 5].
#[derive(Clone, Copy)]
pub struct State {
    pub xl: u32,
    pub xr: u32,
    pub xs: u32,
    pub wa: u32,
    pub wb: u32,
    pub wc: u32,
    pub ia: u32,
    pub flag: bool,
    pub pc: u32,
    pub waiting: bool,
    pub count: u32,
    pub links: [u32; Machine::MAX_LINKS],
    pub ra_low: u32,
    pub ra_high: u32,
    pub real_flag: u32,
}

// The word of a table's header with the start of section 4.
const SECTION_4: usize = 5;

// A test as a word.
pub fn bit(b: bool) -> u32
    ensures { result ≡ Snapshot.bit b }
{
    if b { 1 } else { 0 }
}

// No links.
pub fn no_links() -> [u32; 256]
    ensures { result ≡ replicate 256 0 }
{
    [0u32; 256]
}

impl State {
    // The fresh state: section 4 begins with it, in len words of memory and with the host's argument in WA [S The house machine].
    pub fn fresh(table: &[u32], len: usize, argument: u32) -> State
        requires { Ok (table_ok table.now) × Ok (memory_fits table.now len) }
        ensures { result ≡ fresh_of table.now len argument }
    {
        let links = no_links();
        State {
            xl: Machine::CFP_B * (len - (Machine::STACK_WORDS + 1)) as u32,
            xr: Machine::CFP_B * (table[CONSTANTS] + table[WORKINGS]),
            xs: Machine::CFP_B * len as u32,
            wa: argument,
            wb: 0,
            wc: 0,
            ia: 0,
            flag: false,
            pc: table[SECTION_4],
            waiting: false,
            count: 0,
            links,
            ra_low: 0,
            ra_high: 0,
            real_flag: 0,
        }
    }
}
