// The fresh words of a machine: the arguments', or the system's.
#![tactic(auto)]

ghost use Rattle.std.specs.Prelude.{◌≤◌};

use console::stream::{Argument, arg_count, fail};
use console::word::word_in;
use ops::constants::Machine;
use std::random::RandomSource;
use std::rt::Env;
use tool_arguments::refuse_count;
use tool_files::tell;
use words::word_of;

// The word of a table's header with the count of fresh words.
const FRESH: usize = 3;

// Where fresh words come from: there are none, the system's, the arguments'.
#[derive(Clone, Copy)]
pub enum Supply {
    Nothing,
    System,
    Given,
}

// The word that argument i is; one that is none is told.
fn word_at<E: Env>(rt: &E, i: usize) -> Option<u32> {
    let argument = Argument::of(rt, i);
    let w = word_in(argument.text());
    if w.is_none() {
        tell(
            argument.text(),
            b"this is no whole number from 0 to 4294967295",
        );
    }
    w
}

// A word that the system draws by chance; that it cannot is told.
fn drawn<R: RandomSource>(rt: &R) -> Option<u32> {
    let mut four = [0u8; 4];
    if let Err(error) = rt.fill_bytes(&mut four) {
        fail(b"fresh words", error);
        return None;
    }
    Some(word_of(four[0], four[1], four[2], four[3]))
}

// The fresh word for argument i.
fn supplied<R: Env + RandomSource>(rt: &R, how: Supply, i: usize) -> Option<u32> {
    match how {
        Supply::System => drawn(rt),
        Supply::Given => word_at(rt, i),
        Supply::Nothing => None,
    }
}

// Fills the room with words, those of the arguments from argument first on, if all of them are there.
fn fill<R: Env + RandomSource>(rt: &R, how: Supply, first: u32, room: &mut [u32]) -> Option<()> {
    if Machine::MAX_FRESH < room.len() {
        return None;
    }
    for (i, word) in room.iter_mut().enumerate() {
        *word = supplied(rt, how, first as usize + i)?;
    }
    Some(())
}

// Where so many words as are needed come from, if the arguments from argument first on are words; another count of these is refused, which is told.
fn supply_of<E: Env>(rt: &E, first: u32, needed: usize) -> Option<Supply> {
    let given = arg_count(rt).saturating_sub(first as usize);
    if given == 0 {
        return Some(if needed == 0 {
            Supply::Nothing
        } else {
            Supply::System
        });
    }
    if given != needed {
        refuse_count(rt, needed, given);
        return None;
    }
    Some(Supply::Given)
}

// Fills the room with fresh words: those from argument first on, or, where there are none, the system's. Answers whose they are; nothing where they
// were refused, which is told.
pub fn fresh_words<R: Env + RandomSource>(rt: &R, first: u32, room: &mut [u32]) -> Option<Supply> {
    let how = supply_of(rt, first, room.len())?;
    fill(rt, how, first, room)?;
    Some(how)
}

// The word of a table's header, 0 where there is none.
fn count_in(table: &[u32]) -> u32 {
    table.get(FRESH).copied().unwrap_or(0)
}

// How many fresh words the program of a table has.
pub fn fresh_in(table: &[u32]) -> usize
    ensures { result ≤ 32 }
{
    let n = count_in(table) as usize;
    if Machine::MAX_FRESH < n { 0 } else { n }
}
