// The start of a program in the memory that the host lends [S The house machine], plain or warm [02 Wish 6].
// Any table, memory and fresh words may be lent. A refusal changes no lent word. Refusals are judged in this order: 30, 10, 43.
#![tactic(auto)]

ghost use Rattle.std.specs.Prelude.{◌≡◌};
ghost use Rattle.rules.specs.Number.{verdict_number};
ghost use Rattle.base.specs.Test.{Ok};
ghost use Rattle.rules.specs.Check.{table_ok};
ghost use Rattle.starting.specs.Answers.{Starts, kept_in, mode_of, verdict_of};

use loading::{clear, fresh_count, load, own_count};
use state_check::passing::memory_fits;
use states::State;
use tables::check_table;

// The two starts. The plain one leaves zeros behind the program's own words, the warm one what was lent.
#[derive(Clone, Copy)]
pub enum Mode {
    Plain,
    Warm,
}

// Why a program has not begun, with the numbers 30, 10, 43.
#[derive(Clone, Copy)]
pub enum StartError {
    BadTable,
    UnfitMemory,
    FreshCountOff,
}

// The number of an answer, 0 where the program has begun.
pub fn number(answer: Result<(), StartError>) -> u32
    ensures { result ≡ verdict_number (verdict_of answer) }
{
    match answer {
        Ok(()) => 0,
        Err(StartError::BadTable) => 30,
        Err(StartError::UnfitMemory) => 10,
        Err(StartError::FreshCountOff) => 43,
    }
}

// How many words of memory, of len, a start keeps from the first on: the program's own, or all.
fn kept(mode: Mode, table: &[u32], len: usize) -> usize
    requires { Ok (table_ok table.now) }
    ensures { result ≡ kept_in (mode_of mode) table.now len }
{
    match mode {
        Mode::Plain => own_count(table),
        Mode::Warm => len,
    }
}

// A program at the start of section 4: the table's words in memory from 0 on, the host's fresh words, and all other words 0, or as lent by a warm
// start; the host's argument in WA. The answer is the state beside its memory. Refused: 30 the table, 10 the length of memory, 43 the count of fresh words.
pub fn start(
    mode: Mode,
    table: &[u32],
    memory: &mut [u32],
    fresh: &[u32],
    argument: u32,
) -> Result<State, StartError>
    ensures { Starts (mode_of mode) table.now memory.old fresh.now argument result memory.new }
{
    if !check_table(table) {
        return Err(StartError::BadTable);
    }
    if !memory_fits(table, memory.len()) {
        return Err(StartError::UnfitMemory);
    }
    if fresh.len() != fresh_count(table) {
        return Err(StartError::FreshCountOff);
    }
    let from = kept(mode, table, memory.len());
    load(memory, table, fresh);
    clear(memory, from);
    let state = State::fresh(table, memory.len(), argument);
    Ok(state)
}
