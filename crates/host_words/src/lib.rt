// The checks, start, resume, the writer and restore over plain words and bytes [S Numbers the host sees]: all that needs no step.
// A refusal changes no lent word and no lent byte. What a host calls is in host, under its C names, by these contracts.
#![tactic(auto)]

ghost use Rattle.std.specs.Prelude.{◌≡◌, List, ℕ, length};
ghost use Rattle.host_claims.specs.Answer.{state_number, table_number};
ghost use Rattle.host_claims.specs.Freezing.{HostRestores, HostWrites};
ghost use Rattle.host_claims.specs.Running.{HostResumes, HostStarts, unread_number};
ghost use Rattle.rules.specs.Run.{resumes};
ghost use Rattle.starting.specs.Answers.{mode_of};

use host_numbers::{BAD_STATE, BAD_TABLE, PASSED, UPPER, number_of, number_written};
use lent::{WORDS, put_state, state_of, words_ok};
use resuming::answers::number as number_resumed;
use resuming::resume;
use snapshot::waking::restore_checked;
use snapshot::writing::write_checked;
use starting::{Mode, number as number_started, start};
use state_check::passing::state_ok;
use tables::check_table;

// 0: the table passes its check. 30: it does not. Any words may be asked.
pub fn table_number(table: &[u32]) -> u32
    ensures { result ≡ table_number table.now }
{
    if check_table(table) {
        return PASSED;
    }
    BAD_TABLE
}

// 0: a state of these words, with memory of len words, may be run on the table. 30: the table does not pass its check. 31: the words
// are fewer than a state has, the flag or the waiting word is neither 0 nor 1, or the state does not pass its check.
pub fn state_number(table: &[u32], len: usize, state: &[u32]) -> u32
    ensures { (mem : List ℕ) → length mem ≡ len → result ≡ state_number table.now state.now mem }
{
    if !check_table(table) {
        return BAD_TABLE;
    }
    if !words_ok(state) {
        return BAD_STATE;
    }
    let s = state_of(state);
    if state_ok(table, len, s) {
        return PASSED;
    }
    BAD_STATE
}

// 30 where the table does not pass its check, else 31: the number of words that are no state.
pub fn unread(table: &[u32]) -> u32
    ensures { result ≡ unread_number table.now }
{
    if check_table(table) {
        return BAD_STATE;
    }
    BAD_TABLE
}

// 0: the program stands at the start of section 4, its words and the host's fresh words in memory, all other words 0, or as lent by a warm start,
// its 270 words of state in what is lent, the host's argument in WA. 30: the table does not pass its check. 31: fewer words are lent than a state
// has. 10: the length of memory. 43: the count of fresh words.
pub fn start_words(
    mode: Mode,
    table: &[u32],
    memory: &mut [u32],
    fresh: &[u32],
    argument: u32,
    state: &mut [u32],
) -> u32
    ensures { HostStarts (mode_of mode) table.now memory.old fresh.now argument state.old result memory.new state.new }
{
    if state.len() < WORDS {
        return unread(table);
    }
    match start(mode, table, memory, fresh, argument) {
        Ok(started) => {
            put_state(state, started);
            PASSED
        }
        Err(e) => number_started(Err(e)),
    }
}

// The host's answer to the call that the state waits at: an exit, or 0 for no number. 0: the state goes on from there. 26: the exit's PPM
// has no label, and the state still waits. 30: the table does not pass its check. 31: the words are no state, or the state does not pass its
// check. 33: the state does not wait, or the exit is above the declared count.
pub fn resume_words(table: &[u32], memory: &[u32], state: &mut [u32], exit: u32) -> u32
    ensures { HostResumes table.now state.old memory.now (resumes exit) result state.new }
{
    if !words_ok(state) {
        return unread(table);
    }
    let r = resume(table, memory, state_of(state), exit);
    let n = number_resumed(r.answer);
    if n < BAD_TABLE {
        put_state(state, r.state);
    }
    n
}

// Upper half 0, lower half L: the machine's file of L bytes stands at the front of the room. Upper half 30: the table does not pass its
// check. 31: the words are no state, or the state does not pass its check. 45: the room is under L. The lower half of a refusal is 0.
pub fn write_words(table: &[u32], memory: &[u32], state: &[u32], build: u32, file: &mut [u8]) -> u64
    ensures { HostWrites table.now state.now memory.now build file.old result file.new }
{
    if !check_table(table) {
        return UPPER * BAD_TABLE as u64;
    }
    if !words_ok(state) {
        return UPPER * BAD_STATE as u64;
    }
    let s = state_of(state);
    let w = write_checked(table, memory, s, build, file);
    number_written(w)
}

// 0: the machine at the end of the file is woken, its memory and its 270 words of state in what is lent, with the host's fresh words.
// 30: the table does not pass its check. 31: fewer words are lent than a state has. 40 the trailer, 41 another program or build,
// 42 the frozen state, 43 the count of fresh words, 44 the length of memory.
pub fn restore_words(
    table: &[u32],
    file: &[u8],
    build: u32,
    fresh: &[u32],
    memory: &mut [u32],
    state: &mut [u32],
) -> u32
    ensures { HostRestores table.now file.now build fresh.now memory.old state.old result memory.new state.new }
{
    if !check_table(table) {
        return BAD_TABLE;
    }
    if state.len() < WORDS {
        return BAD_STATE;
    }
    match restore_checked(table, file, build, fresh, memory) {
        Ok(woken) => {
            put_state(state, woken);
            PASSED
        }
        Err(e) => number_of(Err(e)),
    }
}
