// Machines: run from cards, frozen to a snapshot, woken from one.
ghost use Rattle.std.specs.Prelude.{◌≤◌};

use super::cards::assemble_cards;
use assembler::MAX_TABLE;
use bodies::entry::index;
use host::{torzimlak_restore, torzimlak_resume, torzimlak_run, torzimlak_start, torzimlak_write};
use host_numbers::UPPER;
use lent::WORDS;
use loading::WORD;
use ops::constants::Machine;
use snap_core::layout::TRAILER;
use snap_core::trailer::{MEMORY, trailer_word};
use std::random::RandomSource;
use std::rt::{Env, Files};
use tool_arguments::sizes::{is_snapshot, tell_snapshot};
use tool_arguments::{FIRST, SECOND, read_file, refuse, write_file};
use tool_command::Work;
use tool_fresh::{Supply, fresh_in, fresh_words};
use tool_report::{Run, has_run, is_stopped, tell_run};

// The build number of every snapshot, the argument of every start, and the answer to the EXP that a woken machine waits in: no exit.
const BUILD: u32 = 1;

const ARGUMENT: u32 = 0;

const NO_EXIT: u32 = 0;

// Words of memory, and bytes of the longest snapshot.
const MOST: usize = Machine::MAX_MEMORY;

const SNAPSHOT: usize = WORD * (MOST + Machine::MAX_LINKS + Machine::MAX_FRESH) + TRAILER;

// A resume of a machine that does not wait.
const NOT_WAITING: u32 = 33;

// The commands `run CARDS`, `freeze CARDS SNAPSHOT` and `wake CARDS SNAPSHOT`, with fresh words behind.
pub fn on_program<R: Env + Files + Print + RandomSource>(rt: &R, work: Work) {
    let mut room = [0u32; MAX_TABLE];
    let Some(n) = assemble_cards(rt, &mut room) else {
        return;
    };
    if MAX_TABLE < n {
        return;
    }
    on_table(rt, work, &room[..n]);
}

// The argument with the first fresh word.
fn first_word(work: Work) -> u32 {
    match work {
        Work::Run => 3,
        Work::Freeze | Work::Wake => 4,
    }
}

fn on_table<R: Env + Files + Print + RandomSource>(rt: &R, work: Work, table: &[u32]) {
    let n = fresh_in(table);
    let mut fresh = [0u32; Machine::MAX_FRESH];
    on_room(rt, work, table, &mut fresh[0..n]);
}

// The table's program, with room for its fresh words.
fn on_room<R: Env + Files + Print + RandomSource>(
    rt: &R,
    work: Work,
    table: &[u32],
    fresh: &mut [u32],
) {
    if let Some(how) = fresh_words(rt, first_word(work), fresh) {
        on_fresh(rt, work, table, fresh, how);
    }
}

// What is done with a table, once its fresh words are there.
fn on_fresh<R: Env + Files + Print + RandomSource>(
    rt: &R,
    work: Work,
    table: &[u32],
    fresh: &[u32],
    how: Supply,
) {
    match work {
        Work::Run => run_fresh(rt, table, fresh, how, false),
        Work::Freeze => run_fresh(rt, table, fresh, how, true),
        Work::Wake => wake_file(rt, table, fresh, how),
    }
}

// A number alone as an answer.
fn only(number: u32) -> u64 {
    UPPER * number as u64
}

// Starts the program and runs it: the answer of the run, or the number of a refusal.
fn begin(table: &[u32], memory: &mut [u32], fresh: &[u32], state: &mut [u32]) -> u64 {
    let number = torzimlak_start(table, memory, fresh, ARGUMENT, state);
    if number != 0 {
        return only(number);
    }
    torzimlak_run(table, memory, state, Machine::MAX_BUDGET)
}

// The program from its start, frozen after that or not.
fn run_fresh<R: Env + Files + Print + RandomSource>(
    rt: &R,
    table: &[u32],
    fresh: &[u32],
    how: Supply,
    frozen: bool,
) {
    let mut memory = [0u32; MOST];
    let mut state = [0u32; WORDS];
    let r = begin(table, &mut memory, fresh, &mut state);
    if has_run(rt, FIRST, r) {
        let run = Run {
            supply: how,
            fresh: fresh.len(),
            table,
            memory: &memory,
            state: &state,
            answer: r,
        };
        on_run(rt, run, frozen);
    }
}

// A program that was stopped is told of, and not frozen.
fn on_run<R: Env + Files + Print + RandomSource>(rt: &R, run: Run, frozen: bool) {
    if !frozen || is_stopped(run.answer) {
        tell_run(rt, run);
        return;
    }
    if let Some(n) = write_machine(rt, run) {
        tell_run(rt, run);
        tell_snapshot(rt, n);
    }
}

// The machine as a file: its length; nothing where there is none, which is told.
fn write_machine<R: Env + Files + RandomSource>(rt: &R, run: Run) -> Option<usize> {
    let mut room = [0u8; SNAPSHOT];
    let r = torzimlak_write(run.table, run.memory, run.state, BUILD, &mut room);
    if UPPER <= r {
        refuse(rt, FIRST, 0, (r / UPPER) as u32);
        return None;
    }
    let n = r as usize;
    if SNAPSHOT < n {
        return None;
    }
    if write_file(rt, SECOND, &room[..n]) {
        return Some(n);
    }
    None
}

// The machine of the snapshot.
fn wake_file<R: Env + Files + Print>(rt: &R, table: &[u32], fresh: &[u32], how: Supply) {
    let mut bytes = [0u8; SNAPSHOT + 1];
    let Some(n) = read_file(rt, SECOND, &mut bytes) else {
        return;
    };
    if is_snapshot(rt, n, SNAPSHOT) {
        wake_bytes(rt, table, &bytes[..n], fresh, how);
    }
}

// How many words of memory to lend for a snapshot: as many as it says, if there can be so many.
fn frozen_words(file: &[u8]) -> usize
    ensures { result ≤ 8192 }
{
    if file.len() < TRAILER {
        return MOST;
    }
    let m = index(trailer_word(file, MEMORY));
    m.min(MOST)
}

fn wake_bytes<R: Env + Print>(rt: &R, table: &[u32], file: &[u8], fresh: &[u32], how: Supply) {
    let m = frozen_words(file);
    let mut memory = [0u32; MOST];
    wake_in(rt, table, file, fresh, how, &mut memory[0..m]);
}

// The machine of the file in this memory.
fn wake_in<R: Env + Print>(
    rt: &R,
    table: &[u32],
    file: &[u8],
    fresh: &[u32],
    how: Supply,
    memory: &mut [u32],
) {
    let mut state = [0u32; WORDS];
    let r = wake(table, file, memory, fresh, &mut state);
    if has_run(rt, SECOND, r) {
        let run = Run {
            supply: how,
            fresh: fresh.len(),
            table,
            memory,
            state: &state,
            answer: r,
        };
        tell_run(rt, run);
    }
}

// Wakes the machine, answers the EXP if it waits in one, and runs it: the answer of the run, or the number of a refusal.
fn wake(table: &[u32], file: &[u8], memory: &mut [u32], fresh: &[u32], state: &mut [u32]) -> u64 {
    let woken = torzimlak_restore(table, file, BUILD, fresh, memory, state);
    if woken != 0 {
        return only(woken);
    }
    let resumed = torzimlak_resume(table, memory, state, NO_EXIT);
    if resumed != 0 && resumed != NOT_WAITING {
        return only(resumed);
    }
    torzimlak_run(table, memory, state, Machine::MAX_BUDGET)
}
