// A run of cards as one line [S Reference runs]: 256 zeroed words of memory, argument 0, budget 1,000 and fresh words 0; then ending, steps, place,
// open links, XL, XR, XS, WA, WB, WC, IA; or the number and line of a refusal.
#![tactic(auto)]

use assembler::{MAX_BYTES, MAX_TABLE};
use bodies::entry::index;
use console::page::STDERR_FILENO;
use console::stream::{fail, read_full};
use host::cards::torzimlak_assemble;
use host::{torzimlak_run, torzimlak_start};
use host_numbers::UPPER;
use io::{print_decimal, write_all};
use lent::{COUNT, IA, PLACE, WA, WB, WC, WORDS, XL, XR, XS};
use ops::constants::Machine;
use std::io::Read;

// The number of the stream of output.
pub const STDOUT_FILENO: i32 = 1;

// One byte more than a text may have, so that a longer one is seen to be too long.
const TEXT: usize = MAX_BYTES + 1;

// The words of memory and the budget.
const MEMORY: usize = Machine::MIN_MEMORY;

const BUDGET: u32 = 1000;

// The word of a table's header that counts its fresh words.
const FRESH_COUNT: usize = 3;

// A number behind a space.
pub fn tell(w: u32) {
    write_all(STDOUT_FILENO, b" ");
    print_decimal(STDOUT_FILENO, w as u64);
}

// A signed number behind a space.
pub fn tell_signed(w: u32) {
    if w <= Machine::CFP_M {
        tell(w);
        return;
    }
    write_all(STDOUT_FILENO, b" -");
    print_decimal(STDOUT_FILENO, UPPER - w as u64);
}

// The number and the line of a refusal, or the ending and the steps of a run.
fn tell_answer(number: u64, value: u64) {
    print_decimal(STDOUT_FILENO, number);
    write_all(STDOUT_FILENO, b" ");
    print_decimal(STDOUT_FILENO, value);
}

// Place, open links, registers and IA, if these are the words of a state.
fn tell_state(state: &[u32]) {
    if state.len() < WORDS {
        return;
    }
    tell(state[PLACE]);
    tell(state[COUNT]);
    tell(state[XL]);
    tell(state[XR]);
    tell(state[XS]);
    tell(state[WA]);
    tell(state[WB]);
    tell(state[WC]);
    tell_signed(state[IA]);
}

// A run of the table from its start.
fn run_table(table: &[u32]) {
    let zeros = [0u32; Machine::MAX_FRESH];
    let count = index(table.get(FRESH_COUNT).copied().unwrap_or(0));
    run_fresh(table, zeros.get(..count).unwrap_or(&[]));
}

fn run_fresh(table: &[u32], fresh: &[u32]) {
    let mut memory = [0u32; MEMORY];
    let mut state = [0u32; WORDS];
    let number = torzimlak_start(table, &mut memory, fresh, 0, &mut state);
    if number != 0 {
        tell_answer(number as u64, 0);
        return;
    }
    let r = torzimlak_run(table, &mut memory, &mut state, BUDGET);
    tell_answer(r / UPPER, r % UPPER);
    tell_state(&state);
}

// The line of the cards, without its end.
pub fn run_cards(cards: &[u8]) {
    let mut room = [0u32; MAX_TABLE];
    let r = torzimlak_assemble(cards, &mut room);
    let number = r / UPPER;
    let value = r % UPPER;
    if number != 0 {
        tell_answer(number, value);
        return;
    }
    if let Some(table) = room.get(..value as usize) {
        run_table(table);
    }
}

// Whether nothing is left to read behind n bytes of a room: it is full, or one more read finds the end. What failed is told on standard error,
// under the input's name; a read that failed and then goes on is one that cut the cards.
fn is_read<R: Read>(input: &mut R, name: &[u8], n: usize) -> bool {
    if TEXT <= n {
        return true;
    }
    let mut behind = [0u8; 1];
    match input.read(&mut behind) {
        Ok(0) => true,
        Ok(_) => {
            write_all(STDERR_FILENO, name);
            write_all(STDERR_FILENO, b": a read failed\n");
            false
        }
        Err(error) => {
            fail(name, error);
            false
        }
    }
}

// The line of the cards that an input holds; where it cannot be read no line, and why on standard error, under its name.
pub fn tell_cards<R: Read>(input: &mut R, name: &[u8]) {
    let mut text = [0u8; TEXT];
    let n = read_full(input, &mut text);
    if !is_read(input, name, n) {
        return;
    }
    run_cards(&text[..n]);
    write_all(STDOUT_FILENO, b"\n");
}
