// Cards and tables in files. A table's file holds its words, four bytes each, the low byte first, as a snapshot holds its own.
use assembler::{MAX_BYTES, MAX_TABLE};
use host::cards::torzimlak_assemble;
use host::torzimlak_check_table;
use host_numbers::UPPER;
use loading::WORD;
use snap_core::copy::{read_words, write_words};
use std::random::RandomSource;
use std::rt::{Env, Files};
use tool_arguments::sizes::{is_table, tell_table};
use tool_arguments::{FIRST, SECOND, read_file, refuse, write_file};

// One byte more than cards may have, so that a longer text is seen to be too long by the assembler.
const TEXT: usize = MAX_BYTES + 1;

// The bytes of the longest table.
const BYTES: usize = WORD * MAX_TABLE;

// The table of the cards at the front of the room: its length; nothing where they cannot be read or are refused, which is told.
pub fn assemble_cards<R: Env + Files>(rt: &R, room: &mut [u32]) -> Option<usize> {
    let mut text = [0u8; TEXT];
    let n = read_file(rt, FIRST, &mut text)?;
    let r = torzimlak_assemble(&text[..n], room);
    if r < UPPER {
        return Some(r as usize);
    }
    refuse(rt, FIRST, r % UPPER, (r / UPPER) as u32);
    None
}

// The command `assemble CARDS TABLE`.
pub fn on_assemble<R: Env + Files + Print + RandomSource>(rt: &R) {
    let mut room = [0u32; MAX_TABLE];
    let Some(n) = assemble_cards(rt, &mut room) else {
        return;
    };
    if MAX_TABLE < n {
        return;
    }
    write_table(rt, &room[..n]);
}

// The table as a file.
fn write_table<R: Env + Files + Print + RandomSource>(rt: &R, table: &[u32]) {
    if MAX_TABLE < table.len() {
        return;
    }
    let mut bytes = [0u8; BYTES];
    write_words(&mut bytes, 0, table);
    if write_file(rt, SECOND, &bytes[0..WORD * table.len()]) {
        tell_table(rt, SECOND, b": ", table);
    }
}

// The command `check TABLE`.
pub fn on_check<R: Env + Files + Print>(rt: &R) {
    let mut bytes = [0u8; BYTES + 1];
    let Some(n) = read_file(rt, FIRST, &mut bytes) else {
        return;
    };
    if is_table(rt, n, BYTES) {
        check_bytes(rt, &bytes[..n]);
    }
}

// Whether the words that the bytes hold are a lawful table.
fn check_bytes<R: Env + Print>(rt: &R, bytes: &[u8]) {
    let n = bytes.len();
    if BYTES < n {
        return;
    }
    let k = n / WORD;
    let mut room = [0u32; MAX_TABLE];
    check_in(rt, bytes, &mut room[0..k]);
}

fn check_in<R: Env + Print>(rt: &R, bytes: &[u8], room: &mut [u32]) {
    let n = room.len();
    if MAX_TABLE < n {
        return;
    }
    if bytes.len() < WORD * n {
        return;
    }
    read_words(bytes, 0, room);
    check_words(rt, room);
}

fn check_words<R: Env + Print>(rt: &R, table: &[u32]) {
    let number = torzimlak_check_table(table);
    if number != 0 {
        refuse(rt, FIRST, 0, number);
        return;
    }
    tell_table(rt, FIRST, b": lawful, ", table);
}
