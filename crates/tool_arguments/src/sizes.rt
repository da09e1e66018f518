// Sizes of files, and of the tables and snapshots in them.
use crate::{FIRST, SECOND, say, tell};
use std::rt::Env;

// Bytes of a word, and the word of a table's header with its count of entries.
const WORD: usize = 4;

const SIZE: usize = 0;

// Whether the first file, which was read to n bytes, can be a table, which has most bytes; what cannot be is told.
pub fn is_table<E: Env>(rt: &E, n: usize, most: usize) -> bool {
    if n == 0 {
        return false;
    }
    if most < n {
        tell(rt, FIRST, b"the file is longer than any table");
        return false;
    }
    if n % WORD != 0 {
        tell(
            rt,
            FIRST,
            b"the file's length is no multiple of 4 bytes, so it holds no table",
        );
        return false;
    }
    true
}

// Whether the second file, which was read to n bytes, can be a snapshot, which has most bytes; what cannot be is told.
pub fn is_snapshot<E: Env>(rt: &E, n: usize, most: usize) -> bool {
    if most < n {
        tell(rt, SECOND, b"the file is longer than any snapshot");
        return false;
    }
    0 < n
}

// How many operations a table has.
fn operations(table: &[u32]) -> u32 {
    table.get(SIZE).copied().unwrap_or(0)
}

// The size of the table that the file of argument i holds.
pub fn tell_table<R: Env + Print>(rt: &R, i: usize, middle: &[u8], table: &[u32]) {
    let numbers = [table.len() as u64, operations(table) as u64];
    say(rt, i, b"%$# words, # operations\n", middle, &numbers);
}

// The length of the snapshot in the second file.
pub fn tell_snapshot<R: Env + Print>(rt: &R, n: usize) {
    say(rt, SECOND, b"%: # bytes\n", b"", &[n as u64]);
}
