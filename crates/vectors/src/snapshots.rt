// Freezes two machines, wakes them, and damages their files: what the writer and restore answer, a line each; then how often each number was answered.
use super::damage::{BUILD, FRONT, Frozen, LONGEST, MEMORY, ROOM, damage};
use super::machines::{called_words, reference_table, sample_table, waiting_words};
use super::telling::{Tally, tell_words, told};
use host::{torzimlak_restore, torzimlak_write};
use host_numbers::UPPER;
use lent::{RA_HIGH, RA_LOW, REAL_FLAG, WORDS};

// A machine: its table, its memory and the words of its state.
#[derive(Clone, Copy)]
struct Parts<'a> {
    table: &'a [u32],
    memory: &'a [u32],
    state: &'a [u32],
}

// The writer's answer, told.
fn tell_written(name: &[u8], r: u64) -> Option<u32> {
    told(name, (r % UPPER) as u32, Some((r / UPPER) as u32))
}

// What the writer answers with room of len bytes.
fn written(name: &[u8], parts: Parts, len: usize) -> Option<u32> {
    if ROOM < len {
        return None;
    }
    let mut room = [0u8; ROOM];
    let r = torzimlak_write(
        parts.table,
        parts.memory,
        parts.state,
        BUILD,
        &mut room[..len],
    );
    tell_written(name, r)
}

// All words but the first.
fn rest(words: &[u32]) -> &[u32] {
    words.get(1..).unwrap_or(&[])
}

// What the writer, which needs len bytes, answers with one more, and with one byte or word less than it needs.
fn spoil(parts: Parts, len: usize, tally: &mut Tally) {
    let Parts {
        table,
        memory,
        state,
    } = parts;
    tally.count(written(b"room long", parts, len.saturating_add(1)));
    tally.count(written(b"room short", parts, len.saturating_sub(1)));
    let table_short = Parts {
        table: rest(table),
        memory,
        state,
    };
    tally.count(written(b"table short", table_short, len));
    let memory_short = Parts {
        table,
        memory: rest(memory),
        state,
    };
    tally.count(written(b"memory short", memory_short, len));
    let state_short = Parts {
        table,
        memory,
        state: rest(state),
    };
    tally.count(written(b"state short", state_short, len));
}

// RA's two words and its flag.
fn tell_reals(state: &[u32; WORDS]) {
    tell_words(b"RA", &[state[RA_LOW], state[RA_HIGH], state[REAL_FLAG]]);
}

// The file of n bytes in its room, woken as it is with k fresh words: the first words of the state and of memory, and the answer.
fn wake(table: &[u32], room: &[u8; ROOM], n: usize, k: usize) -> Option<u32> {
    if LONGEST < n || 1 < k {
        return None;
    }
    let fresh = [9u32; 1];
    let mut memory = [7u32; MEMORY];
    let mut state = [5u32; WORDS];
    let number = torzimlak_restore(
        table,
        &room[FRONT..FRONT + n],
        BUILD,
        &fresh[..k],
        &mut memory,
        &mut state,
    );
    tell_words(b"state", &state[..16]);
    tell_reals(&state);
    tell_words(b"memory", &memory[..4]);
    told(b"woken", 0, Some(number))
}

// One machine, whose words of memory are all alike and whose table has k fresh words: frozen and woken, and its file damaged.
fn freeze(
    tally: &mut Tally,
    name: &[u8],
    table: &[u32],
    word: u32,
    state: &[u32; WORDS],
    k: usize,
) {
    let memory = [word; MEMORY];
    let mut room = [9u8; ROOM];
    let r = torzimlak_write(table, &memory, state, BUILD, &mut room[FRONT..ROOM]);
    tally.count(tell_written(name, r));
    let n = (r % UPPER) as usize;
    let parts = Parts {
        table,
        memory: &memory,
        state,
    };
    spoil(parts, n, tally);
    tally.count(wake(table, &room, n, k));
    if let Some(file) = Frozen::new(table, &room, n, k) {
        damage(file, tally);
    }
}

pub fn tell_snapshots() {
    let mut tally = Tally::new();
    let reference = reference_table();
    let waiting = waiting_words();
    freeze(&mut tally, b"reference", &reference, 0, &waiting, 0);
    let sample = sample_table();
    let called = called_words();
    freeze(&mut tally, b"sample", &sample, 11, &called, 1);
    tally.tell();
}
