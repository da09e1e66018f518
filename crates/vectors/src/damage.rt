// A file damaged in many ways, and what restore answers to each: a line, and its number. The file lies between other bytes, so that the parts of it, and
// more than it, are parts of the room.
ghost use Rattle.std.specs.Prelude.{◌≤◌};

use super::telling::{Tally, tell_size, told};
use host::torzimlak_restore;
use lent::WORDS;
use ops::constants::Machine;
use words::bytes_of;

// The build number of the files, the words of memory of the machines and the most there are, the bytes of a trailer.
pub const BUILD: u32 = 7;

pub const MEMORY: usize = 256;

const MOST: usize = Machine::MAX_MEMORY;

const TRAILER: usize = 76;

// The most fresh words that are supplied.
const SUPPLY: usize = 255;

// How many other bytes stand before the file and behind it, and the most bytes that the file has.
pub const FRONT: usize = 500;

pub const LONGEST: usize = 1112;

pub const ROOM: usize = FRONT + LONGEST + FRONT;

// Distances from the borders of a file: from its first byte, and from its end.
const FROM_FIRST: [usize; 7] = [0, 1, 4, 63, 64, 65, 68];

const FROM_END: [usize; 10] = [1024, 77, 76, 75, 65, 64, 63, 4, 1, 0];

// How many bytes of others are tried.
const MORE: [u32; 5] = [1, 4, 63, 64, 500];

// Words that a file may hold in place of one of its own: counts at their limits and near 2^32, high words of the largest real and of an infinity.
const ODD_WORDS: [u32; 15] = [
    0, 1, 2, 3, 255, 257, 8192, 8193, 1073741824, 1073742080, 2146435071, 2146435072, 2147483648,
    4294967294, 4294967295,
];

// How many places of the file get odd words.
const PLACES: usize = 24;

// A machine's file in its room, with the machine's table and how many fresh words it has.
#[derive(Clone, Copy)]
pub struct Frozen<'a> {
    table: &'a [u32],
    room: &'a [u8; ROOM],
    len: usize,
    fresh: usize,
    ghost short: { len ≤ 1112 },
}

impl<'a> Frozen<'a> {
    // The file of so many bytes, if it is no longer than the longest.
    pub fn new(
        table: &'a [u32],
        room: &'a [u8; ROOM],
        len: usize,
        fresh: usize,
    ) -> Option<Frozen<'a>> {
        if LONGEST < len {
            return None;
        }
        Some(Frozen {
            table,
            room,
            len,
            fresh,
        })
    }
}

// The number that restore answers to a file with a build number, so many fresh words and memory of so many words, if there can be so many.
fn woken(table: &[u32], file: &[u8], build: u32, supply: usize, memory: usize) -> Option<u32> {
    if MOST < memory || SUPPLY < supply {
        return None;
    }
    let fresh = [1u32; SUPPLY];
    let mut lent = [7u32; MOST];
    let mut state = [5u32; WORDS];
    Some(torzimlak_restore(
        table,
        file,
        build,
        &fresh[..supply],
        &mut lent[..memory],
        &mut state,
    ))
}

// The number that restore answers to len bytes of a room from a place on, with the file's own build number, fresh words and length of memory.
fn part(file: Frozen, room: &[u8; ROOM], from: usize, len: usize) -> Option<u32> {
    let bytes = room.get(from..)?.get(..len)?;
    woken(file.table, bytes, BUILD, file.fresh, MEMORY)
}

// The first bytes of the file alone, and the last, to a border.
fn first_bytes(file: Frozen, size: usize) -> Option<u32> {
    if file.len < size {
        return None;
    }
    told(
        b"first bytes",
        size as u32,
        part(file, file.room, FRONT, size),
    )
}

fn last_bytes(file: Frozen, size: usize) -> Option<u32> {
    if file.len < size {
        return None;
    }
    let from = FRONT + file.len - size;
    told(
        b"last bytes",
        size as u32,
        part(file, file.room, from, size),
    )
}

// Both, counted.
fn cut(file: Frozen, size: usize, tally: &mut Tally) {
    tally.count(first_bytes(file, size));
    tally.count(last_bytes(file, size));
}

// Bytes of others in front and behind.
fn more_in_front(file: Frozen, size: u32) -> Option<u32> {
    let more = size as usize;
    let from = FRONT.checked_sub(more)?;
    told(
        b"more in front",
        size,
        part(file, file.room, from, file.len + more),
    )
}

fn more_behind(file: Frozen, size: u32) -> Option<u32> {
    let more = size as usize;
    told(
        b"more behind",
        size,
        part(file, file.room, FRONT, file.len + more),
    )
}

// The file's own bytes.
fn bytes_in(room: &[u8; ROOM], len: usize) -> Option<&[u8]> {
    room.get(FRONT..)?.get(..len)
}

// The file with another build number, length of memory and count of fresh words than its own: an odd word, if it can be one.
fn other_build(file: Frozen, w: u32) -> Option<u32> {
    let bytes = bytes_in(file.room, file.len)?;
    told(b"build", w, woken(file.table, bytes, w, file.fresh, MEMORY))
}

fn other_memory(file: Frozen, w: u32) -> Option<u32> {
    let bytes = bytes_in(file.room, file.len)?;
    told(
        b"memory",
        w,
        woken(file.table, bytes, BUILD, file.fresh, w as usize),
    )
}

fn other_supply(file: Frozen, w: u32) -> Option<u32> {
    let bytes = bytes_in(file.room, file.len)?;
    told(
        b"fresh words",
        w,
        woken(file.table, bytes, BUILD, w as usize, MEMORY),
    )
}

// The room with other bytes from a place on, if they lie in it.
fn changed(room: &[u8; ROOM], at: usize, bytes: &[u8]) -> Option<[u8; ROOM]> {
    let mut changed = *room;
    changed
        .get_mut(at..)?
        .get_mut(..bytes.len())?
        .copy_from_slice(bytes);
    Some(changed)
}

// Byte j of the trailer, one more than it was.
fn trailer_byte(file: Frozen, j: u32) -> Option<u32> {
    let room = file.room;
    let at = (FRONT + file.len).checked_sub(TRAILER)? + j as usize;
    let byte = room.get(at)?.wrapping_add(1);
    let room = changed(room, at, &[byte])?;
    told(b"trailer byte", j, part(file, &room, FRONT, file.len))
}

// Where a word is changed, counted back from the end: the words of the trailer and the three before it, of the sample its links and its fresh address;
// then the first two words of memory, of which the second is the sample's fresh word.
fn word_place(n: usize, i: usize) -> usize {
    match i {
        0..22 => 4 * i + 4,
        22 => n,
        _ => n.saturating_sub(4),
    }
}

// The file with an odd word at a place that is counted back from its end.
fn other_word(file: Frozen, back: usize, w: u32) -> Option<u32> {
    let at = (FRONT + file.len).checked_sub(back)?;
    let room = changed(file.room, at, &bytes_of(w))?;
    told(b"as", w, part(file, &room, FRONT, file.len))
}

// A word of the file, in place of which each odd word is tried. The place is told first.
fn other_words(file: Frozen, back: usize, tally: &mut Tally) {
    if file.len < back {
        return;
    }
    tell_size(b"word before the end", back as u32);
    for w in ODD_WORDS {
        tally.count(other_word(file, back, w));
    }
}

// All damages, sort by sort, counted.
pub fn damage(file: Frozen, tally: &mut Tally) {
    for size in FROM_FIRST {
        cut(file, size, tally);
    }
    for distance in FROM_END {
        cut(file, file.len.saturating_sub(distance), tally);
    }
    for size in MORE {
        tally.count(more_in_front(file, size));
        tally.count(more_behind(file, size));
    }
    for w in ODD_WORDS {
        tally.count(other_build(file, w));
        tally.count(other_memory(file, w));
        tally.count(other_supply(file, w));
    }
    for j in 0..TRAILER as u32 {
        tally.count(trailer_byte(file, j));
    }
    for i in 0..PLACES {
        other_words(file, word_place(file.len, i), tally);
    }
}
