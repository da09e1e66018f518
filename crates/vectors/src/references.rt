// The eight reference runs through the compiled code, a line for each case [S Reference runs]. A case is a deck whose first card, a comment, is its name.
// Of an operation: its name, the ending, steps, place, WA, WB and IA. It stands at place 0; it goes on at place 1, and branches to place 2. The deck's last
// three working words are WA, WB and IA before the step. Of the text, case 8: its name, the assembler's number, its words.
use super::telling::say;
use asm_text::{NEWLINE, find_byte};
use host::cards::torzimlak_assemble;
use host::{torzimlak_run, torzimlak_start};
use host_numbers::UPPER;
use lent::{IA, PLACE, WA, WB, WORDS};
use ops::constants::Machine;
use report::{tell, tell_signed};

// Words of memory.
const MEMORY: usize = Machine::MIN_MEMORY;

// Words for a small table.
const ROOM: usize = 64;

// Where a name begins on its card.
const NAME: usize = 2;

// The answer of a run, and what it leaves.
fn tell_run(r: u64, state: &[u32; WORDS]) {
    tell((r / UPPER) as u32);
    tell((r % UPPER) as u32);
    tell(state[PLACE]);
    tell(state[WA]);
    tell(state[WB]);
    tell_signed(state[IA]);
}

// One step of the table's first operation with these registers.
fn tell_step(table: &[u32], wa: u32, wb: u32, ia: u32) {
    let mut memory = [0u32; MEMORY];
    let mut state = [0u32; WORDS];
    let started = torzimlak_start(table, &mut memory, &[], 0, &mut state);
    if started != 0 {
        tell(started);
    }
    state[WA] = wa;
    state[WB] = wb;
    state[IA] = ia;
    let r = torzimlak_run(table, &mut memory, &mut state, 1);
    tell_run(r, &state);
}

// The table: the words of its text, or the step of its operation.
fn tell_table(table: &[u32], text: bool) {
    let [.., a, b, c] = table else {
        return;
    };
    if text {
        tell(*b);
        tell(*c);
    } else {
        tell_step(table, *a, *b, *c);
    }
}

// The name on the first card.
fn tell_name(cards: &[u8]) {
    let end = find_byte(cards, 0, NEWLINE);
    if let Some(name) = cards.get(NAME..end) {
        say(name);
    }
}

// The line of a case, without its end.
pub fn tell_reference(cards: &[u8]) {
    let Some(first) = cards.get(NAME) else {
        return;
    };
    tell_name(cards);
    let text = *first == b'8';
    let mut room = [0u32; ROOM];
    let r = torzimlak_assemble(cards, &mut room);
    if text {
        tell((r / UPPER) as u32);
    }
    if let Some(table) = room.get(..(r % UPPER) as usize) {
        tell_table(table, text);
    }
}
