// The text that a machine shows while it waits.
#![tactic(auto)]

ghost use Rattle.io.specs.Counts.{IsPrefixLen};

use asm_text::all_printed;
use console::page::Page;
use ops::constants::Machine;
use tool_forms::put_form;
use words::bytes_of;

// Bytes of a word, and of the longest memory.
const WORD: usize = Machine::CFP_B as usize;

const BYTES: usize = WORD * Machine::MAX_MEMORY;

// The n characters from address a on at the front of the room: how many there are, 0 where they do not all lie in memory.
fn take_text(memory: &[u32], a: usize, n: usize, room: &mut [u8]) -> usize
    ensures { IsPrefixLen result room.new }
{
    if Machine::MAX_MEMORY < memory.len() {
        return 0;
    }
    let most = WORD * memory.len();
    if most < a {
        return 0;
    }
    if most - a < n {
        return 0;
    }
    if room.len() < n {
        return 0;
    }
    for i in 0..n {
        let at = a + i;
        let four = bytes_of(memory[at / WORD]);
        room[i] = four[at % WORD];
    }
    n
}

// The text, if it has characters that can all be printed.
fn put_printed(page: &mut Page, text: &[u8]) {
    if !text.is_empty() && all_printed(text) {
        put_form(page, b"text: $\n", b"", text, &[]);
    }
}

// The n characters from address a on, if they lie in memory and can be printed.
pub fn put_text(page: &mut Page, memory: &[u32], a: usize, n: usize) {
    let mut room = [0u8; BYTES];
    let k = take_text(memory, a, n, &mut room);
    put_printed(page, &room[..k]);
}
