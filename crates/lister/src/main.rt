// Reads cards on standard input through the card reader, and prints each line's number and bounds; before that, the same of some short texts [S Cards].
// Of each text: its name, a line for each of its lines, and how many they are. An empty text has none.
#![tactic(auto)]

ghost use Rattle.std.specs.Prelude.{◌≡◌, length};
ghost use Rattle.language.specs.Text.{lines};

use asm_reader::{line_at, line_behind};
use io::{print_decimal, read_full, write_all};

// The numbers of the streams of input and of output.
const STDIN_FILENO: i32 = 0;

const STDOUT_FILENO: i32 = 1;

fn tell(n: usize) {
    write_all(STDOUT_FILENO, b" ");
    print_decimal(STDOUT_FILENO, n as u64);
}

// A line's number, its first place, and the place behind its last.
fn tell_line(number: usize, start: usize, end: usize) {
    tell(number);
    tell(start);
    tell(end);
    write_all(STDOUT_FILENO, b"\n");
}

// Every line of a text, told; how many they are.
fn tell_lines(text: &[u8]) -> usize
    ensures { result ≡ length (lines text.now) }
{
    let mut number: usize = 0;
    let mut at: usize = 0;
    loop {
        let Some(line) = line_at(text, at) else {
            return number;
        };
        number += 1;
        tell_line(number, line.start, line.end);
        at = line_behind(text, at);
    }
}

fn tell_text(name: &[u8], text: &[u8]) {
    write_all(STDOUT_FILENO, name);
    write_all(STDOUT_FILENO, b"\n");
    let n = tell_lines(text);
    write_all(STDOUT_FILENO, b"lines");
    tell(n);
    write_all(STDOUT_FILENO, b"\n");
}

fn main() {
    tell_text(b"nothing", b"");
    tell_text(b"byte 10 alone", b"\n");
    tell_text(b"no byte 10", b"WTX");
    tell_text(b"a line ended", b"WTX\n");
    tell_text(b"the last lacks it", b"WTX\nEND");
    tell_text(b"empty lines", b"\n\nEND\n\n");
    let mut text = io::large_buffer();
    let n = read_full(STDIN_FILENO, &mut text);
    tell_text(b"standard input", &text[0..n]);
}
