// The files that the arguments name, a line for each. Of an example: its name and what the trial prints; of a deck: its name, then 0 and the length
// of its table, or the number and the line of its refusal [S Numbers the host sees]; of a reference run what references.rt says.
ghost use Rattle.io.specs.Counts.{IsPrefixLen};

use super::references::tell_reference;
use super::telling::{end_line, say};
use assembler::{MAX_TABLE, Refusal, assemble, line, number};
use console::stream::{arg_count, fail, open_read, read_full, whole_arg};
use report::{run_cards, tell};
use std::rt::{Env, Files};

// The bytes of a file at the front of the room; how many they are. None, and the failure told, where it cannot be opened. A text that fills the room is
// too long in any case.
fn read_file<R: Files>(rt: &R, path: &[u8], room: &mut [u8]) -> usize
    ensures { IsPrefixLen result room.new }
{
    match open_read(rt, path) {
        Ok(mut file) => read_full(&mut file, room),
        Err(error) => {
            fail(path, error);
            0
        }
    }
}

// The table's length, or the refusal's line.
fn detail(a: Result<u32, Refusal>) -> u32 {
    match a {
        Ok(n) => n,
        Err(_) => line(a),
    }
}

// The line of a deck.
fn tell_deck(name: &[u8], text: &[u8]) {
    let mut table = [0u32; MAX_TABLE];
    let a = assemble(text, &mut table);
    say(name);
    tell(number(a));
    tell(detail(a));
}

// The folders, one for each part.
#[derive(Clone, Copy)]
pub enum Folder {
    Examples,
    Decks,
    References,
}

impl Folder {
    // How a path in the folder begins.
    fn front(self) -> &'static [u8] {
        match self {
            Folder::Examples => b"examples/",
            Folder::Decks => b"decks/",
            Folder::References => b"references/",
        }
    }
}

// The line of a file in a folder.
fn tell_text(folder: Folder, name: &[u8], text: &[u8]) {
    match folder {
        Folder::Decks => tell_deck(name, text),
        Folder::References => tell_reference(text),
        Folder::Examples => {
            say(name);
            say(b" ");
            run_cards(text);
        }
    }
    end_line();
}

// The line of the file at a path, if it begins with the folder's first letter and goes on behind the folder's name.
fn tell_file<R: Files>(rt: &R, folder: Folder, path: &[u8]) {
    let front = folder.front();
    if path.first() != front.first() || path.len() <= front.len() {
        return;
    }
    let mut text = io::large_buffer();
    let n = read_file(rt, path, &mut text);
    tell_text(folder, &path[front.len()..], &text[..n]);
}

fn on_argument<R: Env + Files>(rt: &R, folder: Folder, i: usize) {
    let mut path = io::buffer();
    match whole_arg(rt, i, &mut path) {
        Ok(n) => tell_file(rt, folder, &path[..n]),
        Err(error) => fail(b"argument", error),
    }
}

// The lines of a folder's files, in the order of the arguments.
pub fn each_file<R: Env + Files>(rt: &R, folder: Folder) {
    for i in 1..arg_count(rt) {
        on_argument(rt, folder, i);
    }
}
