// The arguments that are paths of files. Once a command's paths are seen to be there, a file goes by the number of its argument.
#![tactic(auto)]

ghost use Rattle.std.specs.Prelude.{IfSome};
ghost use Rattle.io.specs.Counts.{IsPrefixLen};

pub mod sizes;

use console::stream::Argument;
use std::random::RandomSource;
use std::rt::{Env, Files};

// The arguments with a command's first file, the cards of those that have any, and with its second.
pub const FIRST: usize = 2;

pub const SECOND: usize = 3;

// The file that argument i names, as `tool_files::read_file` reads it.
pub fn read_file<R: Env + Files>(rt: &R, i: usize, room: &mut [u8]) -> Option<usize>
    ensures { IfSome result (λ n. IsPrefixLen n room.new) }
{
    let path = Argument::of(rt, i);
    tool_files::read_file(rt, path.text(), room)
}

// The bytes as that file, as `tool_files::write_file` writes it.
pub fn write_file<R: Env + Files + RandomSource>(rt: &R, i: usize, bytes: &[u8]) -> bool {
    let path = Argument::of(rt, i);
    tool_files::write_file(rt, path.text(), bytes)
}

// A line on standard error: that file, and what is wrong with it.
pub fn tell<E: Env>(rt: &E, i: usize, what: &[u8]) {
    let path = Argument::of(rt, i);
    tool_files::tell(path.text(), what);
}

// A line on standard output by its form, with that file's path as its text.
pub fn say<R: Env + Print>(rt: &R, i: usize, form: &[u8], other: &[u8], numbers: &[u64]) {
    let path = Argument::of(rt, i);
    tool_forms::say(rt, form, path.text(), other, numbers);
}

// A refusal of that file, with the line of its cards, if there is one.
pub fn refuse<E: Env>(rt: &E, i: usize, line: u64, number: u32) {
    let path = Argument::of(rt, i);
    tool_answers::refuse(path.text(), line, number);
}

// The refusal of fresh words that are too few or too many for the cards.
pub fn refuse_count<E: Env>(rt: &E, needed: usize, given: usize) {
    let path = Argument::of(rt, FIRST);
    tool_answers::refuse_count(path.text(), needed, given);
}

// The ending that stopped the program of the cards.
pub fn tell_stop<E: Env>(rt: &E, number: u32) {
    let path = Argument::of(rt, FIRST);
    tool_answers::tell_stop(path.text(), number);
}
