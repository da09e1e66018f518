// The command line: which command is asked for, whether it has the arguments that it takes, help, and what is said of wrong use.
#![tactic(auto)]

use console::stream::{Argument, arg_count, fail, whole_arg};
use std::rt::Env;
use tool_files::tell;
use tool_forms::{say, warn};

// What is asked for.
#[derive(Clone, Copy)]
pub enum Task {
    Assemble,
    Check,
    Machine(Work),
    Operations,
}

// What is done with a machine.
#[derive(Clone, Copy)]
pub enum Work {
    Run,
    Freeze,
    Wake,
}

fn help<P: Print>(rt: &P) {
    say(
        rt,
        b"$",
        b"",
        b"usage:
  torzimlak assemble CARDS TABLE              cards become a table
  torzimlak check TABLE                       whether the table is lawful
  torzimlak run CARDS [WORD ...]              runs the program, and says how it ended
  torzimlak freeze CARDS SNAPSHOT [WORD ...]  runs it, and writes the machine to a file
  torzimlak wake CARDS SNAPSHOT [WORD ...]    wakes the machine, and runs on
  torzimlak operations [MNEMONIC]             lists the operations, or shows one
  torzimlak help                              shows this

CARDS have at most 32,768 bytes. A TABLE holds words of 4 bytes, the low byte first.
A program starts in 8,192 words of zeros with 0 in WA; a run has up to 1,000,000 steps.
WORDs are its fresh words, in decimal: all of them, or none, and the system draws them.
Where it waits in an EXP, WA characters from XL on are shown; wake answers with no exit.
A program that was stopped (22 to 29) is not frozen. The build number is 1.
What fails is told on standard error, with exit status 1. A file is written whole or not at all.
",
        &[],
    );
}

// A command that is none, or has other arguments than it takes; what each takes.
fn misuse(why: &[u8]) {
    warn(b"torzimlak: $; see 'torzimlak help'\n", b"", why, &[]);
}

// What may stand behind the files of a command.
#[derive(Clone, Copy)]
enum Rest {
    Nothing,
    Mnemonic,
    Words,
}

// A command: the task that it asks for, the names of its files, what may stand behind them, and what is said where it has other arguments.
#[derive(Clone, Copy)]
struct Command {
    task: Task,
    files: &'static [&'static [u8]],
    rest: Rest,
    usage: &'static [u8],
}

// The command of this name.
fn command_of(name: &[u8]) -> Option<Command> {
    match name {
        b"assemble" => Some(Command {
            task: Task::Assemble,
            files: &[b"CARDS", b"TABLE"],
            rest: Rest::Nothing,
            usage: b"assemble takes CARDS and TABLE",
        }),
        b"check" => Some(Command {
            task: Task::Check,
            files: &[b"TABLE"],
            rest: Rest::Nothing,
            usage: b"check takes TABLE",
        }),
        b"run" => Some(Command {
            task: Task::Machine(Work::Run),
            files: &[b"CARDS"],
            rest: Rest::Words,
            usage: b"run takes CARDS, then fresh words",
        }),
        b"freeze" => Some(Command {
            task: Task::Machine(Work::Freeze),
            files: &[b"CARDS", b"SNAPSHOT"],
            rest: Rest::Words,
            usage: b"freeze takes CARDS and SNAPSHOT, then fresh words",
        }),
        b"wake" => Some(Command {
            task: Task::Machine(Work::Wake),
            files: &[b"CARDS", b"SNAPSHOT"],
            rest: Rest::Words,
            usage: b"wake takes CARDS and SNAPSHOT, then fresh words",
        }),
        b"operations" => Some(Command {
            task: Task::Operations,
            files: &[],
            rest: Rest::Mnemonic,
            usage: b"operations takes nothing, or a MNEMONIC",
        }),
        _ => None,
    }
}

// Whether a command takes so many arguments, the program's name and its own among them.
fn takes(command: Command, count: usize) -> bool {
    let least = command.files.len() + 2;
    match command.rest {
        Rest::Nothing => count == least,
        Rest::Mnemonic => count == least || count == least + 1,
        Rest::Words => least <= count,
    }
}

// Whether argument i can be a path; one that is empty or too long is told of under its name.
fn has_path<E: Env>(rt: &E, i: usize, name: &[u8]) -> bool {
    let mut room = io::buffer();
    match whole_arg(rt, i, &mut room) {
        Ok(0) => {
            tell(name, b"the name of the file is empty");
            false
        }
        Ok(_) => true,
        Err(error) => {
            fail(name, error);
            false
        }
    }
}

// Whether the arguments for files can be paths; the first that cannot is told under its name.
fn has_files<E: Env>(rt: &E, files: &[&[u8]]) -> bool {
    for (i, name) in files.iter().enumerate() {
        if !has_path(rt, i + 2, *name) {
            return false;
        }
    }
    true
}

// The task of the command of this name, if it has the arguments that it takes; what is wrong is told.
fn judged<E: Env>(rt: &E, name: &[u8], count: usize) -> Option<Task> {
    let Some(command) = command_of(name) else {
        misuse(b"there is no such command");
        return None;
    };
    if !takes(command, count) {
        misuse(command.usage);
        return None;
    }
    if has_files(rt, command.files) {
        return Some(command.task);
    }
    None
}

fn is_help(name: &[u8]) -> bool {
    matches!(name, b"help" | b"--help" | b"-h")
}

// The task that the arguments ask for; nothing where that is done already: help, or what was told.
pub fn asked<R: Env + Print>(rt: &R) -> Option<Task> {
    let count = arg_count(rt);
    let name = Argument::of(rt, 1);
    if count < 2 || is_help(name.text()) {
        help(rt);
        return None;
    }
    judged(rt, name.text(), count)
}
