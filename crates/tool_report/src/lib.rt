// What a run left, as lines, over plain words: the table's, memory's and the 270 of a state. A run's answer has a number in its upper half and the steps in its
// lower; endings are told with what they left.
#![tactic(auto)]

use console::page::Page;
use ops::constants::Machine;
use std::rt::Env;
use tool_answers::put_answer;
use tool_arguments::{refuse, tell_stop};
use tool_forms::put_form;
use tool_fresh::Supply;
use tool_reals::put_ra;
use tool_shown::put_text;

// A number of 1 in the upper half of an answer, which is one number since C gets it so.
const UPPER: u64 = 4294967296;

// The first ending, the first that stops a program, and the first number behind the endings.
const ENDING: u64 = 20;

const STOP: u64 = 22;

const PAST_ENDING: u64 = 30;

// Where the words of a state stand, as `lent` has them: these are plain words, so that no crate of the machine is loaded here.
const XL: usize = 0;

const XR: usize = 1;

const XS: usize = 2;

const WA: usize = 3;

const WB: usize = 4;

const WC: usize = 5;

const IA: usize = 6;

const FLAG: usize = 7;

const PLACE: usize = 8;

const WAITING: usize = 9;

const COUNT: usize = 10;

const RA: usize = 267;

const RA_HIGH: usize = 268;

const REAL_FLAG: usize = 269;

// Words of a table's header and of an entry; the words of the header with the counts of entries and of fresh words; operand one's value in an entry.
const HEADER: usize = 8;

const ENTRY: usize = 8;

const SIZE: usize = 0;

const FRESH: usize = 3;

const VALUE: usize = 3;

// Whether an answer is a run's; a refusal is told of the file that argument i names.
pub fn has_run<E: Env>(rt: &E, i: usize, r: u64) -> bool {
    let number = r / UPPER;
    if ENDING <= number && number < PAST_ENDING {
        return true;
    }
    refuse(rt, i, 0, number as u32);
    false
}

// Whether a run's ending stopped the program.
pub fn is_stopped(r: u64) -> bool {
    STOP <= r / UPPER
}

// How many fresh words there were, and whose.
fn put_supply(page: &mut Page, supply: Supply, count: usize) {
    let whose = match supply {
        Supply::Nothing => return,
        Supply::System => b"from the system".as_slice(),
        Supply::Given => b"as given".as_slice(),
    };
    put_form(page, b"fresh words: #, $\n", b"", whose, &[count as u64]);
}

// A word's sign, a minus or nothing, and how far from 0 the word is, read as signed.
fn sign(w: u32) -> &'static [u8] {
    if w <= Machine::CFP_M { b"" } else { b"-" }
}

fn size(w: u32) -> u64 {
    if w <= Machine::CFP_M {
        return w as u64;
    }
    UPPER - w as u64
}

// Word i, if there is one.
fn word_at(words: &[u32], i: usize) -> u32 {
    words.get(i).copied().unwrap_or(0)
}

// The same, as a number of a form.
fn told(words: &[u32], i: usize) -> u64 {
    word_at(words, i) as u64
}

// The ending, the steps, the place, the open calls and the registers.
fn put_ended(page: &mut Page, number: u32, steps: u64, state: &[u32]) {
    let ia = word_at(state, IA);
    put_answer(
        page,
        b"ended #: $
steps #, place #, open calls #
XL #, XR #, XS #, WA #, WB #, WC #, IA %#, overflow #
",
        sign(ia),
        number,
        &[
            number as u64,
            steps,
            told(state, PLACE),
            told(state, COUNT),
            told(state, XL),
            told(state, XR),
            told(state, XS),
            told(state, WA),
            told(state, WB),
            told(state, WC),
            size(ia),
            told(state, FLAG),
        ],
    );
}

// RA and its flag.
fn put_real_part(page: &mut Page, state: &[u32]) {
    put_ra(
        page,
        word_at(state, RA),
        word_at(state, RA_HIGH),
        word_at(state, REAL_FLAG),
    );
}

// The EXP that the JSR at place pc calls.
fn external(table: &[u32], pc: u32) -> u32 {
    word_at(table, HEADER + ENTRY * pc as usize + VALUE)
}

// How many exits an EXP declares.
fn exits(table: &[u32], number: u32) -> u32 {
    let n = word_at(table, SIZE) as usize;
    let fresh = word_at(table, FRESH) as usize;
    word_at(table, HEADER + ENTRY * n + fresh + number as usize)
}

// The EXP that the machine waits in.
fn put_external(page: &mut Page, table: &[u32], number: u32) {
    put_form(
        page,
        b"waits in EXP #, exits #\n",
        b"",
        b"",
        &[number as u64, exits(table, number) as u64],
    );
}

// What the machine waits for: the EXP, and the text that XL and WA name.
fn put_waiting(page: &mut Page, table: &[u32], memory: &[u32], state: &[u32]) {
    if word_at(state, WAITING) != 1 {
        return;
    }
    put_external(page, table, external(table, word_at(state, PLACE)));
    let a = word_at(state, XL);
    let n = word_at(state, WA);
    put_text(page, memory, a as usize, n as usize);
}

// A run's answer, what it left, and how many fresh words there were, and whose.
#[derive(Clone, Copy)]
pub struct Run<'a> {
    pub supply: Supply,
    pub fresh: usize,
    pub table: &'a [u32],
    pub memory: &'a [u32],
    pub state: &'a [u32],
    pub answer: u64,
}

// All of it. How the fresh words came stands first, what the machine waits for last.
fn put_run(page: &mut Page, run: Run) {
    put_supply(page, run.supply, run.fresh);
    put_ended(
        page,
        (run.answer / UPPER) as u32,
        run.answer % UPPER,
        run.state,
    );
    put_real_part(page, run.state);
    put_waiting(page, run.table, run.memory, run.state);
}

// The run's report on standard output, and a line on standard error if the program was stopped.
pub fn tell_run<R: Env + Print>(rt: &R, run: Run) {
    let mut page = Page::new();
    put_run(&mut page, run);
    page.show(rt);
    if is_stopped(run.answer) {
        tell_stop(rt, (run.answer / UPPER) as u32);
    }
}
