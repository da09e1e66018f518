// The numbers that the host sees, in plain words [S Numbers the host sees], and the lines that tell of them.
#![tactic(auto)]

use console::lines::line_of;
use console::page::Page;
use console::word::word_in;
use std::io::Write;
use tool_forms::put_form;

// The refusal of another count of fresh words than the program's.
const FRESH_COUNT_OFF: u32 = 43;

// The digits in front of an answer's words, and the bytes with the blank behind them.
const DIGITS: usize = 2;

const FRONT: usize = 3;

// Whether a line begins with the number.
fn begins(line: &[u8], number: u32) -> bool {
    if line.len() < DIGITS {
        return false;
    }
    word_in(&line[..DIGITS]) == Some(number)
}

// The line of the text that begins with the number; line 0 where there is none.
fn row(answers: &[u8], number: u32) -> usize {
    (0..answers.len())
        .find(|k| begins(line_of(answers, *k), number))
        .unwrap_or(0)
}

// The words of a line.
fn words_in(line: &[u8]) -> &[u8] {
    if line.len() < FRONT {
        return b"";
    }
    &line[FRONT..]
}

fn put_found<W: Write>(
    page: &mut W,
    form: &[u8],
    text: &[u8],
    answers: &[u8],
    number: u32,
    numbers: &[u64],
) {
    let line = line_of(answers, row(answers, number));
    put_form(page, form, text, words_in(line), numbers);
}

// A message by its form, with the answer's words as its other text: why something was refused, or how a run ended.
pub fn put_answer<W: Write>(page: &mut W, form: &[u8], text: &[u8], number: u32, numbers: &[u64]) {
    put_found(
        page,
        form,
        text,
        b"00 the machine refuses
01 a byte, the line's length or a field is malformed
02 the operation is unknown, or not of this section
03 the label is missing, unwanted or used a second time
04 the operands' count, kind or range does not fit
05 a symbol is undefined, or the name has no supplied value
06 an exit or switch list, or a procedure unlike its declaration
07 a rule of the program's shape is broken
08 SEC or END is missing, section 4, 5 or 6 is empty, or a declared name has no place
09 the text is over 32,768 bytes, or the program over a limit
10 the table's room is short, or memory's length is unfit
20 waiting for the host at a call of an external procedure
21 the budget is used
22 an address past memory, or unaligned for a word
23 a write to a constant word
24 BRI or LEI on an address that is no entry, or LEI on an entry without a value
25 a switch value without an IFF, and no default
26 an exit was taken whose PPM has no label
27 a call with 256 calls open
28 SSS above the count of open calls
29 CVM or CVD of a positive number, or CVM of no digit
30 the table does not pass its check
31 the state does not pass its check
40 the file has no lawful trailer
41 the file is of another program or build
42 the frozen state does not pass its check
43 the count of fresh words is not the program's
44 the lent memory is not as long as the frozen one",
        number,
        numbers,
    );
}

// The message on standard error.
fn warn_answer(form: &[u8], text: &[u8], number: u32, numbers: &[u64]) {
    let mut page = Page::new();
    put_answer(&mut page, form, text, number, numbers);
    page.complain();
}

// A refusal: the file, the line of its cards, if there is one, the refusal's number and why.
pub fn refuse(path: &[u8], line: u64, number: u32) {
    if line == 0 {
        warn_answer(b"%: refused (#): $\n", path, number, &[number as u64]);
        return;
    }
    warn_answer(
        b"%:#: refused (#): $\n",
        path,
        number,
        &[line, number as u64],
    );
}

// The refusal of fresh words that are too few or too many.
pub fn refuse_count(path: &[u8], needed: usize, given: usize) {
    warn_answer(
        b"%: refused (#): $: # given, # needed\n",
        path,
        FRESH_COUNT_OFF,
        &[FRESH_COUNT_OFF as u64, given as u64, needed as u64],
    );
}

// The file of the cards, and the ending that stopped their program.
pub fn tell_stop(path: &[u8], number: u32) {
    warn_answer(
        b"%: the program was stopped (#): $\n",
        path,
        number,
        &[number as u64],
    );
}
