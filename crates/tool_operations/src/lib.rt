// The operation table as the paper's list has it [M section 8]: number, mnemonic, a star where the last operand may be left out, operands.
#![tactic(auto)]

ghost use Rattle.std.specs.Prelude.{◌<◌};

use console::lines::line_of;
use console::page::Sheet;
use op_table::{find_letters, rows};
use ops::cells::*;
use ops::table::{CELLS, CLASS, ITEM, LETTERS, ONE, SECTION, THREE, TWO};
use std::fmt::Write;

// The rows' lines: all 106 have 1,743 bytes.
type Lines = Sheet<4096>;

// What stands for the text of ERR and ERB, past the codes of the formats.
const TEXT: u8 = 27;

// How many operands a card may write: those of its entry, one before them, and a text.
const OPERANDS: usize = 5;

// An operand, behind a comma if it is not the first: line k of the text has the name of the format of code k, and nothing for NONE. A format that
// may be left out, takes no (X)+ or counts to 32 has the name of the other. Answers whether one is there now.
fn put_operand(page: &mut Lines, is_behind: bool, code: u8) -> bool {
    let name = line_of(
        b"
OPV
OPN
OPW
OPS
OPC
REG
X
W
VAL
INT
VAL
PLBL
PNAM
GLBL
PTYP
EQOP
ADDR
INTEGER
REAL
OPV
VAL
INT
PLBL
OPV
OPN
OPW
TEXT",
        code as usize,
    );
    if name.is_empty() {
        return is_behind;
    }
    if is_behind {
        page.put(b",");
    }
    page.put(name);
    true
}

// What a card writes before the operands of its entry, and what after them.
fn before_of(class: u8) -> u8 {
    match class {
        PRC => PTYP,
        _ => NONE,
    }
}

fn after_of(class: u8) -> u8 {
    match class {
        ERR | ERB => TEXT,
        _ => NONE,
    }
}

// What a card of the row writes behind its mnemonic, as codes.
fn codes_of(row: &[u8; CELLS]) -> [u8; OPERANDS] {
    [
        before_of(row[CLASS]),
        row[ONE],
        row[TWO],
        row[THREE],
        after_of(row[CLASS]),
    ]
}

// The operands, with commas between them.
fn put_operands(page: &mut Lines, row: &[u8; CELLS]) {
    let codes = codes_of(row);
    let mut is_behind = false;
    for code in codes {
        is_behind = put_operand(page, is_behind, code);
    }
}

// An operand that may be left out.
fn is_optional(code: u8) -> bool {
    matches!(code, OPT_OPV | OPT_VAL | OPT_INT | OPT_PLBL)
}

// The star, if there is one.
fn star_of(row: &[u8; CELLS]) -> u8 {
    if is_optional(row[ONE]) || is_optional(row[TWO]) || is_optional(row[THREE]) {
        b'*'
    } else {
        b' '
    }
}

// What stands behind the mnemonic; nothing where there is no operand.
fn put_tail(page: &mut Lines, row: &[u8; CELLS]) {
    if row[ONE] != NONE {
        page.put(&[star_of(row), b' ']);
        put_operands(page, row);
    }
}

// A row, and the end of its line.
fn put_row(page: &mut Lines, row: &[u8; CELLS]) {
    let _ = write!(page, "{:>2}.{:<2} ", row[SECTION], row[ITEM]);
    page.put(&row[LETTERS..ONE]);
    put_tail(page, row);
    page.put(b"\n");
}

// The whole table.
pub fn show_rows<P: Print>(rt: &P) {
    let table = rows();
    let mut page = Lines::new();
    for row in &table {
        put_row(&mut page, row);
    }
    page.show(rt);
}

fn show_unknown<P: Print>(rt: &P) {
    let mut page = Lines::new();
    page.put(b"unknown\n");
    page.show(rt);
}

// Row i.
fn show_at<P: Print>(rt: &P, i: usize)
    requires { i < 106 }
{
    let table = rows();
    let mut page = Lines::new();
    put_row(&mut page, &table[i]);
    page.show(rt);
}

// The row that has a mnemonic, or that no row has it.
pub fn show_row<P: Print>(rt: &P, name: &[u8]) {
    let [a, b, c] = name else {
        show_unknown(rt);
        return;
    };
    let found = find_letters(*a, *b, *c);
    match found {
        Some(i) => show_at(rt, i),
        None => show_unknown(rt),
    }
}
