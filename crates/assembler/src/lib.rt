// The assembler: cards become a table, or the text is refused and no lent word changes [S Cards] [S The table].
#![tactic(auto)]

ghost use Rattle.std.specs.Prelude.{◌≡◌, map, ◌≤◌, length};
ghost use Rattle.ops.specs.Ops.{rows, cells_of};
ghost use Rattle.language.specs.Text.{max_bytes};
ghost use Rattle.language.specs.Fault.{deck_of};
ghost use Rattle.language.specs.Answer.{answer_of, left_of};
ghost use Rattle.assembler.specs.Answers.{Answers, answer_view, line_of, answer_number};
ghost use Rattle.assembler.specs.Judges.{Prepared};
ghost use Rattle.assembler.specs.declared.Refusal.TheVariants.{Faulty};

use crate::finish::finish;
pub use asm_answers::verdict::Fault;
use asm_collect::{Collected, collect};
use asm_draft::deck::fill;
use asm_symbols::list::SymbolList;
use op_lookup::numbers::number_index;
use ops::constants::Machine;
use ops::table::Operations;
use table_layout::{ENTRY, HEADER};

pub mod finish;
pub mod judge;
pub mod shape;

// The bytes that a text may have, and the words of the longest table.
pub const MAX_BYTES: usize = 32768;

pub const MAX_TABLE: usize = HEADER
    + ENTRY * Machine::MAX_INSTRS
    + Machine::MAX_FRESH
    + Machine::MAX_EXTERNALS
    + Machine::MAX_WORDS;

// Words for a text's symbols, for its draft, and for a number of each place and of the one past the last.
const SYMBOL_WORDS: usize = 27310;

const TABLE_WORDS: usize = 180240;

const PLACES: usize = 16386;

// Why there is no table: the text is too long (9), a line has a fault (1 to 7), something is missing (8), a limit is passed (9), the
// room is short (10) [S Numbers the host sees].
#[derive(Clone, Copy)]
pub enum Refusal {
    LongText,
    Faulty(Fault),
    Incomplete,
    OverLimit,
    ShortRoom,
}

impl From<Fault> for Refusal {
    ghost from_gives = { λ fault refusal. refusal ≡ Faulty fault };

    fn from(fault: Fault) -> Refusal {
        Refusal::Faulty(fault)
    }
}

// The number that the host sees, 0 for a table.
pub fn number(a: Result<u32, Refusal>) -> u32
    ensures { result ≡ answer_number (answer_view a) }
{
    match a {
        Ok(_) => 0,
        Err(Refusal::LongText) => 9,
        Err(Refusal::Faulty(f)) => f.number,
        Err(Refusal::Incomplete) => 8,
        Err(Refusal::OverLimit) => 9,
        Err(Refusal::ShortRoom) => 10,
    }
}

// The line that the host sees, 0 for none.
pub fn line(a: Result<u32, Refusal>) -> u32
    ensures { result ≡ line_of (answer_view a) }
{
    match a {
        Err(Refusal::Faulty(f)) => f.line,
        _ => 0,
    }
}

// The answer, given what is collected and the draft of the table. The index of the rows is made here, since nothing before asks it: so it lies on the stack
// where the locals of `collect` lay.
fn finish_indexed(
    list: &Operations,
    text: &[u8],
    syms: &[u64],
    c: &Collected,
    draft: &[u32],
    classes: &mut [u32],
    body: &mut [u32],
    table: &mut [u32],
) -> Result<u32, Refusal>
    requires { (list.now ≡ map cells_of rows) × Prepared text.now syms.now draft.now c.now × (16385 ≤ length classes.old) × (16385 ≤ length body.old) }
    ensures { Answers (deck_of text.now) result table.old table.new }
{
    let numbers = number_index(list);
    finish(list, &numbers, text, syms, c, draft, classes, body, table)
}

// A text that is not too long.
fn assemble_short(cards: &[u8], table: &mut [u32]) -> Result<u32, Refusal>
    requires { length cards.now ≤ max_bytes }
    ensures { Answers (deck_of cards.now) result table.old table.new }
{
    let list = op_table::rows();
    let mut syms = [0u64; SYMBOL_WORDS];
    let c = collect(&list, cards, &mut syms);
    let mut draft = [0u32; TABLE_WORDS];
    let symbols = SymbolList {
        words: &syms,
        n: c.labels,
    };
    let long = fill(
        &list,
        cards,
        &symbols,
        [
            c.counts.size,
            c.counts.constants,
            c.counts.workings,
            c.counts.fresh,
            c.counts.externals,
            0,
            c.counts.section5,
            c.counts.section6,
        ],
        &mut draft,
    );
    let mut classes = [0u32; PLACES];
    let mut body = [0u32; PLACES];
    finish_indexed(
        &list,
        cards,
        &syms,
        &c,
        &draft[0..long],
        &mut classes,
        &mut body,
        table,
    )
}

// Cards become the table at the front of the lent words, of this length. A refused text changes none of them.
pub fn assemble(cards: &[u8], table: &mut [u32]) -> Result<u32, Refusal>
    ensures { (answer_view result ≡ answer_of cards.now (length table.old)) × (table.new ≡ left_of cards.now table.old) }
{
    if MAX_BYTES < cards.len() {
        return Err(Refusal::LongText);
    }
    assemble_short(cards, table)
}
