// What follows the lines' faults: 8, 9 and 10 in this order, then the table is placed [S Numbers the host sees].
ghost use Rattle.std.specs.Prelude.{◌≡◌, map, ◌+◌, ◌≤◌, length};
ghost use Rattle.base.specs.Test.{◌and◌};
ghost use Rattle.op_lookup.specs.Answers.{IndexOf};
ghost use Rattle.ops.specs.Ops.{rows, cells_of};
ghost use Rattle.rules.specs.Check.{sections_ok};
ghost use Rattle.language.specs.Symbol.{all_placed};
ghost use Rattle.language.specs.Fault.{deck_of};
ghost use Rattle.language.specs.Answer.{is_within};
ghost use Rattle.asm_types.specs.Views.{symbols_in};
ghost use Rattle.assembler.specs.Answers.{Answers};
ghost use Rattle.assembler.specs.Judges.{Prepared};

use crate::Refusal;
use crate::judge::judge;
use asm_answers::room::is_placed;
use asm_collect::Collected;
use asm_shapes::classes::classes_of;
use asm_symbols::list::SymbolList;
use bodies::body::bodies;
use op_lookup::numbers::NumberIndex;
use ops::constants::Machine;
use ops::table::Operations;
use table_layout::{index, sections_ok, sum};

// The labels that a text may have.
const MAX_LABELS: usize = 512;

// END closes section 6, no section is empty, and each declaration has its place [S 8].
fn is_complete(table: &[u32], symbols: &SymbolList<'_>, closed: bool) -> bool
    requires { 8 ≤ length table.now }
    ensures { result ≡ (closed and sections_ok table.now and all_placed (symbols_in symbols.now.words.now symbols.now.n) (symbols_in symbols.now.words.now symbols.now.n)) }
{
    if !closed {
        return false;
    }
    if !sections_ok(table) {
        return false;
    }
    symbols.all_placed()
}

// Operations, labels, fresh words and words are within their limits [S 9].
fn is_within(c: &Collected) -> bool
    ensures { result ≡ is_within c.now.counts.size c.now.labels c.now.counts.fresh (c.now.counts.constants + c.now.counts.workings) }
{
    if Machine::MAX_INSTRS < index(c.counts.size) {
        return false;
    }
    if MAX_LABELS < c.labels {
        return false;
    }
    if Machine::MAX_FRESH < index(c.counts.fresh) {
        return false;
    }
    sum(c.counts.constants, c.counts.workings) <= Machine::MAX_WORDS
}

// The answer, given what is collected and the draft of the table. The lent table is written last.
pub fn finish(
    list: &Operations,
    numbers: &NumberIndex,
    text: &[u8],
    syms: &[u64],
    c: &Collected,
    draft: &[u32],
    classes: &mut [u32],
    body: &mut [u32],
    table: &mut [u32],
) -> Result<u32, Refusal>
    requires { (list.now ≡ map cells_of rows) × Prepared text.now syms.now draft.now c.now × (16385 ≤ length classes.old) × (16385 ≤ length body.old) × IndexOf numbers.now }
    ensures { Answers (deck_of text.now) result table.old table.new }
{
    let symbols = SymbolList {
        words: syms,
        n: c.labels,
    };
    let size = index(c.counts.size);
    classes_of(draft, list, numbers, size, classes);
    bodies(draft, size, body);
    judge(list, numbers, text, &symbols, draft, classes, body, size)?;
    if !is_complete(draft, &symbols, c.counts.closed) {
        return Err(Refusal::Incomplete);
    }
    if !is_within(c) {
        return Err(Refusal::OverLimit);
    }
    if !is_placed(draft, table) {
        return Err(Refusal::ShortRoom);
    }
    Ok(draft.len() as u32)
}
