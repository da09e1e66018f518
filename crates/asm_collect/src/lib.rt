// The first pass over a text: its symbols, the numbers of its table's header, and whether END closes it [S Cards] [S The table].
#![tactic(auto)]

ghost use Rattle.std.specs.Prelude.{◌≡◌, map, ◌≤◌, length};
ghost use Rattle.ops.specs.Ops.{rows, cells_of};
ghost use Rattle.language.specs.Text.{max_bytes};
ghost use Rattle.asm_collect.specs.Gathered.{CollectedOf, symbol_room};

pub mod labels;
pub mod numbers;

use crate::labels::store_symbol;
use crate::numbers::{Counts, counted};
use asm_cards::{card_of, is_closing, past};
use asm_reader::line_end;
use asm_types::Reader;
use ops::table::Operations;

// What a text holds: its label fields, and the counts of its cards.
#[derive(Clone, Copy)]
pub struct Collected {
    pub labels: usize,
    pub counts: Counts,
}

// The symbols of all cards, stored from the front of `syms`, and the header's numbers.
pub fn collect(list: &Operations, text: &[u8], syms: &mut [u64]) -> Collected
    requires { (list.now ≡ map cells_of rows) × (length text.now ≤ max_bytes) × (symbol_room ≤ length syms.old) }
    ensures { CollectedOf text.now syms.new result }
{
    let mut r = Reader {
        line: 1,
        opened: 0,
        place: 0,
        word: 0,
        external: 0,
    };
    let mut k = Counts {
        size: 0,
        constants: 0,
        workings: 0,
        fresh: 0,
        externals: 0,
        section5: 0,
        section6: 0,
        closed: false,
    };
    let mut n: usize = 0;
    let mut at: usize = 0;
    while at < text.len() {
        let e = line_end(text, at);
        let c = card_of(list, r, &text[at..e]);
        n = store_symbol(list, c, &text[at..e], syms, n);
        k = counted(k, c, &text[at..e]);
        if is_closing(c) {
            return Collected {
                labels: n,
                counts: k,
            };
        }
        r = past(c, &text[at..e]);
        at = e + 1;
    }
    Collected {
        labels: n,
        counts: k,
    }
}
