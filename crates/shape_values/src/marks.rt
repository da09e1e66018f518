// IFF values by marks: they are walked once, from the last to the first, and each value's remainder by 1,024 is marked. A value whose remainder
// is not marked is new, which settles the consecutive values of a usual switch, small or large. One whose remainder is marked is compared with
// those after it, as long as there are few compares.
ghost use Rattle.std.specs.Prelude.{suc, ◌+◌, ◌*◌, ◌<◌, ◌≤◌, length};
ghost use Rattle.rules.specs.Check as Check;
ghost use Rattle.shape_core.specs.Counted.{Marked, fresh_at};
ghost use Rattle.shape_values.specs.Claims.{Claims};

use crate::pairs::unlike;
use ops::format::VALUE_KIND;
use table_layout::{KIND, VALUE, index, word};

// Values are marked by their remainder.
const MARKS: usize = 1024;

// How many compares a list may cost: so many, and so many for each of its IFFs. They bound the work and nothing else.
const FREE: usize = 1024;

const COMPARES: usize = 24;

// The value of the IFF at q is below the limit and unlike those of the k after it, whose remainders are marked. None: that asks for k compares,
// and fewer are spare.
fn look(table: &[u32], marks: &[u8], limit: u32, q: usize, k: usize, spare: usize) -> Option<bool>
    requires { (q + 1 + k ≤ 16384) × (8 + 8 * (q + 1 + k) ≤ length table.now) × Marked table.now marks.now (q + 1) k }
    ensures { Claims result (fresh_at table.now limit q k) }
{
    if word(table, q, KIND) != VALUE_KIND {
        return Some(true);
    }
    let v = word(table, q, VALUE);
    if limit <= v {
        return Some(false);
    }
    let i = index(v) % MARKS;
    if marks[i] == 0 {
        return Some(true);
    }
    if spare < k {
        return None;
    }
    Some(unlike(table, v, q + 1, k))
}

// The value of the IFF at q is marked by its remainder. The answer is with how many values it was compared: all k, or none.
fn mark(table: &[u32], marks: &mut [u8], q: usize, k: usize) -> usize
    requires { (q < 16384) × (8 + 8 * q + 7 < length table.now) × Marked table.now marks.old (q + 1) k }
    ensures { Marked table.now marks.new q (suc k) }
{
    if word(table, q, KIND) != VALUE_KIND {
        return 0;
    }
    let i = index(word(table, q, VALUE)) % MARKS;
    let was = marks[i];
    marks[i] = 1;
    if was == 0 {
        return 0;
    }
    k
}

// The values of the k IFFs from place p on are below the limit, and distinct. None: too many share a remainder.
pub fn by_marks(table: &[u32], limit: u32, p: usize, k: usize) -> Option<bool>
    requires { (p + k ≤ 16384) × (8 + 8 * (p + k) ≤ length table.now) }
    ensures { Claims result (Check.distinct_iffs table.now limit p k) }
{
    let mut marks = [0u8; 1024];
    let mut spare: usize = FREE + COMPARES * k;
    for left in 0..k {
        let q = p + (k - left - 1);
        if !look(table, &marks, limit, q, left, spare)? {
            return Some(false);
        }
        let spent = mark(table, &mut marks, q, left);
        spare = std::num::wrapping_sub_usize(spare, spent);
    }
    Some(true)
}
