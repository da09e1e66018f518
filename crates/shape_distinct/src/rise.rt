// IFF values by order: walked by their values, distinct ones rise, and equal ones are neighbours. The order is a proposal, and the walk tells what
// it shows, whatever the order is.
ghost use Rattle.std.specs.Prelude.{ℕ, ◌+◌, ◌*◌, ◌≤◌, ◌<◌, length};
ghost use Rattle.rules.specs.Check as Check;
ghost use Rattle.shape_values.specs.Claims.{Claims};
ghost use Rattle.shape_distinct.specs.Orders.{Seen, Valued};

use ops::format::VALUE_KIND;
use table_layout::{KIND, VALUE, word};

// The first k marks are set.
fn all_seen(seen: &[u8; 1024], k: usize) -> bool
    requires { k ≤ 1024 }
    ensures { Seen result seen.now k }
{
    !seen[..k].contains(&0)
}

// IFF i of the k from place p on has the value v of another, j: then the list fails, whatever its limit. Else None.
fn doubled(table: &[u32], p: usize, k: usize, i: usize, j: usize, v: u32) -> Option<bool>
    requires { (p + k ≤ 16384) × (8 + 8 * (p + k) ≤ length table.now) × (j < k) × Valued table.now (p + j) v }
    ensures { (limit : ℕ) → Claims result (Check.distinct_iffs table.now limit p k) }
{
    if i == j {
        return None;
    }
    if k <= i {
        return None;
    }
    if word(table, p + i, KIND) != VALUE_KIND {
        return None;
    }
    if word(table, p + i, VALUE) != v {
        return None;
    }
    Some(false)
}

// Along `order` the values of the k IFFs from place p on rise below the limit, and all k are there: they are distinct. None: the order does not
// tell.
fn rise(table: &[u32], limit: u32, p: usize, k: usize, order: &[u16; 1024]) -> Option<bool>
    requires { (k ≤ 1024) × (p + k ≤ 16384) × (8 + 8 * (p + k) ≤ length table.now) }
    ensures { Claims result (Check.distinct_iffs table.now limit p k) }
{
    let mut seen = [0u8; 1024];
    let mut low: u32 = 0;
    let mut last: usize = 0;
    for j in 0..k {
        let q = usize::from(order[j]);
        if k <= q {
            return None;
        }
        if word(table, p + q, KIND) != VALUE_KIND {
            return None;
        }
        let v = word(table, p + q, VALUE);
        if limit <= v {
            return Some(false);
        }
        if v < low {
            return doubled(table, p, k, last, q, v);
        }
        seen[q] = 1;
        low = v + 1;
        last = q;
    }
    if all_seen(&seen, k) {
        return Some(true);
    }
    None
}

// The values of the k IFFs from place p on are below the limit, and distinct. None: a value is not known, or the list is too long.
pub fn by_order(table: &[u32], limit: u32, p: usize, k: usize) -> Option<bool>
    requires { (p + k ≤ 16384) × (8 + 8 * (p + k) ≤ length table.now) }
    ensures { Claims result (Check.distinct_iffs table.now limit p k) }
{
    if shape_order::ROOM < k {
        return None;
    }
    let mut numbers = [0u16; 1024];
    shape_order::sort(table, p, k, &mut numbers);
    rise(table, limit, p, k, &numbers)
}
