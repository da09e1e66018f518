// IFF values, pair by pair: each is compared with all after it.
ghost use Rattle.std.specs.Prelude.{◌≡◌, ◌+◌, ◌*◌, ◌<◌, ◌≤◌, length};
ghost use Rattle.rules.specs.Check as Check;
ghost use Rattle.shape_core.specs.Counted.{differs_at, fresh_at};

use ops::format::VALUE_KIND;
use table_layout::{KIND, VALUE, word};

// The IFF at q has another value than v, or none that is known.
fn differs(table: &[u32], q: usize, v: u32) -> bool
    requires { (q < 16384) × (8 + 8 * q + 7 < length table.now) }
    ensures { result ≡ differs_at table.now v q }
{
    if word(table, q, KIND) != VALUE_KIND {
        return true;
    }
    word(table, q, VALUE) != v
}

// No IFF of the k from place p on has the value v.
pub fn unlike(table: &[u32], v: u32, p: usize, k: usize) -> bool
    requires { (p + k ≤ 16384) × (8 + 8 * (p + k) ≤ length table.now) }
    ensures { result ≡ Check.unlike table.now v p k }
{
    for i in 0..k {
        if !differs(table, p + i, v) {
            return false;
        }
    }
    true
}

// The value of the IFF at q is below the limit and unlike those of the k after it.
fn is_fresh(table: &[u32], limit: u32, q: usize, k: usize) -> bool
    requires { (q + 1 + k ≤ 16384) × (8 + 8 * (q + 1 + k) ≤ length table.now) }
    ensures { result ≡ fresh_at table.now limit q k }
{
    if word(table, q, KIND) != VALUE_KIND {
        return true;
    }
    let v = word(table, q, VALUE);
    if limit <= v {
        return false;
    }
    unlike(table, v, q + 1, k)
}

// The values of the k IFFs from place p on are below the limit, and distinct.
pub fn by_pairs(table: &[u32], limit: u32, p: usize, k: usize) -> bool
    requires { (p + k ≤ 16384) × (8 + 8 * (p + k) ≤ length table.now) }
    ensures { result ≡ Check.distinct_iffs table.now limit p k }
{
    for left in 0..k {
        if !is_fresh(table, limit, p + (k - left - 1), left) {
            return false;
        }
    }
    true
}
