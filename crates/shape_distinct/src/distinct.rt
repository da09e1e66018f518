// The values of a switch's IFFs are below its limit, and distinct [S Shape rules]. A switch may be as long as the table, so its values are not
// compared pair by pair: marks settle usual lists in one walk, and the order of the values those whose remainders were chosen to be one.
ghost use Rattle.std.specs.Prelude.{◌≡◌, ◌+◌, ◌*◌, ◌≤◌, length};
ghost use Rattle.rules.specs.Check as Check;

use crate::rise::by_order;
use shape_values::marks::by_marks;
use shape_values::pairs::by_pairs;

// A list below this length is compared pair by pair.
const FEW: usize = 8;

// A list that marks do not settle: by order, and where that leaves it open pair by pair.
fn past_marks(table: &[u32], limit: u32, p: usize, k: usize) -> bool
    requires { (p + k ≤ 16384) × (8 + 8 * (p + k) ≤ length table.now) }
    ensures { result ≡ Check.distinct_iffs table.now limit p k }
{
    by_order(table, limit, p, k).unwrap_or_else(|| by_pairs(table, limit, p, k))
}

// The values of the k IFFs from place p on are below the limit, and distinct.
pub fn are_distinct(table: &[u32], limit: u32, p: usize, k: usize) -> bool
    requires { (p + k ≤ 16384) × (8 + 8 * (p + k) ≤ length table.now) }
    ensures { result ≡ Check.distinct_iffs table.now limit p k }
{
    if k < FEW {
        return by_pairs(table, limit, p, k);
    }
    by_marks(table, limit, p, k).unwrap_or_else(|| past_marks(table, limit, p, k))
}
