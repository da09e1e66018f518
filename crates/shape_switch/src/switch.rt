// Switch lists: BSW has IFFs with distinct values below its limit, then ESW [S Shape rules].
ghost use Rattle.std.specs.Prelude.{◌≡◌, ◌≤◌, ◌<◌};
ghost use Rattle.ops.specs.Class.{BSW};
ghost use Rattle.rules.specs.Check as Check;
ghost use Rattle.rules.specs.Table.{target3};
ghost use Rattle.shape_core.specs.Counted.{Counted, list_ok};

use ops::class;
use shape_core::reach::Places;
use shape_distinct::distinct::are_distinct;
use table_layout::{THIRD, VALUE_TWO, index, word};

// How many IFFs stand from place p on.
fn count_iffs(places: &Places<'_>, p: usize) -> usize
    requires { p ≤ places.now.n }
    ensures { Counted places.now.table.now p places.now.n result }
{
    for k in 0..places.n - p {
        if places.classes[p + k] != class::IFF {
            return k;
        }
    }
    places.n - p
}

// The list of the BSW at p is lawful, and ESW closes it.
pub fn list_ok(places: &Places<'_>, p: usize) -> bool
    requires { p < places.now.n }
    ensures { result ≡ list_ok places.now.table.now p }
{
    let k = count_iffs(places, p + 1);
    if places.class_at(p + 1 + k) != class::ESW {
        return false;
    }
    are_distinct(places.table, word(places.table, p, VALUE_TWO), p + 1, k)
}

// The default of the BSW at p stays in its body.
pub fn default_ok(places: &Places<'_>, p: usize) -> bool
    requires { p < places.now.n }
    ensures { result ≡ Check.may_reach places.now.table.now p (target3 places.now.table.now p) }
{
    let three = index(word(places.table, p, THIRD));
    places.may_reach(p, three)
}

// BSW: its list is lawful and closed by ESW, and its default stays in the body.
pub fn bsw_ok(places: &Places<'_>, p: usize) -> bool
    requires { p < places.now.n }
    ensures { result ≡ Check.holds (Check.flow_rules places.now.table.now p BSW) }
{
    if !list_ok(places, p) {
        return false;
    }
    default_ok(places, p)
}
