// The table check: it accepts exactly the tables of lawful length, limits and fields that keep the shape rules [S Shape rules].
#![tactic(auto)]

ghost use Rattle.std.specs.Prelude.{◌≡◌};
ghost use Rattle.rules.specs.Check.{table_ok};
ghost use Rattle.shape_core.specs.Known.{Known};
ghost use Rattle.table_layout.specs.Below.{below};
ghost use Rattle.tables.specs.Shape.{shape_ok};

use bodies::body::bodies;
use entries::fields::fields_ok;
use shape_core::reach::Places;
use table_layout::{index, layout_ok};

pub mod judge;

// The shape rules of all places, over what is known of them. Apart from the check, so that what is known lies on the stack where the fields' index lay.
fn shapes_hold(table: &[u32], classes: &[u32], body: &[u32], n: usize) -> bool
    requires { Known table.now classes.now body.now n }
    ensures { result ≡ below (shape_ok table.now) n }
{
    let places = Places {
        table,
        classes,
        body,
        n,
    };
    judge::shapes_ok(&places)
}

// Whether a table passes its check. Any slice may be asked: nothing is read outside it, and no sum wraps.
pub fn check_table(table: &[u32]) -> bool
    ensures { result ≡ table_ok table.now }
{
    if !layout_ok(table) {
        return false;
    }
    let list = op_table::rows();
    let mut classes = [0u32; 1025];
    if !fields_ok(table, &list, &mut classes) {
        return false;
    }
    let n = index(table[0]);
    let mut body = [0u32; 1025];
    bodies(table, n, &mut body);
    shapes_hold(table, &classes, &body, n)
}
