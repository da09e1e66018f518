// The control class of each place of a draft, whose operations may be unknown [S The table].
ghost use Rattle.std.specs.Prelude.{◌≡◌, map, ◌<◌, length, get_or};
ghost use Rattle.ops.specs.Class.{class_code};
ghost use Rattle.ops.specs.Ops.{rows, cells_of};
ghost use Rattle.op_lookup.specs.Answers.{IndexOf};
ghost use Rattle.rules.specs.Table.{class_at};
ghost use Rattle.entries.specs.Classes.{ClassesOf};
ghost use Rattle.table_layout.specs.Laid.{Laid};

use entries::fields::row_at;
use op_lookup::cells;
use op_lookup::numbers::NumberIndex;
use ops::class::NO_CLASS;
use ops::table::Operations;

// The class of the entry at p.
fn class_of(table: &[u32], list: &Operations, numbers: &NumberIndex, p: usize) -> u32
    requires { Laid table.now × (list.now ≡ map cells_of rows) × (p < get_or table.now 0 0) × IndexOf numbers.now }
    ensures { result ≡ class_code (class_at table.now p) }
{
    let Some(i) = row_at(table, numbers, p) else {
        return NO_CLASS;
    };
    cells::class_of(&list[i])
}

// The classes of the n entries, and of the place past the last, are written down.
pub fn classes_of(
    table: &[u32],
    list: &Operations,
    numbers: &NumberIndex,
    n: usize,
    classes: &mut [u32],
)
    requires { Laid table.now × (list.now ≡ map cells_of rows) × (n ≡ get_or table.now 0 0) × (n < length classes.old) × IndexOf numbers.now }
    ensures { ClassesOf table.now classes.new }
{
    for p in 0..n {
        classes[p] = class_of(table, list, numbers, p);
    }
    classes[n] = NO_CLASS;
}
