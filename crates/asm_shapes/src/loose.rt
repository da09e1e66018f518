// The fault of a place whose operands are not all given: a branch that is not given is not judged [S Shape rules].
ghost use Rattle.std.specs.Prelude.{◌≡◌, ◌<◌};
ghost use Rattle.rules.specs.Check as Check;
ghost use Rattle.rules.specs.Table.{class_at};
ghost use Rattle.language.specs.Fault as Fault;
ghost use Rattle.asm_types.specs.Views.{parsed_view};

use crate::faults::{BAD_LIST, BAD_SHAPE, class_fault, list_fault, shared_fault};
use ops::class;
use ops::class::NO_CLASS;
use ops::format::{PLACE_KIND, VALUE_KIND};
use shape_core::reach::Places;
use shapes::cards::below_iff;
use table_layout::{ENTRY, HEADER, index};

// A JSR at p names no procedure, or one whose exit count is known.
pub fn count_known(places: &Places<'_>, p: usize) -> bool
    requires { p < places.now.n }
    ensures { result ≡ Fault.count_known places.now.table.now p }
{
    if places.classes[p] != class::JSR {
        return true;
    }
    if places.table[HEADER + ENTRY * p + 1] != PLACE_KIND {
        return true;
    }
    let v = index(places.table[HEADER + ENTRY * p + 3]);
    if places.class_at(v) != class::PRC {
        return true;
    }
    places.table[HEADER + ENTRY * v + 1] == VALUE_KIND
}

// The list of a JSR at p whose callee has no place, by the count of its INP. No list is longer than the table.
fn counted_fault(places: &Places<'_>, p: usize, count: Option<u64>) -> u32
    requires { p < places.now.n }
    ensures { result ≡ Check.faults_in (Fault.list_rules places.now.table.now p (parsed_view count)) }
{
    let Some(k) = count else {
        return 0;
    };
    if (places.n as u64) < k {
        return BAD_LIST;
    }
    list_fault(places, p, k as u32)
}

// The rules of the place p by its class, but for its branches.
fn loose_class(places: &Places<'_>, p: usize, count: Option<u64>) -> u32
    requires { p < places.now.n }
    ensures { result ≡ Check.faults_in (Fault.loose_class places.now.table.now p (parsed_view count) (class_at places.now.table.now p)) }
{
    let k = places.classes[p];
    if k == class::JSR {
        return counted_fault(places, p, count);
    }
    if k == class::BRN {
        return 0;
    }
    if k == class::JMG {
        return 0;
    }
    if k == NO_CLASS {
        return 0;
    }
    if k != class::IFF {
        return class_fault(places, p);
    }
    if below_iff(places, p) {
        return 0;
    }
    BAD_SHAPE
}

// The fault of the place p, whose operands are not all given; the count is that of a JSR's INP.
pub fn loose_fault(places: &Places<'_>, p: usize, count: Option<u64>) -> u32
    requires { p < places.now.n }
    ensures { result ≡ Fault.loose_fault places.now.table.now p (parsed_view count) }
{
    let f = loose_class(places, p, count);
    shared_fault(places, p, f)
}
