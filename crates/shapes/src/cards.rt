// The rules of the cards that are never arrived at: those of lists, PRC and ENP [S Shape rules].
ghost use Rattle.std.specs.Prelude.{◌≡◌, ◌≤◌, ◌<◌};
ghost use Rattle.ops.specs.Class.{goes, forks, BRN, JMG, ENT, EXI, PPM, ERR, IFF, ESW, PRC, ENP};
ghost use Rattle.rules.specs.Check as Check;

use ops::class;
use shape_core::reach::{EXECUTABLE, Places, target_one, target_two};
use table_layout::index;

// The card above is an exit card or a JSR.
fn below_exit(places: &Places<'_>, p: usize) -> bool
    requires { p < places.now.n }
    ensures { result ≡ Check.below_exit places.now.table.now p }
{
    if p == 0 {
        return false;
    }
    if places.class_at(p - 1) == class::JSR {
        return true;
    }
    places.is_exit(p - 1)
}

// The card above is an IFF or a BSW.
pub fn below_iff(places: &Places<'_>, p: usize) -> bool
    requires { p < places.now.n }
    ensures { result ≡ Check.below_iff places.now.table.now p }
{
    if p == 0 {
        return false;
    }
    let k = places.class_at(p - 1);
    if k == class::BSW {
        return true;
    }
    k == class::IFF
}

// PPM stands in an exit list and stays in its body.
pub fn ppm_ok(places: &Places<'_>, p: usize) -> bool
    requires { p < places.now.n }
    ensures { result ≡ Check.holds (Check.marker_rules places.now.table.now p PPM) }
{
    if !below_exit(places, p) {
        return false;
    }
    let one = target_one(places.table, p);
    places.may_reach(p, one)
}

// ERR stands in an exit list.
pub fn err_ok(places: &Places<'_>, p: usize) -> bool
    requires { p < places.now.n }
    ensures { result ≡ Check.holds (Check.marker_rules places.now.table.now p ERR) }
{
    below_exit(places, p)
}

// IFF stands in a switch and stays in its body.
pub fn iff_ok(places: &Places<'_>, p: usize) -> bool
    requires { p < places.now.n }
    ensures { result ≡ Check.holds (Check.marker_rules places.now.table.now p IFF) }
{
    if !below_iff(places, p) {
        return false;
    }
    let two = target_two(places.table, p);
    places.must_reach(p, two)
}

// ESW closes a switch.
pub fn esw_ok(places: &Places<'_>, p: usize) -> bool
    requires { p < places.now.n }
    ensures { result ≡ Check.holds (Check.marker_rules places.now.table.now p ESW) }
{
    below_iff(places, p)
}

// PRC opens a procedure outside procedures, which is closed, and is followed by an operation that can be arrived at.
pub fn prc_ok(places: &Places<'_>, p: usize) -> bool
    requires { p < places.now.n }
    ensures { result ≡ Check.holds (Check.marker_rules places.now.table.now p PRC) }
{
    if !places.is_outside(p) {
        return false;
    }
    if EXECUTABLE <= places.classes[p + 1] {
        return false;
    }
    index(places.body[places.n]) != p + 1
}

// ENP closes a procedure.
pub fn enp_ok(places: &Places<'_>, p: usize) -> bool
    requires { p < places.now.n }
    ensures { result ≡ Check.holds (Check.marker_rules places.now.table.now p ENP) }
{
    !places.is_outside(p)
}
