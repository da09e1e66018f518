// The rules of the operations that can be executed, but for JSR and BSW [S Shape rules].
ghost use Rattle.std.specs.Prelude.{◌≡◌, ◌≤◌, ◌<◌};
ghost use Rattle.ops.specs.Class.{goes, forks, BRN, JMG, ENT, EXI, PPM, ERR, IFF, ESW, PRC, ENP};
ghost use Rattle.rules.specs.Check as Check;

use ops::format::NO_KIND;
use shape_core::reach::{Places, target_one, target_two};
use table_layout::{KIND, THIRD, VALUE, index, word};

// An operation that goes on has one right after it in its body that can be arrived at.
pub fn goes_ok(places: &Places<'_>, p: usize) -> bool
    requires { p < places.now.n }
    ensures { result ≡ Check.holds (Check.flow_rules places.now.table.now p goes) }
{
    places.reaches(p, p + 1)
}

// A branch goes on, or to one of its place operands, in its body.
pub fn forks_ok(places: &Places<'_>, p: usize) -> bool
    requires { p < places.now.n }
    ensures { result ≡ Check.holds (Check.flow_rules places.now.table.now p forks) }
{
    if !places.reaches(p, p + 1) {
        return false;
    }
    let one = target_one(places.table, p);
    if !places.may_reach(p, one) {
        return false;
    }
    let two = target_two(places.table, p);
    if !places.may_reach(p, two) {
        return false;
    }
    let three = index(word(places.table, p, THIRD));
    places.may_reach(p, three)
}

// BRN stays in its body.
pub fn brn_ok(places: &Places<'_>, p: usize) -> bool
    requires { p < places.now.n }
    ensures { result ≡ Check.holds (Check.flow_rules places.now.table.now p BRN) }
{
    let one = target_one(places.table, p);
    places.must_reach(p, one)
}

// JMG goes to a place outside procedures.
pub fn jmg_ok(places: &Places<'_>, p: usize) -> bool
    requires { p < places.now.n }
    ensures { result ≡ Check.holds (Check.flow_rules places.now.table.now p JMG) }
{
    let one = target_one(places.table, p);
    places.global_target(one)
}

// ENT, RTN and SSS go on and stand outside procedures.
pub fn ent_ok(places: &Places<'_>, p: usize) -> bool
    requires { p < places.now.n }
    ensures { result ≡ Check.holds (Check.flow_rules places.now.table.now p ENT) }
{
    if !places.reaches(p, p + 1) {
        return false;
    }
    places.is_outside(p)
}

// EXI stands in a procedure, its number from 1 to the declared count.
pub fn exi_ok(places: &Places<'_>, p: usize) -> bool
    requires { p < places.now.n }
    ensures { result ≡ Check.holds (Check.flow_rules places.now.table.now p EXI) }
{
    let b = index(places.body[p]);
    if b == 0 {
        return false;
    }
    let q = b - 1;
    let v = word(places.table, p, VALUE);
    if word(places.table, q, VALUE) < v {
        return false;
    }
    if word(places.table, p, KIND) == NO_KIND {
        return true;
    }
    0 < v
}
