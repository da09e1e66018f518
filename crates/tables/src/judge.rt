// The shape rules of each place, by its class, and of all places in one pass [S Shape rules].
ghost use Rattle.std.specs.Prelude.{◌≡◌, not, ◌≤◌, ◌<◌, length};
ghost use Rattle.base.specs.Test.{◌or◌};
ghost use Rattle.rules.specs.Check as Check;
ghost use Rattle.rules.specs.Table.{class_at};
ghost use Rattle.table_layout.specs.Below.{below};
ghost use Rattle.tables.specs.Shape.{shape_ok};

use ops::class;
use shape_core::reach::Places;
use shape_switch::switch;
use shapes::{cards, flows};
use table_layout::index;

// The rules of the place p by its class.
pub fn class_ok(places: &Places<'_>, p: usize) -> bool
    requires { p < places.now.n }
    ensures { result ≡ Check.holds (Check.class_rules places.now.table.now p (class_at places.now.table.now p)) }
{
    let k = places.classes[p];
    match k {
        class::GOES => flows::goes_ok(places, p),
        class::FORKS => flows::forks_ok(places, p),
        class::BRN => flows::brn_ok(places, p),
        class::JMG => flows::jmg_ok(places, p),
        class::BRI => true,
        class::BSW => switch::bsw_ok(places, p),
        class::ENT => flows::ent_ok(places, p),
        class::RTN => flows::ent_ok(places, p),
        class::JSR => places.jsr_ok(p),
        class::EXI => flows::exi_ok(places, p),
        class::SSS => flows::ent_ok(places, p),
        class::ERB => true,
        class::CHK => flows::goes_ok(places, p),
        class::PPM => cards::ppm_ok(places, p),
        class::ERR => cards::err_ok(places, p),
        class::IFF => cards::iff_ok(places, p),
        class::ESW => cards::esw_ok(places, p),
        class::PRC => cards::prc_ok(places, p),
        class::ENP => cards::enp_ok(places, p),
        _ => false,
    }
}

// A section starts at p.
fn starts_section(table: &[u32], p: usize) -> bool
    requires { 8 ≤ length table.now }
    ensures { result ≡ Check.starts_section table.now p }
{
    if p == index(table[5]) {
        return true;
    }
    if p == index(table[6]) {
        return true;
    }
    p == index(table[7])
}

// A section that starts at p starts outside procedures, at a place that can be arrived at.
pub fn start_ok(places: &Places<'_>, p: usize) -> bool
    requires { p < places.now.n }
    ensures { result ≡ (not (Check.starts_section places.now.table.now p) or Check.is_outside places.now.table.now p) }
{
    if !starts_section(places.table, p) {
        return true;
    }
    places.enters_outside(p)
}

// The shape rules of the place p.
fn shape_ok(places: &Places<'_>, p: usize) -> bool
    requires { p < places.now.n }
    ensures { result ≡ shape_ok places.now.table.now p }
{
    if !start_ok(places, p) {
        return false;
    }
    class_ok(places, p)
}

// The shape rules of all places.
pub fn shapes_ok(places: &Places<'_>) -> bool
    ensures { result ≡ below (shape_ok places.now.table.now) places.now.n }
{
    for p in 0..places.n {
        if !shape_ok(places, p) {
            return false;
        }
    }
    true
}
