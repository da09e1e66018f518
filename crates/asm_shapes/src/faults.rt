// The fault of a place: 4 an operand, 6 a list, 7 any other rule [S Shape rules]. The tests stand in the order of these numbers, so the
// first that fails has the smallest.
ghost use Rattle.std.specs.Prelude.{◌≡◌, map, ◌≤◌, ◌<◌, get_or};
ghost use Rattle.ops.specs.Class.{BSW, EXI, JSR};
ghost use Rattle.ops.specs.Ops.{rows, cells_of};
ghost use Rattle.op_lookup.specs.Answers.{IndexOf};
ghost use Rattle.rules.specs.Check as Check;
ghost use Rattle.rules.specs.Table.{class_at};
ghost use Rattle.table_layout.specs.Laid.{Laid};
ghost use Rattle.language.specs.Fault.{list_rules};
ghost use Rattle.language.specs.Text.{parsed};
ghost use Rattle.asm_shapes.specs.Shared.{shared};

use entries::fields;
use op_lookup::numbers::NumberIndex;
use ops::class;
use ops::class::NO_CLASS;
use ops::format::NO_KIND;
use ops::table::Operations;
use shape_core::reach::Places;
use shape_switch::switch;
use shapes::flows;
use table_layout::{ENTRY, HEADER, index};
use tables::judge;

// The numbers of the faults, 0 for none, and no enum: the assembler takes the smallest of all that a card has, and tells the host that number.
pub const BAD_OPERAND: u32 = 4;

pub const BAD_LIST: u32 = 6;

pub const BAD_SHAPE: u32 = 7;

// The operands of the entry at p keep the rules of its row.
fn fields_ok(table: &[u32], list: &Operations, numbers: &NumberIndex, p: usize) -> bool
    requires { Laid table.now × (list.now ≡ map cells_of rows) × (p < get_or table.now 0 0) × IndexOf numbers.now }
    ensures { result ≡ Check.fields_ok table.now p rows }
{
    let Some(i) = fields::row_at(table, numbers, p) else {
        return false;
    };
    fields::row_ok(table, p, &list[i])
}

// The k exits of the JSR at p stand below it, and it goes on past them.
pub fn list_fault(places: &Places<'_>, p: usize, k: u32) -> u32
    requires { p < places.now.n }
    ensures { result ≡ Check.faults_in (list_rules places.now.table.now p (parsed k)) }
{
    if !places.exit_list(p + 1, k) {
        return BAD_LIST;
    }
    if !places.reaches(p, p + 1 + index(k)) {
        return BAD_SHAPE;
    }
    0
}

// JSR: its callee is named, and has its exits.
fn jsr_fault(places: &Places<'_>, p: usize) -> u32
    requires { p < places.now.n }
    ensures { result ≡ Check.faults_in (Check.flow_rules places.now.table.now p JSR) }
{
    let Some(k) = places.exits_of(p) else {
        return BAD_OPERAND;
    };
    list_fault(places, p, k)
}

// BSW: its list, then its default.
fn bsw_fault(places: &Places<'_>, p: usize) -> u32
    requires { p < places.now.n }
    ensures { result ≡ Check.faults_in (Check.flow_rules places.now.table.now p BSW) }
{
    if !switch::list_ok(places, p) {
        return BAD_LIST;
    }
    if !switch::default_ok(places, p) {
        return BAD_SHAPE;
    }
    0
}

// EXI: its number, then that it stands in a procedure.
fn exi_fault(places: &Places<'_>, p: usize) -> u32
    requires { p < places.now.n }
    ensures { result ≡ Check.faults_in (Check.flow_rules places.now.table.now p EXI) }
{
    if flows::exi_ok(places, p) {
        return 0;
    }
    if places.body[p] != 0 {
        return BAD_OPERAND;
    }
    if places.table[HEADER + ENTRY * p + 1] == NO_KIND {
        return BAD_SHAPE;
    }
    if 0 < places.table[HEADER + ENTRY * p + 3] {
        return BAD_SHAPE;
    }
    BAD_OPERAND
}

// The rules of the place p by its class.
pub fn class_fault(places: &Places<'_>, p: usize) -> u32
    requires { p < places.now.n }
    ensures { result ≡ Check.faults_in (Check.class_rules places.now.table.now p (class_at places.now.table.now p)) }
{
    let k = places.classes[p];
    if k == class::JSR {
        return jsr_fault(places, p);
    }
    if k == class::BSW {
        return bsw_fault(places, p);
    }
    if k == class::EXI {
        return exi_fault(places, p);
    }
    if k == NO_CLASS {
        return BAD_OPERAND;
    }
    if judge::class_ok(places, p) {
        return 0;
    }
    BAD_SHAPE
}

// The fault of the place p by the rules that all classes share, where that by its class is given.
pub fn shared_fault(places: &Places<'_>, p: usize, fault: u32) -> u32
    requires { (p < places.now.n) × (fault ≤ 7) }
    ensures { result ≡ shared places.now.table.now p fault }
{
    if fault != 0 {
        return fault;
    }
    if !fields::apart_at(places.table, p) {
        return BAD_SHAPE;
    }
    if !judge::start_ok(places, p) {
        return BAD_SHAPE;
    }
    0
}

// The fault of the place p, whose operands are all given.
pub fn fault_at(places: &Places<'_>, list: &Operations, numbers: &NumberIndex, p: usize) -> u32
    requires { (p < places.now.n) × (list.now ≡ map cells_of rows) × IndexOf numbers.now }
    ensures { result ≡ Check.fault_at places.now.table.now p }
{
    if !fields_ok(places.table, list, numbers, p) {
        return BAD_OPERAND;
    }
    let f = class_fault(places, p);
    shared_fault(places, p, f)
}
