// What a symbol gives, by its meaning [M section 7].
ghost use Rattle.std.specs.Prelude.{◌≡◌, ◌+◌, ◌*◌, ◌≤◌, ltb};
ghost use Rattle.base.specs.Test.{if};
ghost use Rattle.ops.specs.Machine.{cfp_b, cfp_m, entry_base};
ghost use Rattle.ops.specs.Format.{place_kind, value_kind};
ghost use Rattle.language.specs.Symbol.{entry, is_sort};
ghost use Rattle.language.specs.Operand.{address_by, awaits, callee_by, displaced, displaced_by, equal_by, gives, global_by, literal_by, misfits, multiple_by, place_by, symbol_by, unnamed, value_by, value_within};
ghost use Rattle.asm_types.specs.Views.{meaning_view, outcome_view, sort_at};
ghost use Rattle.asm_symbols.specs.Symbolic.{Fits, last_sort, most_places};
ghost use Rattle.asm_values.specs.Read.{format_of};

use crate::formats::*;
use asm_types::{Equal, Given, Meaning, Outcome, Placed, Placeless, Sort};
use ops::constants::Machine;
use ops::format::*;

// The largest value, and the bytes of a word, as values of symbols.
const CFP_M: u64 = Machine::CFP_M as u64;

const CFP_B: u64 = Machine::CFP_B as u64;

// The value of the entry label of place 0.
const ENTRY_BASE: u64 = Machine::ENTRY_BASE as u64;

// A value that fits a word.
pub fn narrow(v: u64) -> u32
    requires { v ≤ 4294967295 }
    ensures { result ≡ v }
{
    v as u32
}

// A kind, a register and a value.
fn gives(kind: u32, reg: u32, v: u64) -> Outcome
    requires { v ≤ 4294967295 }
    ensures { outcome_view result ≡ gives kind reg v }
{
    Outcome::Gives(Given {
        kind,
        reg,
        val: narrow(v),
    })
}

// A value up to a limit.
pub fn value_within(limit: u32, v: u64) -> Outcome
    ensures { outcome_view result ≡ value_within limit v }
{
    if (limit as u64) < v {
        return Outcome::Misfits;
    }
    gives(VALUE_KIND, 0, v)
}

// A displacement of v bytes, and of v words, from an index register.
fn displaced_bytes(reg: u32, v: u64) -> Outcome
    ensures { outcome_view result ≡ displaced reg v }
{
    if CFP_M < v {
        return Outcome::Misfits;
    }
    gives(INDEXED_KIND, reg, v)
}

pub fn displaced_words(reg: u32, v: u64) -> Outcome
    ensures { outcome_view result ≡ displaced reg (cfp_b * v) }
{
    if CFP_M < v {
        return Outcome::Misfits;
    }
    displaced_bytes(reg, CFP_B * v)
}

// VAL: an EQU symbol [M section 7, VAL].
fn value_by(limit: u32, m: Meaning) -> Outcome
    ensures { outcome_view result ≡ value_by limit (meaning_view m) }
{
    match m {
        Meaning::Undefined => Outcome::Unnamed,
        Meaning::Sortless => Outcome::Misfits,
        Meaning::ExternalOf(_) => Outcome::Misfits,
        Meaning::AddressOf(_) => Outcome::Misfits,
        Meaning::ValueOf(e) => value_within(limit, e.value),
        Meaning::PlaceOf(_) => Outcome::Misfits,
        Meaning::Lacking(_) => Outcome::Misfits,
    }
}

// *DLBL: four times an EQU symbol [M section 7, 19].
pub fn multiple_by(m: Meaning) -> Outcome
    requires { Fits m }
    ensures { outcome_view result ≡ multiple_by (meaning_view m) }
{
    match m {
        Meaning::Undefined => Outcome::Unnamed,
        Meaning::Sortless => Outcome::Misfits,
        Meaning::ExternalOf(_) => Outcome::Misfits,
        Meaning::AddressOf(_) => Outcome::Misfits,
        Meaning::ValueOf(e) => value_within(Machine::CFP_M, CFP_B * e.value),
        Meaning::PlaceOf(_) => Outcome::Misfits,
        Meaning::Lacking(_) => Outcome::Misfits,
    }
}

// In an EQU, the value of an EQU symbol of an earlier line [M 12.1].
fn earlier_value(line: u32, e: Equal) -> Outcome
    ensures { outcome_view result ≡ if (ltb e.line line) (value_within cfp_m e.value) unnamed }
{
    if e.line < (line as u64) {
        return value_within(Machine::CFP_M, e.value);
    }
    Outcome::Unnamed
}

pub fn equal_by(line: u32, m: Meaning) -> Outcome
    ensures { outcome_view result ≡ equal_by line (meaning_view m) }
{
    match m {
        Meaning::Undefined => Outcome::Unnamed,
        Meaning::Sortless => Outcome::Misfits,
        Meaning::ExternalOf(_) => Outcome::Misfits,
        Meaning::AddressOf(_) => Outcome::Misfits,
        Meaning::ValueOf(e) => earlier_value(line, e),
        Meaning::PlaceOf(_) => Outcome::Misfits,
        Meaning::Lacking(_) => Outcome::Misfits,
    }
}

// An entry label's value [S Cards].
fn entry_value(p: Placed) -> Outcome
    requires { (p.sort ≤ last_sort) × (p.place ≤ most_places) }
    ensures { outcome_view result ≡ if (is_sort entry (sort_at p.sort)) (gives value_kind 0 (entry_base + cfp_b * p.place)) misfits }
{
    if p.sort == Sort::ENTRY {
        return gives(VALUE_KIND, 0, ENTRY_BASE + CFP_B * p.place);
    }
    Outcome::Misfits
}

// A place of one sort.
fn place_of_sort(p: Placed, sort: u64) -> Outcome
    requires { (p.sort ≤ last_sort) × (p.place ≤ most_places) × (sort ≤ last_sort) }
    ensures { outcome_view result ≡ if (is_sort (sort_at sort) (sort_at p.sort)) (gives place_kind 0 p.place) misfits }
{
    if p.sort == sort {
        return gives(PLACE_KIND, 0, p.place);
    }
    Outcome::Misfits
}

// A declaration of one sort still awaits its place.
fn awaits_of_sort(p: Placeless, sort: u64) -> Outcome
    requires { (p.sort ≤ last_sort) × (sort ≤ last_sort) }
    ensures { outcome_view result ≡ if (is_sort (sort_at sort) (sort_at p.sort)) awaits misfits }
{
    if p.sort == sort {
        return Outcome::Awaits;
    }
    Outcome::Misfits
}

// =DLBL, =WLBL, =CLBL, =ELBL and the operand of DAC [M section 7, 18 to 22].
pub fn literal_by(m: Meaning) -> Outcome
    requires { Fits m }
    ensures { outcome_view result ≡ literal_by (meaning_view m) }
{
    match m {
        Meaning::Undefined => Outcome::Unnamed,
        Meaning::Sortless => Outcome::Misfits,
        Meaning::ExternalOf(_) => Outcome::Misfits,
        Meaning::AddressOf(a) => gives(VALUE_KIND, 0, a),
        Meaning::ValueOf(e) => gives(VALUE_KIND, 0, e.value),
        Meaning::PlaceOf(p) => entry_value(p),
        Meaning::Lacking(p) => awaits_of_sort(p, Sort::GLOBAL),
    }
}

// WLBL, CLBL: a word [M section 7, 03, 04].
fn address_by(m: Meaning) -> Outcome
    requires { Fits m }
    ensures { outcome_view result ≡ address_by (meaning_view m) }
{
    match m {
        Meaning::Undefined => Outcome::Unnamed,
        Meaning::Sortless => Outcome::Misfits,
        Meaning::ExternalOf(_) => Outcome::Misfits,
        Meaning::AddressOf(a) => gives(ADDRESS_KIND, 0, a),
        Meaning::ValueOf(_) => Outcome::Misfits,
        Meaning::PlaceOf(_) => Outcome::Misfits,
        Meaning::Lacking(_) => Outcome::Misfits,
    }
}

// DLBL(X), CLBL(X), WLBL(X): words past X, or the label's address added [S Cards].
pub fn displaced_by(reg: u32, m: Meaning) -> Outcome
    ensures { outcome_view result ≡ displaced_by reg (meaning_view m) }
{
    match m {
        Meaning::Undefined => Outcome::Unnamed,
        Meaning::Sortless => Outcome::Misfits,
        Meaning::ExternalOf(_) => Outcome::Misfits,
        Meaning::AddressOf(a) => displaced_bytes(reg, a),
        Meaning::ValueOf(e) => displaced_words(reg, e.value),
        Meaning::PlaceOf(_) => Outcome::Misfits,
        Meaning::Lacking(_) => Outcome::Misfits,
    }
}

// PLBL: any label of sections 4 to 6 [S Shape rules].
fn place_by(m: Meaning) -> Outcome
    requires { Fits m }
    ensures { outcome_view result ≡ place_by (meaning_view m) }
{
    match m {
        Meaning::Undefined => Outcome::Unnamed,
        Meaning::Sortless => Outcome::Misfits,
        Meaning::ExternalOf(_) => Outcome::Misfits,
        Meaning::AddressOf(_) => Outcome::Misfits,
        Meaning::ValueOf(_) => Outcome::Misfits,
        Meaning::PlaceOf(p) => gives(PLACE_KIND, 0, p.place),
        Meaning::Lacking(_) => Outcome::Awaits,
    }
}

// PNAM: a PRC or an EXP [S Shape rules].
fn callee_by(m: Meaning) -> Outcome
    requires { Fits m }
    ensures { outcome_view result ≡ callee_by (meaning_view m) }
{
    match m {
        Meaning::Undefined => Outcome::Unnamed,
        Meaning::Sortless => Outcome::Misfits,
        Meaning::ExternalOf(n) => gives(EXTERNAL_KIND, 0, n),
        Meaning::AddressOf(_) => Outcome::Misfits,
        Meaning::ValueOf(_) => Outcome::Misfits,
        Meaning::PlaceOf(p) => place_of_sort(p, Sort::PROCEDURE),
        Meaning::Lacking(p) => awaits_of_sort(p, Sort::INTERNAL),
    }
}

// A place that a GLB declares.
fn global_place(p: Placed) -> Outcome
    requires { p.place ≤ most_places }
    ensures { outcome_view result ≡ if p.global (gives place_kind 0 p.place) misfits }
{
    if p.global {
        return gives(PLACE_KIND, 0, p.place);
    }
    Outcome::Misfits
}

fn global_awaits(p: Placeless) -> Outcome
    ensures { outcome_view result ≡ if p.global awaits misfits }
{
    if p.global {
        return Outcome::Awaits;
    }
    Outcome::Misfits
}

// GLBL: a GLB [S Shape rules].
fn global_by(m: Meaning) -> Outcome
    requires { Fits m }
    ensures { outcome_view result ≡ global_by (meaning_view m) }
{
    match m {
        Meaning::Undefined => Outcome::Unnamed,
        Meaning::Sortless => Outcome::Misfits,
        Meaning::ExternalOf(_) => Outcome::Misfits,
        Meaning::AddressOf(_) => Outcome::Misfits,
        Meaning::ValueOf(_) => Outcome::Misfits,
        Meaning::PlaceOf(p) => global_place(p),
        Meaning::Lacking(p) => global_awaits(p),
    }
}

// A symbol, by the format that takes it, on a line.
pub fn symbol_by(format: u32, line: u32, m: Meaning) -> Outcome
    requires { Fits m }
    ensures { outcome_view result ≡ symbol_by (format_of format) line (meaning_view m) }
{
    match format / TAG {
        VAL_TAG => value_by(largest(format), m),
        SHIFT_TAG => value_by(largest(format), m),
        EQOP_TAG => equal_by(line, m),
        ADDR_TAG => literal_by(m),
        PLBL_TAG => place_by(m),
        PNAM_TAG => callee_by(m),
        GLBL_TAG => global_by(m),
        _ => address_by(m),
    }
}
