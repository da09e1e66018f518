// Places: their classes and bodies, and the places that one may go to [S Shape rules].
ghost use Rattle.std.specs.Prelude.{◌≡◌, suc, ◌+◌, ◌*◌, ◌≤◌, ◌<◌, eqb, length};
ghost use Rattle.base.specs.Test.{◌and◌};
ghost use Rattle.ops.specs.Class.{class_code};
ghost use Rattle.rules.specs.Check as Check;
ghost use Rattle.rules.specs.Table.{class_at, body_at, executable, target1, target2};
ghost use Rattle.shape_core.specs.Known.{Known, target_of};

use ops::class::*;
use ops::format::PLACE_KIND;
use table_layout::{KIND, KIND_TWO, VALUE, VALUE_TWO, index, word};

// A laid table of n entries with what is known of its places: the class and the body of each, and of the one past the last.
#[derive(Clone, Copy)]
pub struct Places<'a> {
    pub table: &'a [u32],
    pub classes: &'a [u32],
    pub body: &'a [u32],
    pub n: usize,
    ghost known: { Known table.now classes.now body.now n },
}

// The number of classes that can be executed.
pub const EXECUTABLE: u32 = 13;

impl<'a> Places<'a> {
    // The class of any place.
    pub fn class_at(&self, q: usize) -> u32
        ensures { result ≡ class_code (class_at self.now.table.now q) }
    {
        if self.n <= q {
            return NO_CLASS;
        }
        self.classes[q]
    }

    // A place stands outside procedures.
    pub fn is_outside(&self, p: usize) -> bool
        requires { p ≤ self.now.n }
        ensures { result ≡ Check.outside self.now.table.now p }
    {
        self.body[p] == 0
    }

    // q can be arrived at, and its body is b.
    fn enters(&self, q: usize, b: u32) -> bool
        ensures { result ≡ (executable self.now.table.now q and eqb (body_at self.now.table.now q) b) }
    {
        if self.n <= q {
            return false;
        }
        if EXECUTABLE <= self.classes[q] {
            return false;
        }
        self.body[q] == b
    }

    // q can be arrived at and lies in the body of p.
    pub fn reaches(&self, p: usize, q: usize) -> bool
        requires { p ≤ self.now.n }
        ensures { result ≡ Check.reaches self.now.table.now p q }
    {
        self.enters(q, self.body[p])
    }

    // q can be arrived at and stands outside procedures.
    pub fn enters_outside(&self, q: usize) -> bool
        ensures { result ≡ Check.is_outside self.now.table.now q }
    {
        self.enters(q, 0)
    }

    // A branch that may be missing stays in the body of p.
    pub fn may_reach(&self, p: usize, x: usize) -> bool
        requires { p ≤ self.now.n }
        ensures { result ≡ Check.may_reach self.now.table.now p x }
    {
        if x == 0 {
            return true;
        }
        self.reaches(p, x - 1)
    }

    // A branch that may not be missing stays in the body of p.
    pub fn must_reach(&self, p: usize, x: usize) -> bool
        requires { p ≤ self.now.n }
        ensures { result ≡ Check.must_reach self.now.table.now p x }
    {
        if x == 0 {
            return false;
        }
        self.reaches(p, x - 1)
    }

    // The target of a JMG stands outside procedures.
    pub fn global_target(&self, x: usize) -> bool
        ensures { result ≡ Check.global_target self.now.table.now x }
    {
        if x == 0 {
            return false;
        }
        self.enters_outside(x - 1)
    }
}

// A place operand by its kind and its value: 0 for none, else 1 + the place, and no Option, since a table holds its third operands so.
fn target(kind: u32, v: u32) -> usize
    ensures { result ≡ target_of kind v }
{
    if kind != PLACE_KIND {
        return 0;
    }
    v as usize + 1
}

// Place operand one of the entry at place p: 0 for none, else 1 + the place.
pub fn target_one(table: &[u32], p: usize) -> usize
    requires { 8 + 8 * p + 7 < length table.now }
    ensures { result ≡ target1 table.now p }
{
    target(word(table, p, KIND), word(table, p, VALUE))
}

// Place operand two of the entry at place p: 0 for none, else 1 + the place.
pub fn target_two(table: &[u32], p: usize) -> usize
    requires { 8 + 8 * p + 7 < length table.now }
    ensures { result ≡ target2 table.now p }
{
    target(word(table, p, KIND_TWO), word(table, p, VALUE_TWO))
}
