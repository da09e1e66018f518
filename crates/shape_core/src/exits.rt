// Exit lists: a JSR has exactly the declared count of PPM or ERR cards below it [S Shape rules].
ghost use Rattle.std.specs.Prelude.{◌≡◌, ◌≤◌, ◌<◌};
ghost use Rattle.ops.specs.Class.{JSR};
ghost use Rattle.rules.specs.Check as Check;
ghost use Rattle.rules.specs.Table.{class_at, callee};
ghost use Rattle.shape_core.specs.Counted.{exits_of};

use crate::reach::Places;
use ops::class;
use ops::format::{EXTERNAL_KIND, PLACE_KIND};
use table_layout::{ENTRY, HEADER, KIND, VALUE, index, word};

impl<'a> Places<'a> {
    // An exit card stands at q.
    pub fn is_exit(&self, q: usize) -> bool
        ensures { result ≡ Check.is_exit (class_at self.now.table.now q) }
    {
        let k = self.class_at(q);
        if k == class::PPM {
            return true;
        }
        k == class::ERR
    }

    // Exactly k exit cards stand from place p on.
    pub fn exit_list(&self, p: usize, count: u32) -> bool
        requires { p ≤ self.now.n }
        ensures { result ≡ Check.exit_list self.now.table.now p count }
    {
        let k = index(count);
        for i in 0..k {
            if !self.is_exit(p + i) {
                return false;
            }
        }
        !self.is_exit(p + k)
    }

    // How many exits the callee of the JSR at p declares; None where it names none.
    pub fn exits_of(&self, p: usize) -> Option<u32>
        requires { p < self.now.n }
        ensures { result ≡ exits_of self.now.table.now (callee self.now.table.now p) }
    {
        let kind = word(self.table, p, KIND);
        let v = index(word(self.table, p, VALUE));
        if kind == PLACE_KIND {
            if self.class_at(v) != class::PRC {
                return None;
            }
            return Some(word(self.table, v, VALUE));
        }
        if kind != EXTERNAL_KIND {
            return None;
        }
        if index(self.table[4]) <= v {
            return None;
        }
        Some(self.table[HEADER + ENTRY * self.n + index(self.table[3]) + v])
    }

    // JSR: its callee is named, its exits stand below it, and it goes on past them.
    pub fn jsr_ok(&self, p: usize) -> bool
        requires { p < self.now.n }
        ensures { result ≡ Check.holds (Check.flow_rules self.now.table.now p JSR) }
    {
        let Some(k) = self.exits_of(p) else {
            return false;
        };
        if !self.exit_list(p + 1, k) {
            return false;
        }
        self.reaches(p, p + 1 + index(k))
    }
}
