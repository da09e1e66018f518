// What a JSR names: a procedure, by its PRC, or an EXP [S Shape rules].
ghost use Rattle.std.specs.Prelude.{◌≡◌, Bool, ◌<◌};
ghost use Rattle.rules.specs.State.{wait_ok};
ghost use Rattle.rules.specs.Table.{calls};
ghost use Rattle.bodies.specs.Bodies.{Entries};

use bodies::entry::{ENTRY, EXTERNALS, HEADER, JSR, KIND, PRC, VALUE, index};
use ops::format::{EXTERNAL_KIND, PLACE_KIND};

// 1 + the place of the PRC that the JSR at place j names, or 0 where there is no such JSR; j may lie past the table.
// A number, since it is compared with the words of the bodies.
pub fn callee_of(t: &[u32], n: usize, j: usize) -> usize
    requires { Entries t.now n }
    ensures { result ≡ calls t.now j }
{
    if n <= j {
        return 0;
    }
    if t[HEADER + ENTRY * j] != JSR {
        return 0;
    }
    if t[HEADER + ENTRY * j + KIND] != PLACE_KIND {
        return 0;
    }
    let q = index(t[HEADER + ENTRY * j + VALUE]);
    if n <= q {
        return 0;
    }
    if t[HEADER + ENTRY * q] != PRC {
        return 0;
    }
    q + 1
}

// The entry at place p is a JSR to an EXP.
pub fn awaits(t: &[u32], n: usize, p: usize) -> bool
    requires { Entries t.now n }
    ensures { result ≡ wait_ok t.now p Bool.true }
{
    if n <= p {
        return false;
    }
    if t[HEADER + ENTRY * p] != JSR {
        return false;
    }
    let kind = t[HEADER + ENTRY * p + KIND];
    if kind != EXTERNAL_KIND {
        return false;
    }
    t[HEADER + ENTRY * p + VALUE] < t[EXTERNALS]
}
