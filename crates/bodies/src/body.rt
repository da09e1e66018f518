// The body of each place, found in one pass over the table [S Shape rules].
ghost use Rattle.std.specs.Prelude.{◌≡◌, ◌<◌, length};
ghost use Rattle.ops.specs.Ops.{class_in, rows};
ghost use Rattle.rules.specs.Table.{body_after};
ghost use Rattle.bodies.specs.Bodies.{Entries, Filled};

use super::entry::{ENP, ENTRY, HEADER, PRC};
use ops::constants::Machine;

// Words for the body of each place of any table, and of the place past the last.
pub const ROOM: usize = Machine::MAX_INSTRS + 1;

// The body that is open after the operation op at place p: 0 outside procedures, else 1 + the place of the PRC.
fn after_entry(op: u32, p: u32, b: u32) -> u32
    requires { p < 16384 }
    ensures { result ≡ body_after (class_in op rows) p b }
{
    if op == PRC {
        return p + 1;
    }
    if op == ENP {
        return 0;
    }
    b
}

// The body of each place of a table of n entries, and of the place past the last.
pub fn bodies(t: &[u32], n: usize, body: &mut [u32])
    requires { Entries t.now n × (n < length body.old) }
    ensures { Filled t.now n body.new }
{
    let mut b: u32 = 0;
    body[0] = 0;
    for p in 0..n {
        b = after_entry(t[HEADER + ENTRY * p], p as u32, b);
        body[p + 1] = b;
    }
}
