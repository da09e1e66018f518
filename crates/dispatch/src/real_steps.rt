// One step of a real operation that computes, tests or converts, by its number. Its arms are long: folded into the loop of all operations they slow down the others.
ghost use Rattle.std.specs.Prelude.{◌≡◌};
ghost use Rattle.base.specs.Test.{Ok};
ghost use Rattle.base.specs.Lists.{◌at◌, member};
ghost use Rattle.exec_core.specs.Seen.{Running, open_links, seen, step_seen};
ghost use Rattle.dispatch.specs.Reals.{real_numbers};

use exec_core::Answer;
use exec_reals::{arithmetic, compare, itr, ngr, rti};
use reals::{Arithmetic, Comparison};

// The links are lent to be read: no real operation changes them.
pub fn real_step(
    t: &[u32],
    b: usize,
    m: &mut [u32],
    z: &mut [u32; 16],
    links: &[u32; 257],
    c: usize,
) -> usize
    requires { Running t.now b z.old m.old links.now c × Ok (member (t.now at b) real_numbers) }
    ensures { seen result z.new m.new (open_links links.now) ≡ step_seen t.now b z.old m.old (open_links links.now) }
{
    match t[b] {
        503 => arithmetic(t, b, m, z, Arithmetic::Sum),
        504 => arithmetic(t, b, m, z, Arithmetic::Difference),
        505 => arithmetic(t, b, m, z, Arithmetic::Product),
        506 => arithmetic(t, b, m, z, Arithmetic::Quotient),
        509 => ngr(t, b, z),
        510 => compare(t, b, z, Comparison::Equal),
        511 => compare(t, b, z, Comparison::NotLess),
        512 => compare(t, b, z, Comparison::Greater),
        513 => compare(t, b, z, Comparison::NotGreater),
        514 => compare(t, b, z, Comparison::Less),
        515 => compare(t, b, z, Comparison::NotEqual),
        805 => itr(t, b, z),
        806 => rti(t, b, z),
        _ => Answer::LOST,
    }
}
