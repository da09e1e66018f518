// The chain of links: each link against the one just beneath it [S Numbers the host sees].
ghost use Rattle.std.specs.Prelude.{◌≡◌, ◌≤◌, ◌<◌, length, take};
ghost use Rattle.rules.specs.State.{chain, held, opened, top_link};
ghost use Rattle.rules.specs.Table.{body_at};
ghost use Rattle.bodies.specs.Bodies.{Entries, Filled};

use super::calls::callee_of;
use bodies::entry::index;

// Each of the k oldest links is a JSR to a procedure, and has a link to its own body's procedure just beneath.
pub fn chained(t: &[u32], n: usize, body: &[u32], links: &[u32], k: usize) -> bool
    requires { Entries t.now n × Filled t.now n body.now × (k ≤ length links.now) }
    ensures { result ≡ chain t.now 0 (take k links.now) }
{
    let mut beneath: usize = 0;
    for link in &links[..k] {
        let j = index(*link);
        let to = callee_of(t, n, j);
        if to == 0 {
            return false;
        }
        let b = index(body[j]);
        if b != 0 {
            if beneath != b {
                return false;
            }
        }
        beneath = to;
    }
    true
}

// Code at place p has a link to its procedure on top of the k oldest links.
pub fn covered(t: &[u32], n: usize, body: &[u32], links: &[u32], k: usize, p: usize) -> bool
    requires { Entries t.now n × Filled t.now n body.now × (k ≤ length links.now) × (p < n) }
    ensures { result ≡ held t.now (body_at t.now p) (top_link 0 (take k links.now)) }
{
    let b = index(body[p]);
    if b == 0 {
        return true;
    }
    if k == 0 {
        return false;
    }
    callee_of(t, n, index(links[k - 1])) == b
}
