// Blocks of memory: CMC, TRC, MVC, MVW. XL and XR are the addresses and WA is the length, in bytes.
// Each answers 64 + the offset of the next entry or of the place that it branches to, or 22 or 23, which leave registers and memory as they were.
#![tactic(auto)]

ghost use Rattle.std.specs.Prelude.{◌≡◌, ◌≤◌, ◌+◌, length};
ghost use Rattle.base.specs.Test.{◌and◌};
ghost use Rattle.base.specs.Lists.{◌at◌};
ghost use Rattle.ops.specs.Machine.{max_memory, max_instrs};
ghost use Rattle.ops.specs.Format.{place_kind};
ghost use Rattle.ops.specs.Ops as Op;
ghost use Rattle.rules.specs.Table.{entry_at};
ghost use Rattle.rules.specs.Effect.{shown};
ghost use Rattle.exec_core.specs.Views.{does, branches, way_of};
ghost use Rattle.exec_core.specs.Entry.{Entry, readable, is_place, going};
ghost use Rattle.exec_blocks.specs.Blocks.{words_fit, leaving};

use block_chars::both_fit;
use block_copy::{move_chars, move_words};
use block_order::order_chars;
use block_translate::translate;
use exec_core::Answer;
use exec_core::operands::{index, to_first, to_second};
use ops::constants::Machine;

// Whether n bytes from the addresses a and e on are whole words of memory.
fn words_fit(m: &[u32], a: u32, e: u32, n: u32) -> bool
    requires { length m.now ≤ max_memory }
    ensures { result ≡ words_fit m.now a e n }
{
    if a % Machine::CFP_B == 0 {
        if e % Machine::CFP_B == 0 {
            return both_fit(m, a, n, e, n);
        }
    }
    false
}

// XL := xl, XR := xr, WA := 0.
fn leave(z: &mut [u32; 16], xl: u32, xr: u32)
    ensures { z.new ≡ leaving xl xr z.old }
{
    z[Machine::XL] = xl;
    z[Machine::XR] = xr;
    z[Machine::WA] = 0;
}

// The answer that branches to operand one or two by k, or goes on.
fn branch(t: &[u32], b: usize, k: u32) -> usize
    requires { (b + 8 ≤ length t.now) × (b ≤ entry_at max_instrs) × (t.now at (b + 1) ≡ place_kind) × (t.now at (b + 4) ≡ place_kind) × (k ≤ 2) }
    ensures { result ≡ way_of t.now b k }
{
    if k == 1 {
        return to_first(t, b);
    }
    if k == 2 {
        return to_second(t, b);
    }
    b + Answer::ON
}

// [M 6.8] CMC: to operand one or two where the WA characters at XL are below or above those at XR; XL, XR and WA := 0
pub fn cmc(t: &[u32], b: usize, m: &[u32], z: &mut [u32; 16]) -> usize
    requires { Entry is_place is_place going t.now b z.old × (length m.now ≤ max_memory) }
    ensures { shown result z.new m.now ≡ branches t.now b 0 0 z.old m.now Op.CMC }
{
    let a = z[Machine::XL];
    let e = z[Machine::XR];
    let n = z[Machine::WA];
    if n == 0 {
        leave(z, 0, 0);
        return b + Answer::ON;
    }
    if both_fit(m, a, n, e, n) {
        let k = order_chars(m, a, e, n);
        leave(z, 0, 0);
        return branch(t, b, k);
    }
    Answer::BAD_ADDRESS
}

// [M 6.9] TRC: the WA characters at XL by the table of CFP$A characters at XR; XL, XR and WA := 0
pub fn trc(t: &[u32], b: usize, m: &mut [u32], z: &mut [u32; 16], c: usize) -> usize
    requires { Entry readable readable going t.now b z.old × (length m.old ≤ max_memory) }
    ensures { shown result z.new m.new ≡ does t.now b 0 c z.old m.old Op.TRC }
{
    let a = z[Machine::XL];
    let e = z[Machine::XR];
    let n = z[Machine::WA];
    if n == 0 {
        leave(z, 0, 0);
        return b + Answer::ON;
    }
    if both_fit(m, a, n, e, Machine::CFP_A) {
        if index(a / Machine::CFP_B) < c {
            return Answer::CONSTANT_WRITE;
        }
        translate(m, a, e, n);
        leave(z, 0, 0);
        return b + Answer::ON;
    }
    Answer::BAD_ADDRESS
}

// [M 9.1] MVC: the WA characters at XL to XR; XL and XR move past them, WA := 0
pub fn mvc(t: &[u32], b: usize, m: &mut [u32], z: &mut [u32; 16], c: usize) -> usize
    requires { Entry readable readable going t.now b z.old × (length m.old ≤ max_memory) }
    ensures { shown result z.new m.new ≡ does t.now b 0 c z.old m.old Op.MVC }
{
    let a = z[Machine::XL];
    let e = z[Machine::XR];
    let n = z[Machine::WA];
    if n == 0 {
        return b + Answer::ON;
    }
    if both_fit(m, a, n, e, n) {
        if index(e / Machine::CFP_B) < c {
            return Answer::CONSTANT_WRITE;
        }
        move_chars(m, a, e, n);
        leave(z, a + n, e + n);
        return b + Answer::ON;
    }
    Answer::BAD_ADDRESS
}

// [M 9.3] MVW: the words of WA bytes at XL to XR; XL and XR move past them, WA := 0
pub fn mvw(t: &[u32], b: usize, m: &mut [u32], z: &mut [u32; 16], c: usize) -> usize
    requires { Entry readable readable going t.now b z.old × (length m.old ≤ max_memory) }
    ensures { shown result z.new m.new ≡ does t.now b 0 c z.old m.old Op.MVW }
{
    let a = z[Machine::XL];
    let e = z[Machine::XR];
    let n = z[Machine::WA];
    if n % Machine::CFP_B != 0 {
        return Answer::BAD_ADDRESS;
    }
    if n == 0 {
        return b + Answer::ON;
    }
    if words_fit(m, a, e, n) {
        if index(e / Machine::CFP_B) < c {
            return Answer::CONSTANT_WRITE;
        }
        move_words(
            m,
            index(a / Machine::CFP_B),
            index(e / Machine::CFP_B),
            index(n / Machine::CFP_B),
        );
        leave(z, a + n, e + n);
        return b + Answer::ON;
    }
    Answer::BAD_ADDRESS
}
