// Bits and conversions: ANB, ORB, XOB, CMB, RSH, LSH, RSX, LSX, WTB, BTW, CTW, CTB, WTC, and CSC, ZGB, BTC, which do nothing.
// Each answers 64 + the offset of the next entry, or 22, which leaves the registers as they were.
// Each has a function, also where two do the same (RSH and RSX): `dispatch` calls it from one arm, and so it is folded into the loop.
#![tactic(auto)]

ghost use Rattle.std.specs.Prelude.{◌≡◌, ◌≤◌, ◌+◌, length};
ghost use Rattle.base.specs.Lists.{◌at◌};
ghost use Rattle.ops.specs.Machine.{max_instrs};
ghost use Rattle.ops.specs.Ops as Op;
ghost use Rattle.rules.specs.Table.{entry_at};
ghost use Rattle.exec_core.specs.Views.{operand_at};
ghost use Rattle.exec_core.specs.Entry.{Entry, Sound, readable, in_register, held_here, going};
ghost use Rattle.exec_bits.specs.Registers.{Holds, Puts, AnyMemory, AnyConstants, Idle};

use exec_core::Answer;
use exec_core::operands::{act, fetch, index, joined, operand};

// What the register holds whose operand stands in the table from i on.
fn register(t: &[u32], i: usize, z: &[u32; 16]) -> u32
    requires { (i + 3 ≤ length t.now) × Sound in_register (operand_at t.now i) }
    ensures { Holds z.now (operand_at t.now i) result }
{
    let o = operand(t, i);
    let x = index(o.reg);
    z[x]
}

// What a value or a register holds.
fn held(t: &[u32], i: usize, z: &[u32; 16]) -> u32
    requires { (i + 3 ≤ length t.now) × Sound held_here (operand_at t.now i) × (z.now at 0 ≡ 0) }
    ensures { Holds z.now (operand_at t.now i) result }
{
    let o = operand(t, i);
    let x = index(o.reg);
    joined(z[x], o.val)
}

// The register := v; the answer is `on`.
fn put(t: &[u32], i: usize, z: &mut [u32; 16], v: u32, on: usize) -> usize
    requires { (i + 3 ≤ length t.now) × Sound in_register (operand_at t.now i) }
    ensures { Puts result z.new on z.old (operand_at t.now i) v }
{
    let o = operand(t, i);
    let x = index(o.reg);
    z[x] = v;
    on
}

// [M 6.5] CSC: nothing, since each character is stored as it is put
pub fn csc(b: usize) -> usize
    requires { b ≤ entry_at max_instrs }
    ensures { Idle result b Op.idle }
{
    b + Answer::ON
}

// [M 7.1] ANB: register two := the bits set in operand one and in register two
pub fn anb(t: &[u32], b: usize, m: &[u32], z: &mut [u32; 16]) -> usize
    requires { Entry readable in_register going t.now b z.old }
    ensures { AnyConstants result z.new t.now b z.old m.now Op.ANB }
{
    let one = operand(t, b + 1);
    let Some(v) = fetch(m, z, one) else {
        return Answer::BAD_ADDRESS;
    };
    act(z, one);
    let w = register(t, b + 4, z);
    put(t, b + 4, z, words::anb(v, w), b + Answer::ON)
}

// [M 7.2] ORB: register two := the bits set in operand one or in register two
pub fn orb(t: &[u32], b: usize, m: &[u32], z: &mut [u32; 16]) -> usize
    requires { Entry readable in_register going t.now b z.old }
    ensures { AnyConstants result z.new t.now b z.old m.now Op.ORB }
{
    let one = operand(t, b + 1);
    let Some(v) = fetch(m, z, one) else {
        return Answer::BAD_ADDRESS;
    };
    act(z, one);
    let w = register(t, b + 4, z);
    put(t, b + 4, z, words::orb(v, w), b + Answer::ON)
}

// [M 7.3] XOB: register two := the bits set in just one of operand one and register two
pub fn xob(t: &[u32], b: usize, m: &[u32], z: &mut [u32; 16]) -> usize
    requires { Entry readable in_register going t.now b z.old }
    ensures { AnyConstants result z.new t.now b z.old m.now Op.XOB }
{
    let one = operand(t, b + 1);
    let Some(v) = fetch(m, z, one) else {
        return Answer::BAD_ADDRESS;
    };
    act(z, one);
    let w = register(t, b + 4, z);
    put(t, b + 4, z, words::xob(v, w), b + Answer::ON)
}

// [M 7.4] CMB: register one := its bits, each the other way
pub fn cmb(t: &[u32], b: usize, z: &mut [u32; 16]) -> usize
    requires { Entry in_register readable going t.now b z.old }
    ensures { AnyMemory result z.new t.now b z.old Op.CMB }
{
    let w = register(t, b + 1, z);
    put(t, b + 1, z, words::cmb(w), b + Answer::ON)
}

// [M 7.5] RSH: register one := its bits, moved right by operand two
pub fn rsh(t: &[u32], b: usize, z: &mut [u32; 16]) -> usize
    requires { Entry in_register held_here going t.now b z.old }
    ensures { AnyMemory result z.new t.now b z.old Op.RSH }
{
    let w = register(t, b + 1, z);
    let n = held(t, b + 4, z);
    put(t, b + 1, z, words::shift_right(w, n), b + Answer::ON)
}

// [M 7.6] LSH: register one := its bits, moved left by operand two
pub fn lsh(t: &[u32], b: usize, z: &mut [u32; 16]) -> usize
    requires { Entry in_register held_here going t.now b z.old }
    ensures { AnyMemory result z.new t.now b z.old Op.LSH }
{
    let w = register(t, b + 1, z);
    let n = held(t, b + 4, z);
    put(t, b + 1, z, words::shift_left(w, n), b + Answer::ON)
}

// [M 7.7] RSX: register one := its bits, moved right by the number in register two
pub fn rsx(t: &[u32], b: usize, z: &mut [u32; 16]) -> usize
    requires { Entry in_register held_here going t.now b z.old }
    ensures { AnyMemory result z.new t.now b z.old Op.RSX }
{
    let w = register(t, b + 1, z);
    let k = held(t, b + 4, z);
    put(t, b + 1, z, words::shift_right(w, k), b + Answer::ON)
}

// [M 7.8] LSX: register one := its bits, moved left by the number in register two
pub fn lsx(t: &[u32], b: usize, z: &mut [u32; 16]) -> usize
    requires { Entry in_register held_here going t.now b z.old }
    ensures { AnyMemory result z.new t.now b z.old Op.LSX }
{
    let w = register(t, b + 1, z);
    let k = held(t, b + 4, z);
    put(t, b + 1, z, words::shift_left(w, k), b + Answer::ON)
}

// [M 7.11] ZGB: nothing, since no bit of a word is unused
pub fn zgb(b: usize) -> usize
    requires { b ≤ entry_at max_instrs }
    ensures { Idle result b Op.idle }
{
    b + Answer::ON
}

// [M 8.1] WTB: register one := the bytes of that many words, wrapped
pub fn wtb(t: &[u32], b: usize, z: &mut [u32; 16]) -> usize
    requires { Entry in_register readable going t.now b z.old }
    ensures { AnyMemory result z.new t.now b z.old Op.WTB }
{
    let w = register(t, b + 1, z);
    put(t, b + 1, z, words::wtb(w), b + Answer::ON)
}

// [M 8.2] BTW: register one := the words of that many bytes, rounded down
pub fn btw(t: &[u32], b: usize, z: &mut [u32; 16]) -> usize
    requires { Entry in_register readable going t.now b z.old }
    ensures { AnyMemory result z.new t.now b z.old Op.BTW }
{
    let w = register(t, b + 1, z);
    put(t, b + 1, z, words::btw(w), b + Answer::ON)
}

// [M 8.7] CTW: register one := the words that hold that many characters, and operand two more
pub fn ctw(t: &[u32], b: usize, z: &mut [u32; 16]) -> usize
    requires { Entry in_register held_here going t.now b z.old }
    ensures { AnyMemory result z.new t.now b z.old Op.CTW }
{
    let w = register(t, b + 1, z);
    let v = held(t, b + 4, z);
    put(t, b + 1, z, words::ctw(w, v), b + Answer::ON)
}

// [M 8.8] CTB: register one := the bytes of the words that hold that many characters, and operand two more
pub fn ctb(t: &[u32], b: usize, z: &mut [u32; 16]) -> usize
    requires { Entry in_register held_here going t.now b z.old }
    ensures { AnyMemory result z.new t.now b z.old Op.CTB }
{
    let w = register(t, b + 1, z);
    let v = held(t, b + 4, z);
    put(t, b + 1, z, words::ctb(w, v), b + Answer::ON)
}

// [M 8.9] BTC: nothing, since a character is a byte
pub fn btc(b: usize) -> usize
    requires { b ≤ entry_at max_instrs }
    ensures { Idle result b Op.BTC }
{
    b + Answer::ON
}

// [M 8.10] WTC: register one := the characters of that many words, wrapped
pub fn wtc(t: &[u32], b: usize, z: &mut [u32; 16]) -> usize
    requires { Entry in_register readable going t.now b z.old }
    ensures { AnyMemory result z.new t.now b z.old Op.WTC }
{
    let w = register(t, b + 1, z);
    put(t, b + 1, z, words::wtc(w), b + Answer::ON)
}
