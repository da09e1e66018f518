// Branches: BEQ to BHI, BNZ, BZE, BCT, CEQ, CNE, NZB, ZRB, and the tests of IA and its flag.
// Each answers 64 + the offset of the next entry or of the place that it branches to, or 22, which leaves the registers as they were.
// Each has a function, also where two do the same (BLT and BLO): `dispatch` calls it from one arm, and so it is folded into the loop.
#![tactic(auto)]

ghost use Rattle.std.specs.Prelude.{◌≡◌, ◌<◌, ◌≤◌, ◌+◌, length};
ghost use Rattle.base.specs.Lists.{◌at◌};
ghost use Rattle.ops.specs.Machine.{max_instrs};
ghost use Rattle.ops.specs.Format.{place_kind};
ghost use Rattle.ops.specs.Ops as Op;
ghost use Rattle.rules.specs.Table.{entry_at};
ghost use Rattle.rules.specs.Effect.{shown};
ghost use Rattle.rules.specs.Exec.{fork};
ghost use Rattle.exec_core.specs.Views.{operand_at, branches, way_of};
ghost use Rattle.exec_core.specs.Entry.{Entry, readable, is_place, in_register, going, branching};
ghost use Rattle.exec_branches.specs.Tests.{Tells, Compares, AnyMemory};

use exec_core::Answer;
use exec_core::operands::{act, fetch, index, operand, to_first, to_second, to_third};
use ops::constants::Machine;

// The first word that is negative when read as signed.
const HALF: u32 = 1 << Machine::CFP_N - 1;

// The answer that branches to operand one, two or three if q holds, and else goes on.
pub fn first_if(t: &[u32], b: usize, q: bool) -> usize
    requires { (b + 8 ≤ length t.now) × (b ≤ entry_at max_instrs) × (t.now at (b + 1) ≡ place_kind) }
    ensures { result ≡ way_of t.now b (fork 1 q) }
{
    if q {
        return to_first(t, b);
    }
    b + Answer::ON
}

fn second_if(t: &[u32], b: usize, q: bool) -> usize
    requires { (b + 8 ≤ length t.now) × (b ≤ entry_at max_instrs) × (t.now at (b + 4) ≡ place_kind) }
    ensures { result ≡ way_of t.now b (fork 2 q) }
{
    if q {
        return to_second(t, b);
    }
    b + Answer::ON
}

fn third_if(t: &[u32], b: usize, q: bool) -> usize
    requires { (b + 8 ≤ length t.now) × (b ≤ entry_at max_instrs) × (0 < t.now at (b + 7)) }
    ensures { result ≡ way_of t.now b (fork 3 q) }
{
    if q {
        return to_third(t, b);
    }
    b + Answer::ON
}

// What operand one holds, which then acts.
fn taken(t: &[u32], b: usize, m: &[u32], z: &mut [u32; 16]) -> Option<u32>
    requires { Entry readable is_place going t.now b z.old }
    ensures { Tells result z.new z.old m.now (operand_at t.now (b + 1)) }
{
    let one = operand(t, b + 1);
    let v = fetch(m, z, one)?;
    act(z, one);
    Some(v)
}

// What both operands hold, which then have acted; where one holds nothing, neither has.
fn compared(t: &[u32], b: usize, m: &[u32], z: &mut [u32; 16]) -> Option<(u32, u32)>
    requires { Entry readable readable branching t.now b z.old }
    ensures { Compares result z.new z.old m.now (operand_at t.now (b + 1)) (operand_at t.now (b + 4)) }
{
    let one = operand(t, b + 1);
    let two = operand(t, b + 4);
    let v = fetch(m, z, one)?;
    let x = index(one.reg);
    let old = z[x];
    act(z, one);
    let Some(w) = fetch(m, z, two) else {
        z[x] = old;
        return None;
    };
    act(z, two);
    Some((v, w))
}

// [M 2.5] BEQ: to the third operand if operand one equals operand two
pub fn beq(t: &[u32], b: usize, m: &[u32], z: &mut [u32; 16]) -> usize
    requires { Entry readable readable branching t.now b z.old }
    ensures { shown result z.new m.now ≡ branches t.now b 0 0 z.old m.now Op.BEQ }
{
    let Some((v, w)) = compared(t, b, m, z) else {
        return Answer::BAD_ADDRESS;
    };
    third_if(t, b, v == w)
}

// [M 2.6] BNE: to the third operand if operand one is not operand two
pub fn bne(t: &[u32], b: usize, m: &[u32], z: &mut [u32; 16]) -> usize
    requires { Entry readable readable branching t.now b z.old }
    ensures { shown result z.new m.now ≡ branches t.now b 0 0 z.old m.now Op.BNE }
{
    let Some((v, w)) = compared(t, b, m, z) else {
        return Answer::BAD_ADDRESS;
    };
    third_if(t, b, v != w)
}

// [M 2.7] BGT: to the third operand if operand one is above operand two
pub fn bgt(t: &[u32], b: usize, m: &[u32], z: &mut [u32; 16]) -> usize
    requires { Entry readable readable branching t.now b z.old }
    ensures { shown result z.new m.now ≡ branches t.now b 0 0 z.old m.now Op.BGT }
{
    let Some((v, w)) = compared(t, b, m, z) else {
        return Answer::BAD_ADDRESS;
    };
    third_if(t, b, w < v)
}

// [M 2.8] BGE: to the third operand if operand one is not below operand two
pub fn bge(t: &[u32], b: usize, m: &[u32], z: &mut [u32; 16]) -> usize
    requires { Entry readable readable branching t.now b z.old }
    ensures { shown result z.new m.now ≡ branches t.now b 0 0 z.old m.now Op.BGE }
{
    let Some((v, w)) = compared(t, b, m, z) else {
        return Answer::BAD_ADDRESS;
    };
    third_if(t, b, w <= v)
}

// [M 2.9] BLT: to the third operand if operand one is below operand two
pub fn blt(t: &[u32], b: usize, m: &[u32], z: &mut [u32; 16]) -> usize
    requires { Entry readable readable branching t.now b z.old }
    ensures { shown result z.new m.now ≡ branches t.now b 0 0 z.old m.now Op.BLT }
{
    let Some((v, w)) = compared(t, b, m, z) else {
        return Answer::BAD_ADDRESS;
    };
    third_if(t, b, v < w)
}

// [M 2.10] BLE: to the third operand if operand one is not above operand two
pub fn ble(t: &[u32], b: usize, m: &[u32], z: &mut [u32; 16]) -> usize
    requires { Entry readable readable branching t.now b z.old }
    ensures { shown result z.new m.now ≡ branches t.now b 0 0 z.old m.now Op.BLE }
{
    let Some((v, w)) = compared(t, b, m, z) else {
        return Answer::BAD_ADDRESS;
    };
    third_if(t, b, v <= w)
}

// [M 2.11] BLO: to the third operand if operand one is below operand two
pub fn blo(t: &[u32], b: usize, m: &[u32], z: &mut [u32; 16]) -> usize
    requires { Entry readable readable branching t.now b z.old }
    ensures { shown result z.new m.now ≡ branches t.now b 0 0 z.old m.now Op.BLO }
{
    let Some((v, w)) = compared(t, b, m, z) else {
        return Answer::BAD_ADDRESS;
    };
    third_if(t, b, v < w)
}

// [M 2.12] BHI: to the third operand if operand one is above operand two
pub fn bhi(t: &[u32], b: usize, m: &[u32], z: &mut [u32; 16]) -> usize
    requires { Entry readable readable branching t.now b z.old }
    ensures { shown result z.new m.now ≡ branches t.now b 0 0 z.old m.now Op.BHI }
{
    let Some((v, w)) = compared(t, b, m, z) else {
        return Answer::BAD_ADDRESS;
    };
    third_if(t, b, w < v)
}

// [M 2.13] BNZ: to the second operand if operand one is not 0
pub fn bnz(t: &[u32], b: usize, m: &[u32], z: &mut [u32; 16]) -> usize
    requires { Entry readable is_place going t.now b z.old }
    ensures { shown result z.new m.now ≡ branches t.now b 0 0 z.old m.now Op.BNZ }
{
    let Some(v) = taken(t, b, m, z) else {
        return Answer::BAD_ADDRESS;
    };
    second_if(t, b, v != 0)
}

// [M 2.14] BZE: to the second operand if operand one is 0
pub fn bze(t: &[u32], b: usize, m: &[u32], z: &mut [u32; 16]) -> usize
    requires { Entry readable is_place going t.now b z.old }
    ensures { shown result z.new m.now ≡ branches t.now b 0 0 z.old m.now Op.BZE }
{
    let Some(v) = taken(t, b, m, z) else {
        return Answer::BAD_ADDRESS;
    };
    second_if(t, b, v == 0)
}

// [M 2.16] BCT: register one := register one - 1, wrapped; to the second operand if it is not 0 then
pub fn bct(t: &[u32], b: usize, z: &mut [u32; 16]) -> usize
    requires { Entry in_register is_place going t.now b z.old }
    ensures { AnyMemory result z.new t.now b z.old Op.BCT }
{
    let one = operand(t, b + 1);
    let x = index(one.reg);
    let v = words::sub(z[x], 1);
    z[x] = v;
    second_if(t, b, v != 0)
}

// [M 4.9] INO: to operand one if the flag is off
pub fn ino(t: &[u32], b: usize, z: &[u32; 16]) -> usize
    requires { Entry is_place readable going t.now b z.now }
    ensures { AnyMemory result z.now t.now b z.now Op.INO }
{
    first_if(t, b, z[Machine::FLAG] == 0)
}

// [M 4.10] IOV: to operand one if the flag is on
pub fn iov(t: &[u32], b: usize, z: &[u32; 16]) -> usize
    requires { Entry is_place readable going t.now b z.now }
    ensures { AnyMemory result z.now t.now b z.now Op.IOV }
{
    first_if(t, b, z[Machine::FLAG] == 1)
}

// [M 4.11] IEQ: to operand one if IA is 0
pub fn ieq(t: &[u32], b: usize, z: &[u32; 16]) -> usize
    requires { Entry is_place readable going t.now b z.now }
    ensures { AnyMemory result z.now t.now b z.now Op.IEQ }
{
    first_if(t, b, z[Machine::IA] == 0)
}

// [M 4.12] IGE: to operand one if IA, read as signed, is not below 0
pub fn ige(t: &[u32], b: usize, z: &[u32; 16]) -> usize
    requires { Entry is_place readable going t.now b z.now }
    ensures { AnyMemory result z.now t.now b z.now Op.IGE }
{
    first_if(t, b, z[Machine::IA] < HALF)
}

// [M 4.13] IGT: to operand one if IA is above 0
pub fn igt(t: &[u32], b: usize, z: &[u32; 16]) -> usize
    requires { Entry is_place readable going t.now b z.now }
    ensures { AnyMemory result z.now t.now b z.now Op.IGT }
{
    first_if(t, b, integers::positive(z[Machine::IA]))
}

// [M 4.14] ILE: to operand one if IA is not above 0
pub fn ile(t: &[u32], b: usize, z: &[u32; 16]) -> usize
    requires { Entry is_place readable going t.now b z.now }
    ensures { AnyMemory result z.now t.now b z.now Op.ILE }
{
    first_if(t, b, !integers::positive(z[Machine::IA]))
}

// [M 4.15] ILT: to operand one if IA is below 0
pub fn ilt(t: &[u32], b: usize, z: &[u32; 16]) -> usize
    requires { Entry is_place readable going t.now b z.now }
    ensures { AnyMemory result z.now t.now b z.now Op.ILT }
{
    first_if(t, b, HALF <= z[Machine::IA])
}

// [M 4.16] INE: to operand one if IA is not 0
pub fn ine(t: &[u32], b: usize, z: &[u32; 16]) -> usize
    requires { Entry is_place readable going t.now b z.now }
    ensures { AnyMemory result z.now t.now b z.now Op.INE }
{
    first_if(t, b, z[Machine::IA] != 0)
}

// [M 6.6] CEQ: to the third operand if operand one equals operand two
pub fn ceq(t: &[u32], b: usize, m: &[u32], z: &mut [u32; 16]) -> usize
    requires { Entry readable readable branching t.now b z.old }
    ensures { shown result z.new m.now ≡ branches t.now b 0 0 z.old m.now Op.CEQ }
{
    let Some((v, w)) = compared(t, b, m, z) else {
        return Answer::BAD_ADDRESS;
    };
    third_if(t, b, v == w)
}

// [M 6.7] CNE: to the third operand if operand one is not operand two
pub fn cne(t: &[u32], b: usize, m: &[u32], z: &mut [u32; 16]) -> usize
    requires { Entry readable readable branching t.now b z.old }
    ensures { shown result z.new m.now ≡ branches t.now b 0 0 z.old m.now Op.CNE }
{
    let Some((v, w)) = compared(t, b, m, z) else {
        return Answer::BAD_ADDRESS;
    };
    third_if(t, b, v != w)
}

// [M 7.9] NZB: to the second operand if a bit of register one is set
pub fn nzb(t: &[u32], b: usize, m: &[u32], z: &mut [u32; 16]) -> usize
    requires { Entry readable is_place going t.now b z.old }
    ensures { shown result z.new m.now ≡ branches t.now b 0 0 z.old m.now Op.NZB }
{
    let Some(v) = taken(t, b, m, z) else {
        return Answer::BAD_ADDRESS;
    };
    second_if(t, b, v != 0)
}

// [M 7.10] ZRB: to the second operand if no bit of register one is set
pub fn zrb(t: &[u32], b: usize, m: &[u32], z: &mut [u32; 16]) -> usize
    requires { Entry readable is_place going t.now b z.old }
    ensures { shown result z.new m.now ≡ branches t.now b 0 0 z.old m.now Op.ZRB }
{
    let Some(v) = taken(t, b, m, z) else {
        return Answer::BAD_ADDRESS;
    };
    second_if(t, b, v == 0)
}
