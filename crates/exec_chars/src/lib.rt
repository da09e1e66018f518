// Characters: PLC, PSC, LCH, SCH. A character is a byte of memory, and a string's first one comes CFP$F bytes past its address.
// Each answers 64 + the offset of the next entry, or 22 or 23, which leave registers and memory as they were.
#![tactic(auto)]

ghost use Rattle.std.specs.Prelude.{◌≡◌};
ghost use Rattle.ops.specs.Ops as Op;
ghost use Rattle.rules.specs.Effect.{shown};
ghost use Rattle.exec_core.specs.Views.{does};
ghost use Rattle.exec_core.specs.Entry.{Entry, readable, in_register, pointing, going};
ghost use Rattle.exec_chars.specs.Characters.{AnyConstants};

use exec_core::Answer;
use exec_core::chars::{char_act, fetch_char, store_char};
use exec_core::operands::{act, fetch, index, operand};
use ops::constants::Machine;

// Register one := itself + CFP$F + operand two, wrapped: the address of that character.
fn point(t: &[u32], b: usize, m: &[u32], z: &mut [u32; 16]) -> usize
    requires { Entry in_register readable going t.now b z.old }
    ensures { AnyConstants result z.new t.now b z.old m.now Op.PLC }
{
    let one = operand(t, b + 1);
    let two = operand(t, b + 4);
    let Some(v) = fetch(m, z, two) else {
        return Answer::BAD_ADDRESS;
    };
    act(z, two);
    let x = index(one.reg);
    z[x] = words::add(z[x], words::add(Machine::CFP_F, v));
    b + Answer::ON
}

// [M 6.1] PLC: register one := the address of character operand two of the string at register one, to be loaded
pub fn plc(t: &[u32], b: usize, m: &[u32], z: &mut [u32; 16]) -> usize
    requires { Entry in_register readable going t.now b z.old }
    ensures { AnyConstants result z.new t.now b z.old m.now Op.PLC }
{
    point(t, b, m, z)
}

// [M 6.2] PSC: the same, to be stored
pub fn psc(t: &[u32], b: usize, m: &[u32], z: &mut [u32; 16]) -> usize
    requires { Entry in_register readable going t.now b z.old }
    ensures { AnyConstants result z.new t.now b z.old m.now Op.PSC }
{
    point(t, b, m, z)
}

// [M 6.3] LCH: register one := the character that operand two points to
pub fn lch(t: &[u32], b: usize, m: &[u32], z: &mut [u32; 16]) -> usize
    requires { Entry in_register pointing going t.now b z.old }
    ensures { AnyConstants result z.new t.now b z.old m.now Op.LCH }
{
    let one = operand(t, b + 1);
    let two = operand(t, b + 4);
    let Some(v) = fetch_char(m, z, two) else {
        return Answer::BAD_ADDRESS;
    };
    char_act(z, two);
    let x = index(one.reg);
    z[x] = v;
    b + Answer::ON
}

// [M 6.4] SCH: the character that operand two points to := the low 8 bits of register one
pub fn sch(t: &[u32], b: usize, m: &mut [u32], z: &mut [u32; 16], c: usize) -> usize
    requires { Entry in_register pointing going t.now b z.old }
    ensures { shown result z.new m.new ≡ does t.now b 0 c z.old m.old Op.SCH }
{
    let one = operand(t, b + 1);
    let two = operand(t, b + 4);
    let v = z[index(one.reg)];
    store_char(m, z, c, two, v, b + Answer::ON)
}
