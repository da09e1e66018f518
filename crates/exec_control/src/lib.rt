// Control without calls: branches, entries, the switch [M section 1], and the stack's check [M 10.1].
// Each answers 64 + the offset of the next entry, or the number of a trap, which leaves all as it was.
#![tactic(auto)]

ghost use Rattle.std.specs.Prelude.{◌≡◌, length};
ghost use Rattle.base.specs.Test.{Ok};
ghost use Rattle.base.specs.Lists.{◌at◌};
ghost use Rattle.ops.specs.Class as Class;
ghost use Rattle.ops.specs.Ops as Op;
ghost use Rattle.rules.specs.Check.{table_ok};
ghost use Rattle.rules.specs.Table.{entry_of};
ghost use Rattle.exec_calls.specs.Stands.{Stands};
ghost use Rattle.exec_control.specs.Found.{found_of};
ghost use Rattle.exec_control.specs.Roomy.{Roomy};
ghost use Rattle.exec_control.specs.Shows.{AnyState, AnyMemory, AnyLinks, Loads};

use bodies::entry::{ENTRY, HEADER, IFF, KIND, SIZE, VALUE};
use exec_calls::{to_errors, to_place};
use exec_core::Answer;
use exec_core::operands::{act, fetch, index, operand, to_first, to_third};
use ops::constants::Machine;
use ops::format::VALUE_KIND;

// The word of the header that is the start place of section 5.
const SECTION5: usize = 6;

// Words of an entry: the register of operand one, the value of operand two, 1 + the place of operand three.
const REGISTER: usize = 2;

const SECOND_VALUE: usize = 6;

const THIRD: usize = 7;

// The operation that is an entry, and the words that CHK keeps free at the end of memory.
const ENT: u32 = 106;

const CHECK_WORDS: usize = 48;

const CFP_B: usize = Machine::CFP_B as usize;

// [M 1.2] BRN: to operand one
pub fn brn(t: &[u32], b: usize) -> usize
    requires { Stands t.now b 102 }
    ensures { AnyState result t.now b Class.BRN }
{
    to_first(t, b)
}

// [M 1.23] JMG: to operand one, which stands outside procedures
pub fn jmg(t: &[u32], b: usize) -> usize
    requires { Stands t.now b 123 }
    ensures { AnyState result t.now b Class.JMG }
{
    to_first(t, b)
}

// [M 1.6] ENT: on
pub fn ent(t: &[u32], b: usize) -> usize
    requires { Stands t.now b 106 }
    ensures { AnyState result t.now b Class.ENT }
{
    b + Answer::ON
}

// [M 1.22] RTN: on
pub fn rtn(t: &[u32], b: usize) -> usize
    requires { Stands t.now b 122 }
    ensures { AnyState result t.now b Class.RTN }
{
    b + Answer::ON
}

// [M 1.15] ERB: to section 6 with the code in WA
pub fn erb(t: &[u32], b: usize, z: &mut [u32; 16]) -> usize
    requires { Stands t.now b 115 }
    ensures { AnyMemory result z.new t.now b z.old Class.ERB Op.idle }
{
    z[Machine::WA] = t[b + VALUE];
    to_errors(t)
}

// [M 10.1] CHK: to section 5 where XS lies below the last 48 words of memory, else on
pub fn chk(t: &[u32], b: usize, m: &[u32], z: &[u32; 16]) -> usize
    requires { Stands t.now b 1001 × Roomy (length m.now) }
    ensures { AnyLinks result z.now t.now b z.now m.now Class.CHK Op.checks }
{
    if index(z[Machine::XS]) < CFP_B * (m.len() - CHECK_WORDS) {
        return to_place(t[SECTION5]);
    }
    b + Answer::ON
}

// The place of the ENT whose label has the value v.
fn entry_of(t: &[u32], v: u32) -> Option<usize>
    requires { Ok (table_ok t.now) }
    ensures { found_of result ≡ entry_of t.now v }
{
    if v < Machine::ENTRY_BASE {
        return None;
    }
    let a = index(v - Machine::ENTRY_BASE);
    if a % CFP_B != 0 {
        return None;
    }
    let q = a / CFP_B;
    if index(t[SIZE]) <= q {
        return None;
    }
    if t[HEADER + ENTRY * q] != ENT {
        return None;
    }
    Some(q)
}

// [M 1.8] LEI: X takes the value of the ENT whose label it holds, or 24
pub fn lei(t: &[u32], b: usize, z: &mut [u32; 16]) -> usize
    requires { Stands t.now b 108 }
    ensures { Loads result z.new t.now b z.old Op.LEI }
{
    let x = index(t[b + REGISTER]);
    let Some(q) = entry_of(t, z[x]) else {
        return Answer::NO_ENTRY;
    };
    let i = HEADER + ENTRY * q;
    if t[i + KIND] != VALUE_KIND {
        return Answer::NO_ENTRY;
    }
    z[x] = t[i + VALUE];
    b + Answer::ON
}

// [M 1.7] BRI: to the ENT whose label operand one holds, or 24
pub fn bri(t: &[u32], b: usize, m: &[u32], z: &mut [u32; 16]) -> usize
    requires { Stands t.now b 107 × (z.old at 0 ≡ 0) }
    ensures { AnyLinks result z.new t.now b z.old m.now Class.BRI Op.reads }
{
    let one = operand(t, b + 1);
    let Some(v) = fetch(m, z, one) else {
        return Answer::BAD_ADDRESS;
    };
    let Some(q) = entry_of(t, v) else {
        return Answer::NO_ENTRY;
    };
    act(z, one);
    Answer::ENTRY * q + Answer::ON
}

// [M 1.3] BSW: to the place of the IFF that has X's value, else to operand three, else 25
pub fn bsw(t: &[u32], b: usize, z: &[u32; 16]) -> usize
    requires { Stands t.now b 103 }
    ensures { AnyMemory result z.now t.now b z.now Class.BSW Op.reads }
{
    let v = z[index(t[b + REGISTER])];
    // entry by entry as long as they are cases: their number stands nowhere
    let mut i = b + ENTRY;
    while t[i] == IFF {
        if t[i + VALUE] == v {
            return to_place(t[i + SECOND_VALUE]);
        }
        i += ENTRY;
    }
    let third = t[b + THIRD];
    if third == 0 {
        return Answer::NO_CASE;
    }
    to_third(t, b)
}
