// The names that `EQU *` takes, each with its value, and no other [S The house machine].
#![tactic(auto)]

ghost use Rattle.std.specs.Prelude.{◌≡◌, map};
ghost use Rattle.supplied.specs.Supplied.{packed_name, supplied_of, supplies, supply_cells};

use ops::constants::Machine;

// How many names.
const COUNT: usize = 45;

// Name, its first character in the highest byte, and value.
const NAMES: [[u64; 2]; COUNT] = [
    [0x4346502441, Machine::CFP_A as u64], // CFP$A
    [0x4346502442, Machine::CFP_B as u64], // CFP$B
    [0x4346502443, Machine::CFP_C as u64], // CFP$C
    [0x4346502446, Machine::CFP_F as u64], // CFP$F
    [0x4346502449, Machine::CFP_I as u64], // CFP$I
    [0x434650244d, Machine::CFP_M as u64], // CFP$M
    [0x434650244e, Machine::CFP_N as u64], // CFP$N
    [0x4346502452, Machine::CFP_R as u64], // CFP$R
    [0x434824424c, Machine::CH_BL as u64], // CH$BL
    [0x4348244430, Machine::CH_D0 as u64], // CH$D0
    [0x4348244431, Machine::CH_D1 as u64], // CH$D1
    [0x4348244432, Machine::CH_D2 as u64], // CH$D2
    [0x4348244433, Machine::CH_D3 as u64], // CH$D3
    [0x4348244434, Machine::CH_D4 as u64], // CH$D4
    [0x4348244435, Machine::CH_D5 as u64], // CH$D5
    [0x4348244436, Machine::CH_D6 as u64], // CH$D6
    [0x4348244437, Machine::CH_D7 as u64], // CH$D7
    [0x4348244438, Machine::CH_D8 as u64], // CH$D8
    [0x4348244439, Machine::CH_D9 as u64], // CH$D9
    [0x4348244c41, Machine::CH_LA as u64], // CH$LA
    [0x4348244c42, Machine::CH_LB as u64], // CH$LB
    [0x4348244c43, Machine::CH_LC as u64], // CH$LC
    [0x4348244c44, Machine::CH_LD as u64], // CH$LD
    [0x4348244c45, Machine::CH_LE as u64], // CH$LE
    [0x4348244c46, Machine::CH_LF as u64], // CH$LF
    [0x4348244c47, Machine::CH_LG as u64], // CH$LG
    [0x4348244c48, Machine::CH_LH as u64], // CH$LH
    [0x4348244c49, Machine::CH_LI as u64], // CH$LI
    [0x4348244c4a, Machine::CH_LJ as u64], // CH$LJ
    [0x4348244c4b, Machine::CH_LK as u64], // CH$LK
    [0x4348244c4c, Machine::CH_LL as u64], // CH$LL
    [0x4348244c4d, Machine::CH_LM as u64], // CH$LM
    [0x4348244c4e, Machine::CH_LN as u64], // CH$LN
    [0x4348244c4f, Machine::CH_LO as u64], // CH$LO
    [0x4348244c50, Machine::CH_LP as u64], // CH$LP
    [0x4348244c51, Machine::CH_LQ as u64], // CH$LQ
    [0x4348244c52, Machine::CH_LR as u64], // CH$LR
    [0x4348244c53, Machine::CH_LS as u64], // CH$LS
    [0x4348244c54, Machine::CH_LT as u64], // CH$LT
    [0x4348244c55, Machine::CH_LU as u64], // CH$LU
    [0x4348244c56, Machine::CH_LV as u64], // CH$LV
    [0x4348244c57, Machine::CH_LW as u64], // CH$LW
    [0x4348244c58, Machine::CH_LX as u64], // CH$LX
    [0x4348244c59, Machine::CH_LY as u64], // CH$LY
    [0x4348244c5a, Machine::CH_LZ as u64], // CH$LZ
];

// The table of names.
fn supplies() -> [[u64; 2]; COUNT]
    ensures { result ≡ map supply_cells supplies }
{
    NAMES
}

// One more than the largest character.
const RADIX: u64 = Machine::CFP_A as u64;

// Five characters as one number, the first in the highest byte.
pub fn pack_name(a: u8, b: u8, c: u8, d: u8, e: u8) -> u64
    ensures { result ≡ packed_name a b c d e }
{
    let upper = ((a as u64) * RADIX + (b as u64)) * RADIX + (c as u64);
    (upper * RADIX + (d as u64)) * RADIX + (e as u64)
}

// The supplied value of the name of five characters, if it is one of these.
pub fn supplied_value(a: u8, b: u8, c: u8, d: u8, e: u8) -> Option<u32>
    ensures { result ≡ supplied_of a b c d e }
{
    let key = pack_name(a, b, c, d, e);
    let table = supplies();
    for row in &table {
        if row[0] == key {
            return Some(row[1] as u32);
        }
    }
    None
}
