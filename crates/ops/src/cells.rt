// What the cells of the constant table hold, a byte each: formats by their codes, classes by their numbers. A row is bytes, as the look-ups take it.
use crate::class;

// The codes of the formats.
pub const NONE: u8 = 0;

pub const OPV: u8 = 1;

pub const OPN: u8 = 2;

pub const OPW: u8 = 3;

pub const OPS: u8 = 4;

pub const OPC: u8 = 5;

pub const REG: u8 = 6;

pub const X: u8 = 7;

pub const W: u8 = 8;

pub const VAL: u8 = 9;

pub const INT: u8 = 10;

pub const SHIFT: u8 = 11;

pub const PLBL: u8 = 12;

pub const PNAM: u8 = 13;

pub const GLBL: u8 = 14;

pub const PTYP: u8 = 15;

pub const EQOP: u8 = 16;

pub const ADDR: u8 = 17;

pub const INTEGER: u8 = 18;

pub const REAL: u8 = 19;

pub const OPT_OPV: u8 = 20;

pub const OPT_VAL: u8 = 21;

pub const OPT_INT: u8 = 22;

pub const OPT_PLBL: u8 = 23;

pub const STILL_OPV: u8 = 24;

pub const STILL_OPN: u8 = 25;

pub const STILL_OPW: u8 = 26;

// The classes.
pub const GOES: u8 = class::GOES as u8;

pub const FORKS: u8 = class::FORKS as u8;

pub const BRN: u8 = class::BRN as u8;

pub const JMG: u8 = class::JMG as u8;

pub const BRI: u8 = class::BRI as u8;

pub const BSW: u8 = class::BSW as u8;

pub const ENT: u8 = class::ENT as u8;

pub const RTN: u8 = class::RTN as u8;

pub const JSR: u8 = class::JSR as u8;

pub const EXI: u8 = class::EXI as u8;

pub const SSS: u8 = class::SSS as u8;

pub const ERB: u8 = class::ERB as u8;

pub const CHK: u8 = class::CHK as u8;

pub const PPM: u8 = class::PPM as u8;

pub const ERR: u8 = class::ERR as u8;

pub const IFF: u8 = class::IFF as u8;

pub const ESW: u8 = class::ESW as u8;

pub const PRC: u8 = class::PRC as u8;

pub const ENP: u8 = class::ENP as u8;

pub const NO_CLASS: u8 = class::NO_CLASS as u8;
