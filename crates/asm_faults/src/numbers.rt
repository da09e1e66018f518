// The faults of a line by their numbers, which the host sees, and of which a line gives the smallest: they may not change [S Numbers the host sees].

pub const MALFORMED: u32 = 1;

pub const MISPLACED: u32 = 2;

pub const MISLABELLED: u32 = 3;

pub const MISFIT: u32 = 4;

pub const UNDEFINED: u32 = 5;

pub const BAD_LIST: u32 = 6;

pub const BAD_SHAPE: u32 = 7;
