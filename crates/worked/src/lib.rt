// Document 01's worked pairs A and C as bytes, with the bounds that the listing takes and the kept bytes of cases 2 and 5, and the numbers of the
// rules, for the programs that list and try them.
#![tactic(auto)]

pub const A_WRITER: [u8; 24] = [
    1, 0, 21, 1, 2, 0, 1, 2, 3, 0, 0, 0, 0, 0, 0, 1, 1, 1, 1, 1, 0, 0, 0, 1,
];

pub const A_READER: [u8; 24] = [
    1, 0, 21, 2, 2, 0, 1, 2, 3, 0, 0, 0, 0, 0, 0, 1, 1, 1, 1, 1, 0, 0, 0, 1,
];

// The rules by their numbers.
pub const REGISTERED: u64 = 0;

pub const FLOW_THROUGH: u64 = 1;

// "pair A at bounds 0, 1, 2, then pair C at 1, 2"
pub const A_BOUNDS: [u64; 3] = [0, 1, 2];

pub const C_WRITER: [u8; 34] = [
    1, 0, 31, 1, 3, 0, 1, 2, 5, 0, 0, 0, 0, 0, 0, 1, 1, 1, 1, 0, 1, 2, 1, 2, 1, 0, 0, 0, 1, 2, 0,
    3, 1, 1,
];

pub const C_READER: [u8; 19] = [1, 0, 16, 2, 1, 0, 0, 2, 2, 0, 0, 0, 0, 0, 0, 1, 1, 1, 0];

pub const C_BOUNDS: [u64; 2] = [1, 2];

pub const A_KEPT: [u8; 8] = [1, 0, 0, 0, 0, 1, 1, 0];

pub const C_KEPT: [u8; 9] = [1, 1, 1, 1, 1, 1, 1, 1, 0];

// A crate has at least one function.
fn nothing() {}
