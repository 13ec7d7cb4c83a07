// The first word, from bit 0 up: first place (8 bits), last place (8 bits), mode (2 bits: 0 LOAD, 1 STORE, 2 MP, 3 SYNC), operator (2 bits: 0 and,
// 1 or, 2 max, 3 add), and one bit that marks a single; bits 21 to 31 are 0. The second word is the cell; a single in STORE, MP or SYNC sends the third.
// So a first word is the sum of its two places, of which the last counts 256 times, and of some of these:
pub const STORE: u32 = 65536;

pub const MP: u32 = 131072;

pub const SYNC: u32 = 196608;

pub const OR: u32 = 262144;

pub const MAX: u32 = 524288;

pub const ADD: u32 = 786432;

pub const SINGLE: u32 = 1048576;

// Some places, as they stand in the first word: 1 + 2 * 256, 3 + 20 * 256, 7 + 8 * 256, 9 + 8 * 256, 255 + 255 * 256.
pub const FROM_1_TO_2: u32 = 513;

pub const FROM_3_TO_20: u32 = 5123;

pub const FROM_7_TO_8: u32 = 2055;

pub const FROM_9_TO_8: u32 = 2057;

pub const AT_255: u32 = 65535;

// Bits that are never set.
pub const BIT_21: u32 = 2097152;

pub const BIT_22: u32 = 4194304;

pub const BIT_30: u32 = 1073741824;

pub const BIT_31: u32 = 2147483648;
