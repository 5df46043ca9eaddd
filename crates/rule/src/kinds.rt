// The kinds of frames: the byte of each, as specs/Frames has it. Bytes, no enum: document 01 says that evaluation and frame
// checking decide over the kind byte.

// Operands: a literal, i, a reference.
pub const LITERAL_BYTE: u8 = 0x01;

pub const INSTANCE_BYTE: u8 = 0x02;

pub const REFERENCE_BYTE: u8 = 0x03;

// The head of a rule with a scale.
pub const SCALE_BYTE: u8 = 0x04;

// On two sums, and abs on one.
pub const ADD_BYTE: u8 = 0x11;

pub const SUBTRACT_BYTE: u8 = 0x12;

pub const MULTIPLY_BYTE: u8 = 0x13;

pub const ABSOLUTE_BYTE: u8 = 0x14;

// Relations: = != < <= > >=
pub const EQUAL_BYTE: u8 = 0x21;

pub const UNEQUAL_BYTE: u8 = 0x22;

pub const LESS_BYTE: u8 = 0x23;

pub const AT_MOST_BYTE: u8 = 0x24;

pub const MORE_BYTE: u8 = 0x25;

pub const AT_LEAST_BYTE: u8 = 0x26;

// On one condition, and on two.
pub const NOT_BYTE: u8 = 0x31;

pub const AND_BYTE: u8 = 0x32;

pub const OR_BYTE: u8 = 0x33;

pub const IMPLIES_BYTE: u8 = 0x34;
