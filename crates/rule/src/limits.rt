// The limits of a rule, each named once, as specs/Limits and specs/ReadLimits name them.

// A text has 1 to 1,024 bytes.
pub const TEXT_LIMIT: usize = 1024;

// A name has at most 12 letters.
pub const NAME_LETTERS: usize = 12;

// At most 8 events, numbered from 0.
pub const EVENT_LIMIT: u8 = 8;

// At most 4 notes, numbered from 0.
pub const NOTE_LIMIT: u8 = 4;

// The factor of i is 1 to 9: in a frame, and as a number of a text.
pub const FACTOR_LIMIT: u8 = 9;

pub const FACTOR_NUMBER_LIMIT: u32 = FACTOR_LIMIT as u32;

// The offset is −9,999 to 9,999: in a frame, and as a number of a text.
pub const OFFSET_LIMIT: i32 = 9999;

pub const OFFSET_NUMBER_LIMIT: u32 = OFFSET_LIMIT as u32;

// A literal is 0 to 2,147,483,647.
pub const LEAST_LITERAL: i32 = 0;

pub const LITERAL_LIMIT: u32 = 2147483647;

// A scale is 0 to 6, and a literal has at most 6 decimals.
pub const DECIMAL_LIMIT: u8 = 6;

// Depth is at most 16.
pub const DEPTH_LIMIT: usize = 16;

// At most 64 frames.
pub const FRAME_LIMIT: usize = 64;

// A frame has 8 bytes.
pub const FRAME_BYTES: usize = 8;

// The frames' buffer has 512 bytes.
pub const BUFFER_BYTES: usize = FRAME_LIMIT * FRAME_BYTES;

// The magnitude of i, 2^20.
pub const INSTANCE_MAGNITUDE: u64 = 0x10_0000;

// The magnitude of a reference, 2^31.
pub const REFERENCE_MAGNITUDE: u64 = 0x8000_0000;

// No magnitude exceeds 2^62.
pub const MAGNITUDE_LIMIT: u64 = 0x4000_0000_0000_0000;
