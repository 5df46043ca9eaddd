// The limits of the window, the counts, the report and the board, each named once, as specs/Limits names them.

// W is 1 to 256.
pub const WIDTH_LIMIT: u32 = 256;

// Window is the document's term: it has 32 × W words.
pub const WIDTH_WORDS: usize = 32;

// An event has at most 1,000,000 lines.
pub const LINE_LIMIT: u32 = 1000000;

// No instance number is larger.
pub const INSTANCE_LIMIT: u32 = 1009999;

// No rule's first instance is later, as no offset is further below 0.
pub const FIRST_LIMIT: u32 = rule::limits::OFFSET_NUMBER_LIMIT;

// A report buffer has at least 166 bytes.
pub const REPORT_LEAST: usize = 166;

// W of the board is 1 to 32.
pub const BOARD_WIDTH_LIMIT: u32 = 32;

// A rule on the board has at most 16 frames.
pub const BOARD_FRAME_LIMIT: usize = 16;
