// The class of each byte value.
ghost use Rattle.std.specs.Prelude.{◌≡◌};
ghost use Rattle.rule.specs.Class.{class_of};

// Numbers, no enum: document 01 says that the class comes from a constant table of 256 numbers.
pub const LETTER: u8 = 1;

pub const DIGIT: u8 = 2;

pub const BLANK: u8 = 3;

pub const MARK: u8 = 4;

// The class at each byte: 0 where it is foreign.
const CLASSES: [u8; 256] = [
    0, 0, 0, 0, 0, 0, 0, 0, 0, 0, 3, // LF
    0, 0, 0, 0, 0, 0, 0, 0, 0, 0, 0, 0, 0, 0, 0, 0, 0, 0, 0, 0, 0, 3, // space
    4, // !
    0, 0, 0, 0, 4, // &
    0, 4, // (
    4, // )
    4, // *
    4, // +
    0, 4, // -
    0, 0, 2, // 0
    2, // 1
    2, // 2
    2, // 3
    2, // 4
    2, // 5
    2, // 6
    2, // 7
    2, // 8
    2, // 9
    0, 4, // ;
    4, // <
    4, // =
    4, // >
    0, 0, 0, 0, 0, 0, 0, 0, 0, 0, 0, 0, 0, 0, 0, 0, 0, 0, 0, 0, 0, 0, 0, 0, 0, 0, 0, 0, 4, // [
    0, 4, // ]
    0, 0, 0, 1, // a
    1, // b
    1, // c
    1, // d
    1, // e
    1, // f
    1, // g
    1, // h
    1, // i
    1, // j
    1, // k
    1, // l
    1, // m
    1, // n
    1, // o
    1, // p
    1, // q
    1, // r
    1, // s
    1, // t
    1, // u
    1, // v
    1, // w
    1, // x
    1, // y
    1, // z
    4, // {
    4, // |
    4, // }
    0, 0, 0, 0, 0, 0, 0, 0, 0, 0, 0, 0, 0, 0, 0, 0, 0, 0, 0, 0, 0, 0, 0, 0, 0, 0, 0, 0, 0, 0, 0, 0,
    0, 0, 0, 0, 0, 0, 0, 0, 0, 0, 0, 0, 0, 0, 0, 0, 0, 0, 0, 0, 0, 0, 0, 0, 0, 0, 0, 0, 0, 0, 0, 0,
    0, 0, 0, 0, 0, 0, 0, 0, 0, 0, 0, 0, 0, 0, 0, 0, 0, 0, 0, 0, 0, 0, 0, 0, 0, 0, 0, 0, 0, 0, 0, 0,
    0, 0, 0, 0, 0, 0, 0, 0, 0, 0, 0, 0, 0, 0, 0, 0, 0, 0, 0, 0, 0, 0, 0, 0, 0, 0, 0, 0, 0, 0, 0, 0,
    0, 0,
];

// The class of a byte, by the table.
pub fn class_of(b: u8) -> u8
    ensures { result ≡ class_of b }
{
    CLASSES[b as usize]
}
