// Digits 0-9, A-F or a-f, and pairs of them.
ghost use Rattle.std.specs.Prelude.{◌≡◌};
ghost use Rattle.std.specs.List.{list_all};
ghost use Rattle.log_lines.specs.Digit.{digit_of};
ghost use Rattle.log_lines.specs.Digit as digits;
ghost use Rattle.log_lines.specs.Pair.{pair_of};

// The value of a digit. By its ranges, and not by `char::to_digit`, which gives a u32 that would have to be cast.
#[tactic(auto, unfolding(crate::specs::Digit::digit_value))]
pub fn digit(b: u8) -> Option<u8>
    ensures { result ≡ digit_of b }
{
    match b {
        b'0'..=b'9' => Some(b - b'0'),
        b'A'..=b'F' => Some(b - b'A' + 10),
        b'a'..=b'f' => Some(b - b'a' + 10),
        _ => None,
    }
}

// Whether a byte is a digit.
pub fn is_digit(b: u8) -> bool
    ensures { result ≡ digits.is_digit b }
{
    digit(b).is_some()
}

// Whether each byte is a digit.
pub fn all_digits(bytes: &[u8]) -> bool
    ensures { result ≡ list_all digits.is_digit bytes.now }
{
    bytes.iter().all(|b| is_digit(*b))
}

// A letter a-f as its capital, any other byte as it is.
#[tactic(auto, unfolding(crate::specs::Digit::capital))]
pub fn capital(b: u8) -> u8
    ensures { result ≡ digits.capital b }
{
    match b {
        b'a'..=b'f' => b.to_ascii_uppercase(),
        _ => b,
    }
}

// The byte of two digits, the high one first.
#[tactic(auto, unfolding(crate::specs::Pair::pair_of))]
pub fn read_pair(high: u8, low: u8) -> Option<u8>
    ensures { result ≡ pair_of high low }
{
    let a = digit(high)?;
    let b = digit(low)?;
    Some(16 * a + b)
}
