// The value of a run of digits, and how many of them stand after the point.
ghost use Rattle.std.specs.Prelude.{◌≡◌, cond, ◌+◌, ◌-◌, ◌*◌, min, eqb};
ghost use Rattle.rule.specs.Class.{point};
ghost use Rattle.rule.specs.Number.{most, number_value};
ghost use Rattle.rule.specs.Spelling.{decimals};

const POINT: u8 = b'.';

// The value with one digit more, or 2^32 - 1 where it is larger; a point is passed over.
fn with_digit(v: u32, b: u8) -> u32
    ensures { result ≡ cond (eqb b point) v (min most (v * 10 + (b - 48))) }
{
    if b == POINT {
        return v;
    }
    let digit = u32::from(b.saturating_sub(b'0'));
    v.saturating_mul(10).saturating_add(digit)
}

// The value of a run of digits of any length, a point passed over; from 2^32 - 1 on, 2^32 - 1.
pub fn number_value(digits: &[u8]) -> u32
    ensures { result ≡ number_value digits.now }
{
    digits.iter().fold(0, |v, b| with_digit(v, *b))
}

// How many digits stand after the point, 0 without one.
pub fn decimals(digits: &[u8]) -> usize
    ensures { result ≡ decimals digits.now }
{
    match digits.iter().position(|b| *b == POINT) {
        Some(i) => digits.len() - i - 1,
        None => 0,
    }
}
