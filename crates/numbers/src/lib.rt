// Signed numbers from bytes, and laws that every crate above cites.
#![tactic(auto)]

ghost use Rattle.std.specs.Prelude.{◌≡◌};
ghost use Rattle.numbers.specs.Word.{signed_word};

// Four bytes, the first the most significant, as a signed number.
pub fn word(a: u8, b: u8, c: u8, d: u8) -> i32
    ensures { result ≡ signed_word a b c d }
{
    i32::from_be_bytes([a, b, c, d])
}
