// Names as numbers: two names of at most 12 letters are equal exactly if their numbers are.
ghost use Rattle.std.specs.Prelude.{◌≡◌};
ghost use Rattle.rule.specs.Name.{name_code};

use crate::limits;

// 27^12: the number of every name of over 12 letters. No Option: `name_code` of specs/Name has this number for it.
pub const LONG_NAME: u64 = 150094635296999121;

// The number of a word: its letters are digits to the base 27, 1 to 26, the first the lowest.
#[tactic(auto, using(crate::proofs::TokenCodes::letters))]
pub fn name_code(word: &[u8]) -> u64
    ensures { result ≡ name_code word.now }
{
    if limits::NAME_LETTERS < word.len() {
        return LONG_NAME;
    }
    let mut v = 0;
    for b in word.iter().rev() {
        v = u64::from(b.saturating_sub(b'a' - 1)) + 27 * v;
    }
    v
}
