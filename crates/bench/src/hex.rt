// Lines of hexadecimal capitals.
ghost use Rattle.std.specs.Prelude.{◌≡◌, ◌+◌, ◌*◌, ◌<◌, ◌≤◌, [], length};
ghost use Rattle.std.proofs.lemmas.List.Edits.{sets};
ghost use Rattle.rule.specs.Tree.{word_bytes};
ghost use Rattle.checker.specs.Refusals.{refusal_number, refusal_place};
ghost use Rattle.log_lines.specs.Digit.{hex_digit};
ghost use Rattle.bench.specs.Print.{hex_line, totals_bytes, refused_line};

use crate::run::Counts;
use checker::{Refusal, Totals};

// The digit of a number below 16. By hand: `char::from_digit` answers with an Option of a `char`, a small letter.
fn glyph(d: u8) -> u8
    requires { d < 16 }
    ensures { result ≡ hex_digit d }
{
    if d < 10 { b'0' + d } else { b'A' + (d - 10) }
}

// Puts bytes as a line into a buffer; answers the place after it.
pub fn put_line(out: &mut [u8], at: usize, bytes: &[u8]) -> usize
    requires { at + (2 * length bytes.now + 1) ≤ length out.old }
    ensures place { result ≡ at + (2 * length bytes.now + 1) }
    ensures line { out.new ≡ sets out.old at (hex_line bytes.now) }
{
    for (k, &b) in bytes.iter().enumerate() {
        out[at + 2 * k] = glyph(b / 16);
        out[at + 2 * k + 1] = glyph(b % 16);
    }
    let end = at + 2 * bytes.len();
    out[end] = b'\n';
    end + 1
}

// The four bytes of a number, put at a place.
fn put_word(bytes: &mut [u8], at: usize, w: u32)
    requires { at + 4 ≤ length bytes.old }
    ensures { bytes.new ≡ sets bytes.old at (word_bytes w []) }
{
    bytes[at..at + 4].copy_from_slice(&w.to_be_bytes());
}

// The bytes of the last line.
pub fn totals_bytes(totals: Totals, counts: Counts) -> [u8; 24]
    ensures { result ≡ totals_bytes totals counts }
{
    let mut bytes = [0; 24];
    put_word(&mut bytes, 0, totals.held);
    put_word(&mut bytes, 4, totals.failed);
    put_word(&mut bytes, 8, totals.unknown);
    put_word(&mut bytes, 12, counts.accepted);
    put_word(&mut bytes, 16, counts.ignored);
    put_word(&mut bytes, 20, counts.refused);
    bytes
}

// The line of a refused rule.
pub fn refused_line(why: Refusal) -> [u8; 9]
    ensures { result ≡ refused_line (refusal_number why) (refusal_place why) }
{
    let [_, _, high, low] = why.place().to_be_bytes();
    let mut line = [0; 9];
    put_line(&mut line, 0, &[0xee, why.number(), high, low]);
    line
}
