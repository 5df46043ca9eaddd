// The sum of the window's words, modulo 2^32.
ghost use Rattle.std.specs.Prelude.{◌≡◌};
ghost use Rattle.checker.specs.Sum.{sum_of};

// The sum of all words of a window.
pub fn sum_of(window: &[i32]) -> u32
    ensures { result ≡ sum_of window.now }
{
    let mut sum: u32 = 0;
    for word in window {
        sum = sum.wrapping_add(word.cast_unsigned());
    }
    sum
}
