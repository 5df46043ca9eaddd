// Powers of ten, up to the greatest below 2^62.
ghost use Rattle.std.specs.Prelude.{◌≡◌, ◌^◌, ◌≤◌};

// The greatest exponent.
pub const MOST_TENS: u16 = 18;

// 10 to the power e. Called by crate verdict, where e is at most 18.
pub fn ten_to(e: u16) -> u64
    requires { e ≤ 18 }
    ensures { result ≡ 10 ^ e }
{
    10u64.pow(u32::from(e))
}
