// The occurrence that a reference means. Only here an instance number becomes an occurrence number.
ghost use Rattle.std.specs.Prelude.{◌≡◌, ◌≤◌, nat_abs};
ghost use Rattle.rule.specs.Limits.{factor_limit, offset_limit};
ghost use Rattle.verdict.specs.Found.{instance_limit, occurrence, meant_by};

use crate::{Instance, Occurrence};

// Factor × i + offset, void below 0. Called by crate checker, on the references of accepted frames.
pub fn occurrence_of(i: Instance, factor: u8, offset: i32) -> Option<Occurrence>
    requires { (i.0 ≤ instance_limit) × ((factor ≤ factor_limit) × (nat_abs offset ≤ offset_limit)) }
    ensures { result ≡ meant_by (occurrence factor offset i.0) }
{
    let product = u32::from(factor) * i.0;
    product.checked_add_signed(offset).map(Occurrence)
}
