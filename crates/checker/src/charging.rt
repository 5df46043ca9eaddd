// Charging: 28, 29, 12, then the cents.
ghost use Rattle.std.specs.Prelude.{◌≡◌};
ghost use Rattle.checker.specs.Tariff.{charge_told, charge_def};

use crate::{Refusal, State, Tariff, parts, pricing, state_test};

// Charges the violations that a state counts, in cents, for every state and every tariff.
pub fn charge(state: State, tariff: Tariff) -> Result<u64, Refusal>
    ensures { charge_told result ≡ charge_def state tariff }
{
    if !pricing::bands_fit(tariff) {
        return Err(Refusal::Bands);
    }
    if !pricing::prices_fit(tariff) {
        return Err(Refusal::Prices);
    }
    let frames = state.frames;
    let fields = parts::fields_of(state);
    state_test::state_passes(&frames, fields).ok_or(Refusal::State)?;
    Ok(pricing::cents(tariff, state.totals.failed))
}
