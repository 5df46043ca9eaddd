// The rework tariff: 28, 29, and what violations cost. Tariff, band, last number and surcharge are the document's terms.
ghost use Rattle.std.specs.Prelude.{◌≡◌, ◌*◌, ◌≤◌, true, nat_le};
ghost use Rattle.std.specs.List.{list_all};
ghost use Rattle.checker.specs.Tariff.{band_limit, last_limit, price_limit, surcharge_limit};
ghost use Rattle.checker.specs.Tariff.{bands_of, bands_fit, prices_fit, price_sum, surcharged, cents_of};

use crate::Tariff;

// At most four bands.
const BANDS: u32 = 4;

// No last number is larger.
const LAST_LIMIT: u32 = 1010000;

// No price is higher, in cents.
const PRICE_LIMIT: u32 = 10000;

// No surcharge is higher, in percent.
const SURCHARGE_LIMIT: u32 = 100;

// Whether 28 lets a tariff through: its last numbers rise, each above the one before, the first above 0.
pub fn bands_fit(t: Tariff) -> bool
    ensures { result ≡ bands_fit t }
{
    if BANDS < t.bands {
        return false;
    }
    let mut before = 0;
    for last in &t.lasts[..t.bands as usize] {
        if *last <= before || LAST_LIMIT < *last {
            return false;
        }
        before = *last;
    }
    true
}

// Whether each price is in range.
fn in_range(prices: &[u32]) -> bool
    ensures { result ≡ list_all (λ price. nat_le price price_limit) prices.now }
{
    prices.iter().all(|price| *price <= PRICE_LIMIT)
}

// Whether 29 lets a tariff through that 28 does.
pub fn prices_fit(t: Tariff) -> bool
    requires { t.bands ≤ band_limit }
    ensures { result ≡ prices_fit t }
{
    if !in_range(&t.prices[..t.bands as usize]) {
        return false;
    }
    t.beyond <= PRICE_LIMIT && t.surcharge <= SURCHARGE_LIMIT
}

// So many violations at one price.
fn amount(n: u32, price: u32) -> u64
    requires { (n ≤ last_limit) × (price ≤ price_limit) }
    ensures { result ≡ n * price }
{
    u64::from(n) * u64::from(price)
}

// The prices of violations 1 to n, summed band by band; `priced` of them are in the sum. Last numbers and prices are two arrays in
// the struct of C's interface.
fn price_sum(t: Tariff, n: u32) -> u64
    requires { (bands_fit t ≡ true) × ((prices_fit t ≡ true) × (n ≤ last_limit)) }
    ensures { result ≡ price_sum (bands_of t) t.beyond n }
{
    let bands = t.bands as usize;
    let mut sum: u64 = 0;
    let mut priced = 0;
    for (last, price) in t.lasts[..bands].iter().zip(&t.prices[..bands]) {
        if n <= *last {
            return sum + amount(n - priced, *price);
        }
        sum += amount(*last - priced, *price);
        priced = *last;
    }
    sum + amount(n - priced, t.beyond)
}

// A sum with its surcharge, rounded half up.
#[tactic(auto, unfolding(crate::specs::Tariff::surcharged))]
fn with_surcharge(sum: u64, percent: u32) -> u64
    requires { (sum ≤ last_limit * price_limit) × (percent ≤ surcharge_limit) }
    ensures { result ≡ surcharged sum percent }
{
    (sum * u64::from(100 + percent) + 50) / 100
}

// What n violations cost by a tariff that 28 and 29 let through, in cents.
pub fn cents(t: Tariff, n: u32) -> u64
    requires { (bands_fit t ≡ true) × ((prices_fit t ≡ true) × (n ≤ last_limit)) }
    ensures { result ≡ cents_of t n }
{
    with_surcharge(price_sum(t, n), t.surcharge)
}
