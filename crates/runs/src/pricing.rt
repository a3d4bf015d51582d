// What a run costs, and how far it can go at a level.

ghost use Rattle.std.specs.Prelude.{◌≡◌};
ghost use Rattle.runs.specs.Pricing.{price_at, reach_at, Exact};

use chains::measure::Steps;
use yard::force::Terms;

// The price of a run of some steps: its rate a step and its fixed price.
pub fn price(terms: Terms, length: u32) -> u64
    ensures { result ≡ price_at terms length }
{
    terms.rate as u64 * length as u64 + terms.fixed as u64
}

// How far a run can go at a level: at most its limit, and at most as far as the level pays for.
pub fn reach(terms: Terms, level: u32) -> Steps
    ensures reach { result ≡ reach_at terms level }
    ensures exact { Exact terms level result }
{
    if terms.rate == 0 {
        return terms.limit.map(u64::from);
    }
    let paid = level.saturating_sub(terms.fixed) / terms.rate as u32;
    Some(terms.limit.unwrap_or(paid).min(paid) as u64)
}
