// The lowest loose pillar of a plan, by the best chains of tying runs.

ghost use Rattle.std.specs.Prelude.{◌≡◌, ℕ, ◌<◌, ◌≤◌, true, false, length, MatchOption};
ghost use Rattle.chains.specs.Chains.{value_at};
ghost use Rattle.chains.specs.Measures.{of_yes, no_tie};
ghost use Rattle.runs.specs.Tying.{mast_ties, is_fed, NoneLoose, LowestLoose};

use crate::worth::{Worth, link_rows};
use chains::measure::{Measure, Tied};
use chains::search::best_chains;
use std::array;
use yard::force::Mast;
use yard::plan::Plan;

// Whether a mast stands and its feeder to a pillar ties.
// (Five private functions of the crate ask that a pillar's number is below 12; a type of such numbers would be made at each call, which is no plainer.)
fn feeds(mast: &Option<Mast>, p: usize) -> bool
    requires { p < 12 }
    ensures { result ≡ mast_ties p mast.now }
{
    match mast {
        Some(mast) => Tied::of(mast.feeders[p], 0).yes,
        None => false,
    }
}

// The value of entering at a pillar: whether a standing mast has a tying feeder to it.
fn entry(plan: &Plan, p: usize) -> Tied
    requires { p < 12 }
    ensures { result ≡ of_yes (is_fed plan.now.force p) }
{
    Tied {
        yes: plan.masts().iter().any(|mast| feeds(mast, p)),
    }
}

// The value of entering at each pillar.
fn entries(plan: &Plan) -> [Tied; 12]
    ensures { (p : ℕ) → p < plan.now.force.count → value_at no_tie result p ≡ of_yes (is_fed plan.now.force p) }
{
    let n = plan.pillars() as usize;
    array::from_fn(|p| { if p < n { entry(plan, p) } else { Tied::none() } })
}

// The first pillar whose best chain does not tie.
fn first_untied(best: &[Tied]) -> Option<u8>
    requires { length best.now ≤ 12 }
    ensures { MatchOption result ((p : ℕ) → p < length best.now → (value_at no_tie best.now p).yes ≡ true) (λ p. (p < length best.now) × ((value_at no_tie best.now p).yes ≡ false) × ((q : ℕ) → q < p → (value_at no_tie best.now q).yes ≡ true)) }
{
    let untied = best.iter().position(|value| !value.yes)?;
    Some(untied as u8)
}

// The lowest loose pillar of a plan; none where each is tied down.
pub fn lowest_loose(plan: &Plan) -> Option<u8>
    ensures { MatchOption result (NoneLoose plan.now.force) (λ p. LowestLoose plan.now.force p) }
{
    let n = plan.pillars() as usize;
    let entries = entries(plan);
    let links = link_rows(plan, 0);
    let Ok(found) = best_chains(&entries[0..n], &links[0..n]) else {
        unreachable()
    };
    first_untied(&found.values[0..n])
}
