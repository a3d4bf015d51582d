// What a run is worth by its terms, in each measure of a chain.

ghost use Rattle.std.specs.Prelude.{◌≡◌, ℕ, ◌<◌, slice_index_or};
ghost use Rattle.chains.specs.Chains.{run_at};
ghost use Rattle.chains.specs.Measures.{of_yes};
ghost use Rattle.yard.specs.declared.force.Terms.{Terms as TermsIn};
ghost use Rattle.yard.specs.declared.force.Run.TheVariants.{Link as link_run};
ghost use Rattle.runs.specs.Order.{run_terms};
ghost use Rattle.runs.specs.Tying.{ties_by};
ghost use Rattle.runs.specs.Pricing.{reach_at};

use crate::pricing::reach;
use chains::measure::{Measure, Steps, Tied};
use yard::force::Terms;
use yard::plan::Plan;

// A measure in which the terms of a run, at a level, have a value.
pub trait Worth: Measure {
    ghost worth: { TermsIn → ℕ → Self };

    fn of(terms: Terms, level: u32) -> Self
        ensures { result ≡ worth terms level };
}

// How far the run can go at the level.
impl Worth for Steps {
    ghost worth = { reach_at };

    fn of(terms: Terms, level: u32) -> Steps {
        reach(terms, level)
    }
}

// Whether the run ties, whatever the level.
impl Worth for Tied {
    ghost worth = { λ t n. of_yes (ties_by t) };

    fn of(terms: Terms, _level: u32) -> Tied {
        Tied {
            yes: terms.rate > 0 || terms.limit.is_some(),
        }
    }
}

// What the links of a pillar to each pillar are worth. (`from_fn` was tried: over all twelve, Place of a small plan took twice the time, and with a test in its closure, Place took up to a quarter more instructions.)
fn link_row<M: Worth>(plan: &Plan, level: u32, p: usize) -> [M; 12]
    requires { p < 12 }
    ensures { (q : ℕ) → q < plan.now.force.count → slice_index_or result q M.Measure.empty ≡ M.worth (run_terms plan.now.force (link_run p q)) level }
{
    let rows = plan.links();
    let mut row = [M::none(); 12];
    for (q, value) in row[..plan.pillars() as usize].iter_mut().enumerate() {
        *value = M::of(rows[p.min(q)][p.max(q)], level);
    }
    row
}

// What the links between each two pillars are worth: a row for each pillar, in an array without the heap, cut to the pillars where it is read.
pub fn link_rows<M: Worth>(plan: &Plan, level: u32) -> [[M; 12]; 12]
    ensures { (p q : ℕ) → p < plan.now.force.count → q < plan.now.force.count → run_at M.Measure.empty result p q ≡ M.worth (run_terms plan.now.force (link_run p q)) level }
{
    // not by `from_fn`: in its closure it is not known that a row of any measure fits in memory
    let mut rows = [[M::none(); 12]; 12];
    for (p, row) in rows[..plan.pillars() as usize].iter_mut().enumerate() {
        *row = link_row(plan, level, p);
    }
    rows
}
