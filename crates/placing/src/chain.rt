// A chain of runs between two masts, by the terms of its runs: at which levels it is short of a gap.

ghost use Rattle.std.specs.Prelude.{◌≡◌, ℕ, ◌+◌, ◌<◌, ◌≤◌, map, length, MatchOption};
ghost use Rattle.std.specs.List.{AllByRecursion};
ghost use Rattle.yard.specs.declared.force.Run.TheVariants.{Feeder as feeder_run, Link as link_run};
ghost use Rattle.runs.specs.Order.{run_terms};
ghost use Rattle.runs.specs.Shortness.{chain_runs};
ghost use Rattle.placing.specs.Jumping.{ShortAt, LongAt, Jumped};

use crate::level::{HIGHEST_LEVEL, Level};
use arrayvec::ArrayVec;
use runs::pricing::reach;
use yard::force::{NEW_TERMS, Terms};
use yard::plan::Plan;

// A level at which a chain is no longer short, and how far its runs go altogether one level below.
#[derive(Clone, Copy)]
pub(crate) struct Jump {
    pub level: Level,
    pub total: u64,
}

// The terms from a mast to a pillar; new ones where the mast does not stand.
// Not by `Plan::terms` (tried): the proof would need that the mast's number is below 40, and for a link that its pillars differ, which a chain's terms do not ask.
fn feeder_terms(plan: &Plan, mast: u8, pillar: u8) -> Terms
    requires { pillar < plan.now.force.count }
    ensures { result ≡ run_terms plan.now.force (feeder_run mast pillar) }
{
    match plan.masts().get(mast as usize) {
        Some(Some(standing)) => standing.feeders[pillar as usize],
        _ => NEW_TERMS,
    }
}

// The terms between two pillars. (Three functions here ask that a pillar is one of the plan: a type of such pillars would be made of each entry of a chain, which is no plainer.)
fn link_terms(plan: &Plan, p: u8, q: u8) -> Terms
    requires { (p < plan.now.force.count) × (q < plan.now.force.count) }
    ensures { result ≡ run_terms plan.now.force (link_run p q) }
{
    plan.links()[p.min(q) as usize][p.max(q) as usize]
}

// The terms of a chain's runs in their order: one more than the chain has pillars.
pub(crate) fn chain_terms(plan: &Plan, from: u8, pillars: &[u8], to: u8) -> ArrayVec<Terms, 13>
    requires some { 0 < length pillars.now }
    requires few { length pillars.now ≤ 12 }
    requires within { AllByRecursion (λ p. p < plan.now.force.count) pillars.now }
    ensures { result.items ≡ map (run_terms plan.now.force) (chain_runs from pillars.now to) }
{
    let mut terms = ArrayVec::new();
    let mut at = pillars[0];
    terms.push(feeder_terms(plan, from, at));
    for next in &pillars[1..] {
        terms.push(link_terms(plan, at, *next));
        at = *next;
    }
    terms.push(feeder_terms(plan, to, at));
    terms
}

// How far the runs go altogether at a level, if that is less than the gap.
fn short_at(terms: &[Terms], gap: u64, level: u32) -> Option<u64>
    ensures { MatchOption result (LongAt terms.now gap level) (λ total. ShortAt terms.now gap level total) }
{
    let mut total = 0;
    for run in terms {
        let steps = reach(*run, level)?;
        if steps >= gap - total {
            return None;
        }
        total += steps;
    }
    if total < gap { Some(total) } else { None }
}

// Where a chain that is short at `low` is no longer short: a level above `low` at which it is not, though one level below it is.
// Else the chain is short at the highest level, and its runs go so far there.
pub(crate) fn paying_level(terms: &[Terms], gap: u64, low: Level) -> Result<Jump, u64>
    requires { (total : ℕ) × ShortAt terms.now gap low.cents total }
    ensures { Jumped terms.now gap low.cents result }
{
    if let Some(total) = short_at(terms, gap, HIGHEST_LEVEL) {
        return Err(total);
    }
    let Some(mut total) = short_at(terms, gap, low.cents) else {
        unreachable()
    };
    let mut short = low.cents;
    let mut high = HIGHEST_LEVEL;
    // the levels are no slice, so no search of the library goes over them
    while short + 1 < high {
        let middle = short + (high - short) / 2;
        match short_at(terms, gap, middle) {
            Some(steps) => {
                short = middle;
                total = steps;
            }
            None => high = middle,
        }
    }
    let level = Level { cents: high };
    Ok(Jump { level, total })
}
