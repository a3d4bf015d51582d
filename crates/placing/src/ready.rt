// What Place and Why ask of a plan before they look for a level.

ghost use Rattle.std.specs.Prelude.{◌≡◌, ◌≤◌, MatchResult};
ghost use Rattle.runs.specs.Tying.{Ready as ReadyPlan};
ghost use Rattle.placing.specs.Refusals.{barred_refusal};
ghost use Rattle.placing.specs.Steps.{Bars};

use crate::fault::Barred;
use crate::ground::{Ground, find_feet};
use runs::loose::lowest_loose;
use yard::plan::Plan;

// The ground of the plan, with `need` entries in a list of `room`, a mast standing and no pillar loose; else the first of these that fails.
pub(crate) fn ready(plan: &Plan, need: usize, room: usize) -> Result<Ground<'_>, Barred>
    ensures { MatchResult result (λ g. (g.plan.now ≡ plan.now) × ReadyPlan plan.now.force × (need ≤ room)) (λ b. Bars plan.now.force need room (barred_refusal b)) }
{
    if room < need {
        return Err(Barred::Room);
    }
    let feet = find_feet(plan).ok_or(Barred::NoMast)?;
    // the points are made last: a plan that is refused needs none
    match lowest_loose(plan) {
        Some(pillar) => Err(Barred::Loose(pillar)),
        None => Ok(Ground::of(plan, feet)),
    }
}
