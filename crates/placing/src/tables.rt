// How far the runs from the masts can go at a level, as tables.

ghost use Rattle.std.specs.Prelude.{◌≡◌, ℕ, ◌<◌, ◌≤◌, length, slice_index_or};
ghost use Rattle.chains.specs.Measures.{no_steps};
ghost use Rattle.network.specs.Tables.{reach_in};
ghost use Rattle.yard.specs.Force.{mast_at};
ghost use Rattle.placing.specs.Networked.{mast_reach};

use chains::measure::Steps;
use runs::pricing::reach;
use yard::force::Mast;
use yard::plan::Plan;

// The reaches from a mast to each pillar; where it does not stand, none is limited. (Not one with a row of links: a measure has no value for that case. Not by `from_fn`, as a row of links.)
fn feeder_row(plan: &Plan, mast: &Option<Mast>, level: u32) -> [Steps; 12]
    ensures { (p : ℕ) → p < plan.now.force.count → slice_index_or result p no_steps ≡ mast_reach mast.now level p }
{
    let mut row = [None; 12];
    let Some(standing) = mast else {
        return row;
    };
    for (p, steps) in row[..plan.pillars() as usize].iter_mut().enumerate() {
        *steps = reach(standing.feeders[p], level);
    }
    row
}

// The reaches from each mast to each pillar, written into the caller's table: one by value was tried, and Place took a quarter more instructions.
// By number and not a zip with the masts (tried): what an `iter_mut` inside an adapter writes is not known to the proof.
pub(crate) fn fill_feeders(plan: &Plan, level: u32, rows: &mut [[Steps; 12]])
    requires { length rows.old ≤ 40 }
    ensures { (m p : ℕ) → m < length rows.new → p < plan.now.force.count → reach_in rows.new m p ≡ mast_reach (mast_at plan.now.force m) level p }
{
    let masts = plan.masts();
    for (m, row) in rows.iter_mut().enumerate() {
        *row = feeder_row(plan, &masts[m], level);
    }
}
