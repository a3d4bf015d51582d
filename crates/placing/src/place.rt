// Place: the level of a plan, and the sites of its pillars.

ghost use Rattle.std.specs.Prelude.{◌≡◌, ℕ, List, ℤ, Result as ResultOf};
ghost use Rattle.yard.specs.declared.fault.Refusal.{Refusal as RefusalTold};
ghost use Rattle.placing.specs.Refusals.{place_told};
ghost use Rattle.placing.specs.Steps.{PlaceStep};

use crate::fault::PlaceFault;
use crate::ready::ready;
use crate::sites::{sites_of, write_halves};
use runs::dearest::dearest;
use yard::plan::Plan;

// The least level of all placings that keep every limit. The halves of the sites stand at the head of the list, pillar by pillar; later entries stay.
// A refusal leaves the list as it was.
pub fn place(plan: &Plan, list: &mut [i32]) -> Result<u32, PlaceFault>
    ensures step { PlaceStep plan.now.force list.old (place_told result) list.new }
    ensures once { (other : ResultOf ℕ RefusalTold) (after : List ℤ) → PlaceStep plan.now.force list.old other after → (place_told result ≡ other) × (list.new ≡ after) }
{
    let count = plan.pillars() as usize;
    let ground = ready(plan, 2 * count, list.len())?;
    let Ok(solved) = ground.find_level() else {
        return Err(PlaceFault::Unkept);
    };
    let sites = sites_of(&solved.settled.positions, count);
    let Some(top) = dearest(plan, Some(&sites)) else {
        unreachable()
    };
    write_halves(&sites[0..count], list);
    Ok(top.cents as u32)
}
