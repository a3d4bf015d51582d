// Why: the reason that a plan allows no lower level, or none at all.

ghost use Rattle.std.specs.Prelude.{◌≡◌, ℕ, ◌-◌, ◌<◌, ◌≤◌, List, ◌++◌, length, drop, Result as ResultOf};
ghost use Rattle.chains.specs.Pillars.{listed};
ghost use Rattle.yard.specs.declared.fault.Refusal.{Refusal as RefusalTold};
ghost use Rattle.placing.specs.Refusals.{why_told};
ghost use Rattle.placing.specs.Steps.{WhyStep};
ghost use Rattle.placing.specs.Settling.{told_of};
ghost use Rattle.placing.specs.Determined.{SameWhy};

use crate::answer::{ChainTold, Reason};
use crate::fault::Barred;
use crate::ready::ready;
use network::answer::ShortChain;
use yard::plan::Plan;

// The chain as it is told, with its pillars at the head of the list.
fn tell(short: &ShortChain, list: &mut [u8]) -> ChainTold
    requires few { length (listed short.now.chain.pillars) ≤ length list.old }
    requires near { (short.now.gap ≤ 200000) × (short.now.chain.total < short.now.gap) }
    ensures chain { result ≡ told_of short.now }
    ensures list { list.new ≡ listed short.now.chain.pillars ++ drop (length (listed short.now.chain.pillars)) list.old }
{
    let pillars = short.chain.pillars.as_slice();
    list[0..pillars.len()].copy_from_slice(pillars);
    ChainTold {
        from: short.chain.from,
        to: short.chain.to,
        gap: short.gap as u32,
        total: short.chain.total as u32,
        count: pillars.len() as u8,
    }
}

// Why no lower level exists: a reason, with the pillars of the chain that it tells at the head of the list; later entries stay.
// Where the limits cannot all be kept, the reason is a clash. A refusal leaves the list as it was.
pub fn why(plan: &Plan, list: &mut [u8]) -> Result<Reason, Barred>
    ensures step { WhyStep plan.now.force list.old (why_told result) list.new }
    ensures once { (other : ResultOf Reason RefusalTold) (after : List ℕ) → WhyStep plan.now.force list.old other after → SameWhy (why_told result) other list.new after }
{
    let ground = ready(plan, plan.pillars() as usize, list.len())?;
    match ground.find_level() {
        Err(clash) => Ok(Reason::Clash(tell(&clash, list))),
        Ok(solved) if solved.settled.level.cents == 0 => Ok(Reason::Floor),
        Ok(solved) => match &solved.settled.below {
            None => Ok(Reason::Fixed(solved.fixed)),
            Some(chain) => Ok(Reason::Chain(tell(chain, list))),
        },
    }
}
