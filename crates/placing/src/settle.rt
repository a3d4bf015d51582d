// The least level of a plan, by jumps each of which a chain forces.

ghost use Rattle.std.specs.Prelude.{◌≤◌};
ghost use Rattle.std.specs.List.{AllByRecursion};
ghost use Rattle.runs.specs.Order.{runs_of, run_terms};
ghost use Rattle.runs.specs.Shortness.{reach_of};
ghost use Rattle.placing.specs.Settling.{ChainShort, RaisesTo, SettledFrom};

use crate::chain::{chain_terms, paying_level};
use crate::ground::Ground;
use crate::level::Level;
use network::answer::{Positions, ShortChain};
use yard::plan::Plan;

// A level, and a chain that is too short one cent below it.
#[derive(Drop)]
pub(crate) struct Raised {
    pub level: Level,
    pub chain: ShortChain,
}

// A level, where the pillars go at it, and the chain that forced the last jump to it.
#[derive(Drop)]
pub(crate) struct Settled {
    pub level: Level,
    pub positions: Positions,
    pub below: Option<ShortChain>,
}

// The least level at which a chain that is too short is so no longer; or the chain with its limits, where no level helps.
fn raise_over(plan: &Plan, mut short: ShortChain, level: Level) -> Result<Raised, ShortChain>
    requires { ChainShort plan.now.force (reach_of plan.now.force level.cents) short }
    ensures { RaisesTo plan.now.force level.cents result }
{
    let chain = &short.chain;
    let terms = chain_terms(plan, chain.from, chain.pillars.as_slice(), chain.to);
    match paying_level(terms.as_slice(), short.gap, level) {
        Ok(jump) => {
            short.chain.total = jump.total;
            Ok(Raised {
                level: jump.level,
                chain: short,
            })
        }
        Err(total) => {
            short.chain.total = total;
            Err(short)
        }
    }
}

impl Ground<'_> {
    // The least level from `start` on, which pays every fixed price: each jump goes to a level below which a chain is too short.
    // Or a chain whose limits are too short.
    pub(crate) fn settle(&self, start: Level) -> Result<Settled, ShortChain>
        requires { AllByRecursion (λ r. (run_terms self.now.plan.now.force r).fixed ≤ start.cents) (runs_of self.now.plan.now.force) }
        ensures { SettledFrom self.now.plan.now.force start.cents result }
    {
        let mut level = start;
        let mut below = None;
        'jumps: loop {
            match self.fit_at(level.cents) {
                Ok(positions) => return Ok(Settled {
                    level,
                    positions,
                    below,
                }),
                Err(chain) => {
                    let raised = raise_over(self.plan, chain, level)?;
                    level = raised.level;
                    below = Some(raised.chain);
                }
            }
        }
    }
}
