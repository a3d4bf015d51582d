// The level of a plan, and what it rests on.

ghost use Rattle.placing.specs.Settling.{SolvedBy};

use crate::ground::Ground;
use crate::level::Level;
use crate::settle::Settled;
use network::answer::ShortChain;
use runs::dearest::dearest;
use yard::force::Run;

// The first run with the greatest fixed price, and the level settled from that price on.
#[derive(Drop)]
pub(crate) struct Solved {
    pub fixed: Run,
    pub settled: Settled,
}

impl Ground<'_> {
    // Looks for the level of the plan: an error where no placing keeps all limits, with a chain whose limits are too short.
    pub(crate) fn find_level(&self) -> Result<Solved, ShortChain>
        ensures { SolvedBy self.now.plan.now.force result }
    {
        let Some(top) = dearest(self.plan, None) else {
            unreachable()
        };
        let start = Level {
            cents: top.cents as u32,
        };
        let settled = self.settle(start)?;
        Ok(Solved {
            fixed: top.run,
            settled,
        })
    }
}
