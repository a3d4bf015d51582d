// The fit of a plan's network at a level.

ghost use Rattle.std.specs.Prelude.{◌≤◌};
ghost use Rattle.std.specs.List.{AllByRecursion};
ghost use Rattle.runs.specs.Order.{runs_of, run_terms};
ghost use Rattle.placing.specs.Networked.{FitsAt};

use crate::ground::Ground;
use crate::tables::fill_feeders;
use network::answer::{Positions, ShortChain, Unfit};
use network::fitting::fit;
use network::shape::Network;
use runs::worth::link_rows;

impl Ground<'_> {
    // Where the pillars go with no run above the level, or a chain that is too short there.
    pub(crate) fn fit_at(&self, level: u32) -> Result<Positions, ShortChain>
        requires { AllByRecursion (λ r. (run_terms self.now.plan.now.force r).fixed ≤ level) (runs_of self.now.plan.now.force) }
        ensures { FitsAt self.now.plan.now.force level result }
    {
        let points = self.points.as_slice();
        // one table for the speed of Place, as `fill_feeders` says
        let mut feeders = [[None; 12]; 40];
        let feeders = &mut feeders[0..points.len()];
        fill_feeders(self.plan, level, feeders);
        let links = link_rows(self.plan, level);
        let network = Network {
            points,
            feeders,
            links: &links[0..self.plan.pillars() as usize],
        };
        // not by `map_err`, whose closure could not be shown to meet no `NoNetwork`
        match fit(&network) {
            Ok(positions) => Ok(positions),
            Err(Unfit::TooShort(chain)) => Err(chain),
            Err(Unfit::NoNetwork) => unreachable(),
        }
    }
}
