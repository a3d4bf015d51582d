// The dearest run of a plan, taken over every run in run order by loops over the slices of masts and pillars with their numbers, a form of docs/DECISIONS.md.

ghost use Rattle.std.specs.Prelude.{◌≡◌, ◌+◌, ◌-◌, ◌<◌, [], None, slice_index_or};
ghost use Rattle.std.specs.Option.{option_copied};
ghost use Rattle.yard.specs.Force.{mast_at};
ghost use Rattle.yard.specs.declared.force.Run.TheVariants.{Feeder as feeder_run, Link as link_run};
ghost use Rattle.runs.specs.Order.{numbers_from, standing_from, feeders_of, all_feeders, links_of, runs_of};
ghost use Rattle.runs.specs.Dearest.{length_at, price_by, IsDearest, dearer_of, dearest_from};

use crate::pricing::price;
use yard::force::{Mast, Run, Terms};
use yard::plan::Plan;
use yard::site::Site;

// A run and its price.
#[derive(Clone, Copy)]
pub struct Priced {
    pub run: Run,
    pub cents: u64,
}

// The dearest so far and a further run: the dearer, and of equals the earlier.
fn dearer(best: Option<Priced>, run: Run, cents: u64) -> Option<Priced>
    ensures { result ≡ dearer_of best run cents }
{
    match best {
        Some(dearest) if cents <= dearest.cents => best,
        _ => Some(Priced { run, cents }),
    }
}

// A plan whose runs are priced, and the sites that its pillars stand at; where they stand nowhere, no run has a length.
#[derive(Clone, Copy)]
struct Laid<'a> {
    plan: &'a Plan,
    sites: Option<&'a [Site; 12]>,
}

impl Laid<'_> {
    // The length of the run from a mast to a pillar.
    fn feeder_length(&self, m: usize, mast: &Mast, p: usize) -> u32
        requires mast { mast_at self.now.plan.now.force m ≡ Some mast.now }
        requires pillar { p < 12 }
        ensures { result ≡ length_at self.now.plan.now.force (option_copied self.now.sites) (feeder_run m p) }
    {
        let Some(sites) = self.sites else {
            return 0;
        };
        let at = mast.at;
        let Some(foot) = Site::at(at.x + at.x, at.y + at.y) else {
            unreachable()
        };
        foot.length(&sites[p])
    }

    // The length of the run between two pillars.
    fn link_length(&self, p: usize, q: usize) -> u32
        requires pillars { (p < 12) × (q < 12) }
        ensures { result ≡ length_at self.now.plan.now.force (option_copied self.now.sites) (link_run p q) }
    {
        match self.sites {
            Some(sites) => sites[p].length(&sites[q]),
            None => 0,
        }
    }

    // The dearest so far and the runs from a mast to each pillar.
    fn dearest_feeder(&self, best: Option<Priced>, m: usize, mast: &Mast) -> Option<Priced>
        requires { (mast_at self.now.plan.now.force m ≡ Some mast.now) × (m < 40) }
        ensures { result ≡ dearest_from (price_by self.now.plan.now.force (option_copied self.now.sites)) best (feeders_of m (numbers_from 0 self.now.plan.now.force.count)) }
    {
        let mut best = best;
        let count = self.plan.pillars() as usize;
        for (p, terms) in mast.feeders[0..count].iter().enumerate() {
            let run = Run::Feeder {
                mast: m as u8,
                pillar: p as u8,
            };
            best = dearer(best, run, price(*terms, self.feeder_length(m, mast, p)));
        }
        best
    }

    // The dearest so far and the runs from a pillar to each higher one.
    fn dearest_link(&self, best: Option<Priced>, p: usize, row: &[Terms; 12]) -> Option<Priced>
        requires { (slice_index_or self.now.plan.now.force.links p [] ≡ row.now) × (p < self.now.plan.now.force.count) }
        ensures { result ≡ dearest_from (price_by self.now.plan.now.force (option_copied self.now.sites)) best (links_of p (numbers_from (p + 1) (self.now.plan.now.force.count - (p + 1)))) }
    {
        let mut best = best;
        let count = self.plan.pillars() as usize;
        for (q, terms) in row[0..count].iter().enumerate() {
            if p < q {
                let run = Run::Link {
                    one: p as u8,
                    other: q as u8,
                };
                best = dearer(best, run, price(*terms, self.link_length(p, q)));
            }
        }
        best
    }

    // The dearest of the runs from masts to pillars.
    fn dearest_of_feeders(&self) -> Option<Priced>
        ensures { result ≡ dearest_from (price_by self.now.plan.now.force (option_copied self.now.sites)) None (all_feeders (standing_from 0 self.now.plan.now.force.masts) (numbers_from 0 self.now.plan.now.force.count)) }
    {
        let mut best = None;
        for (m, mast) in self.plan.masts().iter().enumerate() {
            if let Some(mast) = mast {
                best = self.dearest_feeder(best, m, mast);
            }
        }
        best
    }
}

// The dearest run of a plan where its pillars stand so, the first in run order of equals; none where the plan has no run.
pub fn dearest(plan: &Plan, sites: Option<&[Site; 12]>) -> Option<Priced>
    ensures { IsDearest (price_by plan.now.force (option_copied sites.entry)) (runs_of plan.now.force) result }
{
    let laid = Laid { plan, sites };
    let mut best = laid.dearest_of_feeders();
    let count = plan.pillars() as usize;
    for (p, row) in plan.links()[0..count].iter().enumerate() {
        best = laid.dearest_link(best, p, row);
    }
    best
}
