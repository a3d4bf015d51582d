// A table of marks, one for each pillar: whether it is finished.
ghost use Rattle.std.specs.Prelude.{◌≡◌, ℕ, ◌++◌, ◌-◌, ◌<◌, ◌≤◌, true, false, replicate, slice_set, MatchOption};
ghost use Rattle.chains.specs.Chains.{value_at};
ghost use Rattle.chains.specs.Marked.{Finished, BestUnfinished};

use crate::measure::Measure;

// Whether each pillar is finished; the entries behind the last pillar are, from the start.
#[derive(Drop)]
pub(crate) struct Marks {
    done: [bool; 12],
}

impl Marks {
    // A table for `count` pillars, none of them finished.
    pub(crate) fn new(count: usize) -> Self
        requires { count ≤ 12 }
        ensures { result.done ≡ replicate count false ++ replicate (12 - count) true }
    {
        let mut done = [true; 12];
        done[..count].fill(false);
        Marks { done }
    }

    // The pillar p is finished.
    pub(crate) fn finish(&mut self, p: usize)
        requires { p < 12 }
        ensures { self.new.done ≡ slice_set self.old.done p true }
    {
        self.done[p] = true;
    }

    // The best of the n pillars that are not finished, or none where all are. (A zip with the values was tried, with a filter and a reduce: the proof did not close.)
    pub(crate) fn nearest<M: Measure>(&self, n: usize, best: &[M; 12]) -> Option<usize>
        requires { n ≤ 12 }
        ensures { MatchOption result ((k : ℕ) → k < n → Finished self.now.done k) (λ u. BestUnfinished M.leq self.now.done n (value_at M.empty best.now) u) }
    {
        let mut nearest = None;
        for (p, done) in self.done[..n].iter().enumerate() {
            if !*done {
                match nearest {
                    Some(u) if best[u].at_least_as_good(best[p]) => continue,
                    _ => nearest = Some(p),
                }
            }
        }
        nearest
    }
}
