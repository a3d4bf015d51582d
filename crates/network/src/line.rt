// The problem on one line, whose lower end is 0: the highest places of the pillars, or a chain that is too short.
ghost use Rattle.std.specs.Prelude.{◌≡◌, ◌<◌, ◌≤◌, length, MatchBool};
ghost use Rattle.std.proofs.Props.{props};
ghost use Rattle.network.specs.Line.{Upto, TooLow, steps_of};
ghost use Rattle.network.specs.Tables.{Shaped};

use super::answer::Chain;
use chains::measure::{Measure, Steps};
use chains::pillars::Pillars;
use chains::read::chain_to;
use chains::search::{BestChains, best_chains};
use std::array;

// The number of steps, or 0 where there is no limit.
fn steps_in(s: Steps) -> u64
    ensures { result ≡ steps_of s }
{
    s.unwrap_or(0)
}

// A point, by its place in the list, and a pillar that is too low for it.
#[derive(Clone, Copy)]
struct Low {
    point: usize,
    pillar: usize,
}

// The places of the points on the line, the length of the line, and the reaches.
#[derive(Clone, Copy)]
pub(crate) struct Problem<'a> {
    pub places: &'a [u64],
    pub width: u64,
    pub feeders: &'a [[Steps; 12]],
    pub links: &'a [[Steps; 12]],
    ghost shaped: { Shaped places.now width feeders.now links.now } by { Prim.hlevel props },
    ghost most: { length places.now ≤ 52 },
}

// A pillar on the line, by its number.
#[derive(Clone, Copy)]
struct Pillar<'a> {
    line: &'a Problem<'a>,
    number: usize,
    ghost within: { number < 12 },
}

impl Pillar<'_> {
    ghost use Rattle.std.specs.Prelude.{ℕ, MatchOption, Some, slice_index_or};
    ghost use Rattle.chains.specs.Measures.{no_steps, add_steps};
    ghost use Rattle.network.specs.Line.{Start, offer_of};
    ghost use Rattle.network.specs.Lines.{line_of};

    // How far a point with these reaches lets the pillar go.
    fn offer(&self, place: u64, row: &[Steps; 12]) -> Steps
        ensures { result ≡ add_steps (Some place) (slice_index_or row.now self.now.number no_steps) }
    {
        Some(place).join(row[self.number])
    }

    // How far the pillar can go by one feeder.
    fn start(&self) -> Steps
        ensures { Start (line_of self.now.line.now) self.now.number result }
    {
        let mut best = Some(self.line.width);
        for (place, row) in self.line.places.iter().zip(self.line.feeders) {
            let other = self.offer(*place, row);
            if !best.at_least_as_good(other) {
                best = other;
            }
        }
        best
    }

    // Whether the pillar at x is too low for a point with these reaches.
    fn is_too_low(&self, x: u64, place: u64, row: &[Steps; 12]) -> bool
        ensures { let reach = slice_index_or row.now self.now.number no_steps in MatchBool result (TooLow reach place x) (Upto reach place x) }
    {
        row[self.number].is_some_and(|r| place.saturating_sub(x) > r)
    }

    // The first point that the pillar at x is too low for.
    fn point_above(&self, x: u64) -> Option<usize>
        ensures { let l = line_of self.now.line.now in let j = self.now.number in MatchOption result ((i : ℕ) → i < l.points → Upto (l.feeder i j) (l.at i) x) (λ i. (i < l.points) × TooLow (l.feeder i j) (l.at i) x) }
    {
        let mut points = self.line.places.iter().zip(self.line.feeders);
        points.position(|(place, row)| self.is_too_low(x, *place, row))
    }

    // The first point whose offer to the pillar is `value`.
    fn giver(&self, value: Steps) -> usize
        requires { let l = line_of self.now.line.now in (i : ℕ) × (i < l.points) × (value ≡ offer_of l i self.now.number) }
        ensures within { result < (line_of self.now.line.now).points }
        ensures gives { value ≡ offer_of (line_of self.now.line.now) result self.now.number }
    {
        let mut points = self.line.places.iter().zip(self.line.feeders);
        let Some(i) = points.position(|(place, row)| self.offer(*place, row) == value) else {
            unreachable()
        };
        i
    }
}

impl Problem<'_> {
    ghost use Rattle.std.specs.Prelude.{ℕ, MatchOption, slice_index_or};
    ghost use Rattle.chains.specs.Measures.{no_steps};
    ghost use Rattle.chains.specs.Pillars.{listed};
    ghost use Rattle.network.specs.Line.{Start, Tight};
    ghost use Rattle.network.specs.Lines.{line_of, HeldDown, Solved};

    // The pillar of a number.
    fn pillar(&self, number: usize) -> Pillar<'_>
        requires { number < 12 }
        ensures line { result.line.now ≡ self.now }
        ensures number { result.number ≡ number }
    {
        Pillar { line: self, number }
    }

    // How far each pillar can go by one feeder; an array without the heap, cut to the pillars where it is read.
    fn starts(&self) -> [Steps; 12]
        ensures { let l = line_of self.now in (j : ℕ) → j < l.pillars → Start l j (slice_index_or result j no_steps) }
    {
        array::from_fn(|j| {
            if j < self.links.len() {
                self.pillar(j).start()
            } else {
                None
            }
        })
    }

    // A pillar whose best chain ends too low for some point, if there is one. (`find_map` was tried, and is no plainer: its closure needs a clause of its own.)
    fn too_low(&self, best: &[Steps; 12]) -> Option<Low>
        ensures { let l = line_of self.now in MatchOption result ((i j : ℕ) → i < l.points → j < l.pillars → Upto (l.feeder i j) (l.at i) (steps_of (slice_index_or best.now j no_steps))) (λ p. (p.point < l.points) × (p.pillar < l.pillars) × TooLow (l.feeder p.point p.pillar) (l.at p.point) (steps_of (slice_index_or best.now p.pillar no_steps))) }
    {
        for (j, b) in best[..self.links.len()].iter().enumerate() {
            if let Some(point) = self.pillar(j).point_above(steps_in(*b)) {
                return Some(Low { point, pillar: j });
            }
        }
        None
    }

    // The chain that holds the pillar of `low` down, from the point that gave its first pillar its start value.
    fn holding_chain(&self, first: &[Steps], best: &BestChains<[Steps; 12]>, low: Low) -> Chain
        requires { HeldDown self.now first.now best.now.values best.now.before low.point low.pillar }
        ensures { Tight (line_of self.now) result.from result.to (listed result.pillars) result.total }
    {
        let Some(pillars) = chain_to(&best.before, low.pillar as u8) else {
            unreachable()
        };
        let start = pillars[0] as usize;
        let from = self.pillar(start).giver(first[start]);
        let total = steps_in(best.values[low.pillar])
            + steps_in(self.feeders[low.point][low.pillar])
            - self.places[from];
        Chain {
            from: from as u8,
            to: low.point as u8,
            total,
            pillars: Pillars::from(pillars),
        }
    }

    // The highest places of the pillars, or a chain that is too short.
    pub(crate) fn highest(&self) -> Result<[u64; 12], Chain>
        ensures { Solved (line_of self.now) result }
    {
        let starts = self.starts();
        let first = &starts[..self.links.len()];
        let Ok(best) = best_chains(first, self.links) else {
            unreachable()
        };
        match self.too_low(&best.values) {
            Some(low) => Err(self.holding_chain(first, &best, low)),
            None => Ok(best.values.map(steps_in)),
        }
    }
}
