// One axis of a network.
ghost use Rattle.std.specs.Prelude.{◌≡◌, ℕ, ◌<◌, ◌≤◌, length, pos, ◌+ℤ◌, ◌≤ℤ◌, slice_index, slice_index_or, unsigned_abs};
ghost use Rattle.network.specs.Tables.{point_in};
ghost use Rattle.network.specs.Axes.{number_on, Least, Most, SolvedOn};
ghost use Rattle.network.specs.Networks.{network_layout};

use super::answer::Chain;
use super::line::Problem;
use super::shape::Network;
use super::sound::Checked;
use std::array;

// The first or the second number of a reading.
#[derive(Clone, Copy)]
pub(crate) enum Axis {
    First,
    Second,
}

impl Axis {
    // Not a closure for each axis, which is no plainer: three functions would have to say of it in their clauses what this match says once.
    fn number(self, reading: (i32, i32)) -> i64
        ensures { result ≡ number_on self reading }
    {
        match self {
            Axis::First => i64::from(reading.0),
            Axis::Second => i64::from(reading.1),
        }
    }
}

// The least reading of the points on the axis.
fn lowest(points: &[(i32, i32)], axis: Axis) -> i64
    requires { 1 ≤ length points.now }
    ensures { Least (length points.now) (λ i. number_on axis (point_in points.now i)) result }
{
    points.iter().map(|p| axis.number(*p)).min().unwrap()
}

// How far each point is above `low` on the axis.
fn lift(points: &[(i32, i32)], axis: Axis, low: i64, places: &mut [u64])
    requires room { length places.old ≡ length points.now }
    requires order { (i : ℕ) → i < length points.now → low ≤ℤ number_on axis (point_in points.now i) }
    ensures { (i : ℕ) → i < length points.now → number_on axis (point_in points.now i) ≡ low +ℤ pos (slice_index places.new i) }
{
    // Not a zip with the points (tried): what an `iter_mut` inside an adapter writes is not known to the proof.
    for (i, place) in places.iter_mut().enumerate() {
        *place = axis.number(points[i]).abs_diff(low);
    }
}

// The greatest of the places.
fn widest(places: &[u64]) -> u64
    requires { 1 ≤ length places.now }
    ensures { Most (length places.now) (λ i. slice_index places.now i) result }
{
    *places.iter().max().unwrap()
}

// The position at a place.
fn position(low: i64, place: u64) -> i32
    requires near { (unsigned_abs low ≤ 100000) × (place ≤ 200000) }
    ensures { result ≡ low +ℤ pos place }
{
    (low + place as i64) as i32
}

// The positions at the places, and 0 behind them.
fn positions(low: i64, places: &[u64]) -> [i32; 12]
    requires low { unsigned_abs low ≤ 100000 }
    requires few { length places.now ≤ 12 }
    requires near { (j : ℕ) → j < length places.now → slice_index places.now j ≤ 200000 }
    ensures at { (j : ℕ) → j < length places.now → slice_index_or result j (pos 0) ≡ low +ℤ pos (slice_index places.now j) }
    ensures behind { (j : ℕ) → length places.now ≤ j → slice_index_or result j (pos 0) ≡ pos 0 }
{
    array::from_fn(|j| match places.get(j) {
        Some(place) => position(low, *place),
        None => 0,
    })
}

impl Checked<'_> {
    // The greatest positions on the axis, or a chain that is too short on it.
    pub(crate) fn on_axis(&self, axis: Axis) -> Result<[i32; 12], Chain>
        ensures { let N = self.now.network in SolvedOn (network_layout N) (λ i. number_on axis (point_in N.points.now i)) result }
    {
        let Network {
            points,
            feeders,
            links,
        } = self.network;
        let low = lowest(points, axis);
        // Working lengths in a wide slice: a form of docs/DECISIONS.md, without the heap.
        // It is cut by the rows, which are as many as the points: the loops over both then test one length.
        let mut places = [0; 52];
        let places = &mut places[..feeders.len()];
        lift(points, axis, low, places);
        let line = Problem {
            places,
            width: widest(places),
            feeders,
            links,
        };
        let found = line.highest()?;
        Ok(positions(low, &found[..links.len()]))
    }
}
