// Where the masts of a plan stand, as the fixed points of a network.

ghost use Rattle.std.specs.Prelude.{◌≡◌, ℕ, ◌<◌, ◌≤◌, true, length, Some, ◌+ℤ◌, ◌-ℤ◌, MatchOption, unsigned_abs};
ghost use Rattle.network.specs.Tables.{point_in};
ghost use Rattle.yard.specs.Force.{mast_at};
ghost use Rattle.yard.specs.declared.force.Mast.{Mast as MastIn};
ghost use Rattle.runs.specs.Spots.{SomeMast, point_reading};
ghost use Rattle.placing.specs.Feet.{FeetOf, feet_with, point_for, some_reads};

use arrayvec::ArrayVec;
use yard::force::Point;
use yard::plan::Plan;

// The point of a standing mast, and one more than the number of the last one.
#[derive(Clone, Copy)]
pub(crate) struct Feet {
    pub first: Point,
    pub span: usize,
}

// The feet found so far and the mast m.
fn with_mast(found: Option<Feet>, m: usize, at: Point) -> Feet
    requires { m < 40 }
    ensures { result ≡ feet_with found m at }
{
    Feet {
        first: found.map_or(at, |feet| feet.first),
        span: m + 1,
    }
}

// Where the masts stand, if one does.
pub(crate) fn find_feet(plan: &Plan) -> Option<Feet>
    ensures { MatchOption result (SomeMast plan.now.force → ⊥) (FeetOf plan.now.force) }
{
    let mut found = None;
    for (m, mast) in plan.masts().iter().enumerate() {
        if let Some(mast) = mast {
            found = Some(with_mast(found, m, mast.at));
        }
    }
    found
}

// The reading of a point.
fn reading(at: Point) -> (i32, i32)
    requires { (unsigned_abs at.x ≤ 50000) × (unsigned_abs at.y ≤ 50000) }
    ensures { result ≡ (at.x +ℤ at.y, at.x -ℤ at.y) }
{
    (at.x + at.y, at.x - at.y)
}

// A plan on which a mast stands, with the fixed points of its networks: the reading of each mast by its number, up to that of the last one that stands.
// A number whose mast does not stand has the reading of one that does, which widens no field.
#[derive(Drop)]
pub(crate) struct Ground<'a> {
    pub plan: &'a Plan,
    pub points: ArrayVec<(i32, i32), 40>,
    ghost some: { 0 < length points.items },
    ghost masts: { (m : ℕ) (a : MastIn) → mast_at plan.now.force m ≡ Some a → (m < length points.items) × (point_in points.items m ≡ point_reading a.at) },
    ghost feet: { (i : ℕ) → i < length points.items → some_reads plan.now.force (point_in points.items i) ≡ true },
}

impl<'a> Ground<'a> {
    // The ground of a plan whose masts stand so: each number whose mast does not stand has the reading of the one mast at `first`.
    pub(crate) fn of(plan: &'a Plan, feet: Feet) -> Ground<'a>
        requires { FeetOf plan.now.force feet }
        ensures plan { result.plan.now ≡ plan.now }
        ensures points { (length result.points.items ≡ feet.span) × ((i : ℕ) → i < feet.span → point_in result.points.items i ≡ point_for plan.now.force feet.first i) }
    {
        let mut points = ArrayVec::new();
        for mast in &plan.masts()[0..feet.span] {
            let at = mast.as_ref().map_or(feet.first, |mast| mast.at);
            points.push(reading(at));
        }
        Ground { plan, points }
    }
}
