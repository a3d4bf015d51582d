// Sites: crossings of trenches and middles of trench squares.

ghost use Rattle.std.specs.Prelude.{◌≡◌, ◌%◌, ◌≤◌, unsigned_abs};

// A site by its halves, twice its x and twice its y: both even or both odd, each at most 200,000 from 0.
#[derive(Clone, Copy, PartialEq, Eq, Debug)]
pub struct Site {
    hx: i32,
    hy: i32,
    ghost alike: { unsigned_abs hx % 2 ≡ unsigned_abs hy % 2 },
    ghost near: { (unsigned_abs hx ≤ 200000) × (unsigned_abs hy ≤ 200000) },
}

pub mod lengths;
