// The levels that the search for the least one goes over.

ghost use Rattle.std.specs.Prelude.{◌≤◌};

// The greatest price of a run of 200,000 steps.
pub(crate) const HIGHEST_LEVEL: u32 = 3_000_000_000;

// A level, not above the highest.
#[derive(Clone, Copy)]
pub(crate) struct Level {
    pub cents: u32,
    ghost bounded: { cents ≤ 3000000000 },
}
