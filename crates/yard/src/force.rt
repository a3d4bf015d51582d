// What is in force on a plan: a pillar count, the standing masts and the terms of each run.

ghost use Rattle.std.specs.Prelude.{◌≡◌, ◌<◌, slice_set};
ghost use Rattle.yard.specs.Force.{opened_at};

// The most pillars and masts of a plan.
pub const PILLARS: usize = 12;

pub const MASTS: usize = 40;

// Where a mast stands, in whole steps.
#[derive(Clone, Copy, PartialEq, Eq, Debug)]
pub struct Point {
    pub x: i32,
    pub y: i32,
}

// The terms of a run: cents a step, cents at once, and the greatest length in steps if there is one.
#[derive(Clone, Copy, PartialEq, Eq, Debug, Default)]
pub struct Terms {
    pub rate: u16,
    pub fixed: u32,
    pub limit: Option<u32>,
}

// The terms of a run that nobody has set: the `Default` of the type, as a constant.
pub const NEW_TERMS: Terms = Terms {
    rate: 0,
    fixed: 0,
    limit: None,
};

// A standing mast, with the terms of its feeders by pillar: a struck mast takes them with it.
#[derive(Clone, Copy)]
pub struct Mast {
    pub at: Point,
    pub feeders: [Terms; PILLARS],
}

// A run: from a mast to a pillar, or between two pillars.
#[derive(Clone, Copy, PartialEq, Eq, Debug)]
pub enum Run {
    Feeder { mast: u8, pillar: u8 },
    Link { one: u8, other: u8 },
}

// A link's terms stand in the row of its lower pillar, at its higher one. The tables have room for every pillar, of which there are `count`: no heap.
#[derive(Drop)]
pub struct InForce {
    pub count: u8,
    pub masts: [Option<Mast>; MASTS],
    pub links: [[Terms; PILLARS]; PILLARS],
}

impl Mast {
    // The mast with other terms to a pillar.
    pub(crate) fn refed(mut self, pillar: u8, terms: Terms) -> Mast
        requires { pillar < 12 }
        ensures at { result.at ≡ self.at }
        ensures feeders { result.feeders ≡ slice_set self.feeders pillar terms }
    {
        self.feeders[pillar as usize] = terms;
        self
    }
}

impl InForce {
    // So many pillars, no mast, new terms everywhere.
    pub(crate) fn opened(count: u8) -> InForce
        ensures { result ≡ opened_at count }
    {
        InForce {
            count,
            masts: [None; MASTS],
            links: [[NEW_TERMS; PILLARS]; PILLARS],
        }
    }
}
