// What Why answers.

use yard::force::Run;

// A chain between two masts, the lower number first: the length between them, what its runs reach in all, and how many pillars it has.
// The pillars themselves stand at the head of the caller's list, where the call is asked to write them.
#[derive(Clone, Copy, PartialEq, Eq, Debug)]
pub struct ChainTold {
    pub from: u8,
    pub to: u8,
    pub gap: u32,
    pub total: u32,
    pub count: u8,
}

// Why no lower level exists, or why there is none at all.
#[derive(Clone, Copy, PartialEq, Eq, Debug)]
pub enum Reason {
    // the level is 0
    Floor,
    // the first run in run order whose fixed price is the level
    Fixed(Run),
    // a chain whose reaches one cent below the level add to less than the length between its masts
    Chain(ChainTold),
    // a chain whose limits add to less than the length between its masts
    Clash(ChainTold),
}
