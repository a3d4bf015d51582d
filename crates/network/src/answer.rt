// What a fit answers.
use chains::pillars::Pillars;

// The positions of the pillars: a reading for each of them, and (0, 0) behind the last.
// Twelve and no list, which would be no plainer: each axis gives twelve numbers, and a caller has the number of its pillars.
#[derive(Clone, Copy, PartialEq, Eq, Debug)]
pub struct Positions {
    pub readings: [(i32, i32); 12],
}

// A chain from one fixed point by some pillars to another, whose reaches add to `total`.
#[derive(Clone, Copy, PartialEq, Eq, Debug)]
pub struct Chain {
    pub from: u8,
    pub to: u8,
    pub total: u64,
    pub pillars: Pillars,
}

impl Chain {
    ghost use Rattle.network.specs.Networks.{Turned};

    // The same chain from its other end.
    pub(crate) fn turned(self) -> Chain
        ensures { Turned self result }
    {
        Chain {
            from: self.to,
            to: self.from,
            total: self.total,
            pillars: self.pillars.reversed(),
        }
    }
}

// A chain whose total is less than `gap`, the length between its two points.
#[derive(Clone, Copy, PartialEq, Eq, Debug)]
pub struct ShortChain {
    pub chain: Chain,
    pub gap: u64,
}

// Why there are no positions: the tables make no network, or a chain is too short.
#[derive(Clone, Copy, PartialEq, Eq, Debug)]
pub enum Unfit {
    NoNetwork,
    TooShort(ShortChain),
}
