// A list of at most twelve pillars, held in place, which is copied like a number. (The crate arrayvec's list is not.)
ghost use Rattle.std.specs.Prelude.{◌≡◌, ◌≤◌, ◌-◌, drop, replicate};
ghost use Rattle.std.proofs.Props.{props};

use arrayvec::ArrayVec;
use std::ops::DerefSlice;

// Behind the last pillar stands 0.
#[derive(Clone, Copy, PartialEq, Eq, Debug)]
pub struct Pillars {
    places: [u8; 12],
    count: usize,
    ghost few: { count ≤ 12 },
    ghost blank: { drop count places ≡ replicate (12 - count) 0 } by { Prim.hlevel props },
}

impl From<ArrayVec<u8, 12>> for Pillars {
    ghost use Rattle.std.specs.Prelude.{◌≡◌};
    ghost use Rattle.chains.specs.Pillars.{listed};

    ghost from_gives = { λ list p. listed p ≡ list.items };

    fn from(list: ArrayVec<u8, 12>) -> Pillars {
        let count = list.len();
        let mut places = [0; 12];
        places[..count].copy_from_slice(list.as_slice());
        Pillars { places, count }
    }
}

impl Pillars {
    ghost use Rattle.std.specs.Prelude.{◌≡◌, ◌≤◌, reverse, length};
    ghost use Rattle.chains.specs.Pillars.{listed};

    // How many pillars there are.
    pub fn len(&self) -> usize
        ensures { result ≡ length (listed self.now) }
    {
        self.count
    }

    // The pillars, from the first on.
    pub fn as_slice(&self) -> &[u8]
        ensures value { result.now ≡ listed self.now }
        ensures fits { length result.now ≤ 12 }
    {
        &self.places[..self.count]
    }

    // The same pillars, from the last on.
    pub fn reversed(self) -> Pillars
        ensures { listed result ≡ reverse (listed self) }
    {
        let Pillars { mut places, count } = self;
        places[..count].reverse();
        Pillars { places, count }
    }
}

impl DerefSlice for Pillars {
    ghost use Rattle.std.specs.Prelude.{◌≡◌, ◌≤◌, length};
    ghost use Rattle.chains.specs.Pillars.{listed};

    type Elem = u8;

    ghost deref_gives = { λ p list. (list ≡ listed p) × (length list ≤ 12) };

    fn deref(&self) -> &[u8] {
        self.as_slice()
    }
}
