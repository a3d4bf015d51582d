// Why a plan is not placed: what bars Place and Why alike, and what Place alone is refused for.

ghost use Rattle.std.specs.Prelude.{◌≡◌};
ghost use Rattle.placing.specs.Refusals.{barred_refusal, place_refusal};
ghost use Rattle.placing.specs.declared.fault.PlaceFault.TheVariants.{Barred as barring};

use yard::fault::{Refusal, Rule};

#[derive(Clone, Copy, PartialEq, Eq, Debug)]
pub enum Barred {
    // the list has too few entries
    Room,
    // no mast stands
    NoMast,
    // the lowest loose pillar
    Loose(u8),
}

#[derive(Clone, Copy, PartialEq, Eq, Debug)]
pub enum PlaceFault {
    Barred(Barred),
    // no placing keeps all limits
    Unkept,
}

// By hand: the `From` that the crate thiserror derives has no contract.
impl From<Barred> for PlaceFault {
    ghost from_gives = { λ f g. g ≡ barring f };

    fn from(fault: Barred) -> PlaceFault {
        PlaceFault::Barred(fault)
    }
}

impl From<Barred> for Refusal {
    ghost from_gives = { λ f r. r ≡ barred_refusal f };

    fn from(fault: Barred) -> Refusal {
        match fault {
            Barred::Room => Rule::Room.at(0),
            Barred::NoMast => Rule::NoMast.at(0),
            Barred::Loose(pillar) => Rule::Loose.at(pillar),
        }
    }
}

impl From<PlaceFault> for Refusal {
    ghost from_gives = { λ f r. r ≡ place_refusal f };

    fn from(fault: PlaceFault) -> Refusal {
        match fault {
            PlaceFault::Barred(fault) => fault.into(),
            PlaceFault::Unkept => Rule::Unkept.at(0),
        }
    }
}
