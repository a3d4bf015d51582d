// Why a line is not taken: a fault of its frame, which is held whole, or of the edit that it makes.

ghost use Rattle.std.specs.Prelude.{◌≡◌};
ghost use Rattle.service.specs.Faults.{serve_refusal};
ghost use Rattle.service.specs.declared.fault.ServeFault.TheVariants.{Frame as in_frame, Entry as in_entry};

use frames::fault::FrameFault;
use yard::fault::{EntryFault, Refusal, Rule};

#[derive(Clone, Copy, PartialEq, Eq, Debug)]
pub enum ServeFault {
    // the buffer is under 512 bytes
    Memory,
    Frame(FrameFault),
    Entry(EntryFault),
}

// By hand: the `From` that the crate thiserror derives has no contract.
impl From<FrameFault> for ServeFault {
    ghost from_gives = { λ f g. g ≡ in_frame f };

    fn from(fault: FrameFault) -> ServeFault {
        ServeFault::Frame(fault)
    }
}

// By hand: the `From` that the crate thiserror derives has no contract.
impl From<EntryFault> for ServeFault {
    ghost from_gives = { λ f g. g ≡ in_entry f };

    fn from(fault: EntryFault) -> ServeFault {
        ServeFault::Entry(fault)
    }
}

impl From<ServeFault> for Refusal {
    ghost from_gives = { λ f r. r ≡ serve_refusal f };

    fn from(fault: ServeFault) -> Refusal {
        match fault {
            ServeFault::Memory => Rule::Room.at(0),
            ServeFault::Frame(fault) => fault.into(),
            ServeFault::Entry(fault) => fault.into(),
        }
    }
}
