// Why a line is no call: a fault of the line, or of the frame, which holds the line's whole.

ghost use Rattle.std.specs.Prelude.{◌≡◌};
ghost use Rattle.frames.specs.Faults.{line_refusal, frame_refusal};
ghost use Rattle.frames.specs.declared.fault.FrameFault.TheVariants.{Line as in_line};

use yard::fault::{Refusal, Rule};

#[derive(Clone, Copy, PartialEq, Eq, Debug)]
pub enum LineFault {
    // no character, an odd number of them, or over 64: how many, at most 64
    Length(u8),
    // a character that is no digit: its column
    NoDigit(u8),
}

#[derive(Clone, Copy, PartialEq, Eq, Debug)]
pub enum FrameFault {
    Line(LineFault),
    // the bytes do not add to 0 modulo 256: the place of the last one
    Sum(u8),
    // no call has this kind and this length
    Kind,
}

// By hand: the `From` that the crate thiserror derives has no contract.
impl From<LineFault> for FrameFault {
    ghost from_gives = { λ f g. g ≡ in_line f };

    fn from(fault: LineFault) -> FrameFault {
        FrameFault::Line(fault)
    }
}

impl From<LineFault> for Refusal {
    ghost from_gives = { λ f r. r ≡ line_refusal f };

    fn from(fault: LineFault) -> Refusal {
        match fault {
            LineFault::Length(place) => Rule::LineLength.at(place),
            LineFault::NoDigit(place) => Rule::NoDigit.at(place),
        }
    }
}

impl From<FrameFault> for Refusal {
    ghost from_gives = { λ f r. r ≡ frame_refusal f };

    fn from(fault: FrameFault) -> Refusal {
        match fault {
            FrameFault::Line(fault) => fault.into(),
            FrameFault::Sum(place) => Rule::CheckSum.at(place),
            FrameFault::Kind => Rule::Kind.at(0),
        }
    }
}
