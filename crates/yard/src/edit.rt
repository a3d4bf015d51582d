// The five edits of a plan, as they are stated.

ghost use Rattle.yard.specs.Offers.{Offered};

use crate::fault::{EntryFault, EntryRow};
use crate::force::Terms;

// The code of a limit that says that there is none.
pub const NO_LIMIT: u32 = 0xFFFF_FFFF;

// Terms as an edit states them: the limit in steps, or `NO_LIMIT`.
// The limit stays a code: with an `Option` two values would be written alike, and a call would not always come back.
#[derive(Clone, Copy, PartialEq, Eq, Debug)]
pub struct EntryTerms {
    pub rate: u16,
    pub fixed: u32,
    pub limit: u32,
}

#[derive(Clone, Copy, PartialEq, Eq, Debug)]
pub enum Edit {
    // Clears the plan and sets the pillar count.
    Open {
        count: u8,
    },
    // Stands a mast, or moves it.
    Raise {
        mast: u8,
        x: i32,
        y: i32,
    },
    // Removes a mast with its terms.
    Strike {
        mast: u8,
    },
    // Replaces the terms of a mast's run to a pillar.
    Feeder {
        mast: u8,
        pillar: u8,
        terms: EntryTerms,
    },
    // Replaces the terms of the run between two pillars, from either end.
    Link {
        one: u8,
        other: u8,
        terms: EntryTerms,
    },
}

// The terms that an edit states, if they are in range.
impl TryFrom<EntryTerms> for Terms {
    type Error = EntryFault;

    ghost try_from_gives = { Offered };

    fn try_from(stated: EntryTerms) -> Result<Terms, EntryFault> {
        if stated.rate > 10_000 {
            return Err(EntryRow::TermRange.at(3));
        }
        if stated.fixed > 1_000_000_000 {
            return Err(EntryRow::TermRange.at(5));
        }
        let limit = match stated.limit {
            NO_LIMIT => None,
            0..=200_000 => Some(stated.limit),
            _ => return Err(EntryRow::TermRange.at(9)),
        };
        Ok(Terms {
            rate: stated.rate,
            fixed: stated.fixed,
            limit,
        })
    }
}
