// Entries in order: the best of them are kept in slots that a caller lends.
#![tactic(auto)]

pub mod list;
pub mod order;

pub use list::{RankedList, rank_all};
pub use order::{Ranked, one_ranking};
