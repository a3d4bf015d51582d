// A book of the calls on a plan: each call with its answer, in the order in which they were made.
#![tactic(auto)]

pub mod book;
pub mod law;
pub mod page;
