// The best chain of runs through the pillars of a plan, for every measure of a chain.
#![tactic(auto)]

mod marks;
pub mod measure;
pub mod one;
pub mod pillars;
pub mod read;
pub mod search;
