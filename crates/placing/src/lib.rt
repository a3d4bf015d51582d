// Placing a plan's pillars, and why no lower level exists.
#![tactic(auto)]

pub mod answer;
mod chain;
pub mod fault;
mod fits;
mod ground;
mod level;
pub mod place;
pub mod pricing;
mod ready;
mod settle;
mod sites;
mod solve;
mod tables;
pub mod why;
