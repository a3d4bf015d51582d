// The runs of a plan: what they cost, how far they can go, and what that says of placings.
#![tactic(auto)]

pub mod dearest;
pub mod loose;
pub mod pricing;
pub mod worth;
