// The yard: points and sites on the trench grid, terms, runs, and a plan with its five edits.
#![tactic(auto)]

pub mod edit;
pub mod fault;
pub mod force;
pub mod plan;
pub mod site;
