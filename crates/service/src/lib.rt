// The service: one line in and its answer lines out, and a whole input in and a whole output out.
#![tactic(auto)]

pub mod fault;
pub mod run;
pub mod serve;
