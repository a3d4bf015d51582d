// Examples of what the crates do, each proved safe and then run.
#![tactic(auto)]

#[cfg(test)]
mod book_tests;
#[cfg(test)]
mod chain_tests;
#[cfg(test)]
mod frame_tests;
#[cfg(test)]
mod plan_tests;
#[cfg(test)]
mod serve_tests;
#[cfg(test)]
mod site_tests;
