// Lines and frames: an input cut into lines, a line read as a call, calls and answers written as lines.
#![tactic(auto)]

pub mod answer;
mod bytes;
pub mod call;
mod decode;
pub mod digits;
pub mod fault;
pub mod field;
mod kind;
pub mod lines;
pub mod read;
pub mod write;
