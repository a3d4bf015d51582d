// Fixed points, pillars and the reaches between them: the greatest positions of the pillars, or a chain that is too short.
#![tactic(auto)]

pub mod answer;
mod axis;
pub mod fitting;
pub mod law;
mod line;
pub mod shape;
mod sound;
