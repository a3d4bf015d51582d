ghost use Rattle.std.specs.Prelude.{◌≡◌, ℕ, ◌<◌, ◌≤◌, true};
ghost use Rattle.yard.specs.Sound.{on_grid, feeder_fair, link_fair};

use crate::force::InForce;

// A plan: what is in force, within the ranges of its entries.
#[derive(Drop)]
pub struct Plan {
    force: InForce,
    ghost counted: { (0 < force.count) × (force.count ≤ 12) },
    ghost near: { (m : ℕ) → on_grid force m ≡ true },
    ghost feeders: { (m p : ℕ) → feeder_fair force m p ≡ true },
    ghost links: { (p q : ℕ) → link_fair force p q ≡ true },
}

pub mod edits;
