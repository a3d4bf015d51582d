// What a run costs, and how far it can go at a level: of the crate `runs`, here under the name that it had.

pub use runs::pricing::{price, reach};
