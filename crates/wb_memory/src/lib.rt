//! The live segments of a cache: those in memory, what is kept of those in the log, and where the newest content of each
//! sector stands among all of them.
#![tactic(auto)]

mod memory;

pub use memory::{Memory, Newest};
