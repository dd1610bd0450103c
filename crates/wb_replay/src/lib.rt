//! Recovery: what the log has and the record doesn't cover is put to the backing device, and then the record is raised
//! behind all slots, so that no id that may lie in the log is met again (docs/CRASH.md).
//!
//! `recover` judges the superblock, takes a buffer of one slot and goes through it. `replay` is the same behind the
//! superblock, with a buffer that is lent, so that it takes no memory.
#![tactic(auto)]

mod following;
mod law;
mod recovering;
mod replaying;
mod settling;

pub use law::always_makes;
pub use recovering::{RecoverStop, recover};
pub use replaying::{Recovery, ReplayStop, replay};

#[cfg(test)]
mod tests;
