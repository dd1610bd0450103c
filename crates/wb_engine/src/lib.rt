//! The cache on one thread: writes gather in segments in memory, which are written to the log and later back to the backing
//! device, and a read gives the newest content of each sector. `specs/Standing.antt` says what an engine stands for, and
//! `specs/Stepping.antt` what each step keeps.
#![tactic(auto)]

mod absorbing;
mod closing;
mod engine;
mod opening;
mod reading;
mod settling;
mod stepping;
mod turning;

pub use closing::Closed;
pub use engine::Engine;
pub use opening::{OpenCause, OpenStop};
pub use turning::Turn;
pub use wb_crash::Numbers;

#[cfg(test)]
mod tests;
