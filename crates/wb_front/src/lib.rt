//! The cache for many clients: each puts its writes into the intake without a lock, and the engine stands behind one lock with
//! the drain of the intake. `specs/Joined.antt` says what the lock keeps.
#![tactic(auto)]

mod closing;
mod core_of;
mod draining;
mod fetching;
mod flushing;
mod front;
mod gate;
mod opening;
mod publishing;
mod reading;
mod turning;
mod writing;

pub use closing::Finished;
pub use core_of::Core;
pub use flushing::Down;
pub use front::Front;
pub use gate::{Gate, Open, Point};
pub use opening::Ready;
pub use wb_barrier::{Pending, Receipt, Ticket};
pub use writing::{NotPosted, WriteCause, WriteStop};

#[cfg(test)]
mod tests;
