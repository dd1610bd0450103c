//! The intake: where clients put entries without a lock.
#![tactic(auto)]

mod answers;
mod board;
mod calls;
mod claiming;
mod looking;
mod meeting;
mod named;
mod pass;
mod sight;
mod start;
mod steps;
mod table;
mod taking;

pub use answers::{Claim, Look, NoClaim, NotFilled, Parcel, Voids};
pub use board::Intake;
pub use named::Named;
pub use pass::{Drain, Note, Pass};
pub use sight::{CellLoad, Load, Loads, Meeting, Sight};
pub use table::{Cells, Naming, Place, Rules};

#[cfg(test)]
mod tests;
#[cfg(test)]
mod threads;
