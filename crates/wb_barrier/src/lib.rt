//! Barriers: a ticket for all that a client has put so far, and a receipt for it once that is stable.
#![tactic(auto)]

mod polling;
mod posting;
mod tickets;

pub use polling::poll;
pub use posting::post;
pub use tickets::{Pending, Receipt, Ticket};

#[cfg(test)]
mod tests;
