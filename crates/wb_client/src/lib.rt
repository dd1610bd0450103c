//! The clients of a script, each on its pass of the front. `specs/Client.antt` says what a client leaves.
#![tactic(auto)]

mod answering;
mod flushing;
mod notes;
mod reading;
mod serving;
mod teller;
mod writing;

pub use serving::client;

#[cfg(test)]
mod tests;
