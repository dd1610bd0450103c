//! Serving the clients of a script on threads. `specs/Threads.antt` says what their passes and transcripts are then.
#![tactic(auto)]

mod jobs;
mod last_notes;
mod serving;
#[cfg(test)]
mod tests;

pub use serving::serve_all;
