//! Serving the clients of a script over a cache. `specs/Session.antt` says what a session leaves.
#![tactic(auto)]

mod flushing;
mod playing;
mod serving;
mod writing;

pub use playing::is_out_of_ids;
pub use serving::{ServeStop, Served, Session, serve_plain};

#[cfg(test)]
mod tests;
