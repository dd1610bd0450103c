//! A gate for tests, which holds clients at their points until others have come to theirs.
#![tactic(auto)]

mod hold;

pub use hold::{Hold, HoldRule};

#[cfg(test)]
mod tests;
