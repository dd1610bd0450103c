//! What is written back to the backing device: a `Plan` of whole blocks, made up in memory, and `apply`, which writes it.
//!
//! A plan takes all its memory when it is made. Neither to add a block nor to write the plan takes any, so that a cache
//! that has no memory left can still write back.
#![tactic(auto)]

mod applying;
mod plan;

pub use applying::apply;
pub use plan::Plan;

#[cfg(test)]
mod tests;
