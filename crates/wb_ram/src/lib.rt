//! A segment in memory, which takes writes until it is sealed.
#![tactic(auto)]

mod segment;

pub use segment::RamSegment;

#[cfg(test)]
mod tests;
