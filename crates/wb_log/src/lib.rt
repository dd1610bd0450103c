//! Segments in the slots of a log: `LogState` keeps what is known of those that are there, `write_segment` writes one
//! into its slot, `write_text` one that is encoded already, and `read_sectors`, `read_sector` and `read_block` read from
//! one.
//!
//! A state takes all its memory when it is made. Neither to keep a segment nor to write or read one takes any.
#![tactic(auto)]

mod reading;
mod state;
mod writing;

pub use reading::{read_block, read_sector, read_sectors};
pub use state::{LogState, vectors};
pub use writing::{write_segment, write_text};

#[cfg(test)]
mod tests;
