//! How the dirty sectors of a block come to their places on a device: by one write for each run of them. Whoever puts blocks
//! of segments to the backing device does it by `write_block`.
#![tactic(auto)]

mod writing;

pub use writing::write_block;

#[cfg(test)]
mod tests;
