//! Where the newest content of each sector of the backing device stands: in a block of a segment, or on the device
//! itself. `specs/Lookup.antt` has what a lookup table stands for.
#![tactic(auto)]

mod blocks;
mod lookup;
mod queue;
mod spots;

pub use lookup::Lookup;
pub use wb_geometry::Spot;

#[cfg(test)]
mod tests;
