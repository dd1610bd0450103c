//! Where the newest content of a sector stands.

/// A place in the log: a block of a segment. Id 0 is the backing device.
#[derive(Clone, Copy, Debug, PartialEq, Eq)]
pub struct Spot {
    /// The segment, numbered from 1, or 0 for the backing device.
    pub id: u64,
    /// The block's index in its segment.
    pub index: u8,
}
