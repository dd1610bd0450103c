//! The two devices of a cache.

/// One of the two devices: the fast one that holds the log, or the slow one behind it.
#[derive(Clone, Copy, Debug, PartialEq, Eq)]
pub enum Which {
    /// The device that holds the log.
    Log,
    /// The device that the cache stands before.
    Backing,
}
