//! How far each step of the cache has come.

/// Ids of segments: how far each step has come, from the last to the first. `first <= recorded <= back <= stable <= logged
/// <= tried <= sealed`, and `tried` is at most one above `logged`.
#[derive(Clone, Copy, Debug, PartialEq, Eq)]
pub struct Numbers {
    /// The record at the session's start; the session's segments are those behind it.
    pub first: u64,
    /// The last segment that the superblock's record names: it and all before it needn't be read again.
    pub recorded: u64,
    /// The last segment whose blocks are in the synced backing device.
    pub back: u64,
    /// The last segment that a sync of the log covered.
    pub stable: u64,
    /// The last segment whose write to the log was answered `Ok`.
    pub logged: u64,
    /// The last segment whose write to the log was begun.
    pub tried: u64,
    /// The last segment that takes no more writes.
    pub sealed: u64,
}
