//! What comes into the history.

use crate::Block;

/// An entry of the history, which takes one place.
#[derive(Debug, Drop)]
pub enum Entry {
    /// A client's write of some sectors of a block: those whose dirty bits are set, at least one.
    Write {
        client: u32,
        block: u64,
        payload: Box<Block>,
    },
    /// A place that changes nothing.
    Void {
        client: u32,
    },
}
