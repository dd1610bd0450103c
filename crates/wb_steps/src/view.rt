//! What a seat of the intake knows.

use crate::Item;
use sqlite_items::Items;

/// What a seat may do.
#[derive(Clone, Copy, Debug, PartialEq, Eq)]
pub enum Role {
    /// It names places for one client, and fills them.
    Owner,
    /// It carries what another seat has seen.
    Copy,
    /// It takes the entries out in the order of their places, and publishes the limit, the stable number and the fault.
    Drain,
    /// It gave what it knew to another seat.
    Spent,
}

/// The parts of a fault word.
#[derive(Clone, Copy, Debug, PartialEq, Eq)]
pub struct Faults {
    /// 1 where the log device is down.
    pub log_down: u64,
    /// 1 where the backing device is down.
    pub backing_down: u64,
    /// How many reads of clients failed on the log device.
    pub log_reads: u64,
    /// How many reads of clients failed on the backing device.
    pub backing_reads: u64,
}

/// The greatest numbers that a seat has seen.
#[derive(Clone, Copy, Debug, PartialEq, Eq)]
pub struct Seen {
    /// So many places are named.
    pub cursor: u64,
    /// Places below it may be named.
    pub limit: u64,
    /// So many places are stable.
    pub stable: u64,
    /// The greatest of each part of the fault word.
    pub fault: Faults,
}

/// What a seat knows.
#[derive(Debug, Drop)]
pub struct View {
    pub role: Role,
    /// The client of an owner, or of the owner that a copy is of. The drain has the number of clients.
    pub client: u32,
    /// The first entries of the drained list. The drain has all of it.
    pub known: Items<Item>,
    /// The places that an owner named, each with its entry, in rising order. The drain has here the place and the entry
    /// that it took out and has not yet given back.
    pub mine: Items<(u64, Item)>,
    /// The places of `mine` that the owner has not yet filled.
    pub unfilled: Items<u64>,
    /// The place whose cell this seat holds.
    pub held: Option<u64>,
    pub seen: Seen,
    /// The cursor that an owner had seen at each of its notes.
    pub told: Items<u64>,
    /// The notes that an owner heard, each by its client and what that client had told up to it. A copy has the one note
    /// that it is.
    pub heard: Items<(u32, Items<u64>)>,
}
