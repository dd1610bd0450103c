//! What the calls of a barrier answer.

/// A barrier that was posted: it is done once the first `number` places of the history are stable, which are a whole
/// number of segments. So many of the places directly below `number` as `voids` says were taken for it, and change
/// nothing.
#[derive(Debug, Drop, PartialEq, Eq)]
pub struct Ticket {
    /// So many places have to be stable.
    pub number: u64,
    /// So many places below `number` are voids of the client that posted it.
    pub voids: u64,
}

/// A barrier that is done: the first `number` places of the history are stable.
#[derive(Debug, Drop, PartialEq, Eq)]
pub struct Receipt {
    /// So many places had to be stable.
    pub number: u64,
}

/// A barrier that is not yet done, with its ticket.
#[derive(Debug, Drop, PartialEq, Eq)]
pub struct Pending {
    /// So many places have to be stable.
    pub needs: u64,
    /// So many places were stable, which is less.
    pub stable: u64,
    /// The ticket, to be polled with again.
    pub ticket: Ticket,
}
