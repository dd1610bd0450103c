//! Where a client may be held.

/// A point that a client passes.
#[derive(Clone, Copy, Debug, PartialEq, Eq)]
pub enum Point {
    /// A place is claimed, and not yet filled.
    Claimed,
    /// The lock is held by a read.
    InCore,
    /// A line was answered.
    Answered,
}

/// What a client passes at its points. It may hold its caller, so that a test can say who waits for whom.
pub trait Gate {
    /// A client passes a point.
    fn pass_point(&self, client: u32, point: Point);
}

/// The gate that never holds anybody.
#[derive(Clone, Copy, Debug, PartialEq, Eq)]
pub struct Open;

impl Gate for Open {
    fn pass_point(&self, _client: u32, _point: Point) {}
}
