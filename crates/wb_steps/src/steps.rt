//! The steps of a seat.

use wb_geometry::Entry;

/// One atomic step of a seat.
#[derive(Debug, Drop)]
pub struct Step {
    /// The number of the seat. The owners of the clients come first, and then the drain. Copies are numbered on as they are
    /// made.
    pub seat: u32,
    pub kind: Kind,
}

/// What a step does.
#[derive(Debug, Drop)]
pub enum Kind {
    /// An owner names the place `expected` for the entry, where the cursor is still there.
    Claim { expected: u64, entry: Entry },
    /// An owner raises the cursor to `to`, and names the places between for voids.
    Bump { to: u64 },
    /// An owner fills one of its places.
    Fill { place: u64 },
    /// A seat looks at the cursor, the limit, the stable number or the fault: 0 to 3.
    Look { word: u32 },
    /// The drain looks at the next place, and takes its entry out where it is filled.
    Take,
    /// The drain gives the cell of the next place back, whose entry it took out.
    GiveBack,
    /// The drain publishes the limit, in places.
    Raise { limit: u64 },
    /// The drain publishes how many places are stable.
    Stable { stable: u64 },
    /// The drain publishes the fault.
    Fault { fault: u64 },
    /// An owner or the drain makes a copy of what it has seen.
    Split,
    /// An owner or the drain receives what a copy has seen.
    Join { copy: u32 },
}

/// What a step answers.
#[derive(Clone, Copy, Debug, PartialEq, Eq)]
pub enum Reply {
    /// The number that the word held before the step.
    Found(u64),
    /// The seat may not make the step. Nothing changed.
    NotAllowed,
}
