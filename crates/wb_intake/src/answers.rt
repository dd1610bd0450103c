//! What the calls of the intake answer.
ghost use Rattle.std.specs.Prelude.{◌≡◌, ◌+◌, ◌<◌, ◌^◌};

use wb_geometry::Entry;

/// A place that was claimed for a write of this block. It has to be filled.
pub struct Claim {
    pub(crate) place: u64,
    pub(crate) block: u64,
    ghost fits: { place + 1 < 2 ^ 64 },
}

impl Claim {
    ghost use Rattle.std.specs.Prelude.{◌≡◌};
    ghost use Rattle.wb_intake.specs.Passes.{place_of};

    /// The place.
    pub fn place(&self) -> u64
        ensures { result ≡ place_of self.now }
    {
        self.place
    }
}

/// Why no place was claimed.
#[derive(Clone, Copy, Debug, PartialEq, Eq)]
pub enum NoClaim {
    /// The segment of the place at the cursor would have no id.
    IdsSpent { cursor: u64 },
    /// The cursor stands at the limit.
    NoRoom { cursor: u64, limit: u64 },
    /// Another client came first: the cursor that was found is above the one that was expected.
    Busy { expected: u64, found: u64 },
}

/// An entry that was taken out, with its place.
#[derive(Drop)]
pub struct Parcel {
    pub place: u64,
    pub entry: Entry,
}

/// The next place is not filled: the word of its cell that was loaded is another number than `place + 1`. The cursor that is
/// told was loaded too.
#[derive(Clone, Copy, Debug, PartialEq, Eq)]
pub struct NotFilled {
    pub place: u64,
    pub cursor: u64,
    pub word: u64,
}

/// What a look found, by one load each.
#[derive(Clone, Copy, Debug, PartialEq, Eq)]
pub struct Look {
    pub cursor: u64,
    pub limit: u64,
    pub stable: u64,
    pub fault: u64,
}

/// Places that a bump named for voids: `left` places from `next` on, which have to be filled. `through` is the end of the
/// segment. It has to be finished.
#[non_exhaustive]
pub struct Voids {
    pub through: u64,
    pub next: u64,
    pub left: u64,
    pub ghost fits: { next + left < 2 ^ 64 },
}
