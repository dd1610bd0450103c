//! The parts of a request, and the places that they take in the history.
ghost use Rattle.std.specs.Prelude.{◌≡◌, ◌<◌, ◌≤◌, ◌++◌, ◌∷◌, [], ℕ, List, length};

use arrayvec::ArrayVec;
use std::marker::Model;

/// The sectors of a request that lie in one block of eight: `count` sectors, from sector `from` of the block on.
#[derive(Clone, Copy, Debug, PartialEq, Eq)]
pub struct Part {
    /// The block; block `b` has the sectors from `8 * b` on.
    pub block: u64,
    /// The first sector, counted in the block; 0 to 7.
    pub from: u8,
    /// The number of sectors; 1 to 8.
    pub count: u8,
}

/// A request has at most 256 sectors, so it touches at most 33 blocks.
const MAX_PARTS: usize = 33;

/// The places that the parts of a request took in the history, in the order of the parts: at most 33 numbers, in a
/// fixed array. It takes no memory of its own.
#[derive(Debug, Drop)]
pub struct Places {
    numbers: ArrayVec<u64, MAX_PARTS>,
}

impl Model for Places {
    ghost use Rattle.std.specs.Prelude.{ℕ, List};

    ghost Value = { List ℕ };

    ghost view = { λ p. p.numbers.items };
}

impl Places {
    /// No place.
    pub fn new() -> Places
        ensures { result ≡ [] }
    {
        Places {
            numbers: ArrayVec::new(),
        }
    }

    /// Adds a place behind the others.
    pub fn push(&mut self, place: u64)
        requires { length self.old < 33 }
        ensures { self.new ≡ self.old ++ place ∷ [] }
    {
        self.numbers.push(place);
    }

    /// The places in order.
    pub fn as_slice(&self) -> &[u64]
        ensures { result.now ≡ self.now }
    {
        self.numbers.as_slice()
    }
}
