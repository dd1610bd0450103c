//! The requests of a script.
ghost use Rattle.std.specs.Prelude.{◌≡◌};

use std::marker::Model;

/// The bytes of a write: they are repeated to fill its sectors.
#[derive(Debug, Drop)]
pub struct Pattern {
    bytes: Vec<u8>,
}

impl Model for Pattern {
    ghost use Rattle.std.specs.Prelude.{ℕ, List};

    ghost Value = { List ℕ };

    ghost view = { λ p. p.bytes.items };
}

impl Pattern {
    /// A pattern of these bytes.
    pub fn of(bytes: Vec<u8>) -> Pattern
        ensures { result ≡ bytes.items }
    {
        Pattern { bytes }
    }

    /// The bytes of the pattern.
    pub fn as_slice(&self) -> &[u8]
        ensures { result.now ≡ self.now }
    {
        self.bytes.as_slice()
    }
}

/// The commands of a script, each of which has a letter (docs/SCRIPT.md).
#[derive(Clone, Copy, Debug, PartialEq, Eq)]
pub enum Command {
    Write,
    ForcedWrite,
    Read,
    ReadSum,
    Flush,
    Defer,
    Tell,
    Hear,
}

/// A request of a client.
#[derive(Debug, Drop)]
pub enum Request {
    /// A write of `count` sectors from `sector` on: the pattern, repeated. A write with `fua` is answered only once it
    /// would survive a crash.
    Write {
        sector: u64,
        count: u64,
        pattern: Pattern,
        fua: bool,
    },
    /// A read of `count` sectors from `sector` on, whose bytes are shown.
    Read {
        sector: u64,
        count: u64,
    },
    /// A read of `count` sectors from `sector` on, whose checksum is shown.
    ReadSum {
        sector: u64,
        count: u64,
    },
    /// A flush: it is answered once all that the client has seen would survive a crash.
    Flush,
    /// A flush that is posted here, and answered behind the last request of the client.
    Defer,
    /// Leaves a note for a client of a higher number.
    Tell {
        client: u32,
    },
    /// Waits for the next note that a client of a lower number left for this one.
    Hear {
        client: u32,
    },
}
