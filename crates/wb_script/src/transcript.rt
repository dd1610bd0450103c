//! The answers to a script.
ghost use Rattle.std.specs.Prelude.{◌≡◌, ◌==◌, ◌++◌, ◌∷◌, [], length, map, slice_get, OnOk, OnErr, IfOk};
ghost use Rattle.wb_script.specs.Keeping.{marked};

mod kept;
mod shown;
mod taken;

use kept::KeptLine;
pub use shown::Shown;
use std::alloc::{AllocError, Global};
use std::marker::Model;
pub use taken::Taken;
use wb_geometry::Which;

/// How a write ended.
#[derive(Clone, Copy, Debug, PartialEq, Eq)]
pub enum Stop {
    /// All its parts were written.
    Whole,
    /// There was no room for the next part, and the cache is down by this device.
    Down { device: Which },
    /// There is no segment id left for the next part.
    Ids,
}

/// How a flush ended.
#[derive(Clone, Copy, Debug, PartialEq, Eq)]
pub struct Ended {
    /// Its number: all places below it are flushed, where it was done.
    pub through: u64,
    /// The number of places right below that which it took, and which change nothing.
    pub voids: u64,
    /// Where it wasn't done: the device by which the cache is down.
    pub down: Option<Which>,
}

/// The answer to a request.
#[derive(Debug, Drop)]
pub enum Line<'a> {
    /// The places that the parts of a write took in the history, and how it ended.
    Wrote {
        places: Taken<'a>,
        stop: Stop,
    },
    /// The same of a write with `fua`, and the flush behind it, where it is whole.
    Forced {
        places: Taken<'a>,
        flush: Option<Ended>,
        stop: Stop,
    },
    /// What a read showed, at this point of the history: after so many entries.
    Got {
        point: u64,
        payload: Shown<'a>,
    },
    /// The checksum of what was read, at this point of the history.
    Summed {
        point: u64,
        sum: u32,
    },
    /// A read that failed on this device.
    Failed {
        device: Which,
    },
    /// The end of a flush.
    Flushed {
        ended: Ended,
    },
    /// The end of a flush that was posted here.
    Deferred {
        ended: Ended,
    },
    /// A note was left.
    Told,
    /// A note was heard.
    Heard,
}

/// The answers to the requests of a client, in order. A line takes 48 bytes, and memory of its own only for more places than
/// one, for a stopped write with `fua`, and for the shortest pattern of the bytes that it shows.
#[derive(Debug, Drop)]
pub struct Transcript {
    lines: Vec<KeptLine>,
}

impl Model for Transcript {
    ghost use Rattle.std.specs.Prelude.{List};
    ghost use Rattle.wb_script.specs.declared.transcript.Line.{Line};

    ghost Value = { List Line };

    ghost view = { λ t. t.lines.items };
}

impl Transcript {
    /// A transcript with no line yet, and room for so many.
    pub fn with_capacity(alloc: Global, lines: usize) -> Result<Transcript, AllocError>
        ensures { IfOk result (λ t. t ≡ []) }
    {
        Ok(Transcript {
            lines: Vec::with_capacity(alloc, lines)?,
        })
    }

    /// Adds a line. For want of memory the transcript stays as it was.
    pub fn push(&mut self, alloc: Global, line: &Line<'_>) -> Result<(), AllocError>
        ensures ok { OnOk result (self.new ≡ self.old ++ line.now ∷ []) }
        ensures err { OnErr result (self.new ≡ self.old) }
    {
        self.lines.push(KeptLine::of(alloc, line)?)?;
        Ok(())
    }

    /// The number of lines.
    pub fn len(&self) -> usize
        ensures { result ≡ length self.now }
    {
        self.lines.len()
    }

    /// Whether there is no line.
    pub fn is_empty(&self) -> bool
        ensures { result ≡ (length self.now == 0) }
    {
        self.lines.is_empty()
    }

    /// The line of this number, counted from 0, where there is one.
    pub fn get(&self, index: usize) -> Option<Line<'_>>
        ensures { result ≡ slice_get self.now index }
    {
        Some(self.lines.get(index)?.line())
    }

    /// Marks each posted flush whose number is above `stable` as one that wasn't done, since the cache is down by the device.
    pub fn mark_deferred(&mut self, stable: u64, device: Which)
        ensures { self.new ≡ map (marked stable device) self.old }
    {
        for line in self.lines.iter_mut() {
            line.mark_deferred(stable, device);
        }
    }
}
