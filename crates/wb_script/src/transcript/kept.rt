//! Lines as a transcript keeps them.
ghost use Rattle.std.specs.Prelude.{◌≡◌, IfOk};
ghost use Rattle.wb_script.specs.Keeping.{places_of, line_of, marked, IsKept};

use super::{Ended, Line, Shown, Stop, Taken};
use std::alloc::{AllocError, Global};
use std::marker::Model;
use std::mem::size_of;
use std::slice;
use wb_geometry::Which;

/// The places of a line. Few lines have more than one.
#[derive(Debug, Drop)]
pub(super) enum KeptPlaces {
    One { place: u64 },
    Many { places: Vec<u64> },
}

impl KeptPlaces {
    /// These places.
    fn of(alloc: Global, places: &[u64]) -> Result<KeptPlaces, AllocError>
        ensures { IfOk result (λ kept. places_of kept ≡ places.now) }
    {
        match places {
            [place] => Ok(KeptPlaces::One { place: *place }),
            _ => Ok(KeptPlaces::Many {
                places: Vec::from_slice(alloc, places)?,
            }),
        }
    }

    /// The places.
    fn as_slice(&self) -> &[u64]
        ensures { result.now ≡ places_of self.now }
    {
        match self {
            KeptPlaces::One { place } => slice::from_ref(place),
            KeptPlaces::Many { places } => places.as_slice(),
        }
    }
}

/// The places of a write with `fua`, its flush, and how it ended.
#[derive(Debug, Drop)]
pub(super) struct KeptForced {
    places: KeptPlaces,
    flush: Option<Ended>,
    stop: Stop,
}

/// What is kept of a line.
#[derive(Debug, Drop)]
pub(super) enum Kept {
    Wrote {
        places: KeptPlaces,
        stop: Stop,
    },
    /// A whole write with `fua` that took one place, and its flush.
    ForcedOne {
        place: u64,
        ended: Ended,
    },
    /// Any other write with `fua`. Few lines are such writes, so they stand in boxes.
    Forced {
        forced: Box<KeptForced>,
    },
    Got {
        point: u64,
        pattern: Vec<u8>,
        bytes: usize,
    },
    Summed {
        point: u64,
        sum: u32,
    },
    Failed {
        device: Which,
    },
    Flushed {
        ended: Ended,
    },
    Deferred {
        ended: Ended,
    },
    Told,
    Heard,
}

/// A line.
#[derive(Debug, Drop)]
pub(super) struct KeptLine {
    kept: Kept,
}

impl Model for KeptLine {
    ghost use Rattle.wb_script.specs.declared.transcript.Line.{Line};
    ghost use Rattle.wb_script.specs.Keeping.{line_of, IsKept};

    ghost Value = { Line };

    ghost view = { λ l. line_of l.kept };

    ghost invariant = { λ l. IsKept l.kept };
}

impl KeptLine {
    /// This line. More places than one, and the pattern of the bytes that it shows, take memory.
    pub(super) fn of(alloc: Global, line: &Line<'_>) -> Result<KeptLine, AllocError>
        ensures { IfOk result (λ kept. kept ≡ line.now) }
    {
        Ok(KeptLine {
            kept: kept_of(alloc, line)?,
        })
    }

    /// The line.
    pub(super) fn line(&self) -> Line<'_>
        ensures { result ≡ self.now }
    {
        match &self.kept {
            Kept::Wrote { places, stop } => Line::Wrote {
                places: Taken::lent(places.as_slice()),
                stop: *stop,
            },
            Kept::ForcedOne { place, ended } => Line::Forced {
                places: Taken::lent(slice::from_ref(place)),
                flush: Some(*ended),
                stop: Stop::Whole,
            },
            Kept::Forced { forced } => Line::Forced {
                places: Taken::lent(forced.places.as_slice()),
                flush: forced.flush,
                stop: forced.stop,
            },
            Kept::Got {
                point,
                pattern,
                bytes,
            } => Line::Got {
                point: *point,
                payload: Shown::repeated(pattern, *bytes),
            },
            Kept::Summed { point, sum } => Line::Summed {
                point: *point,
                sum: *sum,
            },
            Kept::Failed { device } => Line::Failed { device: *device },
            Kept::Flushed { ended } => Line::Flushed { ended: *ended },
            Kept::Deferred { ended } => Line::Deferred { ended: *ended },
            Kept::Told => Line::Told,
            Kept::Heard => Line::Heard,
        }
    }

    /// Marks a posted flush whose number is above `stable` as one that wasn't done, since the cache is down by the device.
    pub(super) fn mark_deferred(&mut self, stable: u64, device: Which)
        ensures { self.new ≡ marked stable device self.old }
    {
        if let Kept::Deferred { ended } = &mut self.kept {
            if stable < ended.through {
                ended.down = Some(device);
            }
        }
    }
}

/// A line takes no more, beside what stands in a box or a `Vec`.
const _: () = prove!(size_of::<KeptLine>() <= 48);

/// What is kept of a line.
fn kept_of(alloc: Global, line: &Line<'_>) -> Result<Kept, AllocError>
    ensures line { IfOk result (λ kept. line_of kept ≡ line.now) }
    ensures kept { IfOk result IsKept }
{
    match line {
        Line::Wrote { places, stop } => Ok(Kept::Wrote {
            places: KeptPlaces::of(alloc, places.as_slice())?,
            stop: *stop,
        }),
        Line::Forced {
            places,
            flush,
            stop,
        } => kept_forced(alloc, places.as_slice(), *flush, *stop),
        Line::Got { point, payload } => Ok(Kept::Got {
            point: *point,
            pattern: Vec::from_slice(alloc, payload.pattern())?,
            bytes: payload.len(),
        }),
        Line::Summed { point, sum } => Ok(Kept::Summed {
            point: *point,
            sum: *sum,
        }),
        Line::Failed { device } => Ok(Kept::Failed { device: *device }),
        Line::Flushed { ended } => Ok(Kept::Flushed { ended: *ended }),
        Line::Deferred { ended } => Ok(Kept::Deferred { ended: *ended }),
        Line::Told => Ok(Kept::Told),
        Line::Heard => Ok(Kept::Heard),
    }
}

/// What is kept of the line of a write with `fua`.
fn kept_forced(
    alloc: Global,
    places: &[u64],
    flush: Option<Ended>,
    stop: Stop,
) -> Result<Kept, AllocError>
    ensures line { IfOk result (λ kept. line_of kept ≡ Line.Forced places.now flush stop) }
    ensures kept { IfOk result IsKept }
{
    match (places, flush, stop) {
        ([place], Some(ended), Stop::Whole) => Ok(Kept::ForcedOne {
            place: *place,
            ended,
        }),
        _ => {
            let forced = KeptForced {
                places: KeptPlaces::of(alloc, places)?,
                flush,
                stop,
            };
            Ok(Kept::Forced {
                forced: Box::new(alloc, forced)?,
            })
        }
    }
}
