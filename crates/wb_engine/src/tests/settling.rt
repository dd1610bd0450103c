//! Entries are made stable: with the calls that it takes, and with a device that fails at each of them.
use super::calls::{Counts, Listed, counts_of, listed, was_called};
use super::faults::write_all;
use super::{
    Play, PlayListed, closed_after, closed_after_listed, failing_backing, failing_log, holds,
    new_backing, new_log,
};
use crate::{Closed, Engine};
use std::alloc::Global;
use std::process::Abort;
use std::test::Fail;
use wb_device::Device;
use wb_geometry::Which;

/// Makes the entries below this place stable, where they may be: the engine is up, and all places of a segment are below it
/// or none, and were absorbed.
fn settle<L: Device, B: Device>(
    engine: &mut Engine<L, B>,
    place: u64,
) -> Option<Result<(), Which>> {
    let whole = place % engine.geometry().places() == 0;
    if engine.down().is_some() || !whole || place > engine.absorbed() {
        return None;
    }
    Some(engine.settle(place))
}

/// Whether the entries below this place are made stable, and those below `stable` are then.
fn settles<L: Device, B: Device>(engine: &mut Engine<L, B>, place: u64, stable: u64) -> bool {
    settle(engine, place) == Some(Ok(())) && engine.stable() == stable
}

/// Two segments are logged by a write each, and one sync covers both. What is stable already costs no call.
fn count_one_sync(alloc: Global, engine: &mut Engine<Listed, Listed>) -> Result<(), Fail> {
    const CALLED: Counts = (7, 3, 3);
    write_all(alloc, engine, &[0, 1, 2, 3, 4, 5])?;
    holds(settles(engine, 0, 0), "nothing wasn't stable")?;
    holds(
        was_called(engine, (7, 1, 2), (0, 0, 2)),
        "a call for nothing",
    )?;
    holds(settles(engine, 6, 6), "two segments aren't stable")?;
    holds(
        was_called(engine, CALLED, (0, 0, 2)),
        "not two writes and a sync",
    )?;
    holds(settles(engine, 3, 6), "the first segment isn't stable")?;
    holds(settles(engine, 6, 6), "the second isn't stable any more")?;
    holds(
        was_called(engine, CALLED, (0, 0, 2)),
        "a call for stable entries",
    )
}

/// The fifth segment waits for a slot: the four before it are written back, by three reads each, a write for each of the eight
/// blocks that they have, and one sync, and recorded. Then it is logged, and synced.
fn count_for_a_slot(alloc: Global, engine: &mut Engine<Listed, Listed>) -> Result<(), Fail> {
    write_all(alloc, engine, &[6, 7, 0, 1, 2, 3])?;
    holds(settles(engine, 12, 12), "four segments aren't stable")?;
    holds(
        was_called(engine, (7, 5, 4), (0, 0, 2)),
        "not two writes and a sync",
    )?;
    write_all(alloc, engine, &[4, 5, 6])?;
    holds(settles(engine, 15, 15), "five segments aren't stable")?;
    holds(
        was_called(engine, (19, 7, 6), (0, 8, 3)),
        "other calls for a slot",
    )
}

/// Both, one after the other.
#[derive(Drop)]
struct Both;

impl PlayListed for Both {
    fn carry_out(
        &mut self,
        alloc: Global,
        engine: &mut Engine<Listed, Listed>,
    ) -> Result<(), Fail> {
        count_one_sync(alloc, engine)?;
        count_for_a_slot(alloc, engine)
    }
}

/// What closing leaves once both were done, over new devices.
fn closed_after_both(alloc: Global) -> Result<Closed<Listed, Listed>, Fail> {
    let log = listed(alloc, new_log(alloc)?)?;
    let backing = listed(alloc, new_backing(alloc)?)?;
    closed_after_listed(alloc, log, backing, &mut Both)
}

/// What closing then did: the fifth segment is written back, and recorded.
fn closed_well(closed: &Closed<Listed, Listed>) -> bool {
    closed.fault.is_none() && counts_of(&closed.log, &closed.backing) == ((22, 8, 7), (0, 11, 4))
}

#[test]
fn settling_makes_the_calls_that_it_needs(rt: HostRuntime) -> Result<(), Fail> {
    let closed = closed_after_both(rt.alloc())?;
    assert!(rt; closed_well(&closed));
    Ok(())
}

/// What is written, and the place up to which it is made stable then.
const FLUSHES: [(&[u8], u64); 3] = [
    (&[0, 1, 2, 3, 4, 5], 6),
    (&[6, 7, 0, 1, 2, 3], 12),
    (&[4, 5, 6], 15),
];

/// What comes of making these stable: how many places are stable at the end, and by which device the engine is down.
#[derive(Clone, Copy, PartialEq, Eq)]
struct Flush {
    stable: u64,
    down: Option<Which>,
}

const NOT_YET: Flush = Flush {
    stable: 0,
    down: None,
};

/// Whether they are made stable, or else a device fails, by which the engine is down then.
fn answers_well<L: Device, B: Device>(engine: &mut Engine<L, B>, place: u64) -> bool {
    let settled = settle(engine, place);
    settled == Some(engine.down().map(Err).unwrap_or(Ok(())))
}

impl<L: Device, B: Device> Play<L, B> for Flush {
    /// Makes these stable until a device fails.
    fn carry_out(&mut self, alloc: Global, engine: &mut Engine<L, B>) -> Result<(), Fail> {
        for (blocks, place) in &FLUSHES {
            if engine.down().is_none() {
                write_all(alloc, engine, blocks)?;
                holds(answers_well(engine, *place), "it answers otherwise")?;
            }
        }
        self.stable = engine.stable();
        self.down = engine.down();
        Ok(())
    }
}

/// What comes of it where the log fails from this call on. To open it takes ten calls.
fn flush_on_failing_log(alloc: Global, call: u64) -> Result<Flush, Fail> {
    let log = failing_log(alloc, call)?;
    let backing = new_backing(alloc)?;
    let mut flush = NOT_YET;
    closed_after(alloc, log, backing, &mut flush)?;
    Ok(flush)
}

/// What comes of it where the backing device fails from this call on. To open it takes two calls.
fn flush_on_failing_backing(alloc: Global, call: u64) -> Result<Flush, Fail> {
    let log = new_log(alloc)?;
    let backing = failing_backing(alloc, call)?;
    let mut flush = NOT_YET;
    closed_after(alloc, log, backing, &mut flush)?;
    Ok(flush)
}

/// How many places are stable where the log fails from this call on: two writes and a sync, the same again, then twelve
/// reads, the record's write and sync, and a write and a sync.
fn stable_at_log_call(call: u64) -> u64 {
    match call {
        10..=12 => 0,
        13..=15 => 6,
        16..=31 => 12,
        _ => 15,
    }
}

/// So many places are stable, and the engine is down by this device.
fn is_flush(rt: &impl Abort, found: Flush, stable: u64, down: Option<Which>) {
    assert!(rt; found == Flush { stable, down });
}

#[test]
fn the_log_fails_at_each_call_of_a_flush(rt: HostRuntime) -> Result<(), Fail> {
    for call in 10..32 {
        let found = flush_on_failing_log(rt.alloc(), call)?;
        is_flush(&rt, found, stable_at_log_call(call), Some(Which::Log));
    }
    is_flush(&rt, flush_on_failing_log(rt.alloc(), 32)?, 15, None);
    Ok(())
}

#[test]
fn the_backing_device_fails_at_each_call_of_a_flush(rt: HostRuntime) -> Result<(), Fail> {
    for call in 2..11 {
        let found = flush_on_failing_backing(rt.alloc(), call)?;
        is_flush(&rt, found, 12, Some(Which::Backing));
    }
    is_flush(&rt, flush_on_failing_backing(rt.alloc(), 11)?, 15, None);
    Ok(())
}
