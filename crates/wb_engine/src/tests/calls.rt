//! The calls that each step makes of both devices.
use super::{
    PlayListed, closed_after_listed, holds, new_backing, new_log, reads_third, turn, write_third,
};
use crate::{Closed, Engine, Turn};
use std::alloc::Global;
use std::test::Fail;
use wb_device::{DeviceCall, ListingDevice, SteadyDevice};

pub(super) type Listed = ListingDevice<SteadyDevice>;

/// A device that lists its calls.
pub(super) fn listed(alloc: Global, device: SteadyDevice) -> Result<Listed, Fail> {
    Ok(ListingDevice::over(alloc, device, 64)?)
}

/// So many reads, writes and syncs.
pub(super) type Counts = (u64, u64, u64);

/// How often the log and the backing device were called, since they were made.
pub(super) fn counts_of(log: &Listed, backing: &Listed) -> (Counts, Counts) {
    let (log, backing) = (log.counts(), backing.counts());
    (
        (log.reads, log.writes, log.syncs),
        (backing.reads, backing.writes, backing.syncs),
    )
}

/// Whether both devices of an engine were called so often.
pub(super) fn was_called(engine: &Engine<Listed, Listed>, log: Counts, backing: Counts) -> bool {
    counts_of(&engine.log, &engine.backing) == (log, backing)
}

/// What each turn does, and how often the log and the backing device were called then, with the calls that opened them: two
/// segments are logged by a write each, one sync covers both, and both are written back by the reads of their blocks, a write
/// for each run of sectors, and one sync.
const STEPS: [(Turn, Counts, Counts); 6] = [
    (Turn::Logged, (7, 2, 2), (0, 0, 2)),
    (Turn::Logged, (7, 3, 2), (0, 0, 2)),
    (Turn::Synced, (7, 3, 3), (0, 0, 2)),
    (Turn::Backed, (11, 3, 3), (0, 4, 3)),
    (Turn::Recorded, (11, 4, 4), (0, 4, 3)),
    (Turn::Idle, (11, 4, 4), (0, 4, 3)),
];

/// Two segments: one of three blocks, and one of one block.
fn write_two_segments(alloc: Global, engine: &mut Engine<Listed, Listed>) -> Result<(), Fail> {
    for block in [0, 1, 2, 3, 3, 3] {
        let done = write_third(alloc, engine, block)?;
        holds(done, "there was no room")?;
    }
    holds(reads_third(engine, 1), "a sector in memory isn't read")?;
    let quiet = was_called(engine, (7, 1, 2), (0, 0, 2));
    holds(quiet, "a device was called for a sector in memory")
}

/// Whether a turn does this, with so many calls behind it.
fn turns_so(engine: &mut Engine<Listed, Listed>, row: &(Turn, Counts, Counts)) -> bool {
    let (want, log, backing) = row;
    turn(engine) == Some(Ok(*want)) && was_called(engine, *log, *backing)
}

/// The turns that put both to their places.
fn count_turns(engine: &mut Engine<Listed, Listed>) -> Result<(), Fail> {
    for row in &STEPS {
        holds(turns_so(engine, row), "a turn did something else")?;
    }
    Ok(())
}

/// The calls of the log that open it: the superblock and the record, a sync, the first sector of each slot, the whole slot of
/// the segment behind the record, and the new record.
const OPENING: [DeviceCall; 10] = [
    DeviceCall::Read { at: 0, sectors: 1 },
    DeviceCall::Read {
        at: 2047,
        sectors: 1,
    },
    DeviceCall::Sync,
    DeviceCall::Read {
        at: 2048,
        sectors: 1,
    },
    DeviceCall::Read {
        at: 2080,
        sectors: 1,
    },
    DeviceCall::Read {
        at: 2112,
        sectors: 1,
    },
    DeviceCall::Read {
        at: 2144,
        sectors: 1,
    },
    DeviceCall::Read {
        at: 2144,
        sectors: 32,
    },
    DeviceCall::Write {
        at: 2047,
        sectors: 1,
    },
    DeviceCall::Sync,
];

/// The calls of the log behind its opening: each segment goes by one write of its header and its blocks, and the record by
/// one of a sector.
const CALLS: [DeviceCall; 9] = [
    DeviceCall::Write {
        at: 2144,
        sectors: 32,
    },
    DeviceCall::Write {
        at: 2048,
        sectors: 16,
    },
    DeviceCall::Sync,
    DeviceCall::Read {
        at: 2152,
        sectors: 8,
    },
    DeviceCall::Read {
        at: 2160,
        sectors: 8,
    },
    DeviceCall::Read {
        at: 2168,
        sectors: 8,
    },
    DeviceCall::Read {
        at: 2056,
        sectors: 8,
    },
    DeviceCall::Write {
        at: 2047,
        sectors: 1,
    },
    DeviceCall::Sync,
];

/// A sector in the log costs one read of it, and one on the backing device a read there.
fn count_reads(alloc: Global, engine: &mut Engine<Listed, Listed>) -> Result<(), Fail> {
    write_two_segments(alloc, engine)?;
    holds(turn(engine) == Some(Ok(Turn::Logged)), "it isn't logged")?;
    holds(reads_third(engine, 1), "a sector in the log isn't read")?;
    holds(
        was_called(engine, (8, 2, 2), (0, 0, 2)),
        "not one read of the log",
    )?;
    holds(!reads_third(engine, 7), "a sector was written")?;
    holds(
        was_called(engine, (8, 2, 2), (1, 0, 2)),
        "not one read of the backing device",
    )
}

/// What closing then did of both: a segment was left to log, one sync covers both, one batch, and a record.
fn closed_well(closed: &Closed<Listed, Listed>) -> bool {
    closed.fault.is_none() && counts_of(&closed.log, &closed.backing) == ((12, 4, 4), (1, 4, 3))
}

/// What is counted before a cache is closed.
#[derive(Clone, Copy)]
enum Count {
    Turns,
    Reads,
}

impl PlayListed for Count {
    fn carry_out(
        &mut self,
        alloc: Global,
        engine: &mut Engine<Listed, Listed>,
    ) -> Result<(), Fail> {
        match *self {
            Count::Turns => {
                write_two_segments(alloc, engine)?;
                count_turns(engine)
            }
            Count::Reads => count_reads(alloc, engine),
        }
    }
}

/// What closing leaves of a cache over new devices, of whose calls these were counted before.
fn closed_after_counts(alloc: Global, mut count: Count) -> Result<Closed<Listed, Listed>, Fail> {
    let log = listed(alloc, new_log(alloc)?)?;
    let backing = listed(alloc, new_backing(alloc)?)?;
    closed_after_listed(alloc, log, backing, &mut count)
}

#[test]
fn each_turn_makes_the_calls_that_it_needs(rt: HostRuntime) -> Result<(), Fail> {
    let closed = closed_after_counts(rt.alloc(), Count::Turns)?;
    assert!(rt; closed.log.calls().get(..10) == Some(OPENING.as_slice()));
    assert!(rt; closed.log.calls().get(10..) == Some(CALLS.as_slice()));
    Ok(())
}

#[test]
fn a_read_and_a_close_make_the_calls_that_they_need(rt: HostRuntime) -> Result<(), Fail> {
    let closed = closed_after_counts(rt.alloc(), Count::Reads)?;
    assert!(rt; closed_well(&closed));
    Ok(())
}
