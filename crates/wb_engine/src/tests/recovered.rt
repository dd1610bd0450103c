//! Caches that are opened over a log with segments behind its record.
use super::slots::{Cache, Course, OVER_FORMER, has_recorded, write_in_two_segments};
use super::{
    NOWHERE, SECTOR_BYTES, SECTORS, are_filled, begun, closed_after, former_bytes, former_fills,
    holds, new_backing, new_log, put, reads_as, row_holds, spots_of, turn,
};
use crate::{OpenCause, OpenStop, Turn};
use std::alloc::{AllocError, Global};
use std::test::Fail;
use wb_device::{Device, FaultPlan, MemoryDevice, PlannedFault, SteadyDevice};
use wb_geometry::{Entry, Which};
use wb_super::{SuperRefused, write_record};

/// The record of the log: two segments are behind it.
const BEFORE: u64 = 11;

/// The record once a cache was opened over it: behind all four slots.
const BEHIND: u64 = 15;

/// Two segments that write the first four sectors of the first block, of which the third comes in both.
pub(super) fn leave_two(alloc: Global, engine: &mut Cache) -> Result<(), Fail> {
    write_in_two_segments(alloc, engine)?;
    holds(put(engine, Entry::Void { client: 0 }), "no room for a void")?;
    holds(put(engine, Entry::Void { client: 0 }), "no room for a void")?;
    holds(turn(engine) == Some(Ok(Turn::Logged)), "it isn't logged")
}

/// A log that has two segments behind its record, as a crash leaves it before they are recorded.
fn left_log(alloc: Global) -> Result<SteadyDevice, Fail> {
    let log = new_log(alloc)?;
    let backing = new_backing(alloc)?;
    let mut log = closed_after(alloc, log, backing, &mut Course::LeaveTwo)?.log;
    if log.sectors() >= 2048 {
        write_record(&mut log, BEFORE)?;
    }
    Ok(log)
}

/// The bytes of such a log, with this id in the third slot, in which neither segment is.
fn left_with(alloc: Global, id: u64) -> Result<Vec<u8>, Fail> {
    let mut log = left_log(alloc)?;
    let mut sector = [0; SECTOR_BYTES];
    sector[..8].copy_from_slice(&id.to_le_bytes());
    let at: u64 = 2112;
    if at < log.sectors() {
        log.write(at, &sector)?;
    }
    Ok(log.into_bytes())
}

/// The bytes that fill the sectors of the backing device once both segments are put.
fn put_fills() -> [u8; 64] {
    let mut fills = former_fills();
    fills[..4].copy_from_slice(&OVER_FORMER[..4]);
    fills
}

/// Whether a backing device has both segments, and nothing else is changed.
fn are_put(bytes: &[u8]) -> bool {
    bytes.len() == SECTORS as usize * SECTOR_BYTES && are_filled(bytes, &put_fills())
}

/// Whether the numbers are those of a session that begins behind all slots.
fn begins_behind(engine: &Cache) -> bool {
    engine.first() == BEHIND
        && engine.recorded() == BEHIND
        && engine.absorbed() == 0
        && engine.stable() == 0
        && engine.limit() == 6
        && engine.down().is_none()
}

/// Whether the record in the bytes of a log is behind all slots.
fn is_behind(bytes: &[u8]) -> bool {
    let at = 2047 * SECTOR_BYTES;
    bytes.get(at..at + 8) == Some(BEHIND.to_le_bytes().as_slice())
}

/// Both segments are on the backing device, and recorded, before anything is done with the cache.
pub(super) fn see_recovered(engine: &mut Cache) -> Result<(), Fail> {
    holds(begins_behind(engine), "other numbers")?;
    holds(are_put(engine.backing.bytes()), "other bytes are put")?;
    holds(is_behind(engine.log.bytes()), "another record")?;
    holds(turn(engine) == Some(Ok(Turn::Idle)), "it isn't idle")?;
    let spots = spots_of(engine, 0);
    holds(spots == Some([NOWHERE; 8]), "a sector is in the log")?;
    holds(reads_as(engine, 0, &OVER_FORMER), "other bytes are read")
}

#[test]
fn what_the_log_has_is_put_when_it_is_opened(rt: HostRuntime) -> Result<(), Fail> {
    let log = left_log(rt.alloc())?;
    let backing = new_backing(rt.alloc())?;
    let mut closed = closed_after(rt.alloc(), log, backing, &mut Course::SeeRecovered)?;
    assert!(rt; has_recorded(&mut closed, BEHIND));
    assert!(rt; are_put(closed.backing.bytes()));
    Ok(())
}

#[test]
fn an_id_at_the_record_and_the_slots_is_no_stray(rt: HostRuntime) -> Result<(), Fail> {
    let log = SteadyDevice::of(left_with(rt.alloc(), BEHIND)?);
    let backing = new_backing(rt.alloc())?;
    let mut closed = closed_after(rt.alloc(), log, backing, &mut Course::SeeRecovered)?;
    assert!(rt; has_recorded(&mut closed, BEHIND));
    Ok(())
}

/// Why a cache wasn't opened, where both devices have these bytes.
fn cause_over(
    stop: &OpenStop<SteadyDevice, SteadyDevice>,
    log: &[u8],
    backing: &[u8],
) -> Option<OpenCause> {
    if stop.log.bytes() == log && stop.backing.bytes() == backing {
        Some(stop.cause)
    } else {
        None
    }
}

/// Why a cache over a log of these bytes isn't opened, where both devices are then as they were.
fn refused_unchanged(alloc: Global, bytes: &[u8]) -> Result<Option<OpenCause>, Fail> {
    let former = former_bytes(alloc, SECTORS)?;
    let log = SteadyDevice::of(Vec::from_slice(alloc, bytes)?);
    let backing = SteadyDevice::of(Vec::from_slice(alloc, former.as_slice())?);
    Ok(match begun(alloc, log, backing) {
        Ok(_) => None,
        Err(stop) => cause_over(&stop, bytes, former.as_slice()),
    })
}

#[test]
fn nothing_is_put_where_a_slot_is_stray(rt: HostRuntime) -> Result<(), Fail> {
    let bytes = left_with(rt.alloc(), BEHIND + 1)?;
    let found = refused_unchanged(rt.alloc(), bytes.as_slice())?;
    let stray = OpenCause::Stray {
        slot: 2,
        id: BEHIND + 1,
    };
    assert!(rt; found == Some(stray));
    Ok(())
}

/// What came of an opening that was stopped: why, how many calls of the log and of the backing device were made, and the
/// record with which the cache was opened when that was made again, both segments put.
#[derive(Clone, Copy, PartialEq, Eq)]
struct Told {
    cause: OpenCause,
    calls: (u64, u64),
    then: Option<u64>,
}

/// The one call that fails, of this device, and how many sectors a write stores before.
type Fault = (Which, u64, u64);

/// A call that fails, why the cache isn't opened then, how many calls of the log and of the backing device were made, and the
/// record with which it is opened when that is made again. The new record is found then where it was stored before.
type Row = (Fault, OpenCause, (u64, u64), u64);

// Of the log: two sectors of the superblock, a sync, an id in each slot, the slots of both segments and of the next, and the
// write and the sync of the record. Of the backing device: a sync, a write for each segment, and a sync.
const STOPS: [Row; 19] = [
    ((Which::Log, 0, 0), UNREAD, (1, 0), 15),
    ((Which::Log, 1, 0), UNREAD, (2, 0), 15),
    ((Which::Log, 2, 0), OpenCause::LogFault, (3, 0), 15),
    ((Which::Backing, 0, 0), OpenCause::BackingFault, (3, 1), 15),
    ((Which::Log, 3, 0), OpenCause::LogFault, (4, 1), 15),
    ((Which::Log, 4, 0), OpenCause::LogFault, (5, 1), 15),
    ((Which::Log, 5, 0), OpenCause::LogFault, (6, 1), 15),
    ((Which::Log, 6, 0), OpenCause::LogFault, (7, 1), 15),
    ((Which::Log, 7, 0), OpenCause::LogFault, (8, 1), 15),
    ((Which::Backing, 1, 0), OpenCause::BackingFault, (8, 2), 15),
    ((Which::Backing, 1, 2), OpenCause::BackingFault, (8, 2), 15),
    ((Which::Log, 8, 0), OpenCause::LogFault, (9, 2), 15),
    ((Which::Backing, 2, 0), OpenCause::BackingFault, (9, 3), 15),
    ((Which::Backing, 2, 1), OpenCause::BackingFault, (9, 3), 15),
    ((Which::Log, 9, 0), OpenCause::LogFault, (10, 3), 15),
    ((Which::Backing, 3, 0), OpenCause::BackingFault, (10, 4), 15),
    ((Which::Log, 10, 0), OpenCause::LogFault, (11, 4), 15),
    ((Which::Log, 10, 1), OpenCause::LogFault, (11, 4), 19),
    ((Which::Log, 11, 0), OpenCause::LogFault, (12, 4), 19),
];

const UNREAD: OpenCause = OpenCause::Super(SuperRefused::Fault);

/// A device of these bytes, of which the call fails where it is the one that is meant.
fn device_of(
    alloc: Global,
    bytes: &[u8],
    fault: &Fault,
    which: Which,
) -> Result<MemoryDevice, AllocError> {
    let (meant, call, sectors) = fault;
    let mut faults = Vec::new(alloc);
    if *meant == which {
        faults.push(PlannedFault {
            call: *call,
            sectors: *sectors,
        })?;
    }
    let bytes = Vec::from_slice(alloc, bytes)?;
    MemoryDevice::of(alloc, bytes, FaultPlan { faults, stop: None })
}

/// This record, where both segments are put.
fn where_put(first: u64, backing: &MemoryDevice) -> Option<u64> {
    if are_put(backing.bytes()) {
        Some(first)
    } else {
        None
    }
}

/// The record with which a cache over these devices is opened, where both segments are put.
fn opened_at(alloc: Global, log: MemoryDevice, backing: MemoryDevice) -> Option<u64> {
    match begun(alloc, log, backing) {
        Ok((first, _log, backing)) => where_put(first, &backing),
        Err(_stop) => None,
    }
}

/// What comes of an opening over these devices, where it is stopped.
fn answer_of(alloc: Global, log: MemoryDevice, backing: MemoryDevice) -> Option<Told> {
    match begun(alloc, log, backing) {
        Ok(_) => None,
        Err(stop) => Some(Told {
            cause: stop.cause,
            calls: (stop.log.calls(), stop.backing.calls()),
            then: opened_at(alloc, stop.log, stop.backing),
        }),
    }
}

/// Whether an opening over a log of these bytes is stopped as in the row, and made again.
fn is_row(alloc: Global, bytes: &[u8], row: &Row) -> Result<bool, Fail> {
    let (fault, cause, calls, then) = row;
    let former = former_bytes(alloc, SECTORS)?;
    let log = device_of(alloc, bytes, fault, Which::Log)?;
    let backing = device_of(alloc, former.as_slice(), fault, Which::Backing)?;
    let want = Told {
        cause: *cause,
        calls: *calls,
        then: Some(*then),
    };
    Ok(answer_of(alloc, log, backing) == Some(want))
}

#[test]
fn an_opening_that_was_stopped_is_made_again(rt: HostRuntime) -> Result<(), Fail> {
    let bytes = left_log(rt.alloc())?.into_bytes();
    for (at, row) in STOPS.iter().enumerate() {
        row_holds(&rt, is_row(rt.alloc(), bytes.as_slice(), row)?, at);
    }
    Ok(())
}
