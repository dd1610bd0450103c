//! Caches that are opened, or refused.
use super::{
    FIRST, LOG_SECTORS, SECTOR_BYTES, SECTORS, begun, failing_backing, failing_log, former_bytes,
    log_of, stopping_at,
};
use crate::OpenCause;
use std::alloc::Global;
use std::process::Abort;
use std::test::Fail;
use wb_device::{Device, MemoryDevice, SteadyDevice};
use wb_super::SuperRefused;

/// The record with which a cache over this log is opened, or why it is refused. The backing device has so many sectors.
fn opened<L: Device>(alloc: Global, log: L, sectors: u32) -> Result<Result<u64, OpenCause>, Fail> {
    let backing = SteadyDevice::of(former_bytes(alloc, sectors)?);
    Ok(match begun(alloc, log, backing) {
        Ok((first, _log, _backing)) => Ok(first),
        Err(stop) => Err(stop.cause),
    })
}

/// The sectors of a log, its record where it is formatted, the sectors of the backing device, and what is answered.
const ROWS: [(u32, Option<u64>, u32, Result<u64, OpenCause>); 6] = [
    (2047, None, 56, Err(OpenCause::Super(NO_FRONT))),
    (2176, None, 56, Err(OpenCause::Super(SuperRefused::Magic))),
    (
        2176,
        Some(MOST_RECORDED + 1),
        56,
        Err(OpenCause::IdsSpent(MOST_RECORDED + 1)),
    ),
    (
        2176,
        Some(MOST_RECORDED),
        56,
        Err(OpenCause::Backing { needs: 64, has: 56 }),
    ),
    (2176, Some(MOST_RECORDED), 64, Ok(MOST_RECORDED + 4)),
    (2176, Some(0), 72, Ok(4)),
];

const NO_FRONT: SuperRefused = SuperRefused::Small {
    needs: 2048,
    has: 2047,
};

/// The greatest record that leaves ids for a session of four slots.
const MOST_RECORDED: u64 = (1 << 48) - 8;

/// A cache was opened with this record, or refused so.
fn is_answered(rt: &impl Abort, found: Result<u64, OpenCause>, want: Result<u64, OpenCause>) {
    assert_eq!(rt; found, want);
}

#[test]
fn an_engine_is_opened_or_refused(rt: HostRuntime) -> Result<(), Fail> {
    for (log_sectors, recorded, sectors, want) in &ROWS {
        let log = log_of(rt.alloc(), *log_sectors, *recorded)?;
        let found = opened(rt.alloc(), log, *sectors)?;
        is_answered(&rt, found, *want);
    }
    Ok(())
}

/// A formatted log with these ids in its slots.
fn log_with(alloc: Global, ids: &[u64; 4]) -> Result<SteadyDevice, Fail> {
    let mut log = log_of(alloc, LOG_SECTORS, Some(FIRST.into()))?;
    let mut at: u32 = 2048;
    for id in ids {
        let mut sector = [0; SECTOR_BYTES];
        sector[..8].copy_from_slice(&id.to_le_bytes());
        if u64::from(at) < log.sectors() {
            log.write(at.into(), &sector)?;
        }
        at = at.wrapping_add(32);
    }
    Ok(log)
}

/// The ids in the slots of a log, and what is answered: the record is 7, and there are four slots.
const STRAYS: [([u64; 4], Result<u64, OpenCause>); 6] = [
    ([7, 0, 6, 7], Ok(11)),
    // the id of the segment behind the record, without a text
    ([7, 0, 6, 8], Ok(11)),
    ([11, 11, 11, 11], Ok(11)),
    ([7, 6, 13, 12], Err(OpenCause::Stray { slot: 2, id: 13 })),
    ([12, 13, 0, 0], Err(OpenCause::Stray { slot: 0, id: 12 })),
    ([11, 11, 11, 12], Err(OpenCause::Stray { slot: 3, id: 12 })),
];

#[test]
fn an_id_above_the_record_and_the_slots_is_refused(rt: HostRuntime) -> Result<(), Fail> {
    for (ids, want) in &STRAYS {
        let log = log_with(rt.alloc(), ids)?;
        let found = opened(rt.alloc(), log, SECTORS)?;
        is_answered(&rt, found, *want);
    }
    Ok(())
}

/// No call of a device.
const NEVER: u64 = u64::MAX;

/// The calls from which on the log and the backing device fail, what is answered, and how many calls of each were made.
const FAILING: [(u64, u64, OpenCause, u64, u64); 11] = [
    (0, 0, OpenCause::Super(SuperRefused::Fault), 1, 0),
    (1, NEVER, OpenCause::Super(SuperRefused::Fault), 2, 0),
    (2, NEVER, OpenCause::LogFault, 3, 0),
    (2, 0, OpenCause::LogFault, 3, 0),
    (NEVER, 0, OpenCause::BackingFault, 3, 1),
    (3, 0, OpenCause::BackingFault, 3, 1),
    (4, NEVER, OpenCause::LogFault, 5, 1),
    (7, 1, OpenCause::LogFault, 8, 1),
    (8, 1, OpenCause::BackingFault, 8, 2),
    (8, NEVER, OpenCause::LogFault, 9, 2),
    (9, NEVER, OpenCause::LogFault, 10, 2),
];

/// Why a cache over devices that fail isn't opened, and how many calls of each were made.
fn refused(
    alloc: Global,
    log_call: u64,
    backing_call: u64,
) -> Result<Option<(OpenCause, u64, u64)>, Fail> {
    let log = failing_log(alloc, log_call)?;
    let backing = failing_backing(alloc, backing_call)?;
    Ok(match begun(alloc, log, backing) {
        Ok(_) => None,
        Err(stop) => Some((stop.cause, stop.log.calls(), stop.backing.calls())),
    })
}

#[test]
fn a_device_that_fails_is_refused(rt: HostRuntime) -> Result<(), Fail> {
    for (log_call, backing_call, want, log_calls, backing_calls) in &FAILING {
        let found = refused(rt.alloc(), *log_call, *backing_call)?;
        assert!(rt; found == Some((*want, *log_calls, *backing_calls)));
    }
    Ok(())
}

/// Why a cache is refused over a log with a stray id in the third slot that fails from the next read on, and how many calls
/// of the log were made.
fn refused_before_it_fails(alloc: Global) -> Result<Option<(OpenCause, u64)>, Fail> {
    let bytes = log_with(alloc, &[7, 6, 13, 12])?.into_bytes();
    let log = MemoryDevice::of(alloc, bytes, stopping_at(alloc, 6))?;
    let backing = SteadyDevice::of(former_bytes(alloc, SECTORS)?);
    Ok(match begun(alloc, log, backing) {
        Ok(_) => None,
        Err(stop) => Some((stop.cause, stop.log.calls())),
    })
}

#[test]
fn no_slot_is_read_behind_a_stray_one(rt: HostRuntime) -> Result<(), Fail> {
    let found = refused_before_it_fails(rt.alloc())?;
    assert!(rt; found == Some((OpenCause::Stray { slot: 2, id: 13 }, 6)));
    Ok(())
}
