//! What formatting and the writing of a record leave, also where they are stopped.
use super::{NOTHING, Planned, device_of, plan_of};
use crate::{FormatStop, SuperRefused, format, read_super, write_record};
use std::alloc::{AllocError, Global};
use std::process::Abort;
use std::test::Fail;
use wb_device::{Device, MemoryDevice};
use wb_geometry::Geometry;

const SECTOR_BYTES: usize = 512;

const LOG_SECTORS: usize = 2176;

// For 4 slots: two calls for each of the two superblocks, one for each slot, and two for the record.
const CALLS: u64 = 10;

// The superblock of 4 slots of order 5, for 2 segments in memory and 64 backing sectors.
const SUPERBLOCK: &[u8; 36] =
    b"WBLOG\0\0\0\x01\0\0\0\x05\0\0\0\x04\0\0\0\x02\0\0\0\x40\0\0\0\0\0\0\0\x78\xf4\x39\x59";

// The sectors that it writes.
const WRITTEN: [usize; 6] = [0, 2047, 2048, 2080, 2112, 2144];

/// Makes a log of 8 slots of order 4 with the record 7.
fn make_former(log: &mut MemoryDevice) -> Result<(), Fail> {
    format(log, &Geometry::new(4, 8, 2, 16)?)?;
    write_record(log, 7)?;
    Ok(())
}

/// Puts ids into all slots of a log of order 4.
fn put_ids(bytes: &mut [u8]) {
    for (at, sector) in bytes.chunks_exact_mut(SECTOR_BYTES).enumerate() {
        if at >= 2048 && at % 16 == 0 {
            sector.fill(0x11);
        }
    }
}

/// The bytes of a log of 8 slots of order 4 with the record 7, and with ids in all slots.
fn former_log(alloc: Global) -> Result<Vec<u8>, Fail> {
    let blank = vec![in alloc; 0x5a; LOG_SECTORS * SECTOR_BYTES]?;
    let mut log = device_of(alloc, blank.as_slice(), &NOTHING)?;
    make_former(&mut log)?;
    let mut bytes = log.into_bytes();
    put_ids(bytes.as_mut_slice());
    Ok(bytes)
}

/// Makes of the former log what it is once formatted for 4 slots of order 5.
fn make_new(bytes: &mut [u8]) {
    for (at, sector) in bytes.chunks_exact_mut(SECTOR_BYTES).enumerate() {
        if WRITTEN.contains(&at) {
            sector.fill(0);
        }
    }
    for (place, byte) in bytes.iter_mut().zip(SUPERBLOCK) {
        *place = *byte;
    }
}

/// The former log formatted for 4 slots of order 5.
fn new_log(alloc: Global, former: &[u8]) -> Result<Vec<u8>, AllocError> {
    let mut bytes = Vec::from_slice(alloc, former)?;
    make_new(bytes.as_mut_slice());
    Ok(bytes)
}

/// The former log, and what formatting makes of it.
#[derive(Clone, Copy)]
struct Images<'a> {
    former: &'a [u8],
    new: &'a [u8],
}

/// How often a crash left each of the three logs.
#[derive(Clone, Copy)]
struct Kinds {
    former: u64,
    withdrawn: u64,
    new: u64,
}

impl Kinds {
    /// Counts what a device holds: the former log, the new one, or one that is refused for its magic. It may hold nothing
    /// else.
    fn count(&mut self, device: &mut MemoryDevice, images: Images<'_>) -> bool {
        if device.bytes() == images.former {
            self.former = self.former.saturating_add(1);
            return true;
        }
        if device.bytes() == images.new {
            self.new = self.new.saturating_add(1);
            return true;
        }
        self.withdrawn = self.withdrawn.saturating_add(1);
        read_super(device) == Err(SuperRefused::Magic)
    }
}

// What a crash takes of the sectors that are pending.
const CHOICES: [&[u8]; 5] = [&[], &[1], &[0, 1, 2], &[1, 0, 0, 1], &[0, 3]];

/// A log that was left is one of the three.
fn is_known(rt: &impl Abort, known: bool, planned: &Planned, choice: &[u8]) {
    assert!(rt; known, "at {planned:?}, {choice:?}");
}

/// Counts what crashes leave of a device.
fn count_crashes(
    rt: &impl Abort,
    alloc: Global,
    log: &MemoryDevice,
    images: Images<'_>,
    planned: &Planned,
    kinds: &mut Kinds,
) -> Result<(), AllocError> {
    for choice in &CHOICES {
        let mut left = log.crashed(alloc, choice)?;
        let known = kinds.count(&mut left, images);
        is_known(rt, known, planned, choice);
    }
    Ok(())
}

/// A format of 4 slots of order 5 ends where call `call` fails, and is told as whole where there is no such call.
fn is_ended(rt: &impl Abort, log: &mut MemoryDevice, call: u64) -> Result<(), Fail> {
    let ended = format(log, &Geometry::new(5, 4, 2, 64)?);
    assert!(rt; ended.is_ok() == (call == CALLS), "at {call}");
    assert!(rt;
        log.calls() == CALLS.min(call.saturating_add(1)),
        "at {call}"
    );
    Ok(())
}

/// Formats the former log where call `call` fails as planned, and counts what crashes leave.
fn stop_at(
    rt: &impl Abort,
    alloc: Global,
    images: Images<'_>,
    call: u64,
    planned: &Planned,
    kinds: &mut Kinds,
) -> Result<(), Fail> {
    let mut log = device_of(alloc, images.former, planned)?;
    is_ended(rt, &mut log, call)?;
    count_crashes(rt, alloc, &log, images, planned, kinds)?;
    Ok(())
}

/// Stops a format at each of its calls, in two ways, and counts what crashes leave.
fn stop_at_each(rt: &impl Abort, alloc: Global, images: Images<'_>) -> Result<Kinds, Fail> {
    let mut kinds = Kinds {
        former: 0,
        withdrawn: 0,
        new: 0,
    };
    for call in 0..=CALLS {
        let stopped = plan_of(None, Some(call));
        stop_at(rt, alloc, images, call, &stopped, &mut kinds)?;
        let stored = plan_of(Some((call, 1)), None);
        stop_at(rt, alloc, images, call, &stored, &mut kinds)?;
    }
    Ok(kinds)
}

/// Each of the logs was left more than six times.
fn are_all_left(rt: &impl Abort, kinds: Kinds) {
    assert!(rt; kinds.former > 6);
    assert!(rt; kinds.withdrawn > 6);
    assert!(rt; kinds.new > 6);
}

#[test]
fn a_format_that_stops_leaves_one_of_three_logs(rt: HostRuntime) -> Result<(), Fail> {
    let former = former_log(rt.alloc())?;
    let new = new_log(rt.alloc(), former.as_slice())?;
    let images = Images {
        former: former.as_slice(),
        new: new.as_slice(),
    };
    let kinds = stop_at_each(&rt, rt.alloc(), images)?;
    are_all_left(&rt, kinds);
    Ok(())
}

// A record that is written over 7: the planned fault, the stop, whether it is told as written, the record that is read
// then, and those that two crashes leave.
type RecordRow = (Option<(u64, u64)>, Option<u64>, bool, u64, (u64, u64));

const RECORDS: [RecordRow; 6] = [
    (None, None, true, 9, (9, 9)),
    (None, Some(0), false, 7, (7, 7)),
    (Some((0, 0)), None, false, 7, (7, 7)),
    (Some((0, 1)), None, false, 9, (7, 9)),
    (None, Some(1), false, 9, (7, 9)),
    (Some((1, 0)), None, false, 9, (7, 9)),
];

/// The record that a log is found with.
fn record_of(log: &mut MemoryDevice) -> Option<u64> {
    match read_super(log) {
        Ok(found) => Some(found.recorded),
        Err(_) => None,
    }
}

/// The record that such a crash leaves.
fn record_after(
    alloc: Global,
    log: &MemoryDevice,
    choice: &[u8],
) -> Result<Option<u64>, AllocError> {
    let mut left = log.crashed(alloc, choice)?;
    Ok(record_of(&mut left))
}

/// The record that a log holds.
fn record_in(alloc: Global, bytes: &[u8]) -> Result<Option<u64>, AllocError> {
    let mut log = device_of(alloc, bytes, &NOTHING)?;
    Ok(record_of(&mut log))
}

/// A record is found.
fn is_record(rt: &impl Abort, found: Option<u64>, wanted: u64, row: &RecordRow) {
    let (fault, stop, ..) = *row;
    assert!(rt; found == Some(wanted), "at {fault:?}, {stop:?}");
}

/// A log has the records of a row.
fn has_records(
    rt: &impl Abort,
    alloc: Global,
    log: &MemoryDevice,
    row: &RecordRow,
) -> Result<(), AllocError> {
    let (_, _, _, found, (first, second)) = *row;
    is_record(rt, record_in(alloc, log.bytes())?, found, row);
    is_record(rt, record_after(alloc, log, &[])?, first, row);
    is_record(rt, record_after(alloc, log, &[1])?, second, row);
    Ok(())
}

/// Writes the record 9, and says whether that came through.
fn write_nine(rt: &impl Abort, log: &mut MemoryDevice) -> bool {
    assert!(rt; log.sectors() >= 2048);
    write_record(log, 9).is_ok()
}

/// Writes a record over that of the former log, as a row plans it.
fn write_over(
    rt: &impl Abort,
    alloc: Global,
    former: &[u8],
    row: &RecordRow,
) -> Result<(), AllocError> {
    let (fault, stop, written, ..) = *row;
    let mut log = device_of(alloc, former, &plan_of(fault, stop))?;
    assert!(rt; write_nine(rt, &mut log) == written);
    has_records(rt, alloc, &log, row)
}

/// Writes a record over that of the former log, row by row.
fn write_each(rt: &impl Abort, alloc: Global, former: &[u8]) -> Result<(), AllocError> {
    for row in &RECORDS {
        write_over(rt, alloc, former, row)?;
    }
    Ok(())
}

#[test]
fn a_record_is_old_or_new(rt: HostRuntime) -> Result<(), Fail> {
    let former = former_log(rt.alloc())?;
    write_each(&rt, rt.alloc(), former.as_slice())?;
    Ok(())
}

/// A device of so many sectors is refused, and not called.
fn is_refused(rt: &impl Abort, log: &mut MemoryDevice, geometry: &Geometry, sectors: usize) {
    let small = FormatStop::Small {
        needs: 2176,
        has: sectors as u64,
    };
    assert!(rt; format(log, geometry) == Err(small), "of {sectors} sectors");
    assert!(rt; log.calls() == 0, "of {sectors} sectors");
}

/// A log of so many sectors is too small.
fn is_too_small(
    rt: &impl Abort,
    alloc: Global,
    geometry: &Geometry,
    sectors: usize,
) -> Result<(), AllocError> {
    let bytes = vec![in alloc; 0x5a; sectors.saturating_mul(SECTOR_BYTES)]?;
    let mut log = device_of(alloc, bytes.as_slice(), &NOTHING)?;
    is_refused(rt, &mut log, geometry, sectors);
    Ok(())
}

#[test]
fn a_device_that_is_too_small_is_left_alone(rt: HostRuntime) -> Result<(), Fail> {
    let geometry = Geometry::new(5, 4, 2, 64)?;
    for sectors in [0, 2047, 2048, 2175] {
        is_too_small(&rt, rt.alloc(), &geometry, sectors)?;
    }
    Ok(())
}
