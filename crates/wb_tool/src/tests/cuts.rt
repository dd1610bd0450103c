//! What recovery makes of the images that a crash leaves behind a session of which calls of a device fail: the image after
//! exactly the first of its segments, and each that a flush was answered for is among them. Recovery is here the plain program
//! that its definition describes.
use super::case::SERVE;
use super::flushes::flushed_in;
use super::{BACKING_BYTES, SECTOR_BYTES, empty_log, run};
use std::alloc::{AllocError, Global};
use std::process::Abort;
use std::test::Fail;
use wb_device::{FaultPlan, MemoryDevice, PlannedFault};
use wb_geometry::Which;
use wb_header::{Found, Meta, check};

/// A session over devices of which calls fail, and what is met in its course.
#[derive(Clone, Copy)]
pub struct Session<'a> {
    pub script: &'a str,
    /// The log has so many slots of so many sectors.
    pub slots: u8,
    pub sectors: u8,
    /// The writes of the script, each in a segment of its own: the place, a sector, and the byte that fills it.
    pub writes: &'a [(u64, usize, u8)],
    /// How many calls of the log and of the backing device there are, where none fails.
    log_calls: u64,
    backing_calls: u64,
    /// What is met where each of them fails.
    met: Met,
}

/// What is met, a bit for each: after how many writes the images are, and the greatest number of a flush that was done.
#[derive(Clone, Copy, Debug, PartialEq, Eq)]
struct Met {
    cuts: u8,
    flushed: u8,
}

/// The bits of the numbers from 0 on.
const BITS: [u8; 7] = [1, 2, 4, 8, 16, 32, 64];

/// The bit of an image that is after no number of writes, or lacks one that was flushed.
const WRONG: u8 = 128;

/// Three segments go over two slots.
const ROUND: Session<'static> = Session {
    script: "clients 1\n0 w 0 1 01\n0 w 8 1 02\n0 w 16 1 03\n0 r 0 1\n",
    slots: 2,
    sectors: 16,
    writes: &[(0, 0, 1), (1, 8, 2), (2, 16, 3)],
    log_calls: 23,
    backing_calls: 7,
    met: Met {
        cuts: 1 | 2 | 4 | 8,
        flushed: 1,
    },
};

/// Three segments are flushed one by one, and two more aren't.
pub const FLUSHED: Session<'static> = Session {
    script: "\
clients 1
0 w 0 1 01
0 f
0 w 8 1 02
0 f
0 w 16 1 03
0 f
0 w 24 1 04
0 w 32 1 05
0 r 0 1
",
    slots: 8,
    sectors: 16,
    writes: &[(0, 0, 1), (1, 8, 2), (2, 16, 3), (3, 24, 4), (4, 32, 5)],
    log_calls: 33,
    backing_calls: 8,
    met: Met {
        cuts: 1 | 2 | 4 | 8 | 16 | 32,
        flushed: 1 | 2 | 4 | 8,
    },
};

/// A write is forced, and flushes are posted behind it and behind another one, which fill the segments with voids.
const POSTED: Session<'static> = Session {
    script: "clients 1\n0 u 8 1 cc\n0 q\n0 w 0 1 aa\n0 q\n0 w 16 1 dd\n",
    slots: 4,
    sectors: 32,
    writes: &[(0, 8, 0xcc), (3, 0, 0xaa), (6, 16, 0xdd)],
    log_calls: 23,
    backing_calls: 6,
    met: Met {
        cuts: 1 | 2 | 4 | 8,
        flushed: 1 | 8 | 64,
    },
};

/// The byte that fills all other sectors.
const FORMER: u8 = 0x5a;

/// What a crash takes of the sectors that were written since the last sync, of the log and of the backing device.
const CHOICES: [&[u8]; 3] = [&[], &[1], &[0, 1, 2]];

/// How a call fails: it stores so many sectors first, where it is a write. With none named it and all behind it fail.
const WAYS: [Option<u64>; 3] = [None, Some(0), Some(1)];

/// The record, where a log has these bytes.
fn recorded_in(log: &[u8]) -> u64 {
    let mut recorded = 0;
    for byte in log.iter().skip(2047 * SECTOR_BYTES).take(8).rev() {
        recorded = recorded << 8 | u64::from(*byte);
    }
    recorded
}

/// Puts a dirty sector to its place.
fn put_sector(backing: &mut [u8], sector: u8, bytes: &[u8]) {
    let places = backing.iter_mut().skip(usize::from(sector) * SECTOR_BYTES);
    for (place, byte) in places.zip(bytes) {
        *place = *byte;
    }
}

/// Puts the dirty sectors of a block.
fn put_block(backing: &mut [u8], meta: Meta, payload: &[u8]) {
    for (index, bytes) in payload.chunks_exact(SECTOR_BYTES).enumerate() {
        if meta.block < 8 && index < 8 && meta.bits >> index & 1 == 1 {
            put_sector(backing, 8 * meta.block as u8 + index as u8, bytes);
        }
    }
}

/// Puts the blocks of a segment.
pub fn put_segment(backing: &mut [u8], found: &Found<'_>) {
    for index in 0..found.length() {
        put_block(backing, found.entry(index), found.payload(index));
    }
}

/// Puts the blocks of the segment of this id, and answers whether the slot has its text.
fn put_slot(slot: &[u8], id: u64, backing: &mut [u8]) -> bool {
    if slot.len() % 4096 != 0 || !(2..=128).contains(&(slot.len() / 4096)) {
        return false;
    }
    let Ok(found) = check(slot, id, 8) else {
        return false;
    };
    put_segment(backing, &found);
    true
}

/// Follows the chain behind the record, of as many segments as there are slots at most, and puts the blocks of each.
fn recover(session: &Session<'_>, log: &[u8], backing: &mut [u8]) {
    let slots = u64::from(session.slots).max(1);
    let size = usize::from(session.sectors) * SECTOR_BYTES;
    let recorded = recorded_in(log) % 64;
    for id in recorded + 1..recorded + slots + 1 {
        let start = 2048 * SECTOR_BYTES + size * ((id - 1) % slots) as usize;
        let Some(slot) = log.get(start..start + size) else {
            return;
        };
        if !put_slot(slot, id, backing) {
            return;
        }
    }
}

/// The byte of a sector after the first of these writes.
fn byte_after(writes: &[(u64, usize, u8)], count: usize, sector: usize) -> u8 {
    let mut byte = FORMER;
    for (_, written, fill) in writes.iter().take(count) {
        if *written == sector {
            byte = *fill;
        }
    }
    byte
}

/// Whether this is the image after exactly the first of these writes.
pub fn is_cut(image: &[u8], writes: &[(u64, usize, u8)], count: usize) -> bool {
    image.chunks_exact(SECTOR_BYTES).enumerate().all(|(sector, bytes)| bytes
        == [byte_after(writes, count, sector); SECTOR_BYTES].as_slice())
}

/// Whether no write behind the first ones has a place below this one.
fn has_all_below(writes: &[(u64, usize, u8)], count: usize, place: u64) -> bool {
    writes
        .iter()
        .skip(count)
        .all(|(taken, _, _)| *taken >= place)
}

/// After how many of the first writes this is the image, with all at places below this one among them, as a bit.
fn cut_of(image: &[u8], writes: &[(u64, usize, u8)], place: u64) -> u8 {
    for (count, bit) in BITS.iter().enumerate() {
        if is_cut(image, writes, count) && has_all_below(writes, count, place) {
            return *bit;
        }
    }
    WRONG
}

/// What recovery makes of the images that a crash leaves, by each choice for the log and each for the backing device.
fn cuts_of(
    alloc: Global,
    session: &Session<'_>,
    log: &MemoryDevice,
    backing: &MemoryDevice,
    place: u64,
) -> Result<u8, AllocError> {
    let mut cuts = 0;
    for choice in &CHOICES {
        let log = log.crashed(alloc, choice)?;
        cuts |= cuts_over(alloc, session, log.bytes(), backing, place)?;
    }
    Ok(cuts)
}

/// The same over this log.
fn cuts_over(
    alloc: Global,
    session: &Session<'_>,
    log: &[u8],
    backing: &MemoryDevice,
    place: u64,
) -> Result<u8, AllocError> {
    let mut cuts = 0;
    for choice in &CHOICES {
        let mut image = backing.crashed(alloc, choice)?.into_bytes();
        recover(session, log, image.as_mut_slice());
        cuts |= cut_of(image.as_slice(), session.writes, place);
    }
    Ok(cuts)
}

/// A plan by which this call fails so.
fn plan_of(alloc: Global, call: u64, way: Option<u64>) -> Result<FaultPlan, AllocError> {
    Ok(match way {
        None => FaultPlan {
            faults: Vec::new(alloc),
            stop: Some(call),
        },
        Some(sectors) => FaultPlan {
            faults: vec![in alloc; PlannedFault { call, sectors }]?,
            stop: None,
        },
    })
}

/// A new log and a new backing device, of which this one's call fails so.
pub fn devices(
    alloc: Global,
    session: &Session<'_>,
    device: Which,
    call: u64,
    way: Option<u64>,
) -> Result<(MemoryDevice, MemoryDevice), Fail> {
    let never = u64::MAX;
    let (log_call, backing_call) = match device {
        Which::Log => (call, never),
        Which::Backing => (never, call),
    };
    let bytes = empty_log(
        alloc,
        session.sectors.trailing_zeros(),
        u32::from(session.slots),
    )?;
    let log = MemoryDevice::of(alloc, bytes, plan_of(alloc, log_call, way)?)?;
    let bytes = vec![in alloc; FORMER; BACKING_BYTES]?;
    let backing = MemoryDevice::of(alloc, bytes, plan_of(alloc, backing_call, way)?)?;
    Ok((log, backing))
}

/// The status of a session of which this call fails so, and what is met in it. Where it ends well all its writes are put.
fn stopped(
    alloc: Global,
    session: &Session<'_>,
    device: Which,
    call: u64,
    way: Option<u64>,
) -> Result<(u8, Met), Fail> {
    let (log, backing) = devices(alloc, session, device, call, way)?;
    let (outcome, sink) = run(alloc, SERVE, session.script, log, backing)?;
    let flushed = flushed_in(sink.taken());
    let safe = if outcome.status == 0 {
        u64::MAX
    } else {
        flushed
    };
    let cuts = cuts_of(alloc, session, &outcome.log, &outcome.backing, safe)?;
    let flushed = bit_of(flushed);
    Ok((outcome.status, Met { cuts, flushed }))
}

/// The bit of a number.
fn bit_of(number: u64) -> u8 {
    match BITS.get(number as usize) {
        Some(bit) => *bit,
        None => WRONG,
    }
}

/// Fails each call of a device in turn, until a session meets no such call. Answers how many there were, and what is met.
fn stop_each(
    alloc: Global,
    session: &Session<'_>,
    device: Which,
    way: Option<u64>,
) -> Result<(u64, Met), Fail> {
    let mut met = Met {
        cuts: 0,
        flushed: 0,
    };
    for call in 0..64 {
        let (status, more) = stopped(alloc, session, device, call, way)?;
        met.cuts |= more.cuts;
        met.flushed |= more.flushed;
        if status == 0 {
            return Ok((call, met));
        }
    }
    Err(Fail::new("the calls have no end"))
}

/// Each call of the device fails so, of which there are so many, and each image is one after the first segments, and has all
/// that was flushed. Answers what is met.
fn is_cut_everywhere(
    rt: &impl Abort,
    alloc: Global,
    session: &Session<'_>,
    device: Which,
    way: Option<u64>,
) -> Result<Met, Fail> {
    let (calls, met) = stop_each(alloc, session, device, way)?;
    let wanted = match device {
        Which::Log => session.log_calls,
        Which::Backing => session.backing_calls,
    };
    assert!(rt;
        calls == wanted && met.cuts < WRONG,
        "{device:?} {way:?}: {calls} {met:?}"
    );
    Ok(met)
}

/// The same of each device in each way, by which all is met that is to be met.
fn is_left_cut(rt: &impl Abort, alloc: Global, session: &Session<'_>) -> Result<(), Fail> {
    let mut met = Met {
        cuts: 0,
        flushed: 0,
    };
    for way in &WAYS {
        for device in [Which::Log, Which::Backing] {
            let more = is_cut_everywhere(rt, alloc, session, device, *way)?;
            met.cuts |= more.cuts;
            met.flushed |= more.flushed;
        }
    }
    assert!(rt; met == session.met, "{met:?}");
    Ok(())
}

#[test]
fn a_crash_leaves_the_first_segments(rt: HostRuntime) -> Result<(), Fail> {
    is_left_cut(&rt, rt.alloc(), &ROUND)
}

#[test]
fn a_crash_leaves_what_was_flushed(rt: HostRuntime) -> Result<(), Fail> {
    is_left_cut(&rt, rt.alloc(), &FLUSHED)
}

#[test]
fn a_crash_leaves_what_was_posted_and_flushed(rt: HostRuntime) -> Result<(), Fail> {
    is_left_cut(&rt, rt.alloc(), &POSTED)
}
