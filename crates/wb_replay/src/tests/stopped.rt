//! Recoveries that are stopped, and made again.
use super::round::{Round, session_backing, session_log};
use super::{Image, NEW, TORN, backing_of, log_of};
use crate::recover;
use std::alloc::{AllocError, Global};
use std::process::Abort;
use std::test::Fail;
use wb_device::{FaultPlan, MemoryDevice, PlannedFault};

/// Which calls fail: of the log or of the backing device, from this one on or this one alone, and how many sectors a write
/// stores before.
#[derive(Clone, Copy, Debug)]
struct Stopped {
    of_log: bool,
    from: bool,
    call: u64,
    sectors: u64,
}

/// A device of these bytes, of which calls fail as planned where it is the one that is meant.
fn device_of(
    alloc: Global,
    bytes: &[u8],
    stopped: &Stopped,
    meant: bool,
) -> Result<MemoryDevice, AllocError> {
    let mut faults = Vec::new(alloc);
    if meant && !stopped.from {
        faults.push(PlannedFault {
            call: stopped.call,
            sectors: stopped.sectors,
        })?;
    }
    let stop = if meant && stopped.from {
        Some(stopped.call)
    } else {
        None
    };
    MemoryDevice::of(
        alloc,
        Vec::from_slice(alloc, bytes)?,
        FaultPlan { faults, stop },
    )
}

/// Whether the devices are recovered, so that the backing device holds these bytes.
fn comes_to(
    alloc: Global,
    log: &mut MemoryDevice,
    backing: &mut MemoryDevice,
    wanted: &[u8],
) -> bool {
    recover(alloc, log, backing).is_ok() && backing.bytes() == wanted
}

/// What a crash takes of the sectors that are pending, of the log and of the backing device.
const CHOICES: [(&[u8], &[u8]); 3] = [(&[], &[0, 1]), (&[1], &[1, 0, 0]), (&[1], &[])];

/// Whether what is recovered of the devices after each of these crashes comes to the same.
fn crashes_come_to(
    alloc: Global,
    log: &MemoryDevice,
    backing: &MemoryDevice,
    wanted: &[u8],
) -> Result<bool, AllocError> {
    for (of_log, of_backing) in &CHOICES {
        let mut left_log = log.crashed(alloc, of_log)?;
        let mut left = backing.crashed(alloc, of_backing)?;
        if !comes_to(alloc, &mut left_log, &mut left, wanted) {
            return Ok(false);
        }
    }
    Ok(true)
}

/// What came of a recovery that was to be stopped: it wasn't, or it was, and made again comes to the same.
#[derive(Clone, Copy, PartialEq, Eq)]
enum Came {
    Whole,
    Same,
    Other,
}

/// Recovers devices of which a call fails, and recovers what crashes leave of them. Where only one call fails they are
/// recovered again too.
fn recover_again(
    alloc: Global,
    log: &mut MemoryDevice,
    backing: &mut MemoryDevice,
    stopped: &Stopped,
    wanted: &[u8],
) -> Result<Came, AllocError> {
    if recover(alloc, log, backing).is_ok() {
        return Ok(if backing.bytes() == wanted {
            Came::Whole
        } else {
            Came::Other
        });
    }
    let same = crashes_come_to(alloc, log, backing, wanted)?
        && (stopped.from || comes_to(alloc, log, backing, wanted));
    Ok(if same { Came::Same } else { Came::Other })
}

/// The images before a recovery, and the backing image behind it.
#[derive(Clone, Copy)]
struct Images<'a> {
    log: &'a [u8],
    backing: &'a [u8],
    wanted: &'a [u8],
}

/// Recovers the images where a call fails.
fn stop_at(alloc: Global, images: &Images<'_>, stopped: &Stopped) -> Result<Came, AllocError> {
    let mut log = device_of(alloc, images.log, stopped, stopped.of_log)?;
    let mut backing = device_of(alloc, images.backing, stopped, !stopped.of_log)?;
    recover_again(alloc, &mut log, &mut backing, stopped, images.wanted)
}

/// It came to the same.
fn is_same(rt: &impl Abort, came: Came, stopped: &Stopped) {
    assert!(rt; came != Came::Other, "at {stopped:?}");
}

/// Recovers the images where each call of one of the devices fails in turn, and says how many calls there are.
fn stop_each(
    rt: &impl Abort,
    alloc: Global,
    images: &Images<'_>,
    kind: &Stopped,
) -> Result<u64, AllocError> {
    for call in 0..40 {
        let stopped = Stopped { call, ..*kind };
        let came = stop_at(alloc, images, &stopped)?;
        is_same(rt, came, &stopped);
        if came == Came::Whole {
            return Ok(call);
        }
    }
    Ok(40)
}

/// A device, whether calls fail from one on, and the sectors that a write stores before.
const KINDS: [(bool, bool, u64); 6] = [
    (true, true, 0),
    (true, false, 0),
    (true, false, 1),
    (false, true, 0),
    (false, false, 0),
    (false, false, 1),
];

/// Recovers the images where a call fails, for each call of either device, of which there are so many.
fn stop_all(
    rt: &impl Abort,
    alloc: Global,
    images: &Images<'_>,
    calls: (u64, u64),
) -> Result<(), AllocError> {
    for (of_log, from, sectors) in &KINDS {
        let kind = Stopped {
            of_log: *of_log,
            from: *from,
            call: 0,
            sectors: *sectors,
        };
        let found = stop_each(rt, alloc, images, &kind)?;
        assert!(rt; found == if *of_log { calls.0 } else { calls.1 });
    }
    Ok(())
}

/// Recovers images where a call fails.
fn stop_images(
    rt: &impl Abort,
    alloc: Global,
    log: &[u8],
    backing: &[u8],
    wanted: &[u8],
    calls: (u64, u64),
) -> Result<(), AllocError> {
    let images = Images {
        log,
        backing,
        wanted,
    };
    stop_all(rt, alloc, &images, calls)
}

/// Recovers a log where a call fails.
fn stop_log(
    rt: &impl Abort,
    alloc: Global,
    image: &Image<'_>,
    put: &[u64],
    calls: (u64, u64),
) -> Result<(), Fail> {
    let log = log_of(alloc, image)?;
    let backing = backing_of(alloc, &[])?;
    let wanted = backing_of(alloc, put)?;
    stop_images(
        rt,
        alloc,
        log.as_slice(),
        backing.as_slice(),
        wanted.as_slice(),
        calls,
    )?;
    Ok(())
}

// Of the log: two sectors of the superblock, a sync, an id in each slot, the slots that the chain comes to, and the write
// and the sync of the record. Of the backing device: two syncs, and a write for each segment.

#[test]
fn a_recovery_that_was_stopped_is_made_again(rt: HostRuntime) -> Result<(), Fail> {
    stop_log(&rt, rt.alloc(), &TORN, &[1, 2], (12, 4))
}

#[test]
fn so_is_one_of_a_full_log(rt: HostRuntime) -> Result<(), Fail> {
    let full = Image {
        recorded: 6,
        whole: &[7, 8, 9, 10],
        ..NEW
    };
    stop_log(&rt, rt.alloc(), &full, &[7, 8, 9, 10], (13, 6))
}

/// Recovers what a session leaves that goes round its log, where a call fails.
fn stop_session(
    rt: &impl Abort,
    alloc: Global,
    left: &Round,
    calls: (u64, u64),
) -> Result<(), Fail> {
    let log = session_log(alloc, left)?;
    let backing = session_backing(alloc, left.put)?;
    let wanted = session_backing(alloc, left.last)?;
    stop_images(
        rt,
        alloc,
        log.as_slice(),
        backing.as_slice(),
        wanted.as_slice(),
        calls,
    )?;
    Ok(())
}

// The log has two slots: one id less is read in each, and the chain comes to both of them.

#[test]
fn so_is_one_before_the_record_was_raised(rt: HostRuntime) -> Result<(), Fail> {
    let left = Round {
        recorded: 2,
        first: 3,
        last: 4,
        put: 2,
    };
    stop_session(&rt, rt.alloc(), &left, (9, 4))
}

#[test]
fn so_is_one_of_a_log_that_was_gone_round(rt: HostRuntime) -> Result<(), Fail> {
    let left = Round {
        recorded: 3,
        first: 4,
        last: 5,
        put: 3,
    };
    stop_session(&rt, rt.alloc(), &left, (9, 4))
}

#[test]
fn so_is_one_of_the_last_segment(rt: HostRuntime) -> Result<(), Fail> {
    let left = Round {
        recorded: 4,
        first: 4,
        last: 5,
        put: 4,
    };
    stop_session(&rt, rt.alloc(), &left, (9, 3))
}
