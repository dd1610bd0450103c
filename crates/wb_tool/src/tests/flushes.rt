//! Tests of flushes: what they are answered for, and what they cost.
use super::case::SERVE;
use super::cuts::{FLUSHED, devices, is_cut};
use super::{BACKING_BYTES, empty_log, run};
use crate::Outcome;
use std::alloc::{AllocError, Global};
use std::str;
use std::test::Fail;
use wb_device::{CallCounts, ListingDevice, MemoryDevice, SteadyDevice};
use wb_geometry::Which;

/// The greatest number of a flush that was done, of those that are printed; 0 where there is none.
pub fn flushed_in(printed: &[u8]) -> u64 {
    let mut greatest: u64 = 0;
    if let Ok(text) = str::from_utf8(printed) {
        for line in text.lines() {
            if let Some(number) = done_in(line) {
                greatest = greatest.max(number);
            }
        }
    }
    greatest
}

/// The number of the flush, where this line says that one was done.
fn done_in(line: &str) -> Option<u64> {
    let (_, ended) = line.split_once(" through ")?;
    let (number, voids) = ended.split_once(" voids ")?;
    if voids.split_once(" down ").is_some() {
        return None;
    }
    number.parse().ok()
}

// What is printed where the third segment isn't written to the log, and nothing else fails: its flush isn't done, and a later
// write finds no room. What is in the log is still read.
const THIRD_FAILED: &str = "\
0 w 0 1 at 0
0 f through 1 voids 0
0 w 8 1 at 1
0 f through 2 voids 0
0 w 16 1 at 2
0 f through 3 voids 0 down log
0 w 24 1 at 3
0 w 32 1 down log
0 r 0 1 point 4 01
places 4
wblog: log device failed
";

// And what is printed as both devices are recovered then.
const TWO_RECOVERED: &str = "recovered 2 segments from 9 record 16 stopped id 0\n";

/// What is wrong in such a session, or in its recovery. The cache is opened by 16 calls of the log, and each of the two flushes
/// before makes a write and a sync.
fn wrong_in(alloc: Global) -> Result<Option<&'static str>, Fail> {
    let (log, backing) = devices(alloc, &FLUSHED, Which::Log, 20, Some(0))?;
    let (outcome, sink) = run(alloc, SERVE, FLUSHED.script, log, backing)?;
    if outcome.status != 6 || sink.taken() != THIRD_FAILED.as_bytes() {
        return Ok(Some("the session"));
    }
    wrong_recovered(alloc, &outcome)
}

/// What is wrong in the recovery of what a crash leaves of these devices.
fn wrong_recovered(
    alloc: Global,
    left: &Outcome<MemoryDevice, MemoryDevice>,
) -> Result<Option<&'static str>, Fail> {
    let log = left.log.crashed(alloc, &[])?;
    let backing = left.backing.crashed(alloc, &[])?;
    let (outcome, sink) = run(alloc, "recover LOG BACKING", "", log, backing)?;
    if outcome.status != 0 || sink.taken() != TWO_RECOVERED.as_bytes() {
        return Ok(Some("the recovery"));
    }
    if !is_cut(outcome.backing.bytes(), FLUSHED.writes, 2) {
        return Ok(Some("the backing image"));
    }
    Ok(None)
}

#[test]
fn a_flush_that_fails_leaves_those_that_were_done(rt: HostRuntime) -> Result<(), Fail> {
    let wrong = wrong_in(rt.alloc())?;
    assert!(rt; wrong.is_none(), "{wrong:?} is wrong");
    Ok(())
}

/// What a session calls of the log and of the backing device, and the greatest number of a flush that was done in it.
#[derive(Clone, Copy, Debug, PartialEq, Eq)]
struct Counts {
    flushed: u64,
    log: CallCounts,
    backing: CallCounts,
}

/// A script of so many writes, each of which is a segment, these requests, and one more write.
fn script_of(alloc: Global, writes: u64, requests: &str) -> Result<String, AllocError> {
    let mut script = String::from_str(alloc, "clients 1\n")?;
    for byte in 0..writes {
        writeln!(script, "0 w {byte} 1 {byte:02x}")?;
    }
    script.push_str(requests)?;
    script.push_str("0 w 63 1 ff\n")?;
    Ok(script)
}

/// What is counted in a session of such a script, over a log with more slots than it has segments.
fn counted(alloc: Global, writes: u64, requests: &str) -> Result<Counts, Fail> {
    let script = script_of(alloc, writes, requests)?;
    let log = SteadyDevice::of(empty_log(alloc, 4, 8)?);
    let log = ListingDevice::over(alloc, log, 0)?;
    let backing = SteadyDevice::of(vec![in alloc; 0x5a; BACKING_BYTES]?);
    let backing = ListingDevice::over(alloc, backing, 0)?;
    let (outcome, sink) = run(alloc, SERVE, script.as_str(), log, backing)?;
    Ok(Counts {
        flushed: flushed_in(sink.taken()),
        log: outcome.log.counts(),
        backing: outcome.backing.counts(),
    })
}

/// Whether these flushes, behind so many segments, sync the log once, and change no other count. Without them the log is synced
/// twice as the cache is opened, and twice as it is closed.
fn is_one_sync(alloc: Global, segments: u64, requests: &str) -> Result<bool, Fail> {
    let without = counted(alloc, segments, "")?;
    let wanted = Counts {
        flushed: segments,
        log: CallCounts {
            syncs: 5,
            ..without.log
        },
        ..without
    };
    Ok(
        without.flushed == 0
            && without.log.syncs == 4
            && counted(alloc, segments, requests)? == wanted,
    )
}

// One flush, and several of which those behind the first find all done.
const FLUSHES: [&str; 2] = ["0 f\n", "0 f\n0 q\n0 f\n"];

#[test]
fn a_flush_syncs_the_log_once(rt: HostRuntime) -> Result<(), Fail> {
    for requests in &FLUSHES {
        for segments in 1..7 {
            assert!(rt;
                is_one_sync(rt.alloc(), segments, requests)?,
                "at {segments} {requests}"
            );
        }
    }
    Ok(())
}
