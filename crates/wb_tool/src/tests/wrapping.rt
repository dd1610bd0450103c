//! Tests of a session whose writes go round the log, over devices of which each call fails in turn.
use super::case::Call::{self, Read, Sync, Write};
use super::case::{Calls, Case, FAULT, Failing, LOG_FAULT, Output, SERVE, comes};
use std::alloc::{AllocError, Global};
use std::process::Abort;
use std::test::Fail;

const SCRIPT: &str = "\
clients 1
0 w 0 1 01
0 w 8 1 02
0 w 1 1 03
0 r 0 1
0 w 16 1 04
0 w 0 1 05
0 r 8 1
0 w 24 1 06
0 r 16 1
0 r 1 1
0 r 0 1
0 r 24 1
0 w 32 1 07
0 r 16 1
";

// Its requests: a sector, and the byte with which it is filled, or none where it is read. A segment has one place, two
// segments are kept in memory, and the log has two slots.
const REQUESTS: [(usize, Option<u8>); 14] = [
    (0, Some(1)),
    (8, Some(2)),
    (1, Some(3)),
    (0, None),
    (16, Some(4)),
    (0, Some(5)),
    (8, None),
    (24, Some(6)),
    (16, None),
    (1, None),
    (0, None),
    (24, None),
    (32, Some(7)),
    (16, None),
];

// The writes among them.
const WRITES: [(usize, u8); 7] = [(0, 1), (8, 2), (1, 3), (16, 4), (0, 5), (24, 6), (32, 7)];

// What is called of the log where nothing fails. Two segments are written back in a batch, of which the first is on the lower
// block, and the last one by itself.
const LOG_CALLS: [Call; 39] = [
    // the cache is opened
    Read(0, 1),
    Read(2047, 1),
    Read(0, 1),
    Read(2047, 1),
    Sync,
    Read(2048, 1),
    Read(2064, 1),
    Read(2048, 16),
    Write(2047, 1),
    Sync,
    // the session
    Write(2048, 16),
    Read(2056, 1),
    Write(2064, 16),
    Sync,
    Read(2056, 8),
    Read(2072, 8),
    Write(2047, 1),
    Sync,
    Write(2048, 16),
    Write(2064, 16),
    Read(2072, 1),
    Read(2057, 1),
    Sync,
    Read(2056, 8),
    Read(2072, 8),
    Write(2047, 1),
    Sync,
    Write(2048, 16),
    // the cache is closed
    Write(2064, 16),
    Sync,
    Read(2056, 8),
    Read(2072, 8),
    Write(2047, 1),
    Sync,
    Write(2048, 16),
    Sync,
    Read(2056, 8),
    Write(2047, 1),
    Sync,
];

// How many of them open the cache.
const OPENING: usize = 10;

// And of the backing device.
const BACKING_CALLS: [Call; 15] = [
    // the cache is opened
    Sync,
    Sync,
    // the session
    Write(0, 1),
    Write(8, 1),
    Sync,
    Read(8, 1),
    Write(1, 1),
    Write(16, 1),
    Sync,
    Read(16, 1),
    // the cache is closed
    Write(0, 1),
    Write(24, 1),
    Sync,
    Write(32, 1),
    Sync,
];

// How many of these open the cache.
const BACKING_OPENING: usize = 2;

/// A call of a session: where a request reads by it, its number; how many places are taken where the device fails from here
/// on; how many of them are in the backing image where this call alone fails, and the record then.
type Row = (Option<usize>, usize, usize, u64);

// The calls of the log in the session.
const LOG_ROWS: [Row; 29] = [
    (None, 2, 0, 2), // Write(2048, 16)
    (Some(3), 3, 7, 9), // Read(2056, 1)
    (None, 3, 0, 2), // Write(2064, 16)
    (None, 4, 0, 2), // Sync
    (None, 4, 0, 2), // Read(2056, 8)
    (None, 4, 0, 2), // Read(2072, 8)
    (None, 4, 2, 2), // Write(2047, 1)
    (None, 4, 2, 4), // Sync
    (None, 4, 2, 4), // Write(2048, 16)
    (None, 5, 2, 4), // Write(2064, 16)
    (Some(8), 6, 7, 9), // Read(2072, 1)
    (Some(9), 6, 7, 9), // Read(2057, 1)
    (None, 6, 2, 4), // Sync
    (None, 6, 2, 4), // Read(2056, 8)
    (None, 6, 2, 4), // Read(2072, 8)
    (None, 6, 4, 4), // Write(2047, 1)
    (None, 6, 4, 6), // Sync
    (None, 6, 4, 6), // Write(2048, 16)
    // the cache is closed
    (None, 7, 4, 6), // Write(2064, 16)
    (None, 7, 4, 6), // Sync
    (None, 7, 4, 6), // Read(2056, 8)
    (None, 7, 4, 6), // Read(2072, 8)
    (None, 7, 6, 6), // Write(2047, 1)
    (None, 7, 6, 8), // Sync
    (None, 7, 6, 8), // Write(2048, 16)
    (None, 7, 6, 8), // Sync
    (None, 7, 6, 8), // Read(2056, 8)
    (None, 7, 7, 8), // Write(2047, 1)
    (None, 7, 7, 9), // Sync
];

// The calls of the backing device in the session.
const BACKING_ROWS: [Row; 13] = [
    (None, 4, 0, 2), // Write(0, 1)
    (None, 4, 1, 2), // Write(8, 1)
    (None, 4, 2, 2), // Sync
    (Some(6), 6, 7, 9), // Read(8, 1)
    (None, 6, 2, 4), // Write(1, 1)
    (None, 6, 3, 4), // Write(16, 1)
    (None, 6, 4, 4), // Sync
    (Some(13), 7, 7, 9), // Read(16, 1)
    // the cache is closed
    (None, 7, 4, 6), // Write(0, 1)
    (None, 7, 5, 6), // Write(24, 1)
    (None, 7, 6, 6), // Sync
    (None, 7, 6, 8), // Write(32, 1)
    (None, 7, 7, 8), // Sync
];

/// The answers by a plain array, where so many places can be taken before the device is down by which a later write is
/// stopped, and where the request of this number, which is a read, fails on it.
fn answers(
    alloc: Global,
    device: &str,
    room: usize,
    failing: Option<usize>,
) -> Result<String, AllocError> {
    let mut bytes = [0x5a; 64];
    let mut taken: usize = 0;
    let mut answers = String::new(alloc);
    for (number, (sector, byte)) in REQUESTS.iter().enumerate() {
        if let Some(byte) = byte {
            if taken >= room {
                writeln!(answers, "0 w {sector} 1 down {device}")?;
                continue;
            }
            writeln!(answers, "0 w {sector} 1 at {taken}")?;
            taken = taken.saturating_add(1);
            if let Some(place) = bytes.get_mut(*sector) {
                *place = *byte;
            }
        } else if failing == Some(number) {
            writeln!(answers, "0 r {sector} 1 fault {device}")?;
        } else if let Some(byte) = bytes.get(*sector) {
            writeln!(answers, "0 r {sector} 1 point {taken} {byte:02x}")?;
        }
    }
    writeln!(answers, "places {taken}")?;
    Ok(answers)
}

/// A session of the script in which so many places are taken.
fn session<'a>(places: usize, status: u8, output: Output<'a>) -> Case<'a> {
    Case {
        words: SERVE,
        script: SCRIPT,
        order: 4,
        slots: 2,
        log: Failing::Never,
        backing: Failing::Never,
        status,
        output,
        lines: REQUESTS.len(),
        places: places as u64,
        log_calls: None,
        backing_calls: None,
        writes: &WRITES,
        put: None,
        recorded: None,
    }
}

/// All calls of a list.
fn all_of(of: &[Call]) -> Option<Calls> {
    Some(Calls {
        of,
        count: of.len(),
        reads_behind: false,
    })
}

/// The calls of a device of which this one alone fails: up to that one, and behind it reads alone; or where a request reads by
/// it, all of them.
fn calls_at(of: &[Call], failing: usize, read: Option<usize>) -> Option<Calls> {
    if read.is_some() {
        return all_of(of);
    }
    Some(Calls {
        of,
        count: failing.saturating_add(1),
        reads_behind: true,
    })
}

/// The places that are taken where a call alone fails. By a failed read of a request the device isn't down.
fn room_of(read: Option<usize>, room: usize) -> usize {
    if read.is_some() { WRITES.len() } else { room }
}

#[test]
fn a_session_goes_round_the_log(rt: HostRuntime) -> Result<(), Fail> {
    let answers = answers(rt.alloc(), "", WRITES.len(), None)?;
    let output = [answers.as_str()];
    let case = Case {
        log_calls: all_of(&LOG_CALLS),
        backing_calls: all_of(&BACKING_CALLS),
        put: Some(WRITES.len()),
        recorded: Some(9),
        ..session(WRITES.len(), 0, Output::Exactly(&output))
    };
    comes(&rt, rt.alloc(), &case)
}

#[test]
fn each_call_of_the_log_fails_in_turn(rt: HostRuntime) -> Result<(), Fail> {
    for (number, row) in LOG_ROWS.iter().enumerate() {
        log_fails(&rt, rt.alloc(), number.saturating_add(OPENING), row)?;
    }
    Ok(())
}

/// The call of this number of the log fails.
fn log_fails(rt: &impl Abort, alloc: Global, failing: usize, row: &Row) -> Result<(), Fail> {
    let (read, room, put, recorded) = *row;
    let places = room_of(read, room);
    let answers = answers(alloc, "log", places, read)?;
    let output = [answers.as_str(), LOG_FAULT];
    let case = Case {
        log: Failing::Once(failing as u64),
        log_calls: calls_at(&LOG_CALLS, failing, read),
        put: Some(put),
        recorded: Some(recorded),
        ..session(places, 6, Output::Exactly(&output))
    };
    comes(rt, alloc, &case)
}

#[test]
fn each_call_of_the_backing_device_fails_in_turn(rt: HostRuntime) -> Result<(), Fail> {
    for (number, row) in BACKING_ROWS.iter().enumerate() {
        backing_fails(&rt, rt.alloc(), number.saturating_add(BACKING_OPENING), row)?;
    }
    Ok(())
}

/// The call of this number of the backing device fails.
fn backing_fails(rt: &impl Abort, alloc: Global, failing: usize, row: &Row) -> Result<(), Fail> {
    let (read, room, put, recorded) = *row;
    let places = room_of(read, room);
    let answers = answers(alloc, "backing", places, read)?;
    let output = [answers.as_str(), FAULT];
    let case = Case {
        backing: Failing::Once(failing as u64),
        backing_calls: calls_at(&BACKING_CALLS, failing, read),
        put: Some(put),
        recorded: Some(recorded),
        ..session(places, 7, Output::Exactly(&output))
    };
    comes(rt, alloc, &case)
}

#[test]
fn a_log_that_stops_shows_no_wrong_bytes(rt: HostRuntime) -> Result<(), Fail> {
    for (number, row) in LOG_ROWS.iter().enumerate() {
        log_stops(&rt, rt.alloc(), number.saturating_add(OPENING), row)?;
    }
    Ok(())
}

/// The log stops at the call of this number. A segment is one write of the backing device, so as many of the writes are put
/// as were called of it.
fn log_stops(rt: &impl Abort, alloc: Global, failing: usize, row: &Row) -> Result<(), Fail> {
    let room = row.1;
    let answers = answers(alloc, "log", room, None)?;
    let lines = [answers.as_str(), LOG_FAULT];
    let case = Case {
        log: Failing::InPart(failing as u64),
        ..session(room, 6, Output::UnlessUnread(&lines, "log"))
    };
    comes(rt, alloc, &case)
}

#[test]
fn a_backing_device_that_stops_shows_no_wrong_bytes(rt: HostRuntime) -> Result<(), Fail> {
    for (number, row) in BACKING_ROWS.iter().enumerate() {
        backing_stops(&rt, rt.alloc(), number.saturating_add(BACKING_OPENING), row)?;
    }
    Ok(())
}

/// The backing device stops at the call of this number. What it writes by that call is put still.
fn backing_stops(rt: &impl Abort, alloc: Global, failing: usize, row: &Row) -> Result<(), Fail> {
    let room = row.1;
    let answers = answers(alloc, "backing", room, None)?;
    let lines = [answers.as_str(), FAULT];
    let case = Case {
        backing: Failing::InPart(failing as u64),
        put: Some(writes_through(failing)),
        ..session(room, 7, Output::UnlessUnread(&lines, "backing"))
    };
    comes(rt, alloc, &case)
}

/// How many calls of the backing device are writes, up to this one.
fn writes_through(call: usize) -> usize {
    let calls = BACKING_CALLS.iter().take(call.saturating_add(1));
    calls.filter(|call| matches!(call, Write(..))).count()
}
