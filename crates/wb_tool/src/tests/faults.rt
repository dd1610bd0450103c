//! Tests of devices of which each call fails in turn.
use super::case::Call::{self, Read, Sync, Write};
use super::case::{Calls, Case, FAULT, Failing, LOG_FAULT, Output, SERVE, comes};
use std::test::Fail;

const SCRIPT: &str = "\
clients 1
0 r 3 1
0 w 0 1 aa
0 r 0 1
0 r 5 1
0 w 8 1 bb
";

// Its writes.
const WRITES: [(usize, u8); 2] = [(0, 0xaa), (8, 0xbb)];

// What is answered, in pieces: the two reads of what the backing device alone has, and what stands between and behind them.
const THIRD: &str = "0 r 3 1 point 0 5a\n";

const THIRD_FAILED: &str = "0 r 3 1 fault backing\n";

const BETWEEN: &str = "0 w 0 1 at 0\n0 r 0 1 point 1 aa\n";

const FIFTH: &str = "0 r 5 1 point 1 5a\n";

const FIFTH_FAILED: &str = "0 r 5 1 fault backing\n";

const BEHIND: &str = "0 w 8 1 at 1\nplaces 2\n";

// What the script calls, where nothing fails: two syncs as the cache is opened, and then the device is only read for sectors
// that it has alone.
const CALLS: [Call; 7] = [
    Sync,
    Sync,
    Read(3, 1),
    Read(5, 1),
    Write(0, 1),
    Write(8, 1),
    Sync,
];

// And of the log: the superblock and the record, and both again, a sync, the ids of the slots, the slot of segment 1, which
// isn't there, and the record, as the cache is opened; and as it is closed, a segment, which is then read, block by block, and
// the record.
const LOG_CALLS: [Call; 18] = [
    Read(0, 1),
    Read(2047, 1),
    Read(0, 1),
    Read(2047, 1),
    Sync,
    Read(2048, 1),
    Read(2080, 1),
    Read(2112, 1),
    Read(2144, 1),
    Read(2048, 32),
    Write(2047, 1),
    Sync,
    Write(2048, 24),
    Sync,
    Read(2056, 8),
    Read(2064, 8),
    Write(2047, 1),
    Sync,
];

/// A session of the script over a log of four slots, with these calls of the devices.
fn session<'a>(
    log_calls: Option<Calls<'a>>,
    backing_calls: Option<Calls<'a>>,
    output: &'a [&'a str],
) -> Case<'a> {
    Case {
        words: SERVE,
        script: SCRIPT,
        order: 5,
        slots: 4,
        log: Failing::Never,
        backing: Failing::Never,
        status: 0,
        output: Output::Exactly(output),
        lines: 0,
        places: 0,
        log_calls,
        backing_calls,
        writes: &WRITES,
        put: Some(0),
        recorded: Some(0),
    }
}

/// So many calls of a list, and none behind them.
fn exactly(of: &[Call], count: usize) -> Option<Calls> {
    Some(Calls {
        of,
        count,
        reads_behind: false,
    })
}

// The failing call, the calls that are made of the device and of the log, the answers to the reads of sectors 3 and 5, what
// is printed last, the writes that are put, the record, and the status.
const BACKING_ROWS: [(Failing, usize, usize, &str, &str, &str, usize, u64, u8); 6] = [
    (Failing::Never, 7, 18, THIRD, FIFTH, "", 2, 5, 0),
    (Failing::Once(2), 7, 18, THIRD_FAILED, FIFTH, FAULT, 2, 5, 7),
    (Failing::Once(3), 7, 18, THIRD, FIFTH_FAILED, FAULT, 2, 5, 7),
    (Failing::Once(4), 5, 16, THIRD, FIFTH, FAULT, 0, 4, 7),
    (Failing::Once(5), 6, 16, THIRD, FIFTH, FAULT, 1, 4, 7),
    (Failing::Once(6), 7, 16, THIRD, FIFTH, FAULT, 2, 4, 7),
];

#[test]
fn each_call_of_the_backing_device_fails_in_turn(rt: HostRuntime) -> Result<(), Fail> {
    for (backing, calls, log_calls, third, fifth, last, put, recorded, status) in &BACKING_ROWS {
        let output = [*third, BETWEEN, *fifth, BEHIND, *last];
        let (log_calls, calls) = (exactly(&LOG_CALLS, *log_calls), exactly(&CALLS, *calls));
        let case = Case {
            backing: *backing,
            status: *status,
            lines: 5,
            places: 2,
            put: Some(*put),
            recorded: Some(*recorded),
            ..session(log_calls, calls, &output)
        };
        comes(&rt, rt.alloc(), &case)?;
    }
    Ok(())
}

// The calls that are made of the backing device, the writes that are put, and the record, where a call of the log fails in a
// session. It is the call of number 12 in the first row.
const LOG_ROWS: [(usize, usize, u64); 6] = [
    (4, 0, 4),
    (4, 0, 4),
    (4, 0, 4),
    (4, 0, 4),
    (7, 2, 4),
    (7, 2, 5),
];

#[test]
fn each_call_of_the_log_in_a_session_fails_in_turn(rt: HostRuntime) -> Result<(), Fail> {
    let output = [THIRD, BETWEEN, FIFTH, BEHIND, LOG_FAULT];
    for (number, (calls, put, recorded)) in LOG_ROWS.iter().enumerate() {
        let failing = number.saturating_add(12);
        let log_calls = exactly(&LOG_CALLS, failing.saturating_add(1));
        let calls = exactly(&CALLS, *calls);
        let case = Case {
            log: Failing::Once(failing as u64),
            status: 6,
            lines: 5,
            places: 2,
            put: Some(*put),
            recorded: Some(*recorded),
            ..session(log_calls, calls, &output)
        };
        comes(&rt, rt.alloc(), &case)?;
    }
    Ok(())
}

// The calls of the log and of the backing device that fail as the cache is opened, how many calls are made of each, what is
// printed, the status, and the record.
const OPENING_ROWS: [(Failing, Failing, usize, usize, &str, u8, u64); 14] = [
    (Failing::Once(0), Failing::Never, 1, 0, LOG_FAULT, 6, 0),
    (Failing::Once(1), Failing::Never, 2, 0, LOG_FAULT, 6, 0),
    (Failing::Once(2), Failing::Never, 3, 0, LOG_FAULT, 6, 0),
    (Failing::Once(3), Failing::Never, 4, 0, LOG_FAULT, 6, 0),
    (Failing::Once(4), Failing::Never, 5, 0, LOG_FAULT, 6, 0),
    (Failing::Never, Failing::Once(0), 5, 1, FAULT, 7, 0),
    (Failing::Once(5), Failing::Never, 6, 1, LOG_FAULT, 6, 0),
    (Failing::Once(6), Failing::Never, 7, 1, LOG_FAULT, 6, 0),
    (Failing::Once(7), Failing::Never, 8, 1, LOG_FAULT, 6, 0),
    (Failing::Once(8), Failing::Never, 9, 1, LOG_FAULT, 6, 0),
    (Failing::Once(9), Failing::Never, 10, 1, LOG_FAULT, 6, 0),
    (Failing::Never, Failing::Once(1), 10, 2, FAULT, 7, 0),
    (Failing::Once(10), Failing::Never, 11, 2, LOG_FAULT, 6, 0),
    (Failing::Once(11), Failing::Never, 12, 2, LOG_FAULT, 6, 4),
];

#[test]
fn no_session_begins_where_a_call_fails_before(rt: HostRuntime) -> Result<(), Fail> {
    for (log, backing, log_calls, calls, printed, status, recorded) in &OPENING_ROWS {
        let output = [*printed];
        let (log_calls, calls) = (exactly(&LOG_CALLS, *log_calls), exactly(&CALLS, *calls));
        let case = Case {
            log: *log,
            backing: *backing,
            status: *status,
            recorded: Some(*recorded),
            ..session(log_calls, calls, &output)
        };
        comes(&rt, rt.alloc(), &case)?;
    }
    Ok(())
}

// The words, and the call that fails.
const INSPECT_ROWS: [(&str, usize); 5] = [
    ("inspect LOG BACKING", 0),
    ("inspect LOG BACKING", 1),
    ("inspect LOG BACKING 0", 0),
    ("inspect LOG BACKING 0", 1),
    ("inspect LOG BACKING 0", 2),
];

// What is called as a slot is inspected.
const INSPECT_CALLS: [Call; 3] = [Read(0, 1), Read(2047, 1), Read(2048, 32)];

/// A run of these words in which this call of the log fails.
fn inspecting<'a>(words: &'a str, failing: usize, output: &'a [&'a str]) -> Case<'a> {
    let log_calls = exactly(&INSPECT_CALLS, failing.saturating_add(1));
    let calls = exactly(&CALLS, 0);
    Case {
        words,
        log: Failing::Once(failing as u64),
        status: 6,
        ..session(log_calls, calls, output)
    }
}

#[test]
fn each_call_of_an_inspected_log_fails_in_turn(rt: HostRuntime) -> Result<(), Fail> {
    for (words, failing) in &INSPECT_ROWS {
        let output = [LOG_FAULT];
        comes(&rt, rt.alloc(), &inspecting(words, *failing, &output))?;
    }
    Ok(())
}

const TWO: &str = "clients 1\n0 r 5 1\n0 w 0 1 aa\n";

const READ: &str = "0 r 5 1 point 0 5a\n0 w 0 1 at 0\nplaces 1\n";

const UNREAD: &str = "0 r 5 1 fault backing\n0 w 0 1 at 0\nplaces 1\n";

// The calls from which on the log and the backing device fail, what is printed before the fault, which of them it names, and
// the record. Where a session begins and the log fails in it too, the log is named.
const STOPS: [(Failing, Failing, &str, &str, u8, u64); 12] = [
    (Failing::Never, Failing::From(0), "", FAULT, 7, 0),
    (Failing::From(4), Failing::From(0), "", LOG_FAULT, 6, 0),
    (Failing::From(5), Failing::From(0), "", FAULT, 7, 0),
    (Failing::From(8), Failing::From(1), "", LOG_FAULT, 6, 0),
    (Failing::From(9), Failing::From(1), "", LOG_FAULT, 6, 0),
    (Failing::From(10), Failing::From(1), "", FAULT, 7, 0),
    (Failing::From(11), Failing::From(2), "", LOG_FAULT, 6, 4),
    (Failing::From(12), Failing::Never, READ, LOG_FAULT, 6, 4),
    (Failing::From(12), Failing::From(2), UNREAD, LOG_FAULT, 6, 4),
    (Failing::Never, Failing::From(2), UNREAD, FAULT, 7, 4),
    (Failing::Never, Failing::From(3), READ, FAULT, 7, 4),
    (Failing::From(15), Failing::From(3), READ, FAULT, 7, 4),
];

#[test]
fn devices_that_stop_end_the_session(rt: HostRuntime) -> Result<(), Fail> {
    for (log, backing, served, fault, status, recorded) in &STOPS {
        let began = !served.is_empty();
        let output = [*served, *fault];
        let case = Case {
            script: TWO,
            log: *log,
            backing: *backing,
            status: *status,
            lines: if began { 2 } else { 0 },
            places: u64::from(began),
            recorded: Some(*recorded),
            ..session(None, None, &output)
        };
        comes(&rt, rt.alloc(), &case)?;
    }
    Ok(())
}

const FIVE: &str = "\
clients 1
0 w 0 1 01
0 w 8 1 02
0 w 16 1 03
0 w 24 1 04
0 w 32 1 05
0 r 0 1
0 r 8 1
0 r 24 1
0 r 32 1
";

// Segments have one place: two are kept in memory, and the log has two slots. The device is first written when all are full.
const NO_BACKING: &str = "\
0 w 0 1 at 0
0 w 8 1 at 1
0 w 16 1 at 2
0 w 24 1 at 3
0 w 32 1 down backing
0 r 0 1 point 4 01
0 r 8 1 point 4 02
0 r 24 1 point 4 04
0 r 32 1 fault backing
places 4
wblog: backing device failed
";

// The log fails in its first segment, in its second, and in the sync behind them.
const NO_SLOT: &str = "\
0 w 0 1 at 0
0 w 8 1 at 1
0 w 16 1 down log
0 w 24 1 down log
0 w 32 1 down log
0 r 0 1 point 2 01
0 r 8 1 point 2 02
0 r 24 1 point 2 5a
0 r 32 1 point 2 5a
places 2
wblog: log device failed
";

const ONE_SLOT: &str = "\
0 w 0 1 at 0
0 w 8 1 at 1
0 w 16 1 at 2
0 w 24 1 down log
0 w 32 1 down log
0 r 0 1 fault log
0 r 8 1 point 3 02
0 r 24 1 point 3 5a
0 r 32 1 point 3 5a
places 3
wblog: log device failed
";

const NO_SYNC: &str = "\
0 w 0 1 at 0
0 w 8 1 at 1
0 w 16 1 at 2
0 w 24 1 at 3
0 w 32 1 down log
0 r 0 1 fault log
0 r 8 1 fault log
0 r 24 1 point 4 04
0 r 32 1 point 4 5a
places 4
wblog: log device failed
";

// The third write of a segment fails, and nothing else: what is in the log is still read.
const NO_THIRD: &str = "\
0 w 0 1 at 0
0 w 8 1 at 1
0 w 16 1 at 2
0 w 24 1 at 3
0 w 32 1 down log
0 r 0 1 point 4 01
0 r 8 1 point 4 02
0 r 24 1 point 4 04
0 r 32 1 point 4 5a
places 4
wblog: log device failed
";

// The slots of the log, the calls of it and of the backing device that fail, the status, what is printed, and the places. The
// cache is opened by eight calls of the log and one for each slot, and by two of the backing device. The record then is the
// number of slots, and stays so.
const FULL: [(u32, Failing, Failing, u8, &str, u64); 5] = [
    (2, Failing::Never, Failing::From(2), 7, NO_BACKING, 4),
    (2, Failing::From(10), Failing::Never, 6, NO_SLOT, 2),
    (2, Failing::From(11), Failing::Never, 6, ONE_SLOT, 3),
    (2, Failing::From(12), Failing::Never, 6, NO_SYNC, 4),
    (8, Failing::Once(18), Failing::Never, 6, NO_THIRD, 4),
];

#[test]
fn a_write_that_finds_no_room_is_stopped(rt: HostRuntime) -> Result<(), Fail> {
    for (slots, log, backing, status, printed, places) in &FULL {
        let output = [*printed];
        let case = Case {
            script: FIVE,
            order: 4,
            slots: *slots,
            log: *log,
            backing: *backing,
            status: *status,
            lines: 9,
            places: *places,
            recorded: Some(u64::from(*slots)),
            ..session(None, None, &output)
        };
        comes(&rt, rt.alloc(), &case)?;
    }
    Ok(())
}
