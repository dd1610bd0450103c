//! Tests of a run whose clients are served on threads.
use super::case::{Failing, Listed, SERVE, listed};
use super::workload::{LARGE, MOST_SECTORS};
use super::{BACKING_BYTES, SECTOR_BYTES, empty_log, log_of, words_of};
use crate::{Outcome, run};
use std::alloc::{AllocError, Global};
use std::sync::Wait;
use std::test::Fail;
use std::thread::Threads;
use wb_device::{Device, MemorySink, MemorySource, SteadyDevice};
use wb_front::{Gate, Open, Point};
use wb_geometry::Geometry;
use wb_hold::{Hold, HoldRule};

/// Runs these words over these devices, with this script in a source and to a sink that don't fail, and with this gate.
fn run_on_threads<R: Threads + Wait + Sync, L: Device + Send, B: Device + Send, G: Gate + Sync>(
    rt: &R,
    alloc: Global,
    gate: &G,
    words: &str,
    script: &str,
    log: L,
    backing: B,
) -> Result<(Outcome<L, B>, MemorySink), AllocError> {
    let words = words_of(alloc, words)?;
    let mut source = MemorySource::of(Vec::from_slice(alloc, script.as_bytes())?, None);
    let mut sink = MemorySink::new(alloc, None);
    let outcome = run(
        rt,
        alloc,
        &words,
        &mut source,
        &mut sink,
        log,
        backing,
        gate,
    );
    Ok((outcome, sink))
}

/// Two clients, either of which may come first: the note orders nothing that they write.
const TWO: &str = "clients 2\n0 w 0 1 aa\n0 t 1\n1 w 0 1 bb\n1 h 0\n1 r 0 1\n";

const FIRST: &[u8] = b"0 w 0 1 at 0\n0 t 1\n1 w 0 1 at 1\n1 h 0\n1 r 0 1 point 2 bb\nplaces 2\n";

const SECOND: &[u8] = b"0 w 0 1 at 1\n0 t 1\n1 w 0 1 at 0\n1 h 0\n1 r 0 1 point 2 aa\nplaces 2\n";

/// Whether the session of [`TWO`] ends well, and prints one of its two histories.
fn prints_one_of_two<R: Threads + Wait + Sync>(rt: &R, alloc: Global) -> Result<bool, Fail> {
    let log = SteadyDevice::of(empty_log(alloc, 5, 4)?);
    let backing = SteadyDevice::of(vec![in alloc; 0x5a; BACKING_BYTES]?);
    let (outcome, sink) = run_on_threads(rt, alloc, &Open, SERVE, TWO, log, backing)?;
    let taken = sink.taken();
    Ok(outcome.status == 0 && (taken == FIRST || taken == SECOND))
}

#[test]
fn two_clients_print_one_history_of_two(rt: HostRuntime) -> Result<(), Fail> {
    let alloc = rt.alloc();
    assert!(rt; prints_one_of_two(&rt, alloc)?);
    Ok(())
}

/// Each client is held in a read, with the lock, until the other has been answered: the first until the other's first
/// answer, and the second until the other's third.
const HELD: &str = "clients 2\n0 r 0 1\n0 t 1\n0 w 0 1 aa\n1 w 8 1 bb\n1 h 0\n1 r 8 1\n";

/// The gate of [`HELD`].
fn holding(alloc: Global) -> Result<Hold, AllocError> {
    let mut rules = Vec::new(alloc);
    for (client, until, until_nth) in &[(0, 1, 1), (1, 0, 3)] {
        rules.push(HoldRule {
            client: *client,
            point: Point::InCore,
            nth: 1,
            until: *until,
            until_point: Point::Answered,
            until_nth: *until_nth,
        })?;
    }
    Hold::of(alloc, rules, 2)
}

/// Whether [`HELD`] is served with no client held for as long as it may be: so both are served at once, and a write is
/// answered while another client has the lock.
fn is_served_at_once<R: Threads + Wait + Sync>(rt: &R, alloc: Global) -> Result<bool, Fail> {
    let hold = holding(alloc)?;
    let log = SteadyDevice::of(empty_log(alloc, 5, 4)?);
    let backing = SteadyDevice::of(vec![in alloc; 0x5a; BACKING_BYTES]?);
    let (outcome, _) = run_on_threads(rt, alloc, &hold, SERVE, HELD, log, backing)?;
    let answered = (
        hold.arrivals(0, Point::Answered),
        hold.arrivals(1, Point::Answered),
    );
    let read = (
        hold.arrivals(0, Point::InCore),
        hold.arrivals(1, Point::InCore),
    );
    Ok(outcome.status == 0 && !hold.met_limit() && answered == (3, 3) && read == (1, 1))
}

#[test]
fn clients_are_served_at_once(rt: HostRuntime) -> Result<(), Fail> {
    let alloc = rt.alloc();
    assert!(rt; is_served_at_once(&rt, alloc)?);
    Ok(())
}

/// Whether the workload of [`LARGE`] is told, as of clients that are served one after another.
fn tells_the_workload<R: Threads + Wait + Sync>(rt: &R, alloc: Global) -> Result<bool, Fail> {
    let geometry = Geometry::new(10, 64, 4, MOST_SECTORS)?;
    let log = SteadyDevice::of(log_of(alloc, &geometry)?);
    let backing = SteadyDevice::of(vec![in alloc; 0; MOST_SECTORS as usize * SECTOR_BYTES]?);
    let words = "workload LOG BACKING 7 5000";
    let (outcome, sink) = run_on_threads(rt, alloc, &Open, words, "", log, backing)?;
    Ok(outcome.status == 0 && sink.taken() == LARGE)
}

#[test]
fn a_workload_on_threads_has_the_sum_of_its_writes(rt: HostRuntime) -> Result<(), Fail> {
    let alloc = rt.alloc();
    assert!(rt; tells_the_workload(&rt, alloc)?);
    Ok(())
}

/// Scripts that flush three segments one by one, and what they print where the third isn't written: of one client, and
/// of two, of which the second hears of the first.
const UNDONE: [(&str, &[u8]); 2] = [
    (
        "clients 1\n0 w 0 1 01\n0 f\n0 w 8 1 02\n0 f\n0 w 16 1 03\n0 f\n0 w 24 1 04\n0 w 32 1 05\n0 r 0 1\n",
        b"0 w 0 1 at 0\n0 f through 1 voids 0\n0 w 8 1 at 1\n0 f through 2 voids 0\n0 w 16 1 at 2\n\
0 f through 3 voids 0 down log\n0 w 24 1 at 3\n0 w 32 1 down log\n0 r 0 1 point 4 01\nplaces 4\n\
wblog: log device failed\n",
    ),
    (
        "clients 2\n0 w 0 1 01\n0 f\n0 w 8 1 02\n0 f\n0 t 1\n\
1 h 0\n1 w 16 1 03\n1 f\n1 w 24 1 04\n1 w 32 1 05\n1 r 0 1\n",
        b"0 w 0 1 at 0\n0 f through 1 voids 0\n0 w 8 1 at 1\n0 f through 2 voids 0\n0 t 1\n1 h 0\n1 w 16 1 at 2\n\
1 f through 3 voids 0 down log\n1 w 24 1 at 3\n1 w 32 1 down log\n1 r 0 1 point 4 01\nplaces 4\n\
wblog: log device failed\n",
    ),
];

/// Serves a script over a log of eight slots. The cache is opened by sixteen calls of it, each segment then takes a
/// write and a sync, and the third such write fails.
fn undone<R: Threads + Wait + Sync>(
    rt: &R,
    alloc: Global,
    script: &str,
) -> Result<(Outcome<Listed, Listed>, MemorySink), Fail> {
    let log = listed(alloc, empty_log(alloc, 4, 8)?, Failing::Once(20))?;
    let backing = listed(alloc, vec![in alloc; 0x5a; BACKING_BYTES]?, Failing::Never)?;
    Ok(run_on_threads(rt, alloc, &Open, SERVE, script, log, backing)?)
}

const RECOVERED: &[u8] = b"recovered 2 segments from 9 record 16 stopped id 0\n";

/// Whether a script prints this, and a recovery then puts the two segments that were flushed.
fn leaves_two<R: Threads + Wait + Sync>(
    rt: &R,
    alloc: Global,
    script: &str,
    text: &[u8],
) -> Result<bool, Fail> {
    let (served, told) = undone(rt, alloc, script)?;
    if served.status != 6 || told.taken() != text {
        return Ok(false);
    }
    let words = "recover LOG BACKING";
    let (left, told) = run_on_threads(rt, alloc, &Open, words, "", served.log, served.backing)?;
    Ok(left.status == 0 && told.taken() == RECOVERED && has_two(left.backing.inner().bytes()))
}

/// Whether sectors 0 and 8 have the first two writes, and all others what was there.
fn has_two(backing: &[u8]) -> bool {
    backing.chunks_exact(SECTOR_BYTES).enumerate().all(|(at, sector)| {
        let byte = match at {
            0 => 1,
            8 => 2,
            _ => 0x5a,
        };
        sector.iter().all(|found| *found == byte)
    })
}

#[test]
fn what_was_flushed_before_a_fault_is_recovered(rt: HostRuntime) -> Result<(), Fail> {
    let alloc = rt.alloc();
    for (script, text) in &UNDONE {
        assert!(rt; leaves_two(&rt, alloc, script, text)?, "{script}");
    }
    Ok(())
}
