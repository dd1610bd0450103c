//! Tests of the command `workload`. Each checksum is that of an image that a program in Python made by the rule of
//! docs/SCRIPT.md, write after write, and is computed there bit by bit.
use super::case::{FAULT, Failing, LOG_FAULT, Listed, RECORD_BYTE, listed};
use super::{BACKING_BYTES, SECTOR_BYTES, empty_log, log_of, run, words_of};
use crate::{Outcome, run_single};
use std::alloc::Global;
use std::test::Fail;
use wb_device::{DeviceCall, MemorySink, MemorySource, SteadyDevice};
use wb_geometry::Geometry;
use wb_script::Transcript;

/// The most sectors that a workload is for.
pub const MOST_SECTORS: u64 = 65_536;

/// The line of seed 7 with 5,000 requests of each client, over zeros.
pub const LARGE: &[u8] =
    b"workload seed 7 clients 4 requests 20000 writes 9920 reads 9920 flushes 160 sum 72745115\n";

/// Whether these are the transcripts of four clients with so many requests.
fn are_of_four(transcripts: &[Transcript], count: usize) -> bool {
    transcripts.len() == 4 && transcripts.iter().all(|own| own.len() == count)
}

/// The record of a log of these bytes.
fn record_of(log: &[u8]) -> Option<u64> {
    let bytes = log.get(RECORD_BYTE..RECORD_BYTE + 8)?;
    Some(u64::from_le_bytes(bytes.try_into().ok()?))
}

/// Runs the workload of [`LARGE`] over a log of 64 slots, and answers whether that is told behind more segments than it has
/// slots.
fn goes_round(alloc: Global) -> Result<bool, Fail> {
    let geometry = Geometry::new(10, 64, 4, MOST_SECTORS)?;
    let log = SteadyDevice::of(log_of(alloc, &geometry)?);
    let backing = SteadyDevice::of(vec![in alloc; 0; MOST_SECTORS as usize * SECTOR_BYTES]?);
    let (outcome, sink) = run(alloc, "workload LOG BACKING 7 5000", "", log, backing)?;
    Ok(
        outcome.status == 0
            && sink.taken() == LARGE
            && are_of_four(&outcome.transcripts, 5000)
            && record_of(outcome.log.bytes()).is_some_and(|record| record > 64 + 64),
    )
}

#[test]
fn a_workload_goes_round_the_log(rt: HostRuntime) -> Result<(), Fail> {
    assert!(rt; goes_round(rt.alloc())?);
    Ok(())
}

/// The line of seed 7 with 2 requests of each client, over 64 sectors of 5a.
const SMALL: &str =
    "workload seed 7 clients 4 requests 8 writes 4 reads 4 flushes 0 sum 35599f53\n";

/// Runs the workload of [`SMALL`] where these calls fail.
fn small(
    alloc: Global,
    log: Failing,
    backing: Failing,
    sink: Option<u64>,
) -> Result<(Outcome<Listed, Listed>, MemorySink), Fail> {
    let words = words_of(alloc, "workload LOG BACKING 7 2")?;
    let mut source = MemorySource::of(Vec::new(alloc), Some(0));
    let mut sink = MemorySink::new(alloc, sink);
    let log = listed(alloc, empty_log(alloc, 5, 4)?, log)?;
    let backing = listed(alloc, vec![in alloc; 0x5a; BACKING_BYTES]?, backing)?;
    let outcome = run_single(alloc, &words, &mut source, &mut sink, log, backing);
    Ok((outcome, sink))
}

/// Runs it, and answers whether it ends so behind its session, with this text alone.
fn ends(
    alloc: Global,
    log: Failing,
    backing: Failing,
    failing: Option<u64>,
    status: u8,
    text: &str,
) -> Result<bool, Fail> {
    let (outcome, sink) = small(alloc, log, backing, failing)?;
    Ok(
        outcome.status == status
            && sink.taken() == text.as_bytes()
            && are_of_four(&outcome.transcripts, 2),
    )
}

// Which calls of the log, of the backing device and of the sink fail, the status, and what is told. The cache is opened by 12
// calls of the log and 2 of the backing device.
const ROWS: [(Failing, Failing, Option<u64>, u8, &str); 6] = [
    (Failing::Never, Failing::Never, None, 0, SMALL),
    (Failing::Never, Failing::Never, Some(0), 5, ""),
    (Failing::From(12), Failing::Never, None, 6, LOG_FAULT),
    (Failing::From(12), Failing::Never, Some(0), 6, ""),
    (Failing::Never, Failing::From(2), None, 7, FAULT),
    (Failing::From(12), Failing::From(2), None, 6, LOG_FAULT),
];

#[test]
fn a_fault_in_a_workload_is_told_alone(rt: HostRuntime) -> Result<(), Fail> {
    for (log, backing, sink, status, text) in &ROWS {
        let holds = ends(rt.alloc(), *log, *backing, *sink, *status, text)?;
        assert!(rt;
            holds,
            "where the log fails {log:?} and the backing device {backing:?}"
        );
    }
    Ok(())
}

/// How many calls of the backing device there are where none fails, of which the last two read the image for the checksum.
fn all_calls(alloc: Global) -> Result<Option<u64>, Fail> {
    let (outcome, _) = small(alloc, Failing::Never, Failing::Never, None)?;
    let calls = outcome.backing.calls();
    let read = [
        DeviceCall::Read { at: 0, sectors: 32 },
        DeviceCall::Read {
            at: 32,
            sectors: 32,
        },
    ];
    Ok(calls.ends_with(&read).then_some(calls.len() as u64))
}

#[test]
fn a_fault_as_the_image_is_read_is_told_alone(rt: HostRuntime) -> Result<(), Fail> {
    let calls = all_calls(rt.alloc())?;
    for behind in 1..=2_u64 {
        let failing = calls.and_then(|calls| calls.checked_sub(behind));
        assert!(rt; failing.is_some());
        let backing = Failing::Once(failing.unwrap_or(0));
        assert!(rt; ends(rt.alloc(), Failing::Never, backing, None, 7, FAULT)?);
    }
    Ok(())
}
