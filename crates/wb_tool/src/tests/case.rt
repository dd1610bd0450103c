//! A run over devices of which calls fail, and what must come of it.
use super::{BACKING_BYTES, SECTOR_BYTES, empty_log, run};
use crate::Outcome;
use std::alloc::{AllocError, Global};
use std::process::Abort;
use std::str;
use std::test::Fail;
use wb_device::{DeviceCall, FaultPlan, ListingDevice, MemoryDevice, PlannedFault};
use wb_script::Transcript;

/// A device that lists its calls and fails as planned.
pub type Listed = ListingDevice<MemoryDevice>;

/// The calls that a device has room to list.
const ROOM: usize = 256;

/// The first byte of the record.
pub const RECORD_BYTE: usize = 2047 * SECTOR_BYTES;

/// The words of a session.
pub const SERVE: &str = "serve LOG BACKING";

/// What is printed last where the backing device failed.
pub const FAULT: &str = "wblog: backing device failed\n";

/// What is printed last where the log failed.
pub const LOG_FAULT: &str = "wblog: log device failed\n";

/// Which calls of a device fail, of those numbered from 0.
#[derive(Clone, Copy, Debug)]
pub enum Failing {
    Never,
    /// This one alone, and it does nothing.
    Once(u64),
    /// This one and each behind it, and they do nothing.
    From(u64),
    /// This one and each behind it. If this one is a write, it stores one sector.
    InPart(u64),
}

/// What is printed.
#[derive(Clone, Copy)]
pub enum Output<'a> {
    /// These texts, one behind the other.
    Exactly(&'a [&'a str]),
    /// The lines of these texts; but an answer to a read may also say that this device failed in it.
    UnlessUnread(&'a [&'a str], &'a str),
}

/// A call of a device: of a read and a write the first sector, and how many.
#[derive(Clone, Copy)]
pub enum Call {
    Read(u64, u64),
    Write(u64, u64),
    Sync,
}

/// The calls that a device gets: so many of a list, from its first on.
#[derive(Clone, Copy)]
pub struct Calls<'a> {
    pub of: &'a [Call],
    pub count: usize,
    /// Whether reads may come behind them.
    pub reads_behind: bool,
}

/// A run, and what must come of it.
#[derive(Clone, Copy)]
pub struct Case<'a> {
    pub words: &'a str,
    pub script: &'a str,
    /// The log has so many slots of this order.
    pub order: u32,
    pub slots: u32,
    pub log: Failing,
    pub backing: Failing,
    pub status: u8,
    pub output: Output<'a>,
    /// The lines of the transcript; at 0 there is no transcript.
    pub lines: usize,
    pub places: u64,
    /// The calls of each device, where they are looked at.
    pub log_calls: Option<Calls<'a>>,
    pub backing_calls: Option<Calls<'a>>,
    /// The writes of the script, each a sector and its byte, and how many of them are put in the end: as many as writes of
    /// the backing device were called, where no number is said.
    pub writes: &'a [(usize, u8)],
    pub put: Option<usize>,
    pub recorded: Option<u64>,
}

/// Runs a case, and looks whether all came of it that must.
pub fn comes(rt: &impl Abort, alloc: Global, case: &Case) -> Result<(), Fail> {
    let wrong = wrong_in(alloc, case)?;
    assert!(rt;
        wrong.is_none(),
        "{wrong:?} is wrong, where the log fails {:?} and the backing device {:?}",
        case.log,
        case.backing
    );
    Ok(())
}

/// Runs a case, and answers what is wrong then.
fn wrong_in(alloc: Global, case: &Case) -> Result<Option<&'static str>, Fail> {
    let log = listed(alloc, empty_log(alloc, case.order, case.slots)?, case.log)?;
    let backing = listed(alloc, vec![in alloc; 0x5a; BACKING_BYTES]?, case.backing)?;
    let (outcome, sink) = run(alloc, case.words, case.script, log, backing)?;
    Ok(wrong_outcome(case, &outcome, sink.taken()))
}

/// A device of these bytes.
pub fn listed(alloc: Global, bytes: Vec<u8>, failing: Failing) -> Result<Listed, AllocError> {
    let device = MemoryDevice::of(alloc, bytes, plan_of(alloc, failing)?)?;
    ListingDevice::over(alloc, device, ROOM)
}

/// The plan by which a device fails so.
fn plan_of(alloc: Global, failing: Failing) -> Result<FaultPlan, AllocError> {
    let (faults, stop) = match failing {
        Failing::Never => (Vec::new(alloc), None),
        Failing::Once(call) => (vec![in alloc; PlannedFault { call, sectors: 0 }]?, None),
        Failing::From(call) => (Vec::new(alloc), Some(call)),
        Failing::InPart(call) => (
            vec![in alloc; PlannedFault { call, sectors: 1 }]?,
            Some(call.saturating_add(1)),
        ),
    };
    Ok(FaultPlan { faults, stop })
}

/// What is wrong in the end of a run that printed this.
fn wrong_outcome(
    case: &Case,
    outcome: &Outcome<Listed, Listed>,
    printed: &[u8],
) -> Option<&'static str> {
    if outcome.status != case.status {
        return Some("the status");
    }
    if !is_output(printed, case.output) {
        return Some("the output");
    }
    if outcome.places != case.places || !are_transcripts(&outcome.transcripts, case.lines) {
        return Some("the transcript");
    }
    wrong_devices(case, &outcome.log, &outcome.backing)
}

/// What is wrong in the calls and the contents of the devices.
fn wrong_devices(case: &Case, log: &Listed, backing: &Listed) -> Option<&'static str> {
    if !are_calls(log.calls(), case.log_calls) {
        return Some("the calls of the log");
    }
    if !are_calls(backing.calls(), case.backing_calls) {
        return Some("the calls of the backing device");
    }
    let put = match case.put {
        Some(put) => put,
        None => backing.counts().writes as usize,
    };
    if !is_image(backing.inner().bytes(), case.writes, put) {
        return Some("the backing image");
    }
    if !has_record(log.inner().bytes(), case.recorded) {
        return Some("the record");
    }
    None
}

/// Whether these are one transcript of so many lines, or none where there are to be no lines.
fn are_transcripts(transcripts: &[Transcript], lines: usize) -> bool {
    match transcripts {
        [] => lines == 0,
        [one] => lines > 0 && one.len() == lines,
        _ => false,
    }
}

/// Whether this is printed.
fn is_output(printed: &[u8], output: Output) -> bool {
    match output {
        Output::Exactly(texts) => are_texts(printed, texts),
        Output::UnlessUnread(texts, device) => match str::from_utf8(printed) {
            Ok(printed) => are_lines(printed, texts, device),
            Err(_) => false,
        },
    }
}

/// Whether bytes are these texts, one behind the other.
fn are_texts(bytes: &[u8], texts: &[&str]) -> bool {
    let mut left = bytes;
    for text in texts {
        match left.strip_prefix(text.as_bytes()) {
            Some(behind) => left = behind,
            None => return false,
        }
    }
    left.is_empty()
}

/// Whether the lines are those of these texts, or where a read is wanted say that it failed.
fn are_lines(found: &str, texts: &[&str], device: &str) -> bool {
    let mut lines = found.lines();
    for text in texts {
        let are_wanted = text.lines().all(|wanted| match lines.next() {
            Some(line) => line == wanted || is_failed_read(line, wanted, device),
            None => false,
        });
        if !are_wanted {
            return false;
        }
    }
    lines.next().is_none()
}

/// Whether a line says that the read failed for which the other one was wanted.
fn is_failed_read(found: &str, wanted: &str, device: &str) -> bool {
    let (Some((read, why)), Some((wanted, _))) = (
        found.split_once(" fault "),
        wanted.split_once(" point "),
    ) else {
        return false;
    };
    read == wanted && why == device
}

/// Whether a device got these calls.
fn are_calls(found: &[DeviceCall], wanted: Option<Calls>) -> bool {
    let Some(calls) = wanted else {
        return true;
    };
    let (Some(front), Some(wanted)) = (found.get(..calls.count), calls.of.get(..calls.count)) else {
        return false;
    };
    let mut behind = found.iter().skip(calls.count);
    front
        .iter()
        .zip(wanted)
        .all(|(found, wanted)| is_call(found, wanted))
        && behind.all(|call| calls.reads_behind && matches!(call, DeviceCall::Read { .. }))
}

/// Whether a call is this one.
fn is_call(found: &DeviceCall, wanted: &Call) -> bool {
    match (*found, *wanted) {
        (DeviceCall::Read { at, sectors }, Call::Read(first, count)) => at == first
            && sectors == count,
        (DeviceCall::Write { at, sectors }, Call::Write(first, count)) => at == first
            && sectors == count,
        (DeviceCall::Sync, Call::Sync) => true,
        _ => false,
    }
}

/// Whether a backing image is what so many of these writes make of it.
fn is_image(bytes: &[u8], writes: &[(usize, u8)], put: usize) -> bool {
    bytes.len() == BACKING_BYTES
        && bytes.chunks_exact(SECTOR_BYTES).enumerate().all(|(at, sector)| {
            let byte = byte_at(at, writes, put);
            sector.iter().all(|found| *found == byte)
        })
}

/// The byte in a sector behind so many of these writes.
fn byte_at(at: usize, writes: &[(usize, u8)], put: usize) -> u8 {
    let mut byte = 0x5a;
    for (sector, written) in writes.iter().take(put) {
        if *sector == at {
            byte = *written;
        }
    }
    byte
}

/// Whether a log of these bytes has this record.
pub fn has_record(log: &[u8], recorded: Option<u64>) -> bool {
    match recorded {
        Some(recorded) => {
            log.get(RECORD_BYTE..RECORD_BYTE + 8) == Some(recorded.to_le_bytes().as_slice())
        }
        None => true,
    }
}
