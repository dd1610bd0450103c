//! Sessions over devices in memory, of which some stop, and caches that aren't opened.
ghost use Rattle.std.specs.Prelude.{IfOk};
ghost use Rattle.wb_script.specs.Valid.{IsValid};

use crate::{ServeStop, Served, Session, serve_plain};
use std::alloc::{AllocError, Global};
use std::process::Abort;
use std::test::Fail;
use wb_device::{Device, FaultPlan, MemoryDevice, SteadyDevice};
use wb_engine::OpenCause;
use wb_geometry::Geometry;
use wb_script::{Script, parse};
use wb_super::{SuperRefused, format, read_super, write_record};

const SECTOR_BYTES: usize = 512;

/// A device in memory of so many sectors of zeros.
fn zeros(alloc: Global, sectors: u32) -> Result<SteadyDevice, AllocError> {
    let bytes = sectors as usize * SECTOR_BYTES;
    Ok(SteadyDevice::of(vec![in alloc; 0; bytes]?))
}

/// A script for so many backing sectors: four writes, each to a block of its own, and a read of each.
fn script_of(alloc: Global, sectors: u64) -> Result<Script, Fail>
    ensures { IfOk result IsValid }
{
    let mut text = String::from_str(alloc, "clients 1\n")?;
    for (sector, byte) in [(0, 1), (8, 2), (16, 3), (24, 4)] {
        writeln!(text, "0 w {sector} 1 {byte:02x}")?;
    }
    for sector in [0, 8, 16, 24] {
        writeln!(text, "0 r {sector} 1")?;
    }
    Ok(parse(alloc, text.as_bytes(), &Geometry::new(5, 4, 2, sectors)?)?)
}

/// A new log for 64 backing sectors, of which the last slot has this id, below 256.
fn log_of(alloc: Global, id: u8) -> Result<SteadyDevice, Fail> {
    let mut log = zeros(alloc, 2176)?;
    format(&mut log, &Geometry::new(5, 4, 2, 64)?)?;
    let mut bytes = log.into_bytes();
    if let Some(byte) = bytes.get_mut(2144 * SECTOR_BYTES) {
        *byte = id;
    }
    Ok(SteadyDevice::of(bytes))
}

/// Such a log without an id, once a cache was opened over it: its record is behind all slots.
fn opened_log(alloc: Global) -> Result<SteadyDevice, Fail> {
    let mut log = log_of(alloc, 0)?;
    if log.sectors() >= 2048 {
        write_record(&mut log, 4)?;
    }
    Ok(log)
}

/// Serves a script for so many sectors over a cache of 64, in the last slot of whose log is this id.
fn serve(alloc: Global, id: u8, sectors: u64) -> Result<Served<SteadyDevice, SteadyDevice>, Fail> {
    let script = script_of(alloc, sectors)?;
    Ok(serve_plain(alloc, log_of(alloc, id)?, zeros(alloc, 64)?, &script))
}

/// The byte that fills a sector once the script is served.
fn byte_of(sector: usize) -> u8 {
    match sector {
        0 => 1,
        8 => 2,
        16 => 3,
        24 => 4,
        _ => 0,
    }
}

/// Whether a backing image holds what the script writes, and nothing else.
fn is_served(image: &[u8]) -> bool {
    image.chunks_exact(SECTOR_BYTES).enumerate().all(|(sector, bytes)| bytes
        == [byte_of(sector); SECTOR_BYTES].as_slice())
}

/// Whether an answer is that of a session of the script.
fn is_answered(answer: &Result<Session, ServeStop>) -> bool {
    match answer {
        Ok(session) => session.places == 4
            && session.first == 4
            && !session.ids
            && !session.log_failed
            && !session.backing_failed
            && session.transcripts.len() == 1
            && session
                .transcripts
                .iter()
                .all(|transcript| transcript.len() == 8),
        Err(_) => false,
    }
}

/// Whether the record of a log has this number.
fn has_record(log: &mut SteadyDevice, recorded: u64) -> bool {
    read_super(log).is_ok_and(|found| found.recorded == recorded)
}

/// Whether a session of the script was served, and left what it should: two segments of three places each at most, behind
/// the record with which it begins.
fn went_well(served: &mut Served<SteadyDevice, SteadyDevice>) -> bool {
    is_answered(&served.answer)
        && is_served(served.backing.bytes())
        && has_record(&mut served.log, 6)
}

#[test]
fn a_script_is_served(rt: HostRuntime) -> Result<(), Fail> {
    let mut served = serve(rt.alloc(), 0, 64)?;
    assert!(rt; went_well(&mut served));
    Ok(())
}

#[test]
fn an_id_up_to_the_record_and_the_slots_is_served(rt: HostRuntime) -> Result<(), Fail> {
    let mut served = serve(rt.alloc(), 4, 64)?;
    assert!(rt; went_well(&mut served));
    Ok(())
}

/// Whether no session was served for this reason, the log is as this one, and the backing device as it was.
fn was_refused(
    served: &Served<SteadyDevice, SteadyDevice>,
    why: ServeStop,
    log: &SteadyDevice,
) -> bool {
    matches!(&served.answer, Err(stop) if *stop == why)
        && served.log.bytes() == log.bytes()
        && served.backing.bytes().iter().all(|byte| *byte == 0)
}

#[test]
fn a_cache_smaller_than_its_script_is_refused(rt: HostRuntime) -> Result<(), Fail> {
    let served = serve(rt.alloc(), 0, 72)?;
    let log = opened_log(rt.alloc())?;
    assert!(rt; was_refused(&served, CHANGED, &log));
    Ok(())
}

/// The answer to a script for 72 sectors.
const CHANGED: ServeStop = ServeStop::Changed {
    parsed: 72,
    found: 64,
};

/// The devices of a session that couldn't write back, of which both segments are in the log.
fn left_devices(alloc: Global) -> Result<(SteadyDevice, SteadyDevice), Fail> {
    let script = script_of(alloc, 64)?;
    let log = stopping(alloc, log_of(alloc, 0)?.into_bytes(), None)?;
    let backing = stopping(alloc, zeros(alloc, 64)?.into_bytes(), Some(2))?;
    let served = serve_plain(alloc, log, backing, &script);
    Ok((
        SteadyDevice::of(served.log.into_bytes()),
        SteadyDevice::of(served.backing.into_bytes()),
    ))
}

/// Whether a script for more sectors is refused over such devices, once what the session left is put.
fn is_put_and_refused(alloc: Global) -> Result<bool, Fail> {
    let script = script_of(alloc, 72)?;
    let (log, backing) = left_devices(alloc)?;
    let none_before = backing.bytes().iter().all(|byte| *byte == 0);
    let mut served = serve_plain(alloc, log, backing, &script);
    Ok(
        none_before
            && matches!(&served.answer, Err(stop) if *stop == CHANGED)
            && is_served(served.backing.bytes())
            && has_record(&mut served.log, 8),
    )
}

#[test]
fn what_a_session_left_is_put_before_a_script_is_refused(rt: HostRuntime) -> Result<(), Fail> {
    let put = is_put_and_refused(rt.alloc())?;
    assert!(rt; put);
    Ok(())
}

#[test]
fn a_log_that_is_not_formatted_is_refused(rt: HostRuntime) -> Result<(), Fail> {
    let alloc = rt.alloc();
    let script = script_of(alloc, 64)?;
    let served = serve_plain(alloc, zeros(alloc, 2176)?, zeros(alloc, 64)?, &script);
    let magic = ServeStop::Open(OpenCause::Super(SuperRefused::Magic));
    let log = zeros(alloc, 2176)?;
    assert!(rt; was_refused(&served, magic, &log));
    Ok(())
}

#[test]
fn a_log_with_a_stray_id_is_refused(rt: HostRuntime) -> Result<(), Fail> {
    let alloc = rt.alloc();
    let script = script_of(alloc, 64)?;
    let served = serve_plain(alloc, log_of(alloc, 5)?, zeros(alloc, 64)?, &script);
    let stray = ServeStop::Open(OpenCause::Stray { slot: 3, id: 5 });
    let log = log_of(alloc, 5)?;
    assert!(rt; was_refused(&served, stray, &log));
    Ok(())
}

/// A device of these bytes that stops at a call, where one is named.
fn stopping(alloc: Global, bytes: Vec<u8>, stop: Option<u64>) -> Result<MemoryDevice, AllocError> {
    let plan = FaultPlan {
        faults: Vec::new(alloc),
        stop,
    };
    MemoryDevice::of(alloc, bytes, plan)
}

const UNREAD: ServeStop = ServeStop::Open(OpenCause::Super(SuperRefused::Fault));

const NO_LOG: ServeStop = ServeStop::Open(OpenCause::LogFault);

const NO_BACKING: ServeStop = ServeStop::Open(OpenCause::BackingFault);

// The calls from which on the log and the backing device fail, and whether each of them is said to have failed in the session,
// or why there is none. The cache is opened by ten calls of the log and two of the backing device.
const STOPS: [(Option<u64>, Option<u64>, Result<(bool, bool), ServeStop>); 15] = [
    (None, None, Ok((false, false))),
    (Some(1), Some(0), Err(UNREAD)),
    (Some(2), Some(0), Err(NO_LOG)),
    (Some(3), Some(0), Err(NO_BACKING)),
    (Some(3), Some(1), Err(NO_LOG)),
    (Some(6), None, Err(NO_LOG)),
    (None, Some(0), Err(NO_BACKING)),
    (Some(7), Some(1), Err(NO_LOG)),
    (Some(8), Some(1), Err(NO_BACKING)),
    (Some(8), Some(2), Err(NO_LOG)),
    (Some(9), None, Err(NO_LOG)),
    (None, Some(1), Err(NO_BACKING)),
    (Some(10), Some(2), Ok((true, false))),
    (Some(13), None, Ok((true, false))),
    (None, Some(2), Ok((false, true))),
];

/// Which of the log and the backing device failed in a session, or why there is none.
fn told_of(answer: &Result<Session, ServeStop>) -> Result<(bool, bool), ServeStop> {
    match answer {
        Ok(session) => Ok((session.log_failed, session.backing_failed)),
        Err(stop) => Err(*stop),
    }
}

/// What is told of a session over devices that stop at these calls.
fn told_where_they_stop(
    alloc: Global,
    script: &Script,
    log_stop: Option<u64>,
    stop: Option<u64>,
) -> Result<Result<(bool, bool), ServeStop>, Fail>
    requires { IsValid script.now }
{
    let log = stopping(alloc, log_of(alloc, 0)?.into_bytes(), log_stop)?;
    let backing = stopping(alloc, zeros(alloc, 64)?.into_bytes(), stop)?;
    let served = serve_plain(alloc, log, backing, script);
    Ok(told_of(&served.answer))
}

/// Where they stop there, it is told so.
fn is_told(
    rt: &impl Abort,
    found: Result<(bool, bool), ServeStop>,
    want: Result<(bool, bool), ServeStop>,
) {
    assert_eq!(rt; found, want);
}

#[test]
fn devices_that_stop_are_told(rt: HostRuntime) -> Result<(), Fail> {
    let script = script_of(rt.alloc(), 64)?;
    for (log_stop, stop, told) in &STOPS {
        let found = told_where_they_stop(rt.alloc(), &script, *log_stop, *stop)?;
        is_told(&rt, found, *told);
    }
    Ok(())
}
