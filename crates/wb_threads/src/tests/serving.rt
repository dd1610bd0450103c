//! A session on threads over devices in memory, and what is wrong in what it leaves.
ghost use Rattle.std.specs.Prelude.{IfOk};
ghost use Rattle.wb_script.specs.Valid.{IsValid};

use super::history::{History, base, bytes_of, history_of, image_of};
use super::leaving::{covered_by, cuts_of};
use super::legal::are_legal;
use super::{SECTOR_BYTES, SECTORS};
use crate::serve_all;
use std::alloc::{AllocError, Global};
use std::sync::Wait;
use std::test::Fail;
use std::thread::Threads;
use wb_device::{FaultPlan, MemoryDevice, PlannedFault, SteadyDevice};
use wb_front::Gate;
use wb_geometry::Geometry;
use wb_script::{Script, parse};
use wb_serve::{Served, Session};
use wb_super::format;

/// How a device fails: at this call, counted from 0, alone, which stores so many sectors first if it is a write; or, where none
/// are named, at this call and at each behind it.
#[derive(Clone, Copy, Debug)]
pub struct Failing {
    pub call: u64,
    pub sectors: Option<u64>,
}

/// It never fails.
pub const NEVER: Failing = Failing {
    call: u64::MAX,
    sectors: None,
};

impl Failing {
    /// The plan by which a device fails so.
    fn plan(&self, alloc: Global) -> Result<FaultPlan, AllocError> {
        let call = self.call;
        let (faults, stop) = match self.sectors {
            Some(sectors) => (vec![in alloc; PlannedFault { call, sectors }]?, None),
            None => (Vec::new(alloc), Some(call)),
        };
        Ok(FaultPlan { faults, stop })
    }
}

/// The log and the backing device of a session.
pub type Devices = Served<MemoryDevice, MemoryDevice>;

/// The bytes of a new log.
pub fn new_log(alloc: Global, g: &Geometry) -> Result<Vec<u8>, Fail> {
    let length = (g.log_sectors() as usize).saturating_mul(SECTOR_BYTES);
    let mut log = SteadyDevice::of(vec![in alloc; 0; length]?);
    format(&mut log, g)?;
    Ok(log.into_bytes())
}

/// Serves a script over a log of these bytes and a backing device of the base image, which fail so.
pub fn serve<R: Threads + Wait + Sync, G: Gate + Sync>(
    rt: &R,
    alloc: Global,
    gate: &G,
    script: &Script,
    log: &[u8],
    failing: (Failing, Failing),
) -> Result<Devices, AllocError>
    requires { IsValid script.now }
{
    let log = Vec::from_slice(alloc, log)?;
    let log = MemoryDevice::of(alloc, log, failing.0.plan(alloc)?)?;
    let backing = bytes_of(alloc, &base(), 0, SECTORS as u64)?;
    let backing = MemoryDevice::of(alloc, backing, failing.1.plan(alloc)?)?;
    Ok(serve_all(rt, alloc, log, backing, gate, script))
}

/// The script of this text.
pub fn script_of(alloc: Global, g: &Geometry, text: &str) -> Result<Script, Fail>
    ensures { IfOk result IsValid }
{
    Ok(parse(alloc, text.as_bytes(), g)?)
}

/// What was met: sessions, those in which the log failed, and the backing device, and images that a crash left of which recovery
/// made fewer than all entries.
#[derive(Clone, Copy, Debug)]
pub struct Met {
    pub sessions: u32,
    pub log: u32,
    pub backing: u32,
    pub short: u32,
}

/// Nothing yet.
pub const NOTHING: Met = Met {
    sessions: 0,
    log: 0,
    backing: 0,
    short: 0,
};

/// What is wrong in a session that served a script over devices that fail so. That there is none may be for a device that failed.
pub fn wrong_in(
    alloc: Global,
    g: &Geometry,
    script: &Script,
    failing: (Failing, Failing),
    served: &Devices,
    met: &mut Met,
) -> Result<Option<&'static str>, AllocError> {
    let (log, backing) = (&served.log, &served.backing);
    let failed = (
        failing.0.call < log.calls(),
        failing.1.call < backing.calls(),
    );
    let Ok(session) = &served.answer else {
        return Ok((!failed.0 && !failed.1).then_some("the want of a session"));
    };
    if session.log_failed != failed.0 || session.backing_failed != failed.1 || session.ids {
        return Ok(Some("a flag"));
    }
    let transcripts = session.transcripts.as_slice();
    let Some(history) = history_of(alloc, script, transcripts, session.places, g.places())? else {
        return Ok(Some("the history"));
    };
    if !are_legal(alloc, script.requests(), transcripts, &history)? {
        return Ok(Some("a transcript"));
    }
    wrong_end(alloc, &history, session, (log, backing), met)
}

/// What is wrong in the end of a session. Where no device failed, the backing device has what all entries make.
fn wrong_end(
    alloc: Global,
    history: &History,
    session: &Session,
    devices: (&MemoryDevice, &MemoryDevice),
    met: &mut Met,
) -> Result<Option<&'static str>, AllocError> {
    let is_whole = !session.log_failed && !session.backing_failed;
    if is_whole && image_of(devices.1.bytes()) != history.image(history.len()) {
        return Ok(Some("the backing device"));
    }
    let transcripts = session.transcripts.as_slice();
    let covered = if is_whole {
        u64::MAX
    } else {
        covered_by(transcripts)
    };
    let Some(short) = cuts_of(alloc, history, covered, devices)? else {
        return Ok(Some("what a crash leaves"));
    };
    met.sessions = met.sessions.saturating_add(1);
    met.log = met.log.saturating_add(u32::from(session.log_failed));
    met.backing = met
        .backing
        .saturating_add(u32::from(session.backing_failed));
    met.short = met.short.saturating_add(short);
    Ok(None)
}
