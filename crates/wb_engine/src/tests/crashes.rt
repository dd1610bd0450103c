//! Crashes at each call of a batch: what was stable is recovered.
use super::batches::{Batch, Session, backs, begin, has_segments, records};
use super::{Play, SECTORS, closed_after, former_bytes, holds, narrow_log};
use crate::{Closed, Engine};
use std::alloc::{AllocError, Global};
use std::test::Fail;
use wb_device::{FaultPlan, MemoryDevice, PlannedFault};
use wb_replay::recover;

/// A session whose stable segments are written back by one batch, and recorded where no call of it fails; the numbers of the
/// first call of the backing device in the batch and of the one behind it; and whether none failed.
#[derive(Clone, Copy)]
struct Crash {
    session: Session,
    first: u64,
    end: u64,
    worked: bool,
}

impl Play<MemoryDevice, MemoryDevice> for Crash {
    fn carry_out(
        &mut self,
        alloc: Global,
        engine: &mut Engine<MemoryDevice, MemoryDevice>,
    ) -> Result<(), Fail> {
        begin(alloc, engine, &self.session)?;
        self.first = engine.backing.calls();
        self.worked = backs(engine, Batch::Most);
        self.end = engine.backing.calls();
        holds(self.worked == records(engine), "it is recorded otherwise")
    }
}

/// A device of these bytes that fails at this call, where there is one, and stores so many sectors before.
fn planned(
    alloc: Global,
    bytes: Vec<u8>,
    fault: Option<PlannedFault>,
) -> Result<MemoryDevice, AllocError> {
    let mut faults = Vec::new(alloc);
    if let Some(fault) = fault {
        faults.push(fault)?;
    }
    MemoryDevice::of(alloc, bytes, FaultPlan { faults, stop: None })
}

type Left = Closed<MemoryDevice, MemoryDevice>;

/// What closing leaves of a session over eleven slots, of which this call of the backing device fails. Where one does, closing
/// calls no device.
fn left_by(alloc: Global, crash: &mut Crash, fault: Option<PlannedFault>) -> Result<Left, Fail> {
    let log = planned(alloc, narrow_log(alloc, 11)?.into_bytes(), None)?;
    let backing = planned(alloc, former_bytes(alloc, SECTORS)?, fault)?;
    closed_after(alloc, log, backing, crash)
}

/// What a crash takes of both devices.
const CHOICES: [&[u8]; 3] = [&[], &[1], &[0, 1, 2]];

/// Whether these are the bytes of the backing device once all that was stable is put, and maybe some segments behind it, but
/// none that isn't logged.
fn is_some_time(bytes: &[u8], session: &Session) -> bool {
    for put in session.stable..=session.logged {
        if has_segments(bytes, session, put) {
            return true;
        }
    }
    false
}

/// Whether recovery after such a crash leaves what was stable.
fn is_recovered(
    alloc: Global,
    session: &Session,
    left: &Left,
    choice: &[u8],
) -> Result<bool, Fail> {
    let mut log = left.log.crashed(alloc, choice)?;
    let mut backing = left.backing.crashed(alloc, choice)?;
    let done = recover(alloc, &mut log, &mut backing).is_ok();
    Ok(done && is_some_time(backing.bytes(), session))
}

/// Each crash of these devices is recovered.
fn crash_each(alloc: Global, session: &Session, left: &Left) -> Result<(), Fail> {
    for choice in &CHOICES {
        let done = is_recovered(alloc, session, left, choice)?;
        holds(done, "what was stable isn't recovered")?;
    }
    Ok(())
}

/// A session of which nothing was done yet.
fn crash_of(session: Session) -> Crash {
    Crash {
        session,
        first: 0,
        end: 0,
        worked: false,
    }
}

/// The call fails, so many sectors stored before, and then both devices crash. Says whether the batch worked.
fn crash_at(alloc: Global, session: Session, call: u64, sectors: u64) -> Result<bool, Fail> {
    let mut crash = crash_of(session);
    let left = left_by(alloc, &mut crash, Some(PlannedFault { call, sectors }))?;
    crash_each(alloc, &session, &left)?;
    Ok(crash.worked)
}

/// The calls of the backing device in the batch of a session: the first, and the one behind the last.
fn calls_of(alloc: Global, session: Session) -> Result<(u64, u64), Fail> {
    let mut crash = crash_of(session);
    left_by(alloc, &mut crash, None)?;
    Ok((crash.first, crash.end))
}

/// Each call of the batch fails, and then none.
fn fail_each(alloc: Global, session: Session) -> Result<(), Fail> {
    let (first, end) = calls_of(alloc, session)?;
    holds(end.saturating_sub(first) >= 4, "the batch has few calls")?;
    for call in first..=end {
        let without = crash_at(alloc, session, call, 0)?;
        let with = crash_at(alloc, session, call, 1)?;
        holds(without == (call == end), "the call didn't fail")?;
        holds(with == (call == end), "the call didn't fail with a sector")?;
    }
    Ok(())
}

#[test]
fn a_crash_in_a_full_batch_loses_nothing_stable(rt: HostRuntime) -> Result<(), Fail> {
    let session = Session {
        recorded: 0,
        stable: 8,
        logged: 8,
    };
    fail_each(rt.alloc(), session)
}

#[test]
fn a_crash_in_a_batch_with_more_in_the_log_loses_nothing_stable(
    rt: HostRuntime,
) -> Result<(), Fail> {
    let session = Session {
        recorded: 0,
        stable: 5,
        logged: 8,
    };
    fail_each(rt.alloc(), session)
}

/// The batch goes over the last slot to the first.
#[test]
fn a_crash_in_a_batch_of_a_wrapped_log_loses_nothing_stable(rt: HostRuntime) -> Result<(), Fail> {
    let session = Session {
        recorded: 7,
        stable: 15,
        logged: 18,
    };
    fail_each(rt.alloc(), session)
}
