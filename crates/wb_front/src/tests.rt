//! The front in one thread. One function opens a front and ends it, and lends it to one in which its clients play.
ghost use Rattle.std.specs.Prelude.{◌≡◌};
ghost use Rattle.wb_front.specs.Beginning.{engine_of, Carries, IsNewIntake, IsFreshEngine};
ghost use Rattle.wb_front.specs.Requests.{IsPassOf};

use crate::{Core, Down, Front, Open, Ready, Receipt};
use std::alloc::Global;
use std::marker::Brand;
use std::process::Abort;
use std::sync::Wait;
use std::test::Fail;
use wb_device::{Device, FaultPlan, ListingDevice, MemoryDevice, SteadyDevice};
use wb_geometry::{Geometry, Which};
use wb_intake::{Named, Pass};
use wb_super::format;

const SECTOR_BYTES: usize = 512;

/// What the two clients of a front do.
#[derive(Clone, Copy, Debug, PartialEq, Eq)]
enum Play {
    /// One writes, reads and flushes.
    Alone,
    /// Both write and post a flush. The first awaits its own, and then the other polls.
    Together,
    /// One writes and flushes in vain.
    InVain,
}

/// Posts a flush and awaits it.
fn flush<'g, L: Device, B: Device, T: Named, R: Wait>(
    rt: &R,
    front: &Front<'g, L, B, Open, T>,
    pass: &mut Pass,
) -> Result<Receipt, Down>
    requires own { IsPassOf T.carried pass.old }
{
    let ticket = front.post_flush(pass);
    front.wait_flush(rt, pass, ticket)
}

/// Writes four sectors of a block and four of the next, reads them, and flushes. A segment has three places.
fn play_alone<'g, L: Device, B: Device, T: Named, R: Wait>(
    rt: &R,
    alloc: Global,
    front: &Front<'g, L, B, Open, T>,
    pass: &mut Pass,
) -> bool
    requires own { IsPassOf T.carried pass.old }
    requires sectors { T.carried.geometry.backing_sectors ≡ 64 }
{
    let payload = [0x5a; 8 * SECTOR_BYTES];
    let Ok(places) = front.write(rt, alloc, pass, 12, &payload) else {
        return false;
    };
    let mut into = [0; 8 * SECTOR_BYTES];
    let point = front.read(rt, pass, 12, &mut into);
    let flushed = flush(rt, front, pass);
    places.as_slice() == [0, 1].as_slice()
        && point == Ok(2)
        && into.as_slice() == payload.as_slice()
        && flushed == Ok(Receipt { number: 3 })
}

/// Both write a sector and post a flush. The first awaits its own, and then the other is done.
fn play_together<'g, L: Device, B: Device, T: Named, R: Wait>(
    rt: &R,
    alloc: Global,
    front: &Front<'g, L, B, Open, T>,
    one: &mut Pass,
    two: &mut Pass,
) -> bool
    requires one { IsPassOf T.carried one.old }
    requires two { IsPassOf T.carried two.old }
    requires sectors { T.carried.geometry.backing_sectors ≡ 64 }
{
    let payload = [0x5a; SECTOR_BYTES];
    let Ok(_) = front.write(rt, alloc, one, 0, &payload) else {
        return false;
    };
    let Ok(_) = front.write(rt, alloc, two, 8, &payload) else {
        return false;
    };
    let ticket = front.post_flush(two);
    let first = flush(rt, front, one);
    let second = front.poll_flush(two, ticket);
    first == Ok(Receipt { number: 3 }) && second == Ok(Receipt { number: 3 })
}

/// Writes a sector, and flushes. The log fails.
fn play_in_vain<'g, L: Device, B: Device, T: Named, R: Wait>(
    rt: &R,
    alloc: Global,
    front: &Front<'g, L, B, Open, T>,
    pass: &mut Pass,
) -> bool
    requires own { IsPassOf T.carried pass.old }
    requires sectors { T.carried.geometry.backing_sectors ≡ 64 }
{
    let payload = [0x5a; SECTOR_BYTES];
    let Ok(_) = front.write(rt, alloc, pass, 0, &payload) else {
        return false;
    };
    flush(rt, front, pass)
        == Err(Down {
            device: Which::Log,
            number: 3,
            stable: 0,
        })
}

/// The clients play. Answers whether all went as it should.
fn carry_out<'g, L: Device, B: Device, T: Named, R: Wait>(
    rt: &R,
    alloc: Global,
    front: &Front<'g, L, B, Open, T>,
    one: &mut Pass,
    two: &mut Pass,
    which: Play,
) -> bool
    requires one { IsPassOf T.carried one.old }
    requires two { IsPassOf T.carried two.old }
    requires sectors { T.carried.geometry.backing_sectors ≡ 64 }
{
    match which {
        Play::Alone => play_alone(rt, alloc, front, one),
        Play::Together => play_together(rt, alloc, front, one, two),
        Play::InVain => play_in_vain(rt, alloc, front, one),
    }
}

/// The clients of a new front over what is ready play. Answers whether all went as it should, and gives the log back.
fn played<L: Device, B: Device, T: Named, R: Wait>(
    rt: &R,
    alloc: Global,
    ready: Ready<L, B>,
    one: &mut Pass,
    two: &mut Pass,
    which: Play,
) -> (bool, L)
    requires carried { Carries L.state B.state T.carried ready }
    requires intake { IsNewIntake T.carried.clients ready }
    requires engine { IsFreshEngine L.state B.state (engine_of ready) }
    requires one { IsPassOf T.carried one.old }
    requires two { IsPassOf T.carried two.old }
    requires sectors { T.carried.geometry.backing_sectors ≡ 64 }
{
    let gate = Open;
    let front = Front::<L, B, Open, T>::start(ready, &gate);
    let done = carry_out(rt, alloc, &front, one, two, which);
    let Front { core, .. } = front;
    let Core { engine, .. } = core.into_inner();
    let (log, _) = engine.into_devices();
    (done, log)
}

/// The same over these devices, where they can be opened.
fn played_over<L: Device, B: Device, R: Wait>(
    rt: &R,
    alloc: Global,
    log: L,
    backing: B,
    which: Play,
) -> Option<(bool, L)> {
    let Ok((ready, mut passes)) = Ready::open(alloc, log, backing, 2) else {
        return None;
    };
    if ready.geometry().backing_sectors != 64 {
        return None;
    }
    let Some(mut two) = passes.pop() else {
        return None;
    };
    let Some(mut one) = passes.pop() else {
        return None;
    };
    Some(played::<L, B, Brand, R>(rt, alloc, ready, &mut one, &mut two, which))
}

/// A log that is formatted for four slots of three places each.
fn new_log(alloc: Global) -> Result<SteadyDevice, Fail> {
    let mut log = SteadyDevice::of(vec![in alloc; 0; 2176 * SECTOR_BYTES]?);
    format(&mut log, &Geometry::new(5, 4, 2, 64)?)?;
    Ok(log)
}

/// A backing device of eight blocks.
fn new_backing(alloc: Global) -> Result<SteadyDevice, Fail> {
    Ok(SteadyDevice::of(vec![in alloc; 0; 64 * SECTOR_BYTES]?))
}

/// Whether a client reads what it wrote, and flushes it.
fn one_plays(rt: &impl Wait, alloc: Global) -> Result<bool, Fail> {
    let log = new_log(alloc)?;
    let backing = new_backing(alloc)?;
    let played = played_over(rt, alloc, log, backing, Play::Alone);
    Ok(matches!(played, Some((true, _))))
}

/// How many syncs of the log two clients have cost, with those of the opening, where each got its receipt.
fn syncs_of_two(rt: &impl Wait, alloc: Global) -> Result<Option<u64>, Fail> {
    let log = ListingDevice::over(alloc, new_log(alloc)?, 0)?;
    let backing = new_backing(alloc)?;
    Ok(match played_over(rt, alloc, log, backing, Play::Together) {
        Some((true, log)) => Some(log.counts().syncs),
        _ => None,
    })
}

/// Whether a flush is answered that the log is down, where it fails from the first sync on behind the ten calls that open it.
fn one_plays_in_vain(rt: &impl Wait, alloc: Global) -> Result<bool, Fail> {
    let plan = FaultPlan {
        faults: Vec::new(alloc),
        stop: Some(11),
    };
    let log = MemoryDevice::of(alloc, new_log(alloc)?.into_bytes(), plan)?;
    let backing = new_backing(alloc)?;
    let played = played_over(rt, alloc, log, backing, Play::InVain);
    Ok(matches!(played, Some((true, _))))
}

#[test]
fn a_client_reads_what_it_wrote(rt: HostRuntime) -> Result<(), Fail> {
    assert!(rt; one_plays(&rt, rt.alloc())?);
    Ok(())
}

// Two syncs open the log.
#[test]
fn one_sync_serves_two_flushes(rt: HostRuntime) -> Result<(), Fail> {
    assert!(rt; syncs_of_two(&rt, rt.alloc())? == Some(3));
    Ok(())
}

#[test]
fn a_failed_sync_is_told(rt: HostRuntime) -> Result<(), Fail> {
    assert!(rt; one_plays_in_vain(&rt, rt.alloc())?);
    Ok(())
}
