//! An engine of which a device fails: it is down, absorbs while there is room, and still reads.
use super::{
    Play, closed_after, failing_backing, failing_log, holds, narrow_log, new_backing, new_log,
    reads_thirds, turn, write_third,
};
use crate::{Engine, Turn};
use std::alloc::{AllocError, Global};
use std::test::Fail;
use wb_device::{Device, FaultPlan, MemoryDevice, PlannedFault, SteadyDevice};
use wb_geometry::Which;

/// Writes the third sectors of these blocks, for which there is room.
pub(super) fn write_all<L: Device, B: Device>(
    alloc: Global,
    engine: &mut Engine<L, B>,
    blocks: &[u8],
) -> Result<(), Fail> {
    for block in blocks {
        let done = write_third(alloc, engine, *block)?;
        holds(done, "there was no room")?;
    }
    Ok(())
}

/// Makes turns, each of which does this.
fn take_turns<L: Device, B: Device>(
    engine: &mut Engine<L, B>,
    turns: &[Result<Turn, Which>],
) -> Result<(), Fail> {
    for want in turns {
        let found = turn(engine);
        holds(found == Some(*want), "a turn did something else")?;
    }
    Ok(())
}

/// Fills a cache that is down by this device, reads all of it, and sees that no turn is made and no more comes.
fn fill_down<L: Device, B: Device>(
    alloc: Global,
    engine: &mut Engine<L, B>,
    by: Which,
    blocks: &[u8],
    count: u8,
) -> Result<(), Fail> {
    holds(engine.down() == Some(by), "it isn't down by the device")?;
    holds(turn(engine).is_none(), "a turn was made")?;
    write_all(alloc, engine, blocks)?;
    let more = write_third(alloc, engine, 6)?;
    holds(!more, "there was still room")?;
    holds(reads_thirds(engine, count), "a block is read as another")
}

/// A write to the backing device fails.
#[derive(Drop)]
struct WriteBack;

impl Play<SteadyDevice, MemoryDevice> for WriteBack {
    /// To open the cache took two syncs of the backing device.
    fn carry_out(
        &mut self,
        alloc: Global,
        engine: &mut Engine<SteadyDevice, MemoryDevice>,
    ) -> Result<(), Fail> {
        write_all(alloc, engine, &[0, 1, 2, 3])?;
        take_turns(
            engine,
            &[Ok(Turn::Logged), Ok(Turn::Synced), Err(Which::Backing)],
        )?;
        fill_down(alloc, engine, Which::Backing, &[4, 5, 6, 7, 7], 8)?;
        holds(engine.backing.calls() == 3, "the device was called again")
    }
}

#[test]
fn a_failed_write_back_takes_it_down(rt: HostRuntime) -> Result<(), Fail> {
    let log = new_log(rt.alloc())?;
    let backing = failing_backing(rt.alloc(), 2)?;
    let closed = closed_after(rt.alloc(), log, backing, &mut WriteBack)?;
    assert!(rt; closed.fault == Some(Which::Backing) && closed.backing.calls() == 3);
    Ok(())
}

/// The first write of a segment fails. To open the log took two reads, a sync, a read of an id in each of the four slots, one
/// of a whole slot, and the write and the sync of the record.
fn fail_first(alloc: Global, engine: &mut Engine<MemoryDevice, SteadyDevice>) -> Result<(), Fail> {
    write_all(alloc, engine, &[0, 1, 2, 3])?;
    take_turns(engine, &[Err(Which::Log)])?;
    fill_down(alloc, engine, Which::Log, &[4, 5], 6)?;
    holds(engine.log.calls() == 11, "the device was called again")
}

/// A log whose third write of a segment fails and stores nothing. To open it takes two reads, a sync, a read of an id in each
/// slot, one of a whole slot, a write and a sync.
fn failing_third(alloc: Global, log: SteadyDevice) -> Result<MemoryDevice, AllocError> {
    let fault = PlannedFault {
        call: 16,
        sectors: 0,
    };
    let mut faults = Vec::new(alloc);
    faults.push(fault)?;
    MemoryDevice::of(alloc, log.into_bytes(), FaultPlan { faults, stop: None })
}

/// Two segments are logged, and the write of the third fails. The sectors of both are read from the log then.
fn fail_third(alloc: Global, engine: &mut Engine<MemoryDevice, SteadyDevice>) -> Result<(), Fail> {
    write_all(alloc, engine, &[0, 1])?;
    take_turns(engine, &[Ok(Turn::Logged)])?;
    write_all(alloc, engine, &[2])?;
    take_turns(engine, &[Ok(Turn::Logged), Err(Which::Log)])?;
    fill_down(alloc, engine, Which::Log, &[3], 4)?;
    holds(engine.log.calls() == 19, "other reads of the log")
}

/// The write of a segment to the log that fails.
#[derive(Clone, Copy)]
enum Failing {
    First,
    Third,
}

impl Play<MemoryDevice, SteadyDevice> for Failing {
    fn carry_out(
        &mut self,
        alloc: Global,
        engine: &mut Engine<MemoryDevice, SteadyDevice>,
    ) -> Result<(), Fail> {
        match *self {
            Failing::First => fail_first(alloc, engine),
            Failing::Third => fail_third(alloc, engine),
        }
    }
}

/// By which device a cache over this log is down, of which this write fails, and how often the log was called.
fn ended_after(
    alloc: Global,
    log: MemoryDevice,
    mut failing: Failing,
) -> Result<(Option<Which>, u64), Fail> {
    let backing = new_backing(alloc)?;
    let closed = closed_after(alloc, log, backing, &mut failing)?;
    Ok((closed.fault, closed.log.calls()))
}

#[test]
fn a_failed_log_write_takes_it_down(rt: HostRuntime) -> Result<(), Fail> {
    let log = failing_log(rt.alloc(), 10)?;
    let ended = ended_after(rt.alloc(), log, Failing::First)?;
    assert!(rt; ended == (Some(Which::Log), 11));
    Ok(())
}

#[test]
fn the_third_write_of_a_segment_fails(rt: HostRuntime) -> Result<(), Fail> {
    let log = failing_third(rt.alloc(), narrow_log(rt.alloc(), 8)?)?;
    let ended = ended_after(rt.alloc(), log, Failing::Third)?;
    assert!(rt; ended == (Some(Which::Log), 19));
    Ok(())
}
