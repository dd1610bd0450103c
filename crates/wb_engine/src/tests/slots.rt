//! Where a sector is read from, and slots that are taken again.
use super::recovered::{leave_two, see_recovered};
use super::{
    LOG_SECTORS, NOWHERE, Play, SECTOR_BYTES, SECTORS, are_filled, closed_after, holds, log_of,
    new_backing, new_log, put, reads_as, reads_third, reads_thirds, spots_of, turn, write,
    write_third,
};
use crate::{Closed, Engine, Turn};
use std::alloc::Global;
use std::test::Fail;
use wb_device::SteadyDevice;
use wb_geometry::{Entry, Geometry, Part, Spot};
use wb_super::{format, read_super};

pub(super) type Cache = Engine<SteadyDevice, SteadyDevice>;

/// Some sectors are in the log, some in memory, and the rest on the backing device.
pub(super) fn write_in_two_segments(alloc: Global, engine: &mut Cache) -> Result<(), Fail> {
    let first = Part {
        block: 0,
        from: 0,
        count: 3,
    };
    let second = Part {
        block: 0,
        from: 2,
        count: 2,
    };
    let wrote = write(alloc, engine, &first, 0x01)?;
    holds(wrote, "no room for the first")?;
    holds(put(engine, Entry::Void { client: 0 }), "no room for a void")?;
    holds(put(engine, Entry::Void { client: 0 }), "no room for a void")?;
    holds(turn(engine) == Some(Ok(Turn::Logged)), "it isn't logged")?;
    let wrote = write(alloc, engine, &second, 0x02)?;
    holds(wrote, "no room for the second")
}

/// The bytes of those sectors where each sector of the backing device has its own byte, and where all have the same.
pub(super) const OVER_FORMER: [u8; 8] = [0x01, 0x01, 0x02, 0x02, 104, 105, 106, 107];

const OVER_SAME: [u8; 8] = [0x01, 0x01, 0x02, 0x02, 0xb0, 0xb0, 0xb0, 0xb0];

/// What is read of them, and where it stands.
fn reads_from_three(engine: &mut Cache, fills: &[u8; 8]) -> Result<(), Fail> {
    let in_log = Spot { id: 5, index: 0 };
    let in_memory = Spot { id: 6, index: 0 };
    let spots = [
        in_log, in_log, in_memory, in_memory, NOWHERE, NOWHERE, NOWHERE, NOWHERE,
    ];
    holds(spots_of(engine, 0) == Some(spots), "other spots")?;
    holds(reads_as(engine, 0, fills), "other bytes")
}

/// What turns do once all four slots are taken and a fifth segment waits.
const TURNS: [Turn; 7] = [
    Turn::Synced,
    Turn::Backed,
    Turn::Recorded,
    Turn::Logged,
    Turn::Synced,
    Turn::Backed,
    Turn::Recorded,
];

/// Writes a segment of three places, all of one block.
fn write_segment(alloc: Global, engine: &mut Cache, block: u8) -> Result<(), Fail> {
    for _ in 0..3 {
        let done = write_third(alloc, engine, block)?;
        holds(done, "there was no room")?;
    }
    Ok(())
}

/// Four segments are logged, and a fifth waits.
fn take_all_slots(alloc: Global, engine: &mut Cache) -> Result<(), Fail> {
    for block in 0..4 {
        write_segment(alloc, engine, block)?;
        holds(turn(engine) == Some(Ok(Turn::Logged)), "it isn't logged")?;
    }
    write_segment(alloc, engine, 4)?;
    holds(!engine.can_log(), "a slot is taken too early")
}

/// Turns until there is nothing to do, behind each of which all blocks are read.
fn turn_to_the_end(engine: &mut Cache) -> Result<(), Fail> {
    for want in &TURNS {
        holds(turn(engine) == Some(Ok(*want)), "a turn did something else")?;
        holds(reads_thirds(engine, 5), "a block is read as another")?;
    }
    holds(turn(engine) == Some(Ok(Turn::Idle)), "it isn't idle")
}

/// Three segments of a place each over two slots: the third waits for the record to name the first.
fn wrap(alloc: Global, engine: &mut Cache) -> Result<(), Fail> {
    for block in 0..2 {
        let done = write_third(alloc, engine, block)?;
        holds(done, "there was no room")?;
        holds(turn(engine) == Some(Ok(Turn::Logged)), "it isn't logged")?;
    }
    let done = write_third(alloc, engine, 2)?;
    holds(done, "there was no room for the third")?;
    for want in [Turn::Synced, Turn::Backed, Turn::Recorded] {
        holds(!engine.can_log() && engine.recorded() == 2, "too early")?;
        holds(turn(engine) == Some(Ok(want)), "a turn did something else")?;
    }
    holds(engine.can_log() && engine.recorded() == 4, "not yet")?;
    holds(turn(engine) == Some(Ok(Turn::Logged)), "it isn't logged")?;
    holds(
        reads_third(engine, 0),
        "the first is read as something else",
    )
}

/// The course of a session.
#[derive(Clone, Copy)]
pub(super) enum Course {
    ReadFromThree,
    ReadOverSame,
    TakeAllSlots,
    Wrap,
    LeaveTwo,
    SeeRecovered,
}

impl Play<SteadyDevice, SteadyDevice> for Course {
    fn carry_out(&mut self, alloc: Global, engine: &mut Cache) -> Result<(), Fail> {
        match *self {
            Course::ReadFromThree => {
                write_in_two_segments(alloc, engine)?;
                reads_from_three(engine, &OVER_FORMER)
            }
            Course::ReadOverSame => {
                write_in_two_segments(alloc, engine)?;
                reads_from_three(engine, &OVER_SAME)
            }
            Course::TakeAllSlots => {
                take_all_slots(alloc, engine)?;
                turn_to_the_end(engine)
            }
            Course::Wrap => wrap(alloc, engine),
            Course::LeaveTwo => leave_two(alloc, engine),
            Course::SeeRecovered => see_recovered(engine),
        }
    }
}

/// Whether a log has this record, behind a cache that was closed without a fault.
pub(super) fn has_recorded(closed: &mut Closed<SteadyDevice, SteadyDevice>, recorded: u64) -> bool {
    match read_super(&mut closed.log) {
        Ok(found) => closed.fault.is_none() && found.recorded == recorded,
        Err(_) => false,
    }
}

#[test]
fn a_block_is_read_from_wherever_it_stands(rt: HostRuntime) -> Result<(), Fail> {
    let log = log_of(rt.alloc(), LOG_SECTORS, Some(0))?;
    let backing = new_backing(rt.alloc())?;
    let mut closed = closed_after(rt.alloc(), log, backing, &mut Course::ReadFromThree)?;
    assert!(rt; has_recorded(&mut closed, 6));
    assert!(rt; are_filled(closed.backing.bytes(), &OVER_FORMER));
    Ok(())
}

/// A backing device that is full of one byte.
fn same_backing(alloc: Global) -> Result<SteadyDevice, Fail> {
    Ok(SteadyDevice::of(vec![in alloc; 0xb0; SECTORS as usize * SECTOR_BYTES]?))
}

#[test]
fn the_ids_of_a_new_log_begin_behind_its_slots(rt: HostRuntime) -> Result<(), Fail> {
    let log = log_of(rt.alloc(), LOG_SECTORS, Some(0))?;
    let backing = same_backing(rt.alloc())?;
    let mut closed = closed_after(rt.alloc(), log, backing, &mut Course::ReadOverSame)?;
    assert!(rt; has_recorded(&mut closed, 6));
    assert!(rt; are_filled(closed.backing.bytes(), &OVER_SAME));
    Ok(())
}

#[test]
fn a_slot_is_taken_again_once_it_is_recorded(rt: HostRuntime) -> Result<(), Fail> {
    let log = new_log(rt.alloc())?;
    let backing = new_backing(rt.alloc())?;
    let mut closed = closed_after(rt.alloc(), log, backing, &mut Course::TakeAllSlots)?;
    assert!(rt; has_recorded(&mut closed, 16));
    Ok(())
}

#[test]
fn three_segments_share_two_slots(rt: HostRuntime) -> Result<(), Fail> {
    let mut log = SteadyDevice::of(vec![in rt.alloc(); 0; 2080 * 512]?);
    format(&mut log, &Geometry::new(4, 2, 2, 64)?)?;
    let backing = new_backing(rt.alloc())?;
    let mut closed = closed_after(rt.alloc(), log, backing, &mut Course::Wrap)?;
    assert!(rt; has_recorded(&mut closed, 5));
    Ok(())
}
