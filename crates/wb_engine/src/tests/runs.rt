//! Sectors that stand next to each other are read by one call.
use super::calls::{Listed, counts_of, listed, was_called};
use super::{
    LOG_SECTORS, PlayListed, SECTOR_BYTES, closed_after_listed, former_bytes, holds, reads_as,
    reads_sector, turn, write, write_third,
};
use crate::{Closed, Engine, Turn};
use std::alloc::Global;
use std::test::Fail;
use wb_device::SteadyDevice;
use wb_geometry::{Geometry, Part};
use wb_super::format;

/// The sectors of the backing device, which are 32 blocks.
const WIDE: u32 = 256;

/// Whether all of these sectors are read, from the first on.
fn reads_front(engine: &mut Engine<Listed, Listed>, into: &mut [u8]) -> bool {
    let count = (into.len() / SECTOR_BYTES) as u64;
    if into.len() % SECTOR_BYTES != 0 || count == 0 || count > engine.geometry().backing_sectors {
        return false;
    }
    engine.read(0, into).is_ok()
}

/// Whether each of these sectors, which are the first, is read alone as the same.
fn reads_each(engine: &mut Engine<Listed, Listed>, bytes: &[u8]) -> bool {
    for (sector, want) in bytes.chunks_exact(SECTOR_BYTES).enumerate() {
        if !reads_sector(engine, sector as u64, want) {
            return false;
        }
    }
    true
}

/// A segment with three sectors of block 1 and one of blocks 2 and 5 goes to the log.
fn log_some(alloc: Global, engine: &mut Engine<Listed, Listed>) -> Result<(), Fail> {
    let part = Part {
        block: 1,
        from: 2,
        count: 3,
    };
    let first = write(alloc, engine, &part, 7)?;
    let second = write_third(alloc, engine, 2)?;
    let third = write_third(alloc, engine, 5)?;
    holds(first && second && third, "there was no room")?;
    holds(turn(engine) == Some(Ok(Turn::Logged)), "it isn't logged")
}

/// The whole backing device is read by one call of it. Of a block with three sectors in the log those are read by one call,
/// and by one each what stands before and behind them; and so it is where all sectors are read.
fn count_runs(alloc: Global, engine: &mut Engine<Listed, Listed>) -> Result<(), Fail> {
    let mut bytes = vec![in alloc; 0; WIDE as usize * SECTOR_BYTES]?;
    holds(reads_front(engine, &mut bytes), "it isn't read")?;
    holds(was_called(engine, (7, 1, 2), (1, 0, 2)), "not one read")?;
    holds(bytes == former_bytes(alloc, WIDE)?, "other bytes")?;
    log_some(alloc, engine)?;
    let block = [108, 109, 7, 7, 7, 113, 114, 115];
    holds(reads_as(engine, 1, &block), "the block is read otherwise")?;
    holds(was_called(engine, (8, 2, 2), (3, 0, 2)), "not three reads")?;
    holds(reads_front(engine, &mut bytes), "it isn't read any more")?;
    holds(
        was_called(engine, (11, 2, 2), (7, 0, 2)),
        "not a read a run",
    )?;
    holds(reads_each(engine, &bytes), "a sector alone is another")?;
    holds(
        was_called(engine, (16, 2, 2), (258, 0, 2)),
        "not a read a sector",
    )
}

/// The reads of neighbouring sectors.
#[derive(Drop)]
struct Runs;

impl PlayListed for Runs {
    fn carry_out(
        &mut self,
        alloc: Global,
        engine: &mut Engine<Listed, Listed>,
    ) -> Result<(), Fail> {
        count_runs(alloc, engine)
    }
}

/// A log that is formatted for a wide backing device.
fn wide_log(alloc: Global) -> Result<SteadyDevice, Fail> {
    let mut log = SteadyDevice::of(vec![in alloc; 0; LOG_SECTORS as usize * SECTOR_BYTES]?);
    format(&mut log, &Geometry::new(5, 4, 2, WIDE.into())?)?;
    Ok(log)
}

/// What closing leaves of a cache over a wide backing device, of which the reads were counted.
fn closed_after_reads(alloc: Global) -> Result<Closed<Listed, Listed>, Fail> {
    let log = listed(alloc, wide_log(alloc)?)?;
    let backing = listed(alloc, SteadyDevice::of(former_bytes(alloc, WIDE)?))?;
    closed_after_listed(alloc, log, backing, &mut Runs)
}

#[test]
fn neighbouring_sectors_are_read_by_one_call(rt: HostRuntime) -> Result<(), Fail> {
    let closed = closed_after_reads(rt.alloc())?;
    assert!(rt; closed.fault.is_none() && counts_of(&closed.log, &closed.backing).1.0 == 258);
    Ok(())
}
