//! Tests of the engine. Only the functions that end a cache own one, and they are told by a `Play` what to do with it before.
//! So the proofs stay short.
ghost use Rattle.std.specs.Prelude.{◌≡◌, ◌≤◌, ◌+◌, true};
ghost use Rattle.wb_engine.specs.Standing.{Fits};

mod batches;
mod calls;
mod crashes;
mod driven;
mod faults;
mod listed;
mod opening;
mod recovered;
mod runs;
mod settling;
mod slots;

use crate::{Closed, Engine, OpenStop, Turn};
use calls::Listed;
use std::alloc::{AllocError, Global};
use std::process::Abort;
use std::test::Fail;
use wb_device::{Device, FaultPlan, MemoryDevice, SteadyDevice};
use wb_geometry::{Block, Entry, Geometry, Part, Spot, Which};
use wb_super::{format, write_record};

const SECTOR_BYTES: usize = 512;

/// The sectors of the log.
const LOG_SECTORS: u32 = 2176;

/// The sectors of the backing device, which are eight blocks.
const SECTORS: u32 = 64;

/// The byte that fills the first sector of the backing device. Each further sector has the next byte.
const FORMER: u8 = 100;

/// The record that the log begins with.
const FIRST: u32 = 7;

/// The record once a cache was opened over it: behind all four slots. The session's first segment is the next.
const OPENED: u32 = FIRST + 4;

/// A log of so many sectors, which is formatted for four slots of order 5, where there is a record.
fn log_of(alloc: Global, sectors: u32, recorded: Option<u64>) -> Result<SteadyDevice, Fail> {
    let mut log = SteadyDevice::of(vec![in alloc; 0; sectors as usize * SECTOR_BYTES]?);
    if let Some(recorded) = recorded {
        format(&mut log, &Geometry::new(5, 4, 2, 64)?)?;
        if log.sectors() >= 2048 {
            write_record(&mut log, recorded)?;
        }
    }
    Ok(log)
}

/// A log that is formatted for so many slots of order 4, which have a place each.
fn narrow_log(alloc: Global, slots: u32) -> Result<SteadyDevice, Fail> {
    let sectors = 2048 + 16 * slots as usize;
    let mut log = SteadyDevice::of(vec![in alloc; 0; sectors * SECTOR_BYTES]?);
    format(&mut log, &Geometry::new(4, slots, 2, 64)?)?;
    Ok(log)
}

/// The bytes of a backing device of so many sectors.
fn former_bytes(alloc: Global, sectors: u32) -> Result<Vec<u8>, AllocError> {
    let mut bytes = vec![in alloc; 0; sectors as usize * SECTOR_BYTES]?;
    let mut fill = FORMER;
    for sector in bytes.chunks_exact_mut(SECTOR_BYTES) {
        sector.fill(fill);
        fill = fill.wrapping_add(1);
    }
    Ok(bytes)
}

/// What is done with a cache before it is ended.
trait Play<L: Device, B: Device> {
    /// Does it, or says what went otherwise.
    fn carry_out(&mut self, alloc: Global, engine: &mut Engine<L, B>) -> Result<(), Fail>;
}

/// What is done with a cache over devices that list their calls, before it is ended.
trait PlayListed {
    /// Does it, or says what went otherwise.
    fn carry_out(&mut self, alloc: Global, engine: &mut Engine<Listed, Listed>) -> Result<(), Fail>;
}

/// What closing leaves of a cache over these devices, with which this was done before.
fn closed_after<L: Device, B: Device>(
    alloc: Global,
    log: L,
    backing: B,
    play: &mut impl Play<L, B>,
) -> Result<Closed<L, B>, Fail> {
    match Engine::open(alloc, log, backing) {
        Ok(mut engine) => {
            let done = play.carry_out(alloc, &mut engine);
            let closed = engine.close();
            done?;
            Ok(closed)
        }
        Err(stop) => Err(stop.cause.into()),
    }
}

/// What closing leaves of a cache over these devices, which list their calls, with which this was done before.
fn closed_after_listed(
    alloc: Global,
    log: Listed,
    backing: Listed,
    play: &mut impl PlayListed,
) -> Result<Closed<Listed, Listed>, Fail> {
    match Engine::open(alloc, log, backing) {
        Ok(mut engine) => {
            let done = play.carry_out(alloc, &mut engine);
            let closed = engine.close();
            done?;
            Ok(closed)
        }
        Err(stop) => Err(stop.cause.into()),
    }
}

/// The record with which a cache over these devices begins, and the devices, which it gave back at once.
fn begun<L: Device, B: Device>(
    alloc: Global,
    log: L,
    backing: B,
) -> Result<(u64, L, B), OpenStop<L, B>> {
    let engine = Engine::open(alloc, log, backing)?;
    let first = engine.first();
    let (log, backing) = engine.into_devices();
    Ok((first, log, backing))
}

/// The bytes that fill its sectors, where there are 64.
fn former_fills() -> [u8; 64] {
    let mut fills = [0; 64];
    let mut fill = FORMER;
    for place in &mut fills {
        *place = fill;
        fill = fill.wrapping_add(1);
    }
    fills
}

/// A new log.
fn new_log(alloc: Global) -> Result<SteadyDevice, Fail> {
    log_of(alloc, LOG_SECTORS, Some(FIRST.into()))
}

/// A new backing device that doesn't fail.
fn new_backing(alloc: Global) -> Result<SteadyDevice, Fail> {
    Ok(SteadyDevice::of(former_bytes(alloc, SECTORS)?))
}

/// Whether the entry may come into this cache.
fn fits<L: Device, B: Device>(engine: &Engine<L, B>, entry: &Entry) -> bool
    ensures { result ≡ true → Fits engine.now entry.now }
{
    match entry {
        Entry::Write { block, payload, .. } => payload.bits != 0
            && *block < 8
            && engine.geometry().backing_sectors >= 64,
        Entry::Void { .. } => engine.absorbed() % engine.geometry().places() != 0,
    }
}

/// Absorbs the entry where it may come, and says whether it did.
fn put<L: Device, B: Device>(engine: &mut Engine<L, B>, entry: Entry) -> bool {
    let segment = engine.absorbed() / engine.geometry().places();
    if engine.absorbed() >= engine.limit() || engine.first() >= 1 << 47 || segment >= 1 << 47 {
        return false;
    }
    if !fits(engine, &entry) {
        return false;
    }
    engine.absorb(entry);
    true
}

/// The block of a write of these sectors, all filled with this byte.
fn filled(alloc: Global, part: &Part, fill: u8) -> Result<Box<Block>, AllocError>
    requires some { 1 ≤ part.now.count }
    requires inside { part.now.from + part.now.count ≤ 8 }
{
    let bytes = [fill; 4096];
    Block::boxed(alloc, part, &bytes[..512 * usize::from(part.count)])
}

/// A write of these sectors, all filled with this byte.
fn write_of(alloc: Global, part: &Part, fill: u8) -> Result<Entry, Fail> {
    if part.count == 0 || part.from >= 8 || part.count > 8 - part.from {
        return Err(Fail::new("no part of a block"));
    }
    Ok(Entry::Write {
        client: 0,
        block: part.block,
        payload: filled(alloc, part, fill)?,
    })
}

/// Writes these sectors, all filled with this byte, where there is room, and says whether there was.
fn write<L: Device, B: Device>(
    alloc: Global,
    engine: &mut Engine<L, B>,
    part: &Part,
    fill: u8,
) -> Result<bool, Fail> {
    let entry = write_of(alloc, part, fill)?;
    Ok(put(engine, entry))
}

/// What a turn did, where the engine is up.
fn turn<L: Device, B: Device>(engine: &mut Engine<L, B>) -> Option<Result<Turn, Which>> {
    if engine.down().is_some() {
        return None;
    }
    Some(engine.turn())
}

/// Whether these bytes begin with sectors that are filled with these bytes.
fn are_filled(bytes: &[u8], fills: &[u8]) -> bool {
    for (sector, fill) in bytes.chunks_exact(SECTOR_BYTES).zip(fills) {
        if sector != [*fill; SECTOR_BYTES].as_slice() {
            return false;
        }
    }
    fills.len() <= bytes.len() / SECTOR_BYTES
}

/// Whether the block is read as these bytes, one a sector.
fn reads_as<L: Device, B: Device>(engine: &mut Engine<L, B>, block: u8, fills: &[u8; 8]) -> bool {
    let sector = 8 * u64::from(block);
    if sector + 8 > engine.geometry().backing_sectors {
        return false;
    }
    let mut bytes = [0; 8 * SECTOR_BYTES];
    engine.read(sector, &mut bytes).is_ok() && are_filled(&bytes, fills)
}

/// The spots of a block inside the backing device.
fn spots_of<L: Device, B: Device>(engine: &Engine<L, B>, block: u8) -> Option<[Spot; 8]> {
    if 8 * u64::from(block) + 8 > engine.geometry().backing_sectors {
        return None;
    }
    Some(engine.spots(block.into()))
}

/// The backing device.
const NOWHERE: Spot = Spot { id: 0, index: 0 };

/// Fails the test with this text where the condition doesn't hold.
fn holds(condition: bool, text: &str) -> Result<(), Fail> {
    if condition {
        Ok(())
    } else {
        Err(Fail::new(text))
    }
}

/// The row of a table holds.
fn row_holds(rt: &impl Abort, holds: bool, at: usize) {
    assert!(rt; holds, "row {at}");
}

/// Writes the third sector of a block, filled with its number, where there is room.
fn write_third<L: Device, B: Device>(
    alloc: Global,
    engine: &mut Engine<L, B>,
    block: u8,
) -> Result<bool, Fail> {
    let part = Part {
        block: block.into(),
        from: 2,
        count: 1,
    };
    write(alloc, engine, &part, block)
}

/// Whether this sector is read as these bytes.
fn reads_sector<L: Device, B: Device>(engine: &mut Engine<L, B>, sector: u64, want: &[u8]) -> bool {
    if sector >= engine.geometry().backing_sectors {
        return false;
    }
    let mut bytes = [0; SECTOR_BYTES];
    engine.read(sector, &mut bytes).is_ok() && bytes.as_slice() == want
}

/// Whether the third sector of a block is read, and is filled with its number.
fn reads_third<L: Device, B: Device>(engine: &mut Engine<L, B>, block: u8) -> bool {
    reads_sector(engine, 8 * u64::from(block) + 2, &[block; SECTOR_BYTES])
}

/// Whether the third sector of each of the first blocks is read.
fn reads_thirds<L: Device, B: Device>(engine: &mut Engine<L, B>, blocks: u8) -> bool {
    for block in 0..blocks {
        if !reads_third(engine, block) {
            return false;
        }
    }
    true
}

/// A plan of a device on which each call from this one on fails.
fn stopping_at(alloc: Global, call: u64) -> FaultPlan {
    FaultPlan {
        faults: Vec::new(alloc),
        stop: Some(call),
    }
}

/// A formatted log that fails from this call on.
fn failing_log(alloc: Global, call: u64) -> Result<MemoryDevice, Fail> {
    let log = new_log(alloc)?;
    Ok(MemoryDevice::of(alloc, log.into_bytes(), stopping_at(alloc, call))?)
}

/// A backing device that fails from this call on.
fn failing_backing(alloc: Global, call: u64) -> Result<MemoryDevice, Fail> {
    let bytes = former_bytes(alloc, SECTORS)?;
    Ok(MemoryDevice::of(alloc, bytes, stopping_at(alloc, call))?)
}
