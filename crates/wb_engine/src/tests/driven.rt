//! Sessions of drawn entries, with batches of one segment and with the greatest: they differ in the calls of the backing device
//! alone.
use super::batches::{Batch, drain, drive};
use super::calls::{Listed, listed};
use super::listed::{draw, draw_part};
use super::{
    PlayListed, SECTOR_BYTES, closed_after_listed, holds, new_backing, put, row_holds, write,
};
use crate::Engine;
use std::alloc::Global;
use std::test::Fail;
use wb_device::SteadyDevice;
use wb_geometry::{Entry, Geometry};
use wb_super::format;

type Cache = Engine<Listed, Listed>;

/// A session with such batches: the seed of what is drawn, all that was read, and how often the backing device was called until
/// there was nothing to do.
#[derive(Drop)]
struct Driven {
    batch: Batch,
    seed: u64,
    answers: Vec<u8>,
    calls: u64,
}

/// How often the backing device was called.
fn calls_of(engine: &Cache) -> u64 {
    let counts = engine.backing.counts();
    counts
        .reads
        .saturating_add(counts.writes)
        .saturating_add(counts.syncs)
}

/// Makes steps until there is room for an entry, and says whether there is.
fn make_room(engine: &mut Cache, batch: Batch) -> bool {
    for _ in 0..100 {
        if engine.absorbed() < engine.limit() {
            return true;
        }
        if !drive(engine, batch) {
            return false;
        }
    }
    false
}

/// A drawn entry: a write of some sectors of a block, or, behind the first of a segment, nothing now and then.
fn enter(alloc: Global, engine: &mut Cache, seed: &mut u64) -> Result<bool, Fail> {
    let block = (draw(seed) % 4) as u8;
    let part = draw_part(seed, block);
    let fill = (draw(seed) % 256) as u8;
    let begun = engine.absorbed() % engine.geometry().places() != 0;
    if draw(seed) % 8 == 0 && begun {
        return Ok(put(engine, Entry::Void { client: 0 }));
    }
    write(alloc, engine, &part, fill)
}

/// Reads a block, and keeps what is read.
fn answer(engine: &mut Cache, block: u8, answers: &mut Vec<u8>) -> Result<(), Fail> {
    let sector = 8 * u64::from(block);
    if sector + 8 > engine.geometry().backing_sectors {
        return Err(Fail::new("the block isn't inside"));
    }
    let mut bytes = [0; 8 * SECTOR_BYTES];
    holds(engine.read(sector, &mut bytes).is_ok(), "it isn't read")?;
    answers.extend_from_slice(&bytes)?;
    Ok(())
}

/// An entry comes, maybe a step behind it, and then a block is read.
fn go_on(alloc: Global, engine: &mut Cache, driven: &mut Driven) -> Result<(), Fail> {
    holds(make_room(engine, driven.batch), "there is no room")?;
    let entered = enter(alloc, engine, &mut driven.seed)?;
    holds(entered, "an entry doesn't come")?;
    if draw(&mut driven.seed) % 4 == 0 {
        drive(engine, driven.batch);
    }
    let block = (draw(&mut driven.seed) % 4) as u8;
    answer(engine, block, &mut driven.answers)
}

impl PlayListed for Driven {
    fn carry_out(&mut self, alloc: Global, engine: &mut Cache) -> Result<(), Fail> {
        for _ in 0..61 {
            go_on(alloc, engine, self)?;
        }
        holds(drain(engine, self.batch), "it isn't drained")?;
        self.calls = calls_of(engine);
        Ok(())
    }
}

/// The order, the slots and the segments in memory, and a seed.
type Row = (u32, u32, u32, u64);

/// A log of this size.
fn log_of_row(alloc: Global, row: &Row) -> Result<SteadyDevice, Fail> {
    let mut log = SteadyDevice::of(vec![in alloc; 0; 2432 * SECTOR_BYTES]?);
    format(&mut log, &Geometry::new(row.0, row.1, row.2, 64)?)?;
    Ok(log)
}

/// What a session leaves: the bytes of the backing device, what was read, and the calls.
#[derive(Drop)]
struct Left {
    bytes: Vec<u8>,
    answers: Vec<u8>,
    calls: u64,
}

/// What the session of this row leaves with such batches.
fn left_by(alloc: Global, row: &Row, batch: Batch) -> Result<Left, Fail> {
    let log = listed(alloc, log_of_row(alloc, row)?)?;
    let backing = listed(alloc, new_backing(alloc)?)?;
    let mut driven = Driven {
        batch,
        seed: row.3,
        answers: Vec::new(alloc),
        calls: 0,
    };
    let closed = closed_after_listed(alloc, log, backing, &mut driven)?;
    Ok(Left {
        bytes: closed.backing.into_inner().into_bytes(),
        answers: driven.answers,
        calls: driven.calls,
    })
}

/// Whether both sessions leave the same, and read the same, and the second has fewer calls of the backing device.
fn differ_in_calls(one: &Left, most: &Left) -> bool {
    one.bytes == most.bytes && one.answers == most.answers && most.calls < one.calls
}

/// Whether the sessions of this row do.
fn is_saving(alloc: Global, row: &Row) -> Result<bool, Fail> {
    let one = left_by(alloc, row, Batch::One)?;
    let most = left_by(alloc, row, Batch::Most)?;
    Ok(differ_in_calls(&one, &most))
}

const ROWS: [Row; 12] = [
    (4, 8, 2, 1),
    (4, 8, 2, 2),
    (4, 8, 2, 3),
    (4, 8, 2, 4),
    (4, 16, 3, 5),
    (4, 16, 3, 6),
    (4, 16, 3, 7),
    (4, 16, 3, 8),
    (5, 12, 2, 9),
    (5, 12, 2, 10),
    (5, 12, 2, 11),
    (5, 12, 2, 12),
];

#[test]
fn batches_save_calls_and_change_nothing_else(rt: HostRuntime) -> Result<(), Fail> {
    for (at, row) in ROWS.iter().enumerate() {
        row_holds(&rt, is_saving(rt.alloc(), row)?, at);
    }
    Ok(())
}
