//! Batches: which segments are written back at once, and by which calls.
use super::calls::{Listed, listed};
use super::{
    PlayListed, SECTOR_BYTES, are_filled, closed_after_listed, former_fills, holds, narrow_log,
    new_backing, row_holds, write,
};
use crate::{Closed, Engine};
use std::alloc::Global;
use std::test::Fail;
use wb_device::{Device, SteadyDevice};
use wb_geometry::Part;
use wb_super::read_super;

/// How many segments are written back at once: one, or as many as there may be.
#[derive(Clone, Copy)]
pub(super) enum Batch {
    One,
    Most,
}

/// Logs the next segment, where one can be, and says whether it did.
pub(super) fn logs<L: Device, B: Device>(engine: &mut Engine<L, B>) -> bool {
    if !engine.can_log() {
        return false;
    }
    engine.log_next().is_ok()
}

/// Syncs the log, where it can be, and says whether it did.
pub(super) fn syncs<L: Device, B: Device>(engine: &mut Engine<L, B>) -> bool {
    if !engine.can_sync() {
        return false;
    }
    engine.sync_log().is_ok()
}

/// Writes segments back, where one can be, and says whether it did.
pub(super) fn backs<L: Device, B: Device>(engine: &mut Engine<L, B>, batch: Batch) -> bool {
    if !engine.can_back() {
        return false;
    }
    match batch {
        Batch::One => engine.back_through(engine.numbers.back + 1).is_ok(),
        Batch::Most => engine.back_batch().is_ok(),
    }
}

/// Writes the record, where it can be, and says whether it did.
pub(super) fn records<L: Device, B: Device>(engine: &mut Engine<L, B>) -> bool {
    if !engine.can_record() {
        return false;
    }
    engine.put_record().is_ok()
}

/// Makes the first of the four steps that can be made, and says whether there was one.
pub(super) fn drive<L: Device, B: Device>(engine: &mut Engine<L, B>, batch: Batch) -> bool {
    logs(engine) || syncs(engine) || backs(engine, batch) || records(engine)
}

/// Makes steps until there is none to make, and says whether the engine is up then.
pub(super) fn drain<L: Device, B: Device>(engine: &mut Engine<L, B>, batch: Batch) -> bool {
    for _ in 0..200 {
        if !drive(engine, batch) {
            return engine.down().is_none();
        }
    }
    false
}

/// A session over a log of narrow slots: so many segments are recorded, all up to the second number are stable, and all up to
/// the third are logged.
#[derive(Clone, Copy)]
pub(super) struct Session {
    pub(super) recorded: u8,
    pub(super) stable: u8,
    pub(super) logged: u8,
}

/// The block of the segment of this number, counted from 0. The stable ones write the first three blocks over and over, and the
/// others a block that no stable one has.
fn block_of(session: &Session, number: u8) -> u8 {
    if number < session.stable {
        number % 3
    } else {
        3
    }
}

/// The sectors of that segment.
fn part_of(session: &Session, number: u8) -> Part {
    Part {
        block: block_of(session, number).into(),
        from: number % 5,
        count: 1 + number % 3,
    }
}

/// Writes the segments from this one up to the other, each filled with its number and one, and logs them.
fn log_segments<L: Device, B: Device>(
    alloc: Global,
    engine: &mut Engine<L, B>,
    session: &Session,
    from: u8,
    to: u8,
) -> Result<(), Fail> {
    for number in from..to {
        let part = part_of(session, number);
        let wrote = write(alloc, engine, &part, number.wrapping_add(1))?;
        holds(wrote && logs(engine), "a segment isn't logged")?;
    }
    Ok(())
}

/// Begins a session.
pub(super) fn begin<L: Device, B: Device>(
    alloc: Global,
    engine: &mut Engine<L, B>,
    session: &Session,
) -> Result<(), Fail> {
    log_segments(alloc, engine, session, 0, session.recorded)?;
    holds(drain(engine, Batch::One), "it isn't recorded")?;
    log_segments(alloc, engine, session, session.recorded, session.stable)?;
    holds(syncs(engine), "it isn't synced")?;
    log_segments(alloc, engine, session, session.stable, session.logged)
}

/// Puts a segment into the bytes that fill the sectors of the backing device.
fn put_fills(fills: &mut [u8; 64], session: &Session, number: u8) {
    let part = part_of(session, number);
    let first = 8 * usize::from(block_of(session, number)) + usize::from(part.from);
    for place in fills.iter_mut().skip(first).take(part.count.into()) {
        *place = number.wrapping_add(1);
    }
}

/// Whether these are the bytes of the backing device once so many segments are put.
pub(super) fn has_segments(bytes: &[u8], session: &Session, put: u8) -> bool {
    let mut fills = former_fills();
    for number in 0..put {
        put_fills(&mut fills, session, number);
    }
    bytes.len() == 64 * SECTOR_BYTES && are_filled(bytes, &fills)
}

/// Three entries of one sector, each a segment of its own, of which the first is logged before the third comes. All are stable
/// then.
fn log_three(alloc: Global, engine: &mut Engine<Listed, Listed>) -> Result<(), Fail> {
    let part = Part {
        block: 0,
        from: 0,
        count: 1,
    };
    let first = write(alloc, engine, &part, 0x01)?;
    let second = write(alloc, engine, &part, 0x02)?;
    holds(first && second && logs(engine), "the first isn't logged")?;
    let third = write(alloc, engine, &part, 0x03)?;
    holds(third && logs(engine) && logs(engine), "not all are logged")?;
    holds(syncs(engine), "it isn't synced")
}

/// How often the backing device was written and synced.
fn changes_of(engine: &Engine<Listed, Listed>) -> (u64, u64) {
    let counts = engine.backing.counts();
    (counts.writes, counts.syncs)
}

/// Whether the first sector of the backing device has the newest bytes.
fn has_newest(engine: &Engine<Listed, Listed>) -> bool {
    are_filled(engine.backing.inner().bytes(), &[0x03])
}

/// Three segments that write the same sector, in one batch.
#[derive(Drop)]
struct OneSector;

impl PlayListed for OneSector {
    /// To open the cache took two syncs of the backing device.
    fn carry_out(
        &mut self,
        alloc: Global,
        engine: &mut Engine<Listed, Listed>,
    ) -> Result<(), Fail> {
        log_three(alloc, engine)?;
        holds(changes_of(engine) == (0, 2), "it was written too early")?;
        holds(backs(engine, Batch::Most), "it isn't written back")?;
        holds(changes_of(engine) == (1, 3), "not one write and one sync")?;
        holds(has_newest(engine), "it hasn't the newest")?;
        holds(!engine.can_back(), "a segment is left")
    }
}

#[test]
fn a_batch_writes_a_sector_once(rt: HostRuntime) -> Result<(), Fail> {
    let log = listed(rt.alloc(), narrow_log(rt.alloc(), 8)?)?;
    let backing = listed(rt.alloc(), new_backing(rt.alloc())?)?;
    let closed = closed_after_listed(rt.alloc(), log, backing, &mut OneSector)?;
    assert!(rt; closed.fault.is_none() && closed.backing.counts().syncs == 3);
    Ok(())
}

/// A session, and how many segments each of the batches takes that can be made then.
#[derive(Clone, Copy)]
struct Batches {
    session: Session,
    takes: [u8; 2],
}

/// A batch takes so many segments, by one sync, and the backing device has all up to the last of them.
fn takes(engine: &mut Engine<Listed, Listed>, session: &Session, last: u8) -> Result<(), Fail> {
    let (_, before) = changes_of(engine);
    holds(backs(engine, Batch::Most), "it isn't written back")?;
    let (_, after) = changes_of(engine);
    holds(after.saturating_sub(before) == 1, "not one sync")?;
    let back = engine.numbers.back.saturating_sub(engine.numbers.first);
    holds(back == u64::from(last), "another number of segments")?;
    let bytes = engine.backing.inner().bytes();
    holds(has_segments(bytes, session, last), "other bytes are put")
}

impl PlayListed for Batches {
    fn carry_out(
        &mut self,
        alloc: Global,
        engine: &mut Engine<Listed, Listed>,
    ) -> Result<(), Fail> {
        begin(alloc, engine, &self.session)?;
        let mut last = self.session.recorded;
        for count in &self.takes {
            last = last.wrapping_add(*count);
            if *count != 0 {
                takes(engine, &self.session, last)?;
            }
        }
        holds(!engine.can_back(), "a segment is left")
    }
}

/// The sessions over sixteen slots, and their batches. The later ones go over the last slot to the first.
const ROWS: [(u8, u8, u8, [u8; 2]); 9] = [
    (0, 1, 1, [1, 0]),
    (0, 3, 5, [3, 0]),
    (0, 8, 9, [8, 0]),
    (0, 9, 9, [8, 1]),
    (0, 10, 10, [8, 2]),
    (0, 10, 13, [8, 2]),
    (13, 16, 18, [3, 0]),
    (13, 21, 24, [8, 0]),
    (13, 23, 29, [8, 2]),
];

/// Whether closing put all segments, and recorded them. The ids of the session begin behind sixteen slots.
fn closed_well(closed: Closed<Listed, Listed>, session: &Session) -> bool {
    let mut log = closed.log;
    match read_super(&mut log) {
        Ok(found) => closed.fault.is_none()
            && found.recorded == 16 + u64::from(session.logged)
            && has_segments(closed.backing.inner().bytes(), session, session.logged),
        Err(_) => false,
    }
}

/// Whether the batches of the row are made.
fn is_row(alloc: Global, row: &(u8, u8, u8, [u8; 2])) -> Result<bool, Fail> {
    let (recorded, stable, logged, takes) = *row;
    let session = Session {
        recorded,
        stable,
        logged,
    };
    let log = listed(alloc, narrow_log(alloc, 16)?)?;
    let backing = listed(alloc, new_backing(alloc)?)?;
    let closed = closed_after_listed(alloc, log, backing, &mut Batches { session, takes })?;
    Ok(closed_well(closed, &session))
}

#[test]
fn a_batch_ends_at_what_is_stable(rt: HostRuntime) -> Result<(), Fail> {
    for (at, row) in ROWS.iter().enumerate() {
        row_holds(&rt, is_row(rt.alloc(), row)?, at);
    }
    Ok(())
}
