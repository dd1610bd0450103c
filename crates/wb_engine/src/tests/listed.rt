//! The engine beside a plain list of what was written.
use super::{
    FORMER, NOWHERE, OPENED, Play, SECTOR_BYTES, are_filled, closed_after, holds, new_backing,
    new_log, put, reads_as, spots_of, turn, write,
};
use crate::{Engine, Turn};
use std::alloc::Global;
use std::test::Fail;
use wb_device::SteadyDevice;
use wb_geometry::{Entry, Part, Spot};

/// A block of the list: for each sector the byte that fills it, and where it was written last.
#[derive(Clone, Copy)]
struct PlainBlock {
    fills: [u8; 8],
    spots: [Spot; 8],
}

/// What was written, kept plainly.
#[derive(Clone, Copy)]
struct Plain {
    blocks: [PlainBlock; 8],
    /// The blocks of the open segment, in the order in which they came into it.
    open: [Option<u64>; 3],
    absorbed: u32,
    /// The segments that are logged, those of them that are stable, that are written back, and that are recorded.
    logged: u32,
    stable: u32,
    back: u32,
    recorded: u32,
}

impl Plain {
    /// Nothing is written yet.
    fn new() -> Plain {
        let mut blocks = [PlainBlock {
            fills: [0; 8],
            spots: [NOWHERE; 8],
        }; 8];
        let mut fill = FORMER;
        for block in &mut blocks {
            for place in &mut block.fills {
                *place = fill;
                fill = fill.wrapping_add(1);
            }
        }
        Plain {
            blocks,
            open: [None; 3],
            absorbed: 0,
            logged: 0,
            stable: 0,
            back: 0,
            recorded: 0,
        }
    }

    /// The index of a block in the open segment.
    fn index_of(&mut self, block: u64) -> u8 {
        for (index, place) in self.open.iter_mut().enumerate() {
            if place.is_none() || *place == Some(block) {
                *place = Some(block);
                return index as u8;
            }
        }
        u8::MAX
    }

    /// Takes a place.
    fn take_place(&mut self) {
        self.absorbed = self.absorbed.wrapping_add(1);
        if self.absorbed % 3 == 0 {
            self.open = [None; 3];
        }
    }

    /// Takes a write of these sectors.
    fn write(&mut self, part: &Part, fill: u8) {
        let spot = Spot {
            id: u64::from(OPENED + 1).wrapping_add(u64::from(self.absorbed / 3)),
            index: self.index_of(part.block),
        };
        let from = usize::from(part.from);
        let count = usize::from(part.count);
        if let Some(block) = self.blocks.get_mut(part.block as usize) {
            for place in block.fills.iter_mut().skip(from).take(count) {
                *place = fill;
            }
            for place in block.spots.iter_mut().skip(from).take(count) {
                *place = spot;
            }
        }
        self.take_place();
    }

    /// What a turn does.
    fn turn(&mut self) -> Turn {
        if self.logged < self.absorbed / 3 && self.logged < self.recorded.saturating_add(4) {
            self.logged = self.logged.wrapping_add(1);
            Turn::Logged
        } else if self.stable < self.logged {
            self.stable = self.logged;
            Turn::Synced
        } else if self.back < self.stable {
            self.back = self.stable.min(self.back.saturating_add(8));
            Turn::Backed
        } else if self.recorded < self.back {
            self.recorded = self.back;
            Turn::Recorded
        } else {
            Turn::Idle
        }
    }

    /// The spots of a block: those in segments that aren't recorded.
    fn spots_of(&self, block: u8) -> Option<[Spot; 8]> {
        let mut spots = self.blocks.get(usize::from(block))?.spots;
        for spot in &mut spots {
            if spot.id <= u64::from(OPENED) + u64::from(self.recorded) {
                *spot = NOWHERE;
            }
        }
        Some(spots)
    }

    /// The bytes of a block, one a sector.
    fn fills_of(&self, block: u8) -> [u8; 8] {
        match self.blocks.get(usize::from(block)) {
            Some(block) => block.fills,
            None => [0; 8],
        }
    }
}

/// A cache over devices that never fail.
type Cache = Engine<SteadyDevice, SteadyDevice>;

/// Whether the numbers are those of the list.
fn has_numbers(engine: &Cache, plain: &Plain) -> bool {
    engine.absorbed() == u64::from(plain.absorbed)
        && engine.limit() == 3 * (u64::from(plain.logged) + 2)
        && engine.stable() == 3 * u64::from(plain.stable)
        && engine.first() == u64::from(OPENED)
        && engine.recorded() == u64::from(OPENED) + u64::from(plain.recorded)
        && engine.down().is_none()
}

/// Whether the block is read as the list has it, and its sectors are where the list says.
fn agrees_on(engine: &mut Cache, plain: &Plain, block: u8) -> bool {
    spots_of(engine, block) == plain.spots_of(block)
        && reads_as(engine, block, &plain.fills_of(block))
}

/// A turn of both, and whether it did the same.
fn turn_both(engine: &mut Cache, plain: &mut Plain) -> bool {
    turn(engine) == Some(Ok(plain.turn()))
}

/// Turns of both until there is room for an entry, and whether they did the same.
fn make_room(engine: &mut Cache, plain: &mut Plain) -> bool {
    for _ in 0..12 {
        if engine.absorbed() < engine.limit() {
            return true;
        }
        if !turn_both(engine, plain) {
            return false;
        }
    }
    false
}

/// The next number of a row that is told by its seed.
pub(super) fn draw(seed: &mut u64) -> u64 {
    *seed = seed.wrapping_mul(6_364_136_223_846_793_005).wrapping_add(1);
    *seed >> 33
}

/// Some sectors of a block.
pub(super) fn draw_part(seed: &mut u64, block: u8) -> Part {
    let from = (draw(seed) % 8) as u8;
    let count = 1 + (draw(seed) % 8) as u8;
    Part {
        block: block.into(),
        from,
        count: count.min(8 - from),
    }
}

/// An entry in both: a write of some sectors of this block, or nothing.
fn enter(
    alloc: Global,
    engine: &mut Cache,
    plain: &mut Plain,
    seed: &mut u64,
    block: u8,
) -> Result<bool, Fail> {
    if plain.absorbed % 3 != 0 && draw(seed) % 8 == 0 {
        plain.take_place();
        return Ok(put(engine, Entry::Void { client: 0 }));
    }
    let part = draw_part(seed, block);
    let fill = (draw(seed) % 256) as u8;
    plain.write(&part, fill);
    write(alloc, engine, &part, fill)
}

/// A step of both: a turn, or an entry, for which turns make room where there is none. Says whether both did the same.
fn step(
    alloc: Global,
    engine: &mut Cache,
    plain: &mut Plain,
    seed: &mut u64,
    block: u8,
) -> Result<bool, Fail> {
    if draw(seed) % 8 == 0 {
        return Ok(turn_both(engine, plain));
    }
    if !make_room(engine, plain) {
        return Ok(false);
    }
    enter(alloc, engine, plain, seed, block)
}

/// So many steps of both, each with what two blocks then hold.
fn play(alloc: Global, engine: &mut Cache, plain: &mut Plain, rounds: u32) -> Result<(), Fail> {
    let mut seed = 5;
    for _ in 0..rounds {
        let block = (draw(&mut seed) % 8) as u8;
        let other = (draw(&mut seed) % 8) as u8;
        let same = step(alloc, engine, plain, &mut seed, block)?;
        holds(same, "a step did something else")?;
        holds(has_numbers(engine, plain), "other numbers")?;
        holds(agrees_on(engine, plain, block), "another block")?;
        holds(agrees_on(engine, plain, other), "another block beside it")?;
    }
    holds(agrees_on_all(engine, plain), "another block at the end")?;
    let begun = plain.absorbed % 3 != 0 && plain.logged < plain.absorbed / 3;
    holds(begun, "no sealed segment waits, or none is begun")
}

/// Whether both agree on all blocks.
fn agrees_on_all(engine: &mut Cache, plain: &Plain) -> bool {
    for block in 0..8 {
        if !agrees_on(engine, plain, block) {
            return false;
        }
    }
    true
}

/// Whether these are the bytes of the backing device that the list has.
fn left(bytes: &[u8], plain: &Plain) -> bool {
    for (bytes, block) in bytes.chunks_exact(8 * SECTOR_BYTES).zip(&plain.blocks) {
        if !are_filled(bytes, &block.fills) {
            return false;
        }
    }
    true
}

impl Play<SteadyDevice, SteadyDevice> for Plain {
    fn carry_out(&mut self, alloc: Global, engine: &mut Cache) -> Result<(), Fail> {
        play(alloc, engine, self, 301)
    }
}

#[test]
fn engine_and_plain_list_agree(rt: HostRuntime) -> Result<(), Fail> {
    let log = new_log(rt.alloc())?;
    let backing = new_backing(rt.alloc())?;
    let mut plain = Plain::new();
    let closed = closed_after(rt.alloc(), log, backing, &mut plain)?;
    assert!(rt; closed.fault.is_none() && left(closed.backing.bytes(), &plain));
    Ok(())
}
