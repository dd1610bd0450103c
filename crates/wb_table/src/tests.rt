//! The lookup table beside a plain array.
ghost use Rattle.std.specs.Prelude.{◌≤◌, ◌<◌, ◌≢◌};

use crate::{Lookup, Spot};
use std::alloc::{AllocError, Global};
use std::process::Abort;

/// The blocks of the runs.
const BLOCKS: usize = 6;

/// For how many of them there is room.
const ROOM: usize = 4;

/// The backing device.
const NOWHERE: Spot = Spot { id: 0, index: 0 };

/// The spots of all sectors, eight a block.
#[derive(Drop)]
struct Plain {
    spots: [Spot; 8 * BLOCKS],
}

impl Plain {
    fn note(&mut self, block: usize, bits: u8, spot: Spot)
        requires { block < 6 }
    {
        for i in 0..8 {
            if bits >> i & 1 == 1 {
                self.spots[8 * block + i] = spot;
            }
        }
    }

    fn forget_through(&mut self, id: u64) {
        for spot in &mut self.spots {
            if spot.id <= id {
                *spot = NOWHERE;
            }
        }
    }

    fn spots(&self, block: usize) -> &[Spot]
        requires { block < 6 }
    {
        &self.spots[8 * block..8 * block + 8]
    }

    fn has(&self, block: usize) -> bool
        requires { block < 6 }
    {
        self.spots(block).iter().any(|spot| spot.id != 0)
    }
}

/// The next number of a row that is told by its seed.
fn draw(seed: &mut u64) -> u64 {
    *seed = seed.wrapping_mul(6_364_136_223_846_793_005).wrapping_add(1);
    *seed >> 33
}

/// Notes the spot where there is room, and says whether there was.
fn note(lookup: &mut Lookup, block: u64, bits: u8, spot: Spot) -> bool
    requires id { 1 ≤ spot.id }
    requires some { bits ≢ 0 }
{
    if lookup.has(block) {
        lookup.note(block, bits, spot);
        return true;
    }
    if lookup.spare() == 0 {
        return false;
    }
    lookup.note(block, bits, spot);
    true
}

/// Whether the table answers as the array does.
fn agrees(lookup: &Lookup, plain: &Plain) -> bool {
    let mut there: usize = 0;
    for block in 0..BLOCKS {
        if lookup.find(block as u64).as_slice() != plain.spots(block) {
            return false;
        }
        if lookup.has(block as u64) != plain.has(block) {
            return false;
        }
        there = there.wrapping_add(usize::from(plain.has(block)));
    }
    there.wrapping_add(lookup.spare()) == ROOM
}

/// One step of a run: a forgetting, or a note in a segment up to `back` before the newest.
fn step(lookup: &mut Lookup, plain: &mut Plain, drawn: u64, newest: u64, back: u64) {
    let id = newest.saturating_sub(drawn / 16 % back.saturating_add(1));
    if drawn % 4 == 0 {
        let span = back.saturating_mul(4).saturating_add(4);
        let through = newest.saturating_sub(drawn / 4 % span);
        lookup.forget_through(through);
        plain.forget_through(through);
        return;
    }
    let block = (drawn / 4 % BLOCKS as u64) as usize;
    let bits = (drawn / 32 % 255) as u8 + 1;
    let spot = Spot {
        id: id.max(1),
        index: (drawn % 127) as u8,
    };
    if note(lookup, block as u64, bits, spot) {
        plain.note(block, bits, spot);
    }
}

/// A run of the table and the array, which begins with this number.
fn run(rt: &impl Abort, lookup: &mut Lookup, plain: &mut Plain, first: u64, back: u64) {
    let mut seed = first;
    for turn in 0..400 {
        let drawn = draw(&mut seed);
        step(lookup, plain, drawn, 1 + turn / 2, back);
        assert!(rt; agrees(lookup, plain), "seed {first}, step {turn}");
    }
}

/// A run of a new table and a new array.
fn run_anew(rt: &impl Abort, alloc: Global, first: u64, back: u64) -> Result<(), AllocError> {
    let mut lookup = Lookup::new(alloc, ROOM)?;
    let mut plain = Plain {
        spots: [NOWHERE; 8 * BLOCKS],
    };
    run(rt, &mut lookup, &mut plain, first, back);
    Ok(())
}

#[test]
fn a_table_answers_as_an_array(rt: HostRuntime) -> Result<(), AllocError> {
    for (first, back) in [(1, 0), (2, 0), (3, 9), (4, 30)] {
        run_anew(&rt, rt.alloc(), first, back)?;
    }
    Ok(())
}

/// A segment is forgotten, and then noted in.
fn note_again(rt: &impl Abort, lookup: &mut Lookup) {
    let first = Spot { id: 3, index: 1 };
    assert!(rt; note(lookup, 7, 0b0000_0001, first));
    lookup.forget_through(5);
    assert!(rt; !lookup.has(7));
    assert!(rt; lookup.find(7) == [NOWHERE; 8]);

    let again = Spot { id: 4, index: 2 };
    assert!(rt; note(lookup, 7, 0b1000_0000, again));
    let later = Spot { id: 9, index: 3 };
    assert!(rt; note(lookup, 7, 0b0000_0010, later));
    let stray = Spot { id: 2, index: 4 };
    assert!(rt; note(lookup, 7, 0b0000_0100, stray));

    forget_again(rt, lookup, again, later);
}

/// The segments of block 7 are forgotten one after another.
fn forget_again(rt: &impl Abort, lookup: &mut Lookup, again: Spot, later: Spot) {
    lookup.forget_through(2);
    let mut spots = [NOWHERE; 8];
    spots[1] = later;
    spots[7] = again;
    assert!(rt; lookup.find(7) == spots);
    lookup.forget_through(8);
    spots[7] = NOWHERE;
    assert!(rt; lookup.find(7) == spots);
    lookup.forget_through(9);
    assert!(rt; !lookup.has(7));
    assert!(rt; lookup.spare() == 2);
}

#[test]
fn a_note_in_a_forgotten_segment_counts(rt: HostRuntime) -> Result<(), AllocError> {
    let mut lookup = Lookup::new(rt.alloc(), 2)?;
    note_again(&rt, &mut lookup);
    Ok(())
}

/// Fills a table with 1000 blocks of a segment, finds no room for one more, and forgets them.
fn fill(rt: &impl Abort, lookup: &mut Lookup, id: u64)
    requires { 1 ≤ id }
{
    for block in 0..1000 {
        let number = id.wrapping_mul(1000).wrapping_add(block);
        assert!(rt; note(lookup, number, 0xff, Spot { id, index: 0 }));
    }
    assert!(rt; lookup.spare() == 0);
    assert!(rt; !note(lookup, 0, 0xff, Spot { id, index: 0 }));
    lookup.forget_through(id);
    assert!(rt; lookup.spare() == 1000);
}

/// Whether there is no memory for so large a table.
fn is_too_large(alloc: Global) -> bool {
    Lookup::new(alloc, usize::MAX).is_err()
}

#[test]
fn a_table_has_its_room_again_and_again(rt: HostRuntime) -> Result<(), AllocError> {
    let mut lookup = Lookup::new(rt.alloc(), 1000)?;
    for id in 1..6 {
        fill(&rt, &mut lookup, id);
    }
    assert!(rt; is_too_large(rt.alloc()));
    Ok(())
}
