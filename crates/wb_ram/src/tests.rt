//! Merges into a segment in memory, sector by sector.
ghost use Rattle.std.specs.Prelude.{◌≤◌, ◌<◌, ◌+◌};

use crate::RamSegment;
use std::alloc::{AllocError, Global};
use std::process::Abort;
use wb_geometry::{Block, Part};
use wb_header::{Meta, Sealed};

/// The blocks that are written are below this number.
const BLOCKS: usize = 12;

/// The room of a segment that not all of the blocks fill.
const ROOM: usize = 13;

/// What a segment should have: each sector of the blocks by the byte that fills it, or 0 where it hasn't got it.
type Held = [[u8; 8]; BLOCKS];

/// The block of a write of `count` of its sectors from `from` on. Sector `i` is filled with the byte `fill + i`.
fn written(alloc: Global, from: u8, count: u8, fill: u8) -> Result<Box<Block>, AllocError>
    requires some { 1 ≤ count }
    requires inside { from + count ≤ 8 }
{
    let mut bytes = [0; 4096];
    for (at, byte) in bytes.iter_mut().enumerate() {
        *byte = fill.wrapping_add((at / 512) as u8);
    }
    let part = Part {
        block: 0,
        from,
        count,
    };
    let start = 512 * usize::from(from);
    let end = start + 512 * usize::from(count);
    Block::boxed(alloc, &part, &bytes[start..end])
}

/// Whether the segment has these sectors of a block, and no others of it.
fn holds_block(segment: &RamSegment, block: u64, bytes: &[u8; 8]) -> bool {
    (0..8).all(|index: u8| match segment.sector(block, index) {
        Some(sector) => bytes[usize::from(index)] != 0
            && sector == [bytes[usize::from(index)]; 512].as_slice(),
        None => bytes[usize::from(index)] == 0,
    })
}

/// Whether the segment has these sectors, and no others of these blocks.
fn holds(segment: &RamSegment, held: &Held) -> bool {
    held.iter()
        .enumerate()
        .all(|(block, bytes)| holds_block(segment, block as u64, bytes))
}

/// Merges, each as a block, its first sector, the count of the sectors and what they are filled with; and after each the
/// index that was answered, the number of blocks, and what the block then has.
type Merge = (usize, u8, u8, u8, u8, usize, [u8; 8]);

const MERGES: [Merge; 7] = [
    (7, 1, 2, 0x10, 0, 1, [0, 0x11, 0x12, 0, 0, 0, 0, 0]),
    (
        9,
        0,
        8,
        0x20,
        1,
        2,
        [0x20, 0x21, 0x22, 0x23, 0x24, 0x25, 0x26, 0x27],
    ),
    (7, 2, 3, 0x30, 0, 2, [0, 0x11, 0x32, 0x33, 0x34, 0, 0, 0]),
    (7, 7, 1, 0x40, 0, 2, [0, 0x11, 0x32, 0x33, 0x34, 0, 0, 0x47]),
    (
        9,
        3,
        1,
        0x50,
        1,
        2,
        [0x20, 0x21, 0x22, 0x53, 0x24, 0x25, 0x26, 0x27],
    ),
    (0, 0, 1, 0x60, 2, 3, [0x60, 0, 0, 0, 0, 0, 0, 0]),
    (
        7,
        0,
        2,
        0x70,
        0,
        3,
        [0x70, 0x71, 0x32, 0x33, 0x34, 0, 0, 0x47],
    ),
];

/// Merges a write of `count` sectors of a block from `from` on, and gives the index of the block.
fn merge(
    rt: &impl Abort,
    alloc: Global,
    segment: &mut RamSegment,
    block: usize,
    from: u8,
    count: u8,
    fill: u8,
) -> Result<u8, AllocError>
    requires some { 1 ≤ count }
    requires inside { from + count ≤ 8 }
{
    let payload = written(alloc, from, count, fill)?;
    assert!(rt; payload.bits != 0 && segment.spare() != 0);
    Ok(segment.merge(block as u64, payload))
}

/// Merges a write of the table, and gives the index of the block.
fn merge_row(
    rt: &impl Abort,
    alloc: Global,
    segment: &mut RamSegment,
    row: &Merge,
) -> Result<u8, AllocError> {
    let (block, from, count, fill, ..) = *row;
    assert!(rt; from < 8 && 1 <= count && count <= 8 - from);
    merge(rt, alloc, segment, block, from, count, fill)
}

/// The segment has what the table says after a merge.
fn is_merged(rt: &impl Abort, segment: &RamSegment, held: &mut Held, row: &Merge, index: u8) {
    let (block, _, _, _, wanted, len, bytes) = *row;
    assert!(rt; index == wanted);
    assert!(rt; segment.len() == len);
    assert!(rt; segment.spare() == ROOM.saturating_sub(len));
    assert!(rt; block < BLOCKS);
    held[block] = bytes;
    assert!(rt; holds(segment, held));
}

/// Merges the writes of the table into an empty segment.
fn merge_rows(rt: &impl Abort, alloc: Global, segment: &mut RamSegment) -> Result<(), AllocError> {
    let mut held = [[0; 8]; BLOCKS];
    assert!(rt; segment.id() == 5 && segment.spare() == ROOM && holds(segment, &held));
    for row in &MERGES {
        let index = merge_row(rt, alloc, segment, row)?;
        is_merged(rt, segment, &mut held, row, index);
    }
    Ok(())
}

/// The segment of the table is sealed.
fn is_sealed(rt: &impl Abort, sealed: &Sealed) {
    assert!(rt; sealed.id() == 5);
    assert!(rt; sealed.len() == 3);
    for (index, block, bits) in [(0, 7, 0x9f), (1, 9, 0xff), (2, 0, 0x01)] {
        assert!(rt;
            index < 3 && sealed.meta(index) == Meta { block, bits },
            "at {index}"
        );
    }
}

/// A segment has another id, and nothing of the former one but its room.
fn is_used_again(rt: &impl Abort, segment: &RamSegment) {
    assert!(rt; segment.id() == 6);
    assert!(rt; segment.len() == 0);
    assert!(rt; segment.spare() == ROOM);
    assert!(rt; holds(segment, &[[0; 8]; BLOCKS]));
}

#[test]
fn writes_are_merged_by_block(rt: HostRuntime) -> Result<(), AllocError> {
    let mut segment = RamSegment::new(rt.alloc(), 5, ROOM)?;
    merge_rows(&rt, rt.alloc(), &mut segment)?;
    assert!(rt; segment.len() != 0);
    let sealed = segment.seal();
    is_sealed(&rt, &sealed);
    let blocks = sealed.into_blocks();
    assert!(rt; blocks.capacity() == ROOM);
    let again = RamSegment::again(6, blocks);
    is_used_again(&rt, &again);
    Ok(())
}

/// Merges two writes of one block, for which alone there is room.
fn merge_twice(rt: &impl Abort, alloc: Global, segment: &mut RamSegment) -> Result<(), AllocError> {
    let first = written(alloc, 0, 1, 0x10)?;
    assert!(rt; first.bits != 0 && segment.spare() != 0);
    assert!(rt; segment.merge(u64::MAX, first) == 0);
    assert!(rt; segment.spare() == 0);
    let second = written(alloc, 1, 1, 0x20)?;
    assert!(rt; second.bits != 0);
    assert!(rt; segment.merge(u64::MAX, second) == 0);
    assert!(rt; holds_block(segment, u64::MAX, &[0x10, 0x21, 0, 0, 0, 0, 0, 0]));
    Ok(())
}

#[test]
fn a_full_segment_takes_a_write_of_its_block(rt: HostRuntime) -> Result<(), AllocError> {
    let mut segment = RamSegment::new(rt.alloc(), 1, 1)?;
    merge_twice(&rt, rt.alloc(), &mut segment)
}

/// Whether a segment has no block yet, and room for as many as one may have.
fn has_most_room(segment: &RamSegment) -> bool {
    segment.len() == 0 && segment.spare() == 127
}

#[test]
fn a_large_vector_gives_room_for_127_blocks(rt: HostRuntime) -> Result<(), AllocError> {
    let segment = RamSegment::again(1, Vec::with_capacity(rt.alloc(), 200)?);
    assert!(rt; has_most_room(&segment));
    Ok(())
}

/// The next number of a sequence, below `limit`.
fn next(state: &mut u64, limit: u8) -> u8
    requires { 1 ≤ limit }
    ensures { result < limit }
{
    *state = state
        .wrapping_mul(6_364_136_223_846_793_005)
        .wrapping_add(1_442_695_040_888_963_407);
    (*state >> 56) as u8 % limit
}

/// Notes a write of `count` sectors from `from` on.
fn note(bytes: &mut [u8; 8], from: u8, count: u8, fill: u8)
    requires { from + count ≤ 8 }
{
    for sector in from..from + count {
        bytes[usize::from(sector)] = fill.wrapping_add(sector);
    }
}

/// Merges a write that is drawn, after which the segment has what was written last.
fn merge_drawn(
    rt: &impl Abort,
    alloc: Global,
    segment: &mut RamSegment,
    held: &mut Held,
    state: &mut u64,
) -> Result<(), AllocError> {
    let block = usize::from(next(state, BLOCKS as u8));
    let from = next(state, 8);
    let count = 1 + next(state, 8 - from);
    let fill = 1 + next(state, 240);
    merge(rt, alloc, segment, block, from, count, fill)?;
    note(&mut held[block], from, count, fill);
    assert!(rt; holds(segment, held));
    Ok(())
}

/// Merges many writes that are drawn.
fn merge_many(rt: &impl Abort, alloc: Global, segment: &mut RamSegment) -> Result<(), AllocError> {
    let mut held = [[0; 8]; BLOCKS];
    let mut state = 20;
    for _ in 0..400 {
        merge_drawn(rt, alloc, segment, &mut held, &mut state)?;
    }
    assert!(rt; segment.len() == BLOCKS);
    Ok(())
}

#[test]
fn many_merges_leave_what_was_written_last(rt: HostRuntime) -> Result<(), AllocError> {
    let mut segment = RamSegment::new(rt.alloc(), 1, ROOM)?;
    merge_many(&rt, rt.alloc(), &mut segment)
}
