//! Segments that are kept, and segments written to a device in memory and read back.
ghost use Rattle.std.specs.Prelude.{◌≡◌, ◌⊎◌, ◌+◌, ◌≤◌, ◌<◌, [], IfOk, OnOk, length};
ghost use Rattle.wb_geometry.specs.Layout.{places};
ghost use Rattle.wb_log.specs.Kept.{IsThere};

use crate::{LogState, read_block, read_sector, write_segment};
use std::alloc::{AllocError, Global};
use std::process::Abort;
use std::test::Fail;
use wb_device::{Device, FaultPlan, MemoryDevice, PlannedFault};
use wb_geometry::{Block, Geometry, GeometryRefused, Part, Spot};
use wb_header::{Cached, Meta, Sealed, check, encode};

const SECTOR_BYTES: usize = 512;

const BLOCK_BYTES: usize = 4096;

/// The sectors of a log of 4 slots of order 5, each with 3 places.
const LOG_SECTORS: usize = 2176;

/// The first sector of the slots.
const FIRST_SLOT: usize = 2048;

/// The byte that a device is full of at first.
const FORMER: u8 = 0x5a;

/// A geometry of 4 slots of order 5.
fn geometry() -> Result<Geometry, GeometryRefused>
    ensures slots { IfOk result (λ g. g.slots ≡ 4) }
    ensures order { IfOk result (λ g. g.order ≡ 5) }
{
    Geometry::new(5, 4, 2, 4096)
}

/// The number of the first block of segment `id`; the others follow.
fn first_block(id: u64) -> u64
    requires { id ≤ 100 }
    ensures { result ≤ 300 }
{
    3 * id
}

/// A segment of so many blocks: of the first the first sector is dirty, of the second the first two, of the third three.
fn segment_of(alloc: Global, id: u64, count: u8) -> Result<Sealed, AllocError>
    requires named { 1 ≤ id }
    requires low { id ≤ 100 }
    requires some { 1 ≤ count }
    requires few { count ≤ 3 }
    ensures id { IfOk result (λ segment. segment.id ≡ id) }
    ensures count { IfOk result (λ segment. length segment.blocks ≡ count) }
{
    let first = first_block(id);
    let mut blocks = Vec::new(alloc);
    for index in 0..count {
        let part = Part {
            block: 0,
            from: 0,
            count: index + 1,
        };
        let bytes = [id as u8; 3 * SECTOR_BYTES];
        let size = SECTOR_BYTES * (usize::from(index) + 1);
        let payload = Block::boxed(alloc, &part, &bytes[..size])?;
        let block = first + u64::from(index);
        blocks.push(Cached { block, payload })?;
    }
    Ok(Sealed::of(id, blocks))
}

/// Whether the state shows segment `id`, with so many blocks.
fn shows(state: &LogState, id: u64, count: u8) -> bool
    requires there { IsThere state.now id }
    requires low { id ≤ 100 }
{
    if state.length(id) != count {
        return false;
    }
    for index in 0..count {
        let meta = Meta {
            block: first_block(id) + u64::from(index),
            bits: [0b1, 0b11, 0b111][usize::from(index % 3)],
        };
        if state.meta(id, index) != meta {
            return false;
        }
    }
    true
}

/// Keeps segment `id`, with so many blocks.
fn keep(alloc: Global, state: &mut LogState, id: u64, count: u8) -> Result<(), AllocError>
    requires named { 1 ≤ id }
    requires low { id ≤ 100 }
    requires some { 1 ≤ count }
    requires few { count ≤ 3 }
    requires next { (state.old.kept ≡ []) ⊎ (id ≡ state.old.first + length state.old.kept) }
    requires room { length state.old.kept < state.old.slots }
    requires places { state.old.places ≡ 3 }
    ensures kept { OnOk result (length state.new.kept ≡ length state.old.kept + 1) }
    ensures first { OnOk result (state.new.first + length state.old.kept ≡ id) }
    ensures slots { OnOk result (state.new.slots ≡ state.old.slots) }
    ensures places { OnOk result (state.new.places ≡ state.old.places) }
{
    let segment = segment_of(alloc, id, count)?;
    state.keep(&segment);
    Ok(())
}

/// Keeps segments 7, 8 and 9, of 1, 2 and 3 blocks.
fn keep_three(alloc: Global, state: &mut LogState) -> Result<(), AllocError>
    requires empty { state.old.kept ≡ [] }
    requires slots { state.old.slots ≡ 4 }
    requires places { state.old.places ≡ 3 }
    ensures first { OnOk result (state.new.first ≡ 7) }
    ensures kept { OnOk result (length state.new.kept ≡ 3) }
    ensures slots { OnOk result (state.new.slots ≡ 4) }
    ensures places { OnOk result (state.new.places ≡ 3) }
{
    keep(alloc, state, 7, 1)?;
    keep(alloc, state, 8, 2)?;
    keep(alloc, state, 9, 3)
}

/// Segments are shown by their ids, until they are dropped.
fn show_three(rt: &impl Abort, alloc: Global, state: &mut LogState) -> Result<(), AllocError>
    requires empty { state.old.kept ≡ [] }
    requires slots { state.old.slots ≡ 4 }
    requires places { state.old.places ≡ 3 }
{
    keep_three(alloc, state)?;
    state.drop_through(6);
    assert!(rt; shows(state, 7, 1));
    assert!(rt; shows(state, 8, 2));
    assert!(rt; shows(state, 9, 3));
    state.drop_through(7);
    assert!(rt; shows(state, 8, 2));
    assert!(rt; shows(state, 9, 3));
    Ok(())
}

#[test]
fn segments_are_kept_by_their_ids(rt: HostRuntime) -> Result<(), Fail> {
    let g = geometry()?;
    let mut state = LogState::new(rt.alloc(), &g)?;
    show_three(&rt, rt.alloc(), &mut state)?;
    Ok(())
}

/// Segments that come into the rooms of others are shown.
fn show_later(rt: &impl Abort, alloc: Global, state: &mut LogState) -> Result<(), AllocError>
    requires empty { state.old.kept ≡ [] }
    requires slots { state.old.slots ≡ 4 }
    requires places { state.old.places ≡ 3 }
{
    keep_three(alloc, state)?;
    state.drop_through(8);
    keep(alloc, state, 10, 3)?;
    keep(alloc, state, 11, 1)?;
    keep(alloc, state, 12, 2)?;
    assert!(rt; shows(state, 9, 3));
    assert!(rt; shows(state, 10, 3));
    assert!(rt; shows(state, 11, 1));
    assert!(rt; shows(state, 12, 2));
    Ok(())
}

#[test]
fn rooms_are_used_again(rt: HostRuntime) -> Result<(), Fail> {
    let g = geometry()?;
    let mut state = LogState::new(rt.alloc(), &g)?;
    show_later(&rt, rt.alloc(), &mut state)?;
    Ok(())
}

/// Where no segment is kept the next one has any id.
fn show_any(rt: &impl Abort, alloc: Global, state: &mut LogState) -> Result<(), AllocError>
    requires empty { state.old.kept ≡ [] }
    requires slots { state.old.slots ≡ 4 }
    requires places { state.old.places ≡ 3 }
{
    keep_three(alloc, state)?;
    state.drop_through(u64::MAX);
    keep(alloc, state, 3, 2)?;
    assert!(rt; shows(state, 3, 2));
    state.drop_through(3);
    keep(alloc, state, 5, 1)?;
    assert!(rt; shows(state, 5, 1));
    Ok(())
}

#[test]
fn any_id_is_kept_where_none_is(rt: HostRuntime) -> Result<(), Fail> {
    let g = geometry()?;
    let mut state = LogState::new(rt.alloc(), &g)?;
    show_any(&rt, rt.alloc(), &mut state)?;
    Ok(())
}

/// A device of which the first call fails, after it has stored so many sectors, where that is planned.
fn device_of(alloc: Global, stored: Option<u64>) -> Result<MemoryDevice, AllocError> {
    let bytes = vec![in alloc; FORMER; LOG_SECTORS * SECTOR_BYTES]?;
    let mut faults = Vec::new(alloc);
    if let Some(sectors) = stored {
        faults.push(PlannedFault { call: 0, sectors })?;
    }
    MemoryDevice::of(alloc, bytes, FaultPlan { faults, stop: None })
}

/// The bytes of a slot that begin with the text of a segment.
fn text_of(alloc: Global, segment: &Sealed) -> Result<Vec<u8>, AllocError>
    requires { length segment.now.blocks ≤ 3 }
    ensures { IfOk result (λ text. length text.items ≡ 16384) }
{
    let mut text = vec![in alloc; 0; 32 * SECTOR_BYTES]?;
    encode(segment, &mut text);
    Ok(text)
}

/// Whether these bytes are all as at first.
fn are_former(bytes: &[u8]) -> bool {
    bytes.iter().all(|byte| *byte == FORMER)
}

/// Whether a log is as at first, but for the first sectors of this text in slot `slot`.
fn holds_text(bytes: &[u8], slot: usize, text: &[u8], sectors: usize) -> bool
    requires { length text.now ≡ 16384 }
{
    let start = (FIRST_SLOT + 32 * (slot % 4)) * SECTOR_BYTES;
    let size = sectors % 33 * SECTOR_BYTES;
    if bytes.len() != LOG_SECTORS * SECTOR_BYTES {
        return false;
    }
    are_former(&bytes[..start])
        && bytes[start..start + size] == text[..size]
        && are_former(&bytes[start + size..])
}

/// How many blocks the segment of this id has that slot `slot` begins with.
fn blocks_found(bytes: &[u8], slot: usize, id: u64) -> Option<u8> {
    let start = (FIRST_SLOT + 32 * (slot % 4)) * SECTOR_BYTES;
    if bytes.len() != LOG_SECTORS * SECTOR_BYTES {
        return None;
    }
    match check(&bytes[start..start + 4 * BLOCK_BYTES], id, 512) {
        Ok(found) => Some(found.length()),
        Err(_) => None,
    }
}

/// Writes a segment by one call, and says whether that came through.
fn write(
    rt: &impl Abort,
    log: &mut MemoryDevice,
    g: &Geometry,
    segment: &Sealed,
    scratch: &mut [u8],
) -> bool
    requires order { g.now.order ≡ 5 }
    requires few { length segment.now.blocks ≤ 3 }
    requires scratch { length scratch.old ≡ 16384 }
{
    assert!(rt; g.log_sectors() <= log.sectors());
    let written = write_segment(log, g, segment, scratch).is_ok();
    assert!(rt; log.calls() == 1);
    written
}

/// A log that a segment was written to; where it is planned, that fails after so many sectors.
fn written_log(
    rt: &impl Abort,
    alloc: Global,
    g: &Geometry,
    segment: &Sealed,
    stored: Option<u64>,
) -> Result<MemoryDevice, AllocError>
    requires order { g.now.order ≡ 5 }
    requires few { length segment.now.blocks ≤ 3 }
{
    let mut scratch = vec![in alloc; 0x77; 32 * SECTOR_BYTES]?;
    let mut log = device_of(alloc, stored)?;
    let written = write(rt, &mut log, g, segment, &mut scratch);
    assert!(rt; written == stored.is_none());
    Ok(log)
}

/// A segment: the id, the number of blocks, and the slot.
type Row = (u64, u8, usize);

const SEGMENTS: [Row; 5] = [(1, 3, 0), (2, 1, 1), (4, 2, 3), (5, 1, 0), (11, 3, 2)];

/// The segment of a row.
fn segment_in(rt: &impl Abort, alloc: Global, row: &Row) -> Result<Sealed, AllocError>
    ensures { IfOk result (λ segment. length segment.blocks ≤ 3) }
{
    let (id, count, _) = *row;
    assert!(rt; 1 <= id && id <= 100 && 1 <= count && count <= 3);
    segment_of(alloc, id, count)
}

/// A log is as at first, but for the segment of a row.
fn holds_row(rt: &impl Abort, bytes: &[u8], text: &[u8], row: &Row)
    requires { length text.now ≡ 16384 }
{
    let (id, count, slot) = *row;
    let sectors = 8 * (1 + usize::from(count));
    assert!(rt; holds_text(bytes, slot, text, sectors), "of segment {id}");
    assert!(rt;
        blocks_found(bytes, slot, id) == Some(count),
        "of segment {id}"
    );
}

/// The segment of a row is written.
fn write_row(
    rt: &impl Abort,
    alloc: Global,
    g: &Geometry,
    segment: &Sealed,
    row: &Row,
) -> Result<(), AllocError>
    requires order { g.now.order ≡ 5 }
    requires few { length segment.now.blocks ≤ 3 }
{
    let text = text_of(alloc, segment)?;
    let log = written_log(rt, alloc, g, segment, None)?;
    holds_row(rt, log.bytes(), text.as_slice(), row);
    Ok(())
}

#[test]
fn the_text_comes_into_its_slot(rt: HostRuntime) -> Result<(), Fail> {
    let g = geometry()?;
    for row in &SEGMENTS {
        let segment = segment_in(&rt, rt.alloc(), row)?;
        write_row(&rt, rt.alloc(), &g, &segment, row)?;
    }
    Ok(())
}

/// So many sectors of a text came into slot 2.
fn holds_part(rt: &impl Abort, bytes: &[u8], text: &[u8], stored: u64)
    requires { length text.now ≡ 16384 }
{
    assert!(rt;
        holds_text(bytes, 2, text, stored as usize),
        "after {stored} sectors"
    );
}

/// The writing of segment 7 fails after so many sectors.
fn write_part(
    rt: &impl Abort,
    alloc: Global,
    g: &Geometry,
    segment: &Sealed,
    stored: u64,
) -> Result<(), AllocError>
    requires order { g.now.order ≡ 5 }
    requires few { length segment.now.blocks ≤ 3 }
{
    let text = text_of(alloc, segment)?;
    let log = written_log(rt, alloc, g, segment, Some(stored))?;
    holds_part(rt, log.bytes(), text.as_slice(), stored);
    Ok(())
}

#[test]
fn a_write_that_fails_leaves_its_first_sectors(rt: HostRuntime) -> Result<(), Fail> {
    let g = geometry()?;
    let segment = segment_of(rt.alloc(), 7, 2)?;
    for stored in [0, 1, 7, 8, 9, 23, 24] {
        write_part(&rt, rt.alloc(), &g, &segment, stored)?;
    }
    Ok(())
}

/// The sectors of a block, each read by one call.
fn read_sectors(rt: &impl Abort, g: &Geometry, log: &mut MemoryDevice, spot: Spot, payload: &[u8])
    requires id { 1 ≤ spot.id }
    requires index { spot.index < places g.now }
    requires size { length payload.now ≡ 4096 }
{
    for sector in 0..8 {
        let mut bytes = [0; SECTOR_BYTES];
        assert!(rt; g.log_sectors() <= log.sectors());
        assert!(rt; read_sector(log, g, spot, sector, &mut bytes).is_ok());
        let start = SECTOR_BYTES * usize::from(sector);
        assert!(rt; bytes.as_slice() == &payload[start..start + SECTOR_BYTES]);
    }
}

/// A block of a segment that is in the log, read by one call, and then sector by sector.
fn read_back(rt: &impl Abort, g: &Geometry, log: &mut MemoryDevice, segment: &Sealed, index: u8)
    requires { index < length segment.now.blocks }
{
    let spot = Spot {
        id: segment.id(),
        index,
    };
    let mut block = [0; BLOCK_BYTES];
    assert!(rt; spot.id >= 1 && u64::from(index) < g.places() && g.log_sectors() <= log.sectors());
    assert!(rt; read_block(log, g, spot, &mut block).is_ok());
    let payload = segment.payload(usize::from(index));
    assert!(rt; block.as_slice() == payload);
    read_sectors(rt, g, log, spot, payload);
}

/// The blocks of a segment that was written by one call.
fn read_all(rt: &impl Abort, g: &Geometry, log: &mut MemoryDevice, segment: &Sealed)
    requires { length segment.now.blocks ≤ 3 }
{
    let count = segment.len() as u8;
    for index in 0..count {
        read_back(rt, g, log, segment, index);
    }
    assert!(rt; log.calls() == 1 + 9 * u64::from(count));
}

/// The blocks of the segment of a row.
fn read_row(rt: &impl Abort, alloc: Global, g: &Geometry, row: &Row) -> Result<(), AllocError>
    requires { g.now.order ≡ 5 }
{
    let segment = segment_in(rt, alloc, row)?;
    let mut log = written_log(rt, alloc, g, &segment, None)?;
    read_all(rt, g, &mut log, &segment);
    Ok(())
}

#[test]
fn blocks_are_read_back(rt: HostRuntime) -> Result<(), Fail> {
    let g = geometry()?;
    for row in &SEGMENTS {
        read_row(&rt, rt.alloc(), &g, row)?;
    }
    Ok(())
}

/// The only call fails, which reads a block.
fn fail_at_block(rt: &impl Abort, g: &Geometry, log: &mut MemoryDevice)
    requires { g.now.order ≡ 5 }
{
    let spot = Spot { id: 3, index: 2 };
    assert!(rt; g.log_sectors() <= log.sectors());
    assert!(rt; read_block(log, g, spot, &mut [0; BLOCK_BYTES]).is_err());
    assert!(rt; log.calls() == 1);
}

/// The only call fails, which reads a sector.
fn fail_at_sector(rt: &impl Abort, g: &Geometry, log: &mut MemoryDevice)
    requires { g.now.order ≡ 5 }
{
    let spot = Spot { id: 3, index: 2 };
    assert!(rt; g.log_sectors() <= log.sectors());
    assert!(rt; read_sector(log, g, spot, 7, &mut [0; SECTOR_BYTES]).is_err());
    assert!(rt; log.calls() == 1);
}

#[test]
fn a_read_that_fails_is_told(rt: HostRuntime) -> Result<(), Fail> {
    let g = geometry()?;
    let mut log = device_of(rt.alloc(), Some(0))?;
    fail_at_block(&rt, &g, &mut log);
    let mut other = device_of(rt.alloc(), Some(0))?;
    fail_at_sector(&rt, &g, &mut other);
    Ok(())
}
