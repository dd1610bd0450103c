//! Logs that are recovered: what is answered, what the backing device holds then, and that a recovery that was stopped and
//! is made again comes to the same.
ghost use Rattle.std.specs.Prelude.{◌≡◌, ◌≤◌, IfOk, length};

mod round;
mod rows;
mod stopped;

use std::alloc::{AllocError, Global};
use std::test::Fail;
use wb_device::SteadyDevice;
use wb_geometry::{Block, Geometry, Part};
use wb_header::{Cached, Sealed, encode};
use wb_super::format;

const SECTOR_BYTES: usize = 512;

/// The sectors of a log of four slots of order 5.
const LOG_SECTORS: usize = 2176;

/// The first sector of the slots, and the sectors of a slot.
const FIRST_SLOT: usize = 2048;

const SLOT_SECTORS: usize = 32;

/// The sector of the record.
const RECORD_AT: usize = 2047;

/// The sectors of the backing device.
const BACKING_SECTORS: usize = 64;

/// The byte that the backing device is full of at first.
const FORMER: u8 = 0x5a;

/// A log: its record, the segments that stand whole in their slots, one of which a byte is changed, and an id in the first
/// field of a slot.
#[derive(Clone, Copy)]
struct Image<'a> {
    recorded: u64,
    whole: &'a [u64],
    torn: Option<u64>,
    named: Option<(u32, u64)>,
}

/// A new log.
const NEW: Image<'static> = Image {
    recorded: 0,
    whole: &[],
    torn: None,
    named: None,
};

/// A log whose third segment is torn.
const TORN: Image<'static> = Image {
    recorded: 0,
    whole: &[1, 2, 4],
    torn: Some(3),
    named: None,
};

/// The sectors that segment `id` writes: the first of three. Those of the next segments but one overlap.
fn first_sector(id: u64) -> usize
    ensures { result ≤ 12 }
{
    8 * (id % 2) as usize + (id % 5) as usize
}

/// The byte that they hold.
fn fill_of(id: u64) -> u8 {
    id.to_le_bytes()[0]
}

/// Puts bytes over those from `at` on.
fn lay(bytes: &mut [u8], at: usize, over: &[u8]) {
    if at <= bytes.len() {
        for (place, byte) in bytes[at..].iter_mut().zip(over) {
            *place = *byte;
        }
    }
}

/// Segment `id`, with one block.
fn segment_of(alloc: Global, id: u64) -> Result<Sealed, AllocError>
    requires { 1 ≤ id }
    ensures count { IfOk result (λ segment. length segment.blocks ≡ 1) }
{
    let part = Part {
        block: 0,
        from: (id % 5) as u8,
        count: 3,
    };
    let payload = Block::boxed(alloc, &part, &[fill_of(id); 3 * SECTOR_BYTES])?;
    let mut blocks = Vec::new(alloc);
    blocks.push(Cached {
        block: id % 2,
        payload,
    })?;
    Ok(Sealed::of(id, blocks))
}

/// The byte where the slot of segment `id` begins.
fn slot_of(id: u64) -> usize
    requires { 1 ≤ id }
    ensures { result ≤ 1097728 }
{
    SECTOR_BYTES * (FIRST_SLOT + SLOT_SECTORS * ((id - 1) % 4) as usize)
}

/// Puts the text of a segment into its slot.
fn put_segment(alloc: Global, bytes: &mut [u8], id: u64) -> Result<(), Fail> {
    if id == 0 {
        return Err(Fail::new("no segment has the id 0"));
    }
    let segment = segment_of(alloc, id)?;
    let mut text = [0; 8192];
    encode(&segment, &mut text);
    lay(bytes, slot_of(id), &text);
    Ok(())
}

/// Changes a byte of the blocks of a segment, in a sector that it writes.
fn tear(bytes: &mut [u8], id: u64) {
    if id > 0 {
        let at = slot_of(id) + 4096 + SECTOR_BYTES * (id % 5) as usize + 700;
        lay(bytes, at, &[fill_of(id) ^ 0x80]);
    }
}

/// The bytes of a new log.
fn new_log(alloc: Global) -> Result<Vec<u8>, Fail> {
    let mut log = SteadyDevice::of(vec![in alloc; 0; LOG_SECTORS * SECTOR_BYTES]?);
    format(&mut log, &Geometry::new(5, 4, 2, 64)?)?;
    Ok(log.into_bytes())
}

/// Puts the parts of an image into a new log.
fn fill_log(alloc: Global, bytes: &mut [u8], image: &Image<'_>) -> Result<(), Fail> {
    lay(
        bytes,
        SECTOR_BYTES * RECORD_AT,
        &image.recorded.to_le_bytes(),
    );
    for id in image.whole {
        put_segment(alloc, bytes, *id)?;
    }
    if let Some(id) = image.torn {
        put_segment(alloc, bytes, id)?;
        tear(bytes, id);
    }
    if let Some((slot, id)) = image.named {
        let at = SECTOR_BYTES * (FIRST_SLOT + SLOT_SECTORS * (slot % 4) as usize);
        lay(bytes, at, &id.to_le_bytes());
    }
    Ok(())
}

/// The bytes of a log.
fn log_of(alloc: Global, image: &Image<'_>) -> Result<Vec<u8>, Fail> {
    let mut bytes = new_log(alloc)?;
    fill_log(alloc, bytes.as_mut_slice(), image)?;
    Ok(bytes)
}

/// The bytes of a backing device once the segments of these ids are put, one after another.
fn backing_of(alloc: Global, ids: &[u64]) -> Result<Vec<u8>, AllocError> {
    let mut bytes = vec![in alloc; FORMER; BACKING_SECTORS * SECTOR_BYTES]?;
    for id in ids {
        lay(
            bytes.as_mut_slice(),
            SECTOR_BYTES * first_sector(*id),
            &[fill_of(*id); 3 * SECTOR_BYTES],
        );
    }
    Ok(bytes)
}
