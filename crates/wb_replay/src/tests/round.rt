//! What a session leaves that writes the first sectors of three blocks, one a segment, over a log of two slots: its segments
//! have the ids 3, 4 and 5, and the third is written to the slot of the first once that is put and recorded.
ghost use Rattle.std.specs.Prelude.{◌≡◌, IfOk, length};

use super::{BACKING_SECTORS, FIRST_SLOT, RECORD_AT, SECTOR_BYTES, lay};
use std::alloc::{AllocError, Global};
use std::test::Fail;
use wb_device::SteadyDevice;
use wb_geometry::{Block, Geometry, Part};
use wb_header::{Cached, Sealed, encode};
use wb_super::format;

/// The sectors of the log, and of a slot.
const LOG_SECTORS: usize = 2080;

const SLOT_SECTORS: usize = 16;

/// What is left: the record, the first and the last segment that stand in the slots, and the last that was put to the backing
/// device.
#[derive(Clone, Copy)]
pub(super) struct Round {
    pub(super) recorded: u64,
    pub(super) first: u64,
    pub(super) last: u64,
    pub(super) put: u64,
}

/// The segment that writes the first sector of this block, counted from 0, filled with the block's number and one.
fn segment_of(alloc: Global, block: u8) -> Result<Sealed, AllocError>
    ensures count { IfOk result (λ segment. length segment.blocks ≡ 1) }
{
    let part = Part {
        block: block.into(),
        from: 0,
        count: 1,
    };
    let payload = Block::boxed(alloc, &part, &[block.wrapping_add(1); SECTOR_BYTES])?;
    let mut blocks = Vec::new(alloc);
    blocks.push(Cached {
        block: block.into(),
        payload,
    })?;
    Ok(Sealed::of(3 + u64::from(block), blocks))
}

/// Puts the text of that segment into its slot.
fn put_segment(alloc: Global, bytes: &mut [u8], block: u8) -> Result<(), AllocError> {
    let segment = segment_of(alloc, block)?;
    let mut text = [0; 8192];
    encode(&segment, &mut text);
    let at = FIRST_SLOT + SLOT_SECTORS * usize::from(block % 2);
    lay(bytes, SECTOR_BYTES * at, &text);
    Ok(())
}

/// The bytes of the log.
pub(super) fn session_log(alloc: Global, left: &Round) -> Result<Vec<u8>, Fail> {
    let mut log = SteadyDevice::of(vec![in alloc; 0; LOG_SECTORS * SECTOR_BYTES]?);
    format(&mut log, &Geometry::new(4, 2, 2, 64)?)?;
    let mut bytes = log.into_bytes();
    let recorded = left.recorded.to_le_bytes();
    lay(bytes.as_mut_slice(), SECTOR_BYTES * RECORD_AT, &recorded);
    for block in 0..3_u8 {
        let id = 3 + u64::from(block);
        if left.first <= id && id <= left.last {
            put_segment(alloc, bytes.as_mut_slice(), block)?;
        }
    }
    Ok(bytes)
}

/// The bytes of the backing device once the segments up to this one are put.
pub(super) fn session_backing(alloc: Global, last: u64) -> Result<Vec<u8>, AllocError> {
    let mut bytes = vec![in alloc; 0; BACKING_SECTORS * SECTOR_BYTES]?;
    for block in 0..3_u8 {
        if 3 + u64::from(block) <= last {
            let at = 8 * SECTOR_BYTES * usize::from(block);
            lay(bytes.as_mut_slice(), at, &[block + 1; SECTOR_BYTES]);
        }
    }
    Ok(bytes)
}
