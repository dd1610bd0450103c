//! A block of eight sectors, of which some are dirty.
ghost use Rattle.std.specs.Prelude.{◌≡◌, ◌≢◌, ◌≤◌, ◌<◌, ◌+◌, ◌-◌, ◌*◌, ◌^◌, ℕ, length, slice_index};
ghost use Rattle.wb_geometry.specs.Block.{IsClean, part_payload, joined_byte};

use crate::Part;
use std::alloc::{AllocError, Global};

/// The bytes of a sector.
const SECTOR_BYTES: usize = 512;

/// The bytes of a block.
const BLOCK_BYTES: usize = 4096;

/// The sectors of a block that a write touched. All other sectors of it hold zeros.
#[derive(Debug, Drop)]
pub struct Block {
    /// The bytes of all eight sectors.
    pub payload: [u8; BLOCK_BYTES],
    /// The dirty bits: bit `i` is set where sector `i` was written.
    pub bits: u8,
    pub ghost clean: { IsClean bits payload },
}

/// The bits of `count` sectors, from sector `from` of a block on.
fn dirty_bits(from: u8, count: u8) -> u8
    requires some { 1 ≤ count }
    requires inside { from + count ≤ 8 }
    ensures bits { result ≡ 2 ^ (from + count) - 2 ^ from }
    ensures dirty { result ≢ 0 }
{
    (0xff >> (8 - count)) << from
}

/// The bytes of a block with those of a part in their place, and zeros elsewhere.
fn laid_out(part: &Part, bytes: &[u8]) -> [u8; BLOCK_BYTES]
    requires inside { part.now.from + part.now.count ≤ 8 }
    requires size { length bytes.now ≡ 512 * part.now.count }
    ensures { result ≡ part_payload part.now bytes.now }
{
    let start = usize::from(part.from) * SECTOR_BYTES;
    let mut payload = [0; BLOCK_BYTES];
    payload[start..start + bytes.len()].copy_from_slice(bytes);
    payload
}

/// Puts sector `index` of a later block with these dirty bits over that of these bytes, where its bit is set.
fn join_sector(payload: &mut [u8; BLOCK_BYTES], bits: u8, later: &[u8], index: usize)
    requires sector { index < 8 }
    requires size { length later.now ≡ 4096 }
    ensures size { length payload.new ≡ 4096 }
    ensures inside { (at : ℕ) → 512 * index ≤ at → at < 512 * index + 512
        → slice_index payload.new at ≡ joined_byte at payload.old bits later.now }
    ensures before { (at : ℕ) → at < 512 * index → slice_index payload.new at ≡ slice_index payload.old at }
    ensures behind { (at : ℕ) → 512 * index + 512 ≤ at → slice_index payload.new at ≡ slice_index payload.old at }
{
    if bits >> index & 1 == 1 {
        let start = index * SECTOR_BYTES;
        payload[start..start + SECTOR_BYTES].copy_from_slice(&later[start..start + SECTOR_BYTES]);
    }
}

/// Puts the sectors of a later block whose bits are set over those of these bytes.
pub fn join_sectors(payload: &mut [u8; BLOCK_BYTES], bits: u8, later: &[u8])
    requires { length later.now ≡ 4096 }
    ensures size { length payload.new ≡ 4096 }
    ensures joined { (at : ℕ) → at < 4096
        → slice_index payload.new at ≡ joined_byte at payload.old bits later.now }
{
    for index in 0..8 {
        join_sector(payload, bits, later, index);
    }
}

impl Block {
    ghost use Rattle.std.specs.Prelude.{◌≡◌, ◌≢◌, ◌+◌, ◌*◌, ◌≤◌, ◌<◌, ℕ, IfOk, length, bit_or};
    ghost use Rattle.wb_geometry.specs.Image.{sector, sectors_of};
    ghost use Rattle.wb_geometry.specs.Block.{IsClean, part_bits, part_payload, joined_sector};

    /// The block of these dirty bits, which may have gaps, and of these bytes: zeros in each sector whose bit isn't set.
    pub fn of(bits: u8, payload: [u8; BLOCK_BYTES]) -> Block
        requires { IsClean bits payload }
        ensures bits { result.bits ≡ bits }
        ensures payload { result.payload ≡ payload }
    {
        Block { payload, bits }
    }

    /// The block of a part of a write, with the bytes of its sectors. The part has at least one sector, and lies in the
    /// block.
    pub fn boxed(alloc: Global, part: &Part, bytes: &[u8]) -> Result<Box<Block>, AllocError>
        requires some { 1 ≤ part.now.count }
        requires inside { part.now.from + part.now.count ≤ 8 }
        requires size { length bytes.now ≡ 512 * part.now.count }
        ensures bits { IfOk result (λ b. b.value.bits ≡ part_bits part.now) }
        ensures dirty { IfOk result (λ b. b.value.bits ≢ 0) }
        ensures payload { IfOk result (λ b. b.value.payload ≡ part_payload part.now bytes.now) }
    {
        let payload = laid_out(part, bytes);
        let bits = dirty_bits(part.from, part.count);
        let block = Box::new(alloc, Block { payload, bits })?;
        Ok(block)
    }

    /// Puts a later block over this one: its sectors replace those here, and the dirty bits are joined.
    pub fn join(&mut self, later: &Block)
        ensures bits { self.new.bits ≡ bit_or self.old.bits later.now.bits }
        ensures payload { (i : ℕ) → i < 8
            → sector (sectors_of self.new.payload) i ≡ joined_sector i self.old.payload later.now.bits later.now.payload }
    {
        join_sectors(&mut self.payload, later.bits, &later.payload);
        self.bits |= later.bits;
    }
}
