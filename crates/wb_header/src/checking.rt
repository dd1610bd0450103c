//! The text of a segment, read and judged.
ghost use Rattle.std.specs.Prelude.{◌≡◌, ◌≤◌, ◌<◌, ◌+◌, ◌-◌, ◌*◌, ◌/◌, ◌%◌, ◌↔◌, ◌==◌, not, IsTrue, length, take, drop, position, IfOk, IfErr};
ghost use Rattle.std.specs.Int.{w32, w64, from_le_bytes};
ghost use Rattle.wb_sum.specs.Crc32c.{sum_of};
ghost use Rattle.wb_header.specs.Text.{IsText, id_in, sum_in, length_in, number_in, bits_in, payload_in, blocks_in, blanked};
ghost use Rattle.wb_header.specs.Refused.{Refuses, IsRepeated, front_of};
ghost use Rattle.wb_header.specs.Firsts.{Finds, IsSet, IsStray, IsUnfit};

use crate::Meta;
use std::marker::Model;
use wb_sum::Sum;

/// Why bytes don't begin with a segment's text: the first of these causes that applies, in this order.
#[derive(Clone, Copy, Debug, PartialEq, Eq)]
pub enum Refused {
    /// The id is this, and not the one that was asked for.
    Id(u64),
    /// The length is this, which is 0 or more than there is room for.
    Length(u8),
    /// The least offset at which a byte isn't zero that must be.
    Zeros(usize),
    /// The least index of an entry that has no dirty bit, or whose block is outside the backing device.
    Entry(u8),
    /// The least index of an entry whose block stands at an earlier index.
    Repeated(u8),
    /// The stored checksum isn't that of the text.
    Sum { stored: u32, computed: u32 },
}

/// The bytes of a sector.
const SECTOR_BYTES: usize = 512;

/// The bytes of a block, and of the header before the blocks.
const BLOCK_BYTES: usize = 4096;

/// The place of the checksum.
const SUM_AT: usize = 8;

/// The place of the number of blocks.
const LENGTH_AT: usize = 12;

/// The place of the first entry.
const ENTRIES_AT: usize = 512;

/// The bytes of an entry.
const ENTRY_BYTES: usize = 16;

/// The place of the dirty bits in an entry.
const BITS_AT: usize = 8;

/// A segment's text that was found good. Contracts see it as its bytes.
#[derive(Debug, Drop)]
pub struct Found<'a> {
    bytes: &'a [u8],
}

impl<'a> Model for Found<'a> {
    ghost use Rattle.std.specs.Prelude.{ℕ, List, ◌≤◌, ◌+◌, ◌*◌, length};
    ghost use Rattle.wb_header.specs.Text.{length_in};

    ghost Value = { List ℕ };

    ghost view = { λ f. f.bytes.now };

    ghost invariant = { λ f. (1 ≤ length_in f.bytes.now) × (4096 * (1 + length_in f.bytes.now) ≤ length f.bytes.now) };
}

impl<'a> Found<'a> {
    /// The id.
    pub fn id(&self) -> u64
        ensures { result ≡ id_in self.now }
    {
        header_id(self.bytes)
    }

    /// The number of blocks, which is at least 1.
    pub fn length(&self) -> u8
        ensures { result ≡ length_in self.now }
    {
        self.bytes[LENGTH_AT]
    }

    /// The checksum.
    pub fn sum(&self) -> u32
        ensures { result ≡ sum_in self.now }
    {
        stored_sum(self.bytes)
    }

    /// The number and the dirty bits of block `index`, which is below the length.
    pub fn entry(&self, index: u8) -> Meta
        requires { index < length_in self.now }
        ensures block { result.block ≡ number_in self.now index }
        ensures bits { result.bits ≡ bits_in self.now index }
    {
        entry_at(self.bytes, index)
    }

    /// The bytes of all eight sectors of block `index`, which is below the length.
    pub fn payload(&self, index: u8) -> &[u8]
        requires { index < length_in self.now }
        ensures { result.now ≡ payload_in self.now index }
    {
        let start = BLOCK_BYTES * (usize::from(index) + 1);
        &self.bytes[start..start + BLOCK_BYTES]
    }
}

/// The id that these bytes begin with.
pub fn header_id(bytes: &[u8]) -> u64
    requires { 8 ≤ length bytes.now }
    ensures { result ≡ id_in bytes.now }
{
    number_at(bytes, 0)
}

/// The text of segment `id` that these bytes begin with, or why they don't, for a backing device of so many blocks. It
/// takes no memory.
pub fn check(bytes: &[u8], id: u64, blocks: u64) -> Result<Found<'_>, Refused>
    requires whole { length bytes.now % 4096 ≡ 0 }
    requires some { 2 ≤ length bytes.now / 4096 }
    requires few { length bytes.now / 4096 ≤ 128 }
    ensures text { IfOk result (λ found. found ≡ front_of bytes.now) }
    ensures found { let room = length bytes.now / 4096 - 1 in IfOk result (λ found. IsText room blocks found id (blocks_in (length_in found) found)) }
    ensures refused { let room = length bytes.now / 4096 - 1 in IfErr result (Refuses room blocks id bytes.now) }
{
    let stored_id = header_id(bytes);
    if stored_id != id {
        return Err(Refused::Id(stored_id));
    }
    let length = bytes[LENGTH_AT];
    let room = bytes.len() / BLOCK_BYTES - 1;
    if length == 0 || usize::from(length) > room {
        return Err(Refused::Length(length));
    }
    if let Some(at) = first_stray(bytes) {
        return Err(Refused::Zeros(at));
    }
    if let Some(index) = first_unfit(bytes, blocks) {
        return Err(Refused::Entry(index));
    }
    if let Some(index) = first_repeated(bytes) {
        return Err(Refused::Repeated(index));
    }
    let front = &bytes[..BLOCK_BYTES * (1 + usize::from(length))];
    let stored = stored_sum(front);
    let computed = computed_sum(front);
    if stored != computed {
        return Err(Refused::Sum { stored, computed });
    }
    Ok(Found { bytes: front })
}

/// The least offset at which a byte of the text has to be zero and isn't.
fn first_stray(bytes: &[u8]) -> Option<usize>
    requires few { length_in bytes.now ≤ 127 }
    requires size { 4096 * (1 + length_in bytes.now) ≤ length bytes.now }
    ensures { Finds (IsStray bytes.now) 0 (4096 * (1 + length_in bytes.now)) result }
{
    if let Some(at) = first_set(bytes, LENGTH_AT + 1, ENTRIES_AT) {
        return Some(at);
    }
    if let Some(at) = stray_in_entries(bytes) {
        return Some(at);
    }
    let end = ENTRIES_AT + ENTRY_BYTES * usize::from(bytes[LENGTH_AT]);
    if let Some(at) = first_set(bytes, end, BLOCK_BYTES) {
        return Some(at);
    }
    stray_in_blocks(bytes)
}

/// The least offset, from the first entry to behind the last, at which a byte has to be zero and isn't.
fn stray_in_entries(bytes: &[u8]) -> Option<usize>
    requires few { length_in bytes.now ≤ 127 }
    requires size { 4096 * (1 + length_in bytes.now) ≤ length bytes.now }
    ensures { Finds (IsStray bytes.now) 512 (512 + 16 * length_in bytes.now) result }
{
    for index in 0..usize::from(bytes[LENGTH_AT]) {
        let start = ENTRIES_AT + ENTRY_BYTES * index;
        if let Some(at) = first_set(bytes, start + BITS_AT + 1, start + ENTRY_BYTES) {
            return Some(at);
        }
    }
    None
}

/// The least offset in the blocks at which a byte has to be zero and isn't.
fn stray_in_blocks(bytes: &[u8]) -> Option<usize>
    requires few { length_in bytes.now ≤ 127 }
    requires size { 4096 * (1 + length_in bytes.now) ≤ length bytes.now }
    ensures { Finds (IsStray bytes.now) 4096 (4096 * (1 + length_in bytes.now)) result }
{
    for index in 0..bytes[LENGTH_AT] {
        if let Some(at) = stray_in_block(bytes, index) {
            return Some(at);
        }
    }
    None
}

/// The least offset in block `index` at which a byte has to be zero and isn't.
fn stray_in_block(bytes: &[u8], index: u8) -> Option<usize>
    requires inside { index < length_in bytes.now }
    requires few { length_in bytes.now ≤ 127 }
    requires size { 4096 * (1 + length_in bytes.now) ≤ length bytes.now }
    ensures { Finds (IsStray bytes.now) (4096 * (index + 1)) (4096 * (index + 2)) result }
{
    for sector in 0..8 {
        if let Some(at) = stray_in_sector(bytes, index, sector) {
            return Some(at);
        }
    }
    None
}

/// The least offset in this sector of block `index` at which a byte has to be zero and isn't.
fn stray_in_sector(bytes: &[u8], index: u8, sector: usize) -> Option<usize>
    requires sector { sector < 8 }
    requires inside { index < length_in bytes.now }
    requires few { length_in bytes.now ≤ 127 }
    requires size { 4096 * (1 + length_in bytes.now) ≤ length bytes.now }
    ensures { let start = 4096 * (index + 1) + 512 * sector in Finds (IsStray bytes.now) start (start + 512) result }
{
    if bits_at(bytes, index) >> sector & 1 == 1 {
        return None;
    }
    let start = BLOCK_BYTES * (usize::from(index) + 1) + SECTOR_BYTES * sector;
    first_set(bytes, start, start + SECTOR_BYTES)
}

/// The least offset from `from` to before `to` at which a byte isn't zero.
fn first_set(bytes: &[u8], from: usize, to: usize) -> Option<usize>
    requires order { from ≤ to }
    requires size { to ≤ length bytes.now }
    ensures { Finds (IsSet bytes.now) from to result }
{
    let index = place_of_set(&bytes[from..to])?;
    Some(from + index)
}

/// The place of the first byte that isn't zero.
fn place_of_set(bytes: &[u8]) -> Option<usize>
    ensures { result ≡ position (λ byte. not (byte == 0)) bytes.now }
{
    bytes.iter().position(|byte| *byte != 0)
}

/// The least index of an entry that has no dirty bit, or whose number isn't below `blocks`.
fn first_unfit(bytes: &[u8], blocks: u64) -> Option<u8>
    requires { 4096 * (1 + length_in bytes.now) ≤ length bytes.now }
    ensures { Finds (IsUnfit blocks bytes.now) 0 (length_in bytes.now) result }
{
    for index in 0..bytes[LENGTH_AT] {
        let meta = entry_at(bytes, index);
        if meta.bits == 0 || meta.block >= blocks {
            return Some(index);
        }
    }
    None
}

/// The least index of an entry whose number stands at an earlier index.
fn first_repeated(bytes: &[u8]) -> Option<u8>
    requires { 4096 * (1 + length_in bytes.now) ≤ length bytes.now }
    ensures { Finds (IsRepeated bytes.now) 0 (length_in bytes.now) result }
{
    for index in 0..bytes[LENGTH_AT] {
        if is_repeated(bytes, index) {
            return Some(index);
        }
    }
    None
}

/// Whether the number of this entry stands at an earlier index.
fn is_repeated(bytes: &[u8], index: u8) -> bool
    requires { 528 + 16 * index ≤ length bytes.now }
    ensures { IsTrue result ↔ IsRepeated bytes.now index }
{
    let number = block_at(bytes, index);
    for earlier in 0..index {
        if block_at(bytes, earlier) == number {
            return true;
        }
    }
    false
}

/// The checksum of the text, with the checksum's own bytes as zeros.
fn computed_sum(text: &[u8]) -> u32
    requires { 12 ≤ length text.now }
    ensures { result ≡ sum_of (blanked text.now) }
{
    let mut sum = Sum::new();
    sum.update(&text[..SUM_AT]);
    sum.update(&[0; LENGTH_AT - SUM_AT]);
    sum.update(&text[LENGTH_AT..]);
    sum.finish()
}

/// The checksum that the text says.
fn stored_sum(text: &[u8]) -> u32
    requires { 12 ≤ length text.now }
    ensures { result ≡ sum_in text.now }
{
    let mut sum = [0; LENGTH_AT - SUM_AT];
    sum.copy_from_slice(&text[SUM_AT..LENGTH_AT]);
    u32::from_le_bytes(sum)
}

/// The number and the dirty bits of entry `index`.
fn entry_at(bytes: &[u8], index: u8) -> Meta
    requires { 528 + 16 * index ≤ length bytes.now }
    ensures block { result.block ≡ number_in bytes.now index }
    ensures bits { result.bits ≡ bits_in bytes.now index }
{
    Meta {
        block: block_at(bytes, index),
        bits: bits_at(bytes, index),
    }
}

/// The number of entry `index`.
fn block_at(bytes: &[u8], index: u8) -> u64
    requires { 528 + 16 * index ≤ length bytes.now }
    ensures { result ≡ number_in bytes.now index }
{
    number_at(bytes, ENTRIES_AT + ENTRY_BYTES * usize::from(index))
}

/// The dirty bits of entry `index`.
fn bits_at(bytes: &[u8], index: u8) -> u8
    requires { 528 + 16 * index ≤ length bytes.now }
    ensures { result ≡ bits_in bytes.now index }
{
    bytes[ENTRIES_AT + ENTRY_BYTES * usize::from(index) + BITS_AT]
}

/// The number in the eight bytes from `from` on, the lowest first.
fn number_at(bytes: &[u8], from: usize) -> u64
    requires { from + 8 ≤ length bytes.now }
    ensures { result ≡ from_le_bytes w64 (take 8 (drop from bytes.now)) }
{
    let mut number = [0; 8];
    number.copy_from_slice(&bytes[from..from + 8]);
    u64::from_le_bytes(number)
}
