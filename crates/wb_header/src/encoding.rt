//! The text of a segment, written.
ghost use Rattle.std.specs.Prelude.{◌≡◌, ◌≤◌, ◌<◌, ◌+◌, ◌*◌, ℕ, length, take, drop, slice_index, slice_index_or, All};
ghost use Rattle.wb_sum.specs.Crc32c.{sum_of};
ghost use Rattle.wb_header.specs.Text.{IsText, no_block, blanked, sum_in, payload_in};
ghost use Rattle.wb_header.specs.Writing.{HoldsFront, HoldsEntry, HoldsPayload, IsSameOutside};

use crate::Sealed;
use wb_sum::Sum;

/// The bytes of a block, and of the header before the blocks.
const BLOCK_BYTES: usize = 4096;

/// The place of the checksum's four bytes, which it counts as zeros.
const SUM_AT: usize = 8;

/// The place of the number of blocks, behind the checksum.
const LENGTH_AT: usize = 12;

/// The place of the first entry.
const ENTRIES_AT: usize = 512;

/// The bytes of an entry: the number of a block, its dirty bits, and zeros.
const ENTRY_BYTES: usize = 16;

/// Writes the text of a segment into the front of `into`, which has room for it: 4096 bytes for the header and for each
/// block. Leaves the rest of `into`, and answers the number of bytes. It takes no memory.
pub fn encode(segment: &Sealed, into: &mut [u8]) -> usize
    requires { 4096 * (1 + length segment.now.blocks) ≤ length into.old }
    ensures size { result ≡ 4096 * (1 + length segment.now.blocks) }
    ensures text { (room limit : ℕ) → length segment.now.blocks ≤ room → All (λ block. block.number < limit) segment.now.blocks
        → IsText room limit (take result into.new) segment.now.id segment.now.blocks }
    ensures rest { drop result into.new ≡ drop result into.old }
{
    let size = BLOCK_BYTES * (1 + segment.len());
    write_text(segment, &mut into[..size]);
    size
}

/// Writes the text of a segment over these bytes, which are as many as it has.
fn write_text(segment: &Sealed, text: &mut [u8])
    requires { length text.old ≡ 4096 * (1 + length segment.now.blocks) }
    ensures { (room limit : ℕ) → length segment.now.blocks ≤ room → All (λ block. block.number < limit) segment.now.blocks
        → IsText room limit text.new segment.now.id segment.now.blocks }
{
    write_front(text, segment.id(), segment.len() as u8);
    write_entries(text, segment);
    write_payloads(text, segment);
    seal(text);
}

/// Writes the header without its checksum and its entries.
fn write_front(text: &mut [u8], id: u64, count: u8)
    requires { 4096 ≤ length text.old }
    ensures size { length text.new ≡ length text.old }
    ensures front { HoldsFront id count text.new }
{
    text[..SUM_AT].copy_from_slice(&id.to_le_bytes());
    text[SUM_AT..BLOCK_BYTES].fill(0);
    text[LENGTH_AT] = count;
}

/// Writes the entries into a header of zeros.
fn write_entries(text: &mut [u8], segment: &Sealed)
    requires size { 4096 ≤ length text.old }
    requires zeros { (at : ℕ) → 512 ≤ at → at < 4096 → slice_index text.old at ≡ 0 }
    ensures entries { (j : ℕ) → j < length segment.now.blocks
        → HoldsEntry (slice_index_or segment.now.blocks j no_block).number (slice_index_or segment.now.blocks j no_block).bits text.new j }
    ensures others { IsSameOutside 512 (512 + 16 * length segment.now.blocks) text.old text.new }
{
    let count = segment.len();
    for index in 0..count {
        let meta = segment.meta(index);
        write_entry(text, index, meta.block, meta.bits);
    }
}

/// Writes the entry of a block over zeros.
fn write_entry(text: &mut [u8], index: usize, number: u64, bits: u8)
    requires size { 4096 ≤ length text.old }
    requires few { index < 127 }
    requires zeros { (at : ℕ) → 512 + 16 * index ≤ at → at < 528 + 16 * index → slice_index text.old at ≡ 0 }
    ensures entry { HoldsEntry number bits text.new index }
    ensures others { IsSameOutside (512 + 16 * index) (528 + 16 * index) text.old text.new }
{
    let start = ENTRIES_AT + ENTRY_BYTES * index;
    text[start..start + 8].copy_from_slice(&number.to_le_bytes());
    text[start + 8] = bits;
}

/// Writes the bytes of the blocks behind the header.
fn write_payloads(text: &mut [u8], segment: &Sealed)
    requires { length text.old ≡ 4096 * (1 + length segment.now.blocks) }
    ensures payloads { (j : ℕ) → j < length segment.now.blocks
        → HoldsPayload (slice_index_or segment.now.blocks j no_block).bits (slice_index_or segment.now.blocks j no_block).payload text.new j }
    ensures others { IsSameOutside 4096 (4096 * (1 + length segment.now.blocks)) text.old text.new }
{
    for index in 0..segment.len() {
        write_payload(text, index, segment.payload(index));
    }
}

/// Writes the bytes of a block into their place.
fn write_payload(text: &mut [u8], index: usize, payload: &[u8])
    requires room { 4096 * (index + 2) ≤ length text.old }
    requires size { length payload.now ≡ 4096 }
    ensures part { payload_in text.new index ≡ payload.now }
    ensures others { IsSameOutside (4096 * (index + 1)) (4096 * (index + 2)) text.old text.new }
{
    let start = BLOCK_BYTES * (index + 1);
    text[start..start + BLOCK_BYTES].copy_from_slice(payload);
}

/// Writes the checksum into its place.
fn seal(text: &mut [u8])
    requires { 12 ≤ length text.old }
    ensures sum { sum_in text.new ≡ sum_of (blanked text.old) }
    ensures others { IsSameOutside 8 12 text.old text.new }
{
    let mut sum = Sum::new();
    sum.update(&text[..SUM_AT]);
    sum.update(&[0; LENGTH_AT - SUM_AT]);
    sum.update(&text[LENGTH_AT..]);
    text[SUM_AT..LENGTH_AT].copy_from_slice(&sum.finish().to_le_bytes());
}
