//! A segment in memory that takes writes.
ghost use Rattle.std.specs.Prelude.{◌≡◌, ◌≢◌, ◌==◌, ◌<◌, ℕ, position, length, slice_index_or, bit_or};
ghost use Rattle.wb_geometry.specs.Image.{sector, sectors_of};
ghost use Rattle.wb_geometry.specs.Block.{joined_sector};
ghost use Rattle.wb_header.specs.declared.sealed.Cached.{Cached};

use std::alloc::{AllocError, Global};
use std::marker::Model;
use wb_geometry::Block;
use wb_header::{Cached, Sealed};

/// The bytes of a sector.
const SECTOR_BYTES: usize = 512;

/// The most blocks of a segment.
const MAX_BLOCKS: usize = 127;

/// The index of the block of this number. It is looked for one after another: of so few numbers, at most 127, that is
/// faster than hashing.
fn find(blocks: &[Cached], block: u64) -> Option<usize>
    ensures { result ≡ position (λ cached. cached.block == block) blocks.now }
{
    blocks.iter().position(|cached| cached.block == block)
}

/// Puts a later block over the one at this index.
fn join_at(blocks: &mut [Cached], index: usize, later: Box<Block>)
    requires { index < length blocks.old }
    ensures len { length blocks.new ≡ length blocks.old }
    ensures number { (any : Cached) → (slice_index_or blocks.new index any).block ≡ (slice_index_or blocks.old index any).block }
    ensures bits { (any : Cached) → (slice_index_or blocks.new index any).payload.value.bits
        ≡ bit_or (slice_index_or blocks.old index any).payload.value.bits later.value.bits }
    ensures sectors { (any : Cached) (i : ℕ) → i < 8 → sector (sectors_of (slice_index_or blocks.new index any).payload.value.payload) i
        ≡ joined_sector i (slice_index_or blocks.old index any).payload.value.payload later.value.bits later.value.payload }
    ensures others { (any : Cached) (j : ℕ) → j ≢ index → slice_index_or blocks.new j any ≡ slice_index_or blocks.old j any }
{
    blocks[index].payload.join(&later);
}

/// A segment in memory, with its id, which is at least 1, its blocks, in the order in which they were first written, and
/// the number of blocks that it has room for, at most 127.
#[derive(Debug, Drop)]
pub struct RamSegment {
    id: u64,
    blocks: Vec<Cached>,
}

impl Model for RamSegment {
    ghost use Rattle.std.specs.Prelude.{min, vec_capacity};
    ghost use Rattle.wb_header.specs.Segments.{Segment, blocks_of};
    ghost use Rattle.wb_ram.specs.Merging.{IsOpenSegment};

    ghost Value = { Segment };

    ghost view = { λ s. record { id = s.id; blocks = blocks_of s.blocks.items; room = min 127 (vec_capacity s.blocks) } };

    ghost invariant = { λ s. IsOpenSegment s.id (blocks_of s.blocks.items) (min 127 (vec_capacity s.blocks)) };
}

impl RamSegment {
    ghost use Rattle.std.specs.Prelude.{◌≡◌, ◌≢◌, ◌≤◌, ◌<◌, ◌+◌, ◌-◌, ◌*◌, ◌++◌, ◌∷◌, ◌⊎◌, [], ℕ, List, length, min, vec_capacity, IfOk, IfSome, Contains, option_map};
    ghost use Rattle.wb_geometry.specs.History.{HistoryEntry, Write, written, later, last_write};
    ghost use Rattle.wb_header.specs.Standing.{StandsFor, entries_of, numbers_of};
    ghost use Rattle.wb_ram.specs.Merging.{IsMerged, IsOpenSegment};

    /// An empty segment of this id, with room for so many blocks.
    pub fn new(alloc: Global, id: u64, room: usize) -> Result<RamSegment, AllocError>
        requires id { 1 ≤ id }
        requires some { 1 ≤ room }
        requires few { room ≤ 127 }
        ensures id { IfOk result (λ s. s.id ≡ id) }
        ensures empty { IfOk result (λ s. s.blocks ≡ []) }
        ensures room { IfOk result (λ s. s.room ≡ room) }
    {
        let blocks = Vec::with_capacity(alloc, room)?;
        Ok(RamSegment { id, blocks })
    }

    /// An empty segment of this id, with the room of this vector, but at most 127. The blocks in it are dropped.
    pub fn again(id: u64, mut blocks: Vec<Cached>) -> RamSegment
        requires { 1 ≤ id }
        ensures id { result.id ≡ id }
        ensures empty { result.blocks ≡ [] }
        ensures room { result.room ≡ min 127 (vec_capacity blocks) }
    {
        blocks.clear();
        RamSegment { id, blocks }
    }

    /// The id.
    pub fn id(&self) -> u64
        ensures { result ≡ self.now.id }
    {
        self.id
    }

    /// The number of blocks.
    pub fn len(&self) -> usize
        ensures count { result ≡ length self.now.blocks }
        ensures segment { IsOpenSegment self.now.id self.now.blocks self.now.room }
    {
        self.blocks.len()
    }

    /// The number of blocks that there is room for beside those that are there.
    pub fn spare(&self) -> usize
        ensures { result ≡ self.now.room - length self.now.blocks }
    {
        self.blocks.capacity().min(MAX_BLOCKS) - self.blocks.len()
    }

    /// Puts a write into its block: over the block of that number, whose dirty bits are joined with the later ones, or
    /// behind the others where there is none, as a block of its own. There must be room for that. Answers the index of
    /// the block. It takes no memory.
    pub fn merge(&mut self, block: u64, payload: Box<Block>) -> u8
        requires room { Contains (numbers_of self.old.blocks) block ⊎ (length self.old.blocks < self.old.room) }
        requires some { payload.value.bits ≢ 0 }
        ensures merged { IsMerged block payload.value.bits result self.old.blocks self.new.blocks }
        ensures written { (client k : ℕ) → last_write k (entries_of self.new.blocks)
            ≡ later (last_write k (entries_of self.old.blocks)) (written k (Write client block payload.value.bits payload.value.payload)) }
        ensures stands { (client : ℕ) (entries : List HistoryEntry) → StandsFor self.old.blocks entries
            → StandsFor self.new.blocks (entries ++ Write client block payload.value.bits payload.value.payload ∷ []) }
        ensures id { self.new.id ≡ self.old.id }
        ensures room { self.new.room ≡ self.old.room }
        ensures segment { IsOpenSegment self.new.id self.new.blocks self.new.room }
    {
        if let Some(index) = find(&self.blocks, block) {
            join_at(&mut self.blocks, index, payload);
            return index as u8;
        }
        let index = self.blocks.len();
        self.blocks.push_reserved(Cached { block, payload });
        index as u8
    }

    /// The bytes of sector `index` of a block, where the segment has it.
    pub fn sector(&self, block: u64, index: u8) -> Option<&[u8]>
        requires { index < 8 }
        ensures bytes { option_map (λ bytes. bytes.now) result ≡ last_write (8 * block + index) (entries_of self.now.blocks) }
        ensures size { IfSome result (λ bytes. length bytes.now ≡ 512) }
    {
        let found = find(&self.blocks, block)?;
        let cached = &self.blocks[found].payload;
        if cached.bits >> index & 1 == 0 {
            return None;
        }
        let start = usize::from(index) * SECTOR_BYTES;
        Some(&cached.payload[start..start + SECTOR_BYTES])
    }

    /// The segment, which takes no more writes. It has a block at least.
    pub fn seal(self) -> Sealed
        requires { 1 ≤ length self.blocks }
        ensures id { result.id ≡ self.id }
        ensures blocks { result.blocks ≡ self.blocks }
        ensures room { self.room ≤ result.room }
    {
        let RamSegment { id, blocks } = self;
        Sealed::of(id, blocks)
    }
}
