//! A segment that takes no more writes.
ghost use Rattle.std.specs.Prelude.{◌≡◌, ◌<◌, length, slice_index_or, vec_capacity};
ghost use Rattle.wb_geometry.specs.Block.{IsClean};
ghost use Rattle.wb_header.specs.Text.{no_block};
ghost use Rattle.wb_header.specs.Segments.{IsSegment, blocks_of};

use std::marker::Model;
use wb_geometry::Block;

/// A block of a segment, with its number.
#[derive(Debug, Drop)]
pub struct Cached {
    /// The number of the block on the backing device: block `b` has the sectors from `8 * b` on.
    pub block: u64,
    /// Its dirty bits, and the bytes of its sectors.
    pub payload: Box<Block>,
}

/// What a segment says of one of its blocks.
#[derive(Clone, Copy, Debug, PartialEq, Eq)]
pub struct Meta {
    /// The number of the block.
    pub block: u64,
    /// Its dirty bits, which aren't 0.
    pub bits: u8,
}

/// A segment with its id, which is at least 1, and its blocks: 1 to 127, in the order in which they were first written,
/// no two of the same number, each with a dirty bit at least.
#[derive(Debug, Drop)]
pub struct Sealed {
    id: u64,
    blocks: Vec<Cached>,
}

impl Model for Sealed {
    ghost use Rattle.std.specs.Prelude.{vec_capacity};
    ghost use Rattle.wb_header.specs.Segments.{Segment, IsSegment, blocks_of};

    ghost Value = { Segment };

    ghost view = { λ s. record { id = s.id; blocks = blocks_of s.blocks.items; room = vec_capacity s.blocks } };

    ghost invariant = { λ s. IsSegment s.id (blocks_of s.blocks.items) };
}

impl Sealed {
    /// The segment of this id with these blocks.
    pub fn of(id: u64, blocks: Vec<Cached>) -> Sealed
        requires { IsSegment id (blocks_of blocks.items) }
        ensures id { result.id ≡ id }
        ensures blocks { result.blocks ≡ blocks_of blocks.items }
        ensures room { result.room ≡ vec_capacity blocks }
    {
        Sealed { id, blocks }
    }

    /// The id.
    pub fn id(&self) -> u64
        ensures { result ≡ self.now.id }
    {
        self.id
    }

    /// The number of blocks.
    pub fn len(&self) -> usize
        ensures count { result ≡ length self.now.blocks }
        ensures segment { IsSegment self.now.id self.now.blocks }
    {
        self.blocks.len()
    }

    /// The number and the dirty bits of block `index`, which is below `len`.
    pub fn meta(&self, index: usize) -> Meta
        requires { index < length self.now.blocks }
        ensures block { result.block ≡ (slice_index_or self.now.blocks index no_block).number }
        ensures bits { result.bits ≡ (slice_index_or self.now.blocks index no_block).bits }
    {
        let cached = &self.blocks[index];
        Meta {
            block: cached.block,
            bits: cached.payload.bits,
        }
    }

    /// The bytes of all eight sectors of block `index`, which is below `len`.
    pub fn payload(&self, index: usize) -> &[u8]
        requires { index < length self.now.blocks }
        ensures bytes { result.now ≡ (slice_index_or self.now.blocks index no_block).payload }
        ensures size { length result.now ≡ 4096 }
        ensures clean { IsClean (slice_index_or self.now.blocks index no_block).bits result.now }
    {
        &self.blocks[index].payload.payload
    }

    /// The blocks, given back with the room of their vector.
    pub fn into_blocks(self) -> Vec<Cached>
        ensures blocks { blocks_of result.items ≡ self.blocks }
        ensures room { vec_capacity result ≡ self.room }
    {
        let Sealed { blocks, .. } = self;
        blocks
    }
}
