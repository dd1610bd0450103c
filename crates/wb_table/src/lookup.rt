//! The lookup table.
ghost use Rattle.std.specs.Prelude.{◌≡◌, ◌≢◌, ◌⊎◌, ◌-◌, ◌<◌, ◌≤◌, ◌==◌, ◌↔◌, ℕ, length, slice_index_or, [], None, IfSome, IfNone, IfOk, IsTrue, Contains, unwrap_or};
ghost use Rattle.wb_table.specs.Keeping.{IsFilled, IsCovered, IsCoveredBut, IsLeast};
ghost use Rattle.wb_table.specs.Lookup.{IsLookup, nowhere, noted, kept_after};
ghost use Rattle.wb_table.specs.Tables.{IsTable, lookup_of, spots_in, spot_in, no_spots};

use crate::blocks::Blocks;
use crate::queue::Queue;
use crate::spots::Spots;
use std::alloc::{AllocError, Global};
use std::marker::Model;
use wb_geometry::Spot;

/// Where the newest content of each sector stands, for so many blocks at most.
#[derive(Drop)]
pub struct Lookup {
    table: Blocks,
    queue: Queue,
}

impl Model for Lookup {
    ghost use Rattle.wb_table.specs.Tables.{BlockTable};
    ghost use Rattle.wb_table.specs.Keeping.{IsKept};

    ghost Value = { BlockTable };

    ghost view = { λ l. l.table };

    ghost invariant = { λ l. IsKept l.table l.queue };
}

impl Lookup {
    /// A table with room for so many blocks, all of whose sectors are on the backing device. It takes all the memory that
    /// the table ever needs.
    pub fn new(alloc: Global, room: usize) -> Result<Lookup, AllocError>
        ensures empty { IfOk result (λ lookup. (lookup_of lookup).blocks ≡ []) }
        ensures nowhere { IfOk result (λ lookup. (block i : ℕ) → i < 8 → (lookup_of lookup).spots block i ≡ nowhere) }
        ensures room { IfOk result (λ lookup. (lookup_of lookup).room ≡ room) }
        ensures sound { IfOk result (λ lookup. IsLookup (lookup_of lookup)) }
    {
        let table = Blocks::new(alloc, room)?;
        let queue = Queue::new(alloc, room.saturating_mul(2))?;
        Ok(Lookup { table, queue })
    }

    /// For how many more blocks there is room.
    pub fn spare(&self) -> usize
        ensures spare { result ≡ (lookup_of self.now).room - length (lookup_of self.now).blocks }
        ensures sound { IsLookup (lookup_of self.now) }
    {
        self.table.room() - self.table.len()
    }

    /// Whether one of the sectors of the block has a spot in a segment.
    pub fn has(&self, block: u64) -> bool
        ensures { IsTrue result ↔ Contains (lookup_of self.now).blocks block }
    {
        self.table.get(block).is_some()
    }

    /// The sectors of the block whose bits are set have this spot from now on; all others keep theirs.
    pub fn note(&mut self, block: u64, bits: u8, spot: Spot)
        requires room { Contains (lookup_of self.old).blocks block ⊎ (length (lookup_of self.old).blocks < (lookup_of self.old).room) }
        requires id { 1 ≤ spot.id }
        requires some { bits ≢ 0 }
        ensures spots { (other i : ℕ) → i < 8
            → (lookup_of self.new).spots other i ≡ noted ((lookup_of self.old).spots other i) (other == block) bits i spot }
        ensures blocks { (other : ℕ) → Contains (lookup_of self.new).blocks other
            → Contains (lookup_of self.old).blocks other ⊎ (other ≡ block) }
        ensures room { (lookup_of self.new).room ≡ (lookup_of self.old).room }
        ensures sound { IsLookup (lookup_of self.new) }
    {
        let spots = spots_of(&self.table, block);
        self.table.insert(block, spots.noted(bits, spot));
        match spots.oldest() {
            Some(oldest) if oldest <= spot.id => {}
            _ => expect(&mut self.queue, &self.table, block, spot.id),
        }
    }

    /// The spots of the eight sectors of the block; id 0 and index 0 is the backing device.
    pub fn find(&self, block: u64) -> [Spot; 8]
        ensures { (i : ℕ) → i < 8 → slice_index_or result i nowhere ≡ (lookup_of self.now).spots block i }
    {
        spots_of(&self.table, block).all()
    }

    /// Each spot in a segment up to this one becomes the backing device, and blocks without another spot go.
    pub fn forget_through(&mut self, id: u64)
        ensures spots { (block i : ℕ) → i < 8
            → (lookup_of self.new).spots block i ≡ kept_after id ((lookup_of self.old).spots block i) }
        ensures room { (lookup_of self.new).room ≡ (lookup_of self.old).room }
        ensures sound { IsLookup (lookup_of self.new) }
    {
        while let Some(block) = self.queue.pop_due(id) {
            if let Some(oldest) = forget(&mut self.table, block, id) {
                self.queue.push(oldest, block);
            }
        }
    }
}

/// The spots of a block, whether it is there or not.
fn spots_of(blocks: &Blocks, block: u64) -> Spots
    ensures { result ≡ unwrap_or (spots_in blocks.now block) no_spots }
{
    blocks.get(block).unwrap_or(Spots::nowhere())
}

/// The block is due at this segment, at which it got a spot.
fn expect(queue: &mut Queue, blocks: &Blocks, block: u64, id: u64)
    requires room { blocks.now.room ≤ queue.old.room }
    requires covered { IsCoveredBut block id blocks.now queue.old }
    ensures covered { IsCovered blocks.now queue.new }
    ensures room { queue.old.room ≤ queue.new.room }
{
    if queue.is_full() {
        refill(queue, blocks);
    } else {
        queue.push(id, block);
    }
}

/// Each block is due at its oldest segment, and nothing else is.
fn refill(queue: &mut Queue, blocks: &Blocks)
    requires room { blocks.now.room ≤ queue.old.room }
    ensures covered { IsCovered blocks.now queue.new }
    ensures room { queue.old.room ≤ queue.new.room }
{
    queue.clear();
    for index in 0..blocks.len() {
        let (block, spots) = blocks.get_index(index);
        if let Some(oldest) = spots.oldest() {
            queue.push(oldest, block);
        }
    }
}

/// Forgets the spots of a block up to this segment, and gives the oldest segment in which it has a spot still. A block
/// without any goes.
fn forget(blocks: &mut Blocks, block: u64, id: u64) -> Option<u64>
    requires filled { IsFilled blocks.old }
    requires sound { IsTable blocks.old }
    ensures filled { IsFilled blocks.new }
    ensures spots { (i : ℕ) → i < 8 → spot_in blocks.new block i ≡ kept_after id (spot_in blocks.old block i) }
    ensures others { (other : ℕ) → other ≢ block → spots_in blocks.new other ≡ spots_in blocks.old other }
    ensures left { IfSome result (IsLeast blocks.new block) }
    ensures after { IfSome result (λ oldest. id < oldest) }
    ensures gone { IfNone result (spots_in blocks.new block ≡ None) }
    ensures room { blocks.new.room ≡ blocks.old.room }
    ensures sound { IsTable blocks.new }
{
    let spots = blocks.get(block)?.kept_after(id);
    let oldest = spots.oldest();
    if oldest.is_some() {
        blocks.insert(block, spots);
    } else {
        blocks.remove(block);
    }
    oldest
}
