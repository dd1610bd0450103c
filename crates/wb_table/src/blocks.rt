//! The blocks that are there, each with its spots.
ghost use Rattle.std.specs.Prelude.{◌≡◌, ◌<◌, ◌≤◌, ◌+◌, ◌⊎◌, ◌==◌, ℕ, length, nat_eq, slice_get, IsSome, IfOk, [], Some, None, if◌then◌else◌};
ghost use Rattle.indexmap.specs.IndexMap.{get, spare, insert_index, index_map_len, insert_entry, IsUnique};
ghost use Rattle.wb_table.specs.Tables.{IsTable, spots_in};

use crate::spots::Spots;
use indexmap::IndexMap;
use std::alloc::{AllocError, Global};
use std::marker::Model;

/// The spots of so many blocks at most. It takes its memory once, and the place of a block that is removed can be used
/// again.
///
/// A map promises to give back the places of entries only where at least half of them go. So a removed entry first stays
/// behind those that are there, and all removed ones go as soon as they are as many. The map has room for twice as many
/// entries as there may be blocks.
#[derive(Drop)]
pub struct Blocks {
    /// The blocks that are there, and behind them those that were removed.
    entries: IndexMap<u64, Spots>,
    /// How many blocks are there.
    live: usize,
    /// How many blocks may be there.
    room: usize,
}

impl Model for Blocks {
    ghost use Rattle.std.specs.Prelude.{take};
    ghost use Rattle.wb_table.specs.Tables.{BlockTable};
    ghost use Rattle.wb_table.specs.Places.{IsPlaced};

    ghost Value = { BlockTable };

    ghost view = { λ b. record { entries = take b.live b.entries.entries; room = b.room } };

    ghost invariant = { λ b. IsPlaced b.entries b.live b.room };
}

impl Blocks {
    /// No block, with room for so many.
    pub(crate) fn new(alloc: Global, room: usize) -> Result<Blocks, AllocError>
        ensures empty { IfOk result (λ blocks. blocks.entries ≡ []) }
        ensures room { IfOk result (λ blocks. blocks.room ≡ room) }
        ensures sound { IfOk result IsTable }
    {
        let places = room.checked_mul(2).ok_or(AllocError)?;
        let entries = IndexMap::with_capacity(alloc, places)?;
        Ok(Blocks {
            entries,
            live: 0,
            room,
        })
    }

    /// How many blocks are there.
    pub(crate) fn len(&self) -> usize
        ensures len { result ≡ length self.now.entries }
        ensures sound { IsTable self.now }
    {
        let _entries = self.entries.len();
        self.live
    }

    /// How many blocks may be there.
    pub(crate) fn room(&self) -> usize
        ensures { result ≡ self.now.room }
    {
        self.room
    }

    /// The block at an index, and its spots.
    pub(crate) fn get_index(&self, index: usize) -> (u64, Spots)
        requires { index < length self.now.entries }
        ensures { slice_get self.now.entries index ≡ Some result }
    {
        let (block, spots) = self.entries.get_index(index).unwrap();
        (*block, *spots)
    }

    /// The spots of a block, if it is there.
    pub(crate) fn get(&self, block: u64) -> Option<Spots>
        ensures { result ≡ spots_in self.now block }
    {
        let (index, _, spots) = self.entries.get_full(&block)?;
        if index < self.live {
            Some(*spots)
        } else {
            None
        }
    }

    /// The block is there from now on, and has these spots.
    pub(crate) fn insert(&mut self, block: u64, spots: Spots)
        requires { IsSome (spots_in self.old block) ⊎ (length self.old.entries < self.old.room) }
        ensures spots { (other : ℕ) → spots_in self.new other ≡ (if other == block then Some spots else spots_in self.old other) }
        ensures room { self.new.room ≡ self.old.room }
        ensures sound { IsTable self.new }
    {
        let index = put(&mut self.entries, block, spots);
        if index >= self.live {
            self.entries.swap_indices(index, self.live);
            self.live += 1;
        }
    }

    /// The block isn't there any more.
    pub(crate) fn remove(&mut self, block: u64)
        ensures spots { (other : ℕ) → spots_in self.new other ≡ (if other == block then None else spots_in self.old other) }
        ensures room { self.new.room ≡ self.old.room }
        ensures sound { IsTable self.new }
    {
        let Some(index) = self.entries.get_index_of(&block) else {
            return;
        };
        if self.live <= index {
            return;
        }
        self.live -= 1;
        self.entries.swap_indices(index, self.live);
        if self.live <= self.entries.len() - self.live {
            self.entries.truncate(self.live);
        }
    }
}

/// The block's entry, which may be new, has these spots from now on. Gives its index.
fn put(entries: &mut IndexMap<u64, Spots>, block: u64, spots: Spots) -> usize
    requires { IsSome (get nat_eq entries.old block) ⊎ (0 < spare entries.old) }
    ensures index { result ≡ insert_index nat_eq entries.old block }
    ensures within { result < index_map_len entries.new }
    ensures entries { entries.new.entries ≡ insert_entry nat_eq entries.old.entries block spots }
    ensures len { (index_map_len entries.old ≤ index_map_len entries.new) × (index_map_len entries.new ≤ index_map_len entries.old + 1) }
    ensures room { index_map_len entries.old + spare entries.old ≤ index_map_len entries.new + spare entries.new }
    ensures unique { IsUnique nat_eq entries.new }
{
    match entries.get_index_of(&block) {
        Some(index) => {
            entries[index] = spots;
            index
        }
        None => {
            let (index, _) = entries.insert_full(block, spots).unwrap();
            index
        }
    }
}
