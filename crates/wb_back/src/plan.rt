//! A plan of what is written back.
ghost use Rattle.std.specs.Prelude.{◌≡◌, ◌⊎◌, ◌-◌, ◌<◌, ◌≤◌, ◌==◌, ◌++◌, ◌∷◌, [], ℕ, length, map, position, Contains, IfOk, vec_len, vec_capacity};
ghost use Rattle.std.specs.List.Sorted.{IsPermutation};
ghost use Rattle.wb_geometry.specs.History.{Write, written, later, last_write};
ghost use Rattle.wb_header.specs.Standing.{entries_of, numbers_of};
ghost use Rattle.wb_back.specs.Plans.{IsPlan, IsArranged};
ghost use Rattle.wb_back.specs.Stored.{HasPlace};

use std::alloc::{AllocError, Global};
use std::marker::Model;
use wb_geometry::join_sectors;
use wb_header::Meta;

/// The bytes of a block.
pub(crate) const BLOCK_BYTES: usize = 4096;

/// A block of a plan, without its bytes.
#[derive(Clone, Copy, Debug)]
pub(crate) struct Planned {
    /// Its number.
    pub(crate) block: u64,
    /// Its dirty bits.
    pub(crate) bits: u8,
    /// The index of its payload.
    pub(crate) at: usize,
}

/// Blocks that are to be written back, each once, with the sectors of it that are dirty. It has room for a number of
/// blocks, for which it took the memory when it was made, and it takes no more.
#[derive(Debug, Drop)]
pub struct Plan {
    pub(crate) planned: Vec<Planned>,
    // As many as there is room for. Those at no block's index hold anything.
    pub(crate) payloads: Vec<[u8; BLOCK_BYTES]>,
}

impl Model for Plan {
    ghost use Rattle.std.specs.Prelude.{vec_capacity};
    ghost use Rattle.wb_back.specs.Plans.{PlanContent};
    ghost use Rattle.wb_back.specs.Stored.{content_of, IsStored};

    ghost Value = { PlanContent };

    ghost view = { λ p. content_of p.planned.items p.payloads.items };

    ghost invariant = { λ p. IsStored (vec_capacity p.planned) p.planned.items p.payloads.items };
}

/// The index of this block.
fn place_of(planned: &[Planned], block: u64) -> Option<usize>
    ensures { result ≡ position (λ one. one.block == block) planned.now }
{
    planned.iter().position(|one| one.block == block)
}

/// The index of this block, which comes to the end, with no dirty bit, where it isn't there.
fn place_for(planned: &mut Vec<Planned>, block: u64) -> usize
    requires { Contains (map (λ one. one.block) planned.old.items) block ⊎ (vec_len planned.old < vec_capacity planned.old) }
    ensures place { HasPlace planned.old.items planned.new.items block result }
    ensures capacity { vec_capacity planned.old ≤ vec_capacity planned.new }
{
    if let Some(index) = place_of(planned, block) {
        return index;
    }
    let index = planned.len();
    planned
        .push(Planned {
            block,
            bits: 0,
            at: index,
        })
        .unwrap();
    index
}

impl Plan {
    /// A plan of nothing, with room for so many blocks. It takes all the memory that the plan ever needs.
    pub fn new(alloc: Global, room: usize) -> Result<Plan, AllocError>
        ensures empty { IfOk result (λ plan. plan.blocks ≡ []) }
        ensures room { IfOk result (λ plan. plan.room ≡ room) }
    {
        let planned = Vec::with_capacity(alloc, room)?;
        let payloads = vec![in alloc; [0; BLOCK_BYTES]; room]?;
        Ok(Plan { planned, payloads })
    }

    /// Makes it a plan of nothing. It keeps its room.
    pub fn clear(&mut self)
        ensures empty { self.new.blocks ≡ [] }
        ensures room { self.new.room ≡ self.old.room }
    {
        self.planned.clear();
    }

    /// For how many more blocks there is room.
    pub fn spare(&self) -> usize
        ensures spare { result ≡ self.now.room - length self.now.blocks }
        ensures sound { IsPlan self.now }
    {
        self.payloads.len() - self.planned.len()
    }

    /// Puts the sectors of a block whose bits are set over what the plan has. The payload has all eight sectors of the
    /// block, and there is room for the block, or the plan has it.
    pub fn add(&mut self, meta: &Meta, payload: &[u8])
        requires room { Contains (numbers_of self.old.blocks) meta.now.block ⊎ (length self.old.blocks < self.old.room) }
        requires size { length payload.now ≡ 4096 }
        ensures put { (k : ℕ) → last_write k (entries_of self.new.blocks)
            ≡ later (last_write k (entries_of self.old.blocks)) (written k (Write 0 meta.now.block meta.now.bits payload.now)) }
        ensures numbers { (numbers_of self.new.blocks ≡ numbers_of self.old.blocks)
            ⊎ (numbers_of self.new.blocks ≡ numbers_of self.old.blocks ++ meta.now.block ∷ []) }
        ensures room { self.new.room ≡ self.old.room }
    {
        let index = place_for(&mut self.planned, meta.block);
        let one = &mut self.planned[index];
        one.bits |= meta.bits;
        join_sectors(&mut self.payloads[one.at], meta.bits, payload);
    }

    /// Puts the blocks in the order of their numbers, in place.
    pub fn arrange(&mut self)
        ensures arranged { IsArranged self.new.blocks }
        ensures same { IsPermutation self.old.blocks self.new.blocks }
        ensures put { (k : ℕ) → last_write k (entries_of self.new.blocks) ≡ last_write k (entries_of self.old.blocks) }
        ensures room { self.new.room ≡ self.old.room }
    {
        self.planned.sort_unstable_by_key(|one| one.block);
    }
}
