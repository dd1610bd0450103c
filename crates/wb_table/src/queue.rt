//! Which blocks have to be looked at when segments are forgotten.
ghost use Rattle.std.specs.Prelude.{◌≡◌, ◌<◌, ◌≤◌, ◌∷◌, [], ℕ, length, All, IsPermutation, IfSome, IfNone, IfOk, IsTrue, ◌↔◌};

use std::alloc::{AllocError, Global};
use std::cmp::Reverse;
use std::collections::BinaryHeap;
use std::marker::Model;

/// Blocks with the segment at which each is due, the least segment first. An item says that the block may have a spot in
/// that segment.
#[derive(Drop)]
pub struct Queue {
    heap: BinaryHeap<Reverse<(u64, u64)>>,
}

impl Model for Queue {
    ghost use Rattle.std.specs.Prelude.{ℕ, map};
    ghost use Rattle.std.specs.BinaryHeap.{heap_items, heap_capacity, IsHeap};
    ghost use Rattle.wb_table.specs.Queue.{QueueContent, later};

    ghost Value = { QueueContent };

    ghost view = { λ q. record { items = map (λ item. item.0) (heap_items q.heap); room = heap_capacity q.heap } };

    ghost invariant = { λ q. IsHeap (λ x y. later x.0 y.0) (heap_items q.heap) };
}

impl Queue {
    /// An empty queue with room for so many items.
    pub(crate) fn new(alloc: Global, room: usize) -> Result<Queue, AllocError>
        ensures empty { IfOk result (λ q. q.items ≡ []) }
        ensures room { IfOk result (λ q. room ≤ q.room) }
    {
        let heap = BinaryHeap::with_capacity(alloc, room)?;
        Ok(Queue { heap })
    }

    /// Whether no more item fits.
    pub(crate) fn is_full(&self) -> bool
        ensures { IsTrue result ↔ (self.now.room ≤ length self.now.items) }
    {
        self.heap.capacity() <= self.heap.len()
    }

    /// Takes all items out.
    pub(crate) fn clear(&mut self)
        ensures items { self.new.items ≡ [] }
        ensures room { self.new.room ≡ self.old.room }
    {
        self.heap.clear();
    }

    /// Adds an item.
    pub(crate) fn push(&mut self, id: u64, block: u64)
        requires { length self.old.items < self.old.room }
        ensures items { IsPermutation ((id, block) ∷ self.old.items) self.new.items }
        ensures room { self.old.room ≤ self.new.room }
    {
        self.heap.push(Reverse((id, block))).unwrap();
    }

    /// Takes out an item whose segment is at most this one, and gives its block.
    pub(crate) fn pop_due(&mut self, id: u64) -> Option<u64>
        ensures due { IfSome result (λ block. (due : ℕ) × (due ≤ id) × IsPermutation self.old.items ((due, block) ∷ self.new.items)) }
        ensures fits { IfSome result (λ _. length self.new.items < self.new.room) }
        ensures none { IfNone result (All (λ item. id < item.0) self.new.items) }
        ensures kept { IfNone result (self.new.items ≡ self.old.items) }
        ensures room { self.new.room ≡ self.old.room }
    {
        let Reverse((due, _)) = *self.heap.peek()?;
        if id < due {
            return None;
        }
        let Reverse((_, block)) = self.heap.pop()?;
        Some(block)
    }
}
