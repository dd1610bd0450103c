//! What is known of the segments in the log.
ghost use Rattle.std.specs.Prelude.{◌≡◌, ◌⊎◌, ◌+◌, ◌-◌, ◌^◌, ◌<◌, ◌≤◌, ◌++◌, ◌∷◌, [], All, length, drop, IfOk, slice_index_or, vec_capacity};
ghost use Rattle.wb_geometry.specs.Layout.{places};
ghost use Rattle.wb_log.specs.Kept.{IsThere, metas_of, metas_at, no_meta};

use std::alloc::{AllocError, Global};
use std::collections::VecDeque;
use std::marker::Model;
use wb_geometry::Geometry;
use wb_header::{Meta, Sealed};

/// The numbers and the dirty bits of the blocks of segments whose ids follow one another. All its memory is taken at the
/// start.
#[derive(Drop)]
pub struct LogState {
    first: u64,
    places: usize,
    kept: VecDeque<Vec<Meta>>,
    waiting: Vec<Vec<Meta>>,
}

impl Model for LogState {
    ghost use Rattle.wb_log.specs.Kept.{Kept};

    ghost Value = { Kept };

    ghost use Rattle.wb_log.specs.Holding.{kept_of, IsHeld};

    ghost view = { kept_of };

    ghost invariant = { IsHeld };
}

impl LogState {
    /// No segment is kept yet. There is room for one in each slot of this geometry, with as many blocks as fit.
    pub fn new(alloc: Global, g: &Geometry) -> Result<LogState, AllocError>
        ensures kept { IfOk result (λ state. state.kept ≡ []) }
        ensures slots { IfOk result (λ state. state.slots ≡ g.now.slots) }
        ensures places { IfOk result (λ state. state.places ≡ places g.now) }
    {
        let places = g.places() as usize;
        let slots = g.slots as usize;
        Ok(LogState {
            first: 0,
            places,
            kept: VecDeque::with_capacity(alloc, slots)?,
            waiting: vectors(alloc, slots, places)?,
        })
    }

    /// Keeps a segment. Its id is below `2 ^ 63`, and the next one, or any where no segment is kept. There are fewer kept
    /// than slots, and it has no more blocks than fit one. It takes no memory.
    pub fn keep(&mut self, segment: &Sealed)
        requires next { (self.old.kept ≡ []) ⊎ (segment.now.id ≡ self.old.first + length self.old.kept) }
        requires room { length self.old.kept < self.old.slots }
        requires few { length segment.now.blocks ≤ self.old.places }
        requires id { segment.now.id < 2 ^ 63 }
        ensures kept { self.new.kept ≡ self.old.kept ++ metas_of segment.now.blocks ∷ [] }
        ensures first { self.new.first + length self.old.kept ≡ segment.now.id }
        ensures sizes { (self.new.slots ≡ self.old.slots) × (self.new.places ≡ self.old.places) }
    {
        let mut metas = self.waiting.pop().unwrap();
        fill(&mut metas, segment);
        // The ids follow one another, up to this one.
        self.first = segment.id() - self.kept.len() as u64;
        self.kept.push_back_reserved(metas);
    }

    /// The number and the dirty bits of block `index` of segment `id`, which is kept and has such a block.
    pub fn meta(&self, id: u64, index: u8) -> Meta
        requires there { IsThere self.now id }
        requires index { index < length (metas_at self.now id) }
        ensures { result ≡ slice_index_or (metas_at self.now id) index no_meta }
    {
        self.segment(id)[usize::from(index)]
    }

    /// How many blocks segment `id` has, which is kept.
    pub fn length(&self, id: u64) -> u8
        requires { IsThere self.now id }
        ensures { result ≡ length (metas_at self.now id) }
    {
        self.segment(id).len() as u8
    }

    /// The blocks of segment `id`, which is kept.
    fn segment(&self, id: u64) -> &[Meta]
        requires { IsThere self.now id }
        ensures metas { result.now ≡ metas_at self.now id }
        ensures few { length result.now ≤ 127 }
    {
        let metas = &self.kept[(id - self.first) as usize];
        metas
    }

    /// Forgets the segments up to this one, which need not be kept. It takes as many steps as segments go.
    pub fn drop_through(&mut self, id: u64)
        ensures kept { self.new.kept ≡ drop (id + 1 - self.old.first) self.old.kept }
        ensures last { self.new.first + length self.new.kept ≡ self.old.first + length self.old.kept }
        ensures sizes { (self.new.slots ≡ self.old.slots) × (self.new.places ≡ self.old.places) }
    {
        while !self.kept.is_empty() && self.first <= id {
            self.drop_front();
        }
    }

    /// Forgets the oldest segment, and keeps its vector for a later one.
    fn drop_front(&mut self)
        requires { 1 ≤ length self.old.kept }
        ensures kept { self.new.kept ≡ drop 1 self.old.kept }
        ensures first { self.new.first ≡ self.old.first + 1 }
        ensures sizes { (self.new.slots ≡ self.old.slots) × (self.new.places ≡ self.old.places) }
    {
        let metas = self.kept.pop_front().unwrap();
        self.waiting.push_reserved(metas);
        self.first += 1;
    }
}

/// So many empty vectors, each with room for so many elements: whoever takes them at the start needs no memory later.
pub fn vectors<T: Drop>(alloc: Global, count: usize, room: usize) -> Result<Vec<Vec<T>>, AllocError>
    ensures count { IfOk result (λ vectors. length vectors.items ≡ count) }
    ensures rooms { IfOk result (λ vectors. All (λ vector. room ≤ vec_capacity vector) vectors.items) }
    ensures capacity { IfOk result (λ vectors. count ≤ vec_capacity vectors) }
{
    let mut vectors = Vec::with_capacity(alloc, count)?;
    for _ in 0..count {
        vectors.push(Vec::with_capacity(alloc, room)?)?;
    }
    Ok(vectors)
}

/// Puts the blocks of a segment in the place of what a vector has, which has room for them.
fn fill(metas: &mut Vec<Meta>, segment: &Sealed)
    requires { length segment.now.blocks ≤ vec_capacity metas.old }
    ensures metas { metas.new.items ≡ metas_of segment.now.blocks }
    ensures capacity { vec_capacity metas.new ≡ vec_capacity metas.old }
{
    metas.clear();
    for index in 0..segment.len() {
        metas.push_reserved(segment.meta(index));
    }
}
