//! The live segments: those in memory, and what is kept of those in the log.
ghost use Rattle.std.specs.Prelude.{◌≡◌, ◌≢◌, ◌+◌, ◌-◌, ◌*◌, ◌^◌, ◌<◌, ◌≤◌, ◌↔◌, ◌++◌, ◌∷◌, [], ℕ, List, All, length, drop, IfOk, IfSome, IsNone, option_map, slice_index_or, vec_capacity};
ghost use Rattle.wb_geometry.specs.History.{HistoryEntry, Write, last_write};
ghost use Rattle.wb_geometry.specs.Layout.{places};
ghost use Rattle.wb_header.specs.Segments.{Segment};
ghost use Rattle.wb_header.specs.Standing.{StandsFor};
ghost use Rattle.wb_ram.specs.Merging.{IsMerged};
ghost use Rattle.wb_table.specs.Lookup.{nowhere};
ghost use Rattle.wb_table.specs.Tables.{lookup_of};
ghost use Rattle.wb_log.specs.Kept.{IsThere, metas_of, metas_at, no_meta};
ghost use Rattle.wb_memory.specs.Memory.{IsMemory, IsSealed, IsNewestIn};

use std::alloc::{AllocError, Global};
use std::collections::VecDeque;
use std::marker::Model;
use std::mem;
use wb_geometry::{Block, Geometry, Spot};
use wb_header::{Cached, Meta, Sealed};
use wb_log::{LogState, vectors};
use wb_ram::RamSegment;
use wb_table::Lookup;

/// The bytes of a sector.
const SECTOR_BYTES: usize = 512;

/// Where the newest content of a sector is.
#[derive(Clone, Copy, Debug)]
pub enum Newest<'a> {
    /// In a segment in memory: these are its bytes.
    Here(&'a [u8]),
    /// In a segment in the log.
    Logged(Spot),
    /// No live segment has the sector.
    Backing,
}

/// The open segment, which takes writes, the sealed ones before it, what is kept of those before them, which are in the
/// log, and where the newest content of each sector stands among all of them. All its memory is taken at the start.
#[derive(Drop)]
pub struct Memory {
    places: usize,
    logged: LogState,
    sealed: VecDeque<Sealed>,
    current: RamSegment,
    lookup: Lookup,
    waiting: Vec<Vec<Cached>>,
}

impl Model for Memory {
    ghost use Rattle.wb_memory.specs.Memory.{MemoryContent};

    ghost Value = { MemoryContent };

    ghost use Rattle.wb_memory.specs.Holding.{content_of, IsHeld};

    ghost view = { content_of };

    ghost invariant = { IsHeld };
}

impl Memory {
    /// No write yet and no segment in the log, with room for those of this geometry; the open segment is the one behind
    /// `first`.
    pub fn new(alloc: Global, geometry: &Geometry, first: u64) -> Result<Memory, AllocError>
        requires { first < 2 ^ 63 }
        ensures places { IfOk result (λ m. m.places ≡ places geometry.now) }
        ensures segments { IfOk result (λ m. m.segments ≡ geometry.now.ram) }
        ensures logged { IfOk result (λ m. (m.logged.kept ≡ []) × (m.logged.slots ≡ geometry.now.slots)) }
        ensures sealed { IfOk result (λ m. m.sealed ≡ []) }
        ensures current { IfOk result (λ m. (m.current.id ≡ first + 1) × (m.current.blocks ≡ [])) }
        ensures sound { IfOk result IsMemory }
    {
        let places = geometry.places() as usize;
        let segments = geometry.ram as usize;
        let slots = geometry.slots as usize;
        Ok(Memory {
            places,
            logged: LogState::new(alloc, geometry)?,
            sealed: VecDeque::with_capacity(alloc, segments)?,
            current: RamSegment::new(alloc, first + 1, places)?,
            lookup: Lookup::new(alloc, (slots + segments) * places)?,
            waiting: vectors(alloc, segments, places)?,
        })
    }

    /// Puts a write into the open segment. It takes no memory.
    pub fn put(&mut self, block: u64, payload: Box<Block>)
        requires sealed { length self.old.sealed < self.old.segments }
        requires room { length self.old.current.blocks < self.old.places }
        requires some { payload.value.bits ≢ 0 }
        ensures stands { (client : ℕ) (entries : List HistoryEntry) → StandsFor self.old.current.blocks entries
            → StandsFor self.new.current.blocks (entries ++ Write client block payload.value.bits payload.value.payload ∷ []) }
        ensures merged { (index : ℕ) × IsMerged block payload.value.bits index self.old.current.blocks self.new.current.blocks }
        ensures some { 1 ≤ length self.new.current.blocks }
        ensures few { length self.new.current.blocks ≤ length self.old.current.blocks + 1 }
        ensures id { self.new.current.id ≡ self.old.current.id }
        ensures sealed { self.new.sealed ≡ self.old.sealed }
        ensures logged { self.new.logged ≡ self.old.logged }
        ensures sizes { (self.new.places ≡ self.old.places) × (self.new.segments ≡ self.old.segments) }
        ensures sound { IsMemory self.new }
    {
        let bits = payload.bits;
        let index = self.current.merge(block, payload);
        let id = self.current.id();
        self.lookup.note(block, bits, Spot { id, index });
    }

    /// Seals the open segment, which has a block at least, and opens the next.
    pub fn seal(&mut self)
        requires some { 1 ≤ length self.old.current.blocks }
        requires sealed { length self.old.sealed < self.old.segments }
        requires id { self.old.current.id < 2 ^ 63 }
        ensures sealed { (s : Segment) × (self.new.sealed ≡ self.old.sealed ++ s ∷ []) × (s.id ≡ self.old.current.id) × (s.blocks ≡ self.old.current.blocks) }
        ensures current { (self.new.current.id ≡ self.old.current.id + 1) × (self.new.current.blocks ≡ []) }
        ensures logged { self.new.logged ≡ self.old.logged }
        ensures sizes { (self.new.places ≡ self.old.places) × (self.new.segments ≡ self.old.segments) }
        ensures sound { IsMemory self.new }
    {
        let vector = self.waiting.pop().unwrap();
        let next = RamSegment::again(self.current.id() + 1, vector);
        let full = mem::replace(&mut self.current, next);
        self.sealed.push_back_reserved(full.seal());
    }

    /// The oldest sealed segment.
    pub fn front(&self) -> Option<&Sealed>
        ensures sound { IsMemory self.now }
        ensures none { IsNone result ↔ (self.now.sealed ≡ []) }
        ensures front { IfSome result (λ s. (rest : List Segment) × (self.now.sealed ≡ s.now ∷ rest)) }
        ensures sealed { IfSome result (λ s. IsSealed self.now.places s.now) }
    {
        self.sealed.front()
    }

    /// The oldest sealed segment is in the log now: of it the numbers and the dirty bits of its blocks are kept, and its
    /// vector for a later one. It takes no memory.
    pub fn keep_front(&mut self)
        requires sealed { 1 ≤ length self.old.sealed }
        requires room { length self.old.logged.kept < self.old.logged.slots }
        requires id { self.old.current.id < 2 ^ 63 }
        ensures sealed { self.new.sealed ≡ drop 1 self.old.sealed }
        ensures logged { (front : Segment) (rest : List Segment) → self.old.sealed ≡ front ∷ rest
            → (self.new.logged.kept ≡ self.old.logged.kept ++ metas_of front.blocks ∷ [])
            × (self.new.logged.first + length self.old.logged.kept ≡ front.id) }
        ensures current { self.new.current ≡ self.old.current }
        ensures lookup { self.new.lookup ≡ self.old.lookup }
        ensures sizes { (self.new.places ≡ self.old.places) × (self.new.segments ≡ self.old.segments) × (self.new.logged.slots ≡ self.old.logged.slots) }
        ensures sound { IsMemory self.new }
    {
        let front = self.sealed.pop_front().unwrap();
        self.logged.keep(&front);
        let mut vector = front.into_blocks();
        vector.clear();
        self.waiting.push_reserved(vector);
    }

    /// Forgets the segments up to this one, all of which are in the log.
    pub fn forget_through(&mut self, id: u64)
        requires { id + length self.old.sealed < self.old.current.id }
        ensures logged { self.new.logged.kept ≡ drop (id + 1 - self.old.logged.first) self.old.logged.kept }
        ensures last { self.new.logged.first + length self.new.logged.kept ≡ self.old.logged.first + length self.old.logged.kept }
        ensures sealed { self.new.sealed ≡ self.old.sealed }
        ensures current { self.new.current ≡ self.old.current }
        ensures sizes { (self.new.places ≡ self.old.places) × (self.new.segments ≡ self.old.segments) × (self.new.logged.slots ≡ self.old.logged.slots) }
        ensures sound { IsMemory self.new }
    {
        self.lookup.forget_through(id);
        self.logged.drop_through(id);
    }

    /// How many blocks segment `id` has, which is in the log and isn't forgotten.
    pub fn logged_length(&self, id: u64) -> u8
        requires { IsThere self.now.logged id }
        ensures length { result ≡ length (metas_at self.now.logged id) }
        ensures sound { IsMemory self.now }
    {
        self.logged.length(id)
    }

    /// The number and the dirty bits of block `index` of segment `id`, which is in the log and isn't forgotten.
    pub fn logged_meta(&self, id: u64, index: u8) -> Meta
        requires there { IsThere self.now.logged id }
        requires index { index < length (metas_at self.now.logged id) }
        ensures { result ≡ slice_index_or (metas_at self.now.logged id) index no_meta }
    {
        self.logged.meta(id, index)
    }

    /// The spots of the eight sectors of the block, each in the newest segment that has it.
    pub fn spots(&self, block: u64) -> [Spot; 8]
        ensures table { (i : ℕ) → i < 8 → slice_index_or result i nowhere ≡ (lookup_of self.now.lookup).spots block i }
        ensures sound { IsMemory self.now }
    {
        self.lookup.find(block)
    }

    /// Where the newest content of a sector of a block is.
    pub fn newest(&self, block: u64, index: u8) -> Newest<'_>
        requires { index < 8 }
        ensures newest { IsNewestIn self.now block index result }
        ensures sound { IsMemory self.now }
    {
        let spot = self.lookup.find(block)[usize::from(index)];
        if spot.id == 0 {
            return Newest::Backing;
        }
        let behind = self.current.id() - spot.id;
        if behind == 0 {
            return Newest::Here(self.current.sector(block, index).unwrap());
        }
        if behind > self.sealed.len() as u64 {
            return Newest::Logged(spot);
        }
        let segment = &self.sealed[self.sealed.len() - behind as usize];
        let start = usize::from(index) * SECTOR_BYTES;
        Newest::Here(&segment.payload(usize::from(spot.index))[start..start + SECTOR_BYTES])
    }
}

#[cfg(test)]
mod tests {
    use super::*;
    use std::test::Fail;
    use wb_geometry::Part;

    /// Sectors, each as its block, its index, and the byte that fills it; 0 is a sector that isn't there.
    type Row = (u64, u8, u8);

    /// The block of a write of `count` of its sectors from `from` on, which are filled with this byte.
    fn written(alloc: Global, from: u8, count: u8, fill: u8) -> Result<Box<Block>, AllocError>
        requires some { 1 ≤ count }
        requires inside { from + count ≤ 8 }
        ensures { IfOk result (λ block. block.value.bits ≢ 0) }
    {
        let bytes = [fill; 4096];
        let part = Part {
            block: 0,
            from,
            count,
        };
        Block::boxed(alloc, &part, &bytes[..512 * usize::from(count)])
    }

    /// Whether the newest content of a sector is in memory and filled with this byte, or not in memory where that is 0.
    fn holds_sector(memory: &Memory, block: u64, index: u8, fill: u8) -> bool
        requires { index < 8 }
    {
        match memory.newest(block, index) {
            Newest::Here(bytes) => fill != 0 && bytes == [fill; 512].as_slice(),
            Newest::Logged(_) | Newest::Backing => fill == 0,
        }
    }

    fn holds(memory: &Memory, rows: &[Row]) -> bool {
        rows.iter().all(|(block, index, fill)| *index < 8
            && holds_sector(memory, *block, *index, *fill))
    }

    /// A sealed segment with blocks 7 and 9, whose id is 5, and block 7 again in the open one.
    fn two_segments(alloc: Global) -> Result<Memory, Fail>
        ensures sealed { IfOk result (λ memory. length memory.sealed ≡ 1) }
        ensures logged { IfOk result (λ memory. (memory.logged.kept ≡ []) × (memory.logged.slots ≡ 4)) }
        ensures id { IfOk result (λ memory. memory.current.id ≡ 6) }
    {
        let geometry = Geometry::new(5, 4, 2, 64)?;
        let mut memory = Memory::new(alloc, &geometry, 4)?;
        memory.put(7, written(alloc, 1, 2, 0x10)?);
        memory.put(9, written(alloc, 0, 8, 0x20)?);
        memory.seal();
        memory.put(7, written(alloc, 2, 1, 0x30)?);
        Ok(memory)
    }

    /// Whether the sectors of both segments are found where they were written last.
    fn holds_both(memory: &Memory) -> bool {
        holds(memory, &[(7, 0, 0), (7, 1, 0x10), (7, 2, 0x30), (7, 3, 0)])
            && holds(memory, &[(9, 0, 0x20), (9, 7, 0x20), (8, 1, 0)])
            && memory.spots(7)[1] == Spot { id: 5, index: 0 }
            && memory.spots(7)[2] == Spot { id: 6, index: 0 }
            && memory.spots(9)[0] == Spot { id: 5, index: 1 }
    }

    #[test]
    fn a_sector_is_read_from_the_newest_segment(rt: HostRuntime) -> Result<(), Fail> {
        let memory = two_segments(rt.alloc())?;
        assert!(rt; holds_both(&memory));
        Ok(())
    }

    /// Whether the sealed segment is named as the one in the log.
    fn names_logged(memory: &Memory) -> bool {
        let spot = Spot { id: 5, index: 1 };
        memory.front().is_none()
            && holds(memory, &[(7, 1, 0), (7, 2, 0x30), (9, 0, 0)])
            && memory.spots(9)[0] == spot
            && matches!(memory.newest(9, 0), Newest::Logged(found) if found == spot)
    }

    /// Whether it isn't named any more.
    fn names_backing(memory: &Memory) -> bool {
        memory.spots(9)[0] == Spot { id: 0, index: 0 }
            && matches!(memory.newest(9, 0), Newest::Backing)
            && holds(memory, &[(7, 2, 0x30)])
    }

    #[test]
    fn a_logged_segment_is_named_until_it_is_forgotten(rt: HostRuntime) -> Result<(), Fail> {
        let mut memory = two_segments(rt.alloc())?;
        memory.keep_front();
        let logged = names_logged(&memory);
        memory.forget_through(5);
        let forgotten = names_backing(&memory);
        assert!(rt; logged && forgotten);
        Ok(())
    }
}
