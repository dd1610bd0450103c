//! What a disk holds, and what was done to it.
ghost use Rattle.std.specs.Prelude.{◌≡◌, ◌-◌, ◌<◌, ◌⊎◌, ◌+◌, map, IfOk, MatchOption, slice_index, ◌/◌, ◌%◌, ◌≤◌, ◌++◌, ◌∷◌, [], ℕ, List, length, take, OnOk, OnErr};
ghost use Rattle.std.specs.List.{All};
ghost use Rattle.wb_geometry.specs.Image.{sector, sectors_of, overlay};
ghost use Rattle.wb_geometry.specs.Disk.{IsContent, Write, Sync, candidates, choose, all_candidates};
ghost use Rattle.wb_device.specs.Recorded.{changes_of, IsWithin};

use std::alloc::{AllocError, Global};

const SECTOR_BYTES: usize = 512;

/// One thing that was done to a disk.
#[derive(Debug, Drop)]
pub(crate) enum Recorded {
    Written { at: u64, bytes: Vec<u8> },
    Synced,
}

/// The bytes of a disk, those that it began with, and what was done to it since.
#[derive(Debug, Drop)]
pub(crate) struct Medium {
    alloc: Global,
    first: Vec<u8>,
    recorded: Vec<Recorded>,
    bytes: Vec<u8>,
    ghost whole: { length bytes.items % 512 ≡ 0 },
    ghost size: { length first.items ≡ length bytes.items },
    ghost within: { All (IsWithin (length first.items / 512)) recorded.items },
    ghost content: { IsContent (sectors_of first.items) (changes_of recorded.items) (sectors_of bytes.items) },
}

// This sector of a write of these bytes from sector `at` on, where it is one of them.
fn sector_written(at: u64, bytes: &[u8], index: u64) -> Option<&[u8]>
    ensures { MatchOption result ((index < at) ⊎ (at + length bytes.now / 512 ≤ index))
        (λ s. (at ≤ index) × (index < at + length bytes.now / 512) × (s.now ≡ sector (sectors_of bytes.now) (index - at))) }
{
    if index < at || (bytes.len() / SECTOR_BYTES) as u64 <= index - at {
        return None;
    }
    let start = (index - at) as usize * SECTOR_BYTES;
    Some(&bytes[start..start + SECTOR_BYTES])
}

// Which of so many candidates a choice takes for the i-th written sector.
fn taken(choice: &[u8], i: usize, count: usize) -> usize
    requires { 1 ≤ count }
    ensures taken { result ≡ slice_index choice.now (i % length choice.now) % count }
    ensures inside { result < count }
{
    if choice.is_empty() {
        return 0;
    }
    choice[i % choice.len()] as usize % count
}

// Lays these sectors over those from sector `at` on.
fn lay_over(onto: &mut [u8], at: u64, bytes: &[u8])
    requires whole { length bytes.now % 512 ≡ 0 }
    requires inside { at + length bytes.now / 512 ≤ length onto.old / 512 }
    ensures laid { sectors_of onto.new ≡ overlay at (sectors_of bytes.now) (sectors_of onto.old) }
    ensures size { length onto.new ≡ length onto.old }
{
    let start = at as usize * SECTOR_BYTES;
    onto[start..start + bytes.len()].copy_from_slice(bytes);
}

impl Medium {
    // A disk with the whole sectors of these bytes, all of them synced.
    pub(crate) fn of(alloc: Global, mut bytes: Vec<u8>) -> Result<Medium, AllocError>
        ensures content { IfOk result (λ m. sectors_of m.bytes.items ≡ sectors_of bytes.items) }
        ensures first { IfOk result (λ m. m.first.items ≡ m.bytes.items) }
        ensures recorded { IfOk result (λ m. m.recorded.items ≡ []) }
    {
        let whole = bytes.len() - bytes.len() % SECTOR_BYTES;
        bytes.truncate(whole);
        Ok(Medium {
            alloc,
            first: Vec::from_slice(alloc, &bytes)?,
            recorded: Vec::new(alloc),
            bytes,
        })
    }

    // The bytes of all sectors, given back.
    pub(crate) fn into_bytes(self) -> Vec<u8>
        ensures { result.items ≡ self.bytes.items }
    {
        let Medium { bytes, .. } = self;
        bytes
    }

    // How many of the changes come no later than the last sync. After so many each sector has one candidate.
    fn synced_count(&self) -> usize
        ensures inside { result ≤ length self.now.recorded.items }
        ensures alone { (i : ℕ) → (s : List ℕ) → length (candidates i (changes_of (take result self.now.recorded.items)) (s ∷ [])) ≡ 1 }
    {
        for place in (0..self.recorded.len()).rev() {
            if let Recorded::Synced = self.recorded[place] {
                return place + 1;
            }
        }
        0
    }

    // The bytes after so many of the changes.
    fn bytes_after(&self, alloc: Global, count: usize) -> Result<Vec<u8>, AllocError>
        requires { count ≤ length self.now.recorded.items }
        ensures content { IfOk result (λ v. IsContent (sectors_of self.now.first.items) (changes_of (take count self.now.recorded.items)) (sectors_of v.items)) }
        ensures size { IfOk result (λ v. length v.items ≡ length self.now.first.items) }
    {
        let mut laid = Vec::from_slice(alloc, &self.first)?;
        for change in &self.recorded[..count] {
            if let Recorded::Written { at, bytes } = change {
                lay_over(&mut laid, *at, bytes);
            }
        }
        Ok(laid)
    }

    // What a crash may leave in this sector: the synced content, and then what was written since, in order. It looks at
    // the changes behind the first `count` alone: after these each sector has one candidate, the one in `synced`.
    fn candidates<'a>(
        &'a self,
        alloc: Global,
        synced: &'a [u8],
        count: usize,
        index: u64,
    ) -> Result<Vec<&'a [u8]>, AllocError>
        requires index { index < length self.now.bytes.items / 512 }
        requires count { count ≤ length self.now.recorded.items }
        requires alone { (i : ℕ) → (s : List ℕ) → length (candidates i (changes_of (take count self.now.recorded.items)) (s ∷ [])) ≡ 1 }
        requires content { IsContent (sectors_of self.now.first.items) (changes_of (take count self.now.recorded.items)) (sectors_of synced.now) }
        requires size { length synced.now ≡ length self.now.first.items }
        ensures { IfOk result (λ v. map (λ s. s.now) v.items ≡ candidates index (changes_of self.now.recorded.items) (sector (sectors_of self.now.first.items) index ∷ [])) }
    {
        let start = index as usize * SECTOR_BYTES;
        let mut newest = &synced[start..start + SECTOR_BYTES];
        let mut found = Vec::new(alloc);
        found.push(newest)?;
        for change in &self.recorded[count..] {
            match change {
                Recorded::Synced => {
                    found.clear();
                    found.push(newest)?;
                }
                Recorded::Written { at, bytes } => {
                    if let Some(written) = sector_written(*at, bytes, index) {
                        newest = written;
                        found.push(written)?;
                    }
                }
            }
        }
        Ok(found)
    }

    // The bytes of the image that a choice takes of those that a crash now may leave.
    pub(crate) fn crashed(&self, alloc: Global, choice: &[u8]) -> Result<Vec<u8>, AllocError>
        ensures { IfOk result (λ v. sectors_of v.items ≡ choose choice.now 0 (all_candidates (sectors_of self.now.first.items) (changes_of self.now.recorded.items))) }
    {
        let count = self.synced_count();
        let synced = self.bytes_after(alloc, count)?;
        let mut image = Vec::new(alloc);
        let mut written = 0;
        for index in 0..self.sectors() {
            let candidates = self.candidates(alloc, &synced, count, index)?;
            let at = taken(choice, written, candidates.len());
            image.extend_from_slice(candidates[at])?;
            if candidates.len() > 1 {
                written += 1;
            }
        }
        Ok(image)
    }

    // The bytes of all sectors.
    pub(crate) fn bytes(&self) -> &[u8]
        ensures { result.now ≡ self.now.bytes.items }
    {
        self.bytes.as_slice()
    }

    // The number of sectors.
    pub(crate) fn sectors(&self) -> u64
        ensures { result ≡ length self.now.bytes.items / 512 }
    {
        (self.bytes.len() / SECTOR_BYTES) as u64
    }

    // Writes these sectors, or answers `Err` and does nothing.
    pub(crate) fn store(&mut self, at: u64, bytes: &[u8]) -> Result<(), AllocError>
        requires whole { length bytes.now % 512 ≡ 0 }
        requires inside { at + length bytes.now / 512 ≤ length self.old.bytes.items / 512 }
        ensures recorded { OnOk result (changes_of self.new.recorded.items ≡ changes_of self.old.recorded.items ++ Write at (sectors_of bytes.now) ∷ []) }
        ensures written { OnOk result (sectors_of self.new.bytes.items ≡ overlay at (sectors_of bytes.now) (sectors_of self.old.bytes.items)) }
        ensures none { OnErr result (changes_of self.new.recorded.items ≡ changes_of self.old.recorded.items) }
        ensures kept { OnErr result (self.new.bytes.items ≡ self.old.bytes.items) }
        ensures first { self.new.first ≡ self.old.first }
        ensures size { length self.new.bytes.items ≡ length self.old.bytes.items }
    {
        let copy = Vec::from_slice(self.alloc, bytes)?;
        self.recorded.push(Recorded::Written { at, bytes: copy })?;
        lay_over(&mut self.bytes, at, bytes);
        Ok(())
    }

    // The same with so many of these sectors from the front on, at most all.
    pub(crate) fn store_front(
        &mut self,
        at: u64,
        bytes: &[u8],
        count: u64,
    ) -> Result<(), AllocError>
        requires whole { length bytes.now % 512 ≡ 0 }
        requires inside { at + length bytes.now / 512 ≤ length self.old.bytes.items / 512 }
        ensures recorded { OnOk result (changes_of self.new.recorded.items ≡ changes_of self.old.recorded.items ++ Write at (take count (sectors_of bytes.now)) ∷ []) }
        ensures written { OnOk result (sectors_of self.new.bytes.items ≡ overlay at (take count (sectors_of bytes.now)) (sectors_of self.old.bytes.items)) }
        ensures none { OnErr result (changes_of self.new.recorded.items ≡ changes_of self.old.recorded.items) }
        ensures kept { OnErr result (self.new.bytes.items ≡ self.old.bytes.items) }
        ensures first { self.new.first ≡ self.old.first }
        ensures size { length self.new.bytes.items ≡ length self.old.bytes.items }
    {
        let sectors = (bytes.len() / SECTOR_BYTES) as u64;
        let stored = count.min(sectors) as usize * SECTOR_BYTES;
        self.store(at, &bytes[..stored])
    }

    // Makes sure of all that was written, or answers `Err` and does nothing.
    pub(crate) fn keep(&mut self) -> Result<(), AllocError>
        ensures recorded { OnOk result (changes_of self.new.recorded.items ≡ changes_of self.old.recorded.items ++ Sync ∷ []) }
        ensures none { OnErr result (changes_of self.new.recorded.items ≡ changes_of self.old.recorded.items) }
        ensures first { self.new.first ≡ self.old.first }
        ensures bytes { self.new.bytes ≡ self.old.bytes }
    {
        self.recorded.push(Recorded::Synced)?;
        Ok(())
    }
}
