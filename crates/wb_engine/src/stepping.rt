//! The steps of the cache: a segment is logged, the log is synced, a batch of segments is written back, and that is recorded.
ghost use Rattle.std.specs.Prelude.{◌≡◌, ◌↔◌, ◌<◌, ◌≤◌, ◌+◌, ◌-◌, ◌*◌, ℕ, length, None, IsTrue, OnOk};
ghost use Rattle.wb_geometry.specs.Device.{OnlyRead, HasCause};
ghost use Rattle.wb_geometry.specs.Layout.{places, log_sectors};
ghost use Rattle.wb_log.specs.Kept.{IsThere, metas_at};
ghost use Rattle.wb_engine.specs.Stepping.{MayLog, MaySync, MayBack, MayRecord, LogsNext, SyncsLog, WritesBack, WritesBackThrough, PutsRecord, IsStep, IsPlanOf, AddsSegment, blocks_kept, IsFrontKept, IsRecordedGone};

use crate::engine::Engine;
use wb_back::{Plan, apply};
use wb_device::{Device, DeviceFault};
use wb_geometry::{Geometry, Spot, Which};
use wb_log::{read_block, write_segment};
use wb_memory::Memory;
use wb_super::write_record;

/// The bytes of a block.
const BLOCK_BYTES: usize = 4096;

/// The most segments of a batch.
pub const BATCH_SEGMENTS: u64 = 8;

impl<L: Device, B: Device> Engine<L, B> {
    /// Whether the next segment can be logged: the engine is up, a sealed segment waits, and no segment is in its slot that
    /// may still be read.
    pub fn can_log(&self) -> bool
        ensures { IsTrue result ↔ ((self.now.down ≡ None) × MayLog self.now.geometry self.now.numbers) }
    {
        let numbers = &self.numbers;
        self.down.is_none()
            && numbers.logged < numbers.sealed
            && numbers.logged - numbers.recorded < u64::from(self.geometry.slots)
    }

    /// Whether the log can be synced: the engine is up, and a segment was logged since the last sync.
    pub fn can_sync(&self) -> bool
        ensures { IsTrue result ↔ ((self.now.down ≡ None) × MaySync self.now.numbers) }
    {
        self.down.is_none() && self.numbers.stable < self.numbers.logged
    }

    /// Whether a segment can be written back: the engine is up, and one is safe in the log and not written back.
    pub fn can_back(&self) -> bool
        ensures { IsTrue result ↔ ((self.now.down ≡ None) × MayBack self.now.numbers) }
    {
        self.down.is_none() && self.numbers.back < self.numbers.stable
    }

    /// Whether the record can be written: the engine is up, and a segment is written back and not recorded.
    pub fn can_record(&self) -> bool
        ensures { IsTrue result ↔ ((self.now.down ≡ None) × MayRecord self.now.numbers) }
    {
        self.down.is_none() && self.numbers.recorded < self.numbers.back
    }

    /// Writes the next segment to its slot in the log, by one write; `can_log` holds. After an `Err`, which comes only
    /// where the log failed, the engine is down.
    pub fn log_next(&mut self) -> Result<(), Which>
        requires up { self.old.down ≡ None }
        requires may { MayLog self.old.geometry self.old.numbers }
        ensures step { IsStep L.state B.state self.old self.new }
        ensures does { LogsNext L.state B.state self.old self.new result }
    {
        let segment = self.memory.front().unwrap();
        match write_segment(&mut self.log, &self.geometry, segment, &mut self.scratch) {
            Ok(()) => {
                self.keep_front();
                Ok(())
            }
            Err(DeviceFault) => {
                self.numbers.tried += 1;
                self.down = Some(Which::Log);
                Err(Which::Log)
            }
        }
    }

    /// The oldest sealed segment is in the log now.
    fn keep_front(&mut self)
        requires up { self.old.down ≡ None }
        requires may { MayLog self.old.geometry self.old.numbers }
        ensures { IsFrontKept self.old self.new }
    {
        self.memory.keep_front();
        self.numbers.logged += 1;
        self.numbers.tried = self.numbers.logged;
    }

    /// Syncs the log, by which all that was logged is stable; `can_sync` holds. After an `Err`, which comes only where the
    /// log failed, the engine is down.
    pub fn sync_log(&mut self) -> Result<(), Which>
        requires up { self.old.down ≡ None }
        requires may { MaySync self.old.numbers }
        ensures step { IsStep L.state B.state self.old self.new }
        ensures does { SyncsLog L.state B.state self.old self.new result }
    {
        match self.log.sync() {
            Ok(()) => {
                self.numbers.stable = self.numbers.logged;
                Ok(())
            }
            Err(DeviceFault) => {
                self.down = Some(Which::Log);
                Err(Which::Log)
            }
        }
    }

    /// Writes a batch of segments back, those up to the last that is stable, but eight at most. Their blocks are read from
    /// the log, by one read each; each sector is written to the backing device once, with the newest of what they have, by
    /// one write for each run of a block's sectors; and the backing device is synced once. `can_back` holds. After an
    /// `Err`, which comes only where that device failed, the engine is down.
    pub fn back_batch(&mut self) -> Result<(), Which>
        requires up { self.old.down ≡ None }
        requires may { MayBack self.old.numbers }
        ensures step { IsStep L.state B.state self.old self.new }
        ensures does { WritesBack L.state B.state self.old self.new result }
    {
        let last = self.numbers.stable.min(self.numbers.back + BATCH_SEGMENTS);
        self.back_through(last)
    }

    /// Writes the segments up to this one back, as `back_batch` does. It is stable and not written back, and there are
    /// eight at most.
    pub(crate) fn back_through(&mut self, last: u64) -> Result<(), Which>
        requires up { self.old.down ≡ None }
        requires some { self.old.numbers.back < last }
        requires stable { last ≤ self.old.numbers.stable }
        requires few { last ≤ self.old.numbers.back + 8 }
        ensures step { IsStep L.state B.state self.old self.new }
        ensures does { WritesBackThrough L.state B.state last self.old self.new result }
    {
        if plan_segments(
            &mut self.plan,
            &mut self.log,
            &self.geometry,
            &self.memory,
            self.numbers.back,
            last,
        )
        .is_err()
        {
            self.down = Some(Which::Log);
            return Err(Which::Log);
        }
        match apply(&mut self.backing, &self.plan) {
            Ok(()) => {
                self.numbers.back = last;
                Ok(())
            }
            Err(DeviceFault) => {
                self.down = Some(Which::Backing);
                Err(Which::Backing)
            }
        }
    }

    /// Writes the record: all that is written back needn't be read again; `can_record` holds. After an `Err`, which comes
    /// only where the log failed, the engine is down.
    pub fn put_record(&mut self) -> Result<(), Which>
        requires up { self.old.down ≡ None }
        requires may { MayRecord self.old.numbers }
        ensures step { IsStep L.state B.state self.old self.new }
        ensures does { PutsRecord L.state B.state self.old self.new result }
    {
        match write_record(&mut self.log, self.numbers.back) {
            Ok(()) => {
                self.forget_recorded();
                Ok(())
            }
            Err(DeviceFault) => {
                self.down = Some(Which::Log);
                Err(Which::Log)
            }
        }
    }

    /// All that is written back is recorded now.
    fn forget_recorded(&mut self)
        requires up { self.old.down ≡ None }
        ensures { IsRecordedGone self.old self.new }
    {
        self.memory.forget_through(self.numbers.back);
        self.numbers.recorded = self.numbers.back;
    }
}

/// A plan of the blocks of the segments behind `back` up to `last`, which are in the log, read from there.
fn plan_segments<L: Device>(
    plan: &mut Plan,
    log: &mut L,
    geometry: &Geometry,
    memory: &Memory,
    back: u64,
    last: u64,
) -> Result<(), DeviceFault>
    requires some { back < last }
    requires few { last ≤ back + 8 }
    requires there { (id : ℕ) → back < id → id ≤ last → IsThere memory.now.logged id }
    requires places { memory.now.places ≡ places geometry.now }
    requires room { 8 * places geometry.now ≤ plan.old.room }
    requires sectors { log_sectors geometry.now ≤ (L.state log.old).sectors }
    ensures planned { OnOk result (IsPlanOf geometry.now memory.now.logged back last (L.state log.old) plan.new.blocks) }
    ensures room { plan.new.room ≡ plan.old.room }
    ensures only_read { OnlyRead (L.state log.old) (L.state log.new) }
    ensures reads { (L.state log.new).reads ≤ (L.state log.old).reads + blocks_kept memory.now.logged back (last - back) }
    ensures cause { HasCause (L.state log.old) (L.state log.new) result }
{
    plan.clear();
    for before in back..last {
        add_segment(plan, log, geometry, memory, before + 1)?;
    }
    plan.arrange();
    Ok(())
}

/// Puts the blocks of a segment that is in the log over what the plan has.
fn add_segment<L: Device>(
    plan: &mut Plan,
    log: &mut L,
    geometry: &Geometry,
    memory: &Memory,
    id: u64,
) -> Result<(), DeviceFault>
    requires id { 1 ≤ id }
    requires there { IsThere memory.now.logged id }
    requires places { memory.now.places ≡ places geometry.now }
    requires room { length plan.old.blocks + places geometry.now ≤ plan.old.room }
    requires sectors { log_sectors geometry.now ≤ (L.state log.old).sectors }
    ensures added { OnOk result (AddsSegment geometry.now memory.now.logged id (L.state log.old) plan.old.blocks plan.new.blocks) }
    ensures few { length plan.new.blocks ≤ length plan.old.blocks + places geometry.now }
    ensures room { plan.new.room ≡ plan.old.room }
    ensures only_read { OnlyRead (L.state log.old) (L.state log.new) }
    ensures reads { (L.state log.new).reads ≤ (L.state log.old).reads + length (metas_at memory.now.logged id) }
    ensures cause { HasCause (L.state log.old) (L.state log.new) result }
{
    let mut payload = [0; BLOCK_BYTES];
    for index in 0..memory.logged_length(id) {
        read_block(log, geometry, Spot { id, index }, &mut payload)?;
        plan.add(&memory.logged_meta(id, index), &payload);
    }
    Ok(())
}
