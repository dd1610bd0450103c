//! The engine and its numbers.
ghost use Rattle.std.specs.Prelude.{◌≡◌, ◌+◌, ◌-◌, ◌*◌, ◌<◌, ◌≤◌, ℕ, List};
ghost use Rattle.std.specs.List.{slice_index_or};
ghost use Rattle.wb_geometry.specs.Image.{Image};
ghost use Rattle.wb_geometry.specs.History.{HistoryEntry};
ghost use Rattle.wb_geometry.specs.Layout.{places};
ghost use Rattle.wb_table.specs.Lookup.{nowhere};
ghost use Rattle.wb_table.specs.Tables.{spot_in};
ghost use Rattle.wb_engine.specs.Content.{IsEngine, limit_of};
ghost use Rattle.wb_engine.specs.Standing.{Standing, line};
ghost use Rattle.wb_engine.specs.Spots.{IsNewestSpot};

use std::marker::Model;
use wb_back::Plan;
use wb_crash::Numbers;
use wb_device::Device;
use wb_geometry::{Geometry, Spot, Which};
use wb_memory::Memory;

/// A cache before a backing device, on one thread. It takes no memory after it was opened.
///
/// Once a device has failed in a write, in a sync, or in the reading of a segment that is to be written back, the engine is
/// down: it writes and syncs neither device any more, still absorbs while there is room, and still reads.
#[derive(Drop)]
pub struct Engine<L: Device, B: Device> {
    pub(crate) geometry: Geometry,
    pub(crate) numbers: Numbers,
    pub(crate) absorbed: u64,
    pub(crate) down: Option<Which>,
    pub(crate) log: L,
    pub(crate) backing: B,
    pub(crate) memory: Memory,
    pub(crate) plan: Plan,
    // As many bytes as a slot has, for the text of the segment that is written to the log.
    pub(crate) scratch: Vec<u8>,
}

impl<L: Device, B: Device> Model for Engine<L, B> {
    ghost use Rattle.std.specs.Prelude.{◌≡◌, ◌≤◌, ◌*◌, length};
    ghost use Rattle.wb_geometry.specs.Layout.{places, slot_sectors};
    ghost use Rattle.wb_engine.specs.Content.{EngineContent, IsEngine};

    ghost Value = { EngineContent L B };

    ghost view = { λ e. record { geometry = e.geometry; numbers = e.numbers; absorbed = e.absorbed; down = e.down; log = e.log; backing = e.backing; memory = e.memory } };

    ghost invariant = { λ e. IsEngine L.state B.state (record { geometry = e.geometry; numbers = e.numbers; absorbed = e.absorbed; down = e.down; log = e.log; backing = e.backing; memory = e.memory }) × (8 * places e.geometry ≤ e.plan.room) × (length e.scratch.items ≡ 512 * slot_sectors e.geometry) };
}

impl<L: Device, B: Device> Engine<L, B> {
    /// The numbers of the cache.
    pub fn geometry(&self) -> &Geometry
        ensures geometry { result.now ≡ self.now.geometry }
        ensures sound { IsEngine L.state B.state self.now }
    {
        &self.geometry
    }

    /// The record at the session's start: the segments of the session are those behind it.
    pub fn first(&self) -> u64
        ensures { result ≡ self.now.numbers.first }
    {
        self.numbers.first
    }

    /// The number of places that were absorbed, which is the next place.
    pub fn absorbed(&self) -> u64
        ensures { result ≡ self.now.absorbed }
    {
        self.absorbed
    }

    /// Places below this one may be absorbed.
    pub fn limit(&self) -> u64
        ensures { result ≡ limit_of self.now.geometry self.now.numbers }
    {
        self.geometry.places()
            * (self.numbers.logged - self.numbers.first + u64::from(self.geometry.ram))
    }

    /// The places whose entries would survive a crash.
    pub fn stable(&self) -> u64
        ensures { result ≡ places self.now.geometry * (self.now.numbers.stable - self.now.numbers.first) }
    {
        self.geometry.places() * (self.numbers.stable - self.numbers.first)
    }

    /// The id in the log's record: recovery begins behind that segment.
    pub fn recorded(&self) -> u64
        ensures { result ≡ self.now.numbers.recorded }
    {
        self.numbers.recorded
    }

    /// The device by which the engine is down, if it is.
    pub fn down(&self) -> Option<Which>
        ensures { result ≡ self.now.down }
    {
        self.down
    }

    /// For each sector of a block inside the backing device: the newest segment behind the record that has it, and the
    /// block's index in that segment; or id 0 and index 0 where there is none.
    pub fn spots(&self, block: u64) -> [Spot; 8]
        requires { 8 * block + 8 ≤ self.now.geometry.backing_sectors }
        ensures newest { (base : Image) (history : List HistoryEntry) → Standing L.state B.state self.now base history → (i : ℕ) → i < 8
            → IsNewestSpot (line self.now base history) self.now.numbers.recorded (self.now.numbers.sealed + 1) block i (slice_index_or result i nowhere) }
        ensures table { (i : ℕ) → i < 8 → slice_index_or result i nowhere ≡ spot_in self.now.memory.lookup block i }
    {
        self.memory.spots(block)
    }

    /// Gives the engine up, and the devices back. Neither is called, so what was absorbed and isn't in the log is lost.
    pub fn into_devices(self) -> (L, B)
        ensures log { result.0 ≡ self.log }
        ensures backing { result.1 ≡ self.backing }
    {
        let Engine { log, backing, .. } = self;
        (log, backing)
    }
}
