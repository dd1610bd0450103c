//! The end of an engine.
ghost use Rattle.std.specs.Prelude.{◌≡◌, ◌+◌, ◌/◌, ◌%◌, ◌++◌, ℕ, List, [], replicate, Some, None, IfSome};
ghost use Rattle.wb_geometry.specs.Image.{Image};
ghost use Rattle.wb_geometry.specs.History.{HistoryEntry, Void, after, PutsPartly};
ghost use Rattle.wb_geometry.specs.Device.{Passes, ContentPasses, NothingPending, IsSameDevice, CountsFaultsWhere};
ghost use Rattle.wb_geometry.specs.Layout.{places};
ghost use Rattle.wb_geometry.specs.declared.which.Which.TheVariants.{Log, Backing};
ghost use Rattle.wb_super.specs.Superblock.{SuperText, record_of};
ghost use Rattle.wb_crash.specs.Chain.{IsChain};
ghost use Rattle.wb_crash.specs.Crash.{CrashNow};
ghost use Rattle.wb_crash.specs.Images.{IsOrdered};
ghost use Rattle.wb_engine.specs.Closing.{IsDrained, last_id};
ghost use Rattle.wb_engine.specs.Standing.{Standing, Told, IsSynced, IsOffDevices, line};

use crate::engine::Engine;
use crate::turning::Turn;
use wb_device::Device;
use wb_geometry::{Entry, Which};

/// What is left of an engine that was closed: its devices, and the one that failed in a write, a sync or a read of a
/// writeback, if one did.
#[derive(Drop)]
pub struct Closed<L: Device, B: Device> {
    pub log: L,
    pub backing: B,
    pub fault: Option<Which>,
}

impl<L: Device, B: Device> Engine<L, B> {
    /// Ends the engine. Where it is up, the begun segment is sealed, and all segments are logged, synced, written back and
    /// recorded. Where it is down, neither device is called. `fault` is there exactly where the engine was down or went
    /// down in this call.
    pub fn close(self) -> Closed<L, B>
        ensures content { result.fault ≡ None → (base : Image) (history : List HistoryEntry) → Standing L.state B.state self base history
            → (image : Image) → Told (B.state result.backing) image → image ≡ after base history }
        ensures empty { result.fault ≡ None → (base : Image) (history : List HistoryEntry) → Standing L.state B.state self base history
            → (image : Image) → Told (L.state result.log) image → IsChain self.geometry image [] }
        ensures recorded { result.fault ≡ None → (base : Image) (history : List HistoryEntry) → Standing L.state B.state self base history
            → (image : Image) → Told (L.state result.log) image → (record_of image ≡ last_id self) × SuperText image self.geometry 1 }
        ensures crash { (base : Image) (history : List HistoryEntry) → Standing L.state B.state self base history
            → CrashNow self.geometry (line self base history) self.numbers.stable (last_id self) (L.state result.log) (B.state result.backing) }
        ensures changed { (base : Image) (history : List HistoryEntry) → Standing L.state B.state self base history
            → ContentPasses (PutsPartly history) (B.state self.backing) (B.state result.backing) }
        ensures left { (base : Image) (history : List HistoryEntry) → Standing L.state B.state self base history
            → Passes (PutsPartly history) (B.state self.backing) (B.state result.backing) }
        ensures durable { result.fault ≡ None → IsSynced L.state B.state self
            → NothingPending (L.state result.log) × NothingPending (B.state result.backing) }
        ensures was_down { IfSome self.down (λ which. (result.fault ≡ Some which) × (result.log ≡ self.log) × (result.backing ≡ self.backing)) }
        ensures log_cause { self.down ≡ None → CountsFaultsWhere (result.fault ≡ Some Log) (L.state self.log).faults (L.state result.log).faults }
        ensures backing_cause { self.down ≡ None → CountsFaultsWhere (result.fault ≡ Some Backing) (B.state self.backing).faults (B.state result.backing).faults }
        ensures same_log { IsSameDevice (L.state self.log) (L.state result.log) }
        ensures same_backing { IsSameDevice (B.state self.backing) (B.state result.backing) }
    {
        let mut engine = self;
        if engine.down.is_none() {
            engine.fill_open();
            engine.drain();
        }
        let fault = engine.down();
        let (log, backing) = engine.into_devices();
        Closed {
            log,
            backing,
            fault,
        }
    }

    /// Fills the open segment, where it is begun, with places that change nothing, so that it is sealed.
    fn fill_open(&mut self)
        ensures filled { self.new.absorbed % places self.new.geometry ≡ 0 }
        ensures stands { (base : Image) (history : List HistoryEntry) → Standing L.state B.state self.old base history
            → (voids : ℕ) × Standing L.state B.state self.new base (history ++ replicate voids (Void 0)) }
        ensures synced { IsSynced L.state B.state self.old → IsSynced L.state B.state self.new }
        ensures sealed { self.new.numbers.sealed ≡ last_id self.old }
        ensures cut { self.new.numbers.sealed ≡ self.new.numbers.first + self.new.absorbed / places self.new.geometry }
        ensures first { self.new.numbers.first ≡ self.old.numbers.first }
        ensures stable { self.new.numbers.stable ≡ self.old.numbers.stable }
        ensures kept { IsOffDevices self.old self.new }
    {
        let places = self.geometry.places();
        let begun = self.absorbed % places;
        if begun == 0 {
            return;
        }
        for _ in begun..places {
            self.absorb(Entry::Void { client: 0 });
        }
    }

    /// Makes turns until there is nothing to do, or a device fails.
    fn drain(&mut self)
        requires { self.old.down ≡ None }
        ensures drained { IsDrained L.state B.state self.old self.new }
        ensures ordered { self.new.down ≡ None → IsOrdered self.new.geometry self.new.numbers }
    {
        while self.down.is_none() {
            if let Ok(Turn::Idle) = self.turn() {
                return;
            }
        }
    }
}
