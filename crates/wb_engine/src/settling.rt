//! Making entries stable, as a flush wants them.
ghost use Rattle.std.specs.Prelude.{◌≡◌, ◌%◌, ◌≤◌, None, IsOk, OnOk};
ghost use Rattle.wb_geometry.specs.Layout.{places};
ghost use Rattle.wb_engine.specs.Settling.{stable_places, HasSlot, IsOneSync, IsSettled};

use crate::engine::Engine;
use wb_device::Device;
use wb_geometry::Which;

impl<L: Device, B: Device> Engine<L, B> {
    /// Makes turns until the entries of all places below `place` are stable: they survive a crash then. The engine is up, and
    /// `place` is a multiple of the places that a segment has, and at most the number of those that were absorbed. Where these
    /// entries are stable already, nothing changes and no device is called; and where the last of their segments needn't wait
    /// for a slot, the backing device isn't called and the log is synced once at most. After an `Err`, which comes only where
    /// that device failed, the engine is down, and what was stable still is.
    pub fn settle(&mut self, place: u64) -> Result<(), Which>
        requires up { self.old.down ≡ None }
        requires whole { place % places self.old.geometry ≡ 0 }
        requires taken { place ≤ self.old.absorbed }
        ensures stable { OnOk result (place ≤ stable_places self.new) }
        ensures settled { IsSettled L.state B.state self.old self.new result }
        ensures kept { place ≤ stable_places self.old → (self.new ≡ self.old) × IsOk result }
        ensures one_sync { HasSlot self.old place → IsOneSync L.state self.old self.new }
    {
        // The last segment that has a place below this one.
        let last = self.numbers.first + place / self.geometry.places();
        while self.numbers.stable < last {
            self.turn()?;
        }
        Ok(())
    }
}
