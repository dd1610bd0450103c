//! Turns of the engine, under the lock.
ghost use Rattle.std.specs.Prelude.{◌≡◌, ◌≤◌, ◌%◌, None, IsOk, OnOk, length};
ghost use Rattle.wb_geometry.specs.Layout.{places};
ghost use Rattle.wb_intake.specs.Passes.{drain_loads};
ghost use Rattle.wb_engine.specs.Stepping.{IsStep, IsTurn};
ghost use Rattle.wb_engine.specs.Settling.{stable_places, HasSlot, IsOneSync, IsSettled};
ghost use Rattle.wb_front.specs.Words.{KeepsReads};
ghost use Rattle.wb_front.specs.Joined.{drained, fault_of, IsIntakeOf};

use crate::core_of::Core;
use crate::publishing::{fault_word, publish};
use wb_device::Device;
use wb_engine::Turn;
use wb_geometry::Which;
use wb_intake::{Intake, Named};

impl<L: Device, B: Device, T: Named> Core<L, B, T> {
    /// Makes a turn of the engine, which is up, and publishes the limit, how many places are stable, and the fault. After an
    /// `Err`, which comes only where that device failed, the engine is down. The counts of failed reads stay.
    pub fn turn(&mut self, intake: &Intake) -> Result<Turn, Which>
        requires own { IsIntakeOf T.carried intake.now }
        requires up { self.old.engine.down ≡ None }
        ensures step { IsStep L.state B.state self.old.engine self.new.engine }
        ensures does { IsTurn L.state B.state self.old.engine self.new.engine result }
        ensures same { drained self.new ≡ drained self.old }
        ensures reads { KeepsReads (fault_of self.old) (fault_of self.new) }
        ensures loads { drain_loads self.new.drain ≡ drain_loads self.old.drain }
    {
        let result = self.engine.turn();
        let fault = fault_word(self.engine.down(), self.log_reads, self.backing_reads);
        publish(intake, &mut self.drain, &self.engine, fault);
        result
    }

    /// Makes turns until the entries of all places below `place` are stable, and publishes as `turn` does. The engine is up,
    /// and `place` is a multiple of the places of a segment, and at most the number of those that were drained. Where these
    /// entries are stable already, nothing changes and no device is called; and where the last of their segments needn't
    /// wait for a slot, the backing device isn't called and the log is synced once at most. After an `Err`, which comes only
    /// where that device failed, the engine is down, and what was stable still is. The counts of failed reads stay.
    pub fn settle(&mut self, intake: &Intake, place: u64) -> Result<(), Which>
        requires own { IsIntakeOf T.carried intake.now }
        requires up { self.old.engine.down ≡ None }
        requires whole { place % places T.carried.geometry ≡ 0 }
        requires taken { place ≤ length (drained self.old) }
        ensures stable { OnOk result (place ≤ stable_places self.new.engine) }
        ensures settled { IsSettled L.state B.state self.old.engine self.new.engine result }
        ensures kept { place ≤ stable_places self.old.engine → (self.new ≡ self.old) × IsOk result }
        ensures one_sync { HasSlot self.old.engine place → IsOneSync L.state self.old.engine self.new.engine }
        ensures same { drained self.new ≡ drained self.old }
        ensures reads { KeepsReads (fault_of self.old) (fault_of self.new) }
        ensures loads { drain_loads self.new.drain ≡ drain_loads self.old.drain }
    {
        if place <= self.engine.stable() {
            return self.engine.settle(place);
        }
        let result = self.engine.settle(place);
        let fault = fault_word(self.engine.down(), self.log_reads, self.backing_reads);
        publish(intake, &mut self.drain, &self.engine, fault);
        result
    }
}
