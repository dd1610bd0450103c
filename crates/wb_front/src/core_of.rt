//! What the lock of a front holds.
ghost use Rattle.std.specs.Prelude.{◌≡◌, length};
ghost use Rattle.wb_front.specs.Joined.{CoreContent, drained, IsJoined};

use std::marker::{Model, PhantomData};
use wb_device::Device;
use wb_engine::Engine;
use wb_geometry::Which;
use wb_intake::{Drain, Named};

/// The engine and the drain of a front. What always holds of them, with what their name carries, is `IsJoined`. None of its
/// calls waits for anybody or takes memory.
#[derive(Drop)]
pub struct Core<L: Device, B: Device, T: Named> {
    pub(crate) engine: Engine<L, B>,
    pub(crate) drain: Drain,
    // How many reads of clients failed on each device, at most `MOST_READS`.
    pub(crate) log_reads: u32,
    pub(crate) backing_reads: u32,
    pub(crate) named: PhantomData<T>,
}

/// The last value of a count of failed reads.
pub(crate) const MOST_READS: u32 = (1 << 31) - 1;

impl<L: Device, B: Device, T: Named> Model for Core<L, B, T> {
    ghost use Rattle.std.specs.Prelude.{◌≡◌, ◌<◌, ◌^◌};
    ghost use Rattle.wb_intake.specs.Passes.{drain_view};
    ghost use Rattle.wb_front.specs.Joined.{CoreContent, IsJoined};

    ghost Value = { CoreContent L B };

    ghost view = { λ c. record { engine = c.engine; drain = c.drain } };

    ghost invariant = { λ c. IsJoined L.state B.state T.carried (record { engine = c.engine; drain = c.drain })
        × ((drain_view c.drain).seen.fault.log_reads ≡ c.log_reads) × ((drain_view c.drain).seen.fault.backing_reads ≡ c.backing_reads)
        × (c.log_reads < 2 ^ 31) × (c.backing_reads < 2 ^ 31) };
}

impl<L: Device, B: Device, T: Named> Core<L, B, T> {
    /// The device by which the engine is down, if it is.
    pub fn down(&self) -> Option<Which>
        ensures { result ≡ self.now.engine.down }
    {
        self.engine.down()
    }
}
