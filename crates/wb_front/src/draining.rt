//! What was put is taken out and absorbed.
ghost use Rattle.std.specs.Prelude.{◌≡◌, List, length};
ghost use Rattle.wb_geometry.specs.Image.{Image};
ghost use Rattle.wb_steps.specs.Rule.{shape_of};
ghost use Rattle.wb_intake.specs.Belongs.{IsWaiting};
ghost use Rattle.wb_intake.specs.Passes.{name_of, numbers_of, drain_name, drain_view, drain_loads};
ghost use Rattle.wb_engine.specs.Content.{limit_of};
ghost use Rattle.wb_engine.specs.Standing.{Standing, IsSynced};
ghost use Rattle.wb_front.specs.Joined.{drained, IsIntakeOf};
ghost use Rattle.wb_front.specs.Moving.{HasDrained, IsSameDrain};

use crate::core_of::Core;
use wb_device::Device;
use wb_engine::Engine;
use wb_intake::{Drain, Intake, Named, NotFilled};

impl<L: Device, B: Device, T: Named> Core<L, B, T> {
    /// Takes out what is filled, in order, and absorbs it, up to the first place that isn't filled. Answers how many places
    /// were drained.
    pub fn drain(&mut self, intake: &Intake) -> u64
        requires own { IsIntakeOf T.carried intake.now }
        ensures drained { HasDrained self.old self.new }
        ensures length { result ≡ length (drained self.new) }
        ensures waits { (stop : NotFilled) × (stop.place ≡ result) × IsWaiting (numbers_of intake.now) (drain_loads self.old.drain) (drain_loads self.new.drain) stop }
    {
        self.drain_filled(intake).place
    }

    /// The same. Answers why it ended.
    pub(crate) fn drain_filled(&mut self, intake: &Intake) -> NotFilled
        requires own { IsIntakeOf T.carried intake.now }
        ensures drained { HasDrained self.old self.new }
        ensures length { result.place ≡ length (drained self.new) }
        ensures waits { IsWaiting (numbers_of intake.now) (drain_loads self.old.drain) (drain_loads self.new.drain) result }
    {
        absorb_filled(intake, &mut self.drain, &mut self.engine)
    }
}

/// Takes out what is filled, in order, and absorbs it. Answers why it ended.
fn absorb_filled<L: Device, B: Device>(
    intake: &Intake,
    drain: &mut Drain,
    engine: &mut Engine<L, B>,
) -> NotFilled
    requires own { drain_name drain.old ≡ name_of intake.now }
    requires shape { numbers_of intake.now ≡ shape_of engine.old.geometry engine.old.numbers.first }
    requires absorbed { length (drain_view drain.old).known ≡ engine.old.absorbed }
    requires limit { (drain_view drain.old).seen.limit ≡ limit_of engine.old.geometry engine.old.numbers }
    ensures own { drain_name drain.new ≡ drain_name drain.old }
    ensures absorbed { length (drain_view drain.new).known ≡ engine.new.absorbed }
    ensures drained { HasDrained (record { engine = engine.old; drain = drain.old }) (record { engine = engine.new; drain = drain.new }) }
    ensures stands { (base : Image) → Standing L.state B.state engine.old base (drain_view drain.old).known → Standing L.state B.state engine.new base (drain_view drain.new).known }
    ensures synced { IsSynced L.state B.state engine.old → IsSynced L.state B.state engine.new }
    ensures same { IsSameDrain (drain_view drain.old) (drain_view drain.new) }
    ensures length { result.place ≡ length (drain_view drain.new).known }
    ensures waits { IsWaiting (numbers_of intake.now) (drain_loads drain.old) (drain_loads drain.new) result }
{
    loop {
        match intake.take(drain) {
            Ok(parcel) => engine.absorb(parcel.entry),
            Err(stop) => return stop,
        }
    }
}
