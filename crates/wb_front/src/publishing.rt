//! The words of the intake tell of the engine.
ghost use Rattle.std.specs.Prelude.{◌≡◌, ◌≤◌, ◌<◌, ◌^◌, length};
ghost use Rattle.wb_steps.specs.Rule.{shape_of};
ghost use Rattle.wb_steps.specs.Faults.{parts_of, IsPartwiseAtMost};
ghost use Rattle.wb_intake.specs.Passes.{name_of, numbers_of, drain_name, drain_view, drain_loads};
ghost use Rattle.wb_engine.specs.Content.{limit_of};
ghost use Rattle.wb_engine.specs.Settling.{stable_places};
ghost use Rattle.wb_front.specs.Words.{faults_of};
ghost use Rattle.wb_front.specs.Moving.{publishing};

use wb_device::Device;
use wb_engine::Engine;
use wb_geometry::Which;
use wb_intake::{Drain, Intake};

/// What a failed read of the backing device adds to the fault word.
const BACKING_READ: u64 = 1 << 33;

/// The fault word, where the engine is down by this device or up, and so many reads failed on each, at most `MOST_READS`.
pub(crate) fn fault_word(down: Option<Which>, log_reads: u32, backing_reads: u32) -> u64
    requires log { log_reads < 2 ^ 31 }
    requires backing { backing_reads < 2 ^ 31 }
    ensures { parts_of result ≡ faults_of down log_reads backing_reads }
{
    let by = match down {
        None => 0,
        Some(Which::Log) => 1,
        Some(Which::Backing) => 2,
    };
    by + 4 * u64::from(log_reads) + u64::from(backing_reads) * BACKING_READ
}

/// Publishes the engine's limit, how many places are stable, and the fault word.
pub(crate) fn publish<L: Device, B: Device>(
    intake: &Intake,
    drain: &mut Drain,
    engine: &Engine<L, B>,
    fault: u64,
)
    requires own { drain_name drain.old ≡ name_of intake.now }
    requires shape { numbers_of intake.now ≡ shape_of engine.now.geometry engine.now.numbers.first }
    requires absorbed { length (drain_view drain.old).known ≡ engine.now.absorbed }
    requires limit { (drain_view drain.old).seen.limit ≤ limit_of engine.now.geometry engine.now.numbers }
    requires stable { (drain_view drain.old).seen.stable ≤ stable_places engine.now }
    requires fault { IsPartwiseAtMost (drain_view drain.old).seen.fault (parts_of fault) }
    ensures own { drain_name drain.new ≡ drain_name drain.old }
    ensures loads { drain_loads drain.new ≡ drain_loads drain.old }
    ensures published { drain_view drain.new ≡ publishing (drain_view drain.old) (limit_of engine.now.geometry engine.now.numbers) (stable_places engine.now) (parts_of fault) }
{
    // The limit of a sound engine is at most as much above the places that were absorbed as there are cells.
    let _geometry = engine.geometry();
    intake.raise(drain, engine.limit());
    intake.publish_stable(drain, engine.stable());
    intake.publish_fault(drain, fault);
}
