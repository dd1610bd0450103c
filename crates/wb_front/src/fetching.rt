//! Reads, under the lock.
ghost use Rattle.std.specs.Prelude.{◌≡◌, ◌<◌, ◌≤◌, ◌+◌, ◌-◌, ◌/◌, ◌%◌, ◌^◌, min, true, length, Err, Ok, OnOk, IfOk, IfErr, None};
ghost use Rattle.wb_geometry.specs.Image.{bytes_at};
ghost use Rattle.wb_geometry.specs.History.{after};
ghost use Rattle.wb_geometry.specs.Device.{OnlyRead, CountsFaultsWhere};
ghost use Rattle.wb_geometry.specs.declared.which.Which.TheVariants.{Log, Backing};
ghost use Rattle.wb_steps.specs.Views.{IsPrefix};
ghost use Rattle.wb_steps.specs.Faults.{IsPartwiseAtMost};
ghost use Rattle.wb_intake.specs.Passes.{name_of, pass_name, client_of_pass, view_of, drain_name, drain_view};
ghost use Rattle.wb_intake.specs.Sights.{AreAlike};
ghost use Rattle.wb_engine.specs.Reading.{on_backing, in_log};
ghost use Rattle.wb_engine.specs.Standing.{IsSameEngine};
ghost use Rattle.wb_front.specs.Words.{faults_of, reads_part, ReadsRose, CountsReads, HasCounted};
ghost use Rattle.wb_front.specs.Joined.{drained, fault_of, IsIntakeOf};
ghost use Rattle.wb_front.specs.Moving.{publishing_fault, HasRead};

use crate::core_of::{Core, MOST_READS};
use crate::publishing::fault_word;
use wb_device::Device;
use wb_geometry::Which;
use wb_intake::{Drain, Intake, Named, Pass};

impl<L: Device, B: Device, T: Named> Core<L, B, T> {
    /// Reads whole sectors from `sector` on, at least one and inside the backing device, as they stand after all that was
    /// drained, which is no less than what the pass had seen. The pass then knows what was drained. Answers how many places
    /// that are, and has seen all that the words tell then. After an `Err`, which comes only where that device failed, there
    /// are any bytes in `into`; and one failed read more is published of the device. Nothing else is published.
    pub fn read(
        &mut self,
        intake: &Intake,
        pass: &mut Pass,
        sector: u64,
        into: &mut [u8],
    ) -> Result<u64, Which>
        requires own { IsIntakeOf T.carried intake.now }
        requires pass { pass_name pass.old ≡ T.carried.intake }
        requires drained { (view_of pass.old).seen.cursor ≤ length (drained self.old) }
        requires whole { length into.old % 512 ≡ 0 }
        requires some { 512 ≤ length into.old }
        requires inside { sector + length into.old / 512 ≤ T.carried.geometry.backing_sectors }
        ensures own { (pass_name pass.new ≡ pass_name pass.old) × (client_of_pass pass.new ≡ client_of_pass pass.old) }
        ensures point { IfOk result (λ point. point ≡ length (drained self.new)) }
        ensures shown { OnOk result (T.carried.log_told ≡ true → T.carried.backing_told ≡ true
            → into.new ≡ bytes_at (after T.carried.base (drained self.new)) sector (length into.old / 512)) }
        ensures read { HasRead (view_of pass.old) (view_of pass.new) (drained self.new) }
        ensures counted { HasCounted result (fault_of self.old) (fault_of self.new) }
        ensures stable { (drain_view self.new.drain).seen.stable ≤ (view_of pass.new).seen.stable }
        ensures fault { IsPartwiseAtMost (fault_of self.new) (view_of pass.new).seen.fault }
        ensures alike { AreAlike (view_of pass.new).heard }
        ensures failed { IfErr result (λ which. ReadsRose (reads_part which (view_of pass.old).seen.fault) (reads_part which (view_of pass.new).seen.fault)) }
        ensures same { drained self.new ≡ drained self.old }
        ensures engine { IsSameEngine self.old.engine self.new.engine }
        ensures log { OnlyRead (L.state self.old.engine.log) (L.state self.new.engine.log) }
        ensures backing { OnlyRead (B.state self.old.engine.backing) (B.state self.new.engine.backing) }
        ensures log_cause { CountsFaultsWhere (result ≡ Err Log) (L.state self.old.engine.log).faults (L.state self.new.engine.log).faults }
        ensures backing_cause { CountsFaultsWhere (result ≡ Err Backing) (B.state self.old.engine.backing).faults (B.state self.new.engine.backing).faults }
        ensures log_reads { (L.state self.new.engine.log).reads
            ≤ (L.state self.old.engine.log).reads + in_log self.old.engine.numbers.logged self.old.engine.memory.lookup sector (length into.old / 512) }
        ensures backing_reads { (B.state self.new.engine.backing).reads
            ≤ (B.state self.old.engine.backing).reads + on_backing self.old.engine.memory.lookup sector (length into.old / 512) }
    {
        intake.meet(pass, &mut self.drain);
        let result = self.engine.read(sector, into);
        let down = self.engine.down();
        tell_read(
            intake,
            &mut self.drain,
            down,
            result,
            &mut self.log_reads,
            &mut self.backing_reads,
        );
        show(intake, &mut self.drain, pass);
        result?;
        Ok(self.drain.drained())
    }
}

/// The pass hears what the drain has seen, and looks at it. It has met the drain, which has all that the pass had seen.
pub(crate) fn show(intake: &Intake, drain: &mut Drain, pass: &mut Pass)
    requires own { (drain_name drain.old ≡ name_of intake.now) × (pass_name pass.old ≡ name_of intake.now) }
    requires behind { IsPrefix (view_of pass.old).known (drain_view drain.old).known }
    requires drained { (view_of pass.old).seen.cursor ≤ length (drain_view drain.old).known }
    ensures own { (drain_name drain.new ≡ drain_name drain.old) × (pass_name pass.new ≡ pass_name pass.old) × (client_of_pass pass.new ≡ client_of_pass pass.old) }
    ensures same { drain_view drain.new ≡ drain_view drain.old }
    ensures read { HasRead (view_of pass.old) (view_of pass.new) (drain_view drain.old).known }
    ensures stable { (drain_view drain.old).seen.stable ≤ (view_of pass.new).seen.stable }
    ensures fault { IsPartwiseAtMost (drain_view drain.old).seen.fault (view_of pass.new).seen.fault }
    ensures alike { AreAlike (view_of pass.new).heard }
{
    intake.look(pass);
    let note = intake.tell_drained(drain);
    intake.hear(pass, note);
    intake.look(pass);
}

/// Counts and publishes a read of the engine that failed. The engine is down by this device or up, and the words told the
/// counts so far.
fn tell_read(
    intake: &Intake,
    drain: &mut Drain,
    down: Option<Which>,
    read: Result<(), Which>,
    log_reads: &mut u32,
    backing_reads: &mut u32,
)
    requires own { drain_name drain.old ≡ name_of intake.now }
    requires fault { (drain_view drain.old).seen.fault ≡ faults_of down log_reads.old backing_reads.old }
    requires log { log_reads.old < 2 ^ 31 }
    requires backing { backing_reads.old < 2 ^ 31 }
    ensures own { drain_name drain.new ≡ drain_name drain.old }
    ensures published { drain_view drain.new ≡ publishing_fault (drain_view drain.old) (faults_of down log_reads.new backing_reads.new) }
    ensures log { CountsReads (read ≡ Err Log) log_reads.old log_reads.new }
    ensures backing { CountsReads (read ≡ Err Backing) backing_reads.old backing_reads.new }
{
    if let Err(which) = read {
        count_failure(which, log_reads, backing_reads);
        let fault = fault_word(down, *log_reads, *backing_reads);
        intake.publish_fault(drain, fault);
    }
}

/// Counts a read that failed on this device. A count stays at its last value.
fn count_failure(which: Which, log_reads: &mut u32, backing_reads: &mut u32)
    ensures log { which ≡ Log → (log_reads.new ≡ min (log_reads.old + 1) (2 ^ 31 - 1)) × (backing_reads.new ≡ backing_reads.old) }
    ensures backing { which ≡ Backing → (backing_reads.new ≡ min (backing_reads.old + 1) (2 ^ 31 - 1)) × (log_reads.new ≡ log_reads.old) }
{
    match which {
        Which::Log => *log_reads = counted(*log_reads),
        Which::Backing => *backing_reads = counted(*backing_reads),
    }
}

/// One read more.
fn counted(reads: u32) -> u32
    ensures { result ≡ min (reads + 1) (2 ^ 31 - 1) }
{
    reads.saturating_add(1).min(MOST_READS)
}
