//! The end of a front.
ghost use Rattle.std.specs.Prelude.{◌≡◌, ◌<◌, ◌≤◌, ◌⊎◌, ◌↔◌, ℕ, true, List, length, slice_get, All, Some};
ghost use Rattle.wb_geometry.specs.History.{client_of};
ghost use Rattle.wb_steps.specs.Views.{IsPrefix};
ghost use Rattle.wb_intake.specs.Passes.{pass_name, view_of, drain_view};
ghost use Rattle.wb_front.specs.Joined.{drained, IsIntakeOf};
ghost use Rattle.wb_front.specs.Closing.{AreAllPasses, IsFinished, IsReached, IsShown, HasLooked};

use crate::core_of::Core;
use crate::fetching::show;
use crate::front::Front;
use crate::gate::Gate;
use std::sync::Wait;
use std::thread;
use wb_device::Device;
use wb_engine::Closed;
use wb_geometry::Which;
use wb_intake::{Intake, Named, Pass};

/// What is left of a front that was closed: its devices; the one that failed in a write, a sync or a read of a writeback, if
/// one did; how many places were taken; the id below that of the first segment; and of each device whether it failed since the
/// opening.
#[derive(Drop)]
pub struct Finished<L: Device, B: Device> {
    pub log: L,
    pub backing: B,
    pub fault: Option<Which>,
    pub places: u64,
    pub first: u64,
    pub log_failed: bool,
    pub backing_failed: bool,
}

impl<'g, L: Device, B: Device, G: Gate, T: Named> Front<'g, L, B, G, T> {
    /// Ends the front, with the passes of all its clients: all that was put is drained, and the engine is closed. It may wait.
    pub fn close<R: Wait>(self, rt: &R, passes: Vec<Pass>) -> Finished<L, B>
        requires passes { AreAllPasses T.carried passes.items }
        ensures { IsFinished L.state B.state T.carried passes.items result }
    {
        let Front {
            intake,
            core,
            gate: _,
        } = self;
        let mut core = core.into_inner();
        let mut passes = passes;
        drain_all(rt, &mut core, &intake, passes.as_mut_slice());
        core.show_all(&intake, passes);
        core.finish()
    }
}

/// Drains all that was put: each pass looks, and as many places are drained as it has seen then. It may wait for others to
/// fill theirs.
fn drain_all<L: Device, B: Device, T: Named, R: Wait>(
    rt: &R,
    core: &mut Core<L, B, T>,
    intake: &Intake,
    passes: &mut [Pass],
)
    requires own { IsIntakeOf T.carried intake.now }
    requires passes { (i : ℕ) (p : Pass) → slice_get passes.old i ≡ Some p → pass_name p ≡ T.carried.intake }
    ensures { (i : ℕ) (p q : Pass) → slice_get passes.old i ≡ Some p → slice_get passes.new i ≡ Some q → IsReached (length (drained core.new)) p q }
{
    for pass in passes.iter_mut() {
        let seen = intake.look(pass).cursor;
        drain_up_to(rt, core, intake, seen);
    }
}

/// Drains until so many places are drained. It may wait for others to fill them.
fn drain_up_to<L: Device, B: Device, T: Named, R: Wait>(
    rt: &R,
    core: &mut Core<L, B, T>,
    intake: &Intake,
    seen: u64,
)
    requires own { IsIntakeOf T.carried intake.now }
    ensures more { IsPrefix (drained core.old) (drained core.new) }
    ensures reached { seen ≤ length (drained core.new) }
{
    for _ in rt.forever() {
        if core.drain(intake) >= seen {
            return;
        }
        thread::yield_now();
    }
    unreachable!()
}

impl<L: Device, B: Device, T: Named> Core<L, B, T> {
    /// Shows that each of the passes is legal for what was drained, which is no less than what any of them had seen.
    fn show_all(&mut self, intake: &Intake, passes: Vec<Pass>)
        requires own { IsIntakeOf T.carried intake.now }
        requires some { 1 ≤ length passes.items }
        requires reached { All (λ p. (pass_name p ≡ T.carried.intake) × ((view_of p).seen.cursor ≤ length (drained self.old))) passes.items }
        ensures shown { All (λ p. IsShown (drain_view self.new.drain) (view_of p)) passes.items }
        ensures clients { All (λ e. client_of e < T.carried.clients) (drained self.new) }
        ensures same { self.new.engine ≡ self.old.engine }
    {
        for pass in passes {
            self.show_pass(intake, pass);
        }
    }

    /// Shows that the pass, which has seen no more places than were drained, is legal for these.
    fn show_pass(&mut self, intake: &Intake, mut pass: Pass)
        requires own { IsIntakeOf T.carried intake.now }
        requires pass { pass_name pass ≡ T.carried.intake }
        requires reached { (view_of pass).seen.cursor ≤ length (drained self.old) }
        ensures shown { IsShown (drain_view self.new.drain) (view_of pass) }
        ensures clients { All (λ e. client_of e < T.carried.clients) (drained self.new) }
        ensures drain { HasLooked (drain_view self.old.drain) (drain_view self.new.drain) }
        ensures same { self.new.engine ≡ self.old.engine }
    {
        intake.meet(&mut pass, &mut self.drain);
        show(intake, &mut self.drain, &mut pass);
    }

    /// Closes the engine.
    fn finish(self) -> Finished<L, B>
        ensures { (passes : List Pass) → All (λ p. IsShown (drain_view self.drain) (view_of p)) passes → All (λ e. client_of e < T.carried.clients) (drained self)
            → IsFinished L.state B.state T.carried passes result }
    {
        let Core {
            engine,
            drain: _,
            log_reads,
            backing_reads,
            named: _,
        } = self;
        // The places that a sound engine absorbed all have an id.
        let _geometry = engine.geometry();
        let places = engine.absorbed();
        let first = engine.first();
        let Closed {
            log,
            backing,
            fault,
        } = engine.close();
        Finished {
            log,
            backing,
            fault,
            places,
            first,
            log_failed: has_failed(Which::Log, log_reads, fault),
            backing_failed: has_failed(Which::Backing, backing_reads, fault),
        }
    }
}

/// Whether the device failed: reads of clients failed on it, or the engine is down by it.
fn has_failed(which: Which, reads: u32, fault: Option<Which>) -> bool
    ensures { (result ≡ true) ↔ ((1 ≤ reads) ⊎ (fault ≡ Some which)) }
{
    reads > 0 || fault == Some(which)
}
