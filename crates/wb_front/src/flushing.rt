//! Flushes of clients.
ghost use Rattle.std.specs.Prelude.{◌≡◌, ◌%◌, ◌<◌, ◌≤◌, true, false, length, None, IfOk, IfErr, IfSome};
ghost use Rattle.wb_geometry.specs.Layout.{places};
ghost use Rattle.wb_steps.specs.Views.{IsPrefix};
ghost use Rattle.wb_steps.specs.Faults.{parts_of};
ghost use Rattle.wb_intake.specs.Sights.{IsLoaded};
ghost use Rattle.wb_intake.specs.Belongs.{Saw};
ghost use Rattle.wb_intake.specs.Passes.{pass_name, client_of_pass, view_of, loads_of};
ghost use Rattle.wb_barrier.specs.Tickets.{IsNumbered, LoadsCursorAlone, HasPosted, IsDone, IsPending};
ghost use Rattle.wb_engine.specs.Settling.{stable_places};
ghost use Rattle.wb_front.specs.Words.{down_part};
ghost use Rattle.wb_front.specs.Joined.{drained, IsIntakeOf};
ghost use Rattle.wb_front.specs.Requests.{IsPassOf, IsShort, IsUndone};

use crate::core_of::Core;
use crate::front::Front;
use crate::gate::Gate;
use std::sync::Wait;
use std::thread;
use wb_barrier::{Pending, Receipt, Ticket, poll, post};
use wb_device::Device;
use wb_geometry::Which;
use wb_intake::{Intake, Named, Pass};

/// A flush that can't be done: the engine is down by this device, and `stable` places are stable, fewer than its `number`.
#[derive(Clone, Copy, Debug, PartialEq, Eq)]
pub struct Down {
    pub device: Which,
    pub number: u64,
    pub stable: u64,
}

impl<'g, L: Device, B: Device, G: Gate, T: Named> Front<'g, L, B, G, T> {
    /// Posts a flush of all that the pass has put and seen: the rest of the begun segment is taken for voids. It waits for
    /// nobody and takes no memory.
    pub fn post_flush(&self, pass: &mut Pass) -> Ticket
        requires own { IsPassOf T.carried pass.old }
        ensures own { (pass_name pass.new ≡ pass_name pass.old) × (client_of_pass pass.new ≡ client_of_pass pass.old) }
        ensures number { IsNumbered (places T.carried.geometry) (view_of pass.old).seen.cursor (loads_of pass.old).cursor (loads_of pass.new).cursor result }
        ensures loads { LoadsCursorAlone (loads_of pass.old) (loads_of pass.new) }
        ensures posted { HasPosted (view_of pass.old) (view_of pass.new) result }
        ensures few { result.voids ≤ 127 }
    {
        post(&self.intake, pass)
    }

    /// Asks once whether the flush of this ticket is done: `Pending` exactly where the stable number that it loaded is below
    /// the number of the ticket. It waits for nobody and takes no memory.
    pub fn poll_flush(&self, pass: &mut Pass, ticket: Ticket) -> Result<Receipt, Pending>
        requires own { IsPassOf T.carried pass.old }
        ensures own { (pass_name pass.new ≡ pass_name pass.old) × (client_of_pass pass.new ≡ client_of_pass pass.old) }
        ensures saw { Saw (view_of pass.old) (view_of pass.new) }
        ensures loaded { IsLoaded (loads_of pass.old).stable (loads_of pass.new).stable (view_of pass.new).seen.stable }
        ensures fault { (loads_of pass.old).fault.count ≤ (loads_of pass.new).fault.count }
        ensures receipt { IfOk result (λ r. IsDone ticket (view_of pass.new).seen.stable r) }
        ensures pending { IfErr result (λ p. IsPending ticket (view_of pass.new).seen.stable p) }
    {
        poll(&self.intake, pass, ticket)
    }

    /// Awaits a flush: polls, and while it is pending takes the lock, drains and settles. The number of the ticket is a whole
    /// number of segments, and no more than the cursor that the pass has seen. It may wait. An `Err` comes only where the
    /// engine is down by that device and the stable number is below the ticket's, as the pass has then seen.
    pub fn wait_flush<R: Wait>(
        &self,
        rt: &R,
        pass: &mut Pass,
        ticket: Ticket,
    ) -> Result<Receipt, Down>
        requires own { IsPassOf T.carried pass.old }
        requires whole { ticket.number % places T.carried.geometry ≡ 0 }
        requires seen { ticket.number ≤ (view_of pass.old).seen.cursor }
        ensures own { (pass_name pass.new ≡ pass_name pass.old) × (client_of_pass pass.new ≡ client_of_pass pass.old) }
        ensures saw { Saw (view_of pass.old) (view_of pass.new) }
        ensures receipt { IfOk result (λ r. IsDone ticket (view_of pass.new).seen.stable r) }
        ensures down { IfErr result (IsUndone (loads_of pass.old) (loads_of pass.new) (view_of pass.new) ticket.number) }
    {
        let number = ticket.number;
        let mut ticket = ticket;
        for _ in rt.forever() {
            ticket = match self.poll_flush(pass, ticket) {
                Ok(receipt) => return Ok(receipt),
                Err(pending) => pending.ticket,
            };
            if !self.core.lock(rt).flush(&self.intake, number) {
                thread::yield_now();
            }
            if let Some(down) = self.look_undone(pass, number) {
                return Err(down);
            }
        }
        unreachable!()
    }

    /// Answers that the engine is down, where fewer than `number` places are stable. It looks twice: the stable number may have
    /// risen before the fault came, and no longer rises behind it.
    fn look_undone(&self, pass: &mut Pass, number: u64) -> Option<Down>
        requires own { IsPassOf T.carried pass.old }
        ensures own { (pass_name pass.new ≡ pass_name pass.old) × (client_of_pass pass.new ≡ client_of_pass pass.old) }
        ensures saw { Saw (view_of pass.old) (view_of pass.new) }
        ensures loads { ((loads_of pass.old).stable.count ≤ (loads_of pass.new).stable.count) × ((loads_of pass.old).fault.count ≤ (loads_of pass.new).fault.count) }
        ensures undone { IfSome result (IsUndone (loads_of pass.old) (loads_of pass.new) (view_of pass.new) number) }
    {
        self.look_down(pass, number)?;
        self.look_down(pass, number)
    }

    /// Looks, and answers that the engine is down, where fewer than `number` places are stable.
    fn look_down(&self, pass: &mut Pass, number: u64) -> Option<Down>
        requires own { IsPassOf T.carried pass.old }
        ensures own { (pass_name pass.new ≡ pass_name pass.old) × (client_of_pass pass.new ≡ client_of_pass pass.old) }
        ensures saw { Saw (view_of pass.old) (view_of pass.new) }
        ensures loads { ((loads_of pass.old).stable.count ≤ (loads_of pass.new).stable.count) × ((loads_of pass.old).fault.count ≤ (loads_of pass.new).fault.count) }
        ensures short { IfSome result (IsShort (loads_of pass.old) (loads_of pass.new) (view_of pass.new) number) }
    {
        let look = self.intake.look(pass);
        if look.stable >= number {
            return None;
        }
        let device = down_by(look.fault)?;
        Some(Down {
            device,
            number,
            stable: look.stable,
        })
    }
}

impl<L: Device, B: Device, T: Named> Core<L, B, T> {
    /// Drains, and makes the first `number` places stable where all of them were drained and the engine is up: and with them
    /// all whole segments that were drained, so that one sync does for every flush that is posted by then. Answers whether
    /// they were. That a device failed is told by the fault word.
    fn flush(&mut self, intake: &Intake, number: u64) -> bool
        requires own { IsIntakeOf T.carried intake.now }
        requires whole { number % places T.carried.geometry ≡ 0 }
        ensures more { IsPrefix (drained self.old) (drained self.new) }
        ensures reached { result ≡ true → number ≤ length (drained self.new) }
        ensures stable { result ≡ true → self.new.engine.down ≡ None → number ≤ stable_places self.new.engine }
        ensures waits { result ≡ false → (length (drained self.new) < number) × (self.new.engine.log ≡ self.old.engine.log) × (self.new.engine.backing ≡ self.old.engine.backing) }
    {
        let drained = self.drain(intake);
        if drained < number {
            return false;
        }
        if self.down().is_none() && self.engine.stable() < number {
            let begun = drained % self.engine.geometry().places();
            let _settled = self.settle(intake, drained - begun);
        }
        true
    }
}

/// The device by which the engine is down, as the fault word tells.
pub(crate) fn down_by(fault: u64) -> Option<Which>
    ensures down { IfSome result (λ device. down_part device (parts_of fault) ≡ 1) }
    ensures up { result ≡ None → ((parts_of fault).log_down ≡ 0) × ((parts_of fault).backing_down ≡ 0) }
{
    if fault % 2 == 1 {
        return Some(Which::Log);
    }
    if fault / 2 % 2 == 1 {
        return Some(Which::Backing);
    }
    None
}
