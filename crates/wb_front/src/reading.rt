//! Reads of clients.
ghost use Rattle.std.specs.Prelude.{◌≡◌, ◌+◌, ◌/◌, ◌%◌, ◌≤◌, true, length, OnOk, IfOk, IfErr};
ghost use Rattle.wb_geometry.specs.Image.{bytes_at};
ghost use Rattle.wb_geometry.specs.History.{after};
ghost use Rattle.wb_intake.specs.Passes.{pass_name, client_of_pass, view_of};
ghost use Rattle.wb_front.specs.Words.{reads_part, ReadsRose};
ghost use Rattle.wb_front.specs.Moving.{HasRead};
ghost use Rattle.wb_front.specs.Requests.{IsPassOf};

use crate::front::Front;
use crate::gate::{Gate, Point};
use std::sync::Wait;
use std::thread;
use wb_device::Device;
use wb_geometry::Which;
use wb_intake::{Named, Pass};

impl<'g, L: Device, B: Device, G: Gate, T: Named> Front<'g, L, B, G, T> {
    /// Reads whole sectors from `sector` on, at least one and inside the backing device. Answers the point: as many places of
    /// the history show in `into` as the pass then knows, and these are no fewer than it had seen. It may wait for the lock,
    /// and for others to fill the places that it had seen. An `Err` comes only where that device failed; there are any bytes
    /// in `into` then, and the pass has seen one failed read more.
    pub fn read<R: Wait>(
        &self,
        rt: &R,
        pass: &mut Pass,
        sector: u64,
        into: &mut [u8],
    ) -> Result<u64, Which>
        requires own { IsPassOf T.carried pass.old }
        requires whole { length into.old % 512 ≡ 0 }
        requires some { 512 ≤ length into.old }
        requires inside { sector + length into.old / 512 ≤ T.carried.geometry.backing_sectors }
        ensures own { (pass_name pass.new ≡ pass_name pass.old) × (client_of_pass pass.new ≡ client_of_pass pass.old) }
        ensures point { IfOk result (λ point. (point ≡ length (view_of pass.new).known) × ((view_of pass.old).seen.cursor ≤ point)) }
        ensures shown { OnOk result (T.carried.log_told ≡ true → T.carried.backing_told ≡ true
            → into.new ≡ bytes_at (after T.carried.base (view_of pass.new).known) sector (length into.old / 512)) }
        ensures read { HasRead (view_of pass.old) (view_of pass.new) (view_of pass.new).known }
        ensures failed { IfErr result (λ which. ReadsRose (reads_part which (view_of pass.old).seen.fault) (reads_part which (view_of pass.new).seen.fault)) }
    {
        let seen = self.intake.look(pass).cursor;
        for _ in rt.forever() {
            let mut core = self.core.lock(rt);
            if core.drain(&self.intake) >= seen {
                self.gate.pass_point(pass.client(), Point::InCore);
                return core.read(&self.intake, pass, sector, into);
            }
            drop(core);
            thread::yield_now();
        }
        unreachable!()
    }
}
