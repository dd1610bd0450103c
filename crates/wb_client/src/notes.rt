//! Notes between clients.
ghost use Rattle.std.specs.Prelude.{◌≡◌, ◌-◌, ◌<◌, ◌≤◌, ◌^◌, ℕ, [], ◌∷◌, slice_get, length, IfOk, OnOk};
ghost use Rattle.wb_intake.specs.Passes.{pass_name, client_of_pass, view_of};
ghost use Rattle.wb_front.specs.Requests.{IsPassOf};
ghost use Rattle.wb_script.specs.declared.request.Request.TheVariants.{Tell as AskedTell, Hear as AskedHear};
ghost use Rattle.wb_script.specs.declared.transcript.Line.TheVariants.{Told, Heard};
ghost use Rattle.wb_client.specs.Client.{ArePlayed, yet_to_hear, AreTellers, HaveHeard};

use crate::teller::Teller;
use std::alloc::{AllocError, Global};
use std::sync::Wait;
use wb_board::Board;
use wb_device::Device;
use wb_front::{Front, Gate};
use wb_intake::{Named, Pass};
use wb_script::Script;

/// All clients of the script, of which no note was heard yet.
pub(crate) fn tellers_of(alloc: Global, script: &Script) -> Result<Vec<Teller<'_>>, AllocError>
    ensures { IfOk result (λ tellers. (client : ℕ) → AreTellers script.now.requests client [] tellers.items) }
{
    let mut tellers = Vec::new(alloc);
    for requests in script.requests() {
        tellers.push(Teller::of(requests.as_slice()))?;
    }
    Ok(tellers)
}

/// Leaves a note on the board. `Err` is want of memory.
pub(crate) fn tell<L: Device, B: Device, G: Gate, T: Named, R: Wait>(
    rt: &R,
    front: &Front<'_, L, B, G, T>,
    pass: &mut Pass,
    board: &Board<T>,
) -> Result<(), AllocError>
    requires own { IsPassOf T.carried pass.old }
    requires few { length (view_of pass.old).told < 2 ^ 64 - 1 }
    ensures own { (pass_name pass.new ≡ pass_name pass.old) × (client_of_pass pass.new ≡ client_of_pass pass.old) × ((view_of pass.new).unfilled ≡ []) }
    ensures told { (other : ℕ) → ArePlayed T.carried (client_of_pass pass.old) (view_of pass.old) (view_of pass.new) [] ((view_of pass.old).seen.cursor ∷ [])
        (AskedTell other ∷ []) (Told ∷ []) }
{
    let note = front.tell(pass);
    board.leave(rt, note)
}

/// Hears the next note that the teller leaves for this client, for which it may wait. `Err` is that it ended without it, for
/// want of memory.
pub(crate) fn hear<L: Device, B: Device, G: Gate, T: Named, R: Wait>(
    rt: &R,
    front: &Front<'_, L, B, G, T>,
    pass: &mut Pass,
    board: &Board<T>,
    tellers: &mut [Teller<'_>],
    teller: u32,
) -> Result<(), AllocError>
    requires own { IsPassOf T.carried pass.old }
    requires known { teller < length tellers.old }
    requires some { 1 ≤ length (yet_to_hear (client_of_pass pass.old) (slice_get tellers.old teller)) }
    ensures own { (pass_name pass.new ≡ pass_name pass.old) × (client_of_pass pass.new ≡ client_of_pass pass.old) × ((view_of pass.new).unfilled ≡ []) }
    ensures count { length tellers.new ≡ length tellers.old }
    ensures heard { OnOk result (HaveHeard T.carried (client_of_pass pass.old) (view_of pass.old) (view_of pass.new) teller tellers.old tellers.new) }
{
    let number = tellers[teller as usize].next(pass.client());
    let note = board.hear(rt, teller, number).ok_or(AllocError)?;
    front.hear(pass, note);
    Ok(())
}
