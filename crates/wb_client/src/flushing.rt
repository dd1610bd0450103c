//! Flushes of a client.
ghost use Rattle.std.specs.Prelude.{◌≡◌, ◌%◌, ◌≤◌, [], max, slice_get, IfSome, OnOk, IfErr};
ghost use Rattle.wb_geometry.specs.Layout.{places};
ghost use Rattle.wb_intake.specs.Passes.{pass_name, client_of_pass, view_of};
ghost use Rattle.wb_front.specs.Requests.{IsPassOf};
ghost use Rattle.wb_client.specs.Done.{HasLooked, HasNumbered, HasFlushed};
ghost use Rattle.wb_script.specs.Transcripts.{covered_line};
ghost use Rattle.wb_client.specs.Played.{HasSeenDown, awaited_line, awaited_by, AreAwaited};
ghost use Rattle.wb_client.specs.Client.{IsPostedLine, ArePosted, IsPosted, IsAwaited};

use std::sync::Wait;
use wb_device::Device;
use wb_front::{Down, Front, Gate, Receipt, Ticket};
use wb_intake::{Named, Pass};
use wb_script::{Ended, Line, Transcript};

/// Posts a flush, which takes the rest of the begun segment.
pub(crate) fn post<L: Device, B: Device, G: Gate, T: Named>(
    front: &Front<'_, L, B, G, T>,
    pass: &mut Pass,
) -> Ended
    requires own { IsPassOf T.carried pass.old }
    ensures own { (pass_name pass.new ≡ pass_name pass.old) × (client_of_pass pass.new ≡ client_of_pass pass.old) × ((view_of pass.new).unfilled ≡ []) }
    ensures posted { IsPosted (places T.carried.geometry) (client_of_pass pass.old) (view_of pass.old) (view_of pass.new) result }
{
    let ticket = front.post_flush(pass);
    Ended {
        through: ticket.number,
        voids: ticket.voids,
        down: None,
    }
}

/// Awaits a flush that was posted. `Err` is that it isn't done, since the cache is down.
fn await_flush<L: Device, B: Device, G: Gate, T: Named, R: Wait>(
    rt: &R,
    front: &Front<'_, L, B, G, T>,
    pass: &mut Pass,
    posted: &Ended,
) -> Result<Receipt, Down>
    requires own { IsPassOf T.carried pass.old }
    requires whole { posted.now.through % places T.carried.geometry ≡ 0 }
    requires seen { posted.now.through ≤ (view_of pass.old).seen.cursor }
    ensures own { (pass_name pass.new ≡ pass_name pass.old) × (client_of_pass pass.new ≡ client_of_pass pass.old) × ((view_of pass.new).unfilled ≡ []) }
    ensures looked { HasLooked (view_of pass.old) (view_of pass.new) }
    ensures awaited { IsAwaited (view_of pass.new) posted.now.through result }
{
    let ticket = Ticket {
        number: posted.through,
        voids: posted.voids,
    };
    front.wait_flush(rt, pass, ticket)
}

/// Posts a flush and awaits it.
pub(crate) fn flush<L: Device, B: Device, G: Gate, T: Named, R: Wait>(
    rt: &R,
    front: &Front<'_, L, B, G, T>,
    pass: &mut Pass,
) -> Ended
    requires own { IsPassOf T.carried pass.old }
    ensures own { (pass_name pass.new ≡ pass_name pass.old) × (client_of_pass pass.new ≡ client_of_pass pass.old) × ((view_of pass.new).unfilled ≡ []) }
    ensures flushed { HasFlushed (places T.carried.geometry) (client_of_pass pass.old) (view_of pass.old) (view_of pass.new) result }
{
    let posted = post(front, pass);
    match await_flush(rt, front, pass, &posted) {
        Ok(_) => posted,
        Err(down) => Ended {
            down: Some(down.device),
            ..posted
        },
    }
}

/// Awaits the flushes that were posted, in order. Where one isn't done it is marked, with all others that aren't, and no other.
pub(crate) fn await_posted<L: Device, B: Device, G: Gate, T: Named, R: Wait>(
    rt: &R,
    front: &Front<'_, L, B, G, T>,
    pass: &mut Pass,
    transcript: &mut Transcript,
)
    requires own { IsPassOf T.carried pass.old }
    requires posted { ArePosted (places T.carried.geometry) (view_of pass.old) transcript.old }
    requires awaited { awaited_by transcript.old ≤ (view_of pass.old).seen.stable }
    ensures own { (pass_name pass.new ≡ pass_name pass.old) × (client_of_pass pass.new ≡ client_of_pass pass.old) × ((view_of pass.new).unfilled ≡ []) }
    ensures looked { HasLooked (view_of pass.old) (view_of pass.new) }
    ensures awaited { AreAwaited (view_of pass.new) transcript.old transcript.new }
{
    for index in 0..transcript.len() {
        if let Err(down) = await_line(rt, front, pass, transcript, index) {
            transcript.mark_deferred(down.stable, down.device);
            return;
        }
    }
}

/// Awaits the flush that was posted at the line of this number, if one was. `Err` is that it isn't done.
fn await_line<L: Device, B: Device, G: Gate, T: Named, R: Wait>(
    rt: &R,
    front: &Front<'_, L, B, G, T>,
    pass: &mut Pass,
    transcript: &Transcript,
    index: usize,
) -> Result<(), Down>
    requires own { IsPassOf T.carried pass.old }
    requires posted { IfSome (slice_get transcript.now index) (IsPostedLine (places T.carried.geometry) (view_of pass.old)) }
    ensures own { (pass_name pass.new ≡ pass_name pass.old) × (client_of_pass pass.new ≡ client_of_pass pass.old) × ((view_of pass.new).unfilled ≡ []) }
    ensures looked { HasLooked (view_of pass.old) (view_of pass.new) }
    ensures done { OnOk result (IfSome (slice_get transcript.now index) (λ line. covered_line line ≤ max (awaited_line line) (view_of pass.new).seen.stable)) }
    ensures undone { IfErr result (λ down. (down.stable ≡ (view_of pass.new).seen.stable) × HasSeenDown down.device (view_of pass.new)) }
{
    if let Some(Line::Deferred { ended }) = transcript.get(index) {
        await_flush(rt, front, pass, &ended)?;
    }
    Ok(())
}
