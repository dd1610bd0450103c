//! Answering a request of a client.
ghost use Rattle.std.specs.Prelude.{◌≡◌, ◌-◌, ◌<◌, ◌≤◌, ◌^◌, ℕ, [], length, IfOk, OnOk};
ghost use Rattle.wb_intake.specs.Passes.{pass_name, client_of_pass, view_of};
ghost use Rattle.wb_front.specs.Requests.{IsPassOf};
ghost use Rattle.wb_script.specs.Valid.{IsAsked, IsWithin, Fills};
ghost use Rattle.wb_script.specs.declared.request.Request.TheVariants.{Write};
ghost use Rattle.wb_client.specs.Client.{IsNewWork, MayHear, HasAnswered};

use crate::flushing::{flush, post};
use crate::notes::{hear, tell, tellers_of};
use crate::reading::{read, read_sum};
use crate::teller::Teller;
use crate::writing::{forced, write};
use std::alloc::{AllocError, Global};
use std::sync::Wait;
use wb_board::Board;
use wb_buffers::Buffers;
use wb_device::Device;
use wb_front::{Front, Gate};
use wb_intake::{Named, Pass};
use wb_script::{Line, Pattern, Request, Script, Taken, Transcript};

/// What a client works with: room for bytes, what it has yet to hear of each other client, and its lines so far.
#[derive(Drop)]
pub(crate) struct Work<'a> {
    pub(crate) buffers: Buffers,
    pub(crate) tellers: Vec<Teller<'a>>,
    pub(crate) transcript: Transcript,
}

impl<'a> Work<'a> {
    /// No line yet, and room for so many.
    pub(crate) fn new(
        alloc: Global,
        script: &'a Script,
        lines: usize,
    ) -> Result<Work<'a>, AllocError>
        ensures { IfOk result (IsNewWork script.now.requests) }
    {
        Ok(Work {
            buffers: Buffers::new(alloc)?,
            tellers: tellers_of(alloc, script)?,
            transcript: Transcript::with_capacity(alloc, lines)?,
        })
    }
}

/// Answers a request of the pass's client. A flush that is posted is answered as if it were done. An `Err` is want of memory.
pub(crate) fn answer<L: Device, B: Device, G: Gate, T: Named, R: Wait>(
    rt: &R,
    alloc: Global,
    front: &Front<'_, L, B, G, T>,
    pass: &mut Pass,
    board: &Board<T>,
    request: &Request,
    work: &mut Work<'_>,
) -> Result<(), AllocError>
    requires own { IsPassOf T.carried pass.old }
    requires asked { (clients : ℕ) × IsAsked T.carried.geometry.backing_sectors clients (client_of_pass pass.old) request.now }
    requires sized { length work.old.buffers.shown.items ≡ 131072 }
    requires few { length (view_of pass.old).told < 2 ^ 64 - 1 }
    requires hears { MayHear (client_of_pass pass.old) work.old.tellers.items request.now }
    ensures own { (pass_name pass.new ≡ pass_name pass.old) × (client_of_pass pass.new ≡ client_of_pass pass.old) × ((view_of pass.new).unfilled ≡ []) }
    ensures sized { length work.new.buffers.shown.items ≡ 131072 }
    ensures answered { OnOk result (HasAnswered T.carried (client_of_pass pass.old) (view_of pass.old) (view_of pass.new) request.now work.old work.new) }
{
    match request {
        Request::Write {
            sector,
            count,
            pattern,
            fua,
        } => answer_write(rt, alloc, front, pass, *sector, *count, pattern, *fua, work),
        Request::Read { sector, count } => {
            let (shown, lines) = (&mut work.buffers.shown, &mut work.transcript);
            read(rt, alloc, front, pass, shown, *sector, *count, lines)
        }
        Request::ReadSum { sector, count } => {
            let line = read_sum(rt, front, pass, &mut work.buffers.shown, *sector, *count);
            work.transcript.push(alloc, &line)
        }
        Request::Flush => {
            let ended = flush(rt, front, pass);
            work.transcript.push(alloc, &Line::Flushed { ended })
        }
        Request::Defer => {
            let ended = post(front, pass);
            work.transcript.push(alloc, &Line::Deferred { ended })
        }
        Request::Tell { .. } => {
            tell(rt, front, pass, board)?;
            work.transcript.push(alloc, &Line::Told)
        }
        Request::Hear { client } => {
            hear(rt, front, pass, board, &mut work.tellers, *client)?;
            work.transcript.push(alloc, &Line::Heard)
        }
    }
}

/// Answers a write, which is flushed where `fua` asks for it and it is whole. An `Err` is want of memory.
fn answer_write<L: Device, B: Device, G: Gate, T: Named, R: Wait>(
    rt: &R,
    alloc: Global,
    front: &Front<'_, L, B, G, T>,
    pass: &mut Pass,
    sector: u64,
    count: u64,
    pattern: &Pattern,
    fua: bool,
    work: &mut Work<'_>,
) -> Result<(), AllocError>
    requires own { IsPassOf T.carried pass.old }
    requires within { IsWithin T.carried.geometry.backing_sectors sector count }
    requires fills { Fills pattern.now count }
    requires sized { length work.old.buffers.shown.items ≡ 131072 }
    ensures own { (pass_name pass.new ≡ pass_name pass.old) × (client_of_pass pass.new ≡ client_of_pass pass.old) × ((view_of pass.new).unfilled ≡ []) }
    ensures sized { length work.new.buffers.shown.items ≡ 131072 }
    ensures answered { OnOk result (HasAnswered T.carried (client_of_pass pass.old) (view_of pass.old) (view_of pass.new)
        (Write sector count pattern.now fua) work.old work.new) }
{
    let bytes = &mut work.buffers.written;
    let (places, stop) = write(rt, alloc, front, pass, bytes, sector, count, pattern)?;
    let line = if fua {
        forced(rt, front, pass, places, stop)
    } else {
        let places = Taken::of(places);
        Line::Wrote { places, stop }
    };
    work.transcript.push(alloc, &line)
}
