//! A client of a script.
ghost use Rattle.std.specs.Prelude.{◌≡◌, ◌<◌, ◌≤◌, ◌^◌, [], length, IfOk, OnOk};
ghost use Rattle.wb_intake.specs.Passes.{pass_name, client_of_pass, view_of};
ghost use Rattle.wb_front.specs.Requests.{IsPassOf};
ghost use Rattle.wb_script.specs.Valid.{IsValid};
ghost use Rattle.wb_client.specs.Client.{IsPlayedBy};

use crate::answering::{Work, answer};
use crate::flushing::await_posted;
use std::alloc::{AllocError, Global};
use std::sync::Wait;
use wb_board::Board;
use wb_device::Device;
use wb_front::{Front, Gate, Point};
use wb_intake::{Named, Pass};
use wb_script::{Script, Transcript};

/// Answers the requests of the client with this number on its pass, in order, and then awaits the flushes that it posted.
/// Between clients notes go over the board. The pass has told no note yet. It may wait for the lock, for room, and
/// for others to fill their places or to leave their notes. An `Err` is want of memory, of this client or of one whose note it
/// waits for; nothing is told of its requests then.
pub fn client<L: Device, B: Device, G: Gate, T: Named, R: Wait>(
    rt: &R,
    alloc: Global,
    front: &Front<'_, L, B, G, T>,
    pass: &mut Pass,
    board: &Board<T>,
    script: &Script,
    number: u32,
) -> Result<Transcript, AllocError>
    requires valid { IsValid script.now }
    requires own { IsPassOf T.carried pass.old }
    requires client { (client_of_pass pass.old ≡ number) × (number < script.now.clients) }
    requires new { (view_of pass.old).told ≡ [] }
    requires fits { script.now.sectors ≤ T.carried.geometry.backing_sectors }
    ensures own { (pass_name pass.new ≡ pass_name pass.old) × (client_of_pass pass.new ≡ client_of_pass pass.old) × ((view_of pass.new).unfilled ≡ []) }
    ensures played { IfOk result (IsPlayedBy T.carried script.now.requests number (view_of pass.old) (view_of pass.new)) }
    ensures few { OnOk result (length (view_of pass.new).told < 2 ^ 63) }
{
    let played = play(rt, alloc, front, pass, board, script, number);
    board.end(rt, number);
    played
}

/// The same. The board isn't told that it ended.
fn play<L: Device, B: Device, G: Gate, T: Named, R: Wait>(
    rt: &R,
    alloc: Global,
    front: &Front<'_, L, B, G, T>,
    pass: &mut Pass,
    board: &Board<T>,
    script: &Script,
    number: u32,
) -> Result<Transcript, AllocError>
    requires valid { IsValid script.now }
    requires own { IsPassOf T.carried pass.old }
    requires client { (client_of_pass pass.old ≡ number) × (number < script.now.clients) }
    requires new { (view_of pass.old).told ≡ [] }
    requires fits { script.now.sectors ≤ T.carried.geometry.backing_sectors }
    ensures own { (pass_name pass.new ≡ pass_name pass.old) × (client_of_pass pass.new ≡ client_of_pass pass.old) × ((view_of pass.new).unfilled ≡ []) }
    ensures played { IfOk result (IsPlayedBy T.carried script.now.requests number (view_of pass.old) (view_of pass.new)) }
    ensures few { OnOk result (length (view_of pass.new).told < 2 ^ 63) }
{
    let requests = script.requests()[number as usize].as_slice();
    let mut work = Work::new(alloc, script, requests.len())?;
    for request in requests {
        answer(rt, alloc, front, pass, board, request, &mut work)?;
        front.pass_point(number, Point::Answered);
    }
    let mut transcript = work.transcript;
    await_posted(rt, front, pass, &mut transcript);
    Ok(transcript)
}
