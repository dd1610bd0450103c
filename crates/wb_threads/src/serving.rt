//! Serving a script on threads.
ghost use Rattle.std.specs.Prelude.{◌≡◌, ◌≢◌, ◌≤◌, length, true, Any, Err, IfOk, IfErr, IfSome, Some, None};
ghost use Rattle.wb_geometry.specs.Device.{CountsFaultsWhere};
ghost use Rattle.wb_steps.specs.Rule.{shape_of, cells};
ghost use Rattle.wb_intake.specs.Passes.{AreNewcomers};
ghost use Rattle.wb_intake.specs.Carried.{Carried};
ghost use Rattle.wb_super.specs.declared.reading.Super.{Super};
ghost use Rattle.wb_engine.specs.Opening.{recovered_to};
ghost use Rattle.wb_engine.specs.declared.opening.OpenCause.TheVariants.{Memory};
ghost use Rattle.wb_front.specs.Beginning.{engine_of, Carries, IsNewIntake, IsFreshEngine};
ghost use Rattle.wb_front.specs.Closing.{AreAllPasses};
ghost use Rattle.wb_script.specs.Valid.{IsValid};
ghost use Rattle.wb_script.specs.Transcripts.{HasStop};
ghost use Rattle.wb_script.specs.declared.transcript.Stop.TheVariants.{Ids};
ghost use Rattle.wb_serve.specs.Session.{devices, IsSession, report_of, SaysLogFault, SaysBackingFault};
ghost use Rattle.wb_serve.specs.declared.serving.ServeStop.TheVariants.{Open};
ghost use Rattle.wb_threads.specs.Threads.{IsRoomFor, HaveAllPlayed, BeginsFrom, HasServed, HasEndedEarly, IsUnservedOnThreads, TellsOf};

use crate::jobs::{Room, jobs_of, part, run_all};
use crate::last_notes::tell_last;
use std::alloc::{AllocError, Global};
use std::marker::Brand;
use std::sync::Wait;
use std::thread::Threads;
use wb_board::Board;
use wb_device::Device;
use wb_engine::OpenCause;
use wb_front::{Finished, Front, Gate, Ready};
use wb_intake::{Named, Pass};
use wb_script::{Script, Transcript};
use wb_serve::{ServeStop, Served, Session, is_out_of_ids};

/// Opens the cache, serves the clients of the script on threads of their own, and closes it. Where memory was wanting, at
/// whatever moment, the answer is `Open(Memory)`, and nothing is said of faults.
pub fn serve_all<L: Device + Send, B: Device + Send, G: Gate + Sync, R: Threads + Wait + Sync>(
    rt: &R,
    alloc: Global,
    log: L,
    backing: B,
    gate: &G,
    script: &Script,
) -> Served<L, B>
    requires { IsValid script.now }
    ensures session { IfOk result.answer (λ s. (found : Super) × IsSession found script.now (devices (L.state log) (B.state backing)) (devices (L.state result.log) (B.state result.backing)) (report_of s)
        × (s.first ≡ recovered_to found)) }
    ensures served { IfOk result.answer (λ s. (found : Super) × (t : Carried) × BeginsFrom found script.now (devices (L.state log) (B.state backing)) t × HasServed L.state B.state t script.now result.log result.backing s) }
    ensures unserved { IfErr result.answer (IsUnservedOnThreads script.now (devices (L.state log) (B.state backing)) (devices (L.state result.log) (B.state result.backing))) }
    ensures log_cause { result.answer ≢ Err (Open Memory) → CountsFaultsWhere (SaysLogFault result.answer) (L.state log).faults (L.state result.log).faults }
    ensures backing_cause { result.answer ≢ Err (Open Memory) → CountsFaultsWhere (SaysBackingFault result.answer) (B.state backing).faults (B.state result.backing).faults }
{
    let (ready, passes) = match Ready::open(alloc, log, backing, script.clients()) {
        Ok(opened) => opened,
        Err(stop) => {
            return Served {
                log: stop.log,
                backing: stop.backing,
                answer: Err(ServeStop::Open(stop.cause)),
            };
        }
    };
    let (parsed, found) = (script.sectors(), ready.geometry().backing_sectors);
    if found < parsed {
        let (log, backing) = ready.into_devices();
        return Served {
            log,
            backing,
            answer: Err(ServeStop::Changed { parsed, found }),
        };
    }
    serve_ready::<L, B, G, Brand, R>(rt, alloc, ready, passes, gate, script)
}

/// Serves the clients over a cache that was just opened, and closes it.
fn serve_ready<
    L: Device + Send,
    B: Device + Send,
    G: Gate + Sync,
    T: Named + Send + Sync,
    R: Threads + Wait + Sync,
>(
    rt: &R,
    alloc: Global,
    ready: Ready<L, B>,
    passes: Vec<Pass>,
    gate: &G,
    script: &Script,
) -> Served<L, B>
    requires valid { IsValid script.now }
    requires fits { script.now.sectors ≤ T.carried.geometry.backing_sectors }
    requires carried { Carries L.state B.state T.carried ready }
    requires intake { IsNewIntake T.carried.clients ready }
    requires engine { IsFreshEngine L.state B.state (engine_of ready) }
    requires count { (length passes.items ≡ T.carried.clients) × (T.carried.clients ≡ script.now.clients) }
    requires passes { AreNewcomers T.carried.intake (cells (shape_of T.carried.geometry T.carried.first)) passes.items }
    ensures session { IfOk result.answer (HasServed L.state B.state T.carried script.now result.log result.backing) }
    ensures memory { IfErr result.answer (λ why. (why ≡ Open Memory) × HasEndedEarly L.state B.state T.carried result.log result.backing) }
{
    let front = Front::<L, B, G, T>::start(ready, gate);
    let (passes, transcripts) = play_all(rt, alloc, &front, passes, script);
    let finished = front.close(rt, passes);
    session_of(transcripts, finished)
}

/// Answers the requests of all clients. Gives their passes back, and their transcripts, but where memory was wanting.
fn play_all<
    L: Device + Send,
    B: Device + Send,
    G: Gate + Sync,
    T: Named + Send + Sync,
    R: Threads + Wait + Sync,
>(
    rt: &R,
    alloc: Global,
    front: &Front<'_, L, B, G, T>,
    passes: Vec<Pass>,
    script: &Script,
) -> (Vec<Pass>, Option<Vec<Transcript>>)
    requires valid { IsValid script.now }
    requires fits { script.now.sectors ≤ T.carried.geometry.backing_sectors }
    requires count { (length passes.items ≡ T.carried.clients) × (T.carried.clients ≡ script.now.clients) }
    requires passes { AreNewcomers T.carried.intake (cells (shape_of T.carried.geometry T.carried.first)) passes.items }
    ensures passes { AreAllPasses T.carried result.0.items }
    ensures played { IfSome result.1 (λ all. HaveAllPlayed T.carried script.now.requests result.0.items all.items) }
{
    let (room, board) = match rooms(alloc, script) {
        Ok(rooms) => rooms,
        Err(_) => return (passes, None),
    };
    let mut jobs = jobs_of(room.jobs, passes);
    run_all(rt, alloc, front, &board, script, jobs.as_mut_slice());
    let (mut passes, transcripts) = part(jobs, room.passes, room.transcripts);
    let Some(transcripts) = transcripts else {
        return (passes, None);
    };
    tell_last(front, passes.as_mut_slice());
    (passes, Some(transcripts))
}

/// The memory of a session that is taken before any thread starts, and a board for its notes.
fn rooms<T: Named>(alloc: Global, script: &Script) -> Result<(Room, Board<T>), AllocError>
    ensures { IfOk result (λ r. IsRoomFor script.now.clients r.0) }
{
    let room = Room::new(alloc, script.clients() as usize)?;
    let board = Board::new(alloc, script)?;
    Ok((room, board))
}

/// What serving left, where the transcripts are there or memory was wanting, and the front was closed.
fn session_of<L: Device, B: Device>(
    transcripts: Option<Vec<Transcript>>,
    finished: Finished<L, B>,
) -> Served<L, B>
    ensures devices { (result.log ≡ finished.log) × (result.backing ≡ finished.backing) }
    ensures session { IfOk result.answer (λ session. (transcripts ≡ Some session.transcripts) × TellsOf finished session) }
    ensures memory { IfErr result.answer (λ why. (why ≡ Open Memory) × (transcripts ≡ None)) }
{
    let Finished {
        log,
        backing,
        fault: _,
        places,
        first,
        log_failed,
        backing_failed,
    } = finished;
    let answer = match transcripts {
        Some(transcripts) => Ok(Session {
            ids: are_out_of_ids(transcripts.as_slice()),
            transcripts,
            places,
            first,
            log_failed,
            backing_failed,
        }),
        None => Err(ServeStop::Open(OpenCause::Memory)),
    };
    Served {
        log,
        backing,
        answer,
    }
}

/// Whether a line of these transcripts says that a write was stopped for want of an id.
fn are_out_of_ids(transcripts: &[Transcript]) -> bool
    ensures some { result ≡ true → Any (Any (HasStop Ids)) transcripts.now }
    ensures all { Any (Any (HasStop Ids)) transcripts.now → result ≡ true }
{
    for transcript in transcripts {
        if has_run_out(transcript) {
            return true;
        }
    }
    false
}

/// Whether a line of this transcript says so.
fn has_run_out(transcript: &Transcript) -> bool
    ensures some { result ≡ true → Any (HasStop Ids) transcript.now }
    ensures all { Any (HasStop Ids) transcript.now → result ≡ true }
{
    for index in 0..transcript.len() {
        let Some(line) = transcript.get(index) else {
            return false;
        };
        if is_out_of_ids(&line) {
            return true;
        }
    }
    false
}
