//! The top call.
ghost use Rattle.std.specs.Prelude.{◌≡◌, [], map, true, false};
ghost use Rattle.std.specs.String.{string_bytes};
ghost use Rattle.wb_script.specs.Valid.{IsValid};
ghost use Rattle.wb_serve.specs.Session.{devices};
ghost use Rattle.wb_tool.specs.Run.{run_of, lent};
ghost use Rattle.wb_tool.specs.Account.{IsAccounted, IsComplete};
ghost use Rattle.wb_tool.specs.Begun.{HasBegun, IsEndedAt};
ghost use Rattle.wb_tool.specs.Stages.{IsServedBy};

use crate::command::{Command, WorkloadNumbers, command_of};
use crate::formatting::format_log;
use crate::inspecting::inspect_log;
use crate::recovering::recover_log;
use crate::serving::{prepare_script, tell_answers};
use crate::slots::inspect_slot;
use crate::status;
use crate::texts::{USAGE, tell};
use crate::workload::{prepare_workload, tell_sum};
use std::alloc::Global;
use std::sync::Wait;
use std::thread::Threads;
use wb_device::{Device, Sink, Source};
use wb_front::Gate;
use wb_script::{Script, Transcript};
use wb_serve::{Served, serve_plain};
use wb_threads::serve_all;

/// The end of a run: its status, the transcript of each client and the number of places, which are none where no session
/// began, and the devices, given back.
#[derive(Drop)]
pub struct Outcome<L: Device, B: Device> {
    pub status: u8,
    pub transcripts: Vec<Transcript>,
    pub places: u64,
    pub log: L,
    pub backing: B,
}

impl<L: Device, B: Device> Outcome<L, B> {
    /// The end of a run in which no session began.
    pub fn without_session(alloc: Global, status: u8, log: L, backing: B) -> Outcome<L, B>
        ensures status { result.status ≡ status }
        ensures transcripts { result.transcripts.items ≡ [] }
        ensures places { result.places ≡ 0 }
        ensures log { result.log ≡ log }
        ensures backing { result.backing ≡ backing }
    {
        Outcome {
            status,
            transcripts: Vec::new(alloc),
            places: 0,
            log,
            backing,
        }
    }
}

/// What is to be served, once both devices were judged: the script, over these devices.
#[derive(Drop)]
pub struct Begun<L: Device, B: Device> {
    pub log: L,
    pub backing: B,
    pub script: Script,
}

/// What a run has come to before it serves anything.
#[derive(Drop)]
pub enum Stage<L: Device, B: Device> {
    /// It has ended.
    Ended(Outcome<L, B>),
    /// A script is to be served, and its answers told.
    Serve(Begun<L, B>),
    /// The workload of these numbers is to be served, and its line told.
    Workload(Begun<L, B>, WorkloadNumbers),
}

impl<L: Device, B: Device> Stage<L, B> {
    /// The end of a run in which no session began.
    fn without_session(alloc: Global, status: u8, log: L, backing: B) -> Stage<L, B>
        ensures { IsEndedAt status log backing result }
    {
        Stage::Ended(Outcome::without_session(alloc, status, log, backing))
    }
}

/// Does what the words behind the program's name ask, and answers how it ended (docs/SCRIPT.md has the words and the
/// statuses). It returns for every source, sink and device.
///
/// `serve LOG BACKING` reads the superblock of the log, and the script from the source, and serves it over a cache of both
/// devices: the answers go to the sink, and at status 0 the backing device holds what the script wrote. `recover LOG BACKING`
/// puts what the log has to the backing device, and tells what it did. `format LOG BACKING ORDER SLOTS RAM` makes an empty
/// log for the whole blocks of the backing device, and `inspect LOG BACKING` tells the superblock and the record of one; with
/// a number behind it, what is in that slot. `workload LOG BACKING SEED COUNT` serves as `serve` does, but the script of a
/// seed, and tells one line with the checksum of the sectors that it is for. Words of another form are refused.
/// `serve` and `workload` recover both devices before the session; where none began, recovery may have been made, wholly or
/// in part, and made again it comes to the same. At status 1, want of memory, nothing is said of the output; the devices were
/// then read and synced at most, or are as recovery or a session of the first of each client's requests leaves them.
pub fn run_single<S: Source, K: Sink, L: Device, B: Device>(
    alloc: Global,
    words: &[String],
    source: &mut S,
    sink: &mut K,
    log: L,
    backing: B,
) -> Outcome<L, B>
    ensures account { IsAccounted (map string_bytes words.now) (run_of true
        (lent (S.left source.old) (S.left source.new) (S.faults source.old) (S.faults source.new))
        (lent (K.taken sink.old) (K.taken sink.new) (K.faults sink.old) (K.faults sink.new))
        (L.state log) (L.state result.log) (B.state backing) (B.state result.backing)
        result.status result.transcripts.items result.places) }
    ensures complete { IsComplete (map string_bytes words.now) (run_of true
        (lent (S.left source.old) (S.left source.new) (S.faults source.old) (S.faults source.new))
        (lent (K.taken sink.old) (K.taken sink.new) (K.faults sink.old) (K.faults sink.new))
        (L.state log) (L.state result.log) (B.state backing) (B.state result.backing)
        result.status result.transcripts.items result.places) }
{
    match begin(alloc, words, source, sink, log, backing) {
        Stage::Ended(outcome) => outcome,
        Stage::Serve(begun) => {
            let Begun {
                log,
                backing,
                script,
            } = begun;
            let served = serve_plain(alloc, log, backing, &script);
            tell_answers(alloc, sink, &script, served)
        }
        Stage::Workload(begun, numbers) => {
            let Begun {
                log,
                backing,
                script,
            } = begun;
            let served = serve_plain(alloc, log, backing, &script);
            tell_sum(alloc, sink, numbers, &script, served)
        }
    }
}

/// The same, but the clients of a script are served on threads, as many as there are clients; one client is served by the
/// caller. The call may wait: what it promises it promises if it returns.
///
/// What differs from `run_single`, where a script has several clients: which of many histories the transcripts print depends
/// on the threads (docs/THREADS.md); that no more lines say that a read of a device failed than it failed, as far as 2^31 - 1
/// of them, is said of each client and not of all together; and at status 1 the devices may be as some history leaves them,
/// with no flush in it that is said to be covered. That the clients are served at once no clause says. Each of several is held
/// at the points of the gate as long as that does; `Open` lets all pass.
pub fn run<
    S: Source,
    K: Sink,
    L: Device + Send,
    B: Device + Send,
    G: Gate + Sync,
    R: Threads + Wait + Sync,
>(
    rt: &R,
    alloc: Global,
    words: &[String],
    source: &mut S,
    sink: &mut K,
    log: L,
    backing: B,
    gate: &G,
) -> Outcome<L, B>
    ensures account { IsAccounted (map string_bytes words.now) (run_of false
        (lent (S.left source.old) (S.left source.new) (S.faults source.old) (S.faults source.new))
        (lent (K.taken sink.old) (K.taken sink.new) (K.faults sink.old) (K.faults sink.new))
        (L.state log) (L.state result.log) (B.state backing) (B.state result.backing)
        result.status result.transcripts.items result.places) }
    ensures complete { IsComplete (map string_bytes words.now) (run_of false
        (lent (S.left source.old) (S.left source.new) (S.faults source.old) (S.faults source.new))
        (lent (K.taken sink.old) (K.taken sink.new) (K.faults sink.old) (K.faults sink.new))
        (L.state log) (L.state result.log) (B.state backing) (B.state result.backing)
        result.status result.transcripts.items result.places) }
{
    match begin(alloc, words, source, sink, log, backing) {
        Stage::Ended(outcome) => outcome,
        Stage::Serve(begun) => {
            let Begun {
                log,
                backing,
                script,
            } = begun;
            let served = serve_clients(rt, alloc, log, backing, gate, &script);
            tell_answers(alloc, sink, &script, served)
        }
        Stage::Workload(begun, numbers) => {
            let Begun {
                log,
                backing,
                script,
            } = begun;
            let served = serve_clients(rt, alloc, log, backing, gate, &script);
            tell_sum(alloc, sink, numbers, &script, served)
        }
    }
}

/// Serves several clients on threads, and one on the caller's.
fn serve_clients<L: Device + Send, B: Device + Send, G: Gate + Sync, R: Threads + Wait + Sync>(
    rt: &R,
    alloc: Global,
    log: L,
    backing: B,
    gate: &G,
    script: &Script,
) -> Served<L, B>
    requires { IsValid script.now }
    ensures { IsServedBy false script.now (devices (L.state log) (B.state backing)) (devices (L.state result.log) (B.state result.backing)) result.answer }
{
    if script.clients() == 1 {
        serve_plain(alloc, log, backing, script)
    } else {
        serve_all(rt, alloc, log, backing, gate, script)
    }
}

/// Does what the words ask, up to the session that is to be served, where one is.
fn begin<S: Source, K: Sink, L: Device, B: Device>(
    alloc: Global,
    words: &[String],
    source: &mut S,
    sink: &mut K,
    log: L,
    backing: B,
) -> Stage<L, B>
    ensures { HasBegun L.state B.state (map string_bytes words.now)
        (lent (S.left source.old) (S.left source.new) (S.faults source.old) (S.faults source.new))
        (lent (K.taken sink.old) (K.taken sink.new) (K.faults sink.old) (K.faults sink.new))
        log backing result }
{
    let mut log = log;
    let mut backing = backing;
    match command_of(words) {
        None => {
            tell(sink, USAGE);
            Stage::without_session(alloc, status::USAGE, log, backing)
        }
        Some(Command::Format(numbers)) => {
            let status = format_log(alloc, sink, &mut log, backing.sectors(), numbers);
            Stage::without_session(alloc, status, log, backing)
        }
        Some(Command::Serve) => match prepare_script(alloc, source, sink, log, backing) {
            Ok(begun) => Stage::Serve(begun),
            Err(outcome) => Stage::Ended(outcome),
        },
        Some(Command::Recover) => {
            let status = recover_log(alloc, sink, &mut log, &mut backing);
            Stage::without_session(alloc, status, log, backing)
        }
        Some(Command::Workload(numbers)) => {
            match prepare_workload(alloc, sink, log, backing, numbers) {
                Ok(begun) => Stage::Workload(begun, numbers),
                Err(outcome) => Stage::Ended(outcome),
            }
        }
        Some(Command::InspectSlot(slot)) => {
            let status = inspect_slot(alloc, sink, &mut log, slot);
            Stage::without_session(alloc, status, log, backing)
        }
        Some(Command::Inspect) => {
            let status = inspect_log(alloc, sink, &mut log);
            Stage::without_session(alloc, status, log, backing)
        }
    }
}
