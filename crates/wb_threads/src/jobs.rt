//! The clients of a session, each with what it works with.
ghost use Rattle.std.specs.Prelude.{◌≡◌, ◌<◌, ◌≤◌, ℕ, [], length, map, slice_index_or, Some, None, IfOk, IfSome};
ghost use Rattle.std.specs.Vec.{vec_capacity};
ghost use Rattle.wb_script.specs.Valid.{IsValid};
ghost use Rattle.wb_threads.specs.Threads.{IsRoomFor, new_job, IsNewPass, HasRun};
ghost use Rattle.wb_threads.specs.declared.jobs.Job.{Job};

use std::alloc::{AllocError, Global};
use std::sync::Wait;
use std::thread;
use std::thread::Threads;
use wb_board::Board;
use wb_client::client;
use wb_device::Device;
use wb_front::{Front, Gate};
use wb_intake::{Named, Pass};
use wb_script::{Script, Transcript};

/// A client: its pass, and its transcript once all its requests were answered.
#[derive(Drop)]
pub(crate) struct Job {
    pub(crate) pass: Pass,
    pub(crate) transcript: Option<Transcript>,
}

/// The memory of a session, which is taken before any thread starts: room for as many jobs, passes and transcripts as there are
/// clients.
#[derive(Drop)]
pub(crate) struct Room {
    pub(crate) jobs: Vec<Job>,
    pub(crate) passes: Vec<Pass>,
    pub(crate) transcripts: Vec<Transcript>,
}

impl Room {
    /// Room for so many clients.
    pub(crate) fn new(alloc: Global, clients: usize) -> Result<Room, AllocError>
        ensures { IfOk result (IsRoomFor clients) }
    {
        Ok(Room {
            jobs: Vec::with_capacity(alloc, clients)?,
            passes: Vec::with_capacity(alloc, clients)?,
            transcripts: Vec::with_capacity(alloc, clients)?,
        })
    }
}

/// A job for each pass, for which there is room.
pub(crate) fn jobs_of(mut jobs: Vec<Job>, passes: Vec<Pass>) -> Vec<Job>
    requires none { jobs.items ≡ [] }
    requires room { length passes.items ≤ vec_capacity jobs }
    ensures { result.items ≡ map new_job passes.items }
{
    for pass in passes {
        let job = Job {
            pass,
            transcript: None,
        };
        jobs.push_reserved(job);
    }
    jobs
}

/// Serves all clients on threads, as many as there are clients. Where a thread can't be started its client is served by the
/// caller.
pub(crate) fn run_all<
    L: Device + Send,
    B: Device + Send,
    G: Gate + Sync,
    T: Named + Send + Sync,
    R: Threads + Wait + Sync,
>(
    rt: &R,
    alloc: Global,
    front: &Front<'_, L, B, G, T>,
    board: &Board<T>,
    script: &Script,
    jobs: &mut [Job],
)
    requires valid { IsValid script.now }
    requires count { length jobs.old ≡ script.now.clients }
    requires fits { script.now.sectors ≤ T.carried.geometry.backing_sectors }
    requires ready { (i : ℕ) (d : Job) → i < length jobs.old → IsNewPass T.carried i (slice_index_or jobs.old i d).pass × ((slice_index_or jobs.old i d).transcript ≡ None) }
    ensures { (i : ℕ) (d : Job) → i < length jobs.old → HasRun T.carried script.now.requests i (slice_index_or jobs.old i d) (slice_index_or jobs.new i d) }
{
    let clients = jobs.len();
    thread::for_each_mut(
        rt,
        jobs,
        clients,
        &|number: usize, job: &mut Job|
            requires { IsValid script.now × (number < script.now.clients) × (script.now.sectors ≤ T.carried.geometry.backing_sectors) × IsNewPass T.carried number job.now.pass × (job.now.transcript ≡ None) }
            ensures { HasRun T.carried script.entry.now.requests number job.entry.now job.exit.now }
        { run(rt, alloc, front, board, script, number as u32, job) },
    );
}

/// Serves the client with this number.
fn run<L: Device, B: Device, G: Gate, T: Named, R: Wait>(
    rt: &R,
    alloc: Global,
    front: &Front<'_, L, B, G, T>,
    board: &Board<T>,
    script: &Script,
    number: u32,
    job: &mut Job,
)
    requires valid { IsValid script.now }
    requires client { number < script.now.clients }
    requires fits { script.now.sectors ≤ T.carried.geometry.backing_sectors }
    requires ready { IsNewPass T.carried number job.old.pass × (job.old.transcript ≡ None) }
    ensures { HasRun T.carried script.now.requests number job.old job.new }
{
    if let Ok(transcript) = client(rt, alloc, front, &mut job.pass, board, script, number) {
        job.transcript = Some(transcript);
    }
}

/// The passes of the jobs and their transcripts, where each client has one. There is room for both.
pub(crate) fn part(
    jobs: Vec<Job>,
    mut passes: Vec<Pass>,
    mut transcripts: Vec<Transcript>,
) -> (Vec<Pass>, Option<Vec<Transcript>>)
    requires none { (passes.items ≡ []) × (transcripts.items ≡ []) }
    requires room { (length jobs.items ≤ vec_capacity passes) × (length jobs.items ≤ vec_capacity transcripts) }
    ensures passes { result.0.items ≡ map (λ job. job.pass) jobs.items }
    ensures transcripts { IfSome result.1 (λ all. map (λ lines. Some lines) all.items ≡ map (λ job. job.transcript) jobs.items) }
{
    let clients = jobs.len();
    for job in jobs {
        let Job { pass, transcript } = job;
        passes.push_reserved(pass);
        if let Some(transcript) = transcript {
            transcripts.push_reserved(transcript);
        }
    }
    let all = transcripts.len() == clients;
    (passes, all.then_some(transcripts))
}
