//! Serving a script on one thread.
ghost use Rattle.std.specs.Prelude.{◌≡◌, ◌≢◌, ◌≤◌, [], List, All, Err, IfOk, IfErr, OnOk};
ghost use Rattle.wb_geometry.specs.History.{HistoryEntry};
ghost use Rattle.wb_geometry.specs.Device.{CountsFaultsWhere};
ghost use Rattle.wb_script.specs.Valid.{IsValid};
ghost use Rattle.wb_super.specs.declared.reading.Super.{Super};
ghost use Rattle.wb_engine.specs.declared.opening.OpenCause.TheVariants.{Memory};
ghost use Rattle.wb_serve.specs.Session.{devices, IsServed, EndFlushes, IsUnserved, SaysLogFault, SaysBackingFault};
ghost use Rattle.wb_serve.specs.Playing.{HasCome, AreAllPlayed, AreAllPlayedInPart, none_played, tally_of, with_client};
ghost use Rattle.wb_script.specs.Transcripts.{covered};
ghost use Rattle.wb_engine.specs.Settling.{stable_places};
ghost use Rattle.wb_serve.specs.Ending.{TellsOf, is_down_by};
ghost use Rattle.wb_serve.specs.declared.serving.ServeStop.TheVariants.{Open};

use crate::playing::{Played, play};
use std::alloc::{AllocError, Global};
use wb_buffers::Buffers;
use wb_device::Device;
use wb_engine::{Engine, OpenCause};
use wb_geometry::Which;
use wb_script::{Script, Transcript};

/// A session that was served: the transcript of each client, the number of places that were taken, the record at its start,
/// whether a write was stopped for want of an id, and for each device whether it failed in the call.
#[derive(Drop)]
pub struct Session {
    pub transcripts: Vec<Transcript>,
    pub places: u64,
    pub first: u64,
    pub ids: bool,
    pub log_failed: bool,
    pub backing_failed: bool,
}

/// Why no session was served.
#[derive(Clone, Copy, Debug, PartialEq, Eq)]
pub enum ServeStop {
    /// The cache wasn't opened. `Memory` also where memory was wanting later in the call.
    Open(OpenCause),
    /// The cache has `found` backing sectors, fewer than the `parsed` for which the script was made.
    Changed { parsed: u64, found: u64 },
}

/// What serving left: both devices, given back, and the session or why there was none.
#[derive(Drop)]
pub struct Served<L: Device, B: Device> {
    pub log: L,
    pub backing: B,
    pub answer: Result<Session, ServeStop>,
}

/// Opens the cache, serves the clients of the script one after another, and closes it. Nothing is said of faults where memory
/// was wanting, which may come behind one.
pub fn serve_plain<L: Device, B: Device>(
    alloc: Global,
    log: L,
    backing: B,
    script: &Script,
) -> Served<L, B>
    requires { IsValid script.now }
    ensures session { IfOk result.answer (λ s. (found : Super) × IsServed found script.now (devices (L.state log) (B.state backing)) (devices (L.state result.log) (B.state result.backing)) s) }
    ensures unserved { IfErr result.answer (IsUnserved script.now (devices (L.state log) (B.state backing)) (devices (L.state result.log) (B.state result.backing))) }
    ensures log_cause { result.answer ≢ Err (Open Memory) → CountsFaultsWhere (SaysLogFault result.answer) (L.state log).faults (L.state result.log).faults }
    ensures backing_cause { result.answer ≢ Err (Open Memory) → CountsFaultsWhere (SaysBackingFault result.answer) (B.state backing).faults (B.state result.backing).faults }
{
    let mut engine = match Engine::open(alloc, log, backing) {
        Ok(engine) => engine,
        Err(stop) => {
            return Served {
                log: stop.log,
                backing: stop.backing,
                answer: Err(ServeStop::Open(stop.cause)),
            };
        }
    };
    let (parsed, found) = (script.sectors(), engine.geometry().backing_sectors);
    if found < parsed {
        let (log, backing) = engine.into_devices();
        return Served {
            log,
            backing,
            answer: Err(ServeStop::Changed { parsed, found }),
        };
    }
    let played = play_all(alloc, &mut engine, script);
    let (first, places) = (engine.first(), engine.absorbed());
    let closed = engine.close();
    Served {
        log: closed.log,
        backing: closed.backing,
        answer: session_of(played, first, places, closed.fault),
    }
}

/// What the requests of all clients left: their answers, whether one was stopped for want of an id, and whether a read failed
/// on either device.
#[derive(Drop)]
pub struct AllPlayed {
    pub transcripts: Vec<Transcript>,
    pub ids: bool,
    pub log_failed: bool,
    pub backing_failed: bool,
}

impl AllPlayed {
    /// No client yet, and room for so many.
    fn with_capacity(alloc: Global, clients: usize) -> Result<AllPlayed, AllocError>
        ensures { IfOk result (λ played. tally_of played ≡ none_played) }
    {
        Ok(AllPlayed {
            transcripts: Vec::with_capacity(alloc, clients)?,
            ids: false,
            log_failed: false,
            backing_failed: false,
        })
    }

    /// Adds what the next client's requests left.
    fn add(&mut self, played: Played) -> Result<(), AllocError>
        ensures { OnOk result (tally_of self.new ≡ with_client (tally_of self.old) played) }
    {
        self.ids |= played.ids;
        self.log_failed |= played.log_failed;
        self.backing_failed |= played.backing_failed;
        self.transcripts.push(played.transcript)?;
        Ok(())
    }
}

/// Answers the requests of all clients of a script over an engine that was just opened, one client after another.
fn play_all<L: Device, B: Device>(
    alloc: Global,
    engine: &mut Engine<L, B>,
    script: &Script,
) -> Result<AllPlayed, AllocError>
    requires valid { IsValid script.now }
    requires fits { script.now.sectors ≤ engine.old.geometry.backing_sectors }
    requires opened { HasCome L.state B.state engine.old engine.old [] 0 0 }
    ensures played { IfOk result (λ played. (history : List HistoryEntry)
        × AreAllPlayed L.state B.state script.now.requests engine.old engine.new (tally_of played) history
        × (covered played.transcripts.items ≤ stable_places engine.new)
        × All (EndFlushes engine.new.geometry engine.new.down (stable_places engine.new)) played.transcripts.items) }
    ensures in_part { IfErr result (λ none. AreAllPlayedInPart L.state B.state script.now.requests engine.old engine.new) }
{
    let mut buffers = Buffers::new(alloc)?;
    let mut all = AllPlayed::with_capacity(alloc, script.requests().len())?;
    for (client, requests) in script.requests().iter().enumerate() {
        let played = play(
            alloc,
            engine,
            &mut buffers,
            client as u32,
            requests.as_slice(),
        )?;
        all.add(played)?;
    }
    Ok(all)
}

/// What a session tells, where its requests were played: beside them these numbers, and the device that failed in a write or
/// a sync, if one did.
fn session_of(
    played: Result<AllPlayed, AllocError>,
    first: u64,
    places: u64,
    fault: Option<Which>,
) -> Result<Session, ServeStop>
    ensures told { IfOk result (TellsOf played first places fault) }
    ensures memory { IfErr result (λ why. why ≡ Open Memory) }
{
    let Ok(played) = played else {
        return Err(ServeStop::Open(OpenCause::Memory));
    };
    Ok(Session {
        transcripts: played.transcripts,
        places,
        first,
        ids: played.ids,
        log_failed: played.log_failed || is_down_by(Which::Log, fault),
        backing_failed: played.backing_failed || is_down_by(Which::Backing, fault),
    })
}

/// Whether it was this device that failed.
fn is_down_by(which: Which, fault: Option<Which>) -> bool
    ensures { result ≡ is_down_by which fault }
{
    matches!(fault, Some(device) if device == which)
}
