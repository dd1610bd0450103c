//! The command `serve`.
ghost use Rattle.std.specs.Prelude.{◌≡◌, ◌⊎◌, Bool, IfOk, IfErr};
ghost use Rattle.wb_script.specs.Output.{session_text};
ghost use Rattle.wb_serve.specs.Session.{devices};
ghost use Rattle.wb_tool.specs.Run.{Lent, run_of, lent, IsUntouched};
ghost use Rattle.wb_tool.specs.Served.{EndsSession};
ghost use Rattle.wb_tool.specs.Served.{Served as ServedAnswers};
ghost use Rattle.wb_tool.specs.Begun.{HoldsScript, HasBegunServing};
ghost use Rattle.wb_tool.specs.Ends.{Leaves, EndsServing, IsLeftBy};
ghost use Rattle.wb_tool.specs.Serve.{ServeAccount, EndsReading, IsLeftFrom};
ghost use Rattle.wb_tool.specs.Stages.{IsServedBy, EndsUnserved, TellsFault, IsCutAt};

use crate::opening::{
    judge_devices, refuse_backing, refuse_change, refuse_ids, refuse_log, refuse_stray,
};
use crate::reading::{ReadStop, read_all};
use crate::running::{Begun, Outcome};
use crate::status;
use crate::texts::{BACKING_FAILED, LOG_FAILED, SOURCE_FAILED, refused_text, spent_text, tell};
use std::alloc::Global;
use wb_device::{Device, Sink, Source};
use wb_engine::OpenCause;
use wb_geometry::Geometry;
use wb_script::{ParseStop, PrintStop, Script, parse, print};
use wb_serve::{ServeStop, Served, Session};

/// The first five stages, before a session: both devices are judged, and the script is read.
pub fn prepare_script<S: Source, K: Sink, L: Device, B: Device>(
    alloc: Global,
    source: &mut S,
    sink: &mut K,
    log: L,
    backing: B,
) -> Result<Begun<L, B>, Outcome<L, B>>
    ensures begun { IfOk result (λ begun. HasBegunServing
        (lent (S.left source.old) (S.left source.new) (S.faults source.old) (S.faults source.new))
        (lent (K.taken sink.old) (K.taken sink.new) (K.faults sink.old) (K.faults sink.new))
        (L.state log) (L.state begun.log) (B.state backing) begun.script) }
    ensures kept { IfOk result (λ begun. begun.backing ≡ backing) }
    ensures ended { IfErr result (λ end. (in_turn : Bool) → ServeAccount (run_of in_turn
        (lent (S.left source.old) (S.left source.new) (S.faults source.old) (S.faults source.new))
        (lent (K.taken sink.old) (K.taken sink.new) (K.faults sink.old) (K.faults sink.new))
        (L.state log) (L.state end.log) (B.state backing) (B.state end.backing)
        end.status end.transcripts.items end.places)) }
{
    let mut log = log;
    match judge_devices(alloc, sink, &mut log, &backing) {
        Ok(found) => read_script(alloc, source, sink, log, backing, &found.geometry),
        Err(status) => Err(Outcome::without_session(alloc, status, log, backing)),
    }
}

/// The source is read, and the script that it holds.
fn read_script<S: Source, K: Sink, L: Device, B: Device>(
    alloc: Global,
    source: &mut S,
    sink: &mut K,
    log: L,
    backing: B,
    geometry: &Geometry,
) -> Result<Begun<L, B>, Outcome<L, B>>
    ensures script { IfOk result (λ begun. HoldsScript geometry.now.backing_sectors
        (lent (S.left source.old) (S.left source.new) (S.faults source.old) (S.faults source.new)) begun.script) }
    ensures kept { IfOk result (λ begun. (begun.log ≡ log) × (begun.backing ≡ backing) × IsUntouched (lent (K.taken sink.old) (K.taken sink.new) (K.faults sink.old) (K.faults sink.new))) }
    ensures ended { IfErr result (λ end. (in_turn : Bool) → Leaves (EndsReading geometry.now.backing_sectors) (IsLeftFrom geometry.now.backing_sectors) (run_of in_turn
        (lent (S.left source.old) (S.left source.new) (S.faults source.old) (S.faults source.new))
        (lent (K.taken sink.old) (K.taken sink.new) (K.faults sink.old) (K.faults sink.new))
        (L.state log) (L.state end.log) (B.state backing) (B.state end.backing)
        end.status end.transcripts.items end.places)) }
{
    let bytes = match read_all(alloc, source) {
        Ok(bytes) => bytes,
        Err(ReadStop::Memory) => {
            return Err(Outcome::without_session(alloc, status::MEMORY, log, backing));
        }
        Err(ReadStop::Fault) => {
            tell(sink, SOURCE_FAILED);
            return Err(Outcome::without_session(alloc, status::SOURCE, log, backing));
        }
    };
    match parse(alloc, bytes.as_slice(), geometry) {
        Ok(script) => Ok(Begun {
            log,
            backing,
            script,
        }),
        Err(ParseStop::Memory) => {
            Err(Outcome::without_session(alloc, status::MEMORY, log, backing))
        }
        Err(ParseStop::Refused(refused)) => {
            let Ok(text) = refused_text(alloc, refused) else {
                return Err(Outcome::without_session(alloc, status::MEMORY, log, backing));
            };
            tell(sink, text.as_str());
            Err(Outcome::without_session(alloc, status::SCRIPT, log, backing))
        }
    }
}

/// The last stage, behind a session over a cache that was opened for it: its answers are told, or why there was none.
pub fn tell_answers<K: Sink, L: Device, B: Device>(
    alloc: Global,
    sink: &mut K,
    script: &Script,
    served: Served<L, B>,
) -> Outcome<L, B>
    ensures { (in_turn : Bool) (source : Lent) (log : L) (backing : B) → IsServedBy in_turn script.now (devices (L.state log) (B.state backing)) (devices (L.state served.log) (B.state served.backing)) served.answer
        → Leaves (EndsServing (ServedAnswers script.now) script.now.sectors) (IsLeftBy script.now) (run_of in_turn source
        (lent (K.taken sink.old) (K.taken sink.new) (K.faults sink.old) (K.faults sink.new))
        (L.state log) (L.state result.log) (B.state backing) (B.state result.backing)
        result.status result.transcripts.items result.places) }
{
    let Served {
        log,
        backing,
        answer,
    } = served;
    match answer {
        Ok(session) => {
            let status = report(alloc, sink, script, &session);
            Outcome {
                status,
                transcripts: session.transcripts,
                places: session.places,
                log,
                backing,
            }
        }
        Err(stop) => {
            let status = refuse_session(alloc, sink, stop);
            Outcome::without_session(alloc, status, log, backing)
        }
    }
}

/// Tells why no session was served. Answers the status.
pub fn refuse_session<K: Sink>(alloc: Global, sink: &mut K, stop: ServeStop) -> u8
    ensures { EndsUnserved stop
        (lent (K.taken sink.old) (K.taken sink.new) (K.faults sink.old) (K.faults sink.new)) result }
{
    match stop {
        ServeStop::Open(OpenCause::Super(refused)) => refuse_log(alloc, sink, refused),
        ServeStop::Open(OpenCause::IdsSpent(recorded)) => refuse_ids(alloc, sink, recorded),
        ServeStop::Open(OpenCause::Backing { needs, has }) => {
            refuse_backing(alloc, sink, has, needs)
        }
        ServeStop::Open(OpenCause::Memory) => status::MEMORY,
        ServeStop::Open(OpenCause::LogFault) => {
            tell(sink, LOG_FAILED);
            status::LOG
        }
        ServeStop::Open(OpenCause::BackingFault) => {
            tell(sink, BACKING_FAILED);
            status::BACKING
        }
        ServeStop::Open(OpenCause::Stray { slot, id }) => refuse_stray(alloc, sink, slot, id),
        ServeStop::Changed { parsed, found } => refuse_change(alloc, sink, parsed, found),
    }
}

/// Prints the answers and, where the session ended badly, its fault line. Answers the status.
fn report<K: Sink>(alloc: Global, sink: &mut K, script: &Script, session: &Session) -> u8
    ensures { (result ≡ 1) ⊎ EndsSession
        (lent (K.taken sink.old) (K.taken sink.new) (K.faults sink.old) (K.faults sink.new)) result
        (session_text script.now session.now.transcripts.items session.now.places)
        (session_text script.now session.now.transcripts.items session.now.places)
        session.now.places session.now.ids session.now.log_failed session.now.backing_failed }
{
    let transcripts = session.transcripts.as_slice();
    match print(alloc, sink, script, transcripts, session.places) {
        Ok(()) => tell_fault(alloc, sink, session),
        Err(PrintStop::Fault) => cut_status(session),
        Err(PrintStop::Memory) => status::MEMORY,
    }
}

/// Tells why the session ended badly, if it did. Answers the status.
pub fn tell_fault<K: Sink>(alloc: Global, sink: &mut K, session: &Session) -> u8
    ensures { (result ≡ 1) ⊎ TellsFault
        (lent (K.taken sink.old) (K.taken sink.new) (K.faults sink.old) (K.faults sink.new)) result
        session.now.places session.now.ids session.now.log_failed session.now.backing_failed }
{
    if session.log_failed {
        tell(sink, LOG_FAILED);
        return status::LOG;
    }
    if session.backing_failed {
        tell(sink, BACKING_FAILED);
        return status::BACKING;
    }
    if !session.ids {
        return status::DONE;
    }
    let Ok(text) = spent_text(alloc, session.places) else {
        return status::MEMORY;
    };
    tell(sink, text.as_str());
    status::IDS
}

/// The status of a session of whose answers the sink didn't take all.
fn cut_status(session: &Session) -> u8
    ensures { IsCutAt result session.now.ids session.now.log_failed session.now.backing_failed }
{
    if session.log_failed {
        status::LOG
    } else if session.backing_failed {
        status::BACKING
    } else if session.ids {
        status::IDS
    } else {
        status::SINK
    }
}
