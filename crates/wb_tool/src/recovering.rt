//! The command `recover`.
ghost use Rattle.std.specs.Prelude.{◌≡◌, ◌⊎◌, ◌≤◌, ◌+◌, IfOk};
ghost use Rattle.std.specs.String.{string_bytes};
ghost use Rattle.wb_super.specs.declared.reading.SuperRefused.TheVariants.{Fault};
ghost use Rattle.wb_serve.specs.Session.{devices};
ghost use Rattle.wb_tool.specs.Run.{lent, Took};
ghost use Rattle.wb_tool.specs.Recover.{RecoverEnds, stopped_status, stopped_line, recovered_line};

use crate::opening::{refuse_backing, refuse_log, refuse_stray};
use crate::slots::cause_text;
use crate::status;
use crate::texts::{BACKING_FAILED, LOG_FAILED, answer, tell};
use std::alloc::{AllocError, Global};
use wb_device::{Device, Sink};
use wb_replay::{RecoverStop, Recovery, recover};

/// Puts what the log has behind its record to the backing device, raises the record behind all slots, and tells it. Answers
/// the status.
pub fn recover_log<K: Sink, L: Device, B: Device>(
    alloc: Global,
    sink: &mut K,
    log: &mut L,
    backing: &mut B,
) -> u8
    ensures { RecoverEnds (lent (K.taken sink.old) (K.taken sink.new) (K.faults sink.old) (K.faults sink.new))
        (devices (L.state log.old) (B.state backing.old)) (devices (L.state log.new) (B.state backing.new)) result }
{
    match recover(alloc, log, backing) {
        Ok(recovery) => match recovered_text(alloc, &recovery) {
            Ok(text) => answer(sink, text.as_str()),
            Err(_) => status::MEMORY,
        },
        Err(stop) => refuse_recovery(alloc, sink, stop),
    }
}

/// Tells why recovery stopped. Answers the status.
fn refuse_recovery<K: Sink>(alloc: Global, sink: &mut K, stop: RecoverStop) -> u8
    ensures told { (result ≡ 1) ⊎ ((result ≡ stopped_status stop)
        × Took (lent (K.taken sink.old) (K.taken sink.new) (K.faults sink.old) (K.faults sink.new)) (stopped_line stop)) }
    ensures log_fault { (stop ≡ RecoverStop.Super Fault) ⊎ (stop ≡ RecoverStop.LogFault) → result ≡ 6 }
    ensures backing_fault { stop ≡ RecoverStop.BackingFault → result ≡ 7 }
{
    match stop {
        RecoverStop::Super(refused) => refuse_log(alloc, sink, refused),
        RecoverStop::Backing { needs, has } => refuse_backing(alloc, sink, has, needs),
        RecoverStop::Memory => status::MEMORY,
        RecoverStop::Stray { slot, id } => refuse_stray(alloc, sink, slot, id),
        RecoverStop::LogFault => {
            tell(sink, LOG_FAILED);
            status::LOG
        }
        RecoverStop::BackingFault => {
            tell(sink, BACKING_FAILED);
            status::BACKING
        }
    }
}

/// The line for a recovery.
fn recovered_text(alloc: Global, recovery: &Recovery) -> Result<String, AllocError>
    requires first { 1 ≤ recovery.now.from }
    requires low { recovery.now.from ≤ recovery.now.through + 1 }
    ensures { IfOk result (λ text. string_bytes text ≡ recovered_line recovery.now) }
{
    let count = recovery.through - (recovery.from - 1);
    let (from, recorded) = (recovery.from, recovery.recorded);
    let cause = cause_text(alloc, recovery.stopped)?;
    format!(in alloc; "recovered {count} segments from {from} record {recorded} stopped {cause}\n")
}
