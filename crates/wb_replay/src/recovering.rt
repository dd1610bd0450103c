//! Recovery of a log whose superblock isn't known yet.
ghost use Rattle.std.specs.Prelude.{◌≡◌, ◌⊎◌, ◌≤◌, ◌+◌, ◌*◌, Err, Some, IfSome, IfOk, IfErr, OnOk, OnErr};
ghost use Rattle.wb_geometry.specs.Image.{Image};
ghost use Rattle.wb_geometry.specs.Device.{NothingPending, OnlyRead, IsSameDevice, CountsFaultsWhere, ContentPasses};
ghost use Rattle.wb_super.specs.Found.{IsSuper};
ghost use Rattle.wb_super.specs.Superblock.{SuperText, record_of};
ghost use Rattle.wb_super.specs.Recording.{Records};
ghost use Rattle.wb_super.specs.declared.reading.SuperRefused.TheVariants.{Fault};
ghost use Rattle.wb_geometry.specs.declared.geometry.Geometry.{Geometry};
ghost use Rattle.wb_crash.specs.Safety.{IsFresh};
ghost use Rattle.wb_crash.specs.Crash.{CrashInRecover, MakesOfContents};
ghost use Rattle.wb_replay.specs.Replaying.{IsNumbered, TellsChain, IsAllPut, GoesInTurn, MakesOf, LeavesRecovered};
ghost use Rattle.wb_replay.specs.Stopping.{MayRecover, RefusesRecovery, RecoverStopsInTurn, IsEarly, IsBehindSuper, CallsFew, stop_of};

use crate::{Recovery, ReplayStop, replay};
use std::alloc::Global;
use wb_device::Device;
use wb_super::{Super, SuperRefused, read_super};

/// Why a log wasn't recovered: the first of these causes that applies, in this order; but a fault of the log or of the
/// backing device may come at each of their calls behind `Memory`.
#[derive(Clone, Copy, Debug, PartialEq, Eq)]
pub enum RecoverStop {
    /// The superblock is refused, or can't be read. Nothing was written.
    Super(SuperRefused),
    /// The backing device has `has` sectors, and the superblock names `needs`. Nothing was written.
    Backing { needs: u64, has: u64 },
    /// There was no memory for a slot. Neither device was written or synced.
    Memory,
    /// The id in a slot, counted from 0, is above the record and the number of slots; it is the least such slot. Nothing
    /// was written.
    Stray { slot: u32, id: u64 },
    /// The log failed. The call can be made again.
    LogFault,
    /// The backing device failed. The call can be made again.
    BackingFault,
}

/// The bytes of a sector.
const SECTOR_BYTES: usize = 512;

/// Recovers a log and its backing device after whatever ended the last session, as `replay` does behind the superblock,
/// which is read and judged first. It takes the memory of one slot, before either device is synced. After an `Ok` the
/// backing device holds all that was safe, the log has nothing that isn't there, and an engine may begin. After a fault it
/// can be called again, and makes the same of the backing device.
pub fn recover<L: Device, B: Device>(
    alloc: Global,
    log: &mut L,
    backing: &mut B,
) -> Result<Recovery, RecoverStop>
    ensures numbers { IfOk result (λ recovery. (found : Super) × MayRecover (L.state log.old) (B.state backing.old).sectors found × IsNumbered found recovery) }
    ensures chain { IfOk result (λ recovery. (g : Geometry) (x : Image) → (L.state log.old).content ≡ Some x → SuperText x g 1 → TellsChain g x recovery) }
    ensures all_put { OnOk result ((g : Geometry) (x : Image) → (L.state log.old).content ≡ Some x → SuperText x g 1
        → IsAllPut g x (B.state backing.old) (B.state backing.new)) }
    ensures records { OnOk result ((g : Geometry) (x : Image) → (L.state log.old).content ≡ Some x → SuperText x g 1
        → ContentPasses (Records (record_of x + g.slots)) (L.state log.old) (L.state log.new)) }
    ensures fresh { OnOk result ((g : Geometry) (x : Image) → (L.state log.old).content ≡ Some x → SuperText x g 1
        → IfSome (L.state log.new).content (IsFresh g (record_of x + g.slots))) }
    ensures durable { OnOk result (NothingPending (L.state log.new) × NothingPending (B.state backing.new)) }
    ensures refused { IfErr result (RefusesRecovery (L.state log.old) (B.state backing.old).sectors) }
    ensures in_turn { IfErr result (λ stop. RecoverStopsInTurn stop (L.state log.old) (L.state log.new) (B.state backing.old) (B.state backing.new)) }
    ensures goes { (g : Geometry) (x : Image) → (L.state log.old).content ≡ Some x → SuperText x g 1
        → GoesInTurn g x (L.state log.old) (L.state log.new) (B.state backing.old) (B.state backing.new) }
    ensures crash { (g : Geometry) (x0 y0 z : Image) → SuperText x0 g 1 → MakesOf g x0 y0 z (L.state log.old) (B.state backing.old)
        → NothingPending (L.state log.old) → NothingPending (B.state backing.old)
        → CrashInRecover g x0 z (L.state log.old) (L.state log.new) (B.state backing.old) (B.state backing.new) }
    ensures left { OnOk result ((g : Geometry) (x0 y0 z : Image) → SuperText x0 g 1 → MakesOf g x0 y0 z (L.state log.old) (B.state backing.old)
        → LeavesRecovered g x0 z (L.state log.new) (B.state backing.new)) }
    ensures contents { (g : Geometry) (x0 y0 z : Image) → SuperText x0 g 1 → MakesOf g x0 y0 z (L.state log.old) (B.state backing.old)
        → MakesOfContents g z (L.state log.new) (B.state backing.new) }
    ensures calls { OnOk result (CallsFew (L.state log.old) (L.state log.new) (B.state backing.old) (B.state backing.new)) }
    ensures stopped_calls { IfErr result (λ stop. IsBehindSuper stop → CallsFew (L.state log.old) (L.state log.new) (B.state backing.old) (B.state backing.new)) }
    ensures same_log { IsSameDevice (L.state log.old) (L.state log.new) }
    ensures same_backing { IsSameDevice (B.state backing.old) (B.state backing.new) }
    ensures log_cause { CountsFaultsWhere ((result ≡ Err (RecoverStop.Super Fault)) ⊎ (result ≡ Err RecoverStop.LogFault)) (L.state log.old).faults (L.state log.new).faults }
    ensures backing_cause { CountsFaultsWhere (result ≡ Err RecoverStop.BackingFault) (B.state backing.old).faults (B.state backing.new).faults }
{
    let found = judge(log, backing.sectors())?;
    let bytes = SECTOR_BYTES * found.geometry.slot_sectors() as usize;
    let Ok(mut slot) = vec![in alloc; 0; bytes] else {
        return Err(RecoverStop::Memory);
    };
    match replay(log, backing, &found, &mut slot) {
        Ok(recovery) => Ok(recovery),
        Err(stop) => Err(stop_of(stop)),
    }
}

/// The superblock, where it is good and the backing device has its sectors.
fn judge<L: Device>(log: &mut L, has: u64) -> Result<Super, RecoverStop>
    ensures found { IfOk result (MayRecover (L.state log.old) has) }
    ensures refused { IfErr result (RefusesRecovery (L.state log.old) has) }
    ensures early { IfErr result IsEarly }
    ensures only_read { OnlyRead (L.state log.old) (L.state log.new) }
    ensures reads { OnOk result ((L.state log.new).reads ≤ (L.state log.old).reads + 2) }
    ensures stopped_reads { IfErr result (λ stop. IsBehindSuper stop → (L.state log.new).reads ≤ (L.state log.old).reads + 2) }
    ensures cause { CountsFaultsWhere (result ≡ Err (RecoverStop.Super Fault)) (L.state log.old).faults (L.state log.new).faults }
{
    let found = match read_super(log) {
        Ok(found) => found,
        Err(refused) => return Err(RecoverStop::Super(refused)),
    };
    let needs = found.geometry.backing_sectors;
    if has < needs {
        return Err(RecoverStop::Backing { needs, has });
    }
    Ok(found)
}

/// The same cause as one of recovery.
fn stop_of(stop: ReplayStop) -> RecoverStop
    ensures { result ≡ stop_of stop }
{
    match stop {
        ReplayStop::Stray { slot, id } => RecoverStop::Stray { slot, id },
        ReplayStop::LogFault => RecoverStop::LogFault,
        ReplayStop::BackingFault => RecoverStop::BackingFault,
    }
}
