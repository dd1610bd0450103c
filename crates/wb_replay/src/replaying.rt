//! Recovery behind the superblock.
ghost use Rattle.std.specs.Prelude.{◌≡◌, ◌≤◌, ◌+◌, ◌*◌, Err, Some, length, IfSome, IfOk, IfErr, OnOk, OnErr};
ghost use Rattle.wb_geometry.specs.Image.{Image};
ghost use Rattle.wb_geometry.specs.Layout.{log_sectors, slot_sectors};
ghost use Rattle.wb_geometry.specs.Device.{NothingPending, IsSameDevice, CountsFaultsWhere, Passes, ContentPasses};
ghost use Rattle.wb_super.specs.Found.{IsSuper, most_record};
ghost use Rattle.wb_super.specs.Recording.{Records, RecordsOrNot};
ghost use Rattle.wb_crash.specs.Safety.{IsFresh};
ghost use Rattle.wb_crash.specs.Crash.{CrashInRecover, MakesOfContents};
ghost use Rattle.wb_replay.specs.Replaying.{IsOnlySynced, IsNumbered, TellsChain, IsAllPut, GoesInTurn, MakesOf, LeavesRecovered};
ghost use Rattle.wb_replay.specs.Stopping.{HasNoStray, RefusesSlots, StopsInTurn, CallsAtMost};
ghost use Rattle.wb_replay.specs.Putting.{FollowsChain, StopsAtEnd, EndsIn};

use crate::following::{Followed, put_chain};
use crate::settling::settle;
use wb_device::Device;
use wb_header::Refused;
use wb_super::{Super, write_record};

/// What a recovery did.
#[derive(Clone, Copy, Debug, PartialEq, Eq)]
pub struct Recovery {
    /// The id of the first segment that it looked for: the record that it found, and one.
    pub from: u64,
    /// The id of the last segment that it put; `from - 1` where it put none.
    pub through: u64,
    /// The record that it wrote: the one that it found, and as many as there are slots.
    pub recorded: u64,
    /// Why the slot of segment `through + 1` doesn't begin with a text of it.
    pub stopped: Refused,
}

/// Why a log wasn't replayed.
#[derive(Clone, Copy, Debug, PartialEq, Eq)]
pub enum ReplayStop {
    /// The id in a slot, counted from 0, is too high for this log: above the record and the number of slots. It is the
    /// least such slot. Nothing was written.
    Stray { slot: u32, id: u64 },
    /// The log failed. The call can be made again, from the superblock on.
    LogFault,
    /// The backing device failed. The call can be made again.
    BackingFault,
}

/// Puts what a log has behind its record to the backing device, and raises the record behind all slots. `found` is what
/// `read_super` says of the log, and `slot` has as many bytes as a slot of it.
///
/// Both devices are synced, the log first. Then the id of each slot is read, by rising slot, up to the first that is too
/// high or can't be read. Then the chain is followed: each segment behind the record is read with one read, as long as its
/// slot begins with a text of it, and its blocks are written. At its end the backing device is synced, and the record is
/// written. It takes no memory, and ends at the first call that fails.
pub fn replay<L: Device, B: Device>(
    log: &mut L,
    backing: &mut B,
    found: &Super,
    slot: &mut [u8],
) -> Result<Recovery, ReplayStop>
    requires log_room { log_sectors found.now.geometry ≤ (L.state log.old).sectors }
    requires backing_room { found.now.geometry.backing_sectors ≤ (B.state backing.old).sectors }
    requires bounded { found.now.recorded ≤ most_record }
    requires buffer { length slot.old ≡ 512 * slot_sectors found.now.geometry }
    ensures numbers { IfOk result (IsNumbered found.now) }
    ensures chain { IfOk result (λ recovery. IsSuper (L.state log.old) found.now → (x : Image) → (L.state log.old).content ≡ Some x
        → TellsChain found.now.geometry x recovery) }
    ensures all_put { OnOk result (IsSuper (L.state log.old) found.now → (x : Image) → (L.state log.old).content ≡ Some x
        → IsAllPut found.now.geometry x (B.state backing.old) (B.state backing.new)) }
    ensures records { OnOk result (ContentPasses (Records (found.now.recorded + found.now.geometry.slots)) (L.state log.old) (L.state log.new)) }
    ensures no_stray { OnOk result (HasNoStray found.now.geometry (found.now.recorded + found.now.geometry.slots) (L.state log.old)) }
    ensures fresh { OnOk result (IsSuper (L.state log.old) found.now
        → IfSome (L.state log.new).content (IsFresh found.now.geometry (found.now.recorded + found.now.geometry.slots))) }
    ensures durable { OnOk result (NothingPending (L.state log.new) × NothingPending (B.state backing.new)) }
    ensures refused { IfErr result (RefusesSlots found.now.geometry (found.now.recorded + found.now.geometry.slots) (L.state log.old)) }
    ensures in_turn { IfErr result (λ stop. StopsInTurn stop (L.state log.old) (L.state log.new) (B.state backing.old) (B.state backing.new)) }
    ensures goes { IsSuper (L.state log.old) found.now → (x : Image) → (L.state log.old).content ≡ Some x
        → GoesInTurn found.now.geometry x (L.state log.old) (L.state log.new) (B.state backing.old) (B.state backing.new) }
    ensures crash { IsSuper (L.state log.old) found.now → (x0 y0 z : Image) → MakesOf found.now.geometry x0 y0 z (L.state log.old) (B.state backing.old)
        → NothingPending (L.state log.old) → NothingPending (B.state backing.old)
        → CrashInRecover found.now.geometry x0 z (L.state log.old) (L.state log.new) (B.state backing.old) (B.state backing.new) }
    ensures left { OnOk result (IsSuper (L.state log.old) found.now → (x0 y0 z : Image) → MakesOf found.now.geometry x0 y0 z (L.state log.old) (B.state backing.old)
        → LeavesRecovered found.now.geometry x0 z (L.state log.new) (B.state backing.new)) }
    ensures contents { IsSuper (L.state log.old) found.now → (x0 y0 z : Image) → MakesOf found.now.geometry x0 y0 z (L.state log.old) (B.state backing.old)
        → MakesOfContents found.now.geometry z (L.state log.new) (B.state backing.new) }
    ensures calls { CallsAtMost (2 * found.now.geometry.slots) (L.state log.old) (L.state log.new) (B.state backing.old) (B.state backing.new) }
    ensures same_log { IsSameDevice (L.state log.old) (L.state log.new) }
    ensures same_backing { IsSameDevice (B.state backing.old) (B.state backing.new) }
    ensures log_cause { CountsFaultsWhere (result ≡ Err ReplayStop.LogFault) (L.state log.old).faults (L.state log.new).faults }
    ensures backing_cause { CountsFaultsWhere (result ≡ Err ReplayStop.BackingFault) (B.state backing.old).faults (B.state backing.new).faults }
{
    let followed = follow(log, backing, found, slot)?;
    Ok(Recovery {
        from: found.recorded + 1,
        through: found.recorded + followed.count,
        recorded: found.recorded + u64::from(found.geometry.slots),
        stopped: followed.stopped,
    })
}

/// All calls of a recovery, one after another.
fn follow<L: Device, B: Device>(
    log: &mut L,
    backing: &mut B,
    found: &Super,
    slot: &mut [u8],
) -> Result<Followed, ReplayStop>
    requires log_room { log_sectors found.now.geometry ≤ (L.state log.old).sectors }
    requires backing_room { found.now.geometry.backing_sectors ≤ (B.state backing.old).sectors }
    requires bounded { found.now.recorded ≤ most_record }
    requires buffer { length slot.old ≡ 512 * slot_sectors found.now.geometry }
    ensures count { IfOk result (λ followed. followed.count ≤ found.now.geometry.slots) }
    ensures follows { IfOk result (λ followed. IsSuper (L.state log.old) found.now → (x : Image) → (L.state log.old).content ≡ Some x
        → FollowsChain found.now.geometry x followed (B.state backing.old) (B.state backing.new)) }
    ensures records { OnOk result (ContentPasses (Records (found.now.recorded + found.now.geometry.slots)) (L.state log.old) (L.state log.new)) }
    ensures no_stray { OnOk result (HasNoStray found.now.geometry (found.now.recorded + found.now.geometry.slots) (L.state log.old)) }
    ensures durable { OnOk result (NothingPending (L.state log.new) × NothingPending (B.state backing.new)) }
    ensures refused { IfErr result (RefusesSlots found.now.geometry (found.now.recorded + found.now.geometry.slots) (L.state log.old)) }
    ensures in_turn { IfErr result (λ stop. StopsInTurn stop (L.state log.old) (L.state log.new) (B.state backing.old) (B.state backing.new)) }
    ensures goes { IsSuper (L.state log.old) found.now → (x : Image) → (L.state log.old).content ≡ Some x
        → GoesInTurn found.now.geometry x (L.state log.old) (L.state log.new) (B.state backing.old) (B.state backing.new) }
    ensures calls { CallsAtMost (2 * found.now.geometry.slots) (L.state log.old) (L.state log.new) (B.state backing.old) (B.state backing.new) }
    ensures same_log { IsSameDevice (L.state log.old) (L.state log.new) }
    ensures same_backing { IsSameDevice (B.state backing.old) (B.state backing.new) }
    ensures log_cause { CountsFaultsWhere (result ≡ Err ReplayStop.LogFault) (L.state log.old).faults (L.state log.new).faults }
    ensures backing_cause { CountsFaultsWhere (result ≡ Err ReplayStop.BackingFault) (B.state backing.old).faults (B.state backing.new).faults }
{
    let recorded = found.recorded + u64::from(found.geometry.slots);
    settle(log, backing, &found.geometry, recorded)?;
    let followed = put_chain(log, backing, found, slot)?;
    finish(log, backing, recorded)?;
    Ok(followed)
}

/// Syncs the backing device, and then writes the record.
fn finish<L: Device, B: Device>(
    log: &mut L,
    backing: &mut B,
    recorded: u64,
) -> Result<(), ReplayStop>
    requires { 2048 ≤ (L.state log.old).sectors }
    ensures records { OnOk result (ContentPasses (Records recorded) (L.state log.old) (L.state log.new)) }
    ensures durable { OnOk result (NothingPending (L.state log.new) × NothingPending (B.state backing.new)) }
    ensures refused { IfErr result (λ stop. StopsAtEnd stop (L.state log.old) (L.state log.new) (B.state backing.new)) }
    ensures content { ContentPasses (RecordsOrNot recorded) (L.state log.old) (L.state log.new) }
    ensures crash { Passes (RecordsOrNot recorded) (L.state log.old) (L.state log.new) }
    ensures backing { IsOnlySynced (B.state backing.old) (B.state backing.new) }
    ensures calls { EndsIn (L.state log.old) (L.state log.new) (B.state backing.old) (B.state backing.new) }
    ensures same { IsSameDevice (L.state log.old) (L.state log.new) }
    ensures log_cause { CountsFaultsWhere (result ≡ Err ReplayStop.LogFault) (L.state log.old).faults (L.state log.new).faults }
    ensures backing_cause { CountsFaultsWhere (result ≡ Err ReplayStop.BackingFault) (B.state backing.old).faults (B.state backing.new).faults }
{
    if backing.sync().is_err() {
        return Err(ReplayStop::BackingFault);
    }
    if write_record(log, recorded).is_err() {
        return Err(ReplayStop::LogFault);
    }
    Ok(())
}
