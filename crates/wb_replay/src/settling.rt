//! What comes before the chain: both devices are synced, and the ids of the slots are read.
ghost use Rattle.std.specs.Prelude.{◌≡◌, ◌≤◌, ◌+◌, Err, IfErr, OnOk};
ghost use Rattle.wb_geometry.specs.Layout.{log_sectors};
ghost use Rattle.wb_geometry.specs.Device.{OnlyRead, NothingPending, CountsFaultsWhere, next_count};
ghost use Rattle.wb_replay.specs.Replaying.{IsOnlySynced};
ghost use Rattle.wb_replay.specs.Stopping.{HasNoStray, RefusesSlots, StopsInTurn};
ghost use Rattle.wb_replay.specs.Putting.{SettlesIn};

use crate::ReplayStop;
use wb_device::Device;
use wb_geometry::Geometry;
use wb_header::header_id;

/// The bytes of a sector.
const SECTOR_BYTES: usize = 512;

/// Syncs the log, and then the backing device, and refuses the first slot whose id is above the limit.
pub(crate) fn settle<L: Device, B: Device>(
    log: &mut L,
    backing: &mut B,
    geometry: &Geometry,
    limit: u64,
) -> Result<(), ReplayStop>
    requires { log_sectors geometry.now ≤ (L.state log.old).sectors }
    ensures no_stray { OnOk result (HasNoStray geometry.now limit (L.state log.old)) }
    ensures settled { OnOk result (NothingPending (L.state log.new) × NothingPending (B.state backing.new)) }
    ensures synced { OnOk result (next_count (B.state backing.old).syncs ≤ (B.state backing.new).syncs) }
    ensures refused { IfErr result (RefusesSlots geometry.now limit (L.state log.old)) }
    ensures in_turn { IfErr result (λ stop. StopsInTurn stop (L.state log.old) (L.state log.new) (B.state backing.old) (B.state backing.new)) }
    ensures log { IsOnlySynced (L.state log.old) (L.state log.new) }
    ensures backing { IsOnlySynced (B.state backing.old) (B.state backing.new) }
    ensures calls { SettlesIn geometry.now.slots (L.state log.old) (L.state log.new) (B.state backing.old) (B.state backing.new) }
    ensures log_cause { CountsFaultsWhere (result ≡ Err ReplayStop.LogFault) (L.state log.old).faults (L.state log.new).faults }
    ensures backing_cause { CountsFaultsWhere (result ≡ Err ReplayStop.BackingFault) (B.state backing.old).faults (B.state backing.new).faults }
{
    if log.sync().is_err() {
        return Err(ReplayStop::LogFault);
    }
    if backing.sync().is_err() {
        return Err(ReplayStop::BackingFault);
    }
    refuse_stray(log, geometry, limit)
}

/// Reads the id of each slot, and refuses the first that is above the limit.
fn refuse_stray<L: Device>(log: &mut L, geometry: &Geometry, limit: u64) -> Result<(), ReplayStop>
    requires { log_sectors geometry.now ≤ (L.state log.old).sectors }
    ensures no_stray { OnOk result (HasNoStray geometry.now limit (L.state log.old)) }
    ensures refused { IfErr result (RefusesSlots geometry.now limit (L.state log.old)) }
    ensures by_log { result ≡ Err ReplayStop.BackingFault → ⊥ }
    ensures only_read { OnlyRead (L.state log.old) (L.state log.new) }
    ensures reads { (L.state log.new).reads ≤ (L.state log.old).reads + geometry.now.slots }
    ensures cause { CountsFaultsWhere (result ≡ Err ReplayStop.LogFault) (L.state log.old).faults (L.state log.new).faults }
{
    let mut sector = [0; SECTOR_BYTES];
    for slot in 0..geometry.slots {
        if log.read(geometry.slot_at(slot), &mut sector).is_err() {
            return Err(ReplayStop::LogFault);
        }
        let id = header_id(&sector);
        if id > limit {
            return Err(ReplayStop::Stray { slot, id });
        }
    }
    Ok(())
}
