//! The chain, followed segment by segment.
ghost use Rattle.std.specs.Prelude.{◌≡◌, ◌≤◌, ◌+◌, ◌*◌, Err, Some, length, IfOk, IfErr, OnOk, OnErr};
ghost use Rattle.std.specs.List.{All};
ghost use Rattle.wb_geometry.specs.Image.{Image};
ghost use Rattle.wb_geometry.specs.Layout.{log_sectors, slot_sectors};
ghost use Rattle.wb_geometry.specs.Device.{OnlyRead, HasCause, CountsFaultsWhere, next_count};
ghost use Rattle.wb_header.specs.Text.{length_in, blocks_in};
ghost use Rattle.wb_super.specs.Found.{most_record};
ghost use Rattle.wb_super.specs.Superblock.{record_of};
ghost use Rattle.wb_replay.specs.Replaying.{PutsSome};
ghost use Rattle.wb_replay.specs.Putting.{PutsAll, IsUnsynced, entries_in, TakesSegment, StopsSegment, FollowsChain, FollowsPartly, IsFault};

use crate::ReplayStop;
use wb_device::{Device, DeviceFault};
use wb_geometry::Geometry;
use wb_header::{Found, Refused, check};
use wb_runs::write_block;
use wb_super::Super;

/// The sectors of a block.
const BLOCK_SECTORS: u64 = 8;

/// How far the chain goes.
#[derive(Clone, Copy, Debug)]
pub(crate) struct Followed {
    /// How many segments it has.
    pub(crate) count: u64,
    /// Why the slot of the next segment is refused.
    pub(crate) stopped: Refused,
}

/// Puts the blocks of each segment of the chain, one segment after another. It ends at the first slot that is refused, or
/// once there was a segment for each slot: the first slot, which is the next one's, then has the first segment.
pub(crate) fn put_chain<L: Device, B: Device>(
    log: &mut L,
    backing: &mut B,
    found: &Super,
    slot: &mut [u8],
) -> Result<Followed, ReplayStop>
    requires log_room { log_sectors found.now.geometry ≤ (L.state log.old).sectors }
    requires backing_room { found.now.geometry.backing_sectors ≤ (B.state backing.old).sectors }
    requires bounded { found.now.recorded ≤ most_record }
    requires buffer { length slot.old ≡ 512 * slot_sectors found.now.geometry }
    ensures count { IfOk result (λ followed. followed.count ≤ found.now.geometry.slots) }
    ensures follows { IfOk result (λ followed. (x : Image) → (L.state log.old).content ≡ Some x → record_of x ≡ found.now.recorded
        → FollowsChain found.now.geometry x followed (B.state backing.old) (B.state backing.new)) }
    ensures partly { (x : Image) → (L.state log.old).content ≡ Some x → record_of x ≡ found.now.recorded
        → FollowsPartly found.now.geometry x (B.state backing.old) (B.state backing.new) }
    ensures refused { IfErr result IsFault }
    ensures only_read { OnlyRead (L.state log.old) (L.state log.new) }
    ensures reads { (L.state log.new).reads ≤ (L.state log.old).reads + found.now.geometry.slots }
    ensures unsynced { IsUnsynced (B.state backing.old) (B.state backing.new) }
    ensures log_cause { CountsFaultsWhere (result ≡ Err ReplayStop.LogFault) (L.state log.old).faults (L.state log.new).faults }
    ensures backing_cause { CountsFaultsWhere (result ≡ Err ReplayStop.BackingFault) (B.state backing.old).faults (B.state backing.new).faults }
{
    for count in 0..u64::from(found.geometry.slots) {
        let id = found.recorded + 1 + count;
        if let Some(stopped) = put_segment(log, backing, &found.geometry, id, slot)? {
            return Ok(Followed { count, stopped });
        }
    }
    Ok(Followed {
        count: u64::from(found.geometry.slots),
        stopped: Refused::Id(found.recorded + 1),
    })
}

/// Reads the slot of a segment, and puts its blocks where the slot begins with a text of it; else answers why it doesn't.
fn put_segment<L: Device, B: Device>(
    log: &mut L,
    backing: &mut B,
    geometry: &Geometry,
    id: u64,
    slot: &mut [u8],
) -> Result<Option<Refused>, ReplayStop>
    requires id { 1 ≤ id }
    requires log_room { log_sectors geometry.now ≤ (L.state log.old).sectors }
    requires backing_room { geometry.now.backing_sectors ≤ (B.state backing.old).sectors }
    requires buffer { length slot.old ≡ 512 * slot_sectors geometry.now }
    ensures takes { IfOk result (λ refused. (x : Image) → (L.state log.old).content ≡ Some x
        → TakesSegment geometry.now x id refused (B.state backing.old) (B.state backing.new)) }
    ensures stops { OnErr result ((x : Image) → (L.state log.old).content ≡ Some x
        → StopsSegment geometry.now x id (B.state backing.old) (B.state backing.new)) }
    ensures refused { IfErr result IsFault }
    ensures only_read { OnlyRead (L.state log.old) (L.state log.new) }
    ensures reads { (L.state log.new).reads ≡ next_count (L.state log.old).reads }
    ensures unsynced { IsUnsynced (B.state backing.old) (B.state backing.new) }
    ensures log_cause { CountsFaultsWhere (result ≡ Err ReplayStop.LogFault) (L.state log.old).faults (L.state log.new).faults }
    ensures backing_cause { CountsFaultsWhere (result ≡ Err ReplayStop.BackingFault) (B.state backing.old).faults (B.state backing.new).faults }
{
    if log.read(geometry.slot_start(id), slot).is_err() {
        return Err(ReplayStop::LogFault);
    }
    match check(slot, id, geometry.backing_sectors / BLOCK_SECTORS) {
        Ok(text) => match put_blocks(backing, &text) {
            Ok(()) => Ok(None),
            Err(DeviceFault) => Err(ReplayStop::BackingFault),
        },
        Err(refused) => Ok(Some(refused)),
    }
}

/// Writes the dirty sectors of the blocks of a text, block by block. It ends at the first call that fails.
fn put_blocks<B: Device>(backing: &mut B, text: &Found<'_>) -> Result<(), DeviceFault>
    requires size { 4096 * (1 + length_in text.now) ≤ length text.now }
    requires inside { All (λ block. 8 * block.number + 8 ≤ (B.state backing.old).sectors) (blocks_in (length_in text.now) text.now) }
    ensures ok { OnOk result (PutsAll (entries_in text.now) (B.state backing.old) (B.state backing.new)) }
    ensures partly { PutsSome (entries_in text.now) (B.state backing.old) (B.state backing.new) }
    ensures unsynced { IsUnsynced (B.state backing.old) (B.state backing.new) }
    ensures cause { HasCause (B.state backing.old) (B.state backing.new) result }
{
    for index in 0..text.length() {
        let meta = text.entry(index);
        write_block(backing, meta.block, meta.bits, text.payload(index))?;
    }
    Ok(())
}
