//! The record of a log image.
ghost use Rattle.std.specs.Prelude.{◌≡◌, ◌≤◌, OnOk, OnErr};
ghost use Rattle.wb_geometry.specs.Image.{Image};
ghost use Rattle.wb_geometry.specs.Device.{HasCause, IsSameDevice, NothingPending, ContentPasses, Passes, LeavesOnly, next_count};
ghost use Rattle.wb_super.specs.Recording.{Records, RecordsOrNot, record_sector};

use crate::storing::{SECTOR_BYTES, store};
use wb_device::{Device, DeviceFault};

/// The sector of the record.
pub const RECORD_AT: u64 = 2047;

/// Writes the record, by one write and one sync: `id` is the last segment that was written back. The device has at
/// least 2048 sectors. After an `Err` the record is the old or the new one. No other sector changes.
pub fn write_record<D: Device>(log: &mut D, id: u64) -> Result<(), DeviceFault>
    requires { 2048 ≤ (D.state log.old).sectors }
    ensures ok { OnOk result (ContentPasses (Records id) (D.state log.old) (D.state log.new)) }
    ensures durable { OnOk result (NothingPending (D.state log.new)) }
    ensures err { OnErr result (ContentPasses (RecordsOrNot id) (D.state log.old) (D.state log.new)) }
    ensures crash { Passes (RecordsOrNot id) (D.state log.old) (D.state log.new) }
    ensures any_moment { NothingPending (D.state log.old) → (x : Image) → (D.state log.old).content ≡ Some x
        → LeavesOnly (RecordsOrNot id x) (D.state log.old) (D.state log.new) }
    ensures reads { (D.state log.new).reads ≡ (D.state log.old).reads }
    ensures synced { OnOk result ((D.state log.new).syncs ≡ next_count (D.state log.old).syncs) }
    ensures not_synced { OnErr result (((D.state log.old).syncs ≤ (D.state log.new).syncs)
        × ((D.state log.new).syncs ≤ next_count (D.state log.old).syncs)) }
    ensures same { IsSameDevice (D.state log.old) (D.state log.new) }
    ensures cause { HasCause (D.state log.old) (D.state log.new) result }
{
    store(log, RECORD_AT, &record_sector(id))
}

/// The sector of this record.
fn record_sector(id: u64) -> [u8; SECTOR_BYTES]
    ensures { result ≡ record_sector id }
{
    let mut sector = [0; SECTOR_BYTES];
    sector[..8].copy_from_slice(&id.to_le_bytes());
    sector
}
