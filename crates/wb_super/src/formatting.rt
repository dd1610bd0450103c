//! An empty log.
ghost use Rattle.std.specs.Prelude.{◌≡◌, ◌≢◌, ◌≤◌, ◌<◌, ℕ, Some, Err, OnOk, OnErr};
ghost use Rattle.wb_geometry.specs.Image.{Image};
ghost use Rattle.wb_geometry.specs.Layout.{log_sectors};
ghost use Rattle.wb_geometry.specs.Device.{HasCause, CountsFaultsWhere, IsSameDevice, NothingPending, ContentPasses, Passes, LeavesOnly};
ghost use Rattle.wb_super.specs.Formatting.{Formats, FormatsOrNot};
ghost use Rattle.wb_super.specs.Clearing.{ClearsSlots, Clears, ClearsPartly};
ghost use Rattle.wb_super.specs.declared.formatting.FormatStop.TheVariants.{Small, Fault};

use crate::recording::RECORD_AT;
use crate::storing::{SECTOR_BYTES, put, store};
use crate::text::super_sector;
use wb_device::{Device, DeviceFault};
use wb_geometry::Geometry;

/// Why formatting stopped.
#[derive(Clone, Copy, Debug, PartialEq, Eq)]
pub enum FormatStop {
    /// The device has `has` sectors and needs `needs`. Nothing was done.
    Small { needs: u64, has: u64 },
    /// A call of the device failed. The device holds what it held, or a log that is refused for its magic, or, where
    /// the last write or the last sync failed, the new log.
    Fault,
}

/// Makes an empty log of this geometry: no segment, and the record 0. It writes the superblock, the record and the first
/// sector of each slot, and no other sector.
///
/// Sector 0 is zeros, and synced, before anything else is written, and it gets the new superblock only once the rest is
/// synced. Where nothing was pending before, a crash at any moment leaves the former image, or one that is refused for
/// its magic, or the new log.
pub fn format<D: Device>(log: &mut D, g: &Geometry) -> Result<(), FormatStop>
    ensures ok { OnOk result (ContentPasses (Formats g.now) (D.state log.old) (D.state log.new)) }
    ensures durable { OnOk result (NothingPending (D.state log.new)) }
    ensures err { OnErr result (ContentPasses (FormatsOrNot g.now) (D.state log.old) (D.state log.new)) }
    ensures crash { Passes (FormatsOrNot g.now) (D.state log.old) (D.state log.new) }
    ensures any_moment { NothingPending (D.state log.old) → (x : Image) → (D.state log.old).content ≡ Some x
        → LeavesOnly (FormatsOrNot g.now x) (D.state log.old) (D.state log.new) }
    ensures small { (needs has : ℕ) → result ≡ Err (Small needs has)
        → (needs ≡ log_sectors g.now) × (has ≡ (D.state log.old).sectors) × (has < needs) }
    ensures nothing_done { (needs has : ℕ) → result ≡ Err (Small needs has) → log.new ≡ log.old }
    ensures room { ((needs has : ℕ) → result ≢ Err (Small needs has)) → log_sectors g.now ≤ (D.state log.old).sectors }
    ensures reads { (D.state log.new).reads ≡ (D.state log.old).reads }
    ensures same { IsSameDevice (D.state log.old) (D.state log.new) }
    ensures cause { CountsFaultsWhere (result ≡ Err Fault) (D.state log.old).faults (D.state log.new).faults }
{
    let needs = g.log_sectors();
    let has = log.sectors();
    if has < needs {
        return Err(FormatStop::Small { needs, has });
    }
    match rewrite(log, g) {
        Ok(()) => Ok(()),
        Err(DeviceFault) => Err(FormatStop::Fault),
    }
}

/// The three steps, each synced: the old superblock goes, then the slots and the record, then the new one comes.
fn rewrite<D: Device>(log: &mut D, g: &Geometry) -> Result<(), DeviceFault>
    requires { log_sectors g.now ≤ (D.state log.old).sectors }
    ensures ok { OnOk result (ContentPasses (Formats g.now) (D.state log.old) (D.state log.new)) }
    ensures durable { OnOk result (NothingPending (D.state log.new)) }
    ensures err { OnErr result (ContentPasses (FormatsOrNot g.now) (D.state log.old) (D.state log.new)) }
    ensures crash { Passes (FormatsOrNot g.now) (D.state log.old) (D.state log.new) }
    ensures reads { (D.state log.new).reads ≡ (D.state log.old).reads }
    ensures same { IsSameDevice (D.state log.old) (D.state log.new) }
    ensures cause { HasCause (D.state log.old) (D.state log.new) result }
{
    store(log, 0, &[0; SECTOR_BYTES])?;
    clear(log, g)?;
    store(log, 0, &super_sector(g))
}

/// Writes zeros to the first sector of each slot and to the record, and syncs.
fn clear<D: Device>(log: &mut D, g: &Geometry) -> Result<(), DeviceFault>
    requires { log_sectors g.now ≤ (D.state log.old).sectors }
    ensures ok { OnOk result (ContentPasses (Clears g.now) (D.state log.old) (D.state log.new)) }
    ensures durable { OnOk result (NothingPending (D.state log.new)) }
    ensures err { OnErr result (ContentPasses (ClearsPartly g.now) (D.state log.old) (D.state log.new)) }
    ensures crash { Passes (ClearsPartly g.now) (D.state log.old) (D.state log.new) }
    ensures reads { (D.state log.new).reads ≡ (D.state log.old).reads }
    ensures same { IsSameDevice (D.state log.old) (D.state log.new) }
    ensures cause { HasCause (D.state log.old) (D.state log.new) result }
{
    clear_slots(log, g)?;
    store(log, RECORD_AT, &[0; SECTOR_BYTES])
}

/// Writes zeros to the first sector of each slot.
fn clear_slots<D: Device>(log: &mut D, g: &Geometry) -> Result<(), DeviceFault>
    requires { log_sectors g.now ≤ (D.state log.old).sectors }
    ensures ok { OnOk result (ContentPasses (ClearsSlots g.now g.now.slots) (D.state log.old) (D.state log.new)) }
    ensures err { OnErr result (ContentPasses (ClearsPartly g.now) (D.state log.old) (D.state log.new)) }
    ensures crash { Passes (ClearsPartly g.now) (D.state log.old) (D.state log.new) }
    ensures reads { (D.state log.new).reads ≡ (D.state log.old).reads }
    ensures same { IsSameDevice (D.state log.old) (D.state log.new) }
    ensures cause { HasCause (D.state log.old) (D.state log.new) result }
{
    for id in 1..=u64::from(g.slots) {
        put(log, g.slot_start(id), &[0; SECTOR_BYTES])?;
    }
    Ok(())
}
