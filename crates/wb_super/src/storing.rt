//! Writes of one sector.
ghost use Rattle.std.specs.Prelude.{◌≡◌, ◌<◌, ◌≤◌, OnOk, OnErr};
ghost use Rattle.wb_geometry.specs.Image.{Replaces, ReplacesOrNot};
ghost use Rattle.wb_geometry.specs.Device.{HasCause, IsSameDevice, NothingPending, ContentPasses, Passes, next_count};

use wb_device::{Device, DeviceFault};

pub const SECTOR_BYTES: usize = 512;

/// Writes one sector.
pub fn put<D: Device>(
    device: &mut D,
    at: u64,
    sector: &[u8; SECTOR_BYTES],
) -> Result<(), DeviceFault>
    requires { at < (D.state device.old).sectors }
    ensures ok { OnOk result (ContentPasses (Replaces at sector.now) (D.state device.old) (D.state device.new)) }
    ensures err { OnErr result (ContentPasses (ReplacesOrNot at sector.now) (D.state device.old) (D.state device.new)) }
    ensures crash { Passes (ReplacesOrNot at sector.now) (D.state device.old) (D.state device.new) }
    ensures reads { (D.state device.new).reads ≡ (D.state device.old).reads }
    ensures syncs { (D.state device.new).syncs ≡ (D.state device.old).syncs }
    ensures same { IsSameDevice (D.state device.old) (D.state device.new) }
    ensures cause { HasCause (D.state device.old) (D.state device.new) result }
{
    device.write(at, sector)
}

/// Writes one sector and syncs.
pub fn store<D: Device>(
    device: &mut D,
    at: u64,
    sector: &[u8; SECTOR_BYTES],
) -> Result<(), DeviceFault>
    requires { at < (D.state device.old).sectors }
    ensures ok { OnOk result (ContentPasses (Replaces at sector.now) (D.state device.old) (D.state device.new)) }
    ensures durable { OnOk result (NothingPending (D.state device.new)) }
    ensures err { OnErr result (ContentPasses (ReplacesOrNot at sector.now) (D.state device.old) (D.state device.new)) }
    ensures crash { Passes (ReplacesOrNot at sector.now) (D.state device.old) (D.state device.new) }
    ensures reads { (D.state device.new).reads ≡ (D.state device.old).reads }
    ensures synced { OnOk result ((D.state device.new).syncs ≡ next_count (D.state device.old).syncs) }
    ensures not_synced { OnErr result (((D.state device.old).syncs ≤ (D.state device.new).syncs)
        × ((D.state device.new).syncs ≤ next_count (D.state device.old).syncs)) }
    ensures same { IsSameDevice (D.state device.old) (D.state device.new) }
    ensures cause { HasCause (D.state device.old) (D.state device.new) result }
{
    put(device, at, sector)?;
    device.sync()
}
