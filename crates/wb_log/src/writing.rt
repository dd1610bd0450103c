//! The writing of a segment into its slot.
ghost use Rattle.std.specs.Prelude.{◌≡◌, ◌≤◌, ◌+◌, ◌*◌, ◌%◌, All, length, OnOk, OnErr};
ghost use Rattle.wb_geometry.specs.Layout.{places, slot_sectors, slot_start, log_sectors};
ghost use Rattle.wb_geometry.specs.Image.{IsSameBut, IsPartlyWritten, overlay, sectors_of};
ghost use Rattle.wb_geometry.specs.Device.{IsSameDevice, HasCause, ContentPasses, Passes};
ghost use Rattle.wb_log.specs.Writing.{WritesSegment, IsInText};

use wb_device::{Device, DeviceFault};
use wb_geometry::Geometry;
use wb_header::{Sealed, encode};

/// Writes a text that is encoded already, of whole sectors, into the slot of segment `id`, by one write. After an `Err` each
/// sector of the text has its former or its new content. No other sector changes, and nothing is synced.
pub fn write_text<L: Device>(
    log: &mut L,
    g: &Geometry,
    id: u64,
    text: &[u8],
) -> Result<(), DeviceFault>
    requires named { 1 ≤ id }
    requires whole { length text.now % 512 ≡ 0 }
    requires some { 512 ≤ length text.now }
    requires fits { length text.now ≤ 512 * slot_sectors g.now }
    requires room { log_sectors g.now ≤ (L.state log.old).sectors }
    ensures ok { OnOk result (ContentPasses (λ x y. y ≡ overlay (slot_start g.now id) (sectors_of text.now) x) (L.state log.old) (L.state log.new)) }
    ensures err { OnErr result (ContentPasses (IsPartlyWritten (slot_start g.now id) (sectors_of text.now)) (L.state log.old) (L.state log.new)) }
    ensures crash { Passes (IsPartlyWritten (slot_start g.now id) (sectors_of text.now)) (L.state log.old) (L.state log.new) }
    ensures reads { (L.state log.new).reads ≡ (L.state log.old).reads }
    ensures syncs { (L.state log.new).syncs ≡ (L.state log.old).syncs }
    ensures same { IsSameDevice (L.state log.old) (L.state log.new) }
    ensures cause { HasCause (L.state log.old) (L.state log.new) result }
{
    log.write(g.slot_start(id), text)
}

/// Encodes a segment and writes its text into its slot, by one write. `scratch` has the bytes of a slot, of which the front holds
/// the text then. After an `Err` each sector of the text has its former or its new content. No other sector changes.
pub fn write_segment<L: Device>(
    log: &mut L,
    g: &Geometry,
    segment: &Sealed,
    scratch: &mut [u8],
) -> Result<(), DeviceFault>
    requires fits { length segment.now.blocks ≤ places g.now }
    requires scratch { length scratch.old ≡ 512 * slot_sectors g.now }
    requires room { log_sectors g.now ≤ (L.state log.old).sectors }
    ensures written { All (λ block. 8 * block.number + 8 ≤ g.now.backing_sectors) segment.now.blocks
        → WritesSegment g.now segment.now.id segment.now.blocks (L.state log.old) (L.state log.new) result }
    ensures others { ContentPasses (IsSameBut (IsInText g.now segment.now.id (length segment.now.blocks))) (L.state log.old) (L.state log.new) }
    ensures others_crash { Passes (IsSameBut (IsInText g.now segment.now.id (length segment.now.blocks))) (L.state log.old) (L.state log.new) }
    ensures scratch { length scratch.new ≡ length scratch.old }
    ensures reads { (L.state log.new).reads ≡ (L.state log.old).reads }
    ensures syncs { (L.state log.new).syncs ≡ (L.state log.old).syncs }
    ensures same { IsSameDevice (L.state log.old) (L.state log.new) }
    ensures cause { HasCause (L.state log.old) (L.state log.new) result }
{
    let size = encode(segment, scratch);
    // A segment has a block at least, and ids begin at 1.
    prove!(segment.len() > 0);
    write_text(log, g, segment.id(), &scratch[..size])
}
