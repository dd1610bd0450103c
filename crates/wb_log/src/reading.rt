//! The reading of a segment's blocks from its slot.
ghost use Rattle.std.specs.Prelude.{◌≡◌, ◌≤◌, ◌<◌, ◌+◌, ◌/◌, ◌%◌, length, OnOk};
ghost use Rattle.wb_geometry.specs.Layout.{places, log_sectors};
ghost use Rattle.wb_geometry.specs.Device.{HoldsContent, OnlyRead, HasCause, next_count};
ghost use Rattle.wb_log.specs.Reading.{block_start};

use wb_device::{Device, DeviceFault};
use wb_geometry::{Geometry, Spot};

/// The sectors of a block, and of the header before the blocks.
const BLOCK_SECTORS: u64 = 8;

/// The sector where the block of a spot begins in the log.
fn block_start(g: &Geometry, spot: Spot) -> u64
    requires id { 1 ≤ spot.id }
    requires index { spot.index < places g.now }
    ensures { result ≡ block_start g.now spot }
{
    g.slot_start(spot.id) + BLOCK_SECTORS * (1 + u64::from(spot.index))
}

/// Reads one sector of the block of a spot, by one read. The spot is in the log, and its index is below the places of a
/// segment; `sector` is counted in the block. After an `Err` there are any bytes in `into`.
pub fn read_sector<L: Device>(
    log: &mut L,
    g: &Geometry,
    spot: Spot,
    sector: u8,
    into: &mut [u8],
) -> Result<(), DeviceFault>
    requires id { 1 ≤ spot.id }
    requires index { spot.index < places g.now }
    requires sector { sector < 8 }
    requires size { length into.old ≡ 512 }
    requires room { log_sectors g.now ≤ (L.state log.old).sectors }
    ensures ok { OnOk result (HoldsContent (block_start g.now spot + sector) into.new (L.state log.old)) }
    ensures size { length into.new ≡ length into.old }
    ensures only_read { OnlyRead (L.state log.old) (L.state log.new) }
    ensures reads { (L.state log.new).reads ≡ next_count (L.state log.old).reads }
    ensures cause { HasCause (L.state log.old) (L.state log.new) result }
{
    read_sectors(log, g, spot, sector, into)
}

/// Reads sectors of the block of a spot that stand next to each other, by one read. The spot is in the log, and its index is
/// below the places of a segment; `sector` is the first of them, counted in the block, and all of them lie in the block. After
/// an `Err` there are any bytes in `into`.
pub fn read_sectors<L: Device>(
    log: &mut L,
    g: &Geometry,
    spot: Spot,
    sector: u8,
    into: &mut [u8],
) -> Result<(), DeviceFault>
    requires id { 1 ≤ spot.id }
    requires index { spot.index < places g.now }
    requires whole { length into.old % 512 ≡ 0 }
    requires some { 512 ≤ length into.old }
    requires sectors { sector + length into.old / 512 ≤ 8 }
    requires room { log_sectors g.now ≤ (L.state log.old).sectors }
    ensures ok { OnOk result (HoldsContent (block_start g.now spot + sector) into.new (L.state log.old)) }
    ensures size { length into.new ≡ length into.old }
    ensures only_read { OnlyRead (L.state log.old) (L.state log.new) }
    ensures reads { (L.state log.new).reads ≡ next_count (L.state log.old).reads }
    ensures cause { HasCause (L.state log.old) (L.state log.new) result }
{
    log.read(block_start(g, spot) + u64::from(sector), into)
}

/// Reads the block of a spot, by one read. The spot is in the log, and its index is below the places of a segment. After
/// an `Err` there are any bytes in `into`.
pub fn read_block<L: Device>(
    log: &mut L,
    g: &Geometry,
    spot: Spot,
    into: &mut [u8],
) -> Result<(), DeviceFault>
    requires id { 1 ≤ spot.id }
    requires index { spot.index < places g.now }
    requires size { length into.old ≡ 4096 }
    requires room { log_sectors g.now ≤ (L.state log.old).sectors }
    ensures ok { OnOk result (HoldsContent (block_start g.now spot) into.new (L.state log.old)) }
    ensures size { length into.new ≡ length into.old }
    ensures only_read { OnlyRead (L.state log.old) (L.state log.new) }
    ensures reads { (L.state log.new).reads ≡ next_count (L.state log.old).reads }
    ensures cause { HasCause (L.state log.old) (L.state log.new) result }
{
    log.read(block_start(g, spot), into)
}
