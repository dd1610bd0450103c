//! The bytes of sector 0.
ghost use Rattle.std.specs.Prelude.{◌≡◌};
ghost use Rattle.wb_super.specs.Formatting.{super_sector};
ghost use Rattle.wb_super.specs.Superblock.{super_fields, super_text};
ghost use Rattle.wb_sum.specs.Crc32c.{sum_of};

use crate::storing::SECTOR_BYTES;
use wb_geometry::Geometry;
use wb_sum::Sum;

/// The first field of a log image.
pub const MAGIC: [u8; 8] = *b"WBLOG\0\0\0";

/// The version of the layout.
pub const VERSION: u32 = 1;

/// The bytes before the checksum, which it covers.
pub const SUMMED: usize = 32;

/// The fields and the checksum.
const TEXT_BYTES: usize = 36;

/// The checksum of these bytes.
pub fn sum_of(bytes: &[u8]) -> u32
    ensures { result ≡ sum_of bytes.now }
{
    let mut sum = Sum::new();
    sum.update(bytes);
    sum.finish()
}

/// The sector 0 of a log of this geometry.
pub fn super_sector(g: &Geometry) -> [u8; SECTOR_BYTES]
    ensures { result ≡ super_sector g.now }
{
    let mut sector = [0; SECTOR_BYTES];
    sector[..TEXT_BYTES].copy_from_slice(&text_of(g));
    sector
}

/// The bytes of this geometry that a sector 0 begins with.
fn text_of(g: &Geometry) -> [u8; TEXT_BYTES]
    ensures { result ≡ super_text 1 g.now }
{
    let fields = fields_of(g);
    let mut text = [0; TEXT_BYTES];
    text[..SUMMED].copy_from_slice(&fields);
    text[SUMMED..].copy_from_slice(&sum_of(&fields).to_le_bytes());
    text
}

/// The fields that the checksum covers.
fn fields_of(g: &Geometry) -> [u8; SUMMED]
    ensures { result ≡ super_fields 1 g.now }
{
    let mut fields = [0; SUMMED];
    fields[..8].copy_from_slice(&MAGIC);
    fields[8..12].copy_from_slice(&VERSION.to_le_bytes());
    fields[12..16].copy_from_slice(&g.order.to_le_bytes());
    fields[16..20].copy_from_slice(&g.slots.to_le_bytes());
    fields[20..24].copy_from_slice(&g.ram.to_le_bytes());
    fields[24..].copy_from_slice(&g.backing_sectors.to_le_bytes());
    fields
}
