//! The superblock of a device, read and judged.
ghost use Rattle.std.specs.Prelude.{◌≡◌, ◌+◌, ◌<◌, ◌≤◌, Err, IfOk, IfErr, OnOk, take, drop};
ghost use Rattle.std.specs.List.{All};
ghost use Rattle.std.specs.Int.{w32, w64, from_le_bytes};
ghost use Rattle.wb_geometry.specs.Image.{Image, sector};
ghost use Rattle.wb_geometry.specs.Device.{CountsFaultsWhere, OnlyRead, next_count};
ghost use Rattle.wb_super.specs.Superblock.{HasGeometry};
ghost use Rattle.wb_super.specs.Found.{IsSuper, IsFormattedFor, Refuses, RefusesFields, FaultsInTurn};
ghost use Rattle.wb_super.specs.declared.reading.SuperRefused.TheVariants.{Fault};

use crate::recording::RECORD_AT;
use crate::storing::SECTOR_BYTES;
use crate::text::{MAGIC, SUMMED, VERSION, sum_of};
use wb_device::{Device, DeviceFault};
use wb_geometry::Geometry;

/// What a log says of itself.
#[derive(Clone, Copy, Debug, PartialEq, Eq)]
pub struct Super {
    /// The version of the layout, which is 1.
    pub version: u32,
    /// The numbers of the cache whose log it is.
    pub geometry: Geometry,
    /// The id of the last segment that was written back; at most `2 ^ 62`.
    pub recorded: u64,
}

/// Why a log is refused: the first of these causes that applies, in this order. A fault may come at each of the two
/// reads, before `Magic` or before `Record`; and `Small` is asked before the first read, and again once the geometry is
/// known.
#[derive(Clone, Copy, Debug, PartialEq, Eq)]
pub enum SuperRefused {
    /// The device has `has` sectors and needs `needs`: 2048 for the superblock and the record, or those of all slots.
    Small { needs: u64, has: u64 },
    /// A read failed.
    Fault,
    /// The first eight bytes aren't the magic number.
    Magic,
    /// The version isn't 1.
    Version(u32),
    /// The stored checksum isn't that of the fields.
    Sum { stored: u32, computed: u32 },
    /// One of the numbers of the geometry is out of its range.
    Geometry,
    /// The record is above `2 ^ 62`.
    Record(u64),
}

/// The sectors that are asked for before anything is read.
const FRONT_SECTORS: u64 = 2048;

/// The greatest record that is taken.
const MOST_RECORD: u64 = 1 << 62;

/// Reads the superblock and the record, two sectors. It takes no memory and writes nothing.
pub fn read_super<D: Device>(log: &mut D) -> Result<Super, SuperRefused>
    ensures found { IfOk result (IsSuper (D.state log.old)) }
    ensures refused { IfErr result (Refuses (D.state log.old)) }
    ensures reads { OnOk result ((D.state log.new).reads ≡ next_count (next_count (D.state log.old).reads)) }
    ensures in_turn { result ≡ Err Fault → FaultsInTurn (D.state log.old) (D.state log.new) }
    ensures only_read { OnlyRead (D.state log.old) (D.state log.new) }
    ensures cause { CountsFaultsWhere (result ≡ Err Fault) (D.state log.old).faults (D.state log.new).faults }
{
    let geometry = read_geometry(log)?;
    let mut sector = [0; SECTOR_BYTES];
    if let Err(DeviceFault) = log.read(RECORD_AT, &mut sector) {
        return Err(SuperRefused::Fault);
    }
    let recorded = field_64(&sector, 0);
    if recorded > MOST_RECORD {
        return Err(SuperRefused::Record(recorded));
    }
    Ok(Super {
        version: VERSION,
        geometry,
        recorded,
    })
}

/// The geometry that sector 0 names, where the device has the sectors that it asks for.
fn read_geometry<D: Device>(log: &mut D) -> Result<Geometry, SuperRefused>
    ensures found { IfOk result (IsFormattedFor (D.state log.old)) }
    ensures refused { IfErr result (Refuses (D.state log.old)) }
    ensures reads { OnOk result ((D.state log.new).reads ≡ next_count (D.state log.old).reads) }
    ensures fault_reads { result ≡ Err Fault → (D.state log.new).reads ≡ next_count (D.state log.old).reads }
    ensures only_read { OnlyRead (D.state log.old) (D.state log.new) }
    ensures cause { CountsFaultsWhere (result ≡ Err Fault) (D.state log.old).faults (D.state log.new).faults }
{
    let has = log.sectors();
    if has < FRONT_SECTORS {
        return Err(SuperRefused::Small {
            needs: FRONT_SECTORS,
            has,
        });
    }
    let mut sector = [0; SECTOR_BYTES];
    if let Err(DeviceFault) = log.read(0, &mut sector) {
        return Err(SuperRefused::Fault);
    }
    let geometry = described(&sector)?;
    let needs = geometry.log_sectors();
    if has < needs {
        return Err(SuperRefused::Small { needs, has });
    }
    Ok(geometry)
}

/// The geometry that this sector 0 names.
fn described(front: &[u8; SECTOR_BYTES]) -> Result<Geometry, SuperRefused>
    ensures found { IfOk result (λ g. (x : Image) → sector x 0 ≡ front.now → HasGeometry x g) }
    ensures refused { IfErr result (λ refused. (x : Image) → sector x 0 ≡ front.now → RefusesFields x refused) }
    ensures bytes { OnOk result (All (λ byte. byte < 256) front.now) }
{
    if !front.starts_with(&MAGIC) {
        return Err(SuperRefused::Magic);
    }
    let version = field_32(front, 8);
    if version != VERSION {
        return Err(SuperRefused::Version(version));
    }
    let stored = field_32(front, SUMMED);
    let computed = sum_of(&front[..SUMMED]);
    if stored != computed {
        return Err(SuperRefused::Sum { stored, computed });
    }
    match Geometry::new(
        field_32(front, 12),
        field_32(front, 16),
        field_32(front, 20),
        field_64(front, 24),
    ) {
        Ok(geometry) => Ok(geometry),
        Err(_) => Err(SuperRefused::Geometry),
    }
}

/// The number in four bytes of a sector, the lowest first.
fn field_32(sector: &[u8; SECTOR_BYTES], from: usize) -> u32
    requires { from + 4 ≤ 512 }
    ensures { result ≡ from_le_bytes w32 (take 4 (drop from sector.now)) }
{
    let mut bytes = [0; 4];
    bytes.copy_from_slice(&sector[from..from + 4]);
    u32::from_le_bytes(bytes)
}

/// The number in eight bytes of a sector, the lowest first.
fn field_64(sector: &[u8; SECTOR_BYTES], from: usize) -> u64
    requires { from + 8 ≤ 512 }
    ensures { result ≡ from_le_bytes w64 (take 8 (drop from sector.now)) }
{
    let mut bytes = [0; 8];
    bytes.copy_from_slice(&sector[from..from + 8]);
    u64::from_le_bytes(bytes)
}
