//! Reading what the history made of the image.
ghost use Rattle.std.specs.Prelude.{◌≡◌, ◌+◌, ◌*◌, ◌/◌, ◌%◌, ◌^◌, ◌≤◌, ◌<◌, ℕ, List, length, take, Err, OnOk, IfOk};
ghost use Rattle.wb_geometry.specs.Image.{Image, bytes_at};
ghost use Rattle.wb_geometry.specs.History.{HistoryEntry, after};
ghost use Rattle.wb_geometry.specs.Device.{OnlyRead, CountsFaultsWhere};
ghost use Rattle.wb_geometry.specs.declared.which.Which.TheVariants.{Log, Backing};
ghost use Rattle.wb_table.specs.Tables.{spot_in};
ghost use Rattle.wb_engine.specs.Standing.{Standing, Told, IsSynced, IsSameEngine};
ghost use Rattle.wb_engine.specs.Reading.{on_backing, in_log};

use crate::engine::Engine;
use wb_device::{Device, DeviceFault};
use wb_geometry::{Spot, Which};
use wb_log::read_sectors;
use wb_memory::{Memory, Newest};

const SECTOR_BYTES: usize = 512;

/// The spot of a sector that no segment has: its newest content is on the backing device.
const NOWHERE: Spot = Spot { id: 0, index: 0 };

impl<L: Device, B: Device> Engine<L, B> {
    /// Reads whole sectors from `sector` on, at least one and inside the backing device, as they stand after all that was
    /// absorbed. A sector in memory costs no device call; sectors that stand next to each other on the backing device, or in a
    /// block of a segment in the log, cost one read there. After an `Err`, which comes
    /// only where that device failed, there are any bytes in `into`. Nothing else changes.
    pub fn read(&mut self, sector: u64, into: &mut [u8]) -> Result<(), Which>
        requires whole { length into.old % 512 ≡ 0 }
        requires some { 512 ≤ length into.old }
        requires inside { sector + length into.old / 512 ≤ self.old.geometry.backing_sectors }
        ensures ok { OnOk result ((base image : Image) (history : List HistoryEntry) → Told (B.state self.old.backing) image
            → Standing L.state B.state self.old base history
            → into.new ≡ bytes_at (after base history) sector (length into.old / 512)) }
        ensures stands { (base : Image) (history : List HistoryEntry) → Standing L.state B.state self.old base history
            → Standing L.state B.state self.new base history }
        ensures synced { IsSynced L.state B.state self.old → IsSynced L.state B.state self.new }
        ensures same { IsSameEngine self.old self.new }
        ensures log { OnlyRead (L.state self.old.log) (L.state self.new.log) }
        ensures backing { OnlyRead (B.state self.old.backing) (B.state self.new.backing) }
        ensures log_cause { CountsFaultsWhere (result ≡ Err Log) (L.state self.old.log).faults (L.state self.new.log).faults }
        ensures backing_cause { CountsFaultsWhere (result ≡ Err Backing) (B.state self.old.backing).faults (B.state self.new.backing).faults }
        ensures log_reads { (L.state self.new.log).reads
            ≤ (L.state self.old.log).reads + in_log self.old.numbers.logged self.old.memory.lookup sector (length into.old / 512) }
        ensures backing_reads { (B.state self.new.backing).reads
            ≤ (B.state self.old.backing).reads + on_backing self.old.memory.lookup sector (length into.old / 512) }
    {
        let count = into.len() / SECTOR_BYTES;
        let mut done = 0;
        while done < count {
            done += self.read_run(sector + done as u64, &mut into[SECTOR_BYTES * done..])?;
        }
        Ok(())
    }

    /// Reads the first sectors of these: as many as stand next to each other on the backing device, or in one block of a segment
    /// in the log, by one read there; or one sector in memory. Says how many they are.
    fn read_run(&mut self, sector: u64, into: &mut [u8]) -> Result<usize, Which>
        requires whole { length into.old % 512 ≡ 0 }
        requires some { 512 ≤ length into.old }
        requires inside { sector + length into.old / 512 ≤ self.old.geometry.backing_sectors }
        ensures some { IfOk result (λ count. 1 ≤ count) }
        ensures few { IfOk result (λ count. 512 * count ≤ length into.old) }
        ensures ok { IfOk result (λ count. (base image : Image) (history : List HistoryEntry) → Told (B.state self.old.backing) image
            → Standing L.state B.state self.old base history
            → take (512 * count) into.new ≡ bytes_at (after base history) sector count) }
        ensures size { length into.new ≡ length into.old }
        ensures room { self.old.geometry.backing_sectors ≤ (B.state self.old.backing).sectors }
        ensures same { IsSameEngine self.old self.new }
        ensures log { OnlyRead (L.state self.old.log) (L.state self.new.log) }
        ensures backing { OnlyRead (B.state self.old.backing) (B.state self.new.backing) }
        ensures log_cause { CountsFaultsWhere (result ≡ Err Log) (L.state self.old.log).faults (L.state self.new.log).faults }
        ensures backing_cause { CountsFaultsWhere (result ≡ Err Backing) (B.state self.old.backing).faults (B.state self.new.backing).faults }
        ensures log_reads { (L.state self.new.log).reads ≤ (L.state self.old.log).reads + in_log self.old.numbers.logged self.old.memory.lookup sector 1 }
        ensures backing_reads { (B.state self.new.backing).reads ≤ (B.state self.old.backing).reads + on_backing self.old.memory.lookup sector 1 }
    {
        let most = into.len() / SECTOR_BYTES;
        let (block, index) = (sector / 8, (sector % 8) as u8);
        match self.memory.newest(block, index) {
            Newest::Here(bytes) => {
                into[..SECTOR_BYTES].copy_from_slice(bytes);
                Ok(1)
            }
            Newest::Logged(spot) => {
                let count = run_of(&self.memory, spot, sector, most.min(8 - usize::from(index)));
                let piece = &mut into[..SECTOR_BYTES * count];
                match read_sectors(&mut self.log, &self.geometry, spot, index, piece) {
                    Ok(()) => Ok(count),
                    Err(DeviceFault) => Err(Which::Log),
                }
            }
            Newest::Backing => {
                let count = run_of(&self.memory, NOWHERE, sector, most);
                match self.backing.read(sector, &mut into[..SECTOR_BYTES * count]) {
                    Ok(()) => Ok(count),
                    Err(DeviceFault) => Err(Which::Backing),
                }
            }
        }
    }
}

/// How many sectors from this one on, which has the spot, have the same: at least one, and at most so many.
fn run_of(memory: &Memory, spot: Spot, sector: u64, most: usize) -> usize
    requires some { 1 ≤ most }
    requires small { sector + most ≤ 2 ^ 40 }
    ensures some { 1 ≤ result }
    ensures few { result ≤ most }
    ensures same { (j : ℕ) → 1 ≤ j → j < result → spot_in memory.now.lookup ((sector + j) / 8) ((sector + j) % 8) ≡ spot }
{
    for count in 1..most {
        if spot_of(memory, sector + count as u64) != spot {
            return count;
        }
    }
    most
}

/// The spot of a sector.
fn spot_of(memory: &Memory, sector: u64) -> Spot
    ensures { result ≡ spot_in memory.now.lookup (sector / 8) (sector % 8) }
{
    memory.spots(sector / 8)[(sector % 8) as usize]
}
