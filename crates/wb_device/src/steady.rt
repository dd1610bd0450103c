//! A device in memory that never fails.
ghost use Rattle.std.specs.Prelude.{◌≡◌, ◌%◌, length};

use crate::{Device, DeviceFault};
use std::alloc::Global;

const SECTOR_BYTES: usize = 512;

/// A device in memory that never fails. It tells its content and no crash images, and takes no memory of its own.
#[derive(Debug, Drop)]
pub struct SteadyDevice {
    bytes: Vec<u8>,
    syncs: u64,
    reads: u64,
    ghost whole: { length bytes.items % 512 ≡ 0 },
}

impl SteadyDevice {
    ghost use Rattle.std.specs.Prelude.{◌≡◌, Some, length};
    ghost use Rattle.wb_geometry.specs.Image.{sectors_of};
    ghost use Rattle.wb_device.specs.Steady.{steady_state};
    ghost use Rattle.wb_device.specs.Unused.{IsUnused};

    /// A device with the whole sectors of these bytes; what is left over behind them is dropped.
    pub fn of(mut bytes: Vec<u8>) -> SteadyDevice
        ensures content { (steady_state result).content ≡ Some (sectors_of bytes.items) }
        ensures unused { IsUnused (steady_state result) }
    {
        let whole = bytes.len() - bytes.len() % SECTOR_BYTES;
        bytes.truncate(whole);
        SteadyDevice {
            bytes,
            syncs: 0,
            reads: 0,
        }
    }

    /// The bytes of all sectors.
    pub fn bytes(&self) -> &[u8]
        ensures content { (steady_state self.now).content ≡ Some (sectors_of result.now) }
        ensures whole { length result.now % 512 ≡ 0 }
    {
        self.bytes.as_slice()
    }

    /// The bytes of all sectors, given back.
    pub fn into_bytes(self) -> Vec<u8>
        ensures content { (steady_state self).content ≡ Some (sectors_of result.items) }
        ensures whole { length result.items % 512 ≡ 0 }
    {
        let SteadyDevice { bytes, .. } = self;
        bytes
    }
}

impl Device for SteadyDevice {
    ghost use Rattle.wb_device.specs.Steady.{steady_state, steady_is_device};

    ghost state = { steady_state };

    ghost sound = { steady_is_device };

    fn sectors(&self) -> u64 {
        (self.bytes.len() / SECTOR_BYTES) as u64
    }

    fn read(&mut self, at: u64, into: &mut [u8]) -> Result<(), DeviceFault> {
        let start = at as usize * SECTOR_BYTES;
        into.copy_from_slice(&self.bytes[start..start + into.len()]);
        self.reads = self.reads.saturating_add(1);
        Ok(())
    }

    fn write(&mut self, at: u64, bytes: &[u8]) -> Result<(), DeviceFault> {
        let start = at as usize * SECTOR_BYTES;
        self.bytes[start..start + bytes.len()].copy_from_slice(bytes);
        Ok(())
    }

    fn sync(&mut self) -> Result<(), DeviceFault> {
        self.syncs = self.syncs.saturating_add(1);
        Ok(())
    }
}
