//! The adapter over files.
ghost use Rattle.std.specs.Prelude.{◌≡◌, ◌*◌, ◌<◌, ◌^◌, ◌↔◌, IsTrue, IsOk};
ghost use Rattle.wb_geometry.specs.Device.{CountsFaults};

use crate::{Device, DeviceFault};
use std::fs::{File, OpenOptions};
use std::os::unix::fs::FileExt;
use std::rt::Files;

const SECTOR_BYTES: u64 = 512;

/// A device over an image file. It tells neither its content nor what a crash may leave. A file that can't be opened
/// for reading and writing is a device of 0 sectors.
///
/// Offsets end at `2 ^ 63 - 1` bytes: the system refuses those past it, so there a read or a write is a fault.
#[derive(Drop)]
pub struct FileDevice {
    file: Option<File>,
    sectors: u64,
    faults: u64,
    syncs: u64,
    reads: u64,
    ghost bytes_fit: { sectors * 512 < 2 ^ 64 },
}

impl FileDevice {
    ghost use Rattle.wb_device.specs.File.{file_state};
    ghost use Rattle.wb_device.specs.Unused.{IsUnused};

    /// A device over the file at this path, of as many sectors as the file has whole.
    pub fn open<R: Files<File = File>>(rt: &R, path: &str) -> FileDevice
        ensures { IsUnused (file_state result) }
    {
        let file = OpenOptions::new()
            .read(true)
            .write(true)
            .open(rt, path)
            .ok();
        let bytes = match &file {
            Some(file) => file.metadata().map_or(0, |metadata| metadata.len()),
            None => 0,
        };
        FileDevice {
            file,
            sectors: bytes / SECTOR_BYTES,
            faults: 0,
            syncs: 0,
            reads: 0,
        }
    }

    // The answer of a call, which counts a fault where the call isn't done.
    fn ended(&mut self, done: bool) -> Result<(), DeviceFault>
        ensures done { IsOk result ↔ IsTrue done }
        ensures cause { CountsFaults self.old.faults self.new.faults result }
        ensures others { self.new ≡ record self.old { faults = self.new.faults } }
    {
        if done {
            return Ok(());
        }
        self.faults = self.faults.saturating_add(1);
        Err(DeviceFault)
    }
}

impl Device for FileDevice {
    ghost use Rattle.wb_device.specs.File.{file_state, file_is_device};

    ghost state = { file_state };

    ghost sound = { file_is_device };

    fn sectors(&self) -> u64 {
        self.sectors
    }

    fn read(&mut self, at: u64, into: &mut [u8]) -> Result<(), DeviceFault> {
        self.reads = self.reads.saturating_add(1);
        let done = match &self.file {
            Some(file) => file.read_exact_at(into, at * SECTOR_BYTES).is_ok(),
            None => false,
        };
        self.ended(done)
    }

    fn write(&mut self, at: u64, bytes: &[u8]) -> Result<(), DeviceFault> {
        let done = match &self.file {
            Some(file) => file.write_all_at(bytes, at * SECTOR_BYTES).is_ok(),
            None => false,
        };
        self.ended(done)
    }

    fn sync(&mut self) -> Result<(), DeviceFault> {
        let done = match &self.file {
            Some(file) => file.sync_data().is_ok(),
            None => false,
        };
        if done {
            self.syncs = self.syncs.saturating_add(1);
        }
        self.ended(done)
    }
}
