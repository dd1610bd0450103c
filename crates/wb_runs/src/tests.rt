//! A block over a device in memory: the calls that it takes, and what it leaves.
use crate::write_block;
use std::alloc::Global;
use std::test::Fail;
use wb_device::{Device, DeviceCall, ListingDevice, SteadyDevice};

const SECTOR_BYTES: usize = 512;

/// A device of two blocks of zeros, with room to list eight calls.
fn zeros(alloc: Global) -> Result<ListingDevice<SteadyDevice>, Fail> {
    let bytes = vec![in alloc; 0; 16 * SECTOR_BYTES]?;
    Ok(ListingDevice::over(alloc, SteadyDevice::of(bytes), 8)?)
}

/// Dirty bits of the second block, and the writes that it takes: for each the first sector and how many.
const ROWS: [(u8, &[(u64, u64)]); 5] = [
    (0b0000_0000, &[]),
    (0b0000_0001, &[(8, 1)]),
    (0b1111_1111, &[(8, 8)]),
    (0b0101_1010, &[(9, 1), (11, 2), (14, 1)]),
    (0b1000_0110, &[(9, 2), (15, 1)]),
];

/// Whether a device was written so, and to these sectors of the second block alone.
fn is_written(device: &ListingDevice<SteadyDevice>, bits: u8, runs: &[(u64, u64)]) -> bool {
    let calls = device.calls().iter();
    let sectors = device.inner().bytes().chunks_exact(SECTOR_BYTES);
    device.calls().len() == runs.len()
        && calls.zip(runs).all(|(call, (at, sectors))| *call
            == DeviceCall::Write {
                at: *at,
                sectors: *sectors,
            })
        && sectors.enumerate().all(|(sector, bytes)| {
            let dirty = sector >= 8 && bits >> (sector % 8) & 1 == 1;
            bytes == [if dirty { 0x77 } else { 0 }; SECTOR_BYTES].as_slice()
        })
}

/// Whether a block with these dirty bits is written so.
fn is_row(alloc: Global, bits: u8, runs: &[(u64, u64)]) -> Result<bool, Fail> {
    let mut device = zeros(alloc)?;
    if device.sectors() < 16 {
        return Ok(false);
    }
    write_block(&mut device, 1, bits, &[0x77; 4096])?;
    Ok(is_written(&device, bits, runs))
}

#[test]
fn a_block_is_written_run_by_run(rt: HostRuntime) -> Result<(), Fail> {
    for (bits, runs) in &ROWS {
        assert!(rt; is_row(rt.alloc(), *bits, runs)?);
    }
    Ok(())
}
