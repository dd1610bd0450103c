//! Tests of the top call over devices in memory. What needs no more than words, an input and images is shown by
//! examples/*.commands, with the program.
mod case;
mod changes;
mod commands;
mod cuts;
mod faults;
mod flushes;
mod seeded;
mod streams;
mod threads;
mod workload;
mod wrapping;

use crate::{Outcome, run_single};
use std::alloc::{AllocError, Global};
use std::test::Fail;
use wb_device::{Device, MemorySink, MemorySource, SteadyDevice};
use wb_geometry::Geometry;
use wb_super::format;

const SECTOR_BYTES: usize = 512;

/// The bytes of the backing devices. Each of them is 5a before a session.
const BACKING_BYTES: usize = 64 * SECTOR_BYTES;

/// The words of a command line.
fn words_of(alloc: Global, line: &str) -> Result<Vec<String>, AllocError> {
    line.split_ascii_whitespace()
        .map(|word| String::from_str(alloc, word))
        .try_collect(alloc)
}

/// The bytes of an empty log of so many slots of an order, for 64 backing sectors.
fn empty_log(alloc: Global, order: u32, slots: u32) -> Result<Vec<u8>, Fail> {
    log_of(alloc, &Geometry::new(order, slots, 2, 64)?)
}

/// The bytes of an empty log of this geometry.
fn log_of(alloc: Global, geometry: &Geometry) -> Result<Vec<u8>, Fail> {
    let sectors = geometry.log_sectors() as usize;
    let mut log = SteadyDevice::of(vec![in alloc; 0x5a; sectors * SECTOR_BYTES]?);
    format(&mut log, geometry)?;
    Ok(log.into_bytes())
}

/// Runs these words over these devices, with this script in a source and to a sink that don't fail.
fn run<L: Device, B: Device>(
    alloc: Global,
    words: &str,
    script: &str,
    log: L,
    backing: B,
) -> Result<(Outcome<L, B>, MemorySink), AllocError> {
    let words = words_of(alloc, words)?;
    let mut source = MemorySource::of(Vec::from_slice(alloc, script.as_bytes())?, None);
    let mut sink = MemorySink::new(alloc, None);
    let outcome = run_single(alloc, &words, &mut source, &mut sink, log, backing);
    Ok((outcome, sink))
}
