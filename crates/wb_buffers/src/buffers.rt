//! The bytes of requests.
ghost use Rattle.std.specs.Prelude.{◌≡◌, ◌%◌, ◌≤◌, length, IfOk, OnOk};
ghost use Rattle.wb_sum.specs.Crc32c.{sum_of};
ghost use Rattle.wb_script.specs.Patterns.{repeated};

use std::alloc::{AllocError, Global};
use wb_sum::Sum;

/// The most bytes of a request: 256 sectors.
pub const MOST_BYTES: usize = 131_072;

/// Room for the bytes that a read shows, and for those that a write puts.
#[derive(Drop)]
pub struct Buffers {
    pub shown: Vec<u8>,
    pub written: Vec<u8>,
}

impl Buffers {
    /// Room for the largest request.
    pub fn new(alloc: Global) -> Result<Buffers, AllocError>
        ensures { IfOk result (λ buffers. length buffers.shown.items ≡ MOST_BYTES) }
    {
        Ok(Buffers {
            shown: vec![in alloc; 0; MOST_BYTES]?,
            written: Vec::with_capacity(alloc, MOST_BYTES)?,
        })
    }
}

/// The bytes of a pattern, repeated to so many, which are a multiple of its own. An `Err` is want of memory.
pub fn repeat(bytes: &mut Vec<u8>, pattern: &[u8], size: usize) -> Result<(), AllocError>
    requires some { 1 ≤ length pattern.now }
    requires whole { size % length pattern.now ≡ 0 }
    ensures { OnOk result (bytes.new.items ≡ repeated pattern.now size) }
{
    bytes.clear();
    if let [byte] = pattern {
        return bytes.resize(size, *byte);
    }
    for _ in 0..size / pattern.len() {
        bytes.extend_from_slice(pattern)?;
    }
    Ok(())
}

/// The checksum of the bytes.
pub fn sum_of(bytes: &[u8]) -> u32
    ensures { result ≡ sum_of bytes.now }
{
    let mut sum = Sum::new();
    sum.update(bytes);
    sum.finish()
}
