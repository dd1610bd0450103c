//! Texts of segments, by their bytes.
ghost use Rattle.std.specs.Prelude.{◌≡◌, ◌≤◌, ◌+◌, ◌*◌, IfOk, length};

use crate::{Cached, Found, Refused, Sealed, check, encode};
use std::alloc::{AllocError, Global};
use std::process::Abort;
use std::test::Fail;
use wb_geometry::{Block, Part};

/// The id of the segments.
const ID: u64 = 0x0102;

/// The number of the first block; the others follow.
const FIRST: u64 = 0x0807_0605_0403_0201;

/// A segment of so many blocks, each with its first sector of bytes 0xaa.
fn segment_of(alloc: Global, count: u64) -> Result<Sealed, AllocError>
    requires some { 1 ≤ count }
    requires few { count ≤ 127 }
    ensures { IfOk result (λ segment. length segment.blocks ≡ count) }
{
    let part = Part {
        block: 0,
        from: 0,
        count: 1,
    };
    let mut blocks = Vec::new(alloc);
    for index in 0..count {
        let payload = Block::boxed(alloc, &part, &[0xaa; 512])?;
        let block = FIRST + index;
        blocks.push(Cached { block, payload })?;
    }
    Ok(Sealed::of(ID, blocks))
}

/// Whether all of these bytes are this one.
fn are_all(bytes: &[u8], byte: u8) -> bool {
    bytes.iter().all(|found| *found == byte)
}

/// The text of one block, and behind it what was there before.
fn is_one_block(rt: &impl Abort, bytes: &[u8])
    requires { length bytes.now ≡ 8200 }
{
    assert!(rt; bytes.starts_with(b"\x02\x01\0\0\0\0\0\0\xe1\x7f\x66\xe8\x01"));
    assert!(rt; are_all(&bytes[13..512], 0));
    assert!(rt; bytes[512..].starts_with(b"\x01\x02\x03\x04\x05\x06\x07\x08\x01"));
    assert!(rt; are_all(&bytes[521..4096], 0));
    assert!(rt; are_all(&bytes[4096..4608], 0xaa));
    assert!(rt; are_all(&bytes[4608..8192], 0));
    assert!(rt; are_all(&bytes[8192..], 0x55));
}

/// A segment of one block is written.
fn write_one(rt: &impl Abort, segment: &Sealed, bytes: &mut [u8])
    requires one { length segment.now.blocks ≡ 1 }
    requires size { length bytes.old ≡ 8200 }
{
    assert!(rt; encode(segment, bytes) == 8192);
    is_one_block(rt, bytes);
}

#[test]
fn the_bytes_of_a_segment_of_one_block(rt: HostRuntime) -> Result<(), AllocError> {
    let segment = segment_of(rt.alloc(), 1)?;
    let mut bytes = vec![in rt.alloc(); 0x55; 8200]?;
    write_one(&rt, &segment, bytes.as_mut_slice());
    Ok(())
}

/// The header of a full segment, and its last block.
fn is_full(rt: &impl Abort, bytes: &[u8])
    requires { length bytes.now ≡ 524288 }
{
    assert!(rt; bytes.starts_with(b"\x02\x01\0\0\0\0\0\0\x83\x03\x90\xc2\x7f\0"));
    let (header, blocks) = bytes.split_at(4096);
    assert!(rt; header[2528..].starts_with(b"\x7f\x02\x03\x04\x05\x06\x07\x08\x01\0"));
    let (written, blank) = blocks[126 * 4096..].split_at(512);
    assert!(rt; are_all(written, 0xaa));
    assert!(rt; are_all(blank, 0));
}

/// What was found is a segment.
fn is_found(rt: &impl Abort, segment: &Sealed, found: &Found<'_>)
    requires { length segment.now.blocks ≡ 127 }
{
    assert!(rt; found.length() == 127);
    for index in 0..found.length() {
        assert!(rt; found.entry(index) == segment.meta(index.into()));
        assert!(rt; found.payload(index) == segment.payload(index.into()));
    }
}

/// A full segment is written, and its text taken.
fn write_full(rt: &impl Abort, segment: &Sealed, bytes: &mut [u8]) -> Result<(), Refused>
    requires full { length segment.now.blocks ≡ 127 }
    requires size { length bytes.old ≡ 524288 }
{
    assert!(rt; encode(segment, bytes) == 524_288);
    is_full(rt, bytes);
    let found = check(bytes, ID, u64::MAX)?;
    is_found(rt, segment, &found);
    Ok(())
}

#[test]
fn a_full_segment_is_written_and_taken(rt: HostRuntime) -> Result<(), Fail> {
    let segment = segment_of(rt.alloc(), 127)?;
    let mut bytes = vec![in rt.alloc(); 0x55; 524_288]?;
    write_full(&rt, &segment, bytes.as_mut_slice())?;
    Ok(())
}
