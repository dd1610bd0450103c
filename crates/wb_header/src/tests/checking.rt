//! What a text of two blocks says, and why each change of it is refused.
ghost use Rattle.std.specs.Prelude.{◌≡◌, length};

use crate::{Found, Meta, Refused, check, header_id};
use std::alloc::{AllocError, Global};
use std::process::Abort;
use std::test::Fail;

const ROOM: usize = 3;

const BLOCKS: u64 = 8;

// Worked out by another program.
const SUM: u32 = 0xd5e2_8417;

/// Segment 5 with block 0, whose sector 0 is dirty, and block 7, whose sectors 1 and 7 are. A byte stands behind it.
const TEXT: [(usize, u8); 13] = [
    (0, 5),
    (8, 0x17),
    (9, 0x84),
    (10, 0xe2),
    (11, 0xd5),
    (12, 2),
    (520, 0x01),
    (528, 7),
    (536, 0x82),
    (4096, 0x11),
    (8704, 0x22),
    (12287, 0x33),
    (12288, 0x44),
];

/// Puts bytes into their places.
fn put(bytes: &mut [u8], text: &[(usize, u8)]) {
    for (at, byte) in text {
        if let Some(place) = bytes.get_mut(*at) {
            *place = *byte;
        }
    }
}

/// Zeros with the text over them, and a change over that.
fn slot(alloc: Global, change: &[(usize, u8)]) -> Result<Vec<u8>, AllocError> {
    let mut bytes = vec![in alloc; 0; 4096 * (1 + ROOM)]?;
    put(bytes.as_mut_slice(), &TEXT);
    put(bytes.as_mut_slice(), change);
    Ok(bytes)
}

/// The entry of a block that was found.
fn has_entry(found: &Found<'_>, index: u8, block: u64, bits: u8) -> bool {
    index < found.length() && found.entry(index) == Meta { block, bits }
}

/// The bytes of a block that was found.
fn has_payload(found: &Found<'_>, index: u8, payload: &[u8]) -> bool {
    index < found.length() && found.payload(index) == payload
}

/// What was found is the text.
fn is_the_text(rt: &impl Abort, found: &Found<'_>, bytes: &[u8])
    requires { length bytes.now ≡ 16384 }
{
    assert!(rt; found.id() == 5);
    assert!(rt; found.sum() == SUM);
    assert!(rt; found.length() == 2);
    assert!(rt; has_entry(found, 0, 0, 0x01));
    assert!(rt; has_entry(found, 1, 7, 0x82));
    assert!(rt; has_payload(found, 0, &bytes[4096..8192]));
    assert!(rt; has_payload(found, 1, &bytes[8192..12288]));
}

/// The bytes are taken, as what the text says.
fn take(rt: &impl Abort, bytes: &[u8]) -> Result<(), Refused> {
    assert!(rt; bytes.len() == 16_384);
    assert!(rt; header_id(bytes) == 5);
    let found = check(bytes, 5, BLOCKS)?;
    is_the_text(rt, &found, bytes);
    Ok(())
}

#[test]
fn a_text_is_taken(rt: HostRuntime) -> Result<(), Fail> {
    let bytes = slot(rt.alloc(), &[])?;
    take(&rt, bytes.as_slice())?;
    Ok(())
}

/// A change of the text, and the cause that is told.
type Row<'a> = (&'a [(usize, u8)], Refused);

const CHANGES: [Row<'static>; 19] = [
    (&[(0, 1)], Refused::Id(1)),
    (&[(7, 1)], Refused::Id(0x0100_0000_0000_0005)),
    (&[(12, 0)], Refused::Length(0)),
    (&[(12, 4)], Refused::Length(4)),
    (&[(13, 1), (4608, 1)], Refused::Zeros(13)),
    (&[(511, 1)], Refused::Zeros(511)),
    (&[(521, 1)], Refused::Zeros(521)),
    (&[(544, 1)], Refused::Zeros(544)),
    (&[(4608, 1), (520, 1)], Refused::Zeros(4608)),
    (&[(8192, 1), (536, 0x80)], Refused::Zeros(8192)),
    (&[(512, 8)], Refused::Entry(0)),
    (&[(536, 0), (8704, 0), (12287, 0)], Refused::Entry(1)),
    (&[(528, 0)], Refused::Repeated(1)),
    (
        &[(11, 0xd4)],
        Refused::Sum {
            stored: 0xd4e2_8417,
            computed: SUM,
        },
    ),
    // two causes at once, of which the first is told
    (&[(0, 1), (12, 0)], Refused::Id(1)),
    (&[(12, 0), (13, 1)], Refused::Length(0)),
    (&[(13, 1), (512, 8)], Refused::Zeros(13)),
    (&[(512, 8), (528, 8)], Refused::Entry(0)),
    (&[(528, 0), (11, 0xd4)], Refused::Repeated(1)),
];

/// The bytes are refused for the cause of a row.
fn is_refused(rt: &impl Abort, bytes: &[u8], row: &Row<'_>) {
    let (change, refused) = *row;
    assert!(rt; bytes.len() == 16_384);
    let found = check(bytes, 5, BLOCKS).err();
    assert!(rt; found == Some(refused), "at {change:?}: {found:?}");
}

/// The text with the change of a row.
fn refuse(rt: &impl Abort, alloc: Global, row: &Row<'_>) -> Result<(), AllocError> {
    let bytes = slot(alloc, row.0)?;
    is_refused(rt, bytes.as_slice(), row);
    Ok(())
}

#[test]
fn a_change_is_refused(rt: HostRuntime) -> Result<(), AllocError> {
    for row in &CHANGES {
        refuse(&rt, rt.alloc(), row)?;
    }
    Ok(())
}

// The places of zeros: behind the length, behind the bits of both entries, behind the entries, and the sectors that aren't
// dirty.
const ZEROS: [(usize, usize); 5] = [
    (13, 512),
    (521, 528),
    (537, 4096),
    (4608, 8704),
    (9216, 11_776),
];

/// Whether the text is refused for this byte where it isn't zero.
fn is_looked_at(bytes: &mut [u8], at: usize) -> bool {
    if bytes.len() != 16_384 || at >= 16_384 {
        return false;
    }
    bytes[at] = 1;
    let found = check(bytes, 5, BLOCKS).err();
    bytes[at] = 0;
    found == Some(Refused::Zeros(at))
}

/// Each byte from `from` to before `to` is looked at.
fn are_looked_at(rt: &impl Abort, bytes: &mut [u8], from: usize, to: usize) {
    for at in from..to {
        assert!(rt; is_looked_at(bytes, at), "at {at}");
    }
}

#[test]
fn each_byte_that_must_be_zero_is_looked_at(rt: HostRuntime) -> Result<(), AllocError> {
    let mut bytes = slot(rt.alloc(), &[])?;
    for (from, to) in &ZEROS {
        are_looked_at(&rt, bytes.as_mut_slice(), *from, *to);
    }
    Ok(())
}
