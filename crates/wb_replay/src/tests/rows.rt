//! What recovery answers, and what it leaves.
use super::{Image, NEW, SECTOR_BYTES, TORN, backing_of, lay, log_of};
use crate::{RecoverStop, Recovery, recover};
use std::alloc::Global;
use std::process::Abort;
use std::test::Fail;
use wb_device::SteadyDevice;
use wb_header::Refused;
use wb_super::SuperRefused;

/// An id above 32 bits, and the greatest record that is taken.
const LATE: u64 = 0x0012_3456_789c;

const MOST: u64 = 1 << 62;

/// A log, the segments that are put, and the refusal that ends the chain; none stands for that of a checksum.
type Row<'a> = (Image<'a>, &'a [u64], Option<Refused>);

const ROWS: [Row<'static>; 12] = [
    (NEW, &[], Some(Refused::Id(0))),
    (TORN, &[1, 2], None),
    // the first is missing
    (
        Image {
            whole: &[2, 3],
            ..NEW
        },
        &[],
        Some(Refused::Id(0)),
    ),
    // the record is in the middle of what is there
    (
        Image {
            recorded: 4,
            whole: &[3, 4, 5, 6],
            ..NEW
        },
        &[5, 6],
        Some(Refused::Id(3)),
    ),
    // a segment in each slot
    (
        Image {
            recorded: 6,
            whole: &[7, 8, 9, 10],
            ..NEW
        },
        &[7, 8, 9, 10],
        Some(Refused::Id(7)),
    ),
    // the last of them is torn
    (
        Image {
            recorded: 4,
            whole: &[5, 6, 7],
            torn: Some(8),
            named: None,
        },
        &[5, 6, 7],
        None,
    ),
    // the first is
    (
        Image {
            recorded: 4,
            whole: &[6, 7, 8],
            torn: Some(5),
            named: None,
        },
        &[],
        None,
    ),
    (
        Image {
            recorded: LATE,
            whole: &[LATE + 1, LATE + 2, LATE + 3],
            ..NEW
        },
        &[LATE + 1, LATE + 2, LATE + 3],
        Some(Refused::Id(0)),
    ),
    (
        Image {
            recorded: (1 << 48) - 8,
            whole: &[(1 << 48) - 7],
            ..NEW
        },
        &[(1 << 48) - 7],
        Some(Refused::Id(0)),
    ),
    (
        Image {
            recorded: MOST,
            whole: &[MOST + 1, MOST + 2, MOST + 3, MOST + 4],
            ..NEW
        },
        &[MOST + 1, MOST + 2, MOST + 3, MOST + 4],
        Some(Refused::Id(MOST + 1)),
    ),
    // the highest id that isn't stray
    (
        Image {
            whole: &[1],
            named: Some((3, 4)),
            ..NEW
        },
        &[1],
        Some(Refused::Id(0)),
    ),
    // an id without a text
    (
        Image {
            named: Some((0, 1)),
            ..NEW
        },
        &[],
        Some(Refused::Length(0)),
    ),
];

/// Whether a checksum was refused.
fn is_torn(found: Refused) -> bool {
    match found {
        Refused::Sum { stored, computed } => stored != computed,
        _ => false,
    }
}

/// Whether the chain was ended so.
fn is_ended(found: Refused, wanted: Option<Refused>) -> bool {
    match wanted {
        Some(wanted) => found == wanted,
        None => is_torn(found),
    }
}

/// Whether so many segments behind this record were put, of a log of four slots.
fn is_counted(found: &Recovery, recorded: u64, count: usize) -> bool {
    found.from == recorded.saturating_add(1)
        && found.through == recorded.saturating_add(count as u64)
        && found.recorded == recorded.saturating_add(4)
}

/// Recovers these images, and says whether that is as in the row. Of the log only the record changes.
fn recovers(
    alloc: Global,
    log: &mut SteadyDevice,
    backing: &mut SteadyDevice,
    row: &Row<'_>,
) -> Result<bool, Fail> {
    let (image, put, stopped) = row;
    let Ok(found) = recover(alloc, log, backing) else {
        return Ok(false);
    };
    let recorded = image.recorded.saturating_add(4);
    let new_log = log_of(alloc, &Image { recorded, ..*image })?;
    let new_backing = backing_of(alloc, put)?;
    Ok(
        is_counted(&found, image.recorded, put.len())
            && is_ended(found.stopped, *stopped)
            && log.bytes() == new_log.as_slice()
            && backing.bytes() == new_backing.as_slice(),
    )
}

/// Whether a log is recovered as in the row.
fn is_row(alloc: Global, row: &Row<'_>) -> Result<bool, Fail> {
    let mut log = SteadyDevice::of(log_of(alloc, &row.0)?);
    let mut backing = SteadyDevice::of(backing_of(alloc, &[])?);
    recovers(alloc, &mut log, &mut backing, row)
}

/// The row holds.
fn holds(rt: &impl Abort, holds: bool, at: usize) {
    assert!(rt; holds, "row {at}");
}

#[test]
fn the_segments_of_the_chain_are_put(rt: HostRuntime) -> Result<(), Fail> {
    for (at, row) in ROWS.iter().enumerate() {
        holds(&rt, is_row(rt.alloc(), row)?, at);
    }
    Ok(())
}

/// Whether it is recovered twice: the second time there is no segment behind the record.
fn is_recovered_twice(alloc: Global) -> Result<bool, Fail> {
    let mut log = SteadyDevice::of(log_of(alloc, &TORN)?);
    let mut backing = SteadyDevice::of(backing_of(alloc, &[])?);
    let first = recover(alloc, &mut log, &mut backing);
    let second = recover(alloc, &mut log, &mut backing);
    let put = backing_of(alloc, &[1, 2])?;
    let nothing = Recovery {
        from: 5,
        through: 4,
        recorded: 8,
        stopped: Refused::Id(1),
    };
    Ok(first.is_ok() && second == Ok(nothing) && backing.bytes() == put.as_slice())
}

#[test]
fn nothing_is_put_again(rt: HostRuntime) -> Result<(), Fail> {
    assert!(rt; is_recovered_twice(rt.alloc())?);
    Ok(())
}

/// Logs that aren't recovered, with sectors of the backing device.
const REFUSED: [(Image<'static>, usize, RecoverStop); 6] = [
    // an id too high, by one and by more
    (
        Image {
            named: Some((3, 5)),
            ..NEW
        },
        64,
        RecoverStop::Stray { slot: 3, id: 5 },
    ),
    (
        Image {
            whole: &[1, 2],
            named: Some((3, 9)),
            ..NEW
        },
        64,
        RecoverStop::Stray { slot: 3, id: 9 },
    ),
    // in each slot
    (
        Image {
            whole: &[5, 6, 7, 8],
            ..NEW
        },
        64,
        RecoverStop::Stray { slot: 0, id: 5 },
    ),
    // behind segments that could be put
    (
        Image {
            recorded: LATE,
            whole: &[LATE + 1, LATE + 2, LATE + 7],
            ..NEW
        },
        64,
        RecoverStop::Stray {
            slot: 2,
            id: LATE + 7,
        },
    ),
    (
        Image {
            recorded: MOST + 1,
            ..NEW
        },
        64,
        RecoverStop::Super(SuperRefused::Record(MOST + 1)),
    ),
    (TORN, 63, RecoverStop::Backing { needs: 64, has: 63 }),
];

/// Whether recovery of this log answers so, and leaves both images.
fn is_refused(
    alloc: Global,
    bytes: &[u8],
    sectors: usize,
    stop: RecoverStop,
) -> Result<bool, Fail> {
    let mut former = backing_of(alloc, &[])?;
    former.truncate(SECTOR_BYTES.saturating_mul(sectors));
    let mut log = SteadyDevice::of(Vec::from_slice(alloc, bytes)?);
    let mut backing = SteadyDevice::of(Vec::from_slice(alloc, former.as_slice())?);
    let answer = recover(alloc, &mut log, &mut backing);
    Ok(answer == Err(stop) && log.bytes() == bytes && backing.bytes() == former.as_slice())
}

#[test]
fn a_bad_log_is_refused(rt: HostRuntime) -> Result<(), Fail> {
    for (at, (image, sectors, stop)) in REFUSED.iter().enumerate() {
        let bytes = log_of(rt.alloc(), image)?;
        let refused = is_refused(rt.alloc(), bytes.as_slice(), *sectors, *stop)?;
        holds(&rt, refused, at);
    }
    Ok(())
}

#[test]
fn a_bad_superblock_is_refused(rt: HostRuntime) -> Result<(), Fail> {
    let mut bytes = log_of(rt.alloc(), &TORN)?;
    lay(bytes.as_mut_slice(), 0, &[0]);
    let stop = RecoverStop::Super(SuperRefused::Magic);
    assert!(rt; is_refused(rt.alloc(), bytes.as_slice(), 64, stop)?);
    Ok(())
}
