//! Plans over a device in memory: the calls that they take, what they leave, and what a call that fails leaves.
ghost use Rattle.std.specs.Prelude.{◌≡◌, [], IfOk};
ghost use Rattle.wb_back.specs.Plans.{IsArranged, AreInside};

use crate::plan::BLOCK_BYTES;
use crate::{Plan, apply};
use std::alloc::{AllocError, Global};
use std::process::Abort;
use wb_device::{Device, FaultPlan, MemoryDevice, PlannedFault};
use wb_header::Meta;

const SECTOR_BYTES: usize = 512;

/// The sectors of the device, which are four blocks.
const SECTORS: usize = 32;

/// The byte that the device is full of at first.
const FORMER: u8 = 0x5a;

/// A block that is added: its number, its dirty bits, and the byte of its first sector. Each further sector has the next
/// byte.
type Added = (u64, u8, u8);

/// What is added one after another, and the calls that it takes to write it.
type Row<'a> = (&'a [Added], u64);

const ROWS: [Row<'static>; 8] = [
    (&[], 1),
    (&[(1, 0b0000_0000, 0x10)], 1),
    (&[(1, 0b0000_0001, 0x10)], 2),
    (&[(0, 0b1111_1111, 0x20)], 2),
    (&[(2, 0b0101_1010, 0x30)], 4),
    (&[(3, 0b1000_0001, 0x40), (1, 0b0001_1000, 0x50)], 4),
    (&[(2, 0b0000_1110, 0x60), (2, 0b0011_1000, 0x70)], 2),
    (
        &[
            (2, 0b0000_1111, 0x80),
            (0, 0b1000_0000, 0x90),
            (2, 0b0001_1000, 0xa0),
        ],
        3,
    ),
];

/// The bytes of a block by the byte of its first sector.
fn payload_of(first: u8) -> [u8; BLOCK_BYTES] {
    let mut payload = [0; BLOCK_BYTES];
    for index in 0..8_u8 {
        let start = SECTOR_BYTES * usize::from(index);
        payload[start..start + SECTOR_BYTES].fill(first.wrapping_add(index));
    }
    payload
}

/// Adds blocks to an empty plan and arranges it.
fn fill(rt: &impl Abort, plan: &mut Plan, added: &[Added])
    requires { plan.old.blocks ≡ [] }
    ensures arranged { IsArranged plan.new.blocks }
    ensures inside { AreInside 32 plan.new.blocks }
{
    for (block, bits, first) in added {
        assert!(rt; *block < 4);
        assert!(rt; plan.spare() > 0);
        let meta = Meta {
            block: *block,
            bits: *bits,
        };
        plan.add(&meta, &payload_of(*first));
    }
    plan.arrange();
}

/// Puts the dirty sectors of a block that is added over these bytes.
fn put(bytes: &mut [u8], added: &Added) {
    let (block, bits, first) = *added;
    for (at, sector) in bytes.chunks_exact_mut(SECTOR_BYTES).enumerate() {
        if at as u64 / 8 == block && bits >> (at % 8) & 1 == 1 {
            sector.fill(first.wrapping_add((at % 8) as u8));
        }
    }
}

/// What the device holds after all that was added.
fn image_after(alloc: Global, added: &[Added]) -> Result<Vec<u8>, AllocError> {
    let mut bytes = vec![in alloc; FORMER; SECTORS * SECTOR_BYTES]?;
    for one in added {
        put(bytes.as_mut_slice(), one);
    }
    Ok(bytes)
}

/// A device of which one call fails, where that is planned.
fn device_of(alloc: Global, fault: Option<PlannedFault>) -> Result<MemoryDevice, AllocError> {
    let faults = Vec::from_slice(alloc, fault.as_slice())?;
    let bytes = vec![in alloc; FORMER; SECTORS * SECTOR_BYTES]?;
    MemoryDevice::of(alloc, bytes, FaultPlan { faults, stop: None })
}

/// How many of the sectors that differ in the new image are new, where these come before those that are old. No other
/// sector has changed.
fn new_sectors(bytes: &[u8], new: &[u8]) -> Option<usize> {
    let mut count: usize = 0;
    let mut stopped = false;
    let found = bytes.chunks_exact(SECTOR_BYTES);
    for (found, wanted) in found.zip(new.chunks_exact(SECTOR_BYTES)) {
        let former = [FORMER; SECTOR_BYTES];
        if wanted != former.as_slice() && found == wanted {
            if stopped {
                return None;
            }
            count = count.saturating_add(1);
        } else if found == former.as_slice() {
            stopped = stopped || wanted != former.as_slice();
        } else {
            return None;
        }
    }
    Some(count)
}

/// An arranged plan of what is added.
fn plan_of(rt: &impl Abort, alloc: Global, added: &[Added]) -> Result<Plan, AllocError>
    ensures arranged { IfOk result (λ plan. IsArranged plan.blocks) }
    ensures inside { IfOk result (λ plan. AreInside 32 plan.blocks) }
{
    let mut plan = Plan::new(alloc, 3)?;
    assert!(rt; plan.spare() == 3);
    fill(rt, &mut plan, added);
    Ok(plan)
}

/// Writes a plan, and says whether that came through.
fn write(rt: &impl Abort, device: &mut MemoryDevice, plan: &Plan) -> bool
    requires arranged { IsArranged plan.now.blocks }
    requires inside { AreInside 32 plan.now.blocks }
{
    assert!(rt; device.sectors() == 32);
    apply(device, plan).is_ok()
}

/// The bytes are those that are wanted.
fn is_image(rt: &impl Abort, bytes: &[u8], wanted: &[u8], row: &Row<'_>) {
    assert!(rt; bytes == wanted, "{row:?}");
}

/// A device holds this image after its calls, also after a crash.
fn holds(
    rt: &impl Abort,
    alloc: Global,
    device: &MemoryDevice,
    wanted: &[u8],
    row: &Row<'_>,
) -> Result<(), AllocError> {
    assert!(rt; device.calls() == row.1, "{row:?}");
    is_image(rt, device.bytes(), wanted, row);
    let crashed = device.crashed(alloc, &[])?;
    is_image(rt, crashed.bytes(), wanted, row);
    Ok(())
}

/// The plan of a row is written whole.
fn write_row(rt: &impl Abort, alloc: Global, plan: &Plan, row: &Row<'_>) -> Result<(), AllocError>
    requires arranged { IsArranged plan.now.blocks }
    requires inside { AreInside 32 plan.now.blocks }
{
    let wanted = image_after(alloc, row.0)?;
    let mut device = device_of(alloc, None)?;
    assert!(rt; write(rt, &mut device, plan));
    holds(rt, alloc, &device, wanted.as_slice(), row)
}

/// The blocks of a row are planned and written.
fn plan_row(rt: &impl Abort, alloc: Global, row: &Row<'_>) -> Result<(), AllocError> {
    let plan = plan_of(rt, alloc, row.0)?;
    write_row(rt, alloc, &plan, row)
}

#[test]
fn a_plan_is_written_run_by_run(rt: HostRuntime) -> Result<(), AllocError> {
    for row in &ROWS {
        plan_row(&rt, rt.alloc(), row)?;
    }
    Ok(())
}

/// How many sectors are new where a call fails, after which there is none.
fn new_at(
    rt: &impl Abort,
    alloc: Global,
    plan: &Plan,
    wanted: &[u8],
    fault: PlannedFault,
) -> Result<Option<usize>, AllocError>
    requires arranged { IsArranged plan.now.blocks }
    requires inside { AreInside 32 plan.now.blocks }
{
    let mut device = device_of(alloc, Some(fault))?;
    assert!(rt; !write(rt, &mut device, plan));
    assert!(rt; device.calls() == fault.call.saturating_add(1));
    Ok(new_sectors(device.bytes(), wanted))
}

/// The sectors that are new don't get fewer.
fn are_no_fewer(rt: &impl Abort, before: Option<usize>, now: Option<usize>, at: (&Row<'_>, u64)) {
    let (row, call) = at;
    assert!(rt; now.is_some() && now >= before, "{row:?} at {call}");
}

/// The later the call that fails, the more sectors are new.
fn fail_each(
    rt: &impl Abort,
    alloc: Global,
    plan: &Plan,
    wanted: &[u8],
    row: &Row<'_>,
) -> Result<(), AllocError>
    requires arranged { IsArranged plan.now.blocks }
    requires inside { AreInside 32 plan.now.blocks }
{
    let mut before = Some(0);
    for call in 0..row.1 {
        let none = new_at(rt, alloc, plan, wanted, PlannedFault { call, sectors: 0 })?;
        are_no_fewer(rt, before, none, (row, call));
        before = new_at(rt, alloc, plan, wanted, PlannedFault { call, sectors: 1 })?;
        are_no_fewer(rt, none, before, (row, call));
    }
    assert!(rt; before == new_sectors(wanted, wanted), "{row:?}");
    Ok(())
}

/// The calls of a row fail one after another.
fn fail_row(rt: &impl Abort, alloc: Global, row: &Row<'_>) -> Result<(), AllocError> {
    let plan = plan_of(rt, alloc, row.0)?;
    let wanted = image_after(alloc, row.0)?;
    fail_each(rt, alloc, &plan, wanted.as_slice(), row)
}

#[test]
fn a_call_that_fails_is_the_last(rt: HostRuntime) -> Result<(), AllocError> {
    for row in &ROWS {
        fail_row(&rt, rt.alloc(), row)?;
    }
    Ok(())
}

/// Fills a plan with room for two blocks, clears it, and fills it again.
fn fill_again(rt: &impl Abort, plan: &mut Plan, added: &[Added])
    requires { plan.old.blocks ≡ [] }
    ensures arranged { IsArranged plan.new.blocks }
    ensures inside { AreInside 32 plan.new.blocks }
{
    fill(rt, plan, &[(0, 0xff, 0x10), (3, 0xff, 0x20)]);
    assert!(rt; plan.spare() == 0);
    plan.clear();
    assert!(rt; plan.spare() == 2);
    fill(rt, plan, added);
    assert!(rt; plan.spare() == 1);
}

#[test]
fn a_cleared_plan_is_used_again(rt: HostRuntime) -> Result<(), AllocError> {
    let added = [(1, 0b0000_0110, 0x30)];
    let mut plan = Plan::new(rt.alloc(), 2)?;
    fill_again(&rt, &mut plan, &added);
    write_row(&rt, rt.alloc(), &plan, &(&added, 2))
}

#[test]
fn a_plan_without_room_holds_nothing(rt: HostRuntime) -> Result<(), AllocError> {
    let plan = Plan::new(rt.alloc(), 0)?;
    assert!(rt; plan.spare() == 0);
    Ok(())
}
