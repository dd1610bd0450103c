//! Two threads claim and fill, beside a third that takes and raises.
ghost use Rattle.std.specs.Prelude.{◌≡◌, ◌≢◌, ◌+◌, ◌*◌, ◌%◌, ◌<◌, ◌≤◌, ◌^◌, [], ℕ, IfOk, IfSome};
ghost use Rattle.wb_steps.specs.Rule as rule;
ghost use Rattle.wb_intake.specs.Passes.{name_of, pass_name, drain_name, numbers_of, view_of, drain_view};

use crate::{Drain, Intake, Pass};
use std::alloc::{AllocError, Global};
use std::process::Abort;
use std::thread;
use std::thread::{Threads, join};
use wb_geometry::{Block, Entry, Geometry, Part};

/// So many writes each thread makes.
const WRITES: u64 = 1000;

/// No loop takes more turns than this.
const TURNS: u64 = 100_000_000;

/// A block of one sector, filled with the low byte of the number.
fn numbered(alloc: Global, number: u64) -> Result<Box<Block>, AllocError>
    ensures { IfOk result (λ b. b.value.bits ≢ 0) }
{
    let part = Part {
        block: 0,
        from: 0,
        count: 1,
    };
    Block::boxed(alloc, &part, &[(number % 256) as u8; 512])
}

/// Claims a place for the block of this number, and fills it. It tries until there is room.
fn put_one(alloc: Global, intake: &Intake, pass: &mut Pass, number: u64) -> Result<bool, AllocError>
    requires own { pass_name pass.old ≡ name_of intake.now }
    requires free { (view_of pass.old).unfilled ≡ [] }
    requires inside { number < (numbers_of intake.now).blocks }
    ensures own { pass_name pass.new ≡ name_of intake.now }
    ensures free { (view_of pass.new).unfilled ≡ [] }
{
    let payload = numbered(alloc, number)?;
    for turn in 0..TURNS {
        match intake.claim(pass, number, &payload) {
            Ok(claim) => {
                intake.fill(pass, claim, payload);
                return Ok(true);
            }
            Err(_) => thread::yield_now(),
        }
    }
    Ok(false)
}

/// Bumps the cursor to the end of its segment, and fills the voids.
fn bump_once(intake: &Intake, pass: &mut Pass)
    requires own { pass_name pass.old ≡ name_of intake.now }
    requires free { (view_of pass.old).unfilled ≡ [] }
    ensures own { pass_name pass.new ≡ name_of intake.now }
    ensures free { (view_of pass.new).unfilled ≡ [] }
{
    let mut voids = intake.bump(pass);
    let count = voids.left;
    for filled in 0..count {
        intake.fill_void(pass, &mut voids);
    }
    Intake::finish(voids);
}

/// Claims and fills the places of all writes, with a bump behind each seventh where it is to bump. Answers how many it made.
fn put_all(alloc: Global, intake: &Intake, mut pass: Pass, bumps: bool) -> u64
    requires own { pass_name pass ≡ name_of intake.now }
    requires free { (view_of pass).unfilled ≡ [] }
    requires inside { 1000 ≤ (numbers_of intake.now).blocks }
{
    for number in 0..WRITES {
        let Ok(true) = put_one(alloc, intake, &mut pass, number) else {
            return number;
        };
        if bumps && number % 7 == 6 {
            bump_once(intake, &mut pass);
        }
    }
    WRITES
}

/// The greatest limit that may be published behind so many drained places.
fn highest(intake: &Intake, drained: u64) -> u64
    requires { drained ≤ 2 ^ 55 }
    ensures whole { result % (numbers_of intake.now).places ≡ 0 }
    ensures room { result ≤ drained + rule.cells (numbers_of intake.now) }
{
    (drained / intake.shape.places + intake.shape.ram) * intake.shape.places
}

/// Raises the limit as far as it goes, where it isn't there. Answers the limit.
fn raise_on(intake: &Intake, drain: &mut Drain, limit: u64) -> u64
    requires own { drain_name drain.old ≡ name_of intake.now }
    requires limit { (drain_view drain.old).seen.limit ≡ limit }
    ensures own { drain_name drain.new ≡ name_of intake.now }
    ensures limit { (drain_view drain.new).seen.limit ≡ result }
{
    let next = highest(intake, drain.drained);
    if next <= limit {
        return limit;
    }
    intake.raise(drain, next);
    next
}

/// Takes the next entry where there is one. Answers the client and the block of a write.
fn take_one(intake: &Intake, drain: &mut Drain) -> Option<(u32, u64)>
    requires own { drain_name drain.old ≡ name_of intake.now }
    ensures own { drain_name drain.new ≡ name_of intake.now }
    ensures limit { (drain_view drain.new).seen.limit ≡ (drain_view drain.old).seen.limit }
{
    match intake.take(drain) {
        Ok(parcel) => match parcel.entry {
            Entry::Write {
                client,
                block,
                payload: _,
            } => Some((client, block)),
            Entry::Void { client: _ } => None,
        },
        Err(_) => {
            thread::yield_now();
            None
        }
    }
}

/// Takes so many writes in order, and raises the limit behind them. Answers the client and the block of each.
fn take_all(
    alloc: Global,
    intake: &Intake,
    mut drain: Drain,
    wanted: usize,
) -> Result<Vec<(u32, u64)>, AllocError>
    requires own { drain_name drain ≡ name_of intake.now }
    requires limit { (drain_view drain).seen.limit ≡ rule.cells (numbers_of intake.now) }
{
    let mut taken = Vec::new(alloc);
    let mut limit = intake.shape.ram * intake.shape.places;
    for turn in 0..TURNS {
        if taken.len() == wanted {
            break;
        }
        if let Some(write) = take_one(intake, &mut drain) {
            taken.push(write)?;
        }
        limit = raise_on(intake, &mut drain, limit);
    }
    Ok(taken)
}

/// Whether the writes of the client are there, each once and in order.
fn in_order(taken: &[(u32, u64)], client: u32) -> bool {
    let own = || taken.iter().filter(|write| write.0 == client);
    own().count() as u64 == WRITES
        && own()
            .zip(0..WRITES)
            .all(|(write, number)| write.1 == number)
}

/// Lets three threads run, and answers whether each write was taken once, in the order of its thread.
fn run<R: Threads + Sync>(
    rt: &R,
    alloc: Global,
    geometry: &Geometry,
    bumps: bool,
) -> Result<bool, AllocError>
    requires { 8000 ≤ geometry.now.backing_sectors }
{
    let (intake, mut passes, drain) = Intake::new(alloc, geometry, 0, 2)?;
    let Some(second) = passes.pop() else {
        return Ok(false);
    };
    let Some(first) = passes.pop() else {
        return Ok(false);
    };
    run_three(rt, alloc, &intake, first, second, drain, bumps)
}

/// Lets the three threads run over the intake.
fn run_three<R: Threads + Sync>(
    rt: &R,
    alloc: Global,
    intake: &Intake,
    first: Pass,
    second: Pass,
    drain: Drain,
    bumps: bool,
) -> Result<bool, AllocError>
    requires first { (pass_name first ≡ name_of intake.now) × ((view_of first).unfilled ≡ []) }
    requires second { (pass_name second ≡ name_of intake.now) × ((view_of second).unfilled ≡ []) }
    requires drain { (drain_name drain ≡ name_of intake.now) × ((drain_view drain).seen.limit ≡ rule.cells (numbers_of intake.now)) }
    requires inside { 1000 ≤ (numbers_of intake.now).blocks }
{
    let (one, (two, taken)) = join(
        rt,
        move || -> u64
            requires { (pass_name first ≡ name_of intake.now) × ((view_of first).unfilled ≡ []) × (1000 ≤ (numbers_of intake.now).blocks) }
        { put_all(alloc, intake, first, bumps) },
        move || -> (u64, Result<Vec<(u32, u64)>, AllocError>)
            requires { (pass_name second ≡ name_of intake.now) × ((view_of second).unfilled ≡ []) × (1000 ≤ (numbers_of intake.now).blocks)
                × (drain_name drain ≡ name_of intake.now) × ((drain_view drain).seen.limit ≡ rule.cells (numbers_of intake.now)) }
        { run_two(rt, alloc, intake, second, drain, bumps) },
    );
    let taken = taken?;
    Ok(
        one == WRITES
            && two == WRITES
            && in_order(taken.as_slice(), 0)
            && in_order(taken.as_slice(), 1),
    )
}

/// Lets two threads run: one puts, and the other takes.
fn run_two<R: Threads + Sync>(
    rt: &R,
    alloc: Global,
    intake: &Intake,
    second: Pass,
    drain: Drain,
    bumps: bool,
) -> (u64, Result<Vec<(u32, u64)>, AllocError>)
    requires second { (pass_name second ≡ name_of intake.now) × ((view_of second).unfilled ≡ []) }
    requires drain { (drain_name drain ≡ name_of intake.now) × ((drain_view drain).seen.limit ≡ rule.cells (numbers_of intake.now)) }
    requires inside { 1000 ≤ (numbers_of intake.now).blocks }
{
    join(
        rt,
        move || -> u64
            requires { (pass_name second ≡ name_of intake.now) × ((view_of second).unfilled ≡ []) × (1000 ≤ (numbers_of intake.now).blocks) }
        { put_all(alloc, intake, second, bumps) },
        move || -> Result<Vec<(u32, u64)>, AllocError>
            requires { (drain_name drain ≡ name_of intake.now) × ((drain_view drain).seen.limit ≡ rule.cells (numbers_of intake.now)) }
        { take_all(alloc, intake, drain, 2000) },
    )
}

/// Makes 100 runs, and answers whether each was as it should be.
fn run_often<R: Threads + Sync>(rt: &R, alloc: Global, bumps: bool) -> Result<bool, AllocError> {
    let Ok(geometry) = Geometry::new(6, 2, 4, 8000) else {
        return Ok(false);
    };
    for turn in 0..100 {
        if !run(rt, alloc, &geometry, bumps)? {
            return Ok(false);
        }
    }
    Ok(true)
}

#[test]
fn each_write_is_taken_once_in_order(rt: HostRuntime) -> Result<(), AllocError> {
    assert!(rt; run_often(&rt, rt.alloc(), false)?);
    Ok(())
}

#[test]
fn bumps_between_change_nothing(rt: HostRuntime) -> Result<(), AllocError> {
    assert!(rt; run_often(&rt, rt.alloc(), true)?);
    Ok(())
}
