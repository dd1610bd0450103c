//! Two clients in one thread post barriers, and poll them while the drain takes out and publishes.
ghost use Rattle.std.specs.Prelude.{◌≡◌, ◌≢◌, ◌%◌, ◌<◌, [], IfOk};
ghost use Rattle.wb_intake.specs.Passes.{name_of, pass_name, drain_name, numbers_of, view_of, drain_view};

use crate::{Pending, Receipt, Ticket, poll, post};
use std::alloc::{AllocError, Global};
use std::process::Abort;
use wb_geometry::{Block, Geometry, Part};
use wb_intake::{Drain, Intake, Pass};

/// A block of one sector.
fn block(alloc: Global) -> Result<Box<Block>, AllocError>
    ensures { IfOk result (λ b. b.value.bits ≢ 0) }
{
    let part = Part {
        block: 0,
        from: 0,
        count: 1,
    };
    Block::boxed(alloc, &part, &[0xaa; 512])
}

/// Writes one sector of the block. Answers its place.
fn write(
    alloc: Global,
    intake: &Intake,
    pass: &mut Pass,
    number: u64,
) -> Result<Option<u64>, AllocError>
    requires own { pass_name pass.old ≡ name_of intake.now }
    requires free { (view_of pass.old).unfilled ≡ [] }
    requires inside { number < (numbers_of intake.now).blocks }
    ensures own { pass_name pass.new ≡ name_of intake.now }
    ensures free { (view_of pass.new).unfilled ≡ [] }
{
    let payload = block(alloc)?;
    let Ok(claim) = intake.claim(pass, number, &payload) else {
        return Ok(None);
    };
    let place = claim.place();
    intake.fill(pass, claim, payload);
    Ok(Some(place))
}

/// Takes out what is filled, at most this many places.
fn take_out(intake: &Intake, drain: &mut Drain, most: u64)
    requires own { drain_name drain.old ≡ name_of intake.now }
    requires none { (drain_view drain.old).seen.stable ≡ 0 }
    ensures own { drain_name drain.new ≡ name_of intake.now }
    ensures none { (drain_view drain.new).seen.stable ≡ 0 }
{
    for turn in 0..most {
        if intake.take(drain).is_err() {
            return;
        }
    }
}

/// Takes out what is filled, and publishes this number of stable places where they are drained.
fn make_stable(intake: &Intake, drain: &mut Drain, stable: u64) -> bool
    requires own { drain_name drain.old ≡ name_of intake.now }
    requires none { (drain_view drain.old).seen.stable ≡ 0 }
    requires whole { stable % (numbers_of intake.now).places ≡ 0 }
{
    take_out(intake, drain, stable);
    if drain.drained() < stable {
        return false;
    }
    intake.publish_stable(drain, stable);
    true
}

/// Each client writes and posts a barrier. The later one is pending until the drain has published its number. Both are
/// done then.
fn both_post(
    alloc: Global,
    intake: &Intake,
    one: &mut Pass,
    two: &mut Pass,
    drain: &mut Drain,
) -> Result<bool, AllocError>
    requires one { (pass_name one.old ≡ name_of intake.now) × ((view_of one.old).unfilled ≡ []) }
    requires two { (pass_name two.old ≡ name_of intake.now) × ((view_of two.old).unfilled ≡ []) }
    requires drain { (drain_name drain.old ≡ name_of intake.now) × ((drain_view drain.old).seen.stable ≡ 0) }
    requires inside { 1 < (numbers_of intake.now).blocks }
{
    let first = write(alloc, intake, one, 0)?;
    let early = post(intake, one);
    let second = write(alloc, intake, two, 1)?;
    let late = post(intake, two);
    let posted = first == Some(0)
        && early.number == 3
        && early.voids == 2
        && second == Some(3)
        && late.voids == 2;
    let number = late.number;
    let Err(
        Pending {
            needs: 6,
            stable: 0,
            ticket: late,
        },
    ) = poll(intake, two, late)
    else {
        return Ok(false);
    };
    let there = make_stable(intake, drain, number);
    let done = poll(intake, two, late) == Ok(Receipt { number: 6 });
    let also = poll(intake, one, early) == Ok(Receipt { number: 3 });
    Ok(posted && there && done && also)
}

/// Whether a new intake of two clients and three places a segment answers both as it should.
fn two_clients_post(alloc: Global) -> Result<bool, AllocError> {
    let Ok(geometry) = Geometry::new(5, 4, 2, 64) else {
        return Ok(false);
    };
    let (intake, mut passes, mut drain) = Intake::new(alloc, &geometry, 4, 2)?;
    let [one, two] = passes.as_mut_slice() else {
        return Ok(false);
    };
    both_post(alloc, &intake, one, two, &mut drain)
}

/// Whether a barrier at the end of a segment takes no place, in a new intake of one place a segment.
fn one_posts_twice(alloc: Global) -> Result<bool, AllocError> {
    let Ok(geometry) = Geometry::new(4, 2, 2, 64) else {
        return Ok(false);
    };
    let (intake, mut passes, _drain) = Intake::new(alloc, &geometry, 2, 1)?;
    let Some(mut pass) = passes.pop() else {
        return Ok(false);
    };
    let before = post(&intake, &mut pass);
    let _place = write(alloc, &intake, &mut pass, 0)?;
    let _place = write(alloc, &intake, &mut pass, 1)?;
    let behind = post(&intake, &mut pass);
    let none = Ticket {
        number: 0,
        voids: 0,
    };
    let two = Ticket {
        number: 2,
        voids: 0,
    };
    let answer = poll(&intake, &mut pass, behind);
    let waits = Pending {
        needs: 2,
        stable: 0,
        ticket: two,
    };
    Ok(before == none && answer == Err(waits))
}

#[test]
fn a_later_number_answers_both(rt: HostRuntime) -> Result<(), AllocError> {
    assert!(rt; two_clients_post(rt.alloc())?);
    Ok(())
}

#[test]
fn whole_segments_take_no_void(rt: HostRuntime) -> Result<(), AllocError> {
    assert!(rt; one_posts_twice(rt.alloc())?);
    Ok(())
}
