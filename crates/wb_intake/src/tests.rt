//! The calls of the intake, in one thread.
ghost use Rattle.std.specs.Prelude.{◌≡◌, ◌≢◌, ◌<◌, [], IfOk};
ghost use Rattle.wb_steps.specs.Faults.{parts_of};
ghost use Rattle.wb_intake.specs.Passes.{name_of, pass_name, drain_name, numbers_of, view_of, drain_view};

use crate::{Drain, Intake, Pass};
use std::alloc::{AllocError, Global};
use std::process::Abort;
use wb_geometry::{Block, Geometry, Part};

/// A block of one sector, filled with the byte.
fn block(alloc: Global, fill: u8) -> Result<Box<Block>, AllocError>
    ensures { IfOk result (λ b. b.value.bits ≢ 0) }
{
    let part = Part {
        block: 0,
        from: 0,
        count: 1,
    };
    Block::boxed(alloc, &part, &[fill; 512])
}

/// Claims a place and fills it, takes the entry out, and then finds nothing more.
fn go_through(
    alloc: Global,
    intake: &Intake,
    pass: &mut Pass,
    drain: &mut Drain,
) -> Result<bool, AllocError>
    requires own { (pass_name pass.old ≡ name_of intake.now) × (drain_name drain.old ≡ name_of intake.now) }
    requires free { (view_of pass.old).unfilled ≡ [] }
    requires inside { 3 < (numbers_of intake.now).blocks }
{
    let payload = block(alloc, 0x5a)?;
    let Ok(claim) = intake.claim(pass, 3, &payload) else {
        return Ok(false);
    };
    let early = intake.take(drain).is_err();
    intake.fill(pass, claim, payload);
    let there = intake.take(drain).is_ok();
    let late = intake.take(drain).is_err();
    Ok(early && there && late && drain.drained() == 1)
}

/// Publishes a fault, lets one pass tell a note and the other hear it and the drain's, meets that one, and looks.
fn tell_on(intake: &Intake, one: &mut Pass, two: &mut Pass, drain: &mut Drain) -> bool
    requires one { (pass_name one.old ≡ name_of intake.now) × ((view_of one.old).told ≡ []) }
    requires two { pass_name two.old ≡ name_of intake.now }
    requires drain { (drain_name drain.old ≡ name_of intake.now) × ((drain_view drain.old).seen.fault ≡ parts_of 0) }
{
    intake.publish_fault(drain, 5);
    let note = intake.tell(one);
    let number = note.number();
    intake.hear(two, note);
    let shown = intake.tell_drained(drain);
    let client = shown.client();
    intake.hear(two, shown);
    intake.meet(two, drain);
    let seen = intake.look(one);
    number == 0
        && client == 2
        && one.notes() == 1
        && two.notes() == 0
        && (seen.cursor, seen.limit, seen.stable, seen.fault) == (0, 2, 0, 5)
}

/// Whether notes are told and heard in a new intake as they should be.
fn two_passes_tell(alloc: Global) -> Result<bool, AllocError> {
    let Ok(geometry) = Geometry::new(4, 2, 2, 64) else {
        return Ok(false);
    };
    let (intake, mut passes, mut drain) = Intake::new(alloc, &geometry, 0, 2)?;
    let [one, two] = passes.as_mut_slice() else {
        return Ok(false);
    };
    Ok(tell_on(&intake, one, two, &mut drain))
}

/// Whether an entry goes through a new intake as it should.
fn one_goes_through(alloc: Global) -> Result<bool, AllocError> {
    let Ok(geometry) = Geometry::new(4, 2, 2, 64) else {
        return Ok(false);
    };
    let (intake, mut passes, mut drain) = Intake::new(alloc, &geometry, 0, 1)?;
    let Some(mut pass) = passes.pop() else {
        return Ok(false);
    };
    go_through(alloc, &intake, &mut pass, &mut drain)
}

#[test]
fn notes_are_told(rt: HostRuntime) -> Result<(), AllocError> {
    assert!(rt; two_passes_tell(rt.alloc())?);
    Ok(())
}

#[test]
fn an_entry_goes_through(rt: HostRuntime) -> Result<(), AllocError> {
    assert!(rt; one_goes_through(rt.alloc())?);
    Ok(())
}
