//! Tests of the board.
ghost use Rattle.std.specs.Prelude.{◌≡◌, ◌<◌, ◌^◌, ◌-◌, [], length};
ghost use Rattle.wb_intake.specs.Passes.{name_of, pass_name, view_of};
ghost use Rattle.wb_board.specs.Notes.{IsToldIn};

use crate::Board;
use std::alloc::{AllocError, Global};
use std::marker::Brand;
use std::process::Abort;
use std::sync::Wait;
use std::thread::{Threads, join};
use wb_geometry::Geometry;
use wb_intake::{Intake, Named, Note, Pass};
use wb_script::parse;

/// Two clients, of which the first leaves two notes for the second.
const SCRIPT: &[u8] = b"clients 2\n0 t 1\n0 t 1\n1 h 0\n1 h 0\n";

/// A note of the pass.
fn told(intake: &Intake, pass: &mut Pass) -> Note
    requires own { pass_name pass.old ≡ name_of intake.now }
    requires few { length (view_of pass.old).told < 2 ^ 64 - 1 }
    ensures own { pass_name pass.new ≡ name_of intake.now }
    ensures told { IsToldIn (name_of intake.now) result }
{
    intake.tell(pass)
}

/// Leaves two notes, and ends.
fn leave_two<T: Named, R: Wait>(rt: &R, board: &Board<T>, notes: (Note, Note))
    requires { IsToldIn T.carried.intake notes.0 × IsToldIn T.carried.intake notes.1 }
{
    let (first, second) = notes;
    if board.leave(rt, first).is_ok() && board.leave(rt, second).is_ok() {
        board.end(rt, 0);
    }
}

/// Hears the second note, the first, and none that doesn't come.
fn hear_two<T: Named, R: Wait>(rt: &R, board: &Board<T>) -> bool {
    let second = board.hear(rt, 0, 1).is_some();
    let first = board.hear(rt, 0, 0).is_some();
    second && first && board.hear(rt, 0, 0).is_none()
}

/// One thread hears two notes that another leaves. Answers whether it heard both, and then that no other comes.
fn hand_on<T: Named + Send + Sync, R: Threads + Wait + Sync>(
    rt: &R,
    board: &Board<T>,
    notes: (Note, Note),
) -> bool
    requires { IsToldIn T.carried.intake notes.0 × IsToldIn T.carried.intake notes.1 }
{
    let (heard, ()) = join(
        rt,
        || -> bool { hear_two(rt, board) },
        move || -> ()
            requires { IsToldIn T.carried.intake notes.0 × IsToldIn T.carried.intake notes.1 }
        { leave_two(rt, board, notes) },
    );
    heard
}

/// A board for the script, which is one for this geometry.
fn board_of<T: Named>(alloc: Global, geometry: &Geometry) -> Result<Option<Board<T>>, AllocError> {
    let Ok(script) = parse(alloc, SCRIPT, geometry) else {
        return Ok(None);
    };
    Ok(Some(Board::new(alloc, &script)?))
}

/// The same of a pass of an intake of this geometry.
fn hand_on_two<T: Named + Send + Sync, R: Threads + Wait + Sync>(
    rt: &R,
    alloc: Global,
    intake: &Intake,
    geometry: &Geometry,
    pass: &mut Pass,
) -> Result<bool, AllocError>
    requires intake { T.carried.intake ≡ name_of intake.now }
    requires own { pass_name pass.old ≡ name_of intake.now }
{
    let Some(board) = board_of::<T>(alloc, geometry)? else {
        return Ok(false);
    };
    if pass.notes() > 0 {
        return Ok(false);
    }
    let first = told(intake, pass);
    if pass.notes() > 1 {
        return Ok(false);
    }
    let second = told(intake, pass);
    Ok(hand_on(rt, &board, (first, second)))
}

/// The same of the pass of a new intake.
fn are_handed_on<R: Threads + Wait + Sync>(rt: &R, alloc: Global) -> Result<bool, AllocError> {
    let Ok(geometry) = Geometry::new(4, 2, 2, 64) else {
        return Ok(false);
    };
    let (intake, mut passes, _) = Intake::new(alloc, &geometry, 0, 1)?;
    let Some(mut pass) = passes.pop() else {
        return Ok(false);
    };
    hand_on_two::<Brand, R>(rt, alloc, &intake, &geometry, &mut pass)
}

#[test]
fn notes_are_handed_on_in_any_order(rt: HostRuntime) -> Result<(), AllocError> {
    assert!(rt; are_handed_on(&rt, rt.alloc())?);
    Ok(())
}
