//! Two clients in one thread, one after the other: the second hears a note of the first.
ghost use Rattle.std.specs.Prelude.{◌≡◌, ◌≤◌, [], ◌<◌, IfSome};
ghost use Rattle.wb_intake.specs.Passes.{client_of_pass, view_of};
ghost use Rattle.wb_front.specs.Beginning.{engine_of, Carries, IsNewIntake, IsFreshEngine};
ghost use Rattle.wb_front.specs.Requests.{IsPassOf};
ghost use Rattle.wb_script.specs.Valid.{IsValid};

use crate::client;
use std::alloc::{AllocError, Global};
use std::marker::Brand;
use std::process::Abort;
use std::sync::Wait;
use std::test::Fail;
use wb_board::Board;
use wb_device::{Device, SteadyDevice};
use wb_front::{Front, Open, Ready};
use wb_geometry::Geometry;
use wb_intake::{Named, Pass};
use wb_script::{Line, Script, Stop, Transcript, parse};
use wb_super::format;

const SECTOR_BYTES: usize = 512;

/// The first client writes a sector and leaves a note; the second hears it, reads the sector, posts a flush, and writes with
/// `fua`.
const SCRIPT: &[u8] = b"clients 2\n0 w 0 1 aa\n0 t 1\n1 h 0\n1 r 0 1\n1 q\n1 u 8 1 bb\n";

/// Whether the first client wrote one place and left its note.
fn is_first(transcript: &Transcript) -> bool {
    let wrote = match transcript.get(0) {
        Some(Line::Wrote { places, stop }) => places.as_slice() == [0].as_slice()
            && stop == Stop::Whole,
        _ => false,
    };
    wrote && matches!(transcript.get(1), Some(Line::Told)) && transcript.len() == 2
}

/// Whether the second client heard the note, read what the first wrote, and flushed all twice. A segment has three places.
fn is_second(transcript: &Transcript) -> bool {
    let read = matches!(transcript.get(1), Some(Line::Got { point: 1, .. }));
    let posted = match transcript.get(2) {
        Some(Line::Deferred { ended }) => ended.through == 3
            && ended.voids == 2
            && ended.down.is_none(),
        _ => false,
    };
    let forced = match transcript.get(3) {
        Some(
            Line::Forced {
                flush: Some(ended),
                ..
            },
        ) => ended.through == 6 && ended.down.is_none(),
        _ => false,
    };
    matches!(transcript.get(0), Some(Line::Heard)) && read && posted && forced
}

/// Both clients answer their requests. Answers whether their lines are right.
fn both_answer<L: Device, B: Device, T: Named, R: Wait>(
    rt: &R,
    alloc: Global,
    front: &Front<'_, L, B, Open, T>,
    passes: (&mut Pass, &mut Pass),
    script: &Script,
) -> Result<bool, AllocError>
    requires valid { IsValid script.now }
    requires two { script.now.clients ≡ 2 }
    requires fits { script.now.sectors ≤ T.carried.geometry.backing_sectors }
    requires first { IsPassOf T.carried passes.0.now × (client_of_pass passes.0.now ≡ 0) × ((view_of passes.0.now).told ≡ []) × ((view_of passes.0.now).heard ≡ []) }
    requires second { IsPassOf T.carried passes.1.now × (client_of_pass passes.1.now ≡ 1) × ((view_of passes.1.now).told ≡ []) × ((view_of passes.1.now).heard ≡ []) }
{
    let board = Board::<T>::new(alloc, script)?;
    let first = client(rt, alloc, front, passes.0, &board, script, 0)?;
    let second = client(rt, alloc, front, passes.1, &board, script, 1)?;
    Ok(is_first(&first) && is_second(&second))
}

/// The clients of a new front over what is ready answer.
fn answered<L: Device, B: Device, T: Named, R: Wait>(
    rt: &R,
    alloc: Global,
    ready: Ready<L, B>,
    passes: (&mut Pass, &mut Pass),
    script: &Script,
) -> Result<bool, AllocError>
    requires carried { Carries L.state B.state T.carried ready }
    requires intake { IsNewIntake T.carried.clients ready }
    requires engine { IsFreshEngine L.state B.state (engine_of ready) }
    requires valid { IsValid script.now }
    requires two { script.now.clients ≡ 2 }
    requires fits { script.now.sectors ≤ T.carried.geometry.backing_sectors }
    requires first { IsPassOf T.carried passes.0.now × (client_of_pass passes.0.now ≡ 0) × ((view_of passes.0.now).told ≡ []) × ((view_of passes.0.now).heard ≡ []) }
    requires second { IsPassOf T.carried passes.1.now × (client_of_pass passes.1.now ≡ 1) × ((view_of passes.1.now).told ≡ []) × ((view_of passes.1.now).heard ≡ []) }
{
    let gate = Open;
    let front = Front::<L, B, Open, T>::start(ready, &gate);
    both_answer(rt, alloc, &front, passes, script)
}

/// The same over these devices, where they can be opened.
fn answered_over<L: Device, B: Device, R: Wait>(
    rt: &R,
    alloc: Global,
    log: L,
    backing: B,
) -> Result<bool, AllocError> {
    let Ok((ready, mut passes)) = Ready::open(alloc, log, backing, 2) else {
        return Ok(false);
    };
    let Ok(script) = parse(alloc, SCRIPT, ready.geometry()) else {
        return Ok(false);
    };
    if script.clients() != 2 {
        return Ok(false);
    }
    let Some(mut second) = passes.pop() else {
        return Ok(false);
    };
    let Some(mut first) = passes.pop() else {
        return Ok(false);
    };
    answered::<L, B, Brand, R>(rt, alloc, ready, (&mut first, &mut second), &script)
}

/// Whether both answer over a log of four slots of three places each, and a backing device of eight blocks.
fn two_answer(rt: &impl Wait, alloc: Global) -> Result<bool, Fail> {
    let mut log = SteadyDevice::of(vec![in alloc; 0; 2176 * SECTOR_BYTES]?);
    format(&mut log, &Geometry::new(5, 4, 2, 64)?)?;
    let backing = SteadyDevice::of(vec![in alloc; 0; 64 * SECTOR_BYTES]?);
    Ok(answered_over(rt, alloc, log, backing)?)
}

#[test]
fn a_client_hears_another_and_reads_what_it_wrote(rt: HostRuntime) -> Result<(), Fail> {
    assert!(rt; two_answer(&rt, rt.alloc())?);
    Ok(())
}
