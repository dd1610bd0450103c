//! A flush of a client over the engine.
ghost use Rattle.std.specs.Prelude.{◌≡◌, ◌+◌, ◌<◌, ◌≤◌, ◌%◌, [], None, Some, IfSome, max};
ghost use Rattle.wb_geometry.specs.Layout.{places};
ghost use Rattle.wb_serve.specs.Playing.{HasMoved, IsPosted, IsFlushed, IsSettledTo, IsPostedLine, ArePosted, IsAwaited, awaited_line};
ghost use Rattle.wb_script.specs.Transcripts.{covered_line};
ghost use Rattle.wb_engine.specs.Settling.{stable_places};

use wb_device::Device;
use wb_engine::Engine;
use wb_geometry::{Entry, Which};
use wb_script::{Ended, Line, Transcript};

/// Posts a flush of a client: fills the begun segment with places of its own that change nothing, so that the flush is for
/// whole segments. Neither device is called.
pub fn post_flush<L: Device, B: Device>(engine: &mut Engine<L, B>, client: u32) -> Ended
    ensures { IsPosted L.state B.state client engine.old engine.new result }
{
    let voids = places_left(engine.absorbed(), engine.geometry().places());
    for _ in 0..voids {
        engine.absorb(Entry::Void { client });
    }
    Ended {
        through: engine.absorbed(),
        voids,
        down: None,
    }
}

/// How many places are left of a begun segment, of so many places, once so many were taken of all; none where none is begun.
fn places_left(taken: u64, places: u64) -> u64
    requires { 1 ≤ places }
    ensures begun { 1 ≤ result → (1 ≤ taken % places) × (taken % places + result ≡ places) }
    ensures none { result ≡ 0 → taken % places ≡ 0 }
{
    let begun = taken % places;
    if begun == 0 { 0 } else { places - begun }
}

/// Posts a flush of a client and awaits it. It isn't done where the engine is down and some of the places below its number
/// aren't stable.
pub fn flush<L: Device, B: Device>(engine: &mut Engine<L, B>, client: u32) -> Ended
    ensures { IsFlushed L.state B.state client engine.old engine.new result }
{
    let posted = post_flush(engine, client);
    settle(engine, posted.through);
    Ended {
        down: undone_by(engine, posted.through),
        ..posted
    }
}

/// Makes the places below this one stable, where the engine is up.
fn settle<L: Device, B: Device>(engine: &mut Engine<L, B>, through: u64)
    requires whole { through % places engine.old.geometry ≡ 0 }
    requires taken { through ≤ engine.old.absorbed }
    ensures { IsSettledTo L.state B.state through engine.old engine.new }
{
    if engine.down().is_none() {
        let _ = engine.settle(through);
    }
}

/// The device by which the engine is down, where some of the places below this one aren't stable.
fn undone_by<L: Device, B: Device>(engine: &Engine<L, B>, through: u64) -> Option<Which>
    requires { engine.now.down ≡ None → through ≤ stable_places engine.now }
    ensures done { result ≡ None → through ≤ stable_places engine.now }
    ensures undone { IfSome result (λ device. (engine.now.down ≡ Some device) × (stable_places engine.now < through)) }
{
    if engine.stable() < through {
        engine.down()
    } else {
        None
    }
}

/// Awaits the flushes that a client posted, in order, and marks those that weren't done.
pub fn await_posted<L: Device, B: Device>(engine: &mut Engine<L, B>, transcript: &mut Transcript)
    requires { ArePosted engine.old transcript.old }
    ensures { IsAwaited L.state B.state engine.old engine.new transcript.old transcript.new }
{
    for index in 0..transcript.len() {
        if let Some(line) = transcript.get(index) {
            await_line(engine, &line);
        }
    }
    if let Some(device) = engine.down() {
        transcript.mark_deferred(engine.stable(), device);
    }
}

/// Awaits the flush that was posted at this line, if one was.
fn await_line<L: Device, B: Device>(engine: &mut Engine<L, B>, line: &Line<'_>)
    requires { IsPostedLine engine.old line.now }
    ensures moved { HasMoved L.state B.state engine.old engine.new [] 0 0 }
    ensures settled { engine.new.down ≡ None → covered_line line.now ≤ max (awaited_line line.now) (stable_places engine.new) }
{
    if let Line::Deferred { ended } = line {
        settle(engine, ended.through);
    }
}
