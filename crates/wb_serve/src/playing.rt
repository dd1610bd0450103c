//! Answering the requests of a client over the engine.
ghost use Rattle.std.specs.Prelude.{◌≡◌, ◌⊎◌, ◌==◌, ◌*◌, ◌≤◌, ℕ, List, All, IfOk, IfErr, OnOk, OnErr, length};
ghost use Rattle.wb_geometry.specs.History.{HistoryEntry};
ghost use Rattle.wb_script.specs.Transcripts.{covered_by, is_failure};
ghost use Rattle.wb_engine.specs.Settling.{stable_places};
ghost use Rattle.wb_script.specs.Valid.{IsWithin, IsAsked};
ghost use Rattle.wb_script.specs.declared.request.Request.TheVariants.{Read, ReadSum};
ghost use Rattle.wb_script.specs.declared.transcript.Line.{Line};
ghost use Rattle.wb_serve.specs.Session.{EndFlushes};
ghost use Rattle.wb_serve.specs.Playing.{IsAnswered, IsForcedLine, IsPlayed, IsPlayedInPart, is_stopped_line, nothing_played, with_line};

use crate::flushing::{await_posted, flush, post_flush};
use crate::writing::write;
use std::alloc::{AllocError, Global};
use wb_buffers::{Buffers, sum_of};
use wb_device::Device;
use wb_engine::Engine;
use wb_geometry::{Places, Which};
use wb_script::{Line, Request, Shown, Stop, Taken, Transcript};

const SECTOR_BYTES: usize = 512;

/// What the requests of a client left: their answers, whether one was stopped for want of an id, and whether a read failed
/// on either device.
#[derive(Drop)]
pub struct Played {
    pub transcript: Transcript,
    pub ids: bool,
    pub log_failed: bool,
    pub backing_failed: bool,
}

impl Played {
    /// No answer yet, and room for so many.
    fn with_capacity(alloc: Global, lines: usize) -> Result<Played, AllocError>
        ensures { IfOk result (λ played. played ≡ nothing_played) }
    {
        Ok(Played {
            transcript: Transcript::with_capacity(alloc, lines)?,
            ids: false,
            log_failed: false,
            backing_failed: false,
        })
    }

    /// Adds an answer.
    fn add(&mut self, alloc: Global, line: &Line<'_>) -> Result<(), AllocError>
        ensures { OnOk result (self.new ≡ with_line self.old line.now) }
    {
        self.ids |= is_out_of_ids(line);
        self.log_failed |= is_failed(line, Which::Log);
        self.backing_failed |= is_failed(line, Which::Backing);
        self.transcript.push(alloc, line)
    }
}

/// Answers the requests of a client, in order, and then awaits the flushes that it posted.
pub fn play<L: Device, B: Device>(
    alloc: Global,
    engine: &mut Engine<L, B>,
    buffers: &mut Buffers,
    client: u32,
    requests: &[Request],
) -> Result<Played, AllocError>
    requires asked { (clients : ℕ) × All (IsAsked engine.old.geometry.backing_sectors clients client) requests.now }
    requires sized { length buffers.old.shown.items ≡ 131072 }
    ensures sized { length buffers.new.shown.items ≡ 131072 }
    ensures played { IfOk result (λ played. (entries : List HistoryEntry)
        × IsPlayed L.state B.state client requests.now engine.old engine.new played entries
        × (covered_by played.transcript ≤ stable_places engine.new)
        × EndFlushes engine.new.geometry engine.new.down (stable_places engine.new) played.transcript) }
    ensures in_part { IfErr result (λ none. IsPlayedInPart L.state B.state client requests.now engine.old engine.new) }
{
    let mut played = Played::with_capacity(alloc, requests.len())?;
    for request in requests {
        answer(alloc, engine, buffers, client, request, &mut played)?;
    }
    await_posted(engine, &mut played.transcript);
    Ok(played)
}

/// Answers a request of a client. A flush that is posted is answered as if it were done. All memory that the request itself
/// takes is taken before anything is done.
fn answer<L: Device, B: Device>(
    alloc: Global,
    engine: &mut Engine<L, B>,
    buffers: &mut Buffers,
    client: u32,
    request: &Request,
    played: &mut Played,
) -> Result<(), AllocError>
    requires asked { (clients : ℕ) × IsAsked engine.old.geometry.backing_sectors clients client request.now }
    requires sized { length buffers.old.shown.items ≡ 131072 }
    ensures sized { length buffers.new.shown.items ≡ 131072 }
    ensures answered { OnOk result ((line : Line) × (played.new ≡ with_line played.old line)
        × IsAnswered L.state B.state client request.now engine.old engine.new line) }
    ensures unanswered { OnErr result ((engine.new ≡ engine.old)
        ⊎ ((line : Line) × IsAnswered L.state B.state client request.now engine.old engine.new line)) }
{
    match request {
        Request::Write {
            sector,
            count,
            pattern,
            fua,
        } => {
            let bytes = &mut buffers.written;
            let (places, stop) = write(alloc, engine, bytes, client, *sector, *count, pattern)?;
            let line = if *fua {
                forced(engine, client, places, stop)
            } else {
                let places = Taken::of(places);
                Line::Wrote { places, stop }
            };
            played.add(alloc, &line)
        }
        Request::Read { sector, count } => {
            read(alloc, engine, &mut buffers.shown, *sector, *count, played)
        }
        Request::ReadSum { sector, count } => {
            let line = read_sum(engine, &mut buffers.shown, *sector, *count);
            played.add(alloc, &line)
        }
        Request::Flush => {
            let ended = flush(engine, client);
            played.add(alloc, &Line::Flushed { ended })
        }
        Request::Defer => {
            let ended = post_flush(engine, client);
            played.add(alloc, &Line::Deferred { ended })
        }
        Request::Tell { .. } => played.add(alloc, &Line::Told),
        Request::Hear { .. } => played.add(alloc, &Line::Heard),
    }
}

/// The line of a write with `fua`, which is flushed where it is whole.
fn forced<L: Device, B: Device>(
    engine: &mut Engine<L, B>,
    client: u32,
    places: Places,
    stop: Stop,
) -> Line<'static>
    ensures { IsForcedLine L.state B.state client engine.old engine.new places stop result }
{
    let flush = match stop {
        Stop::Whole => Some(flush(engine, client)),
        _ => None,
    };
    Line::Forced {
        places: Taken::of(places),
        flush,
        stop,
    }
}

/// Reads sectors for any client, and answers with their bytes and the point at which they were read, or the device that
/// failed.
fn read<L: Device, B: Device>(
    alloc: Global,
    engine: &mut Engine<L, B>,
    shown: &mut [u8],
    sector: u64,
    count: u64,
    played: &mut Played,
) -> Result<(), AllocError>
    requires within { IsWithin engine.old.geometry.backing_sectors sector count }
    requires sized { length shown.old ≡ 131072 }
    ensures answered { OnOk result ((line : Line) × (played.new ≡ with_line played.old line)
        × ((client : ℕ) → IsAnswered L.state B.state client (Read sector count) engine.old engine.new line)) }
    ensures unanswered { OnErr result ((line : Line) × ((client : ℕ) → IsAnswered L.state B.state client (Read sector count) engine.old engine.new line)) }
{
    let size = SECTOR_BYTES * count as usize;
    match engine.read(sector, &mut shown[..size]) {
        Ok(()) => {
            let point = engine.absorbed();
            let payload = Shown::of(&shown[..size]);
            played.add(alloc, &Line::Got { point, payload })
        }
        Err(device) => played.add(alloc, &Line::Failed { device }),
    }
}

/// Reads sectors for any client, and answers with the checksum of their bytes and the point at which they were read, or the
/// device that failed.
fn read_sum<L: Device, B: Device>(
    engine: &mut Engine<L, B>,
    shown: &mut [u8],
    sector: u64,
    count: u64,
) -> Line<'static>
    requires within { IsWithin engine.old.geometry.backing_sectors sector count }
    requires sized { length shown.old ≡ 131072 }
    ensures { (client : ℕ) → IsAnswered L.state B.state client (ReadSum sector count) engine.old engine.new result }
{
    let bytes = &mut shown[..SECTOR_BYTES * count as usize];
    match engine.read(sector, bytes) {
        Ok(()) => Line::Summed {
            point: engine.absorbed(),
            sum: sum_of(bytes),
        },
        Err(device) => Line::Failed { device },
    }
}

/// Whether the line says that a write was stopped for want of an id.
pub fn is_out_of_ids(line: &Line<'_>) -> bool
    ensures { result ≡ is_stopped_line line.now }
{
    match line {
        Line::Wrote { stop, .. } | Line::Forced { stop, .. } => *stop == Stop::Ids,
        _ => false,
    }
}

/// Whether the line says that a read failed on this device.
fn is_failed(line: &Line<'_>, which: Which) -> bool
    ensures { result ≡ (is_failure which line.now == 1) }
{
    matches!(line, Line::Failed { device } if *device == which)
}
