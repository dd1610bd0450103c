//! A write of a client over the engine.
ghost use Rattle.std.specs.Prelude.{◌≡◌, ◌+◌, ◌*◌, ◌%◌, ◌^◌, ◌<◌, ◌≤◌, [], map, length, All, None, Some, IfOk, IfErr, IfSome, OnOk};
ghost use Rattle.wb_geometry.specs.Entering.{entered};
ghost use Rattle.wb_geometry.specs.Requests.{parts, entries_of as requested_entries};
ghost use Rattle.wb_script.specs.Patterns.{repeated};
ghost use Rattle.wb_script.specs.Valid.{IsWithin, Fills};
ghost use Rattle.wb_engine.specs.Content.{IsEngine, limit_of};
ghost use Rattle.wb_engine.specs.Standing.{Fits};
ghost use Rattle.wb_serve.specs.Playing.{HasMoved, HasRoom, TakesPlace, TakesPlaces, IsWriteInside};

use std::alloc::{AllocError, Global};
use wb_buffers::repeat;
use wb_device::Device;
use wb_engine::Engine;
use wb_geometry::{Block, Entry, Places, Which, split};
use wb_script::{Pattern, Stop};

const SECTOR_BYTES: usize = 512;

/// The greatest id of a segment.
const MOST_ID: u64 = 1 << 48;

/// Writes sectors for a client. Answers with the places that its parts took, and how it ended. All memory is taken before
/// the first part comes.
pub fn write<L: Device, B: Device>(
    alloc: Global,
    engine: &mut Engine<L, B>,
    bytes: &mut Vec<u8>,
    client: u32,
    sector: u64,
    count: u64,
    pattern: &Pattern,
) -> Result<(Places, Stop), AllocError>
    requires within { IsWithin engine.old.geometry.backing_sectors sector count }
    requires fills { Fills pattern.now count }
    ensures written { IfOk result (λ answer. TakesPlaces L.state B.state engine.old engine.new
        (requested_entries client (parts sector count) (repeated pattern.now (512 * count))) answer.0 answer.1) }
    ensures unwritten { IfErr result (λ none. engine.new ≡ engine.old) }
{
    repeat(bytes, pattern.as_slice(), SECTOR_BYTES * count as usize)?;
    let entries = entries_of(alloc, client, sector, count, bytes)?;
    Ok(take_places(engine, entries))
}

/// The entries of a write, of at least one sector: one for each block that it touches, with its piece of the bytes.
fn entries_of(
    alloc: Global,
    client: u32,
    sector: u64,
    count: u64,
    bytes: &[u8],
) -> Result<Vec<Entry>, AllocError>
    requires some { 1 ≤ count }
    requires sized { length bytes.now ≡ 512 * count }
    requires few { count ≤ 256 }
    requires inside { sector + count ≤ 2 ^ 40 }
    ensures { IfOk result (λ entries. map entered entries.items ≡ requested_entries client (parts sector count) bytes.now) }
{
    let mut entries = Vec::new(alloc);
    let mut left = bytes;
    for part in split(sector, count) {
        let (piece, behind) = left.split_at(SECTOR_BYTES * part.count as usize);
        let payload = Block::boxed(alloc, &part, piece)?;
        entries.push(Entry::Write {
            client,
            block: part.block,
            payload,
        })?;
        left = behind;
    }
    Ok(entries)
}

/// Absorbs the entries in order until one is stopped. Answers the places of those that came, and how it ended.
fn take_places<L: Device, B: Device>(
    engine: &mut Engine<L, B>,
    entries: Vec<Entry>,
) -> (Places, Stop)
    requires inside { All (IsWriteInside engine.old.geometry.backing_sectors) (map entered entries.items) }
    requires few { length entries.items ≤ 33 }
    ensures { TakesPlaces L.state B.state engine.old engine.new (map entered entries.items) result.0 result.1 }
{
    let mut places = Places::new();
    for entry in entries {
        match take_place(engine, entry) {
            Ok(place) => places.push(place),
            Err(stop) => return (places, stop),
        }
    }
    (places, Stop::Whole)
}
/// Absorbs an entry, for which turns are made where there is no room. Answers its place, or why there is none: no id is left
/// for its segment, or there is no room and the engine is down.
fn take_place<L: Device, B: Device>(engine: &mut Engine<L, B>, entry: Entry) -> Result<u64, Stop>
    requires { Fits engine.old entry }
    ensures taken { TakesPlace L.state B.state engine.old engine.new (entered entry) result }
{
    let place = engine.absorbed();
    if engine.geometry().segment_of(place, engine.first()) > MOST_ID {
        return Err(Stop::Ids);
    }
    if let Some(device) = make_room(engine) {
        return Err(Stop::Down { device });
    }
    engine.absorb(entry);
    Ok(place)
}

/// Makes room for an entry where there is none: turns are made until a segment was logged, whose memory is free then. Answers
/// the device by which the engine is down, where there is no room.
fn make_room<L: Device, B: Device>(engine: &mut Engine<L, B>) -> Option<Which>
    requires { IsEngine L.state B.state engine.old }
    ensures moved { HasMoved L.state B.state engine.old engine.new [] 0 0 }
    ensures room { result ≡ None → engine.new.absorbed < limit_of engine.new.geometry engine.new.numbers }
    ensures kept { HasRoom engine.old → engine.new ≡ engine.old }
    ensures down { IfSome result (λ device. (engine.new.down ≡ Some device) × (limit_of engine.new.geometry engine.new.numbers ≤ engine.new.absorbed)
        × (engine.new.numbers.stable ≤ engine.new.numbers.logged)) }
{
    while engine.absorbed() >= engine.limit() {
        if let Some(device) = engine.down() {
            return Some(device);
        }
        if let Err(device) = engine.turn() {
            return Some(device);
        }
    }
    None
}
