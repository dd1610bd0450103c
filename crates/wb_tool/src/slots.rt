//! The command `inspect` of a slot.
ghost use Rattle.std.specs.Prelude.{◌≡◌, ◌⊎◌, ◌≤◌, ◌<◌, ◌*◌, ◌++◌, ℕ, List, length, IfOk};
ghost use Rattle.std.specs.String.{string_bytes};
ghost use Rattle.wb_geometry.specs.Layout.{slot_sectors, log_sectors};
ghost use Rattle.wb_geometry.specs.Device.{OnlyRead, CountsFaultsWhere};
ghost use Rattle.wb_header.specs.Text.{length_in, number_in, bits_in};
ghost use Rattle.wb_tool.specs.Run.{lent, Took};
ghost use Rattle.wb_tool.specs.Slot.{SlotEnds, EndsBySlotFault, EndsToldSlot};
ghost use Rattle.wb_tool.specs.Texts.{no_slot_line};
ghost use Rattle.wb_tool.specs.SlotTexts.{TellsSlot, segment_line, entry_line, entries_text, segment_cause, refused_slot_line};

use crate::opening::refuse_log;
use crate::status;
use crate::texts::{LOG_FAILED, answer, tell};
use std::alloc::{AllocError, Global};
use wb_device::{Device, DeviceFault, Sink};
use wb_geometry::Geometry;
use wb_header::{Found, Meta, Refused, check, header_id};
use wb_script::sum_text;
use wb_super::{Super, read_super};

/// The bytes of a sector.
const SECTOR_BYTES: usize = 512;

/// The sectors of a block.
const BLOCK_SECTORS: u64 = 8;

/// Tells what is in a slot of the log, counted from 0. Answers the status.
pub fn inspect_slot<K: Sink, L: Device>(alloc: Global, sink: &mut K, log: &mut L, slot: u64) -> u8
    ensures { SlotEnds slot (lent (K.taken sink.old) (K.taken sink.new) (K.faults sink.old) (K.faults sink.new))
        (L.state log.old) (L.state log.new) result }
{
    let found = match read_super(log) {
        Ok(found) => found,
        Err(refused) => return refuse_log(alloc, sink, refused),
    };
    if slot >= u64::from(found.geometry.slots) {
        return refuse_slot(alloc, sink, slot, found.geometry.slots);
    }
    tell_slot(alloc, sink, log, slot, &found)
}

/// Tells that the log doesn't have the slot. Answers the status.
fn refuse_slot<K: Sink>(alloc: Global, sink: &mut K, slot: u64, slots: u32) -> u8
    ensures { (result ≡ 1) ⊎ ((result ≡ 2)
        × Took (lent (K.taken sink.old) (K.taken sink.new) (K.faults sink.old) (K.faults sink.new)) (no_slot_line slot slots)) }
{
    let Ok(text) = no_slot_text(alloc, slot, slots) else {
        return status::MEMORY;
    };
    tell(sink, text.as_str());
    status::USAGE
}

/// The line for a slot that the log doesn't have.
fn no_slot_text(alloc: Global, slot: u64, slots: u32) -> Result<String, AllocError>
    ensures { IfOk result (λ text. string_bytes text ≡ no_slot_line slot slots) }
{
    format!(in alloc; "wblog: slot {slot} is not below {slots}\n")
}

/// Reads a slot that the log has, and tells what is in it. Answers the status.
fn tell_slot<K: Sink, L: Device>(
    alloc: Global,
    sink: &mut K,
    log: &mut L,
    slot: u64,
    found: &Super,
) -> u8
    requires below { slot < found.now.geometry.slots }
    requires room { log_sectors found.now.geometry ≤ (L.state log.old).sectors }
    ensures log { OnlyRead (L.state log.old) (L.state log.new) }
    ensures faults { CountsFaultsWhere (result ≡ 6) (L.state log.old).faults (L.state log.new).faults }
    ensures ends { (result ≡ 1)
        ⊎ EndsBySlotFault slot found.now (lent (K.taken sink.old) (K.taken sink.new) (K.faults sink.old) (K.faults sink.new)) result
        ⊎ EndsToldSlot slot found.now (lent (K.taken sink.old) (K.taken sink.new) (K.faults sink.old) (K.faults sink.new)) (L.state log.old) result }
{
    let g = &found.geometry;
    let Ok(mut bytes) = vec![in alloc; 0; g.slot_sectors() as usize * SECTOR_BYTES] else {
        return status::MEMORY;
    };
    match log.read(g.slot_start(slot + 1), &mut bytes) {
        Ok(()) => match slot_text(alloc, slot, g, &bytes) {
            Ok(text) => answer(sink, text.as_str()),
            Err(_) => status::MEMORY,
        },
        Err(DeviceFault) => {
            tell(sink, LOG_FAILED);
            status::LOG
        }
    }
}

/// What is told of a slot with these bytes.
fn slot_text(alloc: Global, slot: u64, g: &Geometry, bytes: &[u8]) -> Result<String, AllocError>
    requires { length bytes.now ≡ 512 * slot_sectors g.now }
    ensures { IfOk result (λ text. TellsSlot g.now slot bytes.now (string_bytes text)) }
{
    let id = header_id(bytes);
    if id == 0 {
        return format!(in alloc; "slot {slot} empty\n");
    }
    match check(bytes, id, g.backing_sectors / BLOCK_SECTORS) {
        Ok(found) => segment_text(alloc, slot, &found),
        Err(refused) => refused_slot_text(alloc, slot, id, refused),
    }
}

/// What is told of a slot that begins with the text of a segment.
fn segment_text(alloc: Global, slot: u64, found: &Found) -> Result<String, AllocError>
    ensures { IfOk result (λ text. string_bytes text ≡ segment_line slot found.now ++ entries_text found.now (length_in found.now)) }
{
    let mut text = first_text(alloc, slot, found)?;
    for index in 0..found.length() {
        text.push_str(entry_text(alloc, found.entry(index))?.as_str())?;
    }
    Ok(text)
}

/// The first line of it.
fn first_text(alloc: Global, slot: u64, found: &Found) -> Result<String, AllocError>
    ensures { IfOk result (λ text. string_bytes text ≡ segment_line slot found.now) }
{
    let (id, length) = (found.id(), found.length());
    let sum = sum_text(alloc, found.sum())?;
    format!(in alloc; "slot {slot} id {id} length {length} sum {sum}\n")
}

/// The line of an entry.
fn entry_text(alloc: Global, entry: Meta) -> Result<String, AllocError>
    ensures { (bytes : List ℕ) (j : ℕ) → number_in bytes j ≡ entry.block → bits_in bytes j ≡ entry.bits
        → IfOk result (λ text. string_bytes text ≡ entry_line bytes j) }
{
    let block = entry.block;
    let bits = hex::encode(alloc, &[entry.bits])?;
    format!(in alloc; "block {block} bits {bits}\n")
}

/// The line for a slot that doesn't begin with the text of a segment.
fn refused_slot_text(
    alloc: Global,
    slot: u64,
    id: u64,
    refused: Refused,
) -> Result<String, AllocError>
    ensures { IfOk result (λ text. string_bytes text ≡ refused_slot_line slot id refused) }
{
    let cause = cause_text(alloc, refused)?;
    format!(in alloc; "slot {slot} id {id} refused {cause}\n")
}

/// Why a slot doesn't begin with the text of a segment.
pub fn cause_text(alloc: Global, refused: Refused) -> Result<String, AllocError>
    ensures { IfOk result (λ text. string_bytes text ≡ segment_cause refused) }
{
    match refused {
        Refused::Id(found) => format!(in alloc; "id {found}"),
        Refused::Length(found) => format!(in alloc; "length {found}"),
        Refused::Zeros(at) => format!(in alloc; "zeros {at}"),
        Refused::Entry(index) => format!(in alloc; "entry {index}"),
        Refused::Repeated(index) => format!(in alloc; "repeated {index}"),
        Refused::Sum { stored, computed } => {
            let stored = sum_text(alloc, stored)?;
            let computed = sum_text(alloc, computed)?;
            format!(in alloc; "sum {stored} {computed}")
        }
    }
}
