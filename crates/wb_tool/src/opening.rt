//! Whether the log and the backing device are good for a session, and how a command ends where one of them is refused.
ghost use Rattle.std.specs.Prelude.{◌≡◌, ◌⊎◌, ◌≤◌, ◌-◌, ◌*◌, ◌^◌, IfOk, IfErr};
ghost use Rattle.wb_geometry.specs.Device.{OnlyRead};
ghost use Rattle.wb_geometry.specs.declared.which.Which.TheVariants.{Backing};
ghost use Rattle.wb_tool.specs.Run.{lent, Took};
ghost use Rattle.wb_tool.specs.Texts.{super_line, super_status, small_line, spent_record_line, changed_line, stray_line};
ghost use Rattle.wb_tool.specs.Stages.{IsGood, IsBad};
ghost use Rattle.wb_super.specs.declared.reading.SuperRefused.TheVariants.{Fault};

use crate::status;
use crate::texts::{
    LOG_FAILED, changed_text, small_text, spent_record_text, stray_text, super_text, tell,
};
use std::alloc::Global;
use wb_device::{Device, Sink};
use wb_geometry::Which;
use wb_super::{Super, SuperRefused, read_super};

/// The number of ids.
const IDS: u64 = 1 << 48;

/// The first three stages of a session: the superblock, the ids that its record leaves, and the size of the backing device.
/// Where one of them refuses the devices that is told, and the status is answered.
pub fn judge_devices<K: Sink, L: Device, B: Device>(
    alloc: Global,
    sink: &mut K,
    log: &mut L,
    backing: &B,
) -> Result<Super, u8>
    ensures read { OnlyRead (L.state log.old) (L.state log.new) }
    ensures good { IfOk result (IsGood (lent (K.taken sink.old) (K.taken sink.new) (K.faults sink.old) (K.faults sink.new))
        (L.state log.old) (L.state log.new) (B.state backing.now).sectors) }
    ensures bad { IfErr result (IsBad (lent (K.taken sink.old) (K.taken sink.new) (K.faults sink.old) (K.faults sink.new))
        (L.state log.old) (L.state log.new) (B.state backing.now).sectors) }
{
    let found = match read_super(log) {
        Ok(found) => found,
        Err(refused) => return Err(refuse_log(alloc, sink, refused)),
    };
    let geometry = found.geometry;
    if found.recorded > most_recorded(geometry.slots) {
        return Err(refuse_ids(alloc, sink, found.recorded));
    }
    let sectors = backing.sectors();
    if sectors < geometry.backing_sectors {
        return Err(refuse_backing(alloc, sink, sectors, geometry.backing_sectors));
    }
    Ok(found)
}

/// The greatest record that leaves ids for a session, of a log with so many slots.
fn most_recorded(slots: u32) -> u64
    requires { slots ≤ 2 ^ 14 }
    ensures { result ≡ 2 ^ 48 - 2 * slots }
{
    IDS - 2 * u64::from(slots)
}

/// Tells why the superblock is refused, or that it can't be read. Answers the status.
pub fn refuse_log<K: Sink>(alloc: Global, sink: &mut K, refused: SuperRefused) -> u8
    ensures told { (result ≡ 1) ⊎ ((result ≡ super_status refused)
        × Took (lent (K.taken sink.old) (K.taken sink.new) (K.faults sink.old) (K.faults sink.new)) (super_line refused)) }
    ensures fault { refused ≡ Fault → result ≡ 6 }
{
    if let SuperRefused::Fault = refused {
        tell(sink, LOG_FAILED);
        return status::LOG;
    }
    let Ok(text) = super_text(alloc, refused) else {
        return status::MEMORY;
    };
    tell(sink, text.as_str());
    match refused {
        SuperRefused::Small { .. } => status::SMALL,
        _ => status::IMAGE,
    }
}

/// Tells that the backing device is too small. Answers the status.
pub fn refuse_backing<K: Sink>(alloc: Global, sink: &mut K, has: u64, needs: u64) -> u8
    ensures { (result ≡ 1) ⊎ ((result ≡ 9)
        × Took (lent (K.taken sink.old) (K.taken sink.new) (K.faults sink.old) (K.faults sink.new)) (small_line Backing has needs)) }
{
    let Ok(text) = small_text(alloc, Which::Backing, has, needs) else {
        return status::MEMORY;
    };
    tell(sink, text.as_str());
    status::SMALL
}

/// Tells that the record of the log leaves no ids. Answers the status.
pub fn refuse_ids<K: Sink>(alloc: Global, sink: &mut K, recorded: u64) -> u8
    ensures { (result ≡ 1) ⊎ ((result ≡ 10)
        × Took (lent (K.taken sink.old) (K.taken sink.new) (K.faults sink.old) (K.faults sink.new)) (spent_record_line recorded)) }
{
    let Ok(text) = spent_record_text(alloc, recorded) else {
        return status::MEMORY;
    };
    tell(sink, text.as_str());
    status::IDS
}

/// Tells that the log has other backing sectors than the script was parsed for. Answers the status.
pub fn refuse_change<K: Sink>(alloc: Global, sink: &mut K, parsed: u64, found: u64) -> u8
    ensures { (result ≡ 1) ⊎ ((result ≡ 8)
        × Took (lent (K.taken sink.old) (K.taken sink.new) (K.faults sink.old) (K.faults sink.new)) (changed_line parsed found)) }
{
    let Ok(text) = changed_text(alloc, parsed, found) else {
        return status::MEMORY;
    };
    tell(sink, text.as_str());
    status::IMAGE
}

/// Tells which slot of the log has an id that is too high. Answers the status.
pub fn refuse_stray<K: Sink>(alloc: Global, sink: &mut K, slot: u32, id: u64) -> u8
    ensures { (result ≡ 1) ⊎ ((result ≡ 8)
        × Took (lent (K.taken sink.old) (K.taken sink.new) (K.faults sink.old) (K.faults sink.new)) (stray_line slot id)) }
{
    let Ok(text) = stray_text(alloc, slot, id) else {
        return status::MEMORY;
    };
    tell(sink, text.as_str());
    status::IMAGE
}
