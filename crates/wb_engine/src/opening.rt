//! Opening an engine over its two devices, which recovers them first.
ghost use Rattle.std.specs.Prelude.{◌≡◌, ◌≤◌, ◌<◌, ℕ, Err, IfOk, IfErr};
ghost use Rattle.wb_geometry.specs.Device.{OnlyRead, CountsFaultsWhere};
ghost use Rattle.wb_super.specs.declared.reading.Super.{Super};
ghost use Rattle.wb_super.specs.declared.reading.SuperRefused.TheVariants.{Fault};
ghost use Rattle.wb_crash.specs.Numbers.{all_at};
ghost use Rattle.wb_engine.specs.Opening.{IsOpened, HasRecovered, IsReady, RefusesLog, RefusesOpening, SaysLog, MayOpen, cause_of, most_recorded};

use crate::engine::Engine;
use crate::stepping::BATCH_SEGMENTS;
use std::alloc::{AllocError, Global};
use wb_back::Plan;
use wb_crash::Numbers;
use wb_device::Device;
use wb_geometry::Geometry;
use wb_memory::Memory;
use wb_replay::{ReplayStop, replay};
use wb_super::{Super, SuperRefused, read_super};

/// Why an engine wasn't opened: the first of these causes that applies, in this order.
#[derive(Clone, Copy, Debug, PartialEq, Eq)]
pub enum OpenCause {
    /// The superblock is refused, or can't be read.
    Super(SuperRefused),
    /// The record leaves no ids for a session: it is above `2 ^ 48` less twice the slots.
    IdsSpent(u64),
    /// The backing device has `has` sectors, and the superblock names `needs`.
    Backing { needs: u64, has: u64 },
    /// There was no memory for the engine. Neither device was written or synced.
    Memory,
    /// The log failed as it was recovered. It can be opened again.
    LogFault,
    /// The backing device failed as it was recovered. It can be opened again.
    BackingFault,
    /// The id in a slot, counted from 0, is too high for this log: above the record and the number of slots. It is the
    /// least such slot. Neither device was written.
    Stray { slot: u32, id: u64 },
}

/// An engine that wasn't opened: the devices, given back, and why.
#[derive(Drop)]
pub struct OpenStop<L: Device, B: Device> {
    pub log: L,
    pub backing: B,
    pub cause: OpenCause,
}

/// The greatest id of a segment.
const MOST_ID: u64 = 1 << 48;

/// The bytes of a sector.
const SECTOR_BYTES: usize = 512;

/// What an opened engine has beside its devices.
#[derive(Drop)]
struct Opened {
    geometry: Geometry,
    recorded: u64,
    memory: Memory,
    plan: Plan,
    scratch: Vec<u8>,
}

impl<L: Device, B: Device> Engine<L, B> {
    /// Opens a cache over a log and the backing device that it stands before. The superblock is read and judged, and all
    /// the memory that the engine ever needs is taken. Then what the log has behind its record is recovered: it is put to
    /// the backing device, which is synced, and the record is raised behind all slots (docs/CRASH.md). The ids of the
    /// session begin there.
    pub fn open(alloc: Global, log: L, backing: B) -> Result<Engine<L, B>, OpenStop<L, B>>
        ensures opened { IfOk result (IsOpened L.state B.state (L.state log) (B.state backing)) }
        ensures refused { IfErr result (λ stop. RefusesOpening stop.cause (L.state log) (L.state stop.log) (B.state backing) (B.state stop.backing)) }
        ensures log_cause { IfErr result (λ stop. CountsFaultsWhere (SaysLog stop.cause) (L.state log).faults (L.state stop.log).faults) }
        ensures backing_cause { IfErr result (λ stop. CountsFaultsWhere (stop.cause ≡ OpenCause.BackingFault) (B.state backing).faults (B.state stop.backing).faults) }
    {
        let mut log = log;
        let mut backing = backing;
        match prepare(alloc, &mut log, &mut backing) {
            Ok(opened) => Ok(Engine {
                geometry: opened.geometry,
                numbers: all_at(opened.recorded),
                absorbed: 0,
                down: None,
                log,
                backing,
                memory: opened.memory,
                plan: opened.plan,
                scratch: opened.scratch,
            }),
            Err(cause) => Err(OpenStop {
                log,
                backing,
                cause,
            }),
        }
    }
}

/// The superblock, judged, and the memory for its geometry; and then both devices, recovered.
fn prepare<L: Device, B: Device>(
    alloc: Global,
    log: &mut L,
    backing: &mut B,
) -> Result<Opened, OpenCause>
    ensures ready { IfOk result (λ o. (found : Super)
        × HasRecovered found (L.state log.old) (L.state log.new) (B.state backing.old) (B.state backing.new)
        × IsReady found o.geometry o.recorded o.memory o.plan.room o.scratch.items) }
    ensures refused { IfErr result (λ cause. RefusesOpening cause (L.state log.old) (L.state log.new) (B.state backing.old) (B.state backing.new)) }
    ensures log_faults { IfOk result (λ o. (L.state log.new).faults ≡ (L.state log.old).faults) }
    ensures backing_faults { IfOk result (λ o. (B.state backing.new).faults ≡ (B.state backing.old).faults) }
    ensures log_cause { IfErr result (λ cause. CountsFaultsWhere (SaysLog cause) (L.state log.old).faults (L.state log.new).faults) }
    ensures backing_cause { IfErr result (λ cause. CountsFaultsWhere (cause ≡ OpenCause.BackingFault) (B.state backing.old).faults (B.state backing.new).faults) }
{
    let found = judge(log, backing.sectors())?;
    let Ok(mut opened) = take_memory(alloc, &found) else {
        return Err(OpenCause::Memory);
    };
    match replay(log, backing, &found, &mut opened.scratch) {
        Ok(_) => Ok(opened),
        Err(stop) => Err(cause_of(stop)),
    }
}

/// The superblock, where it is good, its record leaves ids for a session, and the backing device has its sectors.
fn judge<L: Device>(log: &mut L, has: u64) -> Result<Super, OpenCause>
    ensures found { IfOk result (MayOpen (L.state log.old) has) }
    ensures refused { IfErr result (RefusesLog (L.state log.old) has) }
    ensures only_read { OnlyRead (L.state log.old) (L.state log.new) }
    ensures cause { CountsFaultsWhere (result ≡ Err (OpenCause.Super Fault)) (L.state log.old).faults (L.state log.new).faults }
{
    let found = match read_super(log) {
        Ok(found) => found,
        Err(refused) => return Err(OpenCause::Super(refused)),
    };
    if found.recorded > MOST_ID - 2 * u64::from(found.geometry.slots) {
        return Err(OpenCause::IdsSpent(found.recorded));
    }
    let needs = found.geometry.backing_sectors;
    if has < needs {
        return Err(OpenCause::Backing { needs, has });
    }
    Ok(found)
}

/// The memory of an engine of this geometry, whose ids begin behind the record of the recovered log.
fn take_memory(alloc: Global, found: &Super) -> Result<Opened, AllocError>
    requires ids { found.now.recorded ≤ most_recorded found.now.geometry.slots }
    ensures { IfOk result (λ o. IsReady found.now o.geometry o.recorded o.memory o.plan.room o.scratch.items) }
{
    let geometry = found.geometry;
    let recorded = found.recorded + u64::from(geometry.slots);
    let memory = Memory::new(alloc, &geometry, recorded)?;
    let plan = Plan::new(alloc, BATCH_SEGMENTS as usize * geometry.places() as usize)?;
    let scratch = vec![in alloc; 0; SECTOR_BYTES * geometry.slot_sectors() as usize]?;
    Ok(Opened {
        geometry,
        recorded,
        memory,
        plan,
        scratch,
    })
}

/// Why the engine isn't opened where its recovery stopped.
fn cause_of(stop: ReplayStop) -> OpenCause
    ensures { result ≡ cause_of stop }
{
    match stop {
        ReplayStop::Stray { slot, id } => OpenCause::Stray { slot, id },
        ReplayStop::LogFault => OpenCause::LogFault,
        ReplayStop::BackingFault => OpenCause::BackingFault,
    }
}

/// All numbers are this one.
fn all_at(id: u64) -> Numbers
    ensures { result ≡ all_at id }
{
    Numbers {
        first: id,
        recorded: id,
        back: id,
        stable: id,
        logged: id,
        tried: id,
        sealed: id,
    }
}
