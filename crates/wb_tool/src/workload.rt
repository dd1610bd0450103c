//! The command `workload`.
ghost use Rattle.std.specs.Prelude.{◌≡◌, ◌⊎◌, ◌+◌, ◌≤◌, ◌++◌, ℕ, Bool, List, Some, IfOk, IfErr, OnOk};
ghost use Rattle.std.specs.String.{string_bytes};
ghost use Rattle.wb_geometry.specs.Image.{Image, bytes_at};
ghost use Rattle.wb_geometry.specs.Device.{OnlyRead, CountsFaults, HasCause};
ghost use Rattle.wb_sum.specs.Crc32c.{sum_of};
ghost use Rattle.wb_script.specs.Valid.{IsValid};
ghost use Rattle.wb_serve.specs.Session.{devices};
ghost use Rattle.wb_tool.specs.Run.{Lent, IsUntouched, run_of, lent};
ghost use Rattle.wb_tool.specs.Begun.{HasBegunWorkload};
ghost use Rattle.wb_tool.specs.Ends.{Leaves, EndsServing, IsLeftBy};
ghost use Rattle.wb_tool.specs.Stages.{IsServedBy, IsUnread, IsSummed};
ghost use Rattle.wb_tool.specs.Workload.{WorkloadAccount, EndsWorkload, ServedWorkload, IsLeftByWorkload, script_of, region_of, counts_of, line_of};

use crate::command::WorkloadNumbers;
use crate::opening::{judge_devices, refuse_backing};
use crate::running::{Begun, Outcome};
use crate::serving::{refuse_session, tell_fault};
use crate::status;
use crate::texts::{BACKING_FAILED, answer, tell};
use std::alloc::{AllocError, Global};
use wb_device::{Device, DeviceFault, Sink};
use wb_script::{Script, generate, sum_text};
use wb_serve::{Served, Session};
use wb_sum::Sum;

/// The sectors of a region are a multiple of this.
const REGION_UNIT: u64 = 32;

/// The most sectors of a region.
const MOST_SECTORS: u64 = 65_536;

/// The clients of a workload.
const CLIENTS: u64 = 4;

/// One request of so many is a flush.
const FLUSH_PERIOD: u64 = 125;

/// The sectors that are read at a time.
const PIECE_SECTORS: u64 = 32;

/// The bytes of a sector.
const SECTOR_BYTES: usize = 512;

/// The first five stages of a workload, before its session: both devices are judged, and its script is made.
pub fn prepare_workload<K: Sink, L: Device, B: Device>(
    alloc: Global,
    sink: &mut K,
    log: L,
    backing: B,
    numbers: WorkloadNumbers,
) -> Result<Begun<L, B>, Outcome<L, B>>
    requires some { 1 ≤ numbers.count }
    requires few { numbers.count ≤ 25000 }
    ensures begun { IfOk result (λ begun. HasBegunWorkload numbers
        (lent (K.taken sink.old) (K.taken sink.new) (K.faults sink.old) (K.faults sink.new))
        (L.state log) (L.state begun.log) (B.state backing) begun.script) }
    ensures kept { IfOk result (λ begun. begun.backing ≡ backing) }
    ensures ended { IfErr result (λ end. (in_turn : Bool) (source : Lent) → IsUntouched source → WorkloadAccount numbers (run_of in_turn source
        (lent (K.taken sink.old) (K.taken sink.new) (K.faults sink.old) (K.faults sink.new))
        (L.state log) (L.state end.log) (B.state backing) (B.state end.backing)
        end.status end.transcripts.items end.places)) }
{
    let mut log = log;
    match judge_devices(alloc, sink, &mut log, &backing) {
        Ok(found) => {
            let sectors = found.geometry.backing_sectors;
            make_script(alloc, sink, log, backing, numbers, sectors)
        }
        Err(status) => Err(Outcome::without_session(alloc, status, log, backing)),
    }
}

/// The sectors that the workload is for, of a cache of so many, and its script.
fn make_script<K: Sink, L: Device, B: Device>(
    alloc: Global,
    sink: &mut K,
    log: L,
    backing: B,
    numbers: WorkloadNumbers,
    sectors: u64,
) -> Result<Begun<L, B>, Outcome<L, B>>
    requires some { 1 ≤ numbers.count }
    requires few { numbers.count ≤ 25000 }
    ensures script { IfOk result (λ begun. IsValid begun.script × (32 ≤ sectors) × (begun.script ≡ script_of numbers (region_of sectors))) }
    ensures kept { IfOk result (λ begun. (begun.log ≡ log) × (begun.backing ≡ backing) × IsUntouched (lent (K.taken sink.old) (K.taken sink.new) (K.faults sink.old) (K.faults sink.new))) }
    ensures ended { IfErr result (λ end. (in_turn : Bool) (source : Lent) → Leaves (EndsWorkload numbers sectors) (IsLeftByWorkload numbers sectors) (run_of in_turn source
        (lent (K.taken sink.old) (K.taken sink.new) (K.faults sink.old) (K.faults sink.new))
        (L.state log) (L.state end.log) (B.state backing) (B.state end.backing)
        end.status end.transcripts.items end.places)) }
{
    let region = sectors.min(MOST_SECTORS) / REGION_UNIT * REGION_UNIT;
    if region == 0 {
        let status = refuse_backing(alloc, sink, sectors, REGION_UNIT);
        return Err(Outcome::without_session(alloc, status, log, backing));
    }
    match generate(alloc, numbers.seed, numbers.count, region) {
        Ok(script) => Ok(Begun {
            log,
            backing,
            script,
        }),
        Err(_) => Err(Outcome::without_session(alloc, status::MEMORY, log, backing)),
    }
}

/// The last stage, behind a session over a cache that was opened for it: the line is told, or why there was none.
pub fn tell_sum<K: Sink, L: Device, B: Device>(
    alloc: Global,
    sink: &mut K,
    numbers: WorkloadNumbers,
    script: &Script,
    served: Served<L, B>,
) -> Outcome<L, B>
    requires few { numbers.count ≤ 25000 }
    requires generated { script.now ≡ script_of numbers script.now.sectors }
    ensures { (in_turn : Bool) (source : Lent) (log : L) (backing : B) → IsServedBy in_turn script.now (devices (L.state log) (B.state backing)) (devices (L.state served.log) (B.state served.backing)) served.answer
        → Leaves (EndsServing (ServedWorkload numbers script.now.sectors) script.now.sectors) (IsLeftBy script.now) (run_of in_turn source
        (lent (K.taken sink.old) (K.taken sink.new) (K.faults sink.old) (K.faults sink.new))
        (L.state log) (L.state result.log) (B.state backing) (B.state result.backing)
        result.status result.transcripts.items result.places) }
{
    let Served {
        log,
        backing,
        answer,
    } = served;
    let mut backing = backing;
    match answer {
        Ok(session) => {
            let status = conclude(
                alloc,
                sink,
                &mut backing,
                numbers,
                script.sectors(),
                &session,
            );
            Outcome {
                status,
                transcripts: session.transcripts,
                places: session.places,
                log,
                backing,
            }
        }
        Err(stop) => {
            let status = refuse_session(alloc, sink, stop);
            Outcome::without_session(alloc, status, log, backing)
        }
    }
}

/// Tells the line of a workload over a region, behind its session; or why the session ended badly, or that the region couldn't
/// be read. Answers the status.
fn conclude<K: Sink, B: Device>(
    alloc: Global,
    sink: &mut K,
    backing: &mut B,
    numbers: WorkloadNumbers,
    region: u64,
    session: &Session,
) -> u8
    requires few { numbers.count ≤ 25000 }
    ensures read { OnlyRead (B.state backing.old) (B.state backing.new) }
    ensures ends { IsUnread (lent (K.taken sink.old) (K.taken sink.new) (K.faults sink.old) (K.faults sink.new))
        (B.state backing.old) (B.state backing.new) result session.now.log_failed session.now.backing_failed
        ⊎ IsSummed (line_of numbers region) region (lent (K.taken sink.old) (K.taken sink.new) (K.faults sink.old) (K.faults sink.new))
        (B.state backing.old) (B.state backing.new) result
        session.now.places session.now.ids session.now.log_failed session.now.backing_failed }
{
    let status = tell_fault(alloc, sink, session);
    if status != status::DONE {
        return status;
    }
    let Ok(sum) = sum_front(backing, region) else {
        tell(sink, BACKING_FAILED);
        return status::BACKING;
    };
    match workload_text(alloc, numbers, sum) {
        Ok(text) => answer(sink, text.as_str()),
        Err(_) => status::MEMORY,
    }
}

/// The checksum of the first sectors of a device: so many, or all where it has fewer.
fn sum_front<B: Device>(device: &mut B, sectors: u64) -> Result<u32, DeviceFault>
    ensures sum { IfOk result (λ sum. (image : Image) → (B.state device.old).content ≡ Some image → sum ≡ sum_of (bytes_at image 0 sectors)) }
    ensures read { OnlyRead (B.state device.old) (B.state device.new) }
    ensures cause { HasCause (B.state device.old) (B.state device.new) result }
{
    let end = sectors.min(device.sectors());
    let mut sum = Sum::new();
    for piece in 0..end.div_ceil(PIECE_SECTORS) {
        let at = piece * PIECE_SECTORS;
        add_piece(device, &mut sum, at, PIECE_SECTORS.min(end - at))?;
    }
    Ok(sum.finish())
}

/// Adds these sectors of a device to a checksum.
fn add_piece<B: Device>(
    device: &mut B,
    sum: &mut Sum,
    at: u64,
    count: u64,
) -> Result<(), DeviceFault>
    requires some { 1 ≤ count }
    requires few { count ≤ 32 }
    requires inside { at + count ≤ (B.state device.old).sectors }
    ensures sum { OnOk result ((image : Image) → (B.state device.old).content ≡ Some image → (before : List ℕ) → sum.old ≡ sum_of before
        → sum.new ≡ sum_of (before ++ bytes_at image at count)) }
    ensures read { OnlyRead (B.state device.old) (B.state device.new) }
    ensures cause { HasCause (B.state device.old) (B.state device.new) result }
{
    let mut bytes = [0; PIECE_SECTORS as usize * SECTOR_BYTES];
    let piece = &mut bytes[..count as usize * SECTOR_BYTES];
    device.read(at, piece)?;
    sum.update(piece);
    Ok(())
}

/// The line of a workload, over whatever region.
fn workload_text(alloc: Global, numbers: WorkloadNumbers, sum: u32) -> Result<String, AllocError>
    requires few { numbers.count ≤ 25000 }
    ensures { (region : ℕ) → IfOk result (λ text. string_bytes text ≡ line_of numbers region sum) }
{
    let (seed, clients) = (numbers.seed, CLIENTS);
    let counts = counts_text(alloc, numbers)?;
    let sum = sum_text(alloc, sum)?;
    format!(in alloc; "workload seed {seed} clients {clients} {counts} sum {sum}\n")
}

/// How many requests a workload has, and how many of each kind.
fn counts_text(alloc: Global, numbers: WorkloadNumbers) -> Result<String, AllocError>
    requires few { numbers.count ≤ 25000 }
    ensures { (region : ℕ) → IfOk result (λ text. string_bytes text ≡ counts_of numbers region) }
{
    let count = numbers.count;
    let requests = CLIENTS * count;
    let flushes = count / FLUSH_PERIOD;
    // requests of even number are writes, but for each second flush, beginning with the first
    let writes = CLIENTS * ((count + 1) / 2 - (flushes + 1) / 2);
    let reads = CLIENTS * (count / 2 - flushes / 2);
    let flushes = CLIENTS * flushes;
    format!(in alloc; "requests {requests} writes {writes} reads {reads} flushes {flushes}")
}
