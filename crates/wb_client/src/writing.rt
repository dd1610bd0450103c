//! Writes of a client.
ghost use Rattle.std.specs.Prelude.{◌≡◌, [], IfOk};
ghost use Rattle.wb_geometry.specs.Layout.{places as segment_places};
ghost use Rattle.wb_steps.specs.Rule.{shape_of};
ghost use Rattle.wb_intake.specs.Passes.{pass_name, client_of_pass, view_of};
ghost use Rattle.wb_front.specs.Requests.{IsPassOf};
ghost use Rattle.wb_script.specs.Valid.{IsWithin, Fills};
ghost use Rattle.wb_client.specs.Client.{IsStopOf, IsWritten, IsForced};

use crate::flushing::flush;
use std::alloc::{AllocError, Global};
use std::sync::Wait;
use wb_buffers::repeat;
use wb_device::Device;
use wb_front::{Front, Gate, WriteCause, WriteStop};
use wb_geometry::Places;
use wb_intake::{Named, Pass};
use wb_script::{Line, Pattern, Stop, Taken};

const SECTOR_BYTES: usize = 512;

/// Writes sectors. Answers with the places that its parts took, and how it ended. An `Err` is want of memory, for which no
/// place was taken.
pub(crate) fn write<L: Device, B: Device, G: Gate, T: Named, R: Wait>(
    rt: &R,
    alloc: Global,
    front: &Front<'_, L, B, G, T>,
    pass: &mut Pass,
    bytes: &mut Vec<u8>,
    sector: u64,
    count: u64,
    pattern: &Pattern,
) -> Result<(Places, Stop), AllocError>
    requires own { IsPassOf T.carried pass.old }
    requires within { IsWithin T.carried.geometry.backing_sectors sector count }
    requires fills { Fills pattern.now count }
    ensures own { (pass_name pass.new ≡ pass_name pass.old) × (client_of_pass pass.new ≡ client_of_pass pass.old) × ((view_of pass.new).unfilled ≡ []) }
    ensures written { IfOk result (λ r. IsWritten (shape_of T.carried.geometry T.carried.first) (client_of_pass pass.old) (view_of pass.old) (view_of pass.new) sector count pattern.now r.0 r.1) }
{
    repeat(bytes, pattern.as_slice(), SECTOR_BYTES * count as usize)?;
    match front.write(rt, alloc, pass, sector, bytes) {
        Ok(places) => Ok((places, Stop::Whole)),
        Err(WriteStop { places, cause }) => Ok((places, stop_of(cause)?)),
    }
}

/// Why a write ended that was stopped. `Err` is want of memory.
fn stop_of(cause: WriteCause) -> Result<Stop, AllocError>
    ensures { IfOk result (IsStopOf cause) }
{
    match cause {
        WriteCause::Memory => Err(AllocError),
        WriteCause::IdsSpent { .. } => Ok(Stop::Ids),
        WriteCause::Down { device } => Ok(Stop::Down { device }),
    }
}

/// The line of a write with `fua` that took these places, which is flushed where it is whole.
pub(crate) fn forced<L: Device, B: Device, G: Gate, T: Named, R: Wait>(
    rt: &R,
    front: &Front<'_, L, B, G, T>,
    pass: &mut Pass,
    places: Places,
    stop: Stop,
) -> Line<'static>
    requires own { IsPassOf T.carried pass.old }
    ensures own { (pass_name pass.new ≡ pass_name pass.old) × (client_of_pass pass.new ≡ client_of_pass pass.old) × ((view_of pass.new).unfilled ≡ []) }
    ensures forced { IsForced (segment_places T.carried.geometry) (client_of_pass pass.old) (view_of pass.old) (view_of pass.new) places stop result }
{
    let flush = match stop {
        Stop::Whole => Some(flush(rt, front, pass)),
        _ => None,
    };
    Line::Forced {
        places: Taken::of(places),
        flush,
        stop,
    }
}
