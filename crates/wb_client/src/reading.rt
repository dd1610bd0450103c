//! Reads of a client.
ghost use Rattle.std.specs.Prelude.{◌≡◌, [], ◌∷◌, length, OnOk};
ghost use Rattle.wb_intake.specs.Passes.{pass_name, client_of_pass, view_of};
ghost use Rattle.wb_front.specs.Requests.{IsPassOf};
ghost use Rattle.wb_script.specs.Valid.{IsWithin};
ghost use Rattle.wb_script.specs.declared.request.Request.TheVariants.{Read, ReadSum};
ghost use Rattle.wb_geometry.specs.Layout.{places};
ghost use Rattle.wb_client.specs.Client.{ArePlayed, IsPostedLine, AddsLine};

use std::alloc::{AllocError, Global};
use std::sync::Wait;
use wb_buffers::sum_of;
use wb_device::Device;
use wb_front::{Front, Gate};
use wb_intake::{Named, Pass};
use wb_script::{Line, Shown, Transcript};

const SECTOR_BYTES: usize = 512;

/// Reads sectors, and answers with their bytes and the point at which they were read, or the device that failed. An `Err` is
/// want of memory for the line.
pub(crate) fn read<L: Device, B: Device, G: Gate, T: Named, R: Wait>(
    rt: &R,
    alloc: Global,
    front: &Front<'_, L, B, G, T>,
    pass: &mut Pass,
    shown: &mut [u8],
    sector: u64,
    count: u64,
    transcript: &mut Transcript,
) -> Result<(), AllocError>
    requires own { IsPassOf T.carried pass.old }
    requires within { IsWithin T.carried.geometry.backing_sectors sector count }
    requires sized { length shown.old ≡ 131072 }
    ensures own { (pass_name pass.new ≡ pass_name pass.old) × (client_of_pass pass.new ≡ client_of_pass pass.old) × ((view_of pass.new).unfilled ≡ []) }
    ensures sized { length shown.new ≡ 131072 }
    ensures answered { OnOk result (AddsLine T.carried (client_of_pass pass.old) (view_of pass.old) (view_of pass.new) (Read sector count) transcript.old transcript.new) }
{
    let bytes = &mut shown[..SECTOR_BYTES * count as usize];
    match front.read(rt, pass, sector, bytes) {
        Ok(point) => {
            let payload = Shown::of(bytes);
            transcript.push(alloc, &Line::Got { point, payload })
        }
        Err(device) => transcript.push(alloc, &Line::Failed { device }),
    }
}

/// Reads sectors, and answers with the checksum of their bytes and the point at which they were read, or the device that
/// failed.
pub(crate) fn read_sum<L: Device, B: Device, G: Gate, T: Named, R: Wait>(
    rt: &R,
    front: &Front<'_, L, B, G, T>,
    pass: &mut Pass,
    shown: &mut [u8],
    sector: u64,
    count: u64,
) -> Line<'static>
    requires own { IsPassOf T.carried pass.old }
    requires within { IsWithin T.carried.geometry.backing_sectors sector count }
    requires sized { length shown.old ≡ 131072 }
    ensures own { (pass_name pass.new ≡ pass_name pass.old) × (client_of_pass pass.new ≡ client_of_pass pass.old) × ((view_of pass.new).unfilled ≡ []) }
    ensures sized { length shown.new ≡ 131072 }
    ensures answered { ArePlayed T.carried (client_of_pass pass.old) (view_of pass.old) (view_of pass.new) [] [] (ReadSum sector count ∷ []) (result ∷ []) }
    ensures posted { IsPostedLine (places T.carried.geometry) (view_of pass.new) result }
{
    let bytes = &mut shown[..SECTOR_BYTES * count as usize];
    match front.read(rt, pass, sector, bytes) {
        Ok(point) => Line::Summed {
            point,
            sum: sum_of(bytes),
        },
        Err(device) => Line::Failed { device },
    }
}
