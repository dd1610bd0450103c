//! The command `format`.
ghost use Rattle.std.specs.Prelude.{◌≤◌};
ghost use Rattle.wb_geometry.specs.Geometry.{IsOrder, IsSlots, IsRam};
ghost use Rattle.wb_tool.specs.Run.{lent};
ghost use Rattle.wb_tool.specs.Format.{Asks, FormatEnds};

use crate::command::Numbers;
use crate::opening::refuse_backing;
use crate::status;
use crate::texts::{LOG_FAILED, answer, formatted_text, small_text, tell};
use std::alloc::Global;
use wb_device::{Device, Sink};
use wb_geometry::{Geometry, Which};
use wb_super::{FormatStop, format};

/// The sectors of a block, and the fewest that are served.
const BLOCK_SECTORS: u64 = 8;

/// The most sectors that are served.
const MOST_SECTORS: u64 = 1 << 40;

/// Makes an empty log of these numbers, for a backing device of so many sectors. Answers the status.
pub fn format_log<K: Sink, L: Device>(
    alloc: Global,
    sink: &mut K,
    log: &mut L,
    sectors: u64,
    numbers: Numbers,
) -> u8
    requires order { IsOrder numbers.order }
    requires slots { IsSlots numbers.slots }
    requires ram { IsRam numbers.ram }
    ensures { FormatEnds numbers sectors
        (lent (K.taken sink.old) (K.taken sink.new) (K.faults sink.old) (K.faults sink.new))
        (L.state log.old) (L.state log.new) result }
{
    if sectors < BLOCK_SECTORS {
        return refuse_backing(alloc, sink, sectors, BLOCK_SECTORS);
    }
    let geometry = geometry_of(numbers, sectors);
    let Ok(text) = formatted_text(alloc, &geometry) else {
        return status::MEMORY;
    };
    match format(log, &geometry) {
        Ok(()) => answer(sink, text.as_str()),
        Err(FormatStop::Fault) => {
            tell(sink, LOG_FAILED);
            status::LOG
        }
        Err(FormatStop::Small { needs, has }) => {
            let Ok(text) = small_text(alloc, Which::Log, has, needs) else {
                return status::MEMORY;
            };
            tell(sink, text.as_str());
            status::SMALL
        }
    }
}

/// The geometry of these numbers over a backing device of so many sectors: its whole blocks, as many as there may be.
fn geometry_of(numbers: Numbers, sectors: u64) -> Geometry
    requires order { IsOrder numbers.order }
    requires slots { IsSlots numbers.slots }
    requires ram { IsRam numbers.ram }
    requires room { 8 ≤ sectors }
    ensures { Asks numbers sectors result }
{
    let whole = sectors - sectors % BLOCK_SECTORS;
    match Geometry::new(
        numbers.order,
        numbers.slots,
        numbers.ram,
        whole.min(MOST_SECTORS),
    ) {
        Ok(geometry) => geometry,
        Err(_) => unreachable!(),
    }
}
