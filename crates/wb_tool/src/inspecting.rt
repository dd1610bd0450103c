//! The command `inspect`.
ghost use Rattle.wb_tool.specs.Run.{lent};
ghost use Rattle.wb_tool.specs.Inspect.{InspectEnds};

use crate::opening::refuse_log;
use crate::status;
use crate::texts::{answer, inspected_text};
use std::alloc::Global;
use wb_device::{Device, Sink};
use wb_super::read_super;

/// Tells the superblock of the log. Answers the status.
pub fn inspect_log<K: Sink, L: Device>(alloc: Global, sink: &mut K, log: &mut L) -> u8
    ensures { InspectEnds (lent (K.taken sink.old) (K.taken sink.new) (K.faults sink.old) (K.faults sink.new))
        (L.state log.old) (L.state log.new) result }
{
    match read_super(log) {
        Err(refused) => refuse_log(alloc, sink, refused),
        Ok(found) => match inspected_text(alloc, &found) {
            Ok(text) => answer(sink, text.as_str()),
            Err(_) => status::MEMORY,
        },
    }
}
