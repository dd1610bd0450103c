//! The fault lines, and the lines that `format` and `inspect` answer.
ghost use Rattle.std.specs.Prelude.{◌≡◌, IfOk};
ghost use Rattle.std.specs.String.{string_bytes};
ghost use Rattle.wb_tool.specs.Run.{lent, Took, EndsTelling};
ghost use Rattle.wb_tool.specs.Texts.{small_line, refused_line, spent_record_line, spent_line, changed_line, stray_line, super_line, geometry_text, formatted_line, inspected_line};

use crate::status;
use std::alloc::{AllocError, Global};
use wb_device::Sink;
use wb_geometry::{Geometry, Which};
use wb_script::{ScriptRefused, sum_text};
use wb_super::{Super, SuperRefused};

pub const USAGE: &str = "wblog: usage\n";

pub const SOURCE_FAILED: &str = "wblog: source failed\n";

pub const LOG_FAILED: &str = "wblog: log device failed\n";

pub const BACKING_FAILED: &str = "wblog: backing device failed\n";

/// The line for a device that has too few sectors.
pub fn small_text(alloc: Global, device: Which, has: u64, needs: u64) -> Result<String, AllocError>
    ensures { IfOk result (λ text. string_bytes text ≡ small_line device has needs) }
{
    match device {
        Which::Log => format!(in alloc; "wblog: log device has {has} sectors, needs {needs}\n"),
        Which::Backing => {
            format!(in alloc; "wblog: backing device has {has} sectors, needs {needs}\n")
        }
    }
}

/// The line for a script that is refused.
pub fn refused_text(alloc: Global, refused: ScriptRefused) -> Result<String, AllocError>
    ensures { IfOk result (λ text. string_bytes text ≡ refused_line refused.line refused.cause) }
{
    let line = refused.line;
    let cause = refused.cause;
    format!(in alloc; "wblog: script line {line}: {cause}\n")
}

/// The line for a record that leaves no ids for a session.
pub fn spent_record_text(alloc: Global, recorded: u64) -> Result<String, AllocError>
    ensures { IfOk result (λ text. string_bytes text ≡ spent_record_line recorded) }
{
    format!(in alloc; "wblog: ids spent, record {recorded}\n")
}

/// The line for a session in which a write found no id. So many places were taken.
pub fn spent_text(alloc: Global, places: u64) -> Result<String, AllocError>
    ensures { IfOk result (λ text. string_bytes text ≡ spent_line places) }
{
    format!(in alloc; "wblog: ids spent, place {places}\n")
}

/// The line for a log whose backing sectors are other than those that the script was parsed for.
pub fn changed_text(alloc: Global, parsed: u64, found: u64) -> Result<String, AllocError>
    ensures { IfOk result (λ text. string_bytes text ≡ changed_line parsed found) }
{
    format!(in alloc; "wblog: log image: changed {parsed} {found}\n")
}

/// The line for a slot of the log whose id is too high.
pub fn stray_text(alloc: Global, slot: u32, id: u64) -> Result<String, AllocError>
    ensures { IfOk result (λ text. string_bytes text ≡ stray_line slot id) }
{
    format!(in alloc; "wblog: log image: stray slot {slot} id {id}\n")
}

/// The line for a superblock that is refused, or can't be read.
pub fn super_text(alloc: Global, refused: SuperRefused) -> Result<String, AllocError>
    ensures { IfOk result (λ text. string_bytes text ≡ super_line refused) }
{
    match refused {
        SuperRefused::Small { needs, has } => small_text(alloc, Which::Log, has, needs),
        SuperRefused::Fault => String::from_str(alloc, LOG_FAILED),
        SuperRefused::Magic => String::from_str(alloc, "wblog: log image: magic\n"),
        SuperRefused::Version(version) => {
            format!(in alloc; "wblog: log image: version {version}\n")
        }
        SuperRefused::Sum { stored, computed } => {
            let stored = sum_text(alloc, stored)?;
            let computed = sum_text(alloc, computed)?;
            format!(in alloc; "wblog: log image: sum {stored} {computed}\n")
        }
        SuperRefused::Geometry => String::from_str(alloc, "wblog: log image: geometry\n"),
        SuperRefused::Record(found) => format!(in alloc; "wblog: log image: record {found}\n"),
    }
}

/// The numbers of a geometry, each behind its name.
fn geometry_text(alloc: Global, g: &Geometry) -> Result<String, AllocError>
    ensures { IfOk result (λ text. string_bytes text ≡ geometry_text g.now) }
{
    let (order, slots, ram) = (g.order, g.slots, g.ram);
    let sectors = g.backing_sectors;
    format!(in alloc; "order {order} slots {slots} ram {ram} backing {sectors}")
}

/// The line for a log that was formatted.
pub fn formatted_text(alloc: Global, g: &Geometry) -> Result<String, AllocError>
    ensures { IfOk result (λ text. string_bytes text ≡ formatted_line g.now) }
{
    let geometry = geometry_text(alloc, g)?;
    format!(in alloc; "formatted {geometry} record 0\n")
}

/// The line for a superblock that was inspected.
pub fn inspected_text(alloc: Global, found: &Super) -> Result<String, AllocError>
    ensures { IfOk result (λ text. string_bytes text ≡ inspected_line found.now) }
{
    let geometry = geometry_text(alloc, &found.geometry)?;
    let (version, recorded) = (found.version, found.recorded);
    format!(in alloc; "version {version} {geometry} record {recorded}\n")
}

/// Writes a line. A sink that fails changes nothing of a refusal's status.
pub fn tell<K: Sink>(sink: &mut K, text: &str)
    ensures { Took (lent (K.taken sink.old) (K.taken sink.new) (K.faults sink.old) (K.faults sink.new)) text.now }
{
    let _ = sink.write(text.as_bytes());
}

/// Writes the answer of a run. Answers the status.
pub fn answer<K: Sink>(sink: &mut K, text: &str) -> u8
    ensures { EndsTelling (lent (K.taken sink.old) (K.taken sink.new) (K.faults sink.old) (K.faults sink.new)) result text.now }
{
    match sink.write(text.as_bytes()) {
        Ok(()) => status::DONE,
        Err(_) => status::SINK,
    }
}
