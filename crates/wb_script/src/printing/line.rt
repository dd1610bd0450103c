//! The text of a line.
ghost use Rattle.std.specs.Prelude.{◌≡◌, ◌++◌, OnOk, IfOk};
ghost use Rattle.std.specs.String.{string_bytes};
ghost use Rattle.wb_script.specs.Grammar.{write_letter};
ghost use Rattle.wb_script.specs.Output.{device_name, sum_text, request_text, answer_text, places_text, stop_text, ended_text, down_text, flush_text, line_text, count_text};

use crate::{Ended, Line, Request, Stop};
use std::alloc::{AllocError, Global};
use wb_geometry::Which;

/// Adds the line that answers a request of this client.
pub fn push_line(
    alloc: Global,
    text: &mut String,
    client: usize,
    request: &Request,
    line: &Line<'_>,
) -> Result<(), AllocError>
    ensures { OnOk result (string_bytes text.new ≡ string_bytes text.old ++ line_text client request.now line.now) }
{
    push_request(text, client, request)?;
    push_answer(alloc, text, line)?;
    writeln!(text)
}

/// Adds the line with the number of places.
pub fn push_count(text: &mut String, places: u64) -> Result<(), AllocError>
    ensures { OnOk result (string_bytes text.new ≡ string_bytes text.old ++ count_text places) }
{
    writeln!(text, "places {places}")
}

// The words of a request, but for a pattern.
fn push_request(text: &mut String, client: usize, request: &Request) -> Result<(), AllocError>
    ensures { OnOk result (string_bytes text.new ≡ string_bytes text.old ++ request_text client request.now) }
{
    match request {
        Request::Write {
            sector,
            count,
            fua,
            ..
        } => {
            let letter = write_letter(*fua);
            write!(text, "{client} {letter} {sector} {count}")
        }
        Request::Read { sector, count } => write!(text, "{client} r {sector} {count}"),
        Request::ReadSum { sector, count } => write!(text, "{client} x {sector} {count}"),
        Request::Flush => write!(text, "{client} f"),
        Request::Defer => write!(text, "{client} q"),
        Request::Tell { client: other } => write!(text, "{client} t {other}"),
        Request::Hear { client: other } => write!(text, "{client} h {other}"),
    }
}

fn write_letter(fua: bool) -> &'static str
    ensures { result.now ≡ write_letter fua }
{
    if fua { "u" } else { "w" }
}

// What the line says behind its request.
fn push_answer(alloc: Global, text: &mut String, line: &Line<'_>) -> Result<(), AllocError>
    ensures { OnOk result (string_bytes text.new ≡ string_bytes text.old ++ answer_text line.now) }
{
    match line {
        Line::Wrote { places, stop } => {
            push_places(text, places.as_slice())?;
            push_stop(text, *stop)
        }
        Line::Forced {
            places,
            flush,
            stop,
        } => {
            push_places(text, places.as_slice())?;
            push_stop(text, *stop)?;
            push_flush(text, *flush)
        }
        Line::Got { point, payload } => {
            let bytes = hex::encode(alloc, payload.pattern())?;
            write!(text, " point {point} {bytes}")
        }
        Line::Summed { point, sum } => {
            let sum = sum_text(alloc, *sum)?;
            write!(text, " point {point} {sum}")
        }
        Line::Failed { device } => {
            let device = name(*device);
            write!(text, " fault {device}")
        }
        Line::Flushed { ended } | Line::Deferred { ended } => push_ended(text, *ended),
        Line::Told | Line::Heard => Ok(()),
    }
}

/// A checksum in eight hexadecimal digits, the highest first.
pub fn sum_text(alloc: Global, sum: u32) -> Result<String, AllocError>
    ensures { IfOk result (λ text. string_bytes text ≡ sum_text sum) }
{
    hex::encode(alloc, &sum.to_be_bytes())
}

// ` at P1 P2 ..`, or nothing where there is no place.
fn push_places(text: &mut String, places: &[u64]) -> Result<(), AllocError>
    ensures { OnOk result (string_bytes text.new ≡ string_bytes text.old ++ places_text places.now) }
{
    if places.is_empty() {
        return Ok(());
    }
    text.push_str(" at")?;
    for place in places {
        write!(text, " {place}")?;
    }
    Ok(())
}

// How a write ended.
fn push_stop(text: &mut String, stop: Stop) -> Result<(), AllocError>
    ensures { OnOk result (string_bytes text.new ≡ string_bytes text.old ++ stop_text stop) }
{
    match stop {
        Stop::Whole => Ok(()),
        Stop::Down { device } => push_down(text, Some(device)),
        Stop::Ids => text.push_str(" ids"),
    }
}

// How the flush of a write ended, where there was one.
fn push_flush(text: &mut String, flush: Option<Ended>) -> Result<(), AllocError>
    ensures { OnOk result (string_bytes text.new ≡ string_bytes text.old ++ flush_text flush) }
{
    match flush {
        Some(ended) => push_ended(text, ended),
        None => Ok(()),
    }
}

// How a flush ended.
fn push_ended(text: &mut String, ended: Ended) -> Result<(), AllocError>
    ensures { OnOk result (string_bytes text.new ≡ string_bytes text.old ++ ended_text ended) }
{
    let (through, voids) = (ended.through, ended.voids);
    write!(text, " through {through} voids {voids}")?;
    push_down(text, ended.down)
}

// By which device the cache is down, where it is.
fn push_down(text: &mut String, down: Option<Which>) -> Result<(), AllocError>
    ensures { OnOk result (string_bytes text.new ≡ string_bytes text.old ++ down_text down) }
{
    match down {
        Some(device) => {
            let device = name(device);
            write!(text, " down {device}")
        }
        None => Ok(()),
    }
}

fn name(device: Which) -> &'static str
    ensures { result.now ≡ device_name device }
{
    match device {
        Which::Log => "log",
        Which::Backing => "backing",
    }
}
