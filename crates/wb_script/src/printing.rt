//! Printing the answers to a script.
ghost use Rattle.std.specs.Prelude.{◌≡◌, ◌<◌, [], length, OnOk};
ghost use Rattle.std.specs.String.{string_bytes};
ghost use Rattle.wb_script.specs.Output.{session_text, transcript_text, transcripts_text};
ghost use Rattle.wb_script.specs.Printed.{Prints, PrintsThrough};
ghost use Rattle.wb_script.specs.declared.printing.PrintStop.TheVariants.{Fault, Memory};

mod line;

use crate::{Request, Requests, Script, Transcript};
pub use line::sum_text;
use line::{push_count, push_line};
use std::alloc::{AllocError, Global};
use wb_device::{Sink, SinkFault};

/// Why a session wasn't printed whole.
#[derive(Clone, Copy, Debug, PartialEq, Eq)]
pub enum PrintStop {
    /// The sink failed.
    Fault,
    /// There was no memory for the text.
    Memory,
}

impl From<SinkFault> for PrintStop {
    ghost from_gives = { λ _ stop. stop ≡ Fault };

    fn from(_fault: SinkFault) -> PrintStop {
        PrintStop::Fault
    }
}

impl From<AllocError> for PrintStop {
    ghost from_gives = { λ _ stop. stop ≡ Memory };

    fn from(_error: AllocError) -> PrintStop {
        PrintStop::Memory
    }
}

/// Text is written out once there is so much of it.
const PIECE_BYTES: usize = 1 << 16;

/// Prints the answers to a script, and then the number of places, in pieces of bounded size. After an `Err` the sink took
/// a front of the text.
pub fn print<K: Sink>(
    alloc: Global,
    sink: &mut K,
    script: &Script,
    transcripts: &[Transcript],
    places: u64,
) -> Result<(), PrintStop>
    ensures { Prints (K.taken sink.old) (K.taken sink.new) (K.faults sink.old) (K.faults sink.new)
        (session_text script.now transcripts.now places) result }
{
    let mut text = String::new(alloc);
    print_clients(alloc, sink, &mut text, script.requests(), transcripts)?;
    push_count(&mut text, places)?;
    write_out(sink, &mut text)
}

// The lines of all clients, through the text that isn't written out yet.
fn print_clients<K: Sink>(
    alloc: Global,
    sink: &mut K,
    text: &mut String,
    requests: &[Requests],
    transcripts: &[Transcript],
) -> Result<(), PrintStop>
    ensures { PrintsThrough (K.taken sink.old) (K.taken sink.new) (K.faults sink.old) (K.faults sink.new)
        (string_bytes text.old) (string_bytes text.new) (transcripts_text 0 requests.now transcripts.now) result }
{
    for (client, (requests, transcript)) in requests.iter().zip(transcripts).enumerate() {
        print_client(alloc, sink, text, client, requests.as_slice(), transcript)?;
    }
    Ok(())
}

// The lines of a client.
fn print_client<K: Sink>(
    alloc: Global,
    sink: &mut K,
    text: &mut String,
    client: usize,
    requests: &[Request],
    transcript: &Transcript,
) -> Result<(), PrintStop>
    ensures { PrintsThrough (K.taken sink.old) (K.taken sink.new) (K.faults sink.old) (K.faults sink.new)
        (string_bytes text.old) (string_bytes text.new) (transcript_text client requests.now transcript.now) result }
{
    for (index, request) in requests.iter().enumerate() {
        let Some(line) = transcript.get(index) else {
            return Ok(());
        };
        push_line(alloc, text, client, request, &line)?;
        write_if_full(sink, text)?;
    }
    Ok(())
}

// Writes the text out once it is long enough, so that little is left.
fn write_if_full<K: Sink>(sink: &mut K, text: &mut String) -> Result<(), PrintStop>
    ensures prints { PrintsThrough (K.taken sink.old) (K.taken sink.new) (K.faults sink.old) (K.faults sink.new)
        (string_bytes text.old) (string_bytes text.new) [] result }
    ensures short { OnOk result (length (string_bytes text.new) < PIECE_BYTES) }
{
    if text.len() < PIECE_BYTES {
        return Ok(());
    }
    write_out(sink, text)
}

// Writes the text out, so that none is left.
fn write_out<K: Sink>(sink: &mut K, text: &mut String) -> Result<(), PrintStop>
    ensures prints { PrintsThrough (K.taken sink.old) (K.taken sink.new) (K.faults sink.old) (K.faults sink.new)
        (string_bytes text.old) (string_bytes text.new) [] result }
    ensures empty { OnOk result (string_bytes text.new ≡ []) }
{
    sink.write(text.as_bytes())?;
    text.clear();
    Ok(())
}

#[cfg(test)]
mod tests;
