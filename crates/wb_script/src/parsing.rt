//! Reading a script.
ghost use Rattle.std.specs.Prelude.{◌≡◌, ◌≤◌, ◌^◌, ◌++◌, ◌∷◌, [], ℕ, List, length, IfOk, IfErr, OnOk, MatchOption};
ghost use Rattle.wb_script.specs.Grammar.{IsHeader, IsRequest, IsTheScript, lines, most_bytes, most_lines, words, words_at};
ghost use Rattle.wb_script.specs.Valid.{most_clients};
ghost use Rattle.wb_script.specs.Counting.{IsReadSoFar, IsLineRefused};
ghost use Rattle.wb_script.specs.declared.request.Request.{Request};
ghost use Rattle.wb_script.specs.Refused.{HasRefusal};
ghost use Rattle.wb_script.specs.declared.refusal.ParseStop.TheVariants.{Memory};

mod lines;
mod notes;
mod reading;
mod requests;
#[cfg(test)]
mod tests;
mod words;

use crate::{Cause, ParseStop, Script, ScriptRefused};
use lines::{first_line, line_count};
use reading::Reading;
use requests::{LineStop, read_request};
use std::alloc::{AllocError, Global};
use wb_geometry::Geometry;
pub use words::number;
use words::{Words, is};

/// The most bytes of a script.
const MOST_BYTES: usize = 67_108_864;

/// The most lines of a script.
const MOST_LINES: usize = 250_001;

/// The most clients of a script.
const MOST_CLIENTS: u64 = 32;

/// The script that the bytes spell, for a cache of this geometry, or the least line that offends and its first cause
/// (docs/SCRIPT.md). Bytes spell one script or have one refusal, and never both.
pub fn parse(alloc: Global, bytes: &[u8], g: &Geometry) -> Result<Script, ParseStop>
    ensures script { IfOk result (IsTheScript g.now.backing_sectors bytes.now) }
    ensures refused { IfErr result (HasRefusal g.now.backing_sectors bytes.now) }
{
    let count = line_count(bytes);
    if bytes.len() > MOST_BYTES || count > MOST_LINES {
        let (bytes, lines) = (bytes.len() as u64, count as u64);
        return Err(refused(0, Cause::Size { bytes, lines }));
    }
    let Some(clients) = clients_of(first_line(bytes)) else {
        return Err(refused(1, Cause::Header));
    };
    read_script(alloc, bytes, count, clients, g.backing_sectors)
}

/// The refusal of a script for what offends in this line.
fn refused(line: u64, cause: Cause) -> ParseStop
    ensures { result ≡ ParseStop.Refused (record { line = line; cause = cause }) }
{
    ParseStop::Refused(ScriptRefused { line, cause })
}

/// The number of clients that a first line names.
fn clients_of(line: &[u8]) -> Option<u32>
    ensures { MatchOption result ((clients : ℕ) → IsHeader (words line.now) clients → ⊥) (IsHeader (words line.now)) }
{
    let words = Words::of(line);
    if words.len() != 2 || !is(words.get(0), b"clients") {
        return None;
    }
    let clients = number(words.get(1))?;
    if 1 <= clients && clients <= MOST_CLIENTS {
        Some(clients as u32)
    } else {
        None
    }
}

/// The script of so many clients, whose bytes and lines are few enough.
fn read_script(
    alloc: Global,
    bytes: &[u8],
    count: usize,
    clients: u32,
    sectors: u64,
) -> Result<Script, ParseStop>
    requires short { length bytes.now ≤ most_bytes }
    requires few { length (lines bytes.now) ≤ most_lines }
    requires counted { count ≡ length (lines bytes.now) }
    requires header { IsHeader (words_at bytes.now 1) clients }
    ensures script { IfOk result (IsTheScript sectors bytes.now) }
    ensures refused { IfErr result (HasRefusal sectors bytes.now) }
{
    let mut reading = Reading::of(alloc, bytes, count, clients)?;
    let lines = bytes.split(|byte| *byte == b'\n');
    for (index, line) in lines.enumerate().take(count).skip(1) {
        match read_line(alloc, &mut reading, line, clients, sectors) {
            Ok(()) => {}
            Err(LineStop::Offends(cause)) => return Err(refused(index as u64 + 1, cause)),
            Err(LineStop::Memory) => return Err(ParseStop::Memory),
        }
    }
    Ok(Script::of(clients, sectors, reading.requests))
}

/// Reads a line behind those before.
fn read_line(
    alloc: Global,
    reading: &mut Reading,
    line: &[u8],
    clients: u32,
    sectors: u64,
) -> Result<(), LineStop>
    requires few { clients ≤ most_clients }
    requires read { (all : List (List ℕ)) × (owned : List (ℕ × Request)) × IsReadSoFar all clients owned reading.old }
    ensures read { OnOk result ((client : ℕ) × (request : Request) × IsRequest sectors clients (words line.now) client request
        × ((all : List (List ℕ)) (owned : List (ℕ × Request)) → IsReadSoFar all clients owned reading.old → IsReadSoFar all clients (owned ++ (client, request) ∷ []) reading.new)) }
    ensures refused { IfErr result (IsLineRefused sectors clients (words line.now) reading.old) }
{
    let (client, request) = read_request(alloc, line, clients, sectors)?;
    reading.add(client, request)
}

impl From<AllocError> for ParseStop {
    ghost from_gives = { λ _ stop. stop ≡ Memory };

    fn from(_error: AllocError) -> ParseStop {
        ParseStop::Memory
    }
}
