//! Reading the request of a line.
ghost use Rattle.std.specs.Prelude.{◌≡◌, ◌≢◌, ◌≤◌, ◌<◌, ◌^◌, ◌*◌, ◌%◌, ◌↔◌, ℕ, List, length, IsTrue, IfOk, IfErr, MatchOption};
ghost use Rattle.std.specs.Fmt.{decimal};
ghost use Rattle.hex.specs.Hex.{decode_of};
ghost use Rattle.wb_script.specs.Commands.{letter, words_needed, word, IsNumber};
ghost use Rattle.wb_script.specs.Grammar.{IsRequest, words};
ghost use Rattle.wb_script.specs.Reading.{IsShaped, IsNotRead, IsBadRange, IsBadWrite, IsNoNumber, HasWrite};
ghost use Rattle.wb_script.specs.Valid.{IsWithin, Fills};
ghost use Rattle.wb_script.specs.declared.request.Command.{Command};
ghost use Rattle.wb_script.specs.declared.parsing.requests.LineStop.TheVariants.{Offends};

use super::words::{Words, number};
use crate::{Cause, Command, Pattern, Request};
use hex::FromHexError;
use std::alloc::Global;

/// The most sectors of a request.
const MOST_SECTORS: u64 = 256;

/// Why no request was read from a line.
#[derive(Clone, Copy)]
pub(super) enum LineStop {
    /// The line offends.
    Offends(Cause),
    /// There was no memory for it.
    Memory,
}

impl From<Cause> for LineStop {
    ghost from_gives = { λ cause stop. stop ≡ Offends cause };

    fn from(cause: Cause) -> LineStop {
        LineStop::Offends(cause)
    }
}

/// The request that the line spells, with its client: one of so many clients, on so many sectors. Else the first cause that
/// its words give.
pub(super) fn read_request(
    alloc: Global,
    line: &[u8],
    clients: u32,
    sectors: u64,
) -> Result<(u32, Request), LineStop>
    ensures request { IfOk result (λ own. IsRequest sectors clients (words line.now) own.0 own.1) }
    ensures refused { IfErr result (IsNotRead sectors clients (words line.now)) }
{
    let words = Words::of(line);
    let client = client_of(words.get(0), clients).ok_or(Cause::Client)?;
    let command = command_of(words.get(1)).ok_or(Cause::Command)?;
    let (found, needed) = (words.len() as u64, words_needed(command));
    if found != needed {
        return Err(LineStop::Offends(Cause::Words { found, needed }));
    }
    let request = request_of(alloc, &words, client, command, clients, sectors)?;
    Ok((client, request))
}

/// The client that the word names, of so many.
pub(super) fn client_of(word: &[u8], clients: u32) -> Option<u32>
    ensures { MatchOption result
        ((client : ℕ) → client < clients → word.now ≡ decimal client → ⊥)
        (λ client. (client < clients) × (word.now ≡ decimal client)) }
{
    let client = number(word)?;
    if client < u64::from(clients) {
        Some(client as u32)
    } else {
        None
    }
}

/// The command that the word names.
fn command_of(word: &[u8]) -> Option<Command>
    ensures { MatchOption result ((named : Command) → word.now ≡ letter named → ⊥) (λ named. word.now ≡ letter named) }
{
    let [byte] = word else {
        return None;
    };
    match *byte {
        b'w' => Some(Command::Write),
        b'u' => Some(Command::ForcedWrite),
        b'r' => Some(Command::Read),
        b'x' => Some(Command::ReadSum),
        b'f' => Some(Command::Flush),
        b'q' => Some(Command::Defer),
        b't' => Some(Command::Tell),
        b'h' => Some(Command::Hear),
        _ => None,
    }
}

/// How many words a line of this command has, the client counted.
fn words_needed(command: Command) -> u64
    ensures { result ≡ words_needed command }
{
    match command {
        Command::Write | Command::ForcedWrite => 5,
        Command::Read | Command::ReadSum => 4,
        Command::Flush | Command::Defer => 2,
        Command::Tell | Command::Hear => 3,
    }
}

/// The request of a line whose client and command are these, with as many words as that needs.
fn request_of(
    alloc: Global,
    words: &Words<'_>,
    client: u32,
    command: Command,
    clients: u32,
    sectors: u64,
) -> Result<Request, LineStop>
    requires shaped { IsShaped clients words.now client command }
    ensures request { IfOk result (IsRequest sectors clients words.now client) }
    ensures refused { IfErr result (IsNotRead sectors clients words.now) }
{
    match command {
        Command::Write => write_of(alloc, words, sectors, false),
        Command::ForcedWrite => write_of(alloc, words, sectors, true),
        Command::Read => {
            let (sector, count) = range_of(words, sectors)?;
            Ok(Request::Read { sector, count })
        }
        Command::ReadSum => {
            let (sector, count) = range_of(words, sectors)?;
            Ok(Request::ReadSum { sector, count })
        }
        Command::Flush => Ok(Request::Flush),
        Command::Defer => Ok(Request::Defer),
        Command::Tell => {
            let other = number_at(words, 2)?;
            if u64::from(client) < other && other < u64::from(clients) {
                Ok(Request::Tell {
                    client: other as u32,
                })
            } else {
                Err(LineStop::Offends(Cause::Note { client: other }))
            }
        }
        Command::Hear => {
            let other = number_at(words, 2)?;
            if other < u64::from(client) {
                Ok(Request::Hear {
                    client: other as u32,
                })
            } else {
                Err(LineStop::Offends(Cause::Note { client: other }))
            }
        }
    }
}

/// The number that the word of this number spells.
fn number_at(words: &Words<'_>, index: usize) -> Result<u64, Cause>
    requires { index < 6 }
    ensures number { IfOk result (IsNumber (word words.now index)) }
    ensures none { IfErr result (λ cause. (cause ≡ Cause.Number index) × IsNoNumber (word words.now index)) }
{
    number(words.get(index)).ok_or(Cause::Number { word: index as u64 })
}

/// The sectors that the third and the fourth word name: from the first number on, as many as the second.
fn range_of(words: &Words<'_>, sectors: u64) -> Result<(u64, u64), Cause>
    ensures range { IfOk result (λ range. IsNumber (word words.now 2) range.0 × IsNumber (word words.now 3) range.1 × IsWithin sectors range.0 range.1) }
    ensures refused { IfErr result (IsBadRange sectors words.now) }
{
    let sector = number_at(words, 2)?;
    let count = number_at(words, 3)?;
    if count == 0 || MOST_SECTORS < count {
        return Err(Cause::Count { count });
    }
    if sectors < sector || sectors - sector < count {
        return Err(Cause::Range {
            sector,
            count,
            sectors,
        });
    }
    Ok((sector, count))
}

/// The write that the words name.
fn write_of(alloc: Global, words: &Words<'_>, sectors: u64, fua: bool) -> Result<Request, LineStop>
    ensures write { IfOk result (HasWrite sectors words.now fua) }
    ensures refused { IfErr result (IsBadWrite sectors words.now) }
{
    let (sector, count) = range_of(words, sectors)?;
    let pattern = pattern_of(alloc, words.get(4), count)?;
    Ok(Request::Write {
        sector,
        count,
        pattern,
        fua,
    })
}

/// The pattern that the digits spell, for a write of so many sectors.
fn pattern_of(alloc: Global, digits: &[u8], count: u64) -> Result<Pattern, LineStop>
    requires { count ≤ MOST_SECTORS }
    ensures decoded { IfOk result (λ pattern. decode_of digits.now ≡ Ok pattern) }
    ensures fills { IfOk result (λ pattern. Fills pattern count) }
    ensures refused { IfErr result (λ stop. stop ≢ LineStop.Memory → (stop ≡ LineStop.Offends (Cause.Data (length digits.now)))
        × ((pattern : List ℕ) → decode_of digits.now ≡ Ok pattern → Fills pattern count → ⊥)) }
{
    let offends = LineStop::Offends(Cause::Data {
        digits: digits.len() as u64,
    });
    if !is_size(digits.len() / 2, count) {
        return Err(offends);
    }
    match hex::decode(alloc, digits) {
        Ok(bytes) => Ok(Pattern::of(bytes)),
        Err(FromHexError::OutOfMemory) => Err(LineStop::Memory),
        Err(_) => Err(offends),
    }
}

/// Whether a pattern of so many bytes fills so many sectors.
fn is_size(size: usize, count: u64) -> bool
    requires { count ≤ MOST_SECTORS }
    ensures { IsTrue result ↔ ((1 ≤ size) × (512 * count % size ≡ 0)) }
{
    1 <= size && 512 * count % size as u64 == 0
}
