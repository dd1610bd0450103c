//! What was read of a script up to a line.
ghost use Rattle.std.specs.Prelude.{◌≡◌, ◌<◌, ◌≤◌, ◌++◌, ◌∷◌, [], ℕ, List, length, IfOk, IfErr, OnOk};
ghost use Rattle.wb_script.specs.Grammar.{lines, most_lines, request_lines};
ghost use Rattle.wb_script.specs.Valid.{most_clients, IsAsked};
ghost use Rattle.wb_script.specs.Counting.{IsReadSoFar, IsCounted, IsTooMuch};
ghost use Rattle.wb_script.specs.declared.request.Request.{Request};

use super::notes::Notes;
use super::requests::LineStop;
use crate::{Cause, Request, Requests};
use std::alloc::{AllocError, Global};

/// The most sectors that all reads show.
const MOST_SHOWN: u64 = 262_144;

/// The requests of each client, the notes that are left in the whole script and weren't heard up to the line, and how many
/// sectors the reads show.
#[derive(Drop)]
pub(super) struct Reading {
    pub(super) requests: Vec<Requests>,
    notes: Notes,
    shown: u64,
}

impl Reading {
    /// Nothing was read yet of a script of so many clients and lines.
    pub(super) fn of(
        alloc: Global,
        bytes: &[u8],
        count: usize,
        clients: u32,
    ) -> Result<Reading, AllocError>
        requires few { length (lines bytes.now) ≤ most_lines }
        requires counted { count ≡ length (lines bytes.now) }
        ensures { IfOk result (λ reading. IsReadSoFar (request_lines bytes.now) clients [] reading) }
    {
        let mut requests = Vec::with_capacity(alloc, clients as usize)?;
        for _ in 0..clients {
            requests.push(Requests::new(alloc))?;
        }
        Ok(Reading {
            requests,
            notes: Notes::of(alloc, bytes, count)?,
            shown: 0,
        })
    }

    /// Adds a request of a client, or tells why it may not stand behind those before.
    pub(super) fn add(&mut self, client: u32, request: Request) -> Result<(), LineStop>
        requires few { length self.old.requests.items ≤ most_clients }
        requires client { client < length self.old.requests.items }
        requires sized { length self.old.notes.left.items ≡ 1024 }
        requires shown { self.old.shown ≤ MOST_SHOWN }
        requires asked { (sectors : ℕ) × (clients : ℕ) × IsAsked sectors clients client request }
        ensures read { OnOk result ((all : List (List ℕ)) (clients : ℕ) (owned : List (ℕ × Request)) → IsReadSoFar all clients owned self.old
            → IsReadSoFar all clients (owned ++ (client, request) ∷ []) self.new) }
        ensures refused { IfErr result (IsTooMuch client request self.old) }
    {
        self.count(client, &request)?;
        self.requests[client as usize].push(request)?;
        Ok(())
    }

    /// Counts the note that a request of a client hears, and the sectors that it shows.
    fn count(&mut self, client: u32, request: &Request) -> Result<(), Cause>
        requires client { client < most_clients }
        requires sized { length self.old.notes.left.items ≡ 1024 }
        requires shown { self.old.shown ≤ MOST_SHOWN }
        requires asked { (sectors : ℕ) × (clients : ℕ) × IsAsked sectors clients client request.now }
        ensures counted { OnOk result (IsCounted client request.now self.old self.new) }
        ensures refused { IfErr result (λ why. IsTooMuch client request.now self.old (LineStop.Offends why)) }
    {
        match request {
            Request::Hear { client: teller } => {
                if self.notes.hear(*teller, client) {
                    Ok(())
                } else {
                    let client = u64::from(*teller);
                    Err(Cause::Note { client })
                }
            }
            Request::Read { count, .. } => {
                self.shown += *count;
                if self.shown <= MOST_SHOWN {
                    Ok(())
                } else {
                    let sectors = self.shown;
                    Err(Cause::Reads { sectors })
                }
            }
            _ => Ok(()),
        }
    }
}

impl From<AllocError> for LineStop {
    ghost use Rattle.std.specs.Prelude.{◌≡◌};
    ghost use Rattle.wb_script.specs.declared.parsing.requests.LineStop.TheVariants.{Memory};

    ghost from_gives = { λ _ stop. stop ≡ Memory };

    fn from(_error: AllocError) -> LineStop {
        LineStop::Memory
    }
}
