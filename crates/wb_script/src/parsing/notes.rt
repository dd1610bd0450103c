//! The notes that the clients of a script leave for each other.
ghost use Rattle.std.specs.Prelude.{◌≡◌, ◌≢◌, ◌<◌, ◌≤◌, ◌↔◌, ℕ, true, length, IsTrue, IfOk, MatchOption};
ghost use Rattle.wb_script.specs.Grammar.{lines, most_lines, request_lines, words, is_note};
ghost use Rattle.wb_script.specs.Valid.{most_clients};
ghost use Rattle.wb_script.specs.Counting.{AreNotes, IsHeard, note_at};

use super::requests::client_of;
use super::words::{Words, is};
use std::alloc::{AllocError, Global};

/// The most clients of a script.
const MOST_CLIENTS: u32 = 32;

/// How many notes each client leaves for each other one that weren't heard yet: 32 numbers a client that leaves them.
#[derive(Drop)]
pub(super) struct Notes {
    left: Vec<u32>,
}

impl Notes {
    /// Those of so many lines, all that the bytes have. The first line is none.
    pub(super) fn of(alloc: Global, bytes: &[u8], count: usize) -> Result<Notes, AllocError>
        requires few { length (lines bytes.now) ≤ most_lines }
        requires counted { count ≡ length (lines bytes.now) }
        ensures { IfOk result (λ notes. AreNotes (request_lines bytes.now) notes.left.items) }
    {
        let mut left = vec![in alloc; 0; 1024]?;
        let lines = bytes.split(|byte| *byte == b'\n');
        for line in lines.take(count).skip(1) {
            if let Some((teller, hearer)) = note_of(line) {
                left[place_of(teller, hearer)] += 1;
            }
        }
        Ok(Notes { left })
    }

    /// Hears the next note of a client for another one, where it leaves one more.
    pub(super) fn hear(&mut self, teller: u32, hearer: u32) -> bool
        requires sized { length self.old.left.items ≡ 1024 }
        requires teller { teller < most_clients }
        requires hearer { hearer < most_clients }
        ensures { IsHeard teller hearer self.old.left.items self.new.left.items result }
    {
        let place = place_of(teller, hearer);
        if self.left[place] == 0 {
            return false;
        }
        self.left[place] -= 1;
        true
    }
}

/// Where the notes of a client for another one are counted.
fn place_of(teller: u32, hearer: u32) -> usize
    requires teller { teller < most_clients }
    requires hearer { hearer < most_clients }
    ensures { result ≡ note_at teller hearer }
{
    (MOST_CLIENTS * teller + hearer) as usize
}

/// The client that the line leaves a note of, and the one for which, both below 32, where it is such a line.
fn note_of(line: &[u8]) -> Option<(u32, u32)>
    ensures { MatchOption result
        ((teller hearer : ℕ) → teller < most_clients → hearer < most_clients → is_note teller hearer (words line.now) ≡ true → ⊥)
        (λ found. (found.0 < most_clients) × (found.1 < most_clients) × (is_note found.0 found.1 (words line.now) ≡ true)) }
{
    let words = Words::of(line);
    if words.len() != 3 || !is(words.get(1), b"t") {
        return None;
    }
    let teller = client_of(words.get(0), MOST_CLIENTS)?;
    let hearer = client_of(words.get(2), MOST_CLIENTS)?;
    Some((teller, hearer))
}
