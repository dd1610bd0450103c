//! Whether transcripts are legal over the history that they print.
use super::history::{History, bytes_of};
use std::alloc::{AllocError, Global};
use wb_script::{Ended, Line, Request, Requests, Shown, Transcript};
use wb_sum::Sum;

/// A note: who left it and for whom, what that client had seen, and whether it was heard.
#[derive(Clone, Copy)]
struct Note {
    teller: u32,
    hearer: u32,
    seen: u64,
    is_heard: bool,
}

/// The notes that the clients left that stand before this one, and what this one has seen: above each place, and at least each
/// point and each flush's number, that was printed or handed on.
#[derive(Drop)]
struct Reader<'a> {
    history: &'a History,
    notes: Vec<Note>,
    client: u32,
    seen: u64,
}

impl<'a> Reader<'a> {
    /// Leaves a note.
    fn tell(&mut self, hearer: u32) -> Result<(), AllocError> {
        self.notes.push(Note {
            teller: self.client,
            hearer,
            seen: self.seen,
            is_heard: false,
        })?;
        Ok(())
    }

    /// Hears the next note of a client, where it left one.
    fn hear(&mut self, teller: u32) -> bool {
        for note in self.notes.iter_mut() {
            if note.teller == teller && note.hearer == self.client && !note.is_heard {
                note.is_heard = true;
                self.seen = self.seen.max(note.seen);
                return true;
            }
        }
        false
    }

    /// Whether the places rise, above all that was seen.
    fn rises(&mut self, places: &[u64]) -> bool {
        for place in places {
            if *place < self.seen {
                return false;
            }
            self.seen = place.saturating_add(1);
        }
        true
    }

    /// Whether a flush, and the places that it took, come behind all that was seen, at the end of a segment of the history.
    fn is_flush(&mut self, ended: &Ended) -> bool {
        let is_behind = self.seen <= ended.through.saturating_sub(ended.voids);
        self.seen = ended.through;
        is_behind
            && ended.through <= self.history.len()
            && ended.through % self.history.places.max(1) == 0
    }

    /// Whether a read comes behind all that was seen, inside the history.
    fn is_point(&mut self, point: u64) -> bool {
        let is_behind = self.seen <= point && point <= self.history.len();
        self.seen = point;
        is_behind
    }

    /// What the image after so many entries has in the sectors that a request reads.
    fn bytes_at(
        &self,
        alloc: Global,
        point: u64,
        request: &Request,
    ) -> Result<Vec<u8>, AllocError> {
        let (sector, count) = match request {
            Request::Read { sector, count } | Request::ReadSum { sector, count } => {
                (*sector, *count)
            }
            _ => (0, 0),
        };
        bytes_of(alloc, &self.history.image(point), sector, count)
    }

    /// Whether a line is legal that answers the request.
    fn is_legal(
        &mut self,
        alloc: Global,
        request: &Request,
        line: &Line<'_>,
    ) -> Result<bool, AllocError> {
        Ok(match line {
            Line::Wrote { places, .. }
            | Line::Forced {
                places,
                flush: None,
                ..
            } => { self.rises(places.as_slice()) }
            Line::Forced {
                places,
                flush: Some(ended),
                ..
            } => self.rises(places.as_slice()) && self.is_flush(ended),
            Line::Flushed { ended } | Line::Deferred { ended } => self.is_flush(ended),
            Line::Got { point, payload } => {
                let bytes = self.bytes_at(alloc, *point, request)?;
                self.is_point(*point) && is_same(bytes.as_slice(), payload)
            }
            Line::Summed { point, sum } => {
                let bytes = self.bytes_at(alloc, *point, request)?;
                self.is_point(*point) && sum_of(bytes.as_slice()) == *sum
            }
            Line::Failed { .. } => true,
            Line::Told => {
                self.tell(other_of(request))?;
                true
            }
            Line::Heard => self.hear(other_of(request)),
        })
    }

    /// Whether the lines of a client are.
    fn are_legal(
        &mut self,
        alloc: Global,
        requests: &[Request],
        transcript: &Transcript,
    ) -> Result<bool, AllocError> {
        for (index, request) in requests.iter().enumerate() {
            if let Some(line) = transcript.get(index) {
                if !self.is_legal(alloc, request, &line)? {
                    return Ok(false);
                }
            }
        }
        Ok(true)
    }
}

/// The other client that a request names.
fn other_of(request: &Request) -> u32 {
    match request {
        Request::Tell { client } | Request::Hear { client } => *client,
        _ => u32::MAX,
    }
}

/// Whether these bytes are shown.
fn is_same(bytes: &[u8], shown: &Shown<'_>) -> bool {
    let pattern = shown.pattern();
    let length = pattern.len().max(1);
    shown.len() == bytes.len()
        && bytes
            .iter()
            .enumerate()
            .all(|(at, byte)| pattern.get(at % length) == Some(byte))
}

/// The checksum of bytes.
fn sum_of(bytes: &[u8]) -> u32 {
    let mut sum = Sum::new();
    sum.update(bytes);
    sum.finish()
}

/// Whether the transcripts of all clients are legal over the history that they print.
pub fn are_legal(
    alloc: Global,
    requests: &[Requests],
    transcripts: &[Transcript],
    history: &History,
) -> Result<bool, AllocError> {
    let mut reader = Reader {
        history,
        notes: Vec::new(alloc),
        client: 0,
        seen: 0,
    };
    for (requests, transcript) in requests.iter().zip(transcripts) {
        reader.seen = 0;
        if !reader.are_legal(alloc, requests.as_slice(), transcript)? {
            return Ok(false);
        }
        reader.client = reader.client.saturating_add(1);
    }
    Ok(true)
}
