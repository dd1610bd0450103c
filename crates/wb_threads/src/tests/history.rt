//! The history that transcripts print, and the images that its first entries make. A sector is told by its stamp: the two
//! bytes that, repeated, fill it.
use super::{SECTOR_BYTES, SECTORS};
use std::alloc::{AllocError, Global};
use wb_script::{Ended, Line, Request, Script, Stop, Transcript};

/// An image of the backing device, by the stamps of its sectors. 0 is the stamp of no sector that is filled so.
pub type Image = [u16; SECTORS];

/// The image before a session: each sector has a stamp of its own.
pub fn base() -> Image {
    let mut image = [0; SECTORS];
    for (sector, stamp) in image.iter_mut().enumerate() {
        *stamp = 0x8000 | (sector % 64) as u16;
    }
    image
}

/// The stamp of a sector that these bytes fill, or 0.
pub fn stamp_of(sector: &[u8]) -> u16 {
    let pair = match sector {
        [] => return 0,
        [one] => [*one, *one],
        [first, second, ..] => [*first, *second],
    };
    if sector.chunks_exact(2).all(|two| two == pair.as_slice()) {
        u16::from_be_bytes(pair)
    } else {
        0
    }
}

/// The image that these bytes are.
pub fn image_of(bytes: &[u8]) -> Image {
    let mut image = [0; SECTORS];
    for (stamp, sector) in image.iter_mut().zip(bytes.chunks_exact(SECTOR_BYTES)) {
        *stamp = stamp_of(sector);
    }
    image
}

/// The bytes of so many sectors of an image, from this one on.
pub fn bytes_of(
    alloc: Global,
    image: &Image,
    sector: u64,
    count: u64,
) -> Result<Vec<u8>, AllocError> {
    let mut bytes = Vec::new(alloc);
    for stamp in image.iter().skip(sector as usize).take(count as usize) {
        for _ in 0..SECTOR_BYTES / 2 {
            bytes.extend_from_slice(stamp.to_be_bytes().as_slice())?;
        }
    }
    Ok(bytes)
}

/// An entry: so many sectors, from this one on, get a stamp. Of none it changes nothing.
#[derive(Clone, Copy)]
pub struct Entry {
    sector: u64,
    count: u64,
    stamp: u16,
}

impl Entry {
    /// Puts the entry.
    pub fn put(&self, image: &mut Image) {
        let sectors = image.iter_mut().skip(self.sector as usize);
        for stamp in sectors.take(self.count as usize) {
            *stamp = self.stamp;
        }
    }
}

/// The first sector that a request writes, the one behind its last, and their stamp.
fn write_of(request: &Request) -> Option<(u64, u64, u16)> {
    match request {
        Request::Write {
            sector,
            count,
            pattern,
            ..
        } => Some((
            *sector,
            sector.saturating_add(*count),
            stamp_of(pattern.as_slice()),
        )),
        _ => None,
    }
}

/// A history, in segments of so many places. Where no line has printed an entry yet it is missing.
#[derive(Drop)]
pub struct History {
    pub entries: Vec<Option<Entry>>,
    pub places: u64,
}

impl History {
    /// The image that the first entries make, so many.
    pub fn image(&self, count: u64) -> Image {
        let mut image = base();
        for entry in self.entries.iter().take(count as usize).flatten() {
            entry.put(&mut image);
        }
        image
    }

    /// The number of entries.
    pub fn len(&self) -> u64 {
        self.entries.len() as u64
    }

    /// Prints an entry at a place. Answers whether this is one of the history's, at which none was printed before.
    fn print(&mut self, place: u64, entry: Entry) -> bool {
        match self.entries.get_mut(place as usize) {
            Some(slot) => slot.replace(entry).is_none(),
            None => false,
        }
    }

    /// Prints the places that a flush took, none of which is the first of a segment.
    fn print_voids(&mut self, ended: &Ended) -> bool {
        for place in ended.through.saturating_sub(ended.voids)..ended.through {
            let void = Entry {
                sector: 0,
                count: 0,
                stamp: 0,
            };
            if place % self.places.max(1) == 0 || !self.print(place, void) {
                return false;
            }
        }
        ended.voids <= ended.through
    }

    /// Prints the parts of a write, one for each block, at these places: all where it is whole, and else fewer.
    fn print_write(&mut self, request: &Request, places: &[u64], stop: Stop) -> bool {
        let Some((mut sector, end, stamp)) = write_of(request) else {
            return false;
        };
        for place in places {
            let next = (sector / 8 * 8).saturating_add(8).min(end);
            let count = next.saturating_sub(sector);
            let entry = Entry {
                sector,
                count,
                stamp,
            };
            if count == 0 || !self.print(*place, entry) {
                return false;
            }
            sector = next;
        }
        (sector == end) == (stop == Stop::Whole)
    }

    /// Prints what a line does that answers the request. A flush stands behind a forced write exactly where that is whole.
    fn print_line(&mut self, request: &Request, line: &Line<'_>) -> bool {
        match line {
            Line::Wrote { places, stop } => self.print_write(request, places.as_slice(), *stop),
            Line::Forced {
                places,
                flush,
                stop,
            } => flush.is_some() == (*stop == Stop::Whole)
                && self.print_write(request, places.as_slice(), *stop)
                && flush.is_none_or(|ended| self.print_voids(&ended)),
            Line::Flushed { ended } | Line::Deferred { ended } => self.print_voids(ended),
            _ => true,
        }
    }

    /// Prints what the lines of a client do, one for each request.
    fn print_client(&mut self, requests: &[Request], transcript: &Transcript) -> bool {
        for (index, request) in requests.iter().enumerate() {
            let Some(line) = transcript.get(index) else {
                return false;
            };
            if !self.print_line(request, &line) {
                return false;
            }
        }
        transcript.len() == requests.len()
    }
}

/// The history of so many places that the transcripts print, in segments of so many, where they print each place once and no
/// other.
pub fn history_of(
    alloc: Global,
    script: &Script,
    transcripts: &[Transcript],
    taken: u64,
    places: u64,
) -> Result<Option<History>, AllocError> {
    let mut history = History {
        entries: vec![in alloc; None; taken as usize]?,
        places,
    };
    let mut is_printed = transcripts.len() == script.requests().len();
    for (requests, transcript) in script.requests().iter().zip(transcripts) {
        is_printed = is_printed && history.print_client(requests.as_slice(), transcript);
    }
    let is_whole = history.entries.iter().all(|entry| entry.is_some());
    Ok((is_printed && is_whole).then_some(history))
}
