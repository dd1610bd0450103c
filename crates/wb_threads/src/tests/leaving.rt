//! What the lines of a session say is flushed, and what recovery makes of the images that a crash leaves.
use super::history::{History, Image, base, image_of};
use std::alloc::{AllocError, Global};
use wb_device::MemoryDevice;
use wb_replay::recover;
use wb_script::{Line, Transcript};

/// The number of the flush of a line, where it was done, or 0.
fn covered_in(line: &Line<'_>) -> u64 {
    match line {
        Line::Forced {
            flush: Some(ended),
            ..
        }
        | Line::Flushed { ended }
        | Line::Deferred { ended }
            if ended.down.is_none() => ended.through,
        _ => 0,
    }
}

/// The greatest number of a flush that a client was told is done.
fn covered_for(transcript: &Transcript) -> u64 {
    let mut covered = 0;
    for index in 0..transcript.len() {
        if let Some(line) = transcript.get(index) {
            covered = covered_in(&line).max(covered);
        }
    }
    covered
}

/// The greatest number of a flush that any client was told is done.
pub fn covered_by(transcripts: &[Transcript]) -> u64 {
    let mut covered = 0;
    for transcript in transcripts {
        covered = covered_for(transcript).max(covered);
    }
    covered
}

/// The number of entries of the first segments of the history after which this is the image, where they cover so many places.
fn cut_of(history: &History, image: &Image, covered: u64) -> Option<usize> {
    let places = history.places.max(1);
    let mut made = base();
    for (place, entry) in history.entries.iter().enumerate() {
        if place as u64 % places == 0 && place as u64 >= covered && made == *image {
            return Some(place);
        }
        if let Some(entry) = entry {
            entry.put(&mut made);
        }
    }
    (made == *image).then_some(history.entries.len())
}

/// What recovery makes of the images that a crash now leaves of both devices.
fn recovered(
    alloc: Global,
    devices: (&MemoryDevice, &MemoryDevice),
    choices: (&[u8], &[u8]),
) -> Result<Option<Image>, AllocError> {
    let mut log = devices.0.crashed(alloc, choices.0)?;
    let mut backing = devices.1.crashed(alloc, choices.1)?;
    let is_recovered = recover(alloc, &mut log, &mut backing).is_ok();
    Ok(is_recovered.then_some(image_of(backing.bytes())))
}

/// What a crash takes of the sectors that were written since the last sync, of the log and of the backing device.
const CHOICES: [(&[u8], &[u8]); 5] = [
    (&[], &[]),
    (&[], &[0, 1, 2]),
    (&[1], &[1]),
    (&[0, 1, 2], &[]),
    (&[2, 1], &[0, 1, 2]),
];

/// Of the images that a crash now leaves: whether recovery makes of each the image after the first segments, which cover so many
/// places, and how many of these are fewer than all.
pub fn cuts_of(
    alloc: Global,
    history: &History,
    covered: u64,
    devices: (&MemoryDevice, &MemoryDevice),
) -> Result<Option<u32>, AllocError> {
    let mut short = 0u32;
    for choices in &CHOICES {
        let Some(image) = recovered(alloc, devices, *choices)? else {
            return Ok(None);
        };
        match cut_of(history, &image, covered) {
            Some(count) => {
                short = short.saturating_add(u32::from(count < history.entries.len()));
            }
            None => return Ok(None),
        }
    }
    Ok(Some(short))
}
