//! Scripts that a seed makes, of one to four clients and all letters, served by the top call beside a plain program of what
//! they mean: a list of entries, and the images that its first ones make. All output, the images, the record and the slots
//! are compared, and what recovery says of them.
use super::case::{SERVE, has_record};
use super::cuts::put_segment;
use super::{BACKING_BYTES, SECTOR_BYTES, run};
use crate::Outcome;
use std::alloc::{AllocError, Global};
use std::process::Abort;
use std::test::Fail;
use wb_device::SteadyDevice;
use wb_header::check;

/// A log, and the words that make it: its slots, the sectors of a slot, and the places of a segment.
struct Shape {
    words: &'static str,
    slots: u8,
    sectors: u8,
    places: u8,
}

const SHAPES: [Shape; 4] = [
    Shape {
        words: "format LOG BACKING 4 2 2",
        slots: 2,
        sectors: 16,
        places: 1,
    },
    Shape {
        words: "format LOG BACKING 4 5 3",
        slots: 5,
        sectors: 16,
        places: 1,
    },
    Shape {
        words: "format LOG BACKING 5 4 2",
        slots: 4,
        sectors: 32,
        places: 3,
    },
    Shape {
        words: "format LOG BACKING 7 3 4",
        slots: 3,
        sectors: 128,
        places: 15,
    },
];

/// The scripts that are served for each log.
const SCRIPTS: u32 = 100;

/// All letters.
const LETTERS: [char; 8] = ['w', 'u', 'r', 'x', 'f', 'q', 't', 'h'];

/// The letters from which one is drawn. Each note that is left is heard by a line of its own.
const DRAWN: [char; 16] = [
    'w', 'w', 'w', 'w', 'w', 'u', 'u', 'r', 'r', 'r', 'x', 'x', 'f', 'q', 't', 't',
];

/// Numbers that a seed makes.
#[derive(Drop)]
struct Dice {
    state: u64,
}

impl Dice {
    /// The next number, below this one.
    fn below(&mut self, bound: u8) -> u8 {
        self.state = self
            .state
            .wrapping_mul(6364136223846793005)
            .wrapping_add(1442695040888963407);
        ((self.state >> 33) % 256) as u8 % bound.max(1)
    }
}

/// The pattern of a write: so many bytes, each by the same step above the one before it.
#[derive(Clone, Copy)]
struct Pattern {
    first: u8,
    step: u8,
    length: u8,
}

impl Pattern {
    /// The byte at this place of the pattern, repeated.
    fn byte(&self, at: usize) -> u8 {
        let steps = (at % usize::from(self.length.max(1)) % 256) as u8;
        self.first.wrapping_add(self.step.wrapping_mul(steps))
    }
}

/// A request. Of the sectors, the other client and the pattern it has those that its letter asks for.
#[derive(Clone, Copy)]
struct Ask {
    client: u8,
    letter: char,
    sector: u8,
    count: u8,
    other: u8,
    pattern: Pattern,
}

/// A pattern for so many sectors.
fn drawn_pattern(dice: &mut Dice, count: u8) -> Pattern {
    let length = match dice.below(4) {
        0 => 1,
        1 => 2,
        2 => count,
        _ => count.saturating_mul(8),
    };
    Pattern {
        first: dice.below(255),
        step: dice.below(8).wrapping_mul(32).wrapping_add(dice.below(2)),
        length,
    }
}

/// A letter for this client. The last one leaves no note.
fn drawn_letter(dice: &mut Dice, client: u8, clients: u8) -> char {
    match DRAWN.get(usize::from(dice.below(16))) {
        Some('t') if client.saturating_add(1) >= clients => 'f',
        Some(letter) => *letter,
        None => 'f',
    }
}

/// A request of one of so many clients. A note that it leaves is for a client of a higher number.
fn drawn_ask(dice: &mut Dice, clients: u8) -> Ask {
    let client = dice.below(clients);
    let above = client.saturating_add(1);
    let sector = dice.below(64);
    let most = dice.below(20).saturating_add(1);
    let count = dice
        .below(most)
        .saturating_add(1)
        .min(64u8.saturating_sub(sector));
    Ask {
        client,
        letter: drawn_letter(dice, client, clients),
        sector,
        count,
        other: above.saturating_add(dice.below(clients.saturating_sub(above))),
        pattern: drawn_pattern(dice, count),
    }
}

/// The requests of a script. The line that hears a note may stand before the one that leaves it.
fn drawn_asks(alloc: Global, dice: &mut Dice, clients: u8) -> Result<Vec<Ask>, AllocError> {
    let mut asks = Vec::new(alloc);
    for _ in 0..=dice.below(40) {
        let ask = drawn_ask(dice, clients);
        let hears = Ask {
            client: ask.other,
            letter: 'h',
            other: ask.client,
            ..ask
        };
        let is_before = dice.below(2) == 0;
        if ask.letter == 't' && is_before {
            asks.push(hears)?;
        }
        asks.push(ask)?;
        if ask.letter == 't' && !is_before {
            asks.push(hears)?;
        }
    }
    Ok(asks)
}

/// Adds the words with which the line of a request begins, and its answer too.
fn put_words(text: &mut String, ask: &Ask) -> Result<(), AllocError> {
    let (client, letter) = (ask.client, ask.letter);
    match letter {
        'f' | 'q' => write!(text, "{client} {letter}"),
        't' | 'h' => write!(text, "{client} {letter} {}", ask.other),
        _ => write!(text, "{client} {letter} {} {}", ask.sector, ask.count),
    }
}

/// Adds the line of a request.
fn put_line(script: &mut String, ask: &Ask) -> Result<(), AllocError> {
    put_words(script, ask)?;
    if matches!(ask.letter, 'w' | 'u') {
        script.push(' ')?;
        for at in 0..usize::from(ask.pattern.length) {
            write!(script, "{:02x}", ask.pattern.byte(at))?;
        }
    }
    script.push('\n')
}

/// The script of these requests.
fn script_of(alloc: Global, clients: u8, asks: &[Ask]) -> Result<String, AllocError> {
    let mut script = String::new(alloc);
    writeln!(script, "clients {clients}")?;
    for ask in asks {
        put_line(&mut script, ask)?;
    }
    Ok(script)
}

/// The register of the checksum behind a byte more.
fn after_byte(register: u32, byte: u8) -> u32 {
    let mut register = register ^ u32::from(byte);
    for _ in 0..8 {
        let half = register >> 1;
        register = if register & 1 == 1 {
            half ^ 0x82f6_3b78
        } else {
            half
        };
    }
    register
}

/// The checksum of bytes, bit by bit.
fn sum_of(bytes: &[u8]) -> u32 {
    let mut register = !0;
    for byte in bytes {
        register = after_byte(register, *byte);
    }
    !register
}

/// Whether bytes are the first of them, so many, repeated.
fn is_repeated(bytes: &[u8], length: usize) -> bool {
    bytes.len() % length.max(1) == 0
        && bytes
            .iter()
            .zip(bytes.iter().skip(length))
            .all(|(one, behind)| one == behind)
}

/// The length of the shortest pattern of bytes.
fn shortest(bytes: &[u8]) -> usize {
    for length in 1..bytes.len() {
        if is_repeated(bytes, length) {
            return length;
        }
    }
    bytes.len()
}

/// Adds the shortest pattern of bytes.
fn put_pattern(text: &mut String, bytes: &[u8]) -> Result<(), AllocError> {
    for byte in bytes.iter().take(shortest(bytes)) {
        write!(text, "{byte:02x}")?;
    }
    Ok(())
}

/// The bytes of these sectors.
fn sectors_of(image: &[u8], sector: u8, count: u8) -> &[u8] {
    let start = SECTOR_BYTES * usize::from(sector);
    match image.get(start..start + SECTOR_BYTES * usize::from(count)) {
        Some(bytes) => bytes,
        None => &[],
    }
}

/// An entry of a write: the bytes that it puts from this sector on, all in one block.
#[derive(Drop)]
struct Put {
    sector: u8,
    bytes: Vec<u8>,
}

impl Put {
    /// Puts the bytes to their place in an image.
    fn put(&self, image: &mut [u8]) {
        let start = SECTOR_BYTES * usize::from(self.sector);
        if let Some(place) = image.get_mut(start..start.saturating_add(self.bytes.len())) {
            if place.len() == self.bytes.len() {
                place.copy_from_slice(self.bytes.as_slice());
            }
        }
    }
}

/// The plain program: the image before the session, the places of a segment, the history, of which an entry that changes
/// nothing is none, and the output.
#[derive(Drop)]
struct Plain {
    base: Vec<u8>,
    places: usize,
    history: Vec<Option<Put>>,
    text: String,
}

impl Plain {
    /// One that has answered nothing. Each sector of its image has its own byte.
    fn new(alloc: Global, places: u8) -> Result<Plain, AllocError> {
        let mut base = Vec::new(alloc);
        for at in 0..BACKING_BYTES {
            base.push((at / SECTOR_BYTES % 256) as u8 ^ 0x40)?;
        }
        Ok(Plain {
            base,
            places: usize::from(places.max(1)),
            history: Vec::new(alloc),
            text: String::new(alloc),
        })
    }

    /// The image that the first entries make, so many.
    fn image(&self, alloc: Global, count: usize) -> Result<Vec<u8>, AllocError> {
        let mut image = Vec::from_slice(alloc, self.base.as_slice())?;
        for entry in self.history.iter().take(count) {
            if let Some(put) = entry {
                put.put(image.as_mut_slice());
            }
        }
        Ok(image)
    }

    /// The image that all entries make.
    fn last_image(&self, alloc: Global) -> Result<Vec<u8>, AllocError> {
        self.image(alloc, self.history.len())
    }

    /// Takes a place for the part of a write from sector `first` to `end`.
    fn take(&mut self, alloc: Global, ask: &Ask, first: u8, end: u8) -> Result<(), AllocError> {
        let place = self.history.len();
        write!(self.text, " {place}")?;
        let from = SECTOR_BYTES * usize::from(first.saturating_sub(ask.sector));
        let to = SECTOR_BYTES * usize::from(end.saturating_sub(ask.sector));
        let mut bytes = Vec::new(alloc);
        for at in from..to {
            bytes.push(ask.pattern.byte(at))?;
        }
        self.history.push(Some(Put {
            sector: first,
            bytes,
        }))?;
        Ok(())
    }

    /// Takes a place for each block that a write touches.
    fn write(&mut self, alloc: Global, ask: &Ask) -> Result<(), AllocError> {
        self.text.push_str(" at")?;
        for block in 0..8u8 {
            let start = block.saturating_mul(8);
            let first = ask.sector.max(start);
            let end = ask
                .sector
                .saturating_add(ask.count)
                .min(start.saturating_add(8));
            if first < end {
                self.take(alloc, ask, first, end)?;
            }
        }
        Ok(())
    }

    /// Takes the places that are left in the begun segment.
    fn flush(&mut self) -> Result<(), AllocError> {
        let places = self.places.max(1);
        let voids = (places - self.history.len() % places) % places;
        for _ in 0..voids {
            self.history.push(None)?;
        }
        let through = self.history.len();
        write!(self.text, " through {through} voids {voids}")
    }

    /// Shows sectors of what all entries make.
    fn read(&mut self, alloc: Global, ask: &Ask) -> Result<(), AllocError> {
        let point = self.history.len();
        let image = self.last_image(alloc)?;
        let bytes = sectors_of(image.as_slice(), ask.sector, ask.count);
        write!(self.text, " point {point} ")?;
        if ask.letter == 'x' {
            write!(self.text, "{:08x}", sum_of(bytes))
        } else {
            put_pattern(&mut self.text, bytes)
        }
    }

    /// Answers a request.
    fn answer(&mut self, alloc: Global, ask: &Ask) -> Result<(), AllocError> {
        put_words(&mut self.text, ask)?;
        if matches!(ask.letter, 'w' | 'u') {
            self.write(alloc, ask)?;
        }
        if matches!(ask.letter, 'u' | 'f' | 'q') {
            self.flush()?;
        }
        if matches!(ask.letter, 'r' | 'x') {
            self.read(alloc, ask)?;
        }
        self.text.push('\n')
    }

    /// Answers the requests of a client, in the order of the lines.
    fn serve_client(&mut self, alloc: Global, client: u8, asks: &[Ask]) -> Result<(), AllocError> {
        for ask in asks {
            if ask.client == client {
                self.answer(alloc, ask)?;
            }
        }
        Ok(())
    }

    /// Serves a script: one client after another.
    fn serve(&mut self, alloc: Global, clients: u8, asks: &[Ask]) -> Result<(), AllocError> {
        for client in 0..clients {
            self.serve_client(alloc, client, asks)?;
        }
        let places = self.history.len();
        writeln!(self.text, "places {places}")
    }

    /// The segments of the history. The last one may be begun.
    fn segments(&self) -> usize {
        let places = self.places.max(1);
        self.history.len().saturating_add(places - 1) / places
    }

    /// Whether the log has the last segments, as many as it has slots, so that with them the image that the entries before
    /// them make becomes the last one.
    fn is_logged(&self, alloc: Global, shape: &Shape, log: &[u8]) -> Result<bool, AllocError> {
        let segments = self.segments();
        let first = segments.saturating_sub(usize::from(shape.slots));
        let mut image = self.image(alloc, first.saturating_mul(self.places))?;
        for number in first..segments {
            if !put_slot(image.as_mut_slice(), shape, log, number) {
                return Ok(false);
            }
        }
        Ok(image.as_slice() == self.last_image(alloc)?.as_slice())
    }

    /// The record behind a session over a new log, whose segments come behind all slots.
    fn recorded(&self, shape: &Shape) -> u64 {
        u64::from(shape.slots).saturating_add(self.segments() as u64)
    }

    /// What recovery prints behind such a session. The slot of the next segment has the one that was there before, if any.
    fn recovered(&self, alloc: Global, shape: &Shape) -> Result<String, AllocError> {
        let next = self.recorded(shape).saturating_add(1);
        let record = self.recorded(shape).saturating_add(u64::from(shape.slots));
        let former = next.saturating_sub(u64::from(shape.slots));
        let id = if former > u64::from(shape.slots) {
            former
        } else {
            0
        };
        format!(in alloc; "recovered 0 segments from {next} record {record} stopped id {id}\n")
    }
}

/// Puts the blocks of the segment of this number of the session, counted from 0. Answers whether its slot has it.
fn put_slot(image: &mut [u8], shape: &Shape, log: &[u8], number: usize) -> bool {
    let slots = usize::from(shape.slots.max(1));
    let bytes = SECTOR_BYTES * usize::from(shape.sectors);
    let start = (2048 * SECTOR_BYTES).saturating_add(bytes.saturating_mul(number % slots));
    let Some(slot) = log.get(start..start.saturating_add(bytes)) else {
        return false;
    };
    let blocks = slot.len() / 4096;
    if slot.len() % 4096 != 0 || blocks < 2 || blocks > 128 {
        return false;
    }
    let id = slots.saturating_add(number).saturating_add(1);
    match check(slot, id as u64, 8) {
        Ok(found) => {
            put_segment(image, &found);
            true
        }
        Err(_) => false,
    }
}

/// The end of a run over devices that never fail.
type Ended = Outcome<SteadyDevice, SteadyDevice>;

/// A new log, and a backing device of this image.
fn formatted(alloc: Global, shape: &Shape, image: &[u8]) -> Result<Ended, AllocError> {
    let sectors = usize::from(shape.slots).saturating_mul(usize::from(shape.sectors));
    let bytes = sectors.saturating_add(2048).saturating_mul(SECTOR_BYTES);
    let log = SteadyDevice::of(vec![in alloc; 0x5a; bytes]?);
    let backing = SteadyDevice::of(Vec::from_slice(alloc, image)?);
    let (outcome, _) = run(alloc, shape.words, "", log, backing)?;
    Ok(outcome)
}

/// What is wrong behind a session that printed this.
fn wrong_session(
    alloc: Global,
    shape: &Shape,
    plain: &Plain,
    ended: &Ended,
    printed: &[u8],
) -> Result<Option<&'static str>, AllocError> {
    Ok(if ended.status != 0 {
        Some("the status")
    } else if printed != plain.text.as_bytes() {
        Some("the output")
    } else if ended.backing.bytes() != plain.last_image(alloc)?.as_slice() {
        Some("the backing image")
    } else if !has_record(ended.log.bytes(), Some(plain.recorded(shape))) {
        Some("the record")
    } else if !plain.is_logged(alloc, shape, ended.log.bytes())? {
        Some("the slots")
    } else {
        None
    })
}

/// What is wrong behind a recovery that printed this, where it finds nothing to put.
fn wrong_recovery(
    alloc: Global,
    shape: &Shape,
    plain: &Plain,
    ended: &Ended,
    printed: &[u8],
) -> Result<Option<&'static str>, AllocError> {
    Ok(if ended.status != 0 {
        Some("the status of recovery")
    } else if printed != plain.recovered(alloc, shape)?.as_bytes() {
        Some("the output of recovery")
    } else if ended.backing.bytes() != plain.last_image(alloc)?.as_slice() {
        Some("the recovered image")
    } else {
        None
    })
}

/// Recovers what a session left, and answers what is wrong then.
fn wrong_behind(
    alloc: Global,
    shape: &Shape,
    plain: &Plain,
    ended: Ended,
) -> Result<Option<&'static str>, AllocError> {
    let Outcome { log, backing, .. } = ended;
    let (ended, sink) = run(alloc, "recover LOG BACKING", "", log, backing)?;
    wrong_recovery(alloc, shape, plain, &ended, sink.taken())
}

/// Serves a script over a new log, and answers what is wrong then.
fn wrong_in(
    alloc: Global,
    shape: &Shape,
    plain: &Plain,
    script: &str,
) -> Result<Option<&'static str>, AllocError> {
    let Outcome { log, backing, .. } = formatted(alloc, shape, plain.base.as_slice())?;
    let (ended, sink) = run(alloc, SERVE, script, log, backing)?;
    match wrong_session(alloc, shape, plain, &ended, sink.taken())? {
        Some(wrong) => Ok(Some(wrong)),
        None => wrong_behind(alloc, shape, plain, ended),
    }
}

/// What the scripts had: how many there are, how often they have each letter, how many took places that change nothing, and
/// how many had more segments than the log has slots.
#[derive(Clone, Copy)]
struct Seen {
    scripts: u32,
    letters: [usize; 8],
    voids: u32,
    wraps: u32,
}

impl Seen {
    /// Counts a script.
    fn count(&mut self, shape: &Shape, asks: &[Ask], plain: &Plain) {
        self.scripts = self.scripts.saturating_add(1);
        let has_voids = plain.history.iter().any(|entry| entry.is_none());
        self.voids = self.voids.saturating_add(u32::from(has_voids));
        let wraps = plain.segments() > usize::from(shape.slots);
        self.wraps = self.wraps.saturating_add(u32::from(wraps));
        for (seen, letter) in self.letters.iter_mut().zip(&LETTERS) {
            let uses = asks.iter().filter(|ask| ask.letter == *letter).count();
            *seen = seen.saturating_add(uses);
        }
    }

    /// Whether these are all scripts, with each letter, some went round the log, and some took places that change nothing;
    /// none does that where a segment has one place.
    fn is_all(&self, shape: &Shape) -> bool {
        self.scripts == SCRIPTS
            && self.letters.iter().all(|uses| *uses > 0)
            && self.wraps > 0
            && (self.voids > 0) == (shape.places > 1)
    }
}

/// Draws a script, serves it in both ways, and counts it.
fn is_served_alike(
    rt: &impl Abort,
    alloc: Global,
    shape: &Shape,
    dice: &mut Dice,
    seen: &mut Seen,
) -> Result<(), Fail> {
    let clients = dice.below(4).saturating_add(1);
    let asks = drawn_asks(alloc, dice, clients)?;
    let script = script_of(alloc, clients, asks.as_slice())?;
    let mut plain = Plain::new(alloc, shape.places)?;
    plain.serve(alloc, clients, asks.as_slice())?;
    seen.count(shape, asks.as_slice(), &plain);
    let wrong = wrong_in(alloc, shape, &plain, script.as_str())?;
    assert!(rt;
        wrong.is_none(),
        "{wrong:?} is wrong in script {} of {}",
        seen.scripts,
        shape.words
    );
    Ok(())
}

/// Serves all scripts of a log.
fn serve_all(rt: &impl Abort, alloc: Global, shape: &Shape, dice: &mut Dice) -> Result<Seen, Fail> {
    let mut seen = Seen {
        scripts: 0,
        letters: [0; 8],
        voids: 0,
        wraps: 0,
    };
    for _ in 0..SCRIPTS {
        is_served_alike(rt, alloc, shape, dice, &mut seen)?;
    }
    Ok(seen)
}

#[test]
fn scripts_are_served_as_the_plain_program_serves_them(rt: HostRuntime) -> Result<(), Fail> {
    let mut dice = Dice { state: 1 };
    for shape in &SHAPES {
        let seen = serve_all(&rt, rt.alloc(), shape, &mut dice)?;
        assert!(rt; seen.is_all(shape), "{}", shape.words);
    }
    Ok(())
}
