//! The board on which clients leave notes.
ghost use Rattle.std.specs.Prelude.{◌≡◌, ◌<◌, IfSome, length, slice_index_or};
ghost use Rattle.wb_intake.specs.declared.pass.Note.{Note};
ghost use Rattle.wb_board.specs.Notes.{IsToldIn, IsNumbered};

use std::alloc::{AllocError, Global};
use std::marker::{Model, PhantomData};
use std::sync::{Condvar, Mutex, Wait};
use wb_intake::{Named, Note};
use wb_script::{Request, Script};

/// The most clients of a script.
const MOST_CLIENTS: usize = 32;

/// The notes that were left and not heard yet, and which clients leave none any more.
#[derive(Drop)]
struct Left<T: Named> {
    notes: Vec<Note>,
    ended: [bool; MOST_CLIENTS],
    named: PhantomData<T>,
}

impl<T: Named> Model for Left<T> {
    ghost use Rattle.std.specs.Prelude.{List};
    ghost use Rattle.wb_intake.specs.declared.pass.Note.{Note};
    ghost use Rattle.wb_board.specs.Notes.{AreToldIn};

    ghost Value = { List Note };

    ghost view = { λ l. l.notes.items };

    ghost invariant = { λ l. AreToldIn T.carried.intake l.notes.items };
}

impl<T: Named> Left<T> {
    /// Where the note with this number of this client stands, if it is there.
    fn place_of(&self, client: u32, number: u64) -> Option<usize>
        ensures inside { IfSome result (λ place. place < length self.now) }
        ensures is { IfSome result (λ place. (d : Note) → IsNumbered client number (slice_index_or self.now place d)) }
    {
        for (place, note) in self.notes.iter().enumerate() {
            if note.client() == client && note.number() == number {
                return Some(place);
            }
        }
        None
    }

    /// Whether the note with this number of this client isn't there, and may yet come.
    fn is_awaited(&self, client: u32, number: u64) -> bool {
        let ended = self.ended.get(client as usize).copied().unwrap_or(true);
        !ended && self.place_of(client, number).is_none()
    }

    /// Takes the note at this place off, and gives it.
    fn take_at(&mut self, place: usize) -> Note
        requires { place < length self.old }
        ensures told { IsToldIn T.carried.intake result }
        ensures is { result ≡ slice_index_or self.old place result }
    {
        self.notes.remove(place)
    }

    /// Takes the note with this number of this client off, if it is there, and gives it.
    fn take(&mut self, client: u32, number: u64) -> Option<Note>
        ensures told { IfSome result (λ note. IsToldIn T.carried.intake note) }
        ensures is { IfSome result (λ note. IsNumbered client number note) }
    {
        let place = self.place_of(client, number)?;
        Some(self.take_at(place))
    }

    /// Adds a note.
    fn add(&mut self, note: Note) -> Result<(), AllocError>
        requires { IsToldIn T.carried.intake note }
    {
        self.notes.push(note)?;
        Ok(())
    }

    /// No note of this client comes any more.
    fn end(&mut self, client: u32) {
        if let Some(ended) = self.ended.get_mut(client as usize) {
            *ended = true;
        }
    }
}

/// Notes that clients leave for others, each known by the client that told it and by its number among the notes of that
/// client, from 0. A note is heard once.
#[derive(Drop)]
pub struct Board<T: Named> {
    left: Mutex<Left<T>>,
    changed: Condvar,
}

impl<T: Named> Board<T> {
    /// A board with no note, and room for all notes of the script.
    pub fn new(alloc: Global, script: &Script) -> Result<Board<T>, AllocError> {
        Ok(Board {
            left: Mutex::new(Left {
                notes: Vec::with_capacity(alloc, notes_of(script))?,
                ended: [false; MOST_CLIENTS],
                named: PhantomData,
            }),
            changed: Condvar::new(),
        })
    }

    /// Leaves a note of this intake for whoever hears it. It may wait for the lock.
    pub fn leave<R: Wait>(&self, rt: &R, note: Note) -> Result<(), AllocError>
        requires { IsToldIn T.carried.intake note }
    {
        let left = self.left.lock(rt).add(note);
        self.changed.notify_all();
        left
    }

    /// Waits for the note with this number of this client, and takes it off. `None` comes where that client ended and didn't
    /// leave it.
    pub fn hear<R: Wait>(&self, rt: &R, client: u32, number: u64) -> Option<Note>
        ensures told { IfSome result (λ note. IsToldIn T.carried.intake note) }
        ensures is { IfSome result (λ note. IsNumbered client number note) }
    {
        let mut left = self.changed.wait_while(rt, self.left.lock(rt), |left| {
            left.is_awaited(client, number)
        });
        left.take(client, number)
    }

    /// Tells that this client leaves no note any more. Whoever waits for one then hears that it doesn't come.
    pub fn end<R: Wait>(&self, rt: &R, client: u32) {
        self.left.lock(rt).end(client);
        self.changed.notify_all();
    }
}

/// How many notes the requests of a script leave.
fn notes_of(script: &Script) -> usize {
    let mut notes: usize = 0;
    for requests in script.requests() {
        notes = notes.saturating_add(notes_of_client(requests.as_slice()));
    }
    notes
}

/// How many notes these requests leave.
fn notes_of_client(requests: &[Request]) -> usize {
    let mut notes: usize = 0;
    for request in requests {
        if matches!(request, Request::Tell { .. }) {
            notes = notes.saturating_add(1);
        }
    }
    notes
}
