//! Writes of clients.
ghost use Rattle.std.specs.Prelude.{◌≡◌, ◌≢◌, ◌+◌, ◌*◌, ◌/◌, ◌%◌, ◌^◌, ◌<◌, ◌≤◌, ℕ, true, false, [], ◌∷◌, length, map, All, None, IfOk, IfErr, IfSome};
ghost use Rattle.wb_geometry.specs.History.{Write};
ghost use Rattle.wb_geometry.specs.Requests.{parts, entries_of};
ghost use Rattle.wb_steps.specs.Rule.{shape_of, segment_at};
ghost use Rattle.wb_intake.specs.Sights.{IsLoaded};
ghost use Rattle.wb_intake.specs.Belongs.{Saw, HasLearnt, IsCause};
ghost use Rattle.wb_intake.specs.Passes.{pass_name, client_of_pass, view_of, loads_of};
ghost use Rattle.wb_front.specs.Requests.{IsPassOf, HasPut, IsWriteCause, IsFullAndDown, IsSince, MakesRoom, IsPieceInside, written, ArePieces};
ghost use Rattle.wb_front.specs.Joined.{IsIntakeOf};

use crate::core_of::Core;
use crate::flushing::down_by;
use crate::front::Front;
use crate::gate::{Gate, Point};
use std::alloc::{AllocError, Global};
use std::sync::Wait;
use std::thread;
use wb_device::Device;
use wb_engine::Engine;
use wb_geometry::{Block, Places, Which, split};
use wb_intake::{Intake, Named, NoClaim, Pass};

/// Why a write was stopped.
#[derive(Clone, Copy, Debug, PartialEq, Eq)]
pub enum WriteCause {
    /// There was no memory for its blocks. No place was taken.
    Memory,
    /// The segment of the place at the cursor would have no id.
    IdsSpent { cursor: u64 },
    /// There is no room, and the engine is down by this device.
    Down { device: Which },
}

/// A write that was stopped, with the places that its first parts took.
#[derive(Drop)]
pub struct WriteStop {
    pub places: Places,
    pub cause: WriteCause,
}

/// A block that wasn't put, given back, and why.
#[derive(Drop)]
pub struct NotPosted {
    pub cause: NoClaim,
    pub payload: Box<Block>,
}

/// What a write puts into one block.
#[derive(Drop)]
struct Piece {
    block: u64,
    payload: Box<Block>,
}

const SECTOR_BYTES: usize = 512;

impl<'g, L: Device, B: Device, G: Gate, T: Named> Front<'g, L, B, G, T> {
    /// Writes whole sectors from `sector` on, 1 to 256, inside the backing device. Answers the places of its parts, one for
    /// each block. All memory is taken before the first part is put. It may wait for room.
    pub fn write<R: Wait>(
        &self,
        rt: &R,
        alloc: Global,
        pass: &mut Pass,
        sector: u64,
        payload: &[u8],
    ) -> Result<Places, WriteStop>
        requires own { IsPassOf T.carried pass.old }
        requires whole { length payload.now % 512 ≡ 0 }
        requires some { 512 ≤ length payload.now }
        requires few { length payload.now ≤ 512 * 256 }
        requires inside { sector + length payload.now / 512 ≤ T.carried.geometry.backing_sectors }
        ensures own { (pass_name pass.new ≡ pass_name pass.old) × (client_of_pass pass.new ≡ client_of_pass pass.old) }
        ensures put { IfOk result (λ places. HasPut (view_of pass.old) (view_of pass.new) places (entries_of (client_of_pass pass.old) (parts sector (length payload.now / 512)) payload.now)
            × (length places ≡ length (parts sector (length payload.now / 512)))) }
        ensures stopped { IfErr result (λ stop. HasPut (view_of pass.old) (view_of pass.new) stop.places (entries_of (client_of_pass pass.old) (parts sector (length payload.now / 512)) payload.now)
            × (length stop.places < length (parts sector (length payload.now / 512)))) }
        ensures cause { IfErr result (λ stop. IsWriteCause (shape_of T.carried.geometry T.carried.first) (loads_of pass.old) (loads_of pass.new) (view_of pass.new) (length stop.places) stop.cause) }
    {
        let pieces = match pieces_of(alloc, sector, payload) {
            Ok(pieces) => pieces,
            Err(_) => {
                return Err(WriteStop {
                    places: Places::new(),
                    cause: WriteCause::Memory,
                });
            }
        };
        self.put_all(rt, pass, pieces)
    }

    /// Puts pieces in order until one is stopped. Answers the places of those that were put.
    fn put_all<R: Wait>(
        &self,
        rt: &R,
        pass: &mut Pass,
        pieces: Vec<Piece>,
    ) -> Result<Places, WriteStop>
        requires own { IsPassOf T.carried pass.old }
        requires inside { All (IsPieceInside T.carried.geometry) pieces.items }
        requires few { length pieces.items ≤ 33 }
        ensures own { (pass_name pass.new ≡ pass_name pass.old) × (client_of_pass pass.new ≡ client_of_pass pass.old) }
        ensures put { IfOk result (λ places. HasPut (view_of pass.old) (view_of pass.new) places (map (written (client_of_pass pass.old)) pieces.items)
            × (length places ≡ length pieces.items)) }
        ensures stopped { IfErr result (λ stop. HasPut (view_of pass.old) (view_of pass.new) stop.places (map (written (client_of_pass pass.old)) pieces.items)
            × (length stop.places < length pieces.items)) }
        ensures cause { IfErr result (λ stop. IsWriteCause (shape_of T.carried.geometry T.carried.first) (loads_of pass.old) (loads_of pass.new) (view_of pass.new) (length stop.places) stop.cause) }
    {
        let mut places = Places::new();
        for piece in pieces {
            match self.put(rt, pass, piece) {
                Ok(place) => places.push(place),
                Err(cause) => return Err(WriteStop { places, cause }),
            }
        }
        Ok(places)
    }

    /// Puts a piece at the next place, for which it may wait. No memory is taken.
    fn put<R: Wait>(&self, rt: &R, pass: &mut Pass, piece: Piece) -> Result<u64, WriteCause>
        requires own { IsPassOf T.carried pass.old }
        requires inside { IsPieceInside T.carried.geometry piece }
        ensures own { (pass_name pass.new ≡ pass_name pass.old) × (client_of_pass pass.new ≡ client_of_pass pass.old) }
        ensures put { IfOk result (λ place. HasPut (view_of pass.old) (view_of pass.new) (place ∷ []) (written (client_of_pass pass.old) piece ∷ [])) }
        ensures loads { IfOk result (λ place. IsSince (loads_of pass.old) (loads_of pass.new)) }
        ensures stopped { IfErr result (λ cause. Saw (view_of pass.old) (view_of pass.new)) }
        ensures cause { IfErr result (λ cause. (taken : ℕ) → IsWriteCause (shape_of T.carried.geometry T.carried.first) (loads_of pass.old) (loads_of pass.new) (view_of pass.new) taken cause) }
    {
        let Piece { block, mut payload } = piece;
        for _ in rt.forever() {
            let refused = match self.post_write(pass, block, payload) {
                Ok(place) => return Ok(place),
                Err(refused) => refused,
            };
            payload = refused.payload;
            match refused.cause {
                NoClaim::IdsSpent { cursor } => return Err(WriteCause::IdsSpent { cursor }),
                NoClaim::NoRoom { .. } => {
                    if let Some(device) = self.await_room(rt, pass) {
                        return Err(WriteCause::Down { device });
                    }
                }
                NoClaim::Busy { .. } => {}
            }
        }
        unreachable!()
    }

    /// Makes room where there is none, as far as that can be done now. Answers the device by which the engine is down, where
    /// there is no room. It may wait for the lock.
    fn await_room<R: Wait>(&self, rt: &R, pass: &mut Pass) -> Option<Which>
        requires own { IsPassOf T.carried pass.old }
        ensures own { (pass_name pass.new ≡ pass_name pass.old) × (client_of_pass pass.new ≡ client_of_pass pass.old) }
        ensures saw { Saw (view_of pass.old) (view_of pass.new) }
        ensures loads { IsSince (loads_of pass.old) (loads_of pass.new) }
        ensures down { IfSome result (λ device. IsFullAndDown (loads_of pass.old) (loads_of pass.new) (view_of pass.new) device) }
    {
        let look = self.intake.look(pass);
        if look.cursor != look.limit {
            return None;
        }
        if down_by(look.fault).is_some() {
            // Room may have come before the fault did, and comes no longer behind it.
            return self.look_full(pass);
        }
        if !self.core.lock(rt).make_room(&self.intake) {
            thread::yield_now();
        }
        None
    }

    /// Looks, and answers the device by which the engine is down, where there is no room.
    fn look_full(&self, pass: &mut Pass) -> Option<Which>
        requires own { IsPassOf T.carried pass.old }
        ensures own { (pass_name pass.new ≡ pass_name pass.old) × (client_of_pass pass.new ≡ client_of_pass pass.old) }
        ensures saw { Saw (view_of pass.old) (view_of pass.new) }
        ensures loads { IsSince (loads_of pass.old) (loads_of pass.new) }
        ensures down { IfSome result (λ device. IsFullAndDown (loads_of pass.old) (loads_of pass.new) (view_of pass.new) device) }
    {
        let look = self.intake.look(pass);
        if look.cursor != look.limit {
            return None;
        }
        down_by(look.fault)
    }

    /// Puts a block at the next place, by one claim. Its block is inside the backing device. It waits for nobody but the
    /// gate, and takes no memory.
    pub fn post_write(
        &self,
        pass: &mut Pass,
        block: u64,
        payload: Box<Block>,
    ) -> Result<u64, NotPosted>
        requires own { IsPassOf T.carried pass.old }
        requires inside { block < T.carried.geometry.backing_sectors / 8 }
        requires dirty { payload.value.bits ≢ 0 }
        ensures own { (pass_name pass.new ≡ pass_name pass.old) × (client_of_pass pass.new ≡ client_of_pass pass.old) }
        ensures put { IfOk result (λ place. HasPut (view_of pass.old) (view_of pass.new) (place ∷ []) (Write (client_of_pass pass.old) block payload.value.bits payload.value.payload ∷ [])) }
        ensures refused { IfErr result (λ n. (n.payload ≡ payload) × Saw (view_of pass.old) (view_of pass.new) × HasLearnt (view_of pass.new) n.cause
            × IsCause (shape_of T.carried.geometry T.carried.first) (loads_of pass.old) (loads_of pass.new) n.cause) }
        ensures loaded { IfOk result (λ place. IsSince (loads_of pass.old) (loads_of pass.new)) }
        ensures room { IfOk result (λ place. (segment_at (shape_of T.carried.geometry T.carried.first) place ≤ 2 ^ 48) × (place < (view_of pass.new).seen.limit)
            × IsLoaded (loads_of pass.old).cursor (loads_of pass.new).cursor place × IsLoaded (loads_of pass.old).limit (loads_of pass.new).limit (view_of pass.new).seen.limit) }
        ensures others { ((loads_of pass.new).stable ≡ (loads_of pass.old).stable) × ((loads_of pass.new).fault ≡ (loads_of pass.old).fault) × ((loads_of pass.new).cell ≡ (loads_of pass.old).cell) }
    {
        let claim = match self.intake.claim(pass, block, &payload) {
            Ok(claim) => claim,
            Err(cause) => return Err(NotPosted { cause, payload }),
        };
        self.gate.pass_point(pass.client(), Point::Claimed);
        let place = claim.place();
        self.intake.fill(pass, claim, payload);
        Ok(place)
    }
}

impl<L: Device, B: Device, T: Named> Core<L, B, T> {
    /// Drains, and makes a turn where the engine is up and a sealed segment waits for the log. Answers whether it made one.
    /// That a device failed is told by the fault word.
    fn make_room(&mut self, intake: &Intake) -> bool
        requires own { IsIntakeOf T.carried intake.now }
        ensures { MakesRoom L.state B.state self.old self.new result }
    {
        self.drain(intake);
        if !has_waiting(&self.engine) {
            return false;
        }
        let _turned = self.turn(intake);
        true
    }
}

/// Whether the engine is up and a sealed segment waits for the log.
fn has_waiting<L: Device, B: Device>(engine: &Engine<L, B>) -> bool
    ensures waiting { result ≡ true → (engine.now.down ≡ None) × (engine.now.numbers.logged < engine.now.numbers.sealed) }
    ensures none { result ≡ false → engine.now.down ≡ None → engine.now.numbers.sealed ≤ engine.now.numbers.logged }
{
    match engine.down() {
        Some(_) => false,
        None => has_sealed(engine),
    }
}

/// Whether there is a sealed segment that isn't logged.
fn has_sealed<L: Device, B: Device>(engine: &Engine<L, B>) -> bool
    ensures sealed { result ≡ true → engine.now.numbers.logged < engine.now.numbers.sealed }
    ensures none { result ≡ false → engine.now.numbers.sealed ≤ engine.now.numbers.logged }
{
    let geometry = engine.geometry();
    let places = geometry.places();
    let logged = engine.limit() / places - u64::from(geometry.ram);
    engine.absorbed() / places > logged
}

/// The pieces of a write: one for each block that it touches, with its sectors.
fn pieces_of(alloc: Global, sector: u64, payload: &[u8]) -> Result<Vec<Piece>, AllocError>
    requires some { 512 ≤ length payload.now }
    requires whole { length payload.now % 512 ≡ 0 }
    requires few { length payload.now ≤ 512 * 256 }
    requires inside { sector + length payload.now / 512 ≤ 2 ^ 40 }
    ensures { IfOk result (λ pieces. ArePieces sector (length payload.now / 512) payload.now pieces.items) }
{
    let count = (payload.len() / SECTOR_BYTES) as u64;
    let mut pieces = Vec::new(alloc);
    let mut left = payload;
    for part in split(sector, count) {
        let (front, behind) = left.split_at(SECTOR_BYTES * part.count as usize);
        let boxed = Block::boxed(alloc, &part, front)?;
        pieces.push(Piece {
            block: part.block,
            payload: boxed,
        })?;
        left = behind;
    }
    Ok(pieces)
}
