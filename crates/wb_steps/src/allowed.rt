//! Where a step is allowed.
ghost use Rattle.std.specs.Prelude.{◌≡◌, ◌≢◌, ◌⊎◌, ◌<◌, ◌≤◌, ◌+◌, ◌*◌, ◌%◌, ◌^◌, ℕ, length, IsTrue, ◌↔◌, Contains, [], None, Some};
ghost use mathlib.Core.Option.{some};
ghost use lib.ListN.{get_elem?};
ghost use Rattle.wb_geometry.specs.Entering.{entered};
ghost use Rattle.wb_steps.specs.Faults.{parts_of, IsPartwiseAtMost};
ghost use Rattle.wb_steps.specs.Rule.{Intake, MayStand, cells, IsShape};
ghost use Rattle.wb_steps.specs.Steps.{Allows, IsRoundedUp, IsWriteOf};
ghost use Rattle.wb_steps.specs.declared.view.Role.TheVariants.{Owner, Copy, Drain, Spent};
ghost use Rattle.wb_steps.specs.declared.view.View as seats;

use crate::{Faults, Kind, Role, Shape, View};
use wb_geometry::Entry;

/// The greatest id of a segment.
const LAST_ID: u64 = 1 << 48;

/// Whether a place may have this entry.
fn may_stand(shape: &Shape, place: u64, entry: &Entry) -> bool
    requires { IsShape shape.now }
    ensures { IsTrue result ↔ MayStand shape.now place (entered entry.now) }
{
    let has_id = place / shape.places < LAST_ID - shape.first;
    match entry {
        Entry::Write {
            client: _,
            block,
            payload,
        } => has_id && *block < shape.blocks && payload.bits != 0,
        Entry::Void { client: _ } => has_id && place % shape.places != 0,
    }
}

/// Whether it is a write of the client.
fn is_write_of(client: u32, entry: &Entry) -> bool
    ensures { IsTrue result ↔ IsWriteOf client (entered entry.now) }
{
    match entry {
        Entry::Write {
            client: writer,
            block: _,
            payload: _,
        } => *writer == client,
        Entry::Void { client: _ } => false,
    }
}

/// Whether an owner may claim the place for the entry.
pub(crate) fn may_claim(shape: &Shape, view: &View, expected: u64, entry: &Entry) -> bool
    requires { IsShape shape.now }
    ensures { IsTrue result ↔ ((view.now.role ≡ Owner) × (view.now.unfilled ≡ []) × (expected < view.now.seen.limit)
        × IsWriteOf view.now.client (entered entry.now) × MayStand shape.now expected (entered entry.now)) }
{
    matches!(view.role, Role::Owner)
        && view.unfilled.is_empty()
        && expected < view.seen.limit
        && is_write_of(view.client, entry)
        && may_stand(shape, expected, entry)
}

/// Whether `to` is the least whole number of segments that is at least the cursor.
fn is_rounded_up(places: u64, cursor: u64, to: u64) -> bool
    requires { 0 < places }
    ensures { IsTrue result ↔ IsRoundedUp places cursor to }
{
    to % places == 0 && cursor <= to && to - cursor < places
}

/// Whether an owner may bump the cursor.
pub(crate) fn may_bump(shape: &Shape, view: &View, to: u64) -> bool
    requires { IsShape shape.now }
    ensures { IsTrue result ↔ ((view.now.role ≡ Owner) × (view.now.unfilled ≡ []) × IsRoundedUp shape.now.places view.now.seen.cursor to) }
{
    matches!(view.role, Role::Owner)
        && view.unfilled.is_empty()
        && is_rounded_up(shape.places, view.seen.cursor, to)
}

/// Whether an owner may fill the place.
pub(crate) fn may_fill(view: &View, place: u64) -> bool
    ensures { IsTrue result ↔ ((view.now.role ≡ Owner) × Contains view.now.unfilled place) }
{
    matches!(view.role, Role::Owner) && view.unfilled.as_slice().contains(&place)
}

/// Whether a seat may look at the word.
pub(crate) fn may_look(view: &View, word: u32) -> bool
    ensures { IsTrue result ↔ ((view.now.role ≢ Spent) × (word < 4)) }
{
    !matches!(view.role, Role::Spent) && word < 4
}

/// Whether it is the drain.
pub(crate) fn is_drain(view: &View) -> bool
    ensures { IsTrue result ↔ (view.now.role ≡ Drain) }
{
    matches!(view.role, Role::Drain)
}

/// Whether the drain may give a cell back.
pub(crate) fn may_give_back(view: &View) -> bool
    ensures { IsTrue result ↔ ((view.now.role ≡ Drain) × (view.now.held ≢ None)) }
{
    matches!(view.role, Role::Drain) && view.held.is_some()
}

/// Whether the drain may publish this limit.
pub(crate) fn may_raise(shape: &Shape, view: &View, limit: u64) -> bool
    requires { IsShape shape.now }
    ensures { IsTrue result ↔ ((view.now.role ≡ Drain) × (limit % shape.now.places ≡ 0) × (view.now.seen.limit ≤ limit)
        × (limit ≤ length view.now.known + cells shape.now)) }
{
    let cells = shape.ram * shape.places;
    matches!(view.role, Role::Drain)
        && limit % shape.places == 0
        && view.seen.limit <= limit
        && limit.saturating_sub(cells) <= view.known.len() as u64
}

/// Whether the drain may publish this stable number.
pub(crate) fn may_stable(shape: &Shape, view: &View, stable: u64) -> bool
    requires { IsShape shape.now }
    ensures { IsTrue result ↔ ((view.now.role ≡ Drain) × (stable % shape.now.places ≡ 0) × (view.now.seen.stable ≤ stable)
        × (stable ≤ length view.now.known)) }
{
    matches!(view.role, Role::Drain)
        && stable % shape.places == 0
        && view.seen.stable <= stable
        && stable <= view.known.len() as u64
}

impl Faults {
    ghost use Rattle.std.specs.Prelude.{◌≡◌, IsTrue, ◌↔◌};
    ghost use Rattle.wb_steps.specs.Faults.{parts_of, IsPartwiseAtMost, greater_parts};

    /// The parts of a fault word.
    pub fn of(word: u64) -> Faults
        ensures { result ≡ parts_of word }
    {
        Faults {
            log_down: word % 2,
            backing_down: word / 2 % 2,
            log_reads: word / 4 % (1 << 31),
            backing_reads: word / (1 << 33),
        }
    }

    /// Whether no part is above that of the other.
    pub fn is_at_most(&self, other: &Faults) -> bool
        ensures { IsTrue result ↔ IsPartwiseAtMost self.now other.now }
    {
        self.log_down <= other.log_down
            && self.backing_down <= other.backing_down
            && self.log_reads <= other.log_reads
            && self.backing_reads <= other.backing_reads
    }

    /// The greater of each part.
    pub fn greater(&self, other: &Faults) -> Faults
        ensures { result ≡ greater_parts self.now other.now }
    {
        Faults {
            log_down: self.log_down.max(other.log_down),
            backing_down: self.backing_down.max(other.backing_down),
            log_reads: self.log_reads.max(other.log_reads),
            backing_reads: self.backing_reads.max(other.backing_reads),
        }
    }
}

/// Whether the drain may publish this fault.
pub(crate) fn may_fault(view: &View, fault: u64) -> bool
    ensures { IsTrue result ↔ ((view.now.role ≡ Drain) × IsPartwiseAtMost view.now.seen.fault (parts_of fault)) }
{
    matches!(view.role, Role::Drain) && view.seen.fault.is_at_most(&Faults::of(fault))
}

/// Whether it is an owner.
pub(crate) fn is_owner(view: &View) -> bool
    ensures { IsTrue result ↔ (view.now.role ≡ Owner) }
{
    matches!(view.role, Role::Owner)
}

/// Whether it is an owner or the drain.
pub(crate) fn is_owner_or_drain(view: &View) -> bool
    ensures { IsTrue result ↔ ((view.now.role ≡ Owner) ⊎ (view.now.role ≡ Drain)) }
{
    matches!(view.role, Role::Owner | Role::Drain)
}

/// Whether a seat may make a copy, where there are so many seats.
pub(crate) fn may_split(view: &View, seats: usize) -> bool
    ensures { IsTrue result ↔ (((view.now.role ≡ Owner) ⊎ (view.now.role ≡ Drain)) × (seats < 2 ^ 32)) }
{
    is_owner_or_drain(view) && seats < 1 << 32
}

/// Whether there is a copy with this number.
fn is_copy(views: &[View], copy: u32) -> bool
    ensures { IsTrue result ↔ ((w : seats.View) × (get_elem? views.now copy ≡ some w) × (w.role ≡ Copy)) }
{
    match views.get(copy as usize) {
        Some(view) => matches!(view.role, Role::Copy),
        None => false,
    }
}

/// Whether a seat may receive what the copy of this number has seen.
pub(crate) fn may_join(view: &View, views: &[View], copy: u32) -> bool
    ensures { IsTrue result ↔ (((view.now.role ≡ Owner) ⊎ (view.now.role ≡ Drain)) × ((w : seats.View) × (get_elem? views.now copy ≡ some w) × (w.role ≡ Copy))) }
{
    is_owner_or_drain(view) && is_copy(views, copy)
}

/// Whether the seat of this view may make the step.
pub(crate) fn allows(shape: &Shape, views: &[View], view: &View, kind: &Kind) -> bool
    requires { IsShape shape.now }
    ensures { (s : Intake) → s.views ≡ views.now → IsTrue result ↔ Allows shape.now s view.now kind.now }
{
    match kind {
        Kind::Claim { expected, entry } => may_claim(shape, view, *expected, entry),
        Kind::Bump { to } => may_bump(shape, view, *to),
        Kind::Fill { place } => may_fill(view, *place),
        Kind::Look { word } => may_look(view, *word),
        Kind::Take => is_drain(view),
        Kind::GiveBack => may_give_back(view),
        Kind::Raise { limit } => may_raise(shape, view, *limit),
        Kind::Stable { stable } => may_stable(shape, view, *stable),
        Kind::Fault { fault } => may_fault(view, *fault),
        Kind::Split => may_split(view, views.len()),
        Kind::Join { copy } => may_join(view, views, *copy),
    }
}
