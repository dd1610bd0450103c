//! The seats of an intake, as callers hold them.
ghost use Rattle.std.specs.Prelude.{◌≡◌, ◌≤◌, ◌^◌, [], None, length};
ghost use Rattle.wb_intake.specs.Sights.{number_in};
ghost use Rattle.wb_steps.specs.declared.view.Role.TheVariants.{Owner, Copy as TheCopy, Drain as TheDrain};

use crate::table::Place;

/// What one client knows of the intake, and the places that it named.
#[derive(Drop)]
pub struct Pass {
    pub(crate) seat: Place,
    pub(crate) client: u32,
    pub(crate) notes: u64,
    pub ghost told: { notes ≡ length seat.me.0.view.told },
    pub ghost owns: { (seat.me.0.view.role ≡ Owner) × (seat.me.0.view.client ≡ client) × (seat.me.0.view.held ≡ None) × (seat.me.1 ≡ []) },
}

/// What takes the entries out, and publishes the limit, the stable number and the fault.
#[derive(Drop)]
pub struct Drain {
    pub(crate) seat: Place,
    pub(crate) drained: u64,
    pub(crate) clients: u32,
    pub ghost few: { drained ≤ 2 ^ 55 },
    pub ghost counts: { seat.me.0.view.client ≡ clients },
    pub ghost drains: { (seat.me.0.view.role ≡ TheDrain) × (seat.me.0.view.held ≡ None) × (seat.me.1 ≡ []) × (drained ≡ length seat.me.0.view.known) },
}

/// A copy of what a pass or the drain has seen.
#[derive(Drop)]
pub struct Note {
    pub(crate) seat: Place,
    pub(crate) client: u32,
    pub(crate) number: u64,
    pub ghost numbered: { number ≡ number_in seat.me.0.view.heard },
    pub ghost copies: { (seat.me.0.view.role ≡ TheCopy) × (seat.me.1 ≡ []) × (seat.me.0.view.client ≡ client) },
}

impl Pass {
    ghost use Rattle.std.specs.Prelude.{◌≡◌, length};
    ghost use Rattle.wb_intake.specs.Passes.{view_of};

    /// The client.
    pub fn client(&self) -> u32
        ensures { result ≡ (view_of self.now).client }
    {
        self.client
    }

    /// How many notes the pass has told.
    pub fn notes(&self) -> u64
        ensures { result ≡ length (view_of self.now).told }
    {
        self.notes
    }
}

impl Drain {
    ghost use Rattle.std.specs.Prelude.{◌≡◌, length};
    ghost use Rattle.wb_intake.specs.Passes.{drain_view};

    /// How many places were drained.
    pub fn drained(&self) -> u64
        ensures { result ≡ length (drain_view self.now).known }
    {
        self.drained
    }
}

impl Note {
    ghost use Rattle.std.specs.Prelude.{◌≡◌};
    ghost use Rattle.wb_intake.specs.Sights.{number_in};
    ghost use Rattle.wb_intake.specs.Passes.{note_view};

    /// The client of the pass that told the note, or the number of clients where the drain made it.
    pub fn client(&self) -> u32
        ensures { result ≡ (note_view self.now).client }
    {
        self.client
    }

    /// The number of the note among those of its pass, from 0. A note of the drain has the number 0.
    pub fn number(&self) -> u64
        ensures { result ≡ number_in (note_view self.now).heard }
    {
        self.number
    }
}
