//! The front of the cache.
ghost use Rattle.std.specs.Prelude.{◌≡◌, ◌+◌, ◌-◌, ◌<◌, ◌^◌, length};
ghost use Rattle.wb_steps.specs.Views.{IsPrefix, telling, note_of, hearing};
ghost use Rattle.wb_steps.specs.Rule.{shape_of};
ghost use Rattle.wb_intake.specs.Passes.{name_of, numbers_of, pass_name, note_name, client_of_pass, view_of, loads_of, note_view};
ghost use Rattle.wb_front.specs.Beginning.{engine_of, Carries, IsNewIntake, IsFreshEngine};
ghost use Rattle.wb_front.specs.Requests.{IsPassOf};

use crate::core_of::Core;
use crate::gate::{Gate, Point};
use crate::opening::Ready;
use std::marker::PhantomData;
use std::sync::Mutex;
use wb_device::Device;
use wb_intake::{Intake, Named, Note, Pass};

/// A cache that many clients use at once, each with its pass.
#[derive(Drop)]
pub struct Front<'g, L: Device, B: Device, G: Gate, T: Named> {
    pub(crate) intake: Intake,
    pub(crate) core: Mutex<Core<L, B, T>>,
    pub(crate) gate: &'g G,
    pub ghost own: { (name_of intake ≡ T.carried.intake) × (numbers_of intake ≡ shape_of T.carried.geometry T.carried.first) },
}

impl<'g, L: Device, B: Device, G: Gate, T: Named> Front<'g, L, B, G, T> {
    /// Starts the front over what is ready, with a gate that its clients pass.
    pub fn start(ready: Ready<L, B>, gate: &'g G) -> Front<'g, L, B, G, T>
        requires carried { Carries L.state B.state T.carried ready }
        requires intake { IsNewIntake T.carried.clients ready }
        requires engine { IsFreshEngine L.state B.state (engine_of ready) }
    {
        let Ready {
            engine,
            intake,
            drain,
        } = ready;
        let core = Core {
            engine,
            drain,
            log_reads: 0,
            backing_reads: 0,
            named: PhantomData,
        };
        Front {
            intake,
            core: Mutex::new(core),
            gate,
        }
    }

    /// A client passes a point of the gate.
    pub fn pass_point(&self, client: u32, point: Point) {
        self.gate.pass_point(client, point);
    }

    /// A note of the pass: a copy of all that it has seen, with the cursors that it had seen at each of its notes up to this
    /// one. The pass has told fewer than `2 ^ 64 - 1` notes.
    pub fn tell(&self, pass: &mut Pass) -> Note
        requires own { IsPassOf T.carried pass.old }
        requires few { length (view_of pass.old).told < 2 ^ 64 - 1 }
        ensures own { (pass_name pass.new ≡ pass_name pass.old) × (client_of_pass pass.new ≡ client_of_pass pass.old) }
        ensures loads { loads_of pass.new ≡ loads_of pass.old }
        ensures told { view_of pass.new ≡ telling (view_of pass.old) }
        ensures note { (note_name result ≡ pass_name pass.old) × (note_view result ≡ note_of (view_of pass.old)) }
    {
        self.intake.tell(pass)
    }

    /// The pass has then seen what it and the note had seen. What it knows only grows.
    pub fn hear(&self, pass: &mut Pass, note: Note)
        requires own { IsPassOf T.carried pass.old }
        requires note { note_name note ≡ T.carried.intake }
        ensures own { (pass_name pass.new ≡ pass_name pass.old) × (client_of_pass pass.new ≡ client_of_pass pass.old) }
        ensures loads { loads_of pass.new ≡ loads_of pass.old }
        ensures heard { view_of pass.new ≡ hearing (view_of pass.old) (note_view note) }
        ensures more { IsPrefix (view_of pass.old).known (view_of pass.new).known }
    {
        self.intake.hear(pass, note);
    }
}
