//! A new intake.
ghost use Rattle.std.specs.Prelude.{◌≡◌, ◌+◌, ◌*◌, ◌<◌, ◌≤◌, ◌^◌, ℕ, [], ◌∷◌, length, replicate, slice_get, Some, IfOk};
ghost use Rattle.wb_steps.specs.Views.{beginning};
ghost use Rattle.wb_steps.specs.Rule as rule;
ghost use Rattle.wb_steps.specs.declared.view.Role.TheVariants.{Owner, Drain as TheDrain};
ghost use Rattle.wb_intake.specs.Passes.{name_of, pass_name, drain_name, numbers_of, view_of, drain_view, AreNewcomers};

use crate::board::Intake;
use crate::pass::{Drain, Pass};
use crate::table::Founds;
use atomic_table::Table;
use std::alloc::{AllocError, Global};
use wb_geometry::Geometry;
use wb_steps::Shape;

/// The words of a new intake.
fn first_words(alloc: Global, cells: u64) -> Result<Vec<u64>, AllocError>
    ensures { IfOk result (λ words. words.items ≡ 0 ∷ cells ∷ 0 ∷ 0 ∷ replicate cells 0) }
{
    let mut words = Vec::new(alloc);
    words.push(0)?;
    words.push(cells)?;
    words.push(0)?;
    words.push(0)?;
    for cell in 0..cells {
        words.push(0)?;
    }
    Ok(words)
}

impl Intake {
    /// An intake with no pass, and its drain.
    fn vacant(alloc: Global, shape: Shape) -> Result<(Intake, Drain), AllocError>
        requires { rule.IsShape shape }
        ensures shape { IfOk result (λ r. numbers_of r.0 ≡ shape) }
        ensures own { IfOk result (λ r. drain_name r.1 ≡ name_of r.0) }
        ensures drain { IfOk result (λ r. drain_view r.1 ≡ beginning TheDrain 0 (rule.cells shape)) }
    {
        let count = shape.ram * shape.places;
        let words = first_words(alloc, count)?;
        let (cells, seat) = Table::vacant(alloc, &words, count as usize, &shape)?;
        Ok((
            Intake { cells, shape },
            Drain {
                seat,
                drained: 0,
                clients: 0,
            },
        ))
    }

    /// The pass of the next client.
    fn found(&self, drain: &mut Drain, client: u32) -> Pass
        requires own { drain_name drain.old ≡ name_of self.now }
        requires next { (drain_view drain.old).client ≡ client }
        requires fits { client + 1 < 2 ^ 32 }
        ensures own { (drain_name drain.new ≡ drain_name drain.old) × (pass_name result ≡ drain_name drain.old) }
        ensures counted { drain_view drain.new ≡ record (drain_view drain.old) { client = client + 1 } }
        ensures pass { view_of result ≡ record (beginning Owner client 0) { seen = (drain_view drain.old).seen } }
    {
        let seat = self.cells.shared.split_seat::<Founds>(&mut drain.seat);
        drain.clients = client + 1;
        Pass {
            seat,
            client,
            notes: 0,
        }
    }

    /// An intake with a pass for each client, in order, and its drain. Its first segment has the id `first + 1`.
    pub fn new(
        alloc: Global,
        geometry: &Geometry,
        first: u64,
        clients: u32,
    ) -> Result<(Intake, Vec<Pass>, Drain), AllocError>
        requires { first ≤ 2 ^ 48 }
        ensures shape { IfOk result (λ r. numbers_of r.0 ≡ rule.shape_of geometry.now first) }
        ensures count { IfOk result (λ r. length r.1.items ≡ clients) }
        ensures passes { IfOk result (λ r. AreNewcomers (name_of r.0) (rule.cells (rule.shape_of geometry.now first)) r.1.items) }
        ensures drain { IfOk result (λ r. (drain_name r.2 ≡ name_of r.0) × (drain_view r.2 ≡ beginning TheDrain clients (rule.cells (rule.shape_of geometry.now first)))) }
    {
        let (intake, mut drain) = Intake::vacant(alloc, Shape::of(geometry, first))?;
        let mut passes = Vec::new(alloc);
        for client in 0..clients {
            passes.push(intake.found(&mut drain, client))?;
        }
        Ok((intake, passes, drain))
    }
}
