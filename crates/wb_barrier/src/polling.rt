//! Polling a barrier.
ghost use Rattle.std.specs.Prelude.{◌≡◌, ◌≤◌, IfOk, IfErr};
ghost use Rattle.wb_intake.specs.Sights.{IsLoaded};
ghost use Rattle.wb_intake.specs.Belongs.{Saw};
ghost use Rattle.wb_intake.specs.Passes.{name_of, pass_name, client_of_pass, view_of, loads_of};
ghost use Rattle.wb_barrier.specs.Tickets.{IsDone, IsPending};

use crate::tickets::{Pending, Receipt, Ticket};
use wb_intake::{Intake, Pass};

/// Asks once whether the barrier of this ticket is done. It looks at the words of the intake, so that the pass has then
/// seen the stable number that decides. It waits for nobody and takes no memory.
///
/// It answers `Pending` exactly where the stable number that it loaded is below the number of the ticket, which is handed
/// back. In both cases nothing of the pass changes but the numbers that it has seen.
pub fn poll(intake: &Intake, pass: &mut Pass, ticket: Ticket) -> Result<Receipt, Pending>
    requires own { pass_name pass.old ≡ name_of intake.now }
    ensures own { (pass_name pass.new ≡ pass_name pass.old) × (client_of_pass pass.new ≡ client_of_pass pass.old) }
    ensures saw { Saw (view_of pass.old) (view_of pass.new) }
    ensures loaded { IsLoaded (loads_of pass.old).stable (loads_of pass.new).stable (view_of pass.new).seen.stable }
    ensures cell { (loads_of pass.new).cell ≡ (loads_of pass.old).cell }
    ensures fault { (loads_of pass.old).fault.count ≤ (loads_of pass.new).fault.count }
    ensures receipt { IfOk result (λ r. IsDone ticket (view_of pass.new).seen.stable r) }
    ensures pending { IfErr result (λ p. IsPending ticket (view_of pass.new).seen.stable p) }
{
    let stable = intake.look(pass).stable;
    if stable < ticket.number {
        return Err(Pending {
            needs: ticket.number,
            stable,
            ticket,
        });
    }
    Ok(Receipt {
        number: ticket.number,
    })
}
