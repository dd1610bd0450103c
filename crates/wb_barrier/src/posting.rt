//! Posting a barrier.
ghost use Rattle.std.specs.Prelude.{◌≡◌, []};
ghost use Rattle.wb_intake.specs.Belongs.{IsOwed};
ghost use Rattle.wb_intake.specs.Passes.{name_of, pass_name, numbers_of, client_of_pass, view_of, loads_of};
ghost use Rattle.wb_barrier.specs.Tickets.{IsNumbered, LoadsCursorAlone, HasPosted};

use crate::tickets::Ticket;
use wb_intake::{Intake, Pass, Voids};

/// Fills all places that a bump named.
fn fill_all(intake: &Intake, pass: &mut Pass, mut voids: Voids)
    requires own { pass_name pass.old ≡ name_of intake.now }
    requires owed { IsOwed (view_of pass.old) (client_of_pass pass.old) voids.next voids.left }
    ensures own { (pass_name pass.new ≡ pass_name pass.old) × (client_of_pass pass.new ≡ client_of_pass pass.old) }
    ensures loads { loads_of pass.new ≡ loads_of pass.old }
    ensures filled { view_of pass.new ≡ record (view_of pass.old) { unfilled = [] } }
{
    let count = voids.left;
    for filled in 0..count {
        intake.fill_void(pass, &mut voids);
    }
    Intake::finish(voids);
}

/// Posts a barrier for all that the pass has put and seen. It names the rest of the begun segment for voids of the
/// pass's client, by one bump, and fills them; where no segment is begun it takes no place. The pass has nothing to
/// fill, neither before the call nor behind it. It waits for nobody and takes no memory.
pub fn post(intake: &Intake, pass: &mut Pass) -> Ticket
    requires own { pass_name pass.old ≡ name_of intake.now }
    requires free { (view_of pass.old).unfilled ≡ [] }
    ensures own { (pass_name pass.new ≡ pass_name pass.old) × (client_of_pass pass.new ≡ client_of_pass pass.old) }
    ensures number { IsNumbered (numbers_of intake.now).places (view_of pass.old).seen.cursor
        (loads_of pass.old).cursor (loads_of pass.new).cursor result }
    ensures loads { LoadsCursorAlone (loads_of pass.old) (loads_of pass.new) }
    ensures posted { HasPosted (view_of pass.old) (view_of pass.new) result }
{
    let voids = intake.bump(pass);
    let number = voids.through;
    let taken = voids.left;
    fill_all(intake, pass, voids);
    Ticket {
        number,
        voids: taken,
    }
}
