//! The table of an intake, with its numbers.
ghost use Rattle.std.specs.Prelude.{◌≡◌, ◌≢◌, ◌+◌, ◌*◌, ◌<◌, ◌≤◌, ◌^◌};
ghost use Rattle.wb_steps.specs.Rule as rule;
ghost use Rattle.wb_steps.specs.Steps.{seeing};
ghost use Rattle.wb_steps.specs.declared.view.Role.TheVariants.{Spent};
ghost use Rattle.wb_intake.specs.Sights.{HasMet, NamesRightly};
ghost use Rattle.wb_intake.specs.Plays.{IsUp, with_load};
ghost use Rattle.wb_intake.specs.Belongs.{sight, IsSameSeat};

use crate::table::{Cells, Place, Sees};
use wb_steps::Shape;

/// Where the clients put their entries.
#[derive(Drop)]
pub struct Intake {
    pub(crate) cells: Cells,
    pub(crate) shape: Shape,
    ghost key: { cells.shared.key ≡ shape },
    pub ghost fits: { rule.IsShape shape },
    ghost table: { (cells.shared.table_id.words ≡ rule.cells shape + 4) × (cells.shared.table_id.slots ≡ rule.cells shape) },
}

/// The number of the first word of a cell.
pub(crate) const CELLS: usize = 4;

impl Intake {
    /// A load of the cursor, the limit, the stable number or the fault, which are the words 0 to 3.
    pub(crate) fn load(&self, seat: &mut Place, word: usize) -> u64
        requires own { seat.old.table_id ≡ self.now.cells.shared.table_id }
        requires live { (sight seat.old).view.role ≢ Spent }
        requires word { word < 4 }
        ensures seat { IsSameSeat seat.old seat.new }
        ensures up { IsUp (sight seat.old).view word result }
        ensures met { HasMet (sight seat.old) }
        ensures names { NamesRightly (sight seat.old).view }
        ensures seen { sight seat.new ≡ with_load (sight seat.old) (seeing (sight seat.old).view word result) word result }
    {
        self.cells.shared.load::<Sees>(seat, word)
    }
}
