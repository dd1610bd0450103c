//! The drain meets passes.
ghost use Rattle.std.specs.Prelude.{◌≡◌, ◌≢◌, ◌≤◌, ℕ};
ghost use Rattle.wb_steps.specs.Steps.{seeing};
ghost use Rattle.wb_steps.specs.declared.view.Role.TheVariants.{Owner, Drain};
ghost use Rattle.wb_intake.specs.Sights.{IsBehind, IsLoaded};
ghost use Rattle.wb_intake.specs.Belongs.{sight, IsSameSeat};

use crate::board::Intake;
use crate::table::{Meets, Place, Shows};

impl Intake {
    /// The drain receives a copy of what the owner has seen, and looks at the cursor.
    pub(crate) fn meet_seats(&self, owner: &mut Place, drain: &mut Place)
        requires own { (owner.old.table_id ≡ self.now.cells.shared.table_id) × (drain.old.table_id ≡ self.now.cells.shared.table_id) }
        requires owner { (sight owner.old).view.role ≡ Owner }
        requires drain { (sight drain.old).view.role ≡ Drain }
        ensures seats { IsSameSeat owner.old owner.new × IsSameSeat drain.old drain.new }
        ensures owner { sight owner.new ≡ sight owner.old }
        ensures others { ((sight drain.new).loads.limit ≡ (sight drain.old).loads.limit) × ((sight drain.new).loads.stable ≡ (sight drain.old).loads.stable) × ((sight drain.new).loads.fault ≡ (sight drain.old).loads.fault) × ((sight drain.new).loads.cell ≡ (sight drain.old).loads.cell) }
        ensures looks { (cursor : ℕ) × IsLoaded (sight drain.old).loads.cursor (sight drain.new).loads.cursor cursor × ((sight drain.new).view ≡ seeing (sight drain.old).view 0 cursor) × ((sight owner.old).view.seen.cursor ≤ cursor) × ((sight drain.old).view.seen.cursor ≤ cursor) }
        ensures behind { IsBehind (sight drain.new).view (sight owner.old).view }
    {
        let copy = self.cells.shared.split_seat::<Shows>(owner);
        self.cells.shared.join_seat::<Meets>(drain, copy);
        self.load(drain, 0);
    }
}
