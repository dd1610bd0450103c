//! Looks, and bumps.
ghost use Rattle.std.specs.Prelude.{◌≡◌, ◌≢◌, ◌+◌, ◌-◌, ◌<◌, ◌≤◌, ◌^◌, ℕ, [], length, max, replicate, map};
ghost use Rattle.std.specs.List.{enumerate_from};
ghost use Rattle.wb_geometry.specs.History.{Void};
ghost use Rattle.wb_steps.specs.Faults.{parts_of};
ghost use Rattle.wb_steps.specs.Views.{naming};
ghost use Rattle.wb_steps.specs.Rule as rule;
ghost use Rattle.wb_steps.specs.Steps.{IsRoundedUp};
ghost use Rattle.wb_steps.specs.declared.view.Role.TheVariants.{Owner, Spent};
ghost use Rattle.wb_intake.specs.Sights.{IsLoaded, NamesRightly};
ghost use Rattle.wb_intake.specs.Belongs.{sight, IsSameSeat, Saw, HasBumped, IsOwed};

use crate::answers::Look;
use crate::board::Intake;
use crate::table::Place;

impl Intake {
    /// Looks at the cursor, the limit, the stable number and the fault, by one load each.
    pub(crate) fn look_around(&self, seat: &mut Place) -> Look
        requires own { seat.old.table_id ≡ self.now.cells.shared.table_id }
        requires live { (sight seat.old).view.role ≢ Spent }
        ensures seat { IsSameSeat seat.old seat.new }
        ensures saw { Saw (sight seat.old).view (sight seat.new).view }
        ensures names { NamesRightly (sight seat.old).view }
        ensures few { length (sight seat.new).view.known ≤ (sight seat.new).view.seen.cursor }
        ensures others { (sight seat.new).loads.cell ≡ (sight seat.old).loads.cell }
        ensures cursor { IsLoaded (sight seat.old).loads.cursor (sight seat.new).loads.cursor result.cursor × ((sight seat.new).view.seen.cursor ≡ result.cursor) }
        ensures limit { IsLoaded (sight seat.old).loads.limit (sight seat.new).loads.limit result.limit × ((sight seat.new).view.seen.limit ≡ result.limit) }
        ensures stable { IsLoaded (sight seat.old).loads.stable (sight seat.new).loads.stable result.stable × ((sight seat.new).view.seen.stable ≡ result.stable) }
        ensures fault { IsLoaded (sight seat.old).loads.fault (sight seat.new).loads.fault result.fault × ((sight seat.new).view.seen.fault ≡ parts_of result.fault) }
    {
        let cursor = self.load(seat, 0);
        let limit = self.load(seat, 1);
        let stable = self.load(seat, 2);
        let fault = self.load(seat, 3);
        Look {
            cursor,
            limit,
            stable,
            fault,
        }
    }

    /// The least whole number of segments that has the place.
    pub(crate) fn round_up(&self, place: u64) -> u64
        requires { place ≤ 2 ^ 55 }
        ensures { IsRoundedUp self.now.shape.places place result }
    {
        let places = self.shape.places;
        let past = place % places;
        if past == 0 {
            return place;
        }
        place + (places - past)
    }

    /// Raises the cursor to the end of the segment in which it was seen, by one step. Answers that end, and the cursor that
    /// was found.
    pub(crate) fn bump_cursor(&self, seat: &mut Place) -> (u64, u64)
        requires own { seat.old.table_id ≡ self.now.cells.shared.table_id }
        requires owner { ((sight seat.old).view.role ≡ Owner) × ((sight seat.old).view.unfilled ≡ []) }
        ensures seat { IsSameSeat seat.old seat.new }
        ensures through { (cursor : ℕ) × IsLoaded (sight seat.old).loads.cursor (sight seat.new).loads.cursor cursor × IsRoundedUp self.now.shape.places cursor result.0 × (cursor ≤ result.1) × ((sight seat.old).view.seen.cursor ≤ cursor) }
        ensures others { ((sight seat.new).loads.limit ≡ (sight seat.old).loads.limit) × ((sight seat.new).loads.stable ≡ (sight seat.old).loads.stable) × ((sight seat.new).loads.fault ≡ (sight seat.old).loads.fault) × ((sight seat.new).loads.cell ≡ (sight seat.old).loads.cell) }
        ensures bumped { HasBumped (sight seat.old).view (sight seat.new).view result.1 result.0 }
        ensures owed { IsOwed (sight seat.new).view (sight seat.old).view.client result.1 (result.0 - result.1) }
        ensures fits { result.0 < 2 ^ 56 }
    {
        let cursor = self.load(seat, 0);
        let through = self.round_up(cursor);
        let found = self.raise_cursor(seat, through);
        (through, found)
    }
}
