//! Taking entries out.
ghost use Rattle.std.specs.Prelude.{◌≡◌, ◌≢◌, ◌+◌, ◌<◌, ◌≤◌, ◌^◌, [], length, IfOk, IfErr, None};
ghost use Rattle.wb_steps.specs.Rule as rule;
ghost use Rattle.wb_steps.specs.Steps.{seeing};
ghost use Rattle.wb_steps.specs.declared.view.Role.TheVariants.{Drain};
ghost use Rattle.wb_intake.specs.Sights.{IsCellLoaded};
ghost use Rattle.wb_intake.specs.Belongs.{sight, IsSameSeat, HasDrained, IsWaiting};

use crate::answers::NotFilled;
use crate::board::Intake;
use crate::table::Place;
use std::marker::Brand;
use wb_steps::Item;

impl Intake {
    /// Takes the entry of the next place out, where the place is filled.
    pub(crate) fn take_next(&self, seat: &mut Place, place: u64) -> Result<Item, NotFilled>
        requires own { seat.old.table_id ≡ self.now.cells.shared.table_id }
        requires drain { ((sight seat.old).view.role ≡ Drain) × ((sight seat.old).view.held ≡ None) × (seat.old.me.1 ≡ []) }
        requires place { place ≡ length (sight seat.old).view.known }
        requires few { place ≤ 2 ^ 55 }
        ensures seat { IsSameSeat seat.old seat.new }
        ensures taken { IfOk result (λ e. HasDrained (sight seat.old).view (sight seat.new).view e) }
        ensures few { IfOk result (λ e. place + 1 ≤ 2 ^ 55) }
        ensures stands { IfOk result (λ e. (place < (sight seat.old).view.seen.limit) × rule.MayStand self.now.shape place e) }
        ensures loaded { IfOk result (λ e. IsCellLoaded (sight seat.old).loads.cell (sight seat.new).loads.cell (rule.cell_word self.now.shape place) (place + 1) × ((sight seat.new).loads.cursor ≡ (sight seat.old).loads.cursor)) }
        ensures others { ((sight seat.new).loads.limit ≡ (sight seat.old).loads.limit) × ((sight seat.new).loads.stable ≡ (sight seat.old).loads.stable) × ((sight seat.new).loads.fault ≡ (sight seat.old).loads.fault) }
        ensures saw { IfErr result (λ r. ((sight seat.new).view ≡ seeing (sight seat.old).view 0 r.cursor) × ((sight seat.old).view.seen.cursor ≤ r.cursor)) }
        ensures waits { IfErr result (λ r. (r.place ≡ place) × IsWaiting self.now.shape (sight seat.old).loads (sight seat.new).loads r) }
    {
        match self.take_out::<Brand>(seat, place) {
            (_, Some(item)) => Ok(item),
            (word, None) => {
                let cursor = self.load(seat, 0);
                Err(NotFilled {
                    place,
                    cursor,
                    word,
                })
            }
        }
    }
}
