//! Claims.
ghost use Rattle.std.specs.Prelude.{◌≡◌, ◌≢◌, ◌+◌, ◌<◌, ◌≤◌, ◌^◌, [], ◌∷◌, IfOk, IfErr, None};
ghost use Rattle.wb_geometry.specs.History.{Write};
ghost use Rattle.wb_steps.specs.Rule as rule;
ghost use Rattle.wb_steps.specs.declared.view.Role.TheVariants.{Owner};
ghost use Rattle.wb_intake.specs.Sights.{IsLoaded};
ghost use Rattle.wb_intake.specs.Belongs.{sight, IsSameSeat, Saw, HasNamed, HasLearnt, IsCause};

use crate::answers::{Claim, NoClaim};
use crate::board::Intake;
use crate::table::Place;
use std::marker::Brand;
use wb_geometry::Block;

/// The greatest id of a segment.
const LAST_ID: u64 = 1 << 48;

impl Intake {
    /// Names the next place for a write of the owner's client.
    #[tactic(auto, using(wb_steps::proofs::Fitting::parts_same))]
    pub(crate) fn claim_place(
        &self,
        seat: &mut Place,
        client: u32,
        block: u64,
        payload: &Block,
    ) -> Result<Claim, NoClaim>
        requires own { seat.old.table_id ≡ self.now.cells.shared.table_id }
        requires owner { ((sight seat.old).view.role ≡ Owner) × ((sight seat.old).view.unfilled ≡ []) × ((sight seat.old).view.client ≡ client) }
        requires inside { block < self.now.shape.blocks }
        requires dirty { payload.now.bits ≢ 0 }
        ensures seat { IsSameSeat seat.old seat.new }
        ensures named { IfOk result (λ c. HasNamed (sight seat.old).view (sight seat.new).view c.place (Write client block payload.now.bits payload.now.payload)) }
        ensures block { IfOk result (λ c. c.block ≡ block) }
        ensures room { IfOk result (λ c. (rule.segment_at self.now.shape c.place ≤ 2 ^ 48) × (c.place < (sight seat.new).view.seen.limit)
            × IsLoaded (sight seat.old).loads.cursor (sight seat.new).loads.cursor c.place × IsLoaded (sight seat.old).loads.limit (sight seat.new).loads.limit (sight seat.new).view.seen.limit) }
        ensures others { ((sight seat.new).loads.stable ≡ (sight seat.old).loads.stable) × ((sight seat.new).loads.fault ≡ (sight seat.old).loads.fault) × ((sight seat.new).loads.cell ≡ (sight seat.old).loads.cell) }
        ensures saw { IfErr result (λ r. Saw (sight seat.old).view (sight seat.new).view) }
        ensures learnt { IfErr result (λ r. HasLearnt (sight seat.new).view r) }
        ensures cause { IfErr result (λ r. IsCause self.now.shape (sight seat.old).loads (sight seat.new).loads r) }
    {
        let cursor = self.load(seat, 0);
        let limit = self.load(seat, 1);
        if cursor / self.shape.places >= LAST_ID - self.shape.first {
            return Err(NoClaim::IdsSpent { cursor });
        }
        if cursor == limit {
            return Err(NoClaim::NoRoom { cursor, limit });
        }
        let found = self.name::<Brand>(seat, cursor, client, block, payload);
        if found != cursor {
            return Err(NoClaim::Busy {
                expected: cursor,
                found,
            });
        }
        Ok(Claim {
            place: cursor,
            block,
        })
    }
}
