//! The steps of a seat, one atomic step each but for those that move an entry.
ghost use Rattle.std.specs.Prelude.{◌≡◌, ◌≢◌, ◌+◌, ◌-◌, ◌*◌, ◌%◌, ◌<◌, ◌≤◌, ◌^◌, ℕ, List, [], ◌∷◌, length, max, replicate, Some, None, IfSome, IfNone};
ghost use mathlib.Core.Option.{some};
ghost use lib.ListN.{get_elem?};
ghost use Rattle.wb_geometry.specs.History.{HistoryEntry, Void, client_of};
ghost use Rattle.wb_steps.specs.Faults.{parts_of, IsPartwiseAtMost};
ghost use Rattle.wb_steps.specs.Views.{naming, filling, taking, draining};
ghost use Rattle.wb_steps.specs.Rule as rule;
ghost use Rattle.wb_steps.specs.Steps.{seeing};
ghost use Rattle.wb_steps.specs.declared.view.Role.TheVariants.{Owner, Drain, Spent};
ghost use Rattle.wb_intake.specs.Plays.{with_view, with_cell_load};
ghost use Rattle.wb_intake.specs.Belongs.{sight, IsSameSeat};

use crate::board::{CELLS, Intake};
use crate::table::{
    Bumps, Claims, Enters, Fills, GivesBack, Naming, Place, Publishes, Shaped, TakesOut,
};
use wb_geometry::Block;
use wb_steps::Item;

impl Intake {
    /// The cell of a place.
    pub(crate) fn cell_of(&self, place: u64) -> usize
        ensures cell { result ≡ place % rule.cells self.now.shape }
        ensures inside { result < rule.cells self.now.shape }
    {
        (place % (self.shape.ram * self.shape.places)) as usize
    }

    /// Names the place for the entry that E has, where the cursor stands there; answers the cursor that was found.
    pub(crate) fn name<E: Naming>(
        &self,
        seat: &mut Place,
        place: u64,
        _client: u32,
        _block: u64,
        _payload: &Block,
    ) -> u64
        requires own { seat.old.table_id ≡ self.now.cells.shared.table_id }
        requires owner { ((sight seat.old).view.role ≡ Owner) × ((sight seat.old).view.unfilled ≡ []) }
        requires item { client_of E.item ≡ (sight seat.old).view.client }
        requires room { place < (sight seat.old).view.seen.limit }
        requires stands { rule.MayStand self.now.shape place E.item }
        requires fits { place + 1 < 2 ^ 64 }
        ensures seat { IsSameSeat seat.old seat.new }
        ensures won { result ≡ place → sight seat.new ≡ with_view (sight seat.old) (naming (sight seat.old).view place (E.item ∷ []) (place + 1)) }
        ensures lost { result ≢ place → ((sight seat.old).view.seen.cursor ≤ result) × (sight seat.new ≡ with_view (sight seat.old) (seeing (sight seat.old).view 0 result)) }
    {
        self.cells
            .shared
            .compare_exchange::<Claims<E>>(seat, 0, place, place + 1)
    }

    /// Raises the cursor to `to`, the end of the segment that it was seen in, and names the places from the cursor that was
    /// found, which is answered.
    pub(crate) fn raise_cursor(&self, seat: &mut Place, to: u64) -> u64
        requires own { seat.old.table_id ≡ self.now.cells.shared.table_id }
        requires owner { ((sight seat.old).view.role ≡ Owner) × ((sight seat.old).view.unfilled ≡ []) }
        requires whole { to % self.now.shape.places ≡ 0 }
        requires near { to < (sight seat.old).view.seen.cursor + self.now.shape.places }
        ensures seat { IsSameSeat seat.old seat.new }
        ensures up { (sight seat.old).view.seen.cursor ≤ result }
        ensures named { sight seat.new ≡ with_view (sight seat.old) (naming (sight seat.old).view result (replicate (to - result) (Void (sight seat.old).view.client)) (max result to)) }
    {
        self.cells.shared.fetch_max::<Bumps>(seat, 0, to)
    }

    /// Fills the first place that the owner has not filled, with the entry that it named for it.
    pub(crate) fn put(&self, seat: &mut Place, place: u64, item: Item)
        requires own { seat.old.table_id ≡ self.now.cells.shared.table_id }
        requires owner { ((sight seat.old).view.role ≡ Owner) × ((sight seat.old).view.held ≡ None) × (seat.old.me.1 ≡ []) }
        requires first { (more : List ℕ) × ((sight seat.old).view.unfilled ≡ place ∷ more) }
        requires named { (j : ℕ) × (get_elem? (sight seat.old).view.mine j ≡ some (place, item)) }
        requires fits { place + 1 < 2 ^ 64 }
        ensures seat { IsSameSeat seat.old seat.new }
        ensures filled { sight seat.new ≡ with_view (sight seat.old) (filling (sight seat.old).view place) }
    {
        let cell = self.cell_of(place);
        self.cells.shared.load::<Enters>(seat, CELLS + cell);
        let empty = self.cells.shared.exchange(seat, cell, Some(item));
        drop(empty);
        self.cells
            .shared
            .swap::<Fills>(seat, CELLS + cell, place + 1);
    }

    /// Publishes the limit.
    pub(crate) fn set_limit(&self, seat: &mut Place, limit: u64)
        requires own { seat.old.table_id ≡ self.now.cells.shared.table_id }
        requires drain { (sight seat.old).view.role ≡ Drain }
        requires whole { limit % self.now.shape.places ≡ 0 }
        requires up { (sight seat.old).view.seen.limit ≤ limit }
        requires room { limit ≤ length (sight seat.old).view.known + rule.cells self.now.shape }
        ensures seat { IsSameSeat seat.old seat.new }
        ensures told { sight seat.new ≡ with_view (sight seat.old) (seeing (sight seat.old).view 1 limit) }
    {
        self.cells.shared.swap::<Publishes>(seat, 1, limit);
    }

    /// Publishes how many places are stable.
    pub(crate) fn set_stable(&self, seat: &mut Place, stable: u64)
        requires own { seat.old.table_id ≡ self.now.cells.shared.table_id }
        requires drain { (sight seat.old).view.role ≡ Drain }
        requires whole { stable % self.now.shape.places ≡ 0 }
        requires up { (sight seat.old).view.seen.stable ≤ stable }
        requires done { stable ≤ length (sight seat.old).view.known }
        ensures seat { IsSameSeat seat.old seat.new }
        ensures told { sight seat.new ≡ with_view (sight seat.old) (seeing (sight seat.old).view 2 stable) }
    {
        self.cells.shared.swap::<Publishes>(seat, 2, stable);
    }

    /// Publishes the fault.
    pub(crate) fn set_fault(&self, seat: &mut Place, fault: u64)
        requires own { seat.old.table_id ≡ self.now.cells.shared.table_id }
        requires drain { (sight seat.old).view.role ≡ Drain }
        requires up { IsPartwiseAtMost (sight seat.old).view.seen.fault (parts_of fault) }
        ensures seat { IsSameSeat seat.old seat.new }
        ensures told { sight seat.new ≡ with_view (sight seat.old) (seeing (sight seat.old).view 3 fault) }
    {
        self.cells.shared.swap::<Publishes>(seat, 3, fault);
    }

    /// The word of the next place, and its entry where the place is filled. The entry joins the drained list.
    pub(crate) fn take_out<S: Shaped>(&self, seat: &mut Place, place: u64) -> (u64, Option<Item>)
        requires shape { S.shape ≡ self.now.shape }
        requires own { seat.old.table_id ≡ self.now.cells.shared.table_id }
        requires drain { ((sight seat.old).view.role ≡ Drain) × ((sight seat.old).view.held ≡ None) × (seat.old.me.1 ≡ []) }
        requires place { place ≡ length (sight seat.old).view.known }
        requires few { place ≤ 2 ^ 55 }
        ensures seat { IsSameSeat seat.old seat.new }
        ensures few { IfSome result.1 (λ e. place + 1 ≤ 2 ^ 55) }
        ensures stands { IfSome result.1 (λ e. (place < (sight seat.old).view.seen.limit) × rule.MayStand self.now.shape place e) }
        ensures taken { IfSome result.1 (λ e. sight seat.new ≡ with_cell_load (sight seat.old) (draining (taking (sight seat.old).view e)) (rule.cell_word self.now.shape place) (place + 1)) }
        ensures waits { IfNone result.1 ((result.0 ≢ place + 1) × (sight seat.new ≡ with_cell_load (sight seat.old) (sight seat.old).view (rule.cell_word self.now.shape place) result.0)) }
    {
        let cell = self.cell_of(place);
        let found = self.cells.shared.load::<TakesOut<S>>(seat, CELLS + cell);
        if found != place + 1 {
            return (found, None);
        }
        let item = self.cells.shared.exchange(seat, cell, None);
        self.cells.shared.swap::<GivesBack>(seat, CELLS + cell, 0);
        (found, item)
    }
}
