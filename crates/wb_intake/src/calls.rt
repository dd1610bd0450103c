//! The calls of the intake.
ghost use Rattle.std.specs.Prelude.{◌≡◌, ◌≢◌, ◌+◌, ◌-◌, ◌%◌, ◌<◌, ◌≤◌, ◌^◌, ℕ, [], ◌∷◌, length, All, IfOk, IfErr, None};
ghost use Rattle.wb_geometry.specs.History.{Write};
ghost use Rattle.wb_geometry.specs.Entering.{entered};
ghost use Rattle.wb_steps.specs.Faults.{parts_of, IsPartwiseAtMost};
ghost use Rattle.wb_steps.specs.Views.{IsPrefix, telling, note_of, copy, hearing, filling};
ghost use Rattle.wb_steps.specs.Rule as rule;
ghost use Rattle.wb_steps.specs.Steps.{seeing, IsRoundedUp};
ghost use Rattle.wb_intake.specs.Sights.{IsLoaded, IsCellLoaded, IsBehind, IsLegal, AreAlike};
ghost use Rattle.wb_intake.specs.Belongs.{Saw, HasNamed, HasClaimed, HasLearnt, HasDrained, IsCause, IsWaiting, IsOwed, HasBumped};
ghost use Rattle.wb_intake.specs.Passes.{name_of, pass_name, drain_name, note_name, numbers_of, client_of_pass, place_of, block_of, view_of, loads_of, drain_view, drain_loads, note_view};

use crate::answers::{Claim, Look, NoClaim, NotFilled, Parcel, Voids};
use crate::board::Intake;
use crate::pass::{Drain, Note, Pass};
use crate::table::{Hears, Shows, Tells};
use wb_geometry::{Block, Entry};
use wb_steps::Item;

impl Intake {
    /// Names the next place for a write of the pass's client. The place has to be filled. It loads the cursor and the limit,
    /// and tries one exchange.
    pub fn claim(&self, pass: &mut Pass, block: u64, payload: &Block) -> Result<Claim, NoClaim>
        requires own { pass_name pass.old ≡ name_of self.now }
        requires free { (view_of pass.old).unfilled ≡ [] }
        requires inside { block < (numbers_of self.now).blocks }
        requires dirty { payload.now.bits ≢ 0 }
        ensures own { (pass_name pass.new ≡ pass_name pass.old) × (client_of_pass pass.new ≡ client_of_pass pass.old) }
        ensures named { IfOk result (λ c. HasNamed (view_of pass.old) (view_of pass.new) (place_of c) (Write (client_of_pass pass.old) block payload.now.bits payload.now.payload)) }
        ensures claimed { IfOk result (λ c. (block_of c ≡ block) × HasClaimed (view_of pass.new) (place_of c) (Write (client_of_pass pass.old) block payload.now.bits payload.now.payload)) }
        ensures room { IfOk result (λ c. (rule.segment_at (numbers_of self.now) (place_of c) ≤ 2 ^ 48) × (place_of c < (view_of pass.new).seen.limit)
            × IsLoaded (loads_of pass.old).cursor (loads_of pass.new).cursor (place_of c) × IsLoaded (loads_of pass.old).limit (loads_of pass.new).limit (view_of pass.new).seen.limit) }
        ensures others { ((loads_of pass.new).stable ≡ (loads_of pass.old).stable) × ((loads_of pass.new).fault ≡ (loads_of pass.old).fault) × ((loads_of pass.new).cell ≡ (loads_of pass.old).cell) }
        ensures saw { IfErr result (λ r. Saw (view_of pass.old) (view_of pass.new)) }
        ensures learnt { IfErr result (λ r. HasLearnt (view_of pass.new) r) }
        ensures cause { IfErr result (λ r. IsCause (numbers_of self.now) (loads_of pass.old) (loads_of pass.new) r) }
    {
        self.claim_place(&mut pass.seat, pass.client, block, payload)
    }

    /// Fills the claimed place with the block that it was claimed for.
    pub fn fill(&self, pass: &mut Pass, claim: Claim, payload: Box<Block>)
        requires own { pass_name pass.old ≡ name_of self.now }
        requires claimed { HasClaimed (view_of pass.old) (place_of claim) (Write (client_of_pass pass.old) (block_of claim) payload.value.bits payload.value.payload) }
        ensures own { (pass_name pass.new ≡ pass_name pass.old) × (client_of_pass pass.new ≡ client_of_pass pass.old) }
        ensures loads { loads_of pass.new ≡ loads_of pass.old }
        ensures filled { view_of pass.new ≡ filling (view_of pass.old) (place_of claim) }
        ensures free { (view_of pass.new).unfilled ≡ [] }
    {
        let Claim { place, block } = claim;
        let item = Item::of(Entry::Write {
            client: pass.client,
            block,
            payload,
        });
        self.put(&mut pass.seat, place, item);
    }

    /// The next place in order, where it is filled. It is below the limit, and its entry may stand there: a write has a dirty
    /// sector and its block is inside the backing device, no segment begins with a void, and no id is above `2 ^ 48`.
    pub fn take(&self, drain: &mut Drain) -> Result<Parcel, NotFilled>
        requires own { drain_name drain.old ≡ name_of self.now }
        ensures own { drain_name drain.new ≡ drain_name drain.old }
        ensures taken { IfOk result (λ p. (p.place ≡ length (drain_view drain.old).known) × HasDrained (drain_view drain.old) (drain_view drain.new) (entered p.entry)) }
        ensures stands { IfOk result (λ p. (p.place < (drain_view drain.old).seen.limit) × rule.MayStand (numbers_of self.now) p.place (entered p.entry)) }
        ensures saw { IfErr result (λ r. (drain_view drain.new ≡ seeing (drain_view drain.old) 0 r.cursor) × ((drain_view drain.old).seen.cursor ≤ r.cursor)) }
        ensures loaded { IfOk result (λ p. IsCellLoaded (drain_loads drain.old).cell (drain_loads drain.new).cell (rule.cell_word (numbers_of self.now) p.place) (p.place + 1) × ((drain_loads drain.new).cursor ≡ (drain_loads drain.old).cursor)) }
        ensures others { ((drain_loads drain.new).limit ≡ (drain_loads drain.old).limit) × ((drain_loads drain.new).stable ≡ (drain_loads drain.old).stable) × ((drain_loads drain.new).fault ≡ (drain_loads drain.old).fault) }
        ensures waits { IfErr result (λ r. (r.place ≡ length (drain_view drain.old).known)
            × IsWaiting (numbers_of self.now) (drain_loads drain.old) (drain_loads drain.new) r) }
    {
        let place = drain.drained;
        let item = self.take_next(&mut drain.seat, place)?;
        drain.drained = place + 1;
        Ok(Parcel {
            place,
            entry: item.into_entry(),
        })
    }

    /// Publishes the limit, in places: a whole number of segments that doesn't fall, and is at most what the cells have room
    /// for behind the drained places.
    pub fn raise(&self, drain: &mut Drain, limit: u64)
        requires own { drain_name drain.old ≡ name_of self.now }
        requires whole { limit % (numbers_of self.now).places ≡ 0 }
        requires up { (drain_view drain.old).seen.limit ≤ limit }
        requires room { limit ≤ length (drain_view drain.old).known + rule.cells (numbers_of self.now) }
        ensures own { drain_name drain.new ≡ drain_name drain.old }
        ensures loads { drain_loads drain.new ≡ drain_loads drain.old }
        ensures raised { drain_view drain.new ≡ seeing (drain_view drain.old) 1 limit }
    {
        self.set_limit(&mut drain.seat, limit);
    }

    /// Publishes how many places are stable: a whole number of segments that doesn't fall, and is at most the drained length.
    pub fn publish_stable(&self, drain: &mut Drain, stable: u64)
        requires own { drain_name drain.old ≡ name_of self.now }
        requires whole { stable % (numbers_of self.now).places ≡ 0 }
        requires up { (drain_view drain.old).seen.stable ≤ stable }
        requires done { stable ≤ length (drain_view drain.old).known }
        ensures own { drain_name drain.new ≡ drain_name drain.old }
        ensures loads { drain_loads drain.new ≡ drain_loads drain.old }
        ensures published { drain_view drain.new ≡ seeing (drain_view drain.old) 2 stable }
    {
        self.set_stable(&mut drain.seat, stable);
    }

    /// Publishes the fault. No part of it is below that of the fault before.
    pub fn publish_fault(&self, drain: &mut Drain, fault: u64)
        requires own { drain_name drain.old ≡ name_of self.now }
        requires up { IsPartwiseAtMost (drain_view drain.old).seen.fault (parts_of fault) }
        ensures own { drain_name drain.new ≡ drain_name drain.old }
        ensures loads { drain_loads drain.new ≡ drain_loads drain.old }
        ensures published { drain_view drain.new ≡ seeing (drain_view drain.old) 3 fault }
    {
        self.set_fault(&mut drain.seat, fault);
    }

    /// A note of the pass: a copy of all that it has seen, with the cursors that it had seen at each of its notes up to this
    /// one. The pass has told fewer than `2 ^ 64 - 1` notes.
    pub fn tell(&self, pass: &mut Pass) -> Note
        requires own { pass_name pass.old ≡ name_of self.now }
        requires few { length (view_of pass.old).told < 2 ^ 64 - 1 }
        ensures own { (pass_name pass.new ≡ pass_name pass.old) × (client_of_pass pass.new ≡ client_of_pass pass.old) }
        ensures loads { loads_of pass.new ≡ loads_of pass.old }
        ensures told { view_of pass.new ≡ telling (view_of pass.old) }
        ensures note { (note_name result ≡ pass_name pass.old) × (note_view result ≡ note_of (view_of pass.old)) }
    {
        let number = pass.notes;
        let seat = self.cells.shared.split_seat::<Tells>(&mut pass.seat);
        pass.notes = number + 1;
        Note {
            seat,
            client: pass.client,
            number,
        }
    }

    /// A copy of all that the drain has seen, and so of the drained list.
    pub fn tell_drained(&self, drain: &mut Drain) -> Note
        requires own { drain_name drain.old ≡ name_of self.now }
        ensures own { drain_name drain.new ≡ drain_name drain.old }
        ensures loads { drain_loads drain.new ≡ drain_loads drain.old }
        ensures same { drain_view drain.new ≡ drain_view drain.old }
        ensures note { (note_name result ≡ drain_name drain.old) × (note_view result ≡ copy (drain_view drain.old) []) }
    {
        let seat = self.cells.shared.split_seat::<Shows>(&mut drain.seat);
        Note {
            seat,
            client: drain.clients,
            number: 0,
        }
    }

    /// The pass has then seen what it and the note had seen. What it knows only grows.
    pub fn hear(&self, pass: &mut Pass, note: Note)
        requires own { (pass_name pass.old ≡ name_of self.now) × (note_name note ≡ name_of self.now) }
        ensures own { (pass_name pass.new ≡ pass_name pass.old) × (client_of_pass pass.new ≡ client_of_pass pass.old) }
        ensures loads { loads_of pass.new ≡ loads_of pass.old }
        ensures heard { view_of pass.new ≡ hearing (view_of pass.old) (note_view note) }
        ensures more { IsPrefix (view_of pass.old).known (view_of pass.new).known }
    {
        let Note {
            seat,
            client: _,
            number: _,
        } = note;
        self.cells.shared.join_seat::<Hears>(&mut pass.seat, seat);
    }

    /// The drain receives a copy of all that the pass has seen, and looks at the cursor. The pass tells no note by it. So it
    /// shows that the drain has all that the pass knows, and that no number that the pass has seen is above the drain's.
    pub fn meet(&self, pass: &mut Pass, drain: &mut Drain)
        requires own { (pass_name pass.old ≡ name_of self.now) × (drain_name drain.old ≡ name_of self.now) }
        ensures own { (pass_name pass.new ≡ pass_name pass.old) × (client_of_pass pass.new ≡ client_of_pass pass.old) × (drain_name drain.new ≡ drain_name drain.old) }
        ensures same { (view_of pass.new ≡ view_of pass.old) × (loads_of pass.new ≡ loads_of pass.old) }
        ensures others { ((drain_loads drain.new).limit ≡ (drain_loads drain.old).limit) × ((drain_loads drain.new).stable ≡ (drain_loads drain.old).stable) × ((drain_loads drain.new).fault ≡ (drain_loads drain.old).fault) × ((drain_loads drain.new).cell ≡ (drain_loads drain.old).cell) }
        ensures looks { (cursor : ℕ) × IsLoaded (drain_loads drain.old).cursor (drain_loads drain.new).cursor cursor × (drain_view drain.new ≡ seeing (drain_view drain.old) 0 cursor) × ((view_of pass.old).seen.cursor ≤ cursor) × ((drain_view drain.old).seen.cursor ≤ cursor) }
        ensures behind { IsBehind (drain_view drain.new) (view_of pass.new) }
    {
        self.meet_seats(&mut pass.seat, &mut drain.seat);
    }

    /// Looks at the cursor, the limit, the stable number and the fault, by one load each. It also shows that what the pass
    /// names is what its client has in what the pass knows, and places behind that, all below the cursor that it had seen;
    /// that it knows no place at or above the cursor; and that of two notes of one client that the pass heard the later has
    /// all that was told up to the other.
    pub fn look(&self, pass: &mut Pass) -> Look
        requires own { pass_name pass.old ≡ name_of self.now }
        ensures own { (pass_name pass.new ≡ pass_name pass.old) × (client_of_pass pass.new ≡ client_of_pass pass.old) }
        ensures saw { Saw (view_of pass.old) (view_of pass.new) }
        ensures others { (loads_of pass.new).cell ≡ (loads_of pass.old).cell }
        ensures legal { IsLegal (view_of pass.new) }
        ensures below { All (λ m. m.0 < (view_of pass.old).seen.cursor) (view_of pass.new).mine }
        ensures few { length (view_of pass.new).known ≤ (view_of pass.new).seen.cursor }
        ensures alike { AreAlike (view_of pass.new).heard }
        ensures cursor { IsLoaded (loads_of pass.old).cursor (loads_of pass.new).cursor result.cursor × ((view_of pass.new).seen.cursor ≡ result.cursor) }
        ensures limit { IsLoaded (loads_of pass.old).limit (loads_of pass.new).limit result.limit × ((view_of pass.new).seen.limit ≡ result.limit) }
        ensures stable { IsLoaded (loads_of pass.old).stable (loads_of pass.new).stable result.stable × ((view_of pass.new).seen.stable ≡ result.stable) }
        ensures fault { IsLoaded (loads_of pass.old).fault (loads_of pass.new).fault result.fault × ((view_of pass.new).seen.fault ≡ parts_of result.fault) }
    {
        self.look_around(&mut pass.seat)
    }

    /// Raises the cursor to the end of the segment in which it is loaded, and names the places between for voids.
    pub fn bump(&self, pass: &mut Pass) -> Voids
        requires own { pass_name pass.old ≡ name_of self.now }
        requires free { (view_of pass.old).unfilled ≡ [] }
        ensures own { (pass_name pass.new ≡ pass_name pass.old) × (client_of_pass pass.new ≡ client_of_pass pass.old) }
        ensures through { (cursor : ℕ) × IsLoaded (loads_of pass.old).cursor (loads_of pass.new).cursor cursor × IsRoundedUp (numbers_of self.now).places cursor result.through × (cursor ≤ result.next) × ((view_of pass.old).seen.cursor ≤ cursor) }
        ensures others { ((loads_of pass.new).limit ≡ (loads_of pass.old).limit) × ((loads_of pass.new).stable ≡ (loads_of pass.old).stable) × ((loads_of pass.new).fault ≡ (loads_of pass.old).fault) × ((loads_of pass.new).cell ≡ (loads_of pass.old).cell) }
        ensures bumped { HasBumped (view_of pass.old) (view_of pass.new) result.next result.through }
        ensures owed { IsOwed (view_of pass.new) (client_of_pass pass.old) result.next result.left }
        ensures left { result.left ≡ result.through - result.next }
    {
        let (through, next) = self.bump_cursor(&mut pass.seat);
        Voids {
            through,
            next,
            left: through.saturating_sub(next),
        }
    }

    /// Fills the next of the places that the bump named. At least one is left.
    pub fn fill_void(&self, pass: &mut Pass, voids: &mut Voids)
        requires own { pass_name pass.old ≡ name_of self.now }
        requires owed { IsOwed (view_of pass.old) (client_of_pass pass.old) voids.old.next voids.old.left }
        requires some { 1 ≤ voids.old.left }
        ensures own { (pass_name pass.new ≡ pass_name pass.old) × (client_of_pass pass.new ≡ client_of_pass pass.old) }
        ensures loads { loads_of pass.new ≡ loads_of pass.old }
        ensures filled { view_of pass.new ≡ filling (view_of pass.old) voids.old.next }
        ensures owed { IsOwed (view_of pass.new) (client_of_pass pass.old) voids.new.next voids.new.left }
        ensures left { (voids.new.next ≡ voids.old.next + 1) × (voids.new.left + 1 ≡ voids.old.left) × (voids.new.through ≡ voids.old.through) }
    {
        let item = Item::of(Entry::Void {
            client: pass.client,
        });
        self.put(&mut pass.seat, voids.next, item);
        voids.next += 1;
        voids.left -= 1;
    }

    /// All of the places that the bump named are filled.
    pub fn finish(voids: Voids)
        requires { voids.left ≡ 0 }
    {
        let Voids {
            through: _,
            next: _,
            left: _,
        } = voids;
    }
}
