//! The last notes of a session: each pass hears one of every lower client's.
ghost use Rattle.std.specs.Prelude.{◌≡◌, ◌+◌, ◌*◌, ◌-◌, ◌<◌, ◌≤◌, ◌^◌, ℕ, length, slice_index_or};
ghost use Rattle.wb_intake.specs.Passes.{view_of};
ghost use Rattle.wb_intake.specs.declared.pass.Pass.{Pass};
ghost use Rattle.wb_threads.specs.Threads.{IsOwnOf, HasToldFew, HasHeardLast};

use wb_device::Device;
use wb_front::{Front, Gate};
use wb_intake::{Named, Pass};

/// Each pass hears a note of each that stands before it. There are 32 at most, and they have told few notes.
pub(crate) fn tell_last<L: Device, B: Device, G: Gate, T: Named>(
    front: &Front<'_, L, B, G, T>,
    passes: &mut [Pass],
)
    requires own { (i : ℕ) (d : Pass) → i < length passes.old → IsOwnOf T.carried i (slice_index_or passes.old i d) }
    requires count { length passes.old ≤ 32 }
    requires few { (i : ℕ) (d : Pass) → i < length passes.old → length (view_of (slice_index_or passes.old i d)).told < 2 ^ 63 }
    ensures count { length passes.new ≡ length passes.old }
    ensures heard { (i : ℕ) (d : Pass) → i < length passes.old → HasHeardLast T.carried passes.old i (slice_index_or passes.old i d) (slice_index_or passes.new i d) }
{
    for hearer in 0..passes.len() {
        hear_lower(front, passes, hearer);
    }
}

/// The pass at this index hears a note of each that stands before it. The others tell one at most.
fn hear_lower<L: Device, B: Device, G: Gate, T: Named>(
    front: &Front<'_, L, B, G, T>,
    passes: &mut [Pass],
    hearer: usize,
)
    requires own { (i : ℕ) (d : Pass) → i < length passes.old → IsOwnOf T.carried i (slice_index_or passes.old i d) }
    requires hearer { hearer < length passes.old }
    requires few { (i : ℕ) (d : Pass) → i < length passes.old → length (view_of (slice_index_or passes.old i d)).told + hearer < 2 ^ 64 - 1 }
    ensures count { length passes.new ≡ length passes.old }
    ensures heard { (d : Pass) → HasHeardLast T.carried passes.old hearer (slice_index_or passes.old hearer d) (slice_index_or passes.new hearer d) }
    ensures kept { (i : ℕ) (d : Pass) → i < length passes.old → HasHeardLast T.carried passes.old 0 (slice_index_or passes.old i d) (slice_index_or passes.new i d) }
    ensures few { (i : ℕ) (d : Pass) → i < length passes.old → HasToldFew hearer (slice_index_or passes.old i d) (slice_index_or passes.new i d) }
{
    for teller in 0..hearer {
        let note = front.tell(&mut passes[teller]);
        front.hear(&mut passes[hearer], note);
    }
}
