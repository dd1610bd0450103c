//! What stands behind a lock, by name.

use std::marker::Brand;

/// Nothing is known of a value behind a lock but its type. So a type that stands there has a parameter of this trait, which
/// carries, for contracts alone, of which intake it is, with its geometry, the id below that of its first segment and the
/// number of clients; which image the session began with; and of each device how many faults it had at the opening, and
/// whether it told its content then. The outermost call picks these by `Brand`.
pub trait Named {
    ghost use Rattle.wb_intake.specs.Carried.{Carried};

    ghost carried: { Carried };
}

impl Named for Brand {
    ghost use Rattle.std.specs.Prelude.{[], refl, ◌^◌, ◌-◌, false};
    ghost use Rattle.std.proofs.Math.Nat.{le-add_right};

    ghost carried = { record {
      intake = record { words = 0; slots = 0; views_name = 0; atom = 0; block = 0; offset = 0; slot_names = [] };
      geometry = record { order = 4; slots = 2; ram = 2; backing_sectors = 8; order_fits = (le-add_right 4 0, le-add_right 4 6); slots_fit = (le-add_right 2 0, le-add_right 2 16382); ram_fits = (le-add_right 2 0, le-add_right 2 62); backing_fits = (le-add_right 8 0, le-add_right 8 (2 ^ 40 - 8), refl) };
      first = 0;
      clients = 0;
      base = [];
      log_faults = 0;
      backing_faults = 0;
      log_told = false;
      backing_told = false;
    } };
}
