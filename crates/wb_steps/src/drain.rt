//! The steps of the drain.
ghost use Rattle.std.specs.Prelude.{◌≡◌, ◌≢◌, ◌<◌, ◌≤◌, ◌+◌, ◌++◌, ◌∷◌, [], ◌^◌, ℕ, length, map, max, OnOk, OnErr, IfOk, Some, None};
ghost use mathlib.Core.Option.{some, none};
ghost use Rattle.wb_geometry.specs.History.{HistoryEntry};
ghost use Rattle.wb_steps.specs.Views.{taking, draining};
ghost use Rattle.wb_steps.specs.Machines.{home_of};

use crate::parts::Cell;
use crate::{Item, View};
use sqlite_items::Items;
use std::alloc::{AllocError, Global};

/// Takes the entry of the next place out of its cell, where it is there.
pub(crate) fn take_out(alloc: Global, cell: &mut Cell, view: &mut View) -> Result<(), AllocError>
    requires { length view.old.known + 1 < 2 ^ 64 }
    ensures there { OnOk result ((e : HistoryEntry) → home_of cell.old ≡ some (Some e) → (home_of cell.new ≡ none) × (view.new ≡ taking view.old e)) }
    ensures empty { OnOk result (home_of cell.old ≡ some None → (cell.new ≡ cell.old) × (view.new ≡ view.old)) }
    ensures out { OnOk result (home_of cell.old ≡ none → (cell.new ≡ cell.old) × (view.new ≡ view.old)) }
    ensures err { OnErr result ((cell.new ≡ cell.old) × (view.new ≡ view.old)) }
{
    let item = match cell {
        Cell::Home(Some(item)) => item.copied(alloc)?,
        _ => return Ok(()),
    };
    let place = view.known.len() as u64;
    let mut mine = Items::new(alloc);
    mine.push((place, item))?;
    view.mine = mine;
    view.held = Some(place);
    view.seen.cursor = view.seen.cursor.max(place + 1);
    *cell = Cell::Out;
    Ok(())
}

/// The entry that was taken out joins the drained list.
pub(crate) fn give_back(alloc: Global, cell: &mut Cell, view: &mut View) -> Result<(), AllocError>
    ensures view { OnOk result ((p : ℕ) (e : HistoryEntry) → view.old.mine ≡ (p, e) ∷ [] → view.new ≡ draining view.old) }
    ensures cell { OnOk result ((p : ℕ) (e : HistoryEntry) → view.old.mine ≡ (p, e) ∷ [] → home_of cell.new ≡ some None) }
    ensures err { OnErr result ((cell.new ≡ cell.old) × (view.new ≡ view.old)) }
{
    let Some((_, item)) = view.mine.get(0) else {
        return Ok(());
    };
    let item = item.copied(alloc)?;
    view.known.push(item)?;
    view.mine = Items::new(alloc);
    view.held = None;
    *cell = Cell::Home(None);
    Ok(())
}
