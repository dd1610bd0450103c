//! The steps of an owner.
ghost use Rattle.std.specs.Prelude.{◌≡◌, ◌≢◌, ◌<◌, ◌≤◌, ◌+◌, ◌-◌, ◌++◌, ◌∷◌, [], ◌^◌, ℕ, length, map, max, replicate, slice_set, slice_index, IfOk, OnOk, OnErr, Some};
ghost use Rattle.std.specs.List.{enumerate_from};
ghost use mathlib.Core.Option.{some};
ghost use Rattle.wb_geometry.specs.History.{Void};
ghost use Rattle.wb_geometry.specs.Entering.{entered};
ghost use Rattle.wb_steps.specs.Views.{naming, filling, without, released};
ghost use Rattle.wb_steps.specs.Steps.{named_for};
ghost use Rattle.wb_steps.specs.Machines.{home_of};

use crate::parts::Cell;
use crate::{Item, View};
use sqlite_items::Items;
use std::alloc::{AllocError, Global};
use wb_geometry::Entry;

/// Names the place for the entry.
pub(crate) fn name_entry(
    alloc: Global,
    view: &mut View,
    place: u64,
    entry: &Entry,
) -> Result<(), AllocError>
    requires { place + 1 < 2 ^ 64 }
    ensures ok { OnOk result (view.new ≡ naming view.old place (entered entry.now ∷ []) (place + 1)) }
    ensures err { OnErr result (view.new ≡ view.old) }
{
    let item = Item::copy_of(alloc, entry)?;
    let mut unfilled = Items::new(alloc);
    unfilled.push(place)?;
    view.mine.push((place, item))?;
    view.unfilled = unfilled;
    view.seen.cursor = place + 1;
    Ok(())
}

/// Names `count` places from `from` on for voids of the client.
fn name_places(
    mine: &mut Items<(u64, Item)>,
    unfilled: &mut Items<u64>,
    client: u32,
    from: u64,
    count: u64,
) -> Result<(), AllocError>
    requires { from + count < 2 ^ 64 }
    ensures mine { OnOk result (mine.new ≡ mine.old ++ enumerate_from from (replicate count (Void client))) }
    ensures unfilled { OnOk result (unfilled.new ≡ unfilled.old ++ map (λ m. m.0) (enumerate_from from (replicate count (Void client)))) }
    ensures err { OnErr result ((mine.new ≡ mine.old) × (unfilled.new ≡ unfilled.old)) }
{
    if count == 0 {
        return Ok(());
    }
    unfilled.push(from)?;
    if let Err(error) = mine.push((from, Item::of(Entry::Void { client }))) {
        unfilled.pop();
        return Err(error);
    }
    match name_places(mine, unfilled, client, from + 1, count - 1) {
        Ok(()) => Ok(()),
        Err(error) => {
            unfilled.pop();
            mine.pop();
            Err(error)
        }
    }
}

/// Names the places from the cursor, which was `old`, up to `to` for voids.
pub(crate) fn name_voids(
    alloc: Global,
    view: &mut View,
    old: u64,
    to: u64,
) -> Result<(), AllocError>
    ensures ok { OnOk result (view.new ≡ naming view.old old (replicate (to - old) (Void view.old.client)) (max old to)) }
    ensures err { OnErr result (view.new ≡ view.old) }
{
    let mut unfilled = Items::new(alloc);
    let count = to.saturating_sub(old);
    name_places(&mut view.mine, &mut unfilled, view.client, old, count)?;
    view.unfilled = unfilled;
    view.seen.cursor = old.max(to);
    Ok(())
}

/// A copy of the entry that was named for the place.
fn named_item(alloc: Global, mine: &[(u64, Item)], place: u64) -> Result<Option<Item>, AllocError>
    ensures { IfOk result (λ item. item ≡ named_for place mine.now) }
{
    match mine.iter().find(|named| named.0 == place) {
        Some((_, item)) => Ok(Some(item.copied(alloc)?)),
        None => Ok(None),
    }
}

/// All places but this one.
fn places_without(alloc: Global, places: &[u64], place: u64) -> Result<Items<u64>, AllocError>
    ensures { IfOk result (λ rest. rest ≡ without place places.now) }
{
    let rest = places
        .iter()
        .copied()
        .filter(|other| *other != place)
        .collect(alloc)?;
    Ok(Items::from_vec(rest))
}

/// What is held once the cell of the place is given back.
fn still_held(place: u64, held: Option<u64>) -> Option<u64>
    ensures { result ≡ released place held }
{
    match held {
        Some(other) if other != place => Some(other),
        _ => None,
    }
}

/// Fills the place, whose cell this is.
pub(crate) fn fill(
    alloc: Global,
    cell: &mut Cell,
    view: &mut View,
    place: u64,
) -> Result<(), AllocError>
    ensures cell { OnOk result (home_of cell.new ≡ some (named_for place view.old.mine)) }
    ensures view { OnOk result (view.new ≡ filling view.old place) }
    ensures err { OnErr result ((cell.new ≡ cell.old) × (view.new ≡ view.old)) }
{
    let item = named_item(alloc, view.mine.as_slice(), place)?;
    let rest = places_without(alloc, view.unfilled.as_slice(), place)?;
    *cell = Cell::Home(item);
    view.unfilled = rest;
    view.held = still_held(place, view.held);
    Ok(())
}
