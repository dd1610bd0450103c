//! Copies of what a seat has seen, and who receives them.
ghost use Rattle.std.specs.Prelude.{◌≡◌, ◌≢◌, ◌⊎◌, ◌<◌, ◌≤◌, ◌+◌, ◌++◌, ◌∷◌, [], ◌^◌, ℕ, length, map, max, OnOk, OnErr, IfOk, Some, None};
ghost use Rattle.wb_steps.specs.Faults.{greater_parts, parts_of};
ghost use Rattle.wb_steps.specs.Views.{copy, telling, note_of, hearing, spent, greater_seen, longer, heard_by, unseen};
ghost use Rattle.wb_steps.specs.Steps.{seeing};
ghost use Rattle.wb_steps.specs.declared.view.Role.TheVariants.{Owner, Drain};

use crate::{Faults, Item, Role, Seen, View};
use sqlite_items::Items;
use std::alloc::{AllocError, Global};

/// The view learns the number of the cursor, the limit, the stable number or the fault.
pub(crate) fn see(view: &mut View, word: u32, found: u64)
    requires { word < 4 }
    ensures { view.new ≡ seeing view.old word found }
{
    match word {
        0 => view.seen.cursor = found,
        1 => view.seen.limit = found,
        2 => view.seen.stable = found,
        _ => view.seen.fault = Faults::of(found),
    }
}

/// Adds copies of these items to the list.
fn push_items(alloc: Global, into: &mut Items<Item>, items: &[Item]) -> Result<(), AllocError>
    ensures { OnOk result (into.new ≡ into.old ++ items.now) }
{
    for item in items {
        into.push(item.copied(alloc)?)?;
    }
    Ok(())
}

/// Copies of these items.
fn copied_items(alloc: Global, items: &[Item]) -> Result<Items<Item>, AllocError>
    ensures { IfOk result (λ copies. copies ≡ items.now) }
{
    let mut copies = Items::new(alloc);
    push_items(alloc, &mut copies, items)?;
    Ok(copies)
}

/// Adds copies of these notes to the list.
fn push_notes(
    alloc: Global,
    into: &mut Items<(u32, Items<u64>)>,
    notes: &[(u32, Items<u64>)],
) -> Result<(), AllocError>
    ensures { OnOk result (into.new ≡ into.old ++ notes.now) }
{
    for (client, list) in notes {
        let list = Items::from_slice(alloc, list.as_slice())?;
        into.push((*client, list))?;
    }
    Ok(())
}

/// What the view has told, with one note more.
fn told_more(alloc: Global, view: &View) -> Result<Items<u64>, AllocError>
    ensures { IfOk result (λ told. told ≡ view.now.told ++ view.now.seen.cursor ∷ []) }
{
    let mut told = Items::from_slice(alloc, view.told.as_slice())?;
    told.push(view.seen.cursor)?;
    Ok(told)
}

/// A copy of what was seen, with these notes.
fn copied_view(
    alloc: Global,
    view: &View,
    notes: Items<(u32, Items<u64>)>,
) -> Result<View, AllocError>
    ensures { IfOk result (λ w. w ≡ copy view.now notes) }
{
    Ok(View {
        role: Role::Copy,
        client: view.client,
        known: copied_items(alloc, view.known.as_slice())?,
        mine: Items::new(alloc),
        unfilled: Items::new(alloc),
        held: None,
        seen: view.seen,
        told: Items::new(alloc),
        heard: notes,
    })
}

/// A copy of what was seen, without a note.
pub(crate) fn shown(alloc: Global, view: &View) -> Result<View, AllocError>
    ensures { IfOk result (λ w. w ≡ copy view.now []) }
{
    copied_view(alloc, view, Items::new(alloc))
}

/// The note of an owner, and what it has then told.
pub(crate) fn told(alloc: Global, view: &View) -> Result<(View, Items<u64>), AllocError>
    ensures note { IfOk result (λ r. r.0 ≡ note_of view.now) }
    ensures told { IfOk result (λ r. r.1 ≡ view.now.told ++ view.now.seen.cursor ∷ []) }
{
    let list = told_more(alloc, view)?;
    let mut notes = Items::new(alloc);
    notes.push((view.client, list))?;
    let note = copied_view(alloc, view, notes)?;
    Ok((note, told_more(alloc, view)?))
}

/// A view that gave what it knew to another.
pub(crate) fn spent_view(alloc: Global) -> View
    ensures { result ≡ spent }
{
    View {
        role: Role::Spent,
        client: 0,
        known: Items::new(alloc),
        mine: Items::new(alloc),
        unfilled: Items::new(alloc),
        held: None,
        seen: Seen {
            cursor: 0,
            limit: 0,
            stable: 0,
            fault: Faults::of(0),
        },
        told: Items::new(alloc),
        heard: Items::new(alloc),
    }
}

/// The greater of both.
pub(crate) fn greater(a: &Seen, b: &Seen) -> Seen
    ensures { result ≡ greater_seen a.now b.now }
{
    Seen {
        cursor: a.cursor.max(b.cursor),
        limit: a.limit.max(b.limit),
        stable: a.stable.max(b.stable),
        fault: a.fault.greater(&b.fault),
    }
}

/// The notes that the receiver then has heard.
fn heard_both(
    alloc: Global,
    view: &View,
    copy: &View,
) -> Result<Items<(u32, Items<u64>)>, AllocError>
    ensures { IfOk result (λ heard. heard ≡ heard_by view.now.role view.now.heard copy.now.heard) }
{
    let mut heard = Items::new(alloc);
    push_notes(alloc, &mut heard, view.heard.as_slice())?;
    if matches!(view.role, Role::Owner) {
        push_notes(alloc, &mut heard, copy.heard.as_slice())?;
    }
    Ok(heard)
}

/// The longer of two lists of which one is the beginning of the other.
fn longer_of(alloc: Global, items: &[Item], more: &[Item]) -> Result<Items<Item>, AllocError>
    ensures { IfOk result (λ known. known ≡ longer items.now more.now) }
{
    let mut known = copied_items(alloc, items)?;
    if items.len() < more.len() {
        push_items(alloc, &mut known, &more[items.len()..])?;
    }
    Ok(known)
}

/// The list that the receiver of a copy then knows, and the notes that it has then heard.
pub(crate) fn heard(
    alloc: Global,
    view: &View,
    copy: &View,
) -> Result<(Items<Item>, Items<(u32, Items<u64>)>), AllocError>
    ensures known { IfOk result (λ r. r.0 ≡ longer view.now.known copy.now.known) }
    ensures heard { IfOk result (λ r. r.1 ≡ heard_by view.now.role view.now.heard copy.now.heard) }
{
    let known = longer_of(alloc, view.known.as_slice(), copy.known.as_slice())?;
    let heard = heard_both(alloc, view, copy)?;
    Ok((known, heard))
}
