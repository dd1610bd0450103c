//! What each step does to the words, the cells and the view of its seat.
ghost use Rattle.std.specs.Prelude.{◌≡◌, ◌≢◌, ◌<◌, ◌≤◌, ◌+◌, ◌-◌, ◌%◌, ◌∷◌, [], ◌^◌, ℕ, length, max, replicate, map, OnOk, OnErr, IfOk, IsOk, Some, None, slice_index, slice_set};
ghost use mathlib.Core.Option.{some, none};
ghost use lib.ListN.{get_elem?};
ghost use Rattle.wb_geometry.specs.History.{HistoryEntry, Void};
ghost use Rattle.wb_geometry.specs.Entering.{entered};
ghost use Rattle.wb_steps.specs.Views.{naming, filling, taking, draining};
ghost use Rattle.wb_steps.specs.Rule as rule;
ghost use Rattle.wb_steps.specs.Steps.{seeing, named_for, word_of, next_out};
ghost use Rattle.wb_steps.specs.Machines.{home_of, Acts, Fits};
ghost use Rattle.wb_steps.specs.declared.steps.Kind.TheVariants as kind;

use crate::parts::Cell;
use crate::{Kind, Shape, View, drain, owner, telling};
use std::alloc::{AllocError, Global};
use wb_geometry::Entry;

/// The number of the first word of a cell.
pub(crate) const CELLS: usize = 4;

/// The cell that a place uses.
pub(crate) fn cell_of(shape: &Shape, place: u64) -> usize
    requires { rule.IsShape shape.now }
    ensures cell { result ≡ place % rule.cells shape.now }
    ensures inside { result < rule.cells shape.now }
{
    (place % (shape.ram * shape.places)) as usize
}

/// An owner claims the place for the entry, where the cursor is still there.
fn claim(
    alloc: Global,
    words: &mut Vec<u64>,
    view: &mut View,
    expected: u64,
    entry: &Entry,
) -> Result<(), AllocError>
    requires words { 4 ≤ length words.old.items }
    requires fits { expected + 1 < 2 ^ 64 }
    ensures won { OnOk result (slice_index words.old.items 0 ≡ expected → (words.new.items ≡ slice_set words.old.items 0 (expected + 1)) × (view.new ≡ naming view.old expected (entered entry.now ∷ []) (expected + 1))) }
    ensures lost { OnOk result (slice_index words.old.items 0 ≢ expected → (words.new.items ≡ words.old.items) × (view.new ≡ seeing view.old 0 (slice_index words.old.items 0))) }
    ensures err { OnErr result ((words.new.items ≡ words.old.items) × (view.new ≡ view.old)) }
{
    let found = words[0];
    if found != expected {
        telling::see(view, 0, found);
        return Ok(());
    }
    owner::name_entry(alloc, view, expected, entry)?;
    words[0] = expected + 1;
    Ok(())
}

/// An owner raises the cursor to `to`, and names the places between for voids.
fn bump(alloc: Global, words: &mut Vec<u64>, view: &mut View, to: u64) -> Result<(), AllocError>
    requires { 4 ≤ length words.old.items }
    ensures words { OnOk result (words.new.items ≡ slice_set words.old.items 0 (max (slice_index words.old.items 0) to)) }
    ensures view { OnOk result (view.new ≡ naming view.old (slice_index words.old.items 0) (replicate (to - slice_index words.old.items 0) (Void view.old.client)) (max (slice_index words.old.items 0) to)) }
    ensures err { OnErr result ((words.new.items ≡ words.old.items) × (view.new ≡ view.old)) }
{
    let found = words[0];
    owner::name_voids(alloc, view, found, to)?;
    words[0] = found.max(to);
    Ok(())
}

/// An owner fills one of its places, which uses this cell.
fn fill(
    alloc: Global,
    words: &mut Vec<u64>,
    cells: &mut Vec<Cell>,
    view: &mut View,
    cell: usize,
    place: u64,
) -> Result<(), AllocError>
    requires words { cell + 4 < length words.old.items }
    requires cells { cell < length cells.old.items }
    requires fits { place + 1 < 2 ^ 64 }
    ensures words { OnOk result (words.new.items ≡ slice_set words.old.items (cell + 4) (place + 1)) }
    ensures cells { OnOk result (map home_of cells.new.items ≡ slice_set (map home_of cells.old.items) cell (some (named_for place view.old.mine))) }
    ensures view { OnOk result (view.new ≡ filling view.old place) }
    ensures err { OnErr result ((words.new.items ≡ words.old.items) × (map home_of cells.new.items ≡ map home_of cells.old.items) × (view.new ≡ view.old)) }
{
    owner::fill(alloc, &mut cells[cell], view, place)?;
    words[cell + CELLS] = place + 1;
    Ok(())
}

/// The drain gives back the cell of the next place.
fn give_back(
    alloc: Global,
    words: &mut Vec<u64>,
    cells: &mut Vec<Cell>,
    view: &mut View,
    cell: usize,
) -> Result<(), AllocError>
    requires words { cell + 4 < length words.old.items }
    requires cells { cell < length cells.old.items }
    requires has { (p : ℕ) × (e : HistoryEntry) × (view.old.mine ≡ (p, e) ∷ []) }
    ensures words { OnOk result (words.new.items ≡ slice_set words.old.items (cell + 4) 0) }
    ensures cells { OnOk result (map home_of cells.new.items ≡ slice_set (map home_of cells.old.items) cell (some None)) }
    ensures view { OnOk result (view.new ≡ draining view.old) }
    ensures err { OnErr result ((words.new.items ≡ words.old.items) × (map home_of cells.new.items ≡ map home_of cells.old.items) × (view.new ≡ view.old)) }
{
    drain::give_back(alloc, &mut cells[cell], view)?;
    words[cell + CELLS] = 0;
    Ok(())
}

/// The drain looks at the next place, which uses this cell, and takes its entry out where it is filled.
fn take(
    alloc: Global,
    words: &Vec<u64>,
    cells: &mut Vec<Cell>,
    view: &mut View,
    cell: usize,
) -> Result<(), AllocError>
    requires words { cell + 4 < length words.now.items }
    requires cells { cell < length cells.old.items }
    requires fits { length view.old.known + 1 < 2 ^ 64 }
    ensures cells { OnOk result (map home_of cells.new.items ≡ (next_out words.now.items (map home_of cells.old.items) cell view.old (slice_index words.now.items (cell + 4))).homes) }
    ensures view { OnOk result (view.new ≡ (next_out words.now.items (map home_of cells.old.items) cell view.old (slice_index words.now.items (cell + 4))).view) }
    ensures err { OnErr result ((map home_of cells.new.items ≡ map home_of cells.old.items) × (view.new ≡ view.old)) }
{
    if words[cell + CELLS] != view.known.len() as u64 + 1 {
        return Ok(());
    }
    drain::take_out(alloc, &mut cells[cell], view)?;
    Ok(())
}

/// The drain publishes a number.
fn publish(words: &mut Vec<u64>, view: &mut View, word: u32, number: u64) -> Result<(), AllocError>
    requires words { 4 ≤ length words.old.items }
    requires word { word < 4 }
    ensures ok { IsOk result }
    ensures words { words.new.items ≡ slice_set words.old.items word number }
    ensures view { view.new ≡ seeing view.old word number }
{
    telling::see(view, word, number);
    words[word as usize] = number;
    Ok(())
}

/// Makes a step, but for that which copies a view and that which receives one.
pub(crate) fn act(
    alloc: Global,
    shape: &Shape,
    words: &mut Vec<u64>,
    cells: &mut Vec<Cell>,
    view: &mut View,
    kind: &Kind,
) -> Result<(), AllocError>
    requires shape { rule.IsShape shape.now }
    requires words { length words.old.items ≡ rule.cells shape.now + 4 }
    requires cells { length cells.old.items ≡ rule.cells shape.now }
    requires fits { length view.old.known + 1 < 2 ^ 64 }
    requires allowed { Fits view.old kind.now }
    ensures ok { OnOk result (Acts shape.now words.old.items cells.old.items view.old kind.now words.new.items cells.new.items view.new) }
    ensures err { OnErr result ((words.new.items ≡ words.old.items) × (map home_of cells.new.items ≡ map home_of cells.old.items) × (view.new ≡ view.old)) }
{
    let next = cell_of(shape, view.known.len() as u64);
    match kind {
        Kind::Claim { expected, entry } => claim(alloc, words, view, *expected, entry),
        Kind::Bump { to } => bump(alloc, words, view, *to),
        Kind::Fill { place } => {
            let cell = cell_of(shape, *place);
            fill(alloc, words, cells, view, cell, *place)
        }
        Kind::Look { word } => {
            telling::see(view, *word, words[*word as usize]);
            Ok(())
        }
        Kind::Take => {
            take(alloc, words, cells, view, next)?;
            Ok(())
        }
        Kind::GiveBack => give_back(alloc, words, cells, view, next),
        Kind::Raise { limit } => publish(words, view, 1, *limit),
        Kind::Stable { stable } => publish(words, view, 2, *stable),
        Kind::Fault { fault } => publish(words, view, 3, *fault),
        Kind::Split | Kind::Join { copy: _ } => Ok(()),
    }
}
