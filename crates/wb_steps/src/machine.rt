//! The machine.
ghost use Rattle.std.specs.Prelude.{◌≡◌, ◌≢◌, ◌⊎◌, ◌<◌, ◌≤◌, ◌+◌, ◌++◌, ◌∷◌, [], ◌^◌, ℕ, List, length, slice_index, slice_set, OnOk, OnErr, IfOk, map, replicate, None};
ghost use mathlib.Core.Option.{some};
ghost use lib.ListN.{get_elem?};
ghost use Rattle.wb_steps.specs.Views.{telling, note_of, copy, hearing, spent, beginning};
ghost use Rattle.wb_steps.specs.Rule as rule;
ghost use Rattle.wb_steps.specs.Steps.{Allows, word_of, stepped, split, join, Answers, Leads, owners, start};
ghost use Rattle.wb_steps.specs.Machines.{state_of, home_of, Fits};
ghost use Rattle.wb_steps.specs.declared.view.View as seats;
ghost use Rattle.wb_steps.specs.declared.shape.Shape as numbers;
ghost use Rattle.wb_steps.specs.declared.steps.Step as kinds;
ghost use Rattle.wb_steps.specs.declared.view.Role.TheVariants.{Copy, Drain};

use crate::parts::{Cell, Parts};
use crate::{Item, Kind, Reply, Role, Shape, Step, View, acts, allowed, telling};
use std::alloc::{AllocError, Global};
use std::marker::Model;
use wb_geometry::Geometry;

/// An owner tells a note, which is the last seat then.
fn tell_note(alloc: Global, views: &mut Vec<View>, seat: usize) -> Result<(), AllocError>
    requires { seat < length views.old.items }
    ensures ok { OnOk result ((v : seats.View) → get_elem? views.old.items seat ≡ some v → views.new.items ≡ slice_set views.old.items seat (telling v) ++ note_of v ∷ []) }
    ensures err { OnErr result (views.new.items ≡ views.old.items) }
{
    let (note, told) = telling::told(alloc, &views[seat])?;
    views.push(note)?;
    views[seat].told = told;
    Ok(())
}

/// A seat makes a copy of what it has seen, which is the last seat then.
fn show_copy(alloc: Global, views: &mut Vec<View>, seat: usize) -> Result<(), AllocError>
    requires { seat < length views.old.items }
    ensures ok { OnOk result ((v : seats.View) → get_elem? views.old.items seat ≡ some v → views.new.items ≡ views.old.items ++ copy v [] ∷ []) }
    ensures err { OnErr result (views.new.items ≡ views.old.items) }
{
    let copy = telling::shown(alloc, &views[seat])?;
    views.push(copy)?;
    Ok(())
}

/// A seat makes a copy of what it has seen, which an owner tells as a note.
fn split_view(alloc: Global, views: &mut Vec<View>, seat: usize) -> Result<(), AllocError>
    requires { seat < length views.old.items }
    ensures ok { OnOk result ((v : seats.View) → get_elem? views.old.items seat ≡ some v → views.new.items ≡ split views.old.items seat v v.role) }
    ensures err { OnErr result (views.new.items ≡ views.old.items) }
{
    if allowed::is_owner(&views[seat]) {
        tell_note(alloc, views, seat)?;
        return Ok(());
    }
    show_copy(alloc, views, seat)?;
    Ok(())
}

/// A seat receives what the copy of this number has seen, which is spent then.
fn join_views(
    alloc: Global,
    views: &mut Vec<View>,
    seat: usize,
    other: usize,
) -> Result<(), AllocError>
    requires seat { seat < length views.old.items }
    requires other { other < length views.old.items }
    requires apart { other ≢ seat }
    ensures ok { OnOk result ((v w : seats.View) → get_elem? views.old.items seat ≡ some v → get_elem? views.old.items other ≡ some w
        → views.new.items ≡ slice_set (slice_set views.old.items seat (hearing v w)) other spent) }
    ensures err { OnErr result (views.new.items ≡ views.old.items) }
{
    let (known, heard) = telling::heard(alloc, &views[seat], &views[other])?;
    let seen = telling::greater(&views[seat].seen, &views[other].seen);
    let view = &mut views[seat];
    view.known = known;
    view.heard = heard;
    view.seen = seen;
    views[other] = telling::spent_view(alloc);
    Ok(())
}

/// Makes a step that is allowed.
fn make(
    alloc: Global,
    shape: &Shape,
    parts: &mut Parts,
    seat: usize,
    kind: &Kind,
) -> Result<(), AllocError>
    requires shape { rule.IsShape shape.now }
    requires lawful { rule.IsLawful shape.now (state_of parts.old) }
    requires allowed { (v : seats.View) × (get_elem? parts.old.views.items seat ≡ some v) × Allows shape.now (state_of parts.old) v kind.now }
    ensures ok { OnOk result ((v : seats.View) → get_elem? parts.old.views.items seat ≡ some v
        → state_of parts.new ≡ stepped shape.now (state_of parts.old) seat v (slice_index parts.old.words.items (word_of shape.now v kind.now)) kind.now) }
    ensures err { OnErr result (state_of parts.new ≡ state_of parts.old) }
{
    match kind {
        Kind::Split => {
            split_view(alloc, &mut parts.views, seat)?;
            Ok(())
        }
        Kind::Join { copy } => {
            join_views(alloc, &mut parts.views, seat, *copy as usize)?;
            Ok(())
        }
        _ => {
            let view = &mut parts.views[seat];
            acts::act(alloc, shape, &mut parts.words, &mut parts.cells, view, kind)?;
            Ok(())
        }
    }
}

/// The number of the word that the step reads.
fn word_read(shape: &Shape, view: &View, kind: &Kind) -> usize
    requires { rule.IsShape shape.now }
    ensures { result ≡ word_of shape.now view.now kind.now }
{
    match kind {
        Kind::Claim {
            expected: _,
            entry: _,
        }
        | Kind::Bump { to: _ } => 0,
        Kind::Fill { place } => acts::CELLS + acts::cell_of(shape, *place),
        Kind::Look { word } => *word as usize,
        Kind::Take | Kind::GiveBack => {
            acts::CELLS + acts::cell_of(shape, view.known.len() as u64)
        }
        Kind::Raise { limit: _ } => 1,
        Kind::Stable { stable: _ } => 2,
        Kind::Fault { fault: _ } => 3,
        Kind::Split | Kind::Join { copy: _ } => 0,
    }
}

/// The machine of an intake: its words, its cells, and what each seat knows. Contracts see it as these, with its numbers.
#[derive(Debug, Drop)]
pub struct Machine {
    shape: Shape,
    clients: u32,
    pub(crate) parts: Parts,
}

impl Model for Machine {
    ghost use Rattle.wb_steps.specs.Machines.{Standing, IsStanding, state_of};

    ghost Value = { Standing };

    ghost view = { λ m. record { shape = m.shape; clients = m.clients; state = state_of m.parts } };

    ghost invariant = { λ m. IsStanding (record { shape = m.shape; clients = m.clients; state = state_of m.parts }) };
}

/// Makes a step where it is allowed. It answers the number that the word held before, or that the step is not allowed; then
/// nothing changes. Where there is no memory nothing changes either.
pub fn step(alloc: Global, machine: &mut Machine, step: &Step) -> Result<Reply, AllocError>
    ensures reply { IfOk result (λ reply. Answers machine.old.shape machine.old.state step.now reply machine.new.state) }
    ensures lawful { rule.IsLawful machine.new.shape machine.new.state }
    ensures same { (machine.new.shape ≡ machine.old.shape) × (machine.new.clients ≡ machine.old.clients) }
    ensures err { OnErr result (machine.new ≡ machine.old) }
{
    let Some(view) = machine.parts.views.get(step.seat as usize) else {
        return Ok(Reply::NotAllowed);
    };
    if !allowed::allows(&machine.shape, &machine.parts.views, view, &step.kind) {
        return Ok(Reply::NotAllowed);
    }
    let found = machine.parts.words[word_read(&machine.shape, view, &step.kind)];
    make(
        alloc,
        &machine.shape,
        &mut machine.parts,
        step.seat as usize,
        &step.kind,
    )?;
    Ok(Reply::Found(found))
}

/// The words of a new machine.
fn first_words(alloc: Global, shape: &Shape) -> Result<Vec<u64>, AllocError>
    requires { rule.IsShape shape.now }
    ensures { IfOk result (λ words. words.items ≡ 0 ∷ rule.cells shape.now ∷ 0 ∷ 0 ∷ replicate (rule.cells shape.now) 0) }
{
    let cells = shape.ram * shape.places;
    let mut words = Vec::new(alloc);
    words.push(0)?;
    words.push(cells)?;
    words.push(0)?;
    words.push(0)?;
    for cell in 0..cells {
        words.push(0)?;
    }
    Ok(words)
}

/// The cells of a new machine.
fn first_cells(alloc: Global, shape: &Shape) -> Result<Vec<Cell>, AllocError>
    requires { rule.IsShape shape.now }
    ensures { IfOk result (λ cells. map home_of cells.items ≡ replicate (rule.cells shape.now) (some None)) }
{
    let count = shape.ram * shape.places;
    let mut cells = Vec::new(alloc);
    for cell in 0..count {
        cells.push(Cell::Home(None))?;
    }
    Ok(cells)
}

/// What a seat knows at the start.
fn first_view(alloc: Global, role: Role, client: u32, limit: u64) -> View
    ensures { result ≡ beginning role client limit }
{
    let mut view = telling::spent_view(alloc);
    view.role = role;
    view.client = client;
    view.seen.limit = limit;
    view
}

/// The views of a new machine.
fn first_views(alloc: Global, clients: u32, limit: u64) -> Result<Vec<View>, AllocError>
    ensures { IfOk result (λ views. views.items ≡ owners clients limit ++ beginning Drain clients limit ∷ []) }
{
    let mut views = Vec::new(alloc);
    for client in 0..clients {
        views.push(first_view(alloc, Role::Owner, client, limit))?;
    }
    views.push(first_view(alloc, Role::Drain, clients, limit))?;
    Ok(views)
}

impl Machine {
    ghost use Rattle.std.specs.Prelude.{◌≡◌, ◌≤◌, ◌^◌, IfOk, map};
    ghost use Rattle.wb_geometry.specs.Entering.{entered};
    ghost use Rattle.wb_steps.specs.Rule.{shape_of};
    ghost use Rattle.wb_steps.specs.Steps.{start};
    ghost use Rattle.wb_steps.specs.Machines.{drained_of};

    /// A machine in which nothing is named, with an owner for each client, and a drain. Its first segment has the id
    /// `first + 1`.
    pub fn new(
        alloc: Global,
        geometry: &Geometry,
        first: u64,
        clients: u32,
    ) -> Result<Machine, AllocError>
        requires { first ≤ 2 ^ 48 }
        ensures shape { IfOk result (λ m. m.shape ≡ shape_of geometry.now first) }
        ensures clients { IfOk result (λ m. m.clients ≡ clients) }
        ensures start { IfOk result (λ m. m.state ≡ start (shape_of geometry.now first) clients) }
    {
        let shape = Shape::of(geometry, first);
        let words = first_words(alloc, &shape)?;
        let cells = first_cells(alloc, &shape)?;
        let views = first_views(alloc, clients, shape.ram * shape.places)?;
        let parts = Parts {
            words,
            cells,
            views,
        };
        Ok(Machine {
            shape,
            clients,
            parts,
        })
    }

    /// The entries that were drained, in the order of their places.
    pub fn drained(&self) -> &[Item]
        ensures { result.now ≡ drained_of self.now }
    {
        match self.parts.views.get(self.clients as usize) {
            Some(view) => view.known.as_slice(),
            None => &[],
        }
    }
}

/// Says of each list of steps, allowed or not: it leads from states that keep the rule to such states alone. The first
/// state of a machine keeps it.
pub fn each_list_keeps_the_rule()
    ensures start { (k : numbers.Shape) (clients : ℕ) → rule.IsShape k → rule.IsLawful k (start k clients) }
    ensures kept { (k : numbers.Shape) (s after : rule.Intake) (steps : List kinds.Step) → rule.IsLawful k s → Leads k s steps after → rule.IsLawful k after }
{}
