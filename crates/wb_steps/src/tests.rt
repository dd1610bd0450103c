//! The machine, driven by lists of steps, beside a plain program that looks whether the rule holds.

use crate::machine::Machine;
use crate::parts::{Cell, Parts};
use crate::{Faults, Item, Kind, Reply, Role, Step, View, step};
use std::alloc::{AllocError, Global};
use std::process::Abort;
use wb_geometry::{Block, Entry, Geometry, Part};

/// The places of a segment, the cells, and the seat of the drain, of the machines that are driven.
const PLACES: u64 = 3;

const CELLS: u64 = 6;

/// The blocks of their backing device.
const BLOCKS: u64 = 8;

const DRAIN: usize = 2;

/// An entry of one sector, filled with the byte.
fn entry(alloc: Global, client: u32, block: u64, fill: u8) -> Result<Entry, AllocError> {
    let part = Part {
        block,
        from: 0,
        count: 1,
    };
    let payload = Block::boxed(alloc, &part, &[fill; 512])?;
    Ok(Entry::Write {
        client,
        block,
        payload,
    })
}

/// A claim, a fill, a take and a give back on a new machine with one client.
fn first_steps(alloc: Global, machine: &mut Machine) -> Result<bool, AllocError> {
    let claim = Kind::Claim {
        expected: 0,
        entry: entry(alloc, 0, 3, 0x5a)?,
    };
    let kinds = [
        (0, claim),
        (0, Kind::Fill { place: 0 }),
        (1, Kind::Take),
        (1, Kind::GiveBack),
    ];
    let mut answers = [Reply::NotAllowed; 4];
    for ((seat, kind), answer) in kinds.into_iter().zip(answers.iter_mut()) {
        *answer = step(alloc, machine, &Step { seat, kind })?;
    }
    Ok(matches!(
        answers,
        [
            Reply::Found(0),
            Reply::Found(0),
            Reply::Found(1),
            Reply::Found(1)
        ]
    ))
}

/// Whether the drained list is the one entry.
fn has_one(machine: &Machine) -> bool {
    match machine.drained() {
        [item] => is_write(item, 0, 3, 0x5a),
        _ => false,
    }
}

/// Whether it is this write.
fn is_write(item: &Item, client: u32, block: u64, fill: u8) -> bool {
    match item.entry() {
        Entry::Write {
            client: writer,
            block: number,
            payload,
        } => *writer == client && *number == block && payload.payload[511] == fill,
        Entry::Void { client: _ } => false,
    }
}

/// Whether an entry goes through a new machine as it should.
fn one_goes_through(alloc: Global) -> Result<bool, AllocError> {
    let Ok(geometry) = Geometry::new(4, 2, 2, 64) else {
        return Ok(false);
    };
    let mut machine = Machine::new(alloc, &geometry, 0, 1)?;
    Ok(first_steps(alloc, &mut machine)? && has_one(&machine))
}

#[test]
fn an_entry_goes_through(rt: HostRuntime) -> Result<(), AllocError> {
    assert!(rt; one_goes_through(rt.alloc())?);
    Ok(())
}

/// A word, or 0 where there is none.
fn word(parts: &Parts, at: u64) -> u64 {
    parts.words.get(at as usize).copied().unwrap_or(0)
}

/// Whether both are the same entry.
fn same(a: &Item, b: &Item) -> bool {
    match (a.entry(), b.entry()) {
        (
            Entry::Write {
                client,
                block,
                payload,
            },
            _,
        ) => is_write(b, *client, *block, payload.payload[511]),
        (Entry::Void { client }, Entry::Void { client: other }) => client == other,
        _ => false,
    }
}

/// Whether the list begins with these entries.
fn is_prefix(front: &[Item], items: &[Item]) -> bool {
    front.len() <= items.len() && front.iter().zip(items).all(|(a, b)| same(a, b))
}

/// Whether the numbers are in their order.
fn numbers_hold(cursor: u64, limit: u64, stable: u64, drained: u64) -> bool {
    drained <= cursor
        && cursor <= limit
        && limit.saturating_sub(drained) <= CELLS
        && limit % PLACES == 0
        && stable % PLACES == 0
        && stable <= drained
}

/// Whether the view is that of an owner.
fn is_owner(view: &View) -> bool {
    matches!(view.role, Role::Owner)
}

/// How many owners name the place.
fn times_named(views: &[View], place: u64) -> usize {
    views
        .iter()
        .filter(|view| is_owner(view))
        .filter(|view| view.mine.as_slice().iter().any(|named| named.0 == place))
        .count()
}

/// Whether an owner names the place for this entry.
fn is_named(views: &[View], place: u64, item: &Item) -> bool {
    views.iter().filter(|view| is_owner(view)).any(|view| {
        view.mine
            .as_slice()
            .iter()
            .any(|named| named.0 == place && same(&named.1, item))
    })
}

/// Whether each drained entry is the one that is named for its place.
fn drained_are_named(views: &[View], drained: &[Item]) -> bool {
    drained
        .iter()
        .enumerate()
        .all(|(place, item)| is_named(views, place as u64, item))
}

/// Whether an entry of the client may stand at the place.
fn may_stand(first: u64, client: u32, place: u64, item: &Item) -> bool {
    let id = first.wrapping_add(1).wrapping_add(place / PLACES);
    let fits = match item.entry() {
        Entry::Write {
            client: writer,
            block,
            payload: _,
        } => *writer == client && *block < BLOCKS,
        Entry::Void { client: voider } => *voider == client && place % PLACES != 0,
    };
    fits && id <= 1 << 48
}

/// Whether an owner names entries of its client alone, at places that rise and stand below the cursor that it has seen.
fn owner_holds(view: &View, first: u64) -> bool {
    let mine = view.mine.as_slice();
    mine.iter().all(|named| {
        named.0 < view.seen.cursor && may_stand(first, view.client, named.0, &named.1)
    }) && mine
        .iter()
        .zip(mine.iter().skip(1))
        .all(|(one, next)| one.0 < next.0)
        && view
            .unfilled
            .as_slice()
            .iter()
            .all(|place| mine.iter().any(|named| named.0 == *place))
}

/// Whether the list is a beginning of what the client told.
fn was_told(views: &[View], client: u32, list: &[u64]) -> bool {
    views
        .iter()
        .filter(|view| is_owner(view) && view.client == client)
        .any(|view| {
            let told = view.told.as_slice();
            list.len() <= told.len() && list.iter().zip(told).all(|(a, b)| a == b)
        })
}

/// Whether the drain has seen the numbers that it published.
fn drain_holds(parts: &Parts, view: &View) -> bool {
    let seen = &view.seen;
    seen.limit == word(parts, 1)
        && seen.stable == word(parts, 2)
        && seen.fault == Faults::of(word(parts, 3))
}

/// Whether the view has what its role asks for.
fn role_holds(parts: &Parts, first: u64, view: &View) -> bool {
    match view.role {
        Role::Owner => owner_holds(view, first),
        Role::Copy => view.mine.is_empty(),
        Role::Drain => drain_holds(parts, view),
        Role::Spent => true,
    }
}

/// Whether an owner has the place among those that it has not filled.
fn is_unfilled(views: &[View], place: u64) -> bool {
    views
        .iter()
        .any(|view| view.unfilled.as_slice().contains(&place))
}

/// Whether the cell and its word are as far as the place that uses it.
fn cell_holds(parts: &Parts, place: u64, taken: bool) -> bool {
    let number = word(parts, 4 + place % CELLS);
    let named = place < word(parts, 0);
    match parts.cells.get((place % CELLS) as usize) {
        Some(Cell::Out) => taken && named && number == place.wrapping_add(1),
        Some(Cell::Home(Some(_))) => {
            named && number == place.wrapping_add(1) && !is_unfilled(&parts.views, place)
        }
        Some(Cell::Home(None)) => number == 0 && named == is_unfilled(&parts.views, place),
        None => false,
    }
}

/// Whether the view knows and has seen no more than there is, and heard no more than was told.
fn view_holds(parts: &Parts, drained: &[Item], first: u64, view: &View) -> bool {
    let seen = &view.seen;
    matches!(view.role, Role::Spent)
        || (is_prefix(view.known.as_slice(), drained)
            && view.known.len() as u64 <= seen.cursor
            && seen.cursor <= word(parts, 0)
            && seen.limit <= word(parts, 1)
            && seen.stable <= word(parts, 2)
            && seen.fault.is_at_most(&Faults::of(word(parts, 3)))
            && role_holds(parts, first, view)
            && view.heard.as_slice().iter().all(|(client, list)| was_told(
                &parts.views,
                *client,
                list.as_slice(),
            )))
}

/// Whether the rule holds of the words, the cells and the views.
fn parts_hold(parts: &Parts, drained: &[Item], first: u64, taken: bool) -> bool {
    let next = drained.len() as u64;
    let cursor = word(parts, 0);
    numbers_hold(cursor, word(parts, 1), word(parts, 2), next)
        && (0..cursor.min(4096)).all(|place: u64| times_named(&parts.views, place) == 1)
        && (0..CELLS).all(|more: u64| {
            cell_holds(parts, next.wrapping_add(more), taken && more == 0)
        })
        && drained_are_named(&parts.views, drained)
        && parts
            .views
            .iter()
            .all(|view| view_holds(parts, drained, first, view))
}

/// Whether the rule holds.
fn holds(machine: &Machine, first: u64) -> bool {
    let taken = match machine.parts.views.get(DRAIN) {
        Some(drain) => drain.held.is_some(),
        None => false,
    };
    parts_hold(&machine.parts, machine.drained(), first, taken)
}

/// The next number of a list that a seed makes.
fn next(state: u64) -> u64 {
    state
        .wrapping_mul(6364136223846793005)
        .wrapping_add(1442695040888963407)
}

/// A step of an owner. Most of them are allowed.
fn owner_kind(
    alloc: Global,
    machine: &Machine,
    seat: u32,
    number: u64,
) -> Result<Kind, AllocError> {
    let cursor = word(&machine.parts, 0);
    let near = cursor.wrapping_add(u64::from(number % 7 == 6));
    let client = if number / 4096 % 16 == 15 { 5 } else { seat };
    Ok(match number / 8 % 9 {
        0 | 1 | 2 => Kind::Claim {
            expected: near,
            entry: entry(alloc, client, number / 64 % 9, (number % 251) as u8)?,
        },
        3 => Kind::Bump {
            to: near.wrapping_add(2) / PLACES * PLACES,
        },
        4 | 5 => Kind::Fill {
            place: near.wrapping_sub(1 + number / 64 % 4),
        },
        6 => Kind::Look {
            word: (number / 64 % 5) as u32,
        },
        7 => Kind::Split,
        _ => Kind::Join {
            copy: (number / 64 % 12) as u32,
        },
    })
}

/// A step of the drain. Most of them are allowed.
fn drain_kind(machine: &Machine, number: u64) -> Kind {
    let parts = &machine.parts;
    match number / 8 % 9 {
        0 | 1 => Kind::Take,
        2 | 3 => Kind::GiveBack,
        4 => Kind::Raise {
            limit: word(parts, 1).wrapping_add(number / 64 % 4),
        },
        5 => Kind::Stable {
            stable: word(parts, 2).wrapping_add(number / 64 % 4),
        },
        6 => Kind::Fault {
            fault: word(parts, 3).wrapping_add(number / 64 % 6),
        },
        7 => Kind::Split,
        _ => Kind::Join {
            copy: (number / 64 % 12) as u32,
        },
    }
}

/// The number of the kind.
fn kind_number(kind: &Kind) -> usize {
    match kind {
        Kind::Claim {
            expected: _,
            entry: _,
        } => 0,
        Kind::Bump { to: _ } => 1,
        Kind::Fill { place: _ } => 2,
        Kind::Look { word: _ } => 3,
        Kind::Take => 4,
        Kind::GiveBack => 5,
        Kind::Raise { limit: _ } => 6,
        Kind::Stable { stable: _ } => 7,
        Kind::Fault { fault: _ } => 8,
        Kind::Split => 9,
        Kind::Join { copy: _ } => 10,
    }
}

/// How many steps of each kind were allowed, and how many were not.
#[derive(Drop)]
struct Counts {
    allowed: [u32; 11],
    refused: [u32; 11],
}

/// Counts a step of the kind.
fn count(counts: &mut [u32; 11], kind: usize) {
    if let Some(number) = counts.get_mut(kind) {
        *number = number.saturating_add(1);
    }
}

/// Makes a step that the number says, by the seat that mostly may make it.
fn turn(
    alloc: Global,
    machine: &mut Machine,
    number: u64,
    counts: &mut Counts,
) -> Result<(), AllocError> {
    let number = number >> 20;
    let own = (number % 3) as u32;
    let kind = if own < 2 {
        owner_kind(alloc, machine, own, number / 3)?
    } else {
        drain_kind(machine, number / 3)
    };
    let seat = if number / 1024 % 8 == 7 {
        (number / 8192 % 9) as u32
    } else {
        own
    };
    let number = kind_number(&kind);
    match step(alloc, machine, &Step { seat, kind })? {
        Reply::Found(_) => count(&mut counts.allowed, number),
        Reply::NotAllowed => count(&mut counts.refused, number),
    }
    Ok(())
}

/// Makes a list of 60 steps that the seed says, and answers whether the rule held after each.
fn drive(
    alloc: Global,
    machine: &mut Machine,
    first: u64,
    seed: u64,
    counts: &mut Counts,
) -> Result<bool, AllocError> {
    let mut state = next(seed);
    for _ in 0..60 {
        state = next(state);
        turn(alloc, machine, state, counts)?;
        if !holds(machine, first) {
            return Ok(false);
        }
    }
    Ok(true)
}

/// Drives a new machine by each of 3,000 lists of steps, of which every eighth begins near the last id, and answers whether
/// the rule held after each step.
fn drive_all(alloc: Global, counts: &mut Counts) -> Result<bool, AllocError> {
    let Ok(geometry) = Geometry::new(5, 2, 2, 64) else {
        return Ok(false);
    };
    for seed in 0..3000 {
        let first = if seed % 8 == 7 { (1 << 48) - 3 } else { 0 };
        let mut machine = Machine::new(alloc, &geometry, first, 2)?;
        if !drive(alloc, &mut machine, first, seed, counts)? {
            return Ok(false);
        }
    }
    Ok(true)
}

#[test]
fn the_rule_holds_after_each_step(rt: HostRuntime) -> Result<(), AllocError> {
    let mut counts = Counts {
        allowed: [0; 11],
        refused: [0; 11],
    };
    assert!(rt; drive_all(rt.alloc(), &mut counts)?);
    for kind in 0..11 {
        assert!(rt; counts.allowed[kind] > 0, "kind {kind} was never allowed");
        assert!(rt; counts.refused[kind] > 0, "kind {kind} was never refused");
    }
    Ok(())
}
