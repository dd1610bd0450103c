//! What a machine consists of.

use crate::{Item, View};

/// A cell of the intake.
#[derive(Debug, Drop)]
pub(crate) enum Cell {
    /// A seat holds it.
    Out,
    /// It is empty, or has an entry.
    Home(Option<Item>),
}

/// The words, the cells and the views of a machine.
#[derive(Debug, Drop)]
pub(crate) struct Parts {
    /// The cursor, the limit, the stable number, the fault, and a word for each cell.
    pub(crate) words: Vec<u64>,
    pub(crate) cells: Vec<Cell>,
    /// What each seat knows.
    pub(crate) views: Vec<View>,
}
