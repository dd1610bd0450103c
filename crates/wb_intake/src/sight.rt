//! What a seat of the intake knows, for contracts alone.

use wb_steps::View;

/// How many loads of a word a seat made, and the number that the last of them found.
#[derive(Drop)]
pub struct Load {
    pub count: u64,
    pub last: u64,
}

/// How many loads of words of cells a seat made, which word the last of them was of, and the number that it found.
#[derive(Drop)]
pub struct CellLoad {
    pub count: u64,
    pub word: u64,
    pub last: u64,
}

/// The loads that a seat made of the cursor, the limit, the stable number, the fault, and words of cells.
#[derive(Drop)]
pub struct Loads {
    pub cursor: Load,
    pub limit: Load,
    pub stable: Load,
    pub fault: Load,
    pub cell: CellLoad,
}

/// What the drain knew, and what it received, as it last met a pass.
#[derive(Drop)]
pub struct Meeting {
    pub drain: View,
    pub pass: View,
}

/// What a seat knows, the loads that it made, and the last pass that it met. No value of it is made.
#[derive(Drop)]
pub struct Sight {
    pub view: View,
    pub loads: Loads,
    pub met: Option<Meeting>,
}
