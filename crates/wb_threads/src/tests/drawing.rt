//! Scripts that a seed makes, of 2 to 32 clients and all letters.
use std::alloc::{AllocError, Global};

/// Numbers that a seed makes.
#[derive(Drop)]
pub struct Dice {
    pub state: u64,
}

impl Dice {
    /// The next number, below this one.
    pub fn below(&mut self, bound: u32) -> u32 {
        self.state = self
            .state
            .wrapping_mul(6364136223846793005)
            .wrapping_add(1442695040888963407);
        ((self.state >> 33) % 65536) as u32 % bound.max(1)
    }
}

/// The letters from which one is drawn. Each note that is left is heard by a line of its own.
const DRAWN: [char; 16] = [
    'w', 'w', 'w', 'w', 'w', 'u', 'u', 'r', 'r', 'r', 'r', 'x', 'f', 'q', 't', 't',
];

/// Adds a line that reads or writes sectors. A write has the number of its line as its pattern, so that no two are alike.
fn put_range(
    script: &mut String,
    dice: &mut Dice,
    letter: char,
    client: u32,
    number: u32,
) -> Result<(), AllocError> {
    let sector = dice.below(64);
    let most = dice.below(20).saturating_add(1);
    let count = dice
        .below(most)
        .saturating_add(1)
        .min(64u32.saturating_sub(sector));
    write!(script, "{client} {letter} {sector} {count}")?;
    if letter == 'w' || letter == 'u' {
        write!(script, " {number:04x}")?;
    }
    script.push('\n')
}

/// Adds a line that leaves a note for a client above this one, and one that hears it.
fn put_note(
    script: &mut String,
    dice: &mut Dice,
    client: u32,
    clients: u32,
) -> Result<(), AllocError> {
    let above = client.saturating_add(1);
    let other = above.saturating_add(dice.below(clients.saturating_sub(above)));
    write!(script, "{client} t {other}\n{other} h {client}\n")
}

/// Adds a line, or two for a note. The last client leaves none.
fn put_line(
    script: &mut String,
    dice: &mut Dice,
    clients: u32,
    number: u32,
) -> Result<(), AllocError> {
    let client = dice.below(clients);
    match DRAWN.get(dice.below(16) as usize) {
        Some('t') if client.saturating_add(1) < clients => put_note(script, dice, client, clients),
        Some('f' | 't') => write!(script, "{client} f\n"),
        Some('q') => write!(script, "{client} q\n"),
        Some(letter) => put_range(script, dice, *letter, client, number),
        None => Ok(()),
    }
}

/// A script of 2 to 32 clients.
pub fn drawn(alloc: Global, dice: &mut Dice) -> Result<String, AllocError> {
    let most = dice.below(31).saturating_add(1);
    let clients = dice.below(most).saturating_add(2);
    let mut script = String::new(alloc);
    write!(script, "clients {clients}\n")?;
    for number in 0..dice.below(100) {
        put_line(&mut script, dice, clients, number.saturating_add(1))?;
    }
    Ok(script)
}
