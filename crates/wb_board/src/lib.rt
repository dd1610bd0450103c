//! Notes from client to client, on threads. `specs/Notes.antt` says what a note on the board carries.
#![tactic(auto)]

mod board;

pub use board::Board;

#[cfg(test)]
mod tests;
