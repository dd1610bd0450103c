//! The text of a segment, both ways: `encode` writes it, and `check` accepts exactly it (docs/FORMAT.md).
//! `spells` is a law: bytes are the text of at most one segment, no text is refused, and a segment has at most one text.
#![tactic(auto)]

mod checking;
mod encoding;
mod law;
mod sealed;

pub use checking::{Found, Refused, check, header_id};
pub use encoding::encode;
pub use law::spells;
pub use sealed::{Cached, Meta, Sealed};

#[cfg(test)]
mod tests;
