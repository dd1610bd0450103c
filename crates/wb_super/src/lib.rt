//! The superblock of a log image, and its record: the sectors by which a log says what it is, and how far it was written
//! back (docs/FORMAT.md).
//!
//! `format` makes an empty log, `read_super` tells the geometry and the record of one or says why it is refused, and
//! `write_record` writes the record. `decides` is a law: a content has at most one superblock or one refusal.
#![tactic(auto)]

mod formatting;
mod law;
mod reading;
mod recording;
mod storing;
mod text;

pub use formatting::{FormatStop, format};
pub use law::decides;
pub use reading::{Super, SuperRefused, read_super};
pub use recording::write_record;

#[cfg(test)]
mod tests;
