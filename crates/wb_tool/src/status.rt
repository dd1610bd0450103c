//! The statuses of a run (docs/SCRIPT.md).

/// Done.
pub const DONE: u8 = 0;

/// There was no memory.
pub const MEMORY: u8 = 1;

/// The words are of no form.
pub const USAGE: u8 = 2;

/// The script is refused.
pub const SCRIPT: u8 = 3;

/// The source failed.
pub const SOURCE: u8 = 4;

/// The sink failed.
pub const SINK: u8 = 5;

/// The log device failed.
pub const LOG: u8 = 6;

/// The backing device failed.
pub const BACKING: u8 = 7;

/// The log image is refused.
pub const IMAGE: u8 = 8;

/// A device has too few sectors.
pub const SMALL: u8 = 9;

/// No ids are left.
pub const IDS: u8 = 10;
