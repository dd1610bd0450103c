//! Texts of segments, by their bytes.

mod checking;
mod encoding;
