//! Sessions on threads over devices in memory. Where it isn't determined which answers come, a checker of its own reads them: a
//! plain program over the transcripts, `history` and `legal`, and one over what a crash leaves, `leaving`.
mod drawing;
mod history;
mod leaving;
mod legal;
mod rows;
mod seeded;
mod serving;

const SECTOR_BYTES: usize = 512;

/// The sectors of a backing device.
const SECTORS: usize = 64;
