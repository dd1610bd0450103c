//! What a crash leaves of the log and of the backing device, and what recovery makes of the two images: the definitions,
//! and the lemmas that the calls of the engine cite. `specs/Images.antt` says what the images of an engine are, and
//! `specs/Crash.antt` what holds of each image that a call may leave.
#![tactic(auto)]

mod numbers;

pub use numbers::Numbers;
