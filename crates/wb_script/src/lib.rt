//! Scripts and transcripts: what a script's bytes spell, which answers are legal, and the text that they are printed as.
//!
//! `specs/Grammar.antt` is the grammar, `specs/Transcripts.antt` says which transcripts are legal and which history they
//! print, and `specs/Output.antt` is the text (docs/SCRIPT.md).
#![tactic(auto)]

mod generating;
mod parsing;
mod printing;
mod refusal;
mod request;
mod script;
mod transcript;

pub use generating::generate;
pub use parsing::{number, parse};
pub use printing::{PrintStop, print, sum_text};
pub use refusal::{Cause, ParseStop, ScriptRefused};
pub use request::{Command, Pattern, Request};
pub use script::{Requests, Script};
pub use transcript::{Ended, Line, Shown, Stop, Taken, Transcript};
