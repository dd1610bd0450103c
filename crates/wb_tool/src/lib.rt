//! The program as one call: `run` and, on one thread, `run_single` take the words of the command line, a source, a sink and two devices, do
//! what the words ask, and answer a status. Their contracts say what a run answers for (`specs/Account.antt`).
#![tactic(auto)]

mod command;
mod formatting;
mod inspecting;
mod opening;
mod reading;
mod recovering;
mod running;
mod serving;
mod slots;
mod status;
mod texts;
mod workload;

pub use running::{Outcome, run, run_single};

#[cfg(test)]
mod tests;
