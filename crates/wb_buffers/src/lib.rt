//! The memory that answering the requests of a script takes, and what is done in it.
#![tactic(auto)]

mod buffers;

pub use buffers::{Buffers, MOST_BYTES, repeat, sum_of};
