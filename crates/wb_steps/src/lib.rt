//! The steps of the intake, as a machine without threads.
#![tactic(auto)]

mod acts;
mod allowed;
mod drain;
mod item;
mod machine;
mod owner;
mod parts;
mod shape;
mod steps;
mod telling;
mod view;

pub use item::Item;
pub use machine::{Machine, each_list_keeps_the_rule, step};
pub use shape::Shape;
pub use steps::{Kind, Reply, Step};
pub use view::{Faults, Role, Seen, View};

#[cfg(test)]
mod tests;
