//! Devices, sources and sinks: each is a trait with a written meaning, so that all else is proved once for every
//! implementation.
//!
//! A `Device` answers a fault only where its count of faults rose, and says what a crash may leave of it after each
//! call (`wb_geometry`). `SteadyDevice`, `MemorySource` and `MemorySink` stand in memory and tell what they hold;
//! `MemoryDevice` does too, fails as planned, and crashes. `ListingDevice` stands over any device, and lists and counts its
//! calls. `FileDevice`, `StdinSource` and `StdoutSink` are the adapters over the outside, of which nobody can tell.
#![tactic(auto)]

mod device;
mod disk;
mod file;
mod listing;
mod medium;
mod memory;
mod planned;
mod standard;
mod steady;
mod streams;

pub use device::{Device, DeviceFault};
pub use disk::MemoryDevice;
pub use file::FileDevice;
pub use listing::{CallCounts, DeviceCall, ListingDevice};
pub use memory::{MemorySink, MemorySource};
pub use planned::{FaultPlan, PlannedFault};
pub use standard::{StdinSource, StdoutSink};
pub use steady::SteadyDevice;
pub use streams::{Sink, SinkFault, Source, SourceFault};

#[cfg(test)]
mod tests;
