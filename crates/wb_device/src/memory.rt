//! A source and a sink in memory, for tests: each may fail at one of its calls.
ghost use Rattle.std.specs.Prelude.{◌≡◌, ◌≤◌, ◌⊎◌, [], Some, length, OnOk, OnErr};
ghost use Rattle.std.specs.Io.{ReadsAtMost};
ghost use Rattle.std.specs.Io.KnownBytes.{ReadConsumes};
ghost use Rattle.wb_geometry.specs.Device.{CountsFaults, next_count};
ghost use Rattle.wb_device.specs.Streams.{Takes};

use crate::{Sink, SinkFault, Source, SourceFault};
use std::alloc::Global;

/// A source of these bytes, which fails at one call at most. It tells what is left.
#[derive(Debug, Drop)]
pub struct MemorySource {
    bytes: Vec<u8>,
    start: usize,
    calls: u64,
    failing: Option<u64>,
    faults: u64,
    ghost inside: { start ≤ length bytes.items },
}

/// A sink that keeps what it took, and fails at one call at most, or where it finds no memory. It tells what it took.
#[derive(Debug, Drop)]
pub struct MemorySink {
    bytes: Vec<u8>,
    calls: u64,
    failing: Option<u64>,
    faults: u64,
    starved: u64,
}

impl MemorySource {
    ghost use Rattle.wb_device.specs.Memory.{source_left, source_faults, source_failing, source_calls};

    /// A source with these bytes left. The call of this number, counted from 0, fails.
    pub fn of(bytes: Vec<u8>, failing: Option<u64>) -> MemorySource
        ensures left { source_left result ≡ Some bytes.items }
        ensures faults { source_faults result ≡ 0 }
        ensures failing { source_failing result ≡ failing }
        ensures calls { source_calls result ≡ 0 }
    {
        MemorySource {
            bytes,
            start: 0,
            calls: 0,
            failing,
            faults: 0,
        }
    }
}

impl Source for MemorySource {
    ghost use Rattle.wb_device.specs.Memory.{source_left, source_faults, source_failing, source_calls, SourceFails};

    ghost left = { source_left };

    ghost faults = { source_faults };

    fn read(&mut self, into: &mut [u8]) -> Result<usize, SourceFault>
        ensures bound { ReadsAtMost result into.new }
        ensures bytes { ReadConsumes (source_left self.old) (source_left self.new) result into.new }
        ensures cause { CountsFaults (source_faults self.old) (source_faults self.new) result }

        // It fails at the planned call, and at no other.
        ensures failed { OnErr result (SourceFails self.old) }
        ensures worked { OnOk result (¬ SourceFails self.old) }
        ensures failing { source_failing self.new ≡ source_failing self.old }
        ensures calls { source_calls self.new ≡ next_count (source_calls self.old) }
    {
        let call = self.calls;
        self.calls = call.saturating_add(1);
        if self.failing == Some(call) {
            self.faults = self.faults.saturating_add(1);
            return Err(SourceFault);
        }
        let count = into.len().min(self.bytes.len() - self.start);
        into[..count].copy_from_slice(&self.bytes[self.start..self.start + count]);
        self.start += count;
        Ok(count)
    }
}

impl MemorySink {
    ghost use Rattle.wb_device.specs.Memory.{sink_taken, sink_faults, sink_starved, sink_failing, sink_calls};

    /// A sink that took nothing yet. The call of this number, counted from 0, fails and takes nothing.
    pub fn new(alloc: Global, failing: Option<u64>) -> MemorySink
        ensures taken { sink_taken result ≡ Some [] }
        ensures faults { sink_faults result ≡ 0 }
        ensures starved { sink_starved result ≡ 0 }
        ensures failing { sink_failing result ≡ failing }
        ensures calls { sink_calls result ≡ 0 }
    {
        MemorySink {
            bytes: Vec::new(alloc),
            calls: 0,
            failing,
            faults: 0,
            starved: 0,
        }
    }

    /// What it took.
    pub fn taken(&self) -> &[u8]
        ensures { sink_taken self.now ≡ Some result.now }
    {
        self.bytes.as_slice()
    }

    /// How many calls found no memory.
    pub fn starved(&self) -> u64
        ensures { result ≡ sink_starved self.now }
    {
        self.starved
    }
}

impl Sink for MemorySink {
    ghost use Rattle.wb_device.specs.Memory.{sink_taken, sink_faults, sink_starved, sink_failing, sink_calls, SinkFails};

    ghost taken = { sink_taken };

    ghost faults = { sink_faults };

    fn write(&mut self, bytes: &[u8]) -> Result<(), SinkFault>
        ensures bytes { Takes (sink_taken self.old) (sink_taken self.new) bytes.now result }
        ensures cause { CountsFaults (sink_faults self.old) (sink_faults self.new) result }

        // It fails at the planned call, and else only where it finds no memory.
        ensures failed { OnErr result ((SinkFails self.old × (sink_starved self.new ≡ sink_starved self.old))
            ⊎ ((¬ SinkFails self.old) × (sink_starved self.new ≡ next_count (sink_starved self.old)))) }
        ensures worked { OnOk result (¬ SinkFails self.old) }
        ensures fed { OnOk result (sink_starved self.new ≡ sink_starved self.old) }
        ensures failing { sink_failing self.new ≡ sink_failing self.old }
        ensures calls { sink_calls self.new ≡ next_count (sink_calls self.old) }
    {
        let is_planned = self.failing == Some(self.calls);
        self.calls = self.calls.saturating_add(1);
        if is_planned {
            self.faults = self.faults.saturating_add(1);
            return Err(SinkFault);
        }
        if self.bytes.extend_from_slice(bytes).is_err() {
            self.starved = self.starved.saturating_add(1);
            self.faults = self.faults.saturating_add(1);
            return Err(SinkFault);
        }
        Ok(())
    }
}
