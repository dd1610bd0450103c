//! What the script comes from, and what the output goes to.
ghost use Rattle.std.specs.Prelude.{ℕ, List, Option};
ghost use Rattle.std.specs.Io.{ReadsAtMost};
ghost use Rattle.std.specs.Io.KnownBytes.{ReadConsumes};
ghost use Rattle.wb_geometry.specs.Device.{CountsFaults};
ghost use Rattle.wb_device.specs.Streams.{Takes};

/// A call of a source failed.
#[derive(Clone, Copy, Debug, PartialEq, Eq)]
pub struct SourceFault;

/// A call of a sink failed.
#[derive(Clone, Copy, Debug, PartialEq, Eq)]
pub struct SinkFault;

/// Where bytes come from. Its meaning is the bytes that it has left, where it tells them, and a count of faults that
/// never falls.
pub trait Source {
    ghost left: { Self → Option (List ℕ) };

    ghost faults: { Self → ℕ };

    /// Takes some of the bytes that are left into the front of `into`, and answers how many. None is the end of the
    /// input, where `into` isn't empty. After an `Err`, which comes only where the count of faults rose, all bytes are
    /// still left.
    fn read(&mut self, into: &mut [u8]) -> Result<usize, SourceFault>
        ensures bound { ReadsAtMost result into.new }
        ensures bytes { ReadConsumes (left self.old) (left self.new) result into.new }
        ensures cause { CountsFaults (faults self.old) (faults self.new) result };
}

/// Where bytes go to. Its meaning is the bytes that it took, where it tells them, and a count of faults that never falls.
pub trait Sink {
    ghost taken: { Self → Option (List ℕ) };

    ghost faults: { Self → ℕ };

    /// Takes all of the bytes. After an `Err`, which comes only where the count of faults rose, it took a front of them.
    fn write(&mut self, bytes: &[u8]) -> Result<(), SinkFault>
        ensures bytes { Takes (taken self.old) (taken self.new) bytes.now result }
        ensures cause { CountsFaults (faults self.old) (faults self.new) result };
}
