//! The adapters over standard input and output.
ghost use Rattle.std.specs.Prelude.{◌≡◌, None, OnOk};
ghost use Rattle.std.specs.Io.KnownBytes.{Appends};
ghost use Rattle.wb_geometry.specs.Device.{CountsFaults};
ghost use Rattle.wb_device.specs.Streams.{Takes};

use crate::{Sink, SinkFault, Source, SourceFault};
use std::io::{ErrorKind, Read, Write};

/// A source over a reader. It tells the bytes that the reader tells: those of standard input, nobody can.
#[derive(Drop)]
pub struct StdinSource<R: Read + Drop> {
    reader: R,
    faults: u64,
}

impl<R: Read + Drop> StdinSource<R> {
    ghost use Rattle.wb_device.specs.Standard.{stdin_reader, stdin_faults};

    /// A source that reads from here.
    pub fn new(reader: R) -> StdinSource<R>
        ensures reader { stdin_reader result ≡ reader }
        ensures faults { stdin_faults result ≡ 0 }
    {
        StdinSource { reader, faults: 0 }
    }
}

impl<R: Read + Drop> Source for StdinSource<R> {
    ghost use Rattle.wb_device.specs.Standard.{stdin_reader, stdin_faults};

    ghost left = { λ s. R.remaining (stdin_reader s) };

    ghost faults = { stdin_faults };

    fn read(&mut self, into: &mut [u8]) -> Result<usize, SourceFault> {
        for _ in 0..u64::MAX {
            match self.reader.read(into) {
                Ok(count) => return Ok(count),
                Err(error) if error.kind() == ErrorKind::Interrupted => {}
                Err(_) => break,
            }
        }
        self.faults = self.faults.saturating_add(1);
        Err(SourceFault)
    }
}

/// A sink over a writer, as standard output is. It tells no bytes.
#[derive(Drop)]
pub struct StdoutSink<W: Write + Drop> {
    writer: W,
    faults: u64,
}

impl<W: Write + Drop> StdoutSink<W> {
    ghost use Rattle.wb_device.specs.Standard.{stdout_writer, stdout_faults};

    /// A sink that writes to here.
    pub fn new(writer: W) -> StdoutSink<W>
        ensures writer { stdout_writer result ≡ writer }
        ensures faults { stdout_faults result ≡ 0 }
    {
        StdoutSink { writer, faults: 0 }
    }
}

impl<W: Write + Drop> Sink for StdoutSink<W> {
    ghost use Rattle.wb_device.specs.Standard.{stdout_writer, stdout_faults};

    ghost taken = { λ _. None };

    ghost faults = { stdout_faults };

    /// Writes all of the bytes and flushes the writer.
    fn write(&mut self, bytes: &[u8]) -> Result<(), SinkFault>
        ensures bytes { Takes None None bytes.now result }
        ensures cause { CountsFaults (stdout_faults self.old) (stdout_faults self.new) result }

        // Where the writer tells what it holds, that grew by the bytes.
        ensures held { OnOk result (Appends (W.contents (stdout_writer self.old)) (W.contents (stdout_writer self.new)) bytes.now) }
    {
        if self.writer.write_all(bytes).is_err() || self.writer.flush().is_err() {
            self.faults = self.faults.saturating_add(1);
            return Err(SinkFault);
        }
        Ok(())
    }
}
