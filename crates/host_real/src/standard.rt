//! Standard input and output as a source and a sink. They tell no content.
ghost use Rattle.std.specs.Prelude.{◌≡◌, ◌≤◌, ◌<◌, ℕ, List, Option, None, IfOk, OnErr, length};
ghost use Rattle.std.specs.Io.KnownBytes.{ReadConsumes, WriteAppends};
ghost use Rattle.host_io.specs.Fault.{Rose};

use host_io::{Failed, Sink, Source};
use std::io::{ErrorKind, Read, Write};

/// A source over a reader. It counts the reads that fail; one that is interrupted is made again.
#[derive(Drop)]
pub struct StdSource<R> {
    reader: R,
    faults: u64,
}

impl<R: Read> StdSource<R> {
    /// A source over this reader.
    pub fn new(reader: R) -> StdSource<R> {
        StdSource { reader, faults: 0 }
    }
}

impl<R: Read> Source for StdSource<R> {
    ghost left = { λ s. None };

    ghost faults = { λ s. s.faults };

    fn read(&mut self, buf: &mut [u8]) -> Result<usize, Failed> {
        for _ in 0..u64::MAX {
            match self.reader.read(buf) {
                Ok(count) => return Ok(count),
                Err(fault) if fault.kind() == ErrorKind::Interrupted => {}
                Err(_) => break,
            }
        }
        self.faults = self.faults.saturating_add(1);
        Err(Failed)
    }

    fn faults(&self) -> u64 {
        self.faults
    }
}

/// A sink over a writer. It counts the writes that fail, among them those that take none of the
/// bytes; one that is interrupted is made again.
#[derive(Drop)]
pub struct StdSink<W> {
    writer: W,
    faults: u64,
}

impl<W: Write> StdSink<W> {
    /// A sink over this writer.
    pub fn new(writer: W) -> StdSink<W> {
        StdSink { writer, faults: 0 }
    }
}

impl<W: Write> Sink for StdSink<W> {
    ghost written = { λ s. None };

    ghost faults = { λ s. s.faults };

    fn write(&mut self, bytes: &[u8]) -> Result<usize, Failed> {
        for _ in 0..u64::MAX {
            match self.writer.write(bytes) {
                Ok(count) if count > 0 || bytes.is_empty() => return Ok(count),
                Err(fault) if fault.kind() == ErrorKind::Interrupted => {}
                _ => break,
            }
        }
        self.faults = self.faults.saturating_add(1);
        Err(Failed)
    }

    fn faults(&self) -> u64 {
        self.faults
    }
}
