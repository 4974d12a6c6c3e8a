//! The system's readers and writers as sources and sinks. Contracts cannot see their bytes: this is the trusted edge.
ghost use Rattle.std.specs.Prelude.{◌≡◌};

use crate::ends::{Sink, Source};
use crate::errors::{EndError, Failed};
use crate::memory::count_empty;
use std::io::{Read, Write};

/// A reader, such as standard input. Each call that the system fails is a fault.
#[derive(Drop)]
pub struct ReadSource<R: Read> {
    reader: R,
    faults: u64,
    empties: u64,
}

impl<R: Read> ReadSource<R> {
    /// A source that reads from `reader`.
    pub fn new(reader: R) -> ReadSource<R>
        ensures faults { result.faults ≡ 0 }
        ensures empties { result.empties ≡ 0 }
    {
        ReadSource {
            reader,
            faults: 0,
            empties: 0,
        }
    }
}

impl<R: Read> Source for ReadSource<R> {
    ghost use Rattle.std.specs.Prelude.{None};

    ghost left = { λ s. None };

    ghost faults = { λ s. s.faults };

    ghost empties = { λ s. s.empties };

    fn take(&mut self, into: &mut [u8]) -> Result<usize, Failed> {
        match self.reader.read(into) {
            Ok(taken) => {
                self.empties = count_empty(taken, self.empties);
                Ok(taken)
            }
            Err(_) => {
                self.faults = self.faults.saturating_add(1);
                Err(Failed)
            }
        }
    }
}

/// A writer, such as standard output. A call is a fault if the system fails it, or accepts none of a non-empty slice.
#[derive(Drop)]
pub struct WriteSink<W: Write> {
    writer: W,
    faults: u64,
}

impl<W: Write> WriteSink<W> {
    /// A sink that writes to `writer`.
    pub fn new(writer: W) -> WriteSink<W>
        ensures { result.faults ≡ 0 }
    {
        WriteSink { writer, faults: 0 }
    }
}

impl<W: Write> Sink for WriteSink<W> {
    ghost use Rattle.std.specs.Prelude.{None};

    ghost held = { λ s. None };

    ghost faults = { λ s. s.faults };

    fn put(&mut self, bytes: &[u8]) -> Result<usize, EndError> {
        match self.writer.write(bytes) {
            Ok(put) if put > 0 || bytes.is_empty() => Ok(put),
            _ => {
                self.faults = self.faults.saturating_add(1);
                Err(EndError::Failed)
            }
        }
    }
}
