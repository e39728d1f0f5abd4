//! The readers and writers of `std` as sources and sinks.
ghost use Rattle.std.specs.Prelude.{◌≡◌};

use crate::failures::Failures;
use crate::io::{Failed, Sink, Source};
use std::io::{Read, Write};

/// A reader as a source. Each error of the reader is `Failed`, an interrupted read too.
#[derive(Drop)]
pub struct FromRead<R> {
    reader: R,
    failures: Failures,
}

impl<R: Read> FromRead<R> {
    /// The source of what `reader` has left.
    pub fn new(reader: R) -> FromRead<R>
        ensures remaining { ⟦<FromRead<R> as Source>⟧.remaining result ≡ R.remaining reader }
        ensures failures { ⟦<FromRead<R> as Source>⟧.failures result ≡ 0 }
    {
        FromRead {
            reader,
            failures: Failures::none(),
        }
    }
}

impl<R: Read> Source for FromRead<R> {
    ghost remaining = { λ s. R.remaining s.reader };

    ghost failures = { λ s. s.failures.count };

    fn read(&mut self, buf: &mut [u8]) -> Result<usize, Failed> {
        match self.reader.read(buf) {
            Ok(count) => Ok(count),
            Err(_) => {
                self.failures.add_one();
                Err(Failed)
            }
        }
    }
}

/// A writer as a sink. Each error of the writer is `Failed`, an interrupted write too, and so is a
/// write that took none of some bytes.
#[derive(Drop)]
pub struct ToWrite<W> {
    writer: W,
    failures: Failures,
}

impl<W: Write> ToWrite<W> {
    /// The sink that adds to what `writer` holds.
    pub fn new(writer: W) -> ToWrite<W>
        ensures taken { ⟦<ToWrite<W> as Sink>⟧.taken result ≡ W.contents writer }
        ensures failures { ⟦<ToWrite<W> as Sink>⟧.failures result ≡ 0 }
    {
        ToWrite {
            writer,
            failures: Failures::none(),
        }
    }
}

impl<W: Write> Sink for ToWrite<W> {
    ghost taken = { λ s. W.contents s.writer };

    ghost failures = { λ s. s.failures.count };

    fn write(&mut self, bytes: &[u8]) -> Result<usize, Failed> {
        match self.writer.write(bytes) {
            Ok(count) if count > 0 || bytes.is_empty() => Ok(count),
            _ => {
                self.failures.add_one();
                Err(Failed)
            }
        }
    }
}
