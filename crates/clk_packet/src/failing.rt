//! A source and a sink over memory that fail at a known byte, for tests of what reads and writes.
ghost use Rattle.std.specs.Prelude.{◌≡◌, ◌↔◌, ◌++◌, ◌<◌, ◌≤◌, length, take, drop, min, Some, IsErr, IfOk, OnErr};
ghost use Rattle.std.specs.Io.KnownBytes.{ReadConsumes, WriteAppends};
ghost use Rattle.clk_packet.specs.Io.{failures_after};
ghost use Rattle.clk_packet.specs.Failing.{new_source, source_after_read, source_after_failure, new_sink, sink_after_write, sink_after_failure};

use crate::failures::Failures;
use crate::io::{Failed, Sink, Source};
use std::marker::Model;

/// A source that gives the bytes it was made of, and fails from a known byte on.
#[derive(Drop)]
pub struct FailingSource {
    bytes: Vec<u8>,
    given: usize,
    limit: usize,
    failures: Failures,
}

impl Model for FailingSource {
    ghost use Rattle.std.specs.Prelude.{◌-◌, ◌≤◌, drop, length};
    ghost use Rattle.clk_packet.specs.Failing.{SourceState};

    ghost Value = { SourceState };

    ghost view = { λ s. record {
      left = drop s.given s.bytes.items;
      until = s.limit - s.given;
      failures = s.failures.count;
    } };

    ghost invariant = { λ s. (s.given ≤ length s.bytes.items) × (s.given ≤ s.limit) };
}

impl FailingSource {
    /// The source of `bytes` whose reads fail once it has given `limit` bytes.
    pub fn new(bytes: Vec<u8>, limit: usize) -> FailingSource
        ensures { result ≡ new_source bytes.items limit }
    {
        FailingSource {
            bytes,
            given: 0,
            limit,
            failures: Failures::none(),
        }
    }

    // The bytes that reads give before the end or the failure.
    fn before_failure(&self) -> &[u8]
        ensures { result.now ≡ take self.now.until self.now.left }
    {
        let left = &self.bytes[self.given..];
        &left[..left.len().min(self.limit - self.given)]
    }
}

impl Source for FailingSource {
    ghost remaining = { λ s. Some s.left };

    ghost failures = { λ s. s.failures };

    /// Reads as many bytes as fit into `buf` and are left before the end and the failure, and returns how many.
    ///
    /// # Errors
    ///
    /// `Failed` exactly if the source has given `limit` bytes.
    fn read(&mut self, buf: &mut [u8]) -> Result<usize, Failed>
        ensures bound { IfOk result (λ n. n ≤ length buf.new) }
        ensures bytes { ReadConsumes (Some self.old.left) (Some self.new.left) result buf.new }
        ensures counted { self.new.failures ≡ failures_after result self.old.failures }
        ensures fails { IsErr result ↔ self.old.until ≡ 0 }
        ensures count { IfOk result (λ n. n ≡ min (length buf.old) (min self.old.until (length self.old.left))) }
        ensures gives { IfOk result (λ n. buf.new ≡ take n self.old.left ++ drop n buf.old) }
        ensures moves { IfOk result (λ n. self.new ≡ source_after_read n self.old) }
        ensures stays { OnErr result (self.new ≡ source_after_failure self.old) }
        ensures untouched { OnErr result (buf.new ≡ buf.old) }
    {
        if self.given == self.limit {
            self.failures.add_one();
            return Err(Failed);
        }
        let count = copy_what_fits(self.before_failure(), buf);
        self.given += count;
        Ok(count)
    }
}

/// A sink that writes over the bytes of a buffer, and fails once the buffer is full.
#[derive(Drop)]
pub struct FailingSink {
    buf: Vec<u8>,
    taken: usize,
    failures: Failures,
}

impl Model for FailingSink {
    ghost use Rattle.std.specs.Prelude.{◌-◌, ◌≤◌, take, length};
    ghost use Rattle.clk_packet.specs.Failing.{SinkState};

    ghost Value = { SinkState };

    ghost view = { λ s. record {
      taken = take s.taken s.buf.items;
      room = length s.buf.items - s.taken;
      failures = s.failures.count;
    } };

    ghost invariant = { λ s. s.taken ≤ length s.buf.items };
}

impl FailingSink {
    /// The sink that takes as many bytes as `buf` holds, and fails from then on.
    pub fn new(buf: Vec<u8>) -> FailingSink
        ensures { result ≡ new_sink (length buf.items) }
    {
        FailingSink {
            buf,
            taken: 0,
            failures: Failures::none(),
        }
    }

    /// The bytes taken so far.
    pub fn taken(&self) -> &[u8]
        ensures { result.now ≡ self.now.taken }
    {
        &self.buf[..self.taken]
    }
}

impl Sink for FailingSink {
    ghost taken = { λ s. Some s.taken };

    ghost failures = { λ s. s.failures };

    /// Takes as many of `bytes` as there is room for, and returns how many.
    ///
    /// # Errors
    ///
    /// `Failed` exactly if there is no room left.
    fn write(&mut self, bytes: &[u8]) -> Result<usize, Failed>
        ensures bound { IfOk result (λ n. n ≤ length bytes.now) }
        ensures progress { 0 < length bytes.now → IfOk result (λ n. 0 < n) }
        ensures bytes { WriteAppends (Some self.old.taken) (Some self.new.taken) result bytes.now }
        ensures counted { self.new.failures ≡ failures_after result self.old.failures }
        ensures fails { IsErr result ↔ self.old.room ≡ 0 }
        ensures count { IfOk result (λ n. n ≡ min (length bytes.now) self.old.room) }
        ensures moves { IfOk result (λ n. self.new ≡ sink_after_write (take n bytes.now) self.old) }
        ensures stays { OnErr result (self.new ≡ sink_after_failure self.old) }
    {
        if self.taken == self.buf.len() {
            self.failures.add_one();
            return Err(Failed);
        }
        let count = copy_what_fits(bytes, &mut self.buf[self.taken..]);
        self.taken += count;
        Ok(count)
    }
}

// Copies bytes from the front of `from` over those of `to`, and returns how many.
fn copy_what_fits(from: &[u8], to: &mut [u8]) -> usize
    ensures count { result ≡ min (length from.now) (length to.old) }
    ensures copied { to.new ≡ take result from.now ++ drop result to.old }
{
    let count = from.len().min(to.len());
    to[..count].copy_from_slice(&from[..count]);
    count
}
