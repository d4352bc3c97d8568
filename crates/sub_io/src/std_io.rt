//! Devices over std's readers and writers: files, standard input and output.
//!
//! A failed call is never repeated, even if it was interrupted. Retries would hide a device that
//! never recovers, and would need a limit.

ghost use Rattle.std.specs.Prelude.{◌≡◌, ◌+◌, ◌<◌, ◌≤◌, [], ◌++◌, IfOk, OnOk, Some, length, take};
ghost use Rattle.std.specs.Prelude.{IsErr};
ghost use Rattle.std.specs.Io.KnownBytes.{Keeps};
ghost use Rattle.sub_io.specs.Counted.{Counted, WriterValue};
ghost use Rattle.sub_io.specs.Device.{CanFail, CountsFailure, Pushes, zero_buffered_bytes};

use crate::taken::{WrittenBytes, WrittenChunk};
use crate::{Failed, Flush, Sink, Source};
use std::io::{Read, Write};
use std::marker::Model;

/// A source over a std reader, such as a file. Each pull calls `read` once.
///
/// Every error of the reader is a failure, including `Interrupted`.
///
/// Its model has the reader and the failure count.
#[derive(Drop)]
pub struct FromRead<R> {
    inner: R,
    failures: u64,
}

impl<R> Model for FromRead<R> {
    ghost Value = { Counted R };

    ghost view = { λ s. record { device = s.inner; failure_count = s.failures } };
}

impl<R: Read> FromRead<R> {
    /// Creates a source that reads from `inner`, with a failure count of 0.
    pub fn new(inner: R) -> Self
        ensures { result ≡ record { device = inner; failure_count = 0 } }
    {
        FromRead { inner, failures: 0 }
    }
}

impl<R: Read> Source for FromRead<R> {
    ghost remaining = { λ s. R.remaining s.device };

    ghost failure_count = { λ s. s.failure_count };

    /// Calls the reader's `read` once.
    ///
    /// # Errors
    ///
    /// Returns `Failed` if the reader returns an error.
    fn pull(&mut self, to: &mut [u8]) -> Result<usize, Failed> {
        match self.inner.read(to) {
            Ok(n) => Ok(n),
            Err(_) => {
                self.failures += 1;
                Err(Failed)
            }
        }
    }

    /// Returns the number of failed reads.
    fn failures(&self) -> u64 {
        self.failures
    }

    /// Returns `false`, since no bytes can be borrowed from this source.
    fn skip_bytes(&mut self, _count: usize) -> bool {
        false
    }
}

/// A sink over a std writer. Each push calls `write` once, and `flush` calls the writer's `flush`.
///
/// Every error of the writer is a failure, including `Interrupted`. A write of 0 bytes is a failure
/// too.
///
/// Its model has the writer, the bytes that the writer reported as written, and the failure count.
#[derive(Drop)]
pub struct IntoWrite<W> {
    inner: W,
    taken: WrittenBytes,
    failures: u64,
}

impl<W> Model for IntoWrite<W> {
    ghost Value = { WriterValue W };

    ghost view = { λ s. record {
      device = s.inner;
      taken = s.taken.bytes;
      failure_count = s.failures;
    } };
}

impl<W: Write> IntoWrite<W> {
    /// Creates a sink that writes to `inner`, with a failure count of 0.
    pub fn new(inner: W) -> Self
        ensures { result ≡ record { device = inner; taken = []; failure_count = 0 } }
    {
        IntoWrite {
            inner,
            taken: WrittenBytes::nothing(),
            failures: 0,
        }
    }
}

impl<W: Write> Sink for IntoWrite<W> {
    ghost contents = { λ s. Some s.taken };

    ghost failure_count = { λ s. s.failure_count };

    /// Calls the writer's `write` once.
    ///
    /// # Errors
    ///
    /// Returns `Failed` if the writer returns an error or writes no byte.
    fn push(&mut self, from: &[u8]) -> Result<usize, Failed>
        requires nonempty { 0 < length from.now }
        requires count { CanFail self.old.failure_count }
        // If the writer's contents are known, they agree with the reported number of bytes.
        ensures writer { Pushes (W.contents self.old.device) (W.contents self.new.device)
            from.now result }
        ensures some { IfOk result (λ n. 0 < n) }
        ensures bound { IfOk result (λ n. n ≤ length from.now) }
        ensures bytes { Pushes (Some self.old.taken) (Some self.new.taken) from.now result }
        ensures count { CountsFailure self.old.failure_count result self.new.failure_count }
    {
        match self.inner.write(from) {
            Ok(n) if n > 0 => {
                let (bytes, _) = from.split_at(n);
                self.taken = self.taken.and(&WrittenChunk { bytes });
                Ok(n)
            }
            _ => {
                self.failures += 1;
                Err(Failed)
            }
        }
    }

    /// Returns the number of writes that failed or wrote no byte, plus the number of failed
    /// flushes.
    fn failures(&self) -> u64 {
        self.failures
    }
}

impl<W: Write> Flush for IntoWrite<W> {
    // Nothing is buffered, since every push calls `write`. A buffer inside the writer is not
    // counted: a file of the operating system has none, but a buffered writer of std has one.
    ghost buffered = { zero_buffered_bytes };

    /// Flushes the writer.
    ///
    /// # Errors
    ///
    /// Returns `Failed` if the writer returns an error.
    fn flush(&mut self) -> Result<(), Failed>
        requires { CanFail self.old.failure_count }
        ensures writer { Keeps (W.contents self.old.device) (W.contents self.new.device) }
        ensures bytes { Keeps (Some self.old.taken) (Some self.new.taken) }
        ensures buffered { OnOk result (zero_buffered_bytes self.new ≡ 0) }
        ensures count { CountsFailure self.old.failure_count result self.new.failure_count }
    {
        if self.inner.flush().is_err() {
            self.failures += 1;
            return Err(Failed);
        }
        Ok(())
    }
}
