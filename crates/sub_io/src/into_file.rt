//! An output file that can be stored permanently, and closed before it is dropped.

ghost use Rattle.std.specs.Prelude.{◌≡◌, ◌+◌, ◌<◌, ◌≤◌, IfOk, IfSome, IsErr, None, OnOk, Option};
ghost use Rattle.std.specs.Prelude.{Some, [], false, is_none, length, true};
ghost use Rattle.std.specs.Io.KnownBytes.{Keeps};
ghost use Rattle.sub_io.specs.Closing.{Releases};
ghost use Rattle.sub_io.specs.Counted.{FileValue, contents_while_open};
ghost use Rattle.sub_io.specs.Device.{CanFail, CountsFailure, Pushes, zero_buffered_bytes};

use crate::taken::{WrittenBytes, WrittenChunk};
use crate::{Close, Failed, Flush, Release, Sink, Store};
use std::io::Write;
use std::marker::Model;

/// A sink over a std writer, such as a file, whose bytes can be stored permanently, and that can be
/// closed. Each push before `close` calls `write` once.
///
/// Every error of the writer is a failure, including `Interrupted`. A write of 0 bytes, a `store`
/// that loses bytes, and each push, flush and store after `close` are failures too.
///
/// Its model has the writer (until it is closed), the bytes that the writer reported as written,
/// whether they were reported as stored, and the failure count.
#[derive(Drop)]
pub struct IntoFile<W> {
    inner: Option<W>,
    taken: WrittenBytes,
    is_stored: bool,
    failures: u64,
}

impl<W> Model for IntoFile<W> {
    ghost Value = { FileValue W };

    ghost view = { λ s. record {
      device = s.inner;
      taken = s.taken.bytes;
      is_stored = s.is_stored;
      failure_count = s.failures;
    } };
}

impl<W: Write> IntoFile<W> {
    /// Creates a sink that writes to `inner`, with a failure count of 0.
    pub fn new(inner: W) -> Self
        ensures { result ≡ record {
          device = Some inner;
          taken = [];
          is_stored = false;
          failure_count = 0;
        } }
    {
        IntoFile {
            inner: Some(inner),
            taken: WrittenBytes::nothing(),
            is_stored: false,
            failures: 0,
        }
    }
}

impl<W: Write> Sink for IntoFile<W> {
    ghost contents = { λ s. Some s.taken };

    ghost failure_count = { λ s. s.failure_count };

    /// Calls the writer's `write` once. The written bytes are not stored yet.
    ///
    /// # Errors
    ///
    /// Returns `Failed` if the writer returns an error or writes no byte, and after `close`.
    fn push(&mut self, from: &[u8]) -> Result<usize, Failed>
        requires nonempty { 0 < length from.now }
        requires count { CanFail self.old.failure_count }
        ensures closed { self.old.device ≡ None → IsErr result × (self.new.device ≡ None) }
        // If the writer's contents are known, they agree with the reported number of bytes.
        ensures writer { Pushes (contents_while_open W.contents self.old.device)
            (contents_while_open W.contents self.new.device) from.now result }
        ensures stored { OnOk result (self.new.is_stored ≡ false) }
        ensures some { IfOk result (λ n. 0 < n) }
        ensures bound { IfOk result (λ n. n ≤ length from.now) }
        ensures bytes { Pushes (Some self.old.taken) (Some self.new.taken) from.now result }
        ensures count { CountsFailure self.old.failure_count result self.new.failure_count }
    {
        let Some(writer) = &mut self.inner else {
            self.failures += 1;
            return Err(Failed);
        };
        match writer.write(from) {
            Ok(n) if n > 0 => {
                let (bytes, _) = from.split_at(n);
                self.taken = self.taken.and(&WrittenChunk { bytes });
                self.is_stored = false;
                Ok(n)
            }
            _ => {
                self.failures += 1;
                Err(Failed)
            }
        }
    }

    /// Returns the number of pushes, flushes and stores that failed, wrote no byte, lost bytes or
    /// came after `close`.
    fn failures(&self) -> u64 {
        self.failures
    }
}

impl<W: Write> Flush for IntoFile<W> {
    // Nothing is buffered, since every push calls `write`.
    ghost buffered = { zero_buffered_bytes };

    /// Flushes the writer.
    ///
    /// # Errors
    ///
    /// Returns `Failed` if the writer returns an error, and after `close`.
    fn flush(&mut self) -> Result<(), Failed>
        requires { CanFail self.old.failure_count }
        ensures closed { self.old.device ≡ None → IsErr result × (self.new.device ≡ None) }
        ensures writer { Keeps (contents_while_open W.contents self.old.device)
            (contents_while_open W.contents self.new.device) }
        ensures stored { self.new.is_stored ≡ self.old.is_stored }
        ensures taken { self.new.taken ≡ self.old.taken }
        ensures bytes { Keeps (Some self.old.taken) (Some self.new.taken) }
        ensures buffered { OnOk result (zero_buffered_bytes self.new ≡ 0) }
        ensures count { CountsFailure self.old.failure_count result self.new.failure_count }
    {
        let Some(writer) = &mut self.inner else {
            self.failures += 1;
            return Err(Failed);
        };
        if writer.flush().is_err() {
            self.failures += 1;
            return Err(Failed);
        }
        Ok(())
    }
}

impl<W: Write + Release + Store> Close for IntoFile<W> {
    ghost is_stored = { λ s. s.is_stored };

    ghost is_closed = { λ s. is_none s.device };

    ghost is_close = { Releases W.is_released };

    /// Flushes the writer, and makes the system store all written bytes permanently.
    ///
    /// # Errors
    ///
    /// Returns `Failed` if the writer returns an error or bytes are lost, and after `close`.
    fn store(&mut self) -> Result<(), Failed>
        requires { CanFail self.old.failure_count }
        ensures closed { self.old.device ≡ None → IsErr result × (self.new.device ≡ None) }
        // If storing succeeds, the writer, in its final state, has reported that no byte was lost.
        ensures call { OnOk result (IfSome self.new.device (λ writer. W.is_store writer true)) }
        ensures bytes { Keeps (Some self.old.taken) (Some self.new.taken) }
        ensures buffered { OnOk result (zero_buffered_bytes self.new ≡ 0) }
        ensures stored { OnOk result (self.new.is_stored ≡ true) }
        ensures count { CountsFailure self.old.failure_count result self.new.failure_count }
    {
        self.flush()?;
        let is_saved = match &self.inner {
            Some(writer) => writer.store(),
            None => false,
        };
        if !is_saved {
            self.failures += 1;
            return Err(Failed);
        }
        self.is_stored = true;
        Ok(())
    }

    /// Drops the writer in its current state. Dropping a file closes it.
    fn close(&mut self)
        ensures call { Releases W.is_released self.old self.new }
        ensures closed { self.new ≡ record self.old { device = None } }
    {
        if let Some(writer) = self.inner.take() {
            writer.release();
        }
    }
}
