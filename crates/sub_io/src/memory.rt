//! Devices over memory: a source that reads a slice, and a sink that fills one.

ghost use Rattle.std.specs.Prelude.{◌≡◌, ℕ, ◌+◌, ◌-◌, ◌<◌, ◌≤◌, min, List, [], length, take, Ok};
ghost use Rattle.std.specs.Prelude.{IfOk, IsErr, OnOk, Some, false, true, ◌↔◌, drop};
ghost use Rattle.std.specs.Io.{ReadsAtMost};
ghost use Rattle.std.specs.Io.KnownBytes.{Keeps};
ghost use Rattle.sub_io.specs.Closing.{needs_no_store};
ghost use Rattle.sub_io.specs.Device.{CanFail, CountsFailure, SkipsOver, Pulls, Pushes};
ghost use Rattle.sub_io.specs.Device.{zero_buffered_bytes};
ghost use Rattle.sub_io.specs.Borrowed.{AreBorrowedPrefix, PullsBorrowed};
ghost use Rattle.sub_io.specs.Reading.{AreNextBytes};
ghost use Rattle.sub_io.specs.Memory.{MemSinkValue};

use crate::{Close, Failed, Flush, Sink, Source};
use std::marker::Model;

/// A source that reads a slice. Its calls never fail.
///
/// Its model is the list of the remaining bytes.
#[derive(Drop)]
pub struct MemSource<'a> {
    rest: &'a [u8],
}

impl<'a> Model for MemSource<'a> {
    ghost Value = { List ℕ };

    ghost view = { λ s. s.rest.now };
}

impl<'a> MemSource<'a> {
    /// Creates a source that reads `bytes` from the start.
    pub fn new(bytes: &'a [u8]) -> Self
        ensures { result ≡ bytes.now }
    {
        MemSource { rest: bytes }
    }
}

impl Source for MemSource<'_> {
    ghost remaining = { λ s. Some s };

    ghost failure_count = { λ _. 0 };

    ghost borrowed = { λ s. s };

    /// Reads as many bytes as fit in `to`, or all remaining bytes. Never fails.
    fn pull(&mut self, to: &mut [u8]) -> Result<usize, Failed>
        ensures all { result ≡ Ok (min (length self.old) (length to.old)) }
        ensures bound { ReadsAtMost result to.new }
        ensures bytes { Pulls (Some self.old) (Some self.new) to.new result }
        ensures borrowed { PullsBorrowed self.old self.new to.new result }
        ensures count { CountsFailure 0 result 0 }
    {
        let n = self.rest.len().min(to.len());
        let (given, rest) = self.rest.split_at(n);
        to[..n].copy_from_slice(given);
        self.rest = rest;
        Ok(n)
    }

    /// Returns 0, since no call of this source fails.
    fn failures(&self) -> u64 {
        0
    }

    /// Returns all remaining bytes.
    fn buffered(&self) -> &[u8]
        ensures all { result.now ≡ self.now }
        ensures bytes { AreNextBytes result.now (Some self.now) }
        ensures borrowed { AreBorrowedPrefix result.now self.now }
    {
        self.rest
    }

    /// Skips `count` bytes if at least `count` bytes remain in the slice.
    #[tactic(auto, using(crate::proofs::BufferLemmas::skipping_drops_memory_prefix))]
    fn skip_bytes(&mut self, count: usize) -> bool
        ensures buffered { (result ≡ true) ↔ (count ≤ length self.old) }
        ensures skipped { result ≡ true → self.new ≡ drop count self.old }
        ensures bytes { result ≡ true → SkipsOver (Some self.old) count (Some self.new) }
        ensures none { result ≡ false → self.new ≡ self.old }
    {
        if self.rest.len() < count {
            return false;
        }
        let (_, left) = self.rest.split_at(count);
        self.rest = left;
        true
    }
}

/// A sink that writes to a slice, and fails when the slice is full.
///
/// Its model has the bytes written, the size of the slice and the failure count.
#[derive(Drop)]
pub struct MemSink<'a> {
    room: &'a mut [u8],
    len: usize,
    failures: u64,
}

impl<'a> Model for MemSink<'a> {
    ghost Value = { MemSinkValue };

    ghost view = { λ k. record {
      bytes = take k.len k.room.now;
      room = length k.room.now;
      failure_count = k.failures;
    } };

    ghost invariant = { λ k. k.len ≤ length k.room.now };
}

impl<'a> MemSink<'a> {
    /// Creates an empty sink for `room.len()` bytes.
    ///
    /// The contents of `room` are unspecified after the sink is dropped; use `written` before that.
    pub fn new(room: &'a mut [u8]) -> Self
        ensures { result ≡ record { bytes = []; room = length room.old; failure_count = 0 } }
    {
        MemSink {
            room,
            len: 0,
            failures: 0,
        }
    }

    /// Returns the bytes written to the sink, in order.
    pub fn written(&self) -> &[u8]
        ensures { result.now ≡ self.now.bytes }
    {
        &self.room[..self.len]
    }
}

impl Sink for MemSink<'_> {
    ghost contents = { λ k. Some k.bytes };

    ghost failure_count = { λ k. k.failure_count };

    /// Takes as many bytes as fit in the slice.
    ///
    /// # Errors
    ///
    /// Returns `Failed` only if the slice is full.
    fn push(&mut self, from: &[u8]) -> Result<usize, Failed>
        requires nonempty { 0 < length from.now }
        requires count { CanFail self.old.failure_count }
        ensures full { IsErr result ↔ (length self.old.bytes ≡ self.old.room) }
        ensures all { IfOk result (λ n.
            n ≡ min (length from.now) (self.old.room - length self.old.bytes)) }
        ensures room { self.new.room ≡ self.old.room }
        ensures some { IfOk result (λ n. 0 < n) }
        ensures bound { IfOk result (λ n. n ≤ length from.now) }
        ensures bytes { Pushes (Some self.old.bytes) (Some self.new.bytes) from.now result }
        ensures count { CountsFailure self.old.failure_count result self.new.failure_count }
    {
        let n = from.len().min(self.room.len() - self.len);
        if n == 0 {
            self.failures += 1;
            return Err(Failed);
        }
        self.room[self.len..self.len + n].copy_from_slice(&from[..n]);
        self.len += n;
        Ok(n)
    }

    /// Returns the number of pushes that failed because the slice was full.
    fn failures(&self) -> u64 {
        self.failures
    }
}

impl Flush for MemSink<'_> {
    ghost buffered = { zero_buffered_bytes };

    /// Does nothing, since a sink over memory buffers no byte. Never fails.
    fn flush(&mut self) -> Result<(), Failed>
        ensures ok { result ≡ Ok tt }
        ensures same { self.new ≡ self.old }
        ensures bytes { Keeps (Some self.old.bytes) (Some self.new.bytes) }
        ensures buffered { OnOk result (zero_buffered_bytes self.new ≡ 0) }
        ensures count { CountsFailure self.old.failure_count result self.new.failure_count }
    {
        Ok(())
    }
}

impl Close for MemSink<'_> {
    ghost is_stored = { needs_no_store };

    ghost is_closed = { λ _. true };

    ghost is_close = { λ old new. new ≡ old };

    /// Does nothing, since memory needs no storing. Never fails.
    fn store(&mut self) -> Result<(), Failed>
        ensures ok { result ≡ Ok tt }
        ensures same { self.new ≡ self.old }
        ensures bytes { Keeps (Some self.old.bytes) (Some self.new.bytes) }
        ensures buffered { OnOk result (zero_buffered_bytes self.new ≡ 0) }
        ensures stored { OnOk result (needs_no_store self.new ≡ true) }
        ensures count { CountsFailure self.old.failure_count result self.new.failure_count }
    {
        Ok(())
    }

    /// Does nothing, since memory needs no closing.
    fn close(&mut self)
        ensures { self.new ≡ self.old }
    {}
}
