//! A buffered source: many short pulls need only a few calls of the inner source.

ghost use Rattle.std.specs.Prelude.{◌≡◌, ◌≢◌, ◌==◌, ◌+◌, ◌<◌, ◌≤◌, min, [], ◌++◌, length, take};
ghost use Rattle.std.specs.Prelude.{slice_range, Ok, Some, None, IfOk, OnErr, MatchResult};
ghost use Rattle.std.specs.Prelude.{◌↔◌, drop, false, true};
ghost use Rattle.std.specs.Io.{ReadsAtMost};
ghost use Rattle.std.specs.Io.KnownBytes.{Consumes, IsAtEnd, Keeps, prepend_known};
ghost use Rattle.sub_io.specs.Buffered.{BufferedSourceValue};
ghost use Rattle.sub_io.specs.Calls.{PullsBuffered, call_answer};
ghost use Rattle.sub_io.specs.Device.{CanFail, CountsFailure, SkipsOver, Pulls};
ghost use Rattle.sub_io.specs.Borrowed.{AreBorrowedPrefix, PullsBorrowed};
ghost use Rattle.sub_io.specs.Reading.{AreNextBytes};

use crate::{Failed, Source};
use std::marker::Model;

/// A source that fills its buffer from the inner source, and serves pulls from it.
///
/// A pull calls the inner source at most once, and only if the buffer is empty. If such a pull is
/// at least as long as the buffer, it bypasses the buffer. A failed call is never repeated, even if
/// it was interrupted. The buffer is borrowed, like the slice of a `MemSink`.
///
/// Its model has the inner source, the buffered bytes and the buffer's size.
#[derive(Drop)]
pub struct BufferedSource<'a, S> {
    inner: S,
    room: &'a mut [u8],
    // The buffered bytes are `room[start..end]`.
    start: usize,
    end: usize,
}

impl<'a, S> Model for BufferedSource<'a, S> {
    ghost Value = { BufferedSourceValue S };

    ghost view = { λ s. record {
      device = s.inner;
      buffered = slice_range s.room.now s.start s.end;
      room = length s.room.now;
    } };

    ghost invariant = { λ s. (s.start ≤ s.end) × (s.end ≤ length s.room.now) };
}

impl<'a, S: Source> BufferedSource<'a, S> {
    /// Creates a source with an empty buffer of `room.len()` bytes.
    pub fn new(inner: S, room: &'a mut [u8]) -> Self
        requires { 0 < length room.old }
        ensures { result ≡ record { device = inner; buffered = []; room = length room.old } }
    {
        BufferedSource {
            inner,
            room,
            start: 0,
            end: 0,
        }
    }

    /// Returns the inner source. Discards buffered bytes.
    pub fn into_inner(self) -> S
        ensures { result ≡ self.entry.device }
    {
        let BufferedSource { inner, .. } = self;
        inner
    }

    // Reads bytes into the empty buffer by one call of the inner source.
    #[tactic(auto, using(crate::proofs::BufferLemmas::empty_range_stays_empty))]
    fn refill(&mut self) -> Result<(), Failed>
        requires empty { self.old.buffered ≡ [] }
        requires count { CanFail (S.failure_count self.old.device) }
        ensures call { MatchResult result
            (λ _. S.is_pull self.old.device self.old.room (Some (length self.new.buffered))
            self.new.device)
            (λ _. S.is_pull self.old.device self.old.room None self.new.device) }
        ensures room { self.new.room ≡ self.old.room }
        ensures bytes { IfOk result (λ _. Consumes
            (S.remaining self.old.device) (S.remaining self.new.device) self.new.buffered) }
        ensures end { IfOk result (λ _. self.new.buffered ≡ [] → 0 < self.old.room
            → IsAtEnd (S.remaining self.new.device)) }
        ensures err { OnErr result ((self.new.buffered ≡ [])
            × Keeps (S.remaining self.old.device) (S.remaining self.new.device)) }
        ensures count { CountsFailure
            (S.failure_count self.old.device) result (S.failure_count self.new.device) }
    {
        let n = self.inner.pull(self.room)?;
        self.start = 0;
        self.end = n;
        Ok(())
    }

    // Moves as many buffered bytes as fit into `to`, and returns their number.
    fn move_buffered(&mut self, to: &mut [u8]) -> usize
        ensures number { result ≡ min (length self.old.buffered) (length to.old) }
        ensures len { length to.new ≡ length to.old }
        ensures bytes { self.old.buffered ≡ take result to.new ++ self.new.buffered }
        ensures device { self.new.device ≡ self.old.device }
        ensures room { self.new.room ≡ self.old.room }
    {
        let (start, end) = (self.start, self.end);
        let n = to.len().min(end - start);
        copy_range(self.room, start, &mut to[..n]);
        self.start = start + n;
        n
    }
}

// Copies `to.len()` bytes of the buffer `room`, from `start` on. `room` is not changed; it is
// `&mut` only because the contents of a shared slice in `self` are not known to stay the same.
fn copy_range(room: &mut [u8], start: usize, to: &mut [u8])
    requires { start + length to.old ≤ length room.old }
    ensures same { room.new ≡ room.old }
    ensures len { length to.new ≡ length to.old }
    ensures bytes { to.new ≡ slice_range room.old start (start + length to.old) }
{
    let end = start + to.len();
    to.copy_from_slice(&room[start..end]);
}

impl<S: Source> Source for BufferedSource<'_, S> {
    ghost remaining = { λ s. prepend_known s.buffered (S.remaining s.device) };

    ghost failure_count = { λ s. S.failure_count s.device };

    ghost is_pull = { PullsBuffered S.is_pull };

    ghost borrowed = { λ s. s.buffered };

    /// Returns buffered bytes. If the buffer is empty, calls the inner source once, and reads
    /// directly into `to` if `to` is at least as long as the buffer.
    ///
    /// # Errors
    ///
    /// Returns `Failed` if the buffer is empty and the inner source fails.
    #[inline(always)]
    fn pull(&mut self, to: &mut [u8]) -> Result<usize, Failed>
        requires { CanFail (S.failure_count self.old.device) }

        // If bytes are buffered, a pull returns them without a call of the inner source.
        ensures buffered { self.old.buffered ≢ [] → (self.new.device ≡ self.old.device)
            × (result ≡ Ok (min (length self.old.buffered) (length to.old)))
            × IfOk result (λ n. self.old.buffered ≡ take n to.new ++ self.new.buffered) }
        // If the buffer is empty, the bytes that the inner source returns are returned or buffered.
        // After a failure the buffer is empty.
        ensures consumes_inner { self.old.buffered ≡ [] → IfOk result (λ n. Consumes
            (S.remaining self.old.device) (S.remaining self.new.device)
            (take n to.new ++ self.new.buffered)) }
        ensures err { OnErr result ((self.old.buffered ≡ []) × (self.new.buffered ≡ [])) }
        // If the buffer is empty, a pull of at least its size bypasses it. After a pull, bytes are
        // left in the buffer only if `to` was filled.
        ensures reads_device_directly { self.old.buffered ≡ [] → self.old.room ≤ length to.old →
            self.new.buffered ≡ [] }
        ensures full { IfOk result (λ n. n < length to.old → self.new.buffered ≡ []) }
        ensures room { self.new.room ≡ self.old.room }

        ensures call { PullsBuffered S.is_pull self.old (length to.old) (call_answer result)
            self.new }
        ensures bound { ReadsAtMost result to.new }
        ensures bytes { Pulls
            (prepend_known self.old.buffered (S.remaining self.old.device))
            (prepend_known self.new.buffered (S.remaining self.new.device))
            to.new result }
        ensures borrowed { PullsBorrowed self.old.buffered self.new.buffered to.new result }
        ensures count { CountsFailure
            (S.failure_count self.old.device) result (S.failure_count self.new.device) }
    {
        if self.start == self.end {
            if to.len() >= self.room.len() {
                return self.inner.pull(to);
            }
            self.refill()?;
        }
        Ok(self.move_buffered(to))
    }

    /// Returns the number of failed calls of the inner source.
    fn failures(&self) -> u64 {
        self.inner.failures()
    }

    /// Returns all buffered bytes.
    #[inline(always)]
    fn buffered(&self) -> &[u8]
        ensures all { result.now ≡ self.now.buffered }
        ensures bytes { AreNextBytes result.now
            (prepend_known self.now.buffered (S.remaining self.now.device)) }
        ensures borrowed { AreBorrowedPrefix result.now self.now.buffered }
    {
        &self.room[self.start..self.end]
    }

    /// Skips `count` buffered bytes without a call of the inner source. Returns `false` and does
    /// nothing if fewer bytes are buffered.
    #[inline(always)]
    fn skip_bytes(&mut self, count: usize) -> bool
        requires some { 0 < count }
        requires count { CanFail (S.failure_count self.old.device) }
        ensures buffered { (result ≡ true) ↔ (count ≤ length self.old.buffered) }
        ensures skipped { result ≡ true → (self.new.buffered ≡ drop count self.old.buffered)
            × (self.new.device ≡ self.old.device) × (self.new.room ≡ self.old.room) }
        ensures call { result ≡ true →
            PullsBuffered S.is_pull self.old count (Some count) self.new }
        ensures bytes { result ≡ true → SkipsOver
            (prepend_known self.old.buffered (S.remaining self.old.device)) count
            (prepend_known self.new.buffered (S.remaining self.new.device)) }
        ensures none { result ≡ false → self.new ≡ self.old }
        ensures count { S.failure_count self.new.device ≡ S.failure_count self.old.device }
    {
        if self.end - self.start < count {
            return false;
        }
        self.start += count;
        true
    }
}
