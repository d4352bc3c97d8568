//! A buffered sink: many short pushes need only a few calls of the inner sink.

ghost use Rattle.std.specs.Prelude.{◌≡◌, ◌≢◌, ◌+◌, ◌-◌, ◌<◌, ◌≤◌, min, [], ◌++◌, length, take};
ghost use Rattle.std.specs.Prelude.{Ok, IfErr, IfOk, IsErr, OnOk, false, true, is_ok, ◌↔◌, ◌⊎◌};
ghost use Rattle.std.specs.Io.KnownBytes.{Appends, Keeps, append_known};
ghost use Rattle.sub_io.specs.Buffered.{BufferedSinkValue, failures_with_refused_calls};
ghost use Rattle.sub_io.specs.Calls.{HasRemainder, PushesBuffered, PutsByPushes, call_answer};
ghost use Rattle.sub_io.specs.Closing.{ClosesInner};
ghost use Rattle.sub_io.specs.Device.{CanFail, CountsFailure, Pushes};

use crate::sink::push_all;
use crate::{Close, Failed, Flush, Sink};
use std::marker::Model;

/// A sink that buffers bytes. It writes them to the inner sink at each flush, and at a push that
/// finds the buffer full. If the buffer is empty, a push of at least its size bypasses it.
///
/// After the first failure of the inner sink, every push, flush and store returns `Failed` and
/// writes nothing more. Dropping or closing the sink writes nothing, so flush it first. A failed
/// call is never repeated, even if it was interrupted. The buffer is borrowed, like the slice of a
/// `MemSink`.
///
/// Its model has the inner sink, the buffered bytes, the buffer's size, whether the inner sink has
/// failed, and the number of calls refused since that failure.
#[derive(Drop)]
pub struct BufferedSink<'a, K> {
    inner: K,
    room: &'a mut [u8],
    // The number of buffered bytes, which are at the start of `room`.
    len: usize,
    failed: bool,
    refused: u64,
}

impl<'a, K> Model for BufferedSink<'a, K> {
    ghost Value = { BufferedSinkValue K };

    ghost view = { λ k. record {
      device = k.inner;
      buffered = take k.len k.room.now;
      room = length k.room.now;
      failed = k.failed;
      refused = k.refused;
    } };

    ghost invariant = { λ k. (k.len ≤ length k.room.now) × (0 < length k.room.now) };
}

impl<'a, K: Sink> BufferedSink<'a, K> {
    /// Creates a sink with an empty buffer of `room.len()` bytes.
    pub fn new(inner: K, room: &'a mut [u8]) -> Self
        requires { 0 < length room.old }
        ensures { result ≡ record {
          device = inner;
          buffered = [];
          room = length room.old;
          failed = false;
          refused = 0;
        } }
    {
        BufferedSink {
            inner,
            room,
            len: 0,
            failed: false,
            refused: 0,
        }
    }

    /// Returns the inner sink. Discards buffered bytes.
    pub fn into_inner(self) -> K
        ensures { result ≡ self.entry.device }
    {
        let BufferedSink { inner, .. } = self;
        inner
    }

    // Pushes bytes into the inner sink directly, bypassing the buffer.
    fn push_through(&mut self, from: &[u8]) -> Result<usize, Failed>
        requires nonempty { 0 < length from.now }
        requires count { CanFail (K.failure_count self.old.device) }
        requires failed { self.old.failed ≡ false }
        ensures call { K.is_push self.old.device from.now (call_answer result) self.new.device }
        ensures some { IfOk result (λ n. 0 < n) }
        ensures bound { IfOk result (λ n. n ≤ length from.now) }
        ensures bytes { Pushes
            (K.contents self.old.device) (K.contents self.new.device) from.now result }
        ensures buffered { self.new.buffered ≡ self.old.buffered }
        ensures failed { IsErr result ↔ (self.new.failed ≡ true) }
        ensures room { self.new.room ≡ self.old.room }
        ensures refused { self.new.refused ≡ self.old.refused }
        ensures count { CountsFailure
            (K.failure_count self.old.device) result (K.failure_count self.new.device) }
    {
        let answer = self.inner.push(from);
        self.failed = answer.is_err();
        answer
    }

    // Appends as many bytes as fit into the buffer, and returns their number.
    fn buffer_bytes(&mut self, from: &[u8]) -> usize
        ensures number { result ≡ min (length from.now) (self.old.room - length self.old.buffered) }
        ensures buffered { self.new.buffered ≡ self.old.buffered ++ take result from.now }
        ensures device { self.new.device ≡ self.old.device }
        ensures room { self.new.room ≡ self.old.room }
        ensures failed { self.new.failed ≡ self.old.failed }
        ensures refused { self.new.refused ≡ self.old.refused }
    {
        let at = self.len;
        let n = from.len().min(self.room.len() - at);
        self.room[at..at + n].copy_from_slice(&from[..n]);
        self.len = at + n;
        n
    }
}

// Pushes the first `len` bytes of the buffer `room` into the sink. If a push fails, returns the
// number of bytes written before it as the error. `room` is not changed; it is `&mut` only because
// the sink and a shared slice of the buffer cannot be borrowed at the same time.
fn push_buffered<K: Sink>(sink: &mut K, room: &mut [u8], len: usize) -> Result<(), usize>
    requires within { len ≤ length room.old }
    requires count { CanFail (K.failure_count sink.old) }
    ensures same { room.new ≡ room.old }
    ensures calls { PutsByPushes K.is_push sink.old (take len room.old) (is_ok result) sink.new }
    ensures ok { OnOk result (Appends
        (K.contents sink.old) (K.contents sink.new) (take len room.old)) }
    ensures err { IfErr result (λ n. (n ≤ len)
        × Appends (K.contents sink.old) (K.contents sink.new) (take n room.old)) }
    ensures count { CountsFailure (K.failure_count sink.old) result (K.failure_count sink.new) }
{
    push_all(sink, &room[..len])
}

impl<K: Sink> Sink for BufferedSink<'_, K> {
    ghost contents = { λ k. append_known (K.contents k.device) k.buffered };

    ghost failure_count = { λ k.
        failures_with_refused_calls (K.failure_count k.device) k.refused };

    ghost is_push = { PushesBuffered K.is_push };

    /// Buffers as many bytes as fit. Flushes first if the buffer is full. If the buffer is empty
    /// and `from` is at least as long as the buffer, pushes directly into the inner sink.
    ///
    /// # Errors
    ///
    /// Returns `Failed` if the inner sink fails, and at each later call.
    fn push(&mut self, from: &[u8]) -> Result<usize, Failed>
        requires nonempty { 0 < length from.now }
        requires count { CanFail (failures_with_refused_calls
            (K.failure_count self.old.device) self.old.refused) }

        // After the inner sink has failed, a call only raises the count of refused calls.
        ensures refused { self.old.failed ≡ true → IsErr result
            × (self.new ≡ record self.old { refused = self.old.refused + 1 }) }
        // Until the inner sink fails, no call is refused, so only its failures are counted.
        ensures inner_failures { self.old.failed ≡ false → (self.new.refused ≡ self.old.refused)
            × CountsFailure
            (K.failure_count self.old.device) result (K.failure_count self.new.device) }
        ensures failed { IsErr result ↔ (self.new.failed ≡ true) }
        // Bytes that fit are buffered without a call of the inner sink.
        ensures buffered { self.old.failed ≡ false
            → length self.old.buffered < self.old.room
            → (self.old.buffered ≢ []) ⊎ (length from.now < self.old.room)
            → (self.new.device ≡ self.old.device)
            × (result ≡ Ok (min (length from.now) (self.old.room - length self.old.buffered)))
            × IfOk result (λ n. self.new.buffered ≡ self.old.buffered ++ take n from.now) }
        // A push of at least the buffer's size goes directly to the inner sink if the buffer is
        // empty.
        ensures writes_device_directly { self.old.failed ≡ false
            → self.old.buffered ≡ []
            → self.old.room ≤ length from.now
            → (self.new.buffered ≡ [])
            × Pushes (K.contents self.old.device) (K.contents self.new.device) from.now result }
        ensures room { self.new.room ≡ self.old.room }

        ensures call { PushesBuffered K.is_push self.old from.now (call_answer result) self.new }
        ensures some { IfOk result (λ n. 0 < n) }
        ensures bound { IfOk result (λ n. n ≤ length from.now) }
        ensures bytes { Pushes
            (append_known (K.contents self.old.device) self.old.buffered)
            (append_known (K.contents self.new.device) self.new.buffered)
            from.now result }
        ensures count { CountsFailure
            (failures_with_refused_calls (K.failure_count self.old.device) self.old.refused)
            result
            (failures_with_refused_calls (K.failure_count self.new.device) self.new.refused) }
    {
        if self.failed {
            self.refused += 1;
            return Err(Failed);
        }
        if self.len == self.room.len() {
            self.flush()?;
        }
        if self.len == 0 && from.len() >= self.room.len() {
            return self.push_through(from);
        }
        Ok(self.buffer_bytes(from))
    }

    /// Returns the number of failed calls of the inner sink, plus the number of calls refused after
    /// the first failure.
    fn failures(&self) -> u64 {
        self.inner.failures().saturating_add(self.refused)
    }
}

impl<K: Sink> Flush for BufferedSink<'_, K> {
    ghost buffered = { λ k. length k.buffered };

    /// Pushes all buffered bytes into the inner sink.
    ///
    /// # Errors
    ///
    /// Returns `Failed` if the inner sink fails, and at each later call.
    fn flush(&mut self) -> Result<(), Failed>
        requires { CanFail (failures_with_refused_calls
            (K.failure_count self.old.device) self.old.refused) }

        // After the inner sink has failed, a call only raises the count of refused calls.
        ensures refused { self.old.failed ≡ true → IsErr result
            × (self.new ≡ record self.old { refused = self.old.refused + 1 }) }
        // Until the inner sink fails, no call is refused, so only its failures are counted.
        ensures inner_failures { self.old.failed ≡ false → (self.new.refused ≡ self.old.refused)
            × CountsFailure
            (K.failure_count self.old.device) result (K.failure_count self.new.device) }
        ensures failed { IsErr result ↔ (self.new.failed ≡ true) }
        ensures calls { self.old.failed ≡ false → PutsByPushes K.is_push
            self.old.device self.old.buffered (is_ok result) self.new.device }
        // If flushing succeeds, all buffered bytes were written to the inner sink.
        ensures whole { OnOk result ((self.new.buffered ≡ [])
            × Appends (K.contents self.old.device) (K.contents self.new.device) self.old.buffered) }
        // If flushing fails, a suffix of the buffered bytes stays in the buffer. The clause `bytes`
        // says that the inner sink took the others, if its contents are known.
        ensures left { IfErr result (λ _. HasRemainder self.old.buffered self.new.buffered) }
        ensures room { self.new.room ≡ self.old.room }

        ensures bytes { Keeps
            (append_known (K.contents self.old.device) self.old.buffered)
            (append_known (K.contents self.new.device) self.new.buffered) }
        ensures buffered { OnOk result (length self.new.buffered ≡ 0) }
        ensures count { CountsFailure
            (failures_with_refused_calls (K.failure_count self.old.device) self.old.refused)
            result
            (failures_with_refused_calls (K.failure_count self.new.device) self.new.refused) }
    {
        if self.failed {
            self.refused += 1;
            return Err(Failed);
        }
        let len = self.len;
        match push_buffered(&mut self.inner, self.room, len) {
            Ok(()) => {
                self.len = 0;
                Ok(())
            }
            Err(taken) => {
                // Keep only the bytes that the inner sink did not take.
                self.room.copy_within(taken..len, 0);
                self.len = len - taken;
                self.failed = true;
                Err(Failed)
            }
        }
    }
}

impl<K: Close> Close for BufferedSink<'_, K> {
    ghost is_stored = { λ k. K.is_stored k.device };

    ghost is_closed = { λ k. K.is_closed k.device };

    ghost is_close = { ClosesInner K.is_close };

    /// Flushes the buffer, and makes the inner sink store all bytes permanently.
    ///
    /// # Errors
    ///
    /// Returns `Failed` if the inner sink fails, and at each later call.
    fn store(&mut self) -> Result<(), Failed>
        requires { CanFail (failures_with_refused_calls
            (K.failure_count self.old.device) self.old.refused) }
        ensures failed { IsErr result ↔ (self.new.failed ≡ true) }
        ensures room { self.new.room ≡ self.old.room }
        ensures bytes { Keeps
            (append_known (K.contents self.old.device) self.old.buffered)
            (append_known (K.contents self.new.device) self.new.buffered) }
        ensures buffered { OnOk result (length self.new.buffered ≡ 0) }
        ensures stored { OnOk result (K.is_stored self.new.device ≡ true) }
        ensures count { CountsFailure
            (failures_with_refused_calls (K.failure_count self.old.device) self.old.refused)
            result
            (failures_with_refused_calls (K.failure_count self.new.device) self.new.refused) }
    {
        self.flush()?;
        let answer = self.inner.store();
        self.failed = answer.is_err();
        answer
    }

    /// Closes the inner sink, without writing the buffered bytes to it.
    fn close(&mut self)
        ensures call { ClosesInner K.is_close self.old self.new }
        ensures closed { K.is_closed self.new.device ≡ true }
        ensures stored { K.is_stored self.new.device ≡ K.is_stored self.old.device }
        ensures device { K.failure_count self.new.device ≡ K.failure_count self.old.device }
        ensures count { failures_with_refused_calls (K.failure_count self.new.device)
            self.new.refused
            ≡ failures_with_refused_calls (K.failure_count self.old.device) self.old.refused }
    {
        self.inner.close();
    }
}
