//! A device with one failing call, for testing code that uses devices.

ghost use Rattle.std.specs.Prelude.{◌≡◌, ◌<◌, ◌≤◌, length, Some, IfOk, IsErr, OnOk};
ghost use Rattle.std.specs.Prelude.{false, true};
ghost use Rattle.std.specs.Io.{ReadsAtMost};
ghost use Rattle.std.specs.Io.KnownBytes.{Keeps};
ghost use Rattle.sub_io.specs.Calls.{ForwardsUnlessFailing, call_answer};
ghost use Rattle.sub_io.specs.Countdown.{CountingDown, failures_with_injected, fails_next};
ghost use Rattle.sub_io.specs.Countdown.{countdown_after};
ghost use Rattle.sub_io.specs.Device.{CanFail, CountsFailure, Pulls, Pushes};

use crate::{Close, Failed, Flush, Sink, Source};
use std::marker::Model;

/// A device that forwards every call except one to the inner device. The excepted call does nothing
/// and returns `Failed`.
///
/// `FailAt` implements the traits of the inner device (`Source`, `Sink`, `Flush`, `Close`). The
/// calls are pulls, pushes, flushes and stores. `close` is always forwarded, and no bytes can be
/// borrowed from the device or skipped in it. Its model has the inner device and the countdown.
#[derive(Drop)]
pub struct FailAt<D> {
    inner: D,
    // The number of calls before the failing call. `None` after the failing call.
    left: Option<u64>,
}

impl<D> Model for FailAt<D> {
    ghost Value = { CountingDown D };

    ghost view = { λ d. record { device = d.inner; left = d.left } };
}

impl<D> FailAt<D> {
    /// Creates a device whose call number `k` fails, counted from 0.
    pub fn new(inner: D, k: u64) -> Self
        ensures { result ≡ record { device = inner; left = Some k } }
    {
        FailAt {
            inner,
            left: Some(k),
        }
    }

    // Counts one call. Returns whether it is the failing call.
    fn count_call(&mut self) -> bool
        ensures device { self.new.device ≡ self.old.device }
        ensures is_failing_call { result ≡ fails_next self.old.left }
        ensures left { self.new.left ≡ countdown_after self.old.left }
    {
        match self.left {
            None => false,
            Some(0) => {
                self.left = None;
                true
            }
            Some(k) => {
                self.left = Some(k - 1);
                false
            }
        }
    }

    // Returns the failure count `inner`, plus one if the failing call has happened.
    fn add_injected_failure(&self, inner: u64) -> u64
        ensures { result ≡ failures_with_injected self.now.left inner }
    {
        if self.left.is_some() {
            inner
        } else {
            inner.saturating_add(1)
        }
    }
}

impl<S: Source> Source for FailAt<S> {
    ghost remaining = { λ d. S.remaining d.device };

    ghost failure_count = { λ d. failures_with_injected d.left (S.failure_count d.device) };

    ghost is_pull = { ForwardsUnlessFailing S.is_pull };

    /// Pulls from the inner device.
    ///
    /// # Errors
    ///
    /// Returns `Failed` at the failing call, which does nothing, and if the inner device fails.
    fn pull(&mut self, to: &mut [u8]) -> Result<usize, Failed>
        requires { CanFail (failures_with_injected self.old.left
            (S.failure_count self.old.device)) }

        // The failing call does nothing, and every other call is forwarded. The countdown includes
        // each call up to the failing call.
        ensures fails { fails_next self.old.left ≡ true →
            IsErr result × (self.new.device ≡ self.old.device) × (to.new ≡ to.old) }
        ensures forwarded { fails_next self.old.left ≡ false → CountsFailure
            (S.failure_count self.old.device) result (S.failure_count self.new.device) }
        ensures left { self.new.left ≡ countdown_after self.old.left }

        ensures call { ForwardsUnlessFailing S.is_pull self.old (length to.old)
            (call_answer result) self.new }
        ensures bound { ReadsAtMost result to.new }
        ensures bytes { Pulls
            (S.remaining self.old.device) (S.remaining self.new.device) to.new result }
        ensures count { CountsFailure
            (failures_with_injected self.old.left (S.failure_count self.old.device))
            result
            (failures_with_injected self.new.left (S.failure_count self.new.device)) }
    {
        if self.count_call() {
            return Err(Failed);
        }
        self.inner.pull(to)
    }

    /// Returns the failure count of the inner device, plus one after the failing call.
    fn failures(&self) -> u64 {
        self.add_injected_failure(self.inner.failures())
    }

    /// Returns `false`, since no bytes can be borrowed from this device.
    fn skip_bytes(&mut self, _count: usize) -> bool {
        false
    }
}

impl<K: Sink> Sink for FailAt<K> {
    ghost contents = { λ d. K.contents d.device };

    ghost failure_count = { λ d. failures_with_injected d.left (K.failure_count d.device) };

    ghost is_push = { ForwardsUnlessFailing K.is_push };

    /// Pushes into the inner device.
    ///
    /// # Errors
    ///
    /// Returns `Failed` at the failing call, which does nothing, and if the inner device fails.
    fn push(&mut self, from: &[u8]) -> Result<usize, Failed>
        requires nonempty { 0 < length from.now }
        requires count { CanFail
            (failures_with_injected self.old.left (K.failure_count self.old.device)) }

        // The failing call does nothing, and every other call is forwarded. The countdown includes
        // each call up to the failing call.
        ensures fails { fails_next self.old.left ≡ true →
            IsErr result × (self.new.device ≡ self.old.device) }
        ensures forwarded { fails_next self.old.left ≡ false → CountsFailure
            (K.failure_count self.old.device) result (K.failure_count self.new.device) }
        ensures left { self.new.left ≡ countdown_after self.old.left }

        ensures call { ForwardsUnlessFailing K.is_push self.old from.now (call_answer result)
            self.new }
        ensures some { IfOk result (λ n. 0 < n) }
        ensures bound { IfOk result (λ n. n ≤ length from.now) }
        ensures bytes { Pushes
            (K.contents self.old.device) (K.contents self.new.device) from.now result }
        ensures count { CountsFailure
            (failures_with_injected self.old.left (K.failure_count self.old.device))
            result
            (failures_with_injected self.new.left (K.failure_count self.new.device)) }
    {
        if self.count_call() {
            return Err(Failed);
        }
        self.inner.push(from)
    }

    /// Returns the failure count of the inner device, plus one after the failing call.
    fn failures(&self) -> u64 {
        self.add_injected_failure(self.inner.failures())
    }
}

impl<K: Flush> Flush for FailAt<K> {
    ghost buffered = { λ d. K.buffered d.device };

    /// Flushes the inner device.
    ///
    /// # Errors
    ///
    /// Returns `Failed` at the failing call, which does nothing, and if the inner device fails.
    fn flush(&mut self) -> Result<(), Failed>
        requires { CanFail (failures_with_injected self.old.left
            (K.failure_count self.old.device)) }

        // The failing call does nothing, and every other call is forwarded. The countdown includes
        // each call up to the failing call.
        ensures fails { fails_next self.old.left ≡ true →
            IsErr result × (self.new.device ≡ self.old.device) }
        ensures forwarded { fails_next self.old.left ≡ false → CountsFailure
            (K.failure_count self.old.device) result (K.failure_count self.new.device) }
        ensures left { self.new.left ≡ countdown_after self.old.left }

        ensures bytes { Keeps (K.contents self.old.device) (K.contents self.new.device) }
        ensures buffered { OnOk result (K.buffered self.new.device ≡ 0) }
        ensures count { CountsFailure
            (failures_with_injected self.old.left (K.failure_count self.old.device))
            result
            (failures_with_injected self.new.left (K.failure_count self.new.device)) }
    {
        if self.count_call() {
            return Err(Failed);
        }
        self.inner.flush()
    }
}

impl<K: Close> Close for FailAt<K> {
    ghost is_stored = { λ d. K.is_stored d.device };

    ghost is_closed = { λ d. K.is_closed d.device };

    ghost is_close = { λ old new.
        K.is_close old.device new.device × (new.left ≡ old.left) };

    /// Makes the inner device store its bytes.
    ///
    /// # Errors
    ///
    /// Returns `Failed` at the failing call, which does nothing, and if the inner device fails.
    fn store(&mut self) -> Result<(), Failed>
        requires { CanFail (failures_with_injected self.old.left
            (K.failure_count self.old.device)) }

        // The failing call does nothing, and every other call is forwarded. The countdown includes
        // each call up to the failing call.
        ensures fails { fails_next self.old.left ≡ true →
            IsErr result × (self.new.device ≡ self.old.device) }
        ensures forwarded { fails_next self.old.left ≡ false → CountsFailure
            (K.failure_count self.old.device) result (K.failure_count self.new.device) }
        ensures left { self.new.left ≡ countdown_after self.old.left }

        ensures bytes { Keeps (K.contents self.old.device) (K.contents self.new.device) }
        ensures buffered { OnOk result (K.buffered self.new.device ≡ 0) }
        ensures stored { OnOk result (K.is_stored self.new.device ≡ true) }
        ensures count { CountsFailure
            (failures_with_injected self.old.left (K.failure_count self.old.device))
            result
            (failures_with_injected self.new.left (K.failure_count self.new.device)) }
    {
        if self.count_call() {
            return Err(Failed);
        }
        self.inner.store()
    }

    /// Closes the inner device. Closing cannot fail and is not counted.
    fn close(&mut self)
        ensures call { K.is_close self.old.device self.new.device
            × (self.new.left ≡ self.old.left) }
        ensures closed { K.is_closed self.new.device ≡ true }
        ensures stored { K.is_stored self.new.device ≡ K.is_stored self.old.device }
        ensures count { failures_with_injected self.new.left (K.failure_count self.new.device)
            ≡ failures_with_injected self.old.left (K.failure_count self.old.device) }
    {
        self.inner.close();
    }
}
