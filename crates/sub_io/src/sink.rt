//! Traits of sinks, the output devices, and functions that write to them.

ghost use Rattle.std.specs.Prelude.{◌≡◌, ℕ, ◌<◌, ◌≤◌, List, length, Option, IfErr, IfOk};
ghost use Rattle.std.specs.Prelude.{OnOk, take, is_ok};
ghost use Rattle.std.specs.Io.KnownBytes.{Appends, Keeps};
ghost use Rattle.sub_io.specs.Calls.{PutsByPushes, call_answer, unrestricted_call};
ghost use Rattle.sub_io.specs.Device.{CanFail, CountsFailure, Pushes, Writes};

use crate::Failed;

/// An output device to which bytes are written, such as a file or a slice of memory.
pub trait Sink {
    // All bytes written to the sink so far, or `None` if they are unknown.
    ghost contents: { Self → Option (List ℕ) };

    // The number of failed calls of the sink.
    ghost failure_count: { Self → ℕ };

    // How a push changes the sink, if the sink specifies it. Arguments: old state, offered bytes,
    // number of bytes taken (`None` if the push failed), new state.
    ghost is_push: { Self → List ℕ → Option ℕ → Self → Type 0 } = { unrestricted_call };

    /// Takes bytes from the front of `from`, which must not be empty. Returns the number of bytes
    /// taken, from 1 to `from.len()`.
    ///
    /// # Errors
    ///
    /// Returns `Failed` if the device fails. The sink has taken nothing, and its failure count
    /// rises by one.
    fn push(&mut self, from: &[u8]) -> Result<usize, Failed>
        requires nonempty { 0 < length from.now }
        requires count { CanFail (failure_count self.old) }
        ensures some { IfOk result (λ n. 0 < n) }
        ensures bound { IfOk result (λ n. n ≤ length from.now) }
        ensures call { is_push self.old from.now (call_answer result) self.new }
        ensures bytes { Pushes (contents self.old) (contents self.new) from.now result }
        ensures count { CountsFailure (failure_count self.old) result (failure_count self.new) };

    /// Returns the number of failed calls of the sink.
    fn failures(&self) -> u64
        ensures { result ≡ failure_count self.now };
}

/// A sink that may buffer written bytes, such as `BufferedSink`.
///
/// So a write error may be reported only by a later call.
pub trait Flush: Sink {
    // The number of bytes that are still buffered.
    ghost buffered: { Self → ℕ };

    /// Writes all buffered bytes to the underlying device.
    ///
    /// # Errors
    ///
    /// Returns `Failed` if the device fails. Some bytes may still be buffered, and the failure
    /// count rises by one.
    fn flush(&mut self) -> Result<(), Failed>
        requires { CanFail (Self.failure_count self.old) }
        ensures bytes { Keeps (Self.contents self.old) (Self.contents self.new) }
        ensures buffered { OnOk result (buffered self.new ≡ 0) }
        ensures count { CountsFailure (Self.failure_count self.old) result
            (Self.failure_count self.new) };
}

/// Writes all of `from` to the sink, in as many pushes as needed. Each push offers all remaining
/// bytes.
///
/// # Errors
///
/// Returns `Failed` at the first push that fails. A prefix of `from` has been written.
pub fn put_all<K: Sink>(sink: &mut K, from: &[u8]) -> Result<(), Failed>
    requires { CanFail (K.failure_count sink.old) }
    ensures calls { PutsByPushes K.is_push sink.old from.now (is_ok result) sink.new }
    ensures bytes { Writes (K.contents sink.old) (K.contents sink.new) from.now result }
    ensures count { CountsFailure (K.failure_count sink.old) result (K.failure_count sink.new) }
{
    match push_all(sink, from) {
        Ok(()) => Ok(()),
        Err(_) => Err(Failed),
    }
}

// Writes all of `from` to the sink. If a push fails, returns the number of bytes written before it
// as the error.
pub(crate) fn push_all<K: Sink>(sink: &mut K, from: &[u8]) -> Result<(), usize>
    requires { CanFail (K.failure_count sink.old) }
    ensures calls { PutsByPushes K.is_push sink.old from.now (is_ok result) sink.new }
    ensures ok { OnOk result (Appends (K.contents sink.old) (K.contents sink.new) from.now) }
    ensures err { IfErr result (λ n. (n ≤ length from.now)
        × Appends (K.contents sink.old) (K.contents sink.new) (take n from.now)) }
    ensures count { CountsFailure (K.failure_count sink.old) result (K.failure_count sink.new) }
{
    let mut at = 0;
    while at < from.len() {
        let Ok(n) = sink.push(&from[at..]) else {
            return Err(at);
        };
        at += n;
    }
    Ok(())
}
