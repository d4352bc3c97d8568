//! The trait of sources, the input devices, and functions that read from them.

ghost use Rattle.std.specs.Prelude.{◌≡◌, ℕ, ◌+◌, ◌<◌, ◌≤◌, List, length, take, Option};
ghost use Rattle.std.specs.Prelude.{IfOk, OnErr, Some, false, is_ok, true};
ghost use Rattle.std.specs.Io.{ReadsAtMost};
ghost use Rattle.std.specs.Io.KnownBytes.{Consumes, IsAtEnd};
ghost use Rattle.sub_io.specs.Calls.{FillsByPulls, call_answer, unrestricted_call};
ghost use Rattle.sub_io.specs.Device.{CanFail, CountsFailure, Fills, SkipsOver, Pulls};
ghost use Rattle.sub_io.specs.Device.{FillsFromKnown};
ghost use Rattle.sub_io.specs.Borrowed.{AreBorrowedPrefix, PullsBorrowed, no_borrowed_bytes};
ghost use Rattle.sub_io.specs.Reading.{AreBytes, AreNextBytes, IfKnown};

/// The error of a failed call of a source or sink. A failed `pull` has returned no bytes, and a
/// failed `push` has taken none. A failed `fill`, `put_all`, `flush` or `store` may have
/// transferred some bytes before its failure.
#[derive(Clone, Copy, Debug, PartialEq, Eq)]
pub struct Failed;

/// An input device from which bytes are read, such as a file or a slice of memory.
pub trait Source {
    // The remaining bytes of the source, or `None` if they are unknown.
    ghost remaining: { Self → Option (List ℕ) };

    // The number of failed calls of the source.
    ghost failure_count: { Self → ℕ };

    // How a pull changes the source, if the source specifies it. Arguments: old state, size of the
    // buffer, number of bytes read (`None` if the pull failed), new state.
    ghost is_pull: { Self → ℕ → Option ℕ → Self → Type 0 } = { unrestricted_call };

    // The buffered bytes, which the source can return without a call of its underlying device. Such
    // a call may block and may fail.
    ghost borrowed: { Self → List ℕ } = { no_borrowed_bytes };

    /// Reads bytes into the front of `to`, and returns their number. If `to` is not empty, 0 means
    /// the end of the source.
    ///
    /// # Errors
    ///
    /// Returns `Failed` if the device fails. The source has returned no bytes, and its failure
    /// count rises by one.
    fn pull(&mut self, to: &mut [u8]) -> Result<usize, Failed>
        requires { CanFail (failure_count self.old) }
        ensures bound { ReadsAtMost result to.new }
        ensures call { is_pull self.old (length to.old) (call_answer result) self.new }
        ensures bytes { Pulls (remaining self.old) (remaining self.new) to.new result }
        ensures borrowed { PullsBorrowed (borrowed self.old) (borrowed self.new) to.new result }
        ensures count { CountsFailure (failure_count self.old) result (failure_count self.new) };

    /// Returns the number of failed calls of `pull`.
    fn failures(&self) -> u64
        ensures { result ≡ failure_count self.now };

    /// Borrows the buffered bytes, which the next pulls return without a call of the underlying
    /// device. Empty if the source has no buffered bytes or cannot lend them.
    fn buffered(&self) -> &[u8]
        ensures bytes { AreNextBytes result.now (remaining self.now) }
        ensures borrowed { AreBorrowedPrefix result.now (borrowed self.now) }
    {
        &[]
    }

    /// Consumes `count` buffered bytes, as a pull does, and returns `true`. If fewer bytes can be
    /// borrowed, does nothing and returns `false`.
    fn skip_bytes(&mut self, count: usize) -> bool
        requires some { 0 < count }
        requires count { CanFail (failure_count self.old) }
        ensures whole { count ≤ length (borrowed self.old) → result ≡ true }
        ensures call { result ≡ true → is_pull self.old count (Some count) self.new }
        ensures bytes { result ≡ true → SkipsOver (remaining self.old) count (remaining self.new) }
        ensures none { result ≡ false → self.new ≡ self.old }
        ensures count { failure_count self.new ≡ failure_count self.old };
}

/// Pulls until `to` is full or the source ends, and returns how many bytes were read.
///
/// Reads fewer than `to.len()` bytes only at the end of the source. Each pull offers the unfilled
/// part of `to`. `fill` makes no further pull once `to` is full, or after a pull that read nothing
/// or failed.
///
/// # Errors
///
/// Returns `Failed` at the first pull that fails. Fewer than `to.len()` bytes may have been
/// consumed, and the contents of `to` are unspecified.
#[inline(always)]
pub fn fill<S: Source>(source: &mut S, to: &mut [u8]) -> Result<usize, Failed>
    requires { CanFail (S.failure_count source.old) }
    ensures bound { IfOk result (λ n. n ≤ length to.new) }
    ensures bytes { IfOk result (λ n.
        Consumes (S.remaining source.old) (S.remaining source.new) (take n to.new)) }
    ensures end { IfOk result (λ n. n < length to.new → IsAtEnd (S.remaining source.new)) }

    // The clause `fills` combines the clauses `bound` and `bytes` with the end of the source. The
    // clause `told` applies if the bytes of the source are known.
    ensures fills { IfOk result (λ n.
        Fills (S.remaining source.old) n (S.remaining source.new) to.new) }
    ensures told { IfKnown (S.remaining source.old) (λ bytes.
        IfOk result (λ n. FillsFromKnown bytes n (S.remaining source.new) to.new)) }
    ensures fit { AreBytes to.new }
    ensures calls { FillsByPulls S.is_pull source.old (length to.old) (is_ok result) source.new }
    ensures err { OnErr result ((bytes : List ℕ) × (length bytes < length to.new)
        × Consumes (S.remaining source.old) (S.remaining source.new) bytes) }
    ensures count { CountsFailure (S.failure_count source.old) result (S.failure_count source.new) }
{
    fill_until_end(source, to)
}

// The loop of `fill`, with a shorter contract from which that of `fill` follows.
#[inline(always)]
fn fill_until_end<S: Source>(source: &mut S, to: &mut [u8]) -> Result<usize, Failed>
    requires { CanFail (S.failure_count source.old) }
    ensures calls { FillsByPulls S.is_pull source.old (length to.old) (is_ok result) source.new }
    ensures fills { IfOk result (λ n.
        Fills (S.remaining source.old) n (S.remaining source.new) to.new) }
    ensures err { OnErr result ((bytes : List ℕ) × (length bytes < length to.new)
        × Consumes (S.remaining source.old) (S.remaining source.new) bytes) }
    ensures count { CountsFailure (S.failure_count source.old) result (S.failure_count source.new) }
{
    let mut at = 0;
    while at < to.len() {
        let n = source.pull(&mut to[at..])?;
        if n == 0 {
            break;
        }
        at += n;
    }
    Ok(at)
}
