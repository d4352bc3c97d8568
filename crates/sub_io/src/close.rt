//! Sinks whose bytes can be stored permanently, and that can be closed before they are dropped.
//!
//! A network disk may report that a file is lost only when the file is closed, and std ignores the
//! result of closing a file. So a command stores and closes its output file before it prints its
//! final line. Pipes and devices need no storing.

ghost use Rattle.std.specs.Prelude.{◌≡◌, Bool, OnOk, true};
ghost use Rattle.std.specs.Io.KnownBytes.{Keeps};
ghost use Rattle.sub_io.specs.Closing.{unrestricted_close, unrestricted_store};
ghost use Rattle.sub_io.specs.Closing.{succeeds_or_never_stores};
ghost use Rattle.sub_io.specs.Device.{CanFail, CountsFailure};

use crate::{Failed, Flush};
use std::fs::OpenFile;
use std::io;
use std::io::ErrorKind;

/// A writer whose bytes the system can store permanently, such as a file. The file types of std
/// implement it.
pub trait Store {
    // How the system may answer a request to store the writer's bytes. Arguments: state, result.
    ghost is_store: { Self → Bool → Type 0 };

    /// Waits until the system has stored all written bytes. Returns `true` if no byte was lost.
    ///
    /// For pipes, terminals and devices, which store nothing, returns `true`.
    fn store(&self) -> bool
        ensures { is_store self.now result };
}

impl<T: OpenFile> Store for T {
    ghost is_store = { unrestricted_store };

    fn store(&self) -> bool {
        is_saved(self.sync_all())
    }
}

// Returns whether `sync_all` succeeded, or failed with an error of a file that stores nothing.
fn is_saved(answer: io::Result<()>) -> bool
    ensures { result ≡ succeeds_or_never_stores answer }
{
    match answer {
        Ok(()) => true,
        Err(error) => match error.kind() {
            ErrorKind::InvalidInput | ErrorKind::Unsupported => true,
            _ => false,
        },
    }
}

/// A value that can be dropped, such as a file, which dropping closes. All types that implement
/// `Drop` implement it.
///
/// Generic code can only drop the value, so releasing it writes nothing.
pub trait Release: Drop + Sized {
    // Whether the value may be dropped in this state.
    ghost is_released: { Self → Type 0 };

    /// Drops the value.
    fn release(self)
        ensures { is_released self };
}

impl<T: Drop> Release for T {
    ghost is_released = { unrestricted_close };

    fn release(self) {}
}

/// A sink, such as a file, whose bytes can be stored permanently, and that can be closed before it
/// is dropped.
pub trait Close: Flush {
    // Whether the system has reported that all bytes that reached the device are stored. Bytes in a
    // buffer of the sink are not counted. Always true for sinks that need no storing, such as
    // memory.
    ghost is_stored: { Self → Bool };

    // Whether the sink is closed. Always true for sinks that need no closing, such as memory.
    ghost is_closed: { Self → Bool };

    // How closing changes the sink. Arguments: old state, with the writer as it was dropped, and
    // new state.
    ghost is_close: { Self → Self → Type 0 };

    /// Flushes all buffered bytes, and waits until the system has stored all bytes written to the
    /// sink.
    ///
    /// # Errors
    ///
    /// Returns `Failed` if the device fails or the system cannot store the bytes. The failure count
    /// rises by one.
    fn store(&mut self) -> Result<(), Failed>
        requires { CanFail (Self.failure_count self.old) }
        ensures bytes { Keeps (Self.contents self.old) (Self.contents self.new) }
        ensures buffered { OnOk result (Self.buffered self.new ≡ 0) }
        ensures stored { OnOk result (is_stored self.new ≡ true) }
        ensures count { CountsFailure (Self.failure_count self.old) result
            (Self.failure_count self.new) };

    /// Closes the sink: drops its writer, if it has one, in the current state, and writes nothing
    /// more. Errors of closing are ignored.
    fn close(&mut self)
        ensures call { is_close self.old self.new }
        ensures closed { is_closed self.new ≡ true }
        ensures stored { is_stored self.new ≡ is_stored self.old }
        ensures count { Self.failure_count self.new ≡ Self.failure_count self.old };
}
