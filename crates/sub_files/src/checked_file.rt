//! A written file whose size is checked after it was closed.
//!
//! Some file systems report a failed write only when the file is closed, and std ignores that
//! result. So a file that must be stored is closed, and its size is then compared with the number
//! of bytes written.
ghost use Rattle.std.specs.Prelude.{◌≡◌, ℕ, [], Bool, None, OnOk, Some, false, is_none, length};
ghost use Rattle.std.specs.Prelude.{true};
ghost use Rattle.std.specs.Io.Iter.{u64_saturate};
ghost use Rattle.std.specs.Io.KnownBytes.{Keeps};
ghost use Rattle.sub_io.specs.Device.{CanFail, CountsFailure, zero_buffered_bytes};
ghost use Rattle.sub_files.specs.SizeCheckedFiles.{ClosesFile};

use std::io::Write;
use std::marker::Model;
use sub_io::{Close, Failed, Flush, IntoFile, Release, Sink, Store};

/// A device that looks up the size of a file after the file was closed.
pub trait SizeLookup {
    // Relates the device's state and the expected number of bytes to the result of `has_all_bytes`.
    ghost is_size_lookup: { Self → ℕ → Bool → Type 0 };

    /// Returns `true` only if the closed file has this many bytes, or is no regular file, such as a
    /// pipe or a terminal.
    fn has_all_bytes<W: Write>(&self, file: &IntoFile<W>, length: u64) -> bool
        requires { file.now.device ≡ None }
        ensures { is_size_lookup self.now length result };
}

/// A file that is written, stored and closed, and whose size is then checked.
///
/// The model consists of the file and the device that checks the size.
#[derive(Drop)]
pub struct CheckedFile<W, L> {
    file: IntoFile<W>,
    lookup: L,
    count: u64,
}

impl<W, L> Model for CheckedFile<W, L> {
    ghost use Rattle.std.specs.Prelude.{◌≡◌, length};
    ghost use Rattle.std.specs.Io.Iter.{u64_saturate};
    ghost use Rattle.sub_files.specs.SizeCheckedFiles.{CheckedFileValue};

    ghost Value = { CheckedFileValue W L };

    ghost view = { λ s. record { file = s.file; lookup = s.lookup } };

    ghost invariant = { λ s. s.count ≡ u64_saturate (length s.file.taken) };
}

impl<W: Write, L: SizeLookup> CheckedFile<W, L> {
    /// Creates a file from a writer of std to which nothing was written yet.
    pub fn new(writer: W, lookup: L) -> Self
        ensures { result ≡ record {
          file = record {
            device = Some writer;
            taken = [];
            is_stored = false;
            failure_count = 0;
          };
          lookup = lookup;
        } }
    {
        CheckedFile {
            file: IntoFile::new(writer),
            lookup,
            count: 0,
        }
    }
}

impl<W: Write, L: SizeLookup> Sink for CheckedFile<W, L> {
    ghost contents = { λ s. Some s.file.taken };

    ghost failure_count = { λ s. s.file.failure_count };

    /// Writes bytes with one call of the writer. The bytes are not stored yet.
    ///
    /// # Errors
    ///
    /// Returns `Failed` if the writer fails, if it accepts no byte, or if the file was closed.
    fn push(&mut self, from: &[u8]) -> Result<usize, Failed> {
        let n = self.file.push(from)?;
        self.count = self.count.saturating_add(n as u64);
        Ok(n)
    }

    /// Returns the number of failed calls, including calls that wrote no byte or lost bytes, and
    /// calls after the file was closed.
    fn failures(&self) -> u64 {
        self.file.failures()
    }
}

impl<W: Write, L: SizeLookup> Flush for CheckedFile<W, L> {
    // The file passes all bytes to the writer at once, without a buffer of its own.
    ghost buffered = { zero_buffered_bytes };

    /// Flushes the writer.
    ///
    /// # Errors
    ///
    /// Returns `Failed` if the writer fails, or if the file was closed.
    fn flush(&mut self) -> Result<(), Failed> {
        self.file.flush()
    }
}

impl<W: Write + Release + Store, L: SizeLookup> Close for CheckedFile<W, L> {
    ghost is_stored = { λ s. s.file.is_stored };

    ghost is_closed = { λ s. is_none s.file.device };

    ghost is_close = { ClosesFile W.is_released };

    /// Stores and closes the file, and checks its size.
    ///
    /// # Errors
    ///
    /// Returns `Failed` if the writer fails, if bytes are lost, if `has_all_bytes` returns `false`
    /// for the closed file, or if the file was closed before.
    fn store(&mut self) -> Result<(), Failed>
        requires { CanFail self.old.file.failure_count }
        // On success, the file was closed, and `has_all_bytes` returned `true` afterwards.
        ensures closed { OnOk result (self.new.file.device ≡ None) }
        ensures lookup { OnOk result (L.is_size_lookup self.new.lookup
            (u64_saturate (length self.new.file.taken)) true) }
        ensures bytes { Keeps (Some self.old.file.taken) (Some self.new.file.taken) }
        ensures buffered { OnOk result (zero_buffered_bytes self.new ≡ 0) }
        ensures stored { OnOk result (self.new.file.is_stored ≡ true) }
        ensures count { CountsFailure self.old.file.failure_count result
            self.new.file.failure_count }
    {
        self.file.store()?;
        self.file.close();
        if self.lookup.has_all_bytes(&self.file, self.count) {
            return Ok(());
        }
        // A closed file returns an error for each call, and counts the error.
        self.file.flush()
    }

    /// Releases the writer, which closes the file.
    fn close(&mut self) {
        self.file.close();
    }
}
