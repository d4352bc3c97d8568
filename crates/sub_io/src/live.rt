//! Flushing of pending reports, for users who read a report while it is written.

ghost use Rattle.std.specs.Prelude.{◌≡◌, ℕ, Bool, OnOk, false, is_ok};
ghost use Rattle.sub_io.specs.Flushing.{FlushKeepsReports};

use crate::{ReportSink, Stopped};

/// A device that may buffer reports or bytes, and can flush them.
pub trait Live {
    // Whether reports may be pending.
    ghost has_pending_reports: { Self → Bool };

    // The number of bytes buffered by the device and by its underlying devices.
    ghost buffered: { Self → ℕ };

    // How flushing changes the device. Arguments: old state, whether flushing succeeded, new state.
    ghost is_flushed: { Self → Bool → Self → Type 0 };

    /// Returns whether reports may be pending.
    fn has_pending(&self) -> bool
        ensures { result ≡ has_pending_reports self.now };

    /// Flushes everything that is buffered.
    ///
    /// # Errors
    ///
    /// Returns `Stopped` if flushing fails, or if the device has failed or stopped earlier.
    fn flush_pending(&mut self) -> Result<(), Stopped>
        ensures call { is_flushed self.old (is_ok result) self.new }
        ensures none { OnOk result (buffered self.new ≡ 0) }
        ensures still { OnOk result (has_pending_reports self.new ≡ false) };
}

/// A report sink that may buffer reports and can flush them. Flushing does not change which items
/// count as reported.
pub trait LiveReportSink<T>: ReportSink<T> + Live {
    ghost flush_keeps_reports: { FlushKeepsReports Self.is_reported Self.has_stopped
        Self.has_pending_reports
        Self.buffered
        Self.is_flushed };
}
