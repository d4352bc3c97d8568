//! Flushes the printed lines after the output file of a run was closed.
ghost use Rattle.std.specs.Prelude.{◌≡◌, ℕ, List, true};
ghost use Rattle.std.proofs.Common.{refl};
ghost use Rattle.sub_io.specs.Buffered.{BufferedSinkValue, failures_with_refused_calls};
ghost use Rattle.sub_io.specs.Device.{CanFail};
ghost use Rattle.sub_listing.specs.declared.status.Status.{Status};
ghost use Rattle.sub_answer.specs.Ending.{CountsBuffered, FlushesBuffer, state_of_sink};
ghost use Rattle.sub_answer.specs.Ending.{state_of_buffer};

use sub_io::{BufferedSink, Close, Flush, Sink};
use sub_listing::Status;

/// Printed lines that are flushed after the output file was closed.
///
/// If the system gave the program no standard output, the file may have got the number of standard
/// output. So lines that are flushed while the file is open could be written to the file.
pub trait FlushPending<F: Close>: Flush {
    // The bytes in the buffer of the output.
    ghost buffer_state: { Self → List ℕ };

    // Relates the output before flushing, the output file, the status of the answer, the output
    // afterwards, and the status of the run.
    ghost is_flushed: { Self → BufferedSinkValue F → Status → Self → Status → Type 0 };

    /// Flushes the output of a run whose answer has the status `status`, and returns the status of
    /// the run.
    fn flush_pending(&mut self, status: Status, file: &BufferedSink<'_, F>) -> Status
        requires count { CanFail (Self.failure_count self.old) }
        requires closed { F.is_closed file.now.device ≡ true }
        ensures call { is_flushed self.old file.now status self.new result }
        ensures lines { FlushesBuffer
            (state_of_sink Self.contents buffer_state Self.failure_count self.old) status
            (state_of_sink Self.contents buffer_state Self.failure_count self.new) result };

    // The function `buffered` returns the number of bytes in the buffer of the output.
    ghost buffered_eq: { CountsBuffered Self.buffered buffer_state };
}

impl<F: Close, K: Sink> FlushPending<F> for BufferedSink<'_, K> {
    ghost buffer_state = { λ k. k.buffered };

    ghost buffered_eq = { λ k. refl };

    ghost is_flushed = { λ old file status new result.
        F.is_closed file.device ≡ true };

    /// Flushes the output, whatever the state of the file.
    fn flush_pending(&mut self, status: Status, _file: &BufferedSink<'_, F>) -> Status {
        flush_all(status, self)
    }
}

/// Flushes the output of a run, and returns its status, or `Fault` if flushing fails.
pub fn flush_all<K: Sink>(status: Status, out: &mut BufferedSink<'_, K>) -> Status
    requires { CanFail (failures_with_refused_calls
        (K.failure_count out.old.device) out.old.refused) }
    ensures { FlushesBuffer (state_of_buffer K.contents K.failure_count out.old) status
        (state_of_buffer K.contents K.failure_count out.new) result }
{
    match out.flush() {
        Ok(()) => status,
        Err(_) => Status::Fault,
    }
}
