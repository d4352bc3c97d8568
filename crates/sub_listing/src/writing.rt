//! Runs the commands `schedule` and `normal`, which write a file, and prints a line about the
//! result.
ghost use Rattle.std.specs.Prelude.{◌≡◌, ◌≤◌, OnOk, length, true};
ghost use Rattle.sub_io.specs.Device.{CountsFailureIf, failed};
ghost use Rattle.sub_listing.specs.Writing.{EndsWithFileResult, is_file_failure, is_input_failure};
ghost use Rattle.sub_listing.specs.DeviceCall.{CanFail, CountsFault, sink_call, source_call};
ghost use Rattle.sub_listing.specs.Writing as writing;

use crate::faults::fault_line_of_write;
use crate::lines::{Line, push_number, push_text};
use crate::normal::InputFault;
use crate::printing::{print_done, print_fault_line};
use crate::status::Status;
use std::alloc::Global;
use stl_file::NormalFault;
use stl_rows::LoadFault;
use sub_io::{Close, Sink, Source};
use sub_plan::PlanFault;

/// The reason why a command did not store a complete file.
#[derive(Clone, Copy)]
pub enum WriteFault {
    /// The input of `normal` was not read completely.
    Input(InputFault),
    /// The input of `schedule` can't be loaded as a programme.
    Load(LoadFault),
    /// The normal form of the subtitle file was not written, not completely, or not stored.
    Normal(NormalFault),
    /// The schedule of the subtitle file was not written, not completely, or not stored.
    Plan(PlanFault),
}

/// A command that writes a file.
pub trait Work {
    /// Relates the bytes of the input and of the output file, before and after the call, to the
    /// result.
    ghost is_written_as_specified: { Self → writing.Work };

    /// Writes the output file of the command, and returns the number of items written. The input is
    /// read before anything is written, and the file is stored at the end if there is no fault.
    fn work<S: Source, F: Close>(
        &self,
        alloc: Global,
        input: &mut S,
        file: &mut F,
    ) -> Result<u32, WriteFault>
        requires input { CanFail (S.failure_count input.old) }
        requires file { CanFail (F.failure_count file.old) }
        ensures is_written_as_specified { is_written_as_specified self.now (S.remaining input.old)
            (S.remaining input.new)
            (F.contents file.old) (F.contents file.new) result }
        ensures input_count { CountsFailureIf S.failure_count input.old (failed is_input_failure
            result)
            input.new }
        ensures file_count { CountsFailureIf F.failure_count file.old
            (failed is_file_failure result)
            file.new }
        ensures buffered { OnOk result (F.buffered file.new ≡ 0) }
        ensures stored { OnOk result (F.is_stored file.new ≡ true) };
}

/// Writes the output file of a command, and prints the number of items written, or the fault.
pub fn write<W: Work, S: Source, F: Close, K: Sink>(
    alloc: Global,
    work: &W,
    item_name: &[u8],
    input: &mut S,
    file: &mut F,
    out: &mut K,
) -> Status
    requires few { length item_name.now ≤ 32 }
    requires input { CanFail (S.failure_count input.old) }
    requires file { CanFail (F.failure_count file.old) }
    requires out { CanFail (K.failure_count out.old) }
    ensures work { EndsWithFileResult
        (source_call S.remaining S.failure_count input.old input.new)
        (sink_call F.contents F.failure_count file.old file.new)
        (sink_call K.contents K.failure_count out.old out.new) result
        item_name.now (W.is_written_as_specified work.now) }
    ensures input_count { CountsFault S.failure_count input.old result input.new }
    ensures file_count { CountsFault F.failure_count file.old result file.new }
    ensures out_count { CountsFault K.failure_count out.old result out.new }
    ensures buffered { result ≡ Status.Done → F.buffered file.new ≡ 0 }
    ensures stored { result ≡ Status.Done → F.is_stored file.new ≡ true }
{
    match work.work(alloc, input, file) {
        Ok(count) => {
            let mut line = Line::new();
            push_number(&mut line, b"written ", u64::from(count));
            push_text(&mut line, item_name);
            print_done(line.as_slice(), out)
        }
        Err(fault) => print_fault_line(&fault_line_of_write(fault), out),
    }
}
