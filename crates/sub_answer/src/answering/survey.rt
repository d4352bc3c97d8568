//! `survey RECORDING`: prints properties of a recording.
ghost use Rattle.std.specs.Prelude.{◌≡◌, ◌<◌};
ghost use Rattle.std.specs.Io.KnownBytes.{IsAtEnd};
ghost use Rattle.sub_listing.specs.DeviceCall.{CanFail, CountsFault, sink_call};
ghost use Rattle.sub_listing.specs.LastLine.{BuffersLastLineOnly};
ghost use Rattle.sub_answer.specs.SurveyListing.{PrintsSurvey};

use mpeg_ts::SurveyOptions;
use std::alloc::Global;
use sub_io::{Flush, Source};
use sub_listing::{Status, fault_line_of_failed_read, print_fault_line, usage_fault_line};
use sub_request::UsageFault;
use ts_survey::{SurveyFault, survey};
use ttx_pes::FailedAt;

/// Prints a line for each property of a recording, which is read to its end unless a device fails
/// or memory runs out.
///
/// Returns `Fault` if a device failed or memory ran out; everything printed before remains.
#[tactic(auto, using(crate::proofs::SurveyListingLemmas::surveys))]
pub fn print_survey<S: Source, K: Flush>(
    alloc: Global,
    options: SurveyOptions,
    source: &mut S,
    out: &mut K,
) -> Status
    requires source { CanFail (S.failure_count source.old) }
    requires out { CanFail (K.failure_count out.old) }
    ensures printed { PrintsSurvey options (S.remaining source.old)
        (sink_call K.contents K.failure_count out.old out.new) result }
    // If the status is `Done`, the recording was read to its end.
    ensures ended { result ≡ Status.Done → IsAtEnd (S.remaining source.new) }
    ensures source_count { CountsFault S.failure_count source.old result source.new }
    ensures out_count { CountsFault K.failure_count out.old result out.new }
    // If the buffer was empty, all output is flushed before the device of the source is read. So if
    // this read fails, at most the line about the failure is still in the buffer.
    ensures followed { K.buffered out.old ≡ 0
        → S.failure_count source.old < S.failure_count source.new
        → BuffersLastLineOnly K.contents K.buffered K.is_push out.new }
{
    match survey(alloc, options, source, out) {
        Ok(()) => Status::Done,
        Err(SurveyFault::Read) => print_fault_line(
            &fault_line_of_failed_read(FailedAt { pes: 0 }),
            out,
        ),
        Err(SurveyFault::Write) => Status::Fault,
        Err(SurveyFault::Memory) => print_fault_line(&usage_fault_line(&UsageFault::Memory), out),
    }
}
