//! Passes a request to its command, and prints the line about invalid arguments.
//!
//! The files in `answering/` implement `check`, `listen` and `survey`; `sub_listing` implements the
//! other commands.

mod check;
mod check_all;
mod listen;
mod survey;

ghost use Rattle.std.specs.Prelude.{◌≡◌, ◌<◌, false};
ghost use Rattle.sub_answer.specs.Answering.{Answers, AnswersFromInputs, CountsDeviceFailures};
ghost use Rattle.sub_answer.specs.Answering.{FlushesBeforeRead};
ghost use Rattle.sub_answer.specs.Answering.{FlushesOutputFile, WritesBeforeRead, drawing_of};
ghost use Rattle.sub_answer.specs.Answering.{pes_packets_call};
ghost use Rattle.sub_answer.specs.Answering.{StoresOutputFile, reads_pes_packets};
ghost use Rattle.sub_answer.specs.Answering.{reads_any_pes_packets};
ghost use Rattle.sub_answer.specs.Answering.{reads_plain_source, call_without_range};
ghost use Rattle.sub_listing.specs.DeviceCall.{CanFail, CountsFault, read_call, sink_call};
ghost use Rattle.sub_listing.specs.DeviceCall.{source_call};
ghost use Rattle.sub_listing.specs.Faults.{usage_line};
ghost use Rattle.sub_request.specs.Files.{files_of_request, reads_input, reads_two_files};
ghost use Rattle.sub_request.specs.Files.{writes_file};
ghost use Rattle.sub_listing.specs.LastLine.{BuffersLastLineOnly};
ghost use Rattle.sub_listing.specs.Listing.{PrintsOrFails, fault_listing};

use check::print_verdict;
use check_all::print_every_fault;
use listen::print_listening;
use std::alloc::Global;
use stl_file::Scope;
use stl_rows::{Drawing, Layout, National};
use sub_io::{Close, Flush, MemSource, Sink, Source};
use sub_listing::{
    Status, extract_packets, list_packets, list_subtitles, print_fault_line, print_help,
    print_version, show_packet, usage_fault_line, write_normal, write_schedule,
};
use sub_request::{Request, UsageFault};
use survey::print_survey;
use ttx_pes::{FilePesPackets, NumberedPesPackets};

/// Answers a request that `Request::parse` returned.
///
/// `first` is the subtitle file or the only input, `second` the PES file of a check, `file` the
/// output file, and `out` standard output. PES packets are read from the start of a file of PES
/// packets; a PID or a range that the request gives for them has no effect. Of `first`, `second`
/// and `file`, those that the request does not need are not used. Returns `Fault` if a device
/// failed or memory ran out; everything printed before remains.
pub fn answer<S: Source, T: Source, F: Close, K: Flush>(
    alloc: Global,
    request: &Request<'_>,
    first: &mut S,
    second: &mut T,
    file: &mut F,
    out: &mut K,
) -> Status
    requires first { CanFail (S.failure_count first.old) }
    requires second { CanFail (T.failure_count second.old) }
    requires file { CanFail (F.failure_count file.old) }
    requires out { CanFail (K.failure_count out.old) }

    // The output and the output file, for each command.
    ensures answers { Answers request.now
        (call_without_range S.remaining S.failure_count first.old first.new)
        (call_without_range T.remaining T.failure_count second.old second.new)
        (second.new ≡ second.old)
        (sink_call F.contents F.failure_count file.old file.new)
        (sink_call K.contents K.failure_count out.old out.new) result }

    // Inputs and output files that the request does not need are unchanged.
    ensures first { reads_input (files_of_request request.now) ≡ false → first.new ≡ first.old }
    ensures second { reads_two_files (files_of_request request.now) ≡ false → second.new ≡
        second.old }
    ensures file { writes_file (files_of_request request.now) ≡ false → file.new ≡ file.old }

    // Each device fails at most once, and only if the status is `Fault`. A command that needs no
    // memory has the status `Fault` only if a device failed.
    ensures fault { CountsDeviceFailures request.now
        (source_call S.remaining S.failure_count first.old first.new)
        (source_call T.remaining T.failure_count second.old second.new)
        (sink_call F.contents F.failure_count file.old file.new)
        (sink_call K.contents K.failure_count out.old out.new) result }

    // If the status is `Done`, an output file is stored, and its buffer is empty.
    ensures buffered { FlushesOutputFile request.now result (F.buffered file.new) }
    ensures stored { StoresOutputFile request.now result (F.is_stored file.new) }

    // If the buffer was empty, `packets`, `survey` and `check --all` flush all output before the
    // device of the PES file or recording is read. So if this read fails, at most the line about
    // the failure is still in the buffer.
    ensures followed { K.buffered out.old ≡ 0 → FlushesBeforeRead request.now
        (S.failure_count first.old < S.failure_count first.new)
        (T.failure_count second.old < T.failure_count second.new)
        (BuffersLastLineOnly K.contents K.buffered K.is_push out.new) }

    // If the buffer of `file` was empty, `extract` writes all bytes to the device of `file` before
    // the recording's device is read.
    ensures written { F.buffered file.old ≡ 0 → WritesBeforeRead request.now
        (S.failure_count first.old < S.failure_count first.new) (F.buffered file.new ≡ 0) }
{
    if reads_pes_packets(request) {
        let mut nothing = MemSource::new(&[]);
        let mut pes_packets = FilePesPackets::new(first);
        return answer_from_inputs(alloc, request, &mut nothing, &mut pes_packets, file, out);
    }
    let mut pes_packets = FilePesPackets::new(second);
    answer_from_inputs(alloc, request, first, &mut pes_packets, file, out)
}

/// Returns whether the first input of a request contains PES packets, which are listed, received or
/// written.
pub fn reads_pes_packets(request: &Request<'_>) -> bool
    ensures { result ≡ reads_pes_packets request.now }
{
    match request {
        Request::Packets { .. } | Request::Listen { .. } | Request::Extract { .. } => true,
        _ => false,
    }
}

/// Answers a request that `Request::parse` returned, with the PES packets that `pes` reads.
///
/// `first` is the subtitle file or the surveyed recording, and `pes` reads the PES packets that are
/// listed, received, checked or written; the caller selects them. Of `first`, `pes` and `file`,
/// those that the request does not need are not used. Returns `Fault` if a device failed or memory
/// ran out; everything printed before remains.
pub fn answer_from_inputs<S: Source, P: NumberedPesPackets, F: Close, K: Flush>(
    alloc: Global,
    request: &Request<'_>,
    first: &mut S,
    pes: &mut P,
    file: &mut F,
    out: &mut K,
) -> Status
    requires first { CanFail (S.failure_count first.old) }
    requires pes { CanFail (P.failure_count pes.old) }
    requires file { CanFail (F.failure_count file.old) }
    requires out { CanFail (K.failure_count out.old) }

    // The output and the output file, for each command, and the output that is flushed before a
    // read that may block.
    ensures answers { AnswersFromInputs request.now
        (call_without_range S.remaining S.failure_count first.old first.new)
        (pes_packets_call P.remaining P.left P.failure_count P.first P.skipped pes.old pes.new)
        (pes.new ≡ pes.old)
        (sink_call F.contents F.failure_count file.old file.new)
        (sink_call K.contents K.failure_count out.old out.new)
        (F.buffered file.old ≡ 0 → F.buffered file.new ≡ 0)
        (K.buffered out.old ≡ 0 → BuffersLastLineOnly K.contents K.buffered K.is_push out.new)
        result }

    // Inputs and output files that the request does not need are unchanged.
    ensures first { reads_plain_source request.now ≡ false → first.new ≡ first.old }
    ensures pes { reads_any_pes_packets request.now ≡ false → pes.new ≡ pes.old }
    ensures device { P.device pes.new ≡ P.device pes.old }
    ensures file { writes_file (files_of_request request.now) ≡ false → file.new ≡ file.old }

    // Each device fails at most once, and only if the status is `Fault`.
    ensures fault { CountsDeviceFailures request.now
        (source_call S.remaining S.failure_count first.old first.new)
        (read_call P.remaining P.left P.failure_count pes.old pes.new)
        (sink_call F.contents F.failure_count file.old file.new)
        (sink_call K.contents K.failure_count out.old out.new) result }

    // If the status is `Done`, an output file is stored, and its buffer is empty.
    ensures buffered { FlushesOutputFile request.now result (F.buffered file.new) }
    ensures stored { StoresOutputFile request.now result (F.is_stored file.new) }
{
    let drawing = drawing_of(request);
    match request {
        Request::Help => print_help(out),
        Request::Version => print_version(out),
        Request::Packet { bytes } => show_packet(bytes, out),
        Request::Packets { .. } => list_packets(pes, out),
        Request::Show { .. } => list_subtitles(first, out),
        Request::Schedule {
            options,
            serial,
            ..
        } => write_schedule(alloc, drawing, options, *serial, first, file, out),
        Request::Normal { .. } => write_normal(alloc, first, file, out),
        Request::Check { options, all, .. } if *all => {
            print_every_fault(alloc, first, pes, drawing, options, out)
        }
        Request::Check { options, .. } => print_verdict(alloc, first, pes, drawing, options, out),
        Request::Listen { listening, .. } => print_listening(pes, listening, out),
        Request::Extract { .. } => extract_packets(pes, file, out),
        Request::Survey { options, .. } => print_survey(alloc, *options, first, out),
    }
}

// Returns the national option, layout and scope for the texts of a subtitle file, from the request
// or by default.
fn drawing_of(request: &Request<'_>) -> Drawing
    ensures { result ≡ drawing_of request.now }
{
    match request {
        Request::Schedule {
            national,
            layout,
            scope,
            ..
        } => Drawing::new(*national, *layout, *scope),
        Request::Check {
            national,
            layout,
            scope,
            ..
        } => Drawing::new(*national, *layout, *scope),
        _ => Drawing::new(National::English, Layout::default(), Scope::whole()),
    }
}

/// Prints the line about invalid arguments, a lack of memory, or a file that can't or must not be
/// opened or created, and returns `Fault`.
///
/// If `out` fails, it received a prefix of the line.
pub fn print_usage_fault<K: Sink>(fault: &UsageFault, out: &mut K) -> Status
    requires { CanFail (K.failure_count out.old) }
    ensures printed { PrintsOrFails (sink_call K.contents K.failure_count out.old out.new)
        (fault_listing (usage_line fault.now)) result }
    ensures status { result ≡ Status.Fault }
    ensures count { CountsFault K.failure_count out.old result out.new }
{
    print_fault_line(&usage_fault_line(fault), out)
}
