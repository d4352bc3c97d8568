//! Answers a request, closes the output file, and then flushes the output. If there is no request,
//! or its files can't be opened, prints the fault.
//!
//! Each kind of request has a function, which passes empty devices for the files that the request
//! does not name.
ghost use Rattle.std.specs.Prelude.{◌≡◌, ⊤, false, true, []};
ghost use Rattle.sub_io.specs.Buffered.{Flushes, failures_with_refused_calls};
ghost use Rattle.sub_io.specs.Device.{CanFail};
ghost use Rattle.sub_answer.specs.Answering.{StoresOutputFile, first_input, pes_packets_call};
ghost use Rattle.sub_answer.specs.Answering.{reads_pes_packets, call_without_range};
ghost use Rattle.sub_answer.specs.Ending.{BufferHoldsOneLineOnly, EndsWith, FlushesWithFile};
ghost use Rattle.sub_answer.specs.Ending.{BuffersOneLineOnly, FlushedWithoutFailure, IsClosedAfter};
ghost use Rattle.sub_answer.specs.Ending.{IsEmptyFile, IsEmptySource, PrintsFault, state_of_sink};
ghost use Rattle.sub_answer.specs.Ending.{state_of_buffer};

use crate::answering::{answer_from_inputs, print_usage_fault};
use crate::flushing::{FlushPending, flush_all};
use std::alloc::Global;
use sub_io::{BufferedSink, Close, MemSink, MemSource, Sink, Source};
use sub_listing::Status;
use sub_request::{Request, UsageFault};
use ttx_pes::{FilePesPackets, NumberedPesPackets};

/// Answers a request that reads no file.
pub fn answer_without_input<K: Sink>(
    alloc: Global,
    request: &Request<'_>,
    out: &mut BufferedSink<'_, K>,
) -> Status
    requires { failures_with_refused_calls (K.failure_count out.old.device) out.old.refused ≡ 0 }
    ensures { EndsWith request.now IsEmptySource IsEmptySource ⊤ IsEmptyFile
        (BufferHoldsOneLineOnly K.contents K.failure_count K.is_push)
        (state_of_buffer K.contents K.failure_count out.old)
        (state_of_buffer K.contents K.failure_count out.new) result }
{
    let (mut first, mut nothing) = (MemSource::new(&[]), MemSource::new(&[]));
    let mut pes = FilePesPackets::new(&mut nothing);
    answer_both_inputs(alloc, request, &mut first, &mut pes, out)
}

/// Answers a request that may read a source and the PES packets of another source, and writes no
/// file.
pub fn answer_both_inputs<S: Source, P: NumberedPesPackets, K: Sink>(
    alloc: Global,
    request: &Request<'_>,
    first: &mut S,
    pes: &mut P,
    out: &mut BufferedSink<'_, K>,
) -> Status
    requires first { CanFail (S.failure_count first.old) }
    requires pes { CanFail (P.failure_count pes.old) }
    requires out { failures_with_refused_calls (K.failure_count out.old.device) out.old.refused ≡
        0 }
    ensures ends { EndsWith request.now
        (λ input. input ≡ first_input request.now
        (call_without_range S.remaining S.failure_count first.old first.new)
        (pes_packets_call P.remaining P.left P.failure_count P.first P.skipped pes.old pes.new))
        (λ input. input
        ≡ pes_packets_call P.remaining P.left P.failure_count P.first P.skipped pes.old pes.new)
        (pes.new ≡ pes.old) IsEmptyFile
        (BufferHoldsOneLineOnly K.contents K.failure_count K.is_push)
        (state_of_buffer K.contents K.failure_count out.old)
        (state_of_buffer K.contents K.failure_count out.new) result }
    ensures device { P.device pes.new ≡ P.device pes.old }
{
    let (mut empty_memory, mut room) = ([0; 0], [0; 1]);
    let mut file = BufferedSink::new(MemSink::new(&mut empty_memory), &mut room);
    answer_and_flush(alloc, request, first, pes, &mut file, out)
}

/// Answers a request that reads a source and no PES packets, and may write a file.
pub fn answer_source<S: Source, F: Close, O: FlushPending<F>>(
    alloc: Global,
    request: &Request<'_>,
    first: &mut S,
    file: &mut BufferedSink<'_, F>,
    out: &mut O,
) -> Status
    requires reads { reads_pes_packets request.now ≡ false }
    requires first { CanFail (S.failure_count first.old) }
    requires file { (failures_with_refused_calls (F.failure_count file.old.device) file.old.refused
        ≡ 0)
        × (file.old.buffered ≡ []) }
    requires out { O.failure_count out.old ≡ 0 }
    ensures closed { F.is_closed file.new.device ≡ true }
    ensures after { FlushesWithFile O.is_flushed file.new out.new result }
    ensures ends { EndsWith request.now
        (λ input. input ≡ call_without_range S.remaining S.failure_count first.old first.new)
        IsEmptySource ⊤
        (IsClosedAfter F.contents F.failure_count F.is_close request.now file.old file.new)
        (BuffersOneLineOnly O.contents O.buffer_state O.failure_count O.is_push)
        (state_of_sink O.contents O.buffer_state O.failure_count out.old)
        (state_of_sink O.contents O.buffer_state O.failure_count out.new) result }
    ensures done { result ≡ Status.Done → Flushes F.failure_count file.old file.new
        × FlushedWithoutFailure O.buffer_state O.failure_count out.old out.new }
    ensures stored { StoresOutputFile request.now result (F.is_stored file.new.device) }
{
    let mut nothing = MemSource::new(&[]);
    let mut pes = FilePesPackets::new(&mut nothing);
    answer_and_flush(alloc, request, first, &mut pes, file, out)
}

/// Answers a request that reads only PES packets, and may write a file.
pub fn answer_pes_packets<P: NumberedPesPackets, F: Close, O: FlushPending<F>>(
    alloc: Global,
    request: &Request<'_>,
    pes: &mut P,
    file: &mut BufferedSink<'_, F>,
    out: &mut O,
) -> Status
    requires reads { reads_pes_packets request.now ≡ true }
    requires pes { CanFail (P.failure_count pes.old) }
    requires file { (failures_with_refused_calls (F.failure_count file.old.device) file.old.refused
        ≡ 0)
        × (file.old.buffered ≡ []) }
    requires out { O.failure_count out.old ≡ 0 }
    ensures closed { F.is_closed file.new.device ≡ true }
    ensures after { FlushesWithFile O.is_flushed file.new out.new result }
    ensures ends { EndsWith request.now
        (λ input. input
        ≡ pes_packets_call P.remaining P.left P.failure_count P.first P.skipped pes.old pes.new)
        IsEmptySource ⊤
        (IsClosedAfter F.contents F.failure_count F.is_close request.now file.old file.new)
        (BuffersOneLineOnly O.contents O.buffer_state O.failure_count O.is_push)
        (state_of_sink O.contents O.buffer_state O.failure_count out.old)
        (state_of_sink O.contents O.buffer_state O.failure_count out.new) result }
    ensures device { P.device pes.new ≡ P.device pes.old }
    ensures done { result ≡ Status.Done → Flushes F.failure_count file.old file.new
        × FlushedWithoutFailure O.buffer_state O.failure_count out.old out.new }
    ensures stored { StoresOutputFile request.now result (F.is_stored file.new.device) }
{
    let mut nothing = MemSource::new(&[]);
    answer_and_flush(alloc, request, &mut nothing, pes, file, out)
}

// Answers a request with these devices, closes the output file, and then flushes the output.
//
// If the status is `Done`, the buffers of the file and of the output are empty, and no call of
// either sink has failed: the devices have received all bytes. If the request writes a file, this
// file is stored then.
fn answer_and_flush<S: Source, P: NumberedPesPackets, F: Close, O: FlushPending<F>>(
    alloc: Global,
    request: &Request<'_>,
    first: &mut S,
    pes: &mut P,
    file: &mut BufferedSink<'_, F>,
    out: &mut O,
) -> Status
    requires first { CanFail (S.failure_count first.old) }
    requires pes { CanFail (P.failure_count pes.old) }
    requires file { (failures_with_refused_calls (F.failure_count file.old.device) file.old.refused
        ≡ 0)
        × (file.old.buffered ≡ []) }
    requires out { O.failure_count out.old ≡ 0 }
    ensures ends { EndsWith request.now
        (λ input. input ≡ first_input request.now
        (call_without_range S.remaining S.failure_count first.old first.new)
        (pes_packets_call P.remaining P.left P.failure_count P.first P.skipped pes.old pes.new))
        (λ input. input
        ≡ pes_packets_call P.remaining P.left P.failure_count P.first P.skipped pes.old pes.new)
        (pes.new ≡ pes.old)
        (IsClosedAfter F.contents F.failure_count F.is_close request.now file.old file.new)
        (BuffersOneLineOnly O.contents O.buffer_state O.failure_count O.is_push)
        (state_of_sink O.contents O.buffer_state O.failure_count out.old)
        (state_of_sink O.contents O.buffer_state O.failure_count out.new) result }
    ensures device { P.device pes.new ≡ P.device pes.old }
    ensures done { result ≡ Status.Done → Flushes F.failure_count file.old file.new
        × FlushedWithoutFailure O.buffer_state O.failure_count out.old out.new }
    ensures stored { StoresOutputFile request.now result (F.is_stored file.new.device) }
    ensures closed { F.is_closed file.new.device ≡ true }
    // The output was flushed after the file was closed.
    ensures after { FlushesWithFile O.is_flushed file.new out.new result }
{
    let status = answer_from_inputs(alloc, request, first, pes, file, out);
    file.close();
    out.flush_pending(status, file)
}

/// Prints and flushes the line about invalid arguments, a lack of memory, or a file that can't or
/// must not be opened or created, and returns `Fault`.
pub fn print_and_flush_usage_fault<K: Sink>(
    fault: &UsageFault,
    out: &mut BufferedSink<'_, K>,
) -> Status
    requires { failures_with_refused_calls (K.failure_count out.old.device) out.old.refused ≡ 0 }
    ensures says { PrintsFault fault.now (state_of_buffer K.contents K.failure_count out.old)
        (state_of_buffer K.contents K.failure_count out.new) result }
    ensures status { result ≡ Status.Fault }
{
    flush_all(print_usage_fault(fault, out), out)
}
