//! Answers a request with a part of a source. This module creates the readers of PES packets, for a
//! file or a recording.
ghost use Rattle.std.specs.Prelude.{◌≡◌, ◌⊎◌, ⊤, None, Some, [], false, true};
ghost use Rattle.sub_io.specs.Buffered.{Flushes, failures_with_refused_calls};
ghost use Rattle.sub_io.specs.Device.{CanFail};
ghost use Rattle.sub_answer.specs.Answering.{StoresOutputFile, reads_pes_packets};
ghost use Rattle.sub_answer.specs.Answering.{call_without_range};
ghost use Rattle.sub_answer.specs.Ending.{BufferHoldsOneLineOnly, EndsWith, BuffersOneLineOnly};
ghost use Rattle.sub_answer.specs.Ending.{IsClosedAfter, IsEmptyFile, IsEmptySource, state_of_sink};
ghost use Rattle.sub_answer.specs.Ending.{state_of_buffer};
ghost use Rattle.sub_answer.specs.Part.{IsPartOf, IsRangeOf, entire_file};

use crate::answering::reads_pes_packets;
use crate::ending::{answer_both_inputs, answer_pes_packets, answer_source};
use crate::flushing::FlushPending;
use crate::part::Part;
use mpeg_ts::RecordingPesPackets;
use std::alloc::Global;
use sub_io::{BufferedSink, Close, Sink, Source};
use sub_listing::Status;
use sub_request::Request;
use ttx_pes::{
    FilePesPackets, LimitedPesPackets, NumberedPesPackets, PartOfPesPackets, PesPacketRange,
    PesPacketsAhead,
};

/// Answers a request that reads a part of one source and may write a file. Returns the source in
/// its state after the answer.
pub fn answer_part<S: Source + Drop, F: Close, O: FlushPending<F>>(
    alloc: Global,
    request: &Request<'_>,
    part: Part,
    whole: S,
    file: &mut BufferedSink<'_, F>,
    out: &mut O,
) -> (Status, S)
    requires fits { (part ≡ entire_file) ⊎ (reads_pes_packets request.now ≡ true) }
    requires first { CanFail (S.failure_count whole) }
    requires file { (failures_with_refused_calls (F.failure_count file.old.device) file.old.refused
        ≡ 0)
        × (file.old.buffered ≡ []) }
    requires out { O.failure_count out.old ≡ 0 }
    ensures ends { EndsWith request.now (IsPartOf part S.remaining S.failure_count whole result.1)
        IsEmptySource ⊤
        (IsClosedAfter F.contents F.failure_count F.is_close request.now file.old file.new)
        (BuffersOneLineOnly O.contents O.buffer_state O.failure_count O.is_push)
        (state_of_sink O.contents O.buffer_state O.failure_count out.old)
        (state_of_sink O.contents O.buffer_state O.failure_count out.new) result.0 }
    ensures done { result.0 ≡ Status.Done → Flushes F.failure_count file.old file.new }
    ensures stored { StoresOutputFile request.now result.0 (F.is_stored file.new.device) }
{
    let Part { stream, range } = part;
    let mut whole = whole;
    if !reads_pes_packets(request) {
        let status = answer_source(alloc, request, &mut whole, file, out);
        return (status, whole);
    }
    match stream {
        None => {
            let mut pes_packets = FilePesPackets::new(&mut whole);
            let status = answer_range(alloc, request, range, &mut pes_packets, file, out);
            (status, whole)
        }
        Some(stream) => {
            let mut pes_packets = RecordingPesPackets::new(whole, stream.pid, stream.packet_size);
            let status = answer_range(alloc, request, range, &mut pes_packets, file, out);
            (status, pes_packets.into_inner())
        }
    }
}

// Answers a request that reads all PES packets or a range of them, and may write a file.
fn answer_range<P: NumberedPesPackets, F: Close, O: FlushPending<F>>(
    alloc: Global,
    request: &Request<'_>,
    range: Option<PesPacketRange>,
    pes_packets: &mut P,
    file: &mut BufferedSink<'_, F>,
    out: &mut O,
) -> Status
    requires reads { reads_pes_packets request.now ≡ true }
    requires start { P.first pes_packets.old ≡ Some 0 }
    requires pes_packets { CanFail (P.failure_count pes_packets.old) }
    requires file { (failures_with_refused_calls (F.failure_count file.old.device) file.old.refused
        ≡ 0)
        × (file.old.buffered ≡ []) }
    requires out { O.failure_count out.old ≡ 0 }
    ensures ends { EndsWith request.now
        (IsRangeOf range P.remaining P.left P.failure_count pes_packets.old pes_packets.new)
        IsEmptySource ⊤
        (IsClosedAfter F.contents F.failure_count F.is_close request.now file.old file.new)
        (BuffersOneLineOnly O.contents O.buffer_state O.failure_count O.is_push)
        (state_of_sink O.contents O.buffer_state O.failure_count out.old)
        (state_of_sink O.contents O.buffer_state O.failure_count out.new) result }
    ensures device { P.device pes_packets.new ≡ P.device pes_packets.old }
    ensures done { result ≡ Status.Done → Flushes F.failure_count file.old file.new }
    ensures stored { StoresOutputFile request.now result (F.is_stored file.new.device) }
{
    match range {
        None => answer_pes_packets(alloc, request, pes_packets, file, out),
        Some(range) => {
            let mut some = PartOfPesPackets {
                inner: LimitedPesPackets::new(pes_packets, range.pes_packet_count()),
                ahead: PesPacketsAhead::new(range.first()),
            };
            answer_pes_packets(alloc, request, &mut some, file, out)
        }
    }
}

/// Answers a request that reads a source and a part of a second source. Returns the second source
/// in its state after the answer.
pub fn answer_second_part<S: Source, T: Source + Drop, K: Sink>(
    alloc: Global,
    request: &Request<'_>,
    first: &mut S,
    part: Part,
    whole: T,
    out: &mut BufferedSink<'_, K>,
) -> (Status, T)
    requires reads { reads_pes_packets request.now ≡ false }
    requires first { CanFail (S.failure_count first.old) }
    requires second { CanFail (T.failure_count whole) }
    requires out { failures_with_refused_calls (K.failure_count out.old.device) out.old.refused ≡
        0 }
    ensures { EndsWith request.now
        (λ input. input ≡ call_without_range S.remaining S.failure_count first.old first.new)
        (IsPartOf part T.remaining T.failure_count whole result.1) (result.1 ≡ whole) IsEmptyFile
        (BufferHoldsOneLineOnly K.contents K.failure_count K.is_push)
        (state_of_buffer K.contents K.failure_count out.old)
        (state_of_buffer K.contents K.failure_count out.new) result.0 }
{
    let Part { stream, range } = part;
    let mut whole = whole;
    match stream {
        None => {
            let mut pes_packets = FilePesPackets::new(&mut whole);
            let status = answer_second_range(alloc, request, first, range, &mut pes_packets, out);
            (status, whole)
        }
        Some(stream) => {
            let mut pes_packets = RecordingPesPackets::new(whole, stream.pid, stream.packet_size);
            let status = answer_second_range(alloc, request, first, range, &mut pes_packets, out);
            (status, pes_packets.into_inner())
        }
    }
}

// Answers a request that reads a source, and all PES packets of a second source or a range of them.
fn answer_second_range<S: Source, P: NumberedPesPackets, K: Sink>(
    alloc: Global,
    request: &Request<'_>,
    first: &mut S,
    range: Option<PesPacketRange>,
    pes_packets: &mut P,
    out: &mut BufferedSink<'_, K>,
) -> Status
    requires reads { reads_pes_packets request.now ≡ false }
    requires start { P.first pes_packets.old ≡ Some 0 }
    requires first { CanFail (S.failure_count first.old) }
    requires pes_packets { CanFail (P.failure_count pes_packets.old) }
    requires out { failures_with_refused_calls (K.failure_count out.old.device) out.old.refused ≡
        0 }
    ensures ends { EndsWith request.now
        (λ input. input ≡ call_without_range S.remaining S.failure_count first.old first.new)
        (IsRangeOf range P.remaining P.left P.failure_count pes_packets.old pes_packets.new)
        (pes_packets.new ≡ pes_packets.old) IsEmptyFile
        (BufferHoldsOneLineOnly K.contents K.failure_count K.is_push)
        (state_of_buffer K.contents K.failure_count out.old)
        (state_of_buffer K.contents K.failure_count out.new) result }
    ensures device { P.device pes_packets.new ≡ P.device pes_packets.old }
{
    match range {
        None => answer_both_inputs(alloc, request, first, pes_packets, out),
        Some(range) => {
            let mut some = PartOfPesPackets {
                inner: LimitedPesPackets::new(pes_packets, range.pes_packet_count()),
                ahead: PesPacketsAhead::new(range.first()),
            };
            answer_both_inputs(alloc, request, first, &mut some, out)
        }
    }
}
