//! Opens the files that a request names, and answers the request with these files. Each combination
//! of files has a function.
ghost use Rattle.std.specs.Prelude.{◌≡◌, ◌⊎◌, ◌≤◌, ⊤, IfErr, IfOk, None, Some, false, length, true};
ghost use Rattle.sub_io.specs.Buffered.{failures_with_refused_calls};
ghost use Rattle.sub_request.specs.Files.{files_of_request};
ghost use Rattle.sub_files.specs.FileCalls.{CallsInOrder};
ghost use Rattle.sub_files.specs.Opening.{HaveNoFailures, IsOpeningFault};
ghost use Rattle.sub_answer.specs.Answering.{reads_pes_packets};
ghost use Rattle.sub_answer.specs.Ending.{BufferHoldsOneLineOnly, Ends, EndsWithRelease, EndsWith};
ghost use Rattle.sub_answer.specs.Ending.{Fits, IsEmptyFile, IsEmptySource, devices_of};
ghost use Rattle.sub_answer.specs.Ending.{file_observations, state_of_buffer, write_devices};
ghost use Rattle.sub_answer.specs.Ending.{sources};
ghost use Rattle.sub_answer.specs.Part as specs;

use crate::ending::{answer_source, answer_without_input};
use crate::part::{Part, entire_file, part_requested};
use crate::parts::{answer_part, answer_second_part};
use std::alloc::Global;
use sub_files::{
    CreatedFile, FileSystem, OpenedFiles, PesFile, StlFile, open, required_buffer_size, room,
};
use sub_io::{BufferedSink, BufferedSource, MemSink, Sink};
use sub_listing::Status;
use sub_request::{Request, UsageFault};

/// Allocates the buffers for the files that the request names, opens these files, and answers the
/// request. Then flushes the output, and releases the files in their states after the answer.
/// `files` is called only for files that the request names and, before an output is created, for
/// the file that receives standard output.
///
/// # Errors
///
/// Returns `Memory` if memory runs out before a file is opened, and `Open` if a file can't be
/// opened or created, or if creating the output might empty the input or is known to empty the file
/// that receives standard output. In both cases nothing is printed.
pub fn open_and_answer<D: FileSystem, K: Sink>(
    alloc: Global,
    files: &mut D,
    request: &Request<'_>,
    out: &mut BufferedSink<'_, K>,
) -> Result<Status, UsageFault>
    requires { failures_with_refused_calls (K.failure_count out.old.device) out.old.refused ≡ 0 }
    ensures ends { IfOk result (Ends (CallsInOrder D.is_call files.old files.new)
        (file_observations D.Input.remaining D.Input.failure_count
        D.Output.contents D.Output.failure_count D.Output.is_stored)
        D.Output.is_close request.now
        (BufferHoldsOneLineOnly K.contents K.failure_count K.is_push)
        (state_of_buffer K.contents K.failure_count out.old)
        (state_of_buffer K.contents K.failure_count out.new)) }
    ensures leaves_output_unchanged { IfErr result (λ _. out.new ≡ out.old) }
    ensures fault { IfErr result (IsOpeningFault (CallsInOrder D.is_call files.old files.new)
        (files_of_request request.now)) }
{
    let names = request.files();
    let Some(mut buffers) = room(alloc, required_buffer_size(&names)) else {
        return Err(UsageFault::Memory);
    };
    match open(files, &names) {
        Some(opened) => {
            let buffers = buffers.as_mut_slice();
            Ok(answer_opened(alloc, files, request, opened, buffers, out))
        }
        None => Err(UsageFault::Open),
    }
}

// Answers a request with its opened files, and releases the files. Each file has a buffer in the
// allocated memory.
fn answer_opened<D: FileSystem, K: Sink>(
    alloc: Global,
    files: &mut D,
    request: &Request<'_>,
    opened: OpenedFiles<D::Input, D::Output>,
    buffers: &mut [u8],
    out: &mut BufferedSink<'_, K>,
) -> Status
    requires buffers { 2 ≤ length buffers.old }
    requires out { failures_with_refused_calls (K.failure_count out.old.device) out.old.refused ≡
        0 }
    requires no_failures { HaveNoFailures D.Input.failure_count D.Output.failure_count opened }
    requires fits { Fits (files_of_request request.now) opened }
    ensures { EndsWithRelease (CallsInOrder D.is_call files.old files.new)
        (file_observations D.Input.remaining D.Input.failure_count
        D.Output.contents D.Output.failure_count D.Output.is_stored)
        D.Output.is_close request.now (devices_of (specs.part_requested request.now) opened)
        (BufferHoldsOneLineOnly K.contents K.failure_count K.is_push)
        (state_of_buffer K.contents K.failure_count out.old)
        (state_of_buffer K.contents K.failure_count out.new) result }
{
    match opened {
        OpenedFiles::Nothing => answer_without_files(alloc, request, out),
        OpenedFiles::ReadStl(stl) => {
            let whole = entire_file();
            answer_one_file(alloc, files, request, whole, stl.into_file(), buffers, out)
        }
        OpenedFiles::ReadPes(pes) => {
            let part = part_requested(request);
            answer_one_file(alloc, files, request, part, pes.into_file(), buffers, out)
        }
        OpenedFiles::ReadBoth(stl, pes) => answer_with_both_files(
            alloc, files, request, stl, pes, buffers, out,
        ),
        OpenedFiles::Write(stl, output) => {
            answer_and_write(alloc, files, request, stl, output, buffers, out)
        }
        OpenedFiles::Extract(recording, output) => {
            answer_and_extract(alloc, files, request, recording, output, buffers, out)
        }
    }
}

// Answers a request that names no file.
fn answer_without_files<K: Sink>(
    alloc: Global,
    request: &Request<'_>,
    out: &mut BufferedSink<'_, K>,
) -> Status
    requires { failures_with_refused_calls (K.failure_count out.old.device) out.old.refused ≡ 0 }
    ensures { EndsWith request.now IsEmptySource IsEmptySource ⊤ IsEmptyFile
        (BufferHoldsOneLineOnly K.contents K.failure_count K.is_push)
        (state_of_buffer K.contents K.failure_count out.old)
        (state_of_buffer K.contents K.failure_count out.new) result }
{
    answer_without_input(alloc, request, out)
}

// Answers a request that reads a part of one file.
fn answer_one_file<D: FileSystem, K: Sink>(
    alloc: Global,
    files: &mut D,
    request: &Request<'_>,
    part: Part,
    file: D::Input,
    room: &mut [u8],
    out: &mut BufferedSink<'_, K>,
) -> Status
    requires fits { (part ≡ specs.entire_file) ⊎ (reads_pes_packets request.now ≡ true) }
    requires room { 2 ≤ length room.old }
    requires out { failures_with_refused_calls (K.failure_count out.old.device) out.old.refused ≡
        0 }
    requires no_failures { D.Input.failure_count file ≡ 0 }
    ensures { EndsWithRelease (CallsInOrder D.is_call files.old files.new)
        (file_observations D.Input.remaining D.Input.failure_count
        D.Output.contents D.Output.failure_count D.Output.is_stored)
        D.Output.is_close request.now (sources part (Some file) None)
        (BufferHoldsOneLineOnly K.contents K.failure_count K.is_push)
        (state_of_buffer K.contents K.failure_count out.old)
        (state_of_buffer K.contents K.failure_count out.new) result }
{
    let (mut empty_memory, mut small_buffer) = ([0; 0], [0; 1]);
    let mut none = BufferedSink::new(MemSink::new(&mut empty_memory), &mut small_buffer);
    let whole = BufferedSource::new(file, room);
    let (status, whole) = answer_part(alloc, request, part, whole, &mut none, out);
    files.release_input(whole.into_inner());
    status
}

// Answers a request that reads a subtitle file, and a file of PES packets or a transport stream.
fn answer_with_both_files<D: FileSystem, K: Sink>(
    alloc: Global,
    files: &mut D,
    request: &Request<'_>,
    stl: StlFile<D::Input>,
    pes: PesFile<D::Input>,
    buffers: &mut [u8],
    out: &mut BufferedSink<'_, K>,
) -> Status
    requires reads { reads_pes_packets request.now ≡ false }
    requires buffers { 2 ≤ length buffers.old }
    requires out { failures_with_refused_calls (K.failure_count out.old.device) out.old.refused ≡
        0 }
    requires no_failures { (D.Input.failure_count stl ≡ 0) × (D.Input.failure_count pes ≡ 0) }
    ensures { EndsWithRelease (CallsInOrder D.is_call files.old files.new)
        (file_observations D.Input.remaining D.Input.failure_count
        D.Output.contents D.Output.failure_count D.Output.is_stored)
        D.Output.is_close request.now (sources specs.entire_file (Some stl) (Some pes))
        (BufferHoldsOneLineOnly K.contents K.failure_count K.is_push)
        (state_of_buffer K.contents K.failure_count out.old)
        (state_of_buffer K.contents K.failure_count out.new) result }
{
    let half_length = buffers.len() / 2;
    let (room, other) = buffers.split_at_mut(half_length);
    let mut first = BufferedSource::new(stl.into_file(), room);
    let second = BufferedSource::new(pes.into_file(), other);
    let (status, second) = answer_second_part(
        alloc,
        request,
        &mut first,
        part_requested(request),
        second,
        out,
    );
    files.release_input(first.into_inner());
    files.release_input(second.into_inner());
    status
}

// Answers a request that reads a subtitle file and writes a file.
fn answer_and_write<D: FileSystem, K: Sink>(
    alloc: Global,
    files: &mut D,
    request: &Request<'_>,
    stl: StlFile<D::Input>,
    output: CreatedFile<D::Output>,
    buffers: &mut [u8],
    out: &mut BufferedSink<'_, K>,
) -> Status
    requires reads { reads_pes_packets request.now ≡ false }
    requires buffers { 2 ≤ length buffers.old }
    requires out { failures_with_refused_calls (K.failure_count out.old.device) out.old.refused ≡
        0 }
    requires no_failures { (D.Input.failure_count stl ≡ 0) × (D.Output.failure_count output ≡ 0) }
    ensures { EndsWithRelease (CallsInOrder D.is_call files.old files.new)
        (file_observations D.Input.remaining D.Input.failure_count
        D.Output.contents D.Output.failure_count D.Output.is_stored)
        D.Output.is_close request.now (write_devices specs.entire_file stl output)
        (BufferHoldsOneLineOnly K.contents K.failure_count K.is_push)
        (state_of_buffer K.contents K.failure_count out.old)
        (state_of_buffer K.contents K.failure_count out.new) result }
{
    let half_length = buffers.len() / 2;
    let (room, other) = buffers.split_at_mut(half_length);
    let mut first = BufferedSource::new(stl.into_file(), room);
    let mut file = BufferedSink::new(output.into_file(), other);
    let status = answer_source(alloc, request, &mut first, &mut file, out);
    files.release_input(first.into_inner());
    files.release_output(file.into_inner());
    status
}

// Answers a request that reads a recording and writes a file.
fn answer_and_extract<D: FileSystem, K: Sink>(
    alloc: Global,
    files: &mut D,
    request: &Request<'_>,
    recording: PesFile<D::Input>,
    output: CreatedFile<D::Output>,
    buffers: &mut [u8],
    out: &mut BufferedSink<'_, K>,
) -> Status
    requires reads { reads_pes_packets request.now ≡ true }
    requires buffers { 2 ≤ length buffers.old }
    requires out { failures_with_refused_calls (K.failure_count out.old.device) out.old.refused ≡
        0 }
    requires no_failures { (D.Input.failure_count recording ≡ 0) ×
        (D.Output.failure_count output ≡ 0) }
    ensures { EndsWithRelease (CallsInOrder D.is_call files.old files.new)
        (file_observations D.Input.remaining D.Input.failure_count
        D.Output.contents D.Output.failure_count D.Output.is_stored)
        D.Output.is_close request.now
        (write_devices (specs.part_requested request.now) recording output)
        (BufferHoldsOneLineOnly K.contents K.failure_count K.is_push)
        (state_of_buffer K.contents K.failure_count out.old)
        (state_of_buffer K.contents K.failure_count out.new) result }
{
    let half_length = buffers.len() / 2;
    let (room, other) = buffers.split_at_mut(half_length);
    let first = BufferedSource::new(recording.into_file(), room);
    let mut file = BufferedSink::new(output.into_file(), other);
    let part = part_requested(request);
    let (status, first) = answer_part(alloc, request, part, first, &mut file, out);
    files.release_input(first.into_inner());
    files.release_output(file.into_inner());
    status
}
