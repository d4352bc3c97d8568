//! `subttx` reads and checks Teletext subtitles from the command line.
//!
//! This is the top crate: `sub_words` parses the arguments as a `Request`, and `sub_answer` answers
//! the request with the files that it names.
#![tactic(auto)]

mod arguments;
mod in_memory;

ghost use Rattle.std.specs.Prelude.{◌≡◌, IfErr, IfOk};
ghost use Rattle.sub_io.specs.Buffered.{failures_with_refused_calls};
ghost use Rattle.sub_answer.specs.Ending.{BufferHoldsOneLineOnly, file_observations};
ghost use Rattle.sub_answer.specs.Ending.{state_of_buffer};
ghost use Rattle.sub_files.specs.FileCalls.{CallsInOrder};
ghost use Rattle.sub_headline.specs.Run.{RunAnswers, RunEnds, IsUsageFaultReason, RunsProgram};
ghost use Rattle.subttx.specs.Words.{arguments_given};

use crate::arguments::{collect_arguments, texts_of};
use std::alloc::Global;
use std::env::{Args, Env};
use std::fs::File;
use std::process::ExitCode;
use std::{env, io, str};
use sub_answer::{Status, open_and_answer, print_and_flush_usage_fault};
use sub_files::{
    BUFFER_SIZE, ErrorReporter, FileSystem, InputKinds, LookupResult, NAMES_CAPACITY,
    StreamInPlace, SystemFiles, explain_refusal, occupy_closed_stream, room,
};
use sub_io::{BufferedSink, IntoWrite, Sink};
use sub_request::{Request, UsageFault};
use sub_words::{ParseArguments, explain_usage};

// The size in bytes of the buffer for the line about a lack of memory or a closed stream.
const SMALL_BUFFER_SIZE: usize = 64;

fn main(rt: HostRuntime) -> ExitCode {
    match occupy_closed_streams(&rt) {
        Ok(streams) => ExitCode::from(run_with_system(&rt, streams.found())),
        Err(error) => {
            let _ = eprintln!(rt; "subttx: a standard stream is closed: {error}");
            let printer = ErrorReporter::standard_output(io::writer(&rt), &rt, None);
            ExitCode::from(refuse_to_begin(IntoWrite::new(printer)))
        }
    }
}

// The standard streams, with a folder in the place of each stream that is closed.
#[derive(Drop)]
struct Streams {
    input: StreamInPlace<File>,
    output: StreamInPlace<File>,
    errors: StreamInPlace<File>,
}

impl Streams {
    // Returns the folder in the place of a closed stream; `NothingFound` if no stream is closed.
    fn found(&self) -> LookupResult {
        match (self.input.found, self.output.found) {
            (LookupResult::NothingFound, LookupResult::NothingFound) => self.errors.found,
            (LookupResult::NothingFound, found) | (found, _) => found,
        }
    }
}

fn occupy_closed_streams(rt: &HostRuntime) -> io::Result<Streams> {
    Ok(Streams {
        input: occupy_closed_stream(rt, &rt.stdin())?,
        output: occupy_closed_stream(rt, &rt.stdout())?,
        errors: occupy_closed_stream(rt, &rt.stderr())?,
    })
}

// Prints that a file can't be opened, and returns the exit status.
fn refuse_to_begin<K: Sink + Drop>(standard_output: K) -> u8
    requires { K.failure_count standard_output ≡ 0 }
{
    let mut small_buffer = [0; SMALL_BUFFER_SIZE];
    let mut out = BufferedSink::new(standard_output, &mut small_buffer);
    print_and_flush_usage_fault(&UsageFault::Open, &mut out).code()
}

// Runs the program with the arguments and files of the system, and returns the exit status.
fn run_with_system(rt: &HostRuntime, closed_stream: LookupResult) -> u8 {
    let mut names = [0; NAMES_CAPACITY];
    let kinds = InputKinds::new();
    let time_fault = Some(&kinds.has_time_fault);
    let printer = ErrorReporter::standard_output(io::writer(rt), rt, time_fault);
    let run = run(
        rt.alloc(),
        env::args(rt),
        &mut SystemFiles::new(rt, &mut names, &kinds, closed_stream),
        IntoWrite::new(printer),
    );
    if run.code != Status::Done.code() {
        explain(rt, run.code, &kinds);
    }
    run.code
}

// Prints on standard error why the arguments are wrong, or which input has another format than the
// command reads or times in the wrong order. Prints nothing if neither is so, and may print nothing
// if memory runs out. Not inlined, since the stack of a run would then hold the names that only an
// explanation needs.
#[inline(never)]
fn explain(rt: &HostRuntime, code: u8, kinds: &InputKinds) {
    let arguments = match env::args(rt) {
        Ok(arguments) => arguments,
        Err(error) => {
            if code == Status::Fault.code() {
                explain_lost_arguments(rt, &error);
            }
            return;
        }
    };
    let Ok(arguments) = arguments.collect::<Vec<String>>(rt.alloc()) else {
        return;
    };
    let Some(texts) = texts_of(rt.alloc(), arguments.as_slice()) else {
        return;
    };
    if code == Status::Fault.code() {
        explain_usage(rt.alloc(), texts.as_slice(), rt);
    } else if let Ok(request) = Request::parse(rt.alloc(), texts.as_slice()) {
        explain_refusal(&request, kinds, rt);
    }
}

// Prints why the system returned no arguments.
fn explain_lost_arguments(rt: &HostRuntime, error: &io::Error) {
    let _ = match wrong_text_at(rt) {
        Some(place) => eprintln!(rt; "subttx: argument {place} is not UTF-8 text"),
        None => eprintln!(rt; "subttx: cannot read the command line: {error}"),
    };
}

// Returns the number of the first argument that is not UTF-8 text. The program's name is argument
// 0. Returns `None` if there is none, or if an argument up to it is longer than `NAMES_CAPACITY`
// bytes.
fn wrong_text_at(rt: &HostRuntime) -> Option<usize> {
    let mut text = [0; NAMES_CAPACITY];
    for place in 0..usize::MAX {
        let Ok(length) = rt.arg(place, &mut text) else {
            return None;
        };
        let (read, _) = text.split_at_checked(length)?;
        if str::from_utf8(read).is_err() {
            return Some(place);
        }
    }
    None
}

/// The result of a run of the program.
#[derive(Drop)]
pub(crate) struct Ended<K> {
    /// The program's exit status, 0 to 2.
    code: u8,
    /// Standard output after the run.
    standard_output: K,
}

// Runs the program: answers its arguments with its files and buffered standard output. Returns the
// exit status and standard output.
fn run<D: FileSystem, K: Sink>(
    alloc: Global,
    given: io::Result<Args>,
    files: &mut D,
    standard_output: K,
) -> Ended<K>
    requires { K.failure_count standard_output ≡ 0 }
    ensures { RunsProgram (CallsInOrder D.is_call files.old files.new)
        (file_observations D.Input.remaining D.Input.failure_count
        D.Output.contents D.Output.failure_count D.Output.is_stored)
        D.Output.is_close (arguments_given given)
        K.contents K.failure_count K.is_push
        standard_output result.standard_output result.code }
{
    match room(alloc, BUFFER_SIZE) {
        Some(mut room) => {
            let mut out = BufferedSink::new(standard_output, room.as_mut_slice());
            let status = answer_or_print_fault(alloc, given, files, &mut out);
            Ended {
                code: status.code(),
                standard_output: out.into_inner(),
            }
        }
        None => {
            let mut small_buffer = [0; SMALL_BUFFER_SIZE];
            let mut out = BufferedSink::new(standard_output, &mut small_buffer);
            let status = print_and_flush_usage_fault(&UsageFault::Memory, &mut out);
            Ended {
                code: status.code(),
                standard_output: out.into_inner(),
            }
        }
    }
}

// Answers the arguments, or prints the fault that prevents an answer.
fn answer_or_print_fault<D: FileSystem, K: Sink>(
    alloc: Global,
    given: io::Result<Args>,
    files: &mut D,
    out: &mut BufferedSink<'_, K>,
) -> Status
    requires { failures_with_refused_calls (K.failure_count out.old.device) out.old.refused ≡ 0 }
    ensures { RunEnds (CallsInOrder D.is_call files.old files.new)
        (file_observations D.Input.remaining D.Input.failure_count
        D.Output.contents D.Output.failure_count D.Output.is_stored)
        D.Output.is_close (arguments_given given)
        (BufferHoldsOneLineOnly K.contents K.failure_count K.is_push)
        (state_of_buffer K.contents K.failure_count out.old)
        (state_of_buffer K.contents K.failure_count out.new) result }
{
    match parse_and_answer(alloc, given, files, out) {
        Ok(status) => status,
        Err(fault) => print_and_flush_usage_fault(&fault, out),
    }
}

// Answers the arguments with the files that they name.
//
// # Errors
//
// Returns the fault that prevents an answer.
fn parse_and_answer<D: FileSystem, K: Sink>(
    alloc: Global,
    given: io::Result<Args>,
    files: &mut D,
    out: &mut BufferedSink<'_, K>,
) -> Result<Status, UsageFault>
    requires { failures_with_refused_calls (K.failure_count out.old.device) out.old.refused ≡ 0 }
    ensures ends { IfOk result (RunAnswers (CallsInOrder D.is_call files.old files.new)
        (file_observations D.Input.remaining D.Input.failure_count
        D.Output.contents D.Output.failure_count D.Output.is_stored)
        D.Output.is_close (arguments_given given)
        (BufferHoldsOneLineOnly K.contents K.failure_count K.is_push)
        (state_of_buffer K.contents K.failure_count out.old)
        (state_of_buffer K.contents K.failure_count out.new)) }
    ensures leaves_output_unchanged { IfErr result (λ _. out.new ≡ out.old) }
    ensures cause { IfErr result (IsUsageFaultReason (CallsInOrder D.is_call files.old files.new)
        (arguments_given given)) }
{
    let arguments = collect_arguments(alloc, given)?;
    let Some(texts) = texts_of(alloc, arguments.as_slice()) else {
        return Err(UsageFault::Memory);
    };
    let request = Request::parse(alloc, texts.as_slice())?;
    open_and_answer(alloc, files, &request, out)
}
