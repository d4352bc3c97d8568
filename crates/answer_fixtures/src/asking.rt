//! Arguments of commands, and functions that answer them.
ghost use Rattle.sub_io.specs.Device.{CanFail};

use std::alloc::Global;
use sub_answer::{Status, answer, print_usage_fault};
use sub_io::{Close, Flush, MemSink, MemSource, Source};
use sub_request::Request;
use sub_words::ParseArguments;

/// The arguments of a check with the default options.
pub const CHECK: [&str; 4] = ["subttx", "check", "a", "b"];

/// The arguments of a check with the default options and `--all`.
pub const CHECK_ALL: [&str; 5] = ["subttx", "check", "--all", "a", "b"];

/// The line that a check prints for the subtitle file with `Hi` and its schedule.
pub const ACCEPTED: &str = "accepted 51 frames 2 transmissions\n";

/// The arguments of a schedule with the default options.
pub const SCHEDULE: [&str; 4] = ["subttx", "schedule", "a", "b"];

/// Answers the command in the arguments with two sources, an output file and an output.
pub fn answer_arguments<'a, S: Source, T: Source, F: Close, K: Flush>(
    alloc: Global,
    arguments: &'a [&'a str],
    first: &mut S,
    second: &mut T,
    file: &mut F,
    out: &mut K,
) -> Status
    requires first { CanFail (S.failure_count first.old) }
    requires second { CanFail (T.failure_count second.old) }
    requires file { CanFail (F.failure_count file.old) }
    requires out { CanFail (K.failure_count out.old) }
{
    match Request::parse(alloc, arguments) {
        Ok(request) => { answer::<S, T, F, K>(alloc, &request, first, second, file, out) }
        Err(fault) => print_usage_fault(&fault, out),
    }
}

/// Answers the arguments of a check, followed by `--all`, with two files in memory; `None` if there
/// are too many arguments.
pub(crate) fn answer_with_all_option<'a>(
    alloc: Global,
    arguments: &[&'a str],
    first: &[u8],
    second: &[u8],
    buffer: &mut [u8],
) -> Option<Status> {
    let mut arguments_with_all = ["--all"; 20];
    let len = arguments.len();
    if len >= 20 {
        return None;
    }
    arguments_with_all[..len].copy_from_slice(arguments);
    let (mut first, mut second) = (MemSource::new(first), MemSource::new(second));
    let (mut file, mut out) = (MemSink::new(&mut []), MemSink::new(buffer));
    let arguments = &arguments_with_all[..len + 1];
    let status = answer_arguments(
        alloc,
        arguments,
        &mut first,
        &mut second,
        &mut file,
        &mut out,
    );
    Some(status)
}
