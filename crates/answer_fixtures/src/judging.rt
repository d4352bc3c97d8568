//! Compares the output and the output file of a command with the expected bytes.
ghost use Rattle.sub_io.specs.Device.{CanFail};

use crate::asking::{answer_arguments, answer_with_all_option};
use crate::text::{
    first_lines, is_concatenation, status_of, text_after_trusted_lines, text_without_zeros,
};
use fixtures::Watched;
use std::alloc::Global;
use sub_answer::Status;
use sub_io::{MemSink, MemSource, Source};

/// Returns whether a command prints `prefix` followed by `end` for two sources, and returns the
/// status that the last line implies.
pub fn prints<'a, S: Source, T: Source>(
    alloc: Global,
    arguments: &'a [&'a str],
    first: &mut S,
    second: &mut T,
    prefix: &[u8],
    end: &[u8],
) -> bool
    requires first { CanFail (S.failure_count first.old) }
    requires second { CanFail (T.failure_count second.old) }
{
    let mut buffer = [0; 1024];
    let mut out = MemSink::new(&mut buffer);
    let mut file = MemSink::new(&mut []);
    let status = answer_arguments(alloc, arguments, first, second, &mut file, &mut out);
    is_concatenation(out.written(), prefix, end) && status == status_of(end)
}

/// Returns whether a command prints `prefix` followed by `end` for a file in memory, and returns
/// the status that the last line implies.
pub fn prints_for_file<'a>(
    alloc: Global,
    arguments: &'a [&'a str],
    file: &[u8],
    prefix: &[u8],
    end: &[u8],
) -> bool {
    let (mut file, mut none) = (MemSource::new(file), MemSource::new(&[]));
    prints(alloc, arguments, &mut file, &mut none, prefix, end)
}

// Returns whether a command prints `want` for two files in memory, and returns the status that the
// last line implies.
fn prints_for_two_files<'a>(
    alloc: Global,
    arguments: &'a [&'a str],
    first: &[u8],
    second: &[u8],
    want: &[u8],
) -> bool {
    let (mut first, mut second) = (MemSource::new(first), MemSource::new(second));
    prints(alloc, arguments, &mut first, &mut second, &[], want)
}

/// Returns whether `check --all` prints `prefix` followed by `end` for two files in memory, and
/// returns the status that the last line implies; and whether `check` prints the first of these
/// lines that is not a `trusted` line.
pub fn reports_every_line<'a>(
    alloc: Global,
    arguments: &'a [&'a str],
    first: &[u8],
    second: &[u8],
    prefix: &str,
    end: &str,
) -> bool {
    let mut buffer = [0; 1024];
    let status = answer_with_all_option(alloc, arguments, first, second, &mut buffer);
    let text = text_without_zeros(&buffer);
    if status != Some(status_of(text))
        || !is_concatenation(text, prefix.as_bytes(), end.as_bytes())
    {
        return false;
    }
    prints_for_two_files(
        alloc,
        arguments,
        first,
        second,
        first_lines(text_after_trusted_lines(text), 1),
    )
}

// Returns whether `check --all` agrees with the line that `check` prints. If the line does not
// start with `refused`, it is the only output. Otherwise it is the first line that is not a
// `trusted` line, and the last line is the number of faults.
fn reports_first_line<'a>(
    alloc: Global,
    arguments: &[&'a str],
    first: &[u8],
    second: &[u8],
    line: &[u8],
) -> bool {
    let mut buffer = [0; 4096];
    let status = answer_with_all_option(alloc, arguments, first, second, &mut buffer);
    let text = text_without_zeros(&buffer);
    let is_refused = line.starts_with(b"refused ");
    let end = if is_refused { b" faults\n" } else { line };
    let has_only_line = is_refused || text == line;
    let is_right = has_only_line
        && text_after_trusted_lines(text).starts_with(line)
        && text.ends_with(end);
    is_right && status == Some(status_of(text))
}

/// Returns whether a command prints `want` for two files in memory, and returns the status that
/// this line implies. For `check`, also returns whether the first line of `check --all` that is not
/// a `trusted` line is this line.
pub fn reports<'a>(
    alloc: Global,
    arguments: &'a [&'a str],
    first: &[u8],
    second: &[u8],
    want: &str,
) -> bool {
    let want = want.as_bytes();
    if arguments.len() > 2
        && arguments[1] == "check"
        && !reports_first_line(alloc, arguments, first, second, want)
    {
        return false;
    }
    prints_for_two_files(alloc, arguments, first, second, want)
}

// Returns whether an output that is too small receives the start of a text and is not used
// afterwards, whether the status is `Fault`, and whether the output file is complete.
fn writes_only_prefix<'a>(
    alloc: Global,
    arguments: &'a [&'a str],
    (first, second): (&[u8], &[u8]),
    written: &[u8],
    text: &[u8],
) -> bool {
    let mut buffer = [0; 256];
    if text.len() > buffer.len() {
        return false;
    }
    let mut out = Watched::new(MemSink::new(&mut buffer[..text.len()]));
    let mut file_buffer = [0; 1280];
    let mut file = MemSink::new(&mut file_buffer);
    let (mut first, mut second) = (MemSource::new(first), MemSource::new(second));
    let status = answer_arguments(
        alloc,
        arguments,
        &mut first,
        &mut second,
        &mut file,
        &mut out,
    );
    let stops_after_failure = status == Status::Fault && out.calls_after_failure == 0;
    stops_after_failure && out.inner.written() == text && file.written() == written
}

/// Returns whether each output that is smaller than a text receives the start of the text and is
/// not used afterwards, with the status `Fault` and a complete output file.
pub fn writes_every_prefix<'a>(
    alloc: Global,
    arguments: &'a [&'a str],
    read: (&[u8], &[u8]),
    written: &[u8],
    text: &[u8],
) -> bool {
    for len in 0..text.len() {
        if !writes_only_prefix(alloc, arguments, read, written, &text[..len]) {
            return false;
        }
    }
    true
}
