//! Assertions about the program's answers, with devices in memory.
ghost use Rattle.sub_io.specs.Device.{CanFail};

use answer_fixtures::{prints, reports, reports_every_line, writes_every_prefix};
use std::alloc::Global;
use std::process::Abort;
use sub_io::Source;

fn assert_is_right(rt: &impl Abort, is_right: bool, arguments: &[&str]) {
    assert!(rt; is_right, "{arguments:?}");
}

/// Asserts that a command prints `prefix` followed by `end` for two sources, and returns the status
/// that the last line implies.
pub fn assert_prints<'a, S: Source, T: Source>(
    rt: &(impl Abort + Alloc<A = Global>),
    arguments: &'a [&'a str],
    first: &mut S,
    second: &mut T,
    prefix: &[u8],
    end: &[u8],
)
    requires first { CanFail (S.failure_count first.old) }
    requires second { CanFail (T.failure_count second.old) }
{
    let is_right = prints(rt.alloc(), arguments, first, second, prefix, end);
    assert_is_right(rt, is_right, arguments);
}

/// Asserts the output of `check --all` for two files in memory, and the status; and that `check`
/// prints the first line that is not a `trusted` line.
pub fn assert_all<'a>(
    rt: &(impl Abort + Alloc<A = Global>),
    arguments: &'a [&'a str],
    first: &[u8],
    second: &[u8],
    prefix: &str,
    end: &str,
) {
    let is_right = reports_every_line(rt.alloc(), arguments, first, second, prefix, end);
    assert_is_right(rt, is_right, arguments);
}

/// Asserts the output of a command for two files in memory, and the status that the line implies.
/// For `check`, also asserts that the first line of `check --all` that is not a `trusted` line is
/// this line.
pub fn assert_reports<'a>(
    rt: &(impl Abort + Alloc<A = Global>),
    arguments: &'a [&'a str],
    first: &[u8],
    second: &[u8],
    want: &str,
) {
    assert_is_right(
        rt,
        reports(rt.alloc(), arguments, first, second, want),
        arguments,
    );
}

/// Asserts that each output that is smaller than a text receives the start of the text.
pub fn assert_fills<'a>(
    rt: &(impl Abort + Alloc<A = Global>),
    arguments: &'a [&'a str],
    read: (&[u8], &[u8]),
    written: &[u8],
    text: &[u8],
) {
    assert_is_right(
        rt,
        writes_every_prefix(rt.alloc(), arguments, read, written, text),
        arguments,
    );
}
