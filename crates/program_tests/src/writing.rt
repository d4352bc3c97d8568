//! The bytes that `normal` and `schedule` write if a device fails, and if no device fails.
ghost use Rattle.sub_io.specs.Device.{CanFail};

use crate::answers::assert_fills;
use crate::normal::NORMAL;
use answer_fixtures::{SCHEDULE, answer_arguments};
use fixtures::{Watched, commented, file_of_hi, normal_form, schedule_of_hi};
use std::alloc::Global;
use std::process::Abort;
use sub_answer::Status;
use sub_io::{Close, FailAt, MemSink, MemSource, Sink};

// Asserts the line and the status of a command that writes a file.
fn assert_writes<'a, F: Close>(
    rt: &(impl Abort + Alloc<A = Global>),
    arguments: &'a [&'a str],
    input: &[u8],
    file: &mut F,
    line: &[u8],
    want: Status,
)
    requires { CanFail (F.failure_count file.old) }
{
    let mut buffer = [0; 64];
    let mut out = MemSink::new(&mut buffer);
    let (mut input, mut none) = (MemSource::new(input), MemSource::new(&[]));
    let status = answer_arguments(rt.alloc(), arguments, &mut input, &mut none, file, &mut out);
    assert!(rt; status == want && out.written() == line, "{arguments:?}");
}

// Asserts that an output file that is too small receives the start of the bytes, and is not used
// after the failed call.
fn assert_cuts<'a>(
    rt: &(impl Abort + Alloc<A = Global>),
    arguments: &'a [&'a str],
    input: &[u8],
    written: &[u8],
    fault: &[u8],
) {
    let mut buffer = [0; 1280];
    assert!(rt; written.len() <= buffer.len());
    let mut file = Watched::new(MemSink::new(&mut buffer[..written.len()]));
    assert_writes(rt, arguments, input, &mut file, fault, Status::Fault);
    assert!(rt;
        file.inner.written() == written && file.calls_after_failure == 0,
        "{arguments:?}"
    );
}

// Asserts that the output file is not used after call `call`, which fails.
fn assert_stops<'a>(
    rt: &(impl Abort + Alloc<A = Global>),
    arguments: &'a [&'a str],
    input: &[u8],
    call: u64,
    fault: &[u8],
) {
    let mut buffer = [0; 1280];
    let mut file = Watched::new(FailAt::new(MemSink::new(&mut buffer), call));
    assert_writes(rt, arguments, input, &mut file, fault, Status::Fault);
    assert!(rt; file.calls_after_failure == 0, "{arguments:?}, call {call}");
}

// Asserts the complete output file and the line, also if the output is too small.
fn assert_writes_all<'a>(
    rt: &(impl Abort + Alloc<A = Global>),
    arguments: &'a [&'a str],
    input: &[u8],
    written: &[u8],
    line: &[u8],
) {
    let mut buffer = [0; 1280];
    let mut file = MemSink::new(&mut buffer);
    assert_writes(rt, arguments, input, &mut file, line, Status::Done);
    assert!(rt; file.written() == written, "{arguments:?}");
    assert_fills(rt, arguments, (input, &[]), written, line);
}

// Asserts the bytes written and the line if the output file is too small, if one of its three calls
// fails, and if no call fails.
fn assert_devices<'a>(
    rt: &(impl Abort + Alloc<A = Global>),
    arguments: &'a [&'a str],
    input: &[u8],
    written: &[u8],
    line: &[u8],
    fault: &[u8],
) {
    for len in 0..written.len() {
        assert_cuts(rt, arguments, input, &written[..len], fault);
    }
    for call in 0..3 {
        assert_stops(rt, arguments, input, call, fault);
    }
    assert_writes_all(rt, arguments, input, written, line);
}

#[test]
fn normal_writes_a_prefix_where_a_device_fails(rt: HostRuntime) {
    // The calls of the output file: the GSI block, the subtitle, and `store`.
    let (line, fault) = (b"written 1 subtitles\n", b"fault 29 Write\n");
    assert_devices(&rt, &NORMAL, &commented(), &normal_form(), line, fault);
}

#[test]
fn schedule_writes_a_prefix_where_a_device_fails(rt: HostRuntime) {
    // The calls of the output file: two pushes, and `store`.
    let (line, fault) = (b"written 2 transmissions\n", b"fault 42 Write\n");
    assert_devices(
        &rt,
        &SCHEDULE,
        &file_of_hi(),
        &schedule_of_hi(),
        line,
        fault,
    );
}
