//! Devices in memory, devices over `std`, and failing devices.
ghost use Rattle.std.specs.Prelude.{◌<◌};
ghost use Rattle.sub_io.specs.Device.{CanFail};

use crate::asserting::{assert_same, assert_same_for_case};
use crate::device_calls::{assert_fills, assert_flushes, assert_puts};
use crate::interrupted::Interrupted;
use fixtures::CountingSource;
use std::io::Cursor;
use std::process::Abort;
use sub_io::{
    FailAt, Failed, Flush, FromRead, IntoWrite, MemSink, MemSource, Sink, Source, fill, put_all,
};

#[test]
fn gives_its_bytes_and_then_ends(rt: HostRuntime) {
    let mut source = MemSource::new(b"abcde");
    assert_fills(&rt, &mut source, Ok(3), b"abc", 0);
    assert_fills(&rt, &mut source, Ok(2), b"de\0", 0);
    assert_fills(&rt, &mut source, Ok(0), b"\0\0\0", 0);
}

// Asserts how many of a source's five bytes are read into a slice of length `buffer`, and the
// number of pulls.
fn assert_gets(rt: &impl Abort, buffer: usize, actual: usize, pulls: u64) {
    let inner = MemSource::new(b"abcde");
    let mut source = CountingSource { inner, pulls: 0 };
    let mut to = [0; 9];
    assert!(rt; buffer <= 9);
    assert_same(rt, &fill(&mut source, &mut to[..buffer]), &Ok(actual));
    assert_same(rt, &source.pulls, &pulls);
}

#[test]
fn reads_no_more_once_a_pull_gave_nothing(rt: HostRuntime) {
    assert_gets(&rt, 0, 0, 0);
    assert_gets(&rt, 5, 5, 1);
    // The last pull reaches the end of the source.
    assert_gets(&rt, 6, 5, 2);
    assert_gets(&rt, 9, 5, 2);
}

// Asserts the result of `put_all` for a sink in memory, and the contents of the sink afterwards.
fn assert_takes(
    rt: &impl Abort,
    sink: &mut MemSink,
    bytes: &[u8],
    answer: Result<(), Failed>,
    failures: u64,
    taken: &[u8],
)
    requires { CanFail sink.old.failure_count }
    ensures { CanFail sink.new.failure_count }
{
    assert_puts(rt, sink, bytes, answer, failures);
    assert!(rt; sink.written() == taken);
}

#[test]
fn takes_bytes_until_it_is_full(rt: HostRuntime) {
    let mut buffer = [0; 5];
    let mut sink = MemSink::new(&mut buffer);
    assert_takes(&rt, &mut sink, b"sub", Ok(()), 0, b"sub");
    assert_takes(&rt, &mut sink, b"", Ok(()), 0, b"sub");
    assert_takes(&rt, &mut sink, b"ttx", Err(Failed), 1, b"subtt");
    assert_takes(&rt, &mut sink, b"x", Err(Failed), 2, b"subtt");
}

#[test]
fn reads_and_counts_an_interrupted_call(rt: HostRuntime) {
    let mut source = FromRead::new(&b"abcde"[..]);
    assert_fills(&rt, &mut source, Ok(5), b"abcde\0\0\0\0\0\0", 0);
    let mut source = FromRead::new(Interrupted { calls: 9 });
    assert_fills(&rt, &mut source, Err(Failed), b"\0\0\0", 1);
}

#[test]
fn writes_and_counts_a_call_that_writes_nothing(rt: HostRuntime) {
    let mut sink = IntoWrite::new(Cursor::new([0u8; 5]));
    assert_puts(&rt, &mut sink, b"sub", Ok(()), 0);
    assert_flushes(&rt, &mut sink, Ok(()), 0);
    // The inner writer has room for two more bytes, and accepts no further bytes.
    assert_puts(&rt, &mut sink, b"ttx", Err(Failed), 1);

    let mut sink = IntoWrite::new(Interrupted { calls: 9 });
    assert_puts(&rt, &mut sink, b"x", Err(Failed), 1);
    assert_flushes(&rt, &mut sink, Err(Failed), 2);
}

// Asserts that call `number` of four calls of a source fails, and no other call.
fn assert_fails_to_read(rt: &impl Abort, number: u64) {
    let mut source = FailAt::new(MemSource::new(b"abcdef"), number);
    for call in 0..4 {
        assert!(rt; source.failures() < 9);
        let filled = fill(&mut source, &mut [0; 2]);
        assert_same_for_case(rt, &filled.is_err(), &(call == number), &call);
    }
    assert_same(rt, &source.failures(), &1);
}

// Asserts that call `number` of four calls of a sink fails, and no other call. The second of the
// four calls is a flush.
fn assert_fails_to_write(rt: &impl Abort, number: u64) {
    let mut buffer = [0; 6];
    let mut sink = FailAt::new(MemSink::new(&mut buffer), number);
    for call in 0..4 {
        assert!(rt; sink.failures() < 9);
        let put = if call == 1 {
            sink.flush()
        } else {
            put_all(&mut sink, b"x")
        };
        assert_same_for_case(rt, &put.is_err(), &(call == number), &call);
    }
    assert_same(rt, &sink.failures(), &1);
}

#[test]
fn fails_at_one_call_and_at_no_other(rt: HostRuntime) {
    for number in 0..3 {
        assert_fails_to_read(&rt, number);
        assert_fails_to_write(&rt, number);
    }
}
