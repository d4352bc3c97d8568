//! Buffered devices: the number of calls of the inner device, and the bytes in each call.
ghost use Rattle.std.specs.Prelude.{◌≡◌, ◌+◌, ◌<◌, ◌≤◌, None, length};
ghost use Rattle.std.specs.Io.{ReadsAtMost};
ghost use Rattle.sub_io.specs.Device.{CountsFailure, Pulls, Pushes};

use crate::asserting::assert_same;
use crate::device_calls::{assert_flushes, assert_pulls, assert_pushes, assert_puts};
use crate::interrupted::Interrupted;
use sub_io::{
    BufferedSink, BufferedSource, FailAt, Failed, FromRead, IntoFile, IntoWrite, MemSink,
    MemSource, Sink, Source,
};

// A source that fills each slice with the length of the slice. The first byte of each slice is the
// number of calls so far.
#[derive(Drop)]
struct Borrowed {
    calls: u8,
}

impl Source for Borrowed {
    ghost remaining = { λ _. None };

    ghost failure_count = { λ _. 0 };

    fn pull(&mut self, to: &mut [u8]) -> Result<usize, Failed> {
        self.calls = self.calls.wrapping_add(1);
        let len = to.len();
        to.fill((len % 256) as u8);
        if len > 0 {
            to[0] = self.calls;
        }
        Ok(len)
    }

    fn failures(&self) -> u64 {
        0
    }

    fn skip_bytes(&mut self, _count: usize) -> bool {
        false
    }
}

// A sink that accepts as many bytes as the last byte of the slice states, but at least one and at
// most all.
#[derive(Drop)]
struct LastByteSink;

impl Sink for LastByteSink {
    ghost contents = { λ _. None };

    ghost failure_count = { λ _. 0 };

    fn push(&mut self, from: &[u8]) -> Result<usize, Failed> {
        let last = from[from.len() - 1] as usize;
        Ok(last.clamp(1, from.len()))
    }

    fn failures(&self) -> u64 {
        0
    }
}

#[test]
fn reads_once_and_only_where_nothing_is_buffered(rt: HostRuntime) {
    let mut buffer = [0; 4];
    let mut source = BufferedSource::new(Borrowed { calls: 0 }, &mut buffer);
    assert_pulls(&rt, &mut source, Ok(2), &[1, 4], 0);
    // The buffer contains fewer bytes than the slice has room for, and the inner source is not
    // called.
    assert_pulls(&rt, &mut source, Ok(2), &[4, 4, 0], 0);
    // A pull that is longer than the buffer bypasses it.
    assert_pulls(&rt, &mut source, Ok(5), &[2, 5, 5, 5, 5], 0);
    assert_pulls(&rt, &mut source, Ok(3), &[3, 4, 4], 0);
}

#[test]
fn forwards_the_slice_that_it_borrows(rt: HostRuntime) {
    let mut source = FailAt::new(Borrowed { calls: 0 }, 9);
    assert_pulls(&rt, &mut source, Ok(5), &[1, 5, 5, 5, 5], 0);
    let mut sink = FailAt::new(LastByteSink, 9);
    assert_pushes(&rt, &mut sink, &[9, 9, 9, 9, 3], Ok(3), 0);
}

#[test]
fn a_failed_pull_is_not_made_again(rt: HostRuntime) {
    let mut buffer = [0; 4];
    let mut source = BufferedSource::new(FailAt::new(MemSource::new(b"abcdef"), 1), &mut buffer);
    assert_pulls(&rt, &mut source, Ok(4), b"abcd", 0);
    assert_pulls(&rt, &mut source, Err(Failed), b"\0\0\0", 1);
    assert_pulls(&rt, &mut source, Ok(2), b"ef\0", 1);
}

#[test]
fn flushes_all_at_a_flush(rt: HostRuntime) {
    let mut taken = [0; 12];
    let mut buffer = [0; 4];
    let mut sink = BufferedSink::new(MemSink::new(&mut taken), &mut buffer);
    assert_puts(&rt, &mut sink, b"sub", Ok(()), 0);
    assert_puts(&rt, &mut sink, b"ttx 1.0", Ok(()), 0);
    assert_flushes(&rt, &mut sink, Ok(()), 0);
    assert_same(&rt, &taken, b"subttx 1.0\0\0");
}

#[test]
fn flushes_nothing_when_it_ends(rt: HostRuntime) {
    let mut taken = [0; 6];
    let mut buffer = [0; 4];
    let mut sink = BufferedSink::new(MemSink::new(&mut taken), &mut buffer);
    assert_puts(&rt, &mut sink, b"sub", Ok(()), 0);
    assert_puts(&rt, &mut sink, b"tt", Ok(()), 0);
    // The last byte, "t", is still in the buffer.
    assert_same(&rt, &taken, b"subt\0\0");
}

#[test]
fn flushes_nothing_after_a_failure(rt: HostRuntime) {
    let mut taken = [0; 12];
    let mut buffer = [0; 4];
    let failing_sink = FailAt::new(MemSink::new(&mut taken), 1);
    let mut sink = BufferedSink::new(failing_sink, &mut buffer);
    assert_puts(&rt, &mut sink, b"sub", Ok(()), 0);
    assert_puts(&rt, &mut sink, b"ttx", Ok(()), 0);
    assert_flushes(&rt, &mut sink, Err(Failed), 1);
    assert_flushes(&rt, &mut sink, Err(Failed), 2);
    assert_pushes(&rt, &mut sink, b"1.0", Err(Failed), 3);
    assert_same(&rt, &taken, b"subt\0\0\0\0\0\0\0\0");
}

#[test]
fn a_long_push_goes_straight_through(rt: HostRuntime) {
    let mut buffer = [0; 4];
    let mut sink = BufferedSink::new(LastByteSink, &mut buffer);
    assert_pushes(&rt, &mut sink, &[9, 9, 9, 9, 3], Ok(3), 0);
    assert_pushes(&rt, &mut sink, &[9, 9, 2], Ok(3), 0);
    assert_pushes(&rt, &mut sink, &[9, 9, 9, 9, 3], Ok(1), 0);
}

#[test]
fn an_interrupted_read_is_not_made_again(rt: HostRuntime) {
    let mut source = FromRead::new(Interrupted { calls: 1 });
    assert_pulls(&rt, &mut source, Err(Failed), &[0, 0], 1);
    assert_pulls(&rt, &mut source, Ok(2), &[0, 0], 1);

    let mut buffer = [0; 4];
    let mut source = BufferedSource::new(FromRead::new(Interrupted { calls: 1 }), &mut buffer);
    assert_pulls(&rt, &mut source, Err(Failed), &[0, 0], 1);
    assert_pulls(&rt, &mut source, Ok(2), &[0, 0], 1);
}

#[test]
fn an_interrupted_write_is_not_made_again(rt: HostRuntime) {
    let mut sink = IntoWrite::new(Interrupted { calls: 1 });
    assert_pushes(&rt, &mut sink, b"x", Err(Failed), 1);
    assert_pushes(&rt, &mut sink, b"x", Ok(1), 1);

    let mut sink = IntoFile::new(Interrupted { calls: 1 });
    assert_pushes(&rt, &mut sink, b"x", Err(Failed), 1);
    assert_pushes(&rt, &mut sink, b"x", Ok(1), 1);
}

#[test]
fn an_interrupted_flush_is_not_made_again(rt: HostRuntime) {
    let mut sink = IntoWrite::new(Interrupted { calls: 1 });
    assert_flushes(&rt, &mut sink, Err(Failed), 1);
    assert_flushes(&rt, &mut sink, Ok(()), 1);

    let mut sink = IntoFile::new(Interrupted { calls: 1 });
    assert_flushes(&rt, &mut sink, Err(Failed), 1);
    assert_flushes(&rt, &mut sink, Ok(()), 1);

    let mut buffer = [0; 4];
    let mut sink = BufferedSink::new(IntoWrite::new(Interrupted { calls: 1 }), &mut buffer);
    assert_pushes(&rt, &mut sink, b"x", Ok(1), 0);
    assert_flushes(&rt, &mut sink, Err(Failed), 1);
    assert_flushes(&rt, &mut sink, Err(Failed), 2);
}
