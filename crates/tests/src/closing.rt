//! Sinks that are stored and closed before they are dropped.
ghost use Rattle.std.specs.Prelude.{None};

use crate::device_calls::{assert_flushes, assert_pushes, assert_puts, assert_stores};
use crate::interrupted::Interrupted;
use std::fs::{Metadata, OpenFile};
use std::io::{self, Cursor, ErrorKind, Write};
use std::process::Abort;
use sub_io::{BufferedSink, Close, FailAt, Failed, IntoFile, MemSink};

// A file that accepts all bytes. Storing it returns the system error `errno`, or succeeds if
// `errno` is 0.
#[derive(Drop)]
struct Answering {
    errno: i32,
}

impl Write for Answering {
    ghost contents = { λ _. None };

    fn write(&mut self, from: &[u8]) -> io::Result<usize> {
        Ok(from.len())
    }

    fn flush(&mut self) -> io::Result<()> {
        Ok(())
    }
}

impl OpenFile for Answering {
    fn metadata(&self) -> io::Result<Metadata> {
        Err(ErrorKind::Unsupported.into())
    }

    fn set_len(&self, _size: u64) -> io::Result<()> {
        Err(ErrorKind::Unsupported.into())
    }

    fn sync_all(&self) -> io::Result<()> {
        if self.errno == 0 {
            return Ok(());
        }
        Err(io::Error::from_raw_os_error(self.errno))
    }

    fn sync_data(&self) -> io::Result<()> {
        Err(ErrorKind::Unsupported.into())
    }
}

#[test]
fn a_closed_file_takes_nothing(rt: HostRuntime) {
    let mut sink = IntoFile::new(Interrupted { calls: 0 });
    assert_puts(&rt, &mut sink, b"sub", Ok(()), 0);
    sink.close();
    assert_pushes(&rt, &mut sink, b"t", Err(Failed), 1);
    assert_stores(&rt, &mut sink, Err(Failed), 2);

    // The inner writer has room for five bytes, and accepts no further bytes.
    let mut sink = IntoFile::new(Cursor::new([0u8; 5]));
    assert_puts(&rt, &mut sink, b"subttx", Err(Failed), 1);
}

#[test]
fn buffered_bytes_are_not_written_by_closing(rt: HostRuntime) {
    let mut buffer = [0; 4];
    let mut sink = BufferedSink::new(IntoFile::new(Interrupted { calls: 0 }), &mut buffer);
    assert_pushes(&rt, &mut sink, b"sub", Ok(3), 0);
    sink.close();
    assert_flushes(&rt, &mut sink, Err(Failed), 1);
}

// Asserts the result of storing a file, with and without a buffer, if the system returns `errno`.
fn assert_stored(rt: &impl Abort, errno: i32, answer: Result<(), Failed>, failures: u64) {
    let mut sink = IntoFile::new(Answering { errno });
    assert_puts(rt, &mut sink, b"sub", Ok(()), 0);
    assert_stores(rt, &mut sink, answer, failures);
    let mut buffer = [0; 4];
    let mut sink = BufferedSink::new(IntoFile::new(Answering { errno }), &mut buffer);
    assert_pushes(rt, &mut sink, b"sub", Ok(3), 0);
    assert_stores(rt, &mut sink, answer, failures);
}

#[test]
fn a_file_is_stored_where_nothing_is_lost(rt: HostRuntime) {
    // With EINVAL, ENOSYS and ENOTSUP the file is a pipe, a terminal or a device, which stores
    // nothing. This is not a failure.
    for errno in [0, 22, 38, 95] {
        assert_stored(&rt, errno, Ok(()), 0);
    }
    // With EIO, EBADF, ENOSPC, EROFS, ESTALE and EDQUOT storing has failed.
    for errno in [5, 9, 28, 30, 116, 122] {
        assert_stored(&rt, errno, Err(Failed), 1);
    }
}

#[test]
fn buffered_bytes_are_written_before_it_is_stored(rt: HostRuntime) {
    let (mut bytes, mut buffer) = ([0; 8], [0; 4]);
    let mut sink = BufferedSink::new(MemSink::new(&mut bytes), &mut buffer);
    assert_pushes(&rt, &mut sink, b"sub", Ok(3), 0);
    assert_stores(&rt, &mut sink, Ok(()), 0);
    assert!(rt; sink.into_inner().written() == b"sub".as_slice());

    // In the first case writing the buffer fails, so nothing is stored. In the second case storing
    // fails.
    for call in 0..2 {
        let (mut bytes, mut buffer) = ([0; 8], [0; 4]);
        let inner = FailAt::new(MemSink::new(&mut bytes), call);
        let mut sink = BufferedSink::new(inner, &mut buffer);
        assert_pushes(&rt, &mut sink, b"sub", Ok(3), 0);
        assert_stores(&rt, &mut sink, Err(Failed), 1);
        assert_stores(&rt, &mut sink, Err(Failed), 2);
    }
}
