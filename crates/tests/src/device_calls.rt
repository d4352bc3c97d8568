//! Assertions about one call of a device: its result, and the number of failed calls afterwards.
ghost use Rattle.std.specs.Prelude.{◌<◌};
ghost use Rattle.sub_io.specs.Device.{CanFail};

use crate::asserting::assert_same;
use std::process::Abort;
use sub_io::{Close, Failed, Flush, Sink, Source, fill, put_all};

/// Asserts the result of `pull` for a slice of zeros, and the contents of the slice afterwards.
pub fn assert_pulls<S: Source>(
    rt: &impl Abort,
    source: &mut S,
    answer: Result<usize, Failed>,
    slice: &[u8],
    failures: u64,
)
    requires { CanFail (S.failure_count source.old) }
    ensures { CanFail (S.failure_count source.new) }
{
    let mut buffer = [0; 12];
    assert!(rt; slice.len() <= 12);
    assert_same(rt, &source.pull(&mut buffer[..slice.len()]), &answer);
    assert!(rt; buffer.starts_with(slice));
    assert!(rt; source.failures() == failures && failures < 9);
}

/// Asserts the result of `fill` for a slice of zeros, and the contents of the slice afterwards.
pub fn assert_fills<S: Source>(
    rt: &impl Abort,
    source: &mut S,
    answer: Result<usize, Failed>,
    slice: &[u8],
    failures: u64,
)
    requires { CanFail (S.failure_count source.old) }
    ensures { CanFail (S.failure_count source.new) }
{
    let mut buffer = [0; 12];
    assert!(rt; slice.len() <= 12);
    assert_same(rt, &fill(source, &mut buffer[..slice.len()]), &answer);
    assert!(rt; buffer.starts_with(slice));
    assert!(rt; source.failures() == failures && failures < 9);
}

/// Asserts the result of `push`, and the number of failed calls afterwards.
pub fn assert_pushes<K: Sink>(
    rt: &impl Abort,
    sink: &mut K,
    bytes: &[u8],
    answer: Result<usize, Failed>,
    failures: u64,
)
    requires { CanFail (K.failure_count sink.old) }
    ensures { CanFail (K.failure_count sink.new) }
{
    assert!(rt; !bytes.is_empty());
    assert_same(rt, &sink.push(bytes), &answer);
    assert!(rt; sink.failures() == failures && failures < 9);
}

/// Asserts the result of `put_all`, and the number of failed calls afterwards.
pub fn assert_puts<K: Sink>(
    rt: &impl Abort,
    sink: &mut K,
    bytes: &[u8],
    answer: Result<(), Failed>,
    failures: u64,
)
    requires { CanFail (K.failure_count sink.old) }
    ensures { CanFail (K.failure_count sink.new) }
{
    assert_same(rt, &put_all(sink, bytes), &answer);
    assert!(rt; sink.failures() == failures && failures < 9);
}

/// Asserts the result of `flush`, and the number of failed calls afterwards.
pub fn assert_flushes<F: Flush>(
    rt: &impl Abort,
    sink: &mut F,
    answer: Result<(), Failed>,
    failures: u64,
)
    requires { CanFail (F.failure_count sink.old) }
    ensures { CanFail (F.failure_count sink.new) }
{
    assert_same(rt, &sink.flush(), &answer);
    assert!(rt; sink.failures() == failures && failures < 9);
}

/// Asserts the result of `store`, and the number of failed calls afterwards.
pub fn assert_stores<F: Close>(
    rt: &impl Abort,
    sink: &mut F,
    answer: Result<(), Failed>,
    failures: u64,
)
    requires { CanFail (F.failure_count sink.old) }
    ensures { CanFail (F.failure_count sink.new) }
{
    assert_same(rt, &sink.store(), &answer);
    assert!(rt; sink.failures() == failures && failures < 9);
}
