//! Files whose size is checked after they were closed.
ghost use Rattle.std.specs.Prelude.{◌<◌};
ghost use Rattle.sub_io.specs.Device.{CanFail};

use crate::asserting::{assert_same, assert_same_for_case};
use crate::files_in_memory::MemoryFile;
use std::io::Write;
use std::process::Abort;
use sub_files::{CheckedFile, SizeLookup};
use sub_io::{Close, Failed, Flush, IntoFile, Sink};

// A size check that reports this number of bytes for any file.
#[derive(Clone, Copy)]
struct FixedSizeLookup(u64);

impl SizeLookup for FixedSizeLookup {
    ghost is_size_lookup = { λ _ _ _. Unit {0} };

    fn has_all_bytes<W: Write>(&self, _file: &IntoFile<W>, length: u64) -> bool {
        self.0 == length
    }
}

// Asserts the result of `push`, and the number of failed calls afterwards.
fn assert_pushes<K: Sink>(
    rt: &impl Abort,
    sink: &mut K,
    bytes: &[u8],
    answer: Result<usize, Failed>,
    failures: u64,
)
    requires { CanFail (K.failure_count sink.old) }
    ensures { CanFail (K.failure_count sink.new) }
{
    assert!(rt; !bytes.is_empty());
    assert_same(rt, &sink.push(bytes), &answer);
    assert!(rt; sink.failures() == failures && failures < 9);
}

// Asserts the result of `flush`, and the number of failed calls afterwards.
fn assert_flushes<K: Flush>(
    rt: &impl Abort,
    sink: &mut K,
    answer: Result<(), Failed>,
    failures: u64,
)
    requires { CanFail (K.failure_count sink.old) }
    ensures { CanFail (K.failure_count sink.new) }
{
    assert_same(rt, &sink.flush(), &answer);
    assert!(rt; sink.failures() == failures && failures < 9);
}

// Asserts the result of `store`, and that `push` fails afterwards.
fn assert_stores<K: Close>(
    rt: &impl Abort,
    sink: &mut K,
    found: u64,
    answer: Result<(), Failed>,
    failures: u64,
)
    requires { CanFail (K.failure_count sink.old) }
    ensures { CanFail (K.failure_count sink.new) }
{
    assert_same_for_case(rt, &sink.store(), &answer, &found);
    assert!(rt; sink.failures() == failures && failures < 9);
    assert_pushes(rt, sink, b"!", Err(Failed), failures + 1);
}

// Asserts the result of storing six bytes if the closed file has `found` bytes.
fn assert_stores_size(rt: &impl Abort, found: u64, answer: Result<(), Failed>, failures: u64) {
    let mut buffer = [0; 8];
    let mut file = CheckedFile::new(MemoryFile::Created(&mut buffer, 0), FixedSizeLookup(found));
    assert_pushes(rt, &mut file, b"sub", Ok(3), 0);
    assert_pushes(rt, &mut file, b"ttx", Ok(3), 0);
    assert_stores(rt, &mut file, found, answer, failures);
}

#[test]
fn a_file_is_stored_where_all_of_it_is_found(rt: HostRuntime) {
    assert_stores_size(&rt, 6, Ok(()), 0);
    for found in [0, 3, 5, 7, u64::MAX] {
        assert_stores_size(&rt, found, Err(Failed), 1);
    }
}

#[test]
fn a_stored_file_can_not_be_flushed(rt: HostRuntime) {
    let mut buffer = [0; 8];
    let mut file = CheckedFile::new(MemoryFile::Created(&mut buffer, 0), FixedSizeLookup(3));
    assert_pushes(&rt, &mut file, b"sub", Ok(3), 0);
    assert_flushes(&rt, &mut file, Ok(()), 0);
    assert_stores(&rt, &mut file, 3, Ok(()), 0);
    assert_flushes(&rt, &mut file, Err(Failed), 2);
}
