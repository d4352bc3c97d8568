//! Normal forms of subtitle files. Tests of the command `normal` cover rejected files and failing
//! devices.

use super::files::{ALONE, FIRST, LAST, sample_file};
use crate::asserting::assert_same;
use fixtures::{block, gsi, put};
use stl_file::{StlReader, normal, write_subtitle};
use sub_io::{MemSink, MemSource};

/// Returns the normal form of `sample_file`, without the comment and the user data.
fn expected() -> [u8; 1408] {
    let mut file = [0; 1408];
    put(&mut file, 0, &gsi());
    put(&mut file, 238, b"0000300002".as_slice());
    put(&mut file, 1024, &block(&FIRST, &[b'A'; 112]));
    put(&mut file, 1152, &block(&LAST, &[b'B'; 112]));
    put(&mut file, 1280, &block(&ALONE, b"Hi"));
    file
}

#[test]
fn writes_the_normal_form_and_that_again(rt: HostRuntime) {
    let want = expected();
    let mut buffer = [0; 2000];
    let mut sink = MemSink::new(&mut buffer);
    assert_same(&rt, &normal(&sample_file(), &mut sink), &Ok(2));
    assert!(rt; sink.written() == want.as_slice());
    let mut again = [0; 2000];
    let mut second = MemSink::new(&mut again);
    assert_same(&rt, &normal(&want, &mut second), &Ok(2));
    assert!(rt; second.written() == want.as_slice());
}

#[test]
fn writes_a_subtitle_in_the_fewest_blocks(rt: HostRuntime) {
    let file = sample_file();
    let mut source = MemSource::new(&file);
    let mut reader = StlReader::open(&mut source).expect(&rt, "it is read");
    let subtitle = reader
        .next(&mut source)
        .expect(&rt, "it is read")
        .expect(&rt, "it is read");
    let mut buffer = [0; 300];
    let mut sink = MemSink::new(&mut buffer);
    assert!(rt; write_subtitle(&subtitle, &mut sink) == Ok(2));
    let all = expected();
    let (_, blocks) = all.split_at(1024);
    let (want, _) = blocks.split_at(256);
    assert!(rt; sink.written() == want);
}
