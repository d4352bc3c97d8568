//! The output of `show` for complete and rejected subtitle files.
use crate::answers::{assert_fills, assert_prints, assert_prints_of};
use fixtures::{HEAD, block, file_of, file_of_hi};
use std::alloc::Global;
use std::process::Abort;
use sub_io::{FailAt, MemSource};

const SHOW: [&str; 3] = ["subttx", "show", "a"];

// Asserts the output of `show` for a file, also if the output is too small.
fn assert_shows(rt: &(impl Abort + Alloc<A = Global>), file: &[u8], text: &[u8]) {
    assert_prints_of(rt, &SHOW, file, &[], text);
    assert_fills(rt, &SHOW, (file, &[]), &[], text);
}

// Asserts the output of `show` for the first `len` bytes of a file.
fn assert_shows_cut(rt: &(impl Abort + Alloc<A = Global>), len: usize, text: &[u8]) {
    let file = file_of_hi();
    assert!(rt; len <= 1152);
    assert_shows(rt, &file[..len], text);
}

#[test]
fn shows_no_subtitle_of_a_file_that_is_cut_before_it(rt: HostRuntime) {
    assert_shows_cut(&rt, 1023, b"refused 10 Truncated block 0\n");
    assert_shows_cut(&rt, 1024, b"0 subtitles\n");
}

#[test]
fn shows_subtitles(rt: HostRuntime) {
    let good = file_of_hi();
    let line = b"00001 10:00:00:00 10:00:02:00 vp 22 jc 2 text 0d0b0b48690a0a\n1 subtitles\n";
    assert_shows(&rt, &good, line);
    let no_text = file_of(&block(&HEAD, &[]));
    let empty = b"00001 10:00:00:00 10:00:02:00 vp 22 jc 2 text -\n1 subtitles\n";
    assert_shows(&rt, &no_text, empty);
}

#[test]
fn shows_subtitles_as_far_as_the_first_refusal(rt: HostRuntime) {
    let mut cut_file = [0x20; 1153];
    cut_file[..1152].copy_from_slice(&file_of(&block(&HEAD, &[])));
    let cut = b"00001 10:00:00:00 10:00:02:00 vp 22 jc 2 text -\nrefused 10 Truncated block 2\n";
    assert_shows(&rt, &cut_file, cut);
    let mut changed = file_of_hi();
    changed[1028] = 1;
    assert_shows(&rt, &changed, b"refused 16 Cumulative block 1\n");
    changed[10] = b'2';
    assert_shows(&rt, &changed, b"refused 11 Format block 0\n");
}

#[test]
fn keeps_the_lines_before_a_failed_read(rt: HostRuntime) {
    let good = file_of_hi();
    let (mut source, mut none) = (FailAt::new(MemSource::new(&good), 2), MemSource::new(&[]));
    let line =
        b"00001 10:00:00:00 10:00:02:00 vp 22 jc 2 text 0d0b0b48690a0a\nfault 26 Read block 2\n";
    assert_prints(&rt, &SHOW, &mut source, &mut none, &[], line);
}
