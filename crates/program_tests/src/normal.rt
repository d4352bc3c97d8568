//! The output of `normal` for complete and rejected subtitle files.
use crate::answers::{assert_prints, assert_prints_of};
use answer_fixtures::answer_arguments;
use fixtures::{Drip, HEAD, RepeatingSource, block, commented, file_of_two, gsi, normal_form};
use std::alloc::Global;
use std::process::Abort;
use sub_answer::Status;
use sub_io::{FailAt, MemSink, MemSource, Sink};

/// The arguments of the command `normal` with the files `a` and `b`.
pub const NORMAL: [&str; 4] = ["subttx", "normal", "a", "b"];

// Asserts the line if one byte is changed in a file with a comment, user data and a subtitle.
fn assert_refuses(rt: &(impl Abort + Alloc<A = Global>), place: usize, value: u8, line: &[u8]) {
    let mut input = commented();
    assert!(rt; place < 1536);
    input[place] = value;
    // The output file has no room, so the test fails if any byte is written.
    assert_prints_of(rt, &NORMAL, &input, &[], line);
}

#[test]
fn refuses_a_gsi_block(rt: HostRuntime) {
    assert_refuses(&rt, 6, b'3', b"refused 11 Format block 0\n"); // DFC is STL35.01
    assert_refuses(&rt, 11, b'0', b"refused 13 Display block 0\n"); // DSC
    assert_refuses(&rt, 13, b'1', b"refused 14 Alphabet block 0\n"); // CCT
    let mut rate = commented();
    rate[3..11].copy_from_slice(b"STL30.01");
    assert_prints_of(&rt, &NORMAL, &rate, &[], b"refused 12 Rate block 0\n");
}

#[test]
fn refuses_a_block_at_its_first_fault(rt: HostRuntime) {
    assert_refuses(&rt, 1283, 0xF0, b"refused 15 Extension block 3\n"); // EBN
    assert_refuses(&rt, 1284, 1, b"refused 16 Cumulative block 3\n"); // CS
    assert_refuses(&rt, 1295, 2, b"refused 17 CommentFlag block 3\n"); // CF
    assert_refuses(&rt, 1294, 4, b"refused 18 Justify block 3\n"); // JC
    assert_refuses(&rt, 1293, 0, b"refused 19 Row block 3\n"); // VP
    assert_refuses(&rt, 1293, 24, b"refused 19 Row block 3\n");
    assert_refuses(&rt, 1288, 25, b"refused 20 Time block 3\n"); // TCI
    assert_refuses(&rt, 1291, 0, b"refused 21 EmptyTime block 3\n"); // TCO is TCI
    assert_refuses(&rt, 1287, 3, b"refused 21 EmptyTime block 3\n"); // TCI after TCO
    assert_refuses(&rt, 1409, 2, b"refused 22 Sequence block 4\n"); // SN of the last block
    assert_refuses(&rt, 1411, 0x01, b"refused 24 Unfinished block 4\n"); // its EBN
}

// Asserts the line and the number of bytes written for a file in memory.
fn assert_answers(
    rt: &(impl Abort + Alloc<A = Global>),
    input: &[u8],
    line: &[u8],
    written: usize,
) {
    let (mut input, mut none) = (MemSource::new(input), MemSource::new(&[]));
    let (mut buffer, mut text) = ([0; 1536], [0; 64]);
    let (mut file, mut out) = (MemSink::new(&mut buffer), MemSink::new(&mut text));
    let status = answer_arguments(
        rt.alloc(),
        &NORMAL,
        &mut input,
        &mut none,
        &mut file,
        &mut out,
    );
    let is_done = status == Status::Done;
    let is_right = out.written() == line && file.written().len() == written;
    assert!(rt; is_right && is_done == (written > 0));
}

// Asserts the line and the number of bytes written for the first bytes of a file, for each length
// in a range.
fn assert_answers_cuts(
    rt: &(impl Abort + Alloc<A = Global>),
    lengths: (usize, usize),
    line: &[u8],
    written: usize,
) {
    let input = commented();
    for len in lengths.0..lengths.1 {
        assert!(rt; len <= 1536);
        assert_answers(rt, &input[..len], line, written);
    }
}

#[test]
fn answers_files_of_each_length(rt: HostRuntime) {
    assert_answers_cuts(&rt, (0, 1024), b"refused 10 Truncated block 0\n", 0);
    assert_answers_cuts(&rt, (1024, 1025), b"written 0 subtitles\n", 1024);
    assert_answers_cuts(&rt, (1025, 1152), b"refused 10 Truncated block 1\n", 0);
    assert_answers_cuts(&rt, (1152, 1153), b"written 0 subtitles\n", 1024); // a comment
    assert_answers_cuts(&rt, (1153, 1280), b"refused 10 Truncated block 2\n", 0);
    assert_answers_cuts(&rt, (1280, 1281), b"written 0 subtitles\n", 1024); // and user data
    assert_answers_cuts(&rt, (1281, 1408), b"refused 10 Truncated block 3\n", 0);
    assert_answers_cuts(&rt, (1408, 1409), b"refused 24 Unfinished block 3\n", 0);
    assert_answers_cuts(&rt, (1409, 1536), b"refused 10 Truncated block 4\n", 0);
    assert_answers_cuts(&rt, (1536, 1537), b"written 1 subtitles\n", 1280);
}

#[test]
fn refuses_too_many_blocks(rt: HostRuntime) {
    // The source returns a subtitle file with comments without end.
    let mut long = RepeatingSource {
        rest: &gsi(),
        again: &[1; 128],
    };
    let line = b"refused 25 TooManyBlocks block 100000\n";
    let mut none = MemSource::new(&[]);
    assert_prints(&rt, &NORMAL, &mut long, &mut none, &[], line);
}

// Asserts the line if byte `byte` can't be read. Without the failure the file would be rejected.
fn assert_fails(rt: &(impl Abort + Alloc<A = Global>), byte: u64, line: &[u8]) {
    let mut input = commented();
    input[3] = b'x';
    let mut source = FailAt::new(Drip { rest: &input }, byte);
    let mut none = MemSource::new(&[]);
    assert_prints(rt, &NORMAL, &mut source, &mut none, &[], line);
}

#[test]
fn reports_a_failed_read_before_any_refusal(rt: HostRuntime) {
    assert_fails(&rt, 0, b"fault 26 Read block 0\n");
    assert_fails(&rt, 1023, b"fault 26 Read block 0\n");
    assert_fails(&rt, 1024, b"fault 26 Read block 1\n");
    assert_fails(&rt, 1151, b"fault 26 Read block 1\n");
    assert_fails(&rt, 1152, b"fault 26 Read block 2\n");
    assert_fails(&rt, 1536, b"fault 26 Read block 5\n");
}
