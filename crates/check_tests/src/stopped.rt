//! Failing devices, and devices that never end, with `check --all`. Everything found before is
//! reported, and the failure last, if the output accepts its line.
use crate::answers::{assert_fills, assert_prints};
use crate::asserting::assert_same_for_case;
use crate::every_fault::FAULTS_OF_FIVE;
use answer_fixtures::{ACCEPTED, CHECK_ALL, answer_arguments, first_lines};
use fixtures::{
    CountingSource, Drip, FIRST, RepeatingSource, file_of_five, file_of_hi, schedule_of_hi,
};
use std::alloc::Global;
use std::process::Abort;
use sub_answer::Status;
use sub_io::{FailAt, MemSink, MemSource, Sink};

// The arguments of a check of page 100, which is not sent.
const PAGE_100: [&str; 7] = ["subttx", "check", "--all", "a", "b", "--page", "100"];

// The lines for the schedule for `Hi`, checked for page 100: after its first PES packet, after its
// second PES packet, and at the end.
const AT_FIRST: &[u8] = b"refused 71 NoFirstHeader frame 10:00:00:00\n\
    refused 72 Content frame 10:00:00:00 row 22 column 16\n";

const AT_BOTH: &[u8] = b"refused 71 NoFirstHeader frame 10:00:00:00\n\
    refused 72 Content frame 10:00:00:00 row 22 column 16\n\
    ended 72 Content frame 10:00:01:24\n";

const ALL: &[u8] = b"refused 71 NoFirstHeader frame 10:00:00:00\n\
    refused 72 Content frame 10:00:00:00 row 22 column 16\n\
    ended 72 Content frame 10:00:01:24\n\
    2 faults\n";

// All lines for the file of five subtitles.
const ALL_OF_FIVE: &[u8] = b"refused 57 Overlap block 2\n\
    refused 50 Character block 2 at 3\n\
    refused 50 Character block 3 at 3\n\
    refused 56 OutOfOrder block 5\n\
    4 faults\n";

#[test]
fn fills_an_output_that_has_less_room(rt: HostRuntime) {
    let (stl, pes) = (file_of_hi(), schedule_of_hi());
    assert_fills(&rt, &PAGE_100, (&stl, &pes), &[], ALL);
    assert_fills(&rt, &CHECK_ALL, (&stl, &pes), &[], ACCEPTED.as_bytes());
    assert_fills(&rt, &CHECK_ALL, (&file_of_five(), &pes), &[], ALL_OF_FIVE);
}

// Asserts the number of lines in an output that fails at a call, that the output is not used
// afterwards, and the number of calls of the PES source. Each call of the source returns a PES
// packet, and the last call returns the end. Each call of the output is a line, except for the call
// that flushes the lines.
fn assert_stops(rt: &(impl Abort + Alloc<A = Global>), call: u64, count: usize, pulls: u64) {
    let (stl, pes) = (file_of_hi(), schedule_of_hi());
    let inner = MemSource::new(&stl);
    let mut stl = CountingSource { inner, pulls: 0 };
    let inner = MemSource::new(&pes);
    let mut pes = CountingSource { inner, pulls: 0 };
    let mut buffer = [0; 512];
    let mut out = FailAt::new(MemSink::new(&mut buffer), call);
    let mut file = MemSink::new(&mut []);
    let arguments = &PAGE_100;
    let status = answer_arguments(
        rt.alloc(),
        arguments,
        &mut stl,
        &mut pes,
        &mut file,
        &mut out,
    );
    assert_same_for_case(rt, &(status, out.failures()), &(Status::Fault, 1), &call);
    assert_same_for_case(rt, &(stl.pulls, pes.pulls), &(3, pulls), &call);
    let lines = first_lines(ALL, count);
    assert!(rt; lines.len() < 512);
    assert!(rt;
        buffer.starts_with(lines) && buffer[lines.len()] == 0,
        "{call}"
    );
}

#[test]
fn reads_no_more_once_an_output_failed(rt: HostRuntime) {
    assert_stops(&rt, 0, 0, 1);
    assert_stops(&rt, 1, 1, 1);
    assert_stops(&rt, 2, 2, 2);
    // The source returns both PES packets at once, and is called once more for the end.
    assert_stops(&rt, 3, 3, 2);
    assert_stops(&rt, 4, 3, 3);
}

#[test]
fn ends_on_a_source_without_end_where_the_output_is_full(rt: HostRuntime) {
    let stl = file_of_hi();
    let inner = RepeatingSource {
        rest: &[],
        again: &FIRST,
    };
    let mut pes = CountingSource { inner, pulls: 0 };
    let mut buffer = [0; 64];
    let mut out = MemSink::new(&mut buffer);
    let (mut stl, mut file) = (MemSource::new(&stl), MemSink::new(&mut []));
    let arguments = &CHECK_ALL;
    let status = answer_arguments(
        rt.alloc(),
        arguments,
        &mut stl,
        &mut pes,
        &mut file,
        &mut out,
    );
    let lines = b"refused 62 Order pes 1\nrefused 62 Order pes 2\nrefused 62 Order p";
    assert!(rt; status == Status::Fault && out.written() == lines.as_slice());
    assert_same_for_case(&rt, &pes.pulls, &4, &lines);
}

// Asserts the lines for a PES source that returns one byte per pull and fails, for each failing
// pull in a range.
fn assert_fails(
    rt: &(impl Abort + Alloc<A = Global>),
    calls: (u64, u64),
    lines: &[u8],
    last: &[u8],
) {
    let (stl, pes) = (file_of_hi(), schedule_of_hi());
    for call in calls.0..calls.1 {
        let mut stl = MemSource::new(&stl);
        let mut pes = FailAt::new(Drip { rest: &pes }, call);
        assert_prints(rt, &PAGE_100, &mut stl, &mut pes, lines, last);
    }
}

#[test]
fn reports_what_was_found_before_a_pes_source_failed(rt: HostRuntime) {
    // The source returns one byte in each of 368 pulls, and then its end.
    assert_fails(&rt, (0, 184), b"", b"fault 41 Read pes 0\n");
    assert_fails(&rt, (184, 368), AT_FIRST, b"fault 41 Read pes 1\n");
    assert_fails(&rt, (368, 369), AT_BOTH, b"fault 41 Read pes 2\n");
    assert_fails(&rt, (369, 370), AT_BOTH, b"2 faults\n");
}

// Asserts the lines if the source of the file with five subtitles fails at a call: `count` lines,
// and the line about the failure. Each call returns the GSI block or a TTI block, and the last call
// returns the end.
fn assert_fails_at(rt: &(impl Abort + Alloc<A = Global>), call: u64, count: usize, line: &[u8]) {
    let (stl, pes) = (file_of_five(), schedule_of_hi());
    let mut source = FailAt::new(MemSource::new(&stl), call);
    let inner = MemSource::new(&pes);
    let mut pes = CountingSource { inner, pulls: 0 };
    let lines = first_lines(FAULTS_OF_FIVE.as_bytes(), count);
    assert_prints(rt, &CHECK_ALL, &mut source, &mut pes, lines, line);
    assert_same_for_case(rt, &pes.pulls, &0, &call);
}

#[test]
fn reports_what_was_found_before_a_subtitle_source_failed(rt: HostRuntime) {
    assert_fails_at(&rt, 0, 0, b"fault 26 Read block 0\n");
    assert_fails_at(&rt, 1, 0, b"fault 26 Read block 1\n");
    assert_fails_at(&rt, 2, 0, b"fault 26 Read block 2\n");
    assert_fails_at(&rt, 3, 2, b"fault 26 Read block 3\n");
    assert_fails_at(&rt, 4, 3, b"fault 26 Read block 4\n");
    assert_fails_at(&rt, 5, 3, b"fault 26 Read block 5\n");
    assert_fails_at(&rt, 6, 4, b"fault 26 Read block 6\n");
}

#[test]
fn ends_on_sources_that_do_not(rt: HostRuntime) {
    let (stl, pes) = (file_of_hi(), schedule_of_hi());
    let (rest, again) = (&[][..], &[0; 64][..]);
    let mut endless = RepeatingSource { rest, again };
    let mut pes = MemSource::new(&pes);
    let format = b"refused 11 Format block 0\n1 faults\n";
    assert_prints(&rt, &CHECK_ALL, &mut endless, &mut pes, &[], format);
    let mut endless = RepeatingSource { rest, again };
    let mut stl = MemSource::new(&stl);
    let start = b"refused 31 Start pes 0\n1 faults\n";
    assert_prints(&rt, &CHECK_ALL, &mut stl, &mut endless, &[], start);
}
