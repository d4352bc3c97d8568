//! Sources that fail at one call, return one byte at a time, or never end. The line names the block
//! or the PES packet that was being read, or an earlier fault.
use crate::answers::assert_prints;
use crate::asserting::assert_same_for_case;
use answer_fixtures::{ACCEPTED, CHECK, SCHEDULE, answer_arguments};
use fixtures::{
    CountingSource, Drip, FIRST, RepeatingSource, SECOND, file_of_hi, file_of_three, gsi,
    schedule_of_hi,
};
use std::alloc::Global;
use std::process::Abort;
use sub_answer::Status;
use sub_io::{FailAt, MemSink, MemSource, Source};

// The line for a subtitle file whose source fails, for each call. A call returns the GSI block or a
// TTI block, and the last call returns the end.
const BLOCKS: [&[u8]; 5] = [
    b"fault 26 Read block 0\n",
    b"fault 26 Read block 1\n",
    b"fault 26 Read block 2\n",
    b"fault 26 Read block 3\n",
    b"fault 26 Read block 4\n",
];

// The line for a PES file whose source fails, for each call. A call returns a PES packet.
const PACKETS: [&[u8]; 4] = [
    b"fault 41 Read pes 0\n",
    b"fault 41 Read pes 1\n",
    b"fault 41 Read pes 2\n",
    b"fault 41 Read pes 3\n",
];

// Asserts the last line and the status for a file whose source fails at call `call`.
fn assert_reports_at<'a>(
    rt: &(impl Abort + Alloc<A = Global>),
    arguments: &'a [&'a str],
    bytes: &[u8],
    call: u64,
    want: &[u8],
    status: Status,
) {
    let mut first = FailAt::new(MemSource::new(bytes), call);
    let mut second = MemSource::new(&[]);
    let mut file = MemSink::new(&mut []);
    let mut buffer = [0; 1024];
    let mut out = MemSink::new(&mut buffer);
    let given = answer_arguments(
        rt.alloc(),
        arguments,
        &mut first,
        &mut second,
        &mut file,
        &mut out,
    );
    assert!(rt;
        out.written().ends_with(want) && given == status,
        "{arguments:?}, call {call}"
    );
}

// Asserts the last line for each failing call: the fault of this call or, from call `found` on, the
// earlier fault of the file.
fn assert_reports_last<'a>(
    rt: &(impl Abort + Alloc<A = Global>),
    arguments: &'a [&'a str],
    bytes: &[u8],
    reads: &[&[u8]],
    found: usize,
    refusal: &[u8],
) {
    for call in 0..reads.len() {
        if call < found {
            assert_reports_at(
                rt,
                arguments,
                bytes,
                call as u64,
                reads[call],
                Status::Fault,
            );
        } else {
            assert_reports_at(rt, arguments, bytes, call as u64, refusal, Status::Refused);
        }
    }
}

#[test]
fn a_reader_of_subtitles_names_the_block_or_reports_a_fault_before(rt: HostRuntime) {
    let show = ["subttx", "show", "a.stl"];
    let good = file_of_three(2, 0);
    assert_reports_last(&rt, &show, &good, &BLOCKS, 5, b"");
    assert_reports_last(&rt, &SCHEDULE, &good, &BLOCKS, 5, b"");
    let cumulative = file_of_three(2, 1);
    let refused = b"refused 16 Cumulative block 2\n";
    assert_reports_last(&rt, &show, &cumulative, &BLOCKS, 3, refused);
    let early = file_of_three(1, 0);
    let refused = b"refused 57 Overlap block 2\n";
    assert_reports_last(&rt, &SCHEDULE, &early, &BLOCKS, 3, refused);
}

#[test]
fn a_reader_of_pes_packets_names_the_pes_packet_or_reports_a_fault_before(rt: HostRuntime) {
    let mut good = [0; 552];
    good[..184].copy_from_slice(&FIRST);
    good[184..368].copy_from_slice(&SECOND);
    good[368..].copy_from_slice(&FIRST);
    let mut wrong = good;
    wrong[184] = 1;
    let packets = ["subttx", "packets", "a.pes"];
    let start = b"refused 31 Start pes 1\n";
    assert_reports_last(&rt, &packets, &good, &PACKETS, 4, b"");
    assert_reports_last(&rt, &packets, &wrong, &PACKETS, 2, start);
    let listen = ["subttx", "listen", "a.pes", "--at", "10:00:04:00"];
    // The third PES packet is not later than the second.
    let order = b"refused 62 Order pes 2\n";
    assert_reports_last(&rt, &listen, &good, &PACKETS, 3, order);
    assert_reports_last(&rt, &listen, &wrong, &PACKETS, 2, start);
}

// Asserts the line of a check of `Hi` and a PES file. The sources return one byte per pull and fail
// at the given pulls. Returns the numbers of pulls and of failures for each source.
fn assert_fails(
    rt: &(impl Abort + Alloc<A = Global>),
    pes: &[u8],
    stl_pull: u64,
    pes_pull: u64,
    want: &str,
) -> (u64, u64, u64, u64) {
    let stl = file_of_hi();
    let inner = FailAt::new(Drip { rest: &stl }, stl_pull);
    let mut stl = CountingSource { inner, pulls: 0 };
    let inner = FailAt::new(Drip { rest: pes }, pes_pull);
    let mut pes = CountingSource { inner, pulls: 0 };
    assert_prints(rt, &CHECK, &mut stl, &mut pes, &[], want.as_bytes());
    (stl.pulls, stl.failures(), pes.pulls, pes.failures())
}

// The source of the subtitle file returns one byte in each of 1152 pulls, and then its end. The
// source of the PES file does so after 368 pulls.
#[test]
fn reports_the_pes_packet_of_a_failing_pull(rt: HostRuntime) {
    let pes = schedule_of_hi();
    for pull in 0..369 {
        let want = match pull {
            0..=183 => "fault 41 Read pes 0\n",
            184..=367 => "fault 41 Read pes 1\n",
            _ => "fault 41 Read pes 2\n",
        };
        let counts = assert_fails(&rt, &pes, 1153, pull, want);
        assert_same_for_case(&rt, &counts, &(1153, 0, pull + 1, 1), &pull);
    }
    let counts = assert_fails(&rt, &pes, 1153, 369, ACCEPTED);
    assert_same_for_case(&rt, &counts, &(1153, 0, 369, 0), &ACCEPTED);
}

#[test]
fn reports_a_broken_rule_before_the_pull_that_fails_after_it(rt: HostRuntime) {
    let mut pes = schedule_of_hi();
    pes[98] ^= 1; // a bit of the row's first text byte
    let even = "refused 68 Parity frame 10:00:00:00 packet 1\n";
    assert_fails(&rt, &pes, 1153, 183, "fault 41 Read pes 0\n");
    assert_fails(&rt, &pes, 1153, 184, even);
    assert_fails(&rt, &pes, 1153, 368, even);
}

// The source of the PES file would also fail, but is not called.
#[test]
fn reports_the_block_of_a_failing_pull(rt: HostRuntime) {
    let pes = schedule_of_hi();
    for pull in 0..1153 {
        let want = match pull {
            0..=1023 => "fault 26 Read block 0\n",
            1024..=1151 => "fault 26 Read block 1\n",
            _ => "fault 26 Read block 2\n",
        };
        let counts = assert_fails(&rt, &pes, pull, 0, want);
        assert_same_for_case(&rt, &counts, &(pull + 1, 1, 0, 0), &pull);
    }
}

// Asserts the line of a check of a subtitle file that starts with the bytes `rest`, and then
// repeats the bytes `again` without end. The PES file is not read.
fn assert_ends_stl(rt: &(impl Abort + Alloc<A = Global>), rest: &[u8], again: &[u8], want: &[u8]) {
    let mut stl = RepeatingSource { rest, again };
    let inner = MemSource::new(&[]);
    let mut pes = CountingSource { inner, pulls: 0 };
    assert_prints(rt, &CHECK, &mut stl, &mut pes, &[], want);
    assert_same_for_case(rt, &pes.pulls, &0, &want);
}

// Asserts the line of a check of a PES file that repeats the bytes `again` without end.
fn assert_ends_pes(rt: &(impl Abort + Alloc<A = Global>), again: &[u8], want: &[u8]) {
    let stl = file_of_hi();
    let mut stl = MemSource::new(&stl);
    let mut pes = RepeatingSource { rest: &[], again };
    assert_prints(rt, &CHECK, &mut stl, &mut pes, &[], want);
}

#[test]
fn ends_on_sources_that_do_not(rt: HostRuntime) {
    assert_ends_stl(&rt, &[], &[0; 64], b"refused 11 Format block 0\n");
    // The subtitle file contains comments without end.
    let many = b"refused 25 TooManyBlocks block 100000\n";
    assert_ends_stl(&rt, &gsi(), &[1; 128], many);
    assert_ends_pes(&rt, &[0; 64], b"refused 31 Start pes 0\n");
    assert_ends_pes(&rt, &FIRST, b"refused 62 Order pes 1\n");
}
