//! Recordings and PES files that can't be read to the end: the reported PES packet, the output, and
//! the output file.
use crate::asserting::assert_same_for_case;
use crate::pes_ranges::FIRST_LINES;
use crate::recorded::{
    BEGINS_0, BEGINS_1, BEGINS_2, FILL, GAP_MARKER_HEAD, LATE, LOST, NULL, assert_answers,
    recording, write_pes_packets,
};
use fixtures::{FIRST, SECOND, file_of_hi};
use std::alloc::Global;
use std::process::Abort;
use sub_io::MemSink;

const FAILED_0: &str = "fault 41 Read pes 0\n";

const FAILED_1: &str = "fault 41 Read pes 1\n";

const FAILED_3: &str = "fault 41 Read pes 3\n";

// Asserts the output if reading fails after these bytes. An output file is written into `buffer`.
fn assert_fails_in<'a>(
    rt: &(impl Abort + Alloc<A = Global>),
    arguments: &'a [&'a str],
    pes_packets: &[&[u8]],
    buffer: &mut [u8],
    want: &str,
) {
    let mut bytes = [0; 1024];
    let mut file = MemSink::new(&mut bytes);
    write_pes_packets(&mut file, pes_packets);
    let stl = file_of_hi();
    assert_answers(
        rt,
        arguments,
        &stl,
        recording(file.written(), true),
        buffer,
        want,
    );
}

// Asserts the output of a command without an output file if reading fails after these bytes.
fn assert_fails<'a>(
    rt: &(impl Abort + Alloc<A = Global>),
    arguments: &'a [&'a str],
    pes_packets: &[&[u8]],
    want: &str,
) {
    assert_fails_in(rt, arguments, pes_packets, &mut [], want);
}

// Asserts the output of `check`, `check --all`, `packets` and `listen` for a range of a recording.
fn assert_ranges_fail<'a>(
    rt: &(impl Abort + Alloc<A = Global>),
    range: &'a str,
    pes_packets: &[&[u8]],
    want: &str,
) {
    let arguments = ["subttx", "check", "a", "b", "--pid", "257", "--pes", range];
    assert_fails(rt, &arguments, pes_packets, want);
    let arguments = [
        "subttx", "check", "--all", "a", "b", "--pid", "257", "--pes", range,
    ];
    assert_fails(rt, &arguments, pes_packets, want);
    let arguments = ["subttx", "packets", "b", "--pid", "257", "--pes", range];
    assert_fails(rt, &arguments, pes_packets, want);
    let arguments = [
        "subttx",
        "listen",
        "b",
        "--at",
        "11:00:00:00",
        "--pid",
        "257",
        "--pes",
        range,
    ];
    assert_fails(rt, &arguments, pes_packets, want);
}

#[test]
fn reports_the_pes_packet_of_a_recording_that_was_reached(rt: HostRuntime) {
    let cut: [&[u8]; 6] = [&BEGINS_0, &FIRST, &NULL, &FILL, &BEGINS_1, &SECOND[..100]];
    let arguments = ["subttx", "check", "a", "b", "--pid", "257"];
    assert_fails(&rt, &arguments, &cut, FAILED_1);
    assert_fails(&rt, &arguments, &[], FAILED_0);
    let arguments = [
        "subttx",
        "listen",
        "b",
        "--at",
        "10:00:02:00",
        "--pid",
        "257",
    ];
    assert_fails(&rt, &arguments, &cut, FAILED_1);
    let mut buffer = [0; 1024];
    let mut lines = MemSink::new(&mut buffer);
    write_pes_packets(&mut lines, &[FIRST_LINES.as_bytes(), FAILED_1.as_bytes()]);
    let want = std::str::from_utf8(lines.written()).unwrap_or("");
    let arguments = ["subttx", "packets", "b", "--pid", "257"];
    assert_fails(&rt, &arguments, &cut, want);
}

#[test]
fn reports_it_before_the_range_and_in_it(rt: HostRuntime) {
    let cut: [&[u8]; 6] = [&BEGINS_0, &FIRST, &NULL, &FILL, &BEGINS_1, &SECOND[..100]];
    assert_ranges_fail(&rt, "1-", &cut, FAILED_1);
    assert_ranges_fail(&rt, "5-9", &cut, FAILED_1);
    // A gap marker counts as a PES packet.
    let lost: [&[u8]; 5] = [&BEGINS_0, &FIRST, &BEGINS_2, &SECOND, &NULL];
    assert_ranges_fail(&rt, "3-", &lost, FAILED_3);
    assert_ranges_fail(&rt, "4-", &lost, FAILED_3);
    // Earlier faults are reported before the failure, and nothing is read after the range.
    let arguments = ["subttx", "check", "a", "b", "--pid", "257"];
    assert_fails(&rt, &arguments, &lost, LOST);
    let arguments = ["subttx", "check", "a", "b", "--pid", "257", "--pes", "0-0"];
    assert_fails(&rt, &arguments, &cut, LATE);
}

#[test]
fn reports_it_of_a_range_of_a_file_of_pes_packets(rt: HostRuntime) {
    let cut: [&[u8]; 2] = [&FIRST, &SECOND[..100]];
    for range in ["0-1", "1-", "5-9"] {
        let arguments = ["subttx", "check", "a", "b", "--pes", range];
        assert_fails(&rt, &arguments, &cut, FAILED_1);
    }
    for range in ["1-", "5-9"] {
        let arguments = ["subttx", "packets", "b", "--pes", range];
        assert_fails(&rt, &arguments, &cut, FAILED_1);
    }
}

// Asserts the bytes that are extracted from a recording if reading fails after these bytes.
fn assert_extracts(
    rt: &(impl Abort + Alloc<A = Global>),
    pes_packets: &[&[u8]],
    want: &str,
    written: &[&[u8]],
) {
    let mut expected_buffer = [0x55; 1024];
    let mut expected = MemSink::new(&mut expected_buffer);
    write_pes_packets(&mut expected, written);
    let mut output = [0x55; 1024];
    let arguments = ["subttx", "extract", "b", "c", "--pid", "257"];
    assert_fails_in(rt, &arguments, pes_packets, &mut output, want);
    let len = expected.written().len().min(1024);
    let (begin, _) = output.split_at(len);
    assert_same_for_case(rt, &begin, &expected.written(), &want);
    assert_same_for_case(rt, &output[len..].first(), &Some(&0x55), &want);
}

#[test]
fn writes_what_came_before(rt: HostRuntime) {
    assert_extracts(&rt, &[&NULL, &FILL], FAILED_0, &[]);
    let cut: [&[u8]; 6] = [&BEGINS_0, &FIRST, &NULL, &FILL, &BEGINS_1, &SECOND[..100]];
    assert_extracts(&rt, &cut, FAILED_1, &[&FIRST]);
    let lost: [&[u8]; 5] = [&BEGINS_0, &FIRST, &BEGINS_2, &SECOND, &NULL];
    let marked: [&[u8]; 4] = [&FIRST, &GAP_MARKER_HEAD, &FILL[..178], &SECOND];
    assert_extracts(&rt, &lost, FAILED_3, &marked);
}
