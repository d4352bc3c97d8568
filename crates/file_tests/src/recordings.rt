//! Checking and extracting the PES packets of a recording.
use crate::asserting::assert_same_for_case;
use crate::recorded::{
    BEGINS_0, BEGINS_1, BEGINS_2, EARLY, EMPTY, FILL, GAP_MARKER_HEAD, JUMP, JUMP_FILL, LATE, LOST,
    NULL, assert_answers, assert_prints, recording, write_pes_packets,
};
use answer_fixtures::ACCEPTED;
use fixtures::{FIRST, SECOND};
use std::alloc::Global;
use std::process::Abort;
use sub_io::MemSink;

// Bytes 0 to 3 of a TS packet of PID 101 (hexadecimal) that starts a PES packet, with continuity
// counter 9.
const BEGINS_9: [u8; 4] = [0x47, 0x41, 0x01, 0x19];

// Bytes 0 to 3 of a TS packet that continues a PES packet, and of a TS packet with
// transport_error_indicator set.
const CONTINUES_1: [u8; 4] = [0x47, 0x01, 0x01, 0x11];

const WRONG_1: [u8; 4] = [0x47, 0xC1, 0x01, 0x11];

// A TS packet whose adaptation field leaves no room for its payload.
const FULL_ADAPTATION: [u8; 5] = [0x47, 0x01, 0x01, 0x31, 0xB8];

const FULL_ADAPTATION_FILL: [u8; 183] = [0xFF; 183];

// The first bytes of TS packets with adaptation fields. The first two start a PES packet and have
// 100 bytes of payload; the other two continue it, with 84 and 100 bytes.
const SHORT_0: [u8; 6] = [0x47, 0x41, 0x01, 0x30, 83, 0x00];

const SHORT_0_JUMP: [u8; 6] = [0x47, 0x41, 0x01, 0x30, 83, 0x80];

const SHORT_1: [u8; 6] = [0x47, 0x01, 0x01, 0x31, 99, 0x00];

const LONGER_1: [u8; 6] = [0x47, 0x01, 0x01, 0x31, 83, 0x00];

const ZEROS: [u8; 3000] = [0; 3000];

const CHECK: [&str; 6] = ["subttx", "check", "a", "b", "--pid", "257"];

// Asserts the output of a check of PID 257.
fn assert_checks(rt: &(impl Abort + Alloc<A = Global>), pes_packets: &[&[u8]], want: &str) {
    assert_prints(rt, &CHECK, pes_packets, want);
}

// Asserts the output of `extract` for a recording that consists of these byte strings, and the
// extracted bytes.
fn assert_extracts<'a>(
    rt: &(impl Abort + Alloc<A = Global>),
    pid: &'a str,
    pes_packets: &[&[u8]],
    want: &str,
    written: &[&[u8]],
) {
    let mut buffer = [0; 8192];
    let mut file = MemSink::new(&mut buffer);
    write_pes_packets(&mut file, pes_packets);
    let mut expected_buffer = [0x55; 1024];
    let mut expected = MemSink::new(&mut expected_buffer);
    write_pes_packets(&mut expected, written);
    let mut output = [0x55; 1024];
    let arguments = ["subttx", "extract", "b", "c", "--pid", pid];
    let bytes = recording(file.written(), false);
    assert_answers(rt, &arguments, &[], bytes, &mut output, want);
    let len = expected.written().len().min(1024);
    let (begin, _) = output.split_at(len);
    assert_same_for_case(rt, &begin, &expected.written(), &want);
    assert_same_for_case(rt, &output[len..].first(), &Some(&0x55), &want);
}

#[test]
fn checks_the_pes_packets_of_a_pid(rt: HostRuntime) {
    let stream: [&[u8]; 6] = [&BEGINS_0, &FIRST, &NULL, &FILL, &BEGINS_1, &SECOND];
    assert_checks(&rt, &stream, ACCEPTED);
    let arguments = ["subttx", "check", "a", "b", "--pid", "0x101"];
    assert_prints(&rt, &arguments, &stream, ACCEPTED);
    let arguments = ["subttx", "check", "a", "b", "--pid", "258"];
    assert_prints(&rt, &arguments, &stream, EMPTY);
    // A PID has 13 bits, so PID 1101 is not PID 101 (hexadecimal).
    let far: [&[u8]; 6] = [
        &[0x47, 0x51, 0x01, 0x10],
        &FIRST,
        &NULL,
        &FILL,
        &[0x47, 0x51, 0x01, 0x11],
        &SECOND,
    ];
    assert_checks(&rt, &far, EMPTY);
    let arguments = ["subttx", "check", "a", "b", "--pid", "0x1101"];
    assert_prints(&rt, &arguments, &far, ACCEPTED);
    assert_checks(&rt, &[&BEGINS_0, &FIRST[..183]], EMPTY);
    assert_checks(&rt, &[], EMPTY);
}

#[test]
fn reports_lost_packets_by_the_number_of_their_gap_marker(rt: HostRuntime) {
    let lost: [&[u8]; 6] = [&BEGINS_0, &FIRST, &NULL, &FILL, &BEGINS_2, &SECOND];
    assert_checks(&rt, &lost, LOST);
    let all = ["subttx", "check", "a", "b", "--pid", "257", "--all"];
    let lines = "refused 45 Lost pes 1\ntrusted frames 10:00:02:00 10:00:02:00\n1 faults\n";
    assert_prints(&rt, &all, &lost, lines);
    let end = ["subttx", "check", "a", "b", "--pid", "257", "--pes", "2-2"];
    assert_prints(&rt, &end, &lost, EARLY);
    let scrambled: [u8; 4] = [0x47, 0x41, 0x01, 0x91];
    assert_checks(&rt, &[&BEGINS_0, &FIRST, &scrambled, &SECOND], LOST);
    assert_checks(&rt, &[&BEGINS_0, &FIRST, &WRONG_1, &SECOND], LOST);
    assert_checks(&rt, &[&BEGINS_0, &FIRST, &CONTINUES_1, &SECOND], LOST);
    let full_adaptation: [&[u8]; 6] = [
        &BEGINS_0,
        &FIRST,
        &FULL_ADAPTATION,
        &FULL_ADAPTATION_FILL,
        &BEGINS_1,
        &SECOND,
    ];
    assert_checks(&rt, &full_adaptation, LOST);
    // No gap is reported before the first PES packet.
    let begin: [u8; 4] = [0x47, 0xC1, 0x01, 0x10];
    assert_checks(&rt, &[&begin, &FIRST, &BEGINS_1, &SECOND], EARLY);
}

#[test]
fn skips_a_repeat_and_a_jump_that_is_announced(rt: HostRuntime) {
    let twice: [&[u8]; 8] = [
        &BEGINS_0, &FIRST, &BEGINS_0, &FIRST, &NULL, &FILL, &BEGINS_1, &SECOND,
    ];
    assert_checks(&rt, &twice, ACCEPTED);
    let thrice: [&[u8]; 8] = [
        &BEGINS_0, &FIRST, &BEGINS_0, &FIRST, &BEGINS_0, &FIRST, &BEGINS_1, &SECOND,
    ];
    assert_checks(&rt, &thrice, LOST);
    let jump: [&[u8]; 6] = [&BEGINS_0, &FIRST, &JUMP, &JUMP_FILL, &BEGINS_9, &SECOND];
    assert_checks(&rt, &jump, ACCEPTED);
    let (prefix, back) = FIRST.split_at(100);
    let two: [&[u8]; 8] = [
        &SHORT_0,
        &FILL[..82],
        prefix,
        &SHORT_1,
        &FILL[..98],
        back,
        &BEGINS_2,
        &SECOND,
    ];
    assert_checks(&rt, &two, ACCEPTED);
    let announced: [&[u8]; 11] = [
        &SHORT_0_JUMP,
        &FILL[..82],
        prefix,
        &SHORT_0_JUMP,
        &FILL[..82],
        prefix,
        &SHORT_1,
        &FILL[..98],
        back,
        &BEGINS_2,
        &SECOND,
    ];
    assert_checks(&rt, &announced, ACCEPTED);
}

#[test]
fn refuses_what_is_no_teletext(rt: HostRuntime) {
    let (prefix, back) = FIRST.split_at(4);
    let length: [&[u8]; 6] = [&BEGINS_0, prefix, &[0x1F], &back[1..], &BEGINS_1, &SECOND];
    assert_checks(&rt, &length, "refused 32 Length pes 0\n");
    let (prefix, back) = FIRST.split_at(3);
    let start: [&[u8]; 6] = [&BEGINS_0, prefix, &[0xBE], &back[1..], &BEGINS_1, &SECOND];
    assert_checks(&rt, &start, "refused 31 Start pes 0\n");
    // The PES file starts with a gap marker.
    let marked: [&[u8]; 3] = [&FIRST[..6], &FILL[..178], &SECOND];
    let arguments = ["subttx", "check", "a", "b"];
    assert_prints(&rt, &arguments, &marked, "refused 45 Lost pes 0\n");
}

#[test]
fn finds_packets_after_bytes_that_are_none(rt: HostRuntime) {
    let begin: [&[u8]; 7] = [
        &ZEROS[..5],
        &BEGINS_0,
        &FIRST,
        &NULL,
        &FILL,
        &BEGINS_1,
        &SECOND,
    ];
    assert_checks(&rt, &begin, ACCEPTED);
    for (skipped, want) in [(5, ACCEPTED), (2820, LOST), (2819, ACCEPTED)] {
        let (zeros, _) = ZEROS.split_at(skipped);
        let within: [&[u8]; 7] = [&BEGINS_0, &FIRST, zeros, &NULL, &FILL, &BEGINS_1, &SECOND];
        assert_checks(&rt, &within, want);
    }
    let end: [&[u8]; 7] = [&BEGINS_0, &FIRST, &NULL, &FILL, &BEGINS_1, &SECOND, &ZEROS];
    assert_checks(&rt, &end, ACCEPTED);
    let cut: [&[u8]; 6] = [&BEGINS_0, &FIRST, &NULL, &FILL, &BEGINS_1, &SECOND[..183]];
    assert_checks(&rt, &cut, LATE);
    let late: [&[u8]; 5] = [&FIRST[96..], &NULL, &FILL, &BEGINS_1, &SECOND];
    assert_checks(&rt, &late, EARLY);
}

#[test]
fn reads_packets_of_192_and_204_bytes(rt: HostRuntime) {
    let stamp = [0; 4];
    let stamped: [&[u8]; 9] = [
        &stamp, &BEGINS_0, &FIRST, &stamp, &NULL, &FILL, &stamp, &BEGINS_1, &SECOND,
    ];
    let arguments = [
        "subttx",
        "check",
        "a",
        "b",
        "--pid",
        "257",
        "--packet-size",
        "192",
    ];
    assert_prints(&rt, &arguments, &stamped, ACCEPTED);
    assert_checks(&rt, &stamped, EMPTY);
    let code = [0xFF; 16];
    let coded: [&[u8]; 9] = [
        &BEGINS_0, &FIRST, &code, &NULL, &FILL, &code, &BEGINS_1, &SECOND, &code,
    ];
    let arguments = [
        "subttx",
        "check",
        "a",
        "b",
        "--pid",
        "257",
        "--packet-size",
        "204",
    ];
    assert_prints(&rt, &arguments, &coded, ACCEPTED);
}

#[test]
fn writes_what_a_recording_carries(rt: HostRuntime) {
    let stream: [&[u8]; 6] = [&BEGINS_0, &FIRST, &NULL, &FILL, &BEGINS_1, &SECOND];
    let both: [&[u8]; 2] = [&FIRST, &SECOND];
    let written = "written 2 pes 0 gaps\n";
    assert_extracts(&rt, "257", &stream, written, &both);
    assert_extracts(&rt, "258", &stream, EMPTY, &[]);
    let lost: [&[u8]; 6] = [&BEGINS_0, &FIRST, &NULL, &FILL, &BEGINS_2, &SECOND];
    let marked: [&[u8]; 4] = [&FIRST, &GAP_MARKER_HEAD, &FILL[..178], &SECOND];
    let written = "written 3 pes 1 gaps\n";
    assert_extracts(&rt, "257", &lost, written, &marked);
    let wrong: [&[u8]; 8] = [
        &BEGINS_0, &FIRST, &WRONG_1, &SECOND, &WRONG_1, &SECOND, &BEGINS_1, &SECOND,
    ];
    assert_extracts(&rt, "257", &wrong, written, &marked);
    // The second TS packet has more bytes than the PES packet needs.
    let (prefix, back) = FIRST.split_at(100);
    let longer: [&[u8]; 9] = [
        &SHORT_0,
        &FILL[..82],
        prefix,
        &LONGER_1,
        &FILL[..82],
        back,
        &FILL[..16],
        &BEGINS_2,
        &SECOND,
    ];
    assert_extracts(&rt, "257", &longer, written, &marked);
}

#[test]
fn writes_the_payload_that_is_no_teletext_and_reports_it(rt: HostRuntime) {
    let (prefix, back) = FIRST.split_at(3);
    let start: [&[u8]; 6] = [&BEGINS_0, prefix, &[0xBE], &back[1..], &BEGINS_1, &SECOND];
    let payload: [&[u8]; 3] = [prefix, &[0xBE], &back[1..]];
    let refused = "refused 31 Start pes 0\n";
    assert_extracts(&rt, "257", &start, refused, &payload);
}
