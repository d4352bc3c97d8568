//! Ranges of PES packets, in recordings and PES files. PES packets are reported by their numbers in
//! the file.
use crate::recorded::{
    BEGINS_0, BEGINS_1, BEGINS_2, EARLY, EMPTY, FILL, GAP_MARKER_HEAD, LATE, LOST, NULL,
    assert_prints,
};
use answer_fixtures::ACCEPTED;
use fixtures::{FIRST, SECOND};
use std::alloc::Global;
use std::process::Abort;
use sub_io::{MemSink, Sink, put_all};

/// The output of `packets` for the first PES packet of the schedule for `Hi`.
pub const FIRST_LINES: &str = "pes 0 pts 3240000000\n\
    unit 0 id 03 field 1 line 7 1515d0d015d015d00215\
    2020202020202020202020202020202020202020202020202020202020202020\n\
    unit 1 id 03 field 1 line 8 159b20202020202020202020202020202020\
    0d0b0bc8e98a8a2020202020202020202020202020202020\n\
    unit 2 id 03 field 1 line 9 1515eaeaea2fea5e1515\
    2020202020202020202020202020202020202020202020202020202020202020\n";

// The output of `packets` for the second PES packet of the schedule for `Hi`, without its number.
const SECOND_LINES: &str = "pts 3240180000\n\
    unit 0 id 03 field 1 line 7 1515d0d015d015d00215\
    2020202020202020202020202020202020202020202020202020202020202020\n\
    unit 1 id 03 field 1 line 8 1515eaeaea2fea5e1515\
    2020202020202020202020202020202020202020202020202020202020202020\n";

// Asserts that four texts are printed one after another.
fn assert_lists<'a>(
    rt: &(impl Abort + Alloc<A = Global>),
    arguments: &'a [&'a str],
    pes_packets: &[&[u8]],
    parts: [&str; 4],
) {
    let mut buffer = [0; 1024];
    let mut text = MemSink::new(&mut buffer);
    for part in parts {
        if text.failures() == 0 {
            let _ = put_all(&mut text, part.as_bytes());
        }
    }
    let want = std::str::from_utf8(text.written()).unwrap_or("");
    assert_prints(rt, arguments, pes_packets, want);
}

#[test]
fn lists_pes_packets_by_their_numbers_in_the_file(rt: HostRuntime) {
    let stream: [&[u8]; 6] = [&BEGINS_0, &FIRST, &NULL, &FILL, &BEGINS_1, &SECOND];
    let arguments = ["subttx", "packets", "b", "--pid", "257"];
    let parts = [FIRST_LINES, "pes 1 ", SECOND_LINES, "2 pes\n"];
    assert_lists(&rt, &arguments, &stream, parts);
    let lost: [&[u8]; 4] = [&BEGINS_0, &FIRST, &BEGINS_2, &SECOND];
    let arguments = ["subttx", "packets", "b", "--pid", "257", "--pes", "2-"];
    let parts = ["", "pes 2 ", SECOND_LINES, "1 pes\n"];
    assert_lists(&rt, &arguments, &lost, parts);
    // The commands `packets` and `listen` stop at a gap marker.
    let arguments = ["subttx", "packets", "b", "--pid", "257"];
    let parts = [FIRST_LINES, "", "", LOST];
    assert_lists(&rt, &arguments, &lost, parts);
    let arguments = [
        "subttx",
        "listen",
        "b",
        "--at",
        "10:00:02:00",
        "--pid",
        "257",
    ];
    assert_prints(&rt, &arguments, &lost, LOST);
    let arguments = [
        "subttx",
        "listen",
        "b",
        "--at",
        "10:00:02:00",
        "--pid",
        "257",
        "--pes",
        "1-",
    ];
    assert_prints(&rt, &arguments, &lost, LOST);
}

// Asserts the output of a check of a range of a PES file.
fn assert_checks_range<'a>(
    rt: &(impl Abort + Alloc<A = Global>),
    range: &'a str,
    pes_packets: &[&[u8]],
    want: &str,
) {
    let arguments = ["subttx", "check", "a", "b", "--pes", range];
    assert_prints(rt, &arguments, pes_packets, want);
}

#[test]
fn checks_a_range_of_a_file_of_pes_packets(rt: HostRuntime) {
    let both: [&[u8]; 2] = [&FIRST, &SECOND];
    assert_checks_range(&rt, "0-1", &both, ACCEPTED);
    assert_checks_range(&rt, "0-0", &both, LATE);
    assert_checks_range(&rt, "1-1", &both, EARLY);
    assert_checks_range(&rt, "2-9", &both, EMPTY);
    let cut: [&[u8]; 2] = [&FIRST, &SECOND[..183]];
    let truncated = "refused 30 Truncated pes 1\n";
    assert_checks_range(&rt, "1-1", &cut, truncated);
    assert_checks_range(&rt, "0-0", &cut, LATE);
    assert_checks_range(&rt, "2-9", &cut, truncated);
    let twice: [&[u8]; 4] = [&FIRST, &SECOND, &FIRST, &SECOND];
    assert_checks_range(&rt, "2-3", &twice, ACCEPTED);
    let arguments = ["subttx", "check", "a", "b", "--pes", "1-3", "--all"];
    let lines = "refused 63 Early frame 10:00:02:00\nrefused 62 Order pes 2\n2 faults\n";
    assert_prints(&rt, &arguments, &twice, lines);
}

#[test]
fn reports_up_to_which_pes_packet_of_the_file_others_are_skipped(rt: HostRuntime) {
    let marked: [&[u8]; 6] = [
        &FIRST,
        &GAP_MARKER_HEAD,
        &FILL[..178],
        &GAP_MARKER_HEAD,
        &FILL[..178],
        &SECOND,
    ];
    let arguments = ["subttx", "check", "a", "b", "--pes", "1-", "--all"];
    let lines = "refused 45 Lost pes 1\nended 45 Lost pes 2\n\
        refused 63 Early frame 10:00:02:00\n\
        trusted frames 10:00:02:00 10:00:02:00\n2 faults\n";
    assert_prints(&rt, &arguments, &marked, lines);
}

#[test]
fn refuses_wrong_numbers(rt: HostRuntime) {
    let stream: [&[u8]; 2] = [&BEGINS_0, &FIRST];
    for pid in ["8191", "x", "0x", "0X101", "0x000000101"] {
        let arguments = ["subttx", "check", "a", "b", "--pid", pid];
        assert_prints(&rt, &arguments, &stream, "usage 86 Pid\n");
    }
    let arguments = ["subttx", "check", "a", "b", "--pid=-1"];
    assert_prints(&rt, &arguments, &stream, "usage 86 Pid\n");
    let arguments = ["subttx", "check", "a", "b", "--packet-size", "190"];
    assert_prints(&rt, &arguments, &stream, "usage 87 PacketSize\n");
    for range in ["2-1", "1", "a-b"] {
        assert_checks_range(&rt, range, &stream, "usage 88 Range\n");
    }
    let arguments = ["subttx", "check", "a", "b", "--pes=-1"];
    assert_prints(&rt, &arguments, &stream, "usage 88 Range\n");
}
