//! The output of `survey` for a recording.
use crate::recorded::{
    BEGINS_0, BEGINS_1, BEGINS_2, FILL, NULL, assert_answers, assert_prints, recording,
    write_pes_packets,
};
use fixtures::{FIRST, SECOND};
use std::alloc::Global;
use std::process::Abort;
use sub_io::MemSink;

const SURVEY: [&str; 3] = ["subttx", "survey", "b"];

// Asserts the output for a recording that consists of these byte strings, if reading fails after
// them.
fn assert_fails<'a>(
    rt: &(impl Abort + Alloc<A = Global>),
    arguments: &'a [&'a str],
    pes_packets: &[&[u8]],
    want: &str,
) {
    let mut buffer = [0; 8192];
    let mut file = MemSink::new(&mut buffer);
    write_pes_packets(&mut file, pes_packets);
    assert_answers(
        rt,
        arguments,
        &[],
        recording(file.written(), true),
        &mut [],
        want,
    );
}

#[test]
fn reports_a_space_where_a_byte_was_hit(rt: HostRuntime) {
    let mut hit = FIRST;
    hit[117] ^= 1;
    let stream: [&[u8]; 6] = [&BEGINS_0, &hit, &NULL, &FILL, &BEGINS_1, &SECOND];
    let want = "survey 1\nhead 47410110000001bd00b284\nsize 188\nteletext 257\nsub 257 888\n\
        pes 257 0 1 3240000000 0 hec/88080810 3 0\n\
        rows 257 0 22:202020202020202020202020202020200d0b0ba0690a0a\
        2020202020202020202020202020202020\n\
        pes 257 1 1 3240180000 0 hecb/88080810 2 0\nrows 257 1 -\n\
        subs 257 888 2\nend 257 2 0 2 0 0 0 3240180000\nover 0 3\n";
    assert_prints(&rt, &SURVEY, &stream, want);
}

#[test]
fn reports_the_pes_packets_of_a_pid(rt: HostRuntime) {
    let stream: [&[u8]; 6] = [&BEGINS_0, &FIRST, &NULL, &FILL, &BEGINS_1, &SECOND];
    let want = "survey 1\nhead 47410110000001bd00b284\nsize 188\nteletext 257\nsub 257 888\n\
        pes 257 0 1 3240000000 0 hec/88080810 3 0\n\
        rows 257 0 22:202020202020202020202020202020200d0b0b48690a0a\
        2020202020202020202020202020202020\n\
        pes 257 1 1 3240180000 0 hecb/88080810 2 0\nrows 257 1 -\n\
        subs 257 888 2\nend 257 2 0 2 0 0 0 3240180000\nover 0 3\n";
    assert_prints(&rt, &SURVEY, &stream, want);
    let requested = [
        "subttx",
        "survey",
        "b",
        "--pid",
        "257",
        "--packet-size",
        "188",
    ];
    assert_prints(&rt, &requested, &stream, want);
}

#[test]
fn reports_a_gap_where_packets_are_lost(rt: HostRuntime) {
    let lost: [&[u8]; 6] = [&BEGINS_0, &FIRST, &NULL, &FILL, &BEGINS_2, &SECOND];
    let arguments = ["subttx", "survey", "b", "--page", "100"];
    let want = "survey 1\nhead 47410110000001bd00b284\nsize 188\nteletext 257\nsub 257 888\n\
        pes 257 0 1 3240000000 0 b/ 3 0\ngap 257 1 1 0\npes 257 2 1 3240180000 0 b/ 2 0\n\
        subs 257 888 2\nend 257 3 1 2 0 0 0 3240180000\nover 0 3\n";
    assert_prints(&rt, &arguments, &lost, want);
}

#[test]
fn reports_a_file_of_pes_packets_and_where_it_ends(rt: HostRuntime) {
    let arguments = ["subttx", "survey", "b", "--page", "100"];
    let whole = "survey 1\nhead 000001bd00b28480242704\nsize 0\nsub 0 888\n\
        pes 0 0 1 3240000000 0 b/ 3 0\nsubs 0 888 1\nend 0 1 0 0 0 0 0 3240000000\nover 0 0\n";
    assert_prints(&rt, &arguments, &[&FIRST], whole);
    let cut = "survey 1\nhead 000001bd00b28480242704\nsize 0\nsub 0 888\n\
        pes 0 0 1 3240000000 0 b/ 3 0\ndamaged 0 1 cut\n\
        subs 0 888 1\nend 0 1 0 0 0 0 0 3240000000\nover 0 0\n";
    assert_prints(&rt, &arguments, &[&FIRST, &SECOND[..183]], cut);
    let none = "survey 1\nhead\nnothing\nover 0 0\n";
    assert_prints(&rt, &arguments, &[], none);
    let other = "survey 1\nhead 52494646\nnothing\nover 4 0\n";
    assert_prints(&rt, &arguments, &[b"RIFF"], other);
}

// The first PES packet of PID 258.
const OTHER: [u8; 4] = [0x47, 0x41, 0x02, 0x10];

#[test]
fn reports_the_requested_pid_alone(rt: HostRuntime) {
    let stream: [&[u8]; 4] = [&BEGINS_0, &FIRST, &OTHER, &FIRST];
    let page = ["subttx", "survey", "b", "--page", "100"];
    let both = "survey 1\nhead 47410110000001bd00b284\nsize 188\n\
        teletext 257\nsub 257 888\nteletext 258\nsub 258 888\n\
        pes 257 0 1 3240000000 0 b/ 3 0\nsubs 257 888 1\nend 257 1 0 1 0 0 0 3240000000\n\
        pes 258 0 1 3240000000 0 b/ 3 0\nsubs 258 888 1\nend 258 1 0 1 0 0 0 3240000000\n\
        over 0 2\n";
    assert_prints(&rt, &page, &stream, both);
    let requested = ["subttx", "survey", "b", "--page", "100", "--pid", "258"];
    let one = "survey 1\nhead 47410110000001bd00b284\nsize 188\nteletext 258\nsub 258 888\n\
        pes 258 0 1 3240000000 0 b/ 3 0\nsubs 258 888 1\nend 258 1 0 1 0 0 0 3240000000\n\
        over 0 2\n";
    assert_prints(&rt, &requested, &stream, one);
}

#[test]
fn reports_several_pages(rt: HostRuntime) {
    let stream: [&[u8]; 6] = [&BEGINS_0, &FIRST, &NULL, &FILL, &BEGINS_2, &SECOND];
    let pages = ["subttx", "survey", "b", "--page", "888", "--page=100"];
    let want = "survey 1\nhead 47410110000001bd00b284\nsize 188\nteletext 257\nsub 257 888\n\
        page 888\npes 257 0 1 3240000000 0 hec/88080810 3 0\n\
        rows 257 0 22:202020202020202020202020202020200d0b0b48690a0a\
        2020202020202020202020202020202020\n\
        page 100\npes 257 0 1 3240000000 0 b/ 3 0\ngap 257 1 1 0\n\
        page 888\npes 257 2 1 3240180000 0 hecb/88080810 2 0\nrows 257 2 -\n\
        page 100\npes 257 2 1 3240180000 0 b/ 2 0\n\
        subs 257 888 2\nend 257 3 1 2 0 0 0 3240180000\nover 0 3\n";
    assert_prints(&rt, &pages, &stream, want);
}

#[test]
fn reports_what_was_read_before_the_recording_failed(rt: HostRuntime) {
    let prefix = "survey 1\nhead 47410110000001bd00b284\nfault 41 Read pes 0\n";
    assert_fails(&rt, &SURVEY, &[&BEGINS_0, &FIRST], prefix);
    let arguments = [
        "subttx",
        "survey",
        "b",
        "--page",
        "100",
        "--packet-size",
        "188",
    ];
    let sized = "survey 1\nhead 47410110000001bd00b284\nsize 188\nteletext 257\nsub 257 888\n\
        pes 257 0 1 3240000000 0 b/ 3 0\nfault 41 Read pes 0\n";
    assert_fails(&rt, &arguments, &[&BEGINS_0, &FIRST], sized);
}

#[test]
fn refuses_a_page_a_pid_and_a_packet_size(rt: HostRuntime) {
    let page = ["subttx", "survey", "b", "--page", "900"];
    assert_prints(&rt, &page, &[], "usage 1 BadPage\n");
    let twice = ["subttx", "survey", "b", "--page", "88a", "--page", "88A"];
    assert_prints(&rt, &twice, &[], "usage 1 BadPage\n");
    let nine = [
        "subttx",
        "survey",
        "b",
        "--page=101",
        "--page=102",
        "--page=103",
        "--page=104",
        "--page=105",
        "--page=106",
        "--page=107",
        "--page=108",
        "--page=109",
    ];
    assert_prints(&rt, &nine, &[], "usage 1 BadPage\n");
    assert_prints(&rt, &nine[..11], &[], "survey 1\nhead\nnothing\nover 0 0\n");
    let pid = ["subttx", "survey", "b", "--pid", "8191"];
    assert_prints(&rt, &pid, &[], "usage 86 Pid\n");
    let size = ["subttx", "survey", "b", "--packet-size", "189"];
    assert_prints(&rt, &size, &[], "usage 87 PacketSize\n");
}
