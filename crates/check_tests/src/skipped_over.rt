//! Skipped PES packets, which can't be read, with `check --all`.
use crate::every_place::assert_reported;
use fixtures::{FIRST, pes_packets_each_second, put};
use std::alloc::Global;
use std::process::Abort;

// Asserts the lines for the schedule for `Hi`, repeated each second, with two bytes changed and
// `more` bytes after each PES packet.
fn assert_reported_changed(
    rt: &(impl Abort + Alloc<A = Global>),
    first: (usize, u8),
    second: (usize, u8),
    more: usize,
    lines: &str,
) {
    let mut pes = [0; 553];
    pes[..552].copy_from_slice(&pes_packets_each_second());
    assert!(rt; first.0 < 552 && second.0 < 552 && more < 2);
    pes[first.0] = first.1;
    pes[second.0] = second.1;
    assert_reported(rt, &pes[..552 + more], &[], lines);
}

#[rattlefmt::skip]
#[test]
fn trusts_nothing_around_a_pes_packet_that_is_skipped(rt: HostRuntime) {
    // The data_identifier is wrong in the second PES packet, or in the last.
    assert_reported_changed(&rt, (229, 0x20), (229, 0x20), 0,
        "refused 37 DataId pes 1\n\
        trusted frames 10:00:02:00 10:00:02:00\n\
        1 faults\n");
    assert_reported_changed(&rt, (413, 0x20), (413, 0x20), 0,
        "trusted frames 10:00:00:00 10:00:00:24\n\
        refused 37 DataId pes 2\n\
        refused 74 Late frame 10:00:01:00\n\
        2 faults\n");
    // The length of a data unit is wrong in the first PES packet, or in the first two.
    assert_reported_changed(&rt, (47, 0x2D), (47, 0x2D), 0,
        "refused 38 UnitLength pes 0\n\
        refused 63 Early frame 10:00:01:00\n\
        trusted frames 10:00:01:00 10:00:02:00\n\
        2 faults\n");
    assert_reported_changed(&rt, (47, 0x2D), (231, 0x2D), 0,
        "refused 38 UnitLength pes 0\n\
        ended 38 UnitLength pes 1\n\
        refused 63 Early frame 10:00:02:00\n\
        trusted frames 10:00:02:00 10:00:02:00\n\
        2 faults\n");
}

#[rattlefmt::skip]
#[test]
fn reports_what_ends_reading_after_pes_packets_that_are_skipped(rt: HostRuntime) {
    assert_reported_changed(&rt, (229, 0x20), (413, 0x20), 1,
        "refused 37 DataId pes 1\n\
        ended 37 DataId pes 2\n\
        refused 30 Truncated pes 3\n\
        2 faults\n");
}

// The bytes of a gap marker from byte 6 on.
const FILL: [u8; 178] = [0xFF; 178];

#[test]
fn skips_a_gap_marker_of_lost_packets(rt: HostRuntime) {
    let mut pes = pes_packets_each_second();
    put(&mut pes, 190, &FILL);
    let lines = "refused 45 Lost pes 1\n\
        trusted frames 10:00:02:00 10:00:02:00\n\
        1 faults\n";
    assert_reported(&rt, &pes, &[], lines);
}

// Only the first and the last of ten PES packets with the same fault are reported.
#[test]
fn reports_many_pes_packets_with_one_number_once(rt: HostRuntime) {
    let mut pes = [0; 1840];
    for one in 0..10_usize {
        let begin = 184 * one;
        pes[begin..begin + 184].copy_from_slice(&FIRST);
        pes[begin + 45] = 0x20;
    }
    let lines = "refused 37 DataId pes 0\nended 37 DataId pes 9\n1 faults\n";
    assert_reported(&rt, &pes, &[], lines);
}
