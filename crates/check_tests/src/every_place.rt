//! All events of a transmission, and the clean frames between them, with `check --all`.
ghost use Rattle.std.specs.Prelude.{◌≡◌, length};

use crate::answers::{assert_all, assert_reports};
use answer_fixtures::{ACCEPTED, CHECK};
use fixtures::{
    CLOSING, HEADER, ROW, TEN, file_of_hi, pes_packets_each_second, push_pes, schedule_of_hi,
    schedule_of_hi_twice,
};
use std::alloc::Global;
use std::process::Abort;
use sub_io::MemSink;

/// Asserts the output of `check --all` for a subtitle file and a PES file with these options.
pub fn assert_reported_with_options<'x>(
    rt: &(impl Abort + Alloc<A = Global>),
    stl: &[u8],
    pes: &[u8],
    options: &[&'x str],
    lines: &str,
) {
    let mut arguments = ["a"; 10];
    assert!(rt; options.len() <= 6);
    arguments[..4].copy_from_slice(&CHECK);
    arguments[4..4 + options.len()].copy_from_slice(options);
    let arguments = &arguments[..4 + options.len()];
    assert_all(rt, arguments, stl, pes, "", lines);
}

/// Asserts the output of `check --all` for the subtitle file with `Hi` and a PES file, with these
/// options.
pub fn assert_reported<'x>(
    rt: &(impl Abort + Alloc<A = Global>),
    pes: &[u8],
    options: &[&'x str],
    lines: &str,
) {
    assert_reported_with_options(rt, &file_of_hi(), pes, options, lines);
}

#[rattlefmt::skip]
#[test]
fn reports_all_of_a_schedule_by_other_options(rt: HostRuntime) {
    let pes = schedule_of_hi();
    assert_reported(&rt, &pes, &[], ACCEPTED);
    assert_reported(&rt, &pes, &["--complete"], ACCEPTED);
    assert_reported(&rt, &pes, &["--every", "25"],
        "trusted frames 10:00:00:00 10:00:00:24\n\
        refused 73 Gap frame 10:00:01:00\n\
        ended 73 Gap frame 10:00:01:24\n\
        trusted frames 10:00:02:00 10:00:02:00\n\
        1 faults\n");
    assert_reported(&rt, &pes, &["--every", "50"], ACCEPTED);
    assert_reported(&rt, &pes, &["--every", "49"],
        "trusted frames 10:00:00:00 10:00:01:23\n\
        refused 73 Gap frame 10:00:01:24\n\
        ended 73 Gap frame 10:00:01:24\n\
        trusted frames 10:00:02:00 10:00:02:00\n\
        1 faults\n");
    assert_reported(&rt, &pes, &["--page", "100"],
        "refused 71 NoFirstHeader frame 10:00:00:00\n\
        refused 72 Content frame 10:00:00:00 row 22 column 16\n\
        ended 72 Content frame 10:00:01:24\n\
        2 faults\n");
    assert_reported(&rt, &pes, &["--option", "german"],
        "refused 67 Control frame 10:00:00:00 packet 0\n\
        refused 67 Control frame 10:00:02:00 packet 0\n\
        2 faults\n");
    assert_reported(&rt, &pes, &["--origin", "3600"],
        "refused 72 Content frame 09:59:59:24 row 22 column 16\n\
        ended 72 Content frame 09:59:59:24\n\
        refused 72 Content frame 10:00:01:24 row 22 column 16\n\
        ended 72 Content frame 10:00:01:24\n\
        refused 74 Late frame 10:00:01:24\n\
        3 faults\n");
    assert_reported(&rt, &pes, &["--origin", "8589930992"],
        "refused 63 Early frame 10:00:00:01\n\
        trusted frames 10:00:00:01 10:00:01:24\n\
        refused 72 Content frame 10:00:02:00 row 22 column 16\n\
        ended 72 Content frame 10:00:02:00\n\
        trusted frames 10:00:02:01 10:00:02:01\n\
        2 faults\n");
    assert_reported(&rt, &pes, &["--origin", "1"],
        "refused 61 OffFrame pes 0\n\
        ended 61 OffFrame pes 1\n\
        1 faults\n");
}

// Changes of the schedule: a byte of even parity or the letter `h` instead of the letter `H` of the
// row, and a first header with C4 clear.
const EVEN: (usize, u8) = (117, 0x12);

const OTHER: (usize, u8) = (117, 0x16);

const NO_ERASE: (usize, u8) = (55, 0xA8);

// Returns the schedule for `Hi` with two bytes changed.
fn schedule_with_changes(rt: &impl Abort, first: (usize, u8), second: (usize, u8)) -> [u8; 368]
    ensures { length result ≡ 368 }
{
    let mut pes = schedule_of_hi();
    assert!(rt; first.0 < 368 && second.0 < 368);
    pes[first.0] = first.1;
    pes[second.0] = second.1;
    pes
}

#[test]
fn reports_all_of_a_schedule_with_an_even_byte(rt: HostRuntime) {
    let even = schedule_with_changes(&rt, EVEN, EVEN);
    let lines = "refused 68 Parity frame 10:00:00:00 packet 1\n\
        trusted frames 10:00:02:00 10:00:02:00\n1 faults\n";
    assert_reported(&rt, &even, &[], lines);
    // The next header is sent two seconds later. Until then the letter may be missing on screens.
    let listen = ["subttx", "listen", "a", "--at", "10:00:01:24"];
    let shown = "heard yes\nopen no\nrow 22 |                ... i..                 |\n";
    assert_reports(&rt, &listen, &even, &[], shown);
}

// The bytes that are cut off may have been sent in the last frame, so this frame is not clean; if
// no bytes are cut off, it is clean. Fault 74 is reported only if all bytes are read.
#[rattlefmt::skip]
#[test]
fn doubts_the_last_frame_where_bytes_are_left(rt: HostRuntime) {
    let pes = schedule_of_hi();
    let (first, _) = pes.split_at(184);
    assert_reported(&rt, first, &[],
        "trusted frames 10:00:00:00 10:00:00:00\n\
        refused 74 Late frame 10:00:00:00\n\
        1 faults\n");
    let (cut, _) = pes.split_at(367);
    assert_reported(&rt, cut, &[], "refused 30 Truncated pes 1\n1 faults\n");
    let even = schedule_with_changes(&rt, NO_ERASE, EVEN);
    let (cut, _) = even.split_at(367);
    assert_reported(&rt, cut, &[],
        "refused 67 Control frame 10:00:00:00 packet 0\n\
        refused 68 Parity frame 10:00:00:00 packet 1\n\
        refused 30 Truncated pes 1\n\
        3 faults\n");
    let three = pes_packets_each_second();
    let (cut, _) = three.split_at(551);
    assert_reported(&rt, cut, &[],
        "trusted frames 10:00:00:00 10:00:00:24\n\
        refused 30 Truncated pes 2\n\
        1 faults\n");
    assert_reported(&rt, &[], &[], "refused 60 Empty\n1 faults\n");
}

#[rattlefmt::skip]
#[test]
fn reports_all_of_a_schedule_with_bytes_changed(rt: HostRuntime) {
    assert_reported(&rt, &schedule_with_changes(&rt, OTHER, OTHER), &[],
        "refused 72 Content frame 10:00:00:00 row 22 column 19\n\
        ended 72 Content frame 10:00:01:24\n\
        trusted frames 10:00:02:00 10:00:02:00\n\
        1 faults\n");
    // A stuffing unit replaces the first header that ends the page.
    assert_reported(&rt, &schedule_with_changes(&rt, (138, 0xFF), (138, 0xFF)), &[], ACCEPTED);
    assert_reported(&rt, &schedule_with_changes(&rt, (138, 0xFF), (138, 0xFF)), &["--complete"],
        "refused 77 Incomplete frame 10:00:00:00\n\
        ended 77 Incomplete frame 10:00:01:24\n\
        trusted frames 10:00:02:00 10:00:02:00\n\
        1 faults\n");
}

// The third PES packet has an earlier frame than the second PES packet, whose header still counts
// for the repeat bound.
#[test]
fn goes_on_after_frames_that_do_not_rise(rt: HostRuntime) {
    let lines = "trusted frames 10:00:00:00 10:00:01:24\nrefused 62 Order pes 2\n1 faults\n";
    assert_reported(&rt, &schedule_of_hi_twice(), &[], lines);
    let mut buffer = [0; 736];
    let mut pes = MemSink::new(&mut buffer);
    push_pes(&mut pes, TEN, &[HEADER, ROW, CLOSING]);
    push_pes(&mut pes, TEN + 24, &[HEADER, ROW, CLOSING]);
    push_pes(&mut pes, TEN + 10, &[CLOSING]);
    push_pes(&mut pes, TEN + 50, &[HEADER, CLOSING]);
    let lines = "trusted frames 10:00:00:00 10:00:00:19\n\
        refused 73 Gap frame 10:00:00:20\n\
        ended 73 Gap frame 10:00:00:23\n\
        refused 62 Order pes 2\n\
        refused 73 Gap frame 10:00:01:19\n\
        ended 73 Gap frame 10:00:01:24\n\
        3 faults\n";
    assert_reported(&rt, pes.written(), &["--every", "20"], lines);
}
