//! Complete pages, which `--complete` requires, and pages that are spread over several frames.
use crate::answers::assert_reports;
use answer_fixtures::{ACCEPTED, CHECK};
use fixtures::{
    CLOSING, FIRST, HEADER, OTHER_HEADER, ROW, TEN, TWO_ROWS, block, file_of, file_of_hi, head,
    in_serial_mode, push_pes, push_two, row_of, schedule_of_hi,
};
use std::alloc::Global;
use std::process::Abort;
use sub_io::MemSink;

const OPEN: &str = "refused 77 Incomplete frame 10:00:00:00\n";

// Asserts the lines of a check without and with `--complete`.
fn assert_checks(
    rt: &(impl Abort + Alloc<A = Global>),
    stl: &[u8],
    pes: &[u8],
    plain: &str,
    complete: &str,
) {
    assert_reports(rt, &CHECK, stl, pes, plain);
    assert_reports(
        rt,
        &["subttx", "check", "a", "b", "--complete"],
        stl,
        pes,
        complete,
    );
}

// Asserts the lines of a check without and with `--complete` after two bytes of the schedule for
// `Hi` were changed.
fn assert_checks_changed(
    rt: &(impl Abort + Alloc<A = Global>),
    changes: [(usize, u8); 2],
    plain: &str,
    complete: &str,
) {
    let mut pes = schedule_of_hi();
    for (place, value) in changes {
        assert!(rt; place < 368);
        pes[place] = value;
    }
    assert_checks(rt, &file_of_hi(), &pes, plain, complete);
}

#[rattlefmt::skip]
#[test]
fn refuses_a_page_that_is_open_at_a_frames_end(rt: HostRuntime) {
    let content = "refused 72 Content frame 10:00:00:00 row 22 column 17\n";
    let incomplete_at_end = "refused 77 Incomplete frame 10:00:02:00\n";
    // The schedule for `Hi` without a change, and with a stuffing unit instead of its first or its
    // second header that ends the page.
    assert_checks_changed(&rt, [(138, 0x03), (138, 0x03)], ACCEPTED, ACCEPTED);
    assert_checks_changed(&rt, [(138, 0xFF), (138, 0xFF)], ACCEPTED, OPEN);
    assert_checks_changed(&rt, [(276, 0xFF), (276, 0xFF)], ACCEPTED, incomplete_at_end);
    // A stuffing unit replaces the first header that ends the page, and code 49 replaces the second
    // start box (0B) of row 22.
    assert_checks_changed(&rt, [(138, 0xFF), (115, 0x92)], content, content);
}

#[test]
fn reports_an_open_page_before_an_early_end_and_a_gap_before_it(rt: HostRuntime) {
    let mut first = FIRST;
    first[138] = 0xFF;
    let late = "refused 74 Late frame 10:00:00:00\n";
    assert_checks(&rt, &file_of_hi(), &first, late, OPEN);
    let arguments = ["subttx", "check", "a", "b", "--every", "25", "--complete"];
    let gap = "refused 73 Gap frame 10:00:01:00\n";
    assert_reports(&rt, &arguments, &file_of_hi(), &schedule_of_hi(), gap);
}

// Asserts the lines of a check without and with `--complete`, with the packets `first` at
// 10:00:00:00, and the packets `last` two seconds later.
fn assert_checks_two_packets(
    rt: &(impl Abort + Alloc<A = Global>),
    first: &[[u8; 42]],
    last: &[[u8; 42]],
    plain: &str,
    complete: &str,
) {
    let mut buffer = [0; 1024];
    let mut pes = MemSink::new(&mut buffer);
    push_two(&mut pes, first, last);
    assert_checks(rt, &file_of_hi(), pes.written(), plain, complete);
}

#[test]
fn counts_a_header_that_ends_the_page_alone(rt: HostRuntime) {
    // A header of page 100 follows the row, in parallel mode and in serial mode.
    let sent = [HEADER, ROW, OTHER_HEADER];
    assert_checks_two_packets(&rt, &sent, &[HEADER, CLOSING], ACCEPTED, OPEN);
    let (header, other) = (in_serial_mode(&HEADER), in_serial_mode(&OTHER_HEADER));
    assert_checks_two_packets(
        &rt,
        &[header, ROW, other],
        &[header, other],
        ACCEPTED,
        ACCEPTED,
    );
    // A header of the page follows the header that ended it.
    let again = [HEADER, ROW, CLOSING, HEADER, ROW];
    let three = "accepted 51 frames 3 transmissions\n";
    assert_checks_two_packets(&rt, &again, &[HEADER, CLOSING], three, OPEN);
}

#[test]
fn judges_a_page_that_is_spread_over_two_frames(rt: HostRuntime) {
    let file = file_of(&block(&head(TEN, TEN + 50, 20), &TWO_ROWS));
    let (upper, lower) = (row_of(0x8C, 0xC1), row_of(0x9B, 0xC2));
    let mut buffer = [0; 1024];
    let mut closed_later = MemSink::new(&mut buffer);
    push_pes(&mut closed_later, TEN, &[HEADER, upper, lower]);
    push_pes(&mut closed_later, TEN + 1, &[CLOSING]);
    push_pes(&mut closed_later, TEN + 50, &[HEADER, CLOSING]);
    assert_checks(&rt, &file, closed_later.written(), ACCEPTED, OPEN);
    let mut buffer = [0; 1024];
    let mut spread_transmission = MemSink::new(&mut buffer);
    push_pes(&mut spread_transmission, TEN, &[HEADER, upper]);
    push_pes(&mut spread_transmission, TEN + 1, &[lower, CLOSING]);
    let content = "refused 72 Content frame 10:00:00:00 row 22 column 17\n";
    assert_checks(&rt, &file, spread_transmission.written(), content, content);
}
