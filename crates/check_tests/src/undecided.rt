//! Rejected subtitles, with `check --all`. The frames at other times are checked.
use crate::answers::assert_all;
use crate::scope::{BAD, HO, at, file_of_blocks, file_with_bad_subtitle};
use fixtures::{HI, block, file_of, file_of_two, head, push_spelled_packets, put};
use std::alloc::Global;
use std::process::Abort;
use sub_io::MemSink;

// An option with its default value.
const PLAIN: [&str; 2] = ["--every", "250"];

// The options for complete pages.
const COMPLETE: [&str; 2] = ["--every=250", "--complete"];

// A transmission of `Hi`, then of `Ho` instead of a subtitle that can't be drawn, and of `Hi` after
// a pause.
const ALL_SENT: [&str; 5] = ["0:hrc", "50:hoc", "100:hc", "120:hrc", "150:hc"];

// Asserts the output of `check --all` with these options for a transmission in the short notation.
fn assert_all_faults(
    rt: &(impl Abort + Alloc<A = Global>),
    options: [&str; 2],
    stl: &[u8],
    sent: &[&str],
    want: &str,
) {
    let mut buffer = [0; 1104];
    let mut pes = MemSink::new(&mut buffer);
    push_spelled_packets(&mut pes, sent);
    let arguments = ["subttx", "check", "a", "b", options[0], options[1]];
    assert_all(rt, &arguments, stl, pes.written(), "", want);
}

// Returns a subtitle file of four blocks.
fn file_of_four_blocks(
    first: &[u8; 128],
    second: &[u8; 128],
    third: &[u8; 128],
    fourth: &[u8; 128],
) -> [u8; 1536] {
    let mut file = [0; 1536];
    put(&mut file, 0, &file_of_blocks(first, second, third));
    put(&mut file, 1408, fourth);
    file
}

#[rattlefmt::skip]
#[test]
fn judges_subtitles_with_a_text_that_can_not_be_drawn(rt: HostRuntime) {
    let bad = file_with_bad_subtitle();
    assert_all_faults(&rt, PLAIN, &bad, &ALL_SENT,
        "refused 50 Character block 2 at 4\n\
        trusted frames 10:00:00:00 10:00:01:24\n\
        refused 78 Undecided frame 10:00:02:00\n\
        ended 78 Undecided frame 10:00:04:19\n\
        trusted frames 10:00:04:20 10:00:06:00\n\
        2 faults\n");
    assert_all_faults(&rt, ["--from", "10:00:02:00"], &bad, &ALL_SENT,
        "refused 50 Character block 2 at 4\n\
        refused 78 Undecided frame 10:00:00:00\n\
        ended 78 Undecided frame 10:00:04:19\n\
        trusted frames 10:00:04:20 10:00:06:00\n\
        2 faults\n");
    assert_all_faults(&rt, ["--every", "49"], &bad, &ALL_SENT,
        "refused 50 Character block 2 at 4\n\
        trusted frames 10:00:00:00 10:00:01:23\n\
        refused 73 Gap frame 10:00:01:24\n\
        ended 73 Gap frame 10:00:01:24\n\
        refused 78 Undecided frame 10:00:02:00\n\
        refused 73 Gap frame 10:00:03:24\n\
        ended 73 Gap frame 10:00:03:24\n\
        ended 78 Undecided frame 10:00:04:19\n\
        trusted frames 10:00:04:20 10:00:06:00\n\
        4 faults\n");
}

#[rattlefmt::skip]
#[test]
fn requires_the_page_where_it_is_known_again(rt: HostRuntime) {
    let bad = file_with_bad_subtitle();
    assert_all_faults(&rt, PLAIN, &bad, &["0:hrc", "120:hrc", "150:hc"],
        "refused 50 Character block 2 at 4\n\
        trusted frames 10:00:00:00 10:00:01:24\n\
        refused 78 Undecided frame 10:00:02:00\n\
        ended 78 Undecided frame 10:00:04:19\n\
        trusted frames 10:00:04:20 10:00:06:00\n\
        2 faults\n");
    assert_all_faults(&rt, PLAIN, &bad, &["0:hrc", "50:hoc", "121:hrc", "150:hc"],
        "refused 50 Character block 2 at 4\n\
        trusted frames 10:00:00:00 10:00:01:24\n\
        refused 78 Undecided frame 10:00:02:00\n\
        refused 72 Content frame 10:00:04:20 row 22 column 20\n\
        ended 78 Undecided frame 10:00:04:19\n\
        ended 72 Content frame 10:00:04:20\n\
        trusted frames 10:00:04:21 10:00:06:00\n\
        3 faults\n");
    assert_all_faults(&rt, ["--within", "1"], &bad, &["0:hrc", "50:hoc", "121:hrc", "150:hc"],
        "refused 50 Character block 2 at 4\n\
        trusted frames 10:00:00:00 10:00:01:24\n\
        refused 78 Undecided frame 10:00:02:00\n\
        ended 78 Undecided frame 10:00:04:20\n\
        trusted frames 10:00:04:21 10:00:06:00\n\
        2 faults\n");
    assert_all_faults(&rt, ["--within", "1"], &bad, &["0:hrc", "50:hoc", "122:hrc", "150:hc"],
        "refused 50 Character block 2 at 4\n\
        trusted frames 10:00:00:00 10:00:01:24\n\
        refused 78 Undecided frame 10:00:02:00\n\
        refused 72 Content frame 10:00:04:21 row 22 column 20\n\
        ended 78 Undecided frame 10:00:04:20\n\
        ended 72 Content frame 10:00:04:21\n\
        trusted frames 10:00:04:22 10:00:06:00\n\
        3 faults\n");
}

#[rattlefmt::skip]
#[test]
fn reports_what_is_broken_before_it_is_not_known(rt: HostRuntime) {
    let bad = file_with_bad_subtitle();
    assert_all_faults(&rt, PLAIN, &bad, &["0:hrc", "49:hc", "50:hoc", "120:hrc", "150:hc"],
        "refused 50 Character block 2 at 4\n\
        trusted frames 10:00:00:00 10:00:01:23\n\
        refused 72 Content frame 10:00:01:24 row 22 column 16\n\
        ended 72 Content frame 10:00:01:24\n\
        refused 78 Undecided frame 10:00:02:00\n\
        ended 78 Undecided frame 10:00:04:19\n\
        trusted frames 10:00:04:20 10:00:06:00\n\
        3 faults\n");
    assert_all_faults(&rt, ["--within", "2"], &bad, &["0:hrc", "49:hc", "50:hoc", "120:hrc",
        "150:hc"],
        "refused 50 Character block 2 at 4\n\
        trusted frames 10:00:00:00 10:00:01:23\n\
        refused 78 Undecided frame 10:00:02:00\n\
        ended 78 Undecided frame 10:00:04:21\n\
        trusted frames 10:00:06:00 10:00:06:00\n\
        2 faults\n");
}

#[rattlefmt::skip]
#[test]
fn reports_all_else_where_it_is_not_known(rt: HostRuntime) {
    let bad = file_with_bad_subtitle();
    assert_all_faults(&rt, PLAIN, &bad, &["0:hrc", "50:hec", "120:hrc", "150:hc"],
        "refused 50 Character block 2 at 4\n\
        trusted frames 10:00:00:00 10:00:01:24\n\
        refused 68 Parity frame 10:00:02:00 packet 1\n\
        refused 78 Undecided frame 10:00:02:00\n\
        ended 78 Undecided frame 10:00:04:19\n\
        trusted frames 10:00:04:20 10:00:06:00\n\
        3 faults\n");
    assert_all_faults(&rt, COMPLETE, &bad, &["0:hrc", "50:ho", "120:hrc", "150:hc"],
        "refused 50 Character block 2 at 4\n\
        trusted frames 10:00:00:00 10:00:01:24\n\
        refused 77 Incomplete frame 10:00:02:00\n\
        refused 78 Undecided frame 10:00:02:00\n\
        ended 77 Incomplete frame 10:00:04:19\n\
        ended 78 Undecided frame 10:00:04:19\n\
        trusted frames 10:00:04:20 10:00:06:00\n\
        3 faults\n");
    assert_all_faults(&rt, PLAIN, &bad, &["0:hrc", "50:hoc"],
        "refused 50 Character block 2 at 4\n\
        trusted frames 10:00:00:00 10:00:01:24\n\
        refused 78 Undecided frame 10:00:02:00\n\
        ended 78 Undecided frame 10:00:02:00\n\
        refused 74 Late frame 10:00:02:00\n\
        3 faults\n");
    assert_all_faults(&rt, PLAIN, &bad, &["60:hoc", "120:hrc", "150:hc"],
        "refused 50 Character block 2 at 4\n\
        refused 63 Early frame 10:00:02:10\n\
        refused 78 Undecided frame 10:00:02:10\n\
        ended 78 Undecided frame 10:00:04:19\n\
        trusted frames 10:00:04:20 10:00:06:00\n\
        3 faults\n");
}

#[rattlefmt::skip]
#[test]
fn judges_before_and_after_what_is_refused(rt: HostRuntime) {
    let last = file_of_two(&at(0, 50, &HI), &at(50, 100, &BAD));
    let first = file_of_two(&at(0, 50, &BAD), &at(50, 100, &HI));
    let only = file_of(&at(0, 50, &BAD));
    let title = file_of_two(&block(&head(0, 100, 22), &BAD), &at(0, 50, &HI));
    assert_all_faults(&rt, PLAIN, &last, &["0:hrc", "50:hoc", "100:hc"],
        "refused 50 Character block 2 at 4\n\
        trusted frames 10:00:00:00 10:00:01:24\n\
        refused 78 Undecided frame 10:00:02:00\n\
        ended 78 Undecided frame 10:00:04:00\n\
        2 faults\n");
    assert_all_faults(&rt, PLAIN, &last, &["0:hrc", "49:hoc"],
        "refused 50 Character block 2 at 4\n\
        trusted frames 10:00:00:00 10:00:01:23\n\
        refused 72 Content frame 10:00:01:24 row 22 column 20\n\
        ended 72 Content frame 10:00:01:24\n\
        refused 74 Late frame 10:00:01:24\n\
        3 faults\n");
    assert_all_faults(&rt, PLAIN, &first, &["10:hoc", "50:hrc", "100:hc"],
        "refused 50 Character block 1 at 4\n\
        refused 78 Undecided frame 10:00:00:10\n\
        ended 78 Undecided frame 10:00:01:24\n\
        trusted frames 10:00:02:00 10:00:04:00\n\
        2 faults\n");
    assert_all_faults(&rt, PLAIN, &only, &["0:hrc", "50:hc"],
        "refused 50 Character block 1 at 4\n\
        1 faults\n");
    assert_all_faults(&rt, PLAIN, &title, &["0:hrc", "50:hc"],
        "refused 50 Character block 1 at 4\n\
        trusted frames 10:00:00:00 10:00:02:00\n\
        1 faults\n");
}

#[rattlefmt::skip]
#[test]
fn requires_no_time_next_to_what_is_refused(rt: HostRuntime) {
    let hi = at(0, 50, &HI);
    let overlapping = file_of_blocks(&hi, &at(40, 60, &HO), &at(60, 100, &HI));
    let next = at(80, 100, &HI);
    let early = file_of_four_blocks(&hi, &at(60, 70, &HO), &at(20, 30, &HI), &next);
    let empty = file_of_blocks(&hi, &at(50, 50, &HO), &at(50, 100, &HI));
    let mut within = file_of_blocks(&hi, &at(20, 30, &HO), &at(50, 100, &HI));
    within[1156] = 1; // CS
    assert_all_faults(&rt, PLAIN, &overlapping, &["0:hrc", "40:hoc", "60:hrc", "100:hc"],
        "refused 57 Overlap block 2\n\
        refused 78 Undecided frame 10:00:00:00\n\
        ended 78 Undecided frame 10:00:02:09\n\
        trusted frames 10:00:02:10 10:00:04:00\n\
        2 faults\n");
    assert_all_faults(&rt, PLAIN, &early, &["0:hrc", "50:hc", "60:hoc", "80:hrc", "100:hc"],
        "refused 56 OutOfOrder block 3\n\
        trusted frames 10:00:00:00 10:00:01:24\n\
        refused 78 Undecided frame 10:00:02:00\n\
        ended 78 Undecided frame 10:00:03:04\n\
        trusted frames 10:00:03:05 10:00:04:00\n\
        2 faults\n");
    assert_all_faults(&rt, PLAIN, &empty, &["0:hrc", "100:hc"],
        "refused 21 EmptyTime block 2\n\
        trusted frames 10:00:00:00 10:00:04:00\n\
        1 faults\n");
    assert_all_faults(&rt, PLAIN, &within, &["0:hrc", "100:hc"],
        "refused 16 Cumulative block 2\n\
        trusted frames 10:00:00:00 10:00:04:00\n\
        1 faults\n");
}

#[rattlefmt::skip]
#[test]
fn requires_no_time_of_a_pause_with_what_is_refused(rt: HostRuntime) {
    let pause = file_of_blocks(&at(0, 50, &HI), &at(60, 70, &HO), &at(80, 100, &HI));
    let (mut before, mut no_time, mut cumulative, mut justified) = (pause, pause, pause, pause);
    put(&mut before, 1161, &[9, 0, 0, 0]); // TCO
    no_time[1164] = 25; // frames of TCO
    cumulative[1156] = 1; // CS
    justified[1166] = 4; // JC
    assert_all_faults(&rt, PLAIN, &before, &["0:hrc", "50:hc", "80:hrc", "100:hc"],
        "refused 21 EmptyTime block 2\n\
        trusted frames 10:00:00:00 10:00:01:24\n\
        refused 78 Undecided frame 10:00:02:00\n\
        ended 78 Undecided frame 10:00:03:04\n\
        trusted frames 10:00:03:05 10:00:04:00\n\
        2 faults\n");
    assert_all_faults(&rt, PLAIN, &no_time, &["0:hrc", "50:hc", "80:hrc", "100:hc"],
        "refused 20 Time block 2\n\
        trusted frames 10:00:00:00 10:00:01:24\n\
        refused 78 Undecided frame 10:00:02:00\n\
        ended 78 Undecided frame 10:00:03:04\n\
        trusted frames 10:00:03:05 10:00:04:00\n\
        2 faults\n");
    assert_all_faults(&rt, PLAIN, &cumulative, &["0:hrc", "50:hc", "80:hrc", "100:hc"],
        "refused 16 Cumulative block 2\n\
        trusted frames 10:00:00:00 10:00:01:24\n\
        refused 78 Undecided frame 10:00:02:00\n\
        ended 78 Undecided frame 10:00:03:04\n\
        trusted frames 10:00:03:05 10:00:04:00\n\
        2 faults\n");
    assert_all_faults(&rt, PLAIN, &justified, &["0:hrc", "50:hc", "80:hrc", "100:hc"],
        "refused 18 Justify block 2\n\
        trusted frames 10:00:00:00 10:00:01:24\n\
        refused 78 Undecided frame 10:00:02:00\n\
        ended 78 Undecided frame 10:00:03:04\n\
        trusted frames 10:00:03:05 10:00:04:00\n\
        2 faults\n");
}

#[rattlefmt::skip]
#[test]
fn requires_no_time_after_what_is_out_of_order(rt: HostRuntime) {
    let hi = at(0, 50, &HI);
    let late = file_of_blocks(&hi, &at(200, 250, &HO), &at(60, 100, &HI));
    let mut lost = [0; 1664];
    put(&mut lost, 0, &file_of_four_blocks(&hi, &at(60, 70, &HO), &at(20, 30, &HI),
        &at(40, 45, &HI)));
    put(&mut lost, 1536, &at(80, 100, &HI));
    let mut far = [0; 1664];
    put(&mut far, 0,
        &file_of_four_blocks(&hi, &at(500, 510, &HO), &at(520, 530, &HO), &at(60, 100, &HI)));
    put(&mut far, 1536, &at(120, 150, &HI));
    assert_all_faults(&rt, PLAIN, &late, &["0:hrc", "50:hc", "60:hrc", "100:hc"],
        "refused 56 OutOfOrder block 3\n\
        trusted frames 10:00:00:00 10:00:01:24\n\
        refused 78 Undecided frame 10:00:02:00\n\
        ended 78 Undecided frame 10:00:04:00\n\
        2 faults\n");
    assert_all_faults(&rt, PLAIN, &lost, &["0:hrc", "50:hc", "60:hoc", "80:hrc", "100:hc"],
        "refused 56 OutOfOrder block 3\n\
        1 faults\n");
    assert_all_faults(&rt, PLAIN, &far, &["0:hrc", "50:hc", "60:hrc", "100:hc", "150:hc"],
        "refused 56 OutOfOrder block 4\n\
        1 faults\n");
}
