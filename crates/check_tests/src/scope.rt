//! Parts of a subtitle file, with `check --from` and `--to`, and open subtitles, with `check
//! --open`.
use crate::answers::{assert_all, assert_reports};
use answer_fixtures::ACCEPTED;
use fixtures::{
    HI, TEN, block, file_of_hi, file_of_two, head, push_spelled_packets, put, schedule_of_hi,
};
use std::alloc::Global;
use std::process::Abort;
use sub_io::MemSink;

/// The text `Ho` with double height, in a box.
pub const HO: [u8; 7] = [0x0D, 0x0B, 0x0B, 0x48, 0x6F, 0x0A, 0x0A];

/// A text with a character that Teletext level 1 does not have.
pub const BAD: [u8; 7] = [0x0D, 0x0B, 0x0B, 0x48, 0xE6, 0x0A, 0x0A];

/// Returns the block of a text, with TCI and TCO at these frames after 10:00:00:00.
pub fn at(from: u32, to: u32, text: &[u8; 7]) -> [u8; 128] {
    block(
        &head(TEN.saturating_add(from), TEN.saturating_add(to), 22),
        text,
    )
}

/// Returns a subtitle file of three blocks.
pub fn file_of_blocks(first: &[u8; 128], second: &[u8; 128], third: &[u8; 128]) -> [u8; 1408] {
    let mut file = [0; 1408];
    put(&mut file, 0, &file_of_two(first, second));
    put(&mut file, 1280, third);
    file
}

/// Returns a file with three subtitles: `Hi`, a subtitle that can't be drawn, and `Hi` after a
/// pause.
pub fn file_with_bad_subtitle() -> [u8; 1408] {
    file_of_blocks(&at(0, 50, &HI), &at(50, 100, &BAD), &at(120, 150, &HI))
}

// Asserts the output of `check --all` with these options for a transmission in the short notation.
fn assert_reported(
    rt: &(impl Abort + Alloc<A = Global>),
    options: &[&str; 4],
    stl: &[u8],
    sent: &[&str],
    want: &str,
) {
    let mut buffer = [0; 1104];
    let mut pes = MemSink::new(&mut buffer);
    push_spelled_packets(&mut pes, sent);
    let arguments = [
        "subttx", "check", "a", "b", options[0], options[1], options[2], options[3],
    ];
    assert_reports(rt, &arguments, stl, pes.written(), want);
}

// The option that selects all subtitles of the day.
const FROM: [&str; 2] = ["--from", "00:00:00:00"];

// Asserts the output of `check --all` with `--to`.
fn assert_line_to(
    rt: &(impl Abort + Alloc<A = Global>),
    to: &str,
    stl: &[u8],
    sent: &[&str],
    want: &str,
) {
    assert_reported(rt, &[FROM[0], FROM[1], "--to", to], stl, sent, want);
}

// Asserts the output of `check --all` with `--from`.
fn assert_line_from(
    rt: &(impl Abort + Alloc<A = Global>),
    from: &str,
    stl: &[u8],
    sent: &[&str],
    want: &str,
) {
    assert_reported(rt, &["--from", from, "--every", "250"], stl, sent, want);
}

#[test]
fn judges_the_subtitles_that_start_before_a_time(rt: HostRuntime) {
    let bad = file_with_bad_subtitle();
    let once = ["0:hrc", "50:hc"];
    let refused = "refused 50 Character block 2 at 4\n";
    assert_line_to(&rt, "10:00:02:00", &bad, &once, ACCEPTED);
    assert_line_to(&rt, "10:00:02:01", &bad, &once, refused);
    let no_time = file_of_two(&at(0, 50, &HI), &at(60, 70, &HO));
    let mut no_time_out = no_time;
    no_time_out[1024 + 128 + 12] = 25; // frames of TCO
    let time = "refused 20 Time block 2\n";
    assert_line_to(&rt, "10:00:02:10", &no_time_out, &once, ACCEPTED);
    assert_line_to(&rt, "10:00:02:11", &no_time_out, &once, time);
    let late = file_of_blocks(&at(0, 50, &HI), &at(200, 250, &HO), &at(60, 100, &HI));
    let twice = ["0:hrc", "50:hc", "60:hrc", "100:hc"];
    let both = "accepted 101 frames 4 transmissions\n";
    assert_line_to(&rt, "10:00:06:00", &late, &twice, both);
    assert_line_to(&rt, "24:00:00:00", &late, &twice, "usage 6 BadTime\n");
}

#[test]
fn judges_the_subtitles_that_start_from_a_time_on(rt: HostRuntime) {
    let title = block(&head(0, 100, 22), &HO);
    let titled = file_of_two(&title, &at(0, 50, &HI));
    let refused = file_of_two(&block(&head(0, 100, 22), &BAD), &at(0, 50, &HI));
    let once = ["0:hrc", "50:hc"];
    let early = "refused 63 Early frame 10:00:00:00\n";
    let content = "refused 72 Content frame 10:00:00:00 row 22 column 16\n";
    assert_line_from(&rt, "00:00:00:00", &titled, &once, early);
    assert_line_from(&rt, "00:00:00:01", &titled, &once, ACCEPTED);
    assert_line_from(&rt, "09:59:00:00", &refused, &once, ACCEPTED);
    assert_line_from(&rt, "9:59:00:00", &refused, &once, "usage 6 BadTime\n");
    assert_line_from(&rt, "10:00:00:01", &file_of_hi(), &once, content);
}

#[test]
fn judges_the_subtitles_between_two_times(rt: HostRuntime) {
    let hi = file_of_hi();
    let one_frame = [
        "subttx",
        "check",
        "a",
        "b",
        "--from",
        "10:00:00:00",
        "--to",
        "10:00:00:01",
    ];
    assert_reports(&rt, &one_frame, &hi, &schedule_of_hi(), ACCEPTED);
    let none = ["--from", "10:00:02:00", "--to", "10:00:01:24"];
    let sent = ["0:hrc", "50:hoc", "100:hc", "120:hrc", "150:hc"];
    let content = "refused 72 Content frame 10:00:00:00 row 22 column 16\n";
    assert_reported(&rt, &none, &file_with_bad_subtitle(), &sent, content);
    let twice = [
        "subttx",
        "check",
        "a",
        "b",
        "--from",
        "09:59:00:00",
        "--from",
        "09:59:00:00",
    ];
    assert_reports(&rt, &twice, &hi, &schedule_of_hi(), "usage 0 Words\n");
}

// Asserts the lines of a check without and with `--open` for the subtitle file with `Hi`, with this
// display standard.
fn assert_accepts_display(
    rt: &(impl Abort + Alloc<A = Global>),
    display: u8,
    plain: &str,
    open: &str,
) {
    let mut file = file_of_hi();
    file[11] = display;
    let pes = schedule_of_hi();
    assert_reports(rt, &["subttx", "check", "a", "b"], &file, &pes, plain);
    assert_reports(
        rt,
        &["subttx", "check", "a", "b", "--open"],
        &file,
        &pes,
        open,
    );
}

#[test]
fn takes_open_subtitles_where_they_are_requested(rt: HostRuntime) {
    let refused = "refused 13 Display block 0\n";
    assert_accepts_display(&rt, b'0', refused, ACCEPTED);
    assert_accepts_display(&rt, b' ', refused, ACCEPTED);
    assert_accepts_display(&rt, b'2', ACCEPTED, ACCEPTED);
    assert_accepts_display(&rt, b'3', refused, refused);
}

#[rattlefmt::skip]
#[test]
fn reports_all_of_a_part(rt: HostRuntime) {
    let mut buffer = [0; 1104];
    let mut pes = MemSink::new(&mut buffer);
    push_spelled_packets(&mut pes, &["0:hrc", "50:hoc", "100:hc", "120:hrc", "150:hc"]);
    let first = ["subttx", "check", "a", "b", "--to", "10:00:02:00"];
    assert_all(&rt, &first, &file_with_bad_subtitle(), pes.written(), "",
        "trusted frames 10:00:00:00 10:00:01:24\n\
        refused 72 Content frame 10:00:02:00 row 22 column 16\n\
        ended 72 Content frame 10:00:03:24\n\
        trusted frames 10:00:04:00 10:00:04:19\n\
        refused 72 Content frame 10:00:04:20 row 22 column 16\n\
        ended 72 Content frame 10:00:05:24\n\
        trusted frames 10:00:06:00 10:00:06:00\n\
        2 faults\n");
    let mut other_buffer = [0; 1104];
    let mut other = MemSink::new(&mut other_buffer);
    push_spelled_packets(&mut other, &["0:hrc", "40:hoc", "60:hrc", "100:hc"]);
    let overlapping = file_of_blocks(&at(0, 50, &HI), &at(40, 60, &HO), &at(60, 100, &HI));
    let last = ["subttx", "check", "a", "b", "--from", "10:00:01:15"];
    assert_all(&rt, &last, &overlapping, other.written(), "",
        "refused 72 Content frame 10:00:00:00 row 22 column 16\n\
        ended 72 Content frame 10:00:01:14\n\
        trusted frames 10:00:01:15 10:00:04:00\n\
        1 faults\n");
}
