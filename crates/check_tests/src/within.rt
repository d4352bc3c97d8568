//! Late pages, and several PES packets for one frame, with `check --within`.
use crate::every_place::assert_reported_with_options;
use answer_fixtures::ACCEPTED;
use fixtures::{HEAD, HI, TEN, block, file_of_hi, file_of_two, head, push_spelled_packets};
use std::alloc::Global;
use std::process::Abort;
use sub_io::MemSink;

/// Asserts the output of `check --all` for a row of a table: the PES packets, the options and the
/// expected lines.
pub fn assert_row(rt: &(impl Abort + Alloc<A = Global>), stl: &[u8], row: &[&[&str]; 3]) {
    let mut buffer = [0; 920];
    let mut pes = MemSink::new(&mut buffer);
    push_spelled_packets(&mut pes, row[0]);
    assert!(rt; row[2].len() == 1);
    assert_reported_with_options(rt, stl, pes.written(), row[1], row[2][0]);
}

// Transmissions with late pages, and the number of frames within which pages must be right.
#[rattlefmt::skip]
const LATE: [[&[&str]; 3]; 22] = [
    [&["0:h", "1:rc", "50:hc"], &[], &[
        "refused 72 Content frame 10:00:00:00 row 22 column 16\n\
        ended 72 Content frame 10:00:00:00\n\
        trusted frames 10:00:02:00 10:00:02:00\n\
        1 faults\n"]],
    [&["0:h", "1:rc", "50:hc"], &["--within", "1"], &[ACCEPTED]],
    [&["0:h", "1:rc", "50:hc"], &["--within", "1", "--complete"], &[ACCEPTED]],
    [&["0:h", "2:rc", "50:hc"], &["--within", "1"], &[
        "refused 72 Content frame 10:00:00:01 row 22 column 16\n\
        ended 72 Content frame 10:00:00:01\n\
        trusted frames 10:00:02:00 10:00:02:00\n\
        1 faults\n"]],
    [&["0:h", "2:rc", "50:hc"], &["--within", "1", "--complete"], &[
        "refused 72 Content frame 10:00:00:01 row 22 column 16\n\
        refused 77 Incomplete frame 10:00:00:01\n\
        ended 72 Content frame 10:00:00:01\n\
        ended 77 Incomplete frame 10:00:00:01\n\
        trusted frames 10:00:02:00 10:00:02:00\n\
        2 faults\n"]],
    [&["0:h", "2:rc", "50:hc"], &["--within", "2"], &[ACCEPTED]],
    [&["0:h", "3:rc", "50:hc"], &["--within", "2"], &[
        "refused 72 Content frame 10:00:00:02 row 22 column 16\n\
        ended 72 Content frame 10:00:00:02\n\
        trusted frames 10:00:02:00 10:00:02:00\n\
        1 faults\n"]],
    // The blank page is sent a frame late.
    [&["0:hrc", "51:hc"], &[], &[
        "trusted frames 10:00:00:00 10:00:01:24\n\
        refused 72 Content frame 10:00:02:00 row 22 column 16\n\
        ended 72 Content frame 10:00:02:00\n\
        trusted frames 10:00:02:01 10:00:02:01\n\
        1 faults\n"]],
    [&["0:hrc", "51:hc"], &["--within", "1"], &["accepted 52 frames 2 transmissions\n"]],
    // A code that is expected in no frame, and a code that is expected a frame later.
    [&["0:hoc", "1:hrc", "50:hc"], &["--within", "3"], &[
        "refused 72 Content frame 10:00:00:00 row 22 column 20\n\
        ended 72 Content frame 10:00:00:00\n\
        trusted frames 10:00:00:01 10:00:02:00\n\
        1 faults\n"]],
    [&["<:hrc", "50:hc"], &["--within", "3"], &[
        "refused 72 Content frame 09:59:59:24 row 22 column 16\n\
        ended 72 Content frame 09:59:59:24\n\
        trusted frames 10:00:02:00 10:00:02:00\n\
        1 faults\n"]],
    // The blank page is sent, and then the page with the subtitle again.
    [&["0:hrc", "50:hc", "51:hrc", "52:hc"], &["--within", "1"], &[
        "trusted frames 10:00:00:00 10:00:02:00\n\
        refused 72 Content frame 10:00:02:01 row 22 column 16\n\
        ended 72 Content frame 10:00:02:01\n\
        trusted frames 10:00:02:02 10:00:02:02\n\
        1 faults\n"]],
    [&["0:hrc", "50:hc", "51:hrc", "52:hc"], &["--within", "2"], &[
        "accepted 53 frames 4 transmissions\n"]],
    [&["51:hrc", "52:hc"], &["--within", "5"], &[
        "refused 63 Early frame 10:00:02:01\n\
        refused 72 Content frame 10:00:02:01 row 22 column 16\n\
        ended 72 Content frame 10:00:02:01\n\
        trusted frames 10:00:02:02 10:00:02:02\n\
        2 faults\n"]],
    // In the first frame, only the header that ends the page is missing.
    [&["0:hr", "1:h", "2:rc", "50:hc"], &["--within", "1"], &[
        "accepted 51 frames 3 transmissions\n"]],
    [&["0:hr", "1:h", "2:rc", "50:hc"], &["--within", "1", "--complete"], &[
        "refused 72 Content frame 10:00:00:01 row 22 column 16\n\
        refused 77 Incomplete frame 10:00:00:01\n\
        ended 72 Content frame 10:00:00:01\n\
        ended 77 Incomplete frame 10:00:00:01\n\
        trusted frames 10:00:02:00 10:00:02:00\n\
        2 faults\n"]],
    [&["0:hr", "1:c", "50:hc"], &["--complete"], &[
        "refused 77 Incomplete frame 10:00:00:00\n\
        ended 77 Incomplete frame 10:00:00:00\n\
        trusted frames 10:00:02:00 10:00:02:00\n\
        1 faults\n"]],
    [&["0:hr", "1:c", "50:hc"], &["--within", "1", "--complete"], &[ACCEPTED]],
    // The subtitle is never shown.
    [&["0:hc", "50:hc"], &["--within", "50"], &[
        "refused 72 Content frame 10:00:01:24 row 22 column 16\n\
        ended 72 Content frame 10:00:01:24\n\
        trusted frames 10:00:02:00 10:00:02:00\n\
        1 faults\n"]],
    // The page is not right at the end of the last frame.
    [&["0:hrc", "50:"], &["--within", "1"], &[
        "trusted frames 10:00:00:00 10:00:01:24\n\
        refused 74 Late frame 10:00:02:00\n\
        1 faults\n"]],
    [&["0:hrc", "50:"], &["--within", "1", "--complete"], &[
        "trusted frames 10:00:00:00 10:00:01:24\n\
        refused 74 Late frame 10:00:02:00\n\
        1 faults\n"]],
    // No header of the page is sent.
    [&["0:hrc", "50:hc"], &["--page", "100", "--every", "3", "--within", "1"], &[
        "refused 71 NoFirstHeader frame 10:00:00:00\n\
        refused 72 Content frame 10:00:00:01 row 22 column 16\n\
        refused 73 Gap frame 10:00:00:02\n\
        ended 72 Content frame 10:00:01:24\n\
        ended 73 Gap frame 10:00:02:00\n\
        3 faults\n"]],
];

#[test]
fn reports_which_pages_are_late(rt: HostRuntime) {
    let stl = file_of_hi();
    for row in &LATE {
        assert_row(&rt, &stl, row);
    }
}

// Transmissions with several PES packets for one frame, or with times close to frames.
#[rattlefmt::skip]
const SENDINGS: [[&[&str]; 3]; 17] = [
    [&["0:h", "0+:rc", "50:hc"], &[], &[
        "refused 72 Content frame 10:00:00:00 row 22 column 16\n\
        refused 61 OffFrame pes 1\n\
        ended 72 Content frame 10:00:01:24\n\
        trusted frames 10:00:02:00 10:00:02:00\n\
        2 faults\n"]],
    [&["0:h", "0+:rc", "50:hc"], &["--within", "1"], &[ACCEPTED]],
    [&["0:hrc", "50:hc", "0:hrc", "50:hc"], &["--within", "1"], &[
        "trusted frames 10:00:00:00 10:00:01:24\n\
        refused 62 Order pes 2\n\
        1 faults\n"]],
    [&["0:hrc", "0:hrc", "50:hc"], &[], &["refused 62 Order pes 1\n1 faults\n"]],
    [&["0:hrc", "0:hrc", "50:hc"], &["--within", "1"], &["accepted 51 frames 3 transmissions\n"]],
    [&["0:hrc", "50:hc"], &["--origin", "1", "--within", "1"], &[ACCEPTED]],
    [&["0:hrc", "50:hc"], &["--origin", "8589934591", "--within", "1"], &[ACCEPTED]],
    [&["0-:hrc", "50:hc"], &["--within", "1"], &[ACCEPTED]],
    [&["0:c", "0+:hrc", "50:hc"], &["--within", "1"], &[ACCEPTED]],
    // A header at the end of each frame erases the page.
    [&["0:hrc", "0+:h", "1:hrc", "1+:h", "50:hc"], &["--within", "1"], &[
        "refused 72 Content frame 10:00:00:01 row 22 column 16\n\
        ended 72 Content frame 10:00:01:24\n\
        trusted frames 10:00:02:00 10:00:02:00\n\
        1 faults\n"]],
    [&["0:h", "0+:rc", "1:h", "1+:rc", "50:hc"], &["--within", "1"], &[
        "accepted 51 frames 3 transmissions\n"]],
    [&["0:h", "1:", "1+:hrc", "50:hc"], &["--within", "1"], &[
        "accepted 51 frames 3 transmissions\n"]],
    // A wrong row that is corrected in its frame, and a row with a byte of even parity.
    [&["0:hrc", "1:hoc", "1+:hrc", "50:hc"], &["--within", "1"], &[
        "accepted 51 frames 4 transmissions\n"]],
    [&["0:hrc", "1:hoc", "1+:hec", "2:hrc", "50:hc"], &["--within", "1"], &[
        "trusted frames 10:00:00:00 10:00:00:00\n\
        refused 68 Parity frame 10:00:00:01 packet 4\n\
        trusted frames 10:00:00:02 10:00:02:00\n\
        1 faults\n"]],
    // Gaps between headers are reported as without `--within`.
    [&["0:hrc", "50:hc"], &["--every", "49"], &[
        "trusted frames 10:00:00:00 10:00:01:23\n\
        refused 73 Gap frame 10:00:01:24\n\
        ended 73 Gap frame 10:00:01:24\n\
        trusted frames 10:00:02:00 10:00:02:00\n\
        1 faults\n"]],
    [&["0:hrc", "50:hc"], &["--every", "49", "--within", "1"], &[
        "trusted frames 10:00:00:00 10:00:01:23\n\
        refused 73 Gap frame 10:00:01:24\n\
        ended 73 Gap frame 10:00:01:24\n\
        trusted frames 10:00:02:00 10:00:02:00\n\
        1 faults\n"]],
    [&["0:hrc", "50:hc"], &["--every", "48", "--within", "1"], &[
        "trusted frames 10:00:00:00 10:00:01:22\n\
        refused 73 Gap frame 10:00:01:23\n\
        ended 73 Gap frame 10:00:01:24\n\
        trusted frames 10:00:02:00 10:00:02:00\n\
        1 faults\n"]],
];

#[test]
fn joins_pes_packets_of_one_frame(rt: HostRuntime) {
    let stl = file_of_hi();
    for row in &SENDINGS {
        assert_row(&rt, &stl, row);
    }
}

// Transmissions of `Hi` and a second subtitle, `Ho`, of two seconds.
#[rattlefmt::skip]
const LONG: [[&[&str]; 3]; 2] = [
    [&["0:hrc", "52:hoc", "100:hc"], &["--within", "2"], &[
        "accepted 101 frames 3 transmissions\n"]],
    [&["0:hrc", "52:hoc", "100:hc"], &["--within", "1"], &[
        "trusted frames 10:00:00:00 10:00:01:24\n\
        refused 72 Content frame 10:00:02:01 row 22 column 20\n\
        ended 72 Content frame 10:00:02:01\n\
        trusted frames 10:00:02:02 10:00:04:00\n\
        1 faults\n"]],
];

// Transmissions of `Hi` and a second subtitle, `Ho`, of two frames. The page must be right at the
// end of one of these frames.
#[rattlefmt::skip]
const SHORT: [[&[&str]; 3]; 2] = [
    [&["0:hrc", "51:hoc", "53:hc"], &["--within", "3"], &["accepted 54 frames 3 transmissions\n"]],
    [&["0:hrc", "52:hc"], &["--within", "3"], &[
        "trusted frames 10:00:00:00 10:00:01:24\n\
        refused 72 Content frame 10:00:02:01 row 22 column 20\n\
        ended 72 Content frame 10:00:02:01\n\
        trusted frames 10:00:02:02 10:00:02:02\n\
        1 faults\n"]],
];

// Returns a subtitle file with `Hi`, directly followed by `Ho` with the TCO `tco`.
fn file_of_ho(tco: u32) -> [u8; 1280] {
    let mut text = HI;
    text[4] = 0x6F;
    let mut fields = head(TEN + 50, tco, 22);
    fields[1] = 2; // SN
    file_of_two(&block(&HEAD, &HI), &block(&fields, &text))
}

#[test]
fn shows_each_subtitle_once(rt: HostRuntime) {
    let (long, short) = (file_of_ho(TEN + 100), file_of_ho(TEN + 52));
    for row in &LONG {
        assert_row(&rt, &long, row);
    }
    for row in &SHORT {
        assert_row(&rt, &short, row);
    }
}

// Asserts the output for a transmission with one byte changed and the last bytes cut off.
fn assert_changed(
    rt: &(impl Abort + Alloc<A = Global>),
    (place, value, cut): (usize, u8, usize),
    row: &[&[&str]; 3],
) {
    let mut buffer = [0; 920];
    let mut pes = MemSink::new(&mut buffer);
    push_spelled_packets(&mut pes, row[0]);
    let len = pes.written().len();
    assert!(rt; row[2].len() == 1 && place < len && cut <= len && len <= 920);
    buffer[place] = value;
    assert_reported_with_options(rt, &file_of_hi(), &buffer[..len - cut], row[1], row[2][0]);
}

#[rattlefmt::skip]
#[test]
fn reports_what_is_broken_within_frames(rt: HostRuntime) {
    // A stuffing unit replaces the header that ends the page.
    let page: &[&str] = &["0:hrc", "50:hc"];
    assert_changed(&rt, (138, 0xFF, 0), &[page, &["--within", "1", "--complete"], &[
        "refused 77 Incomplete frame 10:00:00:01\n\
        ended 77 Incomplete frame 10:00:01:24\n\
        trusted frames 10:00:02:00 10:00:02:00\n\
        1 faults\n"]]);
    // The second PES packet for a frame has a byte of even parity.
    let two: &[&str] = &["0:h", "0+:rc", "1:hrc", "50:hc"];
    assert_changed(&rt, (255, 0x12, 0), &[two, &["--within", "1"], &[
        "refused 68 Parity frame 10:00:00:00 packet 1\n\
        trusted frames 10:00:00:01 10:00:02:00\n\
        1 faults\n"]]);
    // A PES packet between two PES packets for one frame has a wrong data_identifier.
    let three: &[&str] = &["0:hrc", "25:h", "25:c", "25+:rc", "50:hc"];
    assert_changed(&rt, (413, 0x20, 0), &[three, &["--within", "1"], &[
        "trusted frames 10:00:00:00 10:00:00:24\n\
        refused 37 DataId pes 2\n\
        trusted frames 10:00:02:00 10:00:02:00\n\
        1 faults\n"]]);
    assert_changed(&rt, (0, 0, 1), &[page, &["--within", "1"], &[
        "refused 30 Truncated pes 1\n1 faults\n"]]);
}
