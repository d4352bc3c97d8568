//! Headers with C4 (erase page) clear, which `check --keeping` allows in repeats.
use crate::answers::assert_reports;
use crate::scope::{HO, at};
use crate::within::assert_row;
use answer_fixtures::{ACCEPTED, CHECK};
use fixtures::{HI, TEN, block, file_of, file_of_hi, file_of_two, head, push_spelled_packets};
use std::alloc::Global;
use std::process::Abort;
use sub_io::MemSink;

// Asserts the line of a check for a row of a table: the PES packets, the options and the line.
fn assert_line(rt: &(impl Abort + Alloc<A = Global>), stl: &[u8], row: &[&[&str]; 3]) {
    let mut buffer = [0; 920];
    let mut pes = MemSink::new(&mut buffer);
    push_spelled_packets(&mut pes, row[0]);
    let mut arguments = ["a"; 9];
    let len = row[1].len();
    assert!(rt; len <= 5 && row[2].len() == 1);
    arguments[..4].copy_from_slice(&CHECK);
    arguments[4..4 + len].copy_from_slice(row[1]);
    assert_reports(rt, &arguments[..4 + len], stl, pes.written(), row[2][0]);
}

// Asserts the line of a check for each row of a table.
fn assert_lines(rt: &(impl Abort + Alloc<A = Global>), stl: &[u8], rows: &[[&[&str]; 3]]) {
    for row in rows.iter() {
        assert_line(rt, stl, row);
    }
}

// Asserts the lines of `check --all` for each row of a table.
fn assert_lists(rt: &(impl Abort + Alloc<A = Global>), stl: &[u8], rows: &[[&[&str]; 3]]) {
    for row in rows.iter() {
        assert_row(rt, stl, row);
    }
}

const THREE: &str = "accepted 51 frames 3 transmissions\n";

const FOUR: &str = "accepted 51 frames 4 transmissions\n";

// The line that rejects a header with C4 clear.
const CONTROL: &str = "refused 67 Control frame 10:00:01:00 packet 0\n";

#[rattlefmt::skip]
const REPEATS: [[&[&str]; 3]; 7] = [
    [&["0:hrc", "25:krc", "50:hc"], &[], &[CONTROL]],
    [&["0:hrc", "25:krc", "50:hc"], &["--keeping"], &[THREE]],
    [&["0:hrc", "25:krc", "50:hc"], &["--keeping", "--complete", "--within", "2"], &[THREE]],
    [&["0:hrc", "25:krc", "50:hc"], &["--keeping", "--every", "25"], &[THREE]],
    [&["0:hr", "25:krc", "50:hc"], &["--keeping"], &[THREE]],
    [&["0:krc", "50:hc"], &["--keeping"], &[ACCEPTED]], // the first header keeps
    [&["0:hrc", "50:hc"], &["--keeping"], &[ACCEPTED]],
];

#[test]
fn accepts_repeats_that_keep(rt: HostRuntime) {
    assert_lines(&rt, &file_of_hi(), &REPEATS);
}

// Transmissions in which a row with text is missing after a repeat.
#[rattlefmt::skip]
const LEFT_OUT: [[&[&str]; 3]; 6] = [
    [&["0:hrc", "25:kc", "50:hc"], &["--keeping"], &[
        "refused 72 Content frame 10:00:01:00 row 22 column 16\n"]],
    [&["0:hrc", "25:kc", "26:krc", "50:hc"], &["--keeping", "--within", "1"], &[FOUR]],
    [&["0:hrc", "25:k", "26:rc", "50:hc"], &["--keeping", "--within", "1", "--complete"], &[THREE]],
    [&["0:hrc", "50:kc"], &["--keeping"], &[
        "refused 72 Content frame 10:00:02:00 row 22 column 16\n"]],
    [&["0:hrc", "50:ksc"], &["--keeping"], &["refused 69 RowChanged frame 10:00:02:00 packet 1\n"]],
    [&["0:kc"], &["--keeping"], &["refused 72 Content frame 10:00:00:00 row 22 column 16\n"]],
];

#[test]
fn requires_all_of_the_page_again(rt: HostRuntime) {
    assert_lines(&rt, &file_of_hi(), &LEFT_OUT);
}

#[rattlefmt::skip]
const LEFT_OUT_LISTED: [[&[&str]; 3]; 3] = [
    [&["0:hrc", "25:kc", "50:hc"], &["--keeping"], &[
        "trusted frames 10:00:00:00 10:00:00:24\n\
        refused 72 Content frame 10:00:01:00 row 22 column 16\n\
        ended 72 Content frame 10:00:01:24\n\
        trusted frames 10:00:02:00 10:00:02:00\n\
        1 faults\n"]],
    [&["0:hrc", "25:kc", "50:hc"], &["--keeping", "--within", "1"], &[
        "trusted frames 10:00:00:00 10:00:00:24\n\
        refused 72 Content frame 10:00:01:01 row 22 column 16\n\
        ended 72 Content frame 10:00:01:24\n\
        trusted frames 10:00:02:00 10:00:02:00\n\
        1 faults\n"]],
    // Only a header with C4 set removes a row from the page.
    [&["0:hrc", "25:krc", "50:kc", "51:hc"], &["--keeping"], &[
        "trusted frames 10:00:00:00 10:00:01:24\n\
        refused 72 Content frame 10:00:02:00 row 22 column 16\n\
        ended 72 Content frame 10:00:02:00\n\
        trusted frames 10:00:02:01 10:00:02:01\n\
        1 faults\n"]],
];

#[test]
fn lists_where_the_page_is_not_sent_again(rt: HostRuntime) {
    assert_lists(&rt, &file_of_hi(), &LEFT_OUT_LISTED);
}

// Transmissions whose rows change when they are sent again.
#[rattlefmt::skip]
const CHANGED: [[&[&str]; 3]; 5] = [
    [&["0:hrc", "25:koc", "50:hc"], &["--keeping"], &[
        "trusted frames 10:00:00:00 10:00:00:24\n\
        refused 69 RowChanged frame 10:00:01:00 packet 1\n\
        trusted frames 10:00:02:00 10:00:02:00\n\
        1 faults\n"]],
    [&["0:hrc", "25:kec", "50:hc"], &["--keeping"], &[
        "trusted frames 10:00:00:00 10:00:00:24\n\
        refused 68 Parity frame 10:00:01:00 packet 1\n\
        trusted frames 10:00:02:00 10:00:02:00\n\
        1 faults\n"]],
    [&["0:hrc", "25:krRc", "50:hc"], &["--keeping"], &[
        "trusted frames 10:00:00:00 10:00:00:24\n\
        refused 72 Content frame 10:00:01:00 row 20 column 16\n\
        ended 72 Content frame 10:00:01:24\n\
        trusted frames 10:00:02:00 10:00:02:00\n\
        1 faults\n"]],
    [&["0:hrc", "10:hrRc", "20:krc", "50:hc"], &["--keeping"], &[
        "trusted frames 10:00:00:00 10:00:00:09\n\
        refused 72 Content frame 10:00:00:10 row 20 column 16\n\
        ended 72 Content frame 10:00:01:24\n\
        trusted frames 10:00:02:00 10:00:02:00\n\
        1 faults\n"]],
    [&["0:hrc", "10:hec", "20:krc", "50:hc"], &["--keeping"], &[
        "trusted frames 10:00:00:00 10:00:00:09\n\
        refused 68 Parity frame 10:00:00:10 packet 1\n\
        trusted frames 10:00:02:00 10:00:02:00\n\
        1 faults\n"]],
];

#[test]
fn lists_where_the_page_changes_without_being_erased(rt: HostRuntime) {
    assert_lists(&rt, &file_of_hi(), &CHANGED);
}

// Transmissions with other control bits and subcodes in their headers.
#[rattlefmt::skip]
const HEADERS: [[&[&str]; 3]; 4] = [
    [&["0:hrc", "25:xrc", "50:hc"], &["--keeping"], &[CONTROL]],
    [&["0:hrc", "25:Krc", "50:hc"], &["--keeping"], &[CONTROL]],
    [&["0:Hrc", "25:Krc", "50:hc"], &["--keeping"], &[THREE]],
    [&["0:hrc", "25:Hrc", "30:Krc", "50:hc"], &["--keeping"], &[FOUR]],
];

#[rattlefmt::skip]
const HEADERS_LISTED: [[&[&str]; 3]; 3] = [
    // A repeat is compared with the header before it, even if that header was rejected.
    [&["0:hrc", "25:Krc", "30:Krc", "50:hc"], &["--keeping"], &[
        "trusted frames 10:00:00:00 10:00:00:24\n\
        refused 67 Control frame 10:00:01:00 packet 0\n\
        trusted frames 10:00:02:00 10:00:02:00\n\
        1 faults\n"]],
    [&["0:hrc", "25:xrc", "30:krc", "50:hc"], &["--keeping"], &[
        "trusted frames 10:00:00:00 10:00:00:24\n\
        refused 67 Control frame 10:00:01:00 packet 0\n\
        trusted frames 10:00:02:00 10:00:02:00\n\
        1 faults\n"]],
    // No frame is clean before a header erases the page.
    [&["0:krc", "50:hc"], &["--keeping", "--every", "49"], &[
        "refused 73 Gap frame 10:00:01:24\n\
        ended 73 Gap frame 10:00:01:24\n\
        trusted frames 10:00:02:00 10:00:02:00\n\
        1 faults\n"]],
];

#[test]
fn requires_of_a_repeat_its_control_bits_and_its_subcode(rt: HostRuntime) {
    assert_lines(&rt, &file_of_hi(), &HEADERS);
    assert_lists(&rt, &file_of_hi(), &HEADERS_LISTED);
}

// Repeats while the page is open, and repeats after rows of another page.
#[rattlefmt::skip]
const OPEN: [[&[&str]; 3]; 6] = [
    [&["0:hr", "1:krc", "50:hc"], &["--keeping", "--complete", "--within", "2"], &[
        "refused 67 Control frame 10:00:00:01 packet 0\n"]],
    [&["0:hrc", "1:hkrc", "50:hc"], &["--keeping", "--complete"], &[
        "refused 67 Control frame 10:00:00:01 packet 1\n"]],
    [&["0:hrc", "1:hkrc", "50:hc"], &["--keeping"], &[FOUR]],
    [&["0:hrp", "1:rkrc", "50:hc"], &["--keeping"], &[THREE]],
    [&["0:hrp", "1:okrc", "50:hc"], &["--keeping"], &[THREE]],
    [&["0:hrc", "1:okrc", "50:hc"], &[], &["refused 67 Control frame 10:00:00:01 packet 1\n"]],
];

#[test]
fn reports_repeats_while_the_page_is_open(rt: HostRuntime) {
    assert_lines(&rt, &file_of_hi(), &OPEN);
}

// Transmissions that repeat a blank page, with C4 clear in the header of the repeat.
#[rattlefmt::skip]
const BLANK: [[&[&str]; 3]; 2] = [
    [&["0:hrc", "50:hc", "51:kc"], &["--keeping"], &["accepted 52 frames 3 transmissions\n"]],
    [&["0:hrc", "50:hc", "51:ksc"], &["--keeping"], &["accepted 52 frames 3 transmissions\n"]],
];

// A transmission with a header with C4 clear before the subtitle starts.
#[rattlefmt::skip]
const BEFORE: [[&[&str]; 3]; 1] = [
    [&["0:kc", "10:krc", "50:hc"], &["--keeping"], &[THREE]],
];

#[test]
fn accepts_repeats_of_a_blank_page(rt: HostRuntime) {
    assert_lines(&rt, &file_of_hi(), &BLANK);
    assert_lines(&rt, &file_of(&at(10, 50, &HI)), &BEFORE);
}

// The text `Hi` in two rows, one of them two rows below the other.
const HI_TWICE: [u8; 16] = [
    0x0D, 0x0B, 0x0B, 0x48, 0x69, 0x0A, 0x0A, 0x8A, 0x8A, 0x0D, 0x0B, 0x0B, 0x48, 0x69, 0x0A, 0x0A,
];

// Returns the block of `HI_TWICE` in rows 20 and 22, with TCI and TCO at these frames after
// 10:00:00:00.
fn twice_at(from: u32, to: u32) -> [u8; 128] {
    let fields = head(TEN.saturating_add(from), TEN.saturating_add(to), 20);
    block(&fields, &HI_TWICE)
}

// Transmissions of a subtitle with `Hi` in two rows.
#[rattlefmt::skip]
const TWO_ROWS: [[&[&str]; 3]; 2] = [
    [&["0:hRrc", "25:krRc", "50:hc"], &["--keeping"], &[THREE]],
    [&["0:hRc", "1:krc", "2:kRrc", "50:hc"], &["--keeping", "--within", "2"], &[FOUR]],
];

#[rattlefmt::skip]
const ONE_ROW: [[&[&str]; 3]; 1] = [
    [&["0:hRrc", "25:krc", "50:hc"], &["--keeping"], &[
        "trusted frames 10:00:00:00 10:00:00:24\n\
        refused 72 Content frame 10:00:01:00 row 20 column 16\n\
        ended 72 Content frame 10:00:01:24\n\
        trusted frames 10:00:02:00 10:00:02:00\n\
        1 faults\n"]],
];

#[test]
fn requires_each_row_of_the_page_again(rt: HostRuntime) {
    let stl = file_of(&twice_at(0, 50));
    assert_lines(&rt, &stl, &TWO_ROWS);
    assert_lists(&rt, &stl, &ONE_ROW);
}

// Transmissions of two subtitles. The second has the text `Ho`.
#[rattlefmt::skip]
const OTHER_TEXT: [[&[&str]; 3]; 2] = [
    [&["0:hrc", "50:hoc", "75:koc", "100:hc"], &["--keeping"], &[
        "accepted 101 frames 4 transmissions\n"]],
    [&["0:hrc", "50:koc", "100:hc"], &["--keeping"], &[
        "refused 69 RowChanged frame 10:00:02:00 packet 1\n"]],
];

// A transmission of two subtitles. The second has the text `Hi` in another row.
#[rattlefmt::skip]
const OTHER_ROW: [[&[&str]; 3]; 1] = [
    [&["0:hrc", "50:kRc", "100:hc"], &["--keeping"], &[
        "refused 72 Content frame 10:00:02:00 row 22 column 16\n"]],
];

// A transmission of two subtitles. The second has the text `Hi` in one more row.
#[rattlefmt::skip]
const MORE_ROWS: [[&[&str]; 3]; 1] = [
    [&["0:hrc", "50:kRrc", "100:hc"], &["--keeping"], &["accepted 101 frames 3 transmissions\n"]],
];

#[test]
fn requires_erasing_where_text_goes(rt: HostRuntime) {
    let first = at(0, 50, &HI);
    assert_lines(&rt, &file_of_two(&first, &at(50, 100, &HO)), &OTHER_TEXT);
    let subtitle_in_row_20 = block(&head(TEN + 50, TEN + 100, 20), &HI);
    assert_lines(&rt, &file_of_two(&first, &subtitle_in_row_20), &OTHER_ROW);
    assert_lines(&rt, &file_of_two(&first, &twice_at(50, 100)), &MORE_ROWS);
}
