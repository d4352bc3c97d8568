//! The maximum distance of PES packets, with `check --pace`, and repeat bounds of up to a day.
use crate::within::assert_row;
use answer_fixtures::ACCEPTED;
use fixtures::file_of_hi;

// Transmissions checked with `--pace`.
#[rattlefmt::skip]
const PACED: [[&[&str]; 3]; 11] = [
    [&["0:hrc", "25:hrc", "50:hc"], &["--pace", "25"], &["accepted 51 frames 3 transmissions\n"]],
    [&["0:hrc", "25:hrc", "50:hc"], &["--pace", "24"], &[
        "trusted frames 10:00:00:00 10:00:00:23\n\
        refused 79 Silent frame 10:00:00:24\n\
        ended 79 Silent frame 10:00:00:24\n\
        trusted frames 10:00:01:00 10:00:01:23\n\
        refused 79 Silent frame 10:00:01:24\n\
        ended 79 Silent frame 10:00:01:24\n\
        trusted frames 10:00:02:00 10:00:02:00\n\
        2 faults\n"]],
    // The maximum distance applies to PES packets, not to page headers.
    [&["0:hrc", "25:", "50:hc"], &["--pace", "25"], &[ACCEPTED]],
    [&["0:hrc", "25:rc", "50:hc"], &["--pace", "24", "--every", "50"], &[
        "trusted frames 10:00:00:00 10:00:00:23\n\
        refused 79 Silent frame 10:00:00:24\n\
        ended 79 Silent frame 10:00:00:24\n\
        refused 79 Silent frame 10:00:01:24\n\
        ended 79 Silent frame 10:00:01:24\n\
        trusted frames 10:00:02:00 10:00:02:00\n\
        2 faults\n"]],
    [&["0:hrc", "50:hc"], &["--pace", "50"], &[ACCEPTED]],
    [&["0:hrc", "50:hc"], &["--pace", "49"], &[
        "trusted frames 10:00:00:00 10:00:01:23\n\
        refused 79 Silent frame 10:00:01:24\n\
        ended 79 Silent frame 10:00:01:24\n\
        trusted frames 10:00:02:00 10:00:02:00\n\
        1 faults\n"]],
    [&["0:hrc", "50:hc"], &["--pace", "25", "--every", "30"], &[
        "trusted frames 10:00:00:00 10:00:00:24\n\
        refused 79 Silent frame 10:00:01:00\n\
        refused 73 Gap frame 10:00:01:05\n\
        ended 73 Gap frame 10:00:01:24\n\
        ended 79 Silent frame 10:00:01:24\n\
        trusted frames 10:00:02:00 10:00:02:00\n\
        2 faults\n"]],
    [&["0:h", "1:rc", "50:hc"], &["--pace", "49", "--within", "1"], &[ACCEPTED]],
    [&["0:h", "1:rc", "50:hc"], &["--pace", "48", "--within", "1"], &[
        "trusted frames 10:00:00:00 10:00:01:23\n\
        refused 79 Silent frame 10:00:01:24\n\
        ended 79 Silent frame 10:00:01:24\n\
        trusted frames 10:00:02:00 10:00:02:00\n\
        1 faults\n"]],
    // A repeat bound and a maximum distance of a day are allowed.
    [&["0:hrc", "50:hc"], &["--every", "2160000"], &[ACCEPTED]],
    [&["0:hrc", "50:hc"], &["--every", "2160000", "--pace", "2160000"], &[ACCEPTED]],
];

#[test]
fn reports_where_pes_packets_are_too_far_apart(rt: HostRuntime) {
    let stl = file_of_hi();
    for row in &PACED {
        assert_row(&rt, &stl, row);
    }
}
