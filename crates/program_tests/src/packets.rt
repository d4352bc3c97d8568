//! The output of `packets` for PES files.
use crate::answers::{assert_prints, assert_prints_of};
use fixtures::{FIRST, schedule_of_hi};
use std::alloc::Global;
use std::process::Abort;
use sub_io::{FailAt, MemSource};

const PACKETS: [&str; 3] = ["subttx", "packets", "a"];

// The output of `packets` for the two PES packets of the schedule for `Hi`.
#[rattlefmt::skip]
const LINES: &[u8] = b"pes 0 pts 3240000000\n\
    unit 0 id 03 field 1 line 7 1515d0d015d015d00215\
    2020202020202020202020202020202020202020202020202020202020202020\n\
    unit 1 id 03 field 1 line 8 159b20202020202020202020202020202020\
    0d0b0bc8e98a8a2020202020202020202020202020202020\n\
    unit 2 id 03 field 1 line 9 1515eaeaea2fea5e1515\
    2020202020202020202020202020202020202020202020202020202020202020\n\
    pes 1 pts 3240180000\n\
    unit 0 id 03 field 1 line 7 1515d0d015d015d00215\
    2020202020202020202020202020202020202020202020202020202020202020\n\
    unit 1 id 03 field 1 line 8 1515eaeaea2fea5e1515\
    2020202020202020202020202020202020202020202020202020202020202020\n";

// Asserts the lines and the last line for the first bytes of a file, for each length in a range.
fn assert_lists(
    rt: &(impl Abort + Alloc<A = Global>),
    lengths: (usize, usize),
    lines: &[u8],
    last: &[u8],
) {
    let pes = schedule_of_hi();
    for len in lengths.0..lengths.1 {
        assert!(rt; len <= 368);
        assert_prints_of(rt, &PACKETS, &pes[..len], lines, last);
    }
}

#[test]
fn lists_the_complete_pes_packets_of_a_cut_file(rt: HostRuntime) {
    let (first, _) = LINES.split_at(360);
    assert_lists(&rt, (0, 1), b"", b"0 pes\n");
    assert_lists(&rt, (1, 184), b"", b"refused 30 Truncated pes 0\n");
    assert_lists(&rt, (184, 185), first, b"1 pes\n");
    assert_lists(&rt, (185, 368), first, b"refused 30 Truncated pes 1\n");
    assert_lists(&rt, (368, 369), LINES, b"2 pes\n");
}

#[test]
fn reports_a_fault_after_the_lines_before_it(rt: HostRuntime) {
    let start = b"refused 31 Start pes 0\n";
    assert_prints_of(&rt, &PACKETS, b"RIFF....", &[], start);
    // The source's first call returns the first PES packet, and the second call fails.
    let mut pes = FailAt::new(MemSource::new(&FIRST), 1);
    let mut none = MemSource::new(&[]);
    let (first, _) = LINES.split_at(360);
    let read = b"fault 41 Read pes 1\n";
    assert_prints(&rt, &PACKETS, &mut pes, &mut none, first, read);
}
