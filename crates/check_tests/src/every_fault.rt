//! All faults of a subtitle file, also after rejected subtitles, with `check --all`.
use crate::answers::assert_all;
use answer_fixtures::CHECK;
use fixtures::{HEAD, HI, TEN, block, file_of_five, file_of_two, head, put, schedule_of_hi};
use std::alloc::Global;
use std::process::Abort;

/// The lines for the faults in the file of five subtitles.
pub const FAULTS_OF_FIVE: &str = "refused 57 Overlap block 2\n\
    refused 50 Character block 2 at 3\n\
    refused 50 Character block 3 at 3\n\
    refused 56 OutOfOrder block 5\n";

#[test]
fn reports_every_fault_of_five_subtitles(rt: HostRuntime) {
    let pes = schedule_of_hi();
    assert_all(
        &rt,
        &CHECK,
        &file_of_five(),
        &pes,
        FAULTS_OF_FIVE,
        "4 faults\n",
    );
    let mut cut_file = [0x8F; 1791];
    put(&mut cut_file, 0, &file_of_five());
    let cut = "refused 10 Truncated block 6\n5 faults\n";
    assert_all(&rt, &CHECK, &cut_file, &pes, FAULTS_OF_FIVE, cut);
}

// Asserts the lines of `check --all` for a subtitle file of three blocks.
fn assert_faults_of_three_blocks(
    rt: &(impl Abort + Alloc<A = Global>),
    first: &[u8; 128],
    second: &[u8; 128],
    third: &[u8; 128],
    lines: &str,
) {
    let mut file = [0; 1408];
    put(&mut file, 0, &file_of_two(first, second));
    put(&mut file, 1280, third);
    assert_all(rt, &CHECK, &file, &schedule_of_hi(), "", lines);
}

#[rattlefmt::skip]
#[test]
fn reads_on_after_a_subtitle_that_is_refused(rt: HostRuntime) {
    let good = block(&HEAD, &HI);
    let mut cumulative = HEAD;
    cumulative[4] = 1;
    let mut justified = head(TEN + 50, TEN + 100, 22);
    (justified[13], justified[14]) = (0, 4); // VP, JC
    let accent = block(&head(TEN + 100, TEN + 150, 22), &[0x63, 0x61, 0x66, 0xC2, 0x65]);
    assert_faults_of_three_blocks(&rt, &block(&cumulative, &HI), &block(&justified, &HI), &accent,
        "refused 16 Cumulative block 1\n\
        refused 18 Justify block 2\n\
        refused 50 Character block 3 at 3\n\
        3 faults\n");
    // The first block of a subtitle with equal TCI and TCO, the last block of this subtitle, and a
    // block with another SN.
    let mut open = head(TEN, TEN, 22);
    open[3] = 0;
    let mut other = head(TEN, TEN, 22);
    other[1] = 2;
    let first = block(&open, &HI);
    assert_faults_of_three_blocks(&rt, &first, &block(&head(TEN, TEN, 22), &HI), &good,
        "refused 21 EmptyTime block 1\n\
        trusted frames 10:00:00:00 10:00:02:00\n\
        1 faults\n");
    assert_faults_of_three_blocks(&rt, &first, &block(&other, &HI), &good,
        "refused 21 EmptyTime block 1\nrefused 22 Sequence block 2\n2 faults\n");
    let mut no_time = head(TEN + 25, TEN + 75, 22);
    no_time[8] = 25; // frames of TCI
    let early = block(&head(TEN + 40, TEN + 60, 22), &HI);
    assert_faults_of_three_blocks(&rt, &good, &block(&no_time, &HI), &early,
        "refused 20 Time block 2\nrefused 57 Overlap block 3\n2 faults\n");
}
