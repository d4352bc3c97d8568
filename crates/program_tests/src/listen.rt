//! The page that a receiver shows after the transmission for `Hi`, with `listen`.
use crate::answers::{assert_fills, assert_prints, assert_prints_of};
use fixtures::{
    CLOSING, HEADER, ROW, TEN, pes_packets_each_second, pes_packets_each_second_twice, push_pes,
    push_spelled_packets, schedule_of_hi,
};
use std::alloc::Global;
use std::process::Abort;
use std::test::Fail;
use sub_io::{FailAt, MemSink, MemSource};

// The output for `Hi`, and the output if its first letter was received wrong.
const HI: &str = "heard yes\nopen no\nrow 22 |                ...Hi..                 |\n";

const HIT: &str = "heard yes\nopen no\nrow 22 |                ... i..                 |\n";

const BLANK: &str = "heard yes\nopen no\nblank\n";

const NOTHING: &str = "heard no\n";

// Bit flips, one in each coded byte of the header.
const HEADER_FLIPS: &str = "0:0:1,0:1:2,0:2:3,0:3:4,0:4:5,0:5:6,0:6:7,0:7:8,0:8:1,0:9:2";

const LOST_0: &str = "refused 76 LostHeader frame 10:00:00:00 packet 0\n";

const LOST_2: &str = "refused 76 LostHeader frame 10:00:00:00 packet 2\n";

const LATER_LOST_0: &str = "refused 76 LostHeader frame 10:00:01:00 packet 0\n";

const NOT_SHOWN: &str = "heard yes\nopen yes\nshown no\n";

// Asserts the output of `listen` for a PES file up to a time, with these options.
fn assert_hears<'x>(
    rt: &(impl Abort + Alloc<A = Global>),
    pes: &[u8],
    at: &'x str,
    options: &[&'x str],
    want: &str,
) {
    let mut arguments = ["a"; 16];
    assert!(rt; options.len() <= 11);
    arguments[..5].copy_from_slice(&["subttx", "listen", "a", "--at", at]);
    arguments[5..5 + options.len()].copy_from_slice(options);
    let arguments = &arguments[..5 + options.len()];
    assert_prints_of(rt, arguments, pes, &[], want.as_bytes());
}

// Asserts the output for a receiver of `Hi`, repeated every 25 frames.
fn assert_hears_with_receiver<'x>(
    rt: &(impl Abort + Alloc<A = Global>),
    receiver: &'x str,
    at: &'x str,
    options: &[&'x str],
    want: &str,
) {
    let mut arguments = ["a"; 16];
    assert!(rt; options.len() <= 9);
    arguments[..7].copy_from_slice(&["subttx", "listen", "a", "--at", at, "--receiver", receiver]);
    arguments[7..7 + options.len()].copy_from_slice(options);
    let arguments = &arguments[..7 + options.len()];
    assert_prints_of(
        rt,
        arguments,
        &pes_packets_each_second(),
        &[],
        want.as_bytes(),
    );
}

// Asserts the output for the receivers `keep` and `blank` of `Hi`, repeated every 25 frames.
fn assert_both_hear<'x>(
    rt: &(impl Abort + Alloc<A = Global>),
    at: &'x str,
    options: &[&'x str],
    want: &str,
) {
    assert_hears_with_receiver(rt, "keep", at, options, want);
    assert_hears_with_receiver(rt, "blank", at, options, want);
}

#[test]
fn shows_what_a_receiver_got(rt: HostRuntime) {
    assert_both_hear(&rt, "10:00:00:10", &[], HI);
    assert_both_hear(&rt, "10:00:02:00", &[], BLANK);
    assert_both_hear(&rt, "09:59:59:24", &[], NOTHING);
    assert_both_hear(&rt, "10:00:00:10", &["--skip", "1"], NOTHING);
    assert_both_hear(&rt, "10:00:01:00", &["--skip", "1"], HI);
    assert_both_hear(&rt, "10:00:00:10", &["--flip", "1:21:1"], HIT);
    assert_both_hear(&rt, "10:00:01:00", &["--flip", "1:21:1"], HI); // the row is sent again
    assert_both_hear(&rt, "10:00:00:10", &["--flip", HEADER_FLIPS], HI); // corrected
}

#[test]
fn shows_what_a_receiver_got_where_packets_were_lost(rt: HostRuntime) {
    assert_both_hear(&rt, "10:00:00:10", &["--lose", "1"], BLANK);
    assert_both_hear(&rt, "10:00:01:00", &["--lose", "1"], HI);
    assert_both_hear(&rt, "10:00:00:10", &["--skip", "1", "--lose", "0"], NOTHING);
    assert_both_hear(
        &rt,
        "10:00:00:10",
        &["--flip", "1:21:1", "--lose", "1"],
        BLANK,
    );
    assert_both_hear(&rt, "10:00:00:10", &["--lose", "0"], LOST_0);
    assert_both_hear(&rt, "10:00:00:10", &["--lose", "1,2"], LOST_2);
    let two = ["--skip", "3", "--lose", "3,0"];
    assert_both_hear(&rt, "10:00:01:00", &two, LATER_LOST_0);
}

#[test]
fn counts_packets_over_the_entire_file(rt: HostRuntime) {
    assert_both_hear(&rt, "10:00:01:00", &["--flip", "4:21:1"], HIT);
    assert_both_hear(&rt, "10:00:01:00", &["--lose", "4"], BLANK);
    assert_both_hear(
        &rt,
        "10:00:01:00",
        &["--skip", "3", "--flip", "4:21:1"],
        HIT,
    );
    // The packet with bit flips is skipped, is sent after the time, or does not exist.
    let skipped_packets_options = ["--skip", "3", "--flip", "1:21:1", "--lose", "0,1"];
    assert_both_hear(&rt, "10:00:01:00", &skipped_packets_options, HI);
    let later = ["--flip", "4:21:1", "--lose", "3,4"];
    assert_both_hear(&rt, "10:00:00:10", &later, HI);
    let beyond_end = ["--flip", "9999999999:41:8", "--lose", "9999999999"];
    assert_both_hear(&rt, "10:00:00:10", &beyond_end, HI);
}

#[test]
fn prints_what_is_on_the_screen(rt: HostRuntime) {
    let mut pes = pes_packets_each_second();
    let complete = ["--complete"];
    assert_hears(&rt, &pes, "10:00:00:10", &complete, HI);
    assert_hears(&rt, &pes, "10:00:02:00", &complete, BLANK);
    assert_hears(&rt, &pes, "09:59:59:24", &complete, NOTHING);
    // A stuffing unit replaces the first header that ends the page, so the page is not shown before
    // the second page transmission.
    pes[138] = 0xFF;
    assert_hears(&rt, &pes, "10:00:00:10", &complete, NOT_SHOWN);
    assert_hears(&rt, &pes, "10:00:01:00", &complete, HI);
    // A stuffing unit also replaces the second header that ends the page. At another header of its
    // page, the receiver does not change its screen.
    pes[322] = 0xFF;
    assert_hears(&rt, &pes, "10:00:01:00", &complete, NOT_SHOWN);
}

#[test]
fn does_not_show_a_row_that_is_hit(rt: HostRuntime) {
    let pes = pes_packets_each_second();
    let hit = ["--flip", "1:21:1", "--receiver", "drop"];
    assert_hears(&rt, &pes, "10:00:00:10", &hit, BLANK);
    assert_hears(&rt, &pes, "10:00:01:00", &hit, HI);
    let later_hit = ["--complete", "--receiver", "drop", "--flip", "4:21:1"];
    assert_hears(&rt, &pes, "10:00:01:00", &later_hit, BLANK);
    assert_hears(&rt, &pes, "10:00:00:10", &["--receiver", "drop"], HI);
}

// Asserts the pages of both receivers after the first page transmission with one bit flip: the cell
// has the expected code, or is a space because its byte was received wrong.
fn assert_shows_hit(
    rt: &(impl Abort + Alloc<A = Global>),
    packet: u8,
    byte: u8,
    bit: u8,
) -> Result<(), Fail> {
    let flip = format!(in rt.alloc(); "{packet}:{byte}:{bit}")?;
    let mut want = *b"heard yes\nopen no\nrow 22 |                ...Hi..                 |\n";
    if packet == 1 && byte >= 2 {
        assert!(rt; byte < 42);
        want[byte as usize + 24] = b' ';
    }
    assert_shows(rt, "keep", flip.as_str(), &want);
    assert_shows(rt, "blank", flip.as_str(), &want);
    Ok(())
}

// Asserts the page of a receiver after the first page transmission with these bit flips.
fn assert_shows(rt: &(impl Abort + Alloc<A = Global>), receiver: &str, flips: &str, want: &[u8]) {
    let at = "10:00:00:10";
    let arguments = [
        "subttx",
        "listen",
        "a",
        "--at",
        at,
        "--receiver",
        receiver,
        "--flip",
        flips,
    ];
    assert_prints_of(rt, &arguments, &schedule_of_hi(), &[], want);
}

#[test]
fn shows_a_space_where_a_byte_was_hit(rt: HostRuntime) -> Result<(), Fail> {
    for packet in 0..3u8 {
        for byte in 0..42u8 {
            for bit in 1..9u8 {
                assert_shows_hit(&rt, packet, byte, bit)?;
            }
        }
    }
    Ok(())
}

// A row is sent twice, and a bit of its second packet is received wrong. The cell has its old code
// or a space.
#[test]
fn keeps_or_blanks_a_cell_as_requested(rt: HostRuntime) {
    let mut buffer = [0; 184];
    let mut pes = MemSink::new(&mut buffer);
    push_pes(&mut pes, TEN, &[HEADER, ROW, ROW]);
    let opened = "heard yes\nopen yes\nrow 22 |                ...Hi..                 |\n";
    let hit = "heard yes\nopen yes\nrow 22 |                ... i..                 |\n";
    let keep = ["--flip", "2:21:1", "--receiver", "keep"];
    assert_hears(&rt, pes.written(), "10:00:00:10", &keep, opened);
    let blank = ["--flip", "2:21:1", "--receiver", "blank"];
    assert_hears(&rt, pes.written(), "10:00:00:10", &blank, hit);
}

// Three PES packets have the same data field. The second has a bit flip, so the third is not
// skipped as a repeat.
#[test]
fn hears_a_page_transmission_again_after_one_with_a_flip(rt: HostRuntime) {
    let sent = [HEADER, ROW, CLOSING];
    let mut buffer = [0; 552];
    let mut pes = MemSink::new(&mut buffer);
    push_pes(&mut pes, TEN, &sent);
    push_pes(&mut pes, TEN + 1, &sent);
    push_pes(&mut pes, TEN + 2, &sent);
    let flip = ["--flip", "4:21:1"];
    assert_hears(&rt, pes.written(), "10:00:00:01", &flip, HIT);
    assert_hears(&rt, pes.written(), "10:00:00:02", &flip, HI);
}

// Transmissions with several PES packets for one frame, the time and options of `listen`, and its
// output.
#[rattlefmt::skip]
const SENDINGS: [[&[&str]; 3]; 16] = [
    [&["0:h", "0+:rc", "1:hc"], &["10:00:00:00"], &["refused 61 OffFrame pes 1\n"]],
    [&["0:h", "0+:rc", "1:hc"], &["10:00:00:00", "--within", "0"], &[
        "refused 61 OffFrame pes 1\n"]],
    [&["0:h", "0+:rc", "1:hc"], &["10:00:00:00", "--within", "1"], &[HI]],
    [&["0:h", "0+:rc", "1:hc"], &["10:00:00:01", "--within", "1"], &[BLANK]],
    [&["0:h", "0:rc", "1:hc"], &["10:00:00:00"], &["refused 62 Order pes 1\n"]],
    [&["0:h", "0:", "0:r", "0+:c", "1-:hc"], &["10:00:00:00", "--within", "50"], &[HI]],
    [&["0:hrc", "0:hc", "1:hrc"], &["10:00:00:00", "--within", "1"], &[BLANK]],
    // A PES packet with an earlier frame is not reported if it follows the time.
    [&["1:hrc", "1:h", "0+:rc"], &["10:00:00:01", "--within", "1"], &["refused 62 Order pes 2\n"]],
    [&["1:hrc", "1:h", "0+:rc"], &["10:00:00:00", "--within", "1"], &[NOTHING]],
    // A lost header is reported with its packet number in the frame.
    [&["0:h", "0+:rc", "0+:hc", "1:hc"], &["10:00:00:00", "--within", "1", "--lose", "3"], &[
        "refused 76 LostHeader frame 10:00:00:00 packet 3\n"]],
    [&["0:h", "0:", "0+:rc", "1:hc"], &["10:00:00:00", "--within", "1", "--lose", "2"], &[LOST_2]],
    [&["0:h", "0+:rc", "1:r", "1:hc"], &["10:00:00:01", "--within", "1", "--lose", "4"], &[
        "refused 76 LostHeader frame 10:00:00:01 packet 1\n"]],
    [&["0:h", "1:rc", "2:hc"], &["10:00:00:02", "--within", "1", "--lose", "3"], &[
        "refused 76 LostHeader frame 10:00:00:02 packet 0\n"]],
    [&["0:h", "1:rc", "2:hc"], &["10:00:00:02", "--lose", "3"], &[
        "refused 76 LostHeader frame 10:00:00:02 packet 0\n"]],
    // A bit is flipped in the second PES packet for a frame.
    [&["0:h", "0+:rc", "1:hc"], &["10:00:00:00", "--within", "1", "--flip", "1:21:1"], &[HIT]],
    [&["0:h", "0+:rc", "1:hc"], &["10:00:00:00", "--within", "1", "--complete"], &[HI]],
];

// Asserts the output of `listen` for a row of a table.
fn assert_hears_row(rt: &(impl Abort + Alloc<A = Global>), row: &[&[&str]; 3]) {
    let mut buffer = [0; 920];
    let mut pes = MemSink::new(&mut buffer);
    push_spelled_packets(&mut pes, row[0]);
    assert!(rt; row[1].len() >= 1 && row[2].len() == 1);
    let (at, options) = row[1].split_at(1);
    assert_hears(rt, pes.written(), at[0], options, row[2][0]);
}

#[test]
fn hears_pes_packets_of_one_frame(rt: HostRuntime) {
    for row in &SENDINGS {
        assert_hears_row(&rt, row);
    }
}

// Transmissions with repeats that do not erase the page, the time and options of `listen`, and its
// output.
#[rattlefmt::skip]
const REPEATS: [[&[&str]; 3]; 7] = [
    [&["0:hrc", "25:kc", "50:hc"], &["10:00:01:00"], &[HI]],
    [&["0:hrc", "25:kc", "50:hc"], &["10:00:01:00", "--receiver", "anew"], &[BLANK]],
    [&["0:krc", "50:hc"], &["10:00:01:00", "--receiver", "anew"], &[HI]],
    [&["0:hrrc", "50:hc"], &["10:00:00:00", "--receiver", "anew", "--flip", "2:21:1"], &[HIT]],
    // A header is not received, or the header of an open page is received again.
    [&["0:hrc", "25:kc", "50:hc"], &["10:00:00:00", "--receiver", "anew", "--skip", "1"], &[
        NOTHING]],
    [&["0:hr", "25:kc", "50:hc"], &["10:00:01:00", "--receiver", "anew", "--complete"], &[BLANK]],
    [&["0:hr", "25:k", "50:hc"], &["10:00:01:00", "--receiver", "anew", "--complete"], &[
        NOT_SHOWN]],
];

#[test]
fn erases_or_keeps_as_requested(rt: HostRuntime) {
    for row in &REPEATS {
        assert_hears_row(&rt, row);
    }
}

#[test]
fn reports_faults_of_a_file_as_far_as_it_is_read(rt: HostRuntime) {
    let twice = pes_packets_each_second_twice();
    let order = "refused 62 Order pes 3\n";
    assert_hears(&rt, &twice, "10:00:02:00", &[], order);
    assert_hears(&rt, &twice, "10:00:01:24", &[], HI);
    let start = "refused 31 Start pes 0\n";
    assert_hears(&rt, b"RIFF....", "10:00:00:10", &[], start);
    assert_hears(&rt, &[], "10:00:00:10", &[], NOTHING);
    let off = "refused 61 OffFrame pes 0\n";
    assert_hears(
        &rt,
        &pes_packets_each_second(),
        "10:00:00:10",
        &["--origin", "1"],
        off,
    );
}

// Asserts the output of `listen` for the first `len` bytes of the file.
fn assert_hears_cut(rt: &(impl Abort + Alloc<A = Global>), len: usize, at: &str, want: &str) {
    let pes = pes_packets_each_second();
    assert!(rt; len <= 552);
    assert_hears(rt, &pes[..len], at, &[], want);
}

#[test]
fn reports_a_cut_after_the_time(rt: HostRuntime) {
    // In the first case the PES packet after the time is cut off; in the second case a later PES
    // packet, which is not read.
    assert_hears_cut(&rt, 194, "10:00:00:10", "refused 30 Truncated pes 1\n");
    assert_hears_cut(&rt, 194, "09:00:00:00", NOTHING);
}

#[test]
fn calls_no_device_after_its_failure_or_the_time(rt: HostRuntime) {
    let pes = schedule_of_hi();
    let arguments = ["subttx", "listen", "a", "--at", "10:00:00:10"];
    let want = HI.as_bytes();
    assert_fills(&rt, &arguments, (&pes, &[]), &[], want);
    // The failing call of the source would return the third PES packet, but is not made.
    let mut source = FailAt::new(MemSource::new(&pes), 2);
    let mut none = MemSource::new(&[]);
    assert_prints(&rt, &arguments, &mut source, &mut none, &[], want);
}
