//! The bytes and the lines of `schedule`, and that `check` accepts the schedule.
ghost use Rattle.sub_io.specs.Device.{CanFail};

use crate::answers::assert_reports;
use crate::asserting::assert_same_for_case;
use answer_fixtures::{ACCEPTED, CHECK, SCHEDULE, answer_arguments};
use fixtures::{
    HEAD, HI, TEN, TWO_ROWS, block, file_of, file_of_hi, file_of_two, gsi, head, schedule_of_hi,
};
use std::alloc::Global;
use std::process::Abort;
use std::test::Fail;
use sub_answer::Status;
use sub_io::{MemSink, MemSource, Sink};

// Asserts the length and the line of the schedule for these arguments, and the line of a check of
// it with this repeat bound.
fn assert_schedules<'a>(
    rt: &(impl Abort + Alloc<A = Global>),
    arguments: &'a [&'a str],
    stl: &[u8],
    (len, line): (usize, &str),
    every: &str,
    want: &str,
) {
    let mut buffer = [0; 40_000];
    let mut file = MemSink::new(&mut buffer);
    write_schedule(rt, arguments, stl, line, &mut file);
    assert_same_for_case(rt, &file.written().len(), &len, &want);
    let check = ["subttx", "check", "a", "b", "--every", every];
    assert_reports(rt, &check, stl, file.written(), want);
}

// Writes a schedule to a file, and asserts the line.
fn write_schedule<'a>(
    rt: &(impl Abort + Alloc<A = Global>),
    arguments: &'a [&'a str],
    stl: &[u8],
    line: &str,
    file: &mut MemSink,
)
    requires { CanFail file.old.failure_count }
{
    let mut buffer = [0; 64];
    let mut out = MemSink::new(&mut buffer);
    let (mut stl, mut none) = (MemSource::new(stl), MemSource::new(&[]));
    let status = answer_arguments(rt.alloc(), arguments, &mut stl, &mut none, file, &mut out);
    assert!(rt;
        status == Status::Done && out.written() == line.as_bytes(),
        "{arguments:?}"
    );
}

const WRITTEN: &str = "written 2 transmissions\n";

#[test]
fn schedules_one_subtitle(rt: HostRuntime) {
    let hi = file_of_hi();
    assert_schedules(&rt, &SCHEDULE, &hi, (368, WRITTEN), "250", ACCEPTED);
    let arguments = ["subttx", "schedule", "a", "b", "--every", "25"];
    let three = (552, "written 3 transmissions\n");
    let accepted = "accepted 51 frames 3 transmissions\n";
    assert_schedules(&rt, &arguments, &hi, three, "25", accepted);
    let arguments = ["subttx", "schedule", "a", "b", "--every", "1", "--serial"];
    let each = (9384, "written 51 transmissions\n");
    let accepted = "accepted 51 frames 51 transmissions\n";
    assert_schedules(&rt, &arguments, &hi, each, "1", accepted);
}

#[test]
fn schedules_the_subtitles_that_start_in_a_part_of_the_day(rt: HostRuntime) {
    let hi = file_of_hi();
    let to_arguments = ["subttx", "schedule", "a", "b", "--to", "10:00:00:01"];
    assert_schedules(&rt, &to_arguments, &hi, (368, WRITTEN), "250", ACCEPTED);
    let from_arguments = ["subttx", "schedule", "a", "b", "--from", "10:00:00:01"];
    assert_reports(&rt, &from_arguments, &hi, &[], "refused 82 NoSubtitles\n");
}

// Asserts the length of the schedule of one subtitle with this row and text.
fn assert_schedules_text(rt: &(impl Abort + Alloc<A = Global>), vp: u8, text: &[u8], len: usize) {
    assert!(rt; text.len() <= 112);
    let file = file_of(&block(&head(TEN, TEN + 50, vp), text));
    assert_schedules(rt, &SCHEDULE, &file, (len, WRITTEN), "250", ACCEPTED);
}

#[test]
fn schedules_texts_of_no_row_to_all_rows(rt: HostRuntime) {
    assert_schedules_text(&rt, 22, &[], 368);
    assert_schedules_text(&rt, 20, &TWO_ROWS, 552);
    let all = b"A\x8AA\x8AA\x8AA\x8AA\x8AA\x8AA\x8AA\x8AA\x8AA\x8AA\x8AA\x8A\
        A\x8AA\x8AA\x8AA\x8AA\x8AA\x8AA\x8AA\x8AA\x8AA\x8AA";
    assert_schedules_text(&rt, 1, all, 1472);
}

// Returns a file with `Hi` and a second subtitle in the two seconds after it.
fn file_of_hi_and_text(rt: &impl Abort, text: &[u8]) -> [u8; 1280] {
    assert!(rt; text.len() <= 112);
    file_of_two(
        &block(&HEAD, &HI),
        &block(&head(TEN + 50, TEN + 100, 22), text),
    )
}

#[test]
fn schedules_two_subtitles(rt: HostRuntime) {
    let three = (552, "written 3 transmissions\n");
    let accepted = "accepted 101 frames 3 transmissions\n";
    assert_schedules(
        &rt,
        &SCHEDULE,
        &file_of_hi_and_text(&rt, b"Ho"),
        three,
        "250",
        accepted,
    );
    let accepted = "accepted 101 frames 2 transmissions\n";
    assert_schedules(
        &rt,
        &SCHEDULE,
        &file_of_hi_and_text(&rt, &HI),
        (368, WRITTEN),
        "250",
        accepted,
    );
}

#[test]
fn schedules_2000_subtitles(rt: HostRuntime) -> Result<(), Fail> {
    let mut many = Vec::new(rt.alloc());
    many.extend_from_slice(&gsi())?;
    for i in 0..2000u32 {
        many.extend_from_slice(&block(&head(25 * i, 25 * i + 25, 22), &HI))?;
    }
    let written = (201 * 184, "written 201 transmissions\n");
    let accepted = "accepted 50001 frames 201 transmissions\n";
    assert_schedules(&rt, &SCHEDULE, many.as_slice(), written, "250", accepted);
    Ok(())
}

// Asserts the lines of a schedule and of a check for a file of two blocks.
fn assert_refuses(rt: &(impl Abort + Alloc<A = Global>), file: &[u8; 1280], want: &str) {
    assert_reports(rt, &SCHEDULE, file, &[], want);
    assert_reports(rt, &CHECK, file, &[], want);
}

#[test]
fn refuses_files(rt: HostRuntime) {
    let mut cumulative = file_of_hi_and_text(&rt, &HI);
    cumulative[1156] = 1;
    assert_refuses(&rt, &cumulative, "refused 16 Cumulative block 2\n");
    let mut open = file_of_hi_and_text(&rt, &HI);
    open[1155] = 0x00; // EBN
    assert_refuses(&rt, &open, "refused 24 Unfinished block 2\n");
    assert_reports(&rt, &SCHEDULE, &gsi(), &[], "refused 82 NoSubtitles\n");
}

#[test]
fn refuses_times(rt: HostRuntime) {
    let mut overlap = file_of_hi_and_text(&rt, &HI);
    overlap[1036] = 1; // TCO is 10:00:02:01
    assert_refuses(&rt, &overlap, "refused 57 Overlap block 2\n");
    let hi = block(&HEAD, &HI);
    let before = block(&head(TEN - 90_000, TEN + 100, 22), &HI);
    let out_of_order = "refused 56 OutOfOrder block 2\n";
    assert_refuses(&rt, &file_of_two(&hi, &before), out_of_order);
    // For a subtitle that is out of order, the order is reported and not the text.
    let early = block(&head(TEN - 90_000, TEN - 50, 22), &[0x0E]);
    assert_refuses(&rt, &file_of_two(&hi, &early), out_of_order);
    // A rejected text is reported before a fault of a later block.
    let control = block(&HEAD, &[0x0E]);
    let refused = "refused 51 Control block 1 at 0\n";
    assert_refuses(&rt, &file_of_two(&control, &early), refused);
}

#[test]
fn refuses_texts(rt: HostRuntime) {
    let hi = block(&HEAD, &HI);
    let character = block(&HEAD, &[0xC2, 0x65]);
    let refused = "refused 50 Character block 1 at 0\n";
    assert_refuses(&rt, &file_of_two(&character, &hi), refused);
    let low = block(&head(TEN, TEN + 50, 24), &[0x0E]);
    assert_refuses(&rt, &file_of_two(&low, &hi), "refused 19 Row block 1\n");
}

// Writes the schedule for `Hi` with a national option, and asserts byte 9 of the page's headers in
// the PES packets.
fn assert_schedules_with_option(rt: &(impl Abort + Alloc<A = Global>), option: &str, byte: u8) {
    let hi = file_of_hi();
    let mut buffer = [0; 400];
    let mut file = MemSink::new(&mut buffer);
    let arguments = ["subttx", "schedule", "a", "b", "--option", option];
    write_schedule(rt, &arguments, &hi, WRITTEN, &mut file);
    let mut want = schedule_of_hi();
    (want[59], want[243]) = (byte, byte);
    assert!(rt; file.written() == &want[..], "{option}");
    let arguments = ["subttx", "check", "a", "b", "--option", option];
    assert_reports(rt, &arguments, &hi, file.written(), ACCEPTED);
}

#[test]
fn schedules_by_the_national_option(rt: HostRuntime) {
    assert_schedules_with_option(&rt, "english", 0xA8);
    assert_schedules_with_option(&rt, "german", 0x0B);
    assert_schedules_with_option(&rt, "swedish", 0x26);
    assert_schedules_with_option(&rt, "italian", 0x85);
    assert_schedules_with_option(&rt, "french", 0x92);
    assert_schedules_with_option(&rt, "spanish", 0x31);
    assert_schedules_with_option(&rt, "czech", 0x1C);
    assert_schedules_with_option(&rt, "polish", 0xA8);
    assert_schedules_with_option(&rt, "turkish", 0x1C);
    assert_schedules_with_option(&rt, "croatian", 0x31);
    assert_schedules_with_option(&rt, "romanian", 0xBF);
    assert_schedules_with_option(&rt, "estonian", 0x26);
    assert_schedules_with_option(&rt, "lithuanian", 0x85);
}
