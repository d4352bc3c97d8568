//! Reading and writing PES packets, compared with values from other programs, and with failing
//! devices. Other tests cover the lines for rejected PES packets.
ghost use Rattle.std.specs.Prelude.{◌≡◌, ◌<◌, length};
ghost use Rattle.sub_io.specs.Device.{CanFail};

use crate::asserting::{assert_same, assert_same_for_case};
use fixtures::{CLOSING, Drip, FIRST, HEADER, OneByteSink, ROW, RepeatingSource};
use std::process::Abort;
use sub_io::{FailAt, MemSink, MemSource, Sink, Source};
use ttx_packet::Packet;
use ttx_pes::{PesFault, PesFrame, PesReader, PesWriter, RepeatedPacket, Unit, put_frame};

// Returns the first PES packet of the schedule, or an empty frame if it can't be read.
fn first_frame() -> PesFrame {
    match PesReader::new().next(&mut MemSource::new(&FIRST)) {
        Ok(Some(frame)) => frame,
        _ => PesFrame::new(0),
    }
}

#[test]
fn reads_a_schedules_first_pes_packet(rt: HostRuntime) {
    let frame = first_frame();
    assert_same(
        &rt,
        &(frame.pts(), frame.units().len()),
        &(3_240_000_000, 3),
    );
}

#[test]
fn writes_a_schedules_first_pes_packet(rt: HostRuntime) {
    let frame = first_frame();
    let mut buffer = [0; 184];
    assert_same(
        &rt,
        &PesWriter::new().put(&mut MemSink::new(&mut buffer), &frame),
        &Ok(()),
    );
    assert!(rt; buffer == FIRST);
}

// Asserts the result of a reader, and the number of failed calls of the source. If no PES packet is
// read, the frame has PTS 0 and no units.
fn assert_answers<S: Source>(
    rt: &impl Abort,
    reader: &mut PesReader,
    source: &mut S,
    want: Result<bool, PesFault>,
    failures: u64,
)
    requires { CanFail (S.failure_count source.old) }
    ensures { CanFail (S.failure_count source.new) }
{
    let mut frame = PesFrame::new(1);
    assert_same(rt, &reader.next_into(source, &mut frame), &want);
    assert!(rt; want == Ok(true) || frame.pts() == 0 && frame.units().is_empty());
    assert!(rt; source.failures() == failures && failures < 9);
}

#[test]
fn finds_the_end_again_and_again(rt: HostRuntime) {
    let mut source = MemSource::new(&FIRST);
    let mut reader = PesReader::new();
    assert_answers(&rt, &mut reader, &mut source, Ok(true), 0);
    assert_answers(&rt, &mut reader, &mut source, Ok(false), 0);
    assert_answers(&rt, &mut reader, &mut source, Ok(false), 0);
}

#[test]
fn refuses_a_byte_after_the_pes_packets_of_a_day(rt: HostRuntime) {
    let mut source = RepeatingSource {
        rest: &[],
        again: &FIRST,
    };
    let mut reader = PesReader::new();
    let mut frame = PesFrame::new(0);
    let mut given = 0u32;
    for _ in 0..2_160_000u32 {
        if reader.next_into(&mut source, &mut frame) == Ok(true) {
            given = given.saturating_add(1);
        }
    }
    assert_same(&rt, &given, &2_160_000);
    let after = reader.next_into(&mut source, &mut frame);
    assert_same(&rt, &after, &Err(PesFault::TooMany));
}

// Returns the PES packet of frame 10:00:00:00 with 25 row packets.
fn pes_packet_of_25(rt: &impl Abort) -> [u8; 1656] {
    let mut buffer = [0; 1656];
    let mut sink = MemSink::new(&mut buffer);
    let put = put_frame(&mut sink, 3_240_000_000, &[Packet::new(ROW); 25]);
    assert_same(rt, &put, &Ok(()));
    assert_same(rt, &sink.written().len(), &1288);
    buffer
}

// Asserts the bytes of a PES packet at a position.
fn assert_bytes_at(rt: &impl Abort, bytes: &[u8; 1656], at: usize, want: &[u8]) {
    assert!(rt; at < 1656);
    assert!(rt; bytes[at..].starts_with(want), "at {at}");
}

#[test]
fn puts_25_packets_in_seven_payloads(rt: HostRuntime) {
    let bytes = pes_packet_of_25(&rt);
    assert_bytes_at(&rt, &bytes, 4, &[0x05, 0x02]);
    assert_bytes_at(&rt, &bytes, 9, &[0x27, 0x04, 0x79, 0xF4, 0x01]);
    // The last two units of the PES packet are stuffing units.
    assert_bytes_at(&rt, &bytes, 1196, &[0xFF, 0x2C, 0xFF]);
    assert_bytes_at(&rt, &bytes, 1242, &[0xFF, 0x2C, 0xFF]);
}

#[test]
fn numbers_the_lines_of_25_packets(rt: HostRuntime) {
    let bytes = pes_packet_of_25(&rt);
    // The data units are on lines 7 to 22 of the first field, and from line 7 on in the second
    // field.
    for number in 0..25u8 {
        let line = if number < 16 {
            0xE7 + number
        } else {
            0xB7 + number
        };
        assert_bytes_at(&rt, &bytes, 48 + 46 * number as usize, &[line, 0xE4]);
    }
}

#[test]
fn a_repeated_pes_packet_is_put_with_the_pts_that_was_set_last(rt: HostRuntime) {
    let packets = [Packet::new(HEADER), Packet::new(ROW), Packet::new(CLOSING)];
    let mut packet = RepeatedPacket::from_packets(&packets);
    packet.set_pts(1);
    packet.set_pts(3_240_000_000);
    let mut buffer = [0; 184];
    assert_same(&rt, &packet.put(&mut MemSink::new(&mut buffer)), &Ok(()));
    assert!(rt; buffer == FIRST);
}

#[test]
fn a_frame_gives_back_what_breaks_its_order(rt: HostRuntime) {
    let packet = Packet::new(ROW);
    let mut frame = PesFrame::new(0);
    assert_same(&rt, &frame.add(Unit::new(2, 2, 7, packet)), &Ok(()));
    let first_field = Unit::new(3, 1, 8, packet);
    assert_same(&rt, &frame.add(first_field), &Err(first_field));
}

#[test]
fn a_frame_gives_back_a_36th_unit(rt: HostRuntime) {
    let mut frame = PesFrame::new(0);
    let unit = Unit::default();
    for number in 0..35 {
        assert_same_for_case(&rt, &frame.add(unit), &Ok(()), &number);
    }
    assert_same(&rt, &frame.add(unit), &Err(unit));
}

// Returns the first PES packet of the schedule, two times.
fn twice() -> [u8; 368]
    ensures { length result ≡ 368 }
{
    let mut file = [0; 368];
    file[..184].copy_from_slice(&FIRST);
    file[184..].copy_from_slice(&FIRST);
    file
}

// Asserts that a reader of two PES packets returns the PES packets that were read completely, and
// then reports the failed pull once. The source returns one byte per pull.
fn assert_reports_pull(rt: &impl Abort, number: u64, file: &[u8]) {
    let mut source = FailAt::new(Drip { rest: file }, number);
    let mut reader = PesReader::new();
    if number >= 184 {
        assert_answers(rt, &mut reader, &mut source, Ok(true), 0);
    }
    if number >= 368 {
        assert_answers(rt, &mut reader, &mut source, Ok(true), 0);
    }
    assert_answers(rt, &mut reader, &mut source, Err(PesFault::Read), 1);
    assert_answers(rt, &mut reader, &mut source, Err(PesFault::Ended), 1);
}

#[test]
fn a_failing_pull_is_reported_at_once_and_ends_the_reader(rt: HostRuntime) {
    let file = twice();
    // The source returns one byte in each of 368 pulls, and then its end.
    for number in 0..=368u64 {
        assert_reports_pull(&rt, number, &file);
    }
    let mut source = FailAt::new(Drip { rest: &file }, 369);
    let mut reader = PesReader::new();
    assert_answers(&rt, &mut reader, &mut source, Ok(true), 0);
    assert_answers(&rt, &mut reader, &mut source, Ok(true), 0);
    assert_answers(&rt, &mut reader, &mut source, Ok(false), 0);
}

#[test]
fn a_failing_push_ends_the_writer(rt: HostRuntime) {
    let frame = first_frame();
    for number in 0..184 {
        let mut sink = FailAt::new(OneByteSink, number);
        let mut writer = PesWriter::new();
        assert_same_for_case(
            &rt,
            &writer.put(&mut sink, &frame),
            &Err(PesFault::Write),
            &number,
        );
        assert!(rt; sink.failures() == 1);
        assert_same_for_case(
            &rt,
            &writer.put(&mut sink, &frame),
            &Err(PesFault::Ended),
            &number,
        );
    }
    // The sink accepts one byte per push, so 184 pushes are necessary.
    let answer = PesWriter::new().put(&mut FailAt::new(OneByteSink, 184), &frame);
    assert_same(&rt, &answer, &Ok(()));
}

// Asserts the bytes of a frame that are written if the sink has room for `len` bytes.
fn assert_leaves(rt: &impl Abort, frame: &PesFrame, len: usize) {
    let mut buffer = [0; 184];
    assert!(rt; len < 184);
    let mut sink = MemSink::new(&mut buffer[..len]);
    let answer = PesWriter::new().put(&mut sink, frame);
    assert_same_for_case(rt, &answer, &Err(PesFault::Write), &len);
    assert_same_for_case(rt, &sink.written(), &&FIRST[..len], &len);
}

#[test]
fn a_failing_push_leaves_a_prefix(rt: HostRuntime) {
    let frame = first_frame();
    for len in 0..184usize {
        assert_leaves(&rt, &frame, len);
    }
}
