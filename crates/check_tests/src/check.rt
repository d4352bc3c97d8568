//! The verdicts of `check` on transmissions for `Hi` with one change.
use crate::answers::{assert_fills, assert_reports};
use crate::asserting::assert_same_for_case;
use answer_fixtures::{ACCEPTED, CHECK};
use fixtures::{
    CLOSING, HEADER, OTHER_HEADER, ROW, file_of_hi, gsi, in_serial_mode, packet_of, push_pes,
    push_two, put, schedule_of_hi,
};
use std::alloc::Global;
use std::process::Abort;
use sub_io::MemSink;

// Asserts the line of a check of this PES file against the subtitle file with `Hi`.
fn assert_judges(rt: &(impl Abort + Alloc<A = Global>), pes: &[u8], want: &str) {
    assert_reports(rt, &CHECK, &file_of_hi(), pes, want);
}

#[test]
fn accepts_a_schedule_and_reports_it_to_an_output_that_takes_all(rt: HostRuntime) {
    let (stl, pes) = (file_of_hi(), schedule_of_hi());
    assert_judges(&rt, &pes, ACCEPTED);
    assert_fills(&rt, &CHECK, (&stl, &pes), &[], ACCEPTED.as_bytes());
}

#[test]
fn checks_a_programme_without_subtitles(rt: HostRuntime) {
    let mut buffer = [0; 184];
    let mut pes = MemSink::new(&mut buffer);
    push_pes(&mut pes, 0, &[HEADER]);
    let accepted = "accepted 1 frames 1 transmissions\n";
    assert_reports(&rt, &CHECK, &gsi(), pes.written(), accepted);
    assert_reports(&rt, &CHECK, &gsi(), &[], "refused 60 Empty\n");
    let truncated = "refused 30 Truncated pes 0\n";
    assert_reports(&rt, &CHECK, &gsi(), &[0, 0, 1], truncated);
}

#[test]
fn refuses_a_cut_pes_file(rt: HostRuntime) {
    let pes = schedule_of_hi();
    for len in 0..=368 {
        let want = match len {
            0 => "refused 60 Empty\n",
            1..=183 => "refused 30 Truncated pes 0\n",
            184 => "refused 74 Late frame 10:00:00:00\n",
            185..=367 => "refused 30 Truncated pes 1\n",
            _ => ACCEPTED,
        };
        let (cut, _) = pes.split_at(len);
        assert_judges(&rt, cut, want);
    }
}

#[test]
fn refuses_a_cut_subtitle_file(rt: HostRuntime) {
    let (stl, pes) = (file_of_hi(), schedule_of_hi());
    for len in 0..=1152 {
        let want = match len {
            0..=1023 => "refused 10 Truncated block 0\n",
            1024 => "refused 72 Content frame 10:00:00:00 row 22 column 16\n",
            1025..=1151 => "refused 10 Truncated block 1\n",
            _ => ACCEPTED,
        };
        let (cut, _) = stl.split_at(len);
        assert_reports(&rt, &CHECK, cut, &pes, want);
    }
}

// Asserts the line of a check after bytes of the schedule for `Hi` were changed. Each change has
// the position, the old value and the new value.
fn assert_changed(rt: &(impl Abort + Alloc<A = Global>), want: &str, changes: &[[u8; 3]]) {
    for [place, from, to] in changes {
        let mut pes = schedule_of_hi();
        assert_same_for_case(rt, &pes[*place as usize], from, place);
        pes[*place as usize] = *to;
        assert_judges(rt, &pes, want);
    }
}

#[rattlefmt::skip]
#[test]
fn judges_a_byte_that_is_changed(rt: HostRuntime) {
    assert_changed(&rt, "refused 32 Length pes 0\n", &[[5, 0xB2, 0xB1]]);
    assert_changed(&rt, "refused 33 Flags pes 0\n", &[[6, 0x84, 0x44]]);
    assert_changed(&rt, "refused 34 NoTime pes 0\n", &[[7, 0x80, 0x00], [7, 0x80, 0xC0]]);
    assert_changed(&rt, "refused 35 HeaderLength pes 0\n", &[[8, 0x24, 0x25]]);
    assert_changed(&rt, "refused 36 Time pes 0\n",
        &[[9, 0x27, 0x26], [9, 0x27, 0x37], [11, 0x79, 0x78], [13, 0x01, 0x00]]);
    assert_changed(&rt, "refused 61 OffFrame pes 0\n", &[[12, 0xF4, 0xF5]]);
    // Changes of the fields of a data unit.
    assert_changed(&rt, "refused 37 DataId pes 0\n", &[[45, 0x10, 0x20]]);
    assert_changed(&rt, "refused 38 UnitLength pes 0\n", &[[47, 0x2C, 0x2D]]);
    assert_changed(&rt, "refused 39 Framing pes 0\n", &[[49, 0xE4, 0xE5]]);
    assert_changed(&rt, "refused 40 LineOrder pes 0\n", &[[48, 0xE7, 0xE8], [48, 0xE7, 0xC7]]);
    assert_changed(&rt, "refused 71 NoFirstHeader frame 10:00:00:00\n", &[[46, 0x03, 0xC3]]);
    assert_changed(&rt, ACCEPTED,
        &[[6, 0x84, 0x80], [45, 0x10, 0x1F], [46, 0x03, 0x02], [48, 0xE7, 0xE0], [48, 0xE7, 0x27]]);
    // Changes of a header packet: one wrong bit in the page tens, two wrong bits in the page tens,
    // and C4 clear.
    assert_changed(&rt, "refused 65 HeaderCode frame 10:00:00:00 packet 0\n",
        &[[53, 0x0B, 0x8B], [53, 0x0B, 0x68]]);
    assert_changed(&rt, "refused 67 Control frame 10:00:00:00 packet 0\n", &[[55, 0x0B, 0xA8]]);
    // Changes of other packets: a wrong bit in the address of the row, the letter H of the row, and
    // C11 in the header that ends the page.
    assert_changed(&rt, "refused 64 Address frame 10:00:00:00 packet 1\n", &[[97, 0xD9, 0x59]]);
    assert_changed(&rt, "refused 68 Parity frame 10:00:00:00 packet 1\n", &[[117, 0x13, 0x12]]);
    assert_changed(&rt, "refused 66 Mode frame 10:00:00:00 packet 2\n", &[[151, 0xA8, 0x40]]);
    // The first PES packet has the length of a longer packet, whose fourth data unit starts with 00
    // 00.
    let mut pes = schedule_of_hi();
    (pes[4], pes[5]) = (0x01, 0x6A);
    assert_judges(&rt, &pes, "refused 38 UnitLength pes 0\n");
}

// The bytes of a gap marker from byte 6 on.
const FILL: [u8; 178] = [0xFF; 178];

// The second payload of a PES packet, with FF in all bytes.
const PAYLOAD_OF_FF: [u8; 184] = [0xFF; 184];

#[test]
fn reports_a_gap_marker_where_all_bytes_from_6_on_are_ff(rt: HostRuntime) {
    let mut pes = schedule_of_hi();
    put(&mut pes, 6, &FILL);
    assert_judges(&rt, &pes, "refused 45 Lost pes 0\n");
    pes[183] = 0xFE;
    assert_judges(&rt, &pes, "refused 33 Flags pes 0\n");
    // A PES packet of two payloads is a gap marker only if all bytes of the second payload are FF.
    (pes[4], pes[5], pes[183]) = (0x01, 0x6A, 0xFF);
    assert_judges(&rt, &pes, "refused 33 Flags pes 0\n");
    put(&mut pes, 184, &PAYLOAD_OF_FF);
    assert_judges(&rt, &pes, "refused 45 Lost pes 0\n");
}

// Asserts the line of a check for each other value of a byte in the schedule for `Hi`.
fn assert_judges_other_values(rt: &(impl Abort + Alloc<A = Global>), place: usize, want: &str) {
    let mut pes = schedule_of_hi();
    assert!(rt; place < 368);
    let own = pes[place];
    for value in 0..=255 {
        if value != own {
            pes[place] = value;
            assert_judges(rt, &pes, want);
        }
    }
}

#[test]
fn judges_every_other_value_of_a_byte(rt: HostRuntime) {
    for place in 0..4 {
        assert_judges_other_values(&rt, place, "refused 31 Start pes 0\n");
    }
    for place in 14..45 {
        assert_judges_other_values(&rt, place, ACCEPTED);
    }
}

// Asserts the line of a check with the packets `first` at 10:00:00:00, and the packets `last` two
// seconds later.
fn assert_judges_two_packets(
    rt: &(impl Abort + Alloc<A = Global>),
    first: &[[u8; 42]],
    last: &[[u8; 42]],
    want: &str,
) {
    let mut buffer = [0; 1024];
    let mut pes = MemSink::new(&mut buffer);
    push_two(&mut pes, first, last);
    assert_judges(rt, pes.written(), want);
}

#[test]
fn judges_packets_between_those_of_a_page(rt: HostRuntime) {
    // A header of another page follows the row, in parallel mode and in serial mode.
    let sent = [HEADER, OTHER_HEADER, ROW, CLOSING];
    assert_judges_two_packets(&rt, &sent, &[HEADER, CLOSING], ACCEPTED);
    let (header, closing) = (in_serial_mode(&HEADER), in_serial_mode(&CLOSING));
    let sent = [header, in_serial_mode(&OTHER_HEADER), ROW, closing];
    let refused = "refused 72 Content frame 10:00:00:00 row 22 column 16\n";
    assert_judges_two_packets(&rt, &sent, &[header, closing], refused);
    // Packets after the row: the same row, the row with `h` instead of `H`, and a packet 26.
    let last = [HEADER, CLOSING];
    assert_judges_two_packets(&rt, &[HEADER, ROW, ROW, CLOSING], &last, ACCEPTED);
    let mut row = ROW;
    row[21] = 0x68;
    let refused = "refused 69 RowChanged frame 10:00:00:00 packet 2\n";
    assert_judges_two_packets(&rt, &[HEADER, ROW, row, CLOSING], &last, refused);
    let enhancement = packet_of(&[0x15, 0xB6]);
    let refused = "refused 70 Enhancement frame 10:00:00:00 packet 2\n";
    assert_judges_two_packets(&rt, &[HEADER, ROW, enhancement, CLOSING], &last, refused);
}
