//! Parsing the values of arguments: numbers, bit flips, lists, times, receivers, PIDs, packet sizes
//! and ranges.
use crate::asserting::{assert_same, assert_same_for_case};
use mpeg_ts::PacketSize;
use std::alloc::{AllocError, Global};
use std::process::Abort;
use sub_request::{Flip, ReceiverKind};
use sub_words::{
    parse_list, parse_number, parse_packet_size, parse_pid, parse_range, parse_receiver, parse_time,
};

#[test]
fn reads_numbers(rt: HostRuntime) {
    assert_same(&rt, &parse_number("0"), &Some(0));
    assert_same(&rt, &parse_number("0000000007"), &Some(7)); // ten digits
    assert_same(&rt, &parse_number("9999999999"), &Some(9_999_999_999));
    // Invalid numbers: more than ten digits, no digits, and other characters than digits.
    for text in ["00000000007", "10000000000", "", "+1", "-1", "1 ", "1x"] {
        assert_same_for_case(&rt, &parse_number(text), &None, &text);
    }
}

// Returns the length of the list of numbers in a text, and its last number.
fn numbers_in(alloc: Global, text: &str) -> Result<Option<(usize, u64)>, AllocError> {
    match parse_list::<_, u64>(alloc, text)? {
        Some(list) => Ok(Some((list.len(), list.last().copied().unwrap_or(0)))),
        None => Ok(None),
    }
}

// A list of 64 numbers, the maximum, and a list of 65 numbers.
const NUMBERS: &str =
    "0,1,2,3,4,5,6,7,8,9,10,11,12,13,14,15,16,17,18,19,20,21,22,23,24,25,26,27,28,29,30,31,\
    32,33,34,35,36,37,38,39,40,41,42,43,44,45,46,47,48,49,50,51,52,53,54,55,56,57,58,59,60,\
    61,62,63";

const MORE_NUMBERS: &str =
    "0,1,2,3,4,5,6,7,8,9,10,11,12,13,14,15,16,17,18,19,20,21,22,23,24,25,26,27,28,29,30,31,\
    32,33,34,35,36,37,38,39,40,41,42,43,44,45,46,47,48,49,50,51,52,53,54,55,56,57,58,59,60,\
    61,62,63,64";

#[test]
fn reads_lists_of_numbers(rt: HostRuntime) {
    let alloc = rt.alloc();
    assert_same(&rt, &numbers_in(alloc, "7"), &Ok(Some((1, 7))));
    let three = "01,2,9999999999";
    assert_same(
        &rt,
        &numbers_in(alloc, three),
        &Ok(Some((3, 9_999_999_999))),
    );
    assert_same(&rt, &numbers_in(alloc, NUMBERS), &Ok(Some((64, 63))));
    // Invalid lists: a value occurs twice, or the text has another fault.
    for text in [
        "1,01",
        "1,2,1",
        "1,,2",
        "1,",
        "",
        "1 ,2",
        "1,10000000000",
        MORE_NUMBERS,
    ] {
        assert_same_for_case(&rt, &numbers_in(alloc, text), &Ok(None), &text);
    }
}

// The value of `flips_in` for a list without a last bit flip.
const NO_FLIP: Flip = Flip {
    packet: 0,
    byte: 0,
    bit: 0,
};

// Returns the length of the list of bit flips in a text, and its last bit flip.
fn flips_in(alloc: Global, text: &str) -> Result<Option<(usize, Flip)>, AllocError> {
    match parse_list::<_, Flip>(alloc, text)? {
        Some(list) => Ok(Some((list.len(), list.last().copied().unwrap_or(NO_FLIP)))),
        None => Ok(None),
    }
}

// Asserts the length of the list of bit flips in a text, and the packet, byte and bit of its last
// bit flip.
fn assert_flips(
    rt: &(impl Abort + Alloc<A = Global>),
    text: &str,
    len: usize,
    (packet, byte, bit): (u64, u8, u8),
) {
    let last = Flip { packet, byte, bit };
    assert_same_for_case(
        rt,
        &flips_in(rt.alloc(), text),
        &Ok(Some((len, last))),
        &text,
    );
}

// A list of 64 bit flips, the maximum, and a list of 65 bit flips.
const FLIPS: &str =
    "0:0:1,1:1:2,2:2:3,3:3:4,4:4:5,5:5:6,6:6:7,7:7:8,8:8:1,9:9:2,10:10:3,11:11:4,12:12:5,\
    13:13:6,14:14:7,15:15:8,16:16:1,17:17:2,18:18:3,19:19:4,20:20:5,21:21:6,22:22:7,\
    23:23:8,24:24:1,25:25:2,26:26:3,27:27:4,28:28:5,29:29:6,30:30:7,31:31:8,32:32:1,\
    33:33:2,34:34:3,35:35:4,36:36:5,37:37:6,38:38:7,39:39:8,40:40:1,41:41:2,42:0:3,43:1:4,\
    44:2:5,45:3:6,46:4:7,47:5:8,48:6:1,49:7:2,50:8:3,51:9:4,52:10:5,53:11:6,54:12:7,\
    55:13:8,56:14:1,57:15:2,58:16:3,59:17:4,60:18:5,61:19:6,62:20:7,63:21:8";

const MORE_FLIPS: &str =
    "0:0:1,1:1:2,2:2:3,3:3:4,4:4:5,5:5:6,6:6:7,7:7:8,8:8:1,9:9:2,10:10:3,11:11:4,12:12:5,\
    13:13:6,14:14:7,15:15:8,16:16:1,17:17:2,18:18:3,19:19:4,20:20:5,21:21:6,22:22:7,\
    23:23:8,24:24:1,25:25:2,26:26:3,27:27:4,28:28:5,29:29:6,30:30:7,31:31:8,32:32:1,\
    33:33:2,34:34:3,35:35:4,36:36:5,37:37:6,38:38:7,39:39:8,40:40:1,41:41:2,42:0:3,43:1:4,\
    44:2:5,45:3:6,46:4:7,47:5:8,48:6:1,49:7:2,50:8:3,51:9:4,52:10:5,53:11:6,54:12:7,\
    55:13:8,56:14:1,57:15:2,58:16:3,59:17:4,60:18:5,61:19:6,62:20:7,63:21:8,64:0:1";

#[test]
fn reads_flips(rt: HostRuntime) {
    assert_flips(&rt, "1:21:1", 1, (1, 21, 1));
    assert_flips(&rt, "0000000001:0000000041:0000000008", 1, (1, 41, 8));
    assert_flips(&rt, "9999999999:0:1,0:0:2", 2, (0, 0, 2));
    assert_flips(&rt, "1:21:1,1:22:1", 2, (1, 22, 1)); // two bytes of one packet
    assert_flips(&rt, "1:21:1,2:21:1", 2, (2, 21, 1)); // one byte of two
    assert_flips(&rt, FLIPS, 64, (63, 21, 8));
}

#[test]
fn refuses_flips(rt: HostRuntime) {
    for text in [
        "1:21:1,1:21:2", // one byte
        "1:21:1,01:021:1",
        "1:42:1",
        "1:21:0",
        "1:21:9",
        "10000000000:21:1", // eleven digits
        "1:21",
        "1:21:1:1",
        "1:21:1,",
        ":21:1",
        "",
        MORE_FLIPS,
    ] {
        assert_same_for_case(&rt, &flips_in(rt.alloc(), text), &Ok(None), &text);
    }
}

#[test]
fn reads_times(rt: HostRuntime) {
    assert_same(&rt, &parse_time("00:00:00:00"), &Some(0));
    assert_same(&rt, &parse_time("10:00:00:10"), &Some(900_010));
    assert_same(&rt, &parse_time("23:59:59:24"), &Some(2_159_999));
    for text in [
        "24:00:00:00",
        "10:60:00:00",
        "10:00:60:00",
        "10:00:00:25",
        "1:00:00:00",
        "10:00:00:1",
        "10:00:00:010",
        "10.00.00.10",
        "10:00:0x:10",
        "",
    ] {
        assert_same_for_case(&rt, &parse_time(text), &None, &text);
    }
}

#[test]
fn reads_receivers(rt: HostRuntime) {
    assert_same(&rt, &parse_receiver("blank"), &Some(ReceiverKind::Blank));
    assert_same(&rt, &parse_receiver("keep"), &Some(ReceiverKind::Keep));
    assert_same(&rt, &parse_receiver("drop"), &Some(ReceiverKind::DropRow));
    assert_same(
        &rt,
        &parse_receiver("anew"),
        &Some(ReceiverKind::BlankEachHeader),
    );
    for text in ["Drop", "all", "Keep", "new"] {
        assert_same_for_case(&rt, &parse_receiver(text), &None, &text);
    }
}

// Returns the PID in a text.
fn pid_in(text: &str) -> Option<u16> {
    match parse_pid(text) {
        Some(pid) => Some(pid.number()),
        None => None,
    }
}

#[test]
fn reads_pids(rt: HostRuntime) {
    assert_same(&rt, &pid_in("0"), &Some(0));
    assert_same(&rt, &pid_in("257"), &Some(257));
    assert_same(&rt, &pid_in("0000000257"), &Some(257)); // ten digits
    assert_same(&rt, &pid_in("8190"), &Some(8190));
    assert_same(&rt, &pid_in("0x0"), &Some(0));
    assert_same(&rt, &pid_in("0x101"), &Some(257));
    assert_same(&rt, &pid_in("0x00000101"), &Some(257)); // eight digits
    assert_same(&rt, &pid_in("0x1101"), &Some(4353)); // more than 12 bits
    assert_same(&rt, &pid_in("0x1ffe"), &Some(8190));
    assert_same(&rt, &pid_in("0x1FfE"), &Some(8190)); // of either case
    assert_same(&rt, &pid_in("101"), &Some(101)); // decimal without `0x`
}

#[rattlefmt::skip]
#[test]
fn refuses_pids(rt: HostRuntime) {
    for text in [
        // The PID of null packets, and numbers that would be another PID after truncation to 13, 16
        // or 32 bits.
        "8191", "0x1fff", "0x2101", "8449", "65793", "0x10101", "4294967553", "9999999999",
        "0xffffffff",
        // Numbers with eleven decimal digits or nine hexadecimal digits.
        "00000000257", "0x000000101",
        // Texts without digits, and texts with signs, spaces, a wrong prefix, or other characters
        // than digits.
        "", "0x", "x", "-1", "+1", "0x+1", "0x-1", "-0x101", "+0x101", " 257", "257 ", "0x 101",
        "0X101", "x101", "101h", "0x10g", "0x0x101", "1e2", "$101", "257,258",
    ] {
        assert_same_for_case(&rt, &pid_in(text), &None, &text);
    }
}

#[test]
fn reads_packet_sizes(rt: HostRuntime) {
    let plain = Some(PacketSize::Plain);
    assert_same(&rt, &parse_packet_size("188"), &plain);
    let stamped = Some(PacketSize::TimeStamped);
    assert_same(&rt, &parse_packet_size("192"), &stamped);
    let corrected = Some(PacketSize::ErrorCorrected);
    assert_same(&rt, &parse_packet_size("204"), &corrected);
    for text in [
        "190", "187", "189", "0188", "+188", "188 ", "1880", "18", "0xbc", "0", "",
    ] {
        assert_same_for_case(&rt, &parse_packet_size(text), &None, &text);
    }
}

// Returns the number of the first PES packet of a range, and the maximum number of PES packets in
// the range.
fn range_in(text: &str) -> Option<(u64, Option<u64>)> {
    match parse_range(text) {
        Some(range) => Some((range.first(), range.pes_packet_count())),
        None => None,
    }
}

#[test]
fn reads_ranges(rt: HostRuntime) {
    assert_same(&rt, &range_in("0-1"), &Some((0, Some(2))));
    assert_same(&rt, &range_in("3-3"), &Some((3, Some(1))));
    assert_same(&rt, &range_in("9-10"), &Some((9, Some(2)))); // by value, not as texts
    assert_same(&rt, &range_in("2-"), &Some((2, None)));
    assert_same(&rt, &range_in("0-"), &Some((0, None)));
    let last = Some((7, Some(9_999_999_993)));
    assert_same(&rt, &range_in("0000000007-9999999999"), &last);
    assert_same(&rt, &range_in("9999999999-"), &Some((9_999_999_999, None)));
}

#[rattlefmt::skip]
#[test]
fn refuses_ranges(rt: HostRuntime) {
    for text in [
        // Ranges that end before their first number.
        "2-1", "10-9", "1-0",
        // Texts with one number, no number, or three numbers.
        "1", "", "-", "-1", "--", "1--2", "1-2-", "1-2-3", "-1-2",
        // Numbers with eleven digits, signs or spaces, and other invalid numbers.
        "00000000001-1", "1-00000000001", "10000000000-", "+1-2", "1-+2", " 1-2", "1 -2", "1- 2",
        "1-2 ", "1- ", "a-b", "1-x", "x-1", "x-", "0x1-2", "1,2", "1:2", "1..2",
    ] {
        assert_same_for_case(&rt, &range_in(text), &None, &text);
    }
}
