//! Clean frames next to faults, with `check --all`. They are reported as soon as they are known.
use crate::answers::{assert_fills, assert_prints};
use crate::every_place::assert_reported;
use answer_fixtures::CHECK_ALL;
use fixtures::{
    CLOSING, HEADER, ROW, TEN, file_of_hi, packet_of, pes_packets_each_second, push_pes,
    schedule_of_hi,
};
use std::alloc::Global;
use std::process::Abort;
use sub_io::{FailAt, MemSink, MemSource};

// The arguments of a check with a repeat bound of a second.
const EVERY_25: [&str; 7] = ["subttx", "check", "--all", "a", "b", "--every", "25"];

// The lines for the schedule for `Hi` with a repeat bound of a second: after its second PES packet,
// and at the end.
const AT_BOTH: &str = "trusted frames 10:00:00:00 10:00:00:24\n\
    refused 73 Gap frame 10:00:01:00\n\
    ended 73 Gap frame 10:00:01:24\n";

const ALL: &str = "trusted frames 10:00:00:00 10:00:00:24\n\
    refused 73 Gap frame 10:00:01:00\n\
    ended 73 Gap frame 10:00:01:24\n\
    trusted frames 10:00:02:00 10:00:02:00\n\
    1 faults\n";

// The first row has a byte of even parity, and the next header is sent a second later.
#[rattlefmt::skip]
#[test]
fn trusts_from_the_first_header_on(rt: HostRuntime) {
    let mut pes = pes_packets_each_second();
    pes[117] = 0x12;
    assert_reported(&rt, &pes, &[],
        "refused 68 Parity frame 10:00:00:00 packet 1\n\
        trusted frames 10:00:01:00 10:00:02:00\n\
        1 faults\n");
}

// The second PES packet has a packet 26 before a row with a byte of even parity. The frames before
// this row are clean, since only the parity of the row matters to receivers, and not packet 26.
#[rattlefmt::skip]
#[test]
fn reports_what_is_trusted_directly_before_what_ended_it(rt: HostRuntime) {
    let mut row = ROW;
    row[21] = 0x48;
    let enhancement = packet_of(&[0x15, 0xB6]);
    let mut buffer = [0; 736];
    let mut pes = MemSink::new(&mut buffer);
    push_pes(&mut pes, TEN, &[HEADER, ROW, CLOSING]);
    push_pes(&mut pes, TEN + 25, &[HEADER, enhancement, row, CLOSING]);
    push_pes(&mut pes, TEN + 50, &[HEADER, CLOSING]);
    assert_reported(&rt, pes.written(), &[],
        "refused 70 Enhancement frame 10:00:01:00 packet 1\n\
        trusted frames 10:00:00:00 10:00:00:24\n\
        refused 68 Parity frame 10:00:01:00 packet 2\n\
        trusted frames 10:00:02:00 10:00:02:00\n\
        2 faults\n");
}

// Asserts the lines with these arguments for the schedule for `Hi` if its source fails at a call.
// Each call returns a PES packet.
fn assert_fails<'a>(
    rt: &(impl Abort + Alloc<A = Global>),
    arguments: &'a [&'a str],
    call: u64,
    lines: &str,
    last: &[u8],
) {
    let (stl, pes) = (file_of_hi(), schedule_of_hi());
    let mut stl = MemSource::new(&stl);
    let mut pes = FailAt::new(MemSource::new(&pes), call);
    assert_prints(rt, arguments, &mut stl, &mut pes, lines.as_bytes(), last);
}

#[test]
fn trusts_nothing_more_once_a_device_failed(rt: HostRuntime) {
    assert_fails(&rt, &CHECK_ALL, 1, "", b"fault 41 Read pes 1\n");
    assert_fails(&rt, &EVERY_25, 1, "", b"fault 41 Read pes 1\n");
    assert_fails(&rt, &EVERY_25, 2, AT_BOTH, b"fault 41 Read pes 2\n");
    let (stl, pes) = (file_of_hi(), schedule_of_hi());
    assert_fills(&rt, &EVERY_25, (&stl, &pes), &[], ALL.as_bytes());
}
