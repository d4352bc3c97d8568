//! A range of the PES packets of a file, read one PES packet at a time.
ghost use Rattle.sub_io.specs.Device.{CanFail};

use crate::asserting::{assert_same, assert_same_for_case};
use crate::given_pes_packets::{Given, take_all};
use fixtures::{CountingSource, Drip, pes_packets_each_second};
use std::process::Abort;
use sub_io::{BufferedSource, FailAt, MemSink, MemSource};
use ttx_pes::{
    FailedAt, FilePesPackets, LimitedPesPackets, NumberedPesPackets, PartOfPesPackets, PesFault,
    PesPacketRange, PesPackets, PesPacketsAhead, Received,
};

// Returns a range of PES packets.
fn range(rt: &impl Abort, first: u64, last: Option<u64>) -> PesPacketRange {
    PesPacketRange::new(first, last).expect(rt, "the last one stands behind the first")
}

// Returns the PES packets of a source in this range.
fn part_of<P: PesPackets>(all: &mut P, range: PesPacketRange) -> PartOfPesPackets<'_, P> {
    PartOfPesPackets {
        inner: LimitedPesPackets::new(all, range.pes_packet_count()),
        ahead: PesPacketsAhead::new(range.first()),
    }
}

// Asserts the bytes of all PES packets from a source, and the result after them.
fn assert_next<P: PesPackets>(
    rt: &impl Abort,
    pes_packets: &mut P,
    expected: &[u8],
    end: Received<()>,
    case: &(usize, u64),
)
    requires { CanFail (P.failure_count pes_packets.old) }
{
    let mut buffer = [0; 600];
    let mut given = Given {
        sink: MemSink::new(&mut buffer),
    };
    assert_same_for_case(rt, &take_all(pes_packets, &mut given), &Ok(end), case);
    assert_same_for_case(rt, &given.sink.written(), &expected, case);
}

// Asserts the output for a range of three PES packets of 184 bytes each, followed by a few other
// bytes: the start and end of the range in the file, the number of its first PES packet, and the
// result after the range.
fn assert_output(
    rt: &(impl Abort + Copy),
    cut: usize,
    numbers: (u64, Option<u64>),
    want: (usize, usize, u64),
    end: Received<()>,
) {
    let mut file = [0xAB; 560];
    file[..552].copy_from_slice(&pes_packets_each_second());
    assert!(rt; cut <= 560 && want.0 <= want.1 && want.1 <= cut);
    let (whole, _) = file.split_at(cut);
    let (upto, _) = whole.split_at(want.1);
    let (_, expected) = upto.split_at(want.0);
    let range = range(rt, numbers.0, numbers.1);
    let case = (cut, numbers.0);
    let mut source = MemSource::new(whole);
    let mut all = FilePesPackets::new(&mut source);
    let mut pes_packets = part_of(&mut all, range);
    assert_same_for_case(rt, &pes_packets.find_first(), &Ok(want.2), &case);
    assert_next(rt, &mut pes_packets, expected, end, &case);
    let mut drip = Drip { rest: whole };
    let mut all = FilePesPackets::new(&mut drip);
    let mut pes_packets = part_of(&mut all, range);
    assert_next(rt, &mut pes_packets, expected, end, &case);
}

#[rattlefmt::skip]
#[test]
fn gives_the_pes_packets_of_a_range(rt: HostRuntime) {
    assert_output(&rt, 552, (0, None), (0, 552, 0), Received::End);
    assert_output(&rt, 552, (0, Some(2)), (0, 552, 0), Received::End);
    assert_output(&rt, 552, (0, Some(0)), (0, 184, 0), Received::End);
    assert_output(&rt, 552, (1, Some(1)), (184, 368, 1), Received::End);
    assert_output(&rt, 552, (1, None), (184, 552, 1), Received::End);
    assert_output(&rt, 552, (2, Some(9)), (368, 552, 2), Received::End);
    assert_output(&rt, 552, (3, Some(9)), (552, 552, 3), Received::End);
    assert_output(&rt, 552, (9, None), (552, 552, 3), Received::End);
}

#[rattlefmt::skip]
#[test]
fn reports_what_follows_the_last_pes_packet(rt: HostRuntime) {
    let cut = Received::Rest(PesFault::Truncated);
    let wrong = Received::Rest(PesFault::Start);
    assert_output(&rt, 0, (9, Some(9)), (0, 0, 0), Received::End);
    // Unreadable bytes before the last PES packet of the range are reported.
    assert_output(&rt, 551, (0, Some(1)), (0, 368, 0), Received::End);
    assert_output(&rt, 551, (2, Some(2)), (368, 368, 2), cut);
    assert_output(&rt, 551, (9, Some(9)), (368, 368, 2), cut);
    assert_output(&rt, 555, (2, Some(2)), (368, 552, 2), Received::End);
    assert_output(&rt, 555, (2, Some(3)), (368, 552, 2), cut);
    assert_output(&rt, 560, (4, None), (552, 552, 3), wrong);
    assert_output(&rt, 560, (0, Some(3)), (0, 552, 0), wrong);
}

#[test]
fn has_no_range_that_ends_before_it_begins(rt: HostRuntime) {
    assert!(rt; PesPacketRange::new(2, Some(1)).is_none());
    assert!(rt; PesPacketRange::new(2, Some(u64::MAX)).is_none());
    assert!(rt; range(&rt, 2, Some(2)) == range(&rt, 2, Some(2)));
}

#[test]
fn reads_nothing_after_the_last_pes_packet(rt: HostRuntime) {
    let file = pes_packets_each_second();
    // The first pull after 368 bytes would fail, but is not necessary.
    let mut source = FailAt::new(Drip { rest: &file }, 368);
    let mut all = FilePesPackets::new(&mut source);
    let mut pes_packets = part_of(&mut all, range(&rt, 0, Some(1)));
    assert_next(
        &rt,
        &mut pes_packets,
        &file[..368],
        Received::End,
        &(368, 0),
    );
}

#[test]
fn reports_where_it_failed_before_the_range(rt: HostRuntime) {
    let file = pes_packets_each_second();
    let mut source = FailAt::new(Drip { rest: &file }, 200);
    let mut all = FilePesPackets::new(&mut source);
    let mut pes_packets = part_of(&mut all, range(&rt, 2, None));
    assert_same(&rt, &pes_packets.find_first(), &Err(FailedAt { pes: 1 }));
    // The search for the number of the first PES packet consumes no PES packet.
    assert_same(&rt, &pes_packets.find_first(), &Ok(2));
    let (_, expected) = file.split_at(368);
    assert_next(&rt, &mut pes_packets, expected, Received::End, &(200, 2));
}

#[test]
fn takes_pes_packets_that_are_not_borrowed_complete(rt: HostRuntime) {
    let file = pes_packets_each_second();
    let mut buffer = [0; 250];
    let mut source = BufferedSource::new(MemSource::new(&file), &mut buffer);
    let mut pes_packets = FilePesPackets::new(&mut source);
    assert_next(&rt, &mut pes_packets, &file, Received::End, &(250, 0));
}

#[test]
fn skips_a_pes_packet_that_is_borrowed_by_one_call(rt: HostRuntime) {
    let file = pes_packets_each_second();
    let mut source = CountingSource {
        inner: MemSource::new(&file),
        pulls: 0,
    };
    let mut pes_packets = FilePesPackets::new(&mut source);
    assert_next(&rt, &mut pes_packets, &file, Received::End, &(552, 0));
    // The source is called once for each of the three PES packets, and once for the end.
    assert_same(&rt, &source.pulls, &4);
}
