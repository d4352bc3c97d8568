//! A reader that compares repeated PES packets.
use crate::asserting::assert_same;
use fixtures::{Drip, ROW, pes_packets_each_second};
use std::process::Abort;
use sub_io::{FailAt, MemSource};
use ttx_packet::Packet;
use ttx_pes::{Compared, ComparingReader, FilePesPackets, PesFault, Unit};

// The PTS of frame 10:00:00:00.
const TEN: u64 = 3_240_000_000;

// Asserts the result of reading the next PES packet, its PTS, and its number of data units.
fn assert_compares(
    rt: &impl Abort,
    reader: &mut ComparingReader,
    pes_packets: &mut FilePesPackets<'_, MemSource<'_>>,
    want: Compared,
    pts_and_units: (u64, usize),
) {
    assert_same(rt, &reader.next(pes_packets), &Ok(want));
    assert_same(rt, &(reader.pts(), reader.units().len()), &pts_and_units);
}

#[test]
fn reports_a_data_field_that_is_sent_again(rt: HostRuntime) {
    let file = pes_packets_each_second();
    let mut source = MemSource::new(&file);
    let mut pes_packets = FilePesPackets::new(&mut source);
    let mut reader = ComparingReader::new();
    assert_compares(
        &rt,
        &mut reader,
        &mut pes_packets,
        Compared::Other,
        (TEN, 3),
    );
    assert_compares(
        &rt,
        &mut reader,
        &mut pes_packets,
        Compared::Same,
        (TEN + 90_000, 3),
    );
    let units = reader.units();
    assert!(rt; units.len() == 3);
    let row = Packet::new(ROW);
    assert_same(&rt, &units.packet(1).packet(), &row);
    assert_same(&rt, &units.unit(1), &Unit::new(3, 1, 8, row));
    assert_compares(
        &rt,
        &mut reader,
        &mut pes_packets,
        Compared::Other,
        (TEN + 180_000, 2),
    );
    assert_compares(&rt, &mut reader, &mut pes_packets, Compared::End, (0, 0));
}

#[test]
fn goes_on_after_a_pes_packet_that_is_refused(rt: HostRuntime) {
    let mut file = pes_packets_each_second();
    file[45] = 0x20; // data_identifier of the first PES packet
    let mut source = MemSource::new(&file);
    let mut pes_packets = FilePesPackets::new(&mut source);
    let mut reader = ComparingReader::new();
    let answer = reader.next(&mut pes_packets);
    assert_same(&rt, &answer, &Err(PesFault::DataId));
    assert!(rt;
        PesFault::DataId.is_packet_content_fault() && !PesFault::Truncated.is_packet_content_fault()
    );
    reader.continue_after_fault();
    assert_compares(
        &rt,
        &mut reader,
        &mut pes_packets,
        Compared::Other,
        (TEN + 90_000, 3),
    );
    reader.continue_after_fault();
    assert_compares(
        &rt,
        &mut reader,
        &mut pes_packets,
        Compared::Other,
        (TEN + 180_000, 2),
    );
}

// Returns the result for the first PES packet of a file if reading fails after `bytes` bytes.
fn answer_before(file: &[u8; 552], bytes: u64) -> Result<Compared, PesFault> {
    let mut source = FailAt::new(Drip { rest: file }, bytes);
    ComparingReader::new().next(&mut FilePesPackets::new(&mut source))
}

#[test]
fn a_fault_is_reported_before_the_pull_that_fails_after_it(rt: HostRuntime) {
    let mut file = pes_packets_each_second();
    file[6] = 0x45; // flags
    assert_same(&rt, &answer_before(&file, 183), &Err(PesFault::Read));
    assert_same(&rt, &answer_before(&file, 184), &Err(PesFault::Flags));
    file[3] = 0x7C; // start code
    assert_same(&rt, &answer_before(&file, 5), &Err(PesFault::Read));
    assert_same(&rt, &answer_before(&file, 6), &Err(PesFault::Start));
}
