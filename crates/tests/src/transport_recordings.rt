//! TS packets for tests, and assertions about the PES packets in the TS packets of a PID.

ghost use Rattle.std.specs.Prelude.{◌≡◌, ⊤, true};
ghost use Rattle.sub_io.specs.Device.{CanFail};

use mpeg_ts::{PacketSize, Pid, RecordingPesPackets};
use std::process::Abort;
use sub_io::{MemSink, MemSource, Sink, put_all};
use ttx_pes::{PesPackets, REST_BUFFER_SIZE, Received, TakePesPacket};

/// Bytes 0 to 3 of TS packets of PID 101 (hexadecimal) that start a PES packet, by continuity
/// counter.
pub(crate) const BEGINS_0: [u8; 4] = [0x47, 0x41, 0x01, 0x10];

pub(crate) const BEGINS_1: [u8; 4] = [0x47, 0x41, 0x01, 0x11];

pub(crate) const BEGINS_2: [u8; 4] = [0x47, 0x41, 0x01, 0x12];

pub(crate) const BEGINS_9: [u8; 4] = [0x47, 0x41, 0x01, 0x19];

/// The TS packet `BEGINS_1` with transport_error_indicator set.
pub(crate) const WRONG_1: [u8; 4] = [0x47, 0xC1, 0x01, 0x11];

/// The first bytes of a null packet, and the bytes that fill the packet.
pub(crate) const NULL: [u8; 4] = [0x47, 0x1F, 0xFF, 0x10];

pub(crate) const FILL: [u8; 184] = [0xFF; 184];

/// The first bytes of a TS packet without payload that announces a jump of the continuity counter,
/// and the bytes that fill the packet.
pub(crate) const JUMP: [u8; 6] = [0x47, 0x01, 0x01, 0x20, 0xB7, 0x80];

pub(crate) const JUMP_FILL: [u8; 182] = [0xFF; 182];

/// Bytes 0 to 5 of TS packets with an adaptation field. One starts a PES packet and has 100 bytes
/// of payload, the other continues the PES packet with 84 bytes.
pub(crate) const PREFIX_0: [u8; 6] = [0x47, 0x41, 0x01, 0x30, 83, 0x00];

pub(crate) const BACK_1: [u8; 6] = [0x47, 0x01, 0x01, 0x31, 99, 0x00];

/// The first bytes of a gap marker. `GAP_MARKER_REST` has the other bytes.
pub(crate) const GAP_MARKER_HEAD: [u8; 6] = [0x00, 0x00, 0x01, 0xBD, 0x00, 0xB2];

pub(crate) const GAP_MARKER_REST: [u8; 178] = [0xFF; 178];

pub(crate) const ZEROS: [u8; 2820] = [0; 2820];

/// Writes byte strings to a sink one after another, as long as the sink has room.
pub(crate) fn write_pes_packets(sink: &mut MemSink<'_>, pes_packets: &[&[u8]]) {
    for pes_packet in pes_packets {
        write_pes_packet(sink, pes_packet);
    }
}

// Writes a byte string to a sink, as long as the sink has room.
fn write_pes_packet(sink: &mut MemSink<'_>, pes_packet: &[u8]) {
    if sink.failures() == 0 {
        let _ = put_all(sink, pes_packet);
    }
}

// Writes the bytes after the last PES packet to a sink, as long as the sink has room.
fn write_remaining_bytes<P: PesPackets>(sink: &mut MemSink<'_>, pes_packets: &mut P)
    requires rest { P.may_read_rest pes_packets.old ≡ true }
    requires failures { CanFail (P.failure_count pes_packets.old) }
{
    let mut buffer = [0; REST_BUFFER_SIZE];
    if let Ok(count) = pes_packets.read_rest(&mut buffer) {
        let (rest, _) = buffer.split_at(count);
        write_pes_packet(sink, rest);
    }
}

/// Appends each PES packet to a sink, as long as the sink has room.
#[derive(Drop)]
pub(crate) struct Gathered<'a> {
    pub(crate) sink: MemSink<'a>,
}

impl TakePesPacket for Gathered<'_> {
    type Answer = ();

    ghost is_take = { λ old pes_packet answer new. ⊤ };

    fn take(&mut self, pes_packet: &[u8]) {
        write_pes_packet(&mut self.sink, pes_packet);
    }
}

/// Asserts the PES packets in the TS packets of a PID. The recording consists of these byte
/// strings.
pub(crate) fn assert_output_of(
    rt: &impl Abort,
    number: u16,
    packet_size: PacketSize,
    recording: &[&[u8]],
    expected: &[&[u8]],
) {
    let mut recording_buffer = [0; 8192];
    let mut recorded = MemSink::new(&mut recording_buffer);
    write_pes_packets(&mut recorded, recording);
    let mut expected_buffer = [0; 2048];
    let mut expected_bytes = MemSink::new(&mut expected_buffer);
    write_pes_packets(&mut expected_bytes, expected);
    let Some(pid) = Pid::new(number) else {
        return assert!(rt; false);
    };
    let mut buffer = [0; 2048];
    let mut gathered = Gathered {
        sink: MemSink::new(&mut buffer),
    };
    let mut pes_packets = RecordingPesPackets::new(
        MemSource::new(recorded.written()),
        pid,
        packet_size,
    );
    for _ in 0..expected.len() + 1 {
        match pes_packets.next(&mut gathered) {
            Ok(Received::PesPacket(())) => {}
            Ok(Received::Rest(_)) => {
                write_remaining_bytes(&mut gathered.sink, &mut pes_packets);
                break;
            }
            _ => break,
        }
    }
    assert!(rt; gathered.sink.written() == expected_bytes.written());
}

/// Asserts the PES packets in the TS packets of PID 101 (hexadecimal), which have 188 bytes each.
pub(crate) fn assert_output(rt: &impl Abort, recording: &[&[u8]], expected: &[&[u8]]) {
    assert_output_of(rt, 0x101, PacketSize::Plain, recording, expected);
}
