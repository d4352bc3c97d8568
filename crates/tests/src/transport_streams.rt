//! The PES packets of a PID in transport streams with repeated, lost or damaged TS packets.

use crate::transport_recordings::{
    BACK_1, BEGINS_0, BEGINS_1, BEGINS_2, BEGINS_9, FILL, GAP_MARKER_HEAD, GAP_MARKER_REST,
    Gathered, JUMP, JUMP_FILL, NULL, PREFIX_0, WRONG_1, ZEROS, assert_output, assert_output_of,
    write_pes_packets,
};
use fixtures::{FIRST, SECOND};
use mpeg_ts::{PacketSize, Pid, RecordingPesPackets};
use sub_io::{FailAt, MemSink, MemSource, Source};
use ttx_pes::{PesFault, PesPackets, REST_BUFFER_SIZE, Received};

#[test]
fn gives_the_pes_packets_of_the_pid(rt: HostRuntime) {
    let stream: [&[u8]; 6] = [&BEGINS_0, &FIRST, &NULL, &FILL, &BEGINS_1, &SECOND];
    assert_output(&rt, &stream, &[&FIRST, &SECOND]);
    assert_output_of(&rt, 0x102, PacketSize::Plain, &stream, &[]);
    // A PID has 13 bits, so PID 1101 is not PID 101 (hexadecimal).
    let far: [&[u8]; 4] = [
        &[0x47, 0x51, 0x01, 0x10],
        &FIRST,
        &[0x47, 0x51, 0x01, 0x11],
        &SECOND,
    ];
    assert_output(&rt, &far, &[]);
    assert_output_of(&rt, 0x1101, PacketSize::Plain, &far, &[&FIRST, &SECOND]);
    assert_output(&rt, &[], &[]);
}

#[test]
fn gives_a_gap_marker_where_a_packet_is_lost(rt: HostRuntime) {
    assert_output(
        &rt,
        &[&BEGINS_0, &FIRST, &BEGINS_2, &SECOND],
        &[&FIRST, &GAP_MARKER_HEAD, &GAP_MARKER_REST, &SECOND],
    );
    // There is no gap marker before the first PES packet.
    assert_output(&rt, &[&WRONG_1, &FIRST, &BEGINS_0, &SECOND], &[&SECOND]);
    // One gap marker replaces all missing packets. A PES packet that is cut off at the end of the
    // recording causes no gap marker.
    assert_output(
        &rt,
        &[
            &BEGINS_0, &FIRST, &WRONG_1, &SECOND, &WRONG_1, &SECOND, &BEGINS_1, &SECOND,
        ],
        &[&FIRST, &GAP_MARKER_HEAD, &GAP_MARKER_REST, &SECOND],
    );
    assert_output(
        &rt,
        &[&BEGINS_0, &FIRST, &BEGINS_1, &SECOND[..183]],
        &[&FIRST],
    );
}

#[test]
fn skips_one_repeat(rt: HostRuntime) {
    assert_output(
        &rt,
        &[
            &BEGINS_0, &FIRST, &BEGINS_0, &FIRST, &NULL, &FILL, &BEGINS_1, &SECOND,
        ],
        &[&FIRST, &SECOND],
    );
    assert_output(
        &rt,
        &[&BEGINS_0, &FIRST, &BEGINS_0, &FIRST, &BEGINS_0, &FIRST],
        &[&FIRST, &GAP_MARKER_HEAD, &GAP_MARKER_REST, &FIRST],
    );
    // A TS packet with the same payload and the next continuity counter is not a repeat, and
    // neither is a TS packet with the same counter and another payload.
    assert_output(
        &rt,
        &[&BEGINS_0, &FIRST, &BEGINS_1, &FIRST],
        &[&FIRST, &FIRST],
    );
    assert_output(
        &rt,
        &[&BEGINS_0, &FIRST, &BEGINS_0, &SECOND],
        &[&FIRST, &GAP_MARKER_HEAD, &GAP_MARKER_REST, &SECOND],
    );
    // A TS packet after an announced jump is not a repeat.
    assert_output(
        &rt,
        &[&BEGINS_0, &FIRST, &JUMP, &JUMP_FILL, &BEGINS_0, &FIRST],
        &[&FIRST, &FIRST],
    );
}

#[test]
fn recognizes_a_repeat_by_its_first_four_bytes_and_its_payload(rt: HostRuntime) {
    // Repeats may differ in the other bytes of the adaptation field.
    assert_output(
        &rt,
        &[
            &PREFIX_0,
            &FILL[..82],
            &FIRST[..100],
            &PREFIX_0,
            &ZEROS[..82],
            &FIRST[..100],
            &BACK_1,
            &FILL[..98],
            &FIRST[100..],
            &BEGINS_2,
            &SECOND,
        ],
        &[&FIRST, &SECOND],
    );
    // A TS packet that does not start a PES packet is not a repeat of a packet that does.
    assert_output(
        &rt,
        &[
            &BEGINS_0,
            &FIRST,
            &[0x47, 0x01, 0x01, 0x10],
            &FIRST,
            &BEGINS_1,
            &SECOND,
        ],
        &[&FIRST, &GAP_MARKER_HEAD, &GAP_MARKER_REST, &SECOND],
    );
}

#[test]
fn takes_no_wrong_packet(rt: HostRuntime) {
    let gap: [&[u8]; 3] = [&FIRST, &GAP_MARKER_HEAD, &GAP_MARKER_REST];
    assert_output(&rt, &[&BEGINS_0, &FIRST, &WRONG_1, &SECOND], &gap);
    // The transport packet is scrambled.
    assert_output(
        &rt,
        &[&BEGINS_0, &FIRST, &[0x47, 0x41, 0x01, 0x91], &SECOND],
        &gap,
    );
    // In the first case, the adaptation field leaves no room for the announced payload. In the
    // second case, a TS packet without payload is scrambled.
    let full: [u8; 5] = [0x47, 0x01, 0x01, 0x31, 0xB7];
    assert_output(
        &rt,
        &[&BEGINS_0, &FIRST, &full, &FILL[..183], &BEGINS_1, &SECOND],
        &[&FIRST, &GAP_MARKER_HEAD, &GAP_MARKER_REST, &SECOND],
    );
    assert_output(
        &rt,
        &[
            &BEGINS_0,
            &FIRST,
            &[0x47, 0x01, 0x01, 0xA0],
            &FILL,
            &BEGINS_1,
            &SECOND,
        ],
        &[&FIRST, &GAP_MARKER_HEAD, &GAP_MARKER_REST, &SECOND],
    );
    // Without a payload, the adaptation field of the first case is valid, and the packet's counter
    // is ignored.
    assert_output(
        &rt,
        &[
            &BEGINS_0,
            &FIRST,
            &[0x47, 0x01, 0x01, 0x25, 0xB7, 0x00],
            &JUMP_FILL,
            &BEGINS_1,
            &SECOND,
        ],
        &[&FIRST, &SECOND],
    );
}

#[test]
fn reads_packets_of_other_sizes(rt: HostRuntime) {
    let both: [&[u8]; 2] = [&FIRST, &SECOND];
    let stamp: [u8; 4] = [0x47; 4];
    let stamped: [&[u8]; 6] = [&stamp, &BEGINS_0, &FIRST, &stamp, &BEGINS_1, &SECOND];
    assert_output_of(&rt, 0x101, PacketSize::TimeStamped, &stamped, &both);
    let zeros: [u8; 4] = [0; 4];
    let with_time_stamps_of_zero: [&[u8]; 6] = [
        &zeros, &BEGINS_0, &FIRST, &zeros, &BEGINS_1, &SECOND,
    ];
    assert_output(&rt, &with_time_stamps_of_zero, &[]);
    let code: &[u8] = &FILL[..16];
    let coded: [&[u8]; 5] = [&BEGINS_0, &FIRST, code, &BEGINS_1, &SECOND];
    assert_output_of(&rt, 0x101, PacketSize::ErrorCorrected, &coded, &both);
}

#[test]
fn finds_a_loss_of_15_packets_of_their_size(rt: HostRuntime) {
    let zeros: [u8; 4] = [0; 4];
    // After a time stamp of 4 bytes, 2876 bytes are skipped in the first stream and 2880 bytes in
    // the second.
    assert_output_of(
        &rt,
        0x101,
        PacketSize::TimeStamped,
        &[
            &zeros,
            &BEGINS_0,
            &FIRST,
            &ZEROS,
            &ZEROS[..60],
            &NULL,
            &FILL,
            &zeros,
            &BEGINS_1,
            &SECOND,
        ],
        &[&FIRST, &SECOND],
    );
    assert_output_of(
        &rt,
        0x101,
        PacketSize::TimeStamped,
        &[
            &zeros,
            &BEGINS_0,
            &FIRST,
            &ZEROS,
            &ZEROS[..64],
            &NULL,
            &FILL,
            &zeros,
            &BEGINS_1,
            &SECOND,
        ],
        &[&FIRST, &GAP_MARKER_HEAD, &GAP_MARKER_REST, &SECOND],
    );
}

#[test]
fn knows_the_pids_that_may_carry_pes_packets(rt: HostRuntime) {
    assert!(rt; Pid::new(8190).is_some());
    assert!(rt; Pid::new(8191).is_none());
}

#[test]
fn gives_a_gap_marker_and_then_the_pes_packet_that_is_ready(rt: HostRuntime) {
    let mut recording_buffer = [0; 1024];
    let mut recorded = MemSink::new(&mut recording_buffer);
    let start: [u8; 4] = [0x00, 0x00, 0x01, 0xBE];
    write_pes_packets(
        &mut recorded,
        &[
            &BEGINS_0,
            &FIRST,
            &BEGINS_2,
            &SECOND,
            &BEGINS_9,
            &start,
            &FIRST[4..],
        ],
    );
    let Some(pid) = Pid::new(0x101) else {
        return assert!(rt; false);
    };
    let recording = MemSource::new(recorded.written());
    let mut pes_packets = RecordingPesPackets::new(recording, pid, PacketSize::Plain);
    let mut buffer = [0; 1024];
    let mut gathered = Gathered {
        sink: MemSink::new(&mut buffer),
    };
    let mut ready = [false; 6];
    let mut ends = [Received::End; 6];
    for i in 0..6 {
        ready[i] = pes_packets.is_ready();
        if let Ok(received) = pes_packets.next(&mut gathered) {
            ends[i] = received;
        }
    }
    let pes_packet = Received::PesPacket(());
    let rest = Received::Rest(PesFault::Start);
    // A gap marker is known as soon as the PES packet after it is known. Bytes that are not a PES
    // packet remain.
    assert!(rt; ends == [pes_packet, pes_packet, pes_packet, pes_packet, rest, rest]);
    assert!(rt; ready == [false, false, true, false, true, true]);
    let mut rest_buffer = [0; REST_BUFFER_SIZE];
    match pes_packets.next(&mut gathered) {
        Ok(Received::Rest(_)) => {
            assert!(rt; pes_packets.read_rest(&mut rest_buffer) == Ok(184));
            assert!(rt; pes_packets.read_rest(&mut rest_buffer) == Ok(0));
        }
        _ => assert!(rt; false),
    }
    assert!(rt; pes_packets.next(&mut gathered) == Ok(Received::End));
}

#[test]
fn gives_a_pes_packet_before_it_reads_more(rt: HostRuntime) {
    let mut recording_buffer = [0; 1024];
    let mut recorded = MemSink::new(&mut recording_buffer);
    write_pes_packets(&mut recorded, &[&BEGINS_0, &FIRST, &BEGINS_1, &SECOND]);
    let Some(pid) = Pid::new(0x101) else {
        return assert!(rt; false);
    };
    // The second call of the device fails without consuming bytes, and the next call continues.
    let device = FailAt::new(MemSource::new(recorded.written()), 1);
    let mut pes_packets = RecordingPesPackets::new(device, pid, PacketSize::Plain);
    let mut buffer = [0; 1024];
    let mut gathered = Gathered {
        sink: MemSink::new(&mut buffer),
    };
    assert!(rt; pes_packets.next(&mut gathered) == Ok(Received::PesPacket(())));
    assert!(rt; gathered.sink.written() == &FIRST[..]);
    assert!(rt; pes_packets.next(&mut gathered).is_err());
    let mut more_buffer = [0; 1024];
    let mut more = Gathered {
        sink: MemSink::new(&mut more_buffer),
    };
    assert!(rt; pes_packets.next(&mut more) == Ok(Received::PesPacket(())));
    assert!(rt; more.sink.written() == &SECOND[..]);
    assert!(rt; pes_packets.into_inner().failures() == 1);
}
