//! Recordings with PES packets of several TS packets, in which TS packets are missing, repeated, or
//! announce a jump of the continuity counter.
use crate::recorded::{JUMP, JUMP_FILL, LOST, assert_answers, recording, write_pes_packets};
use answer_fixtures::answer_arguments;
use fixtures::{TEN, block, file_of, head};
use std::alloc::Global;
use std::process::Abort;
use sub_io::{MemSink, MemSource};

// The changes to the fifteen TS packets of the recording. TS packets are counted from 1, and 0
// means no change.
#[derive(Clone, Copy)]
struct Sent {
    // The number of the missing TS packet.
    missing_packet: usize,
    // The number of the TS packet that is sent twice.
    twice: usize,
    // The number of the TS packet after which a jump is announced. All later continuity counters
    // are 5 higher.
    jump: usize,
    // The number of the last TS packet.
    last: usize,
}

const ALL: Sent = Sent {
    missing_packet: 0,
    twice: 0,
    jump: 0,
    last: 15,
};

// Returns a subtitle file with one subtitle of 23 lines from row 1 on. Its page transmission is a
// PES packet of seven payloads.
fn file_of_23_rows() -> [u8; 1152] {
    let text = b"A\x8AA\x8AA\x8AA\x8AA\x8AA\x8AA\x8AA\x8AA\x8AA\x8AA\x8AA\x8A\
        A\x8AA\x8AA\x8AA\x8AA\x8AA\x8AA\x8AA\x8AA\x8AA\x8AA";
    file_of(&block(&head(TEN, TEN + 50, 1), text))
}

// Writes a schedule of three PES packets to a recording, in TS packets with payloads of 184 bytes.
fn write_ts_packets(rt: &impl Abort, pes: &[u8], sent: Sent, recording: &mut MemSink) {
    assert!(rt; pes.len() == 2760);
    let (payloads, _) = pes.as_chunks::<184>();
    for (index, payload) in payloads.iter().enumerate() {
        let begins = index == 0 || index == 7 || index == 14;
        let flag = if begins { 0x41 } else { 0x01 };
        let more = if sent.jump != 0 && index >= sent.jump {
            5
        } else {
            0
        };
        let counter = ((index + more) % 16) as u8;
        let prefix = [0x47, flag, 0x01, 0x10 + counter];
        let number = index + 1;
        if number > sent.last {
            break;
        }
        if number != sent.missing_packet {
            write_pes_packets(recording, &[&prefix, payload]);
        }
        if number == sent.twice {
            write_pes_packets(recording, &[&prefix, payload]);
        }
        if number == sent.jump {
            write_pes_packets(recording, &[&JUMP, &JUMP_FILL]);
        }
    }
}

// Asserts the output of a check of these TS packets.
fn assert_checks(rt: &(impl Abort + Alloc<A = Global>), sent: Sent, want: &str) {
    let stl = file_of_23_rows();
    let mut buffer = [0; 2760];
    let mut pes = MemSink::new(&mut buffer);
    let mut line = [0; 64];
    let mut out = MemSink::new(&mut line);
    let arguments = ["subttx", "schedule", "a", "b", "--every", "25"];
    let (mut input, mut none) = (MemSource::new(&stl), MemSource::new(&[]));
    answer_arguments(
        rt.alloc(),
        &arguments,
        &mut input,
        &mut none,
        &mut pes,
        &mut out,
    );
    let mut recorded = [0; 4096];
    let mut sending = MemSink::new(&mut recorded);
    write_ts_packets(rt, pes.written(), sent, &mut sending);
    let check = ["subttx", "check", "a", "b", "--pid", "257", "--every", "25"];
    let bytes = recording(sending.written(), false);
    assert_answers(rt, &check, &stl, bytes, &mut [], want);
}

const ACCEPTED: &str = "accepted 51 frames 3 transmissions\n";

#[test]
fn accepts_all_packets(rt: HostRuntime) {
    assert_checks(&rt, ALL, ACCEPTED);
    assert_checks(&rt, Sent { twice: 3, ..ALL }, ACCEPTED);
    assert_checks(&rt, Sent { jump: 7, ..ALL }, ACCEPTED);
}

#[test]
fn refuses_where_one_is_missing(rt: HostRuntime) {
    for missing_packet in 8..15 {
        assert_checks(
            &rt,
            Sent {
                missing_packet,
                ..ALL
            },
            LOST,
        );
    }
    for missing_packet in 2..8 {
        let early = "refused 63 Early frame 10:00:01:00\n";
        assert_checks(
            &rt,
            Sent {
                missing_packet,
                ..ALL
            },
            early,
        );
    }
    // A jump within a PES packet means that TS packets are missing. A PES packet that is cut off at
    // the end of the recording is not reported.
    assert_checks(&rt, Sent { jump: 10, ..ALL }, LOST);
    let late = "refused 74 Late frame 10:00:00:00\n";
    assert_checks(&rt, Sent { last: 10, ..ALL }, late);
}
