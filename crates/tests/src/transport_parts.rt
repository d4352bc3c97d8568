//! Splitting the TS packets of a PID into PES packets: at announced jumps, at the end, and after
//! other bytes.

use crate::transport_recordings::{
    BACK_1, BEGINS_0, BEGINS_1, BEGINS_2, BEGINS_9, FILL, GAP_MARKER_HEAD, GAP_MARKER_REST, JUMP,
    JUMP_FILL, NULL, PREFIX_0, WRONG_1, ZEROS, assert_output,
};
use fixtures::{FIRST, SECOND};

#[test]
fn follows_an_announced_jump(rt: HostRuntime) {
    let both: [&[u8]; 2] = [&FIRST, &SECOND];
    assert_output(
        &rt,
        &[&BEGINS_0, &FIRST, &JUMP, &JUMP_FILL, &BEGINS_9, &SECOND],
        &both,
    );
    // A jump is ignored if another PID announces it, or if the adaptation field has no room for the
    // flag.
    let others: [&[u8]; 6] = [
        &BEGINS_0,
        &FIRST,
        &[0x47, 0x01, 0x02, 0x20, 0xB7, 0x80],
        &JUMP_FILL,
        &BEGINS_9,
        &SECOND,
    ];
    let gap: [&[u8]; 4] = [&FIRST, &GAP_MARKER_HEAD, &GAP_MARKER_REST, &SECOND];
    assert_output(&rt, &others, &gap);
    assert_output(
        &rt,
        &[
            &BEGINS_0,
            &FIRST,
            &[0x47, 0x01, 0x01, 0x20, 0x00, 0x80],
            &JUMP_FILL,
            &BEGINS_9,
            &SECOND,
        ],
        &gap,
    );
}

#[test]
fn cuts_parts_at_an_announced_jump(rt: HostRuntime) {
    // A jump is announced within a PES packet, although the continuity counter matches.
    assert_output(
        &rt,
        &[
            &BEGINS_0,
            &FIRST,
            &[0x47, 0x41, 0x01, 0x31, 83, 0x00],
            &FILL[..82],
            &SECOND[..100],
            &JUMP,
            &JUMP_FILL,
            &[0x47, 0x01, 0x01, 0x32, 99, 0x00],
            &FILL[..98],
            &SECOND[100..],
            &[0x47, 0x41, 0x01, 0x13],
            &SECOND,
        ],
        &[&FIRST, &GAP_MARKER_HEAD, &GAP_MARKER_REST, &SECOND],
    );
    // The first TS packet of the second PES packet announces the jump.
    assert_output(
        &rt,
        &[
            &BEGINS_0,
            &FIRST,
            &[0x47, 0x41, 0x01, 0x39, 83, 0x80],
            &FILL[..82],
            &SECOND[..100],
            &[0x47, 0x01, 0x01, 0x3A, 99, 0x00],
            &FILL[..98],
            &SECOND[100..],
        ],
        &[&FIRST, &SECOND],
    );
    // The second TS packet announces the jump, so the PES packet is incomplete.
    assert_output(
        &rt,
        &[
            &PREFIX_0,
            &FILL[..82],
            &FIRST[..100],
            &[0x47, 0x01, 0x01, 0x31, 99, 0x80],
            &FILL[..98],
            &FIRST[100..],
            &BEGINS_2,
            &SECOND,
        ],
        &[&SECOND],
    );
}

#[test]
fn joins_the_payloads_of_a_pes_packet(rt: HostRuntime) {
    let both: [&[u8]; 2] = [&FIRST, &SECOND];
    let jumping_head: [u8; 6] = [0x47, 0x41, 0x01, 0x30, 83, 0x80];
    assert_output(
        &rt,
        &[
            &PREFIX_0,
            &FILL[..82],
            &FIRST[..100],
            &BACK_1,
            &FILL[..98],
            &FIRST[100..],
            &BEGINS_2,
            &SECOND,
        ],
        &both,
    );
    // The first TS packet announces a jump, and is sent twice.
    assert_output(
        &rt,
        &[
            &jumping_head,
            &FILL[..82],
            &FIRST[..100],
            &jumping_head,
            &FILL[..82],
            &FIRST[..100],
            &BACK_1,
            &FILL[..98],
            &FIRST[100..],
            &BEGINS_2,
            &SECOND,
        ],
        &both,
    );
}

#[test]
fn reports_a_gap_after_a_pes_packet(rt: HostRuntime) {
    let long_head: [u8; 6] = [0x47, 0x01, 0x01, 0x31, 83, 0x00];
    // Bytes after the end of the PES packet cause a gap marker.
    assert_output(
        &rt,
        &[
            &PREFIX_0,
            &FILL[..82],
            &FIRST[..100],
            &long_head,
            &FILL[..82],
            &FIRST[100..],
            &FILL[..16],
            &BEGINS_2,
            &SECOND,
        ],
        &[&FIRST, &GAP_MARKER_HEAD, &GAP_MARKER_REST, &SECOND],
    );
    // A PES packet that is cut off at the end of the recording causes no gap marker.
    assert_output(
        &rt,
        &[
            &BEGINS_0,
            &FIRST,
            &[0x47, 0x41, 0x01, 0x31, 83, 0x00],
            &FILL[..82],
            &SECOND[..100],
        ],
        &[&FIRST],
    );
}

#[test]
fn skips_a_part_that_is_not_complete(rt: HostRuntime) {
    // The first PES packet is incomplete when the next one starts.
    assert_output(
        &rt,
        &[&PREFIX_0, &FILL[..82], &FIRST[..100], &BEGINS_1, &SECOND],
        &[&SECOND],
    );
    // The TS packet after a complete PES packet does not start a PES packet.
    assert_output(
        &rt,
        &[&BEGINS_0, &FIRST, &[0x47, 0x01, 0x01, 0x11], &SECOND],
        &[&FIRST, &GAP_MARKER_HEAD, &GAP_MARKER_REST],
    );
}

#[test]
fn ends_at_another_start_or_length(rt: HostRuntime) {
    let start: [u8; 4] = [0x00, 0x00, 0x01, 0xBE];
    assert_output(
        &rt,
        &[&BEGINS_0, &start, &FIRST[4..], &BEGINS_1, &SECOND],
        &[&start, &FIRST[4..]],
    );
    let length: [u8; 5] = [0x00, 0x00, 0x01, 0xBD, 0x1F];
    assert_output(
        &rt,
        &[&BEGINS_0, &length, &FIRST[5..], &BEGINS_1, &SECOND],
        &[&length, &FIRST[5..]],
    );
    // The PES packet needs ten payloads, one more than the maximum.
    let long: [u8; 6] = [0x00, 0x00, 0x01, 0xBD, 0x07, 0x2A];
    assert_output(&rt, &[&BEGINS_0, &long, &FIRST[6..]], &[&long, &FIRST[6..]]);
    // Unreadable bytes follow a gap marker only if a PES packet was read before them.
    assert_output(
        &rt,
        &[&BEGINS_0, &FIRST, &BEGINS_2, &start, &FIRST[4..]],
        &[
            &FIRST,
            &GAP_MARKER_HEAD,
            &GAP_MARKER_REST,
            &start,
            &FIRST[4..],
        ],
    );
    assert_output(
        &rt,
        &[&WRONG_1, &FIRST, &BEGINS_2, &start, &FIRST[4..]],
        &[&start, &FIRST[4..]],
    );
}

#[test]
fn finds_packets_after_other_bytes(rt: HostRuntime) {
    let both: [&[u8]; 2] = [&FIRST, &SECOND];
    assert_output(
        &rt,
        &[
            &ZEROS[..5],
            &BEGINS_0,
            &FIRST,
            &NULL,
            &FILL,
            &BEGINS_1,
            &SECOND,
        ],
        &both,
    );
    assert_output(
        &rt,
        &[
            &BEGINS_0,
            &FIRST,
            &ZEROS[..5],
            &NULL,
            &FILL,
            &BEGINS_1,
            &SECOND,
        ],
        &both,
    );
    // Unreadable bytes are long enough to hide lost packets if they have the size of 15 TS packets.
    // Fewer bytes are too short, and bytes at the end hide nothing.
    assert_output(
        &rt,
        &[&BEGINS_0, &FIRST, &ZEROS, &NULL, &FILL, &BEGINS_1, &SECOND],
        &[&FIRST, &GAP_MARKER_HEAD, &GAP_MARKER_REST, &SECOND],
    );
    assert_output(
        &rt,
        &[
            &BEGINS_0,
            &FIRST,
            &ZEROS[..2819],
            &NULL,
            &FILL,
            &BEGINS_1,
            &SECOND,
        ],
        &both,
    );
    assert_output(&rt, &[&BEGINS_0, &FIRST, &ZEROS], &[&FIRST]);
}

#[test]
fn finds_packets_where_they_begin_again(rt: HostRuntime) {
    // Two sequences of unreadable bytes, with a TS packet between them, are each too short to hide
    // lost packets.
    assert_output(
        &rt,
        &[
            &BEGINS_0,
            &FIRST,
            &ZEROS[..2000],
            &NULL,
            &FILL,
            &NULL,
            &FILL,
            &ZEROS[..2000],
            &NULL,
            &FILL,
            &BEGINS_1,
            &SECOND,
        ],
        &[&FIRST, &SECOND],
    );
    // A recording may start and end within a TS packet.
    assert_output(
        &rt,
        &[&FIRST[..88], &NULL, &FILL, &BEGINS_1, &SECOND],
        &[&SECOND],
    );
    // If the recording has lost its packet boundaries, a TS packet is accepted only if another one
    // follows it.
    assert_output(&rt, &[&FIRST[..88], &BEGINS_1, &SECOND], &[]);
    assert_output(&rt, &[&BEGINS_0, &FIRST[..183]], &[]);
}
