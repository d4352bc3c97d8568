//! The lines of `survey` that other tools use.
use crate::recorded::{BEGINS_0, BEGINS_1, BEGINS_2, FILL, JUMP, JUMP_FILL, assert_prints};
use fixtures::{FIRST, SECOND};

const SURVEY: [&str; 5] = ["subttx", "survey", "b", "--page", "100"];

const PAGE_888: [&str; 3] = ["subttx", "survey", "b"];

// Bytes 0 to 3 of TS packets of PID 101 (hexadecimal) that start a PES packet, by continuity
// counter.
const BEGINS_3: [u8; 4] = [0x47, 0x41, 0x01, 0x13];

const BEGINS_4: [u8; 4] = [0x47, 0x41, 0x01, 0x14];

const BEGINS_5: [u8; 4] = [0x47, 0x41, 0x01, 0x15];

const BEGINS_6: [u8; 4] = [0x47, 0x41, 0x01, 0x16];

const BEGINS_7: [u8; 4] = [0x47, 0x41, 0x01, 0x17];

// Bytes 0 to 3 of a TS packet with errors, and of a scrambled TS packet.
const WRONG: [u8; 4] = [0x47, 0x81, 0x01, 0x11];

const SCRAMBLED: [u8; 4] = [0x47, 0x01, 0x01, 0x91];

// Bytes 0 to 3 of TS packets that continue a PES packet, by continuity counter.
const CONTINUES: [[u8; 4]; 5] = [
    [0x47, 0x01, 0x01, 0x11],
    [0x47, 0x01, 0x01, 0x12],
    [0x47, 0x01, 0x01, 0x13],
    [0x47, 0x01, 0x01, 0x14],
    [0x47, 0x01, 0x01, 0x15],
];

#[test]
fn reports_a_seam_where_a_jump_is_announced(rt: HostRuntime) {
    let stream: [&[u8]; 6] = [&BEGINS_0, &FIRST, &JUMP, &JUMP_FILL, &BEGINS_5, &SECOND];
    let want = "survey 1\nhead 47410110000001bd00b284\nsize 188\nteletext 257\nsub 257 888\n\
        seam 257 1\npes 257 0 1 3240000000 0 b/ 3 0\npes 257 1 1 3240180000 0 b/ 2 0\n\
        subs 257 888 2\nend 257 2 0 3 0 0 0 3240180000\nover 0 3\n";
    assert_prints(&rt, &SURVEY, &stream, want);
}

#[test]
fn reports_a_seam_after_the_gap_marker_of_a_pes_packet_that_it_cuts(rt: HostRuntime) {
    let mut long = FIRST;
    long[4..6].copy_from_slice(&[0x04, 0x4A]);
    let stream: [&[u8]; 8] = [
        &BEGINS_0, &FIRST, &BEGINS_1, &long, &JUMP, &JUMP_FILL, &BEGINS_5, &SECOND,
    ];
    let want = "survey 1\nhead 47410110000001bd00b284\nsize 188\nteletext 257\nsub 257 888\n\
        pes 257 0 1 3240000000 0 b/ 3 0\ngap 257 1 0 0\nseam 257 2\n\
        pes 257 2 1 3240180000 0 b/ 2 0\n\
        subs 257 888 2\nend 257 3 1 4 0 0 0 3240180000\nover 0 4\n";
    assert_prints(&rt, &SURVEY, &stream, want);
}

#[test]
fn reports_no_seam_where_something_is_lost_too(rt: HostRuntime) {
    let stream: [&[u8]; 8] = [
        &BEGINS_0, &FIRST, &JUMP, &JUMP_FILL, &WRONG, &FILL, &BEGINS_5, &SECOND,
    ];
    let want = "survey 1\nhead 47410110000001bd00b284\nsize 188\nteletext 257\nsub 257 888\n\
        pes 257 0 1 3240000000 0 b/ 3 0\ngap 257 1 0 0\npes 257 2 1 3240180000 0 b/ 2 0\n\
        subs 257 888 2\nend 257 3 1 4 0 0 0 3240180000\nover 0 4\n";
    assert_prints(&rt, &SURVEY, &stream, want);
}

#[test]
fn counts_scrambled_packets_of_a_gap(rt: HostRuntime) {
    let stream: [&[u8]; 6] = [&BEGINS_0, &FIRST, &SCRAMBLED, &FILL, &BEGINS_2, &SECOND];
    let want = "survey 1\nhead 47410110000001bd00b284\nsize 188\nteletext 257\nsub 257 888\n\
        pes 257 0 1 3240000000 0 b/ 3 0\ngap 257 1 1 1\npes 257 2 1 3240180000 0 b/ 2 0\n\
        subs 257 888 2\nend 257 3 1 3 1 0 0 3240180000\nover 0 3\n";
    assert_prints(&rt, &SURVEY, &stream, want);
}

#[test]
fn takes_each_packet_of_a_pid(rt: HostRuntime) {
    let stream: [&[u8]; 16] = [
        &BEGINS_0, &FIRST, &BEGINS_1, &FIRST, &BEGINS_2, &FIRST, &BEGINS_3, &FIRST, &BEGINS_4,
        &FIRST, &BEGINS_5, &FIRST, &BEGINS_6, &FIRST, &BEGINS_7, &FIRST,
    ];
    let want = "survey 1\nhead 47410110000001bd00b284\nsize 188\nteletext 257\nsub 257 888\n\
        pes 257 0 8 3240000000 0 b/ 3 0\n\
        subs 257 888 8\nend 257 8 0 8 0 0 0 3240000000\nover 0 8\n";
    assert_prints(&rt, &SURVEY, &stream, want);
}

#[test]
fn counts_long_pes_packets(rt: HostRuntime) {
    let mut long = FIRST;
    long[4..6].copy_from_slice(&[0x04, 0x4A]);
    let [second, third, fourth, fifth, sixth] = &CONTINUES;
    let stream: [&[u8]; 14] = [
        &BEGINS_0, &long, second, &FILL, third, &FILL, fourth, &FILL, fifth, &FILL, sixth, &FILL,
        &BEGINS_6, &SECOND,
    ];
    let want = "survey 1\nhead 47410110000001bd044a84\nsize 188\nteletext 257\nsub 257 888\n\
        pes 257 0 1 3240000000 0 b/ 3 38\npes 257 1 1 3240180000 0 b/ 2 0\n\
        subs 257 888 2\nend 257 2 0 7 0 0 0 3240180000\nover 0 7\n";
    assert_prints(&rt, &SURVEY, &stream, want);
}

#[test]
fn reports_a_pes_packet_of_368_bytes_that_are_filled_as_no_gap_marker(rt: HostRuntime) {
    let filled = [0x00, 0x00, 0x01, 0xBD, 0x01, 0x6A];
    let [second, ..] = &CONTINUES;
    let stream: [&[u8]; 7] = [
        &BEGINS_0,
        &filled,
        &FILL[..178],
        second,
        &FILL,
        &BEGINS_2,
        &SECOND,
    ];
    let arguments = ["subttx", "survey", "b", "--page", "100", "--pid", "257"];
    let want = "survey 1\nhead 47410110000001bd016aff\nsize 188\nteletext 257\nsub 257 888\n\
        pes 257 0 1 - 0 -/ 0 45\npes 257 1 1 3240180000 0 b/ 2 0\n\
        subs 257 888 1\nend 257 2 0 3 0 0 0 3240180000\nover 0 3\n";
    assert_prints(&rt, &arguments, &stream, want);
}

#[test]
fn ends_a_run_where_a_control_bit_differs(rt: HostRuntime) {
    let mut serial = FIRST;
    serial[59] = 0x40; // C11
    let stream: [&[u8]; 6] = [&BEGINS_0, &FIRST, &BEGINS_1, &FIRST, &BEGINS_2, &serial];
    let want = "survey 1\nhead 47410110000001bd00b284\nsize 188\nteletext 257\nsub 257 888\n\
        pes 257 0 1 3240000000 0 hec/88080810 3 0\n\
        rows 257 0 22:202020202020202020202020202020200d0b0b48690a0a\
        2020202020202020202020202020202020\n\
        pes 257 1 1 3240000000 0 hec/88080810 3 0\npes 257 2 1 3240000000 0 hec/88080811 3 0\n\
        subs 257 888 3\nend 257 3 0 3 0 0 0 3240000000\nover 0 3\n";
    assert_prints(&rt, &PAGE_888, &stream, want);
}

#[test]
fn counts_headers_with_c6_alone(rt: HostRuntime) {
    let mut other = FIRST;
    other[57] = 0xA8; // C5 and C6 are clear, C7 is set
    let stream: [&[u8]; 4] = [&BEGINS_0, &other, &BEGINS_1, &SECOND];
    let want = "survey 1\nhead 47410110000001bd00b284\nsize 188\nteletext 257\n\
        sub 257 888\npes 257 0 1 3240000000 0 b/ 3 0\npes 257 1 1 3240180000 0 b/ 2 0\n\
        subs 257 888 1\nend 257 2 0 2 0 0 0 3240180000\nover 0 2\n";
    assert_prints(&rt, &SURVEY, &stream, want);
}

#[test]
fn finds_no_teletext_where_the_data_identifier_is_in_the_next_ts_packet(rt: HostRuntime) {
    // The PES packet's first TS packet ends with its PES header.
    let head = [0x47, 0x41, 0x01, 0x30, 0x8A, 0x00];
    let rest = [0x47, 0x01, 0x01, 0x31, 0x2C, 0x00];
    let stream: [&[u8]; 8] = [
        &head,
        &FILL[..137],
        &FIRST[..45],
        &rest,
        &FILL[..43],
        &FIRST[45..],
        &BEGINS_2,
        &SECOND,
    ];
    let want = "survey 1\nhead 474101308a00ffffffffff\nsize 188\nteletext 257\nsub 257 888\n\
        pes 257 0 1 3240180000 0 b/ 2 0\n\
        subs 257 888 1\nend 257 1 0 1 0 0 0 3240180000\nover 0 3\n";
    assert_prints(&rt, &SURVEY, &stream, want);
}

// The tables of a transport stream. Programme 1 has PCR_PID 1FF0, MPEG-2 video in PID 110 and
// private data in PID 101.
const PAT: [u8; 21] = [
    0x47, 0x40, 0x00, 0x10, 0x00, 0x00, 0xB0, 0x0D, 0x00, 0x01, 0xC1, 0x00, 0x00, 0x00, 0x01, 0xE1,
    0x00, 0xE8, 0xF9, 0x5E, 0x7D,
];

const PMT: [u8; 31] = [
    0x47, 0x41, 0x00, 0x10, 0x00, 0x02, 0xB0, 0x17, 0x00, 0x01, 0xC1, 0x00, 0x00, 0xFF, 0xF0, 0xF0,
    0x00, 0x02, 0xE1, 0x10, 0xF0, 0x00, 0x06, 0xE1, 0x01, 0xF0, 0x00, 0x50, 0x75, 0x22, 0xEF,
];

// The table `PMT` with HEVC video instead of MPEG-2 video.
const PMT_HEVC: [u8; 31] = [
    0x47, 0x41, 0x00, 0x10, 0x00, 0x02, 0xB0, 0x17, 0x00, 0x01, 0xC1, 0x00, 0x00, 0xFF, 0xF0, 0xF0,
    0x00, 0x24, 0xE1, 0x10, 0xF0, 0x00, 0x06, 0xE1, 0x01, 0xF0, 0x00, 0x00, 0x50, 0x12, 0xF4,
];

// A TS packet that starts the first picture of the video, with random_access_indicator set, PTS
// 3239907200 and DTS 3239900000; and the headers with which the picture may start.
const FLAGGED: [u8; 25] = [
    0x47, 0x41, 0x10, 0x30, 0x01, 0x40, 0x00, 0x00, 0x01, 0xE0, 0x00, 0x00, 0x80, 0xC0, 0x0A, 0x37,
    0x04, 0x75, 0x1F, 0x01, 0x17, 0x04, 0x73, 0xE6, 0xC1,
];

const CLOSED_GROUP: [u8; 8] = [0x00, 0x00, 0x01, 0xB8, 0x00, 0x08, 0x00, 0x40];

const OPEN_GROUP: [u8; 8] = [0x00, 0x00, 0x01, 0xB8, 0x00, 0x08, 0x00, 0x00];

// The nal_unit_header of IDR_W_RADL and of CRA_NUT.
const IDR_W_RADL: [u8; 5] = [0x00, 0x00, 0x01, 0x26, 0x01];

const CRA_NUT: [u8; 5] = [0x00, 0x00, 0x01, 0x2A, 0x01];

// TS packets that start pictures without DTS. Each picture is 3600 ticks after the one before it,
// except for the last, which is 10800 ticks after it.
const SHOWN_1: [u8; 18] = [
    0x47, 0x41, 0x10, 0x11, 0x00, 0x00, 0x01, 0xE0, 0x00, 0x00, 0x80, 0x80, 0x05, 0x27, 0x04, 0x75,
    0x02, 0xE1,
];

const SHOWN_2: [u8; 18] = [
    0x47, 0x41, 0x10, 0x12, 0x00, 0x00, 0x01, 0xE0, 0x00, 0x00, 0x80, 0x80, 0x05, 0x27, 0x04, 0x75,
    0x1F, 0x01,
];

const SHOWN_3: [u8; 18] = [
    0x47, 0x41, 0x10, 0x13, 0x00, 0x00, 0x01, 0xE0, 0x00, 0x00, 0x80, 0x80, 0x05, 0x27, 0x04, 0x75,
    0x3B, 0x21,
];

const SHOWN_4: [u8; 18] = [
    0x47, 0x41, 0x10, 0x14, 0x00, 0x00, 0x01, 0xE0, 0x00, 0x00, 0x80, 0x80, 0x05, 0x27, 0x04, 0x75,
    0x57, 0x41,
];

const SHOWN_5: [u8; 18] = [
    0x47, 0x41, 0x10, 0x15, 0x00, 0x00, 0x01, 0xE0, 0x00, 0x00, 0x80, 0x80, 0x05, 0x27, 0x04, 0x75,
    0x73, 0x61,
];

const SHOWN_LATE: [u8; 18] = [
    0x47, 0x41, 0x10, 0x16, 0x00, 0x00, 0x01, 0xE0, 0x00, 0x00, 0x80, 0x80, 0x05, 0x27, 0x04, 0x75,
    0xC7, 0xC1,
];

// A section of a PAT in the PID of the PMT. It names PID 200 for the PMT of programme 1.
const PAT_IN_PMT_PID: [u8; 21] = [
    0x47, 0x41, 0x00, 0x10, 0x00, 0x00, 0xB0, 0x0D, 0x00, 0x01, 0xC1, 0x00, 0x00, 0x00, 0x01, 0xE2,
    0x00, 0x9A, 0x12, 0x01, 0xAE,
];

#[test]
fn reads_a_pat_only_in_pid_0(rt: HostRuntime) {
    let pmt_head = [0x47, 0x42, 0x00, 0x10];
    let stream: [&[u8]; 7] = [
        &PAT,
        &FILL[..167],
        &PAT_IN_PMT_PID,
        &FILL[..167],
        &pmt_head,
        &PMT[4..],
        &FILL[..157],
    ];
    let want = "survey 1\nhead 474000100000b00d0001c1\nsize 188\nover 0 3\n";
    assert_prints(&rt, &SURVEY, &stream, want);
}

#[test]
fn prints_the_lead_of_the_teletext_over_the_pictures(rt: HostRuntime) {
    let fill = &FILL[..170];
    let stream: [&[u8]; 22] = [
        &PAT,
        &FILL[..167],
        &PMT,
        &FILL[..157],
        &FLAGGED,
        &FILL[..163],
        &SHOWN_1,
        fill,
        &SHOWN_2,
        fill,
        &SHOWN_3,
        fill,
        &SHOWN_4,
        fill,
        &SHOWN_5,
        fill,
        &BEGINS_0,
        &FIRST,
        &SHOWN_LATE,
        fill,
        &BEGINS_1,
        &SECOND,
    ];
    let want = "survey 1\nhead 474000100000b00d0001c1\nsize 188\n\
        programme 1 8176\nstream 272 2\nstream 257 6\n\
        video 272 0\npicture 272 3239907200\npicture 272 3239903600\npicture 272 3239907200\n\
        picture 272 3239910800\npicture 272 3239914400\npicture 272 3239918000\n\
        teletext 257\nsub 257 888\nlead 257 3240000000 82000 272 6\npicture 272 3239928800\n\
        pes 257 0 1 3240000000 0 b/ 3 0\nlead 257 3240180000 251200 272 7\n\
        pes 257 1 1 3240180000 0 b/ 2 0\n\
        steps 272 3600 2 10800 7\n\
        group 272 3239907200 3239903600 unknown\npictures 272 0 0 0 1\n\
        subs 257 888 2\n\
        end 257 2 0 2 0 0 0 3240180000\nover 0 11\n";
    assert_prints(&rt, &SURVEY, &stream, want);
}

// The table `PMT` with PCR_PID 1FFF, and a later version with video in PID 111 instead of PID 110.
const PMT_WITHOUT_PCR: [u8; 31] = [
    0x47, 0x41, 0x00, 0x10, 0x00, 0x02, 0xB0, 0x17, 0x00, 0x01, 0xC1, 0x00, 0x00, 0xFF, 0xFF, 0xF0,
    0x00, 0x02, 0xE1, 0x10, 0xF0, 0x00, 0x06, 0xE1, 0x01, 0xF0, 0x00, 0x99, 0xEF, 0x5B, 0xB7,
];

const PMT_MOVED: [u8; 31] = [
    0x47, 0x41, 0x00, 0x11, 0x00, 0x02, 0xB0, 0x17, 0x00, 0x01, 0xC1, 0x00, 0x00, 0xFF, 0xFF, 0xF0,
    0x00, 0x02, 0xE1, 0x11, 0xF0, 0x00, 0x06, 0xE1, 0x01, 0xF0, 0x00, 0xC2, 0x4E, 0x87, 0x7D,
];

// TS packets that start pictures in PID 111. The first has the stream_id of audio.
const MOVED_DAMAGED: [u8; 18] = [
    0x47, 0x41, 0x11, 0x10, 0x00, 0x00, 0x01, 0xC0, 0x00, 0x00, 0x80, 0x80, 0x05, 0x27, 0x04, 0x75,
    0x3B, 0x21,
];

const MOVED: [u8; 18] = [
    0x47, 0x41, 0x11, 0x11, 0x00, 0x00, 0x01, 0xE0, 0x00, 0x00, 0x80, 0x80, 0x05, 0x27, 0x04, 0x75,
    0x57, 0x41,
];

#[test]
fn follows_the_video_that_the_last_pmt_names(rt: HostRuntime) {
    let fill = &FILL[..170];
    let stream: [&[u8]; 16] = [
        &PAT,
        &FILL[..167],
        &PMT_WITHOUT_PCR,
        &FILL[..157],
        &FLAGGED,
        &FILL[..163],
        &BEGINS_0,
        &FIRST,
        &PMT_MOVED,
        &FILL[..157],
        &MOVED_DAMAGED,
        fill,
        &MOVED,
        fill,
        &BEGINS_1,
        &SECOND,
    ];
    let want = "survey 1\nhead 474000100000b00d0001c1\nsize 188\n\
        programme 1 8191\nstream 272 2\nstream 257 6\n\
        video 272 0\npicture 272 3239907200\n\
        teletext 257\nsub 257 888\nlead 257 3240000000 100000 272 1\n\
        programme 1 8191\nstream 273 2\nstream 257 6\n\
        pes 257 0 1 3240000000 0 b/ 3 0\nlead 257 3240180000 265600 273 1\n\
        pes 257 1 1 3240180000 0 b/ 2 0\n\
        group 272 3239907200 3239907200 unknown\npictures 272 0 0 0 1\npictures 273 0 0 1 0\n\
        subs 257 888 2\n\
        end 257 2 0 2 0 0 0 3240180000\nover 0 8\n";
    assert_prints(&rt, &SURVEY, &stream, want);
}

#[test]
fn reports_whether_the_group_of_the_first_picture_is_closed(rt: HostRuntime) {
    let closed: [&[u8]; 7] = [
        &PAT,
        &FILL[..167],
        &PMT,
        &FILL[..157],
        &FLAGGED,
        &CLOSED_GROUP,
        &FILL[..155],
    ];
    let want = "survey 1\nhead 474000100000b00d0001c1\nsize 188\n\
        programme 1 8176\nstream 272 2\nstream 257 6\n\
        video 272 0\npicture 272 3239907200\ngroup 272 3239907200 3239907200 closed\n\
        pictures 272 0 0 0 1\nover 0 3\n";
    assert_prints(&rt, &SURVEY, &closed, want);
    let open: [&[u8]; 7] = [
        &PAT,
        &FILL[..167],
        &PMT,
        &FILL[..157],
        &FLAGGED,
        &OPEN_GROUP,
        &FILL[..155],
    ];
    let want = "survey 1\nhead 474000100000b00d0001c1\nsize 188\n\
        programme 1 8176\nstream 272 2\nstream 257 6\n\
        video 272 0\npicture 272 3239907200\ngroup 272 3239907200 3239907200 open\n\
        pictures 272 0 0 0 1\nover 0 3\n";
    assert_prints(&rt, &SURVEY, &open, want);
}

#[test]
fn reports_whether_a_group_of_hevc_is_closed(rt: HostRuntime) {
    let closed: [&[u8]; 7] = [
        &PAT,
        &FILL[..167],
        &PMT_HEVC,
        &FILL[..157],
        &FLAGGED,
        &IDR_W_RADL,
        &FILL[..158],
    ];
    let want = "survey 1\nhead 474000100000b00d0001c1\nsize 188\n\
        programme 1 8176\nstream 272 36\nstream 257 6\n\
        video 272 0\npicture 272 3239907200\ngroup 272 3239907200 3239907200 closed\n\
        pictures 272 0 0 0 1\nover 0 3\n";
    assert_prints(&rt, &SURVEY, &closed, want);
    let open: [&[u8]; 7] = [
        &PAT,
        &FILL[..167],
        &PMT_HEVC,
        &FILL[..157],
        &FLAGGED,
        &CRA_NUT,
        &FILL[..158],
    ];
    let want = "survey 1\nhead 474000100000b00d0001c1\nsize 188\n\
        programme 1 8176\nstream 272 36\nstream 257 6\n\
        video 272 0\npicture 272 3239907200\ngroup 272 3239907200 3239907200 open\n\
        pictures 272 0 0 0 1\nover 0 3\n";
    assert_prints(&rt, &SURVEY, &open, want);
}

#[test]
fn reads_the_header_of_a_group_over_two_packets(rt: HostRuntime) {
    let continues = [0x47, 0x01, 0x10, 0x11];
    let (first, second) = (&CLOSED_GROUP[..3], &CLOSED_GROUP[3..]);
    let stream: [&[u8]; 10] = [
        &PAT,
        &FILL[..167],
        &PMT,
        &FILL[..157],
        &FLAGGED,
        &FILL[..160],
        first,
        &continues,
        second,
        &FILL[..179],
    ];
    let want = "survey 1\nhead 474000100000b00d0001c1\nsize 188\n\
        programme 1 8176\nstream 272 2\nstream 257 6\n\
        video 272 0\npicture 272 3239907200\ngroup 272 3239907200 3239907200 closed\n\
        pictures 272 0 0 0 1\nover 0 4\n";
    assert_prints(&rt, &SURVEY, &stream, want);
}

// PCR values in TS packets without payload, each 1000 ticks less than the one before it; and a TS
// packet that announces such a step back.
const PCR_0: [u8; 12] = [
    0x47, 0x1F, 0xF0, 0x20, 0xB7, 0x10, 0x00, 0x06, 0xDD, 0xD0, 0x7E, 0x00,
];

const PCR_1: [u8; 12] = [
    0x47, 0x1F, 0xF0, 0x20, 0xB7, 0x10, 0x00, 0x06, 0xDB, 0xDC, 0x7E, 0x00,
];

const PCR_2: [u8; 12] = [
    0x47, 0x1F, 0xF0, 0x20, 0xB7, 0x10, 0x00, 0x06, 0xD9, 0xE8, 0x7E, 0x00,
];

const PCR_3: [u8; 12] = [
    0x47, 0x1F, 0xF0, 0x20, 0xB7, 0x10, 0x00, 0x06, 0xD7, 0xF4, 0x7E, 0x00,
];

const PCR_4: [u8; 12] = [
    0x47, 0x1F, 0xF0, 0x20, 0xB7, 0x10, 0x00, 0x06, 0xD6, 0x00, 0x7E, 0x00,
];

const PCR_5: [u8; 12] = [
    0x47, 0x1F, 0xF0, 0x20, 0xB7, 0x10, 0x00, 0x06, 0xD4, 0x0C, 0x7E, 0x00,
];

const PCR_6: [u8; 12] = [
    0x47, 0x1F, 0xF0, 0x20, 0xB7, 0x10, 0x00, 0x06, 0xD2, 0x18, 0x7E, 0x00,
];

const PCR_ANNOUNCED: [u8; 12] = [
    0x47, 0x1F, 0xF0, 0x20, 0xB7, 0x90, 0x00, 0x06, 0xDB, 0xDC, 0x7E, 0x00,
];

#[test]
fn reports_each_pcr_that_goes_back(rt: HostRuntime) {
    let fill = &FILL[..176];
    let stream: [&[u8]; 20] = [
        &PAT,
        &FILL[..167],
        &PMT,
        &FILL[..157],
        &BEGINS_0,
        &FIRST,
        &PCR_0,
        fill,
        &PCR_1,
        fill,
        &PCR_2,
        fill,
        &PCR_3,
        fill,
        &PCR_4,
        fill,
        &PCR_5,
        fill,
        &PCR_6,
        fill,
    ];
    let want = "survey 1\nhead 474000100000b00d0001c1\nsize 188\n\
        programme 1 8176\nstream 272 2\nstream 257 6\nteletext 257\nsub 257 888\n\
        pcr 8176 900000\npcr 8176 899000\npcr 8176 898000\npcr 8176 897000\npcr 8176 896000\n\
        pcr 8176 895000\n\
        clock 257 3240000000 - -1000 1 0 0 unknown\n\
        pcr 8176 894000\n\
        clock 257 3240000000 - -1000 1 0 0 unknown\n\
        pes 257 0 1 3240000000 0 b/ 3 0\n\
        clock 257 3240000000 - -1000 1 0 0 unknown\n\
        clock 257 3240000000 - -1000 1 0 0 unknown\n\
        clock 257 3240000000 - -1000 1 0 0 unknown\n\
        clock 257 3240000000 - -1000 1 0 0 unknown\n\
        subs 257 888 1\n\
        end 257 1 0 1 0 0 0 3240000000\npcr 8176 894000\nover 0 10\n";
    assert_prints(&rt, &SURVEY, &stream, want);
}

#[test]
fn reports_no_pcr_that_goes_back_where_it_is_announced(rt: HostRuntime) {
    let fill = &FILL[..176];
    let stream: [&[u8]; 12] = [
        &PAT,
        &FILL[..167],
        &PMT,
        &FILL[..157],
        &BEGINS_0,
        &FIRST,
        &PCR_0,
        fill,
        &PCR_ANNOUNCED,
        fill,
        &PCR_2,
        fill,
    ];
    let want = "survey 1\nhead 474000100000b00d0001c1\nsize 188\n\
        programme 1 8176\nstream 272 2\nstream 257 6\nteletext 257\nsub 257 888\n\
        pcr 8176 900000\npcr 8176 899000\npcr 8176 898000\npes 257 0 1 3240000000 0 b/ 3 0\n\
        clock 257 3240000000 - -1000 1 0 0 unknown\n\
        subs 257 888 1\n\
        end 257 1 0 1 0 0 0 3240000000\npcr 8176 898000\nover 0 6\n";
    assert_prints(&rt, &SURVEY, &stream, want);
}
