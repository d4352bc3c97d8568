//! The positions of all fields in a GSI block and a TTI block.

use super::files::sample_file;
use crate::asserting::{assert_same, assert_same_for_case};
use fixtures::put;
use std::process::Abort;
use stl_file::{Gsi, StlReader, Subtitle, TimeCode, Tti, five_digits_of};
use sub_io::MemSource;

// Returns field `number` of a GSI block. The fields with more than one byte and the bytes between
// fields are numbered in order.
fn field(gsi: &Gsi, number: usize) -> &[u8] {
    match number {
        0 => gsi.cpn(),
        1 => gsi.dfc(),
        2 => gsi.cct(),
        3 => gsi.lc(),
        4 => gsi.opt(),
        5 => gsi.oet(),
        6 => gsi.tpt(),
        7 => gsi.tet(),
        8 => gsi.tn(),
        9 => gsi.tcd(),
        10 => gsi.slr(),
        11 => gsi.cd(),
        12 => gsi.rd(),
        13 => gsi.rn(),
        14 => gsi.tnb(),
        15 => gsi.tns(),
        16 => gsi.tng(),
        17 => gsi.mnc(),
        18 => gsi.mnr(),
        19 => gsi.tcp(),
        20 => gsi.tcf(),
        21 => gsi.co(),
        22 => gsi.publisher(),
        23 => gsi.en(),
        24 => gsi.ecd(),
        25 => gsi.spare(),
        _ => gsi.uda(),
    }
}

// The position and the length in the GSI block of each field that `field` returns.
#[rattlefmt::skip]
const FIELDS: [[usize; 2]; 27] = [
    [0, 3], // CPN
    [3, 8], // DFC
    [12, 2], // CCT
    [14, 2], // LC
    [16, 32], // OPT
    [48, 32], // OET
    [80, 32], // TPT
    [112, 32], // TET
    [144, 32], // TN
    [176, 32], // TCD
    [208, 16], // SLR
    [224, 6], // CD
    [230, 6], // RD
    [236, 2], // RN
    [238, 5], // TNB
    [243, 5], // TNS
    [248, 3], // TNG
    [251, 2], // MNC
    [253, 2], // MNR
    [256, 8], // TCP
    [264, 8], // TCF
    [274, 3], // CO
    [277, 32], // PUB
    [309, 32], // EN
    [341, 32], // ECD
    [373, 75], // spare
    [448, 576], // UDA
];

#[test]
fn reads_each_gsi_field_at_its_place(rt: HostRuntime) {
    let mut bytes = [0; 1024];
    // Bytes that are less than 251 bytes apart differ, so a field read at a wrong position has
    // other bytes.
    for i in 0..1024 {
        bytes[i] = (i % 251) as u8;
    }
    let gsi = Gsi::read(&bytes);
    for (number, place) in FIELDS.iter().enumerate() {
        let (_, after) = bytes.split_at(place[0] % 1024);
        assert_same_for_case(&rt, &field(&gsi, number).len(), &place[1], &number);
        assert!(rt; after.starts_with(field(&gsi, number)), "field {number}");
    }
    // The bytes at 11, 255, 272 and 273: DSC, TCS, TND and DSN.
    let single = [gsi.dsc(), gsi.tcs(), gsi.tnd(), gsi.dsn()];
    assert_same(&rt, &single, &[11, 4, 21, 22]);
    assert!(rt; *gsi.bytes() == bytes);
}

#[test]
fn sets_the_counts_and_nothing_else(rt: HostRuntime) {
    let mut bytes = [b'x'; 1024];
    let mut gsi = Gsi::read(&bytes);
    gsi.set_counts(2, 99999);
    put(&mut bytes, 238, b"0000299999");
    assert!(rt; gsi.bytes().as_slice() == bytes.as_slice());
    assert!(rt; five_digits_of(1234) == *b"01234");
}

#[test]
fn reads_each_tti_field_at_its_place(rt: HostRuntime) {
    let mut bytes = [0; 128];
    for i in 0..128 {
        bytes[i] = i as u8;
    }
    let tti = Tti::of_bytes(&bytes);
    // The values of SGN, SN (low byte first), EBN, CS, VP, JC and CF.
    assert_same(
        &rt,
        &(tti.sgn(), tti.sn(), tti.ebn(), tti.cs()),
        &(0, 0x0201, 3, 4),
    );
    assert_same(&rt, &(tti.vp(), tti.jc(), tti.cf()), &(13, 14, 15));
    assert!(rt; tti.tci() == [5, 6, 7, 8] && tti.tco() == [9, 10, 11, 12]);
    assert!(rt; tti.tf().len() == 112 && tti.tf()[0] == 16);
    assert!(rt; tti.block_bytes().as_slice() == bytes.as_slice());
}

#[test]
fn counts_frames_of_the_day(rt: HostRuntime) {
    let last = TimeCode::new(23, 59, 59, 24).expect(&rt, "the last frame");
    assert_same(&rt, &last.frame(), &2_159_999);
    assert!(rt; last == TimeCode::of_frame(2_159_999) && last.to_bytes() == [23, 59, 59, 24]);
    assert!(rt; TimeCode::new(23, 59, 59, 25).is_none() && TimeCode::new(24, 0, 0, 0).is_none());
    assert!(rt; TimeCode::new(0, 60, 0, 0).is_none() && TimeCode::new(0, 0, 60, 0).is_none());
}

// Asserts whether a subtitle with these times, this row and justification, and this text is
// accepted.
fn assert_takes(rt: &impl Abort, times: [u32; 2], [vp, jc]: [u8; 2], text: &[u8], want: bool) {
    assert!(rt; times[0] < 2_160_000 && times[1] < 2_160_000);
    let (tci, tco) = (TimeCode::of_frame(times[0]), TimeCode::of_frame(times[1]));
    let is_taken = Subtitle::new(1, 2, tci, tco, vp, jc, text).is_some();
    assert_same_for_case(rt, &is_taken, &want, &[vp, jc]);
}

#[test]
fn takes_what_a_subtitle_can_be(rt: HostRuntime) {
    let long = [b'A'; 1009];
    let (text, _) = long.split_at(1008);
    assert_takes(&rt, [0, 1], [1, 0], &[], true);
    assert_takes(&rt, [5, 2_159_999], [23, 3], text, true);
    assert_takes(&rt, [0, 1], [20, 2], &long, false);
    assert_takes(&rt, [5, 5], [20, 2], b"A", false);
    assert_takes(&rt, [6, 5], [20, 2], b"A", false);
    assert_takes(&rt, [0, 1], [0, 2], b"A", false);
    assert_takes(&rt, [0, 1], [24, 2], b"A", false);
    assert_takes(&rt, [0, 1], [20, 4], b"A", false);
    // A text that contains unused space (8F) is not accepted.
    assert_takes(&rt, [0, 1], [20, 2], &[b'A', 0x8f], false);
}

// Asserts SGN, SN, VP, JC, TCI, TCO and the text of a subtitle.
fn assert_holds(
    rt: &impl Abort,
    subtitle: &Subtitle,
    (sgn, sn, vp, jc, tci, tco): (u8, u16, u8, u8, u32, u32),
    text: &[u8],
) {
    assert_same(rt, &(subtitle.sgn(), subtitle.sn()), &(sgn, sn));
    assert_same(rt, &(subtitle.vp(), subtitle.jc()), &(vp, jc));
    assert_same(
        rt,
        &(subtitle.tci().frame(), subtitle.tco().frame()),
        &(tci, tco),
    );
    assert!(rt; subtitle.text() == text);
}

#[test]
fn gives_the_fields_of_the_first_block_and_the_text_of_all(rt: HostRuntime) {
    let file = sample_file();
    let mut source = MemSource::new(&file);
    let mut reader = StlReader::open(&mut source).expect(&rt, "it is read");
    assert!(rt; reader.gsi().tnb() == b"99999".as_slice() && reader.block() == 0);
    let mut text = [b'A'; 224];
    text[112..].copy_from_slice(&[b'B'; 112]);
    match reader.next(&mut source) {
        Ok(Some(subtitle)) => assert_holds(&rt, &subtitle, (7, 0x0105, 20, 2, 25, 50), &text),
        _ => panic!(rt; "no subtitle"),
    }
    assert_same(&rt, &reader.block(), &4);
    let mut subtitle = Subtitle::empty();
    assert_holds(&rt, &subtitle, (0, 0, 1, 0, 0, 1), &[]);
    let next = reader.next_into(&mut source, &mut subtitle);
    assert_same(&rt, &(next, reader.block()), &(Ok(true), 5));
    assert_holds(&rt, &subtitle, (7, 0x0106, 1, 0, 50, 124), b"Hi");
    assert!(rt; matches!(reader.next(&mut source), Ok(None)));
    let end = reader.next_into(&mut source, &mut subtitle);
    assert_same(&rt, &end, &Ok(false));
}
