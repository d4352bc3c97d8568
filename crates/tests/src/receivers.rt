//! The states of receivers of the types `Keep` and `Blank` after a few packets (EN 300 706).
use crate::asserting::{assert_same, assert_same_for_case};
use fixtures::packet_of;
use std::process::Abort;
use ttx_packet::{Packet, PageId};
use ttx_page::{Blank, Keep, PacketKind, Page, Receiver, hear_all, show_all};

// The following constants are the first ten bytes of packets. The other 32 bytes are spaces.

// A header of page 888 with C4, C6 and C7 set.
#[rattlefmt::skip]
const HEADER: [u8; 10] = [0x15, 0x15, 0xD0, 0xD0, 0x15, 0xD0, 0x15, 0xD0, 0x02, 0x15];
// A header of page 888 with C4 clear, and C6 and C7 set.
#[rattlefmt::skip]
const WITHOUT_C4: [u8; 10] = [0x15, 0x15, 0xD0, 0xD0, 0x15, 0x15, 0x15, 0xD0, 0x02, 0x15];
// A packet X/0 of magazine 8 whose page tens can't be decoded.
#[rattlefmt::skip]
const TENS_16: [u8; 10] = [0x15, 0x15, 0xD0, 0x16, 0x15, 0xD0, 0x15, 0xD0, 0x02, 0x15];
// The header of page 8FF, which ends other pages.
#[rattlefmt::skip]
const CLOSING: [u8; 10] = [0x15, 0x15, 0xEA, 0xEA, 0xEA, 0x2F, 0xEA, 0x5E, 0x15, 0x15];
// A header of page 188 with C11 clear.
#[rattlefmt::skip]
const PAGE_188: [u8; 10] = [0x02, 0x15, 0xD0, 0xD0, 0x15, 0xD0, 0x15, 0xD0, 0x02, 0x15];
// A header of page 188 with C11 set.
#[rattlefmt::skip]
const SERIAL_188: [u8; 10] = [0x02, 0x15, 0xD0, 0xD0, 0x15, 0xD0, 0x15, 0xD0, 0x02, 0x02];
// Row 22 of magazine 8: the letter A, and then byte 41, which has even parity.
#[rattlefmt::skip]
const ROW_22: [u8; 10] = [0x15, 0x9B, 0xC1, 0x41, 0x20, 0x20, 0x20, 0x20, 0x20, 0x20];
// Row 22 of magazine 1: the letter A, and then byte 41, which has even parity.
#[rattlefmt::skip]
const ROW_122: [u8; 10] = [0x02, 0x9B, 0xC1, 0x41, 0x20, 0x20, 0x20, 0x20, 0x20, 0x20];
// A packet whose address bytes can't be decoded.
const NO_ADDRESS: [u8; 10] = [0x16; 10];

fn packet(start: [u8; 10]) -> Packet {
    Packet::new(packet_of(&start))
}

fn packets(starts: &[[u8; 10]; 3]) -> [Packet; 3] {
    [packet(starts[0]), packet(starts[1]), packet(starts[2])]
}

/// Returns the page of a receiver before it is tuned: code 3F, a question mark, in every cell.
pub(crate) fn old_page() -> Page {
    let mut page = Page::blank();
    for row in 1..25u8 {
        page.set_row(row, &[0x3F; 40]);
    }
    page
}

// Asserts the state of a receiver, which started with the old page, after three packets: whether a
// header was received, whether the page is open, and the codes of cells 0 and 1 in row 22.
fn assert_becomes<R: Receiver + Drop>(
    rt: &impl Abort,
    starts: &[[u8; 10]; 3],
    heard_and_open: [bool; 2],
    cells: [u8; 2],
) {
    let page_id = PageId::parse("888").expect(rt, "page 888");
    let mut receiver = R::tune(page_id, old_page());
    hear_all(&mut receiver, &packets(starts));
    assert_same_for_case(
        rt,
        &[receiver.heard(), receiver.is_page_open()],
        &heard_and_open,
        starts,
    );
    let page = receiver.page();
    assert_same_for_case(rt, &[page.cell(22, 0), page.cell(22, 1)], &cells, starts);
}

// Asserts the states of both receivers after three packets: whether a header was received, whether
// the page is open, the code of cell 0 in row 22, and the codes of cell 1 for `Keep` and `Blank`.
fn assert_both_become(
    rt: &impl Abort,
    starts: &[[u8; 10]; 3],
    heard_and_open: [bool; 2],
    [first, kept, blanked]: [u8; 3],
) {
    assert_becomes::<Keep>(rt, starts, heard_and_open, [first, kept]);
    assert_becomes::<Blank>(rt, starts, heard_and_open, [first, blanked]);
}

#[rattlefmt::skip]
#[test]
fn blanks_at_c4_alone_and_stores_odd_bytes(rt: HostRuntime) {
    // A header with C4 set erases the old page, and a header with C4 clear does not.
    assert_both_become(&rt, &[HEADER, NO_ADDRESS, NO_ADDRESS], [true, true], [0x20, 0x20, 0x20]);
    assert_both_become(&rt, &[WITHOUT_C4, NO_ADDRESS, NO_ADDRESS], [true, true],
        [0x3F, 0x3F, 0x3F]);
    // Three cases: a row has a byte of even parity; no header was received before a row; a header
    // can't be decoded.
    assert_both_become(&rt, &[WITHOUT_C4, ROW_22, NO_ADDRESS], [true, true], [0x41, 0x3F, 0x20]);
    assert_both_become(&rt, &[ROW_22, NO_ADDRESS, NO_ADDRESS], [false, false], [0x3F, 0x3F, 0x3F]);
    assert_both_become(&rt, &[TENS_16, ROW_22, NO_ADDRESS], [false, false], [0x3F, 0x3F, 0x3F]);
}

#[rattlefmt::skip]
#[test]
fn ends_its_page_by_the_standard(rt: HostRuntime) {
    // A header of another page ends the page. A header of another magazine ends it only if C11 is
    // set.
    assert_both_become(&rt, &[HEADER, CLOSING, ROW_22], [true, false], [0x20, 0x20, 0x20]);
    assert_both_become(&rt, &[HEADER, SERIAL_188, ROW_22], [true, false], [0x20, 0x20, 0x20]);
    assert_both_become(&rt, &[HEADER, PAGE_188, ROW_22], [true, true], [0x41, 0x20, 0x20]);
    // A row of another magazine changes nothing.
    assert_both_become(&rt, &[HEADER, ROW_122, NO_ADDRESS], [true, true], [0x20, 0x20, 0x20]);
}

// Asserts the code of cell 0 in row 22 on a receiver's screen after three packets. The screen was
// empty before.
fn assert_shows(rt: &impl Abort, starts: &[[u8; 10]; 3], want: Option<u8>) {
    let page_id = PageId::parse("888").expect(rt, "page 888");
    let mut receiver = Keep::tune(page_id, old_page());
    let mut screen = None;
    show_all(&mut receiver, &mut screen, &packets(starts));
    let cell = match screen {
        Some(page) => Some(page.cell(22, 0)),
        None => None,
    };
    assert_same_for_case(rt, &cell, &want, starts);
}

#[test]
fn shows_a_page_when_another_page_ends_it(rt: HostRuntime) {
    assert_shows(&rt, &[HEADER, ROW_22, NO_ADDRESS], None);
    assert_shows(&rt, &[HEADER, ROW_22, CLOSING], Some(0x41));
    assert_shows(&rt, &[HEADER, ROW_22, SERIAL_188], Some(0x41));
    // At another header of its page, this receiver does not change its screen.
    assert_shows(&rt, &[HEADER, ROW_22, HEADER], None);
    assert_shows(&rt, &[HEADER, CLOSING, HEADER], Some(0x20));
}

// Asserts the kind of a packet for a receiver of page 888.
fn assert_code_is(rt: &impl Abort, start: [u8; 10], want: PacketKind) {
    let page_id = PageId::parse("888").expect(rt, "page 888");
    assert_same_for_case(rt, &PacketKind::of(page_id, &packet(start)), &want, &start);
}

#[test]
fn reports_what_a_packet_is(rt: HostRuntime) {
    assert_code_is(&rt, CLOSING, PacketKind::EndsPage);
    assert_code_is(&rt, SERIAL_188, PacketKind::EndsPage);
    assert_code_is(&rt, PAGE_188, PacketKind::Other);
    assert_code_is(&rt, ROW_22, PacketKind::Row(22));
    assert_code_is(&rt, ROW_122, PacketKind::Other);
    assert_code_is(&rt, NO_ADDRESS, PacketKind::Other);
    let header = packet(HEADER).header().expect(&rt, "a header");
    assert_code_is(&rt, HEADER, PacketKind::ThisPage(header));
    let page_id = PageId::parse("888").expect(&rt, "page 888");
    assert_same(&rt, &Keep::tune(page_id, Page::blank()).watched(), &page_id);
    let header_of_page_188 = packet(PAGE_188);
    let (_, header) = PacketKind::classify_with_header(page_id, &header_of_page_188);
    assert_same(&rt, &header, &header_of_page_188.header());
}
