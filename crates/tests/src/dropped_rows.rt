//! A receiver that drops damaged rows, with each single wrong bit in the first page transmission of
//! a subtitle.
ghost use Rattle.std.specs.Prelude.{◌<◌};

use crate::asserting::{assert_same, assert_same_for_case};
use crate::receivers::old_page;
use fixtures::{CLOSING, HEADER, ROW};
use std::process::Abort;
use ttx_packet::{Packet, PageId};
use ttx_page::{DropRow, Page};

// The codes of row 22 with the text `Hi`.
#[rattlefmt::skip]
const CODES: [u8; 40] = [
    0x20, 0x20, 0x20, 0x20, 0x20, 0x20, 0x20, 0x20, 0x20, 0x20, 0x20, 0x20, 0x20, 0x20, 0x20, 0x20,
    0x0D, 0x0B, 0x0B, 0x48, 0x69, 0x0A, 0x0A,
    0x20, 0x20, 0x20, 0x20, 0x20, 0x20, 0x20, 0x20, 0x20, 0x20, 0x20, 0x20, 0x20, 0x20, 0x20, 0x20,
    0x20,
];

// Returns the page after the first page transmission for `Hi` was received without wrong bits.
fn shown_page() -> Page {
    let mut page = Page::blank();
    page.set_row(22, &CODES);
    page
}

// Returns the packets of the first page transmission for `Hi`, with wrong bits in one byte.
fn sending(number: usize, place: usize, bits: u8) -> [Packet; 3]
    requires number { number < 3 }
    requires place { place < 42 }
{
    let mut bytes = [HEADER, ROW, CLOSING];
    bytes[number][place] ^= bits;
    [
        Packet::new(bytes[0]),
        Packet::new(bytes[1]),
        Packet::new(bytes[2]),
    ]
}

// Asserts the page of a receiver after a page transmission with wrong bits in one byte, and that
// the row is right again after the next page transmission.
fn assert_drops(rt: &impl Abort, number: usize, place: usize, bits: u8)
    requires number { number < 3 }
    requires place { place < 42 }
{
    let page_id = PageId::parse("888").expect(rt, "page 888");
    let whole = shown_page();
    let mut receiver = DropRow::tune(page_id, old_page());
    receiver.hear_all(&sending(number, place, bits));
    let is_text = number == 1 && place >= 2;
    let want = if is_text { Page::blank() } else { whole };
    assert_same_for_case(rt, receiver.page(), &want, &[number, place]);
    receiver.hear_all(&sending(0, 0, 0));
    assert_same(rt, receiver.page(), &whole);
}

#[test]
fn drops_the_row_at_each_wrong_bit_of_its_text(rt: HostRuntime) {
    for number in 0..3 {
        for place in 0..42 {
            for bits in [1, 2, 4, 8, 0x10, 0x20, 0x40, 0x80] {
                assert_drops(&rt, number, place, bits);
            }
        }
    }
}

#[test]
fn keeps_what_the_row_had(rt: HostRuntime) {
    let page_id = PageId::parse("888").expect(&rt, "page 888");
    let mut receiver = DropRow::tune(page_id, old_page());
    assert!(rt; receiver.watched() == page_id && !receiver.heard() && !receiver.is_page_open());
    // The row is sent again with another code of odd parity in byte 20 and even parity in byte 21,
    // so the receiver drops it.
    let mut row = ROW;
    (row[20], row[21]) = (0xE9, 0x41);
    receiver.hear_all(&[Packet::new(HEADER), Packet::new(ROW), Packet::new(row)]);
    assert!(rt; receiver.heard() && receiver.is_page_open() && *receiver.page() == shown_page());
}
