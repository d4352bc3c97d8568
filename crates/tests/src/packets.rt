//! Packets, page numbers, and codes that are not in the tables of libzvbi.
use crate::asserting::{assert_same, assert_same_for_case};
use bitflags::Flags;
use fixtures::{HEADER, packet_of};
use std::process::Abort;
use ttx_packet::{Control, Header, Packet, PageId, SentPacket, ham, is_odd, is_word, mirrored};

#[test]
fn makes_and_reads_a_header(rt: HostRuntime) {
    let control = Control::C4.union(Control::C6).union(Control::C7);
    let header = Header {
        page: 0x88,
        subcode: 0,
        control,
    };
    let packet = Packet::of_header(0, &header);
    assert_same(&rt, &*packet.bytes(), &HEADER);
    assert_same(&rt, &packet.data()[0], &0xD0);
    assert_same(&rt, &packet.mirrored(), &mirrored(&HEADER));
    assert_same(&rt, &mirrored(&HEADER)[3], &0x0B);
    let is_clean = [packet.is_clean_address(), packet.is_clean_header()];
    assert_same(&rt, &is_clean, &[true, true]);
    assert_same(&rt, &packet.address(), &Some((0, 0)));
    assert_same(
        &rt,
        &[packet.header(), packet.decoded_header()],
        &[Some(header); 2],
    );
}

// Asserts the address, the page and the header of a sent packet. Each is `None` if its code words
// have a wrong bit.
fn assert_header_is(
    rt: &impl Abort,
    sent: &[u8; 42],
    address: Option<(u8, u8)>,
    page: Option<u8>,
    header: Option<Header>,
) {
    let packet = SentPacket::new(sent);
    assert_same(
        rt,
        &(packet.exact_address(), packet.exact_page()),
        &(address, page),
    );
    assert_same(rt, &packet.exact_header(), &header);
}

#[test]
fn reads_a_header_as_it_is_sent(rt: HostRuntime) {
    let packet = Packet::new(HEADER);
    let mut sent = packet.mirrored();
    assert_same(&rt, &SentPacket::new(&sent).packet(), &packet);
    assert_header_is(&rt, &sent, Some((0, 0)), Some(0x88), packet.header());
    // Only a `Packet` corrects a wrong bit in the first address byte and in the last coded byte.
    sent[0] ^= 0x01;
    sent[9] ^= 0x80;
    assert_header_is(&rt, &sent, None, Some(0x88), None);
    assert_same(
        &rt,
        &SentPacket::new(&sent).packet().header(),
        &packet.header(),
    );
}

#[test]
fn reads_addresses(rt: HostRuntime) {
    // Two address bytes, and the magazine and packet number that they encode.
    for [low, high, magazine, number] in [
        [0x15, 0x8C, 0, 20],
        [0xD0, 0x8C, 0, 21],
        [0x15, 0x9B, 0, 22],
        [0x15, 0xB6, 0, 26],
        [0x02, 0x15, 1, 0],
    ] {
        let packet = Packet::new(packet_of(&[low, high]));
        assert_same_for_case(&rt, &packet.address(), &Some((magazine, number)), &number);
    }
    let wrong = Packet::new(packet_of(&[0x16, 0x15])); // two bits
    assert_same(&rt, &wrong.address(), &None);
}

#[test]
fn makes_and_reads_a_row(rt: HostRuntime) {
    let packet = Packet::of_row(0, 22, &[0x41; 40]);
    let sent = packet.bytes();
    assert!(rt; sent[0] == 0x15 && sent[1] == 0x9B && sent[2] == 0xC1 && sent[41] == 0xC1);
    assert_same(&rt, &packet.first_even_parity_column(), &None);
}

// Returns the first column with a byte of even parity, computed byte by byte.
fn plain_first_even(packet: &Packet) -> Option<u8> {
    for column in 0..40u8 {
        if !is_odd(packet.data()[column as usize]) {
            return Some(column);
        }
    }
    None
}

#[test]
fn finds_the_only_even_byte_at_each_place(rt: HostRuntime) {
    for column in 0..40u8 {
        let mut bytes = [0x20; 42];
        bytes[column as usize + 2] = 0xA0;
        let packet = Packet::new(bytes);
        assert_same(&rt, &packet.first_even_parity_column(), &Some(column));
        assert_same_for_case(
            &rt,
            &packet.first_even_parity_column(),
            &plain_first_even(&packet),
            &column,
        );
    }
    // Bytes of even parity in the address of a packet are not part of its text.
    let packet = Packet::new([0x20; 42]);
    assert_same(
        &rt,
        &packet.first_even_parity_column(),
        &plain_first_even(&packet),
    );
}

#[test]
fn codes_hamming_8_4(rt: HostRuntime) {
    assert!(rt; ham(8) == 0xD0 && is_word(0xD0) && !is_word(0xD1));
}

// Asserts the magazine and the page number for a text.
fn assert_names(rt: &impl Abort, text: &str, magazine: u8, page: u8) {
    let id = PageId::parse(text).expect(rt, "a page");
    assert_same_for_case(rt, &(id.magazine(), id.page()), &(magazine, page), &text);
}

#[test]
fn reads_page_numbers(rt: HostRuntime) {
    assert_names(&rt, "18a", 1, 0x8A);
    assert_names(&rt, "888", 0, 0x88); // magazine 8 is sent as 0
    // Invalid texts: magazines 0 and 9; a page that can't be displayed; and texts that are too
    // short or too long, or contain other characters than digits.
    for text in ["088", "988", "8FF", "88", "8G8", "8888"] {
        assert_same_for_case(&rt, &PageId::parse(text).is_err(), &true, &text);
    }
}
