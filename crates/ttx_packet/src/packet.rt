//! Teletext packets of 42 bytes: address, header and text.
ghost use Rattle.std.specs.Prelude.{◌≡◌, ◌+◌, ◌*◌, ◌/◌, ◌%◌, ◌≤◌, ◌<◌, ◌↔◌, ℕ, IfSome, IsNone};
ghost use Rattle.std.specs.Prelude.{IsTrue};
ghost use Rattle.std.specs.Prelude.{drop, map, option_map, slice_index};
ghost use Rattle.ttx_packet.specs.BitOrder.{mirror};
ghost use Rattle.ttx_packet.specs.PacketAddress.{HasExactAddress, IsPacket, address, address_pair};
ghost use Rattle.ttx_packet.specs.Hamming84.{code_word};
ghost use Rattle.ttx_packet.specs.Laws.{IsEncodedHeader, IsEncodedRow};
ghost use Rattle.ttx_packet.specs.PageHeader.{bit, header_packet, is_flag_set, nibble};
ghost use Rattle.ttx_packet.specs.PageHeader.{encodable_header};
ghost use Rattle.ttx_packet.specs.RowPacket.{HasOddParityText, first_even_parity_column};
ghost use Rattle.ttx_packet.specs.RowPacket.{row_packet};

use crate::bit_order::mirrored;
use crate::control::Control;
use crate::hamming::{ham, is_word, unham};
use crate::header::Header;
use crate::parity::lanes::find_even_parity_bytes;
use crate::parity::{is_odd, odd_parity_bytes};
use bitflags::Flags;
use std::marker::Model;

/// A Teletext packet (EN 300 706): two address bytes and 40 data bytes, without clock run-in and
/// framing code. Bit 1 is the least significant bit of a byte.
#[derive(Clone, Copy, Debug, PartialEq, Eq)]
pub struct Packet {
    bytes: [u8; 42],
}

impl Model for Packet {
    ghost use Rattle.std.specs.Prelude.{ℕ, List};
    ghost use Rattle.ttx_packet.specs.PacketAddress.{IsPacket};

    ghost Value = { List ℕ };

    ghost view = { λ p. p.bytes };

    ghost invariant = { λ p. IsPacket p.bytes };

    ghost inverse = { λ bytes. record { bytes = bytes } };
}

impl Packet {
    ghost use Rattle.ttx_packet.specs.PageHeader.{HasExactHeader, decoded_header, header};
    ghost use Rattle.ttx_packet.specs.PageHeader.{header_packet, encodable_header};

    /// Creates a packet from its 42 bytes, which may have any value.
    pub fn new(bytes: [u8; 42]) -> Packet
        ensures { result ≡ bytes }
    {
        Packet { bytes }
    }

    /// Returns the 42 bytes of the packet.
    pub fn bytes(&self) -> &[u8; 42]
        ensures value { result.now ≡ self.now }
        ensures whole { IsPacket self.now }
    {
        &self.bytes
    }

    /// Returns the 40 data bytes, which follow the address. In a row packet, each data byte is the
    /// text byte of one column.
    pub fn data(&self) -> &[u8; 40]
        ensures { result.now ≡ drop 2 self.now }
    {
        self.bytes.last_chunk().unwrap()
    }

    /// Returns the 42 bytes of the packet as a DVB data unit carries them, with the bits of each
    /// byte reversed (EN 300 472, data field syntax).
    pub fn mirrored(&self) -> [u8; 42]
        ensures { result ≡ map mirror self.now }
    {
        mirrored(&self.bytes)
    }

    /// Returns the magazine, 0 to 7, and the packet number Y, 0 to 31, with single wrong bits
    /// corrected (EN 300 706, magazine and packet address). Magazine 0 means magazine 8.
    ///
    /// Returns `None` if an address byte cannot be decoded.
    #[tactic(auto, unfolding(crate::specs::PacketAddress::address))]
    pub fn address(&self) -> Option<(u8, u8)>
        ensures value { result ≡ option_map address_pair (address self.now) }
        ensures small { IfSome result (λ a. (a.0 < 8) × (a.1 < 32)) }
    {
        let low = unham(self.bytes[0])?;
        let high = unham(self.bytes[1])?;
        let number = low + 16 * high;
        Some((number % 8, number / 8))
    }

    /// Returns the page header, with single wrong bits corrected (EN 300 706, page header).
    ///
    /// Returns `None` if the packet is no packet X/0, or if an address byte or one of the eight
    /// coded bytes cannot be decoded.
    #[tactic(auto, unfolding(crate::specs::PageHeader::header))]
    pub fn header(&self) -> Option<Header>
        ensures { result ≡ header self.now }
    {
        let (_, packet_number) = self.address()?;
        if packet_number != 0 {
            return None;
        }
        self.decoded_header()
    }

    /// Decodes the eight coded bytes of a page header. Ignores the address, which the caller has
    /// decoded already.
    ///
    /// Returns `None` if one of the eight bytes cannot be decoded.
    #[inline(always)]
    #[tactic(auto, unfolding(crate::specs::PageHeader::decoded_header))]
    pub fn decoded_header(&self) -> Option<Header>
        ensures { result ≡ decoded_header self.now }
    {
        let units = unham(self.bytes[2])?;
        let tens = unham(self.bytes[3])?;
        let s1 = unham(self.bytes[4])?;
        let s2_c4 = unham(self.bytes[5])?;
        let s3 = unham(self.bytes[6])?;
        let s4_c6 = unham(self.bytes[7])?;
        let c7_c10 = unham(self.bytes[8])?;
        let c11_c14 = unham(self.bytes[9])?;
        Some(header_from_numbers(&[units, tens, s1, s2_c4, s3, s4_c6, c7_c10, c11_c14]))
    }

    /// Returns whether both address bytes are Hamming 8/4 code words (EN 300 706, 8.2).
    pub fn is_clean_address(&self) -> bool
        ensures { IsTrue result ↔ HasExactAddress self.now }
    {
        is_word(self.bytes[0]) && is_word(self.bytes[1])
    }

    /// Returns whether the eight coded bytes of a page header are Hamming 8/4 code words, so that
    /// decoding corrects no bit (EN 300 706, 8.2). Ignores the address.
    pub fn is_clean_header(&self) -> bool
        ensures { IsTrue result ↔ HasExactHeader self.now }
    {
        for place in 2..10usize {
            if !is_word(self.bytes[place]) {
                return false;
            }
        }
        true
    }

    /// Returns the column, 0 to 39, of the first data byte with even parity, or `None` if all data
    /// bytes have odd parity.
    pub fn first_even_parity_column(&self) -> Option<u8>
        ensures value { result ≡ first_even_parity_column self.now }
        ensures odd { IsNone result ↔ HasOddParityText self.now }
    {
        let (blocks, rest) = self.data().as_chunks::<16>();
        for (i, block) in blocks.iter().enumerate() {
            let mask = find_even_parity_bytes(block);
            if mask != 0 {
                return Some((16 * i + mask.trailing_zeros() as usize) as u8);
            }
        }
        for (j, byte) in rest.iter().enumerate() {
            if !is_odd(*byte) {
                return Some((32 + j) as u8);
            }
        }
        None
    }

    /// Creates the header packet of a page in a magazine, with 32 spaces as its text (EN 300 706,
    /// page header).
    ///
    /// `magazine` is 0 to 7. Bits that a page header cannot carry are dropped: sub-code bits
    /// outside `0x3F7F`, and all control bits except C4 to C14.
    pub fn of_header(magazine: u8, header: &Header) -> Packet
        requires { magazine < 8 }
        ensures value { result ≡ header_packet magazine header.now }
        // Decoding the packet returns the header without the dropped bits. The coded bytes are code
        // words, and the text bytes have odd parity.
        ensures made { IsEncodedHeader magazine (encodable_header header.now) result }
    {
        Packet::new(encode_header(magazine, header))
    }

    /// Creates a row of a page as packet X/1 to X/24, with 40 bytes of odd parity (EN 300 706,
    /// packets for direct display).
    ///
    /// `magazine` is 0 to 7, `row` is 1 to 24, and each code is below 128.
    pub fn of_row(magazine: u8, row: u8, codes: &[u8; 40]) -> Packet
        requires magazine { magazine < 8 }
        requires first { 1 ≤ row }
        requires last { row ≤ 24 }
        requires codes { (k : ℕ) → slice_index codes.now k < 0x80 }
        ensures value { result ≡ row_packet magazine row codes.now }
        // Decoding the packet returns the row number and the codes. The address bytes are code
        // words, and the text bytes have odd parity.
        ensures made { IsEncodedRow magazine row codes.now result }
    {
        Packet::new(encode_row(magazine, row, codes))
    }
}

// Builds a page header from the decoded numbers of its eight coded bytes.
#[inline(always)]
pub(crate) fn header_from_numbers(numbers: &[u8; 8]) -> Header
    requires { (k : ℕ) → slice_index numbers.now k < 16 }
    ensures page { result.page
        ≡ slice_index numbers.now 0 + 0x10 * slice_index numbers.now 1 }
    ensures subcode { result.subcode
        ≡ slice_index numbers.now 2
        + 0x10 * (slice_index numbers.now 3 % 8)
        + 0x100 * slice_index numbers.now 4
        + 0x1000 * (slice_index numbers.now 5 % 4) }
    ensures control { result.control.0
        ≡ slice_index numbers.now 3 / 8
        + 2 * (slice_index numbers.now 5 / 4)
        + 8 * slice_index numbers.now 6
        + 0x80 * slice_index numbers.now 7 }
{
    let s2_c4 = numbers[3];
    let s4_c6 = numbers[5];
    let subcode = u16::from(numbers[2])
        + 0x10 * u16::from(s2_c4 % 8)
        + 0x100 * u16::from(numbers[4])
        + 0x1000 * u16::from(s4_c6 % 4);
    let bits = u16::from(s2_c4 / 8)
        + 2 * u16::from(s4_c6 / 4)
        + 8 * u16::from(numbers[6])
        + 0x80 * u16::from(numbers[7]);
    Header {
        page: numbers[0] + 0x10 * numbers[1],
        subcode,
        control: Control::from_bits_retain(bits),
    }
}

// Returns a control bit as 0 or 1.
fn flag_bit(control: Control, flag: Control) -> u8
    ensures value { result ≡ bit (is_flag_set control flag.0) }
    ensures small { result < 2 }
{
    if control.contains(flag) { 1 } else { 0 }
}

// Returns the Hamming 8/4 code word with four control bits as its data bits D1 to D4.
fn encode_flags(control: Control, d1: Control, d2: Control, d3: Control, d4: Control) -> u8
    ensures { result ≡ code_word (nibble (is_flag_set control d1.0) (is_flag_set control d2.0)
        (is_flag_set control d3.0) (is_flag_set control d4.0)) }
{
    ham(
        flag_bit(control, d1)
            + 2 * flag_bit(control, d2)
            + 4 * flag_bit(control, d3)
            + 8 * flag_bit(control, d4),
    )
}

// Returns the 42 bytes of a header packet.
#[tactic(auto, unfolding(crate::specs::PageHeader::header_packet))]
fn encode_header(magazine: u8, header: &Header) -> [u8; 42]
    requires { magazine < 8 }
    ensures value { result ≡ header_packet magazine header.now }
    ensures made { IsEncodedHeader magazine (encodable_header header.now) result }
{
    let control = header.control;
    let subcode = header.subcode;
    let c4 = flag_bit(control, Control::C4);
    let c5 = flag_bit(control, Control::C5);
    let c6 = flag_bit(control, Control::C6);
    let mut bytes = [0x20; 42];
    bytes[0] = ham(magazine);
    bytes[1] = ham(0);
    bytes[2] = ham(header.page % 0x10);
    bytes[3] = ham(header.page / 0x10);
    bytes[4] = ham((subcode % 0x10) as u8);
    bytes[5] = ham((subcode / 0x10 % 8) as u8 + 8 * c4);
    bytes[6] = ham((subcode / 0x100 % 0x10) as u8);
    bytes[7] = ham((subcode / 0x1000 % 4) as u8 + 4 * c5 + 8 * c6);
    bytes[8] = encode_flags(control, Control::C7, Control::C8, Control::C9, Control::C10);
    bytes[9] = encode_flags(
        control,
        Control::C11,
        Control::C12,
        Control::C13,
        Control::C14,
    );
    bytes
}

// Returns the 42 bytes of a row packet.
fn encode_row(magazine: u8, row: u8, codes: &[u8; 40]) -> [u8; 42]
    requires magazine { magazine < 8 }
    requires first { 1 ≤ row }
    requires last { row ≤ 24 }
    requires codes { (k : ℕ) → slice_index codes.now k < 0x80 }
    ensures value { result ≡ row_packet magazine row codes.now }
    ensures made { IsEncodedRow magazine row codes.now result }
{
    let number = magazine + 8 * row;
    let mut bytes = [0; 42];
    bytes[0] = ham(number % 16);
    bytes[1] = ham(number / 16);
    bytes[2..].copy_from_slice(&odd_parity_bytes(codes));
    bytes
}
