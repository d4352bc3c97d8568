//! Teletext packets in the bit order of DVB data units, decoded without reversing all their bits.
ghost use Rattle.std.specs.Prelude.{◌≡◌, ◌≢◌, ◌<◌, ◌≤◌, MatchOption, Some, map};
ghost use Rattle.ttx_packet.specs.BitOrder.{mirror};
ghost use Rattle.ttx_packet.specs.Hamming84.{IsCodeWord, decoded_nibble};
ghost use Rattle.ttx_packet.specs.PacketAddress.{HasExactAddress, address};

use crate::bit_order::mirrored;
use crate::header::Header;
use crate::packet::{Packet, header_from_numbers};
use std::marker::Model;

/// The table entry of a byte that is no code word. 256 is greater than any number that two code
/// words can form.
const NO_CODE_WORD: u32 = 256;

/// The number that each byte encodes as a Hamming 8/4 code word, if the bit that is sent first is
/// the highest bit of the byte; `NO_CODE_WORD` if the byte is no code word. The table was generated
/// from the code words; the proof compares it with the definition for all 256 bytes.
#[rattlefmt::skip]
const SENT_WORDS: [u16; 256] = [
    256, 256, 256, 256, 256, 256, 256, 256, 256, 256, 256,   8, 256, 256, 256, 256,
    256, 256, 256, 256, 256, 256, 256, 256, 256, 256, 256, 256,   6, 256, 256, 256,
    256, 256, 256, 256, 256, 256,   4, 256, 256, 256, 256, 256, 256, 256, 256, 256,
    256,  10, 256, 256, 256, 256, 256, 256, 256, 256, 256, 256, 256, 256, 256, 256,
      1, 256, 256, 256, 256, 256, 256, 256, 256, 256, 256, 256, 256, 256, 256, 256,
    256, 256, 256, 256, 256, 256, 256,  15, 256, 256, 256, 256, 256, 256, 256, 256,
    256, 256, 256, 256, 256, 256, 256, 256, 256, 256, 256, 256, 256,  13, 256, 256,
    256, 256, 256, 256, 256, 256, 256, 256, 256, 256,   3, 256, 256, 256, 256, 256,
    256, 256, 256, 256, 256,  12, 256, 256, 256, 256, 256, 256, 256, 256, 256, 256,
    256, 256,   2, 256, 256, 256, 256, 256, 256, 256, 256, 256, 256, 256, 256, 256,
    256, 256, 256, 256, 256, 256, 256, 256,   0, 256, 256, 256, 256, 256, 256, 256,
    256, 256, 256, 256, 256, 256, 256, 256, 256, 256, 256, 256, 256, 256, 256,  14,
    256, 256, 256, 256, 256, 256, 256, 256, 256, 256, 256, 256, 256, 256,   5, 256,
    256, 256, 256, 256, 256, 256, 256, 256, 256,  11, 256, 256, 256, 256, 256, 256,
    256, 256, 256,   9, 256, 256, 256, 256, 256, 256, 256, 256, 256, 256, 256, 256,
    256, 256, 256, 256,   7, 256, 256, 256, 256, 256, 256, 256, 256, 256, 256, 256,
];

// Returns the number that a byte encodes, or `NO_CODE_WORD` if it is no code word. The bit that is
// sent first is the highest bit of the byte.
#[inline(always)]
fn look_up_sent_byte(byte: u8) -> u32
    ensures small { result ≤ 256 }
    ensures none { result ≡ 256 → IsCodeWord (mirror byte) → ⊥ }
    ensures word { result ≢ 256 → (result < 16) × IsCodeWord (mirror byte)
        × (decoded_nibble (mirror byte) ≡ Some result) }
{
    SENT_WORDS[byte as usize] as u32
}

// Returns the number that a byte encodes, or `None` if it is no code word. The bit that is sent
// first is the highest bit of the byte.
#[inline(always)]
fn decode_sent_byte(byte: u8) -> Option<u8>
    ensures { MatchOption result (IsCodeWord (mirror byte) → ⊥)
        (λ n. (n < 16) × IsCodeWord (mirror byte) × (decoded_nibble (mirror byte) ≡ Some n)) }
{
    let number = look_up_sent_byte(byte);
    if number == NO_CODE_WORD {
        None
    } else {
        Some(number as u8)
    }
}

/// A Teletext packet as a DVB data unit carries it: 42 borrowed bytes. The bit that is sent first
/// is the highest bit of a byte (EN 300 472, data field syntax).
///
/// Its model is the packet in Teletext bit order. Most packets of a service belong to other pages,
/// which their first bytes show. So the methods other than `packet` decode only the first bytes, by
/// a table, and do not reverse the bits of the other bytes.
#[derive(Drop)]
pub struct SentPacket<'a> {
    bytes: &'a [u8; 42],
}

impl<'a> Model for SentPacket<'a> {
    ghost use Rattle.std.specs.Prelude.{◌≡◌, ℕ, List, length, map};
    ghost use Rattle.ttx_packet.specs.BitOrder.{mirror};

    ghost Value = { List ℕ };

    ghost view = { λ p. map mirror p.bytes.now };

    ghost invariant = { λ p. length p.bytes.now ≡ 42 };
}

impl<'a> SentPacket<'a> {
    ghost use Rattle.ttx_packet.specs.PageHeader.{HasExactHeader, HasExactPage, decoded_header};
    ghost use Rattle.ttx_packet.specs.PageHeader.{decoded_page};
    ghost use Rattle.ttx_packet.specs.declared.header.Header.{Header};

    /// Creates the packet from the 42 bytes of a data unit.
    #[inline(always)]
    pub fn new(bytes: &'a [u8; 42]) -> Self
        ensures { result ≡ map mirror bytes.now }
    {
        SentPacket { bytes }
    }

    /// Returns the packet in Teletext bit order, by reversing the bits of each byte.
    #[inline(always)]
    pub fn packet(&self) -> Packet
        ensures { result ≡ self.now }
    {
        Packet::new(mirrored(self.bytes))
    }

    /// Returns the magazine, 0 to 7, and the packet number Y, 0 to 31, if both address bytes are
    /// code words (EN 300 706, magazine and packet address). Magazine 0 means magazine 8.
    ///
    /// Returns `None` if an address byte is no code word.
    #[inline(always)]
    #[tactic(auto, unfolding(crate::specs::PacketAddress::address))]
    pub fn exact_address(&self) -> Option<(u8, u8)>
        ensures { MatchOption result (HasExactAddress self.now → ⊥)
            (λ a. HasExactAddress self.now × (address self.now
            ≡ Some (record { magazine = a.0; packet_number = a.1 }))) }
    {
        // For speed, one comparison tests both bytes: this code runs for every packet of a service.
        let low = look_up_sent_byte(self.bytes[0]);
        let high = look_up_sent_byte(self.bytes[1]);
        let number = low + 16 * high;
        if number >= NO_CODE_WORD {
            None
        } else {
            Some((number as u8 % 8, number as u8 / 8))
        }
    }

    /// Returns the page number of a page header, with the page tens in the upper four bits, if both
    /// of its bytes are code words (EN 300 706, page header). Ignores the address and the other six
    /// coded bytes, which are not needed to recognise a header of another page.
    ///
    /// Returns `None` if one of the two bytes is no code word.
    #[inline(always)]
    pub fn exact_page(&self) -> Option<u8>
        ensures { MatchOption result (HasExactPage self.now → ⊥)
            (λ page. HasExactPage self.now × (decoded_page self.now ≡ Some page)) }
    {
        let units = decode_sent_byte(self.bytes[2])?;
        let tens = decode_sent_byte(self.bytes[3])?;
        Some(units + 0x10 * tens)
    }

    /// Decodes the eight coded bytes of a page header if all are code words (EN 300 706, page
    /// header). Ignores the address.
    ///
    /// Returns `None` if one of the eight bytes is no code word.
    #[inline(always)]
    #[tactic(auto, unfolding(crate::specs::PageHeader::decoded_header))]
    pub fn exact_header(&self) -> Option<Header>
        ensures { MatchOption result (HasExactHeader self.now → ⊥)
            (λ h. HasExactHeader self.now × (decoded_header self.now ≡ Some h)) }
    {
        let units = decode_sent_byte(self.bytes[2])?;
        let tens = decode_sent_byte(self.bytes[3])?;
        let s1 = decode_sent_byte(self.bytes[4])?;
        let s2_c4 = decode_sent_byte(self.bytes[5])?;
        let s3 = decode_sent_byte(self.bytes[6])?;
        let s4_c6 = decode_sent_byte(self.bytes[7])?;
        let c7_c10 = decode_sent_byte(self.bytes[8])?;
        let c11_c14 = decode_sent_byte(self.bytes[9])?;
        Some(header_from_numbers(&[units, tens, s1, s2_c4, s3, s4_c6, c7_c10, c11_c14]))
    }
}
