//! The character sets that packets X/28 and M/29 name for a page (EN 300 706, Page Enhancement Data
//! Packets and Magazine Related Enhancement Data Packets).
ghost use Rattle.std.specs.Prelude.{◌≡◌, ◌<◌, ◌≤◌};
ghost use Rattle.ts_survey.specs.CharacterSets as specs;

use crate::text::Text;
use ttx_packet::{Packet, PageId, unham};

/// The number of indices of lines, each of which is printed at most once: packet 28 or 29,
/// designation 0 or 4, and 256 numbers, of which 129 are used: 128 character sets and an unreadable
/// one.
const LINE_INDEX_COUNT: usize = 1024;

/// The lines of character sets that were printed.
#[derive(Drop)]
pub struct CharacterSets {
    reported: [bool; LINE_INDEX_COUNT],
}

// Returns the 18 data bits of three Hamming 24/18 bytes (EN 300 706, 8.3), with one wrong bit
// corrected. Returns `None` if the bytes cannot be corrected.
fn triplet(first: u8, second: u8, third: u8) -> Option<u32>
    ensures { result ≡ specs.triplet first second third }
{
    corrected_data_bits(first as u32 + second as u32 * 0x100 + third as u32 * 0x1_0000)
}

// Returns the data bits of a Hamming 24/18 word of 24 bits, with one wrong bit corrected. Returns
// `None` if the word cannot be corrected.
fn corrected_data_bits(word: u32) -> Option<u32>
    ensures { result ≡ specs.corrected_data_bits word }
{
    let wrong = wrong_bit_position(word);
    if word.count_ones() % 2 == 1 {
        return if wrong == 0 {
            Some(data_bits(word))
        } else {
            None
        };
    }
    if wrong > 23 {
        return None;
    }
    Some(data_bits(with_bit_flipped(word, wrong)))
}

// Returns the place of a single wrong bit in a Hamming 24/18 word; 0 if the last bit or no bit is
// wrong.
fn wrong_bit_position(word: u32) -> u32
    ensures { result ≡ specs.wrong_bit_position word }
{
    digit_if_failed(word, 0x55_5555, 1)
        + digit_if_failed(word, 0x66_6666, 2)
        + digit_if_failed(word, 0x78_7878, 4)
        + digit_if_failed(word, 0x00_7F80, 8)
        + digit_if_failed(word, 0x7F_8000, 16)
}

// Returns `digit` if the Hamming 24/18 test of these bits fails, and otherwise 0.
fn digit_if_failed(word: u32, bits: u32, digit: u32) -> u32
    ensures value { result ≡ specs.digit_of_failed_test word bits digit }
    ensures range { result ≤ digit }
{
    if (word & bits).count_ones() % 2 == 1 {
        0
    } else {
        digit
    }
}

// Returns a word with the bit at a place flipped. Place 0 leaves the word unchanged.
fn with_bit_flipped(word: u32, place: u32) -> u32
    requires { place ≤ 23 }
    ensures { result ≡ specs.with_bit_flipped word place }
{
    if place == 0 {
        word
    } else {
        word ^ (1u32 << (place - 1))
    }
}

// Returns the data bits of a Hamming 24/18 word: those at the places 1 to 23 that are no powers of
// two.
fn data_bits(word: u32) -> u32
    ensures { result ≡ specs.data_bits word }
{
    word / 4 % 2 + word / 0x10 % 8 * 2 + word / 0x100 % 0x80 * 0x10 + word / 0x1_0000 % 0x80 * 0x800
}

// Returns the character set in the bits of triplet 1, or `Some(None)` if they cannot be decoded.
// Returns `None` for a packet 28 whose page function is not that of pages that are shown. In a
// packet 29 the page function does not matter.
fn set_from_triplet(number: u8, bits: Option<u32>) -> Option<Option<u32>>
    ensures { result ≡ specs.set_from_triplet number bits }
{
    match bits {
        None => Some(None),
        Some(bits) => {
            if number == 28 && bits % 0x10 != 0 {
                return None;
            }
            Some(Some(bits / 0x80 % 0x80))
        }
    }
}

// Returns the designation and the character set of a packet 29, or of a packet 28 if
// `is_requested_page` is set. Returns `None` for other packets, if the designation cannot be
// decoded or is neither 0 nor 4, and for a packet 28 whose page function is not that of pages that
// are shown.
fn set_of_packet(packet: &Packet, number: u8, is_requested_page: bool) -> Option<(u8, Option<u32>)>
    ensures { result ≡ specs.set_of_packet number is_requested_page packet.now }
{
    if number != 29 && (number != 28 || !is_requested_page) {
        return None;
    }
    let bytes = packet.bytes();
    let designation = unham(bytes[2])?;
    if designation != 0 && designation != 4 {
        return None;
    }
    let set = set_from_triplet(number, triplet(bytes[3], bytes[4], bytes[5]))?;
    Some((designation, set))
}

fn no_lines_reported() -> [bool; LINE_INDEX_COUNT] {
    [false; LINE_INDEX_COUNT]
}

// Returns the index of the line of a character set among all possible lines.
fn set_line_index(number: u8, designation: u8, set: Option<u32>) -> usize
    ensures value { result ≡ specs.set_line_index number designation set }
    ensures range { result < 1024 }
{
    let packet = if number == 28 { 0 } else { 512 };
    let designation_offset = if designation == 0 { 0 } else { 256 };
    match set {
        Some(set) => packet + designation_offset + (set % 0x80) as usize,
        None => packet + designation_offset + 0x80,
    }
}

// Prints the line of a character set.
fn report_set(number: u8, designation: u8, set: Option<u32>, pid: u16, text: &mut Text) {
    text.put(b"set");
    text.number(pid as u64);
    text.number(number as u64);
    text.number(designation as u64);
    end_set_line(set, text);
}

// Prints the region and option of a character set at the end of its line.
fn end_set_line(set: Option<u32>, text: &mut Text) {
    match set {
        Some(set) => {
            text.number((set / 8 % 0x10) as u64);
            text.number((set % 8) as u64);
            text.put(b"\n");
        }
        None => text.put(b" - -\n"),
    }
}

impl CharacterSets {
    /// Creates the state before the first line.
    pub fn new() -> CharacterSets {
        CharacterSets {
            reported: no_lines_reported(),
        }
    }

    /// Processes a packet of the page's magazine that has no header, or a header that cannot be
    /// decoded. `is_requested_page`: the last decoded header of the magazine is one of the page.
    pub fn hear(
        &mut self,
        packet: &Packet,
        number: u8,
        is_requested_page: bool,
        page: PageId,
        pid: u16,
        text: &mut Text,
    ) {
        if let Some((designation, set)) = set_of_packet(packet, number, is_requested_page) {
            self.report(number, designation, set, page, pid, text);
        }
    }

    // Prints the line of a character set, unless it was printed before.
    fn report(
        &mut self,
        number: u8,
        designation: u8,
        set: Option<u32>,
        page: PageId,
        pid: u16,
        text: &mut Text,
    ) {
        let place = set_line_index(number, designation, set);
        let was_reported = self.reported[place];
        self.reported[place] = true;
        if !was_reported {
            text.begin_page(page);
            report_set(number, designation, set, pid, text);
        }
    }
}
