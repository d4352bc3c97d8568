//! Sections of tables, and the contents of the sections of a PAT and of a PMT (ISO/IEC 13818-1,
//! 2.4.4).
ghost use Rattle.std.specs.Prelude.{◌≡◌, ◌≤◌, ◌<◌, ◌+◌, length, IfSome};
ghost use Rattle.ts_survey.specs.Section.{crc_after_byte, crc_of, crc_after_bit, descriptor_at};
ghost use Rattle.ts_survey.specs.Section.{length_at};
ghost use Rattle.ts_survey.specs.Section.{section_name_of, number_at, page_at, pid_at, pmt_pid_at};
ghost use Rattle.ts_survey.specs.Section.{is_current, lists_teletext_pages, programme_of};
ghost use Rattle.ts_survey.specs.Section.{section_size};
ghost use Rattle.ts_survey.specs.Section.{stream_at};

/// The number of bytes before the first entry of a PAT section, and before the descriptors of a PMT
/// section.
const PAT_HEADER_SIZE: usize = 8;

const PMT_HEADER_SIZE: usize = 12;

/// The number of bytes of a CRC_32.
const CRC_SIZE: usize = 4;

/// Returns the size in bytes of the section at the front of the bytes, from its section_length, 3
/// to 4098. Returns `None` if fewer than three bytes are available.
pub fn section_size(bytes: &[u8]) -> Option<usize>
    ensures value { result ≡ section_size bytes.now }
    ensures range { IfSome result (λ size. (3 ≤ size) × (size ≤ 4098)) }
    ensures is_long_enough { IfSome result (λ _. 3 ≤ length bytes.now) }
{
    if bytes.len() < 3 {
        return None;
    }
    Some(3 + length_at(bytes, 1))
}

// Returns the 12-bit length at an offset.
fn length_at(bytes: &[u8], place: usize) -> usize
    requires { place + 2 ≤ length bytes.now }
    ensures value { result ≡ length_at bytes.now place }
    ensures range { result < 4096 }
{
    (bytes[place] % 0x10) as usize * 0x100 + bytes[place + 1] as usize
}

// Returns the PID, 13 bits, at an offset.
fn pid_at(bytes: &[u8], place: usize) -> u16
    requires { place + 2 ≤ length bytes.now }
    ensures value { result ≡ pid_at bytes.now place }
    ensures range { result < 8192 }
{
    (bytes[place] % 0x20) as u16 * 0x100 + bytes[place + 1] as u16
}

// Returns the 16-bit number at an offset.
fn number_at(bytes: &[u8], place: usize) -> u16
    requires { place + 2 ≤ length bytes.now }
    ensures { result ≡ number_at bytes.now place }
{
    bytes[place] as u16 * 0x100 + bytes[place + 1] as u16
}

/// Returns the CRC_32 of bytes (ISO/IEC 13818-1, annex A). The CRC_32 of a correct section is 0.
pub fn crc_of(bytes: &[u8]) -> u32
    ensures { result ≡ crc_of bytes.now }
{
    bytes
        .iter()
        .fold(0xFFFF_FFFF, |crc, byte| crc_after_byte(crc, *byte))
}

// Returns the CRC_32 after one more byte.
#[tactic(auto, unfolding(crate::specs::Section::crc_after_byte))]
fn crc_after_byte(crc: u32, byte: u8) -> u32
    ensures { result ≡ crc_after_byte crc byte }
{
    let crc_after_four_bits = crc_after_bit(crc_after_bit(crc_after_bit(crc_after_bit(
        crc ^ (byte as u32 * 0x100_0000),
    ))));
    crc_after_bit(crc_after_bit(crc_after_bit(crc_after_bit(crc_after_four_bits))))
}

// Returns the CRC_32 after one more bit.
#[tactic(auto, unfolding(crate::specs::Section::crc_after_bit))]
fn crc_after_bit(crc: u32) -> u32
    ensures { result ≡ crc_after_bit crc }
{
    if crc >= 0x8000_0000 {
        (2 * (crc - 0x8000_0000)) ^ 0x04C1_1DB7
    } else {
        2 * crc
    }
}

/// The name of a section, which distinguishes it from other sections: table_id, the number in bytes
/// 3 and 4 (program_number in a PMT), and section_number. A new version of a section has another
/// CRC_32.
#[derive(Clone, Copy, PartialEq, Eq)]
pub struct SectionName {
    pub table: u8,
    pub number: u16,
    pub section: u8,
}

/// Returns the name of a section, or `None` if the section is shorter than 12 bytes.
pub fn section_name_of(section: &[u8]) -> Option<SectionName>
    ensures value { result ≡ section_name_of section.now }
    ensures is_long_enough { IfSome result (λ _. 12 ≤ length section.now) }
{
    if section.len() < PAT_HEADER_SIZE + CRC_SIZE {
        return None;
    }
    Some(SectionName {
        table: section[0],
        number: number_at(section, 3),
        section: section[6],
    })
}

/// Returns current_next_indicator of a section: whether the section applies now, and is not only
/// the next one to apply. Returns false if the section is shorter than six bytes.
pub fn is_current(section: &[u8]) -> bool
    ensures { result ≡ is_current section.now }
{
    section.len() >= 6 && section[5] % 2 == 1
}

/// Returns the PID of the PMT at an offset of a PAT section, 8 and then each fourth byte. Returns
/// `None` after the last entry, and `NULL_PID` if the entry is a network instead of a programme.
pub fn pmt_pid_at(section: &[u8], place: usize) -> Option<u16>
    requires { place < 4096 }
    ensures value { result ≡ pmt_pid_at section.now place }
    ensures range { IfSome result (λ pid. pid < 8192) }
{
    if section.len() < place + 4 + CRC_SIZE {
        return None;
    }
    if number_at(section, place) == 0 {
        return Some(0x1FFF);
    }
    Some(pid_at(section, place + 2))
}

/// The offset of the first entry of a PAT section.
pub const FIRST_PMT: usize = PAT_HEADER_SIZE;

/// The programme of a PMT section: program_number, PCR_PID, and the offset of its first stream.
#[derive(Clone, Copy)]
pub struct Programme {
    pub number: u16,
    pub clock_pid: u16,
    pub first: usize,
}

/// Returns the programme of a PMT section, or `None` if the section is too short.
pub fn programme_of(section: &[u8]) -> Option<Programme>
    ensures value { result ≡ programme_of section.now }
    ensures range { IfSome result (λ p. (p.clock_pid < 8192) × (p.first < 4200)) }
{
    if section.len() < PMT_HEADER_SIZE + CRC_SIZE {
        return None;
    }
    Some(Programme {
        number: number_at(section, 3),
        clock_pid: pid_at(section, 8),
        first: PMT_HEADER_SIZE + length_at(section, 10),
    })
}

/// A stream of a PMT: stream_type, elementary_PID, and the offsets at which its descriptors begin
/// and end.
#[derive(Clone, Copy)]
pub struct Stream {
    pub kind: u8,
    pub pid: u16,
    pub first: usize,
    pub end: usize,
}

/// Returns the stream at an offset of a PMT section, or `None` after the last stream.
pub fn stream_at(section: &[u8], place: usize) -> Option<Stream>
    requires { place < 0x1_0000 }
    ensures value { result ≡ stream_at section.now place }
    ensures range { IfSome result (λ s. (s.pid < 8192) × (s.first ≡ place + 5)
        × (s.first ≤ s.end) × (s.end < place + 5 + 4096)) }
{
    if section.len() < place + 5 + CRC_SIZE {
        return None;
    }
    let first = place + 5;
    Some(Stream {
        kind: section[place],
        pid: pid_at(section, place + 1),
        first,
        end: first + length_at(section, place + 3),
    })
}

/// A descriptor: descriptor_tag, and the offsets at which its contents begin and end.
#[derive(Clone, Copy)]
pub struct Descriptor {
    pub tag: u8,
    pub first: usize,
    pub end: usize,
}

/// Returns the descriptor at an offset of bytes, cut off at `end` or at the end of the bytes.
/// Returns `None` if fewer than two bytes are left there.
pub fn descriptor_at(bytes: &[u8], place: usize, end: usize) -> Option<Descriptor>
    requires { place < 0x1_0000 }
    ensures value { result ≡ descriptor_at bytes.now place end }
    ensures range { IfSome result (λ d. (d.first ≡ place + 2) × (d.first ≤ d.end)
        × (d.end ≤ length bytes.now) × (d.end < place + 2 + 256)) }
{
    let end = end.min(bytes.len());
    if end < place + 2 {
        return None;
    }
    let first = place + 2;
    Some(Descriptor {
        tag: bytes[place],
        first,
        end: (first + bytes[place + 1] as usize).min(end),
    })
}

/// Returns whether a descriptor lists Teletext pages: VBI_teletext_descriptor, teletext_descriptor
/// (ETSI EN 300 468).
pub fn names_pages(descriptor: &Descriptor) -> bool
    ensures { result ≡ lists_teletext_pages descriptor.now }
{
    descriptor.tag == 0x46 || descriptor.tag == 0x56
}

/// A Teletext page in a descriptor: ISO_639_language_code, teletext_type, teletext_magazine_number
/// and teletext_page_number.
#[derive(Clone, Copy)]
pub struct Announced {
    pub language: [u8; 3],
    pub kind: u8,
    pub magazine: u8,
    pub page: u8,
}

/// Returns the Teletext page at an offset of bytes, up to `end`, or `None` after the last page.
pub fn page_at(bytes: &[u8], place: usize, end: usize) -> Option<Announced>
    requires place { place < 0x1_0000 }
    requires end { end ≤ length bytes.now }
    ensures value { result ≡ page_at bytes.now place end }
    ensures range { IfSome result (λ a. (a.magazine < 8) × (a.kind < 32)) }
{
    if end < place + 5 {
        return None;
    }
    Some(Announced {
        language: [bytes[place], bytes[place + 1], bytes[place + 2]],
        kind: bytes[place + 3] / 8,
        magazine: bytes[place + 3] % 8,
        page: bytes[place + 4],
    })
}
