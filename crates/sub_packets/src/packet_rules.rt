//! Tests for single packets, which the listener combines with its state.
ghost use Rattle.std.specs.Prelude.{◌≡◌, ◌&&◌, Bool, not, Option, is_some, option_map};
ghost use Rattle.std.specs.Option.{option_or};
ghost use Rattle.ttx_packet.specs.PacketAddress.{IsPacket, address};
ghost use Rattle.ttx_packet.specs.PageHeader.{c4, c11, header, is_flag_set};
ghost use Rattle.ttx_packet.specs.RowPacket.{first_even_parity_column};
ghost use Rattle.ttx_packet.specs.declared.header.Header.{Header};
ghost use Rattle.ttx_page.specs.Page.{AreCodes};
ghost use Rattle.ttx_page.specs.PacketKind.{begins_text};
ghost use Rattle.sub_packets.specs.Listener.{has_first_mode};
ghost use Rattle.sub_plan.specs.Sending.{national_bits};
ghost use Rattle.sub_rules.specs.PacketRules.{codes_of};
ghost use Rattle.sub_rules.specs.PacketTests.{are_code_words, is_enhancement_address};
ghost use Rattle.sub_rules.specs.PacketTests.{is_header_address};
ghost use Rattle.sub_rules.specs.PacketTests.{has_subtitle_bits, has_different_mode, is_same_bit};
ghost use Rattle.sub_rules.specs.PacketTests.{is_same_subcode};

use bitflags::Flags;
use stl_rows::{National, NationalBits};
use ttx_packet::{Control, Header, Packet, PageId};
use ttx_page::PacketKind;

// Returns whether the packet is a packet X/0.
fn is_header_packet(packet: &Packet) -> bool
    ensures { result ≡ is_header_address (address packet.now) }
{
    match packet.address() {
        None => false,
        Some((_, packet_number)) => packet_number == 0,
    }
}

/// Returns whether the packet is a packet X/0 with a coding error in its eight coded bytes.
/// `page_header` is the packet's page header.
#[tactic(auto, using(crate::proofs::PacketRuleLemmas::header_is_zero))]
pub(crate) fn has_wrong_codes(packet: &Packet, page_header: Option<Header>) -> bool
    requires { page_header ≡ header packet.now }
    ensures { result ≡ (is_header_address (address packet.now) && not
        (are_code_words 2 8 packet.now)) }
{
    match page_header {
        Some(_) => has_wrong_word(packet),
        None => is_header_packet(packet) && has_wrong_word(packet),
    }
}

/// Returns whether an address byte of the packet is no Hamming 8/4 code word.
pub(crate) fn has_wrong_address(packet: &Packet) -> bool
    ensures { result ≡ not (are_code_words 0 2 packet.now) }
{
    !packet.is_clean_address()
}

// Returns whether one of the eight coded bytes of a page header is no Hamming 8/4 code word.
fn has_wrong_word(packet: &Packet) -> bool
    ensures { result ≡ not (are_code_words 2 8 packet.now) }
{
    !packet.is_clean_header()
}

/// Returns C11 (magazine serial) of a page header.
pub(crate) fn is_serial(header: &Header) -> bool
    ensures { result ≡ c11 header.now }
{
    header.control.contains(Control::C11)
}

/// Returns whether the packet has a page header whose C11 differs from `serial`, that of the first
/// page header that could be decoded; `false` if `serial` is `None`.
pub(crate) fn has_different_mode(serial: Option<bool>, page_header: Option<Header>) -> bool
    ensures { result ≡ has_different_mode serial (option_map (λ (h : Header). c11 h) page_header) }
{
    match (page_header, serial) {
        (Some(header), Some(first)) => is_serial(&header) != first,
        _ => false,
    }
}

/// Returns C11 of the first page header that could be decoded, once one more packet was received,
/// whose page header is `page_header`; `None` if there is none.
pub(crate) fn first_serial(serial: Option<bool>, page_header: Option<Header>) -> Option<bool>
    ensures { result ≡ option_or serial (option_map (λ (h : Header). c11 h) page_header) }
{
    match serial {
        Some(first) => Some(first),
        None => match page_header {
            Some(header) => Some(is_serial(&header)),
            None => None,
        },
    }
}

/// Returns whether `control` has the control bit `flag`.
fn has_bit(control: Control, flag: Control) -> bool
    ensures { result ≡ is_flag_set control flag.0 }
{
    control.contains(flag)
}

/// Returns C12, C13 and C14 of a page header, which select the national option.
fn national_bits(header: &Header) -> NationalBits
    ensures { result ≡ national_bits header.now }
{
    NationalBits {
        c12: has_bit(header.control, Control::C12),
        c13: has_bit(header.control, Control::C13),
        c14: has_bit(header.control, Control::C14),
    }
}

pub(crate) fn is_same_bit(one: bool, other: bool) -> bool
    ensures { result ≡ is_same_bit one other }
{
    one == other
}

/// Returns whether `is_serial` equals C11 of the first page header that could be decoded; `false`
/// if there was none.
pub(crate) fn has_first_mode(serial: Option<bool>, is_serial: bool) -> bool
    ensures { result ≡ has_first_mode serial is_serial }
{
    match serial {
        Some(first) => is_same_bit(first, is_serial),
        None => false,
    }
}

/// Returns whether a page header has C4 (erase page) set.
pub(crate) fn is_erasing(header: &Header) -> bool
    ensures { result ≡ c4 header.now }
{
    has_bit(header.control, Control::C4)
}

/// Returns whether a packet of this kind starts a new text: it is a header of the page that has C4
/// (erase page) set, or any header of the page if C4 must always be set.
pub(crate) fn begins_text(keeps: bool, found: &PacketKind) -> bool
    ensures { result ≡ begins_text keeps found.now }
{
    match found {
        PacketKind::ThisPage(header) => is_erasing(header) || !keeps,
        _ => false,
    }
}

/// Returns whether a page header has the sub-code of the page's last header; `true` before a header
/// of the page was received.
pub(crate) fn is_same_subcode(last: Option<u16>, header: &Header) -> bool
    ensures { (o : Option Header) → last ≡ option_map (λ (h : Header). h.subcode) o
        → result ≡ is_same_subcode o header.now }
{
    match last {
        Some(subcode) => header.subcode == subcode,
        None => true,
    }
}

/// Returns whether a page header has the control bits of a subtitle page, with any C4: C6 and C7
/// are set, C5 and C10 are clear, and C12 to C14 select the national option.
pub(crate) fn has_subtitle_bits(national: National, header: &Header) -> bool
    ensures { result ≡ has_subtitle_bits national header.now }
{
    let control = header.control;
    !has_bit(control, Control::C5)
        && has_bit(control, Control::C6)
        && has_bit(control, Control::C7)
        && !has_bit(control, Control::C10)
        && national_bits(header) == national.bits()
}

/// Returns whether the packet is a packet X/25 to X/28 of the page's magazine.
pub(crate) fn is_enhancement(page: PageId, packet: &Packet) -> bool
    ensures { result ≡ is_enhancement_address page (address packet.now) }
{
    match packet.address() {
        None => false,
        Some((magazine, packet_number)) => {
            magazine == page.magazine() && packet_number >= 25 && packet_number <= 28
        }
    }
}

/// Returns whether one of the 40 text bytes of a packet has even parity.
pub(crate) fn has_even_byte(packet: &Packet) -> bool
    ensures { result ≡ is_some (first_even_parity_column packet.now) }
{
    packet.first_even_parity_column().is_some()
}

/// Returns the 40 codes of a row: its bytes without their parity bits.
pub(crate) fn text_codes(packet: &Packet) -> [u8; 40]
    ensures value { result ≡ codes_of packet.now }
    ensures codes { AreCodes result }
    ensures whole { IsPacket packet.now }
{
    let bytes = packet.bytes();
    let mut codes = [0; 40];
    for column in 0..40usize {
        codes[column] = bytes[column + 2] % 128;
    }
    codes
}
