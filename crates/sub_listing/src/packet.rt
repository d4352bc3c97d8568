//! `packet HEX`: shows one Teletext packet.
ghost use Rattle.std.specs.Prelude.{◌≡◌, ◌+◌, ◌≤◌, [], ◌++◌, IfErr, OnOk, length};
ghost use Rattle.arrayvec.specs.ArrayVec.{array_vec_len};
ghost use Rattle.sub_listing.specs.DeviceCall.{CanFail, CountsFault, sink_call};
ghost use Rattle.sub_listing.specs.Faults.{packet_code, packet_line};
ghost use Rattle.sub_listing.specs.Lines.{address_line, control_list, header_line};
ghost use Rattle.sub_listing.specs.Lines.{hex_digits_of_byte, name_if_set};
ghost use Rattle.sub_listing.specs.Lines.{text_line};
ghost use Rattle.sub_listing.specs.Listing.{PrintsOrFails, done, packet_listing, fault_listing};

use crate::faults::fault_line_of_packet;
use crate::lines::{printed_character, push_number, push_text};
use crate::printing::{print_done, print_fault_line};
use crate::status::Status;
use arrayvec::ArrayVec;
use bitflags::Flags;
use sub_io::{FaultCode, Sink};
use ttx_packet::{Control, Header, Packet, is_odd};

// The room in bytes for the line with a packet's address.
const ADDRESS_CAPACITY: usize = 64;

// The room in bytes for the names of all control bits.
const CONTROL_CAPACITY: usize = 40;

// The room in bytes for the line of a page header.
const HEADER_CAPACITY: usize = 80;

// The maximum number of bytes of the line with 40 text bytes.
const TEXT_CAPACITY: usize = 48;

// The room in bytes for the output for one packet.
const PACKET_CAPACITY: usize = 256;

const _: () = prove!(ADDRESS_CAPACITY + HEADER_CAPACITY + TEXT_CAPACITY <= PACKET_CAPACITY);

type Text = ArrayVec<u8, PACKET_CAPACITY>;

const HEX_DIGITS: [u8; 16] = *b"0123456789ABCDEF";

/// The reason why a Teletext packet can't be shown.
#[derive(Clone, Copy)]
pub enum PacketFault {
    /// One of the two address bytes differs from each Hamming 8/4 code word in two or more bits.
    BadAddress,
    /// One of the eight coded bytes of a page header differs from each Hamming 8/4 code word in two
    /// or more bits.
    BadHeader,
}

impl PacketFault {
    /// Returns the number and the name of the fault for reports (not defined by a standard).
    pub fn code(self) -> FaultCode
        ensures { result ≡ packet_code self }
    {
        match self {
            PacketFault::BadAddress => FaultCode::new(3, "BadAddress"),
            PacketFault::BadHeader => FaultCode::new(4, "BadHeader"),
        }
    }
}

/// Prints the address of a Teletext packet, the page header of a packet X/0, and the text of a
/// packet X/0 to X/24 (EN 300 706).
///
/// A packet whose address or header can't be decoded is rejected.
pub fn show_packet<K: Sink>(bytes: &[u8; 42], out: &mut K) -> Status
    requires { CanFail (K.failure_count out.old) }
    ensures printed { PrintsOrFails (sink_call K.contents K.failure_count out.old out.new)
        (packet_listing bytes.now) result }
    ensures count { CountsFault K.failure_count out.old result out.new }
    ensures fault { result ≡ Status.Fault → K.failure_count out.new ≡ K.failure_count out.old + 1 }
{
    let mut text = Text::new();
    match push_packet(&mut text, &Packet::new(*bytes)) {
        Ok(()) => print_done(text.as_slice(), out),
        Err(fault) => print_fault_line(&fault_line_of_packet(fault), out),
    }
}

fn push_packet(text: &mut Text, packet: &Packet) -> Result<(), PacketFault>
    requires { text.old.items ≡ [] }
    ensures ok { OnOk result (packet_listing packet.now ≡ done text.new.items) }
    ensures err { IfErr result
        (λ fault. packet_listing packet.now ≡ fault_listing (packet_line fault)) }
{
    let Some((magazine, packet_number)) = packet.address() else {
        return Err(PacketFault::BadAddress);
    };
    push_address(text, magazine, packet_number);
    if packet_number == 0 {
        let Some(header) = packet.header() else {
            return Err(PacketFault::BadHeader);
        };
        push_header(text, &header);
        push_text_line(text, packet.bytes().split_at(10).1);
    } else if packet_number <= 24 {
        push_text_line(text, packet.data());
    }
    Ok(())
}

// Appends the address of a Teletext packet as a line.
fn push_address(line: &mut Text, magazine: u8, packet_number: u8)
    requires { array_vec_len line.old + ADDRESS_CAPACITY ≤ PACKET_CAPACITY }
    ensures items { line.new.items ≡ line.old.items ++ address_line magazine packet_number }
    ensures len { array_vec_len line.new ≤ array_vec_len line.old + ADDRESS_CAPACITY }
{
    let printed_magazine = if magazine == 0 { 8 } else { magazine };
    push_number(line, b"magazine ", u64::from(printed_magazine));
    push_number(line, b" packet ", u64::from(packet_number));
    push_text(line, b"\n");
}

// Appends the contents of a page header as a line.
fn push_header(line: &mut Text, header: &Header)
    requires { array_vec_len line.old + HEADER_CAPACITY ≤ PACKET_CAPACITY }
    ensures items { line.new.items ≡ line.old.items ++ header_line header.now }
    ensures len { array_vec_len line.new ≤ array_vec_len line.old + HEADER_CAPACITY }
{
    push_text(line, b"page ");
    push_hex(line, header.page);
    push_text(line, b" subcode ");
    push_hex(line, (header.subcode / 256) as u8);
    push_hex(line, (header.subcode % 256) as u8);
    push_text(line, b" control");
    push_control(line, header);
    push_text(line, b"\n");
}

// Appends a byte as two upper case hexadecimal digits.
#[tactic(auto, unfolding(crate::specs::Lines::hex_digits_of_byte))]
fn push_hex(line: &mut Text, byte: u8)
    requires { array_vec_len line.old + 2 ≤ PACKET_CAPACITY }
    ensures items { line.new.items ≡ line.old.items ++ hex_digits_of_byte byte }
    ensures len { array_vec_len line.new ≡ array_vec_len line.old + 2 }
{
    line.push(HEX_DIGITS[(byte / 16) as usize]);
    line.push(HEX_DIGITS[(byte % 16) as usize]);
}

// Appends the names of the control bits that are set, or ` none`.
fn push_control(line: &mut Text, header: &Header)
    requires { array_vec_len line.old + CONTROL_CAPACITY ≤ PACKET_CAPACITY }
    ensures items { line.new.items ≡ line.old.items ++ control_list header.now }
    ensures len { array_vec_len line.new ≤ array_vec_len line.old + CONTROL_CAPACITY }
{
    let control = header.control;
    let mut names = ArrayVec::<u8, CONTROL_CAPACITY>::new();
    push_control_name(&mut names, control.contains(Control::C4), b" C4");
    push_control_name(&mut names, control.contains(Control::C5), b" C5");
    push_control_name(&mut names, control.contains(Control::C6), b" C6");
    push_control_name(&mut names, control.contains(Control::C7), b" C7");
    push_control_name(&mut names, control.contains(Control::C8), b" C8");
    push_control_name(&mut names, control.contains(Control::C9), b" C9");
    push_control_name(&mut names, control.contains(Control::C10), b" C10");
    push_control_name(&mut names, control.contains(Control::C11), b" C11");
    push_control_name(&mut names, control.contains(Control::C12), b" C12");
    push_control_name(&mut names, control.contains(Control::C13), b" C13");
    push_control_name(&mut names, control.contains(Control::C14), b" C14");
    if names.is_empty() {
        push_text(line, b" none");
    } else {
        push_text(line, names.as_slice());
    }
}

// Appends the name of a control bit if the bit is set.
fn push_control_name(names: &mut ArrayVec<u8, CONTROL_CAPACITY>, is_set: bool, name: &[u8])
    requires { array_vec_len names.old + length name.now ≤ CONTROL_CAPACITY }
    ensures items { names.new.items ≡ names.old.items ++ name_if_set is_set name.now }
    ensures len { array_vec_len names.new ≤ array_vec_len names.old + length name.now }
{
    if is_set {
        push_text(names, name);
    }
}

// Appends text bytes between bars as a line.
fn push_text_line(line: &mut Text, bytes: &[u8])
    requires short { length bytes.now ≤ 40 }
    requires room { array_vec_len line.old + TEXT_CAPACITY ≤ PACKET_CAPACITY }
    ensures { line.new.items ≡ line.old.items ++ text_line bytes.now }
{
    push_text(line, b"text |");
    for byte in bytes {
        // A byte of even parity is printed as `?`, since it has no code.
        line.push(if is_odd(*byte) {
            printed_character(*byte % 128)
        } else {
            b'?'
        });
    }
    push_text(line, b"|\n");
}
