//! Makes lines that the program prints.
//!
//! A line is made in memory before it is written to a device. The functions `push_..` append to an
//! `ArrayVec`. The constants below are upper bounds of the sizes of parts of lines, and of the line
//! of a fault or of an event; the proofs show that none is longer.
ghost use Rattle.std.specs.Prelude.{◌≡◌, ◌+◌, ◌%◌, ◌≤◌, ◌<◌, ◌++◌, length, decimal};
ghost use Rattle.arrayvec.specs.ArrayVec.{array_vec_len};
ghost use Rattle.hex.specs.Hex.{encode_lower};
ghost use Rattle.stl_file.specs.TimeCode.{day};
ghost use Rattle.sub_listing.specs.EventLines.{fault_end_line, event_line, skipped_packets_line};
ghost use Rattle.sub_listing.specs.EventLines.{trusted_frames_line};
ghost use Rattle.sub_listing.specs.Lines.{printed_character, number_in_file, text_digits};
ghost use Rattle.sub_listing.specs.Lines.{time_text};
ghost use Rattle.sub_listing.specs.Lines.{two_digits};
ghost use Rattle.sub_listing.specs.FaultLine.{code_text, frame_text, text_of_fault_line};
ghost use Rattle.sub_listing.specs.FaultLine.{place_text};

use crate::fault_line::{FaultLine, Kind};
use crate::faults::fault_line_of_check;
use crate::hex_digits::digits_of_block;
use arrayvec::ArrayVec;
use stl_file::TimeCode;
use sub_io::FaultCode;
use sub_rules::{CheckFault, EndRule, Event, FaultPlace};
use ttx_pes::MAX_PES_PACKETS;

/// The maximum number of bytes of a number in decimal.
pub const NUMBER_CAPACITY: usize = 20;

/// The maximum number of bytes of a subtitle's text in hexadecimal.
pub const TEXT_DIGITS_CAPACITY: usize = 2016;

/// The room in bytes for a fault's number and name: the number, a space, and at most 16 characters.
const CODE_CAPACITY: usize = NUMBER_CAPACITY + 17;

/// The room in bytes for a fault's place.
const PLACE_CAPACITY: usize = 80;

/// The room in bytes for the line of a fault or of an event. A fault line with a cell as its place
/// has at most 117 bytes, even if each of its numbers had `NUMBER_CAPACITY` digits.
pub const LINE_CAPACITY: usize = 128;

/// A short line to print, such as the line of a fault.
pub type Line = ArrayVec<u8, LINE_CAPACITY>;

/// Appends a text to a line, which must have room for it.
pub fn push_text<const N: usize>(line: &mut ArrayVec<u8, N>, text: &[u8])
    requires { array_vec_len line.old + length text.now ≤ N }
    ensures items { line.new.items ≡ line.old.items ++ text.now }
    ensures len { array_vec_len line.new ≡ array_vec_len line.old + length text.now }
{
    let _ = line.try_extend_from_slice(text);
}

/// Appends a number in decimal to a line.
pub fn push_decimal<const N: usize>(line: &mut ArrayVec<u8, N>, number: u64)
    requires { array_vec_len line.old + NUMBER_CAPACITY ≤ N }
    ensures items { line.new.items ≡ line.old.items ++ decimal number }
    ensures len { array_vec_len line.new ≤ array_vec_len line.old + NUMBER_CAPACITY }
{
    let mut digits = itoa::Buffer::new();
    push_text(line, digits.format(number).as_bytes());
}

/// Appends a word and a number in decimal to a line.
pub fn push_number<const N: usize>(line: &mut ArrayVec<u8, N>, word: &[u8], number: u64)
    requires { array_vec_len line.old + length word.now + NUMBER_CAPACITY ≤ N }
    ensures items { line.new.items ≡ line.old.items ++ word.now ++ decimal number }
    ensures len { array_vec_len line.new ≤ array_vec_len line.old + length word.now +
        NUMBER_CAPACITY }
{
    push_text(line, word);
    push_decimal(line, number);
}

/// Returns the number of a PES packet in its file, given its index counted from the PES packet with
/// the number `first`. A number above 2^64 - 1 is returned as 2^64 - 1.
#[tactic(auto, unfolding(crate::specs::Lines::number_in_file))]
pub fn number_in_file(first: u64, index: u32) -> u64
    ensures { result ≡ number_in_file first index }
{
    first.saturating_add(u64::from(index))
}

/// Appends a packet's bytes as lower case hexadecimal digits.
pub fn push_lower_hex<const N: usize>(line: &mut ArrayVec<u8, N>, bytes: &[u8; 42])
    requires { array_vec_len line.old + 84 ≤ N }
    ensures items { line.new.items ≡ line.old.items ++ encode_lower bytes.now }
    ensures len { array_vec_len line.new ≡ array_vec_len line.old + 84 }
{
    let (blocks, _) = bytes.as_chunks::<16>();
    push_text(line, &digits_of_block(&blocks[0]));
    push_text(line, &digits_of_block(&blocks[1]));
    // The last ten bytes are the end of a block of 16 bytes that starts six bytes before them.
    push_text(line, &digits_of_block(bytes.last_chunk().unwrap())[12..]);
}

/// Appends a number below 100 as two decimal digits.
#[tactic(auto, unfolding(crate::specs::Lines::two_digits))]
pub fn push_two_digits<const N: usize>(line: &mut ArrayVec<u8, N>, number: u8)
    requires { array_vec_len line.old + 2 ≤ N }
    ensures items { line.new.items ≡ line.old.items ++ two_digits number }
    ensures len { array_vec_len line.new ≡ array_vec_len line.old + 2 }
{
    push_text(line, &[b'0' + number / 10, b'0' + number % 10]);
}

/// Appends a time code as `HH:MM:SS:FF`.
#[tactic(auto, unfolding(crate::specs::Lines::time_text))]
pub fn push_time<const N: usize>(line: &mut ArrayVec<u8, N>, time: TimeCode)
    requires { array_vec_len line.old + 11 ≤ N }
    ensures items { line.new.items ≡ line.old.items ++ time_text time }
    ensures len { array_vec_len line.new ≡ array_vec_len line.old + 11 }
{
    let [hours, minutes, seconds, frames] = time.to_bytes();
    push_two_digits(line, hours);
    push_text(line, b":");
    push_two_digits(line, minutes);
    push_text(line, b":");
    push_two_digits(line, seconds);
    push_text(line, b":");
    push_two_digits(line, frames);
}

/// Appends the text of a subtitle as lower case hexadecimal digits, or a hyphen if it is empty.
#[tactic(auto, unfolding(crate::specs::Lines::text_digits))]
pub fn push_text_digits<const N: usize>(line: &mut ArrayVec<u8, N>, text: &[u8])
    requires few { length text.now ≤ 1008 }
    requires room { array_vec_len line.old + TEXT_DIGITS_CAPACITY ≤ N }
    ensures items { line.new.items ≡ line.old.items ++ text_digits text.now }
    ensures len { array_vec_len line.new ≤ array_vec_len line.old + TEXT_DIGITS_CAPACITY }
{
    if text.len() == 0 {
        return push_text(line, b"-");
    }
    let mut room = [0; TEXT_DIGITS_CAPACITY];
    let (digits, _) = room.split_at_mut(2 * text.len());
    let _ = hex::encode_to_slice(text, digits);
    push_text(line, digits);
}

/// Returns the printed character for a cell's code.
pub fn printed_character(code: u8) -> u8
    ensures { result ≡ printed_character code }
{
    if code >= 0x20 && code <= 0x7E {
        code
    } else {
        b'.'
    }
}

/// Appends the line of a fault.
pub fn push_fault_line<const N: usize>(line: &mut ArrayVec<u8, N>, reported: &FaultLine)
    requires { array_vec_len line.old + LINE_CAPACITY ≤ N }
    ensures { line.new.items ≡ line.old.items ++ text_of_fault_line reported.now }
{
    match reported.kind {
        Kind::Refused => push_text(line, b"refused "),
        Kind::Fault => push_text(line, b"fault "),
        Kind::Usage => push_text(line, b"usage "),
    }
    push_code(line, &reported.code);
    push_place(line, reported.place, reported.first);
    push_text(line, b"\n");
}

/// Appends the line of an event: a fault, the end of a fault, the last of several skipped PES
/// packets, or trusted frames. PES packets are counted from the number `first`.
pub fn push_event<const N: usize>(line: &mut ArrayVec<u8, N>, event: Event, first: u64)
    requires { array_vec_len line.old + LINE_CAPACITY ≤ N }
    ensures { line.new.items ≡ line.old.items ++ event_line first event }
{
    match event {
        Event::Reported(fault) => push_fault_line(
            line,
            &fault_line_of_check(fault).counted_from(first),
        ),
        Event::Ended { rule, frame } => push_fault_end(line, rule, frame),
        Event::SkippedUntil(fault) => push_skipped_packets(line, fault, first),
        Event::Trusted { from, to } => push_trusted_frames(line, from, to),
    }
}

// Appends the line for the end of a fault: `frame` is the last frame at whose end the rule was
// broken at the reported place.
fn push_fault_end<const N: usize>(line: &mut ArrayVec<u8, N>, rule: EndRule, frame: u32)
    requires { array_vec_len line.old + LINE_CAPACITY ≤ N }
    ensures { line.new.items ≡ line.old.items ++ fault_end_line rule frame }
{
    push_text(line, b"ended ");
    push_code(line, &rule.code());
    push_frame(line, frame);
    push_text(line, b"\n");
}

// Appends the line for the end of skipped PES packets: `fault` is the fault of the last of them.
fn push_skipped_packets<const N: usize>(line: &mut ArrayVec<u8, N>, fault: CheckFault, first: u64)
    requires { array_vec_len line.old + LINE_CAPACITY ≤ N }
    ensures { line.new.items ≡ line.old.items ++ skipped_packets_line first fault }
{
    push_text(line, b"ended ");
    push_code(line, &fault.code());
    push_place(line, fault.place(), first);
    push_text(line, b"\n");
}

fn push_trusted_frames<const N: usize>(line: &mut ArrayVec<u8, N>, from: u32, to: u32)
    requires { array_vec_len line.old + LINE_CAPACITY ≤ N }
    ensures { line.new.items ≡ line.old.items ++ trusted_frames_line from to }
{
    push_text(line, b"trusted frames ");
    push_frame_time(line, from);
    push_text(line, b" ");
    push_frame_time(line, to);
    push_text(line, b"\n");
}

fn push_code<const N: usize>(line: &mut ArrayVec<u8, N>, code: &FaultCode)
    requires { array_vec_len line.old + CODE_CAPACITY ≤ N }
    ensures items { line.new.items ≡ line.old.items ++ code_text code.now }
    ensures len { array_vec_len line.new ≤ array_vec_len line.old + CODE_CAPACITY }
{
    push_decimal(line, u64::from(code.number()));
    push_text(line, b" ");
    push_text(line, code.name().as_bytes());
}

// Appends the place of a fault to a line. PES packets are counted from the number `first`.
fn push_place<const N: usize>(line: &mut ArrayVec<u8, N>, place: FaultPlace, first: u64)
    requires { array_vec_len line.old + PLACE_CAPACITY ≤ N }
    ensures items { line.new.items ≡ line.old.items ++ place_text first place }
    ensures len { array_vec_len line.new ≤ array_vec_len line.old + PLACE_CAPACITY }
{
    match place {
        FaultPlace::Nowhere => (),
        FaultPlace::Pes { pes } => push_number(line, b" pes ", number_in_file(first, pes)),
        FaultPlace::Block { block } => push_number(line, b" block ", u64::from(block)),
        FaultPlace::Text { block, at } => {
            push_number(line, b" block ", u64::from(block));
            push_number(line, b" at ", u64::from(at));
        }
        FaultPlace::Frame { frame } => push_frame(line, frame),
        FaultPlace::Packet { frame, packet } => {
            push_frame(line, frame);
            push_number(line, b" packet ", u64::from(packet));
        }
        FaultPlace::Cell { frame, row, column } => {
            push_frame(line, frame);
            push_number(line, b" row ", u64::from(row));
            push_number(line, b" column ", u64::from(column));
        }
    }
}

// Appends the text for a frame of the day to a line.
fn push_frame<const N: usize>(line: &mut ArrayVec<u8, N>, frame: u32)
    requires { array_vec_len line.old + 18 ≤ N }
    ensures items { line.new.items ≡ line.old.items ++ frame_text frame }
    ensures len { array_vec_len line.new ≡ array_vec_len line.old + 18 }
{
    push_text(line, b" frame ");
    push_frame_time(line, frame);
}

// Appends the time of a frame of the day to a line. The number is taken modulo the frames of a day.
fn push_frame_time<const N: usize>(line: &mut ArrayVec<u8, N>, frame: u32)
    requires { array_vec_len line.old + 11 ≤ N }
    ensures items { line.new.items ≡ line.old.items ++ time_text (frame % day) }
    ensures len { array_vec_len line.new ≡ array_vec_len line.old + 11 }
{
    // A day has `MAX_PES_PACKETS` frames.
    push_time(line, TimeCode::of_frame(frame % MAX_PES_PACKETS));
}
