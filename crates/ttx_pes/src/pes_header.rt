//! Reads and writes the first 46 bytes of a PES packet (EN 300 472, PES packet header and
//! data_identifier).
ghost use Rattle.std.specs.Prelude.{◌≡◌, ◌+◌, ◌*◌, ◌/◌, ◌%◌, ◌^◌, ◌<◌, ◌≤◌, true, false, length};
ghost use Rattle.std.specs.Prelude.{slice_index, IfOk, IfErr};
ghost use Rattle.ttx_pes.specs.Fault.{is_packet_content_fault};
ghost use Rattle.ttx_pes.specs.PesGrammar.{header_size, max_pes_packet_size, payload_size};
ghost use Rattle.ttx_pes.specs.PesGrammar.{pes_packet_header, pts_bytes};
ghost use Rattle.ttx_pes.specs.Reading.{flags_fault, is_all_stuffing, is_format_fault};
ghost use Rattle.ttx_pes.specs.Reading.{is_gap_marker};
ghost use Rattle.ttx_pes.specs.Reading.{is_start, pts_at};
ghost use Rattle.ttx_pes.specs.Reading.{size_at};

use crate::fault::PesFault;
use crate::writer::{Bytes, add};
use arrayvec::ArrayVec;
use byteorder::{BigEndian, ByteOrder, LittleEndian};

/// The size of a TS packet payload in bytes. A PES packet fills 1 to 9 payloads (EN 300 472).
pub(crate) const PAYLOAD: usize = 184;

/// The size of the longest PES packet in bytes.
pub(crate) const MAX_PES_PACKET_SIZE: usize = 9 * PAYLOAD;

/// Returns the size in bytes of the PES packet that begins with these six bytes, 184 to 1656 (EN
/// 300 472, PES_packet_length).
///
/// # Errors
///
/// Returns `Start` if the start code is wrong, then `Length` if the length is wrong.
#[inline(always)]
#[tactic(auto, unfolding(crate::specs::Reading::size_at))]
pub fn decode_packet_size(head: &[u8; 6]) -> Result<usize, PesFault>
    ensures exact { size_at head.now ≡ result }
    ensures kind { IfErr result (λ fault. is_format_fault fault ≡ true) }
    ensures is_not_content_fault { IfErr result (λ fault. is_packet_content_fault fault ≡ false) }
    ensures range { IfOk result (λ size.
        (payload_size ≤ size) × (size ≤ max_pes_packet_size) × (size % payload_size ≡ 0)) }
{
    if !is_start(head) {
        return Err(PesFault::Start);
    }
    let size = decode_packet_length(head) as usize + 6;
    if size % PAYLOAD != 0 || size > MAX_PES_PACKET_SIZE {
        return Err(PesFault::Length);
    }
    Ok(size)
}

// Returns whether the bytes begin with the start code and stream_id of private_stream_1. Compares
// them as one word.
#[tactic(auto, using(crate::proofs::PesHeaderLemmas::start_code_comparison_is_correct))]
pub(crate) fn is_start(head: &[u8; 6]) -> bool
    ensures { result ≡ is_start head.now }
{
    LittleEndian::read_u32(head) == 0xBD01_0000
}

// Returns the value of the field PES_packet_length.
pub(crate) fn decode_packet_length(head: &[u8; 6]) -> u16
    ensures { result ≡ 0x100 * slice_index head.now 4 + slice_index head.now 5 }
{
    BigEndian::read_u16(&head[4..])
}

// Returns the PTS of a PES packet, parsed from its bytes from byte 6 on. Checks the fields in
// order. Inlined for speed.
#[inline(always)]
#[tactic(auto, unfolding(crate::specs::Reading::pts_at))]
pub(crate) fn pts_of(body: &[u8]) -> Result<u64, PesFault>
    requires { 40 ≤ length body.now }
    ensures exact { pts_at body.now ≡ result }
    ensures kind { IfErr result (λ fault. is_format_fault fault ≡ true) }
    ensures range { IfOk result (λ pts. pts < 2 ^ 33) }
{
    if body[0] / 16 != 8 {
        return Err(flags_fault(body));
    }
    if body[1] / 64 != 2 {
        return Err(PesFault::NoTime);
    }
    if body[2] != 0x24 {
        return Err(PesFault::HeaderLength);
    }
    if body[3] / 16 != 2 || body[3] % 2 != 1 || body[5] % 2 != 1 || body[7] % 2 != 1 {
        return Err(PesFault::Time);
    }
    if body[39] / 16 != 1 {
        return Err(PesFault::DataId);
    }
    let high = (body[3] / 2 % 8) as u64;
    Ok(high * (1 << 30) + decode_pts_bits(body, 4) * (1 << 15) + decode_pts_bits(body, 6))
}

// Returns the fault of a PES packet whose byte 6 does not begin with 1000: `Lost` if all bytes from
// byte 6 on are FF, as in a gap marker, otherwise `Flags`.
fn flags_fault(body: &[u8]) -> PesFault
    ensures { result ≡ flags_fault body.now }
{
    if is_all_stuffing(body) {
        PesFault::Lost
    } else {
        PesFault::Flags
    }
}

// Returns whether all bytes are FF, as in a gap marker from byte 6 on.
fn is_all_stuffing(body: &[u8]) -> bool
    ensures { result ≡ is_all_stuffing body.now }
{
    body.iter().all(|byte| *byte == 0xFF)
}

/// Returns whether a PES packet is a gap marker, which replaces missing TS packets: 184 bytes, all
/// FF from byte 6 on (not defined by a standard).
pub fn is_gap_marker(pes_packet: &[u8]) -> bool
    ensures { result ≡ is_gap_marker pes_packet.now }
{
    if pes_packet.len() != PAYLOAD {
        return false;
    }
    let (_, body) = pes_packet.split_at(6);
    is_all_stuffing(body)
}

// Returns 15 bits of the PTS from the two bytes at `place`, without the marker bit.
fn decode_pts_bits(body: &[u8], place: usize) -> u64
    requires { place + 2 ≤ length body.now }
    ensures value { result
        ≡ slice_index body.now place * 0x80 + slice_index body.now (place + 1) / 2 }
    ensures fits { result < 2 ^ 15 }
{
    BigEndian::read_u16(&body[place..]) as u64 / 2
}

// Returns the five bytes that encode a PTS.
pub(crate) fn encode_pts(pts: u64) -> [u8; 5]
    requires { pts < 2 ^ 33 }
    ensures { result ≡ pts_bytes pts }
{
    [
        (0x21 + 2 * (pts / (1 << 30))) as u8,
        (pts / (1 << 22) % 256) as u8,
        (1 + 2 * (pts / (1 << 15) % 128)) as u8,
        (pts / (1 << 7) % 256) as u8,
        (1 + 2 * (pts % 128)) as u8,
    ]
}

// Returns the first 46 bytes of the canonical packet of `n` payloads.
#[tactic(auto, unfolding(crate::specs::PesGrammar::pes_packet_header))]
pub(crate) fn canonical_header(n: u16, pts: u64) -> Bytes
    requires n { (1 ≤ n) × (n ≤ 9) }
    requires pts { pts < 2 ^ 33 }
    ensures items { result.items ≡ pes_packet_header n pts }
    ensures len { length result.items ≡ header_size }
{
    let mut length = [0; 2];
    BigEndian::write_u16(&mut length, PAYLOAD as u16 * n - 6);
    let mut out = ArrayVec::new();
    add(&mut out, &[0x00, 0x00, 0x01, 0xBD]);
    add(&mut out, &length);
    add(&mut out, &[0x84, 0x80, 0x24]);
    add(&mut out, &encode_pts(pts));
    add(&mut out, &[0xFF; 31]);
    add(&mut out, &[0x10]);
    out
}
