//! Reads adaptation fields (ISO/IEC 13818-1, adaptation_field), and the times in the header of a
//! PES packet.
ghost use Rattle.std.specs.Prelude.{◌≡◌, ◌≤◌, ◌<◌, ◌+◌, ◌^◌, length, IfSome};
ghost use Rattle.ts_survey.specs.Adaptation.{has_random_access_indicator, decoding_time};
ghost use Rattle.ts_survey.specs.Adaptation.{has_usable_adaptation_field};
ghost use Rattle.ts_survey.specs.Adaptation.{is_scrambled, payload_if_usable, pcr_base};
ghost use Rattle.ts_survey.specs.Adaptation.{pts_of_pes_packet};
ghost use Rattle.ts_survey.specs.Adaptation.{timestamp_at};

use mpeg_ts::{PACKET, has_adaptation_field, has_payload, is_unusable, payload_of};

/// Returns random_access_indicator of a transport packet, or false if it has none. The indicator
/// means that the next PES packet, which begins in this packet or later, starts with a picture that
/// can be shown alone.
pub fn has_random_access_indicator(packet: &[u8; PACKET]) -> bool
    ensures { result ≡ has_random_access_indicator packet.now }
{
    has_adaptation_field(packet) && packet[4] != 0 && packet[5] / 0x40 % 2 == 1
}

/// Returns whether a transport packet is scrambled: transport_scrambling_control is not 00.
pub fn is_scrambled(packet: &[u8; PACKET]) -> bool
    ensures { result ≡ is_scrambled packet.now }
{
    packet[3] / 0x40 != 0
}

/// Returns whether a transport packet has an adaptation field that can be used:
/// transport_error_indicator is not set.
pub fn has_usable_adaptation_field(packet: &[u8; PACKET]) -> bool
    ensures { result ≡ has_usable_adaptation_field packet.now }
{
    has_adaptation_field(packet) && packet[1] / 0x80 == 0
}

/// Returns program_clock_reference_base, 33 bits, if the adaptation field of the transport packet
/// has it and can be used.
pub fn pcr_base(packet: &[u8; PACKET]) -> Option<u64>
    ensures value { result ≡ pcr_base packet.now }
    ensures range { IfSome result (λ pcr. pcr < 2 ^ 33) }
{
    if !has_usable_adaptation_field(packet) || packet[4] < 7 || packet[5] / 0x10 % 2 == 0 {
        return None;
    }
    Some(
        packet[6] as u64 * 0x200_0000
            + packet[7] as u64 * 0x2_0000
            + packet[8] as u64 * 0x200
            + packet[9] as u64 * 2
            + (packet[10] / 0x80) as u64,
    )
}

/// Returns the payload of a transport packet, or an empty slice if the packet has no payload or is
/// unusable.
pub fn payload_if_usable(packet: &[u8; PACKET]) -> &[u8]
    ensures { result.now ≡ payload_if_usable packet.now }
{
    if has_payload(packet) && !is_unusable(packet) {
        payload_of(packet)
    } else {
        &[]
    }
}

/// Returns the PTS in the first bytes of a PES packet (ISO/IEC 13818-1, PES_packet). Returns `None`
/// if PTS_DTS_flags announce no PTS, if fewer than 14 bytes are given, and if byte 6 is FF, as in a
/// gap marker. Marker bits are not checked.
pub fn pts_of_pes_packet(pes: &[u8]) -> Option<u64>
    ensures value { result ≡ pts_of_pes_packet pes.now }
    ensures range { IfSome result (λ pts. pts < 2 ^ 33) }
{
    if pes.len() < 14 || pes[7] < 0x80 || pes[6] == 0xFF {
        return None;
    }
    Some(timestamp_at(pes, 9))
}

// Returns the time at an offset of a PES header, 33 bits of a clock of 90 kHz.
fn timestamp_at(pes: &[u8], place: usize) -> u64
    requires { place + 5 ≤ length pes.now }
    ensures value { result ≡ timestamp_at pes.now place }
    ensures range { result < 2 ^ 33 }
{
    (pes[place] / 2 % 8) as u64 * 0x4000_0000
        + pes[place + 1] as u64 * 0x40_0000
        + (pes[place + 2] / 2) as u64 * 0x8000
        + pes[place + 3] as u64 * 0x80
        + (pes[place + 4] / 2) as u64
}

/// Returns when the first picture of a PES packet is decoded: its DTS, or its PTS if it has no DTS.
/// Returns `None` if `pts_of_pes_packet` does, or if the bytes end before the end of the DTS.
pub fn decoding_time(pes: &[u8]) -> Option<u64>
    ensures value { result ≡ decoding_time pes.now }
    ensures range { IfSome result (λ time. time < 2 ^ 33) }
{
    let pts = pts_of_pes_packet(pes)?;
    if pes[7] < 0xC0 {
        return Some(pts);
    }
    if pes.len() < 19 {
        return None;
    }
    Some(timestamp_at(pes, 14))
}
