//! The fields of a transport packet (ISO/IEC 13818-1, 2.4.3.2 to 2.4.3.5).
ghost use Rattle.std.specs.Prelude.{◌≡◌, ◌≤◌, ◌==◌, length, false, true};
ghost use Rattle.mpeg_ts.specs.TransportPacket.{announces_jump, begins, counter};
ghost use Rattle.mpeg_ts.specs.TransportPacket.{has_adaptation_field};
ghost use Rattle.mpeg_ts.specs.TransportPacket.{has_payload, is_unusable, payload, pid};

/// The size of a transport packet in bytes.
pub const PACKET: usize = 188;

/// The sync_byte, which is the first byte of a transport packet.
pub const SYNC_BYTE: u8 = 0x47;

/// Returns the PID of a transport packet.
#[inline(always)]
pub fn pid_of(packet: &[u8; PACKET]) -> u16
    ensures { result ≡ pid packet.now }
{
    (packet[1] % 0x20) as u16 * 0x100 + packet[2] as u16
}

/// Returns the bit payload_unit_start_indicator of a transport packet.
#[inline(always)]
pub fn begins(packet: &[u8; PACKET]) -> bool
    ensures { result ≡ begins packet.now }
{
    packet[1] / 0x40 % 2 == 1
}

/// Returns the continuity_counter of a transport packet, 0 to 15.
#[inline(always)]
pub fn counter_of(packet: &[u8; PACKET]) -> u8
    ensures { result ≡ counter packet.now }
{
    packet[3] % 0x10
}

/// Returns whether a transport packet has an adaptation field.
#[inline(always)]
pub fn has_adaptation_field(packet: &[u8; PACKET]) -> bool
    ensures { result ≡ has_adaptation_field packet.now }
{
    packet[3] / 0x20 % 2 == 1
}

/// Returns whether a transport packet has a payload.
#[inline(always)]
pub fn has_payload(packet: &[u8; PACKET]) -> bool
    ensures { result ≡ has_payload packet.now }
{
    packet[3] / 0x10 % 2 == 1
}

/// Returns whether the discontinuity_indicator of a transport packet is set: it announces a
/// discontinuity, so the continuity_counter may jump.
#[inline(always)]
pub fn announces_jump(packet: &[u8; PACKET]) -> bool
    ensures { result ≡ announces_jump packet.now }
{
    has_adaptation_field(packet) && packet[4] != 0 && packet[5] / 0x80 % 2 == 1
}

/// Returns whether a transport packet is unusable: its transport_error_indicator is set, the packet
/// is scrambled, or its adaptation field leaves no space for the payload.
#[inline(always)]
pub fn is_unusable(packet: &[u8; PACKET]) -> bool
    ensures { result ≡ is_unusable packet.now }
{
    packet[1] / 0x80 % 2 == 1
        || packet[3] / 0x40 % 4 != 0
        || (has_adaptation_field(packet) && has_payload(packet) && packet[4] > 182)
}

/// Returns the payload of a transport packet, 1 to 184 bytes.
#[inline(always)]
pub fn payload_of(packet: &[u8; PACKET]) -> &[u8]
    requires payload { has_payload packet.now ≡ true }
    requires valid { is_unusable packet.now ≡ false }
    ensures payload { result.now ≡ payload packet.now }
    ensures some { 1 ≤ length result.now }
    ensures most { length result.now ≤ 184 }
{
    let place = if has_adaptation_field(packet) {
        5 + packet[4] as usize
    } else {
        4
    };
    let (_, payload) = packet.split_at(place);
    payload
}
