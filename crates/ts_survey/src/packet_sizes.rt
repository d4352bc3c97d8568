//! Detects the packet size of a recording.

use mpeg_ts::{PACKET, PacketSize, SYNC_BYTE};

/// The number of transport packets in a row that determine the packet size. Fewer do if the
/// recording ends after them.
const REQUIRED_PACKETS_IN_STEP: usize = 5;

// Returns whether a sync byte is at an offset, or the recording ends at or before that offset.
// Returns false if the byte at the offset was not received yet.
fn may_be_packet_at(bytes: &[u8], place: usize, is_end: bool) -> bool {
    if place >= bytes.len() {
        return is_end;
    }
    bytes[place] == SYNC_BYTE
}

// Returns whether sync bytes are at an offset and at multiples of this distance after it, as many
// as determine the packet size, or fewer up to the end of the recording.
fn has_packets_at_distance(bytes: &[u8], place: usize, distance: usize, is_end: bool) -> bool {
    let mut at = place;
    for _ in 0..REQUIRED_PACKETS_IN_STEP {
        if !may_be_packet_at(bytes, at, is_end) {
            return false;
        }
        at = at.saturating_add(distance);
    }
    true
}

// Returns the size of the transport packets that begin at an offset, or `None` if no packets are
// found there.
fn size_at(bytes: &[u8], place: usize, is_end: bool) -> Option<PacketSize> {
    if !may_be_packet_at(bytes, place, is_end) {
        return None;
    }
    if has_packets_at_distance(bytes, place, PacketSize::Plain.bytes(), is_end) {
        return Some(PacketSize::Plain);
    }
    if has_packets_at_distance(bytes, place, PacketSize::TimeStamped.bytes(), is_end) {
        return Some(PacketSize::TimeStamped);
    }
    if has_packets_at_distance(bytes, place, PacketSize::ErrorCorrected.bytes(), is_end) {
        return Some(PacketSize::ErrorCorrected);
    }
    None
}

/// Returns the packet size at the first offset with transport packets, or `None` if no packet size
/// is found in these bytes.
pub fn find_size(bytes: &[u8], is_end: bool) -> Option<PacketSize> {
    for place in 0..bytes.len().saturating_sub(PACKET - 1) {
        match size_at(bytes, place, is_end) {
            Some(size) => return Some(size),
            None => {}
        }
    }
    None
}
