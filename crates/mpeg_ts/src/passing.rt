//! Finds bytes that can be skipped together: transport packets of other PIDs, or bytes before the
//! next sync byte.
ghost use Rattle.std.specs.Prelude.{◌≡◌, ◌+◌, ◌<◌, ◌≤◌, List, ℕ, [], ◌++◌, drop, take, length};
ghost use Rattle.std.specs.Prelude.{false, true};
ghost use Rattle.mpeg_ts.specs.GoodPackets.{loss_size};
ghost use Rattle.mpeg_ts.specs.Joining.{JoiningValue, has_ended};
ghost use Rattle.mpeg_ts.specs.Stream.{BeginsPacket, stream_output};
ghost use Rattle.mpeg_ts.specs.TransportPacket.{pid};

use crate::transport_packet::{PACKET, SYNC_BYTE, pid_of};

// Returns the transport packet at an offset of the bytes.
#[inline(always)]
pub(crate) fn packet_at_offset(bytes: &[u8], place: usize) -> &[u8; PACKET]
    requires { place + 188 ≤ length bytes.now }
    ensures { result.now ≡ take 188 (drop place bytes.now) }
{
    let (_, ahead) = bytes.split_at(place);
    ahead.first_chunk().unwrap()
}

// Returns the offset after all consecutive transport packets of other PIDs from offset `from` on.
// A packet of the PID follows, a byte that is no sync byte, or fewer than `distance` available
// bytes.
//
// Not inlined, for speed: most of a multiplex is skipped here, and the variables of a separate loop
// stay in registers.
#[inline(never)]
#[tactic(auto, using(crate::proofs::StreamLemmas::others))]
pub(crate) fn place_after_other_pids(
    bytes: &[u8],
    from: usize,
    distance: usize,
    number: u16,
) -> usize
    requires from { from ≤ length bytes.now }
    requires near { 188 ≤ distance }
    ensures from { from ≤ result }
    ensures within { result ≤ length bytes.now }
    ensures gives { (rest : List ℕ) (joining : JoiningValue)
        → has_ended joining.part ≡ false
        → joining.pending ≡ []
        → stream_output distance number 0 true joining rest
        ≡ stream_output distance number 0 true joining (drop from (take result bytes.now ++ rest)) }
{
    if bytes.len() < distance {
        return from;
    }
    let last = bytes.len() - distance;
    let mut at = from;
    while at <= last {
        let (_, unit) = bytes.split_at(at);
        if unit[0] != SYNC_BYTE || unit_pid(unit) == number {
            return at;
        }
        at += distance;
    }
    at
}

// Returns whether a transport packet of the PID is at this offset, with all bytes up to the next
// packet available.
#[inline(always)]
pub(crate) fn is_unit_of_pid(bytes: &[u8], place: usize, distance: usize, number: u16) -> bool
    requires within { place ≤ length bytes.now }
    requires near { 188 ≤ distance }
    ensures fits { result ≡ true → place + distance ≤ length bytes.now }
    ensures packet { result ≡ true → BeginsPacket number (take 188 (drop place bytes.now)) }
{
    if bytes.len() - place < distance {
        return false;
    }
    let packet = packet_at_offset(bytes, place);
    packet[0] == SYNC_BYTE && pid_of(packet) == number
}

// Returns the number of bytes before the first sync byte, or of all bytes if there is none. When
// reading is out of step, no transport packet begins in them. The caller must not skip them if the
// skipped bytes become a loss within them.
#[tactic(auto, using(crate::proofs::StreamLemmas::junk))]
pub(crate) fn junk_size(bytes: &[u8]) -> usize
    ensures within { result ≤ length bytes.now }
    ensures gives { (distance number run : ℕ) (joining : JoiningValue) (rest : List ℕ)
        → 188 ≤ distance
        → (run < loss_size distance → run + result < loss_size distance)
        → has_ended joining.part ≡ false
        → joining.pending ≡ []
        → stream_output distance number (run + result) false joining rest
        ≡ stream_output distance number run false joining (take result bytes.now ++ rest) }
{
    let mut at = 0;
    while at < bytes.len() {
        if bytes[at] == SYNC_BYTE {
            return at;
        }
        at += 1;
    }
    at
}

// Returns the PID of the transport packet at the front of the bytes.
#[inline(always)]
fn unit_pid(unit: &[u8]) -> u16
    requires { 188 ≤ length unit.now }
    ensures { result ≡ pid unit.now }
{
    (unit[1] % 0x20) as u16 * 0x100 + unit[2] as u16
}
