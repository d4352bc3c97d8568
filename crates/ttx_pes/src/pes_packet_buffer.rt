//! A buffer for a PES packet that is not completely buffered in its source.
ghost use Rattle.std.specs.Prelude.{◌≡◌, ◌+◌, ◌<◌, ◌≤◌, ◌++◌, [], IsSome, false, is_ok, length};
ghost use Rattle.std.specs.Prelude.{take, true};
ghost use Rattle.std.specs.Io.KnownBytes.{Consumes, IsAtEnd, prepend_known};
ghost use Rattle.sub_io.specs.Device.{CanFail, CountsFailure, CountRisesIf};
ghost use Rattle.sub_io.specs.Reading.{AreBytes};
ghost use Rattle.ttx_pes.specs.Advancing.{Advances, ReadsTowardPesPacket, buffered_before_known};
ghost use Rattle.ttx_pes.specs.Advancing.{rest_fault};
ghost use Rattle.ttx_pes.specs.BorrowedPacket.{has_enough_for_packet};
ghost use Rattle.ttx_pes.specs.PesGrammar.{max_pes_packet_size};

use crate::fault::PesFault;
use crate::pes_header::{MAX_PES_PACKET_SIZE, PAYLOAD, decode_packet_size};
use crate::pes_packets::{REST_BUFFER_SIZE, Received, TakePesPacket};
use std::marker::Model;
use sub_io::{Failed, Source};

/// A buffer for the bytes of one PES packet.
pub(crate) type PacketBuffer = [u8; MAX_PES_PACKET_SIZE];

// The number of bytes at the front of a PES packet that determine its size.
const SIZE_BYTES: usize = 6;

/// The first bytes of an incomplete PES packet, or bytes that do not begin with a PES packet.
///
/// Its model is the list of these bytes.
#[derive(Drop)]
pub(crate) struct PesPacketBuffer {
    room: PacketBuffer,
    len: usize,
}

impl Model for PesPacketBuffer {
    ghost use Rattle.std.specs.Prelude.{ℕ, ◌≤◌, IsSome, List, take};
    ghost use Rattle.ttx_pes.specs.Advancing.{rest_fault};
    ghost use Rattle.ttx_pes.specs.PesGrammar.{max_pes_packet_size};

    ghost Value = { List ℕ };

    ghost view = { λ h. take h.len h.room };

    ghost invariant = { λ h. (h.len ≤ max_pes_packet_size) × IsSome
        (rest_fault (take h.len h.room)) };
}

// Pulls into `room`, which already has `buffered` bytes, until it has at least `least` bytes, or
// the source ends or fails. Pulls only into the first `most` bytes of `room`. Returns the number of
// bytes in `room`, and whether the source failed.
fn fill_buffer<S: Source>(
    source: &mut S,
    room: &mut [u8],
    buffered: usize,
    least: usize,
    most: usize,
) -> (usize, bool)
    requires count { CanFail (S.failure_count source.old) }
    requires buffered { buffered ≤ length room.old }
    requires least { least ≤ most }
    requires most { most ≤ length room.old }
    ensures from { buffered ≤ result.0 }
    ensures bound { buffered ≤ most → result.0 ≤ most }
    ensures none { least ≤ buffered → result.0 ≡ buffered }
    ensures room { result.0 ≤ length room.new }
    ensures kept { take buffered room.new ≡ take buffered room.old }
    ensures bytes { Consumes (prepend_known (take buffered room.old) (S.remaining source.old))
        (S.remaining source.new) (take result.0 room.new) }
    ensures end { result.1 ≡ false → result.0 < least → IsAtEnd (S.remaining source.new) }
    ensures few { result.1 ≡ true → result.0 < least }
    ensures borrowed { least ≤ buffered + length (S.borrowed source.old) → (result.1 ≡ false)
        × (take buffered room.old ++ S.borrowed source.old
        ≡ take result.0 room.new ++ S.borrowed source.new) }
    ensures count { CountRisesIf (S.failure_count source.old) result.1
        (S.failure_count source.new) }
{
    let mut at = buffered;
    while at < least {
        match source.pull(&mut room[at..most]) {
            Ok(0) => break,
            Ok(n) => at += n,
            Err(_) => return (at, true),
        }
    }
    (at, false)
}

// Reads the rest of the PES packet whose first bytes, if any, are in the buffer: at least up to
// byte 5 and at most up to byte 183, then, if the first six bytes have no fault, up to the size
// that its length field states. Stops if the source ends or fails. Returns the number of bytes in
// the buffer, and the result.
fn read_pes_packet<S: Source>(
    source: &mut S,
    room: &mut PacketBuffer,
    buffered: usize,
) -> (usize, Result<Received<()>, Failed>)
    requires count { CanFail (S.failure_count source.old) }
    requires buffered { buffered ≤ max_pes_packet_size }
    requires begun { IsSome (rest_fault (take buffered room.old)) }
    ensures most { result.0 ≤ max_pes_packet_size }
    ensures reads { ReadsTowardPesPacket
        (prepend_known (take buffered room.old) (S.remaining source.old))
        (S.remaining source.new) (take result.0 room.new) result.1 }
    ensures borrowed { buffered ≡ 0 → has_enough_for_packet (S.borrowed source.old) ≡ true → is_ok
        result.1 ≡
        true }
    ensures count { CountsFailure (S.failure_count source.old) result.1
        (S.failure_count source.new) }
{
    let (got, is_failed) = fill_buffer(source, room, buffered, SIZE_BYTES, PAYLOAD);
    if is_failed {
        return (got, Err(Failed));
    }
    if got == 0 {
        return (got, Ok(Received::End));
    }
    if got < SIZE_BYTES {
        return (got, Ok(Received::Rest(PesFault::Truncated)));
    }
    let size = match decode_packet_size(room.first_chunk().unwrap()) {
        Ok(size) => size,
        Err(fault) => return (got, Ok(Received::Rest(fault))),
    };
    let (all, has_failed) = fill_buffer(source, room, got, size, size);
    if has_failed {
        return (all, Err(Failed));
    }
    if all < size {
        return (all, Ok(Received::Rest(PesFault::Truncated)));
    }
    (all, Ok(Received::PesPacket(())))
}

// Returns the first `size` bytes of a slice.
#[inline(always)]
pub(crate) fn first_bytes(bytes: &[u8], size: usize) -> &[u8]
    requires { size ≤ length bytes.now }
    ensures value { result.now ≡ take size bytes.now }
    ensures bytes { AreBytes bytes.now }
{
    let (prefix, _) = bytes.split_at(size);
    prefix
}

impl PesPacketBuffer {
    // Creates an empty buffer.
    #[tactic(auto, unfolding(crate::specs::Advancing::rest_fault))]
    pub(crate) fn new() -> Self
        ensures { result ≡ [] }
    {
        PesPacketBuffer {
            room: [0; MAX_PES_PACKET_SIZE],
            len: 0,
        }
    }

    // Returns whether the buffer is empty.
    #[inline(always)]
    pub(crate) fn is_empty(&self) -> bool
        ensures { result ≡ true → self.now ≡ [] }
    {
        self.len == 0
    }

    // Copies the buffered bytes to `to`, and empties the buffer.
    #[tactic(auto, unfolding(crate::specs::Advancing::rest_fault))]
    pub(crate) fn move_buffered(&mut self, to: &mut [u8; REST_BUFFER_SIZE]) -> usize
        ensures bound { result ≤ length to.new }
        ensures bytes { take result to.new ≡ self.old }
        ensures none { self.new ≡ [] }
    {
        let buffered = self.len;
        let prefix = first_bytes(&self.room, buffered);
        to[..buffered].copy_from_slice(prefix);
        self.len = 0;
        buffered
    }

    // Reads the rest of the PES packet in the buffer and, if it is complete then, lets `taker`
    // process it. Not inlined, for speed: few packets are read in this way.
    #[inline(never)]
    pub(crate) fn next<S: Source, T: TakePesPacket>(
        &mut self,
        source: &mut S,
        taker: &mut T,
    ) -> Result<Received<T::Answer>, Failed>
        requires count { CanFail (S.failure_count source.old) }
        ensures received { Advances (buffered_before_known self.old (S.remaining source.old))
            (buffered_before_known self.new (S.remaining source.new)) (S.remaining source.new)
            T.is_take taker.old taker.new result }
        ensures borrowed { self.old ≡ [] → has_enough_for_packet (S.borrowed source.old) ≡ true
            → is_ok result ≡ true }
        ensures count { CountsFailure (S.failure_count source.old) result
            (S.failure_count source.new) }
    {
        let (len, read) = read_pes_packet(source, &mut self.room, self.len);
        self.len = len;
        match read {
            Ok(Received::End) => Ok(Received::End),
            Ok(Received::Rest(fault)) => Ok(Received::Rest(fault)),
            Ok(Received::PesPacket(())) => {
                let pes_packet = first_bytes(&self.room, len);
                let answer = taker.take(pes_packet);
                self.len = 0;
                Ok(Received::PesPacket(answer))
            }
            Err(failed) => Err(failed),
        }
    }
}
