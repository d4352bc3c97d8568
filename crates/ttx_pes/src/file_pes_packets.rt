//! Reads the PES packets of a PES file.
ghost use Rattle.std.specs.Prelude.{◌≡◌, ◌≤◌, [], ◌∷◌, IfNone, IfSome, Ok, Some, length, take};
ghost use Rattle.std.specs.Prelude.{true};
ghost use Rattle.sub_io.specs.Device.{CanFail};
ghost use Rattle.ttx_pes.specs.Advancing.{TakesPesPacketWith, buffered_before_known};
ghost use Rattle.ttx_pes.specs.Advancing.{has_borrowed_pes_packet};
ghost use Rattle.ttx_pes.specs.PesGrammar.{payload_size};
ghost use Rattle.ttx_pes.specs.Reading.{size_at};

use crate::borrowed_packet::has_enough_for_packet;
use crate::numbered_pes_packets::{FailedAt, NumberedPesPackets};
use crate::pes_header::decode_packet_size;
use crate::pes_packet_buffer::{PesPacketBuffer, first_bytes};
use crate::pes_packets::{PesPackets, REST_BUFFER_SIZE, Received, TakePesPacket};
use sub_io::{Failed, Source};

/// A reader of the PES packets of a PES file. A packet that is completely buffered in the source is
/// not copied.
#[derive(Drop)]
pub struct FilePesPackets<'a, S> {
    source: &'a mut S,
    // The bytes read from the source after the last PES packet: the first bytes of a packet that
    // was not completely buffered in the source, or bytes that do not begin with a packet.
    begun: PesPacketBuffer,
}

impl<'a, S: Source> FilePesPackets<'a, S> {
    /// Creates a reader of the PES packets in the remaining bytes of the source.
    pub fn new(source: &'a mut S) -> Self
        ensures none { result.begun ≡ [] }
        ensures same { result.source.ghost_name ≡ source.entry.ghost_name }
        ensures now { result.source.now ≡ source.old }
    {
        FilePesPackets {
            source,
            begun: PesPacketBuffer::new(),
        }
    }
}

// Returns the size of the PES packet at the front of `bytes`, or `None` if it is incomplete, or its
// start code or length is wrong.
#[inline(always)]
fn complete_size(bytes: &[u8]) -> Option<usize>
    ensures reported { IfSome result (λ size. size_at (take 6 bytes.now) ≡ Ok size) }
    ensures long { IfSome result (λ size. payload_size ≤ size) }
    ensures whole { IfSome result (λ size. size ≤ length bytes.now) }
{
    let Some(head) = bytes.first_chunk() else {
        return None;
    };
    match decode_packet_size(head) {
        Ok(size) => {
            if size <= bytes.len() {
                Some(size)
            } else {
                None
            }
        }
        Err(_) => None,
    }
}

// If the next PES packet is completely buffered in the source, lets `taker` process it, and skips
// it. Otherwise does nothing and returns `None`.
#[inline(always)]
fn take_borrowed<S: Source, T: TakePesPacket>(source: &mut S, taker: &mut T) -> Option<T::Answer>
    requires count { CanFail (S.failure_count source.old) }
    ensures some { IfSome result (λ answer. TakesPesPacketWith T.is_take
        (S.remaining source.old) (S.remaining source.new) taker.old answer taker.new) }
    ensures none { IfNone result ((source.new ≡ source.old) × (taker.new ≡ taker.old)) }
    ensures count { S.failure_count source.new ≡ S.failure_count source.old }
{
    let buffered = source.buffered();
    let Some(size) = complete_size(buffered) else {
        return None;
    };
    let pes_packet = first_bytes(buffered, size);
    let answer = taker.take(pes_packet);
    let _is_skipped = source.skip_bytes(size);
    Some(answer)
}

impl<S: Source> PesPackets for FilePesPackets<'_, S> {
    ghost remaining = { λ f. buffered_before_known f.begun (S.remaining f.source.now) };

    ghost left = { λ f. S.remaining f.source.now };

    ghost failure_count = { λ f. S.failure_count f.source.now };

    ghost may_read_rest = { λ f. true };

    ghost ready = { λ f. has_borrowed_pes_packet f.begun (S.borrowed f.source.now) };

    ghost device = { λ f. f.source.ghost_name ∷ [] };

    #[inline(always)]
    fn next<T: TakePesPacket>(&mut self, taker: &mut T) -> Result<Received<T::Answer>, Failed> {
        if self.begun.is_empty() {
            if let Some(answer) = take_borrowed(self.source, taker) {
                return Ok(Received::PesPacket(answer));
            }
        }
        self.begun.next(self.source, taker)
    }

    fn read_rest(&mut self, room: &mut [u8; REST_BUFFER_SIZE]) -> Result<usize, Failed> {
        let buffered = self.begun.move_buffered(room);
        if buffered > 0 {
            return Ok(buffered);
        }
        self.source.pull(room)
    }

    fn is_ready(&self) -> bool {
        self.begun.is_empty() && has_enough_for_packet(self.source.buffered())
    }
}

impl<S: Source> NumberedPesPackets for FilePesPackets<'_, S> {
    ghost first = { λ f. Some 0 };

    ghost skipped = { λ f. 0 };

    /// Returns 0, the index of the first PES packet.
    fn find_first(&mut self) -> Result<u64, FailedAt> {
        Ok(0)
    }
}
