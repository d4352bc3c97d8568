//! Reads the PES packets and gap markers of a PID from a recording.
//!
//! Transport packets are processed one by one. Processing all transport packets of a PES packet
//! together saved 3 percent of the instructions for a multiplex, but needed 1,400 lines.
ghost use Rattle.std.specs.Prelude.{◌≡◌, ◌≤◌, [], Some, false, is_ok, length, option_map, take};
ghost use Rattle.std.specs.Prelude.{true};
ghost use Rattle.sub_io.specs.Requesting.{Requests};
ghost use Rattle.sub_io.specs.Device.{CanFail, CountsFailure};
ghost use Rattle.sub_io.specs.Reading.{AreBytes};
ghost use Rattle.ttx_pes.specs.Advancing.{Advances, no_borrowed_devices, faulty_rest_is_answer};
ghost use Rattle.ttx_pes.specs.PesPackets.{IsPesPacket};
ghost use Rattle.mpeg_ts.specs.CarriedPackets.{carried_bytes};
ghost use Rattle.mpeg_ts.specs.PacketSize.{bytes_of};
ghost use Rattle.mpeg_ts.specs.Recording.{recording_at_start, remaining_unless_over};
ghost use Rattle.mpeg_ts.specs.Stream.{StreamValue, output_of, has_output, is_output_ready};
ghost use Rattle.mpeg_ts.specs.Stream.{remaining_output};
ghost use Rattle.mpeg_ts.specs.ConsumedStreamBytes.{OutputsBetween};

use crate::pending_item::Next;
use crate::stream::Stream;
use crate::{PacketSize, Pid};
use std::marker::Model;
use sub_io::{Failed, Source};
use ttx_pes::{
    FailedAt, NumberedPesPackets, PesPackets, REST_BUFFER_SIZE, Received, TakePesPacket,
};

/// A reader of the PES packets that the transport packets of one PID carry (ISO/IEC 13818-1). If it
/// detects that data is missing between two PES packets or after the last, it returns a gap marker:
/// 184 bytes that begin like a PES packet and are FF from byte 6 on (not defined by a standard). It
/// returns none if the recording merely ends within a PES packet.
///
/// The reader returns a PES packet before it reads any byte after the last transport packet of that
/// PES packet, with two exceptions: bytes up to the next transport packet that the source has
/// buffered, and, if reading was out of step, the bytes up to the first byte of that packet. It
/// returns a gap marker as soon as the gap is detected. It allocates no memory.
///
/// Its model has the inner source, the reading state, and whether the last call of `next` returned
/// `Rest`.
#[derive(Drop)]
pub struct RecordingPesPackets<S> {
    inner: S,
    stream: Stream,
    // Whether the last call of `next` returned `Rest`: all collected bytes are pending, and do not
    // begin with a PES packet, or `read_rest` has returned them.
    is_finished: bool,
}

impl<S> Model for RecordingPesPackets<S> {
    ghost use Rattle.std.specs.Prelude.{◌≡◌, true};
    ghost use Rattle.mpeg_ts.specs.Recording.{IsAtRest, RecordingValue};

    ghost Value = { RecordingValue S };

    ghost view = { λ r. record
        { device = r.inner; stream = r.stream; is_finished = r.is_finished } };

    ghost invariant = { λ r. r.is_finished ≡ true → IsAtRest r.stream };
}

impl<S: Source> RecordingPesPackets<S> {
    /// Creates a reader of the transport packets of `pid` at the start of a recording. It reads at
    /// most 2^48 bytes.
    #[tactic(auto, using(crate::proofs::CarriedPacketLemmas::known_output_is_carried))]
    pub fn new(source: S, pid: Pid, packet_size: PacketSize) -> Self
        ensures start { result ≡ recording_at_start source pid (bytes_of packet_size) }
        // The output of the reader is what `carried_bytes` defines: the PES packets of the PID,
        // with a gap marker after each one that a gap follows.
        ensures carried_bytes { remaining_output result.stream (S.remaining result.device)
            ≡ option_map (carried_bytes pid (bytes_of packet_size)) (S.remaining source) }
    {
        RecordingPesPackets {
            inner: source,
            stream: Stream::new(pid, packet_size),
            is_finished: false,
        }
    }

    /// Returns the inner source. Discards pending items.
    pub fn into_inner(self) -> S
        ensures { result ≡ self.device }
    {
        let RecordingPesPackets { inner, .. } = self;
        inner
    }
}

impl<S: Source> PesPackets for RecordingPesPackets<S> {
    ghost remaining = { λ r. remaining_output r.stream (S.remaining r.device) };

    ghost left = { λ r. remaining_unless_over r.is_finished (remaining_output r.stream
        (S.remaining r.device)) };

    ghost failure_count = { λ r. S.failure_count r.device };

    ghost may_read_rest = { λ r. r.is_finished };

    ghost ready = { λ r. is_output_ready r.stream };

    /// Lets `taker` process the next PES packet or gap marker, if there is one. Reads more bytes
    /// only if no item is pending.
    ///
    /// # Errors
    ///
    /// Returns `Failed` if the inner source fails.
    #[tactic(auto, using(crate::proofs::RecordingLemmas::takes))]
    #[inline(always)]
    fn next<T: TakePesPacket>(&mut self, taker: &mut T) -> Result<Received<T::Answer>, Failed>
        requires { CanFail (S.failure_count self.old.device) }
        ensures received { Advances (remaining_output self.old.stream (S.remaining self.old.device))
            (remaining_output self.new.stream (S.remaining self.new.device))
            (remaining_unless_over self.new.is_finished
            (remaining_output self.new.stream (S.remaining self.new.device)))
            T.is_take taker.old taker.new result }
        ensures rest { faulty_rest_is_answer result ≡ true → self.new.is_finished ≡ true }
        ensures ready { is_output_ready self.old.stream ≡ true → is_ok result ≡ true }
        // The consumed bytes of the recording determine what was returned, whatever bytes follow.
        ensures gives { OutputsBetween self.old.stream self.new.stream
            (S.remaining self.old.device) (S.remaining self.new.device) }
        // If a read failed, the consumed bytes give no more output than what was returned.
        ensures cut { is_ok result ≡ false → output_of self.new.stream [] ≡ [] }
        // Before the end of the source, the reader requests only bytes that it needs for its next
        // output, or that the source has buffered.
        ensures requests { (read : StreamValue) × Requests S.is_pull S.borrowed S.remaining
            (has_output self.old.stream) self.old.device (is_ok result)
            (has_output read) self.new.device }
        ensures same { no_borrowed_devices self.new ≡ no_borrowed_devices self.old }
        ensures count { CountsFailure
            (S.failure_count self.old.device) result (S.failure_count self.new.device) }
    {
        self.is_finished = false;
        self.stream.read_ahead(&mut self.inner)?;
        let next = self.stream.take_next();
        match next {
            Next::Nothing => Ok(Received::End),
            Next::Rest(fault) => {
                self.is_finished = true;
                Ok(Received::Rest(fault))
            }
            _ => Ok(Received::PesPacket(take_with(taker, self.stream.taken(next)))),
        }
    }

    /// Copies the remaining bytes, which do not begin with a PES packet, to the front of `room`,
    /// and returns their number. They are all collected bytes.
    #[tactic(auto, using(crate::proofs::RecordingLemmas::rests))]
    fn read_rest(&mut self, room: &mut [u8; REST_BUFFER_SIZE]) -> Result<usize, Failed> {
        let bytes = self.stream.bytes();
        let count = bytes.len();
        put_in_front(room, bytes);
        self.stream.clear_returned_bytes();
        Ok(count)
    }

    /// Returns whether a PES packet, a gap marker, or bytes that are no PES packet are pending.
    #[inline(always)]
    fn is_ready(&self) -> bool {
        !self.stream.has_nothing_pending()
    }
}

impl<S: Source> NumberedPesPackets for RecordingPesPackets<S> {
    ghost first = { λ r. Some 0 };

    ghost skipped = { λ r. 0 };

    /// Returns 0, the index of the first PES packet.
    fn find_first(&mut self) -> Result<u64, FailedAt> {
        Ok(0)
    }
}

// Copies bytes to the front of `room`.
fn put_in_front(room: &mut [u8; REST_BUFFER_SIZE], bytes: &[u8])
    requires { length bytes.now ≤ length room.old }
    ensures { take (length bytes.now) room.new ≡ bytes.now }
{
    let (prefix, _) = room.split_at_mut(bytes.len());
    prefix.copy_from_slice(bytes);
}

// Lets `taker` process a PES packet. The contract states that the packet consists of bytes.
#[inline(always)]
fn take_with<T: TakePesPacket>(taker: &mut T, pes_packet: &[u8]) -> T::Answer
    requires { IsPesPacket pes_packet.now }
    ensures takes { T.is_take taker.old pes_packet.now result taker.new }
    ensures fit { AreBytes pes_packet.now }
{
    taker.take(pes_packet)
}
