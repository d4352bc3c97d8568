//! The last PES packet, which a comparing reader stores.
ghost use Rattle.std.specs.Prelude.{◌≡◌, ◌+◌, ◌%◌, ◌≤◌, [], drop, length, take};
ghost use Rattle.ttx_pes.specs.PesGrammar.{IsPesValue, empty_value, max_pes_packet_size};
ghost use Rattle.ttx_pes.specs.PesGrammar.{payload_size};
ghost use Rattle.ttx_pes.specs.PesPackets.{IsPesPacket};
ghost use Rattle.ttx_pes.specs.Accepting.{BuffersPesPacket};

use crate::buffered_packet::BufferedPacket;
use crate::fault::PesFault;
use crate::pes_header::MAX_PES_PACKET_SIZE;
use crate::pes_packet_buffer::PacketBuffer;
use crate::pes_packets::TakePesPacket;
use crate::sent_units::SentUnits;
use std::marker::Model;

/// The last PES packet: its PTS, and its data field (bytes 45 to the end) with the Teletext units.
#[derive(Drop)]
pub(crate) struct FrameBuffer {
    // A buffer for the bytes of the stored packet. A repeat is not copied, so bytes 0 to 44 may be
    // those of an earlier packet.
    room: PacketBuffer,
    known: BufferedPacket,
}

impl Model for FrameBuffer {
    ghost use Rattle.ttx_pes.specs.Accepting.{ArePacketFields, FrameBufferValue};
    ghost use Rattle.ttx_pes.specs.Accepting.{data_field_in_buffer};
    ghost use Rattle.ttx_pes.specs.Accepting.{buffered_frame};

    ghost Value = { FrameBufferValue };

    ghost view = { λ k. record {
      frame = buffered_frame (data_field_in_buffer k.known.count k.room) k.known;
      data_field = data_field_in_buffer k.known.count k.room;
    } };

    ghost invariant = { λ k. ArePacketFields (data_field_in_buffer k.known.count k.room) k.known };
}

// Returns the bytes of a PES packet from byte 6 on.
#[inline(always)]
#[tactic(auto, using(crate::proofs::PesPacketBufferLemmas::pes_packet_size_is_stated))]
pub(crate) fn pes_packet_body(pes_packet: &[u8]) -> &[u8]
    requires { IsPesPacket pes_packet.now }
    ensures value { result.now ≡ drop 6 pes_packet.now }
    ensures long { payload_size ≤ length result.now + 6 }
    ensures short { length result.now + 6 ≤ max_pes_packet_size }
    ensures whole { (length result.now + 6) % payload_size ≡ 0 }
    ensures size { length pes_packet.now ≡ length result.now + 6 }
{
    let (_, body) = pes_packet.split_at(6);
    body
}

// Copies a PES packet to the front of the buffer.
#[inline(always)]
fn put_in_buffer(room: &mut PacketBuffer, pes_packet: &[u8])
    requires { length pes_packet.now ≤ max_pes_packet_size }
    ensures { take (length pes_packet.now) room.new ≡ pes_packet.now }
{
    let (prefix, _) = room.split_at_mut(pes_packet.len());
    prefix.copy_from_slice(pes_packet);
}

impl FrameBuffer {
    // Creates a value without a PES packet.
    pub(crate) fn new() -> Self
        ensures { result ≡ record { frame = empty_value; data_field = [] } }
    {
        FrameBuffer {
            room: [0; MAX_PES_PACKET_SIZE],
            known: BufferedPacket::new(),
        }
    }

    // Returns the PTS of the stored packet, in ticks of 90 kHz, or 0 if no packet is stored.
    pub(crate) fn pts(&self) -> u64
        ensures { result ≡ self.now.frame.pts }
    {
        self.known.pts()
    }

    // Returns the Teletext units of the stored packet, or no units if no packet is stored.
    pub(crate) fn units(&self) -> SentUnits<'_>
        ensures value { result ≡ self.now.frame.units }
        ensures frame { IsPesValue self.now.frame }
    {
        self.known.units(&self.room)
    }

    // Removes the stored PES packet.
    pub(crate) fn clear(&mut self)
        ensures { self.new ≡ record { frame = empty_value; data_field = [] } }
    {
        self.known.clear();
    }

    // Stores a packet that may differ from the stored one, or removes the stored one if the packet
    // is invalid. Not inlined, for speed: such packets are rare.
    #[inline(never)]
    fn compare_and_buffer(&mut self, pes_packet: &[u8]) -> Result<bool, PesFault>
        requires { IsPesPacket pes_packet.now }
        ensures { BuffersPesPacket self.old pes_packet.now result self.new }
    {
        match self.known.take(&self.room, pes_packet_body(pes_packet)) {
            Ok(true) => Ok(true),
            Ok(false) => {
                put_in_buffer(&mut self.room, pes_packet);
                Ok(false)
            }
            Err(fault) => {
                self.known.clear();
                Err(fault)
            }
        }
    }
}

impl TakePesPacket for FrameBuffer {
    // `Ok(true)` if the data field equals the stored one, `Ok(false)` if not, or the fault of the
    // packet.
    type Answer = Result<bool, PesFault>;

    ghost is_take = { BuffersPesPacket };

    // Compares a packet with the stored one, and stores it. An invalid packet only removes the
    // stored one. For speed, a repeat is tested first only if the stored packet was a repeat too.
    #[inline(always)]
    fn take(&mut self, pes_packet: &[u8]) -> Result<bool, PesFault> {
        if self.known.repeats() {
            if let Some(pts) = self.known.read_repeated_pts(&self.room, pes_packet) {
                self.known.set_pts(pts);
                return Ok(true);
            }
        }
        self.compare_and_buffer(pes_packet)
    }
}
