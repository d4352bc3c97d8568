//! A buffer that collects the payloads of a PES packet.
ghost use Rattle.std.specs.Prelude.{◌≡◌, ℕ, ◌+◌, ◌≤◌, [], ◌++◌, length, take};
ghost use Rattle.sub_io.specs.Reading.{AreBytes};
ghost use Rattle.ttx_pes.specs.PesPackets.{IsPesPacket};
ghost use Rattle.ttx_pes.specs.declared.fault.PesFault.{PesFault};
ghost use Rattle.mpeg_ts.specs.Joining.{IsRefusedAtStart, found_in};
ghost use Rattle.mpeg_ts.specs.declared.joining.Found.TheVariants.{Other, IncompletePesPacket};
ghost use Rattle.mpeg_ts.specs.declared.joining.Found.TheVariants.{CompletePesPacket};

use crate::joining::Found;
use std::marker::Model;
use ttx_pes::decode_packet_size;

// The size of the buffer in bytes: an incomplete PES packet and one more payload fit in it.
const BUFFER_SIZE: usize = 1840;

/// The bytes collected for a PES packet. Clearing them takes constant time.
#[derive(Drop)]
pub(crate) struct PartBytes {
    room: [u8; BUFFER_SIZE],
    len: usize,
}

impl Model for PartBytes {
    ghost use Rattle.std.specs.Prelude.{ℕ, ◌≤◌, List, take};

    ghost Value = { List ℕ };

    ghost view = { λ b. take b.len b.room };

    ghost invariant = { λ b. b.len ≤ 1840 };
}

impl PartBytes {
    // Creates an empty buffer for the bytes of a PES packet.
    pub(crate) fn new() -> Self
        ensures { result ≡ [] }
    {
        PartBytes {
            room: [0; BUFFER_SIZE],
            len: 0,
        }
    }

    // Returns the bytes collected for a PES packet.
    #[inline(always)]
    pub(crate) fn as_slice(&self) -> &[u8]
        ensures bytes { result.now ≡ self.now }
        ensures most { length result.now ≤ 1840 }
    {
        let (bytes, _) = self.room.split_at(self.len);
        bytes
    }

    // Removes all bytes collected for a PES packet.
    #[inline(always)]
    pub(crate) fn clear(&mut self)
        ensures { self.new ≡ [] }
    {
        self.len = 0;
    }

    // Appends bytes to those collected for a PES packet.
    #[inline(always)]
    pub(crate) fn add(&mut self, more: &[u8])
        requires { length self.old + length more.now ≤ 1840 }
        ensures bytes { self.new ≡ self.old ++ more.now }
        ensures len { length self.new ≡ length self.old + length more.now }
    {
        let at = self.len;
        let end = at + more.len();
        self.room[at..end].copy_from_slice(more);
        self.len = end;
    }
}

// Examines whether the collected bytes begin with a PES packet.
#[inline(always)]
pub(crate) fn find_packet(bytes: &[u8]) -> Found
    ensures found { found_in bytes.now ≡ result }
    ensures open { result ≡ IncompletePesPacket → length bytes.now ≤ 1655 }
    ensures packet { (size : ℕ) → result ≡ CompletePesPacket size
        → IsPesPacket (take size bytes.now) × (size ≤ length bytes.now) }
    ensures other { (fault : PesFault) → result ≡ Other fault → IsRefusedAtStart bytes.now fault }
{
    find_packet_at_start(bytes)
}

// Examines whether the bytes begin with a PES packet, by the start code and length in their first
// six bytes.
#[tactic(auto, unfolding(crate::specs::Joining::found_in))]
#[inline(always)]
fn find_packet_at_start(bytes: &[u8]) -> Found
    ensures found { found_in bytes.now ≡ result }
    ensures open { result ≡ IncompletePesPacket → length bytes.now ≤ 1655 }
    ensures fit { AreBytes bytes.now }
{
    let Some(head) = bytes.first_chunk() else {
        return Found::IncompletePesPacket;
    };
    match decode_packet_size(head) {
        Err(fault) => Found::Other(fault),
        Ok(size) => {
            if size <= bytes.len() {
                Found::CompletePesPacket(size)
            } else {
                Found::IncompletePesPacket
            }
        }
    }
}
