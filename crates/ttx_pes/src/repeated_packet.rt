//! PES packets that are sent repeatedly, each time with a new PTS.
ghost use Rattle.std.specs.Prelude.{◌≡◌, ◌++◌, ◌^◌, ◌<◌, ◌≤◌, drop, length, take};
ghost use Rattle.sub_io.specs.Device.{CanFail, CountsFailure, Writes};
ghost use Rattle.ttx_pes.specs.PesGrammar.{canonical_packet, numbered_frame, pts_bytes};

use crate::numbered_frames::frame_of;
use crate::pes_frame::PesFrame;
use crate::pes_header::encode_pts;
use crate::writer::{Bytes, packet_of};
use std::marker::Model;
use sub_io::{Failed, Sink, put_all};
use ttx_packet::Packet;

/// A PES packet that is built once and sent repeatedly; only its PTS is set each time (EN 300 472).
///
/// Its model is the contents of the packet: its PTS and its units.
#[derive(Drop)]
pub struct RepeatedPacket {
    frame: PesFrame,
    // The bytes of the canonical packet.
    bytes: Bytes,
}

impl Model for RepeatedPacket {
    ghost use Rattle.std.specs.Prelude.{◌≡◌};
    ghost use Rattle.ttx_pes.specs.PesGrammar.{PesValue, canonical_packet};

    ghost Value = { PesValue };

    ghost view = { λ p. p.frame };

    ghost invariant = { λ p. p.bytes.items ≡ canonical_packet p.frame };
}

impl RepeatedPacket {
    /// Creates a PES packet with these Teletext packets and PTS 0. The lines are those that
    /// `put_frame` uses.
    ///
    /// At most 32 Teletext packets fit.
    pub fn from_packets(packets: &[Packet]) -> Self
        requires { length packets.now ≤ 32 }
        ensures { result ≡ numbered_frame 0 packets.now }
    {
        let frame = frame_of(0, packets);
        let bytes = packet_of(&frame);
        RepeatedPacket { frame, bytes }
    }

    /// Sets the PTS of the packet in ticks of 90 kHz, 33 bits. The units do not change.
    pub fn set_pts(&mut self, pts: u64)
        requires { pts < 2 ^ 33 }
        ensures { self.new ≡ record self.old { pts = pts } }
    {
        self.frame.set_pts(pts);
        put_pts(self.bytes.as_mut_slice(), pts);
    }

    /// Writes the canonical packet with this PTS and these units.
    ///
    /// # Errors
    ///
    /// Returns `Failed` if the sink fails. A prefix of the packet was written.
    pub fn put<K: Sink>(&self, sink: &mut K) -> Result<(), Failed>
        requires { CanFail (K.failure_count sink.old) }
        ensures bytes { Writes (K.contents sink.old) (K.contents sink.new)
            (canonical_packet self.now) result }
        ensures count { CountsFailure (K.failure_count sink.old) result (K.failure_count sink.new) }
    {
        put_all(sink, self.bytes.as_slice())
    }
}

// Sets the PTS in the bytes of a PES packet.
fn put_pts(bytes: &mut [u8], pts: u64)
    requires room { 14 ≤ length bytes.old }
    requires fits { pts < 2 ^ 33 }
    ensures { bytes.new ≡ take 9 bytes.old ++ (pts_bytes pts ++ drop 14 bytes.old) }
{
    let (_, rest) = bytes.split_at_mut(9);
    let (time, _) = rest.split_at_mut(5);
    time.copy_from_slice(&encode_pts(pts));
}
