//! Reassembles the data in the packets of a PID, and passes it to a receiver.
ghost use Rattle.std.specs.Prelude.{◌≡◌, List, ℕ, [], false, true};
ghost use Rattle.mpeg_ts.specs.GoodPackets.{Loss, event_of_packet};
ghost use Rattle.mpeg_ts.specs.Joining.{after_pid_event, without_pending, has_ended};
ghost use Rattle.mpeg_ts.specs.Joining.{initial_joining};
ghost use Rattle.mpeg_ts.specs.Joining.{link_after, repeats};
ghost use Rattle.mpeg_ts.specs.Parts.{is_seam};
ghost use Rattle.mpeg_ts.specs.TransportPacket.{has_payload, is_unusable};
ghost use Rattle.ts_survey.specs.Following.{PassesOnNextPart, ReceivesBytes};
ghost use Rattle.ts_survey.specs.Following.{accepts_any_state};

use crate::text::Text;
use mpeg_ts::{Joining, Next, PACKET};

/// Receives the data in the packets of a PID: PES packets and gap markers, and at the end perhaps
/// bytes that are neither.
pub trait TakesPesPackets {
    // How a call changes the receiver: its state before the call, the bytes, and its state
    // afterwards.
    ghost is_taken: { Self → List ℕ → Self → Type 0 } = { accepts_any_state };

    /// Processes a PES packet, a gap marker or other bytes, and prints its lines. `is_missing`: the
    /// gap marker replaces missing packets, and was not carried by the PID.
    fn take(&mut self, pes_packet: &[u8], is_missing: bool, text: &mut Text)
        ensures { is_taken self.old pes_packet.now self.new };
}

/// The packets of a PID, which arrive one after another.
#[derive(Drop)]
pub struct PidPackets<T> {
    joining: Joining,
    pub to: T,

    ghost idle: { joining.pending ≡ [] },
}

impl<T: TakesPesPackets> PidPackets<T> {
    /// Creates the state before the first packet of a PID.
    pub fn new(to: T) -> Self
        ensures joining { result.joining ≡ initial_joining }
        ensures to { result.to ≡ to }
    {
        PidPackets {
            joining: Joining::new(),
            to,
        }
    }

    /// Returns whether a packet is the first repeat of the last good packet. Packets that came
    /// before it but after the end of the data do not count.
    pub fn is_repeat(&self, packet: &[u8; PACKET]) -> bool
        requires payload { has_payload packet.now ≡ true }
        requires valid { is_unusable packet.now ≡ false }
        ensures { result ≡ repeats self.now.joining packet.now }
    {
        self.joining.is_repeat(packet)
    }

    /// Returns whether a jump of the counter was announced after the last good packet, at the
    /// latest by this packet, and no loss of data is known. Once the data has ended, packets
    /// between the two do not count.
    pub fn is_after_seam(&self, packet: &[u8; PACKET]) -> bool
        ensures { result ≡ is_seam (link_after self.now.joining self.now.joining.last packet.now) }
    {
        self.joining.is_after_seam(packet)
    }

    /// Records that packets of the PID may be missing, since many bytes were skipped.
    pub fn record_loss(&mut self)
        ensures joining { self.new.joining ≡ after_pid_event self.old.joining Loss }
        ensures to { self.new.to ≡ self.old.to }
    {
        self.joining.record_loss();
    }

    /// Processes a packet of the PID. All data that the packet completes is passed on at once.
    /// After bytes that are neither a PES packet nor a gap marker, no more data is passed on.
    pub fn take(&mut self, packet: &[u8; PACKET], text: &mut Text)
        ensures ended { has_ended self.old.joining.part ≡ true → self.new ≡ self.old }
        ensures joining { has_ended self.old.joining.part ≡ false → self.new.joining
            ≡ without_pending (after_pid_event self.old.joining (event_of_packet packet.now)) }
        ensures taken { has_ended self.old.joining.part ≡ false
            → ReceivesBytes T.is_taken self.old.to
            (after_pid_event self.old.joining (event_of_packet packet.now)).pending self.new.to }
    {
        if self.joining.has_ended() {
            return;
        }
        self.joining.take_packet(packet);
        give_ready(&mut self.joining, &mut self.to, text);
    }
}

// Passes all ready data on to the receiver.
#[tactic(auto, using(crate::proofs::FollowingLemmas::fewer_ready))]
fn give_ready<T: TakesPesPackets>(joining: &mut Joining, to: &mut T, text: &mut Text)
    ensures joining { joining.new ≡ without_pending joining.old }
    ensures taken { ReceivesBytes T.is_taken to.old joining.old.pending to.new }
{
    'items: while !joining.has_nothing_pending() {
        give_next(joining, to, text);
    }
}

// Passes the next part of the ready data on to the receiver.
fn give_next<T: TakesPesPackets>(joining: &mut Joining, to: &mut T, text: &mut Text)
    ensures { PassesOnNextPart T.is_taken joining.old to.old joining.new to.new }
{
    let next = joining.take_next_or_rest();
    to.take(joining.taken(next), is_gap(next), text);
}

// Returns whether the item that is ready is a gap marker for missing packets.
fn is_gap(next: Next) -> bool {
    match next {
        Next::GapMarker => true,
        _ => false,
    }
}
