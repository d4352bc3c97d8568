//! Reassembles the PES packets of a PID from its transport packets.
ghost use Rattle.std.specs.Prelude.{◌≡◌, ◌≤◌, ◌↔◌, length, []};
ghost use Rattle.std.specs.Prelude.{◌&&◌, false, true};
ghost use Rattle.mpeg_ts.specs.GoodPackets.{Wrong, Loss, event_of_packet};
ghost use Rattle.mpeg_ts.specs.Joining.{IsNextWithin, TakesNextOrRest, TakesNext, after_pid_event};
ghost use Rattle.mpeg_ts.specs.Joining.{after_valid_packet};
ghost use Rattle.mpeg_ts.specs.Joining.{begun, with_no_bytes, gave_pes_packet, last_output_after};
ghost use Rattle.mpeg_ts.specs.Joining.{continue_part};
ghost use Rattle.mpeg_ts.specs.Joining.{grow_part};
ghost use Rattle.mpeg_ts.specs.Joining.{has_ended, with_buffered_payload, is_complete, link_after};
ghost use Rattle.mpeg_ts.specs.Joining.{gap_marker_item};
ghost use Rattle.mpeg_ts.specs.Joining.{initial_joining, with_remembered_packet, repeats};
ghost use Rattle.mpeg_ts.specs.Joining.{taken_bytes};
ghost use Rattle.mpeg_ts.specs.Parts.{is_break, is_seam, is_unlinked};
ghost use Rattle.mpeg_ts.specs.TransportPacket.{has_payload, is_unusable, payload};

use crate::gap_marker::gap_marker_bytes;
use crate::part_bytes::{PartBytes, find_packet};
use crate::pending_item::{Next, PendingItem, gap_marker_item};
use crate::transport_packet::{
    PACKET, announces_jump, begins, counter_of, has_payload, is_unusable, payload_of,
};
use std::marker::Model;
use ttx_pes::PesFault;

/// The progress of the current part (`specs/Parts.antt`), to which the last good transport packet
/// belongs.
#[derive(Drop)]
pub(crate) enum PartState {
    /// No PES packet has begun, or its first bytes are missing. Payloads give no output.
    WithoutStart,
    /// A PES packet has begun and is incomplete.
    Open,
    /// The current PES packet is complete. It was returned or is pending.
    Complete,
    /// The start code or length is not that of a Teletext PES packet. The bytes were returned or
    /// are pending, unchanged, and nothing is returned after them.
    Ended,
}

/// Whether a PES packet or a gap marker became pending last. It may still be pending.
#[derive(Drop)]
pub(crate) enum Given {
    /// No PES packet has become pending yet.
    Nothing,
    /// A PES packet became pending last.
    Packet,
    /// A gap marker after a PES packet became pending last.
    GapMarker,
}

/// A classification of the bytes collected for a PES packet.
#[derive(Drop)]
pub(crate) enum Found {
    /// An incomplete PES packet, or fewer than six bytes.
    IncompletePesPacket,
    /// A complete PES packet of this size in bytes.
    CompletePesPacket(usize),
    /// Bytes with a wrong start code or length.
    Other(PesFault),
}

/// Reassembles the PES packets of a PID. The caller passes the transport packets of the PID one by
/// one, and must take all pending items before it passes the next transport packet.
///
/// Its model has the state of reassembly and the pending bytes.
#[derive(Drop)]
pub struct Joining {
    // The payloads collected for the current PES packet, or only the last payload if that is not
    // part of a PES packet to be returned.
    bytes: PartBytes,
    // The last good transport packet: its bytes 0 to 3, the size of its payload at the end of
    // `bytes` (0 before the first good packet, and after `bytes` was cleared), and whether it
    // announced a discontinuity.
    header: [u8; 4],
    payload_size: usize,
    announced: bool,
    // Events since the last good transport packet: it was repeated, a usable packet without a
    // payload announced a discontinuity, or an unusable packet or a loss came.
    has_repeat: bool,
    has_jump: bool,
    has_break: bool,
    part: PartState,
    given: Given,
    pending_item: PendingItem,
}

impl Model for Joining {
    ghost use Rattle.std.specs.Prelude.{◌-◌, drop, length};
    ghost use Rattle.mpeg_ts.specs.Joining.{JoiningValue, IsJoining, pending_item_bytes};

    ghost Value = { JoiningValue };

    ghost view = { λ j. record {
      header = j.header;
      announced = j.announced;
      last = drop (length j.bytes - j.payload_size) j.bytes;
      has_repeat = j.has_repeat;
      has_jump = j.has_jump;
      has_break = j.has_break;
      part = j.part;
      bytes = j.bytes;
      given = j.given;
      pending = pending_item_bytes j.pending_item j.bytes;
    } };

    ghost invariant = { λ j. IsJoining j.pending_item j.payload_size j.part j.bytes };
}

impl Joining {
    /// Creates the state before the first transport packet.
    pub fn new() -> Self
        ensures { result ≡ initial_joining }
    {
        Joining {
            bytes: PartBytes::new(),
            header: [0; 4],
            payload_size: 0,
            announced: false,
            has_repeat: false,
            has_jump: false,
            has_break: false,
            part: PartState::WithoutStart,
            given: Given::Nothing,
            pending_item: PendingItem::Nothing,
        }
    }

    /// Returns whether no item is pending.
    #[tactic(auto, using(crate::proofs::ReadyLemmas::idling))]
    #[inline(always)]
    pub fn has_nothing_pending(&self) -> bool
        ensures { (result ≡ true) ↔ (self.now.pending ≡ []) }
    {
        match self.pending_item {
            PendingItem::Nothing => true,
            _ => false,
        }
    }

    /// Returns whether the current part has ended the stream: the caller passes no more packets, so
    /// no output follows the pending bytes.
    #[inline(always)]
    pub fn has_ended(&self) -> bool
        ensures { result ≡ has_ended self.now.part }
    {
        match &self.part {
            PartState::Ended => true,
            _ => false,
        }
    }

    // Processes an unusable transport packet of the PID.
    #[tactic(auto, using(crate::proofs::ReadyLemmas::growing))]
    pub(crate) fn record_unusable_packet(&mut self)
        requires { self.old.pending ≡ [] }
        ensures { self.new ≡ after_pid_event self.old Wrong }
    {
        self.has_break = true;
        self.pending_item = gap_marker_item(record_gap(true, &mut self.given));
    }

    /// Records a loss: so many consecutive bytes were skipped that transport packets of the PID may
    /// be missing.
    pub fn record_loss(&mut self)
        ensures { self.new ≡ after_pid_event self.old Loss }
    {
        self.has_break = true;
    }

    /// Processes a transport packet of the PID.
    pub fn take_packet(&mut self, packet: &[u8; PACKET])
        requires { self.old.pending ≡ [] }
        ensures { self.new ≡ after_pid_event self.old (event_of_packet packet.now) }
    {
        if is_unusable(packet) {
            self.record_unusable_packet();
        } else {
            self.take(packet);
        }
    }

    // Processes a usable transport packet of the PID.
    #[tactic(auto, unfolding(crate::specs::Joining::after_valid_packet))]
    fn take(&mut self, packet: &[u8; PACKET])
        requires idle { self.old.pending ≡ [] }
        requires valid { is_unusable packet.now ≡ false }
        ensures { self.new ≡ after_valid_packet self.old packet.now }
    {
        if !has_payload(packet) {
            self.has_jump = self.has_jump || announces_jump(packet);
            return;
        }
        if self.is_repeat(packet) {
            self.has_repeat = true;
            return;
        }
        let is_break = self.is_break(packet);
        let is_unlinked = self.is_unlinked(packet);
        self.remember(packet);
        if begins(packet) || is_unlinked {
            self.begin_part(is_break, begins(packet), payload_of(packet));
        } else {
            self.continue_current_part(payload_of(packet));
        }
    }

    // Returns the stored payload of the last good transport packet. It is empty before the first,
    // and after the collected bytes were cleared.
    fn last_payload(&self) -> &[u8]
        ensures { result.now ≡ self.now.last }
    {
        let bytes = self.bytes.as_slice();
        let (_, last) = bytes.split_at(bytes.len() - self.payload_size);
        last
    }

    /// Returns whether a transport packet is the first repeat of the last good one, whose payload
    /// is still stored.
    pub fn is_repeat(&self, packet: &[u8; PACKET]) -> bool
        requires payload { has_payload packet.now ≡ true }
        requires valid { is_unusable packet.now ≡ false }
        ensures { result ≡ repeats self.now packet.now }
    {
        let (header, _) = packet.split_at(4);
        !self.has_repeat
            && !self.has_jump
            && (!announces_jump(packet) || self.announced)
            && header == self.header.as_slice()
            && self.last_payload() == payload_of(packet)
    }

    // Returns whether data was lost between the last good transport packet and `packet`. Returns
    // `false` for the first packet. Unless a loss or an unusable packet was recorded, also returns
    // `false` if `packet`, or a packet without a payload between them, announced a discontinuity,
    // where a loss cannot be detected.
    fn is_break(&self, packet: &[u8; PACKET]) -> bool
        ensures { result ≡ is_break (link_after self.now self.now.last packet.now) }
    {
        if self.last_payload().is_empty() {
            return false;
        }
        if self.has_break {
            return true;
        }
        if self.has_jump || announces_jump(packet) {
            return false;
        }
        counter_of(packet) != (self.header[3] % 0x10 + 1) % 0x10
    }

    // Returns whether `packet` does not continue the last good transport packet: it is the first
    // packet, data was lost before it, or it, or a packet without a payload between them, announced
    // a discontinuity.
    fn is_unlinked(&self, packet: &[u8; PACKET]) -> bool
        ensures { result ≡ is_unlinked (link_after self.now self.now.last packet.now) }
    {
        if self.last_payload().is_empty() {
            return true;
        }
        if self.has_break || self.has_jump || announces_jump(packet) {
            return true;
        }
        counter_of(packet) != (self.header[3] % 0x10 + 1) % 0x10
    }

    /// Returns whether `packet`, or a packet without a payload since the last good transport
    /// packet, announced a discontinuity (discontinuity_indicator), and no data is known to be
    /// lost. Returns `false` for the first packet.
    pub fn is_after_seam(&self, packet: &[u8; PACKET]) -> bool
        ensures { result ≡ is_seam (link_after self.now self.now.last packet.now) }
    {
        if self.last_payload().is_empty() || self.has_break {
            return false;
        }
        self.has_jump || announces_jump(packet)
    }

    // Stores a transport packet as the last good one, except for its payload.
    #[inline(always)]
    fn remember(&mut self, packet: &[u8; PACKET])
        ensures { self.new ≡ with_remembered_packet self.old packet.now }
    {
        self.header = *packet.first_chunk().unwrap();
        self.announced = announces_jump(packet);
        self.has_repeat = false;
        self.has_jump = false;
        self.has_break = false;
    }

    // Returns whether the current PES packet is complete, so that it was returned or is pending.
    fn is_complete(&self) -> bool
        ensures { result ≡ is_complete self.now.part }
    {
        match &self.part {
            PartState::Complete => true,
            _ => false,
        }
    }

    // Begins to collect a new PES packet with this payload, if `begins` is true. Otherwise the
    // first bytes of the PES packet are missing, and its payloads give no output.
    #[inline(always)]
    fn begin_part(&mut self, is_break: bool, begins: bool, payload: &[u8])
        requires idle { self.old.pending ≡ [] }
        requires some { 1 ≤ length payload.now }
        requires most { length payload.now ≤ 184 }
        ensures { self.new ≡ begun is_break begins self.old payload.now }
    {
        let gap = is_break || !self.is_complete();
        if begins {
            self.clear();
            self.append_payload(gap, payload);
        } else {
            self.part = PartState::WithoutStart;
            self.buffer_payload(gap, payload);
        }
    }

    // Appends a payload to the current PES packet if that is incomplete. After a complete PES
    // packet, the payload counts as a gap. If the packet's first bytes are missing, it gives no
    // output.
    #[inline(always)]
    fn continue_current_part(&mut self, payload: &[u8])
        requires idle { self.old.pending ≡ [] }
        requires some { 1 ≤ length payload.now }
        requires most { length payload.now ≤ 184 }
        ensures { self.new ≡ continue_part self.old.part self.old payload.now }
    {
        match &self.part {
            PartState::Open => self.append_payload(false, payload),
            PartState::Complete => self.buffer_payload(true, payload),
            _ => self.buffer_payload(false, payload),
        }
    }

    // Clears the bytes collected for the current PES packet, and the last payload.
    #[tactic(auto, using(crate::proofs::ReadyLemmas::idling))]
    #[inline(always)]
    fn clear(&mut self)
        requires { self.old.pending ≡ [] }
        ensures { self.new ≡ record self.old { bytes = []; last = [] } }
    {
        self.bytes.clear();
        self.payload_size = 0;
    }

    // Stores a payload that is not part of a PES packet to be returned, and clears all earlier
    // bytes.
    #[tactic(auto, using(crate::proofs::ReadyLemmas::growing))]
    #[inline(never)]
    fn buffer_payload(&mut self, gap: bool, payload: &[u8])
        requires idle { self.old.pending ≡ [] }
        requires most { length payload.now ≤ 184 }
        ensures { self.new ≡ with_buffered_payload gap self.old payload.now }
    {
        self.clear();
        self.bytes.add(payload);
        self.payload_size = payload.len();
        self.pending_item = gap_marker_item(record_gap(gap, &mut self.given));
    }

    // Appends a payload to an incomplete PES packet, or stores its first payload. If the PES packet
    // is now complete, it becomes pending; if its first six bytes are there and have a wrong start
    // code or length, all collected bytes do.
    #[tactic(auto, using(crate::proofs::ReadyLemmas::growing))]
    #[inline(always)]
    fn append_payload(&mut self, gap: bool, payload: &[u8])
        requires idle { self.old.pending ≡ [] }
        requires room { length self.old.bytes ≤ 1655 }
        requires most { length payload.now ≤ 184 }
        ensures { self.new ≡ grow_part gap self.old payload.now }
    {
        let gap_marker_before = record_gap(gap, &mut self.given);
        self.bytes.add(payload);
        self.payload_size = payload.len();
        match find_packet(self.bytes.as_slice()) {
            Found::IncompletePesPacket => {
                self.part = PartState::Open;
                self.pending_item = gap_marker_item(gap_marker_before);
            }
            Found::Other(fault) => {
                self.part = PartState::Ended;
                self.pending_item = PendingItem::Rest {
                    gap_marker_before,
                    fault,
                };
            }
            Found::CompletePesPacket(size) => {
                let gap_marker_after = size < self.bytes.as_slice().len();
                self.part = PartState::Complete;
                self.pending_item = PendingItem::Packet {
                    gap_marker_before,
                    size,
                    gap_marker_after,
                };
                self.given = if gap_marker_after {
                    Given::GapMarker
                } else {
                    Given::Packet
                };
            }
        }
    }

    /// Takes the next pending item. Bytes that are no PES packet stay pending, so that `read_rest`
    /// can return them; `take_next_or_rest` removes them too.
    #[tactic(auto, using(crate::proofs::ReadyLemmas::taking))]
    #[inline(always)]
    pub fn take_next(&mut self) -> Next
        ensures next { TakesNext self.old result self.new }
        ensures within { IsNextWithin result self.new.bytes }
    {
        match self.pending_item {
            PendingItem::Nothing => Next::Nothing,
            PendingItem::GapMarker => {
                self.pending_item = PendingItem::Nothing;
                Next::GapMarker
            }
            PendingItem::Packet {
                gap_marker_before,
                size,
                gap_marker_after,
            } => {
                if gap_marker_before {
                    self.pending_item = PendingItem::Packet {
                        gap_marker_before: false,
                        size,
                        gap_marker_after,
                    };
                    return Next::GapMarker;
                }
                self.pending_item = gap_marker_item(gap_marker_after);
                Next::Packet(size)
            }
            PendingItem::Rest {
                gap_marker_before,
                fault,
            } => {
                if gap_marker_before {
                    self.pending_item = PendingItem::Rest {
                        gap_marker_before: false,
                        fault,
                    };
                    return Next::GapMarker;
                }
                Next::Rest(fault)
            }
        }
    }

    /// Returns the bytes of an item that `take_next` or `take_next_or_rest` returned.
    #[inline(always)]
    pub fn taken(&self, next: Next) -> &[u8]
        requires { IsNextWithin next self.now.bytes }
        ensures { result.now ≡ taken_bytes next self.now.bytes }
    {
        match next {
            Next::Packet(size) => {
                let (packet, _) = self.bytes.as_slice().split_at(size);
                packet
            }
            Next::GapMarker => gap_marker_bytes().as_slice(),
            Next::Rest(_) => self.bytes.as_slice(),
            Next::Nothing => &[],
        }
    }

    // Returns the collected bytes.
    pub(crate) fn bytes(&self) -> &[u8]
        ensures bytes { result.now ≡ self.now.bytes }
        ensures most { length result.now ≤ 1840 }
    {
        self.bytes.as_slice()
    }

    // Clears all stored bytes, after all pending items were returned.
    #[tactic(auto, using(crate::proofs::ReadyLemmas::idling))]
    pub(crate) fn clear_returned_bytes(&mut self)
        ensures { self.new ≡ with_no_bytes self.old }
    {
        self.pending_item = PendingItem::Nothing;
        self.clear();
    }

    /// Takes the next pending item, of any kind.
    #[tactic(auto, using(crate::proofs::ReadyLemmas::firsts))]
    pub fn take_next_or_rest(&mut self) -> Next
        ensures first { TakesNextOrRest self.old result self.new }
        ensures within { IsNextWithin result self.new.bytes }
    {
        let next = self.take_next();
        match next {
            Next::Rest(_) => self.pending_item = PendingItem::Nothing,
            _ => {}
        }
        next
    }
}

// Records a gap in `given` if `gap` is true. Returns whether it needs a gap marker: only the first
// gap after a PES packet does.
#[inline(always)]
fn record_gap(gap: bool, given: &mut Given) -> bool
    ensures given { given.new ≡ last_output_after gap given.old }
    ensures due { result ≡ (gap && gave_pes_packet given.old) }
{
    if !gap {
        return false;
    }
    match &*given {
        Given::Packet => {
            *given = Given::GapMarker;
            true
        }
        _ => false,
    }
}
