//! Finds the packets of a transport stream in bytes that arrive part by part. Bytes that belong to
//! no packet are skipped and counted.
//!
//! `Stream` of `mpeg_ts` finds the packets of one PID by a search of its own. A common search would
//! look at the byte after a packet without consuming it, and would break the clause that the bytes
//! consumed by `extract` contain the bytes that it returned.
ghost use Rattle.std.specs.Prelude.{◌≡◌, ◌≤◌, ◌<◌, ◌+◌, ◌-◌, List, [], ◌++◌, ℕ, length};
ghost use Rattle.std.specs.Prelude.{IfNone, IfSome, drop, false, replicate, take, true};
ghost use Rattle.mpeg_ts.specs.PacketSize.{bytes_of};
ghost use Rattle.mpeg_ts.specs.PacketsInStep.{Skipped, begins_packet, bytes_needed, lead_size};
ghost use Rattle.ttx_page.specs.Receiver.{RunsBy};
ghost use Rattle.ts_survey.specs.Counted.{BeginsAfterSkipping};
ghost use Rattle.ts_survey.specs.Following.{accepts_any_state};
ghost use Rattle.ts_survey.specs.InStep.{ItemsFound, TakesAll, saturating_count, items_from};
ghost use Rattle.ts_survey.specs.InStep.{reports_of_items};
ghost use Rattle.ts_survey.specs.ReadBuffer.{max_retained_bytes};

use crate::text::Text;
use mpeg_ts::{PACKET, PacketSize, SYNC_BYTE};

/// The number of packet sizes that, if skipped in a row, count as a loss: packets of any PID may be
/// missing.
const LOSS_SIZE_IN_PACKETS: u64 = 15;

/// Processes the packets of a transport stream, one after another.
pub trait TakesPackets {
    // How a call changes the receiver: its state before the call, the packet, or [] for missing
    // packets, and its state afterwards.
    ghost is_taken: { Self → List ℕ → Self → Type 0 } = { accepts_any_state };

    /// Processes transport packet number `number`, and prints its lines.
    fn take(&mut self, number: u64, packet: &[u8; PACKET], text: &mut Text)
        ensures { is_taken self.old packet.now self.new };

    /// Records that packets of any PID may be missing, since many bytes were skipped.
    fn record_loss(&mut self)
        ensures { is_taken self.old [] self.new };
}

/// The state of finding the packets of a transport stream.
#[derive(Drop)]
pub struct PacketsInStep {
    size: PacketSize,
    // The number of bytes to skip before the next byte that is examined.
    lead: usize,
    in_step: bool,
    // The number of transport packets found so far.
    number: u64,
    // The number of bytes skipped in a row, and the number of all bytes skipped.
    run: u64,
    skipped: u64,
}

/// Whether a transport packet begins at an offset.
#[derive(Clone, Copy)]
enum Begins {
    Yes,
    No,
    // The bytes that show whether a packet begins have not arrived yet.
    Unknown,
}

// Returns the 188 bytes from an offset on, which may be a transport packet, if there are as many.
#[inline(always)]
fn packet_at(bytes: &[u8], place: usize) -> Option<&[u8; PACKET]>
    ensures some { IfSome result (λ packet. (place + 188 ≤ length bytes.now)
        × (packet.now ≡ take 188 (drop place bytes.now))) }
    ensures none { IfNone result (length bytes.now < place + 188) }
{
    if bytes.len() < place.saturating_add(PACKET) {
        return None;
    }
    let (_, from) = bytes.split_at(place);
    from.first_chunk()
}

impl PacketsInStep {
    /// Creates the state at the start of a stream with this packet size, after `skipped` bytes that
    /// belong to no packet.
    pub fn new(size: PacketSize, skipped: u64) -> PacketsInStep
        ensures size { result.size ≡ size }
        ensures lead { result.lead ≡ lead_size (bytes_of size) }
        ensures in_step { result.in_step ≡ true }
        ensures counted { (result.number ≡ 0) × (result.skipped ≡ skipped) }
        ensures begins { BeginsAfterSkipping skipped result }
    {
        PacketsInStep {
            size,
            lead: match size {
                PacketSize::TimeStamped => 4,
                _ => 0,
            },
            in_step: true,
            number: 0,
            run: 0,
            skipped,
        }
    }

    /// Returns the number of transport packets found so far.
    pub fn number(&self) -> u64
        ensures { result ≡ self.now.number }
    {
        self.number
    }

    /// Returns the number of bytes skipped so far, which belong to no packet.
    pub fn skipped(&self) -> u64
        ensures { result ≡ self.now.skipped }
    {
        self.skipped
    }

    // Returns the packet size in bytes.
    #[inline(always)]
    #[tactic(auto, using(crate::proofs::InStepLemmas::sizes))]
    fn distance(&self) -> usize
        ensures is { result ≡ bytes_of self.now.size }
        ensures near { 188 ≤ result }
        ensures far { result ≤ 204 }
    {
        self.size.bytes()
    }

    // Returns whether a transport packet begins at an offset of the bytes: in step, at a sync byte;
    // out of step, at a sync byte with another sync byte at the distance after it.
    #[inline(always)]
    #[tactic(auto, using(crate::proofs::InStepLemmas::starts))]
    fn begins(&self, bytes: &[u8], place: usize, is_end: bool) -> Begins
        requires { place + 188 ≤ length bytes.now }
        ensures yes { result ≡ Begins.Yes → (more : List ℕ)
            → begins_packet (bytes_of self.now.size) self.now.in_step
            (drop place (bytes.now ++ more)) ≡ true }
        ensures no { result ≡ Begins.No → (more : List ℕ) → (is_end ≡ true → more ≡ [])
            → begins_packet (bytes_of self.now.size) self.now.in_step
            (drop place (bytes.now ++ more)) ≡ false }
        ensures unknown { result ≡ Begins.Unknown → (is_end ≡ false) × (self.now.in_step ≡ false)
            × (length bytes.now ≤ place + (bytes_of self.now.size)) }
    {
        if bytes[place] != SYNC_BYTE {
            return Begins::No;
        }
        if self.in_step {
            return Begins::Yes;
        }
        let second = place + self.distance();
        if second >= bytes.len() {
            return if is_end { Begins::No } else { Begins::Unknown };
        }
        if bytes[second] == SYNC_BYTE {
            Begins::Yes
        } else {
            Begins::No
        }
    }

    /// Processes the packets in the bytes, and returns how many bytes are no longer needed.
    pub fn take<M: TakesPackets>(
        &mut self,
        bytes: &[u8],
        is_end: bool,
        to: &mut M,
        text: &mut Text,
    ) -> usize
        // Exactly the packets and gaps in the bytes are processed, in order, each once, and the
        // packets and skipped bytes are counted.
        ensures all { TakesAll M.is_taken self.old to.old bytes.now is_end result self.new to.new }
        ensures kept { length bytes.now ≤ result + max_retained_bytes }
    {
        let at = self.find_and_process(bytes, is_end, to, text);
        self.lead = at.saturating_sub(bytes.len());
        let used = at.min(bytes.len());
        if is_end {
            let rest = (bytes.len() - used) as u64;
            self.skipped = self.skipped.saturating_add(rest);
        }
        used
    }

    // Processes the packets in the bytes, and returns the offset after them and after the skipped
    // bytes, which may be after the end of the bytes.
    #[inline(always)]
    fn find_and_process<M: TakesPackets>(
        &mut self,
        bytes: &[u8],
        is_end: bool,
        to: &mut M,
        text: &mut Text,
    ) -> usize
        ensures found { ItemsFound M.is_taken self.old to.old bytes.now is_end result 0
            self.new to.new }
        ensures left { length bytes.now
            < result + bytes_needed (bytes_of self.new.size) self.new.in_step }
        ensures all { is_end ≡ true → items_from (bytes_of self.new.size) self.new.in_step
            (drop result bytes.now) ≡ [] }
    {
        let mut at = self.lead;
        for _ in 0..bytes.len() {
            let Some(packet) = packet_at(bytes, at) else {
                return at;
            };
            match self.begins(bytes, at, is_end) {
                Begins::Yes => {
                    self.take_packet(packet, to, text);
                    at += self.distance();
                }
                Begins::No => at = self.skip(bytes, at, to),
                Begins::Unknown => return at,
            }
        }
        at
    }

    // Processes a transport packet.
    #[inline(always)]
    fn take_packet<M: TakesPackets>(&mut self, packet: &[u8; PACKET], to: &mut M, text: &mut Text)
        ensures same { self.new ≡ record self.old {
          in_step = true;
          number = saturating_count self.old.number 1;
          run = 0;
        } }
        ensures taken { M.is_taken to.old packet.now to.new }
    {
        self.in_step = true;
        self.run = 0;
        self.number = self.number.saturating_add(1);
        to.take(self.number, packet, text);
    }

    // Skips a byte, and further bytes up to the next offset at which a packet may begin, or at
    // which no packet fits. Returns that offset.
    #[inline(never)]
    fn skip<M: TakesPackets>(&mut self, bytes: &[u8], place: usize, to: &mut M) -> usize
        requires { place + 188 ≤ length bytes.now }
        ensures from { place + 1 ≤ result }
        ensures skips { (more : List ℕ)
            → items_from (bytes_of self.old.size) false (drop (place + 1) (bytes.now ++ more))
            ≡ replicate (result - (place + 1)) Skipped
            ++ items_from (bytes_of self.old.size) false (drop result (bytes.now ++ more)) }
        ensures same { self.new ≡ record self.old {
          in_step = false;
          run = saturating_count self.old.run (result - place);
          skipped = saturating_count self.old.skipped (result - place);
        } }
        ensures reported { RunsBy M.is_taken to.old
            (reports_of_items (bytes_of self.old.size) self.old.run (replicate (result - place)
            Skipped))
            to.new }
    {
        let next = next_packet_start(bytes, place + 1, self.distance());
        let count = (next - place) as u64;
        self.note_skipped(count, to);
        self.run = self.run.saturating_add(count);
        self.skipped = self.skipped.saturating_add(count);
        self.in_step = false;
        next
    }

    // Records missing packets if the skipped bytes complete a gap.
    #[inline(always)]
    #[tactic(auto, using(crate::proofs::InStepLemmas::losses))]
    fn note_skipped<M: TakesPackets>(&self, count: u64, to: &mut M)
        ensures { RunsBy M.is_taken to.old
            (reports_of_items (bytes_of self.now.size) self.now.run (replicate count Skipped))
            to.new }
    {
        let loss = LOSS_SIZE_IN_PACKETS * self.distance() as u64;
        let run = self.run.saturating_add(count);
        if self.run >= loss {
            return;
        }
        if run < loss {
            return;
        }
        to.record_loss();
    }
}

// Returns the first offset from `place` on at which a packet may begin out of step, or at which no
// packet fits.
fn next_packet_start(bytes: &[u8], place: usize, distance: usize) -> usize
    requires near { 188 ≤ distance }
    requires far { distance ≤ 204 }
    requires within { place ≤ length bytes.now }
    ensures from { place ≤ result }
    ensures within { result ≤ length bytes.now }
    ensures skips { (more : List ℕ) → items_from distance false (drop place (bytes.now ++ more))
        ≡ replicate (result - place) Skipped
        ++ items_from distance false (drop result (bytes.now ++ more)) }
{
    let limit = bytes.len().saturating_sub(PACKET - 1);
    if place >= limit {
        return place;
    }
    for start in place..limit {
        if may_begin_packet(bytes, start, distance) {
            return start;
        }
    }
    limit
}

// Returns whether a packet may begin at an offset out of step: at a sync byte, if the byte at the
// distance after it is another sync byte or has not arrived yet.
#[inline(always)]
#[tactic(auto, using(crate::proofs::InStepLemmas::starts))]
fn may_begin_packet(bytes: &[u8], place: usize, distance: usize) -> bool
    requires near { 188 ≤ distance }
    requires far { distance ≤ 204 }
    requires within { place + 188 ≤ length bytes.now }
    ensures { result ≡ false → (more : List ℕ)
        → begins_packet distance false (drop place (bytes.now ++ more)) ≡ false }
{
    if bytes[place] != SYNC_BYTE {
        return false;
    }
    let second = place + distance;
    second >= bytes.len() || bytes[second] == SYNC_BYTE
}
