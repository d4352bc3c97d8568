//! Reads a recording for one PID: finds the transport packets, and reassembles the PES packets of
//! the PID.
ghost use Rattle.std.specs.Prelude.{◌≡◌, ◌+◌, ◌-◌, ◌^◌, ◌<◌, ◌≤◌, ◌↔◌, List, ℕ, [], drop};
ghost use Rattle.std.specs.Prelude.{◌≢◌, take, length};
ghost use Rattle.std.specs.Prelude.{Ok, false, is_ok, true};
ghost use Rattle.std.specs.Io.KnownBytes.{IsAtEnd, Keeps};
ghost use Rattle.sub_io.specs.Requesting.{Requests};
ghost use Rattle.sub_io.specs.Device.{CanFail, CountsFailure};
ghost use Rattle.mpeg_ts.specs.GoodPackets.{loss_size};
ghost use Rattle.mpeg_ts.specs.Joining.{IsNextWithin, TakesNext, with_no_bytes, has_ended};
ghost use Rattle.mpeg_ts.specs.Joining.{taken_bytes};
ghost use Rattle.mpeg_ts.specs.PacketSize.{bytes_of};
ghost use Rattle.mpeg_ts.specs.PacketsInStep.{begins_packet, bytes_needed, lead_size};
ghost use Rattle.mpeg_ts.specs.Stream.{after_packet, after_skipped, bytes_ahead, bytes_at_most};
ghost use Rattle.mpeg_ts.specs.Stream.{output_of, has_output, start_of_stream, remaining_output};
ghost use Rattle.mpeg_ts.specs.ConsumedStreamBytes.{TakesPrefix};

use crate::joining::Joining;
use crate::passing::{is_unit_of_pid, junk_size, packet_at_offset, place_after_other_pids};
use crate::pending_item::Next;
use crate::transport_packet::{PACKET, SYNC_BYTE, pid_of};
use crate::window::Window;
use crate::{PacketSize, Pid};
use std::marker::Model;
use sub_io::{Failed, Source};

// The maximum number of bytes that are read from a recording.
const MAX_STREAM_BYTES: u64 = 1 << 48;

/// The state of reading a recording for one PID.
#[derive(Drop)]
pub(crate) struct Stream {
    number: u16,
    distance: usize,
    window: Window,
    // The number of bytes to skip before the next item.
    lead: usize,
    in_step: bool,
    // The number of consecutive bytes skipped so far.
    run: u64,
    joining: Joining,
}

impl Model for Stream {
    ghost use Rattle.std.specs.Prelude.{◌+◌, length};
    ghost use Rattle.mpeg_ts.specs.Stream.{IsStream, StreamValue};

    ghost Value = { StreamValue };

    ghost view = { λ s. record {
      number = s.number;
      distance = s.distance;
      window = s.window;
      lead = s.lead;
      in_step = s.in_step;
      run = s.run;
      joining = s.joining;
    } };

    ghost invariant = { λ s. IsStream s.number
        s.distance s.lead s.run (length s.window.buffered + s.window.left) s.in_step };
}

// Returns the number of bytes before the first item of a recording.
fn lead_bytes_of_size(packet_size: PacketSize) -> usize
    ensures { result ≡ lead_size (bytes_of packet_size) }
{
    match packet_size {
        PacketSize::TimeStamped => 4,
        _ => 0,
    }
}

// Returns the transport packet at an offset of the buffered bytes.
fn packet_at(window: &Window, place: usize) -> &[u8; PACKET]
    requires { place + 188 ≤ length window.now.buffered }
    ensures { result.now ≡ take 188 (drop place window.now.buffered) }
{
    packet_at_offset(window.buffered(), place)
}

impl Stream {
    // Creates the reading state for the start of a recording.
    #[tactic(auto, unfolding(crate::specs::PacketsInStep::max_stream_bytes))]
    pub(crate) fn new(pid: Pid, packet_size: PacketSize) -> Self
        ensures { result ≡ start_of_stream pid (bytes_of packet_size) }
    {
        Stream {
            number: pid.number(),
            distance: packet_size.bytes(),
            window: Window::new(MAX_STREAM_BYTES),
            lead: lead_bytes_of_size(packet_size),
            in_step: true,
            run: 0,
            joining: Joining::new(),
        }
    }

    // Reads until the buffered bytes determine the next item: a transport packet or a byte outside
    // packets. Returns `false` if the recording ends, or 2^48 bytes were read, before that.
    #[tactic(auto, using(crate::proofs::StreamLemmas::needing))]
    fn read_needed<S: Source>(&mut self, source: &mut S) -> Result<bool, Failed>
        requires count { CanFail (S.failure_count source.old) }
        requires idle { self.old.joining.pending ≡ [] }
        ensures takes { TakesPrefix (output_of self.old) (output_of self.new)
            (S.remaining source.old) (S.remaining source.new) }
        ensures cut { is_ok result ≡ false → output_of self.new [] ≡ [] }
        ensures there { result ≡ Ok true → self.new.lead
            + bytes_needed self.new.distance self.new.in_step ≤ length self.new.window.buffered }
        ensures packet { result ≡ Ok true → self.new.lead + 188 ≤ length self.new.window.buffered }
        ensures end { result ≡ Ok false
            → IsAtEnd (remaining_output self.new (S.remaining source.new)) }
        ensures same { self.new ≡ record self.old { window = self.new.window } }
        ensures sum { length self.new.window.buffered + self.new.window.left
            ≡ length self.old.window.buffered + self.old.window.left }
        ensures requests { Requests S.is_pull S.borrowed S.remaining
            (has_output self.old) source.old (is_ok result) (has_output self.new) source.new }
        ensures count { CountsFailure
            (S.failure_count source.old) result (S.failure_count source.new) }
    {
        let count = self.lead + self.count_needed_bytes();
        self.window.fill_window_to(source, count)
    }

    // Returns the number of bytes that determine the next item.
    fn count_needed_bytes(&self) -> usize
        ensures { result ≡ bytes_needed self.now.distance self.now.in_step }
    {
        if self.in_step {
            PACKET
        } else {
            self.distance + 1
        }
    }

    // Returns the buffered bytes from the next item on.
    fn ahead(&self) -> &[u8]
        requires { self.now.lead ≤ length self.now.window.buffered }
        ensures { result.now ≡ drop self.now.lead self.now.window.buffered }
    {
        let (_, ahead) = self.window.buffered().split_at(self.lead);
        ahead
    }

    // Returns whether the next item is a transport packet.
    #[tactic(auto, using(crate::proofs::StreamLemmas::window_decides_packet_start))]
    fn begins_packet(&self) -> bool
        requires { self.now.lead + bytes_needed self.now.distance self.now.in_step
            ≤ length self.now.window.buffered }
        ensures { (bytes : List ℕ) → begins_packet self.now.distance self.now.in_step
            (bytes_ahead self.now bytes) ≡ result }
    {
        let ahead = self.ahead();
        ahead[0] == SYNC_BYTE && (self.in_step || ahead[self.distance] == SYNC_BYTE)
    }

    // Skips `count` bytes from the next item on.
    #[tactic(auto, using(crate::proofs::StreamLemmas::advancing))]
    fn advance(&mut self, count: usize)
        requires there { self.old.lead + 188 ≤ length self.old.window.buffered }
        requires some { 1 ≤ count }
        requires most { count ≤ 204 }
        requires few { self.old.in_step ≡ false → count ≤ 188 }
        ensures ahead { (bytes : List ℕ) →
            bytes_ahead self.new bytes ≡ drop count (bytes_ahead self.old bytes) }
        ensures same { self.new
            ≡ record self.old { window = self.new.window; lead = self.new.lead } }
        ensures lead { self.new.lead
            ≡ (self.old.lead + count) - length self.old.window.buffered }
        ensures fewer { bytes_at_most self.new < bytes_at_most self.old }
        ensures counted { self.new.run
            + (length self.new.window.buffered + self.new.window.left) + 1 ≤ 2 ^ 48 }
    {
        let count = self.lead + count;
        self.lead = self.window.advance(count);
    }

    // Processes the next item, a transport packet.
    #[tactic(auto, using(crate::proofs::StreamLemmas::packets))]
    fn take_packet(&mut self)
        requires there { self.old.lead + 188 ≤ length self.old.window.buffered }
        requires idle { self.old.joining.pending ≡ [] }
        requires not_ended { has_ended self.old.joining.part ≡ false }
        ensures gives { (bytes : List ℕ)
            → begins_packet self.old.distance self.old.in_step (bytes_ahead self.old bytes) ≡ true
            → output_of self.new bytes ≡ output_of self.old bytes }
        ensures fewer { bytes_at_most self.new < bytes_at_most self.old }
    {
        self.in_step = true;
        self.run = 0;
        self.join_packet();
        let distance = self.distance;
        self.advance(distance);
    }

    // Passes the next item, a transport packet, to the reassembly if it has the PID.
    fn join_packet(&mut self)
        requires there { self.old.lead + 188 ≤ length self.old.window.buffered }
        requires idle { self.old.joining.pending ≡ [] }
        ensures { self.new ≡ record self.old {
          joining = after_packet self.old.number
              (take 188 (drop self.old.lead self.old.window.buffered)) self.old.joining;
        } }
    {
        let packet = *packet_at(&self.window, self.lead);
        self.join(&packet);
    }

    // Passes a transport packet to the reassembly, if it has the PID.
    #[inline(always)]
    fn join(&mut self, packet: &[u8; PACKET])
        requires { self.old.joining.pending ≡ [] }
        ensures { self.new ≡ record self.old {
          joining = after_packet self.old.number packet.now self.old.joining;
        } }
    {
        if pid_of(packet) != self.number {
            return;
        }
        self.joining.take_packet(packet);
    }

    // Skips a byte that belongs to no transport packet.
    #[tactic(auto, using(crate::proofs::StreamLemmas::skips))]
    fn skip(&mut self)
        requires there { self.old.lead + 188 ≤ length self.old.window.buffered }
        requires idle { self.old.joining.pending ≡ [] }
        requires not_ended { has_ended self.old.joining.part ≡ false }
        ensures gives { (bytes : List ℕ)
            → begins_packet self.old.distance self.old.in_step (bytes_ahead self.old bytes) ≡ false
            → output_of self.new bytes ≡ output_of self.old bytes }
        ensures idle { self.new.joining.pending ≡ [] }
        ensures not_ended { has_ended self.new.joining.part ≡ false }
        ensures out { self.new.in_step ≡ false }
        ensures fewer { bytes_at_most self.new < bytes_at_most self.old }
    {
        self.join_skipped();
        self.advance(1);
        self.in_step = false;
        self.run += 1;
    }

    // Returns whether the skipped bytes become a loss within the next `count` bytes.
    fn may_complete_loss(&self, count: usize) -> bool
        requires { count ≤ length self.now.window.buffered }
        ensures { result ≡ false → self.now.run < loss_size self.now.distance
            → self.now.run + count < loss_size self.now.distance }
    {
        let loss = 15 * self.distance as u64;
        self.run < loss && loss <= self.run + count as u64
    }

    // Skips the buffered bytes before the next sync byte, or all if there is none. Does nothing if
    // the skipped bytes become a loss within them; then `skip` skips single bytes up to the loss.
    #[inline(never)]
    #[tactic(auto, using(crate::proofs::StreamLemmas::junk))]
    fn skip_junk(&mut self)
        requires idle { self.old.joining.pending ≡ [] }
        requires not_ended { has_ended self.old.joining.part ≡ false }
        requires out { self.old.in_step ≡ false }
        ensures gives { (bytes : List ℕ) → output_of self.new bytes ≡ output_of self.old bytes }
        ensures most { bytes_at_most self.new ≤ bytes_at_most self.old }
    {
        let count = junk_size(self.window.buffered());
        if count == 0 || self.may_complete_loss(count) {
            return;
        }
        self.lead = self.window.advance(count);
        self.run += count as u64;
    }

    // Records a loss if the skipped bytes become a loss with the next byte.
    fn join_skipped(&mut self)
        ensures { self.new ≡ record self.old {
          joining = after_skipped self.old.distance self.old.run self.old.joining;
        } }
    {
        if self.run + 1 == 15 * self.distance as u64 {
            self.joining.record_loss();
        }
    }

    // Processes the next item, or several skipped bytes. Returns `false` if the recording ends, or
    // 2^48 bytes were read, before the next item is determined.
    #[inline(never)]
    #[tactic(auto, using(crate::proofs::StreamLemmas::steps))]
    fn step<S: Source>(&mut self, source: &mut S) -> Result<bool, Failed>
        requires count { CanFail (S.failure_count source.old) }
        requires idle { self.old.joining.pending ≡ [] }
        requires not_ended { has_ended self.old.joining.part ≡ false }
        ensures takes { TakesPrefix (output_of self.old) (output_of self.new)
            (S.remaining source.old) (S.remaining source.new) }
        ensures cut { is_ok result ≡ false → output_of self.new [] ≡ [] }
        ensures end { result ≡ Ok false
            → IsAtEnd (remaining_output self.new (S.remaining source.new)) }
        ensures fewer { result ≡ Ok true → bytes_at_most self.new < bytes_at_most self.old }
        ensures requests { Requests S.is_pull S.borrowed S.remaining
            (has_output self.old) source.old (is_ok result) (has_output self.new) source.new }
        ensures count { CountsFailure
            (S.failure_count source.old) result (S.failure_count source.new) }
    {
        if !self.read_needed(source)? {
            return Ok(false);
        }
        if self.begins_packet() {
            self.take_packet();
        } else {
            self.skip();
            self.skip_junk();
        }
        Ok(true)
    }

    // Skips packets of other PIDs in the source's buffer, without a copy, and processes the packet
    // of the PID after them if the buffer has all bytes up to the next packet. Does nothing if
    // reading is out of step, and in some other cases. Returns whether it did anything.
    #[inline(always)]
    #[tactic(auto, using(crate::proofs::StreamLemmas::skims))]
    fn take_borrowed<S: Source>(&mut self, source: &mut S) -> bool
        requires count { CanFail (S.failure_count source.old) }
        requires idle { self.old.joining.pending ≡ [] }
        requires not_ended { has_ended self.old.joining.part ≡ false }
        ensures kept { TakesPrefix (output_of self.old) (output_of self.new)
            (S.remaining source.old) (S.remaining source.new)
            × Requests S.is_pull S.borrowed S.remaining
            (has_output self.old) source.old true (has_output self.new) source.new }
        ensures fewer { result ≡ true → bytes_at_most self.new < bytes_at_most self.old }
        ensures none { result ≡ false → (self.new ≡ self.old) × (source.new ≡ source.old) }
        ensures count { S.failure_count source.new ≡ S.failure_count source.old }
    {
        if !self.in_step || self.window.len() > 0 {
            return false;
        }
        let borrowed = source.buffered();
        if borrowed.len() < self.lead || self.window.left() < borrowed.len() as u64 {
            return false;
        }
        let place = place_after_other_pids(borrowed, self.lead, self.distance, self.number);
        if !is_unit_of_pid(borrowed, place, self.distance, self.number) {
            if place <= self.lead || !source.skip_bytes(place) {
                return false;
            }
            self.window.count_skipped_bytes(place as u64);
            self.lead = 0;
            return true;
        }
        self.joining.take_packet(packet_at_offset(borrowed, place));
        let count = place + self.distance;
        source.skip_bytes(count);
        self.window.count_skipped_bytes(count as u64);
        self.lead = 0;
        true
    }

    // Returns whether no item is pending and more output may follow.
    #[inline(always)]
    fn needs_more_bytes(&self) -> bool
        ensures is_open_without_pending { result ≡ true → (self.now.joining.pending ≡ [])
            × (has_ended self.now.joining.part ≡ false) }
        ensures not { result ≡ false → self.now.joining.pending ≡ []
            → has_ended self.now.joining.part ≡ true }
    {
        self.joining.has_nothing_pending() && !self.joining.has_ended()
    }

    // Reads until an item is pending, the recording ends, 2^48 bytes were read, or no more output
    // can follow.
    #[inline(always)]
    #[tactic(auto, using(crate::proofs::StreamLemmas::reads))]
    pub(crate) fn read_ahead<S: Source>(&mut self, source: &mut S) -> Result<(), Failed>
        requires { CanFail (S.failure_count source.old) }
        ensures takes { TakesPrefix (output_of self.old) (output_of self.new)
            (S.remaining source.old) (S.remaining source.new) }
        ensures cut { is_ok result ≡ false → output_of self.new [] ≡ [] }
        ensures keeps { Keeps (remaining_output self.old (S.remaining source.old))
            (remaining_output self.new (S.remaining source.new)) }
        ensures ready { self.old.joining.pending ≢ [] → result ≡ Ok tt }
        ensures end { result ≡ Ok tt → self.new.joining.pending ≡ []
            → IsAtEnd (remaining_output self.new (S.remaining source.new)) }
        ensures requests { Requests S.is_pull S.borrowed S.remaining
            (has_output self.old) source.old (is_ok result) (has_output self.new) source.new }
        ensures count { CountsFailure
            (S.failure_count source.old) result (S.failure_count source.new) }
    {
        if !self.has_nothing_pending() {
            return Ok(());
        }
        self.read_more(source)
    }

    // Reads from the source while no item is pending and more output may follow, up to the end of
    // the recording or 2^48 bytes.
    #[inline(always)]
    #[tactic(auto, using(crate::proofs::StreamLemmas::reads))]
    fn read_more<S: Source>(&mut self, source: &mut S) -> Result<(), Failed>
        requires { CanFail (S.failure_count source.old) }
        ensures takes { TakesPrefix (output_of self.old) (output_of self.new)
            (S.remaining source.old) (S.remaining source.new) }
        ensures cut { is_ok result ≡ false → output_of self.new [] ≡ [] }
        ensures end { result ≡ Ok tt → self.new.joining.pending ≡ []
            → IsAtEnd (remaining_output self.new (S.remaining source.new)) }
        ensures requests { Requests S.is_pull S.borrowed S.remaining
            (has_output self.old) source.old (is_ok result) (has_output self.new) source.new }
        ensures count { CountsFailure
            (S.failure_count source.old) result (S.failure_count source.new) }
    {
        while self.needs_more_bytes() {
            if !self.take_borrowed(source) && !self.step(source)? {
                return Ok(());
            }
        }
        Ok(())
    }

    // Returns whether no item is pending.
    #[inline(always)]
    pub(crate) fn has_nothing_pending(&self) -> bool
        ensures { (result ≡ true) ↔ (self.now.joining.pending ≡ []) }
    {
        self.joining.has_nothing_pending()
    }

    // Takes the next pending item. Bytes that are no PES packet stay pending.
    #[inline(always)]
    pub(crate) fn take_next(&mut self) -> Next
        ensures next { TakesNext self.old.joining result self.new.joining }
        ensures within { IsNextWithin result self.new.joining.bytes }
        ensures same { self.new ≡ record self.old { joining = self.new.joining } }
    {
        self.joining.take_next()
    }

    // Returns the collected bytes.
    pub(crate) fn bytes(&self) -> &[u8]
        ensures bytes { result.now ≡ self.now.joining.bytes }
        ensures most { length result.now ≤ 1840 }
    {
        self.joining.bytes()
    }

    // Clears the collected bytes, after all pending items were returned.
    pub(crate) fn clear_returned_bytes(&mut self)
        ensures { self.new ≡ record self.old { joining = with_no_bytes self.old.joining } }
    {
        self.joining.clear_returned_bytes();
    }

    // Returns the bytes of an item that `take_next` returned.
    #[inline(always)]
    pub(crate) fn taken(&self, next: Next) -> &[u8]
        requires { IsNextWithin next self.now.joining.bytes }
        ensures { result.now ≡ taken_bytes next self.now.joining.bytes }
    {
        self.joining.taken(next)
    }
}
