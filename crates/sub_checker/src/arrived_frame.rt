//! Checks a valid PES packet.
ghost use Rattle.std.specs.Prelude.{◌≡◌, ℕ, suc, ◌+◌, ◌<◌, ◌≤◌, ◌==◌, ◌&&◌, List, map};
ghost use Rattle.std.specs.Prelude.{false, length, true};
ghost use Rattle.stl_file.specs.TimeCode.{day};
ghost use Rattle.ttx_pes.specs.PesGrammar.{max_units};
ghost use Rattle.ttx_pes.specs.Reading.{max_pes_packets};
ghost use Rattle.sub_packets.specs.Listener.{KnowsLast};
ghost use Rattle.sub_rules.specs.Events.{numbered_packet_events};
ghost use Rattle.sub_rules.specs.FrameRules.{Criteria};
ghost use Rattle.sub_rules.specs.PacketRules.{header_count, packets_of_units};
ghost use Rattle.sub_rules.specs.PesPacketEvents.{steps_of_more, steps_of_sent};
ghost use Rattle.sub_rules.specs.PesPackets.{sent_after, with_packets};
ghost use Rattle.sub_rules.specs.Sendings.{IsSentFrame};
ghost use Rattle.sub_rules.specs.Transmission.{Transmission};
ghost use Rattle.sub_rules.specs.Trusted.CheckStep.{Emits};
ghost use Rattle.sub_checker.specs.Checker.{AreCountsBounded, HasHeard, sent_frame_of};
ghost use Rattle.sub_checker.specs.Checker.{with_headers};
ghost use Rattle.sub_checker.specs.CheckedFrames.{AfterEnd, BetweenPesPackets, steps_of_next_frame};
ghost use Rattle.sub_checker.specs.Relay.{ReporterRelays};

use crate::checker::Checker;
use crate::reporter::Reporter;
use sub_io::ReportSink;
use sub_rules::{Event, ValidPesPacket};
use ttx_pes::SentUnits;

impl<'a> Checker<'a> {
    /// Checks PES packet number `pes`. If `within` is 0, its frame ends at once; otherwise the
    /// frame ends when a PES packet of another frame comes that is not skipped, or the file ends.
    pub fn check_pes_packet<A: ReportSink<Event>>(
        &mut self,
        pes: u32,
        sending: ValidPesPacket,
        units: &SentUnits<'_>,
        reporter: &mut Reporter<'_, A>,
    )
        requires few { length units.now ≤ max_units }
        requires day { sending.frame < day }
        requires below_limit { pes ≤ max_pes_packets }
        requires room { AreCountsBounded pes self.old.counts }
        ensures room { AreCountsBounded (pes + 1) self.new.counts }
        ensures reported { (g : Criteria) (sent : Transmission) (last : List (List ℕ))
            → BetweenPesPackets g sent last self.old
            → (sending.again ≡ true → last ≡ packets_of_units units.now)
            → ReporterRelays A.is_reported reporter.old
            (steps_of_sent g sent pes (sent_frame_of sending units.now)) reporter.new
            × BetweenPesPackets g (sent_after g.within sent (sent_frame_of sending units.now))
            (packets_of_units units.now) self.new }
    {
        if self.continues(sending.frame) {
            reporter.go_to(pes);
            self.take_more(pes, sending.again, units, reporter);
            return;
        }
        self.end_pending_frame(reporter);
        reporter.go_to(pes);
        self.check_first_of_frame(pes, sending, units, reporter);
    }

    // Returns whether a PES packet of `frame` continues the last frame: that frame has not ended
    // yet, and has the same number.
    #[inline(always)]
    fn continues(&self, frame: u32) -> bool
        ensures { result ≡ (self.now.counts.is_open && frame == self.now.frame) }
    {
        self.counts.is_open && frame == self.frame
    }

    // Checks a PES packet of a new frame.
    fn check_first_of_frame<A: ReportSink<Event>>(
        &mut self,
        pes: u32,
        sending: ValidPesPacket,
        units: &SentUnits<'_>,
        reporter: &mut Reporter<'_, A>,
    )
        requires few { length units.now ≤ max_units }
        requires day { sending.frame < day }
        requires below_limit { pes ≤ max_pes_packets }
        requires room { AreCountsBounded pes self.old.counts }
        requires closed { self.old.counts.is_open ≡ false }
        ensures room { AreCountsBounded (pes + 1) self.new.counts }
        ensures reported { (g : Criteria) (frames : Transmission) (n : ℕ) (last : List (List ℕ))
            → AfterEnd g frames n last self.old
            → length frames ≡ suc n
            → IsSentFrame frames n sending.frame (packets_of_units units.now)
            → (sending.again ≡ true → last ≡ packets_of_units units.now)
            → ReporterRelays A.is_reported reporter.old (steps_of_next_frame g frames n)
            reporter.new
            × BetweenPesPackets g frames (packets_of_units units.now) self.new }
    {
        self.reach(sending.frame, reporter);
        self.begin_frame(reporter);
        let headers = self.hear(sending.again, 0, units, reporter);
        self.counts.frames += 1;
        if self.within == 0 {
            self.end_sent_frame(headers > 0, reporter);
            return;
        }
        self.counts.leave_open(headers, units.len() as u32);
    }

    // Checks another PES packet of the current frame.
    #[inline(never)]
    fn take_more<A: ReportSink<Event>>(
        &mut self,
        pes: u32,
        again: bool,
        units: &SentUnits<'_>,
        reporter: &mut Reporter<'_, A>,
    )
        requires few { length units.now ≤ max_units }
        requires below_limit { pes ≤ max_pes_packets }
        requires room { AreCountsBounded pes self.old.counts }
        requires opened { self.old.counts.is_open ≡ true }
        ensures room { AreCountsBounded (pes + 1) self.new.counts }
        ensures reported { (g : Criteria) (sent : Transmission) (last : List (List ℕ))
            → BetweenPesPackets g sent last self.old
            → (again ≡ true → last ≡ packets_of_units units.now)
            → ReporterRelays A.is_reported reporter.old
            (steps_of_more g sent (packets_of_units units.now))
            reporter.new
            × BetweenPesPackets g (with_packets (packets_of_units units.now) sent)
            (packets_of_units units.now) self.new }
    {
        let from = self.counts.packets;
        self.hear(again, from, units, reporter);
        self.counts.packets += units.len() as u32;
    }

    // Passes Teletext packets of the current frame to the listener, adds the headers of the page
    // to the counts, and returns their number. `from` is the number of the first packet in its
    // frame.
    #[inline(always)]
    fn hear<A: ReportSink<Event>>(
        &mut self,
        again: bool,
        from: u32,
        units: &SentUnits<'_>,
        reporter: &mut Reporter<'_, A>,
    ) -> u8
        requires few { length units.now ≤ max_units }
        requires room { self.old.counts.headers < 0xFFFF_FFFF_FF00 }
        requires from { from + max_units ≤ u32.MAX }
        ensures counts { (result ≤ 255)
            × (self.new.counts ≡ with_headers result self.old.counts) }
        ensures reported { (heard last : List (List ℕ))
            → KnowsLast heard last self.old.listener
            → (again ≡ true → last ≡ packets_of_units units.now)
            → ReporterRelays A.is_reported reporter.old
            (map Emits (numbered_packet_events self.old.listener.watched self.old.frame from heard
            (packets_of_units units.now) (length (packets_of_units units.now)))) reporter.new
            × HasHeard from heard (packets_of_units units.now) self.old self.new × (result
            ≡ header_count self.old.listener.watched.page (packets_of_units units.now)) }
    {
        let headers = self
            .listener
            .hear_pes_packet(units, again, self.frame, from, reporter);
        self.count(headers);
        headers
    }
}
