//! Moves the checker to the frame of a PES packet, and ends the frames without a PES packet before
//! it.
ghost use Rattle.std.specs.Prelude.{◌≡◌, ℕ, ◌<◌, List};
ghost use Rattle.stl_file.specs.TimeCode.{day};
ghost use Rattle.sub_rules.specs.Events.{gap_length, is_early};
ghost use Rattle.sub_rules.specs.FrameRules.{Criteria, frame_at};
ghost use Rattle.sub_rules.specs.PesPacketEvents.{steps_of_gap};
ghost use Rattle.sub_rules.specs.Transmission.{Transmission};
ghost use Rattle.sub_checker.specs.CheckedFrames.{AfterEnd, BeforeEnd, BeforePackets};
ghost use Rattle.sub_checker.specs.CheckedFrames.{steps_to_next_frame};
ghost use Rattle.sub_checker.specs.Relay.{ReporterRelays};

use crate::checker::Checker;
use crate::reporter::Reporter;
use sub_io::ReportSink;
use sub_packets::report_if;
use sub_rules::{CheckFault, Event};

impl<'a> Checker<'a> {
    /// Moves the checker to the frame of a PES packet that begins a new frame. For the first PES
    /// packet, reports a subtitle that begins before it; for a later one, reports a frame number
    /// that does not increase, and ends the frames without a PES packet in between.
    pub fn reach<A: ReportSink<Event>>(&mut self, frame: u32, reporter: &mut Reporter<'_, A>)
        requires day { frame < day }
        ensures counts { self.new.counts ≡ self.old.counts }
        ensures frame { self.new.frame ≡ frame }
        ensures reported { (g : Criteria) (frames : Transmission) (n : ℕ) (last : List (List ℕ))
            → AfterEnd g frames n last self.old → frame_at frames n ≡ frame
            → ReporterRelays A.is_reported reporter.old (steps_to_next_frame g frames n)
            reporter.new
            × BeforePackets g frames n last self.new }
    {
        if self.counts.frames == 0 {
            self.begin(frame, reporter);
        } else {
            self.go_to(frame, reporter);
        }
    }

    // Moves the checker to the frame of the first PES packet. Reports a subtitle that begins before
    // it.
    fn begin<A: ReportSink<Event>>(&mut self, frame: u32, reporter: &mut Reporter<'_, A>)
        requires day { frame < day }
        ensures counts { self.new.counts ≡ self.old.counts }
        ensures frame { self.new.frame ≡ frame }
        ensures reported { (g : Criteria) (frames : Transmission) (last : List (List ℕ))
            → AfterEnd g frames 0 last self.old → frame_at frames 0 ≡ frame
            → ReporterRelays A.is_reported reporter.old (steps_to_next_frame g frames 0)
            reporter.new
            × BeforePackets g frames 0 last self.new }
    {
        let is_reported = is_early(self.programme.first_tci(), frame);
        report_if(
            is_reported,
            Event::Reported(CheckFault::Early { frame }),
            reporter,
        );
        self.start(frame);
    }

    // Moves the checker to the frame of a later PES packet. Reports a frame number that does not
    // increase, and ends the frames without a PES packet in between.
    fn go_to<A: ReportSink<Event>>(&mut self, frame: u32, reporter: &mut Reporter<'_, A>)
        requires day { frame < day }
        ensures counts { self.new.counts ≡ self.old.counts }
        ensures frame { self.new.frame ≡ frame }
        ensures reported { (g : Criteria) (frames : Transmission) (n : ℕ) (last : List (List ℕ))
            → AfterEnd g frames n last self.old → 0 < n → frame_at frames n ≡ frame
            → ReporterRelays A.is_reported reporter.old (steps_to_next_frame g frames n)
            reporter.new
            × BeforePackets g frames n last self.new }
    {
        let pes = self.counts.frames;
        let is_reported = frame <= self.last;
        report_if(
            is_reported,
            Event::Reported(CheckFault::Order { pes }),
            reporter,
        );
        self.end_gap_frames(frame, reporter);
        self.arrive(frame);
    }

    // Ends the frames between the greatest frame number so far and frame `to`, which have no PES
    // packet.
    fn end_gap_frames<A: ReportSink<Event>>(&mut self, to: u32, reporter: &mut Reporter<'_, A>)
        requires day { to < day }
        ensures counts { self.new.counts ≡ self.old.counts }
        ensures latest_frame { self.new.latest_frame ≡ self.old.latest_frame }
        ensures reported { (g : Criteria) (frames : Transmission) (n : ℕ) (last : List (List ℕ))
            → AfterEnd g frames n last self.old → 0 < n → frame_at frames n ≡ to
            → ReporterRelays A.is_reported reporter.old
            (steps_of_gap g frames n (gap_length frames n))
            reporter.new
            × BeforeEnd g frames n to last self.new }
    {
        for f in self.latest_frame + 1..to {
            self.move_to(f);
            self.end_of_frame(reporter);
        }
    }
}

// Returns whether the first subtitle begins before `frame`, the frame of the first PES packet.
fn is_early(first_tci: Option<u32>, frame: u32) -> bool
    ensures { result ≡ is_early first_tci frame }
{
    match first_tci {
        Some(first) => first < frame,
        None => false,
    }
}
