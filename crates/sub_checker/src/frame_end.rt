//! Ends a frame: determines which faults are active, and reports the changes.
//!
//! ```text
//! end_pending_frame    the last frame, if it has not ended yet
//!   end_open_frame
//!     end_sent_frame   a frame with PES packets; checks that the first frame has a header
//! end_of_frame   any frame, also called by `end_sent_frame`
//!   end_without_faults  no fault is active, and none was active before
//!   end_after_full_check
//!     end_without_faults
//!     end_without_delay, end_with_delay   depending on whether `within` is 0
//! ```
ghost use Rattle.std.specs.Prelude.{◌≡◌, ◌==◌, ◌&&◌, ℕ, suc, ◌+◌, ◌<◌, List, IsTrue, None};
ghost use Rattle.std.specs.Prelude.{false, is_err, length, nat_le, not, true};
ghost use Rattle.stl_file.specs.TimeCode.{day};
ghost use Rattle.sub_checker.specs.Checker.{AreCountsBounded, checker_after_end};
ghost use Rattle.sub_checker.specs.Checker.{current_wrong_cell, end_steps};
ghost use Rattle.sub_checker.specs.Checker.{is_overdue_at, is_due_page_undecided};
ghost use Rattle.sub_checker.specs.Checker.{must_be_correct_now};
ghost use Rattle.sub_checker.specs.Checker.{IsFaultFreeEnd};
ghost use Rattle.sub_checker.specs.Checker.{current_run_start, active_faults_of};
ghost use Rattle.sub_checker.specs.Checker.{is_currently_undecided};
ghost use Rattle.sub_checker.specs.Checker.{current_unexpected_cell};
ghost use Rattle.sub_checker.specs.CheckedFrames.{AfterEnd, AfterPackets, BetweenPesPackets};
ghost use Rattle.sub_checker.specs.Relay.{ReporterRelays};
ghost use Rattle.sub_rules.specs.Events.{is_silent_for};
ghost use Rattle.sub_rules.specs.FrameRules.{Criteria, packets_of_frame};
ghost use Rattle.sub_rules.specs.PesPacketEvents.{steps_of_ending, steps_of_pending_end};
ghost use Rattle.sub_rules.specs.Transmission.{Transmission};
ghost use Rattle.sub_plan.specs.Schedule.{due_page_in};
ghost use Rattle.ttx_page.specs.PacketKind.{kind};
ghost use Rattle.ttx_page.specs.Span.{has_page_header};

use crate::checker::Checker;
use crate::late_end::{extended_unfinished_run, is_overdue};
use crate::reporter::Reporter;
use crate::rule_changes::report_change;
use sub_io::ReportSink;
use sub_packets::report_if;
use sub_rules::{ActiveFaults, CheckFault, Event};

/// The state at the end of a frame, if `within` is not 0.
#[derive(Drop)]
pub(crate) struct DelayedEnd {
    /// The faults that are active at the end of the frame.
    pub active_faults: ActiveFaults,
    /// The first frame of the current run of frames with an unfinished page.
    pub first_unfinished: Option<u32>,
    /// Whether the page is overdue: it must be correct by now.
    pub is_late: bool,
}

impl<'a> Checker<'a> {
    // Returns `true` if a few comparisons show that no fault was active at the last end and none is
    // active now, which is the usual case.
    #[inline(always)]
    #[tactic(auto, using(crate::proofs::CompletePacketLemmas::correct_frame_has_no_active_fault))]
    fn is_fault_free(&self) -> bool
        ensures { IsTrue result → IsFaultFreeEnd self.now }
    {
        if !self.active_faults.has_none() {
            return false;
        }
        if !self.listener.is_known_right() {
            return false;
        }
        self.frame + 1 < self.repeat_deadline
            && !self.is_undecided()
            && !self.listener.is_incomplete()
            && !self.is_silent()
    }

    // Returns the faults that are active at the end of the current frame, if `within` is 0.
    fn active_faults_now(&self) -> ActiveFaults
        requires each { self.now.within ≡ 0 }
        ensures { result ≡ active_faults_of self.now }
    {
        let undecided = self.is_undecided();
        let content = self.first_wrong(undecided);
        let gap = self.has_gap();
        let incomplete = self.listener.is_incomplete();
        let silent = self.is_silent();
        ActiveFaults {
            content,
            gap,
            incomplete,
            undecided,
            silent,
        }
    }

    // Returns whether the expected page is unknown at the current frame or at one of the `within`
    // frames before, of which those before the first frame do not count.
    #[inline(always)]
    fn is_undecided(&self) -> bool
        ensures { result ≡ is_currently_undecided self.now }
    {
        u64::from(self.frame) < self.first_known_from
    }

    // Returns whether the expected page is unknown at the current frame.
    fn is_due_page_unknown(&self) -> bool
        ensures { result ≡ is_due_page_undecided self.now self.now.frame }
    {
        self.has_unreliable_subtitle && self.judging.is_undecided(self.frame)
    }

    // Returns the row (1 to 24) and column (0 to 39) of the first wrong cell; `None` if no cell is
    // wrong or the expected page is unknown.
    fn first_wrong(&self, is_undecided: bool) -> Option<(u8, u8)>
        requires { is_undecided ≡ is_due_page_undecided self.now self.now.frame }
        ensures { result ≡ current_wrong_cell self.now }
    {
        if is_undecided {
            return None;
        }
        self.listener.first_wrong()
    }

    // Returns whether the repeat bound is exceeded at the end of the current frame.
    #[inline(always)]
    fn has_gap(&self) -> bool
        ensures { result ≡ nat_le self.now.repeat_deadline (self.now.frame + 1) }
    {
        self.repeat_deadline <= self.frame + 1
    }

    // Returns whether at least `--pace` frames have passed since the latest frame with a PES
    // packet. Skipped PES packets do not count. Returns false without `--pace`.
    #[inline(always)]
    fn is_silent(&self) -> bool
        ensures { result ≡ is_silent_for self.now.pace self.now.latest_frame self.now.frame }
    {
        match self.pace {
            Some(pace) => u64::from(self.latest_frame) + u64::from(pace) <= u64::from(self.frame),
            None => false,
        }
    }

    // Returns the state at the end of the current frame, if `within` is not 0. Until the page is
    // overdue, a cell may have a space or any code that was expected at this frame or, from the
    // first frame on, at one of the `within` frames before.
    fn state_at_end(&self) -> DelayedEnd
        requires within { 0 < self.now.within }
        ensures active_faults { result.active_faults ≡ active_faults_of self.now }
        ensures first_unfinished { result.first_unfinished ≡ current_run_start self.now }
        ensures late { result.is_late ≡ must_be_correct_now self.now }
    {
        let differing = self.first_wrong(self.is_due_page_unknown());
        let is_open = self.listener.is_incomplete();
        let first_unfinished = extended_unfinished_run(
            self.first_unfinished,
            differing.is_some() || is_open,
            self.frame,
        );
        let is_late = self.is_overdue(first_unfinished, self.frame);
        let content = if is_late {
            differing
        } else {
            self.first_unexpected(differing)
        };
        let gap = self.has_gap();
        let undecided = self.is_undecided();
        let silent = self.is_silent();
        let active_faults = ActiveFaults {
            content,
            gap,
            incomplete: is_late && is_open,
            undecided,
            silent,
        };
        DelayedEnd {
            active_faults,
            first_unfinished,
            is_late,
        }
    }

    // Returns the first cell with a code, other than a space, that was expected neither at the
    // current frame nor, from the first frame on, at one of the `within` frames before; `None` if
    // there is no such cell, or if one of these expected pages is unknown. `differing` is the first
    // wrong cell.
    fn first_unexpected(&self, differing: Option<(u8, u8)>) -> Option<(u8, u8)>
        ensures { differing ≡ current_wrong_cell self.now → result ≡ current_unexpected_cell
            self.now }
    {
        let frame = self.frame;
        if differing.is_none() {
            return None;
        }
        if self.is_undecided() {
            return None;
        }
        self.listener
            .first_unexpected(self.programme, self.first, frame, self.within)
    }

    /// Returns whether the page is overdue at the end of `frame`. `first_unfinished` is the first
    /// frame of the current run of frames with an unfinished page.
    pub fn is_overdue(&self, first_unfinished: Option<u32>, frame: u32) -> bool
        requires day { frame < day }
        ensures { result
            ≡ is_overdue_at self.now.programme self.now.within self.now.first first_unfinished
            frame }
    {
        is_overdue(
            self.programme,
            self.within,
            self.first,
            first_unfinished,
            frame,
        )
    }

    // Ends the current frame, at which no fault is active and none was active before.
    #[inline(always)]
    fn end_without_faults<A: ReportSink<Event>>(&mut self, reporter: &mut Reporter<'_, A>)
        requires fault_free { IsFaultFreeEnd self.old }
        ensures reported { ReporterRelays A.is_reported reporter.old (end_steps self.old)
            reporter.new }
        ensures ended { self.new ≡ checker_after_end self.old }
    {
        self.last = self.frame;
        if self.within > 0 {
            self.go_back(reporter);
            self.first_unfinished = None;
            reporter.at_end(self.frame, None, false);
        }
    }

    // Ends the current frame, if `within` is 0, and reports which faults became active or ended.
    #[inline(always)]
    fn end_without_delay<A: ReportSink<Event>>(&mut self, reporter: &mut Reporter<'_, A>)
        requires each { self.old.within ≡ 0 }
        ensures reported { ReporterRelays A.is_reported reporter.old (end_steps self.old)
            reporter.new }
        ensures ended { self.new ≡ checker_after_end self.old }
    {
        let frame = self.frame;
        let active_faults = self.active_faults_now();
        report_change(
            &self.active_faults,
            self.last,
            &active_faults,
            frame,
            reporter,
        );
        self.active_faults = active_faults;
        self.last = frame;
    }

    // Ends the current frame, if `within` is not 0, and reports which faults became active or
    // ended.
    #[inline(never)]
    fn end_with_delay<A: ReportSink<Event>>(&mut self, reporter: &mut Reporter<'_, A>)
        requires within { 0 < self.old.within }
        ensures reported { ReporterRelays A.is_reported reporter.old (end_steps self.old)
            reporter.new }
        ensures ended { self.new ≡ checker_after_end self.old }
    {
        let frame = self.frame;
        let end = self.state_at_end();
        self.go_back(reporter);
        reporter.at_end(frame, end.first_unfinished, end.is_late);
        report_change(
            &self.active_faults,
            self.last,
            &end.active_faults,
            frame,
            reporter,
        );
        self.active_faults = end.active_faults;
        self.first_unfinished = end.first_unfinished;
        self.last = frame;
    }

    /// Ends the current frame, and reports which faults became active or ended.
    #[inline(always)]
    pub fn end_of_frame<A: ReportSink<Event>>(&mut self, reporter: &mut Reporter<'_, A>)
        ensures due { self.old.listener.comparison.due ≡ due_page_in self.old.programme
            self.old.frame }
        ensures reported { ReporterRelays A.is_reported reporter.old (end_steps self.old)
            reporter.new }
        ensures ended { self.new ≡ checker_after_end self.old }
    {
        // Most frames have no fault, and the work for `within` would make their ends slower.
        if self.within == 0 && self.is_fault_free() {
            self.end_without_faults(reporter);
            return;
        }
        self.end_after_full_check(reporter);
    }

    // Ends a frame with or without faults, for any `within`. Not inlined into `end_of_frame`, which
    // is inlined into each loop over frames and, if `within` is 0, ends most frames without this
    // function.
    #[inline(never)]
    fn end_after_full_check<A: ReportSink<Event>>(&mut self, reporter: &mut Reporter<'_, A>)
        ensures reported { ReporterRelays A.is_reported reporter.old (end_steps self.old)
            reporter.new }
        ensures ended { self.new ≡ checker_after_end self.old }
    {
        if self.is_fault_free() {
            self.end_without_faults(reporter);
            return;
        }
        if self.within == 0 {
            self.end_without_delay(reporter);
        } else {
            self.end_with_delay(reporter);
        }
    }

    /// Ends a frame with PES packets, and reports a missing header if it is the first frame.
    /// `has_header` says whether the frame has a header of the page.
    #[inline(always)]
    pub fn end_sent_frame<A: ReportSink<Event>>(
        &mut self,
        has_header: bool,
        reporter: &mut Reporter<'_, A>,
    )
        ensures counts { self.new.counts ≡ self.old.counts }
        ensures reported { (g : Criteria) (frames : Transmission) (n : ℕ) (last : List (List ℕ))
            → AfterPackets g frames n last self.old → n < length frames
            → has_header ≡ has_page_header (kind g.watched.page) (packets_of_frame frames n)
            → ReporterRelays A.is_reported reporter.old (steps_of_ending g frames n) reporter.new
            × AfterEnd g frames (suc n) last self.new }
    {
        let is_reported = lacks_first_header(self.counts.frames, has_header);
        let fault = CheckFault::NoFirstHeader { frame: self.frame };
        report_if(is_reported, Event::Reported(fault), reporter);
        self.end_of_frame(reporter);
        reporter.end_frame(
            self.frame,
            self.listener.begun,
            self.active_faults.has_none(),
        );
    }

    /// Ends the last frame, if it has not ended yet.
    #[inline(always)]
    pub fn end_pending_frame<A: ReportSink<Event>>(&mut self, reporter: &mut Reporter<'_, A>)
        ensures closed { self.new.counts.is_open ≡ false }
        ensures few { (pes : ℕ) → AreCountsBounded pes self.old.counts → AreCountsBounded pes
            self.new.counts }
        ensures reported { (g : Criteria) (sent : Transmission) (last : List (List ℕ))
            → BetweenPesPackets g sent last self.old
            → ReporterRelays A.is_reported reporter.old (steps_of_pending_end g sent) reporter.new
            × AfterEnd g sent (length sent) last self.new }
    {
        if !self.counts.is_open {
            return;
        }
        self.end_open_frame(reporter);
    }

    // Ends the last frame, which has not ended yet.
    #[inline(never)]
    fn end_open_frame<A: ReportSink<Event>>(&mut self, reporter: &mut Reporter<'_, A>)
        requires opened { self.old.counts.is_open ≡ true }
        ensures closed { self.new.counts.is_open ≡ false }
        ensures few { (pes : ℕ) → AreCountsBounded pes self.old.counts → AreCountsBounded pes
            self.new.counts }
        ensures reported { (g : Criteria) (sent : Transmission) (last : List (List ℕ))
            → BetweenPesPackets g sent last self.old
            → ReporterRelays A.is_reported reporter.old (steps_of_pending_end g sent) reporter.new
            × AfterEnd g sent (length sent) last self.new }
    {
        self.counts.is_open = false;
        let has_header = self.counts.headers_before < self.counts.headers;
        self.end_sent_frame(has_header, reporter);
    }
}

// Returns whether the frame is the first frame and has no header of the page.
fn lacks_first_header(frames: u32, has_header: bool) -> bool
    ensures { result ≡ (frames == 1 && not has_header) }
{
    frames == 1 && !has_header
}
