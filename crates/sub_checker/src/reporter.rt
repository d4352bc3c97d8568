//! Passes the checker's events to a device, and adds the events for trusted frames. Of a run of
//! skipped PES packets, only the first and the last are reported.
ghost use Rattle.std.specs.Prelude.{◌≡◌, [], ◌∷◌, ◌++◌};
ghost use Rattle.sub_io.specs.Reporting.{Reports, first_as_list};
ghost use Rattle.sub_rules.specs.PesPacketEvents.{announced_events, announced, skipped_run_after};
ghost use Rattle.sub_rules.specs.PesPacketEvents.{skipped_run_after_events};
ghost use Rattle.sub_rules.specs.Trusted.CheckStep.{AtEnd, AtPes, Begins, Closes, Ends, GoesBack};
ghost use Rattle.sub_rules.specs.Trusted.CheckStep.{Emits};
ghost use Rattle.sub_checker.specs.StoredSkippedRun.{skipped_run_of, stored_run};
ghost use Rattle.sub_checker.specs.Relay.{IsRelayed, ReporterRelays, at_step, initial_relay};

use crate::fused::FusedAudience;
use crate::skipped_run::StoredSkippedRun;
use crate::trust_tracker::TrustTracker;
use sub_io::ReportSink;
use sub_packets::Taker;
use sub_rules::Event;

/// The state of the reporter.
#[derive(Clone, Copy)]
pub(crate) struct Relay {
    /// Tracks which frames are trusted: they have no fault that affects receivers.
    pub tracker: TrustTracker,
    /// The current run of skipped PES packets.
    pub run: StoredSkippedRun,
}

/// Passes the checker's events to a device.
#[derive(Drop)]
pub(crate) struct Reporter<'a, A: ReportSink<Event>> {
    /// The device, protected from events after it has stopped the check.
    pub fused: FusedAudience<'a, A>,
    /// The trusted frames and the run of skipped PES packets so far.
    pub relay: Relay,
}

impl Relay {
    /// Returns the state of the reporter before the first step.
    pub fn new() -> Self
        ensures { result ≡ initial_relay }
    {
        Relay {
            tracker: TrustTracker::new(),
            run: StoredSkippedRun::new(),
        }
    }
}

impl<A: ReportSink<Event>> Reporter<'_, A> {
    /// Sets the number of the current PES packet.
    pub fn go_to(&mut self, pes: u32)
        ensures { self.new ≡ at_step (AtPes pes) self.old }
    {
        self.relay.tracker.go_to(pes);
    }

    /// Notes that the next Teletext packets belong to `frame`.
    pub fn begin_frame(&mut self, frame: u32)
        ensures { self.new ≡ at_step (Begins frame) self.old }
    {
        self.relay.tracker.begin_frame(frame);
    }

    /// Sets the first frame of the run of frames with an unfinished page, up to the frame before.
    pub fn go_back(&mut self, first_unfinished: Option<u32>)
        ensures { self.new ≡ at_step (GoesBack first_unfinished) self.old }
    {
        self.relay.tracker.go_back(first_unfinished);
    }

    /// Notes that the next events belong to the end of `frame`. `first_unfinished` is the first
    /// frame of the run of frames with an unfinished page; `is_late` says whether the page is
    /// overdue.
    pub fn at_end(&mut self, frame: u32, first_unfinished: Option<u32>, is_late: bool)
        ensures { self.new ≡ at_step (AtEnd frame first_unfinished is_late) self.old }
    {
        self.relay.tracker.at_end(frame, first_unfinished, is_late);
    }

    /// Ends a frame with PES packets. `has_beginning` says whether it has a header with which
    /// trusted frames can begin; `none_active` says whether no fault is active.
    pub fn end_frame(&mut self, frame: u32, has_beginning: bool, none_active: bool)
        ensures { self.new ≡ at_step (Ends frame has_beginning none_active) self.old }
    {
        self.relay
            .tracker
            .end_frame(frame, has_beginning, none_active);
    }

    /// Reports the trusted frames of the last run, if an event was reported or `reports_more` is
    /// true. The last frame is not trusted if unread bytes follow it; nor are the last frames with
    /// an unfinished page.
    pub fn close(&mut self, are_left: bool, reports_more: bool)
        ensures { ReporterRelays A.is_reported self.old (Closes are_left reports_more ∷ [])
            self.new }
    {
        let last = self.relay.tracker.close(are_left, reports_more);
        announce_if_present(last, &mut self.relay.run, &mut self.fused);
    }

    /// Passes an event to the device, unless it continues a run of skipped PES packets. If it ends
    /// a run of trusted frames, reports these frames first.
    pub fn relay(&mut self, event: Event)
        ensures { ReporterRelays A.is_reported self.old (Emits event ∷ []) self.new }
    {
        let first = self.relay.tracker.note_event(&event);
        let event = self.relay.tracker.with_pes_number(event);
        announce_if_present(first, &mut self.relay.run, &mut self.fused);
        announce(event, &mut self.relay.run, &mut self.fused);
    }
}

impl<A: ReportSink<Event>> Taker for Reporter<'_, A> {
    ghost is_reported = { IsRelayed A.is_reported };

    /// Reports the event. Of a run of skipped packets, only the first and the last are reported.
    fn report(&mut self, event: Event) {
        self.relay(event);
    }
}

// Passes an event to `announce`, if it is not `None`.
#[rattlefmt::skip]
#[tactic(auto, unfolding(
    sub_rules::specs::PesPacketEvents::announced_events,
    sub_rules::specs::PesPacketEvents::skipped_run_after_events
))]
fn announce_if_present<T: Taker>(event: Option<Event>, run: &mut StoredSkippedRun, taker: &mut T)
    ensures reported { Reports T.is_reported taker.old taker.new
        (announced_events (skipped_run_of run.old) (first_as_list event)) }
    ensures kept { run.new ≡ stored_run (skipped_run_after_events (skipped_run_of run.old)
        (first_as_list event)) }
{
    if let Some(event) = event {
        announce(event, run, taker);
    }
}

// Reports an event, unless it continues a run of skipped PES packets. If it ends such a run of
// several packets, reports the last packet of the run first.
#[tactic(auto, unfolding(sub_rules::specs::PesPacketEvents::announced))]
fn announce<T: Taker>(event: Event, run: &mut StoredSkippedRun, taker: &mut T)
    ensures reported { Reports T.is_reported taker.old taker.new (announced (skipped_run_of run.old)
        event) }
    ensures kept { run.new ≡ stored_run (skipped_run_after (skipped_run_of run.old) event) }
{
    let before = *run;
    *run = before.after(&event);
    if before.continues_skipped_run(&event) {
        return;
    }
    report_with_first(before.ended(), event, taker);
}

// Reports an optional event, and then another event.
#[tactic(auto, using(sub_io::proofs::ReportingLemmas::tellings))]
fn report_with_first<T: Taker>(first: Option<Event>, event: Event, taker: &mut T)
    ensures { Reports T.is_reported taker.old taker.new (first_as_list first ++ event ∷ []) }
{
    report_if_present(first, taker);
    taker.report(event);
}

/// Reports an event, if it is not `None`.
#[tactic(auto, using(sub_io::proofs::ReportingLemmas::tellings))]
pub(crate) fn report_if_present<T: Taker>(event: Option<Event>, taker: &mut T)
    ensures { Reports T.is_reported taker.old taker.new (first_as_list event) }
{
    if let Some(event) = event {
        taker.report(event);
    }
}
