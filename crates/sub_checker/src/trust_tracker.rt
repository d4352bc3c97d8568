//! Tracks which frames are trusted: frames that can be broadcast unchanged.
ghost use Rattle.std.specs.Prelude.{◌≡◌, ◌≤◌, ◌&&◌, is_some};
ghost use Rattle.sub_io.specs.Reporting.{first_as_list};
ghost use Rattle.sub_rules.specs.Trusted.{with_pes_number, trusted};
ghost use Rattle.sub_rules.specs.Trusted.CheckStep.{AtEnd, AtPes, Begins, Closes, Ends, GoesBack};
ghost use Rattle.sub_rules.specs.Trusted.CheckStep.{Emits};
ghost use Rattle.sub_checker.specs.TrustTracker.{after_step, invalidated, first_finished_frame};
ghost use Rattle.sub_checker.specs.TrustTracker.{is_order_fault};
ghost use Rattle.sub_checker.specs.TrustTracker.{overdue_run_start, new_tracker, events_of_step};
ghost use Rattle.sub_checker.specs.TrustTracker.{trusted_events_before};

use sub_rules::{CheckFault, Event};

/// Tracks which frames are trusted: frames that can be broadcast unchanged.
#[derive(Clone, Copy)]
pub(crate) struct TrustTracker {
    /// The number of the current PES packet. It counts skipped packets too; the checker does not.
    pub pes: u32,
    /// The frame of the header with which the current run of trusted frames began, if there is one.
    pub run: Option<u32>,
    /// The first frame of the current run at whose end the page was finished, if there is one. Has
    /// no meaning without a current run.
    pub first_finished: Option<u32>,
    /// The frame of the last PES packet that was not skipped; 0 if there is none.
    pub last: u32,
    /// Whether frame numbers have increased so far.
    pub rises: bool,
    /// Whether frame numbers have increased, and no fault that affects receivers was reported since
    /// the current frame began.
    pub is_clean: bool,
    /// The first frame of the current run of frames with an unfinished page, if `within` is not 0.
    pub first_unfinished: Option<u32>,
    /// Whether the page is overdue at the last frame end; false if `within` is 0.
    pub is_late: bool,
    /// The first frame of the run of frames with an unfinished page, up to the frame before, if
    /// these frames are not trusted however the run ends.
    pub back: Option<u32>,
    /// Whether anything was reported.
    pub reported: bool,
}

impl TrustTracker {
    /// Returns the state of the tracker before the first PES packet.
    pub fn new() -> Self
        ensures { result ≡ new_tracker }
    {
        TrustTracker {
            pes: 0,
            run: None,
            first_finished: None,
            last: 0,
            rises: true,
            is_clean: true,
            first_unfinished: None,
            is_late: false,
            back: None,
            reported: false,
        }
    }

    /// Sets the number of the current PES packet.
    #[inline(always)]
    #[tactic(auto, unfolding(crate::specs::TrustTracker::after_step))]
    pub fn go_to(&mut self, pes: u32)
        ensures { self.new ≡ after_step (AtPes pes) self.old }
    {
        self.pes = pes;
    }

    /// Notes that the next Teletext packets belong to `frame`.
    #[inline(always)]
    #[tactic(auto, unfolding(crate::specs::TrustTracker::after_step))]
    pub fn begin_frame(&mut self, frame: u32)
        ensures { self.new ≡ after_step (Begins frame) self.old }
    {
        self.last = frame;
        self.is_clean = self.rises;
    }

    /// Sets the first frame of the run of frames with an unfinished page, up to the frame before.
    #[tactic(auto, unfolding(crate::specs::TrustTracker::after_step))]
    pub fn go_back(&mut self, first_unfinished: Option<u32>)
        ensures { self.new ≡ after_step (GoesBack first_unfinished) self.old }
    {
        self.back = first_unfinished;
    }

    /// Notes that the next events belong to the end of `frame`. `first_unfinished` is the first
    /// frame of the run of frames with an unfinished page; `is_late` says whether the page is
    /// overdue.
    #[tactic(auto, unfolding(crate::specs::TrustTracker::after_step))]
    pub fn at_end(&mut self, frame: u32, first_unfinished: Option<u32>, is_late: bool)
        ensures { self.new ≡ after_step (AtEnd frame first_unfinished is_late) self.old }
    {
        self.first_unfinished = first_unfinished;
        self.is_late = is_late;
        if self.run.is_some() {
            self.first_finished = first_finished_frame(
                self.first_finished,
                first_unfinished,
                frame,
            );
        }
    }

    /// Ends a frame with PES packets. `has_beginning` says whether it has a header with which
    /// trusted frames can begin; `none_active` says whether no fault is active.
    #[inline(always)]
    #[tactic(auto, unfolding(crate::specs::TrustTracker::after_step))]
    pub fn end_frame(&mut self, frame: u32, has_beginning: bool, none_active: bool)
        ensures { self.new ≡ after_step (Ends frame has_beginning none_active) self.old }
    {
        if self.run_stays_trusted() && none_active {
            return;
        }
        self.update_trusted_run(frame, has_beginning, none_active);
    }

    // Returns whether there is a run of trusted frames, the page was finished at the end of one of
    // its frames, and `is_clean` is true.
    #[inline(always)]
    fn run_stays_trusted(&self) -> bool
        ensures { result
            ≡ (is_some self.now.run && is_some self.now.first_finished && self.now.is_clean) }
    {
        self.run.is_some() && self.first_finished.is_some() && self.is_clean
    }

    // Ends a frame that may change the run of trusted frames.
    #[inline(never)]
    #[tactic(auto, unfolding(crate::specs::TrustTracker::after_step))]
    fn update_trusted_run(&mut self, frame: u32, has_beginning: bool, none_active: bool)
        ensures { self.new ≡ after_step (Ends frame has_beginning none_active) self.old }
    {
        let before = if self.run.is_some() {
            self.first_finished
        } else {
            None
        };
        self.first_finished = first_finished_frame(before, self.first_unfinished, frame);
        if !(self.is_clean && none_active) {
            self.run = None;
        } else if has_beginning && self.run.is_none() {
            self.run = Some(frame);
        }
    }

    /// Notes an event, and returns the trusted frames that it ends, which must be reported before
    /// it.
    #[tactic(auto, unfolding(crate::specs::TrustTracker::after_step))]
    pub fn note_event(&mut self, event: &Event) -> Option<Event>
        ensures before { first_as_list result
            ≡ trusted_events_before self.old.run self.old.first_finished self.old.back
            (invalidated self.old.last (overdue_run_start self.old) event.now) }
        ensures kept { self.new ≡ after_step (Emits event.now) self.old }
    {
        let late = if self.is_late {
            self.first_unfinished
        } else {
            None
        };
        let frame = invalidated(self.last, late, event);
        let run = self.run;
        if frame.is_some() {
            self.run = None;
            self.is_clean = false;
        }
        if is_order_fault(event) {
            self.rises = false;
        }
        self.reported = true;
        match frame {
            Some(frame) => trusted(
                run,
                self.first_finished,
                u64::from(self.back.unwrap_or(frame)),
            ),
            None => None,
        }
    }

    /// Ends the file, and returns the trusted frames of the last run, if an event was reported or
    /// `reports_more` is true. The last frame is not trusted if unread bytes follow it; nor are the
    /// last frames with an unfinished page.
    #[tactic(auto, unfolding(crate::specs::TrustTracker::after_step))]
    pub fn close(&mut self, are_left: bool, reports_more: bool) -> Option<Event>
        ensures reported { first_as_list result ≡ events_of_step (Closes are_left reports_more)
            self.old }
        ensures kept { self.new ≡ after_step (Closes are_left reports_more) self.old }
    {
        let last = self.last_trusted_frames(are_left, reports_more);
        self.run = None;
        last
    }

    // Returns the trusted frames of the last run at the end of the file; `None` if there are none,
    // or if nothing was reported and `reports_more` is false.
    #[tactic(auto, unfolding(crate::specs::TrustTracker::events_of_step))]
    fn last_trusted_frames(&self, are_left: bool, reports_more: bool) -> Option<Event>
        ensures { first_as_list result ≡ events_of_step (Closes are_left reports_more) self.now }
    {
        let end = if are_left {
            u64::from(self.back.unwrap_or(self.last))
        } else {
            u64::from(self.last) + 1
        };
        let end = match self.first_unfinished {
            Some(first_unfinished) => u64::from(first_unfinished),
            None => end,
        };
        if self.reported || reports_more {
            trusted(self.run, self.first_finished, end)
        } else {
            None
        }
    }

    /// Returns the event; a fault whose place is a PES packet gets the number of the current PES
    /// packet, which counts skipped packets too.
    #[tactic(auto, unfolding(sub_rules::specs::Trusted::with_pes_number))]
    pub fn with_pes_number(&self, event: Event) -> Event
        ensures { result ≡ with_pes_number self.now.pes event }
    {
        match event {
            Event::Reported(fault) => Event::Reported(fault.with_pes_number(self.pes)),
            _ => event,
        }
    }
}

// Returns the first frame of the run at whose end the page was finished, after one more frame of
// the run.
fn first_finished_frame(
    earlier: Option<u32>,
    first_unfinished: Option<u32>,
    frame: u32,
) -> Option<u32>
    ensures { result ≡ first_finished_frame earlier first_unfinished frame }
{
    if earlier.is_some() {
        return earlier;
    }
    if first_unfinished.is_none() {
        Some(frame)
    } else {
        None
    }
}

// Returns the event for the trusted frames of the run before `frame`; `None` if there are none.
fn trusted(run: Option<u32>, finished: Option<u32>, frame: u64) -> Option<Event>
    requires { frame ≤ 0x1_0000_0000 }
    ensures { first_as_list result ≡ trusted run finished frame }
{
    let from = run?;
    let finished = finished?;
    if u64::from(finished) < frame {
        let to = (frame - 1) as u32;
        Some(Event::Trusted { from, to })
    } else {
        None
    }
}

// Returns the first frame that is no longer trusted because of the event, if there is one. `last`
// is the frame of the last PES packet that was not skipped; `late` is the first frame with the
// unfinished page, if the page is overdue.
#[tactic(auto, unfolding(crate::specs::TrustTracker::invalidated))]
fn invalidated(last: u32, late: Option<u32>, event: &Event) -> Option<u32>
    ensures { result ≡ invalidated last late event.now }
{
    match event {
        Event::Reported(fault) => (*fault).row().invalidated(last, late),
        Event::Ended { .. } | Event::SkippedUntil(_) | Event::Trusted { .. } => None,
    }
}

// Returns whether the event reports that frame numbers do not increase.
#[tactic(auto, unfolding(crate::specs::TrustTracker::is_order_fault))]
fn is_order_fault(event: &Event) -> bool
    ensures { result ≡ is_order_fault event.now }
{
    match event {
        Event::Reported(CheckFault::Order { .. }) => true,
        _ => false,
    }
}
