//! The state of the checker.
ghost use Rattle.std.specs.Prelude.{◌≡◌, ℕ, ◌+◌, ◌<◌, ◌≤◌, List, [], Option, max};
ghost use Rattle.stl_file.specs.TimeCode.{day};
ghost use Rattle.sub_checker.specs.Checker.{is_before};
ghost use Rattle.sub_rules.specs.FrameRules.{UnreadReason, criteria_of_judged};
ghost use Rattle.stl_rows.specs.Programme.{IsProgramme};
ghost use Rattle.sub_plan.specs.Options.{IsOptions};

use crate::accepted::Accepted;
use crate::counts::Counts;
use crate::reporter::Reporter;
use crate::undecided::first_known_from;
use std::marker::Model;
use stl_rows::{Judging, Programme};
use sub_io::ReportSink;
use sub_packets::Listener;
use sub_plan::Options;
use sub_rules::{ActiveFaults, Event, Watched};

/// The state of the checker after the PES packets received so far. Skipped PES packets don't count.
#[derive(Drop)]
pub(crate) struct Checker<'a> {
    pub judging: &'a Judging<'a>,
    pub programme: &'a Programme,
    // Whether the file has unreliable subtitles: rejected, faulty or out of order.
    pub has_unreliable_subtitle: bool,
    // The repeat bound in frames.
    pub every: u32,
    // The number of frames within which the page must become correct.
    pub within: u32,
    // The longest interval between PES packets in frames, if `--pace` is given.
    pub pace: Option<u32>,
    pub listener: Listener,
    // The frame of the first PES packet.
    pub first: u32,
    // The greatest frame number of a PES packet so far.
    pub latest_frame: u32,
    // The current frame; `listener` has its expected page.
    pub frame: u32,
    // The next cue, a TCI or TCO after `frame`, if there is one.
    pub edge: Option<u32>,
    // The index of the first subtitle whose TCO is after the frame for which the expected page was
    // drawn last, or the number of subtitles if there is none: the search for the next expected
    // page starts there. Contracts do not use this hint.
    pub near: usize,
    // For frames from `frame` on, before the next cue: the expected page of the frame and those of
    // the `within` frames before it, of which those before `first` do not count, are known exactly
    // from this frame on.
    pub first_known_from: u64,
    // The frame that was ended last; `active_faults` are the faults at its end.
    pub last: u32,
    pub active_faults: ActiveFaults,
    // The first frame of the current run of frames with an unfinished page; used only if `within`
    // is not 0.
    pub first_unfinished: Option<u32>,
    // The frame after the first at whose end the repeat bound is exceeded if no header of the page
    // follows.
    pub repeat_deadline: u32,
    pub counts: Counts,
}

impl<'a> Model for Checker<'a> {
    ghost use Rattle.sub_checker.specs.Checker.{CheckerValue, IsAtFrame, IsJudged};

    ghost Value = { CheckerValue };

    ghost view = { λ c. record {
      programme = c.programme.now;
      judging = c.judging.now;
      any_unreliable = c.has_unreliable_subtitle;
      every = c.every;
      within = c.within;
      pace = c.pace;
      listener = c.listener;
      first = c.first;
      latest_frame = c.latest_frame;
      frame = c.frame;
      last = c.last;
      active_faults = c.active_faults;
      first_unfinished = c.first_unfinished;
      repeat_deadline = c.repeat_deadline;
      counts = c.counts;
    } };

    ghost invariant = { λ c. IsAtFrame c.programme.now c.every c.listener c.first c.latest_frame
        c.last
        c.frame c.edge × IsJudged c.judging.now c.programme.now c.has_unreliable_subtitle c.first
        c.within
        c.frame
        c.edge c.first_known_from };
}

impl<'a> Checker<'a> {
    ghost use Rattle.sub_checker.specs.Checker.{AreCountsBounded, checker_at_first, at_frame};
    ghost use Rattle.sub_checker.specs.Checker.{checker_at_next, checker_after_headers};
    ghost use Rattle.sub_checker.specs.CheckedFrames.{BetweenPesPackets, reporter_after_back_step};
    ghost use Rattle.sub_checker.specs.Relay.{at_step};
    ghost use Rattle.sub_rules.specs.Trusted.CheckStep.{Begins};
    ghost use Rattle.sub_checker.specs.LastEvents.{CountsMatchChecker};

    /// Returns the state of the checker before the first PES packet.
    pub fn new(judging: &'a Judging<'a>, options: &Options) -> Self
        ensures none { AreCountsBounded 0 result.counts }
        ensures keeps { (last : List (List ℕ)) (unread : Option UnreadReason)
            → BetweenPesPackets (criteria_of_judged judging.now options.now unread) [] last result }
        ensures options { IsOptions options.now }
        ensures programme { IsProgramme judging.now.programme.drawing
            judging.now.programme.records }
    {
        let programme = judging.programme();
        let has_unreliable_subtitle = judging.has_unreliable_subtitle();
        let within = options.within() as u32;
        let watched = Watched {
            page: options.page(),
            national: programme.national(),
            complete: options.asks_complete(),
            keeps: options.may_keep(),
        };
        Checker {
            judging,
            programme,
            has_unreliable_subtitle,
            every: options.every() as u32,
            within,
            pace: options.pace().map(|frames| frames as u32),
            listener: Listener::new(watched, programme.due_page(0)),
            first: 0,
            latest_frame: 0,
            frame: 0,
            edge: programme.next_edge(0),
            near: 0,
            first_known_from: first_known_from(judging, has_unreliable_subtitle, 0, 0, within),
            last: 0,
            active_faults: ActiveFaults::none(),
            first_unfinished: None,
            repeat_deadline: 0,
            counts: Counts::new(),
        }
    }

    /// Moves the checker to frame `f`. Draws the expected page again if `f` is an earlier frame, or
    /// is not before the next cue.
    pub fn move_to(&mut self, f: u32)
        requires day { f < day }
        ensures { self.new ≡ at_frame f self.old }
    {
        if self.frame <= f && is_before(f, self.edge) {
            self.frame = f;
        } else {
            self.draw(f);
        }
    }

    // Draws the expected page of frame `f`. Not inlined into `move_to`, which would then reserve
    // stack for a page at each frame.
    #[inline(never)]
    fn draw(&mut self, f: u32)
        requires day { f < day }
        ensures { self.new ≡ at_frame f self.old }
    {
        let programme = self.programme;
        let (edge, near) = self.listener.draw_due(programme, f, self.near);
        self.edge = edge;
        self.near = near;
        self.first_known_from = first_known_from(
            self.judging,
            self.has_unreliable_subtitle,
            self.first,
            f,
            self.within,
        );
        self.frame = f;
    }

    /// Moves the checker to the frame of the first PES packet.
    pub fn start(&mut self, frame: u32)
        requires day { frame < day }
        ensures { self.new ≡ checker_at_first frame self.old }
    {
        self.draw(frame);
        self.first = frame;
        self.latest_frame = frame;
        self.repeat_deadline = frame + self.every;
        self.first_known_from = first_known_from(
            self.judging,
            self.has_unreliable_subtitle,
            frame,
            frame,
            self.within,
        );
    }

    /// Moves the checker to the frame of a later PES packet.
    pub fn arrive(&mut self, frame: u32)
        requires day { frame < day }
        ensures { self.new ≡ checker_at_next frame self.old }
    {
        self.move_to(frame);
        self.latest_frame = greater(self.latest_frame, frame);
    }

    /// Tells the reporter that the next Teletext packets belong to the current frame, and calls
    /// `go_back`.
    #[inline(always)]
    pub fn begin_frame<A: ReportSink<Event>>(&self, reporter: &mut Reporter<'_, A>)
        ensures begun { reporter.new
            ≡ reporter_after_back_step self.now (at_step (Begins self.now.frame) reporter.old) }
    {
        reporter.begin_frame(self.frame);
        self.go_back(reporter);
    }

    /// If the file has unreliable subtitles and `within` is not 0, tells the reporter the first
    /// frame of the run of frames with an unfinished page, up to the frame before.
    #[inline(always)]
    #[tactic(auto, unfolding(crate::specs::CheckedFrames::reporter_after_back_step))]
    pub fn go_back<A: ReportSink<Event>>(&self, reporter: &mut Reporter<'_, A>)
        ensures back { reporter.new ≡ reporter_after_back_step self.now reporter.old }
    {
        if self.has_unreliable_subtitle && self.within > 0 {
            reporter.go_back(self.first_unfinished);
        }
    }

    /// Adds the headers of the page in a PES packet of the current frame to the counts. If there
    /// are any, moves the deadline for the next header, unless it is already as late or later.
    pub fn count(&mut self, headers: u8)
        requires room { self.old.counts.headers < 0xFFFF_FFFF_FF00 }
        ensures { self.new ≡ checker_after_headers headers self.old }
    {
        self.counts.headers = self.counts.headers + u64::from(headers);
        if headers > 0 {
            self.repeat_deadline = greater(self.repeat_deadline, self.frame + self.every + 1);
        }
    }

    /// Returns the counts for the PES packets read so far.
    pub fn counts_so_far(&self) -> Accepted
        ensures { CountsMatchChecker self.now result }
    {
        Accepted {
            frames: frame_count(self.counts.frames, self.first, self.latest_frame),
            headers: self.counts.headers,
        }
    }
}

// Returns the number of frames from `first`, the frame of the first PES packet, to `latest_frame`,
// the greatest frame number; 0 without a PES packet.
fn frame_count(frames: u32, first: u32, latest_frame: u32) -> u64
    requires { first ≤ latest_frame }
    ensures none { frames ≡ 0 → result ≡ 0 }
    ensures some { 0 < frames → result + first ≡ latest_frame + 1 }
{
    if frames == 0 {
        0
    } else {
        u64::from(latest_frame - first) + 1
    }
}

// Returns whether a frame comes before `edge`, the next cue. If there is no next cue, every frame
// does.
fn is_before(frame: u32, edge: Option<u32>) -> bool
    ensures { result ≡ is_before frame edge }
{
    match edge {
        Some(edge) => frame < edge,
        None => true,
    }
}

fn greater(a: u32, b: u32) -> u32
    ensures { result ≡ max a b }
{
    if a < b { b } else { a }
}
