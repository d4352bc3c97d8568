//! The options of a schedule and of checking a schedule, such as the page, the repeat bound and the
//! PTS of frame 0.
ghost use Rattle.std.specs.Prelude.{◌≡◌, ◌≢◌, ℕ, ◌^◌, ◌<◌, ◌≤◌, ◌↔◌, ◌⊎◌, None, Some, Err};
ghost use Rattle.std.specs.Prelude.{IfErr, IfOk, false, true};
ghost use Rattle.stl_file.specs.TimeCode.{day};
ghost use Rattle.sub_plan.specs.FrameTime.{clock_of, frame_of_pts, frame_with_tolerance, pts_of};
ghost use Rattle.sub_plan.specs.declared.fault.OptionFault.TheVariants.{Every, Origin, Pace};
ghost use Rattle.sub_plan.specs.declared.fault.OptionFault.TheVariants.{Within};

use crate::fault::OptionFault;
use std::marker::Model;
use ttx_packet::PageId;
use ttx_pes::MAX_PES_PACKETS;

/// The number of 90 kHz ticks per frame, a 25th of a second.
const TICKS_PER_FRAME: u64 = 3600;

/// One more than the greatest PTS, which has 33 bits.
const PTS_END: u64 = 8_589_934_592;

/// The number of frames of a day at 25 frames per second. At most as many PES packets of a file are
/// read.
const FRAMES_PER_DAY: u64 = MAX_PES_PACKETS as u64;

/// The greatest repeat bound and the greatest pace in frames: a day.
const MAX_REPEAT_FRAMES: u64 = FRAMES_PER_DAY;

/// The greatest number of frames within which the page must be right: two seconds.
const MAX_WITHIN: u64 = 50;

/// The greatest number of ticks by which a PTS may be early: a quarter of a frame.
const MAX_EARLY_TICKS: u64 = 900;

/// The options of a schedule and of a check: the page with the subtitles, its repeat bound, the PTS
/// of frame 0, whether complete pages are required, the number of frames within which the expected
/// page must be right, the maximum distance of PES packets in frames, and whether repeats may keep
/// the page.
///
/// The model has all seven, as an `OptionsValue`.
#[derive(Clone, Copy, Debug, PartialEq, Eq)]
pub struct Options {
    page: PageId,
    every: u64,
    origin: u64,
    asks_complete: bool,
    within: u64,
    pace: Option<u64>,
    keeps: bool,
}

impl Model for Options {
    ghost use Rattle.sub_plan.specs.Options.{IsOptions, OptionsValue};

    ghost Value = { OptionsValue };

    ghost view = { λ o. record {
      page = o.page;
      every = o.every;
      origin = o.origin;
      asks_complete = o.asks_complete;
      within = o.within;
      pace = o.pace;
      keeps = o.keeps;
    } };

    ghost invariant = { λ o. IsOptions (record {
      page = o.page;
      every = o.every;
      origin = o.origin;
      asks_complete = o.asks_complete;
      within = o.within;
      pace = o.pace;
      keeps = o.keeps;
    }) };

    ghost inverse = { λ v. record {
      page = v.page;
      every = v.every;
      origin = v.origin;
      asks_complete = v.asks_complete;
      within = v.within;
      pace = v.pace;
      keeps = v.keeps;
    } };
}

impl Options {
    ghost use Rattle.sub_plan.specs.Options.{IsOptions};

    /// Creates options for a page, a repeat bound and the PTS of frame 0. Complete pages are not
    /// required, the expected page must be right at the end of each frame, the distance of PES
    /// packets is not limited, and each header of the page must have C4, erase page, set.
    ///
    /// `every` is in frames, 1 to 2,160,000, a day: the page's header is sent at least once in that
    /// many frames. `origin` is in ticks of 90 kHz, below 2^33 (EN 300 472, PTS).
    ///
    /// # Errors
    ///
    /// Returns `Every` if the repeat bound is out of range, otherwise `Origin` if the PTS of frame
    /// 0 is.
    pub fn new(page: PageId, every: u64, origin: u64) -> Result<Options, OptionFault>
        ensures value { IfOk result
            (λ o. o ≡ record {
              page = page;
              every = every;
              origin = origin;
              asks_complete = false;
              within = 0;
              pace = None;
              keeps = false;
            }) }
        ensures options { IfOk result IsOptions }
        ensures every { (result ≡ Err Every) ↔ ((every < 1) ⊎ (day < every)) }
        ensures origin { (result ≡ Err Origin)
            ↔ ((1 ≤ every) × (every ≤ day) × (2 ^ 33 ≤ origin)) }
        ensures others { (result ≢ Err Within) × (result ≢ Err Pace) }
    {
        if every < 1 || every > MAX_REPEAT_FRAMES {
            return Err(OptionFault::Every);
        }
        if origin >= PTS_END {
            return Err(OptionFault::Origin);
        }
        let _magazine = page.magazine();
        let _page = page.page();
        Ok(Options {
            page,
            every,
            origin,
            asks_complete: false,
            within: 0,
            pace: None,
            keeps: false,
        })
    }

    /// Also requires complete pages: the page is not open at the end of a frame at which it must be
    /// right, since some decoders show a page only after a later header has ended it.
    pub fn asking_complete(self) -> Options
        ensures { result ≡ record self { asks_complete = true } }
    {
        Options {
            asks_complete: true,
            ..self
        }
    }

    /// Returns whether complete pages are required.
    pub fn asks_complete(&self) -> bool
        ensures value { result ≡ self.now.asks_complete }
    {
        self.asks_complete
    }

    /// Allows the expected page to become right within this many frames, 0 to 50, instead of at the
    /// end of each frame.
    ///
    /// # Errors
    ///
    /// Returns `Within` for more than 50 frames.
    pub fn allowing(self, frames: u64) -> Result<Options, OptionFault>
        ensures value { IfOk result (λ o. o ≡ record self { within = frames }) }
        ensures options { IfOk result IsOptions }
        ensures within { (result ≡ Err Within) ↔ (50 < frames) }
        ensures others { IfErr result (λ fault. fault ≡ Within) }
    {
        if frames > MAX_WITHIN {
            return Err(OptionFault::Within);
        }
        Ok(Options {
            within: frames,
            ..self
        })
    }

    /// Returns the number of frames within which the expected page must be right, 0 to 50.
    pub fn within(&self) -> u64
        ensures value { result ≡ self.now.within }
        ensures options { IsOptions self.now }
    {
        self.within
    }

    /// Also requires that PES packets are at most this many frames apart, 1 to 2,160,000, a day. So
    /// a loss that leaves two PES packets further apart is detected, even if so many TS packets are
    /// missing that their continuity counter shows no gap.
    ///
    /// # Errors
    ///
    /// Returns `Pace` for any other number.
    pub fn pacing(self, frames: u64) -> Result<Options, OptionFault>
        ensures value { IfOk result (λ o. o ≡ record self { pace = Some frames }) }
        ensures options { IfOk result IsOptions }
        ensures pace { (result ≡ Err Pace) ↔ ((frames < 1) ⊎ (day < frames)) }
        ensures others { IfErr result (λ fault. fault ≡ Pace) }
    {
        if frames < 1 || frames > MAX_REPEAT_FRAMES {
            return Err(OptionFault::Pace);
        }
        Ok(Options {
            pace: Some(frames),
            ..self
        })
    }

    /// Returns the maximum distance of PES packets in frames, 1 to 2,160,000, or `None` if the
    /// distance is not limited.
    pub fn pace(&self) -> Option<u64>
        ensures value { result ≡ self.now.pace }
        ensures options { IsOptions self.now }
    {
        self.pace
    }

    /// Allows repeats to keep the page: a header that repeats the page may have C4, erase page,
    /// clear.
    pub fn keeping(self) -> Options
        ensures { result ≡ record self { keeps = true } }
    {
        Options {
            keeps: true,
            ..self
        }
    }

    /// Returns whether headers of repeats may have C4, erase page, clear.
    pub fn may_keep(&self) -> bool
        ensures value { result ≡ self.now.keeps }
    {
        self.keeps
    }

    /// Returns the identifier of the page with the subtitles: magazine and page number.
    pub fn page(&self) -> PageId
        ensures value { result ≡ self.now.page }
        ensures options { IsOptions self.now }
    {
        self.page
    }

    /// Returns the repeat bound in frames, 1 to 2,160,000.
    pub fn every(&self) -> u64
        ensures value { result ≡ self.now.every }
        ensures options { IsOptions self.now }
    {
        self.every
    }

    /// Returns the PTS of frame 0 in ticks of 90 kHz, below 2^33.
    pub fn origin(&self) -> u64
        ensures value { result ≡ self.now.origin }
        ensures options { IsOptions self.now }
    {
        self.origin
    }

    /// Returns the PTS of a frame of the day, below 2,160,000, in 33 bits and ticks of 90 kHz (EN
    /// 300 472, PTS).
    pub fn pts_of(&self, frame: u32) -> u64
        requires { frame < day }
        ensures value { result ≡ pts_of self.now.origin frame }
        ensures range { result < 2 ^ 33 }
    {
        (self.origin + TICKS_PER_FRAME * u64::from(frame)) % PTS_END
    }

    /// Converts a PTS to a frame of the day. Returns `None` if the PTS belongs to no frame.
    ///
    /// If the page must be right at the end of each frame, a PTS belongs to the frame with exactly
    /// this PTS. Otherwise (`allowing`), a PTS may be up to a quarter of a frame early, and the
    /// PTSs of both fields belong to one frame.
    pub fn frame_of(&self, pts: u64) -> Option<u32>
        ensures value { result ≡ clock_of self.now pts }
        // If `within` is 0, the result is the frame with exactly this PTS.
        ensures exact { self.now.within ≡ 0 → (frame : ℕ) → (result ≡ Some frame)
            ↔ ((frame < day) × (pts_of self.now.origin frame ≡ pts)) }
    {
        if self.within == 0 {
            exact_frame(self.origin, pts)
        } else {
            frame_including_pts(self.origin, pts)
        }
    }
}

// Returns the frame of the day with exactly this PTS, or `None` if there is none.
fn exact_frame(origin: u64, pts: u64) -> Option<u32>
    requires { origin < 2 ^ 33 }
    ensures { result ≡ frame_of_pts origin pts }
{
    if pts >= PTS_END {
        return None;
    }
    let ticks = (pts + (PTS_END - origin)) % PTS_END;
    if ticks % TICKS_PER_FRAME != 0 {
        return None;
    }
    let frame = ticks / TICKS_PER_FRAME;
    if frame >= FRAMES_PER_DAY {
        return None;
    }
    Some(frame as u32)
}

// Returns the frame of the day whose ticks include this PTS, or `None` if there is none. The ticks
// of a frame begin 900 before the frame's own PTS.
fn frame_including_pts(origin: u64, pts: u64) -> Option<u32>
    requires { origin < 2 ^ 33 }
    ensures { result ≡ frame_with_tolerance origin pts }
{
    if pts >= PTS_END {
        return None;
    }
    let ticks = (pts + (PTS_END - origin) + MAX_EARLY_TICKS) % PTS_END;
    let frame = ticks / TICKS_PER_FRAME;
    if frame >= FRAMES_PER_DAY {
        return None;
    }
    Some(frame as u32)
}
