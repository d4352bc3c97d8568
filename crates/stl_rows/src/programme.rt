//! Programmes: subtitles without overlap, the expected page at a frame, and the cues at which the
//! page can change.

ghost use Rattle.std.specs.Prelude.{◌≡◌, ℕ, ◌-◌, ◌<◌, ◌≤◌, ◌↔◌, [], IsTrue, MatchOption, false};
ghost use Rattle.std.specs.Prelude.{length};
ghost use Rattle.std.specs.Prelude.{slice_get, slice_index_or};
ghost use Rattle.stl_file.specs.Subtitle.{SubtitleValue};
ghost use Rattle.stl_rows.specs.DuePage.{due, LawOfBlankPages, LawOfDuePages, LawOfDueSubtitles};
ghost use Rattle.stl_rows.specs.DuePage.{LawOfRow24};
ghost use Rattle.stl_rows.specs.DuePage.{LawOfEdges, ReportsLastEdge, ReportsNextEdge};
ghost use Rattle.stl_rows.specs.DuePage.{tci_of_subtitle_ending_at};
ghost use Rattle.stl_rows.specs.Judged.{is_undecided_from, is_undecided_in};
ghost use Rattle.stl_rows.specs.Judged.{judged_subtitles_with_bits};
ghost use Rattle.stl_rows.specs.Programme.{IsProgramme, first_tci, last_tco};

use crate::cues::StoredSubtitles;
use crate::drawing::draw_subtitle_on;
use crate::layout::{Drawing, Layout};
use crate::national::National;
use std::alloc::Global;
use std::marker::Model;
use stl_file::Subtitle;
use ttx_page::Page;

/// Subtitles that are in order, do not overlap, and can all be drawn.
///
/// Created by `load`, and by `load_all` as part of a `JudgedProgramme`. The model has the drawing
/// and the list of subtitles.
#[derive(Drop)]
pub struct Programme {
    drawing: Drawing,
    subtitles: StoredSubtitles<Global>,
}

impl Model for Programme {
    ghost use Rattle.stl_rows.specs.Programme.{IsProgramme, ProgrammeValue};

    ghost Value = { ProgrammeValue };

    ghost view = { λ p. record { drawing = p.drawing; records = p.subtitles } };

    ghost invariant = { λ p. IsProgramme p.drawing p.subtitles };
}

// Returns the index of the first subtitle whose TCO is after a frame, by binary search; the number
// of subtitles if there is none.
fn first_ending_after(drawing: &Drawing, subtitles: &StoredSubtitles<Global>, frame: u32) -> usize
    requires { IsProgramme drawing.now subtitles.now }
    ensures bound { result ≤ length subtitles.now }
    ensures before { (k : ℕ) (d : SubtitleValue)
        → k < result → (slice_index_or subtitles.now k d).tco ≤ frame }
    ensures after { (k : ℕ) (d : SubtitleValue)
        → result ≤ k → k < length subtitles.now → frame < (slice_index_or subtitles.now k d).tco }
{
    subtitles.count_ended_by(frame)
}

// Returns whether the subtitle with the index `at` is the first whose TCO is after a frame.
fn is_first_ending_after(
    drawing: &Drawing,
    subtitles: &StoredSubtitles<Global>,
    frame: u32,
    at: usize,
) -> bool
    requires { IsProgramme drawing.now subtitles.now }
    ensures bound { IsTrue result → at < length subtitles.now }
    ensures before { IsTrue result → (k : ℕ) (d : SubtitleValue)
        → k < at → (slice_index_or subtitles.now k d).tco ≤ frame }
    ensures after { IsTrue result → (k : ℕ) (d : SubtitleValue)
        → at ≤ k → k < length subtitles.now → frame < (slice_index_or subtitles.now k d).tco }
{
    if at >= subtitles.len() {
        return false;
    }
    let subtitle = subtitles.at(at);
    let tco = subtitle.tco().frame();
    if tco <= frame {
        return false;
    }
    match tco_before(subtitles, at) {
        Some(before) => before <= frame,
        None => true,
    }
}

// Returns the index of the first subtitle whose TCO is after a frame; the number of subtitles if
// there is none. Tries `guess` and the next index before a binary search.
fn find_first_ending_after(
    drawing: &Drawing,
    subtitles: &StoredSubtitles<Global>,
    frame: u32,
    guess: usize,
) -> usize
    requires { IsProgramme drawing.now subtitles.now }
    ensures bound { result ≤ length subtitles.now }
    ensures before { (k : ℕ) (d : SubtitleValue)
        → k < result → (slice_index_or subtitles.now k d).tco ≤ frame }
    ensures after { (k : ℕ) (d : SubtitleValue)
        → result ≤ k → k < length subtitles.now → frame < (slice_index_or subtitles.now k d).tco }
{
    if guess < subtitles.len() {
        if is_first_ending_after(drawing, subtitles, frame, guess) {
            return guess;
        }
        let next = guess + 1;
        if is_first_ending_after(drawing, subtitles, frame, next) {
            return next;
        }
    }
    first_ending_after(drawing, subtitles, frame)
}

// Draws the expected page at a frame. Returns the next cue after the frame, if any, and the index
// of the first subtitle whose TCO is after the frame; the number of subtitles if there is none.
fn draw_expected(
    drawing: &Drawing,
    subtitles: &StoredSubtitles<Global>,
    frame: u32,
    guess: usize,
    page: &mut Page,
) -> (Option<u32>, usize)
    requires { IsProgramme drawing.now subtitles.now }
    ensures page { page.new ≡ due drawing.now subtitles.now frame }
    ensures edge { ReportsNextEdge subtitles.now frame result.0 }
{
    let at = find_first_ending_after(drawing, subtitles, frame, guess);
    if at == subtitles.len() {
        *page = Page::blank();
        return (None, at);
    }
    let subtitle = subtitles.at(at);
    let tci = subtitle.tci().frame();
    if frame < tci {
        *page = Page::blank();
        return (Some(tci), at);
    }
    draw_subtitle_on(&subtitle, drawing, page);
    let tco = subtitle.tco().frame();
    (Some(tco), at)
}

// Returns the next cue (TCI or TCO) after a frame, or `None` if there is none.
fn next_cue_after(drawing: &Drawing, subtitles: &StoredSubtitles<Global>, frame: u32) -> Option<u32>
    requires { IsProgramme drawing.now subtitles.now }
    ensures { ReportsNextEdge subtitles.now frame result }
{
    let at = first_ending_after(drawing, subtitles, frame);
    if at == subtitles.len() {
        return None;
    }
    let subtitle = subtitles.at(at);
    let tci = subtitle.tci().frame();
    if frame < tci {
        return Some(tci);
    }
    let tco = subtitle.tco().frame();
    Some(tco)
}

// Returns the TCO of the subtitle before the index `at`, or `None` if `at` is 0.
fn tco_before(subtitles: &StoredSubtitles<Global>, at: usize) -> Option<u32>
    requires { at ≤ length subtitles.now }
    ensures { MatchOption result (at ≡ 0) (λ tco. (1 ≤ at) × ((d : SubtitleValue)
        → tco ≡ (slice_index_or subtitles.now (at - 1) d).tco)) }
{
    if at == 0 {
        return None;
    }
    let subtitle = subtitles.at(at - 1);
    let tco = subtitle.tco().frame();
    Some(tco)
}

// Returns the last cue (TCI or TCO) at or before a frame, or `None` if there is none.
fn last_cue_until(drawing: &Drawing, subtitles: &StoredSubtitles<Global>, frame: u32) -> Option<u32>
    requires { IsProgramme drawing.now subtitles.now }
    ensures { ReportsLastEdge subtitles.now frame result }
{
    let at = first_ending_after(drawing, subtitles, frame);
    if at == subtitles.len() {
        return tco_before(subtitles, at);
    }
    let subtitle = subtitles.at(at);
    let tci = subtitle.tci().frame();
    if tci <= frame {
        return Some(tci);
    }
    tco_before(subtitles, at)
}

// Returns the TCI of the subtitle whose TCO is the frame, or `None` if no subtitle ends there.
fn tci_of_ending_subtitle(
    drawing: &Drawing,
    subtitles: &StoredSubtitles<Global>,
    frame: u32,
) -> Option<u32>
    requires { IsProgramme drawing.now subtitles.now }
    ensures { result ≡ tci_of_subtitle_ending_at subtitles.now frame }
{
    if frame == 0 {
        return None;
    }
    let at = first_ending_after(drawing, subtitles, frame - 1);
    if at == subtitles.len() {
        return None;
    }
    let subtitle = subtitles.at(at);
    let tco = subtitle.tco().frame();
    if tco != frame {
        return None;
    }
    Some(subtitle.tci().frame())
}

// Returns the bit of the subtitle with the index `at`; `false` if the bit is missing.
fn bit_at(bits: &[bool], at: usize) -> bool
    ensures { result ≡ slice_index_or bits.now at false }
{
    match bits.get(at) {
        Some(bit) => *bit,
        None => false,
    }
}

// Returns whether the expected page is unknown at a frame.
fn is_undecided_at(
    drawing: &Drawing,
    subtitles: &StoredSubtitles<Global>,
    after_unreliable_bits: &[bool],
    is_before_unreliable: bool,
    frame: u32,
) -> bool
    requires { IsProgramme drawing.now subtitles.now }
    ensures { result
        ≡ is_undecided_from 0 (judged_subtitles_with_bits subtitles.now after_unreliable_bits.now)
        is_before_unreliable frame }
{
    if after_unreliable_bits.is_empty() && !is_before_unreliable {
        return false;
    }
    let at = first_ending_after(drawing, subtitles, frame);
    if at == subtitles.len() {
        return is_before_unreliable;
    }
    let subtitle = subtitles.at(at);
    let tci = subtitle.tci().frame();
    if tci <= frame {
        return false;
    }
    bit_at(after_unreliable_bits, at)
}

impl Programme {
    // Creates a programme of the subtitles.
    pub(crate) fn of(drawing: Drawing, subtitles: StoredSubtitles<Global>) -> Programme
        requires { IsProgramme drawing subtitles }
        ensures { result ≡ record { drawing = drawing; records = subtitles } }
    {
        Programme { drawing, subtitles }
    }

    /// Returns the number of subtitles in the programme.
    pub fn len(&self) -> usize
        ensures value { result ≡ length self.now.records }
        ensures programme { IsProgramme self.now.drawing self.now.records }
    {
        self.subtitles.len()
    }

    /// Returns whether the programme has no subtitle.
    pub fn is_empty(&self) -> bool
        ensures { IsTrue result ↔ (self.now.records ≡ []) }
    {
        self.subtitles.is_empty()
    }

    /// Returns the subtitle with the index `i`, counted from 0 and below `len`.
    pub fn subtitle(&self, i: usize) -> Subtitle
        requires { i < length self.now.records }
        ensures { slice_get self.now.records i ≡ Some result }
    {
        self.subtitles.subtitle(i)
    }

    /// Returns the TCI of the first subtitle as a frame of the day, or `None` if the programme has
    /// no subtitle.
    pub fn first_tci(&self) -> Option<u32>
        ensures value { result ≡ first_tci self.now.records }
        ensures programme { IsProgramme self.now.drawing self.now.records }
    {
        Some(self.subtitles.first()?.tci().frame())
    }

    /// Returns the TCO of the last subtitle as a frame of the day, or `None` if the programme has
    /// no subtitle.
    pub fn last_tco(&self) -> Option<u32>
        ensures value { result ≡ last_tco self.now.records }
        ensures programme { IsProgramme self.now.drawing self.now.records }
    {
        Some(self.subtitles.last()?.tco().frame())
    }

    /// Returns the national option with which the programme was loaded.
    pub fn national(&self) -> National
        ensures value { result ≡ self.now.drawing.national }
        ensures programme { IsProgramme self.now.drawing self.now.records }
    {
        self.drawing.national
    }

    /// Returns the layout with which the programme was loaded.
    pub fn layout(&self) -> Layout
        ensures value { result ≡ self.now.drawing.layout }
        ensures programme { IsProgramme self.now.drawing self.now.records }
    {
        self.drawing.layout
    }

    /// Draws the expected page at a frame: the page of the subtitle whose TCI is at or before the
    /// frame and whose TCO is after it; blank if no subtitle is due.
    ///
    /// Finds the subtitle by binary search. Each call draws the page, so call `due_page` at cues
    /// (`next_edge`) and keep the page in between.
    pub fn due_page(&self, frame: u32) -> Page
        ensures value { result ≡ due self.now.drawing self.now.records frame }
        ensures programme { IsProgramme self.now.drawing self.now.records }
    {
        let mut page = Page::blank();
        self.draw_due(frame, 0, &mut page);
        page
    }

    /// Draws the expected page at a frame over the contents of `page`. Returns the next cue
    /// (`next_edge`) and the `guess` for the next call.
    ///
    /// Any `guess` is valid; start with 0. If the frame is shortly after the frame of the previous
    /// call, the returned `guess` usually saves the binary search.
    pub fn draw_due(&self, frame: u32, guess: usize, page: &mut Page) -> (Option<u32>, usize)
        ensures page { page.new ≡ due self.now.drawing self.now.records frame }
        ensures edge { ReportsNextEdge self.now.records frame result.0 }
        ensures programme { IsProgramme self.now.drawing self.now.records }
    {
        draw_expected(&self.drawing, &self.subtitles, frame, guess, page)
    }

    /// Returns the first TCI or TCO after a frame, by binary search.
    ///
    /// Returns `None` if no TCI or TCO is after the frame.
    pub fn next_edge(&self, frame: u32) -> Option<u32>
        ensures value { ReportsNextEdge self.now.records frame result }
        ensures programme { IsProgramme self.now.drawing self.now.records }
    {
        next_cue_after(&self.drawing, &self.subtitles, frame)
    }

    /// Returns the last TCI or TCO at or before a frame, by binary search. The expected page does
    /// not change between the returned frame and `frame`.
    ///
    /// Returns `None` if each TCI is after the frame.
    pub fn last_edge(&self, frame: u32) -> Option<u32>
        ensures value { ReportsLastEdge self.now.records frame result }
        ensures programme { IsProgramme self.now.drawing self.now.records }
    {
        last_cue_until(&self.drawing, &self.subtitles, frame)
    }

    /// Finds the subtitle whose TCO is the frame, by binary search, and returns its TCI.
    ///
    /// Returns `None` if no subtitle ends at the frame. At most one subtitle does.
    pub fn tci_of_subtitle_ending_at(&self, frame: u32) -> Option<u32>
        ensures value { result ≡ tci_of_subtitle_ending_at self.now.records frame }
        ensures programme { IsProgramme self.now.drawing self.now.records }
    {
        tci_of_ending_subtitle(&self.drawing, &self.subtitles, frame)
    }

    // Returns whether the expected page is unknown at a frame, given for each subtitle whether it
    // directly follows an unreliable subtitle, and whether an unreliable subtitle follows the last.
    #[tactic(auto, unfolding(crate::specs::Judged::is_undecided_in))]
    pub(crate) fn is_undecided(
        &self,
        after_unreliable_bits: &[bool],
        is_before_unreliable: bool,
        frame: u32,
    ) -> bool
        ensures { result ≡ is_undecided_in (record {
          programme = self.now;
          after_unreliable_bits = after_unreliable_bits.now;
          is_before_unreliable = is_before_unreliable;
        }) frame }
    {
        let subtitles = &self.subtitles;
        is_undecided_at(
            &self.drawing,
            subtitles,
            after_unreliable_bits,
            is_before_unreliable,
            frame,
        )
    }
}

/// If subtitles are in order and do not overlap, the expected page at a frame is the page of the
/// subtitle whose TCI is at or before the frame and whose TCO is after it, or blank if that
/// subtitle cannot be drawn.
#[tactic(auto, using(crate::proofs::DuePageLemmas::due_subtitle_is_drawn))]
pub fn law_of_due_subtitles()
    ensures { LawOfDueSubtitles }
{}

/// If each subtitle starts after the frame or ends at or before it, the expected page is blank.
#[tactic(auto, using(crate::proofs::DuePageLemmas::page_without_subtitle_is_blank))]
pub fn law_of_blank_pages()
    ensures { LawOfBlankPages }
{}

/// The expected page changes only at a TCI or a TCO.
#[tactic(auto, using(crate::proofs::DuePageLemmas::page_changes_only_at_edges))]
pub fn law_of_edges()
    ensures { LawOfEdges }
{}

/// Row 24 of each expected page is blank.
#[tactic(auto, using(crate::proofs::LastRowLemmas::due_row_24_is_blank))]
pub fn law_of_row_24()
    ensures { LawOfRow24 }
{}

/// Each expected page is a valid page: 24 rows of 40 codes below 128.
pub fn law_of_due_pages()
    ensures { LawOfDuePages }
{}
