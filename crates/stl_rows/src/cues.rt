//! The subtitles of a programme, in the order of the file: times and positions in a list, with all
//! texts in one buffer.
//!
//! A `Subtitle` has a buffer of 1,008 bytes for its text: 100,000 of them took 103 MB, and page
//! faults took half the time of a check. So a programme stores cues of 24 bytes with all texts in
//! one list, and returns a borrowed `Record` with the same value.

ghost use Rattle.std.specs.Prelude.{◌≡◌, ℕ, ◌-◌, ◌<◌, ◌≤◌, ◌==◌, ◌++◌, [], ◌∷◌};
ghost use Rattle.std.specs.Prelude.{Some, length, take};
ghost use Rattle.std.specs.Prelude.{OnErr, OnOk, slice_get, slice_index_or};
ghost use Rattle.std.specs.List.Sorted.{IsNonDecreasingBy};
ghost use Rattle.stl_file.specs.Subtitle.{SubtitleValue};
ghost use Rattle.stl_rows.specs.Cues.{cue_with_text_at};

use crate::record::Record;
use std::alloc::{AllocError, Allocator};
use std::marker::Model;
use stl_file::{Subtitle, TimeCode};

/// A subtitle without its text, and the position of the text in the buffer of all texts.
#[derive(Clone, Copy)]
pub(crate) struct Cue {
    start: usize,
    tci: TimeCode,
    tco: TimeCode,
    len: u16,
    sn: u16,
    sgn: u8,
    vp: u8,
    jc: u8,
}

/// The subtitles of a programme, in the order of the file. The model is the list of subtitles.
///
/// A subtitle takes 24 bytes plus its text, instead of the 1 KB of a `Subtitle`.
#[derive(Drop)]
pub struct StoredSubtitles<A: Allocator + Copy> {
    cues: Vec<Cue, A>,
    // The texts of all subtitles, including removed subtitles.
    texts: Vec<u8, A>,
}

impl<A: Allocator + Copy> Model for StoredSubtitles<A> {
    ghost use Rattle.std.specs.Prelude.{All, List, map};
    ghost use Rattle.stl_file.specs.Subtitle.{SubtitleValue};

    ghost Value = { List SubtitleValue };

    ghost use Rattle.stl_rows.specs.Cues.{IsCueInTexts, subtitle_of_cue};

    ghost view = { λ c. map (subtitle_of_cue c.texts.items) c.cues.items };

    ghost invariant = { λ c. All (IsCueInTexts c.texts.items) c.cues.items };
}

// Returns the cue of a subtitle whose text begins at position `start` of the buffer.
fn cue_with_text_at(start: usize, subtitle: &Subtitle) -> Cue
    ensures { result ≡ cue_with_text_at start subtitle.now }
{
    Cue {
        start,
        tci: subtitle.tci(),
        tco: subtitle.tco(),
        len: subtitle.text().len() as u16,
        sn: subtitle.sn(),
        sgn: subtitle.sgn(),
        vp: subtitle.vp(),
        jc: subtitle.jc(),
    }
}

impl<A: Allocator + Copy> StoredSubtitles<A> {
    /// Creates an empty list of subtitles.
    pub(crate) fn new(alloc: A) -> StoredSubtitles<A>
        ensures { result ≡ [] }
    {
        StoredSubtitles {
            cues: Vec::new(alloc),
            texts: Vec::new(alloc),
        }
    }

    /// Returns the number of subtitles in the list.
    pub fn len(&self) -> usize
        ensures { result ≡ length self.now }
    {
        self.cues.len()
    }

    /// Returns whether the list has no subtitles.
    pub fn is_empty(&self) -> bool
        ensures { result ≡ (length self.now == 0) }
    {
        self.cues.is_empty()
    }

    /// Borrows the subtitle with the index `i`, counted from 0 and below `len`.
    pub(crate) fn at(&self, i: usize) -> Record<'_>
        requires { i < length self.now }
        ensures value { slice_get self.now i ≡ Some result }
        ensures is { result ≡ slice_index_or self.now i result }
    {
        let cue = self.cues.as_slice()[i];
        let (_, rest) = self.texts.as_slice().split_at(cue.start);
        let (text, _) = rest.split_at(cue.len as usize);
        Record {
            sgn: cue.sgn,
            sn: cue.sn,
            tci: cue.tci,
            tco: cue.tco,
            vp: cue.vp,
            jc: cue.jc,
            text,
        }
    }

    /// Borrows the first subtitle. Returns `None` if the list is empty.
    pub(crate) fn first(&self) -> Option<Record<'_>>
        ensures { result ≡ slice_get self.now 0 }
    {
        if self.is_empty() {
            return None;
        }
        Some(self.at(0))
    }

    /// Borrows the last subtitle. Returns `None` if the list is empty.
    pub(crate) fn last(&self) -> Option<Record<'_>>
        ensures { result ≡ slice_get self.now (length self.now - 1) }
    {
        if self.is_empty() {
            return None;
        }
        Some(self.at(self.len() - 1))
    }

    /// Returns the subtitle with the index `i`, counted from 0 and below `len`.
    pub fn subtitle(&self, i: usize) -> Subtitle
        requires { i < length self.now }
        ensures { slice_get self.now i ≡ Some result }
    {
        self.at(i).to_subtitle()
    }

    /// Appends a subtitle to the list.
    ///
    /// # Errors
    ///
    /// Returns `AllocError` if memory cannot be allocated. The list does not change.
    pub(crate) fn push(&mut self, subtitle: &Subtitle) -> Result<(), AllocError>
        ensures ok { OnOk result (self.new ≡ self.old ++ subtitle.now ∷ []) }
        ensures err { OnErr result (self.new ≡ self.old) }
    {
        let cue = cue_with_text_at(self.texts.as_slice().len(), subtitle);
        self.texts.extend_from_slice(subtitle.text())?;
        self.cues.push(cue)?;
        Ok(())
    }

    /// Keeps the first `n` subtitles, and removes the other subtitles.
    pub(crate) fn truncate(&mut self, n: usize)
        ensures { self.new ≡ take n self.old }
    {
        self.cues.truncate(n);
    }

    /// Returns the number of subtitles that have ended by a frame, by binary search. The TCOs must
    /// not decrease.
    pub(crate) fn count_ended_by(&self, frame: u32) -> usize
        requires { IsNonDecreasingBy (λ (t : SubtitleValue). t.tco) self.now }
        ensures bound { result ≤ length self.now }
        ensures before { (k : ℕ) (d : SubtitleValue)
            → k < result → (slice_index_or self.now k d).tco ≤ frame }
        ensures after { (k : ℕ) (d : SubtitleValue)
            → result ≤ k → k < length self.now → frame < (slice_index_or self.now k d).tco }
    {
        self.cues
            .as_slice()
            .partition_point(|c| c.tco.frame() <= frame)
    }
}
