//! Programmes of the reliable subtitles of a file, which may also have unreliable subtitles.

ghost use Rattle.std.specs.Prelude.{◌≡◌};
ghost use Rattle.std.specs.List.{list_any};
ghost use Rattle.stl_rows.specs.Judged.{LawOfReliableFiles, has_unreliable_subtitle};
ghost use Rattle.stl_rows.specs.Judged.{is_undecided_in, known};
ghost use Rattle.stl_rows.specs.Keeping.{judged_value_of};
ghost use Rattle.stl_rows.specs.Programme.{IsProgramme};

use crate::keeping::KeptSubtitles;
use crate::layout::Drawing;
use crate::programme::Programme;
use std::alloc::Global;
use std::marker::Model;

/// The reliable subtitles of a file, and the gaps before, between and after them where the file has
/// unreliable subtitles.
///
/// Created by `load_all`. The model has the programme; for each of its subtitles in order, a bit
/// that says whether an unreliable subtitle directly precedes it; and whether an unreliable
/// subtitle follows the last.
#[derive(Drop)]
pub struct JudgedProgramme {
    programme: Programme,
    // For each subtitle in order, whether an unreliable subtitle directly precedes it. A missing
    // bit means false.
    after_unreliable_bits: Vec<bool>,
    is_before_unreliable: bool,
}

impl Model for JudgedProgramme {
    ghost use Rattle.stl_rows.specs.Judged.{JudgedValue};

    ghost Value = { JudgedValue };

    ghost view = { λ j. record {
      programme = j.programme;
      after_unreliable_bits = j.after_unreliable_bits.items;
      is_before_unreliable = j.is_before_unreliable;
    } };
}

/// A programme against which a transmission is checked, with the gaps where the file has unreliable
/// subtitles: borrowed from a complete programme, or from a programme of reliable subtitles.
///
/// The model is the model of a `JudgedProgramme`.
#[derive(Drop)]
pub struct Judging<'a> {
    programme: &'a Programme,
    after_unreliable_bits: &'a [bool],
    is_before_unreliable: bool,
}

impl<'a> Model for Judging<'a> {
    ghost use Rattle.stl_rows.specs.Judged.{JudgedValue};

    ghost Value = { JudgedValue };

    ghost view = { λ j. record {
      programme = j.programme.now;
      after_unreliable_bits = j.after_unreliable_bits.now;
      is_before_unreliable = j.is_before_unreliable;
    } };
}

impl JudgedProgramme {
    // Creates a `JudgedProgramme` from the reliable subtitles of a file and their bits.
    pub(crate) fn of(drawing: Drawing, kept: KeptSubtitles<Global>) -> JudgedProgramme
        requires { IsProgramme drawing kept.records }
        ensures { result ≡ judged_value_of drawing kept }
    {
        let KeptSubtitles {
            subtitles,
            after_unreliable_bits,
            is_before_unreliable,
            compares_with_last_kept: _,
        } = kept;
        JudgedProgramme {
            programme: Programme::of(drawing, subtitles),
            after_unreliable_bits,
            is_before_unreliable,
        }
    }

    /// Returns the programme of the reliable subtitles.
    pub fn programme(&self) -> &Programme
        ensures { result.now ≡ self.now.programme }
    {
        &self.programme
    }

    /// Borrows the programme for checking a transmission.
    pub fn judging(&self) -> Judging<'_>
        ensures { result ≡ self.now }
    {
        Judging {
            programme: &self.programme,
            after_unreliable_bits: self.after_unreliable_bits.as_slice(),
            is_before_unreliable: self.is_before_unreliable,
        }
    }
}

impl<'a> Judging<'a> {
    /// Borrows a programme in which all subtitles of the file are reliable.
    pub fn known(programme: &'a Programme) -> Judging<'a>
        ensures { result ≡ known programme.now }
    {
        Judging {
            programme,
            after_unreliable_bits: &[],
            is_before_unreliable: false,
        }
    }

    /// Returns the programme of the reliable subtitles.
    pub fn programme(&self) -> &'a Programme
        ensures { result.now ≡ self.now.programme }
    {
        self.programme
    }

    /// Returns whether the file has an unreliable subtitle within the scope.
    pub fn has_unreliable_subtitle(&self) -> bool
        ensures { result ≡ has_unreliable_subtitle self.now }
    {
        self.is_before_unreliable || has_set_bit(self.after_unreliable_bits)
    }

    /// Returns whether the expected page is unknown at a frame: the frame is in a gap before,
    /// between or after the reliable subtitles, and at this place the file has an unreliable
    /// subtitle, whatever its times.
    ///
    /// Uses binary search.
    pub fn is_undecided(&self, frame: u32) -> bool
        ensures { result ≡ is_undecided_in self.now frame }
    {
        self.programme.is_undecided(self.after_unreliable_bits, self.is_before_unreliable, frame)
    }
}

// Returns whether any bit in the list is set.
fn has_set_bit(bits: &[bool]) -> bool
    ensures { result ≡ list_any (λ bit. bit) bits.now }
{
    bits.iter().any(|bit| *bit)
}

/// If all subtitles of a file are reliable, the expected page is known at every frame.
#[tactic(auto, using(crate::proofs::JudgedLemmas::reliable_file_decides_every_frame))]
pub fn law_of_reliable_files()
    ensures { LawOfReliableFiles }
{}
