//! The subtitles kept while a file is read.

ghost use Rattle.std.specs.Prelude.{◌≡◌, [], true, if◌then◌else◌, IfErr, IfSome, None, OnOk, Some};
ghost use Rattle.stl_rows.specs.Judged.{are_in_order, judged_subtitles_with_bits};
ghost use Rattle.stl_rows.specs.Keeping.{bits_with_next, is_checkable, are_all_kept};
ghost use Rattle.stl_rows.specs.Keeping.{records_after_subtitle};
ghost use Rattle.stl_rows.specs.Keeping.{no_subtitles_yet};
ghost use Rattle.stl_rows.specs.Keeping.{after_rejected_subtitle, after_faulty_subtitle};
ghost use Rattle.stl_rows.specs.Keeping.{without_last_kept, after_kept_subtitle};
ghost use Rattle.stl_rows.specs.declared.fault.LoadFaultKind.TheVariants.{Memory};

use crate::cues::StoredSubtitles;
use crate::fault::LoadFaultKind;
use std::alloc::Allocator;
use std::marker::Model;
use stl_file::Subtitle;

/// The subtitles kept so far. Each is reliable; the last only if the next subtitle that is not
/// rejected, if any, is in order with it.
///
/// The model has the subtitles; for each, a bit that says whether an unreliable subtitle of the
/// file directly precedes it; whether an unreliable subtitle follows the last; and whether the
/// times of the next subtitle are compared with those of the last.
#[derive(Drop)]
pub struct KeptSubtitles<A: Allocator + Copy> {
    pub(crate) subtitles: StoredSubtitles<A>,
    // For each subtitle in order, whether an unreliable subtitle directly precedes it. A missing
    // bit means false.
    pub(crate) after_unreliable_bits: Vec<bool, A>,
    // Whether an unreliable subtitle follows the last kept subtitle.
    pub(crate) is_before_unreliable: bool,
    // Whether the times of the next subtitle are compared with the times of the last kept subtitle.
    pub(crate) compares_with_last_kept: bool,
}

impl<A: Allocator + Copy> Model for KeptSubtitles<A> {
    ghost use Rattle.stl_rows.specs.Keeping.{KeptRecords};

    ghost Value = { KeptRecords };

    ghost view = { λ k. record {
      records = k.subtitles;
      after_unreliable_bits = k.after_unreliable_bits.items;
      is_before_unreliable = k.is_before_unreliable;
      compares_with_last_kept = k.compares_with_last_kept;
    } };
}

// Sets the bit number `at`, and fills the missing bits before it with false.
fn push_bit<A: Allocator + Copy>(bits: &mut Vec<bool, A>, at: usize) -> Result<(), LoadFaultKind>
    ensures bits { OnOk result (bits.new.items ≡ bits_with_next at true bits.old.items) }
    ensures memory { IfErr result (λ kind. kind ≡ Memory) }
{
    let Ok(()) = bits.resize(at, false) else {
        return Err(LoadFaultKind::Memory);
    };
    match bits.push(true) {
        Ok(()) => Ok(()),
        Err(_) => Err(LoadFaultKind::Memory),
    }
}

// Returns whether no subtitle starts before the TCO of an earlier subtitle.
fn are_in_order<A: Allocator + Copy>(subtitles: &StoredSubtitles<A>) -> bool
    ensures { result ≡ are_in_order (judged_subtitles_with_bits subtitles.now []) }
{
    let mut last = 0;
    let mut i = 0;
    while i < subtitles.len() {
        let subtitle = subtitles.at(i);
        if subtitle.tci().frame() < last {
            return false;
        }
        last = subtitle.tco().frame();
        i += 1;
    }
    true
}

impl<A: Allocator + Copy> KeptSubtitles<A> {
    // Creates the state before the first subtitle of a file.
    pub(crate) fn new(alloc: A) -> KeptSubtitles<A>
        ensures { result ≡ no_subtitles_yet }
    {
        KeptSubtitles {
            subtitles: StoredSubtitles::new(alloc),
            after_unreliable_bits: Vec::new(alloc),
            is_before_unreliable: false,
            compares_with_last_kept: false,
        }
    }

    // Records that the next subtitle of the file is rejected.
    pub(crate) fn note_rejected(&mut self)
        ensures { self.new ≡ after_rejected_subtitle self.old }
    {
        self.is_before_unreliable = true;
    }

    // Keeps a subtitle that has no fault.
    fn push(&mut self, subtitle: &Subtitle) -> Result<(), LoadFaultKind>
        ensures kept { OnOk result (self.new ≡ after_kept_subtitle subtitle.now self.old) }
        ensures memory { IfErr result (λ kind. kind ≡ Memory) }
    {
        if self.is_before_unreliable {
            push_bit(&mut self.after_unreliable_bits, self.subtitles.len())?;
        }
        let Ok(()) = self.subtitles.push(subtitle) else {
            return Err(LoadFaultKind::Memory);
        };
        self.is_before_unreliable = false;
        self.compares_with_last_kept = true;
        Ok(())
    }

    // Removes the last kept subtitle, which is not reliable.
    fn remove_last(&mut self)
        ensures { self.new ≡ without_last_kept self.old }
    {
        let left = self.subtitles.len().saturating_sub(1);
        self.subtitles.truncate(left);
        self.after_unreliable_bits.truncate(left);
    }

    // Processes the next subtitle of the file. `clean`: the subtitle has no fault, so it is kept.
    // `in_order`: its times are in order with the times of the previous subtitle. If neither holds,
    // the previous subtitle is not kept either.
    pub(crate) fn put(
        &mut self,
        in_order: bool,
        clean: bool,
        subtitle: &Subtitle,
    ) -> Result<(), LoadFaultKind>
        ensures kept { OnOk result (self.new ≡ records_after_subtitle in_order clean subtitle.now
            self.old) }
        ensures memory { IfErr result (λ kind. (kind ≡ Memory) × (clean ≡ true)) }
    {
        if clean {
            return self.push(subtitle);
        }
        if self.compares_with_last_kept && !in_order {
            self.remove_last();
        }
        self.is_before_unreliable = true;
        self.compares_with_last_kept = false;
        Ok(())
    }

    // Returns whether all subtitles of the file are kept.
    fn are_all_kept(&self) -> bool
        ensures { result ≡ are_all_kept self.now }
    {
        self.after_unreliable_bits.is_empty() && !self.is_before_unreliable
    }

    // Returns whether a transmission can be checked against the kept subtitles: all subtitles of
    // the file are kept, or at least one is, and none starts before the TCO of an earlier one.
    fn is_checkable(&self) -> bool
        ensures { result ≡ is_checkable self.now }
    {
        if self.are_all_kept() {
            return true;
        }
        if self.subtitles.is_empty() {
            return false;
        }
        are_in_order(&self.subtitles)
    }

    // Returns the kept subtitles if a transmission can be checked against them.
    pub(crate) fn into_checkable(self) -> Option<Self>
        ensures { result ≡ (if is_checkable self then Some self else None) }
    {
        if self.is_checkable() {
            Some(self)
        } else {
            None
        }
    }

    // Returns the kept subtitles without their bits.
    pub(crate) fn into_subtitles(self) -> StoredSubtitles<A>
        ensures { result ≡ self.records }
    {
        let KeptSubtitles {
            subtitles,
            after_unreliable_bits: _,
            is_before_unreliable: _,
            compares_with_last_kept: _,
        } = self;
        subtitles
    }
}
