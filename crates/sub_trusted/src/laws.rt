//! Laws about trusted frames: they can be broadcast unchanged; and if there is any event, each
//! range of frames that meets the conditions for trusted frames is reported as trusted, from its
//! first header that erases the page on.
//!
//! The bodies of the functions are empty: the contract of each states a law.
ghost use Rattle.sub_trusted.specs.EqualTrust.{LawOfEqualTrust};
ghost use Rattle.sub_trusted.specs.TrustedFrames.{LawOfAllTrusted, LawOfTrustedFrames};
ghost use Rattle.sub_trusted.specs.TrustedFrames.{LawOfKnownPages};
ghost use Rattle.sub_trusted.specs.TrustedRepeats.{LawOfTrustedRepeats};

/// If the subtitles are valid, trusted frames of a PES file can be broadcast unchanged, whatever is
/// on air before and after them. The first trusted frame has a header that erases the page, so a
/// receiver that is tuned in at its beginning recovers. If `within` is not 0, at least one of the
/// trusted frames is finished. No skipped PES packet comes directly after one of them. If there are
/// unreliable subtitles, this holds for the reliable ones.
pub fn law_of_trusted_repeats()
    ensures { LawOfTrustedRepeats }
{}

/// If each header must have C4 (erase page) set and `within` is 0, a receiver that is tuned in at a
/// trusted frame has the expected page at each frame end of the trusted range once it got a header
/// of the page, apart from spaces because of errors. If complete pages are required, the page is
/// also on its screen.
pub fn law_of_trusted_frames()
    ensures { LawOfTrustedFrames }
{}

/// The expected page of each trusted frame is known, even if there are unreliable subtitles, and so
/// are the expected pages of the `within` frames before it, from the first frame that was read.
pub fn law_of_known_pages()
    ensures { LawOfKnownPages }
{}

/// Frames that are trusted although there are unreliable subtitles are also trusted for any file
/// with other subtitles in place of the unreliable ones, if each of these has its TCI before its
/// TCO and is expected only in frames whose expected page was unknown, and if the check against
/// that file has any event. If `within` is not 0, this holds up to each frame with a finished page.
pub fn law_of_equal_trust()
    ensures { LawOfEqualTrust }
{}

/// If a PES file has any event, or there are unreliable subtitles, each range of frames without
/// active faults and without faults that affect receivers is reported as trusted, from its first
/// header that erases the page on. No skipped PES packet may come directly after a frame of the
/// range, and if `within` is not 0, its last frame must be finished. The range must end before the
/// last frame that precedes a frame number that does not increase, or unreadable bytes.
#[tactic(auto, using(crate::proofs::AllTrustedLemmas::law_of_all_trusted))]
pub fn law_of_all_trusted()
    ensures { LawOfAllTrusted }
{}
