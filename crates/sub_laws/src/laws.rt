//! Laws of transmissions: a good transmission is robust, and further laws about the rules.
//!
//! The contract of each function states a law. All bodies are empty except that of
//! `law_of_judged_parts`, which calls the law of `stl_file` that it needs.
ghost use Rattle.sub_laws.specs.WithoutDelay.{LawOfNoDelay, LawOfTrustWithoutDelay};
ghost use Rattle.sub_laws.specs.BrokenPlaces.{LawOfBrokenPlaces, LawOfEmptyReport};
ghost use Rattle.sub_laws.specs.BrokenPlaces.{LawOfEmptyReportRepeats};
ghost use Rattle.sub_laws.specs.CleanStretch.{LawOfUnreportedStretch};
ghost use Rattle.sub_laws.specs.DelayOfFiles.{LawOfLongerDelayOfFiles};
ghost use Rattle.sub_laws.specs.JudgedFiles.{LawOfEqualReports, LawOfJudgedParts};
ghost use Rattle.sub_laws.specs.Laws.{LawOfLosslessReception, LawOfGood, LawOfWindow};
ghost use Rattle.sub_laws.specs.OldText.{LawOfOldText};
ghost use Rattle.sub_laws.specs.OnScreen.{LawOfCompletePlan};
ghost use Rattle.sub_rules.specs.Kept.{LawOfRightCells};
ghost use Rattle.sub_rules.specs.PesReading.{LawOfExactFrames};
ghost use Rattle.sub_rules.specs.PesPacketEvents.{LawOfFirstReported};
ghost use Rattle.sub_laws.specs.Planned.{LawOfPlan, LawOfPlanRead};
ghost use Rattle.sub_laws.specs.Repeats.{LawOfFollowedStretch, LawOfGoodWithRepeats};
ghost use Rattle.sub_laws.specs.Repeats.{LawOfKeptCodes};
ghost use Rattle.sub_laws.specs.Repeats.{LawOfLongerDelayWithRepeats};
ghost use Rattle.sub_laws.specs.Repeats.{LawOfPlanRepeats, LawOfRepeatedStretch};
ghost use Rattle.sub_rules.specs.Repeats.{LawOfMayKeep, LawOfNoRepeats, LawOfErasingHeaders};
ghost use Rattle.sub_laws.specs.Stretch.{LawOfFullRecovery, LawOfFullStretch};
ghost use Rattle.sub_laws.specs.Sufficient.{LawOfStretch, LawOfSufficientParts};
ghost use Rattle.sub_laws.specs.ReportedRepeats.{LawOfUnreportedRepeats};

use stl_file::law_of_scope;

/// A receiver that starts anywhere in a good transmission gets a header of the page within the
/// repeat bound, if it listens so long.
#[tactic(auto, using(crate::proofs::RobustLemmas::law_of_window))]
pub fn law_of_window()
    ensures { LawOfWindow }
{}

/// A good transmission is robust: wherever a receiver starts, whatever page it had, and with at
/// most one wrong bit in each byte, each cell has the expected code after the next header, or it is
/// a space and its byte had a wrong bit. The same holds if rows are lost (their cells may have
/// spaces), and for receivers that drop a row with an error (its cells may have spaces). If pages
/// are complete, it also holds for screens that show a page only after a later header has ended it.
pub fn law_of_good()
    ensures { LawOfGood }
{}

/// A good transmission meets the conditions that suffice for the guarantees: frame numbers
/// increase; code words have no wrong bit; headers of the page have C4 (erase page) set; its rows
/// have odd parity and are repeated unchanged; a header is sent within the repeat bound; the
/// expected page is shown.
#[tactic(auto, using(crate::proofs::RobustLemmas::suffices))]
pub fn law_of_sufficient_parts()
    ensures { LawOfSufficientParts }
{}

/// If a range of frames meets the sufficient conditions, every receiver that starts and stops in it
/// has the expected page after the next header, apart from spaces because of errors, whatever was
/// on air before. If pages are complete in the range, this also holds for the screen.
#[tactic(auto, using(crate::proofs::StretchLemmas::law_of_stretch))]
pub fn law_of_stretch()
    ensures { LawOfStretch }
{}

/// If `within` is 0 and each header must have C4 (erase page) set, a transmission of valid
/// subtitles is good under the options if and only if it is good and, if complete pages are
/// required, its pages are complete.
pub fn law_of_no_delay()
    ensures { LawOfNoDelay }
{}

/// If `within` is 0 and each header must have C4 (erase page) set, the guarantees for repeats
/// include the guarantees without them.
#[tactic(auto, using(crate::proofs::DelayLemmas::law_of_trust_without_delay))]
pub fn law_of_trust_without_delay()
    ensures { LawOfTrustWithoutDelay }
{}

/// If the bytes of a PES file carry a good transmission with some `within`, they carry it with any
/// greater `within`, and it is still good.
pub fn law_of_longer_delay_of_files()
    ensures { LawOfLongerDelayOfFiles }
{}

/// A range of frames without faults that affect receivers meets the sufficient conditions for
/// repeats. If `Incomplete` is not active at the end of any of its frames, and the subtitles are
/// valid, the frames are finished in time.
pub fn law_of_unreported_repeats()
    ensures { LawOfUnreportedRepeats }
{}

/// If each header must have C4 (erase page) set, `within` is 0 and the frame numbers of the
/// transmission increase, a range of frames without faults that affect receivers meets the
/// sufficient conditions. If complete pages are required, and `Incomplete` is not active at the end
/// of any of its frames, its pages are complete.
pub fn law_of_unreported_stretch()
    ensures { LawOfUnreportedStretch }
{}

/// If receivers recover in all frames of a transmission, it is robust, even if rows are lost.
pub fn law_of_full_recovery()
    ensures { LawOfFullRecovery }
{}

/// If the guarantees hold for the range of all frames of a transmission, they hold for the
/// transmission.
#[tactic(auto, using(crate::proofs::StretchLemmas::law_of_full_stretch))]
pub fn law_of_full_stretch()
    ensures { LawOfFullStretch }
{}

/// A transmission is robust without lost packets if and only if it is robust.
pub fn law_of_lossless_reception()
    ensures { LawOfLosslessReception }
{}

/// The schedule of a subtitle file with at least one subtitle is a good transmission, in serial and
/// parallel mode and for every national option, unless the pace is less than the repeat bound.
pub fn law_of_plan()
    ensures { LawOfPlan }
{}

/// The schedule of a subtitle file with at least one subtitle has complete pages, in serial and
/// parallel mode.
#[tactic(auto, using(crate::proofs::PlanLemmas::law_of_complete_plan))]
pub fn law_of_complete_plan()
    ensures { LawOfCompletePlan }
{}

/// The PES file of a schedule is read as the scheduled transmission, frame by frame.
#[tactic(auto, using(crate::proofs::PlanLemmas::law_of_plan_read))]
pub fn law_of_plan_read()
    ensures { LawOfPlanRead }
{}

/// If `within` is 0, a PES file carries the same transmissions whether its PTS values are converted
/// by the clock of the options or must be exact.
pub fn law_of_exact_frames()
    ensures { LawOfExactFrames }
{}

/// If `within` is 0, a fault is found at a place of a transmission, or is active at the end of a
/// frame, if and only if a rule is broken there; for `RowChanged`, if the earlier packets have no
/// fault and the packet has correct address bytes and odd parity. For wrong text, the fault gives
/// the first wrong cell.
pub fn law_of_broken_places()
    ensures { LawOfBrokenPlaces }
{}

/// If `within` is 0, the first fault is the same whether reading stops at the first skipped PES
/// packet or continues after it.
#[tactic(auto, using(sub_rules::proofs::PesPacketEventLemmas::first_reported_fault_is_exact))]
pub fn law_of_first_reported()
    ensures { LawOfFirstReported }
{}

/// If the subtitles are valid and none is unreliable, a PES file has no event if and only if no PES
/// packet is skipped, its frames are good under the options, and the entire file was read.
#[tactic(auto, using(crate::proofs::EmptyReportLemmas::law_of_empty_report_repeats))]
pub fn law_of_empty_report_repeats()
    ensures { LawOfEmptyReportRepeats }
{}

/// If each header must have C4 (erase page) set, `within` is 0 and no subtitle is unreliable, a PES
/// file has no event if and only if no PES packet is skipped, its frames are good, with complete
/// pages if these are required, and the entire file was read.
#[tactic(auto, using(crate::proofs::EmptyReportLemmas::law_of_empty_report))]
pub fn law_of_empty_report()
    ensures { LawOfEmptyReport }
{}

/// Suppose that a range of frames meets the conditions for recovery, such as that each repeat sends
/// the same text as before, and that at each frame end each cell has a space or a code that was
/// expected at that frame or, from the first frame of the transmission on, at one of the `within`
/// frames before. Then receivers recover, whether they keep their page at a header with C4 (erase
/// page) clear or blank any of its cells: from any header if their page was blank and not open or
/// they erase it at each header, and otherwise from the next header with C4 set. At each frame end
/// with a correct page that has ended, the expected page is then on their screens. If the frames of
/// the range are finished in time, all guarantees hold for it.
pub fn law_of_repeated_stretch()
    ensures { LawOfRepeatedStretch }
{}

/// A transmission of valid subtitles that is good under the options meets its guarantees. Once a
/// receiver got a header and has erased its old page, each cell has a space or a code that was
/// expected at that frame or at one of the `within` frames before. The page is correct at least
/// once in any `within` + 1 frames, and in each subtitle.
pub fn law_of_good_with_repeats()
    ensures { LawOfGoodWithRepeats }
{}

/// If each header must have C4 (erase page) set, a cell is correct if and only if it shows the
/// expected code.
pub fn law_of_right_cells()
    ensures { LawOfRightCells }
{}

/// If each header must have C4 (erase page) set, rules 1 to 6 are those of a good transmission.
pub fn law_of_no_repeats()
    ensures { LawOfNoRepeats }
{}

/// A transmission that is good if each header must have C4 (erase page) set is also good if repeats
/// may have C4 clear.
pub fn law_of_may_keep()
    ensures { LawOfMayKeep }
{}

/// A transmission that is good if repeats may have C4 (erase page) clear, and in which every header
/// of the page has C4 set, is good if each header must have C4 set. So if `within` is 0 and the
/// subtitles are valid, all guarantees of a good transmission hold for it.
pub fn law_of_erasing_headers()
    ensures { LawOfErasingHeaders }
{}

/// A transmission that is good with some `within` is good with any greater `within`.
pub fn law_of_longer_delay_with_repeats()
    ensures { LawOfLongerDelayWithRepeats }
{}

/// The schedule of a subtitle file with at least one subtitle is good for any `within`, whether or
/// not repeats may have C4 (erase page) clear, unless the pace is less than the repeat bound.
pub fn law_of_plan_repeats()
    ensures { LawOfPlanRepeats }
{}

/// If each packet in a range of frames is allowed after the packets before it, and a header of the
/// page is sent within the repeat bound, the range meets the conditions under which receivers
/// recover, apart from those for the text.
pub fn law_of_followed_stretch()
    ensures { LawOfFollowedStretch }
{}

/// If a transmission keeps rules 1 to 6 and the limit for the interval between PES packets, if the
/// options have one, and is received from its first frame on without errors, a receiver that keeps
/// its page at headers with C4 (erase page) clear, and started with a blank page that was not open
/// or has erased it since, has the codes that the rules define for such repeats, at the end of each
/// frame.
pub fn law_of_kept_codes()
    ensures { LawOfKeptCodes }
{}

/// If text ends or changes at a frame of a good transmission, more than `within` frames after its
/// first frame and at least `within` frames before its last, a header that erases the page is sent
/// at most `within` frames before or after it. So the old text of a receiver that was tuned in more
/// than `within` frames before it is gone `within` frames after it, if all page headers arrive and
/// each byte that arrives has at most one wrong bit.
pub fn law_of_old_text()
    ensures { LawOfOldText }
{}

/// A range of a subtitle file has the same reliable subtitles as the file without the blocks of the
/// subtitles outside the range, if no fault ends the reading of the file. A transmission can be
/// checked against both or against neither.
pub fn law_of_judged_parts()
    ensures { LawOfJudgedParts }
{
    law_of_scope();
}

/// Two subtitle files give the same events for a PES file if they have the same reliable subtitles,
/// drawn in the same way, and the same frames with an unknown expected page, and both or neither
/// have unreliable subtitles.
pub fn law_of_equal_reports()
    ensures { LawOfEqualReports }
{}
