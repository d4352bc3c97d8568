//! Laws about Teletext pages: which page a list of packets shows, and what every receiver decodes
//! if bytes have wrong bits or rows are lost.
//!
//! The functions do nothing; each contract states a law about the definitions in `specs/`.
ghost use Rattle.ttx_page.specs.DroppedRows.{LawOfDropping};
ghost use Rattle.ttx_page.specs.LostRows.{LawOfLostRows, LawOfNothingLost};
ghost use Rattle.ttx_page.specs.Noise.{LawOfNoise, LawWithoutNoise};
ghost use Rattle.ttx_page.specs.Recovery.{LawOfRecovery};
ghost use Rattle.ttx_page.specs.Repeats.{LawOfKeepingReceivers, LawOfRepeatScreen, LawOfKeptText};
ghost use Rattle.ttx_page.specs.Repeats.{LawOfRepeats};
ghost use Rattle.ttx_page.specs.Screen.{LawOfScreen};
ghost use Rattle.ttx_page.specs.Span.{LawOfSpan};

/// The span of a list is the last transmission of the page: all items after the last header of the
/// page, in order, up to the first later header that ends the page, or to the end of the list. It
/// is empty if the list has no header of the page.
///
/// The items `T` are packets, or packets with additional data.
#[tactic(auto, using(crate::proofs::SpanPlaceLemmas::law_of_span))]
pub fn law_of_span<T>()
    ensures { LawOfSpan T }
{}

/// The law of noise, for well-formed packets with at most one wrong bit in each byte and a receiver
/// that had received no header of the page before and whose page was not open. Once it has received
/// a header of the page, each cell has the code that the packets show, or it is a space and its
/// byte had a wrong bit.
#[tactic(auto, using(crate::proofs::NoiseLaws::law_of_noise))]
pub fn law_of_noise()
    ensures { LawOfNoise }
{}

/// If well-formed packets arrive without wrong bits at a receiver that had received no header of
/// the page before and whose page was not open, then after a header of the page it has exactly the
/// codes that the packets show, whatever the page contained before.
#[tactic(auto, using(crate::proofs::FaultFreeLaws::law_of_fault_free))]
pub fn law_without_noise()
    ensures { LawWithoutNoise }
{}

/// The law of lost rows: the law of noise if packets other than page headers are lost, and for
/// receivers that drop rows. A flag for each packet states whether it arrived. A cell of a lost row
/// counts as hit by noise. In a receiver that drops rows, each cell of a row with a wrong byte
/// counts as hit.
#[tactic(auto, using(crate::proofs::NoiseLaws::law_of_lost_rows))]
pub fn law_of_lost_rows()
    ensures { LawOfLostRows }
{}

/// If no packet is lost, the law of lost rows, for receivers that store rows, is the law of noise.
pub fn law_of_nothing_lost()
    ensures { LawOfNothingLost }
{}

/// A receiver that drops rows decodes and displays the same page as a receiver that stores rows and
/// does not receive the dropped rows.
pub fn law_of_dropping()
    ensures { LawOfDropping }
{}

/// The law of lost rows for a receiver in any state: after a header of the page, each cell has the
/// code that the packets show, or it is a space and the byte of the cell had a wrong bit or was
/// lost. In a receiver that drops rows, a wrong bit in any byte of the row counts.
#[tactic(auto, using(crate::proofs::NoiseLaws::law_of_recovery))]
pub fn law_of_recovery()
    ensures { LawOfRecovery }
{}

/// If packets with a header of its page reach a receiver in any state, and the page is not open
/// after them, the decoded page is on its screen.
#[tactic(auto, using(crate::proofs::ScreenLaws::law_of_screen))]
pub fn law_of_screen()
    ensures { LawOfScreen }
{}

/// The law of repeats, for well-formed packets of a page that is repeated without C4, erase page.
/// At such a header a receiver may keep or blank each cell. After a header of the page, if no cell
/// depends on the earlier contents of the page, each cell has the code of the text, or it is a
/// space, and noise or loss hit it (in a receiver that drops rows: any cell of its row) or the last
/// transmission has no packet of its row.
pub fn law_of_repeats()
    ensures { LawOfRepeats }
{}

/// A receiver that keeps its page at a header without C4 is a receiver to which the law of repeats
/// applies.
#[tactic(auto, using(crate::proofs::RepeatLaws::law_of_keeping_receivers))]
pub fn law_of_keeping_receivers()
    ensures { LawOfKeepingReceivers }
{}

/// If well-formed packets arrive without wrong bits, a receiver that keeps its page at headers
/// without C4 has the codes of the current text, if no cell depends on the page's earlier contents.
#[tactic(auto, using(crate::proofs::FaultFreeLaws::law_of_kept_text))]
pub fn law_of_kept_text()
    ensures { LawOfKeptText }
{}

/// If packets with a header of its page reach a receiver in any state to which the law of repeats
/// applies, and the page is not open after them, the decoded page is on its screen.
#[tactic(auto, using(crate::proofs::ScreenLaws::law_of_repeat_screen))]
pub fn law_of_repeat_screen()
    ensures { LawOfRepeatScreen }
{}
