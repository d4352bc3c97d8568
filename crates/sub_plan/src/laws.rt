//! Laws of page transmissions and schedules. The functions do nothing: the contract of each
//! function is a law or an example.
#![tactic(auto, using(crate::proofs::LawLemmas::laws))]

ghost use Rattle.sub_plan.specs.Examples.{ExampleOfClosingHeaders, ExampleOfWatchedHeaders};
ghost use Rattle.sub_plan.specs.Laws.{LawOfDueSize};
ghost use Rattle.sub_plan.specs.Laws.{LawOfCutSendings, LawOfDay, LawOfEqualPages, LawOfGaps};
ghost use Rattle.sub_plan.specs.Laws.{LawOfLastSending, LawOfPesValues, LawOfSending};
ghost use Rattle.sub_plan.specs.Laws.{LawOfClock, LawOfExactClock, LawOfNearClock};
ghost use Rattle.sub_plan.specs.Laws.{LawOfSendings, LawOfSentPackets, LawOfSize};

/// Whatever was sent before, a page transmission shows the page from which it was made.
pub fn law_of_sending()
    ensures { LawOfSending }
{}

/// Each packet of a page transmission has 42 bytes, its address bytes and the coded bytes of a
/// header are code words without a wrong bit, and each header has C11 as the transmission mode
/// requires. Any header of the page among them is the header of the transmission.
pub fn law_of_sent_packets()
    ensures { LawOfSentPackets }
{}

/// The transmission of an expected page has at most 25 packets, since row 24 of the page is blank.
pub fn law_of_due_size()
    ensures { LawOfDueSize }
{}

/// A page transmission has at most 26 packets.
pub fn law_of_size()
    ensures { LawOfSize }
{}

/// If page transmissions are cut anywhere, the packets after the last header of the page, up to a
/// closing header, are rows of only one page.
pub fn law_of_cut_sendings()
    ensures { LawOfCutSendings }
{}

/// A frame of a schedule has a page transmission if and only if its distance from the last base is
/// a multiple of the repeat bound, or it is the last frame.
pub fn law_of_sendings()
    ensures { LawOfSendings }
{}

/// Any `every` consecutive frames of a schedule contain a page transmission.
pub fn law_of_gaps()
    ensures { LawOfGaps }
{}

/// After the first frame, a cue at which the expected page does not change starts no new repeat
/// interval.
pub fn law_of_equal_pages()
    ensures { LawOfEqualPages }
{}

/// The last page transmission up to a frame of a schedule shows the page expected at that frame.
pub fn law_of_last_sending()
    ensures { LawOfLastSending }
{}

/// The packets of a page transmission fit in one PES packet.
pub fn law_of_pes_values()
    ensures { LawOfPesValues }
{}

/// Each frame of a programme's schedule is a frame of the day.
pub fn law_of_day()
    ensures { LawOfDay }
{}

/// Each clock converts the PTS of a frame of the day back to that frame.
pub fn law_of_clock()
    ensures { LawOfClock }
{}

/// If `within` is 0, the frame of a PTS is the frame of the day with exactly this PTS.
pub fn law_of_exact_clock()
    ensures { LawOfExactClock }
{}

/// If `within` is at least 1, a PTS may be up to a quarter of a frame early or less than three
/// quarters late.
pub fn law_of_near_clock()
    ensures { LawOfNearClock }
{}

/// Example: the header of page 888 byte by byte, for all national options and in both modes.
pub fn example_of_watched_headers()
    ensures { ExampleOfWatchedHeaders }
{}

/// Example: the closing header byte by byte, in parallel and in serial mode.
pub fn example_of_closing_headers()
    ensures { ExampleOfClosingHeaders }
{}
