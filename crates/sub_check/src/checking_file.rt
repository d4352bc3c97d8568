//! Checks a PES file against a programme.
ghost use Rattle.std.specs.Prelude.{◌≡◌, ℕ, Err, IfErr, IfOk, IfSome, IsFalse, Option};
ghost use Rattle.std.specs.Prelude.{false, is_none, true};
ghost use Rattle.sub_io.specs.Device.{CanFail, CountsFailureIf, failed};
ghost use Rattle.sub_io.specs.Reading.{IfKnown};
ghost use Rattle.sub_io.specs.Reporting.{ReportsSome};
ghost use Rattle.ttx_pes.specs.Reader.{FailsAfterValidPackets};
ghost use Rattle.stl_rows.specs.Judged.{known};
ghost use Rattle.stl_rows.specs.Programme.{ProgrammeValue};
ghost use Rattle.sub_rules.specs.Fault.{is_pes_read_failure, is_pes_write_failure};
ghost use Rattle.sub_rules.specs.Fault.{is_subtitle_fault};
ghost use Rattle.sub_rules.specs.PesPackets.{FailsAtPesPacket};
ghost use Rattle.sub_check.specs.CheckedFiles.{FirstEventsArePrefix, IsChecked, IsCheckedBy};
ghost use Rattle.sub_check.specs.CheckedFiles.{ReportsEvents, TrustedFramesAreKnown};
ghost use Rattle.sub_check.specs.CheckedFiles.{TrustedFramesMayStay};
ghost use Rattle.sub_check.specs.CheckedFiles.{TrustedFramesMayStayWithin};
ghost use Rattle.sub_check.specs.CheckedFiles.{all_events_of};
ghost use Rattle.sub_check.specs.CheckedFiles.{first_answer};

use crate::checking::{check_all_pes_packets, check_pes_packets};
use stl_rows::{Judging, Programme};
use sub_checker::Accepted;
use sub_io::{LiveReportSink, Source};
use sub_plan::Options;
use sub_rules::{CheckFault, Event};
use ttx_pes::{FilePesPackets, PesFault};

/// Checks a PES file against a programme. Unless the source fails, the file is accepted exactly if
/// it carries a transmission of the programme that is good by the options, and otherwise the result
/// is the first fault that `check_all` reports.
///
/// The check reads one PES packet at a time and allocates no memory. It stores one PES packet, one
/// received page, the expected page, and for each row whether it was received since the last header
/// of the page and since the last header that erased it. The expected page is drawn again when a
/// subtitle begins or ends and, if `within` is not 0, to find unexpected codes while the page is
/// wrong. Packets that begin with a header that erases the page, break no rule, and equal those of
/// the PES packet before, byte for byte, are not examined again.
///
/// # Errors
///
/// Returns the first fault in this order. For each PES packet: its own fault as `Pes`, `OffFrame`
/// or `Order`; for the first PES packet `Early`; for each frame before it `Content`, then `Gap`
/// and, if there is a pace, `Silent`; for its Teletext packets in order `Address` to `Enhancement`;
/// for the first PES packet `NoFirstHeader`; then `Content`, `Gap`, and, if complete pages are
/// required, `Incomplete`. At the end of the file: `Empty` or `Late`. Returns `Pes` with `Read`
/// exactly if the source failed in this call.
///
/// If `within` is not 0, a frame ends at the next PES packet of another frame or at the end of the
/// file. `Incomplete` is then returned only when the page is overdue, also for a frame before a PES
/// packet (after `Gap`). Before that, `Content` is returned only for a code, other than a space,
/// that was expected neither at this frame nor, from the first frame on, at one of the `within`
/// frames before. `Late` is also returned if the file ends, within the allowed delay, before a page
/// is right and, if required, complete. If repeats may keep the page, `Control` allows a header
/// that repeats the page, and `Content` is returned if a row with text is not sent again.
pub fn check<S: Source>(
    programme: &Programme,
    source: &mut S,
    options: &Options,
) -> Result<Accepted, CheckFault>
    requires { CanFail (S.failure_count source.old) }
    // Unless the source fails, a PES file whose bytes are known is accepted, with options that
    // allow no delay and require C4 in each header, exactly if it carries a good transmission of
    // the programme, with complete pages if required. Such a transmission is robust.
    ensures checked { IsFalse options.now.keeps → options.now.within ≡ 0
        → IfKnown (S.remaining source.old) (λ bytes.
        IsChecked programme.now options.now bytes result) }
    // With any options, the PES file is accepted exactly if its transmission is good by these
    // options, unless the source fails. Options may allow late pages, or repeats that keep the
    // page.
    ensures answer_is_checked_within { IfKnown (S.remaining source.old) (λ bytes.
        IsCheckedBy programme.now options.now bytes result) }
    // A failure of the source is reported at the PES packet that could not be read; the packets
    // before it were consumed.
    ensures read { (pes : ℕ) → result ≡ Err (CheckFault.Pes pes PesFault.Read)
        → FailsAfterValidPackets pes (S.remaining source.old) (S.remaining source.new) }
    // No fault of a subtitle file and no `Write` is returned. `Read` is returned exactly if the
    // source failed in this call.
    ensures own { failed is_subtitle_fault result ≡ false }
    ensures is_no_write_fault { failed is_pes_write_failure result ≡ false }
    ensures count { CountsFailureIf S.failure_count source.old (failed is_pes_read_failure result)
        source.new }
{
    let mut pes_packets = FilePesPackets::new(source);
    check_pes_packets(programme, &mut pes_packets, options)
}

/// Checks a PES file like `check`, but against the reliable subtitles of a subtitle file, and
/// reports all faults as events to `report_sink`, until it stops the check.
///
/// The events are the faults of `check`, each where it occurs. Every rule that a packet breaks is
/// reported. A rule that applies to the end of each frame is reported for the first and the last
/// frame of a run in which it is broken at the same place. Further events report runs of frames
/// that are trusted to be right on air, at the end of each run. A PES packet that can't be read, or
/// whose PTS belongs to no frame of the day, is skipped if it has a start code and a valid length
/// field, and is as long as that states. Of consecutive skipped packets with the same fault, the
/// first and the last are reported. If the remaining bytes cannot be read as PES packets, their
/// fault is the last event.
///
/// If there are unreliable subtitles, the expected page of some frames may be unknown. At these
/// frames cells are not checked, and `Undecided` is reported, also for the `within` frames after
/// them. Trusted frames are always reported then.
///
/// Returns the counts: the number of frames from the frame of the first PES packet that is not
/// skipped to the latest frame, 0 if there is none, and the number of headers of the page. Returns
/// `None` if the report sink stopped the check, which may happen within a PES packet.
///
/// The check allocates no memory, and reads like `check` except for skipped packets. Reports are
/// flushed before a read that may block, so the events of a PES packet are visible before the next
/// packet arrives.
///
/// # Errors
///
/// Returns `Pes` with `Read` if the source failed. The events of all packets before the failure
/// have been reported.
pub fn check_all<S: Source, A: LiveReportSink<Event>>(
    judging: &Judging<'_>,
    source: &mut S,
    options: &Options,
    report_sink: &mut A,
) -> Result<Option<Accepted>, CheckFault>
    requires failures { CanFail (S.failure_count source.old) }
    requires continues { A.has_stopped report_sink.old ≡ false }
    requires still { A.has_pending_reports report_sink.old ≡ false }
    // If the bytes of the source are known, they determine the reported events.
    ensures reported { IfKnown (S.remaining source.old) (λ bytes.
        ReportsEvents judging.now options.now bytes A.is_reported report_sink.old report_sink.new
        result) }
    // If the result has counts and no subtitle is unreliable, the first fault among all events or,
    // if there is none, these counts are a correct result of `check`.
    ensures first { (programme : ProgrammeValue)
        → judging.now ≡ known programme
        → IsFalse options.now.keeps
        → options.now.within ≡ 0
        → IfKnown (S.remaining source.old) (λ bytes.
        IfOk result (λ counts. IfSome counts (λ a. IsChecked programme options.now bytes
        (first_answer (all_events_of programme options.now bytes) a)))) }
    ensures first_by { (programme : ProgrammeValue)
        → judging.now ≡ known programme
        → IfKnown (S.remaining source.old) (λ bytes.
        IfOk result (λ counts. IfSome counts (λ a. IsCheckedBy programme options.now bytes
        (first_answer (all_events_of programme options.now bytes) a)))) }
    // The next four clauses are laws about the events, repeated here for callers. Frames reported
    // as trusted need no correction on air, whatever is transmitted in other frames.
    ensures trusted { IsFalse options.now.keeps → options.now.within ≡ 0
        → IfKnown (S.remaining source.old) (λ bytes.
        TrustedFramesMayStay judging.now options.now bytes) }
    // Frames reported as trusted need no correction on air with any options: with any delay, and
    // for receivers that keep or blank the page at a repeat.
    ensures trusted_within { IfKnown (S.remaining source.old) (λ bytes.
        TrustedFramesMayStayWithin judging.now options.now bytes) }
    // At frames reported as trusted, the expected page is known.
    ensures known { IfKnown (S.remaining source.old) (λ bytes.
        TrustedFramesAreKnown judging.now options.now bytes) }
    // The events reported before a failure of the source are a prefix of all events.
    ensures begins { IfKnown (S.remaining source.old) (λ bytes.
        FirstEventsArePrefix judging.now options.now bytes) }
    // Unless the source failed, the result has no counts exactly if the report sink stopped the
    // check.
    ensures stopped { IfOk result (λ counts. A.has_stopped report_sink.new ≡ is_none counts) }
    // For any source, some list of events was reported; if the source failed, the report sink had
    // not stopped the check.
    ensures some { ReportsSome A.is_reported report_sink.old report_sink.new }
    ensures continues { IfErr result (λ _. A.has_stopped report_sink.new ≡ false) }
    // A failure of the source is reported at the PES packet that could not be read; the packets
    // before it were consumed. No other `Err` is returned.
    ensures read { (pes : ℕ) → result ≡ Err (CheckFault.Pes pes PesFault.Read)
        → FailsAtPesPacket pes (S.remaining source.old) (S.remaining source.new) }
    ensures only { IfErr result (λ f. is_pes_read_failure f ≡ true) }
    // All reports are flushed before the source may read from its device, which may fail. So if no
    // report was buffered before the call, none is buffered after a failure.
    ensures flushed_at_failure { A.buffered report_sink.old ≡ 0 → IfErr result
        (λ _. A.buffered report_sink.new ≡
        0) }
    ensures count { CountsFailureIf S.failure_count source.old (failed is_pes_read_failure result)
        source.new }
{
    let mut pes_packets = FilePesPackets::new(source);
    check_all_pes_packets(judging, &mut pes_packets, options, report_sink)
}
