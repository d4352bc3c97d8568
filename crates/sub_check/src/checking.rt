//! Checks the PES packets of a file against a programme.
ghost use Rattle.std.specs.Prelude.{◌≡◌, ℕ, Err, IfErr, IfOk, IfSome, IsFalse, false, is_none};
ghost use Rattle.std.specs.Prelude.{true};
ghost use Rattle.sub_io.specs.Device.{CanFail, CountsFailureIf, failed};
ghost use Rattle.sub_io.specs.Reading.{IfKnown};
ghost use Rattle.sub_io.specs.Reporting.{ReportsSome};
ghost use Rattle.ttx_pes.specs.Reader.{FailsAfterValidPackets};
ghost use Rattle.stl_rows.specs.Judged.{known};
ghost use Rattle.stl_rows.specs.Programme.{IsProgramme, ProgrammeValue};
ghost use Rattle.sub_plan.specs.FrameTime.{clock_of};
ghost use Rattle.sub_plan.specs.Options.{IsOptions};
ghost use Rattle.sub_rules.specs.Fault.{is_pes_read_failure, is_pes_write_failure};
ghost use Rattle.sub_rules.specs.Fault.{is_subtitle_fault};
ghost use Rattle.sub_rules.specs.FrameRules.{criteria_of};
ghost use Rattle.sub_rules.specs.PesPackets.{FailsAtPesPacket};
ghost use Rattle.sub_checker.specs.PesFileEvents.{FailsWhileReadingOn, ReportsFile};
ghost use Rattle.sub_check.specs.CheckedFiles.{FirstEventsArePrefix, IsChecked, IsCheckedBy};
ghost use Rattle.sub_check.specs.CheckedFiles.{ReportsEvents, TrustedFramesAreKnown};
ghost use Rattle.sub_check.specs.CheckedFiles.{TrustedFramesMayStay};
ghost use Rattle.sub_check.specs.CheckedFiles.{TrustedFramesMayStayWithin};
ghost use Rattle.sub_check.specs.CheckedFiles.{all_events_of};
ghost use Rattle.sub_check.specs.CheckedFiles.{first_answer};

use crate::first_fault::FirstFault;
use stl_rows::{Judging, Programme};
use sub_checker::{Accepted, report_pes_packets};
use sub_io::LiveReportSink;
use sub_plan::Options;
use sub_rules::{CheckFault, Event};
use ttx_pes::{PesFault, PesPackets};

/// Checks PES packets against a programme, as `check` does for the PES packets of a source.
///
/// # Errors
///
/// Returns the same faults as `check`.
pub fn check_pes_packets<P: PesPackets>(
    programme: &Programme,
    source: &mut P,
    options: &Options,
) -> Result<Accepted, CheckFault>
    requires { CanFail (P.failure_count source.old) }
    // Unless the source fails, a PES file whose bytes are known is accepted, with options that
    // allow no delay and require C4 in each header, exactly if it carries a good transmission of
    // the programme, with complete pages if required. Such a transmission is robust.
    ensures checked { IsFalse options.now.keeps → options.now.within ≡ 0
        → IfKnown (P.remaining source.old) (λ bytes.
        IsChecked programme.now options.now bytes result) }
    // With any options, the PES file is accepted exactly if its transmission is good by these
    // options, unless the source fails. Options may allow late pages, or repeats that keep the
    // page.
    ensures answer_is_checked_within { IfKnown (P.remaining source.old) (λ bytes.
        IsCheckedBy programme.now options.now bytes result) }
    // A failure of the source is reported at the PES packet that could not be read; the packets
    // before it were consumed.
    ensures read { (pes : ℕ) → result ≡ Err (CheckFault.Pes pes PesFault.Read)
        → FailsAfterValidPackets pes (P.remaining source.old) (P.left source.new) }
    // No fault of a subtitle file and no `Write` is returned. `Read` is returned exactly if the
    // source failed in this call.
    ensures own { failed is_subtitle_fault result ≡ false }
    ensures is_no_write_fault { failed is_pes_write_failure result ≡ false }
    ensures device { P.device source.new ≡ P.device source.old }
    ensures count { CountsFailureIf P.failure_count source.old (failed is_pes_read_failure result)
        source.new }
{
    let mut first = FirstFault::new();
    match report_all_faults(programme, source, options, &mut first) {
        Err(fault) => Err(fault),
        Ok(Some(counts)) => Ok(counts),
        Ok(None) => Err(first.into_fault()),
    }
}

// Checks PES packets against a programme, all of whose subtitles are reliable, and reports all
// faults, until the source fails or `report_sink` stops the check.
fn report_all_faults<P: PesPackets, A: LiveReportSink<Event>>(
    programme: &Programme,
    source: &mut P,
    options: &Options,
    report_sink: &mut A,
) -> Result<Option<Accepted>, CheckFault>
    requires failures { CanFail (P.failure_count source.old) }
    requires continues { A.has_stopped report_sink.old ≡ false }
    requires still { A.has_pending_reports report_sink.old ≡ false }
    ensures exact { IfKnown (P.remaining source.old) (λ bytes.
        ReportsFile (criteria_of programme.now options.now) (clock_of options.now) bytes
        A.is_reported report_sink.old report_sink.new result) }
    ensures stopped { IfOk result (λ counts. A.has_stopped report_sink.new ≡ is_none counts) }
    ensures continues { IfErr result (λ _. A.has_stopped report_sink.new ≡ false) }
    ensures read { (pes : ℕ) → result ≡ Err (CheckFault.Pes pes PesFault.Read)
        → FailsWhileReadingOn (clock_of options.now) pes (P.remaining source.old)
        (P.left source.new) }
    ensures only { IfErr result (λ f. is_pes_read_failure f ≡ true) }
    ensures options { IsOptions options.now }
    ensures programme { IsProgramme programme.now.drawing programme.now.records }
    ensures device { P.device source.new ≡ P.device source.old }
    ensures count { CountsFailureIf P.failure_count source.old (failed is_pes_read_failure result)
        source.new }
{
    report_pes_packets(&Judging::known(programme), source, options, report_sink)
}

/// Checks PES packets against the reliable subtitles of a subtitle file, and reports all faults, as
/// `check_all` does for the PES packets of a source, until `report_sink` stops the check.
///
/// # Errors
///
/// Returns `Pes` with `Read` if the source failed. The events of all PES packets before the failure
/// have been reported.
pub fn check_all_pes_packets<P: PesPackets, A: LiveReportSink<Event>>(
    judging: &Judging<'_>,
    source: &mut P,
    options: &Options,
    report_sink: &mut A,
) -> Result<Option<Accepted>, CheckFault>
    requires failures { CanFail (P.failure_count source.old) }
    requires continues { A.has_stopped report_sink.old ≡ false }
    requires still { A.has_pending_reports report_sink.old ≡ false }
    // If the bytes of the source are known, they determine the reported events.
    ensures reported { IfKnown (P.remaining source.old) (λ bytes.
        ReportsEvents judging.now options.now bytes A.is_reported report_sink.old report_sink.new
        result) }
    // If the result has counts and no subtitle is unreliable, the first fault among all events or,
    // if there is none, these counts are a correct result of `check`.
    ensures first { (programme : ProgrammeValue)
        → judging.now ≡ known programme
        → IsFalse options.now.keeps
        → options.now.within ≡ 0
        → IfKnown (P.remaining source.old) (λ bytes.
        IfOk result (λ counts. IfSome counts (λ a. IsChecked programme options.now bytes
        (first_answer (all_events_of programme options.now bytes) a)))) }
    ensures first_by { (programme : ProgrammeValue)
        → judging.now ≡ known programme
        → IfKnown (P.remaining source.old) (λ bytes.
        IfOk result (λ counts. IfSome counts (λ a. IsCheckedBy programme options.now bytes
        (first_answer (all_events_of programme options.now bytes) a)))) }
    // The next four clauses are laws about the events, repeated here for callers. Frames reported
    // as trusted need no correction on air, whatever is transmitted in other frames.
    ensures trusted { IsFalse options.now.keeps → options.now.within ≡ 0
        → IfKnown (P.remaining source.old) (λ bytes.
        TrustedFramesMayStay judging.now options.now bytes) }
    // Frames reported as trusted need no correction on air with any options: with any delay, and
    // for receivers that keep or blank the page at a repeat.
    ensures trusted_within { IfKnown (P.remaining source.old) (λ bytes.
        TrustedFramesMayStayWithin judging.now options.now bytes) }
    // At frames reported as trusted, the expected page is known.
    ensures known { IfKnown (P.remaining source.old) (λ bytes.
        TrustedFramesAreKnown judging.now options.now bytes) }
    // The events reported before a failure of the source are a prefix of all events.
    ensures begins { IfKnown (P.remaining source.old) (λ bytes.
        FirstEventsArePrefix judging.now options.now bytes) }
    // Unless the source failed, the result has no counts exactly if the report sink stopped the
    // check.
    ensures stopped { IfOk result (λ counts. A.has_stopped report_sink.new ≡ is_none counts) }
    // For any source, some list of events was reported; if the source failed, the report sink had
    // not stopped the check.
    ensures some { ReportsSome A.is_reported report_sink.old report_sink.new }
    ensures continues { IfErr result (λ _. A.has_stopped report_sink.new ≡ false) }
    // A failure of the source is reported at the PES packet that could not be read; the packets
    // before it were consumed. No other `Err` is returned.
    ensures read { (pes : ℕ) → result ≡ Err (CheckFault.Pes pes PesFault.Read)
        → FailsAtPesPacket pes (P.remaining source.old) (P.left source.new) }
    ensures only { IfErr result (λ f. is_pes_read_failure f ≡ true) }
    // All reports are flushed before the source may read from its device, which may fail. So if no
    // report was buffered before the call, none is buffered after a failure.
    ensures flushed_at_failure { A.buffered report_sink.old ≡ 0 → IfErr result
        (λ _. A.buffered report_sink.new ≡
        0) }
    ensures device { P.device source.new ≡ P.device source.old }
    ensures count { CountsFailureIf P.failure_count source.old (failed is_pes_read_failure result)
        source.new }
{
    report_pes_packets(judging, source, options, report_sink)
}
