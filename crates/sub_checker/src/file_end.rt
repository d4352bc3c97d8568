//! Reports the events at the end of a PES file.
ghost use Rattle.std.specs.Prelude.{◌≡◌, ℕ, IfSome, List, is_none, length, not};
ghost use Rattle.std.specs.Prelude.{◌||◌};
ghost use Rattle.sub_io.specs.Reporting.{ReportsSome};
ghost use Rattle.sub_checker.specs.FusedAudience.{ReportsUnlessStopped};
ghost use Rattle.sub_rules.specs.FrameRules.{Criteria};
ghost use Rattle.sub_rules.specs.PesPacketEvents.{steps_of_closing};
ghost use Rattle.sub_rules.specs.Transmission.{Transmission};
ghost use Rattle.sub_rules.specs.Trusted.{reports_no_event};
ghost use Rattle.sub_checker.specs.CheckedFrames.{AfterEnd, BetweenPesPackets};
ghost use Rattle.sub_checker.specs.CheckedFrames.{steps_at_end_of_file};
ghost use Rattle.sub_checker.specs.Relay.{ReporterRelays};
ghost use Rattle.sub_checker.specs.PesFileEvents.{events_with_run_end};
ghost use Rattle.sub_checker.specs.LastEvents.{FinishesReporting, closing_events_of_checker};
ghost use Rattle.sub_checker.specs.LastEvents.{ending_fault};
ghost use Rattle.sub_checker.specs.ReadCounts.{AreCountsOfFrames};

use crate::accepted::Accepted;
use crate::checker::Checker;
use crate::reporter::{Reporter, report_if_present};
use sub_io::ReportSink;
use sub_rules::{CheckFault, Event};

/// Ends the last frame if it is still open, reports the events at the end of the file, and returns
/// the counts, or `None` if the device stops the check. `fault` is the fault that ended reading.
pub(crate) fn finish<A: ReportSink<Event>>(
    checker: &mut Checker<'_>,
    pes: u32,
    fault: Option<CheckFault>,
    reporter: &mut Reporter<'_, A>,
) -> Option<Accepted>
    ensures stopped { reporter.new.fused.stopped ≡ is_none result }
    ensures same { (g : Criteria) (list : Transmission) (last : List (List ℕ))
        → BetweenPesPackets g list last checker.old
        → reporter.new.fused.device.ghost_name ≡ reporter.old.fused.device.ghost_name }
    ensures some { (g : Criteria) (list : Transmission) (last : List (List ℕ))
        → BetweenPesPackets g list last checker.old
        → ReportsSome A.is_reported reporter.old.fused.device.now reporter.new.fused.device.now }
    ensures reported { (g : Criteria) (list : Transmission) (last : List (List ℕ))
        → BetweenPesPackets g list last checker.old
        → fault ≡ ending_fault pes g.unread
        → FinishesReporting A.is_reported reporter.old.fused.device.now
        reporter.new.fused.device.now
        (events_with_run_end reporter.old.relay (steps_at_end_of_file g list pes)) result }
    ensures counts { (g : Criteria) (list : Transmission) (last : List (List ℕ))
        → BetweenPesPackets g list last checker.old → IfSome result
        (AreCountsOfFrames g.watched.page
        list) }
{
    let read = checker.counts_so_far();
    end_and_close(checker, pes, fault, reporter);
    report_if_present(reporter.relay.run.ended(), &mut reporter.fused);
    if reporter.fused.stopped {
        return None;
    }
    Some(read)
}

// Ends the last frame if it is still open, and reports the events at the end of the file after
// `pes` PES packets. `fault` is the fault that ended reading.
fn end_and_close<A: ReportSink<Event>>(
    checker: &mut Checker<'_>,
    pes: u32,
    fault: Option<CheckFault>,
    reporter: &mut Reporter<'_, A>,
)
    ensures some { (g : Criteria) (list : Transmission) (last : List (List ℕ))
        → BetweenPesPackets g list last checker.old
        → ReportsSome (ReportsUnlessStopped A.is_reported) reporter.old.fused reporter.new.fused }
    ensures reported { (g : Criteria) (list : Transmission) (last : List (List ℕ))
        → BetweenPesPackets g list last checker.old
        → fault ≡ ending_fault pes g.unread
        → ReporterRelays A.is_reported reporter.old (steps_at_end_of_file g list pes) reporter.new }
{
    checker.end_pending_frame(reporter);
    close(checker, pes, fault, reporter);
}

// Reports the trusted frames of the last run, if they must be reported, and the events after the
// end of the last frame.
fn close<A: ReportSink<Event>>(
    checker: &Checker<'_>,
    pes: u32,
    fault: Option<CheckFault>,
    reporter: &mut Reporter<'_, A>,
)
    ensures some { ReportsSome (ReportsUnlessStopped A.is_reported) reporter.old.fused
        reporter.new.fused }
    ensures reported { (g : Criteria) (list : Transmission) (last : List (List ℕ))
        → AfterEnd g list (length list) last checker.now
        → fault ≡ ending_fault pes g.unread
        → ReporterRelays A.is_reported reporter.old (steps_of_closing g list pes (length list))
        reporter.new }
{
    reporter.go_to(pes);
    let more = reports_trusted(checker, pes, fault);
    reporter.close(fault.is_some(), more);
    checker.close(pes, fault, reporter);
}

// Returns whether the trusted frames of the last run must be reported even if nothing was reported
// before: the file has unreliable subtitles, or an event follows at the end of the file.
fn reports_trusted(checker: &Checker<'_>, pes: u32, fault: Option<CheckFault>) -> bool
    ensures { result
        ≡ (checker.now.any_unreliable || not
        (reports_no_event (closing_events_of_checker pes fault checker.now))) }
{
    checker.has_unreliable_subtitle || checker.reports_closing_events(pes, fault)
}
