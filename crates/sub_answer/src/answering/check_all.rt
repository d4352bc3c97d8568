//! `check STL PES --all`: prints the faults of a subtitle file, and then the events of a PES file.
ghost use Rattle.std.specs.Prelude.{◌≡◌, ◌<◌, ◌≤◌, IfErr, OnOk, false, is_err, true};
ghost use Rattle.sub_io.specs.Device.{CountsFailureIf, failed};
ghost use Rattle.sub_io.specs.Flushing.{BuffersOnlyWhilePending, KeepsReports};
ghost use Rattle.sub_rules.specs.Fault.{is_pes_read_failure};
ghost use Rattle.sub_listing.specs.DeviceCall.{CanFail, CountsFault, read_call, sink_call};
ghost use Rattle.sub_listing.specs.DeviceCall.{source_call};
ghost use Rattle.sub_answer.specs.EveryFault.{AnswersCheckAll, ReportsBoth, ReportsPes};
ghost use Rattle.sub_listing.specs.EventLines.{max_fault_count};
ghost use Rattle.sub_answer.specs.FaultListing.{fault_count_listing, last_listing};
ghost use Rattle.sub_listing.specs.Faults.{check_line};
ghost use Rattle.sub_listing.specs.LastLine.{BuffersLastLineOnly, PutsLine};
ghost use Rattle.sub_listing.specs.Listing.{PrintsOrFails};
ghost use Rattle.sub_listing.specs.Printer.{printer_value};
ghost use Rattle.sub_listing.specs.FaultLine.{text_of_fault_line, counted_from};
ghost use Rattle.sub_listing.specs.FirstPacket.{first_number};

use crate::answering::check::print_accepted;
use std::alloc::Global;
use stl_rows::{Drawing, Judging, LoadFault, law_of_loading, load_all};
use sub_check::{Accepted, CheckFault, check_all_pes_packets};
use sub_io::{Flush, LiveReportSink, Sink, Source, Stopped, put_all};
use sub_listing::{
    Line, Printer, Status, fault_line_of_check, print_fault_line, push_decimal, push_text,
};
use sub_plan::Options;
use ttx_pes::{NumberedPesPackets, PesFault};

/// Checks a PES file against a subtitle file. Prints a line for each event as soon as it is found:
/// a fault, the last frame at whose end a reported rule is broken, the last of several consecutive
/// PES packets that are skipped because of the same fault, or trusted frames. The faults of the
/// subtitle file are first. The last line is the number of faults, the line of an accepted
/// transmission, or the line about a failed source or a lack of memory.
///
/// If the subtitle file has faults, the PES file is compared with the reliable subtitles; `pes` is
/// not read if this is impossible. Returns `Done` if the files are accepted, `Refused` if there is
/// a fault, and `Fault` if a device failed or memory ran out. Nothing more is read or printed after
/// `out` failed.
pub fn print_every_fault<S: Source, P: NumberedPesPackets, K: Flush>(
    alloc: Global,
    stl: &mut S,
    pes: &mut P,
    drawing: Drawing,
    options: &Options,
    out: &mut K,
) -> Status
    requires stl { CanFail (S.failure_count stl.old) }
    requires pes { CanFail (P.failure_count pes.old) }
    requires out { CanFail (K.failure_count out.old) }
    ensures all { AnswersCheckAll drawing options.now
        (source_call S.remaining S.failure_count stl.old stl.new)
        (read_call P.remaining P.left P.failure_count pes.old pes.new)
        (first_number P.first P.skipped pes.old pes.new)
        (pes.new ≡ pes.old)
        (sink_call K.contents K.failure_count out.old out.new) result }
    ensures stl_failure_count { CountsFault S.failure_count stl.old result stl.new }
    ensures device { P.device pes.new ≡ P.device pes.old }
    ensures pes_failure_count { CountsFault P.failure_count pes.old result pes.new }
    ensures out_count { CountsFault K.failure_count out.old result out.new }
    // If the buffer was empty, all output is flushed before the device of the PES file is read. So
    // if this read fails, at most the line about the failure is still in the buffer.
    ensures followed { K.buffered out.old ≡ 0
        → P.failure_count pes.old < P.failure_count pes.new
        → BuffersLastLineOnly K.contents K.buffered K.is_push out.new }
{
    law_of_loading();
    let mut printer = Printer {
        out,
        fault_count: 0,
        failed: false,
        pending: false,
        first: 0,
    };
    let answer = report_every_fault(alloc, stl, pes, drawing, options, &mut printer);
    let Printer {
        out,
        fault_count,
        failed,
        pending: _,
        first,
    } = printer;
    if failed {
        return Status::Fault;
    }
    print_end(first, fault_count, answer, out)
}

// Reports the faults of the subtitle file to a printer, and then the events of the PES file, if it
// can be checked against the subtitle file. Returns the counts of the PES file; `None` if it was
// not checked, or if the printer stopped the check. The errors are a failed source and a lack of
// memory.
fn report_every_fault<S: Source, P: NumberedPesPackets, K: Flush>(
    alloc: Global,
    stl: &mut S,
    pes: &mut P,
    drawing: Drawing,
    options: &Options,
    printer: &mut Printer<'_, K>,
) -> Result<Option<Accepted>, CheckFault>
    requires stl { CanFail (S.failure_count stl.old) }
    requires pes { CanFail (P.failure_count pes.old) }
    requires out { CanFail (K.failure_count printer.old.out.now) }
    requires continues { printer.old.failed ≡ false }
    requires still { printer.old.pending ≡ false }
    requires none { printer.old.fault_count ≡ 0 }
    ensures same { printer.new.out.ghost_name ≡ printer.old.out.ghost_name }
    ensures reported { ReportsBoth drawing options.now
        (source_call S.remaining S.failure_count stl.old stl.new)
        (read_call P.remaining P.left P.failure_count pes.old pes.new)
        (first_number P.first P.skipped pes.old pes.new)
        (pes.new ≡ pes.old)
        (printer_value (K.contents printer.old.out.now) (K.failure_count printer.old.out.now)
        printer.old.fault_count printer.old.failed printer.old.first)
        (printer_value (K.contents printer.new.out.now) (K.failure_count printer.new.out.now)
        printer.new.fault_count printer.new.failed printer.new.first) result }
    ensures device { P.device pes.new ≡ P.device pes.old }
    ensures count { CountsFailureIf P.failure_count pes.old (failed is_pes_read_failure result)
        pes.new }
    ensures flushed_at_failure { K.buffered printer.old.out.now ≡ 0
        → failed is_pes_read_failure result ≡ true → K.buffered printer.new.out.now ≡ 0 }
{
    let (national, layout, scope) = (drawing.national, drawing.layout, drawing.scope);
    match load_all(alloc, stl, national, layout, scope, printer) {
        Err(fault) => Err(CheckFault::Subtitles(fault)),
        Ok(None) => Ok(None),
        Ok(Some(judged)) => {
            // All lines are flushed first, since reading the PES file may block.
            if flush_reports(printer).is_err() {
                return Ok(None);
            }
            report_transmission(&judged.judging(), pes, options, printer)
        }
    }
}

// Flushes a device that received the faults of a subtitle file, if lines may be pending.
fn flush_reports<A: LiveReportSink<LoadFault>>(report_sink: &mut A) -> Result<(), Stopped>
    requires { A.has_stopped report_sink.old ≡ false }
    ensures reported { KeepsReports A.is_reported A.has_pending_reports report_sink.old
        report_sink.new }
    ensures stopped { A.has_stopped report_sink.new ≡ is_err result }
    ensures had_pending_reports { IfErr result (λ _. A.has_pending_reports report_sink.old ≡ true) }
    ensures still { OnOk result (A.has_pending_reports report_sink.new ≡ false) }
    ensures buffered { BuffersOnlyWhilePending A.has_pending_reports A.buffered report_sink.old
        → OnOk result (A.buffered report_sink.new ≡ 0) }
{
    if !report_sink.has_pending() {
        return Ok(());
    }
    report_sink.flush_pending()
}

// Reports the events of the PES file, compared with the reliable subtitles, to a printer.
fn report_transmission<P: NumberedPesPackets, K: Flush>(
    judging: &Judging<'_>,
    pes: &mut P,
    options: &Options,
    printer: &mut Printer<'_, K>,
) -> Result<Option<Accepted>, CheckFault>
    requires pes { CanFail (P.failure_count pes.old) }
    requires out { CanFail (K.failure_count printer.old.out.now) }
    requires continues { printer.old.failed ≡ false }
    requires still { printer.old.pending ≡ false }
    requires few { printer.old.fault_count ≤ max_fault_count }
    ensures same { printer.new.out.ghost_name ≡ printer.old.out.ghost_name }
    ensures reported { ReportsPes judging.now options.now
        (read_call P.remaining P.left P.failure_count pes.old pes.new)
        (first_number P.first P.skipped pes.old pes.new)
        (printer_value (K.contents printer.old.out.now) (K.failure_count printer.old.out.now)
        printer.old.fault_count printer.old.failed printer.old.first)
        (printer_value (K.contents printer.new.out.now) (K.failure_count printer.new.out.now)
        printer.new.fault_count printer.new.failed printer.new.first) result }
    ensures device { P.device pes.new ≡ P.device pes.old }
    ensures count { CountsFailureIf P.failure_count pes.old (failed is_pes_read_failure result)
        pes.new }
    ensures flushed_at_failure { K.buffered printer.old.out.now ≡ 0
        → failed is_pes_read_failure result ≡ true → K.buffered printer.new.out.now ≡ 0 }
{
    match pes.find_first() {
        Ok(first) => {
            printer.first = first;
            check_all_pes_packets(judging, pes, options, printer)
        }
        Err(at) => {
            printer.first = at.pes;
            Err(CheckFault::Pes {
                fault: PesFault::Read,
                pes: 0,
            })
        }
    }
}

// Prints the last line after `fault_count` faults, and returns the status. PES packets are counted
// from the number `first`.
fn print_end<K: Sink>(
    first: u64,
    fault_count: u64,
    answer: Result<Option<Accepted>, CheckFault>,
    out: &mut K,
) -> Status
    requires { CanFail (K.failure_count out.old) }
    ensures printed { PrintsOrFails
        (sink_call K.contents K.failure_count out.old out.new)
        (last_listing first fault_count answer)
        result }
    ensures line { IfErr answer (λ f.
        PutsLine K.contents K.is_push out.old
        (text_of_fault_line (counted_from first (check_line f)))
        out.new) }
    ensures count { CountsFault K.failure_count out.old result out.new }
{
    match answer {
        Err(fault) => print_fault_line(&fault_line_of_check(fault).counted_from(first), out),
        Ok(None) => print_count(fault_count, out),
        Ok(Some(accepted)) => {
            if fault_count == 0 {
                print_accepted(accepted, out)
            } else {
                print_count(fault_count, out)
            }
        }
    }
}

// Prints the line with the number of faults.
#[tactic(auto, unfolding(sub_listing::specs::Listing::PrintsOrFails))]
fn print_count<K: Sink>(fault_count: u64, out: &mut K) -> Status
    requires { CanFail (K.failure_count out.old) }
    ensures printed { PrintsOrFails
        (sink_call K.contents K.failure_count out.old out.new) (fault_count_listing fault_count)
        result }
    ensures count { CountsFault K.failure_count out.old result out.new }
{
    let mut line = Line::new();
    push_decimal(&mut line, fault_count);
    push_text(&mut line, b" faults\n");
    match put_all(out, line.as_slice()) {
        Ok(()) => Status::Refused,
        Err(_) => Status::Fault,
    }
}
