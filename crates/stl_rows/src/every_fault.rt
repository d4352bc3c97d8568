//! Loads the reliable subtitles of a file, and reports every fault of the file.

ghost use Rattle.std.specs.Prelude.{◌≡◌, ◌⊎◌, [], ◌∷◌, map, true, false, IfErr, IfOk};
ghost use Rattle.std.specs.Prelude.{IfSome, None, Ok, OnErr, OnOk, is_err, is_none};
ghost use Rattle.sub_io.specs.Device.{CanFail, CountsFailureIf, failed};
ghost use Rattle.sub_io.specs.Reading.{IfKnown};
ghost use Rattle.sub_io.specs.Reporting.{Reports, ReportsSome, first_as_list};
ghost use Rattle.stl_file.specs.declared.fault.StlFault.TheVariants.{Read};
ghost use Rattle.stl_file.specs.Fault as stl;
ghost use Rattle.stl_file.specs.Subtitle.{IsSubtitle};
ghost use Rattle.stl_rows.specs.EveryFault.{FailsReporting, ReportsNonemptyPrefix};
ghost use Rattle.stl_rows.specs.EveryFault.{ReportsOnlyFileFaults};
ghost use Rattle.stl_rows.specs.EveryFault.{ReportsFaults};
ghost use Rattle.stl_rows.specs.EveryFault.{ReportsByLoadResult, ReportsSomeFileFaults};
ghost use Rattle.stl_rows.specs.EveryFault.{RunsOutOfMemory, faults};
ghost use Rattle.stl_rows.specs.EveryFault.{load_fault};
ghost use Rattle.stl_rows.specs.Fault.{is_load_read_failure};
ghost use Rattle.stl_rows.specs.Judged.{JudgesFile, can_judge};
ghost use Rattle.stl_rows.specs.Keeping.{LoadsAll};
ghost use Rattle.stl_rows.specs.Programme.{IsProgramme, faults_of_next_subtitle, row_faults};
ghost use Rattle.stl_rows.specs.DrawnPage.{drawn};
ghost use Rattle.stl_rows.specs.Layout.{drawing_within};
ghost use Rattle.stl_rows.specs.TextCode.{first_of};
ghost use Rattle.stl_rows.specs.declared.fault.LoadFaultKind.TheVariants.{File, Memory};

use crate::fault::{LoadFault, LoadFaultKind};
use crate::judged::JudgedProgramme;
use crate::keeping::KeptSubtitles;
use crate::layout::{Drawing, Layout};
use crate::national::National;
use crate::record::Record;
use crate::text_faults::first_fault;
use crate::times::Times;
use std::alloc::{Allocator, Global};
use stl_file::{Found, ResumingReader, Scope, StlFault, Subtitle};
use sub_io::{ReportSink, Source, Stopped};

/// Loads the reliable subtitles of an STL file, and reports every fault of the file to
/// `report_sink`, which may stop the reports. Subtitles outside the scope are skipped.
///
/// The faults are reported by block, until `report_sink` stops:
///
/// - `File` at the first block of a rejected subtitle. The subtitle is not drawn, and times are
///   compared as if it did not exist.
/// - `OutOfOrder` or `Overlap` at the last block of any other subtitle, compared with the times of
///   the previous subtitle even if that has faults; then the first fault of `draw`, as `Row`.
/// - `File` for the fault that ends reading, except `Read`.
///
/// If the file has no fault, returns all its subtitles, as `load` does. Otherwise returns the
/// subtitles that have no fault and are in order with the next subtitle that is not rejected, if
/// any; or `None` if a transmission cannot be checked against these subtitles: a fault ended
/// reading, no subtitle is left, or one of these subtitles starts before an earlier one of them has
/// ended. Also returns `None` if `report_sink` stops.
///
/// # Errors
///
/// Returns `File` with `Read` if the source fails, at the block of the byte that could not be read,
/// and `Memory` if the memory for a subtitle cannot be allocated, at its last block. The faults
/// before that have been reported.
pub fn load_all<S: Source, D: ReportSink<LoadFault>>(
    alloc: Global,
    source: &mut S,
    national: National,
    layout: Layout,
    scope: Scope,
    report_sink: &mut D,
) -> Result<Option<JudgedProgramme>, LoadFault>
    requires count { CanFail (S.failure_count source.old) }
    requires audience_listens { D.has_stopped report_sink.old ≡ false }
    // If the source's bytes are known, the bytes determine the result and the reports, unless the
    // source fails, memory cannot be allocated, or `report_sink` stops.
    ensures exact { IfKnown (S.remaining source.old) (λ bytes. IfOk result (λ found.
        IfSome found (JudgesFile (drawing_within national layout scope) bytes))) }
    ensures reported_all { IfKnown (S.remaining source.old) (λ bytes. IfOk result (λ found.
        IfSome found (λ _. Reports D.is_reported report_sink.old report_sink.new
        (faults (drawing_within national layout scope) bytes)))) }
    ensures reported { IfKnown (S.remaining source.old) (λ bytes. result ≡ Ok None →
        ReportsFaults D.is_reported report_sink.old report_sink.new (D.has_stopped report_sink.new)
        (faults (drawing_within national layout scope) bytes)) }
    ensures not_judged { IfKnown (S.remaining source.old) (λ bytes. result ≡ Ok None →
        (D.has_stopped report_sink.new ≡ true)
        ⊎ (can_judge (drawing_within national layout scope) bytes ≡ false)) }
    ensures memory { IfKnown (S.remaining source.old) (λ bytes. IfErr result (λ f.
        f.kind ≡ Memory → RunsOutOfMemory (drawing_within national layout scope) bytes
        D.is_reported report_sink.old report_sink.new f.block)) }

    ensures programme { IfOk result (λ found. IfSome found (λ judged.
        IsProgramme judged.programme.drawing judged.programme.records)) }
    ensures drawing { IfOk result (λ found. IfSome found (λ judged.
        judged.programme.drawing ≡ drawing_within national layout scope)) }
    // If the result is `None`, at least one fault was reported.
    ensures some { result ≡ Ok None →
        ReportsSomeFileFaults D.is_reported report_sink.old report_sink.new }
    ensures any { IfOk result (λ found. IfSome found (λ _.
        ReportsOnlyFileFaults D.is_reported report_sink.old report_sink.new)) }
    ensures stopped { D.has_stopped report_sink.new ≡ true → result ≡ Ok None }
    // Faults may have been reported before an error, even if the source's bytes are unknown.
    ensures reported_before_failure { IfErr result
        (λ _. ReportsSome D.is_reported report_sink.old report_sink.new) }
    // If the source failed and its bytes are known, the error has the block of the byte that could
    // not be read, and exactly the faults found before that block were reported.
    ensures read { IfErr result (λ f. is_load_read_failure f ≡ true →
        FailsReporting (drawing_within national layout scope)
        (S.remaining source.old) (S.remaining source.new)
        D.is_reported report_sink.old report_sink.new f.block) }
    ensures kinds { IfErr result (λ f. (f.kind ≡ Memory) ⊎ (f.kind ≡ File Read)) }
    ensures count { CountsFailureIf S.failure_count source.old (failed is_load_read_failure result)
        source.new }
{
    let drawing = Drawing::new(national, layout, scope);
    match load_all_with_allocator(alloc, source, drawing, report_sink) {
        Ok(Some(kept)) => Ok(Some(JudgedProgramme::of(drawing, kept))),
        Ok(None) => Ok(None),
        Err(fault) => Err(fault),
    }
}

/// Loads the reliable subtitles of an STL file into memory of any allocator, and reports every
/// fault. `load_all` does this with the program's own memory.
///
/// # Errors
///
/// Returns the errors of `load_all`.
pub fn load_all_with_allocator<A: Allocator + Copy, S: Source, D: ReportSink<LoadFault>>(
    alloc: A,
    source: &mut S,
    drawing: Drawing,
    report_sink: &mut D,
) -> Result<Option<KeptSubtitles<A>>, LoadFault>
    requires count { CanFail (S.failure_count source.old) }
    requires audience_listens { D.has_stopped report_sink.old ≡ false }
    // If the source's bytes are known, the bytes determine the result and the reports, unless the
    // source fails, memory cannot be allocated, or `report_sink` stops.
    ensures exact { IfKnown (S.remaining source.old) (λ bytes. LoadsAll drawing bytes
        D.is_reported report_sink.old report_sink.new (D.has_stopped report_sink.new) result) }
    ensures programme { IfOk result (λ found.
        IfSome found (λ kept. IsProgramme drawing kept.records)) }
    ensures reported { ReportsByLoadResult D.is_reported report_sink.old report_sink.new result }
    ensures stopped { D.has_stopped report_sink.new ≡ true → result ≡ Ok None }
    ensures read { IfErr result (λ f. is_load_read_failure f ≡ true → FailsReporting drawing
        (S.remaining source.old) (S.remaining source.new)
        D.is_reported report_sink.old report_sink.new f.block) }
    ensures kinds { IfErr result (λ f. (f.kind ≡ Memory) ⊎ (f.kind ≡ File Read)) }
    ensures count { CountsFailureIf S.failure_count source.old (failed is_load_read_failure result)
        source.new }
{
    let mut reader = match ResumingReader::open(source, drawing.scope) {
        Ok(reader) => reader,
        Err(fault) => match report_end(fault, 0, report_sink) {
            Ok(()) => return Ok(None),
            Err(failed) => return Err(failed),
        },
    };
    let mut kept = KeptSubtitles::new(alloc);
    let mut before = None;
    let mut subtitle = Subtitle::empty();
    'subtitles: loop {
        match reader.next_into(source, &mut subtitle) {
            Err(fault) => match report_end(fault, reader.block(), report_sink) {
                Ok(()) => return Ok(None),
                Err(failed) => return Err(failed),
            },
            Ok(Found::End) => return Ok(kept.into_checkable()),
            Ok(Found::Refused(fault)) => {
                let kind = Some(LoadFaultKind::File(fault));
                let Ok(_) = report_fault(kind, reader.block(), report_sink) else {
                    return Ok(None);
                };
                kept.note_rejected();
            }
            Ok(Found::Subtitle) => {
                let block = reader.block();
                let Ok(clean) = report_faults(&drawing, before, &subtitle, block, report_sink)
                else {
                    return Ok(None);
                };
                let times = Times::of(&subtitle);
                let in_order = times.order_fault_after(before).is_none();
                before = Some(times);
                if let Err(kind) = kept.put(in_order, clean, &subtitle) {
                    return Err(LoadFault { block, kind });
                }
            }
        }
    }
}

// Reports the fault that ends reading. If the fault is `Read`, returns it as an error instead.
fn report_end<D: ReportSink<LoadFault>>(
    fault: StlFault,
    block: u32,
    report_sink: &mut D,
) -> Result<(), LoadFault>
    requires { D.has_stopped report_sink.old ≡ false }
    ensures reported { OnOk result (Reports D.is_reported report_sink.old report_sink.new
        (load_fault block (File fault) ∷ [])) }
    ensures read { IfErr result (λ f.
        (fault ≡ Read) × (f ≡ load_fault block (File Read)) × (report_sink.new ≡ report_sink.old)) }
    ensures file { OnOk result (stl.is_file_read_failure fault ≡ false) }
{
    let kind = LoadFaultKind::File(fault);
    let fault = LoadFault { block, kind };
    if let LoadFaultKind::File(StlFault::Read) = kind {
        return Err(fault);
    }
    // No report follows the fault that ends reading, so it does not matter whether `report_sink`
    // stops.
    let _ = report_sink.report(fault);
    Ok(())
}

// Reports the faults of a subtitle that ends at `block`, after a subtitle with the times `before`.
// Returns whether the subtitle has no fault.
fn report_faults<D: ReportSink<LoadFault>>(
    drawing: &Drawing,
    before: Option<Times>,
    subtitle: &Subtitle,
    block: u32,
    report_sink: &mut D,
) -> Result<bool, Stopped>
    requires { D.has_stopped report_sink.old ≡ false }
    ensures reported { OnOk result (Reports D.is_reported report_sink.old report_sink.new
        (map (load_fault block) (faults_of_next_subtitle drawing.now before subtitle.now))) }
    ensures stops { OnErr result (ReportsNonemptyPrefix D.is_reported report_sink.old
        report_sink.new
        (map (load_fault block) (faults_of_next_subtitle drawing.now before subtitle.now))) }
    ensures clean { IfOk result (λ clean.
        clean ≡ is_none (first_of (faults_of_next_subtitle drawing.now before subtitle.now))) }
    ensures stopped { D.has_stopped report_sink.new ≡ is_err result }
    ensures subtitle { IsSubtitle subtitle.now }
{
    let times = Times::of(subtitle);
    let in_order = report_fault(times.order_fault_after(before), block, report_sink)?;
    let Ok(drawn) = report_fault(row_fault(subtitle, drawing), block, report_sink) else {
        return Err(Stopped);
    };
    Ok(in_order && drawn)
}

// Reports the fault `kind`, if any. Returns whether there is no fault.
fn report_fault<D: ReportSink<LoadFault>>(
    kind: Option<LoadFaultKind>,
    block: u32,
    report_sink: &mut D,
) -> Result<bool, Stopped>
    requires { D.has_stopped report_sink.old ≡ false }
    ensures reported { Reports D.is_reported report_sink.old report_sink.new
        (map (load_fault block) (first_as_list kind)) }
    ensures clean { IfOk result (λ clean. clean ≡ is_none kind) }
    ensures some { OnErr result (is_none kind ≡ false) }
    ensures stopped { D.has_stopped report_sink.new ≡ is_err result }
{
    match kind {
        None => Ok(true),
        Some(kind) => {
            report_sink.report(LoadFault { block, kind })?;
            Ok(false)
        }
    }
}

// Returns the first fault of drawing a subtitle, or `None` if it can be drawn.
fn row_fault(subtitle: &Subtitle, drawing: &Drawing) -> Option<LoadFaultKind>
    ensures { first_as_list result ≡ row_faults (drawn drawing.now subtitle.now) }
{
    match first_fault(&Record::of(subtitle), drawing) {
        None => None,
        Some(fault) => Some(LoadFaultKind::Row(fault)),
    }
}
