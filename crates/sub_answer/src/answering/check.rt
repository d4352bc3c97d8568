//! `check STL PES`: checks a PES file against a subtitle file.
ghost use Rattle.std.specs.Prelude.{◌≡◌, ◌+◌, ℕ, Err, IsFalse, false, true};
ghost use Rattle.sub_io.specs.Device.{CountsFailureIf, failed};
ghost use Rattle.sub_io.specs.Reading.{IfKnown};
ghost use Rattle.ttx_pes.specs.Reader.{FailsAfterValidPackets};
ghost use Rattle.stl_rows.specs.Layout.{drawing_within};
ghost use Rattle.stl_rows.specs.Fault.{is_load_read_failure};
ghost use Rattle.stl_rows.specs.Loading.{FailsLoading};
ghost use Rattle.stl_rows.specs.declared.fault.LoadFault.{LoadFault};
ghost use Rattle.sub_check.specs.CheckedFiles.{AreChecked, IsChecked, IsCheckedBy};
ghost use Rattle.sub_rules.specs.Fault.{is_pes_read_failure, is_stl_read_failure};
ghost use Rattle.sub_rules.specs.Fault.{is_subtitle_fault};
ghost use Rattle.sub_answer.specs.Answering.{AnswersCheck, verdict};
ghost use Rattle.sub_listing.specs.DeviceCall.{CanFail, CountsFault, read_call, sink_call};
ghost use Rattle.sub_listing.specs.DeviceCall.{source_call};
ghost use Rattle.sub_answer.specs.FaultListing.{accepted_line};
ghost use Rattle.sub_listing.specs.FirstPacket.{StartsAt, first_number};
ghost use Rattle.sub_listing.specs.Listing.{PrintsOrFails, done};

use std::alloc::Global;
use stl_file::Scope;
use stl_rows::{Drawing, Layout, National, Programme, law_of_loading, load};
use sub_check::{Accepted, CheckFault, check_pes_packets};
use sub_io::{Sink, Source};
use sub_listing::{
    Line, Status, fault_line_of_check, print_done, print_fault_line, push_number, push_text,
};
use sub_plan::Options;
use ttx_pes::{NumberedPesPackets, PesFault};

/// Checks a PES file against a subtitle file, and prints the line of the verdict.
///
/// No byte of `pes` is read before `stl` was read to its end, or if `stl` is rejected.
/// Returns `Done` if the files are accepted, and prints the number of frames from the first to the
/// last frame of the PES file and the number of headers of the page. Returns `Refused` and prints
/// the first fault if the files are rejected, and `Fault` if a device failed or memory ran out.
pub fn print_verdict<S: Source, P: NumberedPesPackets, K: Sink>(
    alloc: Global,
    stl: &mut S,
    pes: &mut P,
    drawing: Drawing,
    options: &Options,
    out: &mut K,
) -> Status
    requires stl { CanFail (S.failure_count stl.old) }
    requires pes { CanFail (P.failure_count pes.old) }
    requires out { CanFail (K.failure_count out.old) }
    ensures check { AnswersCheck drawing options.now
        (source_call S.remaining S.failure_count stl.old stl.new)
        (read_call P.remaining P.left P.failure_count pes.old pes.new)
        (first_number P.first P.skipped pes.old pes.new)
        (pes.new ≡ pes.old)
        (sink_call K.contents K.failure_count out.old out.new) result }
    ensures stl_failure_count { CountsFault S.failure_count stl.old result stl.new }
    ensures device { P.device pes.new ≡ P.device pes.old }
    ensures pes_failure_count { CountsFault P.failure_count pes.old result pes.new }
    ensures out_count { CountsFault K.failure_count out.old result out.new }
{
    law_of_loading();
    let (national, layout, scope) = (drawing.national, drawing.layout, drawing.scope);
    let answer = check_files(alloc, stl, pes, national, layout, scope, options);
    print_answer(answer.first, answer.result, out)
}

/// The answer of a check, and the number from which its PES packets are counted; 0 if the subtitle
/// file was not loaded.
#[derive(Clone, Copy)]
struct Answer {
    first: u64,
    result: Result<Accepted, CheckFault>,
}

// Loads a subtitle file, and checks a PES file against it from the first PES packet of `pes`.
fn check_files<S: Source, P: NumberedPesPackets>(
    alloc: Global,
    stl: &mut S,
    pes: &mut P,
    national: National,
    layout: Layout,
    scope: Scope,
    options: &Options,
) -> Answer
    requires stl { CanFail (S.failure_count stl.old) }
    requires pes { CanFail (P.failure_count pes.old) }
    ensures checked { IfKnown (S.remaining stl.old) (λ file.
        AreChecked (drawing_within national layout scope) options.now file (P.remaining pes.old)
        result.result) }
    ensures starts { failed is_subtitle_fault result.result ≡ false
        → StartsAt (first_number P.first P.skipped pes.old pes.new)
        (read_call P.remaining P.left P.failure_count pes.old pes.new) result.first }
    ensures stl_failure_is_at_block { (fault : LoadFault)
        → result.result ≡ Err (CheckFault.Subtitles fault)
        → is_load_read_failure fault ≡ true
        → FailsLoading (drawing_within national layout scope) (S.remaining stl.old)
        (S.remaining stl.new)
        fault.block }
    ensures pes_failure_is_at_packet { (index : ℕ)
        → result.result ≡ Err (CheckFault.Pes index PesFault.Read)
        → FailsAfterValidPackets index (P.remaining pes.old) (P.left pes.new) }
    ensures before { failed is_subtitle_fault result.result ≡ true → pes.new ≡ pes.old }
    ensures stl_failure_count { CountsFailureIf S.failure_count stl.old
        (failed is_stl_read_failure result.result)
        stl.new }
    ensures device { P.device pes.new ≡ P.device pes.old }
    ensures pes_failure_count { CountsFailureIf P.failure_count pes.old
        (failed is_pes_read_failure result.result)
        pes.new }
{
    match load(alloc, stl, national, layout, scope) {
        Err(fault) => Answer {
            first: 0,
            result: Err(CheckFault::Subtitles(fault)),
        },
        Ok(programme) => check_from(&programme, pes, options),
    }
}

// Checks a PES file against a programme from the first PES packet of `pes`.
fn check_from<P: NumberedPesPackets>(
    programme: &Programme,
    pes: &mut P,
    options: &Options,
) -> Answer
    requires { CanFail (P.failure_count pes.old) }
    ensures checked { IsFalse options.now.keeps → options.now.within ≡ 0
        → IfKnown (P.remaining pes.old) (λ bytes.
        IsChecked programme.now options.now bytes result.result) }
    ensures is_checked_by_options { IfKnown (P.remaining pes.old) (λ bytes.
        IsCheckedBy programme.now options.now bytes result.result) }
    ensures starts { StartsAt (first_number P.first P.skipped pes.old pes.new)
        (read_call P.remaining P.left P.failure_count pes.old pes.new) result.first }
    ensures read { (index : ℕ)
        → result.result ≡ Err (CheckFault.Pes index PesFault.Read)
        → FailsAfterValidPackets index (P.remaining pes.old) (P.left pes.new) }
    ensures own { failed is_subtitle_fault result.result ≡ false }
    ensures device { P.device pes.new ≡ P.device pes.old }
    ensures count { CountsFailureIf P.failure_count pes.old
        (failed is_pes_read_failure result.result)
        pes.new }
{
    match pes.find_first() {
        Ok(first) => Answer {
            first,
            result: check_pes_packets(programme, pes, options),
        },
        Err(at) => Answer {
            first: at.pes,
            result: Err(CheckFault::Pes {
                fault: PesFault::Read,
                pes: 0,
            }),
        },
    }
}

// Prints the line of an answer. PES packets are counted from the number `first`.
fn print_answer<K: Sink>(first: u64, answer: Result<Accepted, CheckFault>, out: &mut K) -> Status
    requires { CanFail (K.failure_count out.old) }
    ensures printed { PrintsOrFails (sink_call K.contents K.failure_count out.old out.new)
        (verdict first answer) result }
    ensures count { CountsFault K.failure_count out.old result out.new }
{
    match answer {
        Ok(accepted) => print_accepted(accepted, out),
        Err(fault) => print_fault_line(&fault_line_of_check(fault).counted_from(first), out),
    }
}

/// Prints the line of an accepted transmission.
pub fn print_accepted<K: Sink>(accepted: Accepted, out: &mut K) -> Status
    requires { CanFail (K.failure_count out.old) }
    ensures printed { PrintsOrFails (sink_call K.contents K.failure_count out.old out.new)
        (done (accepted_line accepted)) result }
    ensures count { CountsFault K.failure_count out.old result out.new }
    ensures failed { result ≡ Status.Fault
        → K.failure_count out.new ≡ K.failure_count out.old + 1 }
{
    let mut line = Line::new();
    push_number(&mut line, b"accepted ", accepted.frames);
    push_number(&mut line, b" frames ", accepted.headers);
    push_text(&mut line, b" transmissions\n");
    print_done(line.as_slice(), out)
}
