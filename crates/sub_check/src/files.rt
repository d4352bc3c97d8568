//! Checks a subtitle file and the PES file that carries its subtitles.
ghost use Rattle.std.specs.Prelude.{◌≡◌, ℕ, ◌<◌, Err, IsFalse, false, true};
ghost use Rattle.sub_io.specs.Device.{CanFail, CountsFailureIf, failed};
ghost use Rattle.sub_io.specs.Reading.{IfKnown};
ghost use Rattle.ttx_pes.specs.Reader.{FailsAfterValidPackets};
ghost use Rattle.stl_rows.specs.Layout.{drawing_within};
ghost use Rattle.stl_rows.specs.Fault.{is_load_read_failure};
ghost use Rattle.stl_rows.specs.Loading.{FailsLoading};
ghost use Rattle.stl_rows.specs.declared.fault.LoadFault.{LoadFault};
ghost use Rattle.sub_check.specs.CheckedFiles.{AreChecked, IsResultOfCheckFiles};
ghost use Rattle.sub_check.specs.CheckedFiles.{IsResultWithoutDelay};
ghost use Rattle.sub_rules.specs.Fault.{is_pes_read_failure, is_pes_write_failure};
ghost use Rattle.sub_rules.specs.Fault.{is_stl_read_failure, is_subtitle_fault};

use crate::checking_file::check;
use std::alloc::Global;
use stl_file::Scope;
use stl_rows::{Layout, National, law_of_loading, load};
use sub_checker::Accepted;
use sub_io::Source;
use sub_plan::Options;
use sub_rules::CheckFault;
use ttx_pes::PesFault;

/// Loads a subtitle file, and checks a PES file against it.
///
/// Reads no byte of the PES file before the subtitle file was read to its end.
///
/// # Errors
///
/// Returns `Subtitles` with the fault of `load` if the subtitle file cannot be loaded; the PES file
/// is not read then. Otherwise returns the faults of `check`.
pub fn check_files<S: Source, P: Source>(
    alloc: Global,
    stl: &mut S,
    pes: &mut P,
    national: National,
    layout: Layout,
    scope: Scope,
    options: &Options,
) -> Result<Accepted, CheckFault>
    requires stl { CanFail (S.failure_count stl.old) }
    requires pes { CanFail (P.failure_count pes.old) }
    // With options that allow no delay and require C4 in each header, files whose bytes are known
    // are accepted exactly if the PES file has a good transmission of the subtitles, unless a
    // source fails or an allocation is refused. An accepted transmission is robust.
    ensures accepted { IsFalse options.now.keeps → options.now.within ≡ 0
        → IfKnown (S.remaining stl.old) (λ file.
        IfKnown (P.remaining pes.old) (λ bytes.
        IsResultWithoutDelay (drawing_within national layout scope) options.now file bytes
        result)) }
    // With any options, the files are accepted exactly if the transmission is good by these
    // options, unless a source fails or an allocation is refused. An accepted transmission has the
    // properties of `HasPromisesWithRepeats`. Options may allow late pages, or repeats that keep
    // the page.
    ensures is_accepted_within { IfKnown (S.remaining stl.old) (λ file.
        IfKnown (P.remaining pes.old) (λ bytes.
        IsResultOfCheckFiles (drawing_within national layout scope) options.now file bytes
        result)) }
    // If the bytes are known, they determine the returned fault and its place, unless a source
    // fails or an allocation is refused.
    ensures checked { IfKnown (S.remaining stl.old) (λ file.
        AreChecked (drawing_within national layout scope) options.now file (P.remaining pes.old)
        result) }
    // A failed read of the subtitle file is reported at the block that was being read; no block
    // before it has a fault other than `Unfinished`.
    ensures stl_read { (fault : LoadFault)
        → result ≡ Err (CheckFault.Subtitles fault)
        → is_load_read_failure fault ≡ true
        → FailsLoading (drawing_within national layout scope) (S.remaining stl.old)
        (S.remaining stl.new) fault.block }
    // A failed read of the PES file is reported at the PES packet that could not be read.
    ensures pes_read { (index : ℕ)
        → result ≡ Err (CheckFault.Pes index PesFault.Read)
        → FailsAfterValidPackets index (P.remaining pes.old) (P.remaining pes.new) }
    // If the subtitle file cannot be loaded, no byte of the PES file is read. No `Write` is
    // returned.
    ensures before { failed is_subtitle_fault result ≡ true → pes.new ≡ pes.old }
    ensures is_no_write_fault { failed is_pes_write_failure result ≡ false }
    // For each source, its `Read` is returned exactly if it failed in this call.
    ensures stl_count { CountsFailureIf S.failure_count stl.old (failed is_stl_read_failure result)
        stl.new }
    ensures pes_count { CountsFailureIf P.failure_count pes.old (failed is_pes_read_failure result)
        pes.new }
{
    law_of_loading();
    match load(alloc, stl, national, layout, scope) {
        Err(fault) => Err(CheckFault::Subtitles(fault)),
        Ok(programme) => check(&programme, pes, options),
    }
}
