//! Loads a subtitle file as a programme.

ghost use Rattle.std.specs.Prelude.{◌≡◌, ◌≢◌, Err, IfErr, IfOk, Ok, true};
ghost use Rattle.sub_io.specs.Device.{CanFail, CountsFailureIf, failed};
ghost use Rattle.sub_io.specs.Reading.{IfKnown};
ghost use Rattle.stl_file.specs.declared.fault.StlFault.TheVariants.{Ended};
ghost use Rattle.stl_rows.specs.Fault.{is_load_read_failure};
ghost use Rattle.stl_rows.specs.Layout.{drawing_within};
ghost use Rattle.stl_rows.specs.declared.fault.LoadFaultKind.TheVariants.{File};
ghost use Rattle.stl_rows.specs.Loading.{FailsLoading, LawOfLoading, LawOfParts};
ghost use Rattle.stl_rows.specs.Loading.{IsErrorOfLoad, loaded_programme};
ghost use Rattle.stl_rows.specs.Judged.{LawOfFaultlessFiles, LawOfReliableSubtitles};
ghost use Rattle.stl_rows.specs.Programme.{IsProgramme};

use crate::cues::StoredSubtitles;
use crate::every_fault::load_all_with_allocator;
use crate::fault::LoadFault;
use crate::layout::{Drawing, Layout};
use crate::national::National;
use crate::programme::Programme;
use std::alloc::{Allocator, Global};
use stl_file::{Scope, law_of_files, law_of_scope};
use sub_io::{FirstReported, Source};

/// Loads the subtitles of an STL file, to be drawn with a national option and a layout.
///
/// Subtitles outside the scope are skipped. Each subtitle takes 24 bytes plus its text in memory.
/// The source is read to its end, or to the first fault.
///
/// # Errors
///
/// Returns the first fault by block:
///
/// - `File` for a fault of the GSI block (block 0) or of a TTI block;
/// - then, for a subtitle's last block, `OutOfOrder`, `Overlap`, or the fault of `draw` as `Row`;
/// - `Memory` if the memory for a subtitle without faults cannot be allocated;
/// - `File` with `Read` if the source fails before any other fault is found, at the block of the
///   byte that could not be read.
pub fn load<S: Source>(
    alloc: Global,
    source: &mut S,
    national: National,
    layout: Layout,
    scope: Scope,
) -> Result<Programme, LoadFault>
    requires { CanFail (S.failure_count source.old) }
    // If the source's bytes are known, the bytes determine the programme, or the fault unless it is
    // `Memory` or `Read`.
    ensures exact { IfKnown (S.remaining source.old) (λ bytes.
        IfOk result (λ programme.
        loaded_programme (drawing_within national layout scope) bytes ≡ Ok programme)) }
    ensures fault { IfKnown (S.remaining source.old) (λ bytes.
        IfErr result (λ f.
        IsErrorOfLoad (drawing_within national layout scope) bytes f.block f.kind)) }
    ensures never { IfErr result (λ f. f.kind ≢ File Ended) }

    ensures programme { IfOk result (λ programme.
        IsProgramme programme.drawing programme.records) }
    ensures drawing { IfOk result (λ programme.
        programme.drawing ≡ drawing_within national layout scope) }
    // If the source failed and its bytes are known, the error has the block of the byte that could
    // not be read, and no fault is found before that block.
    ensures read { IfErr result (λ f. is_load_read_failure f ≡ true →
        FailsLoading (drawing_within national layout scope)
        (S.remaining source.old) (S.remaining source.new) f.block) }
    ensures count { CountsFailureIf S.failure_count source.old (failed is_load_read_failure result)
        source.new }
{
    let drawing = Drawing::new(national, layout, scope);
    match load_with_allocator(alloc, source, drawing) {
        Ok(subtitles) => Ok(Programme::of(drawing, subtitles)),
        Err(fault) => Err(fault),
    }
}

/// Loads the subtitles of an STL file into memory of any allocator. `load` does this with the
/// program's own memory.
///
/// # Errors
///
/// Returns the errors of `load`.
pub fn load_with_allocator<A: Allocator + Copy, S: Source>(
    alloc: A,
    source: &mut S,
    drawing: Drawing,
) -> Result<StoredSubtitles<A>, LoadFault>
    requires { CanFail (S.failure_count source.old) }
    ensures exact { IfKnown (S.remaining source.old) (λ bytes. IfOk result (λ v.
        loaded_programme drawing bytes ≡ Ok (record { drawing = drawing; records = v }))) }
    ensures fault { IfKnown (S.remaining source.old) (λ bytes. IfErr result (λ f.
        IsErrorOfLoad drawing bytes f.block f.kind)) }
    ensures never { IfErr result (λ f. f.kind ≢ File Ended) }
    ensures programme { IfOk result (λ v. IsProgramme drawing v) }
    ensures read { IfErr result (λ f. is_load_read_failure f ≡ true → FailsLoading drawing
        (S.remaining source.old) (S.remaining source.new) f.block) }
    ensures count { CountsFailureIf S.failure_count source.old (failed is_load_read_failure result)
        source.new }
{
    let mut first = FirstReported::new();
    match load_all_with_allocator(alloc, source, drawing, &mut first) {
        Ok(Some(kept)) => Ok(kept.into_subtitles()),
        Ok(None) => match first.into_first() {
            Some(fault) => Err(fault),
            None => unreachable!(),
        },
        Err(fault) => Err(fault),
    }
}

/// Bytes are loaded as a programme if and only if they are a subtitle file whose subtitles within
/// the scope are in order, do not overlap and can all be drawn, and the programme consists of these
/// subtitles.
pub fn law_of_loading()
    ensures { LawOfLoading }
{
    law_of_files();
}

/// If no fault ends reading, the faults and subtitles of a part of a file are the faults and
/// subtitles of the file without the blocks of all other subtitles, apart from block numbers.
pub fn law_of_parts()
    ensures { LawOfParts }
{
    law_of_scope();
}

/// Each reliable subtitle can be drawn, even if other subtitles were rejected. If a file has no
/// faults, all its subtitles are reliable, and the expected page is known at every frame.
pub fn law_of_judged()
    ensures drawn { LawOfReliableSubtitles }
    ensures decided { LawOfFaultlessFiles }
{}
