//! Reads a subtitle file from a source, one subtitle at a time (EBU Tech 3264).

ghost use Rattle.std.specs.Prelude.{◌≡◌, ◌≢◌, ◌↔◌, ◌+◌, ◌-◌, ◌<◌, ◌≤◌, drop, ℕ};
ghost use Rattle.std.specs.Prelude.{List, length};
ghost use Rattle.std.specs.Prelude.{false, true, None, Some, Ok, Err, IfErr, IfNone, IfOk, IfSome};
ghost use Rattle.std.specs.Prelude.{option_map};
ghost use Rattle.std.specs.Io.KnownBytes.{Consumes};
ghost use Rattle.sub_io.specs.Device.{CanFail, CountsFailureIf, failed};
ghost use Rattle.sub_io.specs.Reading.{IfKnown};
ghost use Rattle.stl_file.specs.declared.fault.StlFault.TheVariants.{Ended};
ghost use Rattle.stl_file.specs.Fault.{is_file_format_fault, is_file_read_failure};
ghost use Rattle.stl_file.specs.Gsi.{IsGsi, IsGsiFor};
ghost use Rattle.stl_file.specs.Reader.{block_of_fault, reported_block, checked_gsi_of_file};
ghost use Rattle.stl_file.specs.Reader.{open_result, FailsReading};
ghost use Rattle.stl_file.specs.Reader.{HasValidBlockNumber, GivesNextResult, Refuses};
ghost use Rattle.stl_file.specs.Reader.{RefusesOpening};
ghost use Rattle.stl_file.specs.Reader.{RefusesOpeningFor, ConsumesByResult, ConsumesSkippedBlocks};
ghost use Rattle.stl_file.specs.Reader.{ConsumesSubtitle, yielded_subtitle, progress_after_result};
ghost use Rattle.stl_file.specs.Reading.{current_subtitle, skipped_subtitle_from};
ghost use Rattle.stl_file.specs.Resuming.{LeadsToResult, found_of};
ghost use Rattle.stl_file.specs.Scope.{whole};
ghost use Rattle.stl_file.specs.Tti.{max_blocks};

use crate::fault::StlFault;
use crate::gsi::Gsi;
use crate::progress::Progress;
use crate::scope::Scope;
use crate::subtitle::Subtitle;
use crate::subtitle_blocks::{BlocksRead, take_block};
use crate::tti::Tti;
use std::marker::Model;
use sub_io::{Source, fill};

/// A reader of a subtitle file. The reader does not own the source: each call that reads takes the
/// source of the file.
///
/// The model has the GSI block, the number of the last TTI block that was read or begun, or at
/// which the source failed, and the progress.
#[derive(Drop)]
pub struct StlReader {
    gsi: Gsi,
    block: u32,
    progress: Progress,
}

impl Model for StlReader {
    ghost use Rattle.stl_file.specs.Reader.{HasValidBlockNumber, ReaderValue};

    ghost Value = { ReaderValue };

    ghost view = { λ r. record { gsi = r.gsi; block = r.block; progress = r.progress } };

    ghost invariant = { λ r. HasValidBlockNumber r.progress r.block };
}

impl StlReader {
    ghost use Rattle.stl_file.specs.declared.progress.Progress.TheVariants.{AtEnd, Broken, Reading};

    /// Reads the GSI block of a file, and nothing after the block.
    ///
    /// # Errors
    ///
    /// Checks in this order: `Read` if the source fails, `Truncated` (fewer than 1024 bytes),
    /// `Format`, `Rate`, `Display`, `Alphabet`. All are reported for block 0.
    pub fn open<S: Source>(source: &mut S) -> Result<StlReader, StlFault>
        requires { CanFail (S.failure_count source.old) }
        // If the source's bytes are known and the source does not fail, the bytes determine the
        // result.
        ensures exact { IfKnown (S.remaining source.old) (λ bytes.
            failed is_file_read_failure result ≡ false → open_result bytes ≡ result) }
        // The call consumes only the GSI block.
        ensures taken { IfOk result (λ reader. IsGsi reader.gsi
            × Consumes (S.remaining source.old) (S.remaining source.new) reader.gsi) }
        ensures left { IfKnown (S.remaining source.old) (λ bytes.
            IfOk result (λ reader. S.remaining source.new ≡ Some (drop 1024 bytes))) }
        ensures start { IfOk result (λ reader.
            (reader.block ≡ 0) × (reader.progress ≡ Reading)) }
        // No subtitle file for Teletext begins with the rejected bytes; after `Truncated`, a file
        // may begin with them, but none consists of exactly these bytes.
        ensures refused { IfErr result (λ fault. is_file_format_fault fault ≡ true →
            RefusesOpening (S.remaining source.old) (S.remaining source.new) fault) }
        // If the source failed, it failed within the GSI block.
        ensures failed { failed is_file_read_failure result ≡ true →
            (bytes : List ℕ) × (length bytes < 1024)
            × Consumes (S.remaining source.old) (S.remaining source.new) bytes }
        ensures never { IfErr result (λ fault. fault ≢ Ended) }
        ensures count { CountsFailureIf S.failure_count source.old
            (failed is_file_read_failure result) source.new }
    {
        match read_gsi(source, Scope::whole()) {
            Ok(gsi) => Ok(StlReader::at_first_block(gsi)),
            Err(fault) => Err(fault),
        }
    }

    // Creates a reader whose next block is the first after the GSI block.
    pub(crate) fn at_first_block(gsi: Gsi) -> StlReader
        ensures { result ≡ record { gsi = gsi; block = 0; progress = Reading } }
    {
        StlReader {
            gsi,
            block: 0,
            progress: Progress::Reading,
        }
    }

    /// Returns the file's GSI block.
    pub fn gsi(&self) -> Gsi
        ensures { result ≡ self.now.gsi }
    {
        self.gsi
    }

    /// Returns the number of the last TTI block that was read or begun, counted from 1; 0 before
    /// the first block.
    ///
    /// After `Unfinished` it is the number of the last complete block, after `Read` the number of
    /// the block with the byte that could not be read.
    pub fn block(&self) -> u32
        ensures value { result ≡ self.now.block }
        ensures place { HasValidBlockNumber self.now.progress self.now.block }
    {
        self.block
    }

    /// Reads the next subtitle: all its blocks, with comments and user data before and between
    /// them.
    ///
    /// Returns `None` at the end of the file and at each later call.
    ///
    /// # Errors
    ///
    /// Returns the first fault by block: `TooManyBlocks` (bytes after 99,999 blocks), `Truncated`
    /// (fewer than 128 bytes), `Extension`, `CommentFlag` (except for user data). Unless the block
    /// is skipped: within a subtitle `Sequence`, `TooLong`; otherwise `Cumulative`, `Justify`,
    /// `Row`, `Time`, `EmptyTime`. Returns `Unfinished` if the file ends within a subtitle, and
    /// `Read` if the source fails. After any error each call returns `Ended` and consumes nothing.
    pub fn next<S: Source>(&mut self, source: &mut S) -> Result<Option<Subtitle>, StlFault>
        requires { CanFail (S.failure_count source.old) }
        // If the source's bytes are known and the source does not fail, the bytes determine the
        // result, its block number and the bytes left.
        ensures exact { IfKnown (S.remaining source.old) (λ bytes.
            failed is_file_read_failure result ≡ false →
            GivesNextResult self.old bytes self.new (S.remaining source.new) result) }

        // The bytes consumed are the blocks of the returned subtitle, with the skipped blocks
        // before and inside them.
        ensures subtitle { self.old.progress ≡ Reading → IfOk result (λ found. IfSome found
            (ConsumesSubtitle self.old.block self.new.block
            (S.remaining source.old) (S.remaining source.new))) }
        // If the result is `None`, the rest of the file had only skipped blocks: comments and user
        // data.
        ensures none { self.old.progress ≡ Reading → IfOk result (λ found. IfNone found
            (ConsumesSkippedBlocks self.old.block self.new.block
            (S.remaining source.old) (S.remaining source.new))) }
        // No subtitle file has the rejected bytes at this position; after `Truncated` and
        // `Unfinished`, a file may continue with them, but none ends with them.
        ensures refused { self.old.progress ≡ Reading → IfErr result (λ fault.
            is_file_format_fault fault ≡ true → Refuses self.old.block self.new.block
            (S.remaining source.old) (S.remaining source.new) fault) }
        // If the source failed, it failed at the block with the number `self.new.block`.
        ensures failed { self.old.progress ≡ Reading → failed is_file_read_failure result ≡ true →
            FailsReading whole self.old.block self.new.block None
            (S.remaining source.old) (S.remaining source.new) }

        ensures progress { self.new.progress ≡ progress_after_result self.old.progress result }
        ensures place { HasValidBlockNumber self.new.progress self.new.block }
        ensures gsi { self.new.gsi ≡ self.old.gsi }
        // After the end of the file and after a fault, a call consumes nothing, and the reader does
        // not change.
        ensures at_end { self.old.progress ≡ AtEnd →
            (result ≡ Ok None) × (self.new ≡ self.old) × (source.new ≡ source.old) }
        ensures ended { (self.old.progress ≡ Broken) ↔ (result ≡ Err Ended) }
        ensures stays { self.old.progress ≡ Broken →
            (self.new ≡ self.old) × (source.new ≡ source.old) }
        ensures count { CountsFailureIf S.failure_count source.old
            (failed is_file_read_failure result) source.new }
    {
        let mut subtitle = Subtitle::empty();
        match self.next_into(source, &mut subtitle) {
            Ok(true) => Ok(Some(subtitle)),
            Ok(false) => Ok(None),
            Err(fault) => Err(fault),
        }
    }

    /// Reads the next subtitle into `subtitle`. Returns `true` if `next` would return a subtitle,
    /// and `false` if `next` would return `None`.
    ///
    /// The new contents of `subtitle` are the subtitle that `next` would return. If `next` would
    /// return none, the contents are unspecified.
    ///
    /// # Errors
    ///
    /// Returns the errors of `next`.
    #[tactic(auto, using(crate::proofs::ReaderLemmas::led))]
    pub fn next_into<S: Source>(
        &mut self,
        source: &mut S,
        subtitle: &mut Subtitle,
    ) -> Result<bool, StlFault>
        requires { CanFail (S.failure_count source.old) }
        // If the source's bytes are known and the source does not fail, the bytes determine the
        // result, its block number and the bytes left.
        ensures exact { IfKnown (S.remaining source.old) (λ bytes.
            failed is_file_read_failure result ≡ false →
            GivesNextResult self.old bytes self.new (S.remaining source.new)
            (yielded_subtitle result subtitle.new)) }

        // If the result is `true`, the bytes consumed are the blocks of the subtitle, with the
        // skipped blocks before and inside them; if `false`, only skipped blocks. No file has the
        // rejected bytes at this position; after `Truncated` and `Unfinished`, a file may continue
        // with them, but none ends with them. If the source failed, it failed at the block
        // `self.new.block`.
        ensures taken { self.old.progress ≡ Reading → ConsumesByResult self.old.block self.new.block
            (S.remaining source.old) (S.remaining source.new)
            (yielded_subtitle result subtitle.new) }

        ensures progress { self.new.progress ≡ progress_after_result self.old.progress
            (yielded_subtitle result subtitle.new) }
        ensures place { HasValidBlockNumber self.new.progress self.new.block }
        ensures gsi { self.new.gsi ≡ self.old.gsi }
        // After the end of the file and after a fault, a call consumes nothing, and the reader does
        // not change.
        ensures at_end { self.old.progress ≡ AtEnd →
            (result ≡ Ok false) × (self.new ≡ self.old) × (source.new ≡ source.old) }
        ensures ended { (self.old.progress ≡ Broken) ↔ (result ≡ Err Ended) }
        ensures stays { self.old.progress ≡ Broken →
            (self.new ≡ self.old) × (source.new ≡ source.old) }
        ensures count { CountsFailureIf S.failure_count source.old
            (failed is_file_read_failure result) source.new }
    {
        let mut block = match self.progress {
            Progress::Reading => self.block,
            Progress::AtEnd => return Ok(false),
            Progress::Broken => return Err(StlFault::Ended),
        };
        // `StlReader` stops at a rejected subtitle, as at any other fault.
        let mut refused = None;
        match read_blocks(Scope::whole(), &mut block, source, subtitle, &mut refused) {
            Ok(true) => {
                self.block = block;
                Ok(true)
            }
            Ok(false) => {
                self.block = block;
                self.progress = Progress::AtEnd;
                Ok(false)
            }
            Err(fault) => {
                self.block = block_of(block, &fault);
                self.progress = Progress::Broken;
                Err(fault)
            }
        }
    }
}

// Reads the GSI block of a file, and nothing after the block.
pub(crate) fn read_gsi<S: Source>(source: &mut S, scope: Scope) -> Result<Gsi, StlFault>
    requires { CanFail (S.failure_count source.old) }
    ensures exact { IfKnown (S.remaining source.old) (λ bytes.
        failed is_file_read_failure result ≡ false → checked_gsi_of_file scope.takes_open bytes ≡
        result) }
    ensures taken { IfOk result (λ gsi. IsGsiFor scope.takes_open gsi
        × Consumes (S.remaining source.old) (S.remaining source.new) gsi) }
    ensures left { IfKnown (S.remaining source.old) (λ bytes.
        IfOk result (λ gsi. S.remaining source.new ≡ Some (drop 1024 bytes))) }
    ensures refused { IfErr result (λ fault. is_file_format_fault fault ≡ true →
        RefusesOpeningFor scope (S.remaining source.old) (S.remaining source.new) fault) }
    ensures failed { failed is_file_read_failure result ≡ true → (bytes : List ℕ) ×
        (length bytes < 1024)
        × Consumes (S.remaining source.old) (S.remaining source.new) bytes }
    ensures never { IfErr result (λ fault. fault ≢ Ended) }
    ensures count { CountsFailureIf S.failure_count source.old (failed is_file_read_failure result)
        source.new }
{
    let mut bytes = [0; 1024];
    let read_count = fill(source, &mut bytes)?;
    if read_count < 1024 {
        return Err(StlFault::Truncated);
    }
    Gsi::read(&bytes).validate(scope.takes_open)
}

// Reads blocks after `block`, up to the last block of a subtitle that is not skipped (`true`), the
// end of the file (`false`) or a fault. On entry, `refused` is the first block of a rejected
// subtitle that continues here, if any. If the fields of a subtitle's first block are rejected,
// `refused` is then that block, or `None` if the block is also the subtitle's last.
pub(crate) fn read_blocks<S: Source>(
    scope: Scope,
    block: &mut u32,
    source: &mut S,
    subtitle: &mut Subtitle,
    refused: &mut Option<Tti>,
) -> Result<bool, StlFault>
    requires few { block.old ≤ max_blocks }
    requires count { CanFail (S.failure_count source.old) }
    ensures leads { failed is_file_read_failure result ≡ false →
        LeadsToResult scope block.old
        (reported_block block.new (yielded_subtitle result subtitle.new))
        (option_map skipped_subtitle_from refused.old) (option_map skipped_subtitle_from
        refused.new)
        (S.remaining source.old) (S.remaining source.new) subtitle.new (found_of result) }
    ensures failed { failed is_file_read_failure result ≡ true →
        FailsReading scope block.old (block.new + 1) (option_map skipped_subtitle_from refused.old)
        (S.remaining source.old) (S.remaining source.new) }
    ensures never { IfErr result (λ fault. fault ≢ Ended) }
    ensures over { result ≡ Ok true → refused.new ≡ None }
    ensures few { block.new ≤ max_blocks }
    ensures count { CountsFailureIf S.failure_count source.old (failed is_file_read_failure result)
        source.new }
{
    let mut read = resume(subtitle, refused);
    loop {
        let mut bytes = [0; 128];
        let read_count = fill(source, &mut bytes)?;
        if read_count == 0 {
            return if read.count == 0 {
                Ok(false)
            } else {
                Err(StlFault::Unfinished)
            };
        }
        if *block == 99999 {
            return Err(StlFault::TooManyBlocks);
        }
        *block += 1;
        if read_count < 128 {
            return Err(StlFault::Truncated);
        }
        let tti = Tti::of_bytes(&bytes);
        match take_block(scope, subtitle, &mut read, &tti) {
            Ok(false) => {}
            Ok(true) => {
                *refused = None;
                return Ok(true);
            }
            Err(fault) => {
                *refused = if tti.ebn() == 0xff { None } else { Some(tti) };
                return Err(fault);
            }
        }
    }
}

// Continues a rejected subtitle whose first block is `refused`, if any. Returns the state of
// reading the blocks of the current subtitle.
fn resume(subtitle: &mut Subtitle, refused: &Option<Tti>) -> BlocksRead
    ensures { current_subtitle subtitle.new result ≡ option_map skipped_subtitle_from refused.now }
{
    let count = match refused {
        None => 0,
        Some(block) => {
            subtitle.begin_skipped(block);
            1
        }
    };
    BlocksRead {
        count,
        is_skipped: true,
    }
}

// Returns the number of the block to report for a fault, if the reader has counted `block` blocks.
pub(crate) fn block_of(block: u32, fault: &StlFault) -> u32
    requires { block ≤ max_blocks }
    ensures { block_of_fault block fault.now ≡ result }
{
    match fault {
        StlFault::TooManyBlocks | StlFault::Read => block + 1,
        _ => block,
    }
}
