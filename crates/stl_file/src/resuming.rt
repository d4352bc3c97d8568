//! Reads a subtitle file, and continues after rejected subtitles.

ghost use Rattle.std.specs.Prelude.{◌≡◌, ◌≢◌, ◌<◌, false, true, IfErr, IfOk, List, None, Some};
ghost use Rattle.std.specs.Prelude.{drop, length, option_map, ℕ};
ghost use Rattle.std.specs.Io.KnownBytes.{Consumes};
ghost use Rattle.sub_io.specs.Device.{CanFail, CountsFailureIf, failed};
ghost use Rattle.sub_io.specs.Reading.{IfKnown};
ghost use Rattle.stl_file.specs.declared.fault.StlFault.TheVariants.{Ended};
ghost use Rattle.stl_file.specs.declared.progress.Progress.TheVariants.{Reading};
ghost use Rattle.stl_file.specs.Fault.{is_file_format_fault, is_file_read_failure};
ghost use Rattle.stl_file.specs.Gsi.{IsGsiFor};
ghost use Rattle.stl_file.specs.Reader.{FailsReading, HasValidBlockNumber, RefusesOpeningFor};
ghost use Rattle.stl_file.specs.Reading.{skipped_subtitle_from};
ghost use Rattle.stl_file.specs.Resuming.{IsFirstBlockFaultIfRefused, LeadsToResult};
ghost use Rattle.stl_file.specs.Resuming.{resuming_open_result};
ghost use Rattle.stl_file.specs.Resuming.{progress_after_finding};

use crate::fault::StlFault;
use crate::progress::Progress;
use crate::reader::{block_of, read_blocks, read_gsi};
use crate::scope::Scope;
use crate::subtitle::Subtitle;
use crate::tti::Tti;
use std::marker::Model;
use sub_io::Source;

/// The next item of a subtitle file if reading continues after rejected subtitles.
#[derive(Clone, Copy, Debug, PartialEq, Eq)]
pub enum Found {
    /// A subtitle, all of whose blocks were read.
    Subtitle,
    /// A rejected subtitle, of which the first block was read. The fault is `Cumulative`,
    /// `Justify`, `Row`, `Time` or `EmptyTime`.
    Refused(StlFault),
    /// The end of the subtitle file.
    End,
}

/// A reader of the subtitles in a scope. If a subtitle is rejected (`Found::Refused`), the reader
/// continues after the subtitle's last block. The reader does not own the source.
///
/// The model has the scope, the number of the last TTI block that was read or begun, or at which
/// the source failed, the progress, and, until reading ends, the rejected subtitle whose later
/// blocks may follow.
#[derive(Drop)]
pub struct ResumingReader {
    scope: Scope,
    block: u32,
    progress: Progress,
    // Until reading ends: the first block of a rejected subtitle with more blocks to skip.
    refused: Option<Tti>,
}

impl Model for ResumingReader {
    ghost use Rattle.std.specs.Prelude.{option_map};
    ghost use Rattle.stl_file.specs.Reader.{HasValidBlockNumber};
    ghost use Rattle.stl_file.specs.Reading.{skipped_subtitle_from};
    ghost use Rattle.stl_file.specs.Resuming.{ResumingValue};

    ghost Value = { ResumingValue };

    ghost view = { λ r. record {
      scope = r.scope;
      block = r.block;
      progress = r.progress;
      refused = option_map skipped_subtitle_from r.refused;
    } };

    ghost invariant = { λ r. HasValidBlockNumber r.progress r.block };
}

impl ResumingReader {
    /// Reads the GSI block of a file, and nothing after the block. The reader then returns the
    /// subtitles in `scope`.
    ///
    /// # Errors
    ///
    /// Returns the errors of `StlReader::open`; the condition for `Display` depends on the scope.
    pub fn open<S: Source>(source: &mut S, scope: Scope) -> Result<ResumingReader, StlFault>
        requires { CanFail (S.failure_count source.old) }
        // If the source's bytes are known and the source does not fail, the bytes determine the
        // result.
        ensures exact { IfKnown (S.remaining source.old) (λ bytes.
            failed is_file_read_failure result ≡ false → resuming_open_result scope bytes ≡
            result) }
        // The call consumes only the GSI block.
        ensures taken { IfOk result (λ reader. (gsi : List ℕ) × IsGsiFor scope.takes_open gsi
            × Consumes (S.remaining source.old) (S.remaining source.new) gsi) }
        ensures left { IfKnown (S.remaining source.old) (λ bytes.
            IfOk result (λ reader. S.remaining source.new ≡ Some (drop 1024 bytes))) }
        ensures start { IfOk result (λ reader. reader
            ≡ record { scope = scope; block = 0; progress = Reading; refused = None }) }
        // No subtitle file that the scope accepts begins with the rejected bytes; after
        // `Truncated`, a file may begin with them, but none consists of exactly these bytes.
        ensures refused { IfErr result (λ fault. is_file_format_fault fault ≡ true →
            RefusesOpeningFor scope (S.remaining source.old) (S.remaining source.new) fault) }
        // If the source failed, it failed within the GSI block.
        ensures failed { failed is_file_read_failure result ≡ true →
            (bytes : List ℕ) × (length bytes < 1024)
            × Consumes (S.remaining source.old) (S.remaining source.new) bytes }
        ensures never { IfErr result (λ fault. fault ≢ Ended) }
        ensures count { CountsFailureIf S.failure_count source.old
            (failed is_file_read_failure result) source.new }
    {
        match read_gsi(source, scope) {
            Ok(_) => Ok(ResumingReader {
                scope,
                block: 0,
                progress: Progress::Reading,
                refused: None,
            }),
            Err(fault) => Err(fault),
        }
    }

    /// Returns the number of the last TTI block that was read or begun, counted from 1; 0 before
    /// the first block.
    ///
    /// After `Unfinished` it is the number of the last complete block, after `Read` the number of
    /// the block with the byte that could not be read.
    pub fn block(&self) -> u32
        ensures value { result ≡ self.now.block }
        ensures place { HasValidBlockNumber self.now.progress self.now.block }
    {
        self.block
    }

    /// Finds the next item of the file, and reads a subtitle into `subtitle`. After `End` or an
    /// error, do not call `next_into` again.
    ///
    /// A returned subtitle is equal to the subtitle that `StlReader::next` would return for its
    /// blocks. If no subtitle is returned, the contents of `subtitle` are unspecified. The reader
    /// skips comments, user data, subtitles outside the scope, and the later blocks of a rejected
    /// subtitle.
    ///
    /// # Errors
    ///
    /// Returns the first fault by block that ends reading: a fault of `StlReader::next` except the
    /// five of `Found::Refused` and `Ended`.
    pub fn next_into<S: Source>(
        &mut self,
        source: &mut S,
        subtitle: &mut Subtitle,
    ) -> Result<Found, StlFault>
        requires count { CanFail (S.failure_count source.old) }
        requires reading { self.old.progress ≡ Reading }
        // If the source does not fail, the bytes consumed determine the result and its block
        // number; some results also depend on the end of the file.
        ensures leads { failed is_file_read_failure result ≡ false →
            LeadsToResult self.old.scope self.old.block self.new.block self.old.refused
            self.new.refused
            (S.remaining source.old) (S.remaining source.new) subtitle.new result }
        // If the source failed, it failed at the block with the number `self.new.block`.
        ensures failed { failed is_file_read_failure result ≡ true →
            FailsReading self.old.scope self.old.block self.new.block self.old.refused
            (S.remaining source.old) (S.remaining source.new) }
        ensures first { IfOk result IsFirstBlockFaultIfRefused }
        ensures never { IfErr result (λ fault. fault ≢ Ended) }
        ensures scope { self.new.scope ≡ self.old.scope }
        ensures progress { self.new.progress ≡ progress_after_finding result }
        ensures place { HasValidBlockNumber self.new.progress self.new.block }
        ensures count { CountsFailureIf S.failure_count source.old
            (failed is_file_read_failure result) source.new }
    {
        let mut block = self.block;
        match read_blocks(self.scope, &mut block, source, subtitle, &mut self.refused) {
            Ok(true) => {
                self.block = block;
                Ok(Found::Subtitle)
            }
            Ok(false) => {
                self.block = block;
                self.progress = Progress::AtEnd;
                Ok(Found::End)
            }
            Err(fault) => {
                self.block = block_of(block, &fault);
                if fault.is_first_block_fault() {
                    return Ok(Found::Refused(fault));
                }
                self.progress = Progress::Broken;
                Err(fault)
            }
        }
    }
}
