//! The function `survey`, which reads a recording once, and prints a line for each fact.
ghost use Rattle.std.specs.Prelude.{◌≡◌, ◌++◌, IfErr, OnOk, false, length};
ghost use Rattle.std.specs.Io.KnownBytes.{Appends, IsAtEnd};
ghost use Rattle.sub_io.specs.Device.{CanFail, CountsFailureIf, failed};
ghost use Rattle.ts_survey.specs.Listed.{ReportsSurvey};
ghost use Rattle.ts_survey.specs.Survey.{AppendsSomeText, is_survey_read_failure};
ghost use Rattle.ts_survey.specs.Survey.{is_survey_write_failure};

use crate::buffer::ReadBuffer;
use crate::recording::Recording;
use crate::text::Text;
use mpeg_ts::{SurveyOptions, SurveyPages};
use std::alloc::Global;
use sub_io::{Flush, Source, put_all};
use ttx_packet::PageId;

/// The reason why a survey failed.
#[derive(Clone, Copy, Debug, PartialEq, Eq)]
pub enum SurveyFault {
    /// The source of the recording failed.
    Read,
    /// The sink failed.
    Write,
    /// Memory ran out during the survey.
    Memory,
}

/// Reads a recording to its end, and writes a line for each fact, as `docs/manual/survey.md`
/// describes.
///
/// All output is flushed before more of the recording is read. The memory needed does not grow with
/// the recording.
///
/// # Errors
///
/// Returns `Read` if the source fails; all lines printed before were written. Returns `Write` if
/// the sink fails, which then has a prefix of the output. Returns `Memory` if memory runs out,
/// except for tables: those for which it runs out are not read.
#[tactic(auto, using(crate::proofs::SurveyLemmas::growing))]
pub fn survey<S: Source, K: Flush>(
    alloc: Global,
    options: SurveyOptions,
    source: &mut S,
    out: &mut K,
) -> Result<(), SurveyFault>
    requires source { CanFail (S.failure_count source.old) }
    requires out { CanFail (K.failure_count out.old) }
    ensures grows { AppendsSomeText (K.contents out.old) (K.contents out.new) }
    ensures source_count { CountsFailureIf S.failure_count source.old (failed is_survey_read_failure
        result)
        source.new }
    ensures out_count { CountsFailureIf K.failure_count out.old (failed is_survey_write_failure
        result) out.new }
    // All output is flushed before the source may call its device, which may fail.
    ensures followed { K.buffered out.old ≡ 0
        → failed is_survey_write_failure result ≡ false
        → K.buffered out.new ≡ 0 }
    // If no fault is returned, the recording was read to its end. That each packet was examined is
    // tested, not proved.
    ensures ended { OnOk result (IsAtEnd (S.remaining source.new)) }
    // If no fault is returned, the first lines of the output have the recording's first bytes and
    // its kind, with the requested packet size and PID, and the last line is `over`. Which lines
    // are between them is tested, not proved.
    ensures listed { OnOk result (ReportsSurvey options (S.remaining source.old)
        (K.contents out.old) (K.contents out.new)) }
{
    let Some(mut buffer) = ReadBuffer::new(alloc) else {
        return Err(SurveyFault::Memory);
    };
    let mut first = Text::new(alloc, None);
    let mut text = Text::new(alloc, only_page(&options.pages));
    let mut recording = Recording::new(alloc, options);
    'reads: for _ in 0..u64::MAX {
        let Ok(received) = buffer.pull(source, &first, &text) else {
            return Err(SurveyFault::Read);
        };
        let used = recording.take(buffer.buffered(), received.is_end, &mut first, &mut text);
        buffer.skip_bytes(used);
        recording.end_or_flush(received.is_end, received.has_no_more, &mut text);
        if first.is_lost() || text.is_lost() || recording.out_of_memory() {
            return Err(SurveyFault::Memory);
        }
        flush_pending(&mut first, &mut text, out)?;
        if received.is_end {
            return Ok(());
        }
    }
    // No recording needs that many reads.
    Err(SurveyFault::Memory)
}

// Returns the requested page if it is the only one.
fn only_page(pages: &SurveyPages) -> Option<PageId> {
    match pages[1] {
        Some(_) => None,
        None => pages[0],
    }
}

// Writes all lines, the first lines before the other lines, and flushes them.
#[tactic(auto, using(crate::proofs::SurveyLemmas::growing))]
fn flush_pending<K: Flush>(
    first: &mut Text,
    text: &mut Text,
    out: &mut K,
) -> Result<(), SurveyFault>
    requires { CanFail (K.failure_count out.old) }
    ensures grows { AppendsSomeText (K.contents out.old) (K.contents out.new) }
    ensures all { OnOk result (length text.new.bytes.items ≡ 0) }
    ensures first { OnOk result (length first.new.bytes.items ≡ 0) }
    ensures reported { OnOk result (Appends (K.contents out.old) (K.contents out.new)
        (first.old.bytes.items ++ text.old.bytes.items)) }
    ensures stays_flushed { K.buffered out.old ≡ 0
        → failed is_survey_write_failure result ≡ false
        → K.buffered out.new ≡ 0 }
    ensures only_write_fails { IfErr result (λ fault. fault ≡ SurveyFault.Write) }
    ensures count { CountsFailureIf K.failure_count out.old (failed is_survey_write_failure result)
        out.new }
{
    if first.is_empty() && text.is_empty() {
        return Ok(());
    }
    put_lines(first, out)?;
    put_lines(text, out)?;
    match out.flush() {
        Ok(()) => Ok(()),
        Err(_) => Err(SurveyFault::Write),
    }
}

// Writes all lines of a text, and then clears the text unless writing failed.
#[tactic(auto, using(crate::proofs::ListedLemmas::all_reported))]
fn put_lines<K: Flush>(text: &mut Text, out: &mut K) -> Result<(), SurveyFault>
    requires { CanFail (K.failure_count out.old) }
    ensures grows { AppendsSomeText (K.contents out.old) (K.contents out.new) }
    ensures all { OnOk result (length text.new.bytes.items ≡ 0) }
    ensures reported { OnOk result (Appends (K.contents out.old) (K.contents out.new)
        text.old.bytes.items) }
    ensures only_write_fails { IfErr result (λ fault. fault ≡ SurveyFault.Write) }
    ensures count { CountsFailureIf K.failure_count out.old (failed is_survey_write_failure result)
        out.new }
{
    if put_all(out, text.as_slice()).is_err() {
        return Err(SurveyFault::Write);
    }
    text.clear();
    Ok(())
}
