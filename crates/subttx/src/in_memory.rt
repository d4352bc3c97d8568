//! Runs the program with files in memory, for which exit status 0 of `check` implies the headline.
//!
//! Contracts know nothing about the bytes of the system's files, so the clauses about bytes are
//! proved for files in memory.
ghost use Rattle.std.specs.Prelude.{◌≡◌};
ghost use Rattle.sub_headline.specs.Headline.{DecidesAcceptance, ImpliesChosenHeadline};
ghost use Rattle.sub_headline.specs.Headline.{ImpliesCompletePages};
ghost use Rattle.sub_headline.specs.Headline.{ImpliesDrawnHeadline, ImpliesDroppingHeadline};
ghost use Rattle.sub_headline.specs.Headline.{ImpliesFileReading};
ghost use Rattle.sub_headline.specs.Headline.{ImpliesHeadline};
ghost use Rattle.sub_headline.specs.Headline.{ImpliesRecordingHeadline, ImpliesRecordingReading};
ghost use Rattle.sub_headline.specs.Headline.{ImpliesPageCharacters, ImpliesRecordingReceivers};
ghost use Rattle.subttx.specs.Words.{arguments_given};

use crate::run;
use std::alloc::Global;
use std::env::Args;
use std::io;
use sub_files::MemFiles;
use sub_headline::law_of_headline;
use sub_io::Sink;

/// Runs the program with files in memory, in the same way as `main` runs it with the files of the
/// system.
///
/// For the arguments `check STL PES`, where STL and PES do not begin with `-`, exit status 0 means
/// that the headline is true for the subtitles and frames in the files. If `--page`, `--every`,
/// `--origin`, `--pace`, `--complete` or `--all` follow, 0 means that it is true with these
/// options, also for receivers that drop damaged rows, that the decoded pages of all receivers that
/// are set to region 0000 or 0010 show the expected characters, and that the bytes match their
/// formats and contain no other subtitles or frames. Any status other than 2 then decides whether
/// the files are accepted. With `--pid`, `--packet-size`, `--pes`, `--from`, `--to` or `--open`,
/// status 0 means the same for the selected parts of a recording and of a subtitle file. With
/// `--option` or `--layout`, it means that the headline is true for subtitles drawn with this
/// national option or layout.
pub fn run_in_memory<K: Sink + Drop>(
    alloc: Global,
    given: io::Result<Args>,
    files: &mut MemFiles<'_>,
    standard_output: K,
) -> u8
    requires { K.failure_count standard_output ≡ 0 }
    ensures headline { ImpliesHeadline (arguments_given given) files.old result }
    ensures chosen { ImpliesChosenHeadline (arguments_given given) files.old result }
    ensures dropping { ImpliesDroppingHeadline (arguments_given given) files.old result }
    ensures decoded_characters { ImpliesPageCharacters (arguments_given given) files.old result }
    ensures files { ImpliesFileReading (arguments_given given) files.old result }
    ensures complete { ImpliesCompletePages (arguments_given given) files.old result }
    ensures recording { ImpliesRecordingHeadline (arguments_given given) files.old result }
    ensures recording_receivers { ImpliesRecordingReceivers (arguments_given given) files.old
        result }
    ensures recording_files { ImpliesRecordingReading (arguments_given given) files.old result }
    ensures drawn { ImpliesDrawnHeadline (arguments_given given) files.old result }
    ensures acceptance { DecidesAcceptance (arguments_given given) files.old result }
{
    law_of_headline::<K>();
    run(alloc, given, files, standard_output).code
}
