//! The meaning of exit status 0 of `check`, and the characters that viewers see.
ghost use Rattle.sub_headline.specs.Acceptance.{LawOfEnglishAcceptance, LawOfPlainAcceptance};
ghost use Rattle.sub_headline.specs.DrawnOptions.{LawOfCheckRecordingArguments};
ghost use Rattle.sub_headline.specs.EnglishScreen.{LawOfEnglishCharacters};
ghost use Rattle.sub_headline.specs.Headline.{LawOfHeadline};
ghost use Rattle.sub_headline.specs.PlainOptions.{LawOfChosenArguments};
ghost use Rattle.sub_headline.specs.PlainArguments.{LawOfPlainArguments};
ghost use Rattle.sub_headline.specs.RecordingOptions.{LawOfRecordingArguments};

use sub_io::Sink;

/// With options that require the expected page at the end of each frame, and each header of the
/// page to erase the page, files are accepted exactly if they contain subtitles, possibly none, and
/// a good transmission of these, with complete pages if the options require them.
pub fn law_of_plain_acceptance()
    ensures { LawOfPlainAcceptance }
{}

/// Files with English subtitles in the default layout satisfy the condition for acceptance in
/// `law_of_plain_acceptance` exactly if they satisfy a short form of the rules.
pub fn law_of_english_acceptance()
    ensures { LawOfEnglishAcceptance }
{}

/// If the arguments `check STL PES` are a request, it is a check of these two files with the
/// default options. STL and PES do not begin with `-`.
pub fn law_of_plain_arguments()
    ensures { LawOfPlainArguments }
{}

/// If the arguments `check STL PES`, followed by options of type `CheckOption` in any order, are a
/// request, it is a check of these two files with these options. STL and PES do not begin with `-`.
pub fn law_of_chosen_arguments()
    ensures { LawOfChosenArguments }
{}

/// If the arguments `check STL RECORDING`, followed by options of type `RecordingOption` in any
/// order, are a request, it is a check of the parts of both files that the options select. STL and
/// RECORDING do not begin with `-`.
pub fn law_of_recording_arguments()
    ensures { LawOfRecordingArguments }
{}

/// If the arguments `check STL RECORDING`, followed by options of type `CheckRecordingOption` in
/// any order, are a request, it is a check of the parts of both files that the options select, with
/// subtitles drawn with the national option and the layout of the options. STL and RECORDING do not
/// begin with `-`.
pub fn law_of_check_recording_arguments()
    ensures { LawOfCheckRecordingArguments }
{}

/// The cell for a byte of English text shows the character of that byte.
pub fn law_of_english_characters()
    ensures { LawOfEnglishCharacters }
{}

/// If the program is run on files in memory with the arguments `check STL RECORDING` and options
/// other than `--within` and `--keeping` after them, where STL and RECORDING do not begin with `-`,
/// and ends with exit code 0, the headline is true for the subtitles and frames in both files, with
/// these options. It is also true for receivers that drop damaged rows and, if complete pages are
/// required, for receivers that wait for these; the decoded pages of all receivers that are set to
/// region 0000 or 0010 show the characters of the expected page, and the bytes match their formats
/// and contain no other subtitles or frames. All this applies to the selected parts of a recording
/// and of a subtitle file. For subtitles drawn with a national option or a layout, only the
/// headline itself is proved. If no options are given other than `--page`, `--every`, `--origin`,
/// `--pace`, `--complete` and `--all`, any exit code other than 2 decides whether the files are
/// accepted.
pub fn law_of_headline<K: Sink>()
    ensures { LawOfHeadline K.contents K.failure_count K.is_push }
{}
