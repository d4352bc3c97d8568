//! Reads the arguments of a command one by one from the matches of `clap`.
ghost use Rattle.std.specs.Prelude.{◌≡◌, IfErr, IfOk, ok_or, option_map, true};
ghost use Rattle.std.specs.Result.{result_map_both};
ghost use Rattle.clap.specs.Words.{first_of, found_of, rows_of};
ghost use Rattle.sub_words.specs.Arguments.{with_within_value, argument, has_flag};
ghost use Rattle.sub_words.specs.Arguments.{layout_of};
ghost use Rattle.sub_words.specs.Arguments.{parsed_list_of};
ghost use Rattle.sub_words.specs.Arguments.{parsed_if_present, with_keeping_value, options_of};
ghost use Rattle.sub_words.specs.Arguments.{options_with_pace};
ghost use Rattle.sub_words.specs.Arguments.{packet_size_of};
ghost use Rattle.sub_words.specs.Arguments.{pes_selection_of, range_of_arguments, required_pid_of};
ghost use Rattle.sub_words.specs.Arguments.{scope_of, stream_of, survey_options_of};
ghost use Rattle.sub_words.specs.Texts.{frame_of_text};
ghost use Rattle.sub_words.specs.Requests.{is_found_after_clap, pes_selection_value};

use crate::lists::{Item, parse_list};
use crate::numbers::parse_number;
use crate::pes_selection::{parse_packet_size, parse_pid, parse_range};
use crate::times::parse_time;
use clap::ArgMatches;
use mpeg_ts::{PacketSize, Pid, SurveyOptions, SurveyPages};
use std::alloc::Global;
use stl_file::Scope;
use stl_rows::Layout;
use sub_plan::{OptionFault, Options};
use sub_request::{PesSelection, TransportStream, UsageFault};
use ttx_packet::PageId;
use ttx_pes::PesPacketRange;

/// Returns the text of an argument, or `None` if the user left it out and it has no default.
#[tactic(auto, using(crate::proofs::CommandLemmas::values))]
pub fn argument_at<'a>(matches: &ArgMatches<'a>, id: &str) -> Option<&'a str>
    ensures { option_map (λ text. text.now) result
        ≡ first_of id.now (rows_of (found_of matches.now)) }
{
    matches.get_str(id)
}

/// Returns the text of an argument; its default if the user gave none; an empty text if it has no
/// default either.
pub fn text_at<'a>(matches: &ArgMatches<'a>, id: &str) -> &'a str
    ensures { result.now ≡ argument id.now (rows_of (found_of matches.now)) }
{
    argument_at(matches, id).unwrap_or("")
}

/// Returns whether a flag is set. `clap` stores the text `true` or `false` for a flag.
pub fn flag_at<'a>(matches: &ArgMatches<'a>, id: &str) -> bool
    ensures { result ≡ has_flag id.now (rows_of (found_of matches.now)) }
{
    text_at(matches, id) == "true"
}

/// Returns the options with this repeat bound, and with the page, the PTS of frame 0 and the flag
/// for complete pages from the arguments. A missing or invalid number counts as out of range.
///
/// # Errors
///
/// Returns the first fault of `BadPage`, `Every` and `Origin`.
pub fn options_at<'a>(matches: &ArgMatches<'a>, every: Option<u64>) -> Result<Options, UsageFault>
    ensures { result ≡ options_of every (rows_of (found_of matches.now)) }
{
    let Ok(page) = PageId::parse(text_at(matches, "page")) else {
        return Err(UsageFault::BadPage);
    };
    let origin = parse_number(text_at(matches, "origin"));
    match Options::new(page, every.unwrap_or(0), origin.unwrap_or(u64::MAX)) {
        Ok(options) if flag_at(matches, "complete") => Ok(options.asking_complete()),
        Ok(options) => Ok(options),
        Err(fault) => Err(usage_fault_of(fault)),
    }
}

/// Returns the options with the number of frames of `--within`. A missing or invalid number counts
/// as out of range.
///
/// # Errors
///
/// The only fault is `Within`.
pub fn with_within_option<'a>(
    matches: &ArgMatches<'a>,
    options: Options,
) -> Result<Options, UsageFault>
    ensures { result ≡ with_within_value options (rows_of (found_of matches.now)) }
{
    let frames = parse_number(text_at(matches, "within"));
    options
        .allowing(frames.unwrap_or(u64::MAX))
        .map_err(usage_fault_of)
}

/// Returns the options with the maximum distance of PES packets from `--pace`; unchanged if the
/// user gave no `--pace`.
///
/// # Errors
///
/// The only fault is `Pace`.
pub fn pacing_at<'a>(matches: &ArgMatches<'a>, options: Options) -> Result<Options, UsageFault>
    ensures { result ≡ options_with_pace options (rows_of (found_of matches.now)) }
{
    let Some(text) = argument_at(matches, "pace") else {
        return Ok(options);
    };
    // A text that is no number counts as out of range, like 0.
    let frames = parse_number(text);
    options.pacing(frames.unwrap_or(0)).map_err(usage_fault_of)
}

/// Returns the options, in which repeats may keep the page if `--keeping` is given.
pub fn with_keeping_flag<'a>(matches: &ArgMatches<'a>, options: Options) -> Options
    ensures { result ≡ with_keeping_value options (rows_of (found_of matches.now)) }
{
    if flag_at(matches, "keeping") {
        options.keeping()
    } else {
        options
    }
}

// Converts a fault of options to a fault of the arguments.
fn usage_fault_of(fault: OptionFault) -> UsageFault
    ensures every { fault ≡ OptionFault.Every → result ≡ UsageFault.Every }
    ensures origin { fault ≡ OptionFault.Origin → result ≡ UsageFault.Origin }
    ensures within { fault ≡ OptionFault.Within → result ≡ UsageFault.Within }
    ensures pace { fault ≡ OptionFault.Pace → result ≡ UsageFault.Pace }
{
    match fault {
        OptionFault::Every => UsageFault::Every,
        OptionFault::Origin => UsageFault::Origin,
        OptionFault::Within => UsageFault::Within,
        OptionFault::Pace => UsageFault::Pace,
    }
}

/// Returns the layout of `--layout`, or the default layout if the user gave none.
///
/// # Errors
///
/// The only fault is `BadLayout`.
pub fn layout_at<'a>(matches: &ArgMatches<'a>) -> Result<Layout, UsageFault>
    ensures { result ≡ layout_of (rows_of (found_of matches.now)) }
{
    match argument_at(matches, "layout") {
        Some(text) => Layout::parse(text).ok_or(UsageFault::BadLayout),
        None => Ok(Layout::default()),
    }
}

/// Returns the scope of a subtitle file: `--from` and `--to` limit the frames at which subtitles
/// may start, `--open` accepts open subtitles.
///
/// # Errors
///
/// The only fault is `BadTime`.
pub fn scope_at<'a>(matches: &ArgMatches<'a>) -> Result<Scope, UsageFault>
    ensures { result ≡ scope_of (rows_of (found_of matches.now)) }
{
    let from = frame_at(matches, "from")?;
    let to = frame_at(matches, "to")?;
    Ok(Scope {
        takes_open: flag_at(matches, "open"),
        from: from.unwrap_or(0),
        to: to.unwrap_or(2_160_000),
    })
}

// Returns the frame of an option with a time, or `None` if the user left the option out. The fault
// is `BadTime`.
fn frame_at<'a>(matches: &ArgMatches<'a>, id: &str) -> Result<Option<u32>, UsageFault>
    ensures { result ≡ ok_or
        (parsed_if_present frame_of_text id.now (rows_of (found_of matches.now)))
        UsageFault.BadTime }
{
    match argument_at(matches, id) {
        Some(text) => Ok(Some(parse_time(text).ok_or(UsageFault::BadTime)?)),
        None => Ok(None),
    }
}

/// Returns the PID of `--pid`, which is required.
///
/// # Errors
///
/// The only fault is `Pid`.
pub fn pid_at<'a>(matches: &ArgMatches<'a>) -> Result<Pid, UsageFault>
    ensures { result ≡ required_pid_of (rows_of (found_of matches.now)) }
{
    parse_pid(text_at(matches, "pid")).ok_or(UsageFault::Pid)
}

/// Returns the packet size in the option `--packet-size`.
///
/// # Errors
///
/// The only fault is `PacketSize`.
pub fn packet_size_at<'a>(matches: &ArgMatches<'a>) -> Result<PacketSize, UsageFault>
    ensures { result ≡ packet_size_of (rows_of (found_of matches.now)) }
{
    parse_packet_size(text_at(matches, "packet-size")).ok_or(UsageFault::PacketSize)
}

// Returns the transport stream with the PID of `--pid` and the size of `--packet-size`, or `None`
// without `--pid`. The faults are `Pid` and `PacketSize`, in this order; an invalid packet size is
// a fault even without `--pid`.
fn stream_at<'a>(matches: &ArgMatches<'a>) -> Result<Option<TransportStream>, UsageFault>
    ensures { result ≡ stream_of (rows_of (found_of matches.now)) }
{
    let pid = match argument_at(matches, "pid") {
        Some(text) => Some(parse_pid(text).ok_or(UsageFault::Pid)?),
        None => None,
    };
    let packet_size = packet_size_at(matches)?;
    Ok(pid.map(|pid| TransportStream { pid, packet_size }))
}

/// Returns the options of a survey of these pages, from `--pid` and `--packet-size`.
///
/// # Errors
///
/// Returns the first fault of `Pid` and `PacketSize`.
pub fn survey_options_at<'a>(
    matches: &ArgMatches<'a>,
    pages: SurveyPages,
) -> Result<SurveyOptions, UsageFault>
    ensures { result ≡ survey_options_of pages (rows_of (found_of matches.now)) }
{
    let pid = match argument_at(matches, "pid") {
        Some(text) => Some(parse_pid(text).ok_or(UsageFault::Pid)?),
        None => None,
    };
    let packet_size = match argument_at(matches, "packet-size") {
        Some(text) => Some(parse_packet_size(text).ok_or(UsageFault::PacketSize)?),
        None => None,
    };
    Ok(SurveyOptions {
        pages,
        pid,
        packet_size,
    })
}

// Returns the range of PES packets of `--pes`, or `None` without `--pes`. The fault is `Range`.
fn range_at<'a>(matches: &ArgMatches<'a>) -> Result<Option<PesPacketRange>, UsageFault>
    ensures { result ≡ range_of_arguments (rows_of (found_of matches.now)) }
{
    match argument_at(matches, "pes") {
        Some(text) => Ok(Some(parse_range(text).ok_or(UsageFault::Range)?)),
        None => Ok(None),
    }
}

/// Returns the PES packets to read: the file, `--pid`, `--packet-size` and `--pes`.
///
/// # Errors
///
/// Returns the first fault of `Pid`, `PacketSize` and `Range`.
// Callers of `pes_selection_at` match on the result, since the prover has no rule for `?` on a
// struct that contains a reference.
#[tactic(auto, unfolding(crate::specs::Arguments::pes_selection_of))]
pub fn pes_selection_at<'a>(matches: &ArgMatches<'a>) -> Result<PesSelection<'a>, UsageFault>
    ensures value { result_map_both pes_selection_value (λ fault. fault) result
        ≡ pes_selection_of (rows_of (found_of matches.now)) }
    ensures own { IfErr result (λ fault. is_found_after_clap fault ≡ true) }
{
    let stream = stream_at(matches)?;
    let range = range_at(matches)?;
    Ok(PesSelection {
        name: text_at(matches, "recording"),
        stream,
        range,
    })
}

/// Returns the items of an option with a list: an empty list if the user left the option out, or
/// `None` if the text is no valid list.
///
/// # Errors
///
/// The only fault is `Memory`.
pub fn list_at<'a, T: Item + Drop>(
    alloc: Global,
    matches: &ArgMatches<'a>,
    id: &str,
) -> Result<Option<Vec<T>>, UsageFault>
    ensures value { IfOk result (λ list. option_map (λ v. v.items) list
        ≡ parsed_list_of T.parsed T.same id.now (rows_of (found_of matches.now))) }
    ensures memory { IfErr result (λ fault. fault ≡ UsageFault.Memory) }
{
    match argument_at(matches, id) {
        Some(text) => parse_list(alloc, text).map_err(|_| UsageFault::Memory),
        None => Ok(Some(Vec::new(alloc))),
    }
}
