//! Reads the arguments of each command as a request.
ghost use Rattle.clap.specs.Words.{found_of, rows_of};
ghost use Rattle.sub_words.specs.Requests.{IsReadExactly, IsReadGivenMemory, command_request};
ghost use Rattle.sub_words.specs.Requests.{check_request};
ghost use Rattle.sub_words.specs.Requests.{extract_request, listen_request, normal_request};
ghost use Rattle.sub_words.specs.Requests.{packet_request};
ghost use Rattle.sub_words.specs.Requests.{packets_request, schedule_request, survey_request};

use crate::arguments::{
    flag_at, layout_at, list_at, options_at, pacing_at, packet_size_at, pes_selection_at, pid_at,
    scope_at, survey_options_at, text_at, with_keeping_flag, with_within_option,
};
use crate::numbers::parse_number;
use crate::pages::survey_pages_at;
use crate::times::{parse_receiver, parse_time};
use clap::ArgMatches;
use std::alloc::Global;
use stl_rows::National;
use sub_request::{Listening, Request, TransportStream, UsageFault};

/// Reads the arguments of the command `name` as a request.
///
/// # Errors
///
/// Returns the first fault of the arguments by the program's own rules, or `Memory` if memory runs
/// out before the request or the fault is known: only the lists of `listen` and the pages of
/// `survey` need memory.
#[tactic(auto, using(crate::proofs::CommandLemmas::exact_reading_holds_with_memory))]
pub fn read_command<'a>(
    alloc: Global,
    name: &str,
    matches: &ArgMatches<'a>,
) -> Result<Request<'a>, UsageFault>
    ensures { IsReadGivenMemory (command_request name.now (rows_of (found_of matches.now))) result }
{
    match name {
        "packet" => read_packet(matches),
        "packets" => read_packets(matches),
        "show" => Ok(Request::Show {
            stl: text_at(matches, "stl"),
        }),
        "normal" => read_normal(matches),
        "schedule" => read_schedule(matches),
        "check" => read_check(matches),
        "listen" => read_listen(alloc, matches),
        "extract" => read_extract(matches),
        _ => read_survey(alloc, matches),
    }
}

// Reads the arguments of `packet HEX`.
fn read_packet<'a>(matches: &ArgMatches<'a>) -> Result<Request<'a>, UsageFault>
    ensures { IsReadExactly (packet_request (rows_of (found_of matches.now))) result }
{
    let mut bytes = [0u8; 42];
    match hex::decode_to_slice(text_at(matches, "hex"), &mut bytes) {
        Ok(()) => Ok(Request::Packet { bytes }),
        Err(_) => Err(UsageFault::BadHex),
    }
}

// Reads the arguments of `packets PES [--pid P] [--packet-size S] [--pes I-J]`.
fn read_packets<'a>(matches: &ArgMatches<'a>) -> Result<Request<'a>, UsageFault>
    ensures { IsReadExactly (packets_request (rows_of (found_of matches.now))) result }
{
    match pes_selection_at(matches) {
        Ok(pes) => Ok(Request::Packets { pes }),
        Err(fault) => Err(fault),
    }
}

// Reads the arguments of `normal IN OUT`.
fn read_normal<'a>(matches: &ArgMatches<'a>) -> Result<Request<'a>, UsageFault>
    ensures { IsReadExactly (normal_request (rows_of (found_of matches.now))) result }
{
    let input = text_at(matches, "in");
    let output = text_at(matches, "out");
    if input == output {
        return Err(UsageFault::SameFile);
    }
    Ok(Request::Normal { input, output })
}

// Reads the arguments of `schedule STL PES [--page P] [--every N] [--origin T] [--option O]
// [--serial] [--layout TEXT] [--from TIME] [--to TIME] [--open]`.
fn read_schedule<'a>(matches: &ArgMatches<'a>) -> Result<Request<'a>, UsageFault>
    ensures { IsReadExactly (schedule_request (rows_of (found_of matches.now))) result }
{
    let stl = text_at(matches, "stl");
    let pes = text_at(matches, "pes");
    if stl == pes {
        return Err(UsageFault::SameFile);
    }
    let options = options_at(matches, parse_number(text_at(matches, "every")))?;
    let Some(national) = National::parse(text_at(matches, "option")) else {
        return Err(UsageFault::BadOption);
    };
    let layout = layout_at(matches)?;
    let scope = scope_at(matches)?;
    Ok(Request::Schedule {
        stl,
        pes,
        options,
        serial: flag_at(matches, "serial"),
        national,
        layout,
        scope,
    })
}

// Reads the arguments of `check STL PES [--page P] [--every N] [--origin T] [--option O] [--within
// N] [--pid P] [--packet-size S] [--pes I-J] [--layout TEXT] [--pace K] [--from TIME] [--to TIME]
// [--open] [--keeping] [--complete] [--all]`.
fn read_check<'a>(matches: &ArgMatches<'a>) -> Result<Request<'a>, UsageFault>
    ensures { IsReadExactly (check_request (rows_of (found_of matches.now))) result }
{
    let plain = options_at(matches, parse_number(text_at(matches, "every")))?;
    let Some(national) = National::parse(text_at(matches, "option")) else {
        return Err(UsageFault::BadOption);
    };
    let allowing = with_within_option(matches, plain)?;
    let pes = match pes_selection_at(matches) {
        Ok(pes) => pes,
        Err(fault) => return Err(fault),
    };
    let layout = layout_at(matches)?;
    let pacing = pacing_at(matches, allowing)?;
    let scope = scope_at(matches)?;
    Ok(Request::Check {
        stl: text_at(matches, "stl"),
        pes,
        options: with_keeping_flag(matches, pacing),
        national,
        layout,
        scope,
        all: flag_at(matches, "all"),
    })
}

// Reads the arguments of `listen PES [--page P] [--origin T] [--within N] [--complete] [--pid P]
// [--packet-size S] [--pes I-J] --at TIME [--skip N] [--flip F] [--lose L] [--receiver R]`.
fn read_listen<'a>(alloc: Global, matches: &ArgMatches<'a>) -> Result<Request<'a>, UsageFault>
    ensures { IsReadGivenMemory (listen_request (rows_of (found_of matches.now))) result }
{
    // `listen` does not use the repeat bound, so any valid repeat bound is enough.
    let plain = options_at(matches, Some(1))?;
    let options = with_within_option(matches, plain)?;
    let pes = match pes_selection_at(matches) {
        Ok(pes) => pes,
        Err(fault) => return Err(fault),
    };
    let Some(at) = parse_time(text_at(matches, "at")) else {
        return Err(UsageFault::BadTime);
    };
    let Some(skip) = parse_number(text_at(matches, "skip")) else {
        return Err(UsageFault::BadSkip);
    };
    let Some(flips) = list_at(alloc, matches, "flip")? else {
        return Err(UsageFault::BadFlip);
    };
    let Some(lost) = list_at(alloc, matches, "lose")? else {
        return Err(UsageFault::BadLose);
    };
    let Some(receiver) = parse_receiver(text_at(matches, "receiver")) else {
        return Err(UsageFault::BadReceiver);
    };
    let listening = Listening {
        options,
        at,
        skip,
        flips,
        lost,
        receiver,
    };
    Ok(Request::Listen { pes, listening })
}

// Reads the arguments of `extract TS PES --pid P [--packet-size S]`.
fn read_extract<'a>(matches: &ArgMatches<'a>) -> Result<Request<'a>, UsageFault>
    ensures { IsReadExactly (extract_request (rows_of (found_of matches.now))) result }
{
    let recording = text_at(matches, "recording");
    let pes = text_at(matches, "pes");
    if recording == pes {
        return Err(UsageFault::SameFile);
    }
    let pid = pid_at(matches)?;
    let packet_size = packet_size_at(matches)?;
    Ok(Request::Extract {
        recording,
        pes,
        stream: TransportStream { pid, packet_size },
    })
}

// Reads the arguments of `survey RECORDING [--page P].. [--pid P] [--packet-size S]`.
fn read_survey<'a>(alloc: Global, matches: &ArgMatches<'a>) -> Result<Request<'a>, UsageFault>
    ensures { IsReadGivenMemory (survey_request (rows_of (found_of matches.now))) result }
{
    let Some(pages) = survey_pages_at(alloc, matches)? else {
        return Err(UsageFault::BadPage);
    };
    let options = survey_options_at(matches, pages)?;
    Ok(Request::Survey {
        recording: text_at(matches, "recording"),
        options,
    })
}
