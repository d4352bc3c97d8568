//! Parsing arguments as requests.
use crate::asserting::{assert_same, assert_same_for_case};
use fixtures::options;
use mpeg_ts::{PacketSize, Pid};
use std::alloc::Global;
use std::process::Abort;
use std::test::Fail;
use stl_rows::National;
use sub_plan::Options;
use sub_request::{
    FileNames, Flip, Listening, PesSelection, ReceiverKind, Request, TransportStream,
};
use sub_words::ParseArguments;
use ttx_pes::PesPacketRange;

const NORMAL: [&str; 4] = ["subttx", "normal", "a", "b"];

const SCHEDULE: [&str; 4] = ["subttx", "schedule", "a", "b"];

#[test]
fn reads_the_arguments_of_files(rt: HostRuntime) {
    match Request::parse(rt.alloc(), &NORMAL) {
        Ok(Request::Normal { input, output }) => assert!(rt; input == "a" && output == "b"),
        _ => panic!(rt; "no normal form"),
    }
}

// Arguments that request help: a word for help, alone or with a command.
#[rattlefmt::skip]
const HELPS: [&[&str]; 9] = [
    &["subttx", "--help"],
    &["subttx", "-h"],
    &["subttx", "help"],
    &["subttx", "help", "packet"],
    &["subttx", "packet", "--help"],
    &["subttx", "check", "-h"],
    &["subttx", "survey", "-h"], // the last command of the table
    &["subttx", "-h", "extract"],
    &["subttx", "--help", "check"],
];

#[test]
fn reads_the_arguments_for_help(rt: HostRuntime) {
    for arguments in &HELPS {
        match Request::parse(rt.alloc(), *arguments) {
            Ok(Request::Help) => {}
            _ => panic!(rt; "no help"),
        }
    }
}

#[test]
fn reads_the_arguments_for_the_version(rt: HostRuntime) {
    for word in ["--version", "-V"] {
        match Request::parse(rt.alloc(), &["subttx", word]) {
            Ok(Request::Version) => {}
            _ => panic!(rt; "no version"),
        }
    }
}

// A file may have the name of a word for help.
#[test]
fn reads_the_name_of_a_file_after_two_dashes(rt: HostRuntime) {
    match Request::parse(rt.alloc(), &["subttx", "show", "--", "--help"]) {
        Ok(Request::Show { stl }) => assert!(rt; stl == "--help"),
        _ => panic!(rt; "no listing"),
    }
}

#[test]
fn reads_help_after_a_command_as_the_name_of_a_file(rt: HostRuntime) {
    match Request::parse(rt.alloc(), &["subttx", "show", "help"]) {
        Ok(Request::Show { stl }) => assert!(rt; stl == "help"),
        _ => panic!(rt; "no listing"),
    }
}

// Asserts that the arguments request a schedule of subtitle file `a`, written to file `b`, with
// these options.
fn assert_schedules<'a>(
    rt: &(impl Abort + Alloc<A = Global>),
    arguments: &'a [&'a str],
    want: &Options,
    is_serial: bool,
    option: National,
) {
    match Request::parse(rt.alloc(), arguments) {
        Ok(request) => assert_is_schedule(rt, &request, want, is_serial, option),
        Err(_) => panic!(rt; "no request"),
    }
}

fn assert_is_schedule(
    rt: &impl Abort,
    request: &Request<'_>,
    want: &Options,
    is_serial: bool,
    option: National,
) {
    match request {
        Request::Schedule {
            stl,
            pes,
            options,
            serial,
            national,
            ..
        } => {
            assert!(rt; *stl == "a" && *pes == "b" && *options == *want);
            assert!(rt; *serial == is_serial && *national == option);
            assert_writes(rt, request);
        }
        _ => panic!(rt; "no schedule"),
    }
}

#[rattlefmt::skip]
#[test]
fn reads_the_arguments_of_a_schedule(rt: HostRuntime) -> Result<(), Fail> {
    let defaults = options("888", 250, 0)?;
    assert_schedules(&rt, &SCHEDULE, &defaults, false, National::English);
    let arguments = [
        "subttx", "schedule", "a", "b", "--serial", "--page", "100", "--every", "25", "--origin",
        "1", "--option", "german",
    ];
    let given = options("100", 25, 1)?;
    assert_schedules(&rt, &arguments, &given, true, National::German);
    Ok(())
}

// Asserts that a request reads subtitle file `a` and writes file `b`.
fn assert_writes(rt: &impl Abort, request: &Request<'_>) {
    match request.files() {
        FileNames::Write(input, output) => assert!(rt; input.name() == "a" && output.name() == "b"),
        _ => panic!(rt; "no file is written"),
    }
}

// Asserts that the arguments request a check of files `a` and `b` with these flags.
fn assert_checks<'a>(
    rt: &(impl Abort + Alloc<A = Global>),
    arguments: &'a [&'a str],
    is_complete: bool,
    is_all: bool,
) {
    match Request::parse(rt.alloc(), arguments) {
        Ok(request) => assert_is_check(rt, &request, is_complete, is_all),
        Err(_) => panic!(rt; "no request"),
    }
}

fn assert_is_check(rt: &impl Abort, request: &Request<'_>, is_complete: bool, is_all: bool) {
    match request {
        Request::Check {
            stl,
            pes,
            options,
            all,
            ..
        } => {
            assert!(rt; *stl == "a" && pes.name == "b");
            assert!(rt; options.asks_complete() == is_complete && *all == is_all);
        }
        _ => panic!(rt; "no check"),
    }
}

#[test]
fn reads_the_flags_of_a_check(rt: HostRuntime) {
    assert_checks(&rt, &["subttx", "check", "a", "b"], false, false);
    assert_checks(
        &rt,
        &["subttx", "check", "a", "b", "--complete"],
        true,
        false,
    );
    assert_checks(&rt, &["subttx", "check", "a", "b", "--all"], false, true);
    let both = ["subttx", "check", "--all", "a", "b", "--complete"];
    assert_checks(&rt, &both, true, true);
}

// Returns the part of a subtitle file that the arguments select: whether open subtitles are
// included, and the range of frames in which subtitles start.
fn scope_of<'a>(alloc: Global, arguments: &'a [&'a str]) -> Option<(bool, u32, u32)> {
    match Request::parse(alloc, arguments) {
        Ok(Request::Check { scope, .. }) => Some((scope.takes_open, scope.from, scope.to)),
        Ok(Request::Schedule { scope, .. }) => Some((scope.takes_open, scope.from, scope.to)),
        _ => None,
    }
}

#[rattlefmt::skip]
#[test]
fn reads_what_of_a_subtitle_file_is_taken(rt: HostRuntime) {
    let check = ["subttx", "check", "a", "b"];
    assert_same(&rt, &scope_of(rt.alloc(), &check), &Some((false, 0, 2_160_000)));
    let from = ["subttx", "check", "a", "b", "--from", "10:00:00:00"];
    assert_same(&rt, &scope_of(rt.alloc(), &from), &Some((false, 900_000, 2_160_000)));
    let part = [
        "subttx", "schedule", "a", "b", "--to", "10:00:00:01", "--open", "--from", "00:00:00:01",
    ];
    assert_same(&rt, &scope_of(rt.alloc(), &part), &Some((true, 1, 900_001)));
}

// Returns the value of `within` in a request's options.
fn allowed_frames(request: &Request<'_>) -> Option<u64> {
    match request {
        Request::Check { options, .. } => Some(options.within()),
        Request::Listen { listening, .. } => Some(listening.options.within()),
        _ => None,
    }
}

// Asserts the value of `within` in the requested options.
fn assert_allows<'a>(rt: &(impl Abort + Alloc<A = Global>), arguments: &'a [&'a str], frames: u64) {
    match Request::parse(rt.alloc(), arguments) {
        Ok(request) => assert_same(rt, &allowed_frames(&request), &Some(frames)),
        Err(_) => panic!(rt; "no request"),
    }
}

#[rattlefmt::skip]
#[test]
fn reads_the_frames_that_are_allowed(rt: HostRuntime) {
    assert_allows(&rt, &["subttx", "check", "a", "b"], 0);
    assert_allows(&rt, &["subttx", "check", "a", "b", "--within", "0"], 0);
    assert_allows(&rt, &["subttx", "check", "--within=50", "a", "b", "--complete"], 50);
    assert_allows(&rt, &["subttx", "check", "a", "b", "--within", "0000000007"], 7);
    let at = "10:00:00:10";
    assert_allows(&rt, &["subttx", "listen", "a", "--at", at], 0);
    assert_allows(&rt, &["subttx", "listen", "a", "--within", "1", "--at", at], 1);
}

// Returns the repeat bound and the maximum distance of PES packets, in frames, of a requested
// check.
fn range_bounds(request: &Request<'_>) -> Option<(u64, Option<u64>)> {
    match request {
        Request::Check { options, .. } => Some((options.every(), options.pace())),
        _ => None,
    }
}

// Asserts the repeat bound and the maximum distance of PES packets, in frames, that the arguments
// request.
fn assert_bounds<'a>(
    rt: &(impl Abort + Alloc<A = Global>),
    arguments: &'a [&'a str],
    want: (u64, Option<u64>),
) {
    match Request::parse(rt.alloc(), arguments) {
        Ok(request) => assert_same(rt, &range_bounds(&request), &Some(want)),
        Err(_) => panic!(rt; "no request"),
    }
}

#[rattlefmt::skip]
#[test]
fn reads_a_pace(rt: HostRuntime) {
    assert_bounds(&rt, &["subttx", "check", "a", "b"], (250, None));
    assert_bounds(&rt, &["subttx", "check", "a", "b", "--pace", "1"], (250, Some(1)));
    let day = ["subttx", "check", "--pace=2160000", "a", "b", "--every", "2160000"];
    assert_bounds(&rt, &day, (2_160_000, Some(2_160_000)));
}

// Returns whether the options of a requested check allow headers that do not erase the page.
fn keeps(request: &Request<'_>) -> Option<bool> {
    match request {
        Request::Check { options, .. } => Some(options.may_keep()),
        _ => None,
    }
}

// Asserts whether the arguments allow headers that do not erase the page.
fn assert_keeps<'a>(rt: &(impl Abort + Alloc<A = Global>), arguments: &'a [&'a str], want: bool) {
    match Request::parse(rt.alloc(), arguments) {
        Ok(request) => assert_same(rt, &keeps(&request), &Some(want)),
        Err(_) => panic!(rt; "no request"),
    }
}

#[rattlefmt::skip]
#[test]
fn reads_whether_repeats_may_keep(rt: HostRuntime) {
    assert_keeps(&rt, &["subttx", "check", "a", "b"], false);
    assert_keeps(&rt, &["subttx", "check", "a", "b", "--complete", "--within", "2"], false);
    assert_keeps(&rt, &["subttx", "check", "--keeping", "a", "b"], true);
    let all = ["subttx", "check", "a", "b", "--complete", "--keeping", "--pace", "5", "--all"];
    assert_keeps(&rt, &all, true);
}

// Asserts that the arguments request `listen` for file `a`, with this page, PTS of frame 0, last
// frame and number of skipped packets, and with these bit flips and lost packets.
fn assert_listens<'a>(
    rt: &(impl Abort + Alloc<A = Global>),
    arguments: &'a [&'a str],
    want: &Options,
    (at, skip): (u32, u64),
    flips: &[Flip],
    lost: &[u64],
    receiver: ReceiverKind,
) {
    match Request::parse(rt.alloc(), arguments) {
        Ok(request) => match &request {
            Request::Listen { pes, listening } => {
                assert!(rt; pes.name == "a" && listening.receiver == receiver);
                assert_file_calls(rt, listening, want, at, skip);
                assert!(rt; listening.flips.as_slice() == flips);
                assert!(rt; listening.lost.as_slice() == lost);
            }
            _ => panic!(rt; "no listening"),
        },
        Err(_) => panic!(rt; "no request"),
    }
}

// Asserts the page, the PTS of frame 0, the last frame and the number of skipped packets of a
// requested `listen`.
fn assert_file_calls(rt: &impl Abort, listening: &Listening, want: &Options, at: u32, skip: u64) {
    assert!(rt; listening.options.page() == want.page());
    assert!(rt; listening.options.origin() == want.origin());
    assert!(rt; listening.at == at && listening.skip == skip);
}

// The bit flips of `--flip 1:21:1,02:0:8`.
#[rattlefmt::skip]
const FLIPS: [Flip; 2] = [
    Flip { packet: 1, byte: 21, bit: 1 },
    Flip { packet: 2, byte: 0, bit: 8 },
];

#[test]
fn reads_the_arguments_of_a_receiver_by_default(rt: HostRuntime) -> Result<(), Fail> {
    let arguments = ["subttx", "listen", "a", "--at", "10:00:00:10"];
    let defaults = options("888", 250, 0)?;
    assert_listens(
        &rt,
        &arguments,
        &defaults,
        (900_010, 0),
        &[],
        &[],
        ReceiverKind::Blank,
    );
    Ok(())
}

#[rattlefmt::skip]
#[test]
fn reads_the_arguments_of_a_receiver(rt: HostRuntime) -> Result<(), Fail> {
    let arguments = [
        "subttx", "listen", "a", "--page", "100", "--origin", "1", "--at", "23:59:59:24",
        "--skip", "07", "--flip", "1:21:1,02:0:8", "--lose", "3,4", "--receiver", "keep",
    ];
    let given = options("100", 250, 1)?;
    assert_listens(&rt, &arguments, &given, (2_159_999, 7), &FLIPS, &[3, 4], ReceiverKind::Keep);
    Ok(())
}

#[test]
fn names_what_is_read_and_what_is_written(rt: HostRuntime) {
    let normal = Request::Normal {
        input: "a",
        output: "b",
    };
    assert_writes(&rt, &normal);
    match (Request::Show { stl: "a" }).files() {
        FileNames::ReadStl(input) => assert_same(&rt, &input.name(), &"a"),
        _ => panic!(rt; "no file is read"),
    }
}

// Returns the PES packets that a request selects.
fn read_by<'r, 'a>(request: &'r Request<'a>) -> Option<&'r PesSelection<'a>> {
    match request {
        Request::Packets { pes } => Some(pes),
        Request::Check { pes, .. } => Some(pes),
        Request::Listen { pes, .. } => Some(pes),
        _ => None,
    }
}

// Asserts the PES packets of file `b` that the arguments select.
fn assert_reads<'a>(
    rt: &(impl Abort + Alloc<A = Global>),
    arguments: &'a [&'a str],
    stream: &Option<TransportStream>,
    range: &Option<PesPacketRange>,
) {
    let Ok(request) = Request::parse(rt.alloc(), arguments) else {
        return panic!(rt; "{arguments:?} is no request");
    };
    match read_by(&request) {
        Some(pes) => {
            assert_same(rt, &pes.name, &"b");
            assert_same_for_case(rt, &pes.stream, stream, &arguments);
            assert_same_for_case(rt, &pes.range, range, &arguments);
        }
        None => panic!(rt; "{arguments:?} reads no PES packets"),
    }
}

// Returns the transport stream with this PID and packet size.
fn stream_of(number: u16, packet_size: PacketSize) -> Option<TransportStream> {
    match Pid::new(number) {
        Some(pid) => Some(TransportStream { pid, packet_size }),
        None => None,
    }
}

#[rattlefmt::skip]
#[test]
fn reads_which_pes_packets_are_read(rt: HostRuntime) {
    let all = None;
    assert_reads(&rt, &["subttx", "packets", "b"], &None, &all);
    assert_reads(&rt, &["subttx", "check", "a", "b"], &None, &all);
    assert_reads(&rt, &["subttx", "listen", "b", "--at", "10:00:00:10"], &None, &all);
    // A range from the second PES packet on, and ranges between two PES packets.
    let range_from_2 = PesPacketRange::new(2, None);
    assert_reads(&rt, &["subttx", "packets", "b", "--pes", "2-"], &None, &range_from_2);
    let some = PesPacketRange::new(0, Some(1));
    assert_reads(&rt, &["subttx", "check", "--pes=0-1", "a", "b"], &None, &some);
    let one = PesPacketRange::new(3, Some(3));
    let at = "10:00:00:10";
    assert_reads(&rt, &["subttx", "listen", "b", "--pes", "3-3", "--at", at], &None, &one);
}

#[rattlefmt::skip]
#[test]
fn reads_of_which_transport_packets(rt: HostRuntime) {
    let all = None;
    let plain = stream_of(257, PacketSize::Plain);
    assert_reads(&rt, &["subttx", "packets", "b", "--pid", "257"], &plain, &all);
    assert_reads(&rt, &["subttx", "check", "a", "b", "--pid", "0x101"], &plain, &all);
    let at = "10:00:00:10";
    assert_reads(&rt, &["subttx", "listen", "--pid=257", "b", "--at", at], &plain, &all);
    let given = ["subttx", "packets", "b", "--packet-size", "188", "--pid", "257"];
    assert_reads(&rt, &given, &plain, &all);
    let stamped = stream_of(4353, PacketSize::TimeStamped);
    let given = ["subttx", "check", "a", "b", "--packet-size=192", "--pid", "0x1101"];
    assert_reads(&rt, &given, &stamped, &all);
    let corrected = stream_of(8190, PacketSize::ErrorCorrected);
    let given = [
        "subttx", "listen", "b", "--pid", "8190", "--packet-size", "204", "--pes", "7-", "--at", at,
    ];
    assert_reads(&rt, &given, &corrected, &PesPacketRange::new(7, None));
    // The packet size is ignored without a PID.
    assert_reads(&rt, &["subttx", "packets", "b", "--packet-size", "192"], &None, &all);
}

// Asserts that the arguments request to write the PES packets of file `a` to file `b`.
fn assert_extracts<'a>(
    rt: &(impl Abort + Alloc<A = Global>),
    arguments: &'a [&'a str],
    want: &Option<TransportStream>,
) {
    let Ok(request) = Request::parse(rt.alloc(), arguments) else {
        return panic!(rt; "{arguments:?} is no request");
    };
    match &request {
        Request::Extract {
            recording,
            pes,
            stream,
        } => {
            assert!(rt; *recording == "a" && *pes == "b");
            assert_same(rt, &Some(*stream), want);
            assert_writes_pes(rt, &request);
        }
        _ => panic!(rt; "{arguments:?} extracts nothing"),
    }
}

// Asserts that a request reads recording `a` and writes file `b`.
fn assert_writes_pes(rt: &impl Abort, request: &Request<'_>) {
    match request.files() {
        FileNames::Extract(input, output) => {
            assert!(rt; input.name() == "a" && output.name() == "b");
        }
        _ => panic!(rt; "no file is written"),
    }
}

#[rattlefmt::skip]
#[test]
fn reads_the_arguments_that_extract(rt: HostRuntime) {
    let plain = stream_of(257, PacketSize::Plain);
    assert_extracts(&rt, &["subttx", "extract", "a", "b", "--pid", "257"], &plain);
    let stamped = stream_of(4353, PacketSize::TimeStamped);
    let given = ["subttx", "extract", "--pid=0x1101", "--packet-size=192", "a", "b"];
    assert_extracts(&rt, &given, &stamped);
}
