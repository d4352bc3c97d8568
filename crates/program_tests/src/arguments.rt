//! Invalid arguments, which are reported before any file is read.
use crate::answers::{assert_fills, assert_reports};
use std::alloc::Global;
use std::process::Abort;
use sub_request::Request;
use sub_words::ParseArguments;

// Asserts the line for invalid arguments.
fn assert_refuses<'a>(rt: &(impl Abort + Alloc<A = Global>), arguments: &'a [&'a str], want: &str) {
    assert_reports(rt, arguments, &[], &[], want);
}

#[test]
fn prints_the_line_of_refused_arguments_into_any_output(rt: HostRuntime) {
    let none: (&[u8], &[u8]) = (&[], &[]);
    assert_fills(&rt, &["subttx"], none, &[], b"usage 0 Words\n");
    assert_fills(
        &rt,
        &["subttx", "packet", "15"],
        none,
        &[],
        b"usage 2 BadHex\n",
    );
    let same = ["subttx", "normal", "a", "a"];
    assert_fills(&rt, &same, none, &[], b"usage 7 SameFile\n");
}

// Arguments without a valid command.
#[rattlefmt::skip]
const WRONG_ARGUMENTS: [&[&str]; 65] = [
    &[], // not even the program's name
    &["subttx"],
    &["subttx", "help", "packet", "15"],
    &["subttx", "help", "--help", "me"],
    &["subttx", "help", "Packet"],
    &["subttx", "help", "help"],
    &["subttx", "--help", "-h"],
    // Status 0 of a check is a verdict, so a check has no argument for help.
    &["subttx", "check", "a.stl", "b.pes", "-h"],
    &["subttx", "check", "a.stl", "b.pes", "--help"],
    &["subttx", "check", "a.stl", "b.pes", "--page", "-h"],
    &["subttx", "check", "a.stl", "-h"],
    &["subttx", "-h", "check", "a.stl", "b.pes"],
    &["subttx", "--version", "check"],
    &["subttx", "-V", "--help"],
    &["subttx", "packet", "--version"],
    &["subttx", "packet"],
    &["subttx", "packet", "--", "--help", "15"],
    &["subttx", "packet", "15", "15"],
    &["subttx", "packet", "--hex", "15"],
    &["subttx", "Packet", "15"],
    &["subttx", "check", "a.stl"],
    &["subttx", "check", "a.stl", "b.pes", "c.pes"],
    &["subttx", "check", "a.stl", "b.pes", "--serial"],
    &["subttx", "check", "a.stl", "b.pes", "--page"],
    &["subttx", "check", "a.stl", "b.pes", "--pages", "888"],
    &["subttx", "schedule", "a.stl", "b.pes", "--serial=true"],
    &["subttx", "normal", "a.stl"],
    &["subttx", "normal", "a.stl", "b.stl", "--page", "888"],
    &["subttx", "listen", "b.pes"], // `--at` has no default
    &["subttx", "listen", "--at", "10:00:00:10"],
    &["subttx", "listen", "b.pes", "--at", "10:00:00:10", "--every", "25"],
    &["subttx", "--page", "888", "check", "a.stl", "b.pes"],
    // A flag has no value, may occur once, and is valid for some commands only.
    &["subttx", "check", "a", "b", "--complete=yes"],
    &["subttx", "check", "a", "b", "--complete", "--complete"],
    &["subttx", "listen", "a", "--at", "10:00:00:10", "--complete=yes"],
    &["subttx", "schedule", "a", "b", "--complete"],
    &["subttx", "packets", "a", "--complete"],
    &["subttx", "check", "a", "b", "--all=yes"],
    &["subttx", "check", "a", "b", "--all", "--all"],
    &["subttx", "schedule", "a", "b", "--all"],
    &["subttx", "listen", "a", "--at", "10:00:00:10", "--all"],
    &["subttx", "check", "a", "b", "--keeping=yes"],
    &["subttx", "check", "a", "b", "--keeping", "--keeping"],
    &["subttx", "schedule", "a", "b", "--keeping"],
    &["subttx", "listen", "a", "--at", "10:00:00:10", "--keeping"],
    // The option `--within` has a value, may occur once, and is valid for a check or a receiver.
    &["subttx", "check", "a", "b", "--within"],
    &["subttx", "check", "a", "b", "--within", "1", "--within", "2"],
    &["subttx", "listen", "a", "--at", "10:00:00:10", "--within=1", "--within=1"],
    &["subttx", "schedule", "a", "b", "--within", "1"],
    &["subttx", "packets", "a", "--within", "1"],
    // The options for TS packets and ranges are valid for commands that read PES packets. Each has
    // a value, and may occur once.
    &["subttx", "packets", "a", "--pid"],
    &["subttx", "packets", "a", "--pes"],
    &["subttx", "check", "a", "b", "--pid", "1", "--pid", "1"],
    &["subttx", "check", "a", "b", "--pes", "0-1", "--pes", "0-1"],
    &["subttx", "listen", "a", "--at", "10:00:00:10", "--packet-size=188", "--packet-size=188"],
    &["subttx", "show", "a", "--pid", "257"],
    &["subttx", "normal", "a", "b", "--pid", "257"],
    &["subttx", "schedule", "a", "b", "--pid", "257"],
    &["subttx", "schedule", "a", "b", "--packet-size", "188"],
    &["subttx", "schedule", "a", "b", "--pes", "0-1"],
    // The command `extract` requires a PID, and has no range of PES packets.
    &["subttx", "extract", "a", "b"],
    &["subttx", "extract", "a", "--pid", "257"],
    &["subttx", "extract", "a", "b", "c", "--pid", "257"],
    &["subttx", "extract", "a", "b", "--pid", "257", "--pes", "0-1"],
    &["subttx", "extract", "a", "b", "--pid", "257", "--page", "888"],
];

#[test]
fn refuses_arguments_that_are_no_command(rt: HostRuntime) {
    for arguments in &WRONG_ARGUMENTS {
        assert_refuses(&rt, *arguments, "usage 0 Words\n");
    }
}

#[test]
fn refuses_digits_that_are_no_packet(rt: HostRuntime) {
    let digits = [
        "",
        "15",
        // A packet of 83 digits.
        "1515d0d015d015d00215202020202020202020202020202020202020202020202020202020202020202",
        // A packet of 85 digits.
        "1515d0d015d015d0021520202020202020202020202020202020202020202020202020202020202020200",
        // A packet of 86 digits.
        "1515d0d015d015d00215202020202020202020202020202020202020202020202020202020202020202020",
        // Packets of 84 characters, one of which is not a digit.
        "1515d0d015d015d0021520202020202020202020202020202020202020202020202020202020202020 0",
        "g515d0d015d015d002152020202020202020202020202020202020202020202020202020202020202020",
    ];
    for hex in digits {
        assert_refuses(&rt, &["subttx", "packet", hex], "usage 2 BadHex\n");
    }
}

// The arguments of a schedule, in the order in which their faults are reported, and the expected
// line.
#[rattlefmt::skip]
const SCHEDULES: [[&str; 5]; 18] = [
    // The columns of the table: page, every, origin, option, line.
    ["8FF", "0", "x", "danish", "usage 1 BadPage\n"],
    ["088", "250", "0", "english", "usage 1 BadPage\n"],
    ["", "250", "0", "english", "usage 1 BadPage\n"],
    ["888", "0", "x", "danish", "usage 80 Every\n"],
    ["888", "x", "8589934592", "english", "usage 80 Every\n"],
    ["888", "2160001", "0", "english", "usage 80 Every\n"],
    ["888", "00000000001", "0", "english", "usage 80 Every\n"], // eleven digits
    ["888", "+1", "0", "english", "usage 80 Every\n"],
    ["888", "", "0", "english", "usage 80 Every\n"],
    ["888", "2160000", "8589934592", "danish", "usage 81 Origin\n"],
    ["888", "1", "x", "german", "usage 81 Origin\n"],
    ["888", "1", "99999999990", "german", "usage 81 Origin\n"],
    ["888", "1", "8589934591", "danish", "usage 83 BadOption\n"],
    ["888", "1", "0", "English", "usage 83 BadOption\n"],
    ["888", "1", "0", "French", "usage 83 BadOption\n"],
    ["888", "1", "0", "fr", "usage 83 BadOption\n"],
    ["888", "1", "0", "portuguese", "usage 83 BadOption\n"],
    ["888", "1", "0", "", "usage 83 BadOption\n"],
];

// Asserts the line of a schedule with these arguments, and of a check with the same options before
// the files.
#[rattlefmt::skip]
fn assert_refuses_row(rt: &(impl Abort + Alloc<A = Global>), row: &[&str; 5]) {
    let arguments = [
        "subttx", "schedule", "a", "b", "--page", row[0], "--every", row[1], "--origin", row[2],
        "--option", row[3],
    ];
    assert_refuses(rt, &arguments, row[4]);
    let arguments = [
        "subttx", "check", "--option", row[3], "--origin", row[2], "--every", row[1], "--page",
        row[0], "a", "b",
    ];
    assert_refuses(rt, &arguments, row[4]);
}

#[rattlefmt::skip]
#[test]
fn reports_the_first_fault_of_a_schedule(rt: HostRuntime) {
    for row in &SCHEDULES {
        assert_refuses_row(&rt, row);
    }
    // A schedule must not overwrite the file that it reads. A check may name the same file twice.
    let options = [
        "subttx", "schedule", "a", "a", "--page", "8FF", "--every", "0", "--origin", "x",
        "--option", "danish",
    ];
    assert_refuses(&rt, &options, "usage 7 SameFile\n");
    let options = [
        "subttx", "check", "--option", "danish", "--origin", "x", "--every", "0", "--page", "8FF",
        "a", "a",
    ];
    assert_refuses(&rt, &options, "usage 1 BadPage\n");
    assert_refuses(&rt, &["subttx", "normal", "a", "a"], "usage 7 SameFile\n");
}

// The arguments of a check and of a receiver, including `--within`, and the lines of both commands.
#[rattlefmt::skip]
const WITHINS: [[&str; 6]; 14] = [
    // The columns of the table: option, within, origin, time, line of the check, line of the
    // receiver.
    ["danish", "x", "x", "x", "usage 81 Origin\n", "usage 81 Origin\n"],
    ["danish", "51", "0", "x", "usage 83 BadOption\n", "usage 85 Within\n"],
    ["english", "51", "0", "x", "usage 85 Within\n", "usage 85 Within\n"],
    ["english", "x", "0", "x", "usage 85 Within\n", "usage 85 Within\n"],
    ["english", "", "0", "x", "usage 85 Within\n", "usage 85 Within\n"],
    ["english", "+1", "0", "x", "usage 85 Within\n", "usage 85 Within\n"],
    ["english", " 1", "0", "x", "usage 85 Within\n", "usage 85 Within\n"],
    ["english", "1.0", "0", "x", "usage 85 Within\n", "usage 85 Within\n"],
    ["english", "00000000001", "0", "x", "usage 85 Within\n", "usage 85 Within\n"],
    ["english", "9999999999", "0", "x", "usage 85 Within\n", "usage 85 Within\n"],
    ["english", "4294967297", "0", "x", "usage 85 Within\n", "usage 85 Within\n"],
    ["english", "0", "x", "x", "usage 81 Origin\n", "usage 81 Origin\n"],
    ["danish", "50", "0", "x", "usage 83 BadOption\n", "usage 6 BadTime\n"],
    ["danish", "0000000050", "0", "x", "usage 83 BadOption\n", "usage 6 BadTime\n"],
];

// Asserts the lines of a check and of a receiver for a row of `WITHINS`.
#[rattlefmt::skip]
fn assert_refuses_within(rt: &(impl Abort + Alloc<A = Global>), row: &[&str; 6]) {
    let arguments = [
        "subttx", "check", "a", "b", "--within", row[1], "--option", row[0], "--origin", row[2],
    ];
    assert_refuses(rt, &arguments, row[4]);
    let arguments = [
        "subttx", "listen", "a", "--at", row[3], "--within", row[1], "--origin", row[2],
        "--skip", "x",
    ];
    assert_refuses(rt, &arguments, row[5]);
}

#[test]
fn refuses_frames_that_are_not_allowed(rt: HostRuntime) {
    for row in &WITHINS {
        assert_refuses_within(&rt, row);
    }
}

// The options for PES packets, in the order in which their faults are reported, and the expected
// line.
#[rattlefmt::skip]
const PES_PACKETS: [[&str; 4]; 20] = [
    // The columns of the table: PID, packet size, range, line.
    ["8191", "190", "2-1", "usage 86 Pid\n"],
    ["8191", "188", "0-1", "usage 86 Pid\n"],
    ["x", "188", "0-1", "usage 86 Pid\n"],
    ["0x", "188", "0-1", "usage 86 Pid\n"],
    ["0X101", "188", "0-1", "usage 86 Pid\n"],
    ["0x000000101", "188", "0-1", "usage 86 Pid\n"],
    ["0x1fff", "188", "0-1", "usage 86 Pid\n"],
    ["00000000257", "188", "0-1", "usage 86 Pid\n"],
    ["", "188", "0-1", "usage 86 Pid\n"],
    ["257", "190", "2-1", "usage 87 PacketSize\n"],
    ["257", "190", "0-1", "usage 87 PacketSize\n"],
    ["8190", "0188", "0-1", "usage 87 PacketSize\n"],
    ["0", "", "0-1", "usage 87 PacketSize\n"],
    ["257", "188", "2-1", "usage 88 Range\n"],
    ["257", "188", "1", "usage 88 Range\n"],
    ["257", "188", "a-b", "usage 88 Range\n"],
    ["0x1FFE", "192", "", "usage 88 Range\n"],
    ["0x1101", "204", "1-2-3", "usage 88 Range\n"],
    ["257", "188", "00000000001-", "usage 88 Range\n"],
    ["257", "188", "0-+1", "usage 88 Range\n"],
];

// Asserts the line of each command that reads PES packets for a row of `PES_PACKETS`.
#[rattlefmt::skip]
fn assert_refuses_pes(rt: &(impl Abort + Alloc<A = Global>), row: &[&str; 4]) {
    let arguments = [
        "subttx", "packets", "a", "--pes", row[2], "--packet-size", row[1], "--pid", row[0],
    ];
    assert_refuses(rt, &arguments, row[3]);
    let arguments = [
        "subttx", "check", "--pid", row[0], "--packet-size", row[1], "--pes", row[2], "a", "b",
    ];
    assert_refuses(rt, &arguments, row[3]);
    let arguments = [
        "subttx", "listen", "a", "--at", "x", "--skip", "x", "--pid", row[0], "--pes", row[2],
        "--packet-size", row[1],
    ];
    assert_refuses(rt, &arguments, row[3]);
}

#[test]
fn refuses_pes_packets_that_can_not_be_meant(rt: HostRuntime) {
    for row in &PES_PACKETS {
        assert_refuses_pes(&rt, row);
    }
}

// The range and the maximum distance of PES packets in a check, and the expected line.
#[rattlefmt::skip]
const PACES: [[&str; 3]; 7] = [
    // The columns of the table: range, pace, line.
    ["2-1", "0", "usage 88 Range\n"],
    ["0-1", "0", "usage 92 Pace\n"],
    ["0-1", "2160001", "usage 92 Pace\n"],
    ["0-1", "00000000001", "usage 92 Pace\n"], // eleven digits
    ["0-1", "", "usage 92 Pace\n"],
    ["0-1", "none", "usage 92 Pace\n"],
    ["0-1", "+1", "usage 92 Pace\n"],
];

#[test]
fn refuses_a_pace_that_is_no_number_of_frames_of_a_day(rt: HostRuntime) {
    for row in &PACES {
        let arguments = [
            "subttx", "check", "a", "b", "--pace", row[1], "--pes", row[0],
        ];
        assert_refuses(&rt, &arguments, row[2]);
    }
}

#[rattlefmt::skip]
#[test]
fn reports_faults_of_other_arguments_before_those_of_pes_packets(rt: HostRuntime) {
    assert_refuses(&rt, &["subttx", "extract", "a", "a", "--pid", "x"], "usage 7 SameFile\n");
    let sized = ["subttx", "extract", "a", "b", "--pid", "x", "--packet-size", "x"];
    assert_refuses(&rt, &sized, "usage 86 Pid\n");
    let sized = ["subttx", "extract", "a", "b", "--pid", "257", "--packet-size", "190"];
    assert_refuses(&rt, &sized, "usage 87 PacketSize\n");
    let within = ["subttx", "check", "a", "b", "--pid", "x", "--within", "51"];
    assert_refuses(&rt, &within, "usage 85 Within\n");
    let within = ["subttx", "listen", "a", "--at", "x", "--pid", "x", "--within", "51"];
    assert_refuses(&rt, &within, "usage 85 Within\n");
    let option = ["subttx", "check", "a", "b", "--pes", "x", "--option", "danish"];
    assert_refuses(&rt, &option, "usage 83 BadOption\n");
    let origin = ["subttx", "listen", "a", "--at", "x", "--packet-size", "x", "--origin", "x"];
    assert_refuses(&rt, &origin, "usage 81 Origin\n");
    // The packet size and the range are checked even without a PID.
    let sized = ["subttx", "check", "a", "b", "--packet-size", "190"];
    assert_refuses(&rt, &sized, "usage 87 PacketSize\n");
    assert_refuses(&rt, &["subttx", "packets", "a", "--pes", "1"], "usage 88 Range\n");
    // A check may name the same file twice, even as a recording.
    let same = ["subttx", "check", "a", "a", "--pid", "x"];
    assert_refuses(&rt, &same, "usage 86 Pid\n");
}

// The arguments of a receiver, in the order in which their faults are reported, and the expected
// line.
#[rattlefmt::skip]
const RECEIVERS: [[&str; 8]; 14] = [
    // The columns of the table: page, origin, time, skipped packets, flips, lost packets, receiver,
    // line.
    ["8FF", "x", "x", "x", "x", "x", "x", "usage 1 BadPage\n"],
    ["888", "8589934592", "x", "x", "x", "x", "x", "usage 81 Origin\n"],
    ["888", "0", "24:00:00:00", "x", "x", "x", "x", "usage 6 BadTime\n"],
    ["888", "0", "10:00:00:25", "0", "0:0:1", "0", "keep", "usage 6 BadTime\n"],
    ["888", "0", "1:00:00:10", "0", "0:0:1", "0", "keep", "usage 6 BadTime\n"],
    ["888", "0", "10:00:00:10", "x", "x", "x", "x", "usage 8 BadSkip\n"],
    ["888", "0", "10:00:00:10", "0", "1:21:1,1:21:2", "x", "x", "usage 5 BadFlip\n"],
    ["888", "0", "10:00:00:10", "0", "", "0", "keep", "usage 5 BadFlip\n"],
    ["888", "0", "10:00:00:10", "0", "0:42:1", "0", "keep", "usage 5 BadFlip\n"],
    ["888", "0", "10:00:00:10", "0", "0:0:0", "0", "keep", "usage 5 BadFlip\n"],
    ["888", "0", "10:00:00:10", "0", "0:41:8", "1,1", "x", "usage 84 BadLose\n"],
    ["888", "0", "10:00:00:10", "0", "0:41:8", "1,01", "keep", "usage 84 BadLose\n"],
    ["888", "0", "10:00:00:10", "0", "0:41:8", "", "keep", "usage 84 BadLose\n"],
    ["888", "0", "10:00:00:10", "0", "0:41:8", "1,2", "all", "usage 9 BadReceiver\n"],
];

// Asserts the line of `listen` for a row of `RECEIVERS`.
#[rattlefmt::skip]
fn assert_refuses_receiver(rt: &(impl Abort + Alloc<A = Global>), row: &[&str; 8]) {
    let arguments = [
        "subttx", "listen", "a", "--page", row[0], "--origin", row[1], "--at", row[2], "--skip",
        row[3], "--flip", row[4], "--lose", row[5], "--receiver", row[6],
    ];
    assert_refuses(rt, &arguments, row[7]);
}

#[test]
fn reports_the_first_fault_of_a_receiver(rt: HostRuntime) {
    for row in &RECEIVERS {
        assert_refuses_receiver(&rt, row);
    }
}

// Asserts that the arguments request a check of the files `-a` and `-`.
fn assert_checks_dashes<'a>(rt: &(impl Abort + Alloc<A = Global>), arguments: &'a [&'a str]) {
    let Ok(request) = Request::parse(rt.alloc(), arguments) else {
        return panic!(rt; "{arguments:?} is no request");
    };
    match &request {
        Request::Check { stl, pes, .. } => {
            assert!(rt; *stl == "-a" && pes.name == "-", "{arguments:?}");
        }
        _ => panic!(rt; "{arguments:?} is no check"),
    }
}

// Arguments that start with a hyphen, and repeated options, are read as the argument parser `clap`
// reads them.
#[rattlefmt::skip]
#[test]
fn refuses_dashes_as_clap_does(rt: HostRuntime) {
    let no_arguments = "usage 0 Words\n";
    assert_refuses(&rt, &["subttx", "check", "-a", "b"], no_arguments);
    assert_refuses(&rt, &["subttx", "check", "a", "b", "--every", "-1"], no_arguments);
    assert_refuses(&rt, &["subttx", "check", "a", "b", "--", "--page", "888"], no_arguments);
    assert_refuses(&rt, &["subttx", "--", "check", "a", "b"], no_arguments);
    let twice = ["subttx", "check", "a", "b", "--page", "888", "--page", "888"];
    assert_refuses(&rt, &twice, no_arguments);
    let twice = ["subttx", "schedule", "a", "b", "--serial", "--serial"];
    assert_refuses(&rt, &twice, no_arguments);
    assert_refuses(&rt, &["subttx", "check", "a", "b", "--within", "-1"], no_arguments);
    assert_refuses(&rt, &["subttx", "check", "a", "b", "--pid", "-1"], no_arguments);
    assert_refuses(&rt, &["subttx", "packets", "a", "--pes", "-1"], no_arguments);
    assert_refuses(&rt, &["subttx", "check", "a", "b", "--every=-1"], "usage 80 Every\n");
    assert_refuses(&rt, &["subttx", "check", "a", "b", "--within=-1"], "usage 85 Within\n");
    assert_refuses(&rt, &["subttx", "check", "a", "b", "--pid=-1"], "usage 86 Pid\n");
    assert_refuses(&rt, &["subttx", "packets", "a", "--pes=-1"], "usage 88 Range\n");
}

#[test]
fn takes_files_after_two_dashes(rt: HostRuntime) {
    assert_checks_dashes(&rt, &["subttx", "check", "--", "-a", "-"]);
    assert_checks_dashes(&rt, &["subttx", "check", "--page", "888", "--", "-a", "-"]);
    assert_checks_dashes(&rt, &["subttx", "check", "--page=888", "--", "-a", "-"]);
    let options = [
        "subttx",
        "check",
        "--every=250",
        "--option=english",
        "--",
        "-a",
        "-",
    ];
    assert_checks_dashes(&rt, &options);
}
