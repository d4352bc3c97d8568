//! The line on standard error about each kind of wrong arguments.
use crate::asserting::assert_same_for_case;
use std::alloc::Global;
use std::process::Abort;
use std::test::Fail;
use sub_words::explanation_of;

// In each table: wrong arguments, and after them the expected line.

// No command, or no such command
#[rattlefmt::skip]
const MISSING_COMMANDS: [&[&str]; 11] = [
    &["subttx", "subttx: give a command (subttx --help lists the commands)"],
    &["subttx", "foo", "subttx: foo: there is no such command (subttx --help lists the commands)"],
    &["subttx", "Check", "a", "b",
        "subttx: Check: there is no such command (subttx --help lists the commands)"],
    &["subttx", "--page", "888", "check", "a", "b",
        "subttx: --page: give a command first (subttx --help lists them)"],
    &["subttx", "-x", "subttx: -x: give a command first (subttx --help lists them)"],
    &["subttx", "help", "foo",
        "subttx: help foo: there is no such command (subttx --help lists the commands)"],
    &["subttx", "--help", "x",
        "subttx: --help x: there is no such command (subttx --help lists the commands)"],
    &["subttx", "-h", "help",
        "subttx: -h help: there is no such command (subttx --help lists the commands)"],
    &["subttx", "help", "packet", "15", "subttx: help: give nothing else, or only a command"],
    &["subttx", "--version", "check", "subttx: --version: give nothing else"],
    &["subttx", "-V", "--help", "subttx: -V: give nothing else"],
];

// Arguments that a command does not have
#[rattlefmt::skip]
const UNKNOWN_OPTIONS: [&[&str]; 13] = [
    &["subttx", "check", "a", "b", "-h", "subttx: -h: give it alone, or with the command alone"],
    &["subttx", "check", "-h", "x", "subttx: -h: give it alone, or with the command alone"],
    &["subttx", "check", "a", "b", "--help",
        "subttx: --help: give it alone, or with the command alone"],
    &["subttx", "packet", "--version",
        "subttx: --version: give it alone, or with the command alone"],
    &["subttx", "check", "a", "b", "--serial",
        "subttx: --serial: there is no such option here: subttx check STL PES [options]"],
    &["subttx", "check", "a", "b", "--pages=888",
        "subttx: --pages: there is no such option here: subttx check STL PES [options]"],
    &["subttx", "check", "a", "b", "-p", "3",
        "subttx: -p: there is no such option here: subttx check STL PES [options]"],
    &["subttx", "check", "a", "b", "--page", "-1", "subttx: --page: give its value after it"],
    &["subttx", "packets", "a", "--complete",
        "subttx: --complete: there is no such option here: subttx packets PES [options]"],
    &["subttx", "schedule", "a", "b", "--pid", "257",
        "subttx: --pid: there is no such option here: subttx schedule STL PES [options]"],
    &["subttx", "show", "a", "--pid", "257",
        "subttx: --pid: there is no such option here: subttx show STL"],
    &["subttx", "survey", "a", "--every", "1",
        "subttx: --every: there is no such option here: subttx survey RECORDING [options]"],
    &["subttx", "extract", "a", "b", "--pid", "257", "--pes", "0-1",
        "subttx: --pes: there is no such option here: subttx extract TS PES --pid P [options]"],
];

// Arguments that are given twice, without a value, or with one
#[rattlefmt::skip]
const REPEATED_OPTIONS: [&[&str]; 8] = [
    &["subttx", "check", "a", "b", "--page", "subttx: --page: give its value after it"],
    &["subttx", "check", "a", "b", "--page", "--every", "3",
        "subttx: --page: give its value after it"],
    &["subttx", "check", "a", "b", "--pid", "1", "--pid", "1", "subttx: --pid: give it only once"],
    &["subttx", "check", "a", "b", "--all", "--all", "subttx: --all: give it only once"],
    &["subttx", "survey", "a", "--page", "888", "--page", "8FF",
        "subttx: --page 8FF: give a page: a digit from 1 to 8 and two hexadecimal digits, not FF"],
    &["subttx", "survey", "a", "--page", "88a", "--page", "88A",
        "subttx: --page 88A: give each page only once"],
    &["subttx", "survey", "a", "--page=101", "--page=102", "--page=103", "--page=104", "--page=105",
        "--page=106", "--page=107", "--page=108", "--page=109",
        "subttx: --page 109: give at most 8 pages"],
    &["subttx", "check", "a", "b", "--all=yes", "subttx: --all=yes: give it without a value"],
];

// Too many arguments, and too few
#[rattlefmt::skip]
const ARGUMENT_COUNTS: [&[&str]; 11] = [
    &["subttx", "check", "a", "b", "c", "subttx: c: leave it out: subttx check STL PES [options]"],
    &["subttx", "check", "a", "b", "--", "c",
        "subttx: c: leave it out: subttx check STL PES [options]"],
    &["subttx", "packet", "15", "15", "subttx: 15: leave it out: subttx packet HEX"],
    &["subttx", "show", "a", "-", "subttx: -: leave it out: subttx show STL"],
    &["subttx", "check", "subttx: check: an argument is missing: subttx check STL PES [options]"],
    &["subttx", "check", "a",
        "subttx: check: an argument is missing: subttx check STL PES [options]"],
    &["subttx", "normal", "a", "subttx: normal: an argument is missing: subttx normal IN OUT"],
    &["subttx", "listen", "b.pes",
        "subttx: listen: an argument is missing: subttx listen PES --at TIME [options]"],
    &["subttx", "listen", "--at", "10:00:00:10",
        "subttx: listen: an argument is missing: subttx listen PES --at TIME [options]"],
    &["subttx", "extract", "a", "b",
        "subttx: extract: an argument is missing: subttx extract TS PES --pid P [options]"],
    &["subttx", "packet", "--", "subttx: packet: an argument is missing: subttx packet HEX"],
];

// Wrong files, pages, clocks and options
#[rattlefmt::skip]
const WRONG_FILES_AND_CLOCKS: [&[&str]; 12] = [
    &["subttx", "packet", "15", "subttx: HEX 15: give 42 bytes as 84 hexadecimal digits"],
    &["subttx", "normal", "a", "a", "subttx: OUT a: give another file than the one that is read"],
    &["subttx", "schedule", "a", "a", "subttx: PES a: give another file than the one that is read"],
    &["subttx", "extract", "a", "a", "--pid", "257",
        "subttx: PES a: give another file than the one that is read"],
    &["subttx", "check", "a", "b", "--page", "8FF",
        "subttx: --page 8FF: give a page: a digit from 1 to 8 and two hexadecimal digits, not FF"],
    &["subttx", "survey", "a", "--page=088",
        "subttx: --page 088: give a page: a digit from 1 to 8 and two hexadecimal digits, not FF"],
    &["subttx", "check", "a", "b", "--every", "0",
        "subttx: --every 0: give a number of frames from 1 to 2,160,000"],
    &["subttx", "schedule", "a", "b", "--every", "2160001",
        "subttx: --every 2160001: give a number of frames from 1 to 2,160,000"],
    &["subttx", "check", "a", "b", "--origin", "8589934592",
        "subttx: --origin 8589934592: give a PTS from 0 to 8,589,934,591"],
    &["subttx", "check", "a", "b", "--option", "English",
        "subttx: --option English: give a national option, such as english or german; the \
          manual lists them"],
    &["subttx", "check", "a", "b", "--within", "51",
        "subttx: --within 51: give a number of frames from 0 to 50"],
    &["subttx", "check", "a", "b", "--pid", "8191",
        "subttx: --pid 8191: give a PID from 0 to 8190, or from 0x0 to 0x1FFE"],
];

// Wrong recordings, layouts and receivers
#[rattlefmt::skip]
const WRONG_PARTS_AND_RECEIVERS: [&[&str]; 12] = [
    &["subttx", "packets", "a", "--pid", "0x1FFF",
        "subttx: --pid 0x1FFF: give a PID from 0 to 8190, or from 0x0 to 0x1FFE"],
    &["subttx", "survey", "a", "--packet-size", "190",
        "subttx: --packet-size 190: give 188, 192 or 204"],
    &["subttx", "check", "a", "b", "--pes", "5-4",
        "subttx: --pes 5-4: give the numbers of the first and the last PES packet as I-J, or I- \
          to the end"],
    &["subttx", "check", "a", "b", "--layout", "no",
        "subttx: --layout no: give a list of items as in the manual, such as fit,up"],
    &["subttx", "check", "a", "b", "--pace", "0",
        "subttx: --pace 0: give a number of frames from 1 to 2,160,000"],
    &["subttx", "check", "a", "b", "--from", "24:00:00:00", "--to", "x",
        "subttx: --from 24:00:00:00: give a time as HH:MM:SS:FF, from 00:00:00:00 to 23:59:59:24"],
    &["subttx", "check", "a", "b", "--from", "10:00:00:00", "--to", "10:00",
        "subttx: --to 10:00: give a time as HH:MM:SS:FF, from 00:00:00:00 to 23:59:59:24"],
    &["subttx", "listen", "b.pes", "--at", "10:00:00",
        "subttx: --at 10:00:00: give a time as HH:MM:SS:FF, from 00:00:00:00 to 23:59:59:24"],
    &["subttx", "listen", "b.pes", "--at", "10:00:00:10", "--skip", "x",
        "subttx: --skip x: give a number of packets of 1 to 10 digits"],
    &["subttx", "listen", "b.pes", "--at", "10:00:00:10", "--flip", "1:42:1",
        "subttx: --flip 1:42:1: give 1 to 64 bits as P:B:K,P:B:K: packet P, byte B from 0 to \
          41, bit K from 1 to 8, no byte twice"],
    &["subttx", "listen", "b.pes", "--at", "10:00:00:10", "--lose", "01,1",
        "subttx: --lose 01,1: give 1 to 64 packet numbers, separated by commas, none twice"],
    &["subttx", "listen", "b.pes", "--at", "10:00:00:10", "--receiver", "no",
        "subttx: --receiver no: give blank, keep, drop or anew"],
];

// Values that are escaped
#[rattlefmt::skip]
const ESCAPED_VALUES: [&[&str]; 9] = [
    &["subttx", "check", "a", "b", "--every", "",
        "subttx: --every \"\": give a number of frames from 1 to 2,160,000"],
    &["subttx", "check", "a", "b", "--every", "1 2",
        "subttx: --every \"1 2\": give a number of frames from 1 to 2,160,000"],
    &["subttx", "check", "a", "b", "--every", "1\n2",
        "subttx: --every \"1\\n2\": give a number of frames from 1 to 2,160,000"],
    &["subttx", "check", "a", "b", "--every", "\u{1b}[31m",
        "subttx: --every \"\\u{1b}[31m\": give a number of frames from 1 to 2,160,000"],
    &["subttx", "check", "a", "b", "--every", "é",
        "subttx: --every \"é\": give a number of frames from 1 to 2,160,000"],
    &["subttx", "check", "a", "b", "--every", "\u{9b}",
        "subttx: --every \"\\u{9b}\": give a number of frames from 1 to 2,160,000"],
    &["subttx", "check", "a", "b", "--every", "a\"b",
        "subttx: --every \"a\\\"b\": give a number of frames from 1 to 2,160,000"],
    &["subttx", "a\nb",
        "subttx: \"a\\nb\": there is no such command (subttx --help lists the commands)"],
    &["subttx", "check", "a", "b", "--a\nb",
        "subttx: \"--a\\nb\": there is no such option here: subttx check STL PES [options]"],
];

#[test]
fn explains_missing_and_unknown_commands(rt: HostRuntime) -> Result<(), Fail> {
    assert_explain(&rt, &MISSING_COMMANDS)
}

#[test]
fn explains_unknown_options(rt: HostRuntime) -> Result<(), Fail> {
    assert_explain(&rt, &UNKNOWN_OPTIONS)
}

#[test]
fn explains_repeated_options_and_missing_values(rt: HostRuntime) -> Result<(), Fail> {
    assert_explain(&rt, &REPEATED_OPTIONS)
}

#[test]
fn explains_too_many_and_too_few_arguments(rt: HostRuntime) -> Result<(), Fail> {
    assert_explain(&rt, &ARGUMENT_COUNTS)
}

#[test]
fn explains_wrong_files_pages_and_clocks(rt: HostRuntime) -> Result<(), Fail> {
    assert_explain(&rt, &WRONG_FILES_AND_CLOCKS)
}

#[test]
fn explains_wrong_recordings_parts_and_receivers(rt: HostRuntime) -> Result<(), Fail> {
    assert_explain(&rt, &WRONG_PARTS_AND_RECEIVERS)
}

#[test]
fn escapes_values(rt: HostRuntime) -> Result<(), Fail> {
    assert_explain(&rt, &ESCAPED_VALUES)
}

// Asserts the line of each row of a table.
fn assert_explain(
    rt: &(impl Abort + Alloc<A = Global>),
    rows: &'static [&'static [&'static str]],
) -> Result<(), Fail> {
    for row in rows {
        assert_explains(rt, *row)?;
    }
    Ok(())
}

// Asserts the line about the arguments before the last item, which is the line.
fn assert_explains<'a>(
    rt: &(impl Abort + Alloc<A = Global>),
    row: &'a [&'a str],
) -> Result<(), Fail> {
    let Some((want, arguments)) = row.split_last() else {
        return Ok(());
    };
    match explanation_of(rt.alloc(), arguments) {
        Some(explanation) => {
            let line = explanation.to_string(rt.alloc())?;
            assert_same_for_case(rt, &line.as_str(), want, &arguments);
        }
        None => panic!(rt; "no line about {arguments:?}"),
    }
    Ok(())
}

#[test]
fn explains_no_valid_arguments(rt: HostRuntime) {
    for arguments in [["subttx", "help", "check"], ["subttx", "check", "--help"]] {
        assert!(rt; explanation_of(rt.alloc(), &arguments).is_none());
    }
}
