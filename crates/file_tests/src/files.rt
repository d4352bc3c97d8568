//! The calls that open the files of a request, and the answers with these files.
use crate::asserting::{assert_same, assert_same_for_case};
use crate::files_in_memory::{Entry, FilesInMemory, STANDARD_OUTPUT};
use answer_fixtures::ACCEPTED;
use fixtures::{commented, file_of_hi, normal_form, schedule_of_hi};
use std::alloc::Global;
use std::process::Abort;
use sub_answer::{Status, open_and_answer};
use sub_files::{FileSystem, LookupResult, MemFile, MemFiles, open};
use sub_io::{BufferedSink, MemSink};
use sub_request::Request;
use sub_words::ParseArguments;

// A file that can be opened and is empty.
const INPUT: Entry = Entry {
    name: "a",
    found: LookupResult::At(1, 1),
    bytes: Some(&[]),
    fails: false,
};

// A name without a file.
const NOTHING: Entry = Entry {
    name: "b",
    found: LookupResult::NothingFound,
    bytes: None,
    fails: false,
};

// Returns the entry for the name `b`, with this lookup result.
fn second(found: LookupResult) -> Entry<'static> {
    Entry { found, ..NOTHING }
}

// Asserts the calls for the files of a command, and whether all files are opened. An output file
// can be created only if `buffer` is not empty.
fn assert_file_calls<'a, 'f>(
    rt: &(impl Abort + Alloc<A = Global>),
    arguments: &'a [&'a str],
    entries: &'f [Entry<'f>],
    buffer: &'f mut [u8],
    calls: &str,
    is_opened: bool,
) {
    let mut files = FilesInMemory::new(entries, buffer);
    if let Ok(request) = Request::parse(rt.alloc(), arguments) {
        let opened = open(&mut files, &request.files());
        assert_same_for_case(rt, &opened.is_some(), &is_opened, &calls);
    }
    assert_same(rt, &files.calls(), &calls.as_bytes());
}

const SHOW: [&str; 3] = ["subttx", "show", "a"];

const PACKETS: [&str; 3] = ["subttx", "packets", "a"];

const CHECK: [&str; 4] = ["subttx", "check", "a", "b"];

const NORMAL: [&str; 4] = ["subttx", "normal", "a", "b"];

const EXTRACT: [&str; 6] = ["subttx", "extract", "a", "b", "--pid", "257"];

#[test]
fn opens_the_file_that_is_read(rt: HostRuntime) {
    assert_file_calls(&rt, &SHOW, &[INPUT], &mut [], "o0", true);
    assert_file_calls(&rt, &PACKETS, &[INPUT], &mut [], "o0", true);
    assert_file_calls(&rt, &SHOW, &[NOTHING], &mut [], "o?", false);
}

#[test]
fn opens_two_files_in_the_order_of_the_arguments(rt: HostRuntime) {
    let other = Entry { name: "b", ..INPUT };
    assert_file_calls(&rt, &CHECK, &[other, INPUT], &mut [], "o1o0", true);
    assert_file_calls(&rt, &CHECK, &[INPUT, NOTHING], &mut [], "o0o1", false);
    assert_file_calls(&rt, &CHECK, &[other], &mut [], "o?", false);
}

#[test]
fn creates_a_file_once_the_input_is_opened_and_both_are_looked_up(rt: HostRuntime) {
    let there = [INPUT, second(LookupResult::NothingFound)];
    assert_file_calls(&rt, &NORMAL, &there, &mut [0], "o0l0l1p?c1", true);
    let other = [INPUT, second(LookupResult::At(1, 2))];
    assert_file_calls(&rt, &NORMAL, &other, &mut [0], "o0l0l1p?c1", true);
    // In the first case the output can't be created; in the second case the input can't be opened.
    assert_file_calls(&rt, &NORMAL, &there, &mut [], "o0l0l1p?c1", false);
    assert_file_calls(&rt, &NORMAL, &[NOTHING], &mut [0], "o?", false);
}

#[test]
fn creates_no_file_over_the_input(rt: HostRuntime) {
    // The output is the input under another name, or one of the two can't be looked up.
    let link = [INPUT, second(LookupResult::At(1, 1))];
    assert_file_calls(&rt, &NORMAL, &link, &mut [0], "o0l0l1p?", false);
    let unknown = [INPUT, second(LookupResult::Unknown)];
    assert_file_calls(&rt, &NORMAL, &unknown, &mut [0], "o0l0l1p?", false);
    let lost = Entry {
        found: LookupResult::Unknown,
        ..INPUT
    };
    let there = [lost, second(LookupResult::At(1, 2))];
    assert_file_calls(&rt, &NORMAL, &there, &mut [0], "o0l0l1p?", false);
}

// Asserts how many reasons are given for not creating the output. `look_up` prints its own reason.
fn assert_reasons(
    rt: &(impl Abort + Alloc<A = Global>),
    input: LookupResult,
    output: LookupResult,
    want: u8,
) {
    let entries = [
        Entry {
            found: input,
            ..INPUT
        },
        second(output),
    ];
    let mut buffer = [0];
    let mut files = FilesInMemory::new(&entries, &mut buffer);
    if let Ok(request) = Request::parse(rt.alloc(), &NORMAL) {
        let opened = open(&mut files, &request.files());
        assert!(rt; opened.is_none());
    }
    assert_same(rt, &files.reasons(), &want);
}

#[test]
fn gives_a_reason_for_an_output_only_if_no_lookup_gave_one(rt: HostRuntime) {
    let (one, other) = (LookupResult::At(1, 1), LookupResult::At(1, 2));
    assert_reasons(&rt, one, one, 1);
    assert_reasons(&rt, LookupResult::NothingFound, other, 1);
    assert_reasons(&rt, one, LookupResult::Unknown, 0);
    assert_reasons(&rt, LookupResult::Unknown, other, 0);
}

#[test]
fn creates_the_file_of_a_recording_as_that_of_a_subtitle_file(rt: HostRuntime) {
    let there = [INPUT, second(LookupResult::NothingFound)];
    assert_file_calls(&rt, &EXTRACT, &there, &mut [0], "o0l0l1p?c1", true);
    let other = [INPUT, second(LookupResult::At(1, 2))];
    assert_file_calls(&rt, &EXTRACT, &other, &mut [0], "o0l0l1p?c1", true);
    // In the first case the output can't be created; in the second case the recording can't be
    // opened.
    assert_file_calls(&rt, &EXTRACT, &there, &mut [], "o0l0l1p?c1", false);
    assert_file_calls(&rt, &EXTRACT, &[NOTHING], &mut [0], "o?", false);
}

#[test]
fn creates_no_file_over_the_recording(rt: HostRuntime) {
    let link = [INPUT, second(LookupResult::At(1, 1))];
    assert_file_calls(&rt, &EXTRACT, &link, &mut [0], "o0l0l1p?", false);
    let unknown = [INPUT, second(LookupResult::Unknown)];
    assert_file_calls(&rt, &EXTRACT, &unknown, &mut [0], "o0l0l1p?", false);
}

#[test]
fn creates_no_file_that_standard_output_goes_into(rt: HostRuntime) {
    let printed = Entry {
        name: STANDARD_OUTPUT,
        found: LookupResult::At(1, 2),
        ..INPUT
    };
    let same = [INPUT, second(LookupResult::At(1, 2)), printed];
    assert_file_calls(&rt, &NORMAL, &same, &mut [0], "o0l0l1p2", false);
    assert_file_calls(&rt, &EXTRACT, &same, &mut [0], "o0l0l1p2", false);
    // Standard output goes to another file, with the same device or the same inode, or the output
    // does not exist.
    let inode = [INPUT, second(LookupResult::At(1, 3)), printed];
    assert_file_calls(&rt, &NORMAL, &inode, &mut [0], "o0l0l1p2c1", true);
    let device = [INPUT, second(LookupResult::At(2, 2)), printed];
    assert_file_calls(&rt, &NORMAL, &device, &mut [0], "o0l0l1p2c1", true);
    let nothing = [INPUT, second(LookupResult::NothingFound), printed];
    assert_file_calls(&rt, &NORMAL, &nothing, &mut [0], "o0l0l1p2c1", true);
}

// Returns whether a command with these files succeeds, and writes its output to `text`.
fn answers<'a, D: FileSystem>(
    alloc: Global,
    arguments: &'a [&'a str],
    files: &mut D,
    text: &mut [u8],
) -> bool {
    let mut buffered = [0; 20];
    let mut out = BufferedSink::new(MemSink::new(text), &mut buffered);
    let Ok(request) = Request::parse(alloc, arguments) else {
        return false;
    };
    match open_and_answer(alloc, files, &request, &mut out) {
        Ok(status) => status == Status::Done,
        Err(_) => false,
    }
}

// Asserts the output of a command with these files, if no call fails and memory suffices.
fn assert_answers<'a, 'f>(
    rt: &(impl Abort + Alloc<A = Global>),
    arguments: &'a [&'a str],
    entries: &'f [Entry<'f>],
    buffer: &'f mut [u8],
    want: &str,
) {
    assert_answers_with(
        rt,
        arguments,
        &mut FilesInMemory::new(entries, buffer),
        want,
    );
}

// Asserts the output of a command with any file system.
fn assert_answers_with<'a, D: FileSystem>(
    rt: &(impl Abort + Alloc<A = Global>),
    arguments: &'a [&'a str],
    files: &mut D,
    want: &str,
) {
    let mut text = [0; 128];
    let is_done = answers(rt.alloc(), arguments, files, &mut text);
    let len = want.len().min(128);
    assert!(rt; is_done && &text[..len] == want.as_bytes(), "{arguments:?}");
}

const HEADER: &str =
    "1515d0d015d015d002152020202020202020202020202020202020202020202020202020202020202020";

const HEADER_LINES: &str = "magazine 8 packet 0\npage 88 subcode 0000 control C4 C6 C7\n\
    text |                                |\n";

const RECEIVED_PAGE: &str =
    "heard yes\nopen no\nrow 22 |                ...Hi..                 |\n";

const SHOWN: &str = "00001 10:00:00:00 10:00:02:00 vp 22 jc 2 text 0d0b0b48690a0a\n1 subtitles\n";

#[test]
fn answers_each_command_that_reads_files(rt: HostRuntime) {
    let (stl, pes) = (file_of_hi(), schedule_of_hi());
    let both = [
        Entry {
            bytes: Some(&stl),
            ..INPUT
        },
        Entry {
            name: "b",
            bytes: Some(&pes),
            ..INPUT
        },
    ];
    assert_answers(&rt, &SHOW, &both, &mut [], SHOWN);
    assert_answers(&rt, &PACKETS, &[INPUT], &mut [], "0 pes\n");
    assert_answers(&rt, &CHECK, &both, &mut [], ACCEPTED);
    let all = ["subttx", "check", "--all", "a", "b"];
    assert_answers(&rt, &all, &both, &mut [], ACCEPTED);
    let listen = ["subttx", "listen", "b", "--at", "10:00:00:10"];
    assert_answers(&rt, &listen, &both, &mut [], RECEIVED_PAGE);
    let packet = ["subttx", "packet", HEADER];
    assert_answers(&rt, &packet, &[], &mut [], HEADER_LINES);
}

// Asserts that a command rejects a subtitle file with this line. Any read of the PES file would
// fail.
fn assert_refuses_unread<'a>(
    rt: &(impl Abort + Alloc<A = Global>),
    arguments: &'a [&'a str],
    stl: &[u8],
    want: &str,
) {
    let failing = Entry {
        name: "b",
        fails: true,
        ..INPUT
    };
    let subtitles = Entry {
        bytes: Some(stl),
        ..INPUT
    };
    let mut text = [0; 64];
    let there = [subtitles, failing];
    let mut files = FilesInMemory::new(&there, &mut []);
    let is_done = answers(rt.alloc(), arguments, &mut files, &mut text);
    let len = want.len().min(64);
    assert!(rt;
        !is_done && &text[..len] == want.as_bytes(),
        "{arguments:?}"
    );
}

// The PES file is read only if the subtitle file is accepted.
#[test]
fn reads_no_pes_file_with_a_refused_subtitle_file(rt: HostRuntime) {
    let stl = file_of_hi();
    let mut refused = stl;
    refused[13] = b'1'; // CCT
    assert_refuses_unread(&rt, &CHECK, &refused, "refused 14 Alphabet block 0\n");
    assert_refuses_unread(&rt, &CHECK, &stl, "fault 41 Read pes 0\n");
    let carried = ["subttx", "check", "a", "b", "--pid", "257", "--pes", "3-"];
    assert_refuses_unread(&rt, &carried, &refused, "refused 14 Alphabet block 0\n");
    assert_refuses_unread(&rt, &carried, &stl, "fault 41 Read pes 0\n");
}

// Asserts that exactly `written` was written into a buffer that was filled with FF.
fn assert_begins_with(rt: &impl Abort, buffer: &[u8], written: &[u8]) {
    let len = written.len().min(buffer.len());
    let (begin, rest) = buffer.split_at(len);
    let one_more: &[u8] = &[0xFF];
    assert_same(rt, &begin, &written);
    assert_same(rt, &rest, &one_more);
}

#[test]
fn writes_into_the_file_that_is_created(rt: HostRuntime) {
    let (stl, commented) = (file_of_hi(), commented());
    let stl = Entry {
        bytes: Some(&stl),
        ..INPUT
    };
    // The buffer has room for one more byte than the command writes.
    let mut sent = [0xFF; 369];
    let schedule = ["subttx", "schedule", "a", "b"];
    let written = "written 2 transmissions\n";
    assert_answers(&rt, &schedule, &[stl, NOTHING], &mut sent, written);
    assert_begins_with(&rt, &sent, &schedule_of_hi());
    let input = Entry {
        bytes: Some(&commented),
        ..INPUT
    };
    let mut normal = [0xFF; 1281];
    let written = "written 1 subtitles\n";
    assert_answers(&rt, &NORMAL, &[input, NOTHING], &mut normal, written);
    assert_begins_with(&rt, &normal, &normal_form());
}

#[test]
fn answers_over_files_that_tell_their_bytes(rt: HostRuntime) {
    let (stl, pes) = (file_of_hi(), schedule_of_hi());
    let (subtitles, sent) = (
        MemFile {
            name: "a",
            bytes: &stl,
        },
        MemFile {
            name: "b",
            bytes: &pes,
        },
    );
    let mut none = MemFiles::new(subtitles, sent, &mut []);
    assert_answers_with(&rt, &CHECK, &mut none, ACCEPTED);
    let mut buffer = [0xFF; 369];
    let schedule = ["subttx", "schedule", "a", "c"];
    let mut files = MemFiles::new(subtitles, sent, &mut buffer);
    assert_answers_with(&rt, &schedule, &mut files, "written 2 transmissions\n");
    assert_begins_with(&rt, &buffer, &pes);
}
