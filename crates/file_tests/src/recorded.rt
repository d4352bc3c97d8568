//! Parts of recordings, and assertions about the answers for recordings.
use crate::asserting::assert_same_for_case;
use crate::files_in_memory::{Entry, FilesInMemory};
use answer_fixtures::status_of;
use fixtures::file_of_hi;
use std::alloc::Global;
use std::process::Abort;
use sub_answer::{open_and_answer, print_and_flush_usage_fault};
use sub_files::LookupResult;
use sub_io::{BufferedSink, MemSink, Sink, put_all};
use sub_request::Request;
use sub_words::ParseArguments;

/// Bytes 0 to 3 of a TS packet of PID 101 (hexadecimal) that starts a PES packet, with continuity
/// counter 0.
pub const BEGINS_0: [u8; 4] = [0x47, 0x41, 0x01, 0x10];

/// Bytes 0 to 3 of a TS packet that starts a PES packet, with continuity counter 1.
pub const BEGINS_1: [u8; 4] = [0x47, 0x41, 0x01, 0x11];

/// Bytes 0 to 3 of a TS packet that starts a PES packet, with continuity counter 2.
pub const BEGINS_2: [u8; 4] = [0x47, 0x41, 0x01, 0x12];

/// The first bytes of a null packet.
pub const NULL: [u8; 4] = [0x47, 0x1F, 0xFF, 0x10];

/// The payload of a null packet.
pub const FILL: [u8; 184] = [0xFF; 184];

/// A TS packet of PID 101 without payload that announces a jump of the continuity counter.
pub const JUMP: [u8; 6] = [0x47, 0x01, 0x01, 0x20, 0xB7, 0x80];

/// The bytes that fill the TS packet `JUMP`.
pub const JUMP_FILL: [u8; 182] = [0xFF; 182];

/// The first bytes of a gap marker. Its other bytes are FF.
pub const GAP_MARKER_HEAD: [u8; 6] = [0x00, 0x00, 0x01, 0xBD, 0x00, 0xB2];

/// The line if PES packets are missing after the first PES packet.
pub const LOST: &str = "refused 45 Lost pes 1\n";

/// The line if the first PES packet of the schedule for `Hi` is missing.
pub const EARLY: &str = "refused 63 Early frame 10:00:02:00\n";

/// The line if the second PES packet of the schedule for `Hi` is missing.
pub const LATE: &str = "refused 74 Late frame 10:00:00:00\n";

/// The line if the file contains no PES packet.
pub const EMPTY: &str = "refused 60 Empty\n";

/// Writes byte strings to a sink one after another, as long as the sink has room.
pub fn write_pes_packets(sink: &mut MemSink<'_>, pes_packets: &[&[u8]]) {
    for pes_packet in pes_packets {
        if sink.failures() == 0 {
            let _ = put_all(sink, pes_packet);
        }
    }
}

/// Returns the entry for subtitle file `a`.
pub fn subtitle_file(bytes: &[u8]) -> Entry<'_> {
    Entry {
        name: "a",
        found: LookupResult::At(1, 1),
        bytes: Some(bytes),
        fails: false,
    }
}

/// Returns the entry for file `b`. It ends after these bytes, or reading fails after them.
pub fn recording(bytes: &[u8], fails: bool) -> Entry<'_> {
    Entry {
        name: "b",
        found: LookupResult::At(1, 2),
        bytes: Some(bytes),
        fails,
    }
}

// The entry for output file `c`.
const WRITTEN: Entry = Entry {
    name: "c",
    found: LookupResult::NothingFound,
    bytes: None,
    fails: false,
};

/// Asserts the output of a command for a subtitle file and a recording, and the status that the
/// last line implies. Output file `c` is written into `buffer`.
pub fn assert_answers<'a, 'f>(
    rt: &(impl Abort + Alloc<A = Global>),
    arguments: &'a [&'a str],
    stl: &'f [u8],
    recording: Entry<'f>,
    buffer: &'f mut [u8],
    want: &str,
) {
    let entries = [subtitle_file(stl), recording, WRITTEN];
    let mut files = FilesInMemory::new(&entries, buffer);
    let mut text = [0; 1024];
    let mut buffered = [0; 64];
    let mut out = BufferedSink::new(MemSink::new(&mut text), &mut buffered);
    let status = match Request::parse(rt.alloc(), arguments) {
        Ok(request) => open_and_answer(rt.alloc(), &mut files, &request, &mut out).ok(),
        Err(fault) => Some(print_and_flush_usage_fault(&fault, &mut out)),
    };
    assert_same_for_case(rt, &status, &Some(status_of(want.as_bytes())), &arguments);
    let len = want.len().min(1024);
    assert_same_for_case(rt, &&text[..len], &want.as_bytes(), &arguments);
    assert_same_for_case(rt, &text.get(len), &Some(&0), &arguments);
}

/// Asserts the output of a command for the subtitle file with `Hi`, and a file that consists of
/// these byte strings.
pub fn assert_prints<'a>(
    rt: &(impl Abort + Alloc<A = Global>),
    arguments: &'a [&'a str],
    pes_packets: &[&[u8]],
    want: &str,
) {
    let mut buffer = [0; 8192];
    let mut file = MemSink::new(&mut buffer);
    write_pes_packets(&mut file, pes_packets);
    let stl = file_of_hi();
    let bytes = recording(file.written(), false);
    assert_answers(rt, arguments, &stl, bytes, &mut [], want);
}
