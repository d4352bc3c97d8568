//! Output while a PES file is still being received: all output is flushed before each read that may
//! block.
ghost use Rattle.std.specs.Prelude.{None};
ghost use Rattle.sub_io.specs.Device.{zero_buffered_bytes};

use crate::asserting::assert_same_for_case;
use answer_fixtures::answer_arguments;
use fixtures::{CountingSource, Drip, Watched, file_of_hi, schedule_of_hi};
use std::alloc::Global;
use std::cell::Cell;
use std::process::Abort;
use sub_answer::Status;
use sub_io::{BufferedSource, FailAt, Failed, Flush, MemSink, MemSource, Sink, Source};

// The arguments of a check of page 100, which is not sent.
const PAGE_100: [&str; 7] = ["subttx", "check", "--all", "a", "b", "--page", "100"];

// The arguments of `packets`.
const PACKETS: [&str; 3] = ["subttx", "packets", "a"];

// The lines for the schedule for `Hi`: after its first PES packet, and after both PES packets.
const AT_FIRST: &[u8] = b"refused 71 NoFirstHeader frame 10:00:00:00\n\
    refused 72 Content frame 10:00:00:00 row 22 column 16\n";

const AT_BOTH: &[u8] = b"refused 71 NoFirstHeader frame 10:00:00:00\n\
    refused 72 Content frame 10:00:00:00 row 22 column 16\n\
    ended 72 Content frame 10:00:01:24\n";

// The state of an output, shared with a source.
#[derive(Drop)]
struct Line {
    // The number of bytes in the buffer of the output.
    buffered: Cell<u64>,
    // The number of calls in which the output forwarded bytes.
    calls: Cell<u64>,
    // The number of pulls from the source while bytes were in the buffer.
    early: Cell<u64>,
}

impl Line {
    fn new() -> Self {
        Line {
            buffered: Cell::new(0),
            calls: Cell::new(0),
            early: Cell::new(0),
        }
    }
}

fn add(count: &Cell<u64>, more: u64) {
    count.set(count.get().saturating_add(more));
}

// A source that returns at most `most` bytes per pull, and checks whether the buffer of the output
// is empty.
#[derive(Drop)]
struct ChunkedSource<'a> {
    rest: &'a [u8],
    most: usize,
    line: &'a Line,
}

impl Source for ChunkedSource<'_> {
    ghost remaining = { λ _. None };

    ghost failure_count = { λ _. 0 };

    fn pull(&mut self, to: &mut [u8]) -> Result<usize, Failed> {
        if self.line.buffered.get() > 0 {
            add(&self.line.early, 1);
        }
        let n = self.rest.len().min(to.len()).min(self.most);
        let (given, rest) = self.rest.split_at(n);
        to[..n].copy_from_slice(given);
        self.rest = rest;
        Ok(n)
    }

    fn failures(&self) -> u64 {
        0
    }

    fn skip_bytes(&mut self, _count: usize) -> bool {
        false
    }
}

// An output that stores all bytes in a buffer until it is flushed.
#[derive(Drop)]
struct HoldingSink<'a> {
    line: &'a Line,
}

impl Sink for HoldingSink<'_> {
    ghost contents = { λ _. None };

    ghost failure_count = { λ _. 0 };

    fn push(&mut self, from: &[u8]) -> Result<usize, Failed> {
        add(&self.line.buffered, from.len() as u64);
        Ok(from.len())
    }

    fn failures(&self) -> u64 {
        0
    }
}

impl Flush for HoldingSink<'_> {
    ghost buffered = { zero_buffered_bytes };

    fn flush(&mut self) -> Result<(), Failed> {
        if self.line.buffered.get() > 0 {
            add(&self.line.calls, 1);
            self.line.buffered.set(0);
        }
        Ok(())
    }
}

// Answers a command with a PES file that returns at most `most` bytes per read. Asserts that the
// buffer of the output was empty at each read, the number of calls in which bytes were forwarded,
// and that only the last line, which is printed after the last read, is still in the buffer.
fn assert_flushes_before_reads<'a>(
    rt: &(impl Abort + Alloc<A = Global>),
    arguments: &'a [&'a str],
    most: usize,
    calls: u64,
    last: &str,
) {
    let (stl, pes) = (file_of_hi(), schedule_of_hi());
    let line = Line::new();
    let (rest, line) = (&pes[..], &line);
    let mut buffer = [0; 512];
    let mut pes = BufferedSource::new(ChunkedSource { rest, most, line }, &mut buffer);
    let mut stl = MemSource::new(&stl);
    let mut file = MemSink::new(&mut []);
    let mut out = HoldingSink { line };
    if arguments.len() == PACKETS.len() {
        answer_arguments(
            rt.alloc(),
            arguments,
            &mut pes,
            &mut stl,
            &mut file,
            &mut out,
        );
    } else {
        answer_arguments(
            rt.alloc(),
            arguments,
            &mut stl,
            &mut pes,
            &mut file,
            &mut out,
        );
    }
    let seen = (line.early.get(), line.calls.get(), line.buffered.get());
    assert_same_for_case(rt, &seen, &(0, calls, last.len() as u64), &most);
}

#[test]
fn flushes_what_was_reported_before_each_read(rt: HostRuntime) {
    // The two PES packets of the schedule, 184 bytes each, are read together, separately, or in
    // parts.
    for (most, calls) in [(512, 1), (184, 2), (92, 2), (1, 2)] {
        assert_flushes_before_reads(&rt, &PAGE_100, most, calls, "2 faults\n");
        assert_flushes_before_reads(&rt, &PACKETS, most, calls, "2 pes\n");
    }
}

// Asserts that nothing more is read or printed after flushing failed, and the number of bytes read.
// Each line and each flush is a call of the output.
fn assert_stops(rt: &(impl Abort + Alloc<A = Global>), call: u64, lines: &[u8], bytes: u64) {
    let (stl, pes) = (file_of_hi(), schedule_of_hi());
    let inner = Drip { rest: &pes };
    let mut pes = CountingSource { inner, pulls: 0 };
    let mut stl = MemSource::new(&stl);
    let mut file = MemSink::new(&mut []);
    let mut buffer = [0; 512];
    let mut out = Watched::new(FailAt::new(MemSink::new(&mut buffer), call));
    let arguments = &PAGE_100;
    let status = answer_arguments(
        rt.alloc(),
        arguments,
        &mut stl,
        &mut pes,
        &mut file,
        &mut out,
    );
    let seen = (out.failures(), out.calls_after_failure, pes.pulls);
    assert_same_for_case(rt, &seen, &(1, 0, bytes), &call);
    let is_right = buffer.starts_with(lines) && buffer.get(lines.len()) == Some(&0);
    assert!(rt; status == Status::Fault && is_right, "{call}");
}

#[test]
fn stops_where_lines_can_not_be_handed_on(rt: HostRuntime) {
    assert_stops(&rt, 2, AT_FIRST, 184);
    assert_stops(&rt, 4, AT_BOTH, 368);
}
