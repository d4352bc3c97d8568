//! Processes the bytes of a recording of any kind, and prints its lines.
ghost use Rattle.std.specs.Prelude.{◌≡◌, ◌≤◌, ◌+◌, ◌++◌, IfSome, false, length, take, true};
ghost use Rattle.mpeg_ts.specs.PacketSize.{bytes_of};
ghost use Rattle.ts_survey.specs.Counted.{IsAtStreamStart, ReadsNoMoreOfStream, TakesStartedStream};
ghost use Rattle.ts_survey.specs.FirstLines.{FindsKind, begins_with_pes_packet, head_size};
ghost use Rattle.ts_survey.specs.FirstLines.{head_texts};
ghost use Rattle.ts_survey.specs.FirstLines.{is_pes, kind_texts, size_line, space_before_word};
ghost use Rattle.ts_survey.specs.Lines.{AddsTexts};
ghost use Rattle.ts_survey.specs.Listed.{KeepsKind, IsAsRequested, ReportsEnd, counts_line};
ghost use Rattle.ts_survey.specs.Listed.{stream_packet_count, skipped_count_of_recording};
ghost use Rattle.ts_survey.specs.ReadBuffer.{max_retained_bytes};
ghost use Rattle.ts_survey.specs.Stream.{TakesPartOfStream, is_unknown};

use crate::multiplex::Multiplex;
use crate::packet_sizes::find_size;
use crate::packets_in_step::PacketsInStep;
use crate::pes_file::PesFile;
use crate::text::Text;
use mpeg_ts::{PacketSize, Pid, SurveyOptions};
use std::alloc::Global;

/// The number of first bytes of a recording that are printed, if the recording has so many.
const HEAD: usize = 11;

/// Up to so many bytes, and one read more, are examined together to detect the packet size. The
/// search ends once more than `MAX_INSPECTED_BYTES` were examined in all.
const INSPECTED_BYTES: usize = 65_536;

const MAX_INSPECTED_BYTES: u64 = 0x100_0000;

// The number of last bytes that are examined again, if no packet size was found in more than
// `INSPECTED_BYTES`. Packets may begin in these bytes.
const RETAINED_BYTES: usize = 1024;

/// The kind of a recording.
#[derive(Drop)]
enum Kind {
    /// The kind of the recording is not known yet.
    Unknown,
    /// The recording is a file of PES packets.
    Pes(PesFile),
    /// The recording is a transport stream.
    Stream(PacketsInStep, Multiplex),
    /// The recording is neither a file of PES packets nor a transport stream.
    Nothing,
}

/// The state of a recording, as far as it has been received.
#[derive(Drop)]
pub struct Recording {
    alloc: Global,
    requested: SurveyOptions,
    has_head: bool,
    skipped: u64,
    out_of_memory: bool,
    kind: Kind,
}

impl Recording {
    /// Creates the state before the first byte of a recording.
    pub fn new(alloc: Global, requested: SurveyOptions) -> Recording
        ensures requested { result.requested ≡ requested }
        ensures kind { result.kind ≡ Kind.Unknown }
        ensures none { (result.has_head ≡ false) × (result.out_of_memory ≡ false) }
        ensures skipped { result.skipped ≡ 0 }
    {
        Recording {
            alloc,
            requested,
            has_head: false,
            skipped: 0,
            out_of_memory: false,
            kind: Kind::Unknown,
        }
    }

    /// Returns whether memory ran out. Tables and lost text do not count.
    pub fn out_of_memory(&self) -> bool
        ensures { result ≡ false → self.now.out_of_memory ≡ false }
    {
        self.out_of_memory
            || match &self.kind {
                Kind::Stream(_, multiplex) => multiplex.out_of_memory(),
                _ => false,
            }
    }

    /// Processes the buffered bytes, and returns how many of them are no longer needed. The first
    /// lines of a survey go to the text `first`, since they are written before the other lines.
    #[tactic(auto, using(crate::proofs::ListedLemmas::takes_as_requested))]
    pub fn take(&mut self, bytes: &[u8], is_end: bool, first: &mut Text, text: &mut Text) -> usize
        ensures within { result ≤ length bytes.now }
        // Few bytes stay in the buffer, so it has room for more.
        ensures kept { self.new.out_of_memory ≡ false → length bytes.now ≤ result +
            max_retained_bytes }
        ensures requested { self.new.requested ≡ self.old.requested }
        ensures as_requested { IsAsRequested self.old.requested self.old.kind
            → IsAsRequested self.new.requested self.new.kind }
        ensures kind_is_found { is_unknown self.old.kind ≡ true
            → FindsKind self.old bytes.now first.old first.new self.new }
        // Until the kind of the recording is known, no other lines are printed. At the end the kind
        // is known.
        ensures unknown { is_unknown self.new.kind ≡ true → text.new ≡ text.old }
        ensures known { is_end ≡ true → self.new.out_of_memory ≡ false
            → is_unknown self.new.kind ≡ false }
        // The first bytes of the recording are printed once, when all of them have arrived, or at
        // the end of a recording that has fewer.
        ensures stays { self.old.has_head ≡ true → self.new.has_head ≡ true }
        ensures is_waiting { is_unknown self.new.kind ≡ true → self.new.has_head ≡ false
            → result ≡ 0 }
        ensures enough { is_end ≡ false → self.old.has_head ≡ false → self.new.has_head ≡ true
            → head_size ≤ length bytes.now }
        ensures continues { is_unknown self.old.kind ≡ false → (first.new ≡ first.old)
            × (self.new.has_head ≡ self.old.has_head)
            × KeepsKind self.old.kind self.new.kind }
        // All packets of a stream in the bytes are processed, in order, each once.
        ensures taken { is_unknown self.old.kind ≡ false
            → TakesPartOfStream self.old.kind bytes.now is_end result self.new.kind }
        ensures begun { is_unknown self.old.kind ≡ true
            → TakesStartedStream self.old.skipped bytes.now is_end result self.new.kind }
        ensures skipped_before { is_unknown self.old.kind ≡ true → is_unknown self.new.kind ≡ true
            → self.new.skipped ≡ self.old.skipped + result }
    {
        if let Kind::Unknown = &self.kind {
            let used = self.find_kind(bytes, is_end, first);
            if let Kind::Unknown = &self.kind {
                return used;
            }
        }
        self.take_by_kind(bytes, is_end, text)
    }

    // Prints the first bytes of the recording once they have arrived, and determines its kind as
    // soon as that is possible. Returns how many bytes need not be examined again.
    fn find_kind(&mut self, bytes: &[u8], is_end: bool, first: &mut Text) -> usize
        ensures within { result ≤ length bytes.now }
        ensures kept { is_unknown self.new.kind ≡ true → self.new.out_of_memory ≡ false
            → length bytes.now ≤ result + max_retained_bytes }
        ensures same { self.new.requested ≡ self.old.requested }
        ensures as_requested { IsAsRequested self.old.requested self.old.kind
            → IsAsRequested self.new.requested self.new.kind }
        ensures kind_is_found { is_unknown self.old.kind ≡ true
            → FindsKind self.old bytes.now first.old first.new self.new }
        ensures known { is_end ≡ true → self.new.out_of_memory ≡ false
            → is_unknown self.new.kind ≡ false }
        ensures stays { self.old.has_head ≡ true → self.new.has_head ≡ true }
        ensures is_waiting { self.new.has_head ≡ false → result ≡ 0 }
        ensures enough { is_end ≡ false → self.old.has_head ≡ false → self.new.has_head ≡ true
            → head_size ≤ length bytes.now }
        ensures begins { is_unknown self.old.kind ≡ true
            → IsAtStreamStart self.old.skipped self.new.kind }
        ensures skipped_before { is_unknown self.old.kind ≡ true → is_unknown self.new.kind ≡ true
            → self.new.skipped ≡ self.old.skipped + result }
    {
        if !self.has_head {
            if bytes.len() < HEAD && !is_end {
                return 0;
            }
            self.report_head(bytes, first);
        }
        if let Kind::Unknown = &self.kind {
            return self.inspect(bytes, is_end, first);
        }
        0
    }

    // Processes the contents of the bytes by the kind of the recording, and returns how many bytes
    // are no longer needed.
    #[inline(always)]
    #[tactic(auto, using(crate::proofs::ListedLemmas::what_goes_on))]
    fn take_by_kind(&mut self, bytes: &[u8], is_end: bool, text: &mut Text) -> usize
        ensures within { result ≤ length bytes.now }
        ensures kept { length bytes.now ≤ result + max_retained_bytes }
        // All packets of a stream in the bytes are processed, in order, each once; at the end no
        // packet is left.
        ensures taken { TakesPartOfStream self.old.kind bytes.now is_end result self.new.kind }
        ensures kind { KeepsKind self.old.kind self.new.kind }
        ensures requested { self.new.requested ≡ self.old.requested }
        ensures same { (self.new.has_head ≡ self.old.has_head)
            × (self.new.out_of_memory ≡ self.old.out_of_memory) }
    {
        match &mut self.kind {
            Kind::Pes(file) => file.take(bytes, is_end, text),
            Kind::Stream(packets, multiplex) => packets.take(bytes, is_end, multiplex, text),
            _ => {
                self.skipped = self.skipped.saturating_add(bytes.len() as u64);
                bytes.len()
            }
        }
    }

    // Prints the first bytes of the recording, and its kind if they show it.
    fn report_head(&mut self, bytes: &[u8], first: &mut Text)
        ensures requested { self.new.requested ≡ self.old.requested }
        ensures as_requested { IsAsRequested self.old.requested self.old.kind
            → IsAsRequested self.new.requested self.new.kind }
        ensures has_head { self.new.has_head ≡ true }
        ensures reported { is_unknown self.old.kind ≡ true → self.new.out_of_memory ≡ false
            → AddsTexts first.old
            (head_texts (take head_size bytes.now) ++ kind_texts self.new.kind) first.new }
        ensures pes { is_unknown self.old.kind ≡ true → self.new.out_of_memory ≡ false
            → is_pes self.new.kind ≡ begins_with_pes_packet (take head_size bytes.now) }
        ensures memory_state { self.new.out_of_memory ≡ false → self.old.out_of_memory ≡ false }
        ensures begins { is_unknown self.old.kind ≡ true
            → IsAtStreamStart self.old.skipped self.new.kind }
        ensures skipped { self.new.skipped ≡ self.old.skipped }
    {
        self.has_head = true;
        let head = first_bytes_of(bytes);
        put_head_lines(head, first);
        if !is_pes_file(head) {
            return;
        }
        first.put(b"size 0\n");
        match PesFile::new(self.alloc, &self.requested.pages) {
            Some(file) => self.kind = Kind::Pes(file),
            None => self.out_of_memory = true,
        }
    }

    // Begins a transport stream if the packet size is requested or is found in the bytes. Prints
    // `nothing` if it is neither and the search ends. Returns how many bytes need not be examined
    // again.
    fn inspect(&mut self, bytes: &[u8], is_end: bool, first: &mut Text) -> usize
        ensures within { result ≤ length bytes.now }
        ensures kept { is_unknown self.new.kind ≡ true → self.new.out_of_memory ≡ false
            → length bytes.now ≤ result + max_retained_bytes }
        ensures same { self.new.requested ≡ self.old.requested }
        ensures as_requested { IsAsRequested self.old.requested self.old.kind
            → IsAsRequested self.new.requested self.new.kind }
        ensures has_head { self.new.has_head ≡ self.old.has_head }
        ensures memory_state { self.new.out_of_memory ≡ false → self.old.out_of_memory ≡ false }
        ensures reported { is_unknown self.old.kind ≡ true → self.new.out_of_memory ≡ false
            → AddsTexts first.old (kind_texts self.new.kind) first.new }
        ensures kind_is_not_pes { is_unknown self.old.kind ≡ true → is_pes self.new.kind ≡ false }
        ensures begins { is_unknown self.old.kind ≡ true
            → IsAtStreamStart self.old.skipped self.new.kind }
        ensures skipped_before { is_unknown self.old.kind ≡ true → is_unknown self.new.kind ≡ true
            → self.new.skipped ≡ self.old.skipped + result }
        ensures known { is_end ≡ true → self.new.out_of_memory ≡ false
            → is_unknown self.new.kind ≡ false }
    {
        if let Some(size) = packet_size_of_recording(self.requested.packet_size, bytes, is_end) {
            self.begin(size, first);
            return 0;
        }
        let used = if bytes.len() > INSPECTED_BYTES {
            bytes.len() - RETAINED_BYTES
        } else {
            0
        };
        let inspected_bytes = self.skipped.saturating_add(bytes.len() as u64);
        if is_end || inspected_bytes > MAX_INSPECTED_BYTES {
            first.put(b"nothing\n");
            self.kind = Kind::Nothing;
            return 0;
        }
        self.skipped = self.skipped.saturating_add(used as u64);
        used
    }

    // Begins a transport stream with this packet size, and prints its lines.
    fn begin(&mut self, size: PacketSize, first: &mut Text)
        ensures known { self.new.out_of_memory ≡ false → is_unknown self.new.kind ≡ false }
        ensures same { self.new.requested ≡ self.old.requested }
        ensures as_requested { IfSome self.old.requested.packet_size (λ requested. size ≡ requested)
            → IsAsRequested self.old.requested self.old.kind
            → IsAsRequested self.new.requested self.new.kind }
        ensures has_head { self.new.has_head ≡ self.old.has_head }
        ensures memory_state { self.new.out_of_memory ≡ false → self.old.out_of_memory ≡ false }
        ensures reported { self.new.out_of_memory ≡ false
            → AddsTexts first.old (kind_texts self.new.kind) first.new }
        ensures kind_is_not_pes { is_unknown self.old.kind ≡ true → is_pes self.new.kind ≡ false }
        ensures begins { is_unknown self.old.kind ≡ true
            → IsAtStreamStart self.old.skipped self.new.kind }
        ensures skipped { self.new.skipped ≡ self.old.skipped }
    {
        put_size_line(size, first);
        let requested = self.requested;
        let pid = pid_number(requested.pid);
        match Multiplex::new(self.alloc, requested.pages, pid, first) {
            Some(multiplex) => {
                let packets = PacketsInStep::new(size, self.skipped);
                self.kind = Kind::Stream(packets, multiplex);
            }
            None => self.out_of_memory = true,
        }
    }

    /// Ends the recording if `is_end` is set: prints all remaining lines, and the line `over` last.
    /// Otherwise prints the pending lines about PES packets if `has_no_more` is set.
    #[tactic(auto, using(crate::proofs::ListedLemmas::stays_as_requested))]
    pub fn end_or_flush(&mut self, is_end: bool, has_no_more: bool, text: &mut Text)
        ensures end { is_end ≡ true → ReportsEnd self.old text.new }
        ensures requested { self.new.requested ≡ self.old.requested }
        ensures as_requested { is_end ≡ false → IsAsRequested self.old.requested self.old.kind
            → IsAsRequested self.new.requested self.new.kind }
        ensures memory_state { self.new.out_of_memory ≡ self.old.out_of_memory }
        ensures kind { is_end ≡ false → KeepsKind self.old.kind self.new.kind }
        ensures head { is_end ≡ false → self.new.has_head ≡ self.old.has_head }
        ensures text { is_end ≡ false → is_unknown self.old.kind ≡ true → text.new ≡ text.old }
        ensures reads { is_end ≡ false → ReadsNoMoreOfStream self.old.kind self.new.kind }
        ensures skipped { is_end ≡ false → self.new.skipped ≡ self.old.skipped }
    {
        if is_end {
            self.end(text);
        } else if has_no_more {
            self.flush(text);
        }
    }

    // Prints the pending lines about PES packets, since no more data is available for now.
    #[tactic(auto, using(crate::proofs::ListedLemmas::what_goes_on))]
    fn flush(&mut self, text: &mut Text)
        ensures kind { KeepsKind self.old.kind self.new.kind }
        ensures requested { self.new.requested ≡ self.old.requested }
        ensures memory_state { self.new.out_of_memory ≡ self.old.out_of_memory }
        ensures head { self.new.has_head ≡ self.old.has_head }
        ensures text { is_unknown self.old.kind ≡ true → text.new ≡ text.old }
        ensures reads { ReadsNoMoreOfStream self.old.kind self.new.kind }
        ensures skipped { self.new.skipped ≡ self.old.skipped }
    {
        match &mut self.kind {
            Kind::Pes(file) => file.flush(text),
            Kind::Stream(_, multiplex) => multiplex.flush(text),
            _ => {}
        }
    }

    // Ends the recording: prints all remaining lines, and the line `over` last.
    fn end(&mut self, text: &mut Text)
        ensures reported { ReportsEnd self.old text.new }
        ensures requested { self.new.requested ≡ self.old.requested }
        ensures memory_state { self.new.out_of_memory ≡ self.old.out_of_memory }
    {
        let (skipped, number) = self.report_remaining_lines(text);
        put_counts_line(skipped, number, text);
    }

    // Prints all remaining lines except the last. Returns the number of bytes that belong to no
    // transport packet, and the number of transport packets; both are 0 for a file of PES packets.
    fn report_remaining_lines(&mut self, text: &mut Text) -> (u64, u64)
        ensures skipped { result.0 ≡ skipped_count_of_recording self.old }
        ensures packets { result.1 ≡ stream_packet_count self.old.kind }
        ensures requested { self.new.requested ≡ self.old.requested }
        ensures memory_state { self.new.out_of_memory ≡ self.old.out_of_memory }
    {
        match &mut self.kind {
            Kind::Pes(file) => {
                file.end(text);
                (0, 0)
            }
            Kind::Stream(packets, multiplex) => {
                multiplex.end(text);
                (packets.skipped(), packets.number())
            }
            _ => (self.skipped, 0),
        }
    }
}

// Returns the first bytes of a recording, as many as are printed.
fn first_bytes_of(bytes: &[u8]) -> &[u8]
    ensures bytes { result.now ≡ take head_size bytes.now }
    ensures few { length result.now ≤ head_size }
{
    let (head, _) = bytes.split_at(bytes.len().min(HEAD));
    head
}

// Prints the line `survey 1`, and the line `head` with the first bytes of a recording.
fn put_head_lines(head: &[u8], text: &mut Text)
    requires { length head.now ≤ head_size }
    ensures { AddsTexts text.old (head_texts head.now) text.new }
{
    text.put(b"survey 1\nhead");
    text.put(space_unless_empty(head));
    text.hex(head);
    text.put(b"\n");
}

// Returns a space, unless the word after it is empty.
fn space_unless_empty(word: &[u8]) -> &'static [u8]
    ensures { result.now ≡ space_before_word word.now }
{
    if word.is_empty() {
        return b"";
    }
    b" "
}

// Prints the packet size of a stream.
fn put_size_line(size: PacketSize, text: &mut Text)
    ensures { AddsTexts text.old (size_line (bytes_of size)) text.new }
{
    text.put(b"size");
    text.number(size.bytes() as u64);
    text.put(b"\n");
}

// Prints the line `over` with two counts: of the bytes that belong to no packet, and of transport
// packets.
fn put_counts_line(skipped: u64, number: u64, text: &mut Text)
    ensures { AddsTexts text.old (counts_line skipped number) text.new }
{
    text.put(b"over");
    text.number(skipped);
    text.number(number);
    text.put(b"\n");
}

// Returns the packet size: the requested packet size, or else the detected packet size, if any.
fn packet_size_of_recording(
    requested: Option<PacketSize>,
    bytes: &[u8],
    is_end: bool,
) -> Option<PacketSize>
    ensures found { IfSome result (λ size. IfSome requested (λ other. size ≡ other)) }
{
    match requested {
        Some(size) => Some(size),
        None => find_size(bytes, is_end),
    }
}

// Returns the number of a PID; `None` if no PID is requested.
fn pid_number(pid: Option<Pid>) -> Option<u16>
    ensures { result ≡ pid }
{
    match pid {
        Some(pid) => Some(pid.number()),
        None => None,
    }
}

// Returns whether a recording is taken for a file of PES packets: it begins with 00 00 01 BD, and
// the fifth byte, if there is one, is not the sync byte, which follows a time stamp with these
// bytes.
fn is_pes_file(head: &[u8]) -> bool
    ensures { result ≡ begins_with_pes_packet head.now }
{
    if head.len() < 4 || head[0] != 0 || head[1] != 0 || head[2] != 1 || head[3] != 0xBD {
        return false;
    }
    head.len() < 5 || head[4] != 0x47
}
