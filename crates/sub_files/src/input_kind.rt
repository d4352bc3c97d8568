//! Recognises the format of an input from its first bytes, and explains on standard error that an
//! input has another format than the request reads, or that its times may start again at midnight.
//!
//! No contract covers the messages; they do not affect any result.

use std::cell::Cell;
use sub_request::{FileNames, Request};

/// The format that an input file appears to have.
#[derive(Clone, Copy, Debug, PartialEq, Eq)]
pub enum InputKind {
    /// None of the other formats, or too few bytes were read.
    Unknown,
    /// An EBU STL file at 25 frames per second.
    SubtitleFile,
    /// A file of PES packets.
    PesPackets,
    /// A transport stream with packets of this many bytes: 188, 192 or 204.
    TransportStream(u8),
}

/// The formats that the inputs of a run appear to have, in the order in which they were opened, and
/// whether the first printed line is a fault of the order of times.
#[derive(Drop)]
pub struct InputKinds {
    /// The format of the file that was opened first.
    pub first: Cell<InputKind>,
    /// The format of the file that was opened second.
    pub second: Cell<InputKind>,
    /// Whether the first printed line is a fault of the order of times.
    pub has_time_fault: Cell<bool>,
}

impl InputKinds {
    /// Creates the formats of a run that has read nothing.
    pub fn new() -> Self {
        InputKinds {
            first: Cell::new(InputKind::Unknown),
            second: Cell::new(InputKind::Unknown),
            has_time_fault: Cell::new(false),
        }
    }
}

// Returns whether a line is a fault that times in the wrong order cause: 21, a TCI that is not
// before its TCO, or 56, a TCI before the TCI of the previous subtitle.
pub(crate) fn is_time_fault(line: &[u8]) -> bool {
    line.starts_with(b"refused 21 ") || line.starts_with(b"refused 56 ")
}

// The number of sync bytes, one packet apart, by which a transport stream is recognised.
const SYNC_BYTES: usize = 4;

/// Returns the format that a file with these first bytes appears to have.
pub fn input_kind_of(bytes: &[u8]) -> InputKind {
    // The GSI block begins with the CPN in 3 bytes, and the DFC (EBU Tech 3264).
    if has_text_at(bytes, 3, b"STL25.01") {
        return InputKind::SubtitleFile;
    }
    // PES packets of private_stream_1 (ISO/IEC 13818-1).
    if has_text_at(bytes, 0, &[0x00, 0x00, 0x01, 0xBD]) {
        return InputKind::PesPackets;
    }
    for size in [188u8, 192, 204] {
        for start in 0..usize::from(size) {
            if has_sync_bytes(bytes, start, usize::from(size)) {
                return InputKind::TransportStream(size);
            }
        }
    }
    InputKind::Unknown
}

// Returns whether bytes contain a text at a place.
fn has_text_at(bytes: &[u8], place: usize, text: &[u8]) -> bool {
    match bytes.split_at_checked(place) {
        Some((_, rest)) => rest.starts_with(text),
        None => false,
    }
}

// Returns whether bytes contain `SYNC_BYTES` sync bytes (0x47), `size` bytes apart, the first of
// them at `start`.
fn has_sync_bytes(bytes: &[u8], start: usize, size: usize) -> bool {
    for number in 0..SYNC_BYTES {
        let place = start.saturating_add(number.saturating_mul(size));
        if bytes.get(place) != Some(&0x47) {
            return false;
        }
    }
    true
}

/// Prints at most one line: that a refused input appears to be a transport stream that was read
/// without `--pid`, a subtitle file in the place of PES packets, or one of the other formats in the
/// place of a subtitle file; or, if `check` without `--all` refuses the order of a subtitle file's
/// times, how to check a file over midnight.
pub fn explain_refusal<E: Eprint>(request: &Request<'_>, kinds: &InputKinds, errors: &E) {
    match request.files() {
        FileNames::ReadStl(stl) | FileNames::Write(stl, _) => {
            explain_subtitle_file(stl.name(), kinds.first.get(), "", errors);
        }
        FileNames::ReadBoth(stl, pes) => {
            if kinds.has_time_fault.get() {
                explain_times(request, stl.name(), errors);
            } else if !explain_subtitle_file(stl.name(), kinds.first.get(), EXCHANGED, errors) {
                explain_pes_packets(
                    pes.name(),
                    kinds.second.get(),
                    needs_no_pid(request),
                    errors,
                );
            }
        }
        FileNames::ReadPes(pes) | FileNames::Extract(pes, _) => {
            explain_pes_packets(pes.name(), kinds.first.get(), needs_no_pid(request), errors);
        }
        FileNames::None => {}
    }
}

const EXCHANGED: &str = ": give the subtitle file first (subttx check STL PES)";

// Returns `false` only for a request without `--pid` that with `--pid` would read a transport
// stream.
fn needs_no_pid(request: &Request<'_>) -> bool {
    match request {
        Request::Packets { pes } | Request::Check { pes, .. } | Request::Listen { pes, .. } => {
            pes.stream.is_some()
        }
        _ => true,
    }
}

// Prints which tool judges a subtitle file over midnight. Prints nothing with `--all`, since that
// tool calls `check --all` itself.
fn explain_times<E: Eprint>(request: &Request<'_>, name: &str, errors: &E) {
    if let Request::Check { all: false, .. } = request {
        let _ = eprintln!(errors;
            "subttx: {name:?}: if the times start again at midnight, check the file with qc"
        );
    }
}

// Prints a line if an input in the place of a subtitle file appears to have another format. Returns
// whether a line was printed.
fn explain_subtitle_file<E: Eprint>(name: &str, kind: InputKind, advice: &str, errors: &E) -> bool {
    let format = match kind {
        InputKind::TransportStream(_) => "a transport stream",
        InputKind::PesPackets => "a file of PES packets",
        InputKind::SubtitleFile | InputKind::Unknown => return false,
    };
    let _ = eprintln!(errors; "subttx: {name:?} looks like {format}, not a subtitle file{advice}");
    true
}

// Prints a line if an input in the place of PES packets appears to be a transport stream that is
// read without `--pid`, or a subtitle file.
fn explain_pes_packets<E: Eprint>(name: &str, kind: InputKind, needs_no_pid: bool, errors: &E) {
    let _ = match kind {
        InputKind::TransportStream(188) if !needs_no_pid => eprintln!(errors;
            "subttx: {name:?} looks like a transport stream: give --pid \
            (subttx survey {name:?} lists PIDs)"
        ),
        InputKind::TransportStream(size) if !needs_no_pid => eprintln!(errors;
            "subttx: {name:?} looks like a transport stream: give --pid and --packet-size {size} \
            (subttx survey {name:?} lists PIDs)"
        ),
        InputKind::SubtitleFile => eprintln!(errors;
            "subttx: {name:?} looks like a subtitle file, not like PES packets"
        ),
        _ => return,
    };
}
