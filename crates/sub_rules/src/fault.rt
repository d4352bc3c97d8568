//! The faults of a subtitle file and a PES file, with their places.
ghost use Rattle.std.specs.Prelude.{◌≡◌, ◌≤◌, false, length, true};
ghost use Rattle.sub_rules.specs.Fault.{row_with_code, fault_row, code_of_end_rule};
ghost use Rattle.sub_rules.specs.Fault.{row_with_number};
ghost use Rattle.sub_rules.specs.declared.fault_place.FaultPlace.TheVariants.{Frame, Packet};

use crate::end_rule::EndRule;
use crate::fault_place::FaultPlace;
use crate::fault_row::FaultRow;
use stl_rows::{LoadFault, LoadFaultKind};
use sub_io::FaultCode;
use ttx_pes::PesFault;

/// A fault of a subtitle file or a PES file, with its place.
///
/// `pes` counts PES packets from 0. `frame` is a frame of the day. `packet` counts the Teletext
/// packets of the frame from 0: those of its PES packet or, if `within` is not 0, those of all its
/// PES packets between which at most skipped packets come. `row` is 1 to 24, `column` 0 to 39.
#[derive(Clone, Copy, Debug, PartialEq, Eq)]
pub enum CheckFault {
    /// The subtitle file has a fault or could not be read, or the memory for it ran out.
    Subtitles(LoadFault),
    /// A PES packet is not a valid PES packet with Teletext or is one too many, or reading the file
    /// failed.
    Pes {
        /// The number of the PES packet, counted from 0.
        pes: u32,
        /// The fault of the PES packet.
        fault: PesFault,
    },
    /// The PES file has no PES packet.
    Empty,
    /// The PTS of a PES packet belongs to no frame of the day.
    OffFrame {
        /// The number of the PES packet, counted from 0.
        pes: u32,
    },
    /// The frame of a PES packet is before the frame of the previous PES packet that was not
    /// skipped or, if `within` is 0, the same.
    Order {
        /// The number of the PES packet, counted from 0.
        pes: u32,
    },
    /// The first subtitle begins before the first frame of the transmission.
    Early {
        /// The first frame of the transmission.
        frame: u32,
    },
    /// An address byte of a Teletext packet is not a code word.
    Address {
        /// The frame of the Teletext packet.
        frame: u32,
        /// The number of the Teletext packet in its frame, counted from 0.
        packet: u32,
    },
    /// One of the eight coded bytes of a packet X/0 is not a code word.
    HeaderCode {
        /// The frame of the Teletext packet.
        frame: u32,
        /// The number of the Teletext packet in its frame, counted from 0.
        packet: u32,
    },
    /// C11 (magazine serial) of a page header differs from that of the first page header that could
    /// be decoded.
    Mode {
        /// The frame of the Teletext packet.
        frame: u32,
        /// The number of the Teletext packet in its frame, counted from 0.
        packet: u32,
    },
    /// A header of the page does not have the control bits of a subtitle page: C4, C6 or C7 is
    /// clear, C5 or C10 is set, or C12 to C14 are not those of the national option. If repeats may
    /// keep the page, C4 may be clear in a header that repeats it.
    Control {
        /// The frame of the Teletext packet.
        frame: u32,
        /// The number of the Teletext packet in its frame, counted from 0.
        packet: u32,
    },
    /// A row of the open page has a text byte with even parity.
    Parity {
        /// The frame of the Teletext packet.
        frame: u32,
        /// The number of the Teletext packet in its frame, counted from 0.
        packet: u32,
    },
    /// The codes of a row of the open page differ from those of the first packet of the same row
    /// that was sent while the page was open, since its last header or, if repeats may keep the
    /// page, since the last header that erases it, if any.
    RowChanged {
        /// The frame of the Teletext packet.
        frame: u32,
        /// The number of the Teletext packet in its frame, counted from 0.
        packet: u32,
    },
    /// A packet X/25 to X/28 of the page's magazine is sent while the page is open.
    Enhancement {
        /// The frame of the Teletext packet.
        frame: u32,
        /// The number of the Teletext packet in its frame, counted from 0.
        packet: u32,
    },
    /// The first frame of the transmission has no header of the page.
    NoFirstHeader {
        /// The first frame of the transmission.
        frame: u32,
    },
    /// At the end of a frame, a cell of the page differs from the expected page, or a row with
    /// expected text was not sent since the last header of the page, while the page was open. If
    /// the page may take `within` frames to become correct, the fault is reported when the page is
    /// overdue, or at once if the cell has a code other than a space that was not expected within
    /// these frames, and their expected pages are known.
    Content {
        /// The frame at whose end the cell is wrong.
        frame: u32,
        /// The row of the cell, 1 to 24.
        row: u8,
        /// The column of the cell, 0 to 39.
        column: u8,
    },
    /// The repeat bound is exceeded: no frame within it had a header of the page.
    Gap {
        /// The first frame at whose end the repeat bound is exceeded.
        frame: u32,
    },
    /// At the end of a frame, the page is open although complete pages are required: no later
    /// header has ended it. If the page may take `within` frames to become correct, the fault is
    /// reported only when the page is overdue.
    Incomplete {
        /// The frame at whose end the page is open.
        frame: u32,
    },
    /// At the end of a frame, the expected page is unknown because of an unreliable subtitle; or,
    /// from the first frame on, it was unknown at one of the `within` frames before.
    Undecided {
        /// The first frame at whose end this is so.
        frame: u32,
    },
    /// The pace is exceeded: no frame within it had a PES packet.
    Silent {
        /// The first frame at whose end the pace is exceeded.
        frame: u32,
    },
    /// The last TCO is after the last frame. If the page may take `within` frames to become
    /// correct, also if at the end of the last frame the page is still wrong, or open although
    /// complete pages are required, but not yet overdue.
    Late {
        /// The last frame of the transmission.
        frame: u32,
    },
}

impl CheckFault {
    ghost use Rattle.sub_rules.specs.Fault.{code_of_check_fault, fault_with_pes_number};
    ghost use Rattle.sub_rules.specs.Fault.{place_of_fault};

    /// Returns the row of the fault in the table of faults.
    pub fn row(self) -> FaultRow
        ensures { result ≡ fault_row self }
    {
        match self {
            CheckFault::Subtitles(load) => load_row(load),
            CheckFault::Pes { pes, fault } => pes_row(pes, fault),
            CheckFault::Empty => row_with_number(60, "Empty", FaultPlace::Nowhere, false),
            CheckFault::OffFrame { pes } => FaultRow {
                is_skipped: true,
                ..row_with_number(61, "OffFrame", FaultPlace::Pes { pes }, true)
            },
            CheckFault::Order { pes } => row_with_number(
                62,
                "Order",
                FaultPlace::Pes { pes },
                true,
            ),
            CheckFault::Early { frame } => frame_row(63, "Early", frame),
            CheckFault::Address { frame, packet } => packet_row(64, "Address", frame, packet, true),
            CheckFault::HeaderCode { frame, packet } => {
                packet_row(65, "HeaderCode", frame, packet, true)
            }
            CheckFault::Mode { frame, packet } => packet_row(66, "Mode", frame, packet, false),
            CheckFault::Control { frame, packet } => packet_row(67, "Control", frame, packet, true),
            CheckFault::Parity { frame, packet } => packet_row(68, "Parity", frame, packet, true),
            CheckFault::RowChanged { frame, packet } => {
                packet_row(69, "RowChanged", frame, packet, true)
            }
            CheckFault::Enhancement { frame, packet } => {
                packet_row(70, "Enhancement", frame, packet, false)
            }
            CheckFault::NoFirstHeader { frame } => frame_row(71, "NoFirstHeader", frame),
            CheckFault::Content { frame, row, column } => {
                end_row(EndRule::Content, FaultPlace::Cell { frame, row, column })
            }
            CheckFault::Gap { frame } => end_row(EndRule::Gap, FaultPlace::Frame { frame }),
            CheckFault::Incomplete { frame } => {
                end_row(EndRule::Incomplete, FaultPlace::Frame { frame })
            }
            CheckFault::Undecided { frame } => {
                end_row(EndRule::Undecided, FaultPlace::Frame { frame })
            }
            CheckFault::Silent { frame } => end_row(EndRule::Silent, FaultPlace::Frame { frame }),
            CheckFault::Late { frame } => frame_row(74, "Late", frame),
        }
    }

    /// Returns the number and name of the fault (not defined by a standard).
    pub fn code(self) -> FaultCode
        ensures { result ≡ code_of_check_fault self }
    {
        self.row().code
    }

    /// Returns the place of the fault: a block or a text position in the subtitle file; or a PES
    /// packet, a frame, a Teletext packet or a cell; `Nowhere` for `Empty`.
    pub fn place(self) -> FaultPlace
        ensures { result ≡ place_of_fault self }
    {
        self.row().place
    }

    /// Returns the same fault with PES packet number `pes`, if its place is a PES packet.
    pub fn with_pes_number(self, pes: u32) -> CheckFault
        ensures { result ≡ fault_with_pes_number pes self }
    {
        match self {
            CheckFault::Order { .. } => CheckFault::Order { pes },
            CheckFault::Pes { fault, .. } => CheckFault::Pes { pes, fault },
            CheckFault::OffFrame { .. } => CheckFault::OffFrame { pes },
            _ => self,
        }
    }
}

// Returns the row of a fault of the subtitle file in the table of faults.
fn load_row(fault: LoadFault) -> FaultRow
    ensures { result ≡ fault_row (CheckFault.Subtitles fault) }
{
    let block = fault.block;
    let place = match fault.kind {
        LoadFaultKind::Row(row) => FaultPlace::Text { block, at: row.at },
        _ => FaultPlace::Block { block },
    };
    row_with_code(fault.kind.code(), place, false)
}

// Returns the row of a fault of a PES packet in the table of faults.
fn pes_row(pes: u32, fault: PesFault) -> FaultRow
    ensures { result ≡ fault_row (CheckFault.Pes pes fault) }
{
    FaultRow {
        is_skipped: fault.is_packet_content_fault(),
        ..row_with_code(fault.code(), FaultPlace::Pes { pes }, true)
    }
}

// Returns the table row of a fault whose PES packet is not skipped.
fn row_with_code(code: FaultCode, place: FaultPlace, invalidates: bool) -> FaultRow
    ensures { result ≡ row_with_code code place invalidates }
{
    FaultRow {
        code,
        place,
        invalidates,
        is_skipped: false,
    }
}

fn row_with_number(number: u8, name: &'static str, place: FaultPlace, invalidates: bool) -> FaultRow
    requires { length name.now ≤ 16 }
    ensures { result ≡ row_with_number number name.now place invalidates }
{
    row_with_code(FaultCode::new(number, name), place, invalidates)
}

// Returns the row of a fault of a Teletext packet in the table of faults.
fn packet_row(
    number: u8,
    name: &'static str,
    frame: u32,
    packet: u32,
    invalidates: bool,
) -> FaultRow
    requires { length name.now ≤ 16 }
    ensures { result ≡ row_with_number number name.now (Packet frame packet) invalidates }
{
    row_with_number(
        number,
        name,
        FaultPlace::Packet { frame, packet },
        invalidates,
    )
}

fn frame_row(number: u8, name: &'static str, frame: u32) -> FaultRow
    requires { length name.now ≤ 16 }
    ensures { result ≡ row_with_number number name.now (Frame frame) false }
{
    row_with_number(number, name, FaultPlace::Frame { frame }, false)
}

fn end_row(rule: EndRule, place: FaultPlace) -> FaultRow
    ensures { result ≡ row_with_code (code_of_end_rule rule) place true }
{
    row_with_code(rule.code(), place, true)
}
