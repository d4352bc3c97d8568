//! Faults of drawing a subtitle and of loading a subtitle file.

ghost use Rattle.std.specs.Prelude.{◌≡◌};

use stl_file::StlFault;
use sub_io::FaultCode;

/// A fault in the rows of a subtitle, which are drawn from its text, VP and JC by a layout. Of
/// several faults only the first is reported: first `Character` and `Control` by byte, then the
/// others by line, and for one line in the order of the variants.
#[derive(Clone, Copy, Debug, PartialEq, Eq)]
pub enum RowFaultKind {
    /// Fault code 50: a byte that is no control code, and has no cell in the national option's set,
    /// alone or with the next byte.
    Character,
    /// Fault code 51: an unsupported control code, 00 to 1F or 80 to 9F.
    Control,
    /// Fault code 52: a prepared line of more than 40 cells.
    RowTooLong,
    /// Fault code 53: a line that isn't empty, above row 1 or below row 23.
    PastBottom,
    /// Fault code 54: a line with double height in row 23.
    DoubleRow,
    /// Fault code 55: a line that isn't empty, directly under a line with double height.
    Hidden,
}

impl RowFaultKind {
    ghost use Rattle.stl_rows.specs.Fault.{row_code};

    /// Returns the number and the name of the fault for reports.
    pub fn code(self) -> FaultCode
        ensures { result ≡ row_code self }
    {
        match self {
            RowFaultKind::Character => FaultCode::new(50, "Character"),
            RowFaultKind::Control => FaultCode::new(51, "Control"),
            RowFaultKind::RowTooLong => FaultCode::new(52, "RowTooLong"),
            RowFaultKind::PastBottom => FaultCode::new(53, "PastBottom"),
            RowFaultKind::DoubleRow => FaultCode::new(54, "DoubleRow"),
            RowFaultKind::Hidden => FaultCode::new(55, "Hidden"),
        }
    }
}

/// The reason why a subtitle cannot be drawn.
#[derive(Clone, Copy, Debug, PartialEq, Eq)]
pub struct RowFault {
    /// The kind of the fault in the subtitle's rows.
    pub kind: RowFaultKind,
    /// The position of the fault: for `Character` and `Control` the index of the byte in the joined
    /// text, otherwise the number of the line; both counted from 0.
    pub at: u16,
}

/// A fault of loading a subtitle file. The order of the variants is the order of reports for one
/// block.
#[derive(Clone, Copy, Debug, PartialEq, Eq)]
pub enum LoadFaultKind {
    /// Fault codes 10 to 26: the file is invalid or not supported, or could not be read.
    File(StlFault),
    /// Fault code 56: the TCI of a subtitle is before the TCI of the previous subtitle.
    OutOfOrder,
    /// Fault code 57: the TCI of a subtitle is before the TCO of the previous subtitle, but not
    /// before its TCI.
    Overlap,
    /// Fault codes 50 to 55: the subtitle cannot be drawn.
    Row(RowFault),
    /// Fault code 58: the memory for the subtitle could not be allocated.
    Memory,
}

impl LoadFaultKind {
    ghost use Rattle.stl_rows.specs.Fault.{load_code};

    /// Returns the number and the name of the fault for reports.
    pub fn code(self) -> FaultCode
        ensures { result ≡ load_code self }
    {
        match self {
            LoadFaultKind::File(fault) => fault.code(),
            LoadFaultKind::OutOfOrder => FaultCode::new(56, "OutOfOrder"),
            LoadFaultKind::Overlap => FaultCode::new(57, "Overlap"),
            LoadFaultKind::Row(fault) => fault.kind.code(),
            LoadFaultKind::Memory => FaultCode::new(58, "Memory"),
        }
    }
}

/// A fault that was found while a subtitle file was loaded. `load` returns the first one and no
/// programme; `load_all` reports the faults of the file, until the receiver of the reports stops
/// them, and returns only `Memory` and `Read`.
#[derive(Clone, Copy, Debug, PartialEq, Eq)]
pub struct LoadFault {
    /// The number of the TTI block with the fault, counted from 1; 0 for the GSI block. A fault of
    /// a subtitle's times or drawing has the subtitle's last block.
    pub block: u32,
    /// The kind of the fault.
    pub kind: LoadFaultKind,
}
