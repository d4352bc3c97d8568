//! The rows of a page, with a mark for each byte that was received with even parity.
ghost use Rattle.std.specs.Prelude.{◌≤◌, ◌<◌};

use crate::text::Text;
use ttx_packet::{Packet, is_odd};
use ttx_page::Page;

/// The mark for a cell whose byte was received with even parity.
pub const CORRUPT_CELL: u8 = 0xA0;

/// A row of 40 spaces.
const SPACES: [u8; 40] = [0x20; 40];

/// Rows 1 to 24 of a page: each cell has its code, or `CORRUPT_CELL`.
#[derive(Clone, Copy, PartialEq, Eq)]
pub struct Rows {
    cells: [[u8; 40]; 24],
}

/// Returns the cells of a row from its packet: the code of each byte, or `CORRUPT_CELL` if the byte
/// has even parity.
pub fn cells_of(packet: &Packet) -> [u8; 40] {
    cells_of_bytes(packet.data())
}

// Returns the cells for the 40 bytes of a row.
fn cells_of_bytes(bytes: &[u8; 40]) -> [u8; 40] {
    let mut cells = *bytes;
    for column in 0..40usize {
        cells[column] = cell_of(bytes[column]);
    }
    cells
}

// Returns the cell for a byte of a row: its code, or `CORRUPT_CELL` if the byte has even parity.
fn cell_of(byte: u8) -> u8 {
    if is_odd(byte) {
        byte % 0x80
    } else {
        CORRUPT_CELL
    }
}

impl Rows {
    /// Creates 24 blank rows.
    pub fn blank_rows() -> Rows {
        Rows {
            cells: [SPACES; 24],
        }
    }

    /// Replaces the cells of a row, 1 to 24.
    pub fn set(&mut self, row: u8, cells: [u8; 40])
        requires first { 1 ≤ row }
        requires last { row ≤ 24 }
    {
        self.cells[row as usize - 1] = cells;
    }

    /// Prints the rows that are not blank.
    pub fn report(&self, text: &mut Text) {
        let mut separator = b' ';
        for row in 0..24usize {
            separator = report_row(separator, row, &self.cells[row], text);
        }
        text.put(end_word(separator));
    }

    /// Prints the page of a receiver that received these rows.
    pub fn report_received_page(&self, page: &Page, text: &mut Text) {
        let mut separator = b' ';
        for row in 0..24usize {
            let cells = reported_cells(page.row(row as u8 + 1), &self.cells[row]);
            separator = report_row(separator, row, &cells, text);
        }
        text.put(end_word(separator));
    }
}

// Returns the cells of a row as they are printed: the codes of the receiver's page, with
// `CORRUPT_CELL` for spaces whose bytes had even parity.
fn reported_cells(stored: &[u8; 40], heard: &[u8; 40]) -> [u8; 40] {
    let mut cells = *stored;
    for column in 0..40usize {
        cells[column] = reported_cell(stored[column], heard[column]);
    }
    cells
}

// Returns a cell as it is printed: the code of the receiver's page, or `CORRUPT_CELL` for a space
// whose byte had even parity.
fn reported_cell(stored: u8, heard: u8) -> u8 {
    if stored == 0x20 && heard == CORRUPT_CELL {
        CORRUPT_CELL
    } else {
        stored
    }
}

// Prints a row after a separator, unless the row is blank. Returns the separator for the next row.
fn report_row(separator: u8, row: usize, cells: &[u8; 40], text: &mut Text) -> u8
    requires { row < 24 }
{
    if is_blank(cells) {
        return separator;
    }
    report_cells(separator, row, cells, text);
    b','
}

// Returns whether a row is blank.
fn is_blank(cells: &[u8; 40]) -> bool {
    *cells == [0x20; 40]
}

// Prints the cells of a row after a separator.
fn report_cells(separator: u8, row: usize, cells: &[u8; 40], text: &mut Text)
    requires { row < 24 }
{
    text.separated_number(separator, row as u64 + 1);
    text.put(b":");
    text.hex(cells);
}

// Returns the end of a line of rows, with a hyphen before it if no row was printed.
fn end_word(separator: u8) -> &'static [u8] {
    if separator == b' ' { b" -\n" } else { b"\n" }
}
