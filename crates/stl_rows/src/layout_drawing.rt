//! Draws the page of a subtitle by the items of a layout.

ghost use Rattle.std.specs.Prelude.{◌≡◌, ◌+◌, ◌*◌, ◌-◌, ◌<◌, ◌≤◌, ◌++◌, ◌∷◌, [], length, map, Some};
ghost use Rattle.std.specs.Prelude.{IfErr, IfSome, OnOk, None};
ghost use Rattle.std.specs.Option.{option_map_or};
ghost use Rattle.ttx_page.specs.Page.{AreCodes, blank};
ghost use Rattle.stl_rows.specs.DrawnPage.{drawn_by, last_depth, placed_fault_kinds};
ghost use Rattle.stl_rows.specs.DrawnPage.{shift_of_lines};
ghost use Rattle.stl_rows.specs.DrawnPage.{text_after_strip};
ghost use Rattle.stl_rows.specs.LineByLayout.{HaveSevenBitCells, cut_lines, drawn_from_place};
ghost use Rattle.stl_rows.specs.LineByLayout.{line_fault_at};
ghost use Rattle.stl_rows.specs.LineByLayout.{cells_and_new_lines};
ghost use Rattle.stl_rows.specs.LineByLayout.{placed_line_at, page_with_line, next_place};
ghost use Rattle.stl_rows.specs.LineByLayout.{prepared_cut_lines};
ghost use Rattle.stl_rows.specs.PreparedLine.{prepared_by_layout};
ghost use Rattle.stl_rows.specs.TextCode.{first_of, faults_of_codes, text_codes};

use crate::fault::{RowFault, RowFaultKind};
use crate::layout::LayoutItems;
use crate::line::codes_from;
use crate::national::National;
use crate::prepared_line::{LineCells, has_double_height, prepare_by, start_column_by_layout};
use crate::record::Record;
use crate::text_code::{TextCode, text_code_at};
use arrayvec::ArrayVec;
use ttx_page::Page;

// The bytes of a text, or the cells of a text with 8A for each new line.
type TextBuffer = ArrayVec<u8, 1008>;

// Replaces the bytes of a text that the layout item `strip` names by 80, a byte without a cell.
fn text_after_strip(items: &LayoutItems, text: &[u8]) -> TextBuffer
    requires { length text.now ≤ 1008 }
    ensures value { result.items ≡ text_after_strip items.now text.now }
    ensures few { length result.items ≤ 1008 }
{
    let mut bytes = TextBuffer::new();
    for byte in text {
        bytes.push(if items.strips_byte(*byte) {
            0x80
        } else {
            *byte
        });
    }
    bytes
}

// Decodes a text into its cells, with 8A for each new line, or returns the fault of the first
// rejected byte.
fn read_cells(national: National, text: &[u8], cells: &mut TextBuffer) -> Result<(), RowFault>
    requires none { cells.old.items ≡ [] }
    requires at_most_1008 { length text.now ≤ 1008 }
    ensures cells { OnOk result
        (cells.new.items ≡ cells_and_new_lines (text_codes national 0 text.now)) }
    ensures sound { OnOk result (faults_of_codes (text_codes national 0 text.now) ≡ []) }
    ensures fault { IfErr result (λ fault.
        first_of (faults_of_codes (text_codes national 0 text.now)) ≡ Some fault) }
{
    let mut at = 0;
    while at < text.len() {
        let (code, next) = text_code_at(national, text, at);
        match code {
            TextCode::Cell(cell) => cells.push(cell),
            TextCode::NewLine => cells.push(0x8A),
            TextCode::NoCell => {}
            TextCode::Refused(kind) => {
                return Err(RowFault {
                    kind,
                    at: at as u16,
                });
            }
        }
        at = next;
    }
    Ok(())
}

// Returns the first line of the cells, and the cells after the new line that ends it, if any.
fn first_line(cells: &[u8]) -> (&[u8], Option<&[u8]>)
    ensures lines { cut_lines cells.now
        ≡ result.0.now ∷ option_map_or (λ more. cut_lines more.now) result.1 [] }
    ensures less { option_map_or (λ more. length more.now) result.1 0 + length result.0.now
        ≤ length cells.now }
    ensures shorter { IfSome result.1 (λ more. length more.now < length cells.now) }
{
    let mut at = 0;
    while at < cells.len() {
        if cells[at] == 0x8A {
            let (line, following) = cells.split_at(at);
            return (line, Some(following.split_at(1).1));
        }
        at += 1;
    }
    (cells, None)
}

// Returns the depth of the last line that is not empty, if line 0 has depth 0; 0 if all lines are
// empty.
fn last_depth(items: &LayoutItems, cells: &[u8]) -> u16
    requires { length cells.now ≤ 1008 }
    ensures value { result ≡ last_depth items.now 0 0 (prepared_cut_lines items.now cells.now) }
    ensures small { result ≤ 2016 }
{
    let pitch = if items.double { 2 } else { 1 };
    let mut depth = 0;
    let mut last = 0;
    let mut line = LineCells::new();
    let mut rest = cells;
    'lines: loop {
        let (cells, following) = first_line(rest);
        prepare_by(&mut line, items, cells);
        if !line.is_empty() {
            last = depth;
        }
        if !line.is_empty() || !items.pack {
            depth += pitch;
        }
        match following {
            Some(more) => rest = more,
            None => return last,
        }
    }
}

// Returns the number of rows to subtract from the depth of each line.
fn shift_of_lines(items: &LayoutItems, cells: &[u8]) -> u16
    requires { length cells.now ≤ 1008 }
    ensures value { result ≡ shift_of_lines items.now (prepared_cut_lines items.now cells.now) }
    ensures small { result ≤ 2271 }
{
    let rows_up = u16::from(items.rows_up);
    if items.last {
        rows_up + last_depth(items, cells)
    } else {
        rows_up
    }
}

// The position of a line on the page.
#[derive(Clone, Copy)]
struct Place {
    // The number of the line among all lines of the subtitle, counted from 0.
    number: u16,
    // The row of the line before `row_shift` rows are subtracted.
    depth: u16,
    // Whether the line directly above has double height.
    is_below_double_height: bool,
}

impl Place {
    // Returns the first fault of a line at this position on the page, or `None` if the line has no
    // fault or takes no row.
    #[tactic(auto, unfolding(crate::specs::LineByLayout::line_fault_at))]
    fn fault(&self, items: &LayoutItems, row_shift: u16, line: &[u8]) -> Option<RowFault>
        requires { row_shift ≤ 2271 }
        ensures { result ≡ line_fault_at items.now row_shift self.now line.now }
    {
        if items.pack && line.is_empty() {
            return None;
        }
        let kind = self.fault_kind(items, row_shift, line)?;
        Some(RowFault {
            kind,
            at: self.number,
        })
    }

    // Returns the kind of the first fault of a line at this position on the page, or `None` if the
    // line has no fault.
    #[tactic(auto, unfolding(crate::specs::DrawnPage::placed_fault_kinds))]
    fn fault_kind(&self, items: &LayoutItems, row_shift: u16, line: &[u8]) -> Option<RowFaultKind>
        requires { row_shift ≤ 2271 }
        ensures { result ≡ first_of
            (placed_fault_kinds items.now row_shift (placed_line_at self.now line.now)) }
    {
        if line.len() > 40 {
            return Some(RowFaultKind::RowTooLong);
        }
        if !line.is_empty() && (self.depth <= row_shift || self.depth > row_shift + 23) {
            return Some(RowFaultKind::PastBottom);
        }
        if self.depth == row_shift + 23 && has_double_height(line) {
            return Some(RowFaultKind::DoubleRow);
        }
        if !line.is_empty() && self.is_below_double_height && !items.double {
            return Some(RowFaultKind::Hidden);
        }
        None
    }

    // Moves the position to the next line.
    #[tactic(auto, unfolding(crate::specs::LineByLayout::next_place))]
    fn move_to_next_line(&mut self, items: &LayoutItems, line: &[u8])
        requires number { self.old.number ≤ 1008 }
        requires depth { self.old.depth ≤ 3000 }
        ensures { self.new ≡ next_place items.now self.old line.now }
    {
        self.number += 1;
        if items.pack && line.is_empty() {
            return;
        }
        self.depth += if items.double { 2 } else { 1 };
        self.is_below_double_height = has_double_height(line);
    }
}

// Draws a line without a fault in its row of the page.
#[tactic(auto, unfolding(crate::specs::LineByLayout::page_with_line))]
fn draw_line(
    items: &LayoutItems,
    jc: u8,
    row_shift: u16,
    place: &Place,
    line: &[u8],
    page: &mut Page,
)
    requires sound { line_fault_at items.now row_shift place.now line.now ≡ None }
    requires codes { AreCodes line.now }
    ensures { page.new ≡ page_with_line items.now jc row_shift place.now line.now page.old }
{
    if line.is_empty() {
        return;
    }
    let row = place.depth - row_shift;
    page.set_row(
        row as u8,
        &codes_from(start_column_by_layout(items, jc, line), line),
    );
}

// Draws the lines of the cells on a blank page, or returns the first fault of the lines.
fn draw_lines(
    items: &LayoutItems,
    jc: u8,
    first: Place,
    row_shift: u16,
    cells: &[u8],
) -> Result<Page, RowFault>
    requires number { first.number ≡ 0 }
    requires depth { first.depth ≤ 278 }
    requires row_shift { row_shift ≤ 2271 }
    requires at_most_1008 { length cells.now ≤ 1008 }
    requires codes { HaveSevenBitCells (cut_lines cells.now) }
    ensures { drawn_from_place items.now jc row_shift first blank (prepared_cut_lines items.now
        cells.now) ≡ result }
{
    let mut page = Page::blank();
    let mut place = first;
    let mut line = LineCells::new();
    let mut rest = cells;
    'lines: loop {
        let (cells, following) = first_line(rest);
        prepare_by(&mut line, items, cells);
        if let Some(fault) = place.fault(items, row_shift, line.as_slice()) {
            return Err(fault);
        }
        draw_line(items, jc, row_shift, &place, line.as_slice(), &mut page);
        place.move_to_next_line(items, line.as_slice());
        match following {
            Some(more) => rest = more,
            None => return Ok(page),
        }
    }
}

/// Draws a subtitle's text on a page with a national option and the items of a layout.
///
/// # Errors
///
/// Returns the errors of `draw`.
pub(crate) fn draw_with_layout(
    national: National,
    items: &LayoutItems,
    subtitle: &Record<'_>,
) -> Result<Page, RowFault>
    ensures { result ≡ drawn_by national items.now subtitle.now }
{
    let text = text_after_strip(items, subtitle.text());
    let mut cells = TextBuffer::new();
    read_cells(national, text.as_slice(), &mut cells)?;
    let row_shift = shift_of_lines(items, cells.as_slice());
    let first = Place {
        number: 0,
        depth: u16::from(subtitle.vp()) + u16::from(items.rows_down),
        is_below_double_height: false,
    };
    draw_lines(items, subtitle.jc(), first, row_shift, cells.as_slice())
}
