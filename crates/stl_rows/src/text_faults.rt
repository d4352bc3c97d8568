//! Finds the first fault of a subtitle's text, with the default layout in one pass.
//!
//! Loading a subtitle needs its faults, but not its page. So two functions read a text by the same
//! definition: a single function would need 570 instructions in addition to the 390 for finding
//! faults.

ghost use Rattle.std.specs.Prelude.{◌≡◌, ◌<◌, ◌≤◌, length, IsOk, MatchOption, Err, None, false};
ghost use Rattle.stl_rows.specs.DrawnPage.{drawn};
ghost use Rattle.stl_rows.specs.LineByLine.{empty_line, next_empty_line, shape_fault_kinds};
ghost use Rattle.stl_rows.specs.LineByLine.{first_fault_of_codes};
ghost use Rattle.stl_rows.specs.LineByLine.{first_fault_up_to_line, with_cell};
ghost use Rattle.stl_rows.specs.TextCode.{first_of, text_codes};

use crate::fault::{RowFault, RowFaultKind};
use crate::layout::Drawing;
use crate::layout_drawing::draw_with_layout;
use crate::national::National;
use crate::record::Record;
use crate::text_code::{TextCode, text_code_at};

// The current line of a text: its number and row, and the properties of its cells that decide the
// line's faults.
#[derive(Clone, Copy)]
struct OpenLine {
    number: u16,
    row: u16,
    // Whether the line directly above has double height.
    is_below_double_height: bool,
    len: u16,
    has_start_box_code: bool,
    has_double_height: bool,
}

impl OpenLine {
    // Creates the first line of a text, in row VP.
    fn first(vp: u8) -> OpenLine
        ensures { result ≡ empty_line 0 vp false }
    {
        OpenLine {
            number: 0,
            row: u16::from(vp),
            is_below_double_height: false,
            len: 0,
            has_start_box_code: false,
            has_double_height: false,
        }
    }

    fn push(&mut self, cell: u8)
        requires { self.old.len < 1008 }
        ensures { self.new ≡ with_cell self.old cell }
    {
        self.len += 1;
        self.has_start_box_code = self.has_start_box_code || cell == 0x0B;
        self.has_double_height = self.has_double_height || cell == 0x0D;
    }

    // Moves to the next line of the text, which has no cells yet.
    fn end(&mut self)
        requires number { self.old.number ≤ 1008 }
        requires row { self.old.row ≤ 1031 }
        ensures { self.new ≡ next_empty_line self.old }
    {
        *self = OpenLine {
            number: self.number + 1,
            row: self.row + 1,
            is_below_double_height: self.has_double_height,
            len: 0,
            has_start_box_code: false,
            has_double_height: false,
        };
    }

    // Returns the kind of the first fault of the current line, or `None` if the line has no fault.
    #[tactic(auto, unfolding(crate::specs::LineByLine::shape_fault_kinds))]
    fn fault_kind(&self) -> Option<RowFaultKind>
        requires { self.now.len ≤ 1008 }
        ensures { result ≡ first_of (shape_fault_kinds self.now) }
    {
        let room = if self.has_start_box_code { 40 } else { 36 };
        if self.len > room {
            return Some(RowFaultKind::RowTooLong);
        }
        if self.len > 0 && self.row > 23 {
            return Some(RowFaultKind::PastBottom);
        }
        if self.has_double_height && self.row == 23 {
            return Some(RowFaultKind::DoubleRow);
        }
        if self.len > 0 && self.is_below_double_height {
            return Some(RowFaultKind::Hidden);
        }
        None
    }

    // Returns the fault found before the current line, or else the first fault of this line, or
    // `None` if there is neither.
    fn first_fault(&self, before: Option<RowFault>) -> Option<RowFault>
        requires { self.now.len ≤ 1008 }
        ensures { result ≡ first_fault_up_to_line before self.now }
    {
        if before.is_some() {
            return before;
        }
        match self.fault_kind() {
            Some(kind) => Some(RowFault {
                kind,
                at: self.number,
            }),
            None => None,
        }
    }
}

// Returns the first fault of a text whose first line is in row VP, if any. Rejected bytes are
// reported before the faults of lines.
fn fault_of_text(national: National, vp: u8, text: &[u8]) -> Option<RowFault>
    requires last { vp ≤ 23 }
    requires at_most_1008 { length text.now ≤ 1008 }
    ensures { result
        ≡ first_fault_of_codes None (empty_line 0 vp false) (text_codes national 0 text.now) }
{
    let mut fault = None;
    let mut line = OpenLine::first(vp);
    let mut at = 0;
    while at < text.len() {
        let (code, next) = text_code_at(national, text, at);
        match code {
            TextCode::Cell(cell) => line.push(cell),
            TextCode::NewLine => {
                fault = line.first_fault(fault);
                line.end();
            }
            TextCode::NoCell => {}
            TextCode::Refused(kind) => {
                return Some(RowFault {
                    kind,
                    at: at as u16,
                });
            }
        }
        at = next;
    }
    line.first_fault(fault)
}

/// Returns the fault that prevents a subtitle from being drawn, or `None` if the subtitle can be
/// drawn.
pub(crate) fn first_fault(subtitle: &Record<'_>, drawing: &Drawing) -> Option<RowFault>
    ensures { MatchOption result (IsOk (drawn drawing.now subtitle.now))
        (λ fault. drawn drawing.now subtitle.now ≡ Err fault) }
{
    match &drawing.layout.items {
        // The default layout needs one pass over the text, without storing cells.
        None => fault_of_text(drawing.national, subtitle.vp(), subtitle.text()),
        Some(items) => match draw_with_layout(drawing.national, items, subtitle) {
            Ok(_) => None,
            Err(fault) => Some(fault),
        },
    }
}
