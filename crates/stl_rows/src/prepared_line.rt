//! Lines of cells prepared by a layout, and the row that shows a line.

ghost use Rattle.std.specs.Prelude.{◌≡◌, ◌+◌, ◌-◌, ◌<◌, ◌≤◌, ◌++◌, ◌∷◌, [], length};
ghost use Rattle.std.specs.Prelude.{◌==◌};
ghost use Rattle.std.specs.List.{list_any};
ghost use Rattle.stl_rows.specs.Layout.{codes_of_places};
ghost use Rattle.stl_rows.specs.Line.{has_double_height};
ghost use Rattle.stl_rows.specs.PreparedLine.{line_with_layout_codes, line_with_before_codes};
ghost use Rattle.stl_rows.specs.PreparedLine.{leading_count, prepared_by_layout};
ghost use Rattle.stl_rows.specs.PreparedLine.{start_column_by_layout};
ghost use Rattle.stl_rows.specs.PreparedLine.{trailing_count, trimmed, uncounted_cells};
ghost use Rattle.stl_rows.specs.PreparedLine.{start_column_for};
ghost use Rattle.stl_rows.specs.PreparedLine.{effective_jc};
ghost use Rattle.stl_rows.specs.TextCode.{is_within};

use crate::layout::{Attribute, LayoutItems};
use arrayvec::ArrayVec;

/// The cells of a prepared line: at most 1008 cells of a text, and the codes that a layout adds.
pub(crate) type LineCells = ArrayVec<u8, 1025>;

fn is_within(first: u8, last: u8, code: u8) -> bool
    ensures { result ≡ is_within first last code }
{
    first <= code && code <= last
}

// Returns the number of cells at the start of a line that are in a range of codes.
fn leading_count(first: u8, last: u8, cells: &[u8]) -> usize
    ensures value { result ≡ leading_count first last cells.now }
    ensures within { result ≤ length cells.now }
{
    let mut count = 0;
    while count < cells.len() {
        if !is_within(first, last, cells[count]) {
            return count;
        }
        count += 1;
    }
    count
}

// Returns the number of cells at the end of a line that are in a range of codes.
fn trailing_count(first: u8, last: u8, cells: &[u8]) -> usize
    ensures value { result ≡ trailing_count first last cells.now }
    ensures within { result ≤ length cells.now }
{
    let mut left = cells.len();
    while left > 0 {
        if !is_within(first, last, cells[left - 1]) {
            return cells.len() - left;
        }
        left -= 1;
    }
    cells.len()
}

#[tactic(auto, unfolding(crate::specs::PreparedLine::trimmed))]
fn trimmed(cells: &[u8]) -> &[u8]
    ensures value { result.now ≡ trimmed cells.now }
    ensures few { length result.now ≤ length cells.now }
{
    let (_, rest) = cells.split_at(leading_count(0x20, 0x20, cells));
    let (kept, _) = rest.split_at(rest.len() - trailing_count(0x20, 0x20, rest));
    kept
}

// Returns whether a line of cells contains a code.
fn has(cells: &[u8], code: u8) -> bool
    ensures { result ≡ list_any (λ c. c == code) cells.now }
{
    cells.iter().any(|c| *c == code)
}

// Returns whether one of the cells is a colour, 01 to 07.
fn has_colour(cells: &[u8]) -> bool
    ensures { result ≡ list_any (is_within 0x01 0x07) cells.now }
{
    cells.iter().any(|c| is_within(0x01, 0x07, *c))
}

fn push_cells(line: &mut LineCells, cells: &[u8])
    requires { length line.old.items + length cells.now ≤ 1025 }
    ensures value { line.new.items ≡ line.old.items ++ cells.now }
    ensures few { length line.new.items ≡ length line.old.items + length cells.now }
{
    let added = line.try_extend_from_slice(cells);
    prove!(added.is_ok());
}

// Appends spacing attributes of a layout to a prepared line.
fn push_codes(line: &mut LineCells, codes: &[Option<Attribute>])
    requires { length line.old.items + length codes.now ≤ 1025 }
    ensures value { line.new.items ≡ line.old.items ++ codes_of_places codes.now }
    ensures few { length line.new.items ≤ length line.old.items + length codes.now }
{
    for code in codes {
        if let Some(attribute) = code {
            line.push(attribute.code());
        }
    }
}

// Builds a line from its own cells and the codes that a layout adds at the front.
#[tactic(auto, unfolding(crate::specs::PreparedLine::line_with_before_codes))]
fn push_headed(line: &mut LineCells, items: &LayoutItems, cells: &[u8])
    requires none { line.old.items ≡ [] }
    requires at_most_1008 { length cells.now ≤ 1008 }
    ensures value { line.new.items ≡ line_with_before_codes items.now cells.now }
    ensures few { length line.new.items ≤ 1021 }
{
    let (codes, rest) = cells.split_at(leading_count(0, 0x1F, cells));
    push_codes(line, &items.ahead);
    push_cells(line, codes);
    if items.white && !has_colour(codes) {
        push_cells(line, &[0x07]);
    }
    push_codes(line, &items.following);
    push_cells(line, rest);
}

// Builds a line from cells and all codes that a layout adds. An empty line gets no codes.
#[tactic(auto, unfolding(crate::specs::PreparedLine::line_with_layout_codes))]
fn push_framed(line: &mut LineCells, items: &LayoutItems, cells: &[u8])
    requires none { line.old.items ≡ [] }
    requires at_most_1008 { length cells.now ≤ 1008 }
    ensures { line.new.items ≡ line_with_layout_codes items.now cells.now }
{
    if cells.is_empty() {
        return;
    }
    push_headed(line, items, cells);
    let len = line.len();
    push_codes(line, &items.after);
    if items.fit {
        line.truncate(len.max(40));
    }
}

/// Prepares a line of cells by a layout.
#[rattlefmt::skip]
#[tactic(auto, unfolding(
    crate::specs::PreparedLine::prepared_by_layout,
    crate::specs::Line::has_start_box_code
))]
pub(crate) fn prepare_by(line: &mut LineCells, items: &LayoutItems, cells: &[u8])
    requires { length cells.now ≤ 1008 }
    ensures { line.new.items ≡ prepared_by_layout items.now cells.now }
{
    line.clear();
    if has(cells, 0x0B) {
        push_cells(line, cells);
        return;
    }
    let kept = if items.trim { trimmed(cells) } else { cells };
    push_framed(line, items, kept);
}

/// Returns whether a prepared line contains double height.
#[tactic(auto, unfolding(crate::specs::Line::has_double_height))]
pub(crate) fn has_double_height(line: &[u8]) -> bool
    ensures { result ≡ has_double_height line.now }
{
    has(line, 0x0D)
}

// Returns the numbers of cells at the start and at the end of a line that do not count for the
// line's column.
fn uncounted_cells(items: &LayoutItems, line: &[u8]) -> (usize, usize)
    ensures value { result ≡ uncounted_cells items.now line.now }
    ensures ahead { result.0 ≤ length line.now }
    ensures following { result.1 ≤ length line.now }
{
    if !items.text {
        return (0, 0);
    }
    let ahead = leading_count(0, 0x1F, line);
    if ahead == line.len() {
        return (ahead, 0);
    }
    (ahead, trailing_count(0, 0x1F, line))
}

// Returns the JC to use: the value of the layout item `free` for JC 0, otherwise the subtitle's own
// JC.
fn effective_jc(items: &LayoutItems, jc: u8) -> u8
    ensures { result ≡ effective_jc items.now jc }
{
    if jc == 0 { items.free_jc } else { jc }
}

// Returns the column at which a line should start, if `width` cells of the line count, after
// `ahead` cells that do not.
fn start_column_for(items: &LayoutItems, jc: u8, ahead: usize, width: usize) -> usize
    requires ahead { ahead ≤ 40 }
    requires width { width ≤ 40 }
    ensures { result ≡ start_column_for items.now jc ahead width }
{
    let rounding = if items.up { 1 } else { 0 };
    match jc {
        2 => ((40 - width + rounding) / 2).saturating_sub(ahead),
        3 => 40usize.saturating_sub(items.right as usize + width + ahead),
        _ => (items.left as usize).saturating_sub(ahead),
    }
}

/// Returns the column at which a prepared line starts. A line that would not fit in its row is
/// moved left.
#[tactic(auto, unfolding(crate::specs::PreparedLine::start_column_by_layout))]
pub(crate) fn start_column_by_layout(items: &LayoutItems, jc: u8, line: &[u8]) -> usize
    requires { length line.now ≤ 40 }
    ensures value { result ≡ start_column_by_layout items.now jc line.now }
    ensures within { result + length line.now ≤ 40 }
{
    let (ahead, following) = uncounted_cells(items, line);
    let width = line.len().saturating_sub(ahead + following);
    let expected = start_column_for(items, effective_jc(items, jc), ahead, width);
    expected.min(40 - line.len())
}
