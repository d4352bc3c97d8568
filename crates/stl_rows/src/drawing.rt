//! Draws the page of a subtitle.

ghost use Rattle.std.specs.Prelude.{◌≡◌, ◌<◌, ◌≤◌, ◌++◌, [], ◌∷◌, false, Ok, IsOk, length};
ghost use Rattle.ttx_page.specs.Page.{AreCodes};
ghost use Rattle.stl_rows.specs.DrawnPage.{LawOfDefaultLayout, drawn};
ghost use Rattle.stl_rows.specs.Layout.{drawing_by};
ghost use Rattle.stl_rows.specs.PlainPage.{line_faults, page_of_lines};
ghost use Rattle.stl_rows.specs.PrintingCodes.{LawOfPrintingCodes};
ghost use Rattle.stl_rows.specs.LineByLine.{FitsRow, draw_line, prepared_lines};
ghost use Rattle.stl_rows.specs.TextCode.{text_codes};

use crate::fault::RowFault;
use crate::layout::{Drawing, Layout};
use crate::layout_drawing::draw_with_layout;
use crate::line::{prepare, row_codes};
use crate::national::National;
use crate::record::Record;
use crate::text_code::{TextCode, text_code_at};
use crate::text_faults::first_fault;
use arrayvec::ArrayVec;
use stl_file::{Scope, Subtitle};
use ttx_page::Page;

#[inline(always)]
fn push_cell(cells: &mut ArrayVec<u8, 40>, cell: u8)
    requires { length cells.old.items < 40 }
    ensures { cells.new.items ≡ cells.old.items ++ cell ∷ [] }
{
    cells.push(cell);
}

// Draws a line of cells in a row of the page.
#[tactic(auto, using(std::proofs::lemmas::Bool::Decides::nat_tests))]
fn draw_line(jc: u8, row: u16, cells: &[u8], page: &mut Page)
    requires fits { FitsRow row cells.now }
    requires codes { AreCodes cells.now }
    ensures { page.new ≡ draw_line jc row cells.now page.old }
{
    if cells.is_empty() {
        return;
    }
    let line = prepare(cells);
    page.set_row(row as u8, &row_codes(jc, line.as_slice()));
}

// Draws the lines of a text without faults on a blank page, with the first line in row VP.
fn draw_text(national: National, jc: u8, vp: u8, text: &[u8], page: &mut Page)
    requires first { 1 ≤ vp }
    requires last { vp ≤ 23 }
    requires at_most_1008 { length text.now ≤ 1008 }
    requires whole { line_faults 0 vp false (prepared_lines [] (text_codes national 0 text.now))
        ≡ [] }
    ensures { page_of_lines jc vp (prepared_lines [] (text_codes national 0 text.now)) ≡ page.new }
{
    *page = Page::blank();
    let mut row = u16::from(vp);
    let mut cells = ArrayVec::<u8, 40>::new();
    let mut at = 0;
    while at < text.len() {
        let (code, next) = text_code_at(national, text, at);
        match code {
            TextCode::Cell(cell) => push_cell(&mut cells, cell),
            TextCode::NewLine => {
                draw_line(jc, row, cells.as_slice(), page);
                row += 1;
                cells.clear();
            }
            TextCode::NoCell | TextCode::Refused(_) => {}
        }
        at = next;
    }
    draw_line(jc, row, cells.as_slice(), page);
}

/// Draws the page of a subtitle without faults over the contents of `page`. With the default layout
/// this avoids copying a page.
pub(crate) fn draw_subtitle_on(subtitle: &Record<'_>, drawing: &Drawing, page: &mut Page)
    requires { IsOk (drawn drawing.now subtitle.now) }
    ensures { drawn drawing.now subtitle.now ≡ Ok page.new }
{
    match &drawing.layout.items {
        None => draw_text(
            drawing.national,
            subtitle.jc(),
            subtitle.vp(),
            subtitle.text(),
            page,
        ),
        Some(items) => match draw_with_layout(drawing.national, items, subtitle) {
            Ok(drawn) => *page = drawn,
            Err(_) => unreachable!(),
        },
    }
}

/// Draws a subtitle's text on a page with the character set of a national option, according to a
/// layout (EBU Tech 3264, TTI block, fields TF, VP and JC; EN 300 706, packets X/1 to X/24).
///
/// The byte 8A ends a line. Each line takes a row of its own, by default line 0 row VP, at the
/// column given by JC and the layout. With the layout item `pack`, an empty line takes no row; with
/// `trim`, a line of spaces is empty. A line that isn't empty and has no start box gets the codes
/// of the layout, by default a box. All other cells of rows 1 to 24 are spaces.
///
/// # Errors
///
/// Returns the first fault: `Character` and `Control` by byte over the whole text, then for each
/// line `RowTooLong`, `PastBottom`, `DoubleRow`, `Hidden`.
pub fn draw(subtitle: &Subtitle, national: National, layout: Layout) -> Result<Page, RowFault>
    ensures { result ≡ drawn (drawing_by national layout) subtitle.now }
{
    let drawing = Drawing::new(national, layout, Scope::whole());
    let subtitle = Record::of(subtitle);
    match first_fault(&subtitle, &drawing) {
        Some(fault) => Err(fault),
        None => {
            let mut page = Page::blank();
            draw_subtitle_on(&subtitle, &drawing, &mut page);
            Ok(page)
        }
    }
}

/// If VP is at least 1, the default layout draws a subtitle plainly, or gives the same first fault:
/// each line is one row below the line before, in a box if the line has cells but no start box.
#[tactic(auto, using(crate::proofs::DefaultLayoutLemmas::default_layout_draws_plainly))]
pub fn law_of_default_layout()
    ensures { LawOfDefaultLayout }
{}

/// A layout that draws a subtitle adds, changes, loses or reorders no printable characters of its
/// text.
pub fn law_of_printing_codes()
    ensures { LawOfPrintingCodes }
{}
