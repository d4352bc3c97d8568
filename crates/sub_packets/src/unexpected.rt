//! Finds cells with a code that was not expected in any of the last frames.
ghost use Rattle.std.specs.Prelude.{◌≡◌, ℕ, ◌+◌, ◌-◌, ◌<◌, ◌≤◌, ◌==◌, MatchOption};
ghost use Rattle.std.specs.Prelude.{if◌then◌else◌, slice_index};
ghost use Rattle.ttx_page.specs.Page.{AreCodes, IsCell, IsPage, IsRow, blank_row, cell};
ghost use Rattle.sub_packets.specs.UnexpectedCodes.{LacksDueCodes, space_if_due};
ghost use Rattle.sub_plan.specs.Schedule.{due_page_in};

use crate::listener::Listener;
use stl_rows::Programme;
use ttx_page::{Page, count_differing_columns};

impl Listener {
    ghost use Rattle.sub_packets.specs.StoredPage.{first_unexpected_kept_cell};

    /// Returns the row (1 to 24) and column (0 to 39) of the first cell whose code is neither a
    /// space nor expected in that cell at `frame` or at one of the `within` frames before `frame`,
    /// of which those before `first` do not count; `None` if there is none.
    ///
    /// This search is needed only if the page is wrong at the end of a frame but not yet overdue.
    /// So nothing is stored for it: the expected pages are drawn again.
    pub fn first_unexpected(
        &self,
        programme: &Programme,
        first: u32,
        frame: u32,
        within: u32,
    ) -> Option<(u8, u8)>
        ensures { result ≡ first_unexpected_kept_cell self.now (due_page_in programme.now) first
            frame within }
    {
        let shown = self.comparison.shown();
        // A blank page has no unexpected cell. This is the usual case: a header has erased the
        // page, and the rows follow in a later frame.
        if shown.count_nonblank_cells() == 0 {
            return None;
        }
        let left = page_without_due_codes(shown, programme, first, frame, within);
        left.first_difference(&Page::blank())
    }
}

// Returns the page with a space for each code that was expected in its cell at `frame` or at one of
// the `within` frames before, of which those before `first` do not count.
fn page_without_due_codes(
    shown: &Page,
    programme: &Programme,
    first: u32,
    frame: u32,
    within: u32,
) -> Page
    ensures { LacksDueCodes (due_page_in programme.now) first frame within shown.now result }
{
    let least = earliest(first, frame, within);
    let mut left = *shown;
    blank_due_cells(&mut left, &programme.due_page(frame));
    let mut at = frame;
    while let Some(before) = frame_before_last_edge(programme, at, least) {
        blank_due_cells(&mut left, &programme.due_page(before));
        at = before;
    }
    left
}

// Returns the later of `first` and the frame that is `within` frames before `frame`, or `first` if
// there is no such frame.
fn earliest(first: u32, frame: u32, within: u32) -> u32
    ensures first { first ≤ result }
    ensures last { frame ≤ result + within }
    ensures least { (f : ℕ) → first ≤ f → frame ≤ f + within → result ≤ f }
{
    let from = frame.saturating_sub(within);
    if from < first { first } else { from }
}

// Returns the last frame before the last cue at or before `at`; `None` if there is no such cue, or
// if that frame is before `least`.
fn frame_before_last_edge(programme: &Programme, at: u32, least: u32) -> Option<u32>
    ensures { MatchOption result
        ((f : ℕ) → least ≤ f → f ≤ at → due_page_in programme.now f ≡ due_page_in programme.now at)
        (λ before. (least ≤ before) × (before < at)
        × ((f : ℕ) → before < f → f ≤ at → due_page_in programme.now f ≡ due_page_in programme.now
        at)) }
{
    let Some(edge) = programme.last_edge(at) else {
        return None;
    };
    if edge > least { Some(edge - 1) } else { None }
}

// Replaces by a space each code of the page that is the expected code of its cell.
fn blank_due_cells(left: &mut Page, due: &Page)
    ensures { (row column : ℕ) → IsCell row column → cell left.new row column
        ≡ space_if_due (cell due.now row column) (cell left.old row column) }
{
    for row in 1..25u8 {
        blank_due_cells_of_row(left, due, row);
    }
}

/// Replaces by a space each code of a row that is the expected code of its cell. A blank row, the
/// usual case, is not copied.
pub(crate) fn blank_due_cells_of_row(left: &mut Page, due: &Page, row: u8)
    requires { IsRow row }
    ensures { (r column : ℕ) → IsCell r column → cell left.new r column
        ≡ (if r == row
        then space_if_due (cell due.now r column) (cell left.old r column)
        else cell left.old r column) }
{
    let shown = left.row(row);
    if count_differing_columns(shown, &spaces()) != 0 {
        let codes = codes_without_due(shown, due.row(row));
        left.set_row(row, &codes);
    }
}

// Returns a row of spaces.
#[tactic(auto, unfolding(ttx_page::specs::Page::blank_row))]
fn spaces() -> [u8; 40]
    ensures { result ≡ blank_row }
{
    [0x20; 40]
}

// Returns the codes of a row, with a space for each code that is the expected code of its cell.
fn codes_without_due(shown: &[u8; 40], due: &[u8; 40]) -> [u8; 40]
    requires { AreCodes shown.now }
    ensures value { (column : ℕ) → column < 40 → slice_index result column
        ≡ space_if_due (slice_index due.now column) (slice_index shown.now column) }
    ensures codes { AreCodes result }
{
    let mut codes = *shown;
    for column in 0..40usize {
        codes[column] = space_if_due(due[column], shown[column]);
    }
    codes
}

// Returns the code `shown`, or a space if `shown` is the expected code.
#[inline(always)]
fn space_if_due(due: u8, shown: u8) -> u8
    ensures { result ≡ space_if_due due shown }
{
    if due == shown { 0x20 } else { shown }
}
