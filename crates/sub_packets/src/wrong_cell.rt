//! Finds the first wrong cell of the page. If repeats may have C4 (erase page) clear, each row of
//! the expected page that is not blank must be sent again after each header of the page.
ghost use Rattle.std.specs.Prelude.{◌≡◌, ℕ, ◌-◌, ◌==◌, IsTrue, None, false};
ghost use Rattle.std.specs.Prelude.{if◌then◌else◌, slice_index_or};
ghost use Rattle.ttx_page.specs.Page.{IsCell, cell, space};
ghost use Rattle.sub_packets.specs.CellOrder.{earlier};

use crate::listener::Listener;
use crate::unexpected::blank_due_cells_of_row;
use ttx_page::Page;

impl Listener {
    ghost use Rattle.sub_packets.specs.StoredPage.{first_wrong_kept_cell};

    /// Returns whether the page is known to be correct without a comparison. If repeats may have C4
    /// (erase page) clear, it is not known, since rows may be missing.
    #[inline(always)]
    pub fn is_known_right(&self) -> bool
        ensures { IsTrue result → first_wrong_kept_cell self.now ≡ None }
    {
        self.comparison.is_known_right() && !self.watched.keeps
    }

    /// Returns the row (1 to 24) and column (0 to 39) of the first wrong cell; `None` if no cell is
    /// wrong. A cell is wrong if it differs from the expected page. If repeats may have C4 (erase
    /// page) clear, a cell whose expected code is not a space is also wrong if its row was not sent
    /// since the last header of the page, while the page was open.
    pub fn first_wrong(&self) -> Option<(u8, u8)>
        ensures { result ≡ first_wrong_kept_cell self.now }
    {
        let differing = self.comparison.first_wrong();
        if !self.watched.keeps {
            return differing;
        }
        let missing = self.missing();
        earlier(differing, missing.first_difference(&Page::blank()))
    }

    // Returns the expected page with spaces in the rows that were sent since the last header of the
    // page, while the page was open.
    fn missing(&self) -> Page
        ensures { (row column : ℕ) → IsCell row column → cell result row column
            ≡ (if slice_index_or self.now.again (row - 1) false
            then space
            else cell self.now.comparison.due row column) }
    {
        let due = self.comparison.due();
        let mut missing = *due;
        for row in 1..25u8 {
            if self.again[row as usize - 1] {
                blank_due_cells_of_row(&mut missing, due, row);
            }
        }
        missing
    }
}

// Returns the first of two optional cells, by row and then by column; `None` if both are `None`.
fn earlier(one: Option<(u8, u8)>, other: Option<(u8, u8)>) -> Option<(u8, u8)>
    ensures { result ≡ earlier one other }
{
    match (one, other) {
        (Some(a), Some(b)) => {
            if a.0 < b.0 || (a.0 == b.0 && a.1 <= b.1) {
                Some(a)
            } else {
                Some(b)
            }
        }
        (Some(a), None) => Some(a),
        (None, other) => other,
    }
}
