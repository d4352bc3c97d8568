//! Teletext pages: 24 rows of 40 codes, without the page header.
ghost use Rattle.std.specs.Prelude.{◌≡◌, ◌≢◌, ℕ, ◌-◌, ◌<◌, ◌≤◌, slice_index, slice_set};
ghost use Rattle.std.specs.Prelude.{IsTrue, MatchOption};
ghost use Rattle.ttx_page.specs.Differing.{differing_cell_count};
ghost use Rattle.ttx_page.specs.Page.{blank, blank_row, cell, row_at, AreCodes, DiffersFirst};
ghost use Rattle.ttx_page.specs.Page.{IsCell, IsCode};
ghost use Rattle.ttx_page.specs.Page.{IsPage, IsRow};

mod lanes;

use self::lanes::mask_differing_cells;
use crate::differing::count_differing_columns;
use std::marker::Model;

/// Rows 1 to 24 of a page (EN 300 706, packets X/1 to X/24), columns 0 to 39.
///
/// A cell has the 7-bit code of a character or spacing attribute, without its parity bit. Row 0,
/// the page header, is not included. The model of a page is the list of its rows.
#[derive(Clone, Copy, PartialEq, Eq, Debug)]
pub struct Page {
    // The codes of rows 1 to 24.
    rows: [[u8; 40]; 24],
}

impl Model for Page {
    ghost use Rattle.std.specs.Prelude.{List, ℕ};
    ghost use Rattle.ttx_page.specs.Page.{IsPage};

    ghost Value = { List (List ℕ) };

    ghost view = { λ p. p.rows };

    ghost invariant = { λ p. IsPage p.rows };

    ghost inverse = { λ rows. record { rows = rows } };
}

impl Page {
    /// Returns the blank page, to which C4, erase page, sets a page: each cell has code 0x20, a
    /// space.
    #[tactic(auto, unfolding(crate::specs::Page::blank, crate::specs::Page::blank_row))]
    pub fn blank() -> Page
        ensures { result ≡ blank }
    {
        Page {
            rows: [[0x20; 40]; 24],
        }
    }

    /// Returns the code of the cell at row 1 to 24 and column 0 to 39.
    pub fn cell(&self, row: u8, column: u8) -> u8
        requires { IsCell row column }
        ensures value { result ≡ cell self.now row column }
        ensures code { IsCode result }
    {
        self.rows[row as usize - 1][column as usize]
    }

    /// Returns the 40 codes of a row, 1 to 24, from column 0 on.
    ///
    /// The clause `page` states the size of the page, for proofs of callers.
    pub fn row(&self, row: u8) -> &[u8; 40]
        requires { IsRow row }
        ensures value { result.now ≡ row_at self.now row }
        ensures codes { AreCodes result.now }
        ensures page { IsPage self.now }
    {
        &self.rows[row as usize - 1]
    }

    /// Replaces a row, 1 to 24, by 40 codes below 128.
    pub fn set_row(&mut self, row: u8, codes: &[u8; 40])
        requires row { IsRow row }
        requires codes { AreCodes codes.now }
        ensures { self.new ≡ slice_set self.old (row - 1) codes.now }
    {
        self.rows[row as usize - 1] = *codes;
    }

    /// Returns the row and column of the first cell in which two pages differ, in reading order.
    ///
    /// Returns `None` if the pages are equal.
    pub fn first_difference(&self, other: &Page) -> Option<(u8, u8)>
        ensures { MatchOption result (self.now ≡ other.now)
            (λ at. DiffersFirst self.now other.now at.0 at.1) }
    {
        for i in 0..24 {
            if let Some(column) = first_differing_column(&self.rows[i], &other.rows[i]) {
                return Some((i as u8 + 1, column));
            }
        }
        None
    }

    /// Returns the number of cells, of 960, that are not spaces.
    #[tactic(auto, unfolding(crate::specs::Differing::rows_difference))]
    pub fn count_nonblank_cells(&self) -> u16
        ensures value { result ≡ differing_cell_count blank self.now }
        ensures range { result ≤ 960 }
    {
        let mut count = 0;
        for row in 0..24 {
            // For speed: most rows are blank, and a comparison is faster than counting.
            if !are_rows_equal(&spaces(), &self.rows[row]) {
                count += count_differing_columns(&spaces(), &self.rows[row]);
            }
        }
        count
    }
}

// Returns a row of 40 spaces.
#[inline(always)]
#[tactic(auto, unfolding(crate::specs::Page::blank_row))]
fn spaces() -> [u8; 40]
    ensures { result ≡ blank_row }
{
    [0x20; 40]
}

// Returns whether two rows are equal. Combines the masks of three blocks, so that one branch
// suffices.
#[inline(always)]
fn are_rows_equal(a: &[u8; 40], b: &[u8; 40]) -> bool
    ensures { IsTrue result → a.now ≡ b.now }
{
    let (a_blocks, _) = a.as_chunks::<16>();
    let (b_blocks, _) = b.as_chunks::<16>();
    let prefix = mask_differing_cells(&a_blocks[0], &b_blocks[0]);
    let middle = mask_differing_cells(&a_blocks[1], &b_blocks[1]);
    // The last block overlaps the block before it, so that no column is left over.
    let last = mask_differing_cells(a.last_chunk().unwrap(), b.last_chunk().unwrap());
    (prefix == 0) & (middle == 0) & (last == 0)
}

// Returns the first column in which two rows differ, or `None` if the rows are equal.
fn first_differing_column(a: &[u8; 40], b: &[u8; 40]) -> Option<u8>
    ensures { MatchOption result (a.now ≡ b.now) (λ c. (c < 40)
        × (slice_index a.now c ≢ slice_index b.now c)
        × ((k : ℕ) → k < c → slice_index a.now k ≡ slice_index b.now k)) }
{
    let (a_blocks, _) = a.as_chunks::<16>();
    let (b_blocks, _) = b.as_chunks::<16>();
    for i in 0..2usize {
        let mask = mask_differing_cells(&a_blocks[i], &b_blocks[i]);
        if mask != 0 {
            return Some((16 * i + mask.trailing_zeros() as usize) as u8);
        }
    }
    // The last block overlaps the block before it, so that no column is left over.
    let last = mask_differing_cells(a.last_chunk().unwrap(), b.last_chunk().unwrap());
    if last != 0 {
        return Some((24 + last.trailing_zeros() as usize) as u8);
    }
    None
}
