//! Compares the page that the packets show with the expected page.
ghost use Rattle.std.specs.Prelude.{◌≡◌, ◌↔◌, ℕ, ◌-◌, ◌≤◌, ◌==◌, not, IfSome, IsTrue, MatchOption};
ghost use Rattle.std.specs.Prelude.{Some, slice_set};
ghost use Rattle.ttx_page.specs.Differing.{row_difference};
ghost use Rattle.ttx_page.specs.Page.{AreCodes, DiffersFirst, IsCell, IsPage, IsRow, blank, cell};
ghost use Rattle.ttx_page.specs.Page.{row_at};
ghost use Rattle.stl_rows.specs.DuePage.{ReportsNextEdge};
ghost use Rattle.stl_rows.specs.Programme.{IsProgramme};
ghost use Rattle.sub_plan.specs.Schedule.{due_page_in};
ghost use Rattle.sub_packets.specs.Comparison.{updated_wrong_count};
ghost use Rattle.sub_rules.specs.PacketRules.{codes_of};

use crate::packet_rules::text_codes;
use std::marker::Model;
use stl_rows::Programme;
use ttx_packet::Packet;
use ttx_page::{Page, count_differing_columns};

/// The page that the packets show, the expected page, and the number of wrong cells.
///
/// After the expected page of a frame is drawn, the number is unknown until the shown page is
/// erased (`clear`). From then on, each stored row updates it.
#[derive(Drop)]
pub struct Comparison {
    page: Page,
    due: Page,
    // The number of wrong cells, 0 to 960. `None` if an expected page was drawn since the shown
    // page was last erased (`clear`), or since the start if it never was; usually it is erased
    // before the number is needed.
    wrong: Option<u16>,
    // The number of cells in which a blank page differs from the expected page, which is the value
    // of `wrong` after the shown page is erased.
    blank_page_difference_count: u16,
}

impl Model for Comparison {
    ghost use Rattle.sub_packets.specs.Comparison.{ComparisonValue, HasExactCounts};

    ghost Value = { ComparisonValue };

    ghost view = { λ c. record { page = c.page; due = c.due } };

    ghost invariant = { λ c. HasExactCounts c.page c.due c.wrong c.blank_page_difference_count };
}

impl Comparison {
    /// Returns the comparison of a blank page with `due`, the expected page.
    pub(crate) fn new(due: Page) -> Self
        ensures { result ≡ record { page = blank; due = due } }
    {
        let wrong = due.count_nonblank_cells();
        Comparison {
            page: Page::blank(),
            due,
            wrong: Some(wrong),
            blank_page_difference_count: wrong,
        }
    }

    /// Draws the expected page of a frame, and returns the result of `Programme::draw_due`.
    pub(crate) fn draw_due(
        &mut self,
        programme: &Programme,
        frame: u32,
        guess: usize,
    ) -> (Option<u32>, usize)
        ensures due { self.new ≡ record self.old { due = due_page_in programme.now frame } }
        ensures edge { ReportsNextEdge programme.now.records frame result.0 }
        ensures programme { IsProgramme programme.now.drawing programme.now.records }
    {
        self.wrong = None;
        let drawn = programme.draw_due(frame, guess, &mut self.due);
        self.blank_page_difference_count = self.due.count_nonblank_cells();
        drawn
    }

    /// Erases the shown page.
    pub(crate) fn clear(&mut self)
        ensures { self.new ≡ record self.old { page = blank } }
    {
        self.page = Page::blank();
        self.wrong = Some(self.blank_page_difference_count);
    }

    /// Sets a row of the shown page.
    pub(crate) fn set_row(&mut self, row: u8, codes: &[u8; 40])
        requires row { IsRow row }
        requires codes { AreCodes codes.now }
        ensures row { self.new ≡ record self.old {
          page = slice_set self.old.page (row - 1) codes.now;
        } }
        ensures page { IsPage self.old.page }
    {
        let before = count_wrong_cells_in_row(&self.page, &self.due, row);
        let after = count_differing_columns(codes, self.due.row(row));
        self.page.set_row(row, codes);
        self.wrong = updated_wrong_count(self.wrong, before, after);
    }

    /// Returns whether a row of the shown page differs from the packet.
    pub(crate) fn differs_from(&self, row: u8, packet: &Packet) -> bool
        requires { IsRow row }
        ensures { result
            ≡ not (row_difference (row_at self.now.page row) (codes_of packet.now) == 0) }
    {
        count_differing_columns(self.page.row(row), &text_codes(packet)) != 0
    }

    /// Returns whether no cell is wrong; `false` if the number of wrong cells is unknown.
    #[inline(always)]
    #[tactic(auto, using(ttx_page::proofs::DifferingLemmas::zero_difference_equal_cells))]
    pub(crate) fn is_known_right(&self) -> bool
        ensures { IsTrue result → (row column : ℕ) → IsCell row column
            → cell self.now.page row column ≡ cell self.now.due row column }
    {
        is_zero(self.wrong)
    }

    /// Returns the shown page.
    pub(crate) fn shown(&self) -> &Page
        ensures { result.now ≡ self.now.page }
    {
        &self.page
    }

    /// Returns the expected page.
    pub(crate) fn due(&self) -> &Page
        ensures { result.now ≡ self.now.due }
    {
        &self.due
    }

    /// Returns the row (1 to 24) and column (0 to 39) of the first wrong cell; `None` if no cell is
    /// wrong. No cell is compared if the number of wrong cells is known to be 0.
    #[tactic(auto, using(ttx_page::proofs::DifferingLemmas::zero_difference_equal_cells))]
    pub(crate) fn first_wrong(&self) -> Option<(u8, u8)>
        ensures { MatchOption result
            ((row column : ℕ) → IsCell row column
            → cell self.now.page row column ≡ cell self.now.due row column)
            (λ place. DiffersFirst self.now.page self.now.due place.0 place.1) }
    {
        if is_zero(self.wrong) {
            None
        } else {
            self.page.first_difference(&self.due)
        }
    }
}

// Returns the number of wrong cells after the wrong cells of one row changed from `before` to
// `after`.
fn updated_wrong_count(wrong: Option<u16>, before: u16, after: u16) -> Option<u16>
    requires wrong { IfSome wrong (λ n. (before ≤ n) × (n ≤ 960)) }
    requires after { after ≤ 40 }
    ensures { result ≡ updated_wrong_count wrong before after }
{
    match wrong {
        Some(count) => Some(count - before + after),
        None => None,
    }
}

fn is_zero(count: Option<u16>) -> bool
    ensures { IsTrue result ↔ (count ≡ Some 0) }
{
    match count {
        Some(count) => count == 0,
        None => false,
    }
}

// Returns the number of cells of a row in which two pages differ.
fn count_wrong_cells_in_row(page: &Page, due: &Page, row: u8) -> u16
    requires { IsRow row }
    ensures value { result ≡ row_difference (row_at page.now row) (row_at due.now row) }
    ensures range { result ≤ 40 }
    ensures page { IsPage page.now }
{
    count_differing_columns(page.row(row), due.row(row))
}
