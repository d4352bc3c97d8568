//! Prints the state of a receiver: its page or its screen.
ghost use Rattle.std.specs.Prelude.{◌≡◌, IfSome, ◌+◌, ◌*◌, ◌≤◌, ◌<◌, ◌++◌, ◌==◌};
ghost use Rattle.std.specs.List.{list_all};
ghost use Rattle.arrayvec.specs.ArrayVec.{array_vec_len};
ghost use Rattle.ttx_page.specs.Page.{IsPage, space};
ghost use Rattle.sub_listing.specs.DeviceCall.{CanFail, CountsFault, sink_call};
ghost use Rattle.sub_listing.specs.Lines.{printed_character};
ghost use Rattle.sub_listing.specs.Listing.{PrintsOrFails, done};
ghost use Rattle.ttx_page.specs.Screen.{display};
ghost use Rattle.sub_listing.specs.DisplayLines.{PrintsValidPage, display_text, page_text};
ghost use Rattle.sub_listing.specs.DisplayLines.{row_text};
ghost use Rattle.sub_listing.specs.DisplayLines.{displayed_page, displayed_text};

use crate::lines::{LINE_CAPACITY, printed_character, push_text, push_two_digits};
use crate::printing::print_done;
use crate::status::Status;
use arrayvec::ArrayVec;
use sub_io::Sink;
use ttx_page::{Page, Receiver};

// The maximum number of bytes of the line for a row: 40 characters, and ten bytes around them.
const ROW_CAPACITY: usize = 50;

// The maximum number of bytes of the lines for 24 rows.
const ROWS_CAPACITY: usize = 1200;

const _: () = prove!(24 * ROW_CAPACITY <= ROWS_CAPACITY);

// The room in bytes for the whole output: the lines of 24 rows, and the two lines before them.
const STATE_CAPACITY: usize = 1456;

const _: () = prove!(2 * LINE_CAPACITY + ROWS_CAPACITY <= STATE_CAPACITY);

type Rows = ArrayVec<u8, ROWS_CAPACITY>;

type Text = ArrayVec<u8, STATE_CAPACITY>;

/// Prints whether a receiver has received a header of its page. If it has, also prints whether the
/// page is open, and the page or, if complete pages are required, the screen.
pub fn print_state<R: Receiver, K: Sink>(
    receiver: &R,
    screen: &Option<Page>,
    asks_complete: bool,
    out: &mut K,
) -> Status
    requires { CanFail (K.failure_count out.old) }
    ensures printed { PrintsOrFails (sink_call K.contents K.failure_count out.old out.new)
        (done (display_text asks_complete (display (R.state receiver.now) screen.now))) result }
    ensures page { PrintsValidPage asks_complete (display (R.state receiver.now) screen.now) }
    ensures count { CountsFault K.failure_count out.old result out.new }
    ensures fault { result ≡ Status.Fault → K.failure_count out.old < K.failure_count out.new }
{
    let mut text = Text::new();
    if receiver.heard() {
        push_text(&mut text, b"heard yes\n");
        if receiver.is_page_open() {
            push_text(&mut text, b"open yes\n");
        } else {
            push_text(&mut text, b"open no\n");
        }
        push_displayed(&mut text, receiver, screen, asks_complete);
    } else {
        push_text(&mut text, b"heard no\n");
    }
    print_done(text.as_slice(), out)
}

// Appends the lines of a receiver's page or, if complete pages are required, of its screen.
fn push_displayed<R: Receiver>(
    text: &mut Text,
    receiver: &R,
    screen: &Option<Page>,
    asks_complete: bool,
)
    requires { array_vec_len text.old + ROWS_CAPACITY ≤ STATE_CAPACITY }
    ensures items { text.new.items ≡ text.old.items
        ++ displayed_text asks_complete (display (R.state receiver.now) screen.now) }
    ensures page { IfSome (displayed_page asks_complete (display (R.state receiver.now) screen.now))
        IsPage }
{
    match screen {
        _ if !asks_complete => push_page(text, receiver.page()),
        Some(page) => push_page(text, page),
        None => push_text(text, b"shown no\n"),
    }
}

// Appends a line for each row of a page that is not blank, or the line `blank` if all rows are.
fn push_page(text: &mut Text, page: &Page)
    requires { array_vec_len text.old + ROWS_CAPACITY ≤ STATE_CAPACITY }
    ensures items { text.new.items ≡ text.old.items ++ page_text page.now }
    ensures page { IsPage page.now }
{
    let mut rows = Rows::new();
    for i in 0..24u8 {
        push_row(&mut rows, i + 1, page.row(i + 1));
    }
    if rows.len() == 0 {
        push_text(text, b"blank\n");
    } else {
        push_text(text, rows.as_slice());
    }
}

// Appends the line of a row, unless the row is blank.
fn push_row(rows: &mut Rows, row: u8, cells: &[u8; 40])
    requires { array_vec_len rows.old + ROW_CAPACITY ≤ ROWS_CAPACITY }
    ensures items { rows.new.items ≡ rows.old.items ++ row_text row cells.now }
    ensures len { array_vec_len rows.new ≤ array_vec_len rows.old + ROW_CAPACITY }
{
    if is_blank(cells) {
        return;
    }
    push_text(rows, b"row ");
    push_two_digits(rows, row);
    push_text(rows, b" |");
    for cell in cells {
        rows.push(printed_character(*cell));
    }
    push_text(rows, b"|\n");
}

fn is_blank(cells: &[u8; 40]) -> bool
    ensures { result ≡ list_all (λ c. c == space) cells.now }
{
    cells.iter().all(|cell| *cell == 0x20)
}
