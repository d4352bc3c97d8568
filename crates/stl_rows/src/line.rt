//! Lines of cells: the prepared form of a line, and the row that shows the line.

ghost use Rattle.std.specs.Prelude.{◌≡◌, ◌+◌, ◌≤◌, ◌++◌, length};
ghost use Rattle.ttx_page.specs.Page.{AreCodes};
ghost use Rattle.stl_rows.specs.Line.{has_start_box_code, boxed_line, row_of, start_column};
ghost use Rattle.stl_rows.specs.PreparedLine.{row_starting_at};

use arrayvec::ArrayVec;

fn append(line: &mut ArrayVec<u8, 40>, cells: &[u8])
    requires { length line.old.items + length cells.now ≤ 40 }
    ensures { line.new.items ≡ line.old.items ++ cells.now }
{
    let added = line.try_extend_from_slice(cells);
    prove!(added.is_ok());
}

#[tactic(auto, unfolding(crate::specs::Line::has_start_box_code))]
fn has_start_box(line: &[u8]) -> bool
    ensures { result ≡ has_start_box_code line.now }
{
    line.iter().any(|c| *c == 0x0B)
}

/// Prepares a line of cells: adds a box if the line isn't empty and has no start box.
#[tactic(auto, unfolding(crate::specs::Line::boxed_line))]
pub(crate) fn prepare(cells: &[u8]) -> ArrayVec<u8, 40>
    requires few { length (boxed_line cells.now) ≤ 40 }
    requires codes { AreCodes cells.now }
    ensures items { result.items ≡ boxed_line cells.now }
    ensures codes { AreCodes result.items }
{
    let mut line = ArrayVec::<u8, 40>::new();
    if cells.is_empty() || has_start_box(cells) {
        append(&mut line, cells);
        return line;
    }
    append(&mut line, &[0x0B, 0x0B]);
    append(&mut line, cells);
    append(&mut line, &[0x0A, 0x0A]);
    line
}

// Returns the column at which a line of `len` cells starts.
fn start_column_of(jc: u8, len: usize) -> usize
    requires { len ≤ 40 }
    ensures value { result ≡ start_column jc len }
    ensures within { result + len ≤ 40 }
{
    match jc {
        2 => (40 - len) / 2,
        3 => 40 - len,
        _ => 0,
    }
}

/// Returns the 40 codes of the row that shows a line from column `start` on.
pub(crate) fn codes_from(start: usize, line: &[u8]) -> [u8; 40]
    requires room { start + length line.now ≤ 40 }
    requires codes { AreCodes line.now }
    ensures value { result ≡ row_starting_at start line.now }
    ensures codes { AreCodes result }
{
    let mut codes = [0x20; 40];
    codes[start..start + line.len()].copy_from_slice(line);
    codes
}

/// Returns the 40 codes of the row that shows a line at the column given by JC.
#[tactic(auto, unfolding(crate::specs::Line::row_of, crate::specs::PreparedLine::row_starting_at))]
pub(crate) fn row_codes(jc: u8, line: &[u8]) -> [u8; 40]
    requires room { length line.now ≤ 40 }
    requires codes { AreCodes line.now }
    ensures value { result ≡ row_of jc line.now }
    ensures codes { AreCodes result }
{
    codes_from(start_column_of(jc, line.len()), line)
}
