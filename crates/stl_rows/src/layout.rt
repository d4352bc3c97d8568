//! Layouts: how a broadcaster draws the texts of subtitles.

ghost use Rattle.std.specs.Prelude.{◌≡◌};
ghost use Rattle.stl_rows.specs.Layout.{attribute_code, attribute_of, default_items};
ghost use Rattle.stl_rows.specs.Layout.{items_of_layout};
ghost use Rattle.stl_rows.specs.Layout.{default_layout, drawing_within, strips_byte};

use crate::national::National;
use stl_file::Scope;

/// A spacing attribute that a layout may add to a line (EN 300 706, spacing attributes).
#[derive(Clone, Copy, Debug, PartialEq, Eq)]
pub(crate) enum Attribute {
    /// Spacing attribute 01: alpha red.
    AlphaRed = 1,
    /// Spacing attribute 02: alpha green.
    AlphaGreen = 2,
    /// Spacing attribute 03: alpha yellow.
    AlphaYellow = 3,
    /// Spacing attribute 04: alpha blue.
    AlphaBlue = 4,
    /// Spacing attribute 05: alpha magenta.
    AlphaMagenta = 5,
    /// Spacing attribute 06: alpha cyan.
    AlphaCyan = 6,
    /// Spacing attribute 07: alpha white.
    AlphaWhite = 7,
    /// Spacing attribute 08: flash.
    Flash = 8,
    /// Spacing attribute 09: steady.
    Steady = 9,
    /// Spacing attribute 0A: end box.
    EndBox = 10,
    /// Spacing attribute 0B: start box.
    StartBox = 11,
    /// Spacing attribute 0C: normal height.
    NormalHeight = 12,
    /// Spacing attribute 0D: double height.
    DoubleHeight = 13,
}

#[tactic(auto, unfolding(crate::specs::Layout::attribute_of, crate::specs::Layout::attribute_code))]
impl Attribute {
    // Returns the spacing attribute with this code, or `None` if a layout may not add the code.
    pub(crate) fn of(code: u8) -> Option<Attribute>
        ensures { result ≡ attribute_of code }
    {
        match code {
            1 => Some(Attribute::AlphaRed),
            2 => Some(Attribute::AlphaGreen),
            3 => Some(Attribute::AlphaYellow),
            4 => Some(Attribute::AlphaBlue),
            5 => Some(Attribute::AlphaMagenta),
            6 => Some(Attribute::AlphaCyan),
            7 => Some(Attribute::AlphaWhite),
            8 => Some(Attribute::Flash),
            9 => Some(Attribute::Steady),
            10 => Some(Attribute::EndBox),
            11 => Some(Attribute::StartBox),
            12 => Some(Attribute::NormalHeight),
            13 => Some(Attribute::DoubleHeight),
            _ => None,
        }
    }

    // Returns the code of the spacing attribute, 01 to 0D.
    pub(crate) fn code(self) -> u8
        ensures { result ≡ attribute_code self }
    {
        self as u8
    }
}

/// The values of a layout's items. A list of codes is filled from the front; `None` is an empty
/// place. The items `before`, `after`, `white` and `trim` do not change a line that is empty or has
/// a start box.
#[derive(Clone, Copy, Debug)]
pub(crate) struct LayoutItems {
    /// Layout item `strip`: whether each byte 00 to 1F of a text is dropped, so has no cell.
    pub(crate) strip: [bool; 32],
    /// Layout item `before`, up to its `*`: codes to add before a line's own leading codes.
    pub(crate) ahead: [Option<Attribute>; 6],
    /// Layout item `before`, after its `*`: codes to add after a line's own leading codes.
    pub(crate) following: [Option<Attribute>; 6],
    /// Layout item `after`: codes to add at the end of a line.
    pub(crate) after: [Option<Attribute>; 4],
    /// Layout item `fit`: whether only as many codes of `after` are added as there is room for.
    pub(crate) fit: bool,
    /// Layout item `white`: whether a line without a colour among its leading codes gets 07 (alpha
    /// white) after them.
    pub(crate) white: bool,
    /// Layout item `trim`: whether spaces at both ends of a line are removed.
    pub(crate) trim: bool,
    /// Layout item `text`: whether the codes at both ends of a line do not count for its column.
    pub(crate) text: bool,
    /// Layout item `up`: whether half a column is rounded up.
    pub(crate) up: bool,
    /// Layout item `left`: the column of the first cell that counts in a left-aligned line, if
    /// there is room.
    pub(crate) left: u8,
    /// Layout item `right`: the number of columns after the last cell that counts in a
    /// right-aligned line, if there is room.
    pub(crate) right: u8,
    /// Layout item `free`: the JC to use for a subtitle with JC 0.
    pub(crate) free_jc: u8,
    /// Layout item `double`: whether lines are two rows apart.
    pub(crate) double: bool,
    /// Layout item `pack`: whether empty lines take no row.
    pub(crate) pack: bool,
    /// Layout item `last`: whether the last line that isn't empty takes the row that line 0 would
    /// have.
    pub(crate) last: bool,
    /// Layout item `row`: the number of rows that all lines are moved down; 0 if they are moved up.
    pub(crate) rows_down: u8,
    /// Layout item `row`: the number of rows that all lines are moved up; 0 if they are moved down.
    pub(crate) rows_up: u8,
}

impl LayoutItems {
    // Returns the default layout items.
    #[tactic(auto, unfolding(crate::specs::Layout::default_items))]
    pub(crate) fn new() -> LayoutItems
        ensures { result ≡ default_items }
    {
        let start_box = Some(Attribute::StartBox);
        let end_box = Some(Attribute::EndBox);
        LayoutItems {
            strip: [false; 32],
            ahead: [start_box, start_box, None, None, None, None],
            following: [None; 6],
            after: [end_box, end_box, None, None],
            fit: false,
            white: false,
            trim: false,
            text: false,
            up: false,
            left: 0,
            right: 0,
            free_jc: 1,
            double: false,
            pack: false,
            last: false,
            rows_down: 0,
            rows_up: 0,
        }
    }

    // Returns whether a byte of a text is dropped by `strip`, so has no cell.
    pub(crate) fn strips_byte(&self, byte: u8) -> bool
        ensures { result ≡ strips_byte self.now byte }
    {
        byte < 0x20 && self.strip[byte as usize]
    }
}

/// How a broadcaster draws the texts of subtitles: the codes that the inserter adds to a line, the
/// codes and spaces that it removes, and the line's row and column.
///
/// Created from a text by `parse`. By default a line is one row below the line before, gets a box
/// if it has cells but no start box, and all its cells count for its column. A layout allocates no
/// memory.
#[derive(Clone, Copy, Debug)]
pub struct Layout {
    // The items of the layout; `None` for the default layout.
    pub(crate) items: Option<LayoutItems>,
}

impl Default for Layout {
    ghost is_default = { λ l. l ≡ default_layout };

    fn default() -> Layout {
        Layout { items: None }
    }
}

/// How a subtitle file becomes pages: the scope of its subtitles, and the national option and the
/// layout that draw the texts.
#[derive(Clone, Copy, Debug)]
pub struct Drawing {
    /// The national option, which selects the character set of the texts.
    pub national: National,
    /// The layout, which adds codes to the lines and selects their rows and columns.
    pub layout: Layout,
    /// The scope: which files are accepted, and which of their subtitles are read. A drawn page
    /// does not depend on the scope.
    pub scope: Scope,
}

impl Drawing {
    /// Creates a drawing from a national option, a layout and a scope.
    pub fn new(national: National, layout: Layout, scope: Scope) -> Drawing
        ensures { result ≡ drawing_within national layout scope }
    {
        Drawing {
            national,
            layout,
            scope,
        }
    }
}
