//! Shows a text that the user gave, within one line.

use std::fmt;
use std::fmt::{Debug, Display, Formatter};

/// A text that the user gave. A text of one or more visible ASCII characters other than quotes and
/// backslashes is shown as it is. Any other text is quoted and escaped, as file names are.
#[derive(Clone, Copy)]
pub struct Shown<'a>(pub &'a str);

impl Display for Shown<'_> {
    fn fmt<W: fmt::Write>(&self, f: &mut Formatter<W>) -> fmt::Result {
        if !self.0.is_empty() && self.0.as_bytes().iter().all(|byte| is_plain(*byte)) {
            f.write_str(self.0)
        } else {
            Debug::fmt(self.0, f)
        }
    }
}

// Returns whether a byte is a visible character of ASCII other than `"`, `'` and `\`.
fn is_plain(byte: u8) -> bool {
    byte.is_ascii_graphic() && byte != b'"' && byte != b'\'' && byte != b'\\'
}
