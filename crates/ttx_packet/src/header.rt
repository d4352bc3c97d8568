//! The contents of a Teletext page header.
use crate::control::Control;

/// The contents of the eight coded bytes of a page header (EN 300 706, page header).
#[derive(Clone, Copy, PartialEq, Eq, Debug)]
pub struct Header {
    /// The page number, with the page tens in the upper four bits: `0x88` for page 888.
    pub page: u8,
    /// The page sub-code, `S1 + 16 * S2 + 256 * S3 + 4096 * S4`. A decoded sub-code has no bit
    /// outside `0x3F7F`, and `Packet::of_header` drops such bits.
    pub subcode: u16,
    /// The control bits C4 to C14 of the header.
    pub control: Control,
}
