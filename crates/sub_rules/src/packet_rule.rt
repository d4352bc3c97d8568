//! The rules for a single Teletext packet, and the page to check.

use stl_rows::National;
use ttx_packet::PageId;

/// A rule for Teletext packets, in the order of the checks. The faults from `CheckFault::Address`
/// to `CheckFault::Enhancement` belong to these rules.
#[derive(Clone, Copy, Debug, PartialEq, Eq)]
pub enum PacketRule {
    /// Both address bytes of the packet are Hamming 8/4 code words.
    Address,
    /// The eight coded bytes of a packet X/0 are Hamming 8/4 code words.
    HeaderCode,
    /// All page headers that can be decoded, of any page and magazine, have the same C11 (magazine
    /// serial).
    Mode,
    /// A header of the page has the control bits of a subtitle page, and has C4 (erase page) set
    /// or, if that is allowed, repeats the page.
    Control,
    /// Each text byte of a row of the open page has odd parity.
    Parity,
    /// All packets of a row that are sent while the page is open are equal, since its last header
    /// or, if repeats may keep the page, since the last header that erases it, if any.
    RowChanged,
    /// While the page is open, no packet X/25 to X/28 of its magazine is sent.
    Enhancement,
}

/// The page to check: its number, the national option of its headers, whether complete pages are
/// required, and whether repeats may have C4 (erase page) clear.
#[derive(Clone, Copy)]
pub struct Watched {
    /// The number of the page.
    pub page: PageId,
    /// The national option of the page's headers.
    pub national: National,
    /// Whether complete pages are required.
    pub complete: bool,
    /// Whether repeats may have C4 (erase page) clear.
    pub keeps: bool,
}
