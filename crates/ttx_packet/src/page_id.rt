//! Parses page numbers as users type them, such as 888.
ghost use Rattle.std.specs.Prelude.{◌≡◌, ◌<◌, [], ◌∷◌, IfSome, ok_or};
ghost use Rattle.ttx_packet.specs.PageId.{hexadecimal_digit, page_of_numbers, page_of_text};

use std::marker::Model;

/// A Teletext page: a magazine and a page number (EN 300 706, page number). The page number is
/// never FF, which is not displayed.
#[derive(Clone, Copy, Debug, PartialEq, Eq)]
pub struct PageId {
    magazine: u8,
    page: u8,
}

impl Model for PageId {
    ghost use Rattle.std.specs.Prelude.{ℕ, ◌<◌};
    ghost use Rattle.ttx_packet.specs.PageId.{PageIdValue};

    ghost Value = { PageIdValue };

    ghost view = { λ p. record { magazine = p.magazine; page = p.page } };

    ghost invariant = { λ p. (p.magazine < 8) × (p.page < 0xFF) };

    ghost inverse = { λ v. record { magazine = v.magazine; page = v.page } };
}

/// The error of parsing a page number.
#[derive(Clone, Copy, Debug, PartialEq, Eq)]
pub enum PageFault {
    /// The text is not a digit 1 to 8 followed by two hexadecimal digits, or its page number is FF.
    BadPage,
}

impl PageId {
    /// Parses a page number: a magazine digit 1 to 8 and two hexadecimal digits of either case.
    ///
    /// # Errors
    ///
    /// Returns `BadPage` for any other text, and for page number FF.
    pub fn parse(text: &str) -> Result<PageId, PageFault>
        ensures { result ≡ ok_or (page_of_text text.now) PageFault.BadPage }
    {
        let text = text.as_bytes();
        if text.len() != 3 {
            return Err(PageFault::BadPage);
        }
        page_of_digits(text[0], text[1], text[2]).ok_or(PageFault::BadPage)
    }

    /// Returns the magazine of the page, 0 to 7; 0 means magazine 8.
    pub fn magazine(self) -> u8
        ensures value { result ≡ self.magazine }
        ensures small { result < 8 }
    {
        self.magazine
    }

    /// Returns the page number, `0x00` to `0xFE`, with page tens in the upper four bits.
    pub fn page(self) -> u8
        ensures value { result ≡ self.page }
        ensures small { result < 0xFF }
    {
        self.page
    }
}

// Returns the value of a hexadecimal digit of either case.
fn hexadecimal_digit(byte: u8) -> Option<u8>
    ensures value { result ≡ hexadecimal_digit byte }
    ensures small { IfSome result (λ n. n < 16) }
{
    match byte {
        b'0'..=b'9' => Some(byte - b'0'),
        b'a'..=b'f' => Some(byte - b'a' + 10),
        b'A'..=b'F' => Some(byte - b'A' + 10),
        _ => None,
    }
}

// Returns the page with this magazine digit and these two hexadecimal digits. `None` if a digit is
// invalid, or if the page number is FF, which names no page.
#[tactic(auto, unfolding(crate::specs::PageId::page_of_text))]
fn page_of_digits(magazine: u8, tens: u8, units: u8) -> Option<PageId>
    ensures { result ≡ page_of_text (magazine ∷ tens ∷ units ∷ []) }
{
    let high = hexadecimal_digit(tens)?;
    let low = hexadecimal_digit(units)?;
    page_of_numbers(magazine, 16 * high + low)
}

// Returns the page with this magazine digit and this page number, or `None` if they name no page.
fn page_of_numbers(digit: u8, page: u8) -> Option<PageId>
    ensures { result ≡ page_of_numbers digit page }
{
    if digit >= b'1' && digit <= b'8' && page != 0xFF {
        Some(PageId {
            magazine: (digit - b'0') % 8,
            page,
        })
    } else {
        None
    }
}
