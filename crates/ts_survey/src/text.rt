//! Lines of output in memory that are not written yet.
ghost use Rattle.std.specs.Prelude.{◌≡◌, ◌≤◌, ◌<◌, ◌∷◌, decimal, false, length, true};
ghost use Rattle.ts_survey.specs.Text.{AddsBytes, hex_text};

use arrayvec::ArrayVec;
use std::alloc::Global;
use ttx_packet::PageId;

/// The number of ticks of the 33-bit clock of a PTS and of a PCR's base, which has 90,000 ticks per
/// second (ISO/IEC 13818-1).
pub const CLOCK_PERIOD: u64 = 1 << 33;

// A separator, a sign if needed, and a decimal number as characters.
type Word = ArrayVec<u8, 32>;

/// Lines of output in memory. If memory runs out, the text that was to be added is lost, and so is
/// all later text.
#[derive(Drop)]
pub struct Text {
    bytes: Vec<u8>,
    is_lost: bool,
    // The page of the last lines that belong to one page, or the only page.
    page_of_lines: Option<PageId>,
}

impl Text {
    /// Creates an empty text. `page` is the only page to which lines may belong, or `None` if there
    /// are several or none.
    pub fn new(alloc: Global, page: Option<PageId>) -> Text
        ensures empty { length result.bytes.items ≡ 0 }
        ensures whole { result.is_lost ≡ false }
    {
        Text {
            bytes: Vec::new(alloc),
            is_lost: false,
            page_of_lines: page,
        }
    }

    /// Returns whether memory ran out, so that text is lost.
    pub fn is_lost(&self) -> bool
        ensures { result ≡ self.now.is_lost }
    {
        self.is_lost
    }

    /// Returns whether the text is empty.
    pub fn is_empty(&self) -> bool
        ensures { result ≡ true → length self.now.bytes.items ≡ 0 }
    {
        self.bytes.is_empty()
    }

    /// Returns the bytes of the text.
    pub fn as_slice(&self) -> &[u8]
        ensures { result.now ≡ self.now.bytes.items }
    {
        self.bytes.as_slice()
    }

    /// Drops all lines, which have been written.
    pub fn clear(&mut self)
        ensures empty { length self.new.bytes.items ≡ 0 }
        ensures same { self.new.is_lost ≡ self.old.is_lost }
    {
        self.bytes.clear();
    }

    /// Adds bytes to the text.
    pub fn put(&mut self, bytes: &[u8])
        ensures { AddsBytes self.old bytes.now self.new }
    {
        if self.is_lost {
            return;
        }
        match self.bytes.extend_from_slice(bytes) {
            Ok(()) => {}
            Err(_) => self.is_lost = true,
        }
    }

    /// Adds a space and a number in decimal.
    pub fn number(&mut self, number: u64)
        ensures { AddsBytes self.old (0x20 ∷ decimal number) self.new }
    {
        self.separated_number(b' ', number);
    }

    /// Adds a separator, such as a space or a comma, and a number in decimal.
    pub fn separated_number(&mut self, separator: u8, number: u64)
        ensures { AddsBytes self.old (separator ∷ decimal number) self.new }
    {
        let mut digits = itoa::Buffer::new();
        let mut word = Word::new();
        let _ = word.try_extend_from_slice(&[separator]);
        let _ = word.try_extend_from_slice(digits.format(number).as_bytes());
        self.put(word.as_slice());
    }

    /// Adds a space and a difference in ticks. `forward_distance` is the difference modulo 2^33; a
    /// value of 2^32 or more is printed as a negative number.
    pub fn ticks(&mut self, forward_distance: u64) {
        if forward_distance < CLOCK_PERIOD / 2 || forward_distance > CLOCK_PERIOD {
            return self.number(forward_distance);
        }
        let mut digits = itoa::Buffer::new();
        let mut word = Word::new();
        let _ = word.try_extend_from_slice(b" -");
        let _ = word.try_extend_from_slice(
            digits.format(CLOCK_PERIOD - forward_distance).as_bytes(),
        );
        self.put(word.as_slice());
    }

    /// Adds a space and a time, or a hyphen if the time is `None`.
    pub fn time(&mut self, time: Option<u64>) {
        match time {
            Some(time) => self.number(time),
            None => self.put(b" -"),
        }
    }

    /// Adds bytes as lower case hexadecimal digits.
    pub fn hex(&mut self, bytes: &[u8])
        requires { length bytes.now ≤ 40 }
        ensures { AddsBytes self.old (hex_text bytes.now) self.new }
    {
        let mut buffer = [0; 80];
        let (digits, _) = buffer.split_at_mut(2 * bytes.len());
        let _ = hex::encode_to_slice(bytes, digits);
        self.put(digits);
    }

    /// Adds a space and a Teletext page; magazine 0 is printed as 8.
    pub fn page(&mut self, magazine: u8, page: u8)
        requires { magazine < 8 }
    {
        let first = if magazine == 0 { b'8' } else { b'0' + magazine };
        self.put(&[b' ', first, upper_digit(page / 16), upper_digit(page % 16)]);
    }

    /// Begins lines that belong to one page: adds the line `page P`, unless the last such lines
    /// belong to the same page, or there is only one page.
    pub fn begin_page(&mut self, page: PageId) {
        if self.page_of_lines == Some(page) {
            return;
        }
        self.page_of_lines = Some(page);
        self.put(b"page");
        self.page(page.magazine(), page.page());
        self.put(b"\n");
    }
}

/// Returns the hexadecimal digit of a number below 16, in upper case.
pub fn upper_digit(number: u8) -> u8
    requires { number < 16 }
{
    if number < 10 {
        b'0' + number
    } else {
        b'A' + (number - 10)
    }
}

/// Returns how many ticks `second` is after `first`, forward around the clock.
pub fn forward_distance(first: u64, second: u64) -> u64 {
    second.wrapping_sub(first) % CLOCK_PERIOD
}
