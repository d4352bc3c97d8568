//! The events of a PES packet in the form in which they are printed: a character for each event,
//! and the numbers of the page headers.
ghost use Rattle.std.specs.Prelude.{◌<◌, IfSome};

use crate::text::{Text, upper_digit};
use arrayvec::ArrayVec;
use ttx_packet::unham;

/// The events of a PES packet, which are compared with the events of the previous PES packet.
#[derive(Drop)]
pub struct Heard {
    /// The characters of the events, at most 160: `h` for each header of the page, `e` after it if
    /// the header has C4 (erase page), and `c` for each packet that ends the open page; then `o`
    /// (the page is open), `b` (the page is blank) and `s` (rows after the end of the page, if the
    /// PES packet has a header of the page).
    characters: ArrayVec<u8, 160>,
    /// The eight numbers of each header of the page in the PES packet, as far as there is room.
    control: ArrayVec<u8, 640>,
    /// The number of Teletext packets in the PES packet; 0 if it has no PTS.
    units: u64,
    /// The number of the fault of the PES packet; 0 if it has no fault.
    fault: u16,
}

impl Heard {
    /// Creates an empty list of events.
    pub fn new() -> Heard {
        Heard {
            characters: ArrayVec::new(),
            control: ArrayVec::new(),
            units: 0,
            fault: 0,
        }
    }

    /// Begins the next PES packet. `fault` is the number of its fault, or 0.
    pub fn begin(&mut self, fault: u16) {
        self.characters.clear();
        self.control.clear();
        self.units = 0;
        self.fault = fault;
    }

    /// Prints the events of the PES packet as fields of its line.
    pub fn report(&self, text: &mut Text) {
        text.put(b" ");
        text.put(self.reported_characters());
        text.put(b"/");
        text.put(self.control.as_slice());
        text.number(self.units);
        text.number(self.fault as u64);
        text.put(b"\n");
    }

    // Returns the characters of the events as they are printed.
    fn reported_characters(&self) -> &[u8] {
        if self.characters.is_empty() {
            b"-"
        } else {
            self.characters.as_slice()
        }
    }

    /// Adds the character of an event, if there is room.
    pub fn add(&mut self, character: u8) {
        let _ = self.characters.try_push(character);
    }

    /// Adds the character of an event if `condition` is set and there is room.
    pub fn add_if(&mut self, condition: bool, character: u8) {
        if condition {
            self.add(character);
        }
    }

    /// Counts a Teletext packet of the PES packet.
    pub fn add_unit(&mut self) {
        self.units = self.units.saturating_add(1);
    }

    /// Begins the numbers of a header of the page, after the numbers of the previous header.
    pub fn begin_header(&mut self) {
        if !self.control.is_empty() {
            let _ = self.control.try_push(b'+');
        }
    }

    /// Adds the numbers of a header of the page, from those of its coded bytes that can be decoded,
    /// as far as there is room.
    pub fn add_numbers(&mut self, bytes: &[u8]) {
        for byte in bytes {
            self.add_number(unham(*byte));
        }
    }

    // Adds the next number of a header, if its byte can be decoded and there is room.
    fn add_number(&mut self, number: Option<u8>)
        requires { IfSome number (λ n. n < 16) }
    {
        if let Some(number) = number {
            self.add_digit(upper_digit(number));
        }
    }

    // Adds a number of a header, as a hexadecimal digit, if there is room.
    fn add_digit(&mut self, digit: u8) {
        let _ = self.control.try_push(digit);
    }

    /// Returns whether two PES packets have the same events, as far as these are stored.
    pub fn is_same(&self, other: &Heard) -> bool {
        self.units == other.units
            && self.fault == other.fault
            && self.characters.as_slice() == other.characters.as_slice()
            && self.control.as_slice() == other.control.as_slice()
    }

    /// Copies the events of another PES packet.
    pub fn copy(&mut self, other: &Heard) {
        self.begin(other.fault);
        let _ = self
            .characters
            .try_extend_from_slice(other.characters.as_slice());
        let _ = self.control.try_extend_from_slice(other.control.as_slice());
        self.units = other.units;
    }
}
