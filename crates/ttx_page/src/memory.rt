//! The state that all receivers share, and how packets change it. A parameter chooses what a
//! receiver does at a byte of even parity.
ghost use Rattle.std.specs.Prelude.{◌≡◌, ◌+◌, ◌<◌, ℕ, false, slice_index};
ghost use Rattle.ttx_packet.specs.PageHeader.{c4};
ghost use Rattle.ttx_page.specs.Memory.{code_for_even_parity, code_after, state_of};
ghost use Rattle.ttx_page.specs.Page.{AreCodes};
ghost use Rattle.ttx_page.specs.Receiver.{AtEvenParityBytes, Step};

use crate::packet_kind::PacketKind;
use crate::page::Page;
use bitflags::Flags;
use ttx_packet::{Control, Header, Packet, PageId, is_odd};

/// The receiver's choice for a cell if the received byte has even parity.
#[derive(Clone, Copy, Debug, PartialEq, Eq)]
pub enum EvenParityChoice {
    /// The cell keeps its code.
    KeepsCell,
    /// The cell becomes a space.
    BlanksCell,
}

/// The page to which a receiver is tuned, and its state.
#[derive(Debug, Drop)]
pub struct Memory {
    pub watched: PageId,
    pub heard: bool,
    pub is_open: bool,
    pub page: Page,
}

impl Memory {
    /// Creates the state of a receiver that has received nothing. Its page is not open.
    pub fn new(watched: PageId, page: Page) -> Memory
        ensures { result
            ≡ record { watched = watched; heard = false; is_open = false; page = page } }
    {
        Memory {
            watched,
            heard: false,
            is_open: false,
            page,
        }
    }

    /// Receives a packet. `even` chooses what is stored for each byte of even parity.
    pub fn hear(&mut self, packet: &Packet, even: EvenParityChoice)
        ensures step { Step self.old.watched (state_of self.old) packet.now (state_of self.new) }
        ensures code_for_even_parity { AtEvenParityBytes
            (λ was is. is ≡ code_for_even_parity even was)
            self.old.watched
            (state_of self.old) packet.now (state_of self.new) }
        ensures tuned { self.new.watched ≡ self.old.watched }
    {
        match PacketKind::of(self.watched, packet) {
            PacketKind::ThisPage(header) => {
                self.heard = true;
                self.is_open = true;
                if erases_page(&header) {
                    self.page = Page::blank();
                }
            }
            PacketKind::EndsPage => self.is_open = false,
            PacketKind::Row(row) => {
                if self.is_open {
                    let codes = stored_codes(self.page.row(row), packet.bytes(), even);
                    self.page.set_row(row, &codes);
                }
            }
            PacketKind::Other => {}
        }
    }
}

// Returns whether control bit C4, erase page, of a page header is set.
fn erases_page(header: &Header) -> bool
    ensures { result ≡ c4 header.now }
{
    header.control.contains(Control::C4)
}

// Returns the 40 codes of a row after `packet` of that row was received. `was` has the old codes.
fn stored_codes(was: &[u8; 40], packet: &[u8; 42], even: EvenParityChoice) -> [u8; 40]
    requires { AreCodes was.now }
    ensures value { (column : ℕ) → column < 40 → slice_index result column
        ≡ code_after even (slice_index packet.now (column + 2)) (slice_index was.now column) }
    ensures codes { AreCodes result }
{
    let mut codes = *was;
    for column in 0..40usize {
        codes[column] = code_after(even, packet[column + 2], codes[column]);
    }
    codes
}

// Returns the code of a cell after a byte for it was received. `was` is the old code.
fn code_after(even: EvenParityChoice, byte: u8, was: u8) -> u8
    requires { was < 128 }
    ensures value { result ≡ code_after even byte was }
    ensures code { result < 128 }
{
    if is_odd(byte) {
        byte % 128
    } else {
        match even {
            EvenParityChoice::KeepsCell => was,
            EvenParityChoice::BlanksCell => 0x20,
        }
    }
}
