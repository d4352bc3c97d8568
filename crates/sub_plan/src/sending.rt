//! The packets of one page transmission.
ghost use Rattle.std.specs.Prelude.{◌≡◌, ◌≤◌, ◌<◌, ◌↔◌, [], ◌∷◌, ◌++◌, IsTrue, length, replicate};
ghost use Rattle.ttx_page.specs.Page.{space};
ghost use Rattle.sub_plan.specs.Sending.{closing_header, is_sent_row, sending, watched_control};
ghost use Rattle.sub_plan.specs.Sending.{watched_header};

use bitflags::Flags;
use std::marker::Model;
use stl_rows::{National, NationalBits};
use ttx_packet::{Control, Header, Packet, PageId};
use ttx_page::Page;

/// The maximum number of packets of a page transmission: the header of the page, 24 rows and the
/// closing header.
const MAX_TRANSMISSION_PACKETS: usize = 26;

/// The packets of one page transmission, in the order of transmission.
#[derive(Drop)]
pub(crate) struct PageSending {
    // The packets, of which only the first `count` are used.
    packets: [Packet; MAX_TRANSMISSION_PACKETS],
    count: usize,
}

impl Model for PageSending {
    ghost use Rattle.std.specs.Prelude.{ℕ, ◌≤◌, List, take};

    ghost Value = { List (List ℕ) };

    ghost view = { λ s. take s.count s.packets };

    ghost invariant = { λ s. s.count ≤ 26 };
}

impl PageSending {
    // Creates a page transmission of one packet.
    fn of(packet: Packet) -> PageSending
        ensures { result ≡ packet ∷ [] }
    {
        PageSending {
            packets: [packet; MAX_TRANSMISSION_PACKETS],
            count: 1,
        }
    }

    // Appends a packet. The page transmission must have fewer than 26 packets.
    fn push(&mut self, packet: Packet)
        requires { length self.old < 26 }
        ensures { self.new ≡ self.old ++ packet ∷ [] }
    {
        self.packets[self.count] = packet;
        self.count += 1;
    }

    /// Returns the packets of the page transmission, at most 26.
    pub(crate) fn packets(&self) -> &[Packet]
        ensures value { result.now ≡ self.now }
        ensures few { length result.now ≤ 26 }
    {
        &self.packets[..self.count]
    }

    /// Creates the transmission of a page: the header of the page, the rows with a cell other than
    /// a space in rising order, and the closing header.
    pub(crate) fn from_page(
        watched: PageId,
        national: National,
        serial: bool,
        page: &Page,
    ) -> PageSending
        ensures { result ≡ sending watched national serial page.now }
    {
        let magazine = watched.magazine();
        let header = watched_header(watched, national, serial);
        let mut sent = PageSending::of(Packet::of_header(magazine, &header));
        for row in 1..25u8 {
            let codes = page.row(row);
            if is_sent_row(codes) {
                sent.push(Packet::of_row(magazine, row, codes));
            }
        }
        sent.push(Packet::of_header(magazine, &closing_header(serial)));
        sent
    }
}

fn is_blank(codes: &[u8; 40]) -> bool
    ensures { IsTrue result ↔ (codes.now ≡ replicate 40 space) }
{
    *codes == [0x20; 40]
}

// Returns whether a row of the page is sent: it has a cell other than a space.
fn is_sent_row(codes: &[u8; 40]) -> bool
    ensures { result ≡ is_sent_row codes.now }
{
    !is_blank(codes)
}

// Returns the control bits of the header of the subtitle page.
fn watched_control(serial: bool, bits: NationalBits) -> Control
    ensures { result.0 ≡ watched_control serial bits }
{
    let mut control = Control::C4.union(Control::C6).union(Control::C7);
    control.set(Control::C11, serial);
    control.set(Control::C12, bits.c12);
    control.set(Control::C13, bits.c13);
    control.set(Control::C14, bits.c14);
    control
}

fn watched_header(watched: PageId, national: National, serial: bool) -> Header
    ensures value { result ≡ watched_header watched national serial }
    ensures subcode { result.subcode ≡ 0 }
{
    Header {
        page: watched.page(),
        subcode: 0x0000,
        control: watched_control(serial, national.bits()),
    }
}

// Returns the closing header: page FF, which is not displayed.
fn closing_header(serial: bool) -> Header
    ensures value { result ≡ closing_header serial }
    ensures subcode { result.subcode ≡ 0x3F7F }
{
    let control = if serial {
        Control::C11
    } else {
        Control::empty()
    };
    Header {
        page: 0xFF,
        subcode: 0x3F7F,
        control,
    }
}
