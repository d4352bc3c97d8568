//! Records what `survey` reports about the Teletext packets that a receiver of the page receives.
ghost use Rattle.std.specs.Prelude.{◌≡◌, ◌≤◌, ◌<◌, ℕ};
ghost use Rattle.ttx_page.specs.PacketKind.{kind};

use crate::character_set::CharacterSets;
use crate::heard::Heard;
use crate::rows::{Rows, cells_of};
use crate::text::Text;
use bitflags::Flags;
use ttx_packet::{Control, Header, Packet, PageId};
use ttx_page::{Blank, PacketKind, Page, Receiver};

/// Notes on the Teletext packets that a receiver of the page receives.
#[derive(Drop)]
pub struct Notes {
    // The received rows, with marks for bytes of even parity, and the rows that were printed last.
    rows: Rows,
    reported: Option<Rows>,
    // The rows in this PES packet after a header of the page and the end of the page, and those
    // that were printed last.
    strays: Rows,
    reported_strays: Rows,
    has_stray: bool,
    // Whether this PES packet has a header of the page.
    is_opened: bool,
    // Whether the last decoded header of the magazine is a header of the page.
    is_requested_page: bool,
    sets: CharacterSets,
}

impl Notes {
    /// Creates the state before the first Teletext packet.
    pub fn new() -> Notes {
        Notes {
            rows: Rows::blank_rows(),
            reported: None,
            strays: Rows::blank_rows(),
            reported_strays: Rows::blank_rows(),
            has_stray: false,
            is_opened: false,
            is_requested_page: false,
            sets: CharacterSets::new(),
        }
    }

    /// Begins the next PES packet.
    pub fn begin(&mut self) {
        self.is_opened = false;
        if self.has_stray {
            self.has_stray = false;
            self.strays = Rows::blank_rows();
        }
    }

    /// Ends a PES packet, and adds to its events whether the page is open, whether it is blank, and
    /// whether rows came after the end of the page, in a PES packet with a header of the page.
    pub fn end(&self, receiver: &Blank, heard: &mut Heard) {
        let is_blank = is_blank(receiver.page());
        heard.add_if(receiver.is_page_open(), b'o');
        heard.add_if(is_blank, b'b');
        heard.add_if(self.has_stray, b's');
    }

    /// Records a Teletext packet, before the receiver receives it. Returns the packet's header of
    /// any page, if one can be decoded.
    pub fn note(
        &mut self,
        receiver: &Blank,
        packet: &Packet,
        pid: u16,
        heard: &mut Heard,
        text: &mut Text,
    ) -> Option<Header> {
        heard.add_unit();
        let watched = receiver.watched();
        let (kind, header) = PacketKind::classify_with_header(watched, packet);
        self.note_kind(&kind, receiver.is_page_open(), packet, heard);
        self.note_magazine_packet(watched, packet, &header, pid, text);
        header
    }

    // Records a Teletext packet by its kind for a receiver of the page.
    fn note_kind(&mut self, kind: &PacketKind, is_open: bool, packet: &Packet, heard: &mut Heard)
        requires { (row : ℕ) → kind.now ≡ PacketKind.Row row → (1 ≤ row) × (row ≤ 24) }
    {
        match kind {
            PacketKind::ThisPage(header) => self.note_header(packet, header, heard),
            PacketKind::EndsPage => heard.add_if(is_open, b'c'),
            PacketKind::Row(row) => self.note_row(*row, is_open, packet),
            PacketKind::Other => {}
        }
    }

    // Records a Teletext packet of the page's magazine, with its header of any page, if it has one.
    fn note_magazine_packet(
        &mut self,
        watched: PageId,
        packet: &Packet,
        header: &Option<Header>,
        pid: u16,
        text: &mut Text,
    ) {
        let Some((magazine, number)) = packet.address() else {
            return;
        };
        if magazine != watched.magazine() {
            return;
        }
        match header {
            Some(header) => self.is_requested_page = header.page == watched.page(),
            None => self
                .sets
                .hear(packet, number, self.is_requested_page, watched, pid, text),
        }
    }

    // Records a row of the page's magazine, if the page is open or had a header in this PES packet.
    fn note_row(&mut self, row: u8, is_open: bool, packet: &Packet)
        requires first { 1 ≤ row }
        requires last { row ≤ 24 }
    {
        if is_open {
            self.rows.set(row, cells_of(packet));
        } else if self.is_opened {
            self.has_stray = true;
            self.strays.set(row, cells_of(packet));
        }
    }

    // Records a header of the page.
    fn note_header(&mut self, packet: &Packet, header: &Header, heard: &mut Heard) {
        self.is_opened = true;
        heard.add(b'h');
        if header.control.contains(Control::C4) {
            heard.add(b'e');
            self.rows = Rows::blank_rows();
        }
        heard.begin_header();
        let (_, coded) = packet.bytes().split_at(2);
        let (coded, _) = coded.split_at(8);
        heard.add_numbers(coded);
    }

    /// Returns whether the rows differ from the rows printed last, or no rows were printed yet.
    pub fn is_changed(&self) -> bool {
        match &self.reported {
            None => true,
            Some(reported) => *reported != self.rows,
        }
    }

    /// Returns whether rows that were received after the end of the page have to be printed.
    pub fn has_new_strays(&self) -> bool {
        self.has_stray && self.strays != self.reported_strays
    }

    /// Prints the decoded page of the receiver.
    pub fn report_rows(&mut self, receiver: &Blank, text: &mut Text) {
        self.reported = Some(self.rows);
        self.rows.report_received_page(receiver.page(), text);
    }

    /// Prints the rows that were received after the end of the page.
    pub fn report_strays(&mut self, text: &mut Text) {
        self.reported_strays = self.strays;
        self.strays.report(text);
    }
}

// Returns whether a page is blank.
fn is_blank(page: &Page) -> bool {
    page.first_difference(&Page::blank()).is_none()
}
