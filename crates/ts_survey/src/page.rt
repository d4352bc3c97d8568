//! Passes Teletext packets to a receiver of the page, and prints the decoded page.

use crate::heard::Heard;
use crate::packet_notes::Notes;
use crate::text::Text;
use ttx_packet::{Header, Packet, PageId};
use ttx_page::{Blank, Page, Receiver};

/// A receiver of the page, and notes on the Teletext packets that it received.
#[derive(Drop)]
pub struct Following {
    receiver: Blank,
    packet_notes: Notes,
}

impl Following {
    /// Creates the state before the first packet.
    pub fn new(page: PageId) -> Following {
        Following {
            receiver: Blank::tune(page, Page::blank()),
            packet_notes: Notes::new(),
        }
    }

    /// Returns the page to which the receiver is tuned.
    pub fn watched(&self) -> PageId {
        self.receiver.watched()
    }

    /// Begins the next PES packet.
    pub fn begin(&mut self) {
        self.packet_notes.begin();
    }

    /// Passes a Teletext packet to the receiver. Returns the packet's header of any page, if one
    /// can be decoded.
    pub fn hear(
        &mut self,
        packet: &Packet,
        pid: u16,
        heard: &mut Heard,
        text: &mut Text,
    ) -> Option<Header> {
        let header = self
            .packet_notes
            .note(&self.receiver, packet, pid, heard, text);
        self.receiver.hear(packet);
        header
    }

    /// Ends a PES packet, and adds to its events whether the page is open, whether it is blank, and
    /// whether rows came after the end of the page, in a PES packet with a header of the page.
    pub fn end(&self, heard: &mut Heard) {
        self.packet_notes.end(&self.receiver, heard);
    }

    /// Returns whether the decoded rows have to be printed after a PES packet: at the first header
    /// of the page, and if the rows differ from those printed last.
    pub fn is_changed(&self) -> bool {
        self.receiver.heard() && self.packet_notes.is_changed()
    }

    /// Returns the notes on the received Teletext packets.
    pub fn packet_notes(&self) -> &Notes {
        &self.packet_notes
    }

    /// Prints the decoded page of the receiver.
    pub fn report_rows(&mut self, text: &mut Text) {
        self.packet_notes.report_rows(&self.receiver, text);
    }

    /// Prints the rows that were received after the end of the page.
    pub fn report_strays(&mut self, text: &mut Text) {
        self.packet_notes.report_strays(text);
    }
}
