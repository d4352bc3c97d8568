//! A receiver that drops a row if one of its 40 data bytes has even parity.
ghost use Rattle.std.specs.Prelude.{◌≡◌, false};
ghost use Rattle.ttx_page.specs.Receiver.{HearsBy, StepBy, is_row_with_even_parity};
ghost use Rattle.ttx_page.specs.Receiver.ReceiverClass.{Dropping};

use crate::memory::{EvenParityChoice, Memory};
use crate::packet_kind::PacketKind;
use crate::page::Page;
use std::marker::Model;
use ttx_packet::{Packet, PageId};

/// A receiver that ignores a row packet if one of its 40 data bytes has even parity. At all other
/// packets it behaves like `Keep`.
///
/// Some decoders in the field do this. `DropRow` does not implement `Receiver`, because a
/// `Receiver` stores the other bytes of such a row. `specs/Receiver` specifies both.
#[derive(Debug, Drop)]
pub struct DropRow {
    memory: Memory,
}

impl Model for DropRow {
    ghost use Rattle.ttx_page.specs.Receiver.{TunedReceiver};

    ghost Value = { TunedReceiver };

    ghost use Rattle.ttx_page.specs.Memory.{state_of};

    ghost view = { λ r. record { watched = r.memory.watched; state = state_of r.memory } };
}

impl DropRow {
    /// Creates a receiver tuned to `page_id` that has received nothing. Its page is not open, and
    /// has the contents of `page`, which may be any page displayed before.
    pub fn tune(page_id: PageId, page: Page) -> DropRow
        ensures tuned { result.watched ≡ page_id }
        ensures state { result.state
            ≡ record { heard = false; is_open = false; page = page } }
    {
        DropRow {
            memory: Memory::new(page_id, page),
        }
    }

    /// Returns the page to which the receiver is tuned.
    pub fn watched(&self) -> PageId
        ensures { result ≡ self.now.watched }
    {
        self.memory.watched
    }

    /// Returns whether a header of the page was received since `tune`.
    pub fn heard(&self) -> bool
        ensures { result ≡ self.now.state.heard }
    {
        self.memory.heard
    }

    /// Returns whether the page is open, so that rows of its magazine are stored: a header of the
    /// page was received, and no header after the last one has ended it.
    pub fn is_page_open(&self) -> bool
        ensures { result ≡ self.now.state.is_open }
    {
        self.memory.is_open
    }

    /// Returns the contents of the receiver's page.
    pub fn page(&self) -> &Page
        ensures { result.now ≡ self.now.state.page }
    {
        &self.memory.page
    }

    /// Receives a packet, unless it is a row of the page's magazine with a data byte of even
    /// parity.
    pub fn hear(&mut self, packet: &Packet)
        ensures step { StepBy Dropping self.old.watched self.old.state packet.now self.new.state }
        ensures tuned { self.new.watched ≡ self.old.watched }
    {
        if !is_dropped(self.memory.watched, packet) {
            self.memory.hear(packet, EvenParityChoice::KeepsCell);
        }
    }

    /// Passes each packet of the list to `hear`, in order.
    #[tactic(auto, using(crate::proofs::RunLemmas::run_extends_by_packet))]
    pub fn hear_all(&mut self, packets: &[Packet])
        ensures run { HearsBy Dropping self.old.watched self.old.state packets.now self.new.state }
        ensures tuned { self.new.watched ≡ self.old.watched }
    {
        for packet in packets {
            self.hear(packet);
        }
    }
}

/// Returns whether `DropRow` drops the packet: it is a row of the page's magazine, and one of its
/// 40 data bytes has even parity.
pub fn is_dropped(page_id: PageId, packet: &Packet) -> bool
    ensures { result ≡ is_row_with_even_parity page_id packet.now }
{
    match PacketKind::of(page_id, packet) {
        PacketKind::Row(_) => packet.first_even_parity_column().is_some(),
        _ => false,
    }
}
