//! A receiver that stores a space for a byte of even parity.
ghost use Rattle.ttx_page.specs.Page.{space};

use crate::memory::{EvenParityChoice, Memory};
use crate::page::Page;
use crate::receiver::Receiver;
use std::marker::Model;
use ttx_packet::{Packet, PageId};

/// A receiver that stores a space in a cell of the page if the received byte has even parity.
#[derive(Debug, Drop)]
pub struct Blank {
    memory: Memory,
}

impl Model for Blank {
    ghost use Rattle.ttx_page.specs.Receiver.{TunedReceiver};

    ghost Value = { TunedReceiver };

    ghost use Rattle.ttx_page.specs.Memory.{state_of};

    ghost view = { λ r. record { watched = r.memory.watched; state = state_of r.memory } };
}

impl Receiver for Blank {
    ghost tuned_to = { λ r. r.watched };

    ghost state = { λ r. r.state };

    ghost leaves = { λ was. space };

    fn tune(page_id: PageId, page: Page) -> Self {
        Blank {
            memory: Memory::new(page_id, page),
        }
    }

    fn watched(&self) -> PageId {
        self.memory.watched
    }

    fn heard(&self) -> bool {
        self.memory.heard
    }

    fn is_page_open(&self) -> bool {
        self.memory.is_open
    }

    fn page(&self) -> &Page {
        &self.memory.page
    }

    /// Receives a packet. If it stores a row, the cell of each byte of even parity becomes a space.
    fn hear(&mut self, packet: &Packet) {
        self.memory.hear(packet, EvenParityChoice::BlanksCell);
    }
}
