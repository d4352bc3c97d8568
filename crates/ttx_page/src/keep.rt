//! A receiver that keeps the old code at a byte of even parity.
use crate::memory::{EvenParityChoice, Memory};
use crate::page::Page;
use crate::receiver::Receiver;
use std::marker::Model;
use ttx_packet::{Packet, PageId};

/// A receiver that keeps the old code of a cell of the page if the received byte has even parity.
#[derive(Debug, Drop)]
pub struct Keep {
    memory: Memory,
}

impl Model for Keep {
    ghost use Rattle.ttx_page.specs.Receiver.{TunedReceiver};

    ghost Value = { TunedReceiver };

    ghost use Rattle.ttx_page.specs.Memory.{state_of};

    ghost view = { λ r. record { watched = r.memory.watched; state = state_of r.memory } };
}

impl Receiver for Keep {
    ghost tuned_to = { λ r. r.watched };

    ghost state = { λ r. r.state };

    ghost leaves = { λ was. was };

    fn tune(page_id: PageId, page: Page) -> Self {
        Keep {
            memory: Memory::new(page_id, page),
        }
    }

    fn watched(&self) -> PageId {
        self.memory.watched
    }

    fn heard(&self) -> bool {
        self.memory.heard
    }

    fn is_page_open(&self) -> bool {
        self.memory.is_open
    }

    fn page(&self) -> &Page {
        &self.memory.page
    }

    /// Receives a packet. If it stores a row, the cell of each byte of even parity keeps its code.
    fn hear(&mut self, packet: &Packet) {
        self.memory.hear(packet, EvenParityChoice::KeepsCell);
    }
}
