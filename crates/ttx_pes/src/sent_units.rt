//! The Teletext units of a PES packet, borrowed from its bytes.
ghost use Rattle.std.specs.Prelude.{◌≡◌, ◌<◌, ◌≤◌, [], length, slice_index_or};
ghost use Rattle.std.specs.List.{AllByRecursion};
ghost use Rattle.ttx_pes.specs.DataUnit.{IsUnit, UnitValue};
ghost use Rattle.ttx_pes.specs.PesGrammar.{max_units};
ghost use Rattle.ttx_pes.specs.SentUnits.{EndWithinField, packets_of_units, sent_units};

use crate::data_unit::{DATA_UNIT, decode_unit};
use crate::unit::Unit;
use std::marker::Model;
use ttx_packet::SentPacket;

/// The Teletext units of a PES packet in the order of transmission, borrowed from its data field
/// (EN 300 472, PES data field).
///
/// Its model is the list of these units.
#[derive(Drop)]
pub struct SentUnits<'a> {
    // The data field: bytes 45 to the end of the PES packet.
    field: &'a [u8],
    // The offsets of the Teletext units in the data field.
    places: &'a [u16],
}

impl<'a> Model for SentUnits<'a> {
    ghost use Rattle.std.specs.Prelude.{◌≤◌, List, length};
    ghost use Rattle.std.specs.List.{AllByRecursion};
    ghost use Rattle.ttx_pes.specs.DataUnit.{IsUnit, UnitValue};
    ghost use Rattle.ttx_pes.specs.PesGrammar.{max_units};
    ghost use Rattle.ttx_pes.specs.SentUnits.{EndWithinField, sent_units};

    ghost Value = { List UnitValue };

    ghost view = { λ u. sent_units u.field.now u.places.now };

    ghost invariant = { λ u. (length u.places.now ≤ max_units)
        × EndWithinField (length u.field.now) u.places.now
        × AllByRecursion IsUnit (sent_units u.field.now u.places.now) };
}

impl<'a> SentUnits<'a> {
    // Creates the list of Teletext units at these offsets of a data field.
    pub(crate) fn new(field: &'a [u8], places: &'a [u16]) -> Self
        requires few { length places.now ≤ max_units }
        requires within { EndWithinField (length field.now) places.now }
        requires units { AllByRecursion IsUnit (sent_units field.now places.now) }
        ensures { result ≡ sent_units field.now places.now }
    {
        SentUnits { field, places }
    }

    /// Returns the number of Teletext units, at most `MAX_UNITS`.
    #[inline(always)]
    pub fn len(&self) -> usize
        ensures value { result ≡ length self.now }
        ensures few { result ≤ max_units }
    {
        self.places.len()
    }

    /// Returns the Teletext packet of unit `number`, counted from 0.
    #[inline(always)]
    pub fn packet(&self, number: usize) -> SentPacket<'a>
        requires { number < length self.now }
        ensures { result ≡ slice_index_or (packets_of_units self.now) number [] }
    {
        let (_, from) = self.field.split_at(self.places[number] as usize);
        let (block, _) = from.split_at(DATA_UNIT);
        SentPacket::new(block.last_chunk().unwrap())
    }

    /// Returns Teletext unit `number`, counted from 0, with its packet in Teletext bit order.
    pub fn unit(&self, number: usize) -> Unit
        requires { number < length self.now }
        ensures { (other : UnitValue) → result ≡ slice_index_or self.now number other }
    {
        let (_, from) = self.field.split_at(self.places[number] as usize);
        let (block, _) = from.split_at(DATA_UNIT);
        decode_unit(block)
    }
}
