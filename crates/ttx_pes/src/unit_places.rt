//! The offsets of the Teletext units in a data field, with which the units need not be copied.
ghost use Rattle.std.specs.Prelude.{◌≡◌, ◌+◌, ◌*◌, ◌/◌, ◌<◌, ◌≤◌, [], ◌∷◌, ◌++◌, length, take};
ghost use Rattle.std.specs.Prelude.{drop};
ghost use Rattle.std.specs.Prelude.{Err, IfErr, IfOk, MatchOption, Ok, OnOk, false, true};
ghost use Rattle.ttx_pes.specs.DataUnit.{data_unit_size};
ghost use Rattle.ttx_pes.specs.LineOrder.{last_place, may_follow};
ghost use Rattle.ttx_pes.specs.PesGrammar.{max_pes_packet_size, max_units};
ghost use Rattle.ttx_pes.specs.Reading.{is_format_fault, unit_at, unit_of, units_at};
ghost use Rattle.ttx_pes.specs.SentUnits.{EndWithinField, sent_units};
ghost use Rattle.ttx_pes.specs.Accepting.{AreAllUnitPlaces, teletext_place};

use crate::data_unit::{DATA_UNIT, is_teletext};
use crate::fault::PesFault;
use crate::pes_frame::MAX_UNITS;
use std::marker::Model;

/// The offsets of the Teletext units in a data field, in order.
#[derive(Drop)]
pub(crate) struct UnitPlaces {
    // Only the first `count` offsets are used.
    places: [u16; MAX_UNITS],
    count: usize,
}

impl Model for UnitPlaces {
    ghost use Rattle.std.specs.Prelude.{ℕ, ◌≤◌, List, take};
    ghost use Rattle.ttx_pes.specs.PesGrammar.{max_units};

    ghost Value = { List ℕ };

    ghost view = { λ p. take p.count p.places };

    ghost invariant = { λ p. p.count ≤ max_units };
}

impl UnitPlaces {
    /// Creates an empty list of offsets.
    pub fn new() -> Self
        ensures { result ≡ [] }
    {
        UnitPlaces {
            places: [0; MAX_UNITS],
            count: 0,
        }
    }

    /// Removes all offsets.
    pub fn clear(&mut self)
        ensures { self.new ≡ [] }
    {
        self.count = 0;
    }

    /// Returns the offsets of the Teletext units, at most `MAX_UNITS`.
    pub fn as_slice(&self) -> &[u16]
        ensures value { result.now ≡ self.now }
        ensures few { length self.now ≤ max_units }
    {
        &self.places[..self.count]
    }

    /// Appends an offset to the list.
    fn push(&mut self, place: u16)
        requires { length self.old < max_units }
        ensures { self.new ≡ self.old ++ place ∷ [] }
    {
        self.places[self.count] = place;
        self.count += 1;
    }
}

// Returns the line order position that the next unit must follow, or `None` if the unit of this
// data unit may not follow the position `last`.
#[inline(always)]
fn line_place_after(last: u8, block: &[u8]) -> Option<u8>
    requires last { last < 64 }
    requires block { length block.now ≡ data_unit_size }
    ensures { MatchOption result (may_follow last (unit_of block.now) ≡ false) (λ next.
        (may_follow last (unit_of block.now) ≡ true)
        × (next ≡ last_place last (unit_of block.now ∷ []))
        × (next < 64)) }
{
    let line = block[2] % 32;
    if line == 0 {
        return Some(last);
    }
    let place = 32 * (1 - block[2] / 32 % 2) + line;
    if last < place { Some(place) } else { None }
}

// Appends the offset of a data unit if it carries a Teletext packet. Its unit must be in line order
// after the position `last`; returns the position that the next unit must follow, or the fault of
// the data unit.
#[inline(always)]
#[tactic(auto, using(crate::proofs::SentUnitLemmas::one_more))]
fn append_unit_place(
    places: &mut UnitPlaces,
    last: u8,
    field: &[u8],
    place: u16,
) -> Result<u8, PesFault>
    requires room { length places.old < max_units }
    requires within { place + data_unit_size ≤ length field.now }
    requires last { last ≡ last_place 0 (sent_units field.now places.old) }
    requires small { last < 64 }
    ensures room { length places.new ≤ length places.old + 1 }
    ensures within { EndWithinField (length field.now) places.old
        → EndWithinField (length field.now) places.new }
    ensures ok { OnOk result (unit_at (sent_units field.now places.old)
        (take data_unit_size (drop place field.now)) ≡ Ok (sent_units field.now places.new)) }
    ensures placed { OnOk result
        (places.new ≡ places.old ++ teletext_place place field.now) }
    ensures last { IfOk result (λ next. next ≡ last_place 0 (sent_units field.now places.new)) }
    ensures small { IfOk result (λ next. next < 64) }
    ensures err { IfErr result (λ fault. unit_at (sent_units field.now places.old)
        (take data_unit_size (drop place field.now)) ≡ Err fault) }
    ensures kind { IfErr result (λ fault. is_format_fault fault ≡ true) }
{
    let (_, from) = field.split_at(place as usize);
    let (block, _) = from.split_at(DATA_UNIT);
    if !is_teletext(block)? {
        return Ok(last);
    }
    let Some(next) = line_place_after(last, block) else {
        return Err(PesFault::LineOrder);
    };
    places.push(place);
    Ok(next)
}

/// Finds the offsets of the Teletext units in a data field, up to the first fault. Does not read
/// the Teletext packets.
#[tactic(auto, using(crate::proofs::SentUnitLemmas::places_left))]
pub(crate) fn append_unit_places(places: &mut UnitPlaces, field: &[u8]) -> Result<(), PesFault>
    requires none { places.old ≡ [] }
    requires some { 1 ≤ length field.now }
    requires short { length field.now + 45 ≤ max_pes_packet_size }
    ensures within { EndWithinField (length field.now) places.new }
    ensures ok { OnOk result (units_at (length (drop 1 field.now) / data_unit_size) []
        (drop 1 field.now) ≡ Ok (sent_units field.now places.new)) }
    ensures placed { OnOk result (AreAllUnitPlaces field.now places.new) }
    ensures err { IfErr result (λ fault. units_at (length (drop 1 field.now) / data_unit_size) []
        (drop 1 field.now) ≡ Err fault) }
    ensures kind { IfErr result (λ fault. is_format_fault fault ≡ true) }
{
    let count = (field.len() - 1) / DATA_UNIT;
    let mut last = 0;
    for k in 0..count {
        last = append_unit_place(places, last, field, (1 + DATA_UNIT * k) as u16)?;
    }
    Ok(())
}
