//! The contents of one PES packet.
ghost use Rattle.std.specs.Prelude.{◌≡◌, ◌+◌, ◌^◌, ◌<◌, ◌≤◌, ◌↔◌, true, [], ◌∷◌, ◌++◌, length};
ghost use Rattle.std.specs.Prelude.{take};
ghost use Rattle.std.specs.Prelude.{IsOk, OnOk, IfErr, OnErr};
ghost use Rattle.ttx_pes.specs.PesGrammar.{max_units};

use crate::unit::Unit;
use arrayvec::ArrayVec;
use std::marker::Model;

/// The maximum number of Teletext units in a PES packet: nine payloads contain 9 * 4 - 1 data
/// units.
pub const MAX_UNITS: usize = 35;

/// The contents of one PES packet: a PTS, and Teletext units in line order (EN 300 472; the order
/// is not defined by a standard).
#[derive(Drop)]
pub struct PesFrame {
    pts: u64,
    // Only the first `count` units belong to the frame. For speed, units of earlier frames are not
    // reset.
    units: ArrayVec<Unit, MAX_UNITS>,
    count: usize,
    // The line order position of the last unit with a defined line, which the next unit must
    // follow, or 0 if there is none.
    last: u8,
}

impl Model for PesFrame {
    ghost use Rattle.std.specs.Prelude.{◌≡◌, ◌<◌, ◌≤◌, ◌^◌, length, take};
    ghost use Rattle.std.specs.List.{AllByRecursion};
    ghost use Rattle.ttx_pes.specs.DataUnit.{IsUnit};
    ghost use Rattle.ttx_pes.specs.LineOrder.{last_place, AreInLineOrder};
    ghost use Rattle.ttx_pes.specs.PesGrammar.{PesValue};

    ghost Value = { PesValue };

    ghost view = { λ f. record { pts = f.pts; units = take f.count f.units.items } };

    ghost invariant = { λ f.
        (f.pts < 2 ^ 33)
        × (f.count ≤ length f.units.items)
        × (f.last ≡ last_place 0 (take f.count f.units.items))
        × (f.last < 64)
        × AreInLineOrder 0 (take f.count f.units.items)
        × AllByRecursion IsUnit (take f.count f.units.items) };
}

impl PesFrame {
    ghost use Rattle.ttx_pes.specs.LineOrder.{last_place, may_follow};
    ghost use Rattle.ttx_pes.specs.PesGrammar.{IsPesValue, empty_value};

    /// Creates a frame without units. `pts` is in ticks of 90 kHz, 33 bits.
    pub fn new(pts: u64) -> Self
        requires { pts < 2 ^ 33 }
        ensures { result ≡ record { pts = pts; units = [] } }
    {
        PesFrame {
            pts,
            units: ArrayVec::new(),
            count: 0,
            last: 0,
        }
    }

    /// Returns the presentation time stamp, PTS, in ticks of 90 kHz, 33 bits.
    pub fn pts(&self) -> u64
        ensures value { result ≡ self.now.pts }
        ensures range { result < 2 ^ 33 }
    {
        self.pts
    }

    /// Returns the Teletext units in the order of the packet, at most `MAX_UNITS`.
    pub fn units(&self) -> &[Unit]
        ensures value { result.now ≡ self.now.units }
        // The contents of every frame fit in a PES packet.
        ensures frame { IsPesValue self.now }
    {
        &self.units.as_slice()[..self.count]
    }

    /// Appends a unit to the frame.
    ///
    /// # Errors
    ///
    /// Returns `unit` if the frame already has `MAX_UNITS` units, or if the line of `unit` does
    /// not come after the lines of the earlier units; a unit of line 0 may be anywhere. The frame
    /// does not change.
    #[tactic(auto, using(crate::proofs::LineOrderLemmas::order))]
    pub fn add(&mut self, unit: Unit) -> Result<(), Unit>
        ensures accepts_ordered_unit { IsOk result ↔ ((length self.old.units < max_units)
            × (may_follow (last_place 0 self.old.units) unit ≡ true)) }
        ensures ok { OnOk result
            (self.new ≡ record self.old { units = self.old.units ++ unit ∷ [] }) }
        ensures err { OnErr result (self.new ≡ self.old) }
        ensures back { IfErr result (λ given. given ≡ unit) }
    {
        if self.count >= MAX_UNITS {
            return Err(unit);
        }
        let Some(place) = unit.line_place_after(self.last) else {
            return Err(unit);
        };
        self.last = place;
        store_unit_at(&mut self.units, self.count, unit);
        self.count += 1;
        Ok(())
    }

    // Appends a unit to a frame. The unit must fit in it.
    #[tactic(auto, using(crate::proofs::LineOrderLemmas::order))]
    pub(crate) fn push(&mut self, unit: Unit)
        requires room { length self.old.units < max_units }
        requires unit_is_in_order { may_follow (last_place 0 self.old.units) unit ≡ true }
        ensures { self.new ≡ record self.old { units = self.old.units ++ unit ∷ [] } }
    {
        let place = unit.line_place_after(self.last).unwrap();
        self.last = place;
        store_unit_at(&mut self.units, self.count, unit);
        self.count += 1;
    }

    // Sets the PTS of the frame, and keeps the units.
    pub(crate) fn set_pts(&mut self, pts: u64)
        requires { pts < 2 ^ 33 }
        ensures { self.new ≡ record self.old { pts = pts } }
    {
        self.pts = pts;
    }

    // Sets the PTS of the frame, and removes all units.
    pub(crate) fn restart(&mut self, pts: u64)
        requires { pts < 2 ^ 33 }
        ensures { self.new ≡ record { pts = pts; units = [] } }
    {
        self.set_pts(pts);
        self.count = 0;
        self.last = 0;
    }
}

// Stores a unit at the index `place`, over a unit of an earlier frame or at the end.
fn store_unit_at(units: &mut ArrayVec<Unit, MAX_UNITS>, place: usize, unit: Unit)
    requires place { place ≤ length units.old.items }
    requires room { place < max_units }
    ensures items { take (place + 1) units.new.items ≡ take place units.old.items ++ unit ∷ [] }
    ensures len { place < length units.new.items }
{
    if place < units.len() {
        units.as_mut_slice()[place] = unit;
    } else {
        units.push(unit);
    }
}
