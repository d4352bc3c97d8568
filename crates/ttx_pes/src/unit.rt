//! Teletext units: a Teletext packet with the line on which the packet is sent.
ghost use Rattle.std.specs.Prelude.{◌≡◌, ◌<◌, ◌≤◌, ◌==◌, if◌then◌else◌, is_some, IfSome};
ghost use Rattle.std.specs.Prelude.{replicate};

use std::marker::Model;
use ttx_packet::Packet;

/// The contents of a data unit that carries a Teletext packet (EN 300 472, data unit syntax),
/// without its reserved bits.
#[derive(Clone, Copy, Debug, PartialEq, Eq)]
pub struct Unit {
    id: u8,
    field: u8,
    line: u8,
    packet: Packet,
}

impl Model for Unit {
    ghost use Rattle.ttx_pes.specs.DataUnit.{UnitValue, IsUnit};

    ghost Value = { UnitValue };

    ghost view = { λ u. record { id = u.id; field = u.field; line = u.line; packet = u.packet } };

    ghost invariant = { λ u. IsUnit
        (record { id = u.id; field = u.field; line = u.line; packet = u.packet }) };

    ghost inverse = { λ u.
        record { id = u.id; field = u.field; line = u.line; packet = u.packet } };
}

impl Default for Unit {
    /// Returns the unit that fills the array of a new frame: data_unit_id 02, line 0 of the first
    /// field, and zero bytes.
    fn default() -> Self
        ensures { result ≡ record { id = 2; field = 1; line = 0; packet = replicate 42 0 } }
    {
        Unit::new(2, 1, 0, Packet::new([0; 42]))
    }
}

impl Unit {
    ghost use Rattle.ttx_pes.specs.DataUnit.{IsUnit};
    ghost use Rattle.ttx_pes.specs.LineOrder.{line_order_place, may_follow};

    /// Creates a Teletext unit from its fields.
    ///
    /// `id` is data_unit_id, 02 or 03; `field` is 1 for the first field (field_parity 1) and 2 for
    /// the second; `line` is line_offset, 0 to 31, where 0 means that no line is defined.
    pub fn new(id: u8, field: u8, line: u8, packet: Packet) -> Self
        requires id { (2 ≤ id) × (id ≤ 3) }
        requires field { (1 ≤ field) × (field ≤ 2) }
        requires line { line < 32 }
        ensures { result ≡ record { id = id; field = field; line = line; packet = packet } }
    {
        let _bytes = packet.bytes();
        Unit {
            id,
            field,
            line,
            packet,
        }
    }

    /// Returns the data_unit_id: 3 for Teletext subtitles, 2 for other Teletext.
    pub fn id(&self) -> u8
        ensures value { result ≡ self.now.id }
        ensures range { (2 ≤ result) × (result ≤ 3) }
    {
        self.id
    }

    /// Returns the field of the unit: 1 if field_parity is 1, and 2 if field_parity is 0.
    pub fn field(&self) -> u8
        ensures value { result ≡ self.now.field }
        ensures range { (1 ≤ result) × (result ≤ 2) }
    {
        self.field
    }

    /// Returns line_offset, 0 to 31: the line of the field, or 0 if no line is defined.
    pub fn line(&self) -> u8
        ensures value { result ≡ self.now.line }
        ensures range { result < 32 }
    {
        self.line
    }

    /// Returns the Teletext packet of the unit in Teletext bit order.
    pub fn packet(&self) -> &Packet
        ensures value { result.now ≡ self.now.packet }
    {
        &self.packet
    }

    // Returns the line order position that the next unit must follow, or `None` if this unit may
    // not follow the position `last`.
    pub(crate) fn line_place_after(&self, last: u8) -> Option<u8>
        requires { last < 64 }
        ensures accepts_ordered_unit { is_some result ≡ may_follow last self.now }
        ensures value { IfSome result (λ next.
            next ≡ (if self.now.line == 0 then last else line_order_place self.now)) }
        ensures range { IfSome result (λ next. next < 64) }
        ensures unit { IsUnit self.now }
    {
        if self.line == 0 {
            return Some(last);
        }
        let place = 32 * (self.field - 1) + self.line;
        if last < place { Some(place) } else { None }
    }
}
