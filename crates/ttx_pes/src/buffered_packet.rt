//! Parsed fields of the last PES packet, so that the data units of a repeat need not be parsed.
ghost use Rattle.std.specs.Prelude.{◌≡◌, ◌+◌, ◌/◌, ◌%◌, ◌≤◌, ◌↔◌, true, Ok, Err, OnOk, IfOk, IfErr};
ghost use Rattle.std.specs.Prelude.{IfSome, length, drop, take, []};
ghost use Rattle.ttx_pes.specs.DataUnit.{data_unit_size};
ghost use Rattle.ttx_pes.specs.PesGrammar.{max_pes_packet_size, payload_size};
ghost use Rattle.ttx_pes.specs.Reading.{units_at, value_at, is_format_fault};
ghost use Rattle.ttx_pes.specs.SentUnits.{EndWithinField, sent_units};
ghost use Rattle.ttx_pes.specs.Accepting.{AreAllUnitPlaces, DecodesToUnits, IsDataFieldSize};
ghost use Rattle.ttx_pes.specs.Accepting.{ArePacketFields};
ghost use Rattle.ttx_pes.specs.Accepting.{IsRepeatedPacket};
ghost use Rattle.ttx_pes.specs.Accepting.{data_field_in_buffer, buffered_frame, no_buffered_packet};

use crate::equal_unit_headers::are_unit_headers_equal;
use crate::fault::PesFault;
use crate::pes_header::pts_of;
use crate::pes_packet_buffer::PacketBuffer;
use crate::same_bytes::{have_equal_starts, is_same};
use crate::sent_units::SentUnits;
use crate::unit_places::{UnitPlaces, append_unit_places};
use std::marker::Model;

// The offset of the data field in a PES packet.
const DATA_FIELD_OFFSET: usize = 45;

/// Parsed fields of the PES packet in a buffer: its PTS, the size of its data field (bytes 45 to
/// the end), and the offsets of its Teletext units.
#[derive(Drop)]
pub(crate) struct BufferedPacket {
    pts: u64,
    count: usize,
    places: UnitPlaces,
    // Whether the packet repeated the packet before it. If it did, the next packet probably is a
    // repeat too.
    repeats: bool,
}

impl Model for BufferedPacket {
    ghost use Rattle.std.specs.Prelude.{◌≡◌, true};
    ghost use Rattle.ttx_pes.specs.Accepting.{BufferedPacketValue, IsDataFieldSize};

    ghost Value = { BufferedPacketValue };

    ghost view = { λ h. record { pts = h.pts; count = h.count; places = h.places } };

    ghost invariant = { λ h. h.repeats ≡ true → IsDataFieldSize h.count };
}

// Changes `places` from the offsets of the Teletext units in the data field `kept` to those in
// `field`, or returns the first fault of `field`. Usually the data units of both are on the same
// lines, so the offsets do not change.
#[inline(always)]
fn find_places(places: &mut UnitPlaces, kept: &[u8], field: &[u8]) -> Result<(), PesFault>
    requires within { EndWithinField (length kept.now) places.old }
    requires units { DecodesToUnits kept.now (sent_units kept.now places.old) }
    requires all { AreAllUnitPlaces kept.now places.old }
    requires long { 139 ≤ length field.now }
    requires short { length field.now + 45 ≤ max_pes_packet_size }
    requires whole { (length field.now + 45) % payload_size ≡ 0 }
    ensures within { OnOk result (EndWithinField (length field.now) places.new) }
    ensures all { OnOk result (AreAllUnitPlaces field.now places.new) }
    ensures ok { OnOk result (units_at (length (drop 1 field.now) / data_unit_size) []
        (drop 1 field.now) ≡ Ok (sent_units field.now places.new)) }
    ensures err { IfErr result (λ fault. units_at (length (drop 1 field.now) / data_unit_size) []
        (drop 1 field.now) ≡ Err fault) }
    ensures kind { IfErr result (λ fault. is_format_fault fault ≡ true) }
{
    if kept.len() == field.len() && are_unit_headers_equal(kept, field) {
        return Ok(());
    }
    places.clear();
    append_unit_places(places, field)
}

// Returns whether a data field equals the stored one. For speed, compares their lengths and first
// eight bytes before the other bytes.
#[inline(always)]
fn equals_stored_field(kept: &[u8], field: &[u8]) -> bool
    requires { IsDataFieldSize (length field.now) }
    ensures { (result ≡ true) ↔ (field.now ≡ kept.now) }
{
    kept.len() == field.len() && have_equal_starts(field, kept) && is_same(field, kept)
}

impl BufferedPacket {
    // Creates the parsed fields for an empty buffer.
    pub(crate) fn new() -> Self
        ensures { result ≡ no_buffered_packet }
    {
        BufferedPacket {
            pts: 0,
            count: 0,
            places: UnitPlaces::new(),
            repeats: false,
        }
    }

    // Resets the parsed fields to those of an empty buffer.
    pub(crate) fn clear(&mut self)
        ensures { self.new ≡ no_buffered_packet }
    {
        self.pts = 0;
        self.count = 0;
        self.places.clear();
        self.repeats = false;
    }

    // Returns the PTS of the packet in the buffer, in ticks of 90 kHz, or 0 if there is no packet.
    pub(crate) fn pts(&self) -> u64
        ensures { result ≡ self.now.pts }
    {
        self.pts
    }

    // Returns the size of the packet in bytes, or 45, an impossible size, if there is no packet.
    pub(crate) fn size(&self) -> usize
        requires { self.now.count + 45 ≤ max_pes_packet_size }
        ensures { result ≡ self.now.count + 45 }
    {
        DATA_FIELD_OFFSET + self.count
    }

    // Sets the PTS of the packet.
    pub(crate) fn set_pts(&mut self, pts: u64)
        ensures { self.new ≡ record self.old { pts = pts } }
    {
        self.pts = pts;
    }

    // Returns whether the packet repeated the packet before it. Only the speed of reading depends
    // on this, not the result.
    #[inline(always)]
    pub(crate) fn repeats(&self) -> bool
        ensures { result ≡ true → IsDataFieldSize self.now.count }
    {
        self.repeats
    }

    // Returns the PTS of a packet that repeats the packet in the buffer: it is valid and has the
    // same data field. Returns `None` for any other packet.
    #[inline(always)]
    pub(crate) fn read_repeated_pts(&self, before: &PacketBuffer, pes_packet: &[u8]) -> Option<u64>
        requires known { ArePacketFields (data_field_in_buffer self.now.count before.now) self.now }
        requires size { IsDataFieldSize self.now.count }
        ensures again { IfSome result (λ pts.
            IsRepeatedPacket (data_field_in_buffer self.now.count before.now) self.now
            pes_packet.now pts) }
    {
        if pes_packet.len() != self.size() {
            return None;
        }
        let (_, body) = pes_packet.split_at(6);
        let (_, field) = body.split_at(39);
        if !is_same(field, self.field(before)) {
            return None;
        }
        match pts_of(body) {
            Ok(pts) => Some(pts),
            Err(_) => None,
        }
    }

    // Returns the data field of the packet in the buffer.
    fn field<'a>(&self, room: &'a PacketBuffer) -> &'a [u8]
        requires { self.now.count + 45 ≤ max_pes_packet_size }
        ensures { result.now ≡ data_field_in_buffer self.now.count room.now }
    {
        let (_, following) = room.split_at(DATA_FIELD_OFFSET);
        let (field, _) = following.split_at(self.count);
        field
    }

    // Returns the Teletext units of the packet in the buffer.
    pub(crate) fn units<'a>(&'a self, room: &'a PacketBuffer) -> SentUnits<'a>
        requires { ArePacketFields (data_field_in_buffer self.now.count room.now) self.now }
        ensures value { result
            ≡ (buffered_frame (data_field_in_buffer self.now.count room.now) self.now).units }
    {
        SentUnits::new(self.field(room), self.places.as_slice())
    }

    // Replaces the parsed fields by those of a new packet, given its bytes from byte 6 on. Returns
    // whether its data field equals that of the packet in the buffer `before`. After a fault the
    // parsed fields are unspecified.
    #[inline(always)]
    #[tactic(auto, unfolding(crate::specs::Reading::value_at))]
    pub(crate) fn take(&mut self, before: &PacketBuffer, body: &[u8]) -> Result<bool, PesFault>
        requires known { ArePacketFields (data_field_in_buffer self.old.count before.now) self.old }
        requires long { payload_size ≤ length body.now + 6 }
        requires short { length body.now + 6 ≤ max_pes_packet_size }
        requires whole { (length body.now + 6) % payload_size ≡ 0 }
        ensures value { OnOk result
            (value_at body.now ≡ Ok (buffered_frame (drop 39 body.now) self.new)) }
        ensures known { OnOk result (ArePacketFields (drop 39 body.now) self.new) }
        ensures count { OnOk result (self.new.count + 39 ≡ length body.now) }
        ensures same { IfOk result (λ same.
            (same ≡ true) ↔ (drop 39 body.now ≡ data_field_in_buffer self.old.count before.now)) }
        ensures kept { result ≡ Ok true → self.new.count ≡ self.old.count }
        ensures units { result ≡ Ok true → sent_units (drop 39 body.now) self.new.places
            ≡ sent_units (data_field_in_buffer self.old.count before.now) self.old.places }
        ensures err { IfErr result (λ fault. value_at body.now ≡ Err fault) }
        ensures kind { IfErr result (λ fault. is_format_fault fault ≡ true) }
    {
        let pts = pts_of(body)?;
        let (_, field) = body.split_at(39);
        let kept = self.field(before);
        if equals_stored_field(kept, field) {
            self.pts = pts;
            self.repeats = true;
            return Ok(true);
        }
        find_places(&mut self.places, kept, field)?;
        self.pts = pts;
        self.count = field.len();
        self.repeats = false;
        Ok(false)
    }
}
