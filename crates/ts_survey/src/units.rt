//! The Teletext packets in the data units of a PES packet, in order (EN 300 472, data field
//! syntax).
ghost use Rattle.std.specs.Prelude.{◌≡◌, ◌+◌, ◌≤◌, ◌<◌, length, slice_index, IfNone, IfSome, drop};
ghost use Rattle.std.specs.Prelude.{take};
ghost use Rattle.ts_survey.specs.Heard.{first_unit_offset, borrowed_packets, unit_packets};

/// The size in bytes of a data unit with a Teletext packet.
const UNIT_SIZE: usize = 46;

/// Returns the data units of a PES packet, which follow its header and data_identifier.
pub fn units_of(pes: &[u8]) -> &[u8]
    ensures { result.now ≡ drop (first_unit_offset pes.now) pes.now }
{
    following(pes, first_unit_offset(pes))
}

// Returns the offset of the first data unit in a PES packet; the number of bytes if there are fewer
// than ten.
fn first_unit_offset(pes: &[u8]) -> usize
    ensures { result ≡ first_unit_offset pes.now }
{
    if pes.len() > 9 {
        10 + pes[8] as usize
    } else {
        pes.len()
    }
}

/// Returns the bytes after the first `count` bytes.
pub fn following(bytes: &[u8], count: usize) -> &[u8]
    ensures { result.now ≡ drop count bytes.now }
{
    let (_, rest) = bytes.split_at(count.min(bytes.len()));
    rest
}

/// A data unit: its size in bytes, and its Teletext packet in the bit order of the data unit, if it
/// carries one.
#[derive(Clone, Copy)]
pub struct DataUnit<'a> {
    pub size: usize,
    pub packet: Option<&'a [u8; 42]>,
}

/// Returns the data unit at the front of the bytes, if the bytes have room for a data unit with
/// Teletext.
pub fn unit_of(bytes: &[u8]) -> Option<DataUnit<'_>>
    ensures none { IfNone result (length bytes.now < 46) }
    ensures some { IfSome result (λ _. 46 ≤ length bytes.now) }
    ensures size { IfSome result (λ u. u.size ≡ 2 + slice_index bytes.now 1) }
    ensures packet { IfSome result (λ u.
        borrowed_packets u.packet ≡ unit_packets (take 46 bytes.now)) }
{
    if bytes.len() < UNIT_SIZE {
        return None;
    }
    let (unit, _) = bytes.split_at(UNIT_SIZE);
    Some(DataUnit {
        size: 2 + bytes[1] as usize,
        packet: packet_of(unit),
    })
}

// Returns the Teletext packet of a data unit, if it carries one.
#[tactic(auto, unfolding(crate::specs::Heard::borrowed_packets, crate::specs::Heard::unit_packets))]
fn packet_of(unit: &[u8]) -> Option<&[u8; 42]>
    requires { length unit.now ≡ 46 }
    ensures { borrowed_packets result ≡ unit_packets unit.now }
{
    if unit[1] == 0x2C && (unit[0] == 2 || unit[0] == 3) {
        unit.last_chunk()
    } else {
        None
    }
}
