//! The frame of a valid PES packet, and whether its contents repeat the previous ones.
ghost use Rattle.std.specs.Prelude.{◌≡◌, ◌≤◌, length};
ghost use Rattle.ttx_pes.specs.PesGrammar.{IsPesValue, max_units};

use ttx_pes::{ComparingReader, SentUnits};

/// A valid PES packet, with its frame.
#[derive(Clone, Copy, Debug, PartialEq, Eq)]
pub struct ValidPesPacket {
    /// The frame of the day to which the PTS belongs.
    pub frame: u32,
    /// Whether the previous PES packet is valid and has the same data field, byte for byte, so that
    /// the Teletext packets are the same too.
    pub again: bool,
}

/// Returns the Teletext data units of the PES packet that `reader` read last; none before the first
/// packet, at the end and after a fault.
pub fn units_of(reader: &ComparingReader) -> SentUnits<'_>
    ensures value { result ≡ reader.now.frame.units }
    ensures few { length result ≤ max_units }
    ensures frame { IsPesValue reader.now.frame }
{
    reader.units()
}
