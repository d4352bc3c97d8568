//! Ranges of the PES packets of a file.
ghost use Rattle.std.specs.Prelude.{◌≡◌, ◌+◌, ◌-◌};
ghost use Rattle.ttx_pes.specs.PesPacketRange.{range_length, range_of};

use std::marker::Model;

/// A range of PES packets, by their indices in the file, counted from 0. Invalid packets count if
/// they are as long as their length field states. Its model has the indices of the first and the
/// last packet.
#[derive(Clone, Copy, Debug, PartialEq, Eq)]
pub struct PesPacketRange {
    first: u64,
    last: Option<u64>,
}

impl Model for PesPacketRange {
    ghost use Rattle.std.specs.Prelude.{◌≤◌, ◌<◌, IfSome};
    ghost use Rattle.ttx_pes.specs.PesPacketRange.{PesPacketRangeValue};

    ghost Value = { PesPacketRangeValue };

    ghost view = { λ r. record { first = r.first; last = r.last } };

    ghost invariant = { λ r.
        IfSome r.last (λ last. (r.first ≤ last) × (last < 0xFFFF_FFFF_FFFF_FFFF)) };

    ghost inverse = { λ v. record { first = v.first; last = v.last } };
}

impl PesPacketRange {
    /// Creates the range from `first` to `last`, inclusive, or to the end of the file if `last` is
    /// `None`. Returns `None` if `last` is less than `first`, or is the greatest 64-bit number.
    #[tactic(auto, unfolding(crate::specs::PesPacketRange::range_of))]
    pub fn new(first: u64, last: Option<u64>) -> Option<PesPacketRange>
        ensures { result ≡ range_of first last }
    {
        if let Some(last) = last {
            if last < first || last == u64::MAX {
                return None;
            }
        }
        Some(PesPacketRange { first, last })
    }

    /// Returns the number of PES packets before the range.
    pub fn first(self) -> u64
        ensures { result ≡ self.first }
    {
        self.first
    }

    /// Returns the number of PES packets in the range, or `None` if it extends to the end of the
    /// file.
    pub fn pes_packet_count(self) -> Option<u64>
        ensures { result ≡ range_length self }
    {
        match self.last {
            Some(last) => Some(last - self.first + 1),
            None => None,
        }
    }
}
