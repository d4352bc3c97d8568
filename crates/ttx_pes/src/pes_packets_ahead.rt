//! Counts the PES packets to skip before a range.
ghost use Rattle.std.specs.Prelude.{◌≡◌, ◌+◌, ◌-◌, ◌≤◌};

use std::marker::Model;

/// The number of skipped PES packets, and the number of PES packets still to be skipped. Its model
/// has both numbers.
#[derive(Drop)]
pub struct PesPacketsAhead {
    skipped: u64,
    to_skip: u64,
}

impl Model for PesPacketsAhead {
    ghost use Rattle.std.specs.Prelude.{◌+◌, ◌≤◌};
    ghost use Rattle.ttx_pes.specs.PesPacketRange.{AheadValue};

    ghost Value = { AheadValue };

    ghost view = { λ a. record { skipped = a.skipped; to_skip = a.to_skip } };

    ghost invariant = { λ a. a.skipped + a.to_skip ≤ 0xFFFF_FFFF_FFFF_FFFF };
}

impl PesPacketsAhead {
    /// Creates a counter with `to_skip` PES packets still to be skipped.
    pub fn new(to_skip: u64) -> Self
        ensures { result ≡ record { skipped = 0; to_skip = to_skip } }
    {
        PesPacketsAhead {
            skipped: 0,
            to_skip,
        }
    }

    // Returns the number of skipped PES packets.
    pub(crate) fn skipped(&self) -> u64
        ensures { result ≡ self.now.skipped }
    {
        self.skipped
    }

    // Returns the number of PES packets still to be skipped.
    pub(crate) fn to_skip(&self) -> u64
        ensures { result ≡ self.now.to_skip }
    {
        self.to_skip
    }

    // Counts skipped PES packets.
    pub(crate) fn add_skipped(&mut self, skipped: u64)
        requires { skipped ≤ self.old.to_skip }
        ensures { self.new ≡ record {
          skipped = self.old.skipped + skipped;
          to_skip = self.old.to_skip - skipped;
        } }
    {
        self.skipped += skipped;
        self.to_skip -= skipped;
    }

    // Sets the number of PES packets still to be skipped to 0.
    pub(crate) fn stop_skipping(&mut self)
        ensures { self.new ≡ record self.old { to_skip = 0 } }
    {
        self.to_skip = 0;
    }
}
