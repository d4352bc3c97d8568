//! Readers of PES packets that find the index of their first packet in the file.
ghost use Rattle.std.specs.Prelude.{◌≡◌, ◌≤◌, ℕ, IfErr, IfOk, OnErr, Option, Some};
ghost use Rattle.std.specs.Io.KnownBytes.{Keeps};
ghost use Rattle.sub_io.specs.Device.{CanFail, CountsFailure};

use crate::pes_packets::PesPackets;

/// The error of a device that failed before the first PES packet to read was found.
#[derive(Clone, Copy, Debug, PartialEq, Eq)]
pub struct FailedAt {
    /// The index in the file, counted from 0, of the PES packet within which the device failed.
    pub pes: u64,
}

/// A reader of some or all PES packets of a file or recording. Reports identify a packet by its
/// index in the file.
pub trait NumberedPesPackets: PesPackets {
    // The index in the file of the first PES packet to read, or the number of packets in the file
    // if it has fewer. It is `None` only if the bytes of the file are unknown.
    ghost first: { Self → Option ℕ };

    // The number of PES packets that were skipped before the first packet to read.
    ghost skipped: { Self → ℕ };

    /// Skips the PES packets before the first packet to read, and returns the index of that packet
    /// in the file, counted from 0, or the number of packets in the file if it has fewer.
    ///
    /// # Errors
    ///
    /// Returns `FailedAt` if the device fails.
    fn find_first(&mut self) -> Result<u64, FailedAt>
        requires failures { CanFail (Self.failure_count self.old) }
        ensures kept { Keeps (Self.remaining self.old) (Self.remaining self.new) }
        ensures first { (n : ℕ) → first self.old ≡ Some n → IfOk result (λ found. found ≡ n) }
        ensures before { (n : ℕ) → first self.old ≡ Some n → IfErr result (λ at. at.pes ≤ n) }
        // If the device fails, it fails within the PES packet after the skipped packets, and the
        // index of the first packet to read does not change.
        ensures failed { IfErr result (λ at. at.pes ≡ skipped self.new) }
        ensures left { (n : ℕ) → first self.old ≡ Some n
            → IfErr result (λ _. first self.new ≡ Some n) }
        // If the device fails, none of the PES packets to read was consumed.
        ensures unread { OnErr result (Keeps (Self.remaining self.old) (Self.left self.new)) }
        ensures same { Self.device self.new ≡ Self.device self.old }
        ensures count { CountsFailure (Self.failure_count self.old) result
            (Self.failure_count self.new) };
}
