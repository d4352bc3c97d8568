//! Skips PES packets without parsing their contents.
ghost use Rattle.std.specs.Prelude.{◌≡◌, ◌<◌, ◌≤◌, ⊤, Err, IfErr, None, Ok, OnErr, OnOk, false};
ghost use Rattle.std.specs.Prelude.{true};
ghost use Rattle.sub_io.specs.Device.{CanFail, CountsFailure, CountsFailureIf, failed};
ghost use Rattle.ttx_pes.specs.Advancing.{HasSkipped, SkipsPesPackets};
ghost use Rattle.ttx_pes.specs.Fault.{is_packet_content_fault, is_read_fault};
ghost use Rattle.ttx_pes.specs.Reader.{ReportsPacket};
ghost use Rattle.ttx_pes.specs.Reading.{max_pes_packets};
ghost use Rattle.ttx_pes.specs.declared.progress.Progress.TheVariants.{Reading};

use crate::fault::PesFault;
use crate::pes_packets::{PesPackets, Received, TakePesPacket};
use sub_io::Failed;

/// The maximum number of PES packets in a file: one for each frame of a day at 25 frames per
/// second.
pub const MAX_PES_PACKETS: u32 = 2_160_000;

// A taker that ignores each PES packet.
#[derive(Drop)]
pub(crate) struct SkipPesPacket;

impl TakePesPacket for SkipPesPacket {
    type Answer = ();

    ghost is_take = { λ old pes_packet answer new. ⊤ };

    fn take(&mut self, _pes_packet: &[u8]) {}
}

/// Skips the first `n` PES packets, or all if the file has fewer. Stops if the device fails.
/// Returns the number of skipped packets, and whether the device failed.
pub fn skip_pes_packets<P: PesPackets>(n: u64, pes_packets: &mut P) -> (u64, Result<(), Failed>)
    requires failures { CanFail (P.failure_count pes_packets.old) }
    ensures most { result.0 ≤ n }
    // If the device failed, fewer than `n` packets were skipped.
    ensures fewer { OnErr result.1 (result.0 < n) }
    ensures skipped { OnOk result.1
        (SkipsPesPackets n (P.remaining pes_packets.old) (P.remaining pes_packets.new) result.0) }
    // Even if the device failed, the number of skipped packets is known.
    ensures so_far { HasSkipped n result.0 (P.remaining pes_packets.old)
        (P.remaining pes_packets.new) }
    ensures same { P.device pes_packets.new ≡ P.device pes_packets.old }
    ensures count { CountsFailure (P.failure_count pes_packets.old) result.1
        (P.failure_count pes_packets.new) }
{
    let mut skipped = 0;
    while skipped < n {
        let received = match pes_packets.next(&mut SkipPesPacket) {
            Ok(received) => received,
            Err(failed) => return (skipped, Err(failed)),
        };
        match received {
            Received::PesPacket(()) => skipped += 1,
            _ => return (skipped, Ok(())),
        }
    }
    (skipped, Ok(()))
}

// Reads after the maximum number of PES packets, and returns a fault unless the file ends there.
#[inline(never)]
pub(crate) fn read_end<P: PesPackets>(given: u32, pes_packets: &mut P) -> Result<(), PesFault>
    requires count { CanFail (P.failure_count pes_packets.old) }
    requires full { given ≡ max_pes_packets }
    ensures none { OnOk result (ReportsPacket (Reading given) (P.remaining pes_packets.old)
        (P.left pes_packets.new) (Ok None)) }
    ensures fault { IfErr result
        (λ fault. ReportsPacket (Reading given) (P.remaining pes_packets.old)
        (P.left pes_packets.new) (Err fault)) }
    ensures is_not_content_fault { IfErr result (λ fault. is_packet_content_fault fault ≡ false) }
    ensures ready { P.ready pes_packets.old ≡ true → failed is_read_fault result ≡ false }
    ensures device { P.device pes_packets.new ≡ P.device pes_packets.old }
    ensures count { CountsFailureIf P.failure_count pes_packets.old (failed is_read_fault result)
        pes_packets.new }
{
    match pes_packets.next(&mut SkipPesPacket)? {
        Received::End => Ok(()),
        Received::PesPacket(()) => Err(PesFault::TooMany),
        Received::Rest(_) => Err(PesFault::TooMany),
    }
}
