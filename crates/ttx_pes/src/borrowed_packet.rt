//! Flushes pending reports before a read that may block: a read of a PES packet that is not
//! completely buffered in the source.
ghost use Rattle.std.specs.Prelude.{◌≡◌, OnOk, is_ok};
ghost use Rattle.sub_io.specs.Flushing.{FlushesOnlyIfPending, BuffersOnlyWhilePending};
ghost use Rattle.ttx_pes.specs.BorrowedPacket.{NothingIsPendingUnlessReady, has_enough_for_packet};

use crate::pes_header::decode_packet_size;
use crate::pes_packets::PesPackets;
use sub_io::{Live, Stopped};

/// Returns whether the bytes suffice to read the next PES packet: they contain the complete packet
/// (EN 300 472, PES_packet_length), or six bytes that show a wrong start code or length.
#[tactic(auto, using(crate::proofs::BorrowedPacketLemmas::short_bytes_are_not_enough))]
pub fn has_enough_for_packet(borrowed: &[u8]) -> bool
    ensures { result ≡ has_enough_for_packet borrowed.now }
{
    let Some(head) = borrowed.first_chunk() else {
        return false;
    };
    match decode_packet_size(head) {
        Ok(size) => size <= borrowed.len(),
        Err(_) => true,
    }
}

/// Flushes pending reports of a device, if the next read may block.
///
/// # Errors
///
/// Returns `Stopped` if `flush_pending` returns it.
#[inline(always)]
pub fn flush_first<P: PesPackets, A: Live>(pes_packets: &P, device: &mut A) -> Result<(), Stopped>
    ensures call { FlushesOnlyIfPending A.has_pending_reports A.is_flushed device.old (is_ok result)
        device.new }
    ensures ready { OnOk result
        (NothingIsPendingUnlessReady (A.has_pending_reports device.new) (P.ready pes_packets.now)) }
    ensures holds { BuffersOnlyWhilePending A.has_pending_reports A.buffered device.old
        → OnOk result (BuffersOnlyWhilePending A.has_pending_reports A.buffered device.new) }
{
    if !device.has_pending() {
        return Ok(());
    }
    if pes_packets.is_ready() {
        return Ok(());
    }
    device.flush_pending()
}
